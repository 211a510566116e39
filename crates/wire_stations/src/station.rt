//! The message `station.Station` as a struct.
use crate::report_sample::ReportSampleInC;
use crate::station_power::StationPowerInC;
use wire_codec::{DecodeContext, DecodeError, Tag};
use wire_fields::{Bool, Sint32};
use wire_report::ReportLevel;
use wire_structs::{
    BytesInC, EnumInC, FieldNumbers, MessageStruct, NumberInC, TextInC, merge_count,
    merge_message_count, merge_optional, merge_optional_message, merge_value, pass_by,
};

/// A station.
#[repr(C)]
#[derive(Clone, Copy)]
pub struct StationInC<'a> {
    pub name: &'a [u8],
    pub level: i32,
    pub has_height: bool,
    /// In metres above the sea.
    pub height: i32,
    pub has_note: bool,
    pub note: &'a [u8],
    pub has_last: bool,
    pub last: ReportSampleInC<'a>,
    pub key: &'a [u8],
    pub staffed: bool,
    /// What it runs on.
    pub power: StationPowerInC<'a>,
    /// How many tags there are.
    pub tags_count: u64,
    /// How many samples there are.
    pub samples_count: u64,
}

impl<'a> MessageStruct for StationInC<'a> {
    ghost use Rattle.wire_stations.specs.Station.{Station-Shown, station-shown, station-struct};
    ghost use Rattle.wire_stations.specs.Station.{Station-IsZero};

    type Source = &'a [u8];

    ghost Value = { Station-Shown };

    ghost view = { station-shown };

    ghost default = { station-struct.default };

    ghost takes = { station-struct.takes };

    ghost IsZero = { Station-IsZero };

    ghost single = { station-struct.single };

    fn zero() -> StationInC<'a> {
        StationInC {
            name: &[],
            level: 0,
            has_height: false,
            height: 0,
            has_note: false,
            note: &[],
            has_last: false,
            last: <ReportSampleInC<'a> as MessageStruct>::zero(),
            key: &[],
            staffed: false,
            power: StationPowerInC::zero(),
            tags_count: 0,
            samples_count: 0,
        }
    }

    fn merge_field(
        &mut self,
        tag: Tag,
        buf: &mut &'a [u8],
        context: &mut DecodeContext,
    ) -> Result<(), DecodeError> {
        match tag.field_number() {
            1 => merge_value::<TextInC<'a>>(tag, &mut self.name, buf),
            2 => merge_value::<EnumInC<'a, ReportLevel>>(tag, &mut self.level, buf),
            3 => merge_optional::<NumberInC<'a, Sint32>>(
                tag,
                &mut self.has_height,
                &mut self.height,
                buf,
            ),
            4 => merge_optional::<TextInC<'a>>(tag, &mut self.has_note, &mut self.note, buf),
            5 => merge_optional_message::<ReportSampleInC<'a>>(
                tag,
                &mut self.has_last,
                &mut self.last,
                buf,
                context,
            ),
            6 => merge_value::<BytesInC<'a>>(tag, &mut self.key, buf),
            7 => merge_value::<NumberInC<'a, Bool>>(tag, &mut self.staffed, buf),
            8 => self.power.merge(tag, buf, context),
            9 => self.power.merge(tag, buf, context),
            10 => self.power.merge(tag, buf, context),
            11 => merge_count::<TextInC<'a>, 24>(tag, &mut self.tags_count, buf, context),
            12 => merge_message_count::<ReportSampleInC<'a>, 80>(
                tag,
                &mut self.samples_count,
                buf,
                context,
            ),
            _ => pass_by(tag, buf, context),
        }
    }
}

impl<'a> FieldNumbers for StationInC<'a> {
    ghost use Rattle.std.specs.Prelude.{◌≡◌};
    ghost use Rattle.wire_codec.specs.Field.{Payload};
    ghost use Rattle.wire_stations.specs.Station.{station-known};

    ghost owns = { station-known.owns };

    #[inline(always)]
    fn has(number: u32) -> bool
        ensures { (p : Payload) → station-known.owns number p ≡ result }
    {
        matches!(number, 1..=12)
    }
}
