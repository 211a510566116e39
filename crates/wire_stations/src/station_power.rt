//! The oneof `power` of `station.Station` as a struct.
ghost use Rattle.std.specs.Prelude.{◌≡◌, OnOk, OnErr};
ghost use Rattle.wire_codec.specs.TagView.{tag_number, tag_type};
ghost use Rattle.wire_codec.specs.Taking.{TakesRecord, IsCharged, NotTaken};
ghost use Rattle.wire_fields.specs.Messages.{or_else};
ghost use Rattle.wire_stations.specs.ReportSample.{report_sample-shown, report_sample-struct};
ghost use Rattle.wire_stations.specs.StationPower.{station_power-shown, station_power-struct};
ghost use Rattle.wire_stations.specs.StationPower.{StationPower-IsZero, backup-of-station_power-as};

use crate::report_sample::ReportSampleInC;
use wire_codec::{DecodeContext, DecodeError, EncodeError, EncodeSink, Tag, laws};
use wire_structs::{
    FloatInC, MessageStruct, StructPart, TextInC, always_part, merge_message, merge_value,
    message_len, put_message,
};

/// What a station runs on.
#[repr(C)]
#[derive(Clone, Copy)]
pub struct StationPowerInC<'a> {
    /// The number of the field that stands, or 0. The others are zero.
    pub which: u32,
    /// The bits of a `float`.
    pub volts: u32,
    pub grid: &'a [u8],
    pub backup: ReportSampleInC<'a>,
}

impl<'a> StationPowerInC<'a> {
    /// The oneof of no records.
    pub(crate) fn zero() -> StationPowerInC<'a>
        ensures value { station_power-shown result ≡ station_power-struct.default }
        ensures zero { StationPower-IsZero result }
    {
        StationPowerInC {
            which: 0,
            volts: 0,
            grid: &[],
            backup: <ReportSampleInC<'a> as MessageStruct>::zero(),
        }
    }

    // Makes this field the one that stands: with the value that it has, or with that of no records.
    fn stand(&mut self, number: u32)
        ensures which { self.new.which ≡ number }
        ensures backup { number ≡ 10 → report_sample-shown self.new.backup
            ≡ or_else report_sample-struct.default
            (backup-of-station_power-as (station_power-shown self.old)) }
    {
        if self.which != number {
            *self = StationPowerInC::zero();
            self.which = number;
        }
    }

    /// Takes the record of one of the fields behind this tag, which stands then. Refused as the
    /// fields are.
    pub(crate) fn merge(
        &mut self,
        tag: Tag,
        buf: &mut &'a [u8],
        context: &mut DecodeContext,
    ) -> Result<(), DecodeError>
        ensures ok { OnOk result (IsCharged context.old context.new (λ c.
            TakesRecord station_power-struct.takes context.old (tag_number tag) (tag_type tag)
            (station_power-shown self.old) buf.old.now c (station_power-shown self.new)
            buf.new.now)) }
        ensures err { OnErr result (NotTaken
            (TakesRecord station_power-struct.takes context.old (tag_number tag) (tag_type tag)
            (station_power-shown self.old) buf.old.now)) }
    {
        match tag.field_number() {
            8 => {
                self.stand(8);
                merge_value::<FloatInC<'a>>(tag, &mut self.volts, buf)
            }
            9 => {
                self.stand(9);
                merge_value::<TextInC<'a>>(tag, &mut self.grid, buf)
            }
            _ => {
                self.stand(10);
                merge_message::<ReportSampleInC<'a>>(tag, &mut self.backup, buf, context)
            }
        }
    }
}

/// The field that stands, as it is written; none where `which` is no field's number.
#[derive(Drop)]
pub struct StationPowerField<'h, 'a> {
    pub power: &'h StationPowerInC<'a>,
}

impl<'h, 'a> StructPart for StationPowerField<'h, 'a> {
    ghost use Rattle.wire_stations.specs.StationPower.{station_power-shape, station_power-written};

    ghost records = { λ f. station_power-shape.records (station_power-written f.power.now) };

    fn len(&self) -> u64 {
        let power = self.power;
        match power.which {
            8 => always_part::<FloatInC<'a>>(8, &power.volts).len(),
            9 => always_part::<TextInC<'a>>(9, &power.grid).len(),
            10 => message_len(10, &power.backup),
            _ => 0,
        }
    }

    fn put<E: EncodeSink>(&self, sink: &mut E) -> Result<(), EncodeError> {
        laws::piece_by_piece();
        let power = self.power;
        match power.which {
            8 => always_part::<FloatInC<'a>>(8, &power.volts).put(sink),
            9 => always_part::<TextInC<'a>>(9, &power.grid).put(sink),
            10 => put_message(10, &power.backup, sink),
            _ => Ok(()),
        }
    }
}
