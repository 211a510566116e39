//! The fields of `station.Station`, as they are written.
use crate::report_sample::ReportSampleInC;
use crate::station::StationInC;
use crate::station_power::StationPowerField;
use wire_codec::{EncodeError, EncodeSink};
use wire_fields::{Bool, Sint32};
use wire_report::ReportLevel;
use wire_structs::{
    BytesInC, EnumInC, NumberInC, StructPart, TextInC, implicit_part, optional_message_len,
    optional_part, put_optional_message,
};

/// The fields of a station but its lists, as they are written.
#[derive(Drop)]
pub struct StationFields<'h, 'a> {
    pub message: &'h StationInC<'a>,
}

// The fields 1 to 4 one by one.
macro_rules! front {
    ($message:expr) => {
        (
            (
                implicit_part::<TextInC<'a>>(1, &$message.name),
                implicit_part::<EnumInC<'a, ReportLevel>>(2, &$message.level),
            ),
            (
                optional_part::<NumberInC<'a, Sint32>>(3, $message.has_height, &$message.height),
                optional_part::<TextInC<'a>>(4, $message.has_note, &$message.note),
            ),
        )
    };
}

// The fields from 5 on, but the lists, one by one.
macro_rules! back {
    ($message:expr) => {
        (
            (
                StationLastField { message: $message },
                implicit_part::<BytesInC<'a>>(6, &$message.key),
            ),
            (
                implicit_part::<NumberInC<'a, Bool>>(7, &$message.staffed),
                StationPowerField {
                    power: &$message.power,
                },
            ),
        )
    };
}

impl<'h, 'a> StructPart for StationFields<'h, 'a> {
    ghost use Rattle.wire_report.specs.ReportSample.{report_sample-shape};
    ghost use Rattle.wire_stations.specs.Station.{station-fields-written, station-with};

    ghost records = { λ f. (station-with report_sample-shape).records
        (station-fields-written f.message.now) };

    fn len(&self) -> u64 {
        (front!(self.message), back!(self.message)).len()
    }

    fn put<E: EncodeSink>(&self, sink: &mut E) -> Result<(), EncodeError> {
        (front!(self.message), back!(self.message)).put(sink)
    }
}

/// The field `last`, as it is written.
#[derive(Drop)]
pub struct StationLastField<'h, 'a> {
    pub message: &'h StationInC<'a>,
}

impl<'h, 'a> StructPart for StationLastField<'h, 'a> {
    ghost use Rattle.wire_codec.specs.Field.{Fields};
    ghost use Rattle.wire_report.specs.ReportSample.{report_sample-shape};
    ghost use Rattle.wire_stations.specs.ReportSample.{report_sample-written};
    ghost use Rattle.wire_stations.specs.Station.{station-last-kind};
    ghost use Rattle.wire_structs.specs.Flags.{flagged};

    ghost records = { λ f. (station-last-kind report_sample-shape).kind.records 5
        (flagged f.message.now.has_last (report_sample-written f.message.now.last Fields.none)) };

    fn len(&self) -> u64 {
        optional_message_len::<ReportSampleInC<'a>>(5, self.message.has_last, &self.message.last)
    }

    fn put<E: EncodeSink>(&self, sink: &mut E) -> Result<(), EncodeError> {
        let has = self.message.has_last;
        put_optional_message::<ReportSampleInC<'a>, E>(5, has, &self.message.last, sink)
    }
}
