//! The lists of `station.Station`, as they are written.
use crate::report_sample::ReportSampleInC;
use crate::station_lists::StationListsInC;
use wire_codec::{EncodeError, EncodeSink};
use wire_structs::{StructPart, TextSliceInC, messages_len, put_messages, put_values, values_len};

/// The lists of a station, as they are written.
#[derive(Drop)]
pub struct StationListFields<'h, 'a> {
    pub lists: &'h StationListsInC<'a>,
}

// The lists one by one.
macro_rules! lists {
    ($lists:expr) => {
        (
            StationTagsField { lists: $lists },
            StationSamplesField { lists: $lists },
        )
    };
}

impl<'h, 'a> StructPart for StationListFields<'h, 'a> {
    ghost use Rattle.wire_fields.specs.Shape.{known, two};
    ghost use Rattle.wire_stations.specs.Station.{station-lists-written};
    ghost use Rattle.wire_stations.specs.Station.{station-samples-kind, station-tags-kind};

    ghost records = { λ f. (two (known 11 station-tags-kind) (known 12 station-samples-kind)).records
        (station-lists-written f.lists.now) };

    fn len(&self) -> u64 {
        lists!(self.lists).len()
    }

    fn put<E: EncodeSink>(&self, sink: &mut E) -> Result<(), EncodeError> {
        lists!(self.lists).put(sink)
    }
}

/// The field `tags`, as it is written.
#[derive(Drop)]
pub struct StationTagsField<'h, 'a> {
    pub lists: &'h StationListsInC<'a>,
}

impl<'h, 'a> StructPart for StationTagsField<'h, 'a> {
    ghost use Rattle.wire_stations.specs.Station.{station-lists-written, station-tags-kind};

    ghost records = { λ f. station-tags-kind.kind.records 11 (station-lists-written f.lists.now).0 };

    fn len(&self) -> u64 {
        values_len::<TextSliceInC<'a>>(11, self.lists.tags)
    }

    fn put<E: EncodeSink>(&self, sink: &mut E) -> Result<(), EncodeError> {
        put_values::<TextSliceInC<'a>, E>(11, self.lists.tags, sink)
    }
}

/// The field `samples`, as it is written.
#[derive(Drop)]
pub struct StationSamplesField<'h, 'a> {
    pub lists: &'h StationListsInC<'a>,
}

impl<'h, 'a> StructPart for StationSamplesField<'h, 'a> {
    ghost use Rattle.wire_stations.specs.Station.{station-lists-written, station-samples-kind};

    ghost records = { λ f. station-samples-kind.kind.records 12
        (station-lists-written f.lists.now).1 };

    fn len(&self) -> u64 {
        messages_len::<ReportSampleInC<'a>>(12, self.lists.samples)
    }

    fn put<E: EncodeSink>(&self, sink: &mut E) -> Result<(), EncodeError> {
        put_messages::<ReportSampleInC<'a>, E>(12, self.lists.samples, sink)
    }
}
