//! The calls that write a struct.
ghost use Rattle.std.specs.Prelude.{◌≡◌, ◌≢◌, ◌<◌, length};
ghost use Rattle.wire_base.specs.WriteLaws.{FillsSlice};
ghost use Rattle.wire_codec.specs.Field.{Fields};
ghost use Rattle.wire_fields.specs.Numbers.{in_64_bits};
ghost use Rattle.wire_report.specs.ReportSample.{report_sample-known};
ghost use Rattle.wire_stations.specs.ReportSample.{report_sample-encoding};
ghost use Rattle.wire_stations.specs.Station.{station-encoding, station-known};
ghost use Rattle.wire_structs.specs.Unknown.{HasStatus, OfUnknown};

use crate::report_sample::{ReportSampleFields, ReportSampleInC};
use crate::station::StationInC;
use crate::station_fields::StationFields;
use crate::station_list_fields::StationListFields;
use crate::station_lists::StationListsInC;
use wire_structs::{size_keeping, write_keeping, write_status, written_size};

/// How many bytes the shortest encoding of what a sample shows takes, or `usize::MAX` where it is
/// more.
pub fn report_sample_size(sample: &ReportSampleInC<'_>) -> usize
    ensures { result ≡ in_64_bits (length (report_sample-encoding sample.now Fields.none)) }
{
    written_size((ReportSampleFields { message: sample }, ()))
}

/// Writes the shortest encoding of what a sample shows at the front of the room, and tells how many
/// bytes it takes, or `usize::MAX` where it is more: 0, or 32 exactly where the room has fewer, and
/// then the room stays.
pub fn write_report_sample(sample: &ReportSampleInC<'_>, room: &mut [u8], len: &mut usize) -> u32
    ensures len { len.new ≡ in_64_bits (length (report_sample-encoding sample.now Fields.none)) }
    ensures ok { result ≡ 0 → FillsSlice (report_sample-encoding sample.now Fields.none) 0
        room.old room.new len.new }
    ensures no_room { result ≢ 0 → (result ≡ 32) × (length room.old
        < length (report_sample-encoding sample.now Fields.none)) }
    ensures stays { result ≢ 0 → room.new ≡ room.old }
{
    write_status((ReportSampleFields { message: sample }, ()), room, len)
}

/// How many bytes the shortest encoding of what a station and its lists show takes, or `usize::MAX`
/// where it is more.
pub fn station_size(station: &StationInC<'_>, lists: &StationListsInC<'_>) -> usize
    ensures { result ≡ in_64_bits (length (station-encoding station.now lists.now Fields.none)) }
{
    let fields = StationFields { message: station };
    written_size(((fields, StationListFields { lists }), ()))
}

/// Writes the shortest encoding of what a station and its lists show, as `write_report_sample`.
pub fn write_station(
    station: &StationInC<'_>,
    lists: &StationListsInC<'_>,
    room: &mut [u8],
    len: &mut usize,
) -> u32
    ensures len { len.new ≡ in_64_bits (length (station-encoding station.now lists.now Fields.none)) }
    ensures ok { result ≡ 0 → FillsSlice (station-encoding station.now lists.now Fields.none) 0
        room.old room.new len.new }
    ensures no_room { result ≢ 0 → (result ≡ 32) × (length room.old
        < length (station-encoding station.now lists.now Fields.none)) }
    ensures stays { result ≢ 0 → room.new ≡ room.old }
{
    let fields = StationFields { message: station };
    write_status(((fields, StationListFields { lists }), ()), room, len)
}

/// How many bytes the shortest encoding takes of what a sample shows and of the unknown fields of
/// these bytes behind it, or `usize::MAX` where it is more: 0. Else the number of the error, exactly
/// where the bytes are no records, or these nest more than 100 groups, and the length is 0.
pub fn report_sample_size_keeping(
    sample: &ReportSampleInC<'_>,
    bytes: &[u8],
    len: &mut usize,
) -> u32
    ensures ok { result ≡ 0 → OfUnknown report_sample-known.owns bytes.now (λ fs.
        len.new ≡ in_64_bits (length (report_sample-encoding sample.now fs))) }
    ensures fault { result ≢ 0 → HasStatus bytes.now result × (len.new ≡ 0) }
{
    let fields = ReportSampleFields { message: sample };
    size_keeping::<ReportSampleInC<'_>, _>(fields, bytes, len)
}

/// Writes that encoding at the front of the room, and tells how many bytes it takes: 0, or 32
/// exactly where the room has fewer. Else refused as `report_sample_size_keeping`. Where it answers
/// no 0 the room stays.
pub fn write_report_sample_keeping(
    sample: &ReportSampleInC<'_>,
    bytes: &[u8],
    room: &mut [u8],
    len: &mut usize,
) -> u32
    ensures ok { result ≡ 0 → OfUnknown report_sample-known.owns bytes.now (λ fs.
        FillsSlice (report_sample-encoding sample.now fs) 0 room.old room.new len.new) }
    ensures no_room { result ≡ 32 → OfUnknown report_sample-known.owns bytes.now (λ fs.
        (len.new ≡ in_64_bits (length (report_sample-encoding sample.now fs)))
        × (length room.old < length (report_sample-encoding sample.now fs))) }
    ensures fault { result ≢ 0 → result ≢ 32 → HasStatus bytes.now result × (len.new ≡ 0) }
    ensures stays { result ≢ 0 → room.new ≡ room.old }
{
    let fields = ReportSampleFields { message: sample };
    write_keeping::<ReportSampleInC<'_>, _>(fields, bytes, room, len)
}

/// The same of a station, its lists, and the unknown fields of these bytes, as
/// `report_sample_size_keeping`.
pub fn station_size_keeping(
    station: &StationInC<'_>,
    lists: &StationListsInC<'_>,
    bytes: &[u8],
    len: &mut usize,
) -> u32
    ensures ok { result ≡ 0 → OfUnknown station-known.owns bytes.now (λ fs.
        len.new ≡ in_64_bits (length (station-encoding station.now lists.now fs))) }
    ensures fault { result ≢ 0 → HasStatus bytes.now result × (len.new ≡ 0) }
{
    let fields = StationFields { message: station };
    size_keeping::<StationInC<'_>, _>((fields, StationListFields { lists }), bytes, len)
}

/// Writes the encoding of a station, its lists, and the unknown fields of these bytes, as
/// `write_report_sample_keeping`.
pub fn write_station_keeping(
    station: &StationInC<'_>,
    lists: &StationListsInC<'_>,
    bytes: &[u8],
    room: &mut [u8],
    len: &mut usize,
) -> u32
    ensures ok { result ≡ 0 → OfUnknown station-known.owns bytes.now (λ fs.
        FillsSlice (station-encoding station.now lists.now fs) 0 room.old room.new len.new) }
    ensures no_room { result ≡ 32 → OfUnknown station-known.owns bytes.now (λ fs.
        (len.new ≡ in_64_bits (length (station-encoding station.now lists.now fs)))
        × (length room.old < length (station-encoding station.now lists.now fs))) }
    ensures fault { result ≢ 0 → result ≢ 32 → HasStatus bytes.now result × (len.new ≡ 0) }
    ensures stays { result ≢ 0 → room.new ≡ room.old }
{
    let fields = StationFields { message: station };
    write_keeping::<StationInC<'_>, _>((fields, StationListFields { lists }), bytes, room, len)
}
