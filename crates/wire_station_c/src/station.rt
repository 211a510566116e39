//! The calls of `station`.
ghost use Rattle.std.specs.Prelude.{◌≡◌, ◌≢◌, ◌<◌, [], length};
ghost use Rattle.wire_base.specs.WriteLaws.{FillsSlice};
ghost use Rattle.wire_codec.specs.Field.{Fields};
ghost use Rattle.wire_codec.specs.Options.{default_limits};
ghost use Rattle.wire_codec.specs.Taking.{NotDecoded};
ghost use Rattle.wire_fields.specs.Numbers.{in_64_bits};
ghost use Rattle.wire_fields.specs.Shape.{NotDecodedAs};
ghost use Rattle.wire_report.specs.ReportSample.{report_sample-shape};
ghost use Rattle.wire_stations.specs.Station.{Station-IsZero, station-seen, station-shape};
ghost use Rattle.wire_stations.specs.Station.{samples-of-station, station-encoding};
ghost use Rattle.wire_stations.specs.Station.{station-known, station-shown, tags-of-station};
ghost use Rattle.wire_structs.specs.Unknown.{HasStatus, OfUnknown};
ghost use Rattle.wire_structs.specs.Walks.{GivesNext, EndsList, IsElement};
ghost use Rattle.wire_structs.specs.Walks.{MakesElement, MakesNothing};
ghost use Rattle.wire_structs.specs.Within.{DecodesSeen, within_numbers};

use wire_read::numbers::LimitNumbers;
use wire_stations::{
    StationInC, StationListsInC, next_station_sample, next_station_tag, read_station,
    write_station, write_station_keeping,
};
use wire_structs::{SliceInC, context_within, default_context};

/// Sets the station to what all of the bytes are, within the limits of `Message::decode`: 0,
/// exactly where they are such a message. Else the number of the error, and the station is zero.
#[unsafe(no_mangle)]
pub extern "C" fn station_read<'a>(bytes: &'a [u8], station: &mut StationInC<'a>) -> u32
    ensures ok { result ≡ 0 → DecodesSeen station-shape station-seen default_limits
        bytes.now (station-shown station.new) }
    ensures err { result ≢ 0 → NotDecodedAs station-shape bytes.now }
    ensures zero { result ≢ 0 → Station-IsZero station.new }
{
    let mut context = default_context();
    read_station(bytes, &mut context, station)
}

/// The same within limits that the caller names, of whose levels no more than 100 are given.
#[unsafe(no_mangle)]
pub extern "C" fn station_read_within<'a>(
    bytes: &'a [u8],
    limits: &LimitNumbers,
    station: &mut StationInC<'a>,
) -> u32
    ensures ok { result ≡ 0 → DecodesSeen station-shape station-seen
        (within_numbers limits.now) bytes.now (station-shown station.new) }
    ensures err { result ≢ 0 → NotDecoded station-shape.takes (within_numbers limits.now)
        station-shape.default bytes.now }
    ensures zero { result ≢ 0 → Station-IsZero station.new }
{
    let mut context = context_within(limits);
    read_station(bytes, &mut context, station)
}

/// The next tag of the station that these bytes are: 0, and the bytes begin behind it; 1 where none
/// is left; or the number of the error, nowhere in bytes that were read as a station. Where it
/// answers no 0 the bytes stay, and the tag is of no bytes.
#[unsafe(no_mangle)]
pub extern "C" fn station_next_tag<'a>(walk: &mut SliceInC<'a>, tag: &mut SliceInC<'a>) -> u32
    ensures given { result ≡ 0 → GivesNext station-shape.takes tags-of-station IsElement
        walk.old.bytes.now walk.new.bytes.now tag.new.bytes.now }
    ensures ended { result ≡ 1 → EndsList station-shape.takes tags-of-station walk.old.bytes.now }
    ensures other { result ≢ 0 → result ≢ 1 → MakesNothing station-shape.takes
        walk.old.bytes.now }
    ensures stays { result ≢ 0 → (walk.new.bytes.now ≡ walk.old.bytes.now)
        × (tag.new.bytes.now ≡ []) }
{
    next_station_tag(walk, tag)
}

/// The bytes of the next sample of the station that these bytes are: 0, and the bytes begin behind
/// it; 1 where none is left; or the number of the error, nowhere in bytes that were read as a
/// station. Where it answers no 0 the bytes stay, and the sample is of no bytes.
#[unsafe(no_mangle)]
pub extern "C" fn station_next_sample<'a>(walk: &mut SliceInC<'a>, sample: &mut SliceInC<'a>) -> u32
    ensures given { result ≡ 0 → GivesNext station-shape.takes samples-of-station
        (MakesElement report_sample-shape) walk.old.bytes.now walk.new.bytes.now
        sample.new.bytes.now }
    ensures ended { result ≡ 1 → EndsList station-shape.takes samples-of-station
        walk.old.bytes.now }
    ensures other { result ≢ 0 → result ≢ 1 → MakesNothing station-shape.takes
        walk.old.bytes.now }
    ensures stays { result ≢ 0 → (walk.new.bytes.now ≡ walk.old.bytes.now)
        × (sample.new.bytes.now ≡ []) }
{
    next_station_sample(walk, sample)
}

/// How many bytes the shortest encoding of what the station and its lists show takes, or `SIZE_MAX`
/// where it is more.
#[unsafe(no_mangle)]
pub extern "C" fn station_size(station: &StationInC<'_>, lists: &StationListsInC<'_>) -> usize
    ensures { result ≡ in_64_bits (length (station-encoding station.now lists.now Fields.none)) }
{
    wire_stations::station_size(station, lists)
}

/// Writes the shortest encoding of what the station and its lists show at the front of the room,
/// and tells how many bytes it takes, or `SIZE_MAX` where it is more: 0, or 32 exactly where the
/// room has fewer, and then the room stays.
#[unsafe(no_mangle)]
pub extern "C" fn station_write(
    station: &StationInC<'_>,
    lists: &StationListsInC<'_>,
    room: &mut [u8],
    len: &mut usize,
) -> u32
    ensures len { len.new ≡ in_64_bits (length (station-encoding station.now lists.now Fields.none)) }
    ensures ok { result ≡ 0 → FillsSlice (station-encoding station.now lists.now Fields.none) 0
        room.old room.new len.new }
    ensures no_room { result ≢ 0 → (result ≡ 32) × (length room.old
        < length (station-encoding station.now lists.now Fields.none)) }
    ensures stays { result ≢ 0 → room.new ≡ room.old }
{
    write_station(station, lists, room, len)
}

/// How many bytes the shortest encoding takes of what the station and its lists show and of the
/// unknown fields of these bytes behind them, or `SIZE_MAX` where it is more: 0. Else the number of
/// the error, exactly where the bytes are no records, or these nest more than 100 groups, and the
/// length is 0.
#[unsafe(no_mangle)]
pub extern "C" fn station_size_keeping(
    station: &StationInC<'_>,
    lists: &StationListsInC<'_>,
    bytes: &[u8],
    len: &mut usize,
) -> u32
    ensures ok { result ≡ 0 → OfUnknown station-known.owns bytes.now (λ fs.
        len.new ≡ in_64_bits (length (station-encoding station.now lists.now fs))) }
    ensures fault { result ≢ 0 → HasStatus bytes.now result × (len.new ≡ 0) }
{
    wire_stations::station_size_keeping(station, lists, bytes, len)
}

/// Writes that encoding at the front of the room, and tells how many bytes it takes, or `SIZE_MAX`
/// where it is more: 0, or 32 exactly where the room has fewer. Else refused as
/// `station_size_keeping`. Where it answers no 0 the room stays.
#[unsafe(no_mangle)]
pub extern "C" fn station_write_keeping(
    station: &StationInC<'_>,
    lists: &StationListsInC<'_>,
    bytes: &[u8],
    room: &mut [u8],
    len: &mut usize,
) -> u32
    ensures ok { result ≡ 0 → OfUnknown station-known.owns bytes.now (λ fs.
        FillsSlice (station-encoding station.now lists.now fs) 0 room.old room.new len.new) }
    ensures no_room { result ≡ 32 → OfUnknown station-known.owns bytes.now (λ fs.
        (len.new ≡ in_64_bits (length (station-encoding station.now lists.now fs)))
        × (length room.old < length (station-encoding station.now lists.now fs))) }
    ensures fault { result ≢ 0 → result ≢ 32 → HasStatus bytes.now result × (len.new ≡ 0) }
    ensures stays { result ≢ 0 → room.new ≡ room.old }
{
    write_station_keeping(station, lists, bytes, room, len)
}
