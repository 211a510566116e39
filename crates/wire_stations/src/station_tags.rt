//! The tags of a station, one after another.
ghost use Rattle.std.specs.Prelude.{◌≡◌, ◌≢◌, []};
ghost use Rattle.wire_stations.specs.Station.{station-shape, tags-of-station};
ghost use Rattle.wire_structs.specs.Walks.{GivesNext, EndsList, IsElement, MakesNothing};

use std::marker::PhantomData;
use wire_codec::{DecodeError, Tag};
use wire_structs::{SliceInC, StructScalar, TextInC, ValueList, next_status};

// The list `tags`.
struct StationTags<'a> {
    bytes: PhantomData<&'a [u8]>,
}

impl<'a> ValueList for StationTags<'a> {
    ghost use Rattle.std.specs.Prelude.{◌≡◌, ℕ, List};
    ghost use Rattle.wire_fields.specs.Texts.{string};
    ghost use Rattle.wire_stations.specs.Station.{Station-Value, station-shape, tags-of-station};
    ghost use Rattle.wire_stations.specs.StationLists.{station-tags-list};
    ghost use Rattle.wire_structs.specs.Walks.{IsElement};

    type Source = &'a [u8];

    type Held = &'a [u8];

    ghost Item = { List ℕ };

    ghost view = { λ b. b.now };

    ghost scalar = { string };

    ghost Value = { Station-Value };

    ghost takes = { station-shape.takes };

    ghost Element = { List ℕ };

    ghost list = { tags-of-station };

    ghost Means = { IsElement };

    ghost number = { 11 };

    ghost lawful = { station-tags-list };

    fn number() -> u32
        ensures { result ≡ 11 }
    {
        11
    }

    fn set(tag: Tag, held: &mut &'a [u8], buf: &mut &'a [u8]) -> Result<(), DecodeError> {
        <TextInC<'a> as StructScalar>::set(tag, held, buf)
    }
}

/// The next tag of the station that these bytes are: 0, and the bytes begin behind it; 1 where none
/// is left; or the number of the error, nowhere in bytes that were read as a station. Where it
/// answers no 0 the bytes stay, and the tag is of no bytes.
pub fn next_station_tag<'a>(walk: &mut SliceInC<'a>, tag: &mut SliceInC<'a>) -> u32
    ensures given { result ≡ 0 → GivesNext station-shape.takes tags-of-station IsElement
        walk.old.bytes.now walk.new.bytes.now tag.new.bytes.now }
    ensures ended { result ≡ 1 → EndsList station-shape.takes tags-of-station walk.old.bytes.now }
    ensures other { result ≢ 0 → result ≢ 1 → MakesNothing station-shape.takes
        walk.old.bytes.now }
    ensures stays { result ≢ 0 → (walk.new.bytes.now ≡ walk.old.bytes.now)
        × (tag.new.bytes.now ≡ []) }
{
    let mut rest = walk.bytes;
    let status = next_status::<StationTags<'a>>(&mut tag.bytes, &mut rest);
    if status != 0 {
        tag.bytes = &[];
        return status;
    }
    walk.bytes = rest;
    0
}
