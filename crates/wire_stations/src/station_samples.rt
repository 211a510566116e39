//! The samples of a station, one after another.
ghost use Rattle.std.specs.Prelude.{◌≡◌, ◌≢◌, []};
ghost use Rattle.wire_report.specs.ReportSample.{report_sample-shape};
ghost use Rattle.wire_stations.specs.Station.{station-shape, samples-of-station};
ghost use Rattle.wire_structs.specs.Walks.{GivesNext, EndsList, MakesElement, MakesNothing};

use std::marker::PhantomData;
use wire_codec::{DecodeError, Tag};
use wire_structs::{BytesInC, SliceInC, StructScalar, ValueList, next_status};

// The list `samples`, of which the bytes of each are given.
struct StationSamples<'a> {
    bytes: PhantomData<&'a [u8]>,
}

impl<'a> ValueList for StationSamples<'a> {
    ghost use Rattle.std.specs.Prelude.{◌≡◌, ℕ, List};
    ghost use Rattle.wire_fields.specs.Texts.{any_bytes};
    ghost use Rattle.wire_report.specs.ReportSample.{ReportSample-Value, report_sample-shape};
    ghost use Rattle.wire_stations.specs.Station.{Station-Value, station-shape, samples-of-station};
    ghost use Rattle.wire_stations.specs.StationLists.{station-samples-list};
    ghost use Rattle.wire_structs.specs.Walks.{MakesElement};

    type Source = &'a [u8];

    type Held = &'a [u8];

    ghost Item = { List ℕ };

    ghost view = { λ b. b.now };

    ghost scalar = { any_bytes };

    ghost Value = { Station-Value };

    ghost takes = { station-shape.takes };

    ghost Element = { ReportSample-Value };

    ghost list = { samples-of-station };

    ghost Means = { MakesElement report_sample-shape };

    ghost number = { 12 };

    ghost lawful = { station-samples-list };

    fn number() -> u32
        ensures { result ≡ 12 }
    {
        12
    }

    fn set(tag: Tag, held: &mut &'a [u8], buf: &mut &'a [u8]) -> Result<(), DecodeError> {
        <BytesInC<'a> as StructScalar>::set(tag, held, buf)
    }
}

/// The bytes of the next sample of the station that these bytes are: 0, and the bytes begin behind
/// it; 1 where none is left; or the number of the error, nowhere in bytes that were read as a
/// station. Where it answers no 0 the bytes stay, and the sample is of no bytes.
pub fn next_station_sample<'a>(walk: &mut SliceInC<'a>, sample: &mut SliceInC<'a>) -> u32
    ensures given { result ≡ 0 → GivesNext station-shape.takes samples-of-station
        (MakesElement report_sample-shape) walk.old.bytes.now walk.new.bytes.now
        sample.new.bytes.now }
    ensures ended { result ≡ 1 → EndsList station-shape.takes samples-of-station
        walk.old.bytes.now }
    ensures other { result ≢ 0 → result ≢ 1 → MakesNothing station-shape.takes
        walk.old.bytes.now }
    ensures stays { result ≢ 0 → (walk.new.bytes.now ≡ walk.old.bytes.now)
        × (sample.new.bytes.now ≡ []) }
{
    let mut rest = walk.bytes;
    let status = next_status::<StationSamples<'a>>(&mut sample.bytes, &mut rest);
    if status != 0 {
        sample.bytes = &[];
        return status;
    }
    walk.bytes = rest;
    0
}
