//! Timestamps and durations, in JSON as strings.
ghost use Rattle.std.specs.Prelude.{◌≡◌, ℤ};
ghost use Rattle.wire_well_known_json.specs.Times.{duration-json, timestamp-json};

use std::alloc::Global;
use wire_codec::UnknownFields;
use wire_jsonfields::JsonValue;
use wire_jsontimes::{
    JsonDuration, JsonTimestamp, read_duration, read_timestamp, write_duration, write_timestamp,
};
use wire_protojson::{ReadError, WriteError};
use wire_well_known::{Duration, Timestamp};

/// `google.protobuf.Timestamp` by the JSON mapping, of which only the years from 1 to 9999 have a
/// text.
pub struct TimestampJson;

impl JsonValue for TimestampJson {
    ghost use Rattle.wire_jsontimes.specs.Timestamps.{IsTimestampTree, MeansTimestamp};
    ghost use Rattle.wire_well_known_json.specs.Times.{IsAnyTime, one_timestamp, time-absent, timestamp_back};

    type Held = Timestamp;

    ghost Value = { ℤ × ℤ };

    ghost view = { timestamp-json };

    ghost means = { MeansTimestamp };

    ghost tree = { IsTimestampTree };

    ghost absent = { time-absent };

    ghost one_value = { one_timestamp };

    ghost in_range = { IsAnyTime };

    ghost back = { timestamp_back };

    fn read_json(
        alloc: Global,
        text: &[u8],
        at: usize,
        _levels: u32,
    ) -> Result<(Timestamp, usize), ReadError> {
        let (read, after) = read_timestamp(alloc, text, at)?;
        Ok((held_timestamp(alloc, read), after))
    }

    fn write_json(alloc: Global, out: &mut Vec<u8>, held: &Timestamp) -> Result<(), WriteError> {
        write_timestamp(alloc, out, json_timestamp(held))
    }
}

fn held_timestamp(alloc: Global, read: JsonTimestamp) -> Timestamp
    ensures { timestamp-json result ≡ (read.seconds, read.nanos) }
{
    Timestamp {
        seconds: read.seconds,
        nanos: read.nanos,
        unknown: UnknownFields::new(alloc),
    }
}

fn json_timestamp(held: &Timestamp) -> JsonTimestamp
    ensures { (result.seconds, result.nanos) ≡ timestamp-json held.now }
{
    JsonTimestamp {
        seconds: held.seconds,
        nanos: held.nanos,
    }
}

/// `google.protobuf.Duration` by the JSON mapping, of which only some 10,000 years to either side
/// have a text, and no value whose parts have two signs.
pub struct DurationJson;

impl JsonValue for DurationJson {
    ghost use Rattle.wire_jsontimes.specs.Durations.{IsDurationTree, MeansDuration};
    ghost use Rattle.wire_well_known_json.specs.Times.{IsAnyTime, duration_back, one_duration, time-absent};

    type Held = Duration;

    ghost Value = { ℤ × ℤ };

    ghost view = { duration-json };

    ghost means = { MeansDuration };

    ghost tree = { IsDurationTree };

    ghost absent = { time-absent };

    ghost one_value = { one_duration };

    ghost in_range = { IsAnyTime };

    ghost back = { duration_back };

    fn read_json(
        alloc: Global,
        text: &[u8],
        at: usize,
        _levels: u32,
    ) -> Result<(Duration, usize), ReadError> {
        let (read, after) = read_duration(alloc, text, at)?;
        Ok((held_duration(alloc, read), after))
    }

    fn write_json(alloc: Global, out: &mut Vec<u8>, held: &Duration) -> Result<(), WriteError> {
        write_duration(alloc, out, json_duration(held))
    }
}

fn held_duration(alloc: Global, read: JsonDuration) -> Duration
    ensures { duration-json result ≡ (read.seconds, read.nanos) }
{
    Duration {
        seconds: read.seconds,
        nanos: read.nanos,
        unknown: UnknownFields::new(alloc),
    }
}

fn json_duration(held: &Duration) -> JsonDuration
    ensures { (result.seconds, result.nanos) ≡ duration-json held.now }
{
    JsonDuration {
        seconds: held.seconds,
        nanos: held.nanos,
    }
}
