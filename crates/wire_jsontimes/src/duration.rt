//! Durations.
ghost use Rattle.std.specs.Prelude.{◌≡◌, ◌<◌, ◌^◌, Some, None, drop, IfOk, IfErr, MatchOption, string_bytes};
ghost use Rattle.wire_json.specs.Answer.{IsBehind};
ghost use Rattle.wire_json.specs.Bytes.{begins, is_byte, past_one};
ghost use Rattle.wire_protojson.specs.Reads.{ReadsMeaning, Refuses, RefusedAt, UnlessNoMemory};
ghost use Rattle.wire_jsontimes.specs.Durations as spec;
ghost use Rattle.wire_jsontimes.specs.Durations.{MeansDuration};

use crate::digits::{Front, byte_at, fraction_at, whole_at};
use std::alloc::Global;
use wire_protojson::{ReadError, no_value, read_string};

/// A span of time, as `google.protobuf.Duration` holds it: both parts have the same sign.
#[derive(Clone, Copy, Debug, PartialEq, Eq)]
pub struct JsonDuration {
    pub seconds: i64,
    pub nanos: i32,
}

// The greatest number of seconds, of some 10,000 years.
const MOST_SECONDS: u64 = 315_576_000_000;

fn is_s(text: &[u8], at: usize) -> bool
    ensures { result ≡ spec.is_s (drop at text.now) }
{
    match byte_at(text, at) {
        Some(b's') => byte_at(text, at + 1).is_none(),
        _ => false,
    }
}

fn signed(negative: bool, seconds: u64, nanos: u64) -> JsonDuration
    requires seconds { seconds < 10 ^ 12 }
    requires nanos { nanos < 10 ^ 9 }
    ensures seconds { result.seconds ≡ spec.signed negative seconds }
    ensures nanos { result.nanos ≡ spec.signed negative nanos }
{
    let seconds = seconds as i64;
    let nanos = nanos as i32;
    if negative {
        JsonDuration {
            seconds: -seconds,
            nanos: -nanos,
        }
    } else {
        JsonDuration { seconds, nanos }
    }
}

fn duration_if(text: &[u8], negative: bool, whole: Front, nanos: Front) -> Option<JsonDuration>
    requires whole { whole.value < 10 ^ 12 }
    requires nanos { nanos.value < 10 ^ 9 }
    ensures { MatchOption result
        (spec.duration_if negative whole.value nanos.value (drop nanos.after text.now) ≡ None)
        (λ d. spec.duration_if negative whole.value nanos.value (drop nanos.after text.now)
        ≡ Some (d.seconds, d.nanos)) }
{
    if is_s(text, nanos.after) && whole.value <= MOST_SECONDS {
        Some(signed(negative, whole.value, nanos.value))
    } else {
        None
    }
}

// What stands behind the sign.
fn duration_behind(text: &[u8], at: usize, negative: bool) -> Option<JsonDuration>
    ensures { MatchOption result (spec.duration_behind negative (drop at text.now) ≡ None)
        (λ d. spec.duration_behind negative (drop at text.now) ≡ Some (d.seconds, d.nanos)) }
{
    match whole_at(text, at) {
        None => None,
        Some(whole) => match fraction_at(text, whole.after) {
            None => None,
            Some(nanos) => duration_if(text, negative, whole, nanos),
        },
    }
}

fn duration_of(text: &[u8]) -> Option<JsonDuration>
    ensures { MatchOption result (spec.duration_of text.now ≡ None)
        (λ d. spec.duration_of text.now ≡ Some (d.seconds, d.nanos)) }
{
    match byte_at(text, 0) {
        Some(b'-') => duration_behind(text, 1, true),
        _ => duration_behind(text, 0, false),
    }
}

/// Reads a `google.protobuf.Duration`: a string of seconds with at most nine digits of fraction and
/// an `s`, as `"1.5s"`.
pub fn read_duration(
    alloc: Global,
    text: &[u8],
    at: usize,
) -> Result<(JsonDuration, usize), ReadError>
    ensures ok { IfOk result (λ read. ReadsMeaning MeansDuration (drop at text.now)
        (read.0.seconds, read.0.nanos) (drop read.1 text.now)) }
    ensures behind { IfOk result (λ read. IsBehind at read.1 text.now) }
    ensures err { IfErr result (λ e. UnlessNoMemory e
        (λ refusal. RefusedAt text.now refusal (Refuses MeansDuration (drop at text.now)))) }
{
    match read_string(alloc, text, at) {
        Ok((string, after)) => match duration_of(string.as_str().as_bytes()) {
            Some(duration) => Ok((duration, after)),
            None => Err(no_value(at)),
        },
        Err(error) => Err(error),
    }
}
