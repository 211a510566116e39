//! Timestamps.
ghost use Rattle.std.specs.Prelude.{◌≡◌, ◌<◌, ◌≤ℤ◌, ◌^◌, ◌+◌, ◌*◌, true, pos, neg_ℤ, Some, None, drop, IfOk, IfErr, IfSome, MatchOption};
ghost use Rattle.jiff_core.specs.Calendar.{days_from_civil};
ghost use Rattle.wire_json.specs.Answer.{IsBehind};
ghost use Rattle.wire_protojson.specs.Reads.{ReadsMeaning, Refuses, RefusedAt, UnlessNoMemory};
ghost use Rattle.wire_jsontimes.specs.Durations.{signed};
ghost use Rattle.wire_jsontimes.specs.Timestamps as spec;
ghost use Rattle.wire_jsontimes.specs.Timestamps.{MeansTimestamp};

use crate::digits::{Front, byte_at, digit_of, fraction_at};
use jiff_core::civil::{Date, days_in_month};
use std::alloc::Global;
use wire_protojson::{ReadError, no_value, read_string};

/// An instant, as `google.protobuf.Timestamp` holds it: seconds from 1970 on, and nanoseconds from
/// there on.
#[derive(Clone, Copy, Debug, PartialEq, Eq)]
pub struct JsonTimestamp {
    pub seconds: i64,
    pub nanos: i32,
}

fn digit_at(text: &[u8], front: Front) -> Option<Front>
    requires { front.value < 10 ^ 9 }
    ensures digit { MatchOption result
        (spec.digit_at (front.value, drop front.after text.now) ≡ None)
        (λ next. spec.digit_at (front.value, drop front.after text.now)
        ≡ Some (next.value, drop next.after text.now)) }
    ensures value { IfSome result (λ next. next.value < front.value * 10 + 10) }
{
    match byte_at(text, front.after) {
        None => None,
        Some(byte) => match digit_of(byte) {
            Some(digit) => Some(Front {
                value: front.value * 10 + digit as u64,
                after: front.after + 1,
            }),
            None => None,
        },
    }
}

fn two_more(text: &[u8], front: Front) -> Option<Front>
    requires { front.value < 10 ^ 7 }
    ensures digits { MatchOption result
        (spec.two_more (front.value, drop front.after text.now) ≡ None)
        (λ next. spec.two_more (front.value, drop front.after text.now)
        ≡ Some (next.value, drop next.after text.now)) }
    ensures value { IfSome result (λ next. next.value < front.value * 100 + 100) }
{
    match digit_at(text, front) {
        None => None,
        Some(next) => digit_at(text, next),
    }
}

// Two digits.
fn two_at(text: &[u8], at: usize) -> Option<Front>
    ensures digits { MatchOption result (spec.two_more (0, drop at text.now) ≡ None)
        (λ next. spec.two_more (0, drop at text.now)
        ≡ Some (next.value, drop next.after text.now)) }
    ensures value { IfSome result (λ next. next.value < 100) }
{
    two_more(
        text,
        Front {
            value: 0,
            after: at,
        },
    )
}

fn then_byte(text: &[u8], front: Front, byte: u8) -> Option<Front>
    ensures byte { MatchOption result
        (spec.then_byte byte (front.value, drop front.after text.now) ≡ None)
        (λ next. spec.then_byte byte (front.value, drop front.after text.now)
        ≡ Some (next.value, drop next.after text.now)) }
    ensures value { IfSome result (λ next. next.value ≡ front.value) }
{
    match byte_at(text, front.after) {
        None => None,
        Some(found) => {
            if found == byte {
                Some(Front {
                    value: front.value,
                    after: front.after + 1,
                })
            } else {
                None
            }
        }
    }
}

fn two_then(text: &[u8], at: usize, byte: u8) -> Option<Front>
    ensures digits { MatchOption result (spec.two_then byte (drop at text.now) ≡ None)
        (λ next. spec.two_then byte (drop at text.now)
        ≡ Some (next.value, drop next.after text.now)) }
    ensures value { IfSome result (λ next. next.value < 100) }
{
    match two_at(text, at) {
        None => None,
        Some(front) => then_byte(text, front, byte),
    }
}

fn four_then(text: &[u8], at: usize, byte: u8) -> Option<Front>
    ensures digits { MatchOption result (spec.four_then byte (drop at text.now) ≡ None)
        (λ next. spec.four_then byte (drop at text.now)
        ≡ Some (next.value, drop next.after text.now)) }
    ensures value { IfSome result (λ next. next.value < 10_000) }
{
    match two_at(text, at) {
        None => None,
        Some(first) => match two_more(text, first) {
            None => None,
            Some(front) => then_byte(text, front, byte),
        },
    }
}

fn is_date(year: u64, month: u64, day: u64) -> bool
    requires year { year < 10_000 }
    requires month { month < 100 }
    ensures { result ≡ spec.is_date year month day }
{
    if year == 0 || month == 0 || month > 12 || day == 0 {
        return false;
    }
    day <= days_in_month(year as i16, month as u8) as u64
}

fn day_of(year: u64, month: u64, day: u64) -> i64
    requires year { year < 10_000 }
    requires date { spec.is_date year month day ≡ true }
    ensures value { result ≡ days_from_civil (pos year) month day }
    ensures low { neg_ℤ (pos 4_371_587) ≤ℤ result }
    ensures high { result ≤ℤ pos 2_932_896 }
{
    let date = Date {
        year: year as i16,
        month: month as u8,
        day: day as u8,
    };
    date.to_unix_epoch_day() as i64
}

// A day, and the place behind it.
#[derive(Clone, Copy)]
struct Day {
    number: i64,
    after: usize,
}

fn date_at(text: &[u8]) -> Option<Day>
    ensures date { MatchOption result (spec.date_at text.now ≡ None)
        (λ read. spec.date_at text.now ≡ Some (read.number, drop read.after text.now)) }
    ensures low { IfSome result (λ read. neg_ℤ (pos 4_371_587) ≤ℤ read.number) }
    ensures high { IfSome result (λ read. read.number ≤ℤ pos 2_932_896) }
{
    match four_then(text, 0, b'-') {
        None => None,
        Some(year) => match two_then(text, year.after, b'-') {
            None => None,
            Some(month) => match two_then(text, month.after, b'T') {
                None => None,
                Some(day) => {
                    if is_date(year.value, month.value, day.value) {
                        Some(Day {
                            number: day_of(year.value, month.value, day.value),
                            after: day.after,
                        })
                    } else {
                        None
                    }
                }
            },
        },
    }
}

// The seconds of a day.
fn clock_at(text: &[u8], at: usize) -> Option<Front>
    ensures clock { MatchOption result (spec.clock_at (drop at text.now) ≡ None)
        (λ front. spec.clock_at (drop at text.now)
        ≡ Some (front.value, drop front.after text.now)) }
    ensures value { IfSome result (λ front. front.value < 86_400) }
{
    match two_then(text, at, b':') {
        None => None,
        Some(hour) => match two_then(text, hour.after, b':') {
            None => None,
            Some(minute) => match two_at(text, minute.after) {
                None => None,
                Some(second) => {
                    if hour.value < 24 && minute.value < 60 && second.value < 60 {
                        Some(Front {
                            value: hour.value * 3600 + minute.value * 60 + second.value,
                            after: second.after,
                        })
                    } else {
                        None
                    }
                }
            },
        },
    }
}

// How far a clock is ahead of UTC, in seconds, where nothing stands behind it.
fn offset_of(text: &[u8], at: usize, negative: bool) -> Option<Offset>
    ensures offset { MatchOption result (spec.offset_of negative (drop at text.now) ≡ None)
        (λ offset. spec.offset_of negative (drop at text.now) ≡ Some offset.seconds) }
    ensures low { IfSome result (λ offset. neg_ℤ (pos 86_400) ≤ℤ offset.seconds) }
    ensures high { IfSome result (λ offset. offset.seconds ≤ℤ pos 86_400) }
{
    match two_then(text, at, b':') {
        None => None,
        Some(hour) => match two_at(text, hour.after) {
            None => None,
            Some(minute) => {
                if minute.after >= text.len() && hour.value < 24 && minute.value < 60 {
                    Some(signed_seconds(negative, hour.value * 3600 + minute.value * 60))
                } else {
                    None
                }
            }
        },
    }
}

// How far a clock is ahead of UTC.
#[derive(Clone, Copy)]
struct Offset {
    seconds: i64,
}

fn signed_seconds(negative: bool, seconds: u64) -> Offset
    requires { seconds < 86_400 }
    ensures value { result.seconds ≡ signed negative seconds }
    ensures low { neg_ℤ (pos 86_400) ≤ℤ result.seconds }
    ensures high { result.seconds ≤ℤ pos 86_400 }
{
    let seconds = seconds as i64;
    Offset {
        seconds: if negative { -seconds } else { seconds },
    }
}

fn offset_at(text: &[u8], at: usize) -> Option<Offset>
    ensures offset { MatchOption result (spec.offset_at (drop at text.now) ≡ None)
        (λ offset. spec.offset_at (drop at text.now) ≡ Some offset.seconds) }
    ensures low { IfSome result (λ offset. neg_ℤ (pos 86_400) ≤ℤ offset.seconds) }
    ensures high { IfSome result (λ offset. offset.seconds ≤ℤ pos 86_400) }
{
    match byte_at(text, at) {
        None => None,
        Some(b'Z') => match byte_at(text, at + 1) {
            None => Some(Offset { seconds: 0 }),
            Some(_) => None,
        },
        Some(b'+') => offset_of(text, at + 1, false),
        Some(b'-') => offset_of(text, at + 1, true),
        Some(_) => None,
    }
}

/// Whether these are the seconds of a year from 1 to 9999.
pub(crate) fn is_second(seconds: i64) -> bool
    ensures { result ≡ spec.is_second seconds }
{
    seconds >= -62_135_596_800 && seconds <= 253_402_300_799
}

fn timestamp_of(text: &[u8]) -> Option<JsonTimestamp>
    ensures { MatchOption result (spec.timestamp_of text.now ≡ None)
        (λ t. spec.timestamp_of text.now ≡ Some (t.seconds, t.nanos)) }
{
    match date_at(text) {
        None => None,
        Some(day) => match clock_at(text, day.after) {
            None => None,
            Some(clock) => match fraction_at(text, clock.after) {
                None => None,
                Some(nanos) => match offset_at(text, nanos.after) {
                    None => None,
                    Some(offset) => timestamp_if(
                        day.number,
                        clock.value,
                        offset.seconds,
                        nanos.value,
                    ),
                },
            },
        },
    }
}

fn timestamp_if(day: i64, clock: u64, offset: i64, nanos: u64) -> Option<JsonTimestamp>
    requires low { neg_ℤ (pos 4_371_587) ≤ℤ day }
    requires high { day ≤ℤ pos 2_932_896 }
    requires clock { clock < 86_400 }
    requires offset_low { neg_ℤ (pos 86_400) ≤ℤ offset }
    requires offset_high { offset ≤ℤ pos 86_400 }
    requires nanos { nanos < 10 ^ 9 }
    ensures { MatchOption result (spec.timestamp_if (spec.seconds_of day clock offset) nanos ≡ None)
        (λ t. spec.timestamp_if (spec.seconds_of day clock offset) nanos
        ≡ Some (t.seconds, t.nanos)) }
{
    let seconds = seconds_of(day, clock, offset);
    if is_second(seconds) {
        Some(timestamp_with(seconds, nanos))
    } else {
        None
    }
}

fn seconds_of(day: i64, clock: u64, offset: i64) -> i64
    requires low { neg_ℤ (pos 4_371_587) ≤ℤ day }
    requires high { day ≤ℤ pos 2_932_896 }
    requires clock { clock < 86_400 }
    requires offset_low { neg_ℤ (pos 86_400) ≤ℤ offset }
    requires offset_high { offset ≤ℤ pos 86_400 }
    ensures { result ≡ spec.seconds_of day clock offset }
{
    day * 86_400 + clock as i64 - offset
}

fn timestamp_with(seconds: i64, nanos: u64) -> JsonTimestamp
    requires { nanos < 10 ^ 9 }
    ensures seconds { result.seconds ≡ seconds }
    ensures nanos { result.nanos ≡ pos nanos }
{
    JsonTimestamp {
        seconds,
        nanos: nanos as i32,
    }
}

/// Reads a `google.protobuf.Timestamp`: a string as RFC 3339 has it, with an offset or a `Z`, and at
/// most nine digits of fraction, of a year from 1 to 9999.
pub fn read_timestamp(
    alloc: Global,
    text: &[u8],
    at: usize,
) -> Result<(JsonTimestamp, usize), ReadError>
    ensures ok { IfOk result (λ read. ReadsMeaning MeansTimestamp (drop at text.now)
        (read.0.seconds, read.0.nanos) (drop read.1 text.now)) }
    ensures behind { IfOk result (λ read. IsBehind at read.1 text.now) }
    ensures err { IfErr result (λ e. UnlessNoMemory e
        (λ refusal. RefusedAt text.now refusal (Refuses MeansTimestamp (drop at text.now)))) }
{
    match read_string(alloc, text, at) {
        Ok((string, after)) => match timestamp_of(string.as_str().as_bytes()) {
            Some(timestamp) => Ok((timestamp, after)),
            None => Err(no_value(at)),
        },
        Err(error) => Err(error),
    }
}
