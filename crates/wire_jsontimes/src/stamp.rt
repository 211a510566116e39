//! Timestamps, put as compact JSON behind what a vector holds.
ghost use Rattle.std.specs.Prelude.{◌≡◌, ◌≢◌, ◌<◌, ◌≤ℤ◌, ◌+ℤ◌, ◌++◌, ◌∷◌, [], true, pos, unsigned_abs, IfOk, IfErr, OnOk, OnErr, string_bytes};
ghost use Rattle.jiff_core.specs.Calendar.{days_from_civil};
ghost use Rattle.wire_json.specs.Compact.{Extends};
ghost use Rattle.wire_json.specs.Json.{Json};
ghost use Rattle.wire_json.specs.Written.{written};
ghost use Rattle.wire_jsontimes.specs.Timestamps.{IsTimestamp, IsTimestampTree, clock_text, in_four, is_date, is_second, timestamp_text, in_two};
ghost use Rattle.wire_jsontimes.specs.Digits.{fraction_text};

use crate::timestamp::{JsonTimestamp, is_second as is_in_range};
use crate::write::{push_digit, push_fraction};
use jiff_core::civil::Date;
use std::alloc::{AllocError, Global};
use wire_protojson::WriteError;

fn push_two(out: &mut String, value: u32) -> Result<(), AllocError>
    ensures { OnOk result (string_bytes out.new ≡ string_bytes out.old ++ in_two value) }
{
    push_digit(out, value / 10 % 10)?;
    push_digit(out, value % 10)
}

fn push_four(out: &mut String, value: u32) -> Result<(), AllocError>
    ensures { OnOk result (string_bytes out.new ≡ string_bytes out.old ++ in_four value) }
{
    push_two(out, value / 100)?;
    push_two(out, value % 100)
}

// A timestamp by the calendar.
#[derive(Clone, Copy)]
struct Stamp {
    year: u32,
    month: u32,
    day: u32,
    clock: u32,
    nanos: u32,
}

fn push_date(out: &mut String, stamp: Stamp) -> Result<(), AllocError>
    ensures { OnOk result (string_bytes out.new ≡ string_bytes out.old
        ++ (in_four stamp.year ++ (45 ∷ (in_two stamp.month
        ++ (45 ∷ (in_two stamp.day ++ 84 ∷ [])))))) }
{
    push_four(out, stamp.year)?;
    out.push('-')?;
    push_two(out, stamp.month)?;
    out.push('-')?;
    push_two(out, stamp.day)?;
    out.push('T')
}

fn push_clock(out: &mut String, clock: u32) -> Result<(), AllocError>
    ensures { OnOk result (string_bytes out.new ≡ string_bytes out.old ++ clock_text clock []) }
{
    push_two(out, clock / 3600)?;
    out.push(':')?;
    push_two(out, clock / 60 % 60)?;
    out.push(':')?;
    push_two(out, clock % 60)
}

fn text_of(alloc: Global, stamp: Stamp) -> Result<String, AllocError>
    ensures { IfOk result (λ text. string_bytes text
        ≡ timestamp_text stamp.year stamp.month stamp.day stamp.clock stamp.nanos) }
{
    let mut out = String::new(alloc);
    push_date(&mut out, stamp)?;
    push_clock(&mut out, stamp.clock)?;
    push_fraction(&mut out, stamp.nanos)?;
    out.push('Z')?;
    Ok(out)
}

fn stamp_of(timestamp: JsonTimestamp) -> Stamp
    requires seconds { is_second timestamp.seconds ≡ true }
    requires low { pos 0 ≤ℤ timestamp.nanos }
    requires high { timestamp.nanos ≤ℤ pos 999_999_999 }
    ensures { IsTimestamp result.year result.month result.day result.clock result.nanos
        (timestamp.seconds, timestamp.nanos) }
{
    let seconds = since_first_year(timestamp);
    let date = Date::from_days_since_min((seconds / 86_400) as u32 + 3_652_425);
    Stamp {
        year: year_of(date),
        month: date.month as u32,
        day: date.day as u32,
        clock: (seconds % 86_400) as u32,
        nanos: nanos_of(timestamp),
    }
}

// The seconds from 0001-01-01 on.
fn since_first_year(timestamp: JsonTimestamp) -> u64
    requires { is_second timestamp.seconds ≡ true }
    ensures value { pos result ≡ timestamp.seconds +ℤ pos 62_135_596_800 }
    ensures most { result < 315_537_897_600 }
{
    (timestamp.seconds + 62_135_596_800) as u64
}

fn nanos_of(timestamp: JsonTimestamp) -> u32
    ensures { result ≡ unsigned_abs timestamp.nanos }
{
    timestamp.nanos.unsigned_abs()
}

fn year_of(date: Date) -> u32
    ensures { result ≡ unsigned_abs date.year }
{
    date.year.unsigned_abs() as u32
}

/// Writes a `google.protobuf.Timestamp`: a string by UTC, with no, three, six or nine digits of
/// fraction. What is out of range is refused. A front of it may stand in the vector where memory is
/// refused.
pub fn write_timestamp(
    alloc: Global,
    out: &mut Vec<u8>,
    timestamp: JsonTimestamp,
) -> Result<(), WriteError>
    ensures ok { OnOk result ((json : Json)
        × IsTimestampTree (timestamp.seconds, timestamp.nanos) json
        × (out.new.items ≡ out.old.items ++ written json)) }
    ensures no_text { IfErr result (λ e. e ≢ WriteError.OutOfMemory → (json : Json)
        → IsTimestampTree (timestamp.seconds, timestamp.nanos) json → ⊥) }
    ensures stays { IfErr result (λ e. e ≡ WriteError.OutOfRange
        → out.new.items ≡ out.old.items) }
    ensures err { OnErr result (Extends out.old.items out.new.items) }
{
    if !is_in_range(timestamp.seconds) || timestamp.nanos < 0 || timestamp.nanos > 999_999_999 {
        return Err(WriteError::OutOfRange);
    }
    let text = text_of(alloc, stamp_of(timestamp))?;
    wire_json::write_string(out, text.as_str())?;
    Ok(())
}
