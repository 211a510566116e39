//! Durations, put as compact JSON behind what a vector holds.
ghost use Rattle.std.specs.Prelude.{◌≡◌, ◌≢◌, ◌<◌, ◌++◌, [], ◌∷◌, IfOk, IfErr, MatchOption, OnOk, OnErr, Bool, ℕ, string_bytes};
ghost use Rattle.std.specs.Char.{digit_char};
ghost use Rattle.wire_json.specs.Compact.{Extends};
ghost use Rattle.wire_json.specs.Json.{Json};
ghost use Rattle.wire_json.specs.Written.{written};
ghost use Rattle.wire_jsontimes.specs.Digits.{fraction_text, places_text, three};
ghost use Rattle.wire_jsontimes.specs.Durations.{IsDuration, IsDurationTree, duration_text, minus_text};

use crate::duration::JsonDuration;
use itoa::Buffer;
use std::alloc::{AllocError, Global};
use wire_protojson::WriteError;

pub(crate) fn push_digit(out: &mut String, digit: u32) -> Result<(), AllocError>
    requires { digit < 10 }
    ensures { OnOk result (string_bytes out.new ≡ string_bytes out.old ++ digit_char digit ∷ []) }
{
    match char::from_digit(digit, 10) {
        Some(character) => out.push(character),
        None => Ok(()),
    }
}

fn push_three(out: &mut String, value: u32) -> Result<(), AllocError>
    ensures { OnOk result (string_bytes out.new ≡ string_bytes out.old ++ three value) }
{
    push_digit(out, value / 100 % 10)?;
    push_digit(out, value / 10 % 10)?;
    push_digit(out, value % 10)
}

fn push_places(out: &mut String, nanos: u32) -> Result<(), AllocError>
    ensures { OnOk result (string_bytes out.new ≡ string_bytes out.old ++ places_text nanos) }
{
    push_three(out, nanos / 1_000_000)?;
    if nanos % 1_000_000 == 0 {
        return Ok(());
    }
    push_three(out, nanos / 1000 % 1000)?;
    if nanos % 1000 == 0 {
        return Ok(());
    }
    push_three(out, nanos % 1000)
}

pub(crate) fn push_fraction(out: &mut String, nanos: u32) -> Result<(), AllocError>
    ensures { OnOk result (string_bytes out.new ≡ string_bytes out.old ++ fraction_text nanos) }
{
    if nanos == 0 {
        return Ok(());
    }
    out.push('.')?;
    push_places(out, nanos)
}

fn push_minus(out: &mut String, negative: bool) -> Result<(), AllocError>
    ensures { OnOk result (string_bytes out.new ≡ string_bytes out.old ++ minus_text negative) }
{
    if negative { out.push('-') } else { Ok(()) }
}

// The parts of a duration without their sign.
#[derive(Clone, Copy)]
struct Parts {
    negative: bool,
    whole: u64,
    nanos: u32,
}

fn parts_of(duration: JsonDuration) -> Option<Parts>
    ensures { MatchOption result ((negative : Bool) (whole nanos : ℕ)
        → IsDuration negative whole nanos (duration.seconds, duration.nanos) → ⊥)
        (λ parts. IsDuration parts.negative parts.whole parts.nanos
        (duration.seconds, duration.nanos)) }
{
    let whole = duration.seconds.unsigned_abs();
    let nanos = duration.nanos.unsigned_abs();
    if whole > 315_576_000_000 || nanos > 999_999_999 {
        return None;
    }
    if duration.seconds >= 0 && duration.nanos >= 0 {
        return Some(Parts {
            negative: false,
            whole,
            nanos,
        });
    }
    if duration.seconds <= 0 && duration.nanos <= 0 {
        return Some(Parts {
            negative: true,
            whole,
            nanos,
        });
    }
    None
}

fn text_of(alloc: Global, parts: Parts) -> Result<String, AllocError>
    ensures { IfOk result (λ text.
        string_bytes text ≡ duration_text parts.negative parts.whole parts.nanos) }
{
    let mut out = String::new(alloc);
    push_minus(&mut out, parts.negative)?;
    out.push_str(Buffer::new().format(parts.whole))?;
    push_fraction(&mut out, parts.nanos)?;
    out.push('s')?;
    Ok(out)
}

/// Writes a `google.protobuf.Duration`: a string of seconds with no, three, six or nine digits of
/// fraction and an `s`. What is out of range is refused. A front of it may stand in the vector where
/// memory is refused.
pub fn write_duration(
    alloc: Global,
    out: &mut Vec<u8>,
    duration: JsonDuration,
) -> Result<(), WriteError>
    ensures ok { OnOk result ((json : Json)
        × IsDurationTree (duration.seconds, duration.nanos) json
        × (out.new.items ≡ out.old.items ++ written json)) }
    ensures no_text { IfErr result (λ e. e ≢ WriteError.OutOfMemory → (json : Json)
        → IsDurationTree (duration.seconds, duration.nanos) json → ⊥) }
    ensures stays { IfErr result (λ e. e ≡ WriteError.OutOfRange
        → out.new.items ≡ out.old.items) }
    ensures err { OnErr result (Extends out.old.items out.new.items) }
{
    match parts_of(duration) {
        None => Err(WriteError::OutOfRange),
        Some(parts) => {
            let text = text_of(alloc, parts)?;
            wire_json::write_string(out, text.as_str())?;
            Ok(())
        }
    }
}
