//! Numbers, in place.
ghost use Rattle.std.specs.Prelude.{◌≡◌, drop, Err, IfOk, IfErr};
ghost use Rattle.std.specs.Char.{is_ascii_digit};
ghost use Rattle.wire_json.specs.declared.fault.FaultKind.TheVariants.{Syntax};
ghost use Rattle.wire_json.specs.Answer.{Answers, IsBehind, IsOnward};
ghost use Rattle.wire_json.specs.Bytes.{past, past_one, is_byte};
ghost use Rattle.wire_json.specs.Number.{digits_end, integer_end, fraction_end, exponent_end, number_end, apart, is_sign, ReadsNumeral};

use crate::bytes::{byte_at, stands, syntax};
use crate::fault::Fault;

/// A number that was read, by its text, and the place behind it.
#[derive(Clone, Copy, Debug)]
pub struct NumberRead<'a> {
    pub text: &'a [u8],
    pub after: usize,
}

/// Reads a number, which is borrowed. It is refused as `skip_number` refuses it.
pub fn read_number<'a>(text: &'a [u8], at: usize) -> Result<NumberRead<'a>, Fault>
    ensures ok { IfOk result (λ read.
        ReadsNumeral read.text.now (drop at text.now) (drop read.after text.now)) }
    ensures behind { IfOk result (λ read. IsBehind at read.after text.now) }
    ensures fault { IfErr result (λ fault.
        number_end (drop at text.now) ≡ Err (drop fault.at text.now)) }
    ensures kind { IfErr result (λ fault. fault.kind ≡ Syntax) }
{
    match skip_number(text, at) {
        Ok(after) => Ok(NumberRead {
            text: &text[at..after],
            after,
        }),
        Err(fault) => Err(fault),
    }
}

/// Passes over a number. No character of numbers may follow it: so `01` is refused at its second
/// byte.
pub fn skip_number(text: &[u8], at: usize) -> Result<usize, Fault>
    ensures answer { Answers text.now result (number_end (drop at text.now)) }
    ensures behind { IfOk result (λ after. IsBehind at after text.now) }
{
    let integer = skip_integer(text, skip_minus(text, at))?;
    let fraction = skip_fraction(text, integer)?;
    let end = skip_exponent(text, fraction)?;
    end_here(text, end)
}

// No character of numbers goes on here.
fn end_here(text: &[u8], at: usize) -> Result<usize, Fault>
    ensures answer { Answers text.now result (apart (drop at text.now)) }
    ensures here { IfOk result (λ after. after ≡ at) }
{
    match byte_at(text, at) {
        Some(b'0'..=b'9' | b'.' | b'e' | b'E' | b'+' | b'-') => Err(syntax(at)),
        _ => Ok(at),
    }
}

fn skip_minus(text: &[u8], at: usize) -> usize
    ensures minus { drop result text.now ≡ past_one (is_byte 45) (drop at text.now) }
    ensures onward { IsOnward at result text.now }
{
    if stands(text, at, b'-') { at + 1 } else { at }
}

fn skip_integer(text: &[u8], at: usize) -> Result<usize, Fault>
    ensures answer { Answers text.now result (integer_end (drop at text.now)) }
    ensures behind { IfOk result (λ after. IsBehind at after text.now) }
{
    if stands(text, at, b'0') {
        Ok(at + 1)
    } else {
        skip_digits(text, at)
    }
}

fn skip_fraction(text: &[u8], at: usize) -> Result<usize, Fault>
    ensures answer { Answers text.now result (fraction_end (drop at text.now)) }
    ensures onward { IfOk result (λ after. IsOnward at after text.now) }
{
    if stands(text, at, b'.') {
        skip_digits(text, at + 1)
    } else {
        Ok(at)
    }
}

fn skip_exponent(text: &[u8], at: usize) -> Result<usize, Fault>
    ensures answer { Answers text.now result (exponent_end (drop at text.now)) }
    ensures onward { IfOk result (λ after. IsOnward at after text.now) }
{
    match byte_at(text, at) {
        Some(b'e' | b'E') => skip_digits(text, skip_sign(text, at + 1)),
        _ => Ok(at),
    }
}

fn skip_sign(text: &[u8], at: usize) -> usize
    ensures sign { drop result text.now ≡ past_one is_sign (drop at text.now) }
    ensures onward { IsOnward at result text.now }
{
    match byte_at(text, at) {
        Some(b'+' | b'-') => at + 1,
        _ => at,
    }
}

// One digit or more.
fn skip_digits(text: &[u8], at: usize) -> Result<usize, Fault>
    ensures answer { Answers text.now result (digits_end (drop at text.now)) }
    ensures behind { IfOk result (λ after. IsBehind at after text.now) }
{
    match byte_at(text, at) {
        Some(b'0'..=b'9') => Ok(past_digits(text, at + 1)),
        _ => Err(syntax(at)),
    }
}

fn past_digits(text: &[u8], at: usize) -> usize
    ensures digits { drop result text.now ≡ past is_ascii_digit (drop at text.now) }
    ensures onward { IsOnward at result text.now }
{
    let mut place = at;
    while let Some(b'0'..=b'9') = byte_at(text, place) {
        place += 1;
    }
    place
}
