//! Floats as C++ prints them: with as few digits as a shorter form has, where that is read back as
//! the same number, and else with as many as every number needs.
ghost use Rattle.std.specs.Prelude.{◌≡◌, ◌^◌, ◌++◌, ℕ, List, OnOk, Some, codes, true, if◌then◌else◌};
ghost use Rattle.std.specs.Float.{binary32, binary64};
ghost use Rattle.std.specs.Float.Parse.{parse_float};
ghost use Rattle.wire_dump.specs.Numbers.{IsFloat};

use std::alloc::{AllocError, Global};
use wire_fields::{DoubleBits, FloatBits};

// The sign of a number, and infinity.
const DOUBLE_SIGN: u64 = 0x8000_0000_0000_0000;

const DOUBLE_INFINITY: u64 = 0x7FF0_0000_0000_0000;

const FLOAT_SIGN: u32 = 0x8000_0000;

const FLOAT_INFINITY: u32 = 0x7F80_0000;

// The least number with all of a float's digits.
const FLOAT_NORMAL: u32 = 0x0080_0000;

/// Puts the number of these bits behind what was put.
pub(crate) fn put_double(alloc: Global, out: &mut Vec<u8>, bits: u64) -> Result<(), AllocError>
    ensures { OnOk result ((text : List ℕ) × IsFloat binary64 (2 ^ 63) 9218868437227405312 bits
        text × (out.new.items ≡ out.old.items ++ text)) }
{
    let size = bits % DOUBLE_SIGN;
    if size > DOUBLE_INFINITY {
        return out.extend_from_slice(b"nan");
    }
    if size == DOUBLE_INFINITY {
        return put_infinite(out, bits >= DOUBLE_SIGN);
    }
    match (DoubleBits { bits }).get() {
        Some(value) => put_finite_double(alloc, out, value),
        None => out.extend_from_slice(b"nan"),
    }
}

fn put_finite_double(alloc: Global, out: &mut Vec<u8>, value: f64) -> Result<(), AllocError>
    ensures { OnOk result ((text : List ℕ) × (parse_float binary64 text ≡ Some value)
        × (out.new.items ≡ out.old.items ++ text)) }
{
    let start = out.len();
    put_general(out, &format!(in alloc; "{value:.14e}")?, 15)?;
    if reads_as_double(&out[start..], value) {
        return Ok(());
    }
    out.truncate(start);
    put_general(out, &format!(in alloc; "{value:.16e}")?, 17)?;
    if reads_as_double(&out[start..], value) {
        return Ok(());
    }
    // For the proof alone: 17 digits are enough for every number, so this is never reached.
    out.truncate(start);
    out.extend_from_slice(ryu::Buffer::new().format(value).as_bytes())
}

// Whether a text is read as this number, the sign of a zero too.
fn reads_as_double(text: &[u8], value: f64) -> bool
    ensures { result ≡ true → parse_float binary64 text.now ≡ Some value }
{
    let Ok(text) = std::str::from_utf8(text) else {
        return false;
    };
    match text.parse::<f64>() {
        Ok(read) => is_same_double(read, value),
        Err(_) => false,
    }
}

fn is_same_double(x: f64, y: f64) -> bool
    ensures { result ≡ true → x ≡ y }
{
    !x.is_nan() && !y.is_nan() && x.to_bits() == y.to_bits()
}

/// The same of 32 bits.
pub(crate) fn put_float(alloc: Global, out: &mut Vec<u8>, bits: u32) -> Result<(), AllocError>
    ensures { OnOk result ((text : List ℕ) × IsFloat binary32 (2 ^ 31) 2139095040 bits text
        × (out.new.items ≡ out.old.items ++ text)) }
{
    let size = bits % FLOAT_SIGN;
    if size > FLOAT_INFINITY {
        return out.extend_from_slice(b"nan");
    }
    if size == FLOAT_INFINITY {
        return put_infinite(out, bits >= FLOAT_SIGN);
    }
    // (C++ takes no short form of a number that is too small to be a normal one)
    match (FloatBits { bits }).get() {
        Some(value) => put_finite_float(alloc, out, value, size >= FLOAT_NORMAL),
        None => out.extend_from_slice(b"nan"),
    }
}

fn put_finite_float(
    alloc: Global,
    out: &mut Vec<u8>,
    value: f32,
    is_normal: bool,
) -> Result<(), AllocError>
    ensures { OnOk result ((text : List ℕ) × (parse_float binary32 text ≡ Some value)
        × (out.new.items ≡ out.old.items ++ text)) }
{
    let start = out.len();
    put_general(out, &format!(in alloc; "{value:.5e}")?, 6)?;
    if is_normal && reads_as_float(&out[start..], value) {
        return Ok(());
    }
    out.truncate(start);
    put_general(out, &format!(in alloc; "{value:.8e}")?, 9)?;
    if reads_as_float(&out[start..], value) {
        return Ok(());
    }
    // For the proof alone: 9 digits are enough for every number, so this is never reached.
    out.truncate(start);
    out.extend_from_slice(ryu::Buffer::new().format(value).as_bytes())
}

// Whether a text is read as this number, the sign of a zero too.
fn reads_as_float(text: &[u8], value: f32) -> bool
    ensures { result ≡ true → parse_float binary32 text.now ≡ Some value }
{
    let Ok(text) = std::str::from_utf8(text) else {
        return false;
    };
    match text.parse::<f32>() {
        Ok(read) => is_same_float(read, value),
        Err(_) => false,
    }
}

fn is_same_float(x: f32, y: f32) -> bool
    ensures { result ≡ true → x ≡ y }
{
    !x.is_nan() && !y.is_nan() && x.to_bits() == y.to_bits()
}

fn put_infinite(out: &mut Vec<u8>, is_negative: bool) -> Result<(), AllocError>
    ensures { OnOk result (out.new.items ≡ out.old.items
        ++ (if is_negative then codes "-inf" else codes "inf")) }
{
    out.extend_from_slice(if is_negative {
        b"-inf".as_slice()
    } else {
        b"inf".as_slice()
    })
}

// Puts a number of so many digits, written as `-1.2345e-6`, as C's `%g` does: with an exponent
// where that is below -4 or as large as the count of digits, and without the zeros at the end.
fn put_general(out: &mut Vec<u8>, text: &str, digits: i32) -> Result<(), AllocError>
    ensures { OnOk result ((text : List ℕ) × (out.new.items ≡ out.old.items ++ text)) }
{
    let (number, exponent) = text.split_once('e').unwrap_or((text, "0"));
    let exponent = exponent.parse::<i32>().unwrap_or(0);
    let (sign, number) = match number.strip_prefix('-') {
        Some(rest) => ("-", rest),
        None => ("", number),
    };
    let (first, rest) = number.split_once('.').unwrap_or((number, ""));
    let rest = rest.trim_end_matches('0');
    out.extend_from_slice(sign.as_bytes())?;
    if exponent < -4 || exponent >= digits {
        return put_scientific(out, first, rest, exponent);
    }
    if exponent < 0 {
        out.extend_from_slice(b"0.")?;
        put_zeros(out, exponent.unsigned_abs().saturating_sub(1))?;
        out.extend_from_slice(first.as_bytes())?;
        out.extend_from_slice(rest.as_bytes())?;
        return Ok(());
    }
    put_plain(out, first, rest.as_bytes(), exponent.unsigned_abs())
}

fn put_scientific(
    out: &mut Vec<u8>,
    first: &str,
    rest: &str,
    exponent: i32,
) -> Result<(), AllocError>
    ensures { OnOk result ((text : List ℕ) × (out.new.items ≡ out.old.items ++ text)) }
{
    out.extend_from_slice(first.as_bytes())?;
    if !rest.is_empty() {
        out.extend_from_slice(b".")?;
        out.extend_from_slice(rest.as_bytes())?;
    }
    out.extend_from_slice(if exponent < 0 { b"e-" } else { b"e+" })?;
    let size = exponent.unsigned_abs();
    if size < 10 {
        out.extend_from_slice(b"0")?;
    }
    let mut buffer = itoa::Buffer::new();
    out.extend_from_slice(buffer.format(size).as_bytes())
}

// A number whose point stands so many digits behind the first.
fn put_plain(out: &mut Vec<u8>, first: &str, rest: &[u8], exponent: u32) -> Result<(), AllocError>
    ensures { OnOk result ((text : List ℕ) × (out.new.items ≡ out.old.items ++ text)) }
{
    out.extend_from_slice(first.as_bytes())?;
    let exponent = exponent as usize;
    if rest.len() <= exponent {
        out.extend_from_slice(rest)?;
        return put_zeros(out, (exponent - rest.len()) as u32);
    }
    out.extend_from_slice(&rest[..exponent])?;
    out.extend_from_slice(b".")?;
    out.extend_from_slice(&rest[exponent..])
}

fn put_zeros(out: &mut Vec<u8>, count: u32) -> Result<(), AllocError>
    ensures { OnOk result ((text : List ℕ) × (out.new.items ≡ out.old.items ++ text)) }
{
    for _ in 0..count {
        out.push(b'0')?;
    }
    Ok(())
}
