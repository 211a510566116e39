//! Lines of a dump, put behind what was put.
ghost use Rattle.std.specs.Prelude.{◌≡◌, ◌+◌, ◌*◌, ◌^◌, ◌<◌, ◌≤◌, ◌/◌, ◌%◌, [], ◌∷◌, ◌++◌, codes, decimal, true, OnOk};
ghost use Rattle.wire_dump.specs.Frames.{frame_opening};
ghost use Rattle.wire_dump.specs.Lines.{end_line, fixed_line, hexadecimal, hexadecimal_digit, indented, line, number_line, opening};
ghost use Rattle.wire_dump.specs.Places.{range_text};

use crate::layout::Margin;
use itoa::Buffer;
use std::alloc::AllocError;

// The spaces of 16 levels.
const SPACES: [u8; 32] = [b' '; 32];

const LEVELS: u32 = 16;

// Two spaces a level. Those of 16 levels are put at once, and those of too many are cut off again,
// since a copy of a fixed length takes two instructions.
#[inline(always)]
pub(crate) fn put_indentation(out: &mut Vec<u8>, level: u32) -> Result<(), AllocError>
    ensures { OnOk result (out.new.items ≡ out.old.items ++ indented level) }
{
    if level > LEVELS {
        return put_many_levels(out, level);
    }
    out.extend_from_slice(&SPACES)?;
    out.truncate(out.len() - 2 * (LEVELS - level) as usize);
    Ok(())
}

#[inline(never)]
fn put_many_levels(out: &mut Vec<u8>, level: u32) -> Result<(), AllocError>
    ensures { OnOk result (out.new.items ≡ out.old.items ++ indented level) }
{
    for _ in 0..level {
        out.extend_from_slice(b"  ")?;
    }
    Ok(())
}

#[inline(always)]
#[tactic(auto, using(std::proofs::lemmas::Fmt::decimal_digit))]
fn put_decimal(out: &mut Vec<u8>, number: u64) -> Result<(), AllocError>
    ensures { OnOk result (out.new.items ≡ out.old.items ++ decimal number) }
{
    if number < 10 {
        out.push(48 + number as u8)?;
        return Ok(());
    }
    put_digits(out, number)
}

// A number of more than one digit; one of up to six without a buffer.
#[inline(never)]
fn put_digits(out: &mut Vec<u8>, number: u64) -> Result<(), AllocError>
    requires { 10 ≤ number }
    ensures { OnOk result (out.new.items ≡ out.old.items ++ decimal number) }
{
    if number < 100 {
        return put_pair(out, number);
    }
    if number < 10_000 {
        return put_three_or_four(out, number);
    }
    if number < 1_000_000 {
        put_three_or_four(out, number / 100)?;
        return put_pair(out, number % 100);
    }
    put_long(out, number)
}

#[inline(never)]
fn put_long(out: &mut Vec<u8>, number: u64) -> Result<(), AllocError>
    ensures { OnOk result (out.new.items ≡ out.old.items ++ decimal number) }
{
    let mut buffer = Buffer::new();
    out.extend_from_slice(buffer.format(number).as_bytes())
}

#[inline(always)]
fn put_three_or_four(out: &mut Vec<u8>, number: u64) -> Result<(), AllocError>
    requires more { 100 ≤ number }
    requires less { number < 10000 }
    ensures { OnOk result (out.new.items ≡ out.old.items ++ decimal number) }
{
    put_one_or_two(out, number / 100)?;
    put_pair(out, number % 100)
}

#[inline(always)]
#[tactic(auto, using(std::proofs::lemmas::Fmt::decimal_digit, crate::proofs::Decimal::two_digits))]
fn put_one_or_two(out: &mut Vec<u8>, number: u64) -> Result<(), AllocError>
    requires { number < 100 }
    ensures { OnOk result (out.new.items ≡ out.old.items ++ decimal number) }
{
    if number < 10 {
        out.push(48 + number as u8)?;
        return Ok(());
    }
    put_pair(out, number)
}

// Two digits, of which the first may be 0.
#[inline(always)]
fn put_pair(out: &mut Vec<u8>, number: u64) -> Result<(), AllocError>
    requires { number < 100 }
    ensures { OnOk result (out.new.items
        ≡ out.old.items ++ (48 + number / 10) ∷ (48 + number % 10) ∷ []) }
{
    out.extend_from_slice(&[48 + (number / 10) as u8, 48 + (number % 10) as u8])
}

// A field's number, and what opens what is inside it.
#[inline(always)]
#[tactic(auto, using(std::proofs::lemmas::Fmt::decimal_digit))]
fn put_opened(out: &mut Vec<u8>, number: u32) -> Result<(), AllocError>
    ensures { OnOk result (out.new.items ≡ out.old.items ++ (decimal number ++ codes " {\n")) }
{
    if number < 10 {
        return out.extend_from_slice(&[48 + number as u8, b' ', b'{', b'\n']);
    }
    put_digits(out, number as u64)?;
    out.extend_from_slice(b" {\n")
}

// A field's number, and what stands before its value.
#[inline(always)]
#[tactic(auto, using(std::proofs::lemmas::Fmt::decimal_digit))]
fn put_named(out: &mut Vec<u8>, number: u32) -> Result<(), AllocError>
    ensures { OnOk result (out.new.items ≡ out.old.items ++ (decimal number ++ codes ": ")) }
{
    if number < 10 {
        return out.extend_from_slice(&[48 + number as u8, b':', b' ']);
    }
    put_digits(out, number as u64)?;
    out.extend_from_slice(b": ")
}

// The places of the bytes that a line is of, where they are shown.
#[inline(always)]
pub(crate) fn put_margin(out: &mut Vec<u8>, margin: Margin) -> Result<(), AllocError>
    ensures { OnOk result (out.new.items
        ≡ out.old.items ++ range_text margin.is_shown margin.start margin.end) }
{
    if !margin.is_shown {
        return Ok(());
    }
    put_range(out, margin.start, margin.end)
}

#[inline(never)]
fn put_range(out: &mut Vec<u8>, start: usize, end: usize) -> Result<(), AllocError>
    ensures { OnOk result (out.new.items ≡ out.old.items ++ range_text true start end) }
{
    put_decimal(out, start as u64)?;
    out.extend_from_slice(b"..")?;
    put_decimal(out, end as u64)?;
    out.extend_from_slice(b"  ")
}

// What each line of a record begins with.
#[inline(always)]
pub(crate) fn put_head(
    out: &mut Vec<u8>,
    margin: Margin,
    level: u32,
    number: u32,
) -> Result<(), AllocError>
    ensures { OnOk result (out.new.items ≡ out.old.items
        ++ (range_text margin.is_shown margin.start margin.end
        ++ (indented level ++ decimal number))) }
{
    put_margin(out, margin)?;
    put_indentation(out, level)?;
    put_decimal(out, number as u64)
}

fn hexadecimal_digit(digit: u64) -> u8
    requires { digit < 16 }
    ensures { result ≡ hexadecimal_digit digit }
{
    if digit < 10 {
        48 + digit as u8
    } else {
        87 + digit as u8
    }
}

// So many digits to the base 16, where there are more than three the last four at once.
fn put_hexadecimal(out: &mut Vec<u8>, width: u32, value: u64) -> Result<(), AllocError>
    ensures { OnOk result (out.new.items ≡ out.old.items ++ hexadecimal width value) }
{
    if width == 0 {
        return Ok(());
    }
    if width < 4 {
        put_hexadecimal(out, width - 1, value / 16)?;
        out.push(hexadecimal_digit(value % 16))?;
        return Ok(());
    }
    let (second, third, fourth) = (value / 16, value / 16 / 16, value / 16 / 16 / 16);
    put_hexadecimal(out, width - 4, fourth / 16)?;
    out.extend_from_slice(&[
        hexadecimal_digit(fourth % 16),
        hexadecimal_digit(third % 16),
        hexadecimal_digit(second % 16),
        hexadecimal_digit(value % 16),
    ])
}

#[inline(always)]
pub(crate) fn put_number(
    out: &mut Vec<u8>,
    margin: Margin,
    level: u32,
    number: u32,
    value: u64,
) -> Result<(), AllocError>
    ensures { OnOk result (out.new.items ≡ out.old.items
        ++ (range_text margin.is_shown margin.start margin.end ++ number_line level number value)) }
{
    put_margin(out, margin)?;
    put_indentation(out, level)?;
    put_named(out, number)?;
    put_decimal(out, value)?;
    out.extend_from_slice(b"\n")
}

pub(crate) fn put_fixed(
    out: &mut Vec<u8>,
    margin: Margin,
    level: u32,
    number: u32,
    width: u32,
    value: u64,
) -> Result<(), AllocError>
    ensures { OnOk result (out.new.items ≡ out.old.items
        ++ (range_text margin.is_shown margin.start margin.end
        ++ fixed_line level number width value)) }
{
    put_head(out, margin, level, number)?;
    out.extend_from_slice(b": 0x")?;
    put_hexadecimal(out, width, value)?;
    out.extend_from_slice(b"\n")
}

#[inline(always)]
pub(crate) fn put_opening(
    out: &mut Vec<u8>,
    margin: Margin,
    level: u32,
    number: u32,
) -> Result<(), AllocError>
    ensures { OnOk result (out.new.items ≡ out.old.items
        ++ (range_text margin.is_shown margin.start margin.end ++ opening level number)) }
{
    put_margin(out, margin)?;
    put_indentation(out, level)?;
    put_opened(out, number)
}

/// Puts what stands before the records of the frame with this number.
pub(crate) fn put_frame_opening(
    out: &mut Vec<u8>,
    margin: Margin,
    index: u64,
) -> Result<(), AllocError>
    ensures { OnOk result (out.new.items ≡ out.old.items
        ++ (range_text margin.is_shown margin.start margin.end ++ frame_opening index)) }
{
    put_margin(out, margin)?;
    out.extend_from_slice(b"frame ")?;
    put_decimal(out, index)?;
    out.extend_from_slice(b" {\n")
}

#[inline(always)]
pub(crate) fn put_closing(out: &mut Vec<u8>, margin: Margin, level: u32) -> Result<(), AllocError>
    ensures { OnOk result (out.new.items ≡ out.old.items
        ++ (range_text margin.is_shown margin.start margin.end ++ end_line level)) }
{
    put_margin(out, margin)?;
    put_indentation(out, level)?;
    out.extend_from_slice(b"}\n")
}
