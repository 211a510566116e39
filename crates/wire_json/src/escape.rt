//! Escapes of a string.
ghost use Rattle.std.specs.Prelude.{◌≡◌, ◌+◌, ◌*◌, ◌^◌, ◌≤◌, ◌<◌, IsTrue, length, drop, Ok, Err, IfOk, IfErr};
ghost use Rattle.std.specs.Char.{digit_value};
ghost use Rattle.std.specs.Char.Utf16.{is_high_surrogate, is_low_surrogate, surrogate_pair_char};
ghost use Rattle.std.specs.Option.{SomeIff};
ghost use Rattle.wire_json.specs.Answer.{AnswersUnit, IsBehind, IsOnward};
ghost use Rattle.wire_json.specs.Text.{hex_at, unit_at, character_of, pair_with, letter_at, escape_at};

use crate::bytes::{byte_at, skip_word, stands, syntax};
use crate::fault::{Fault, FaultKind};

/// A unit of UTF-16 or a part of it, and the place behind it.
#[derive(Clone, Copy)]
struct CodeUnit {
    value: u32,
    after: usize,
}

/// The character that an escape stands for, and the place behind it.
#[derive(Clone, Copy)]
pub(crate) struct Escape {
    pub(crate) character: char,
    pub(crate) after: usize,
}

/// The escape at this place, where its backslash stands.
pub(crate) fn read_escape(text: &[u8], at: usize) -> Result<Escape, Fault>
    requires { at < length text.now }
    ensures ok { IfOk result (λ escape. escape_at (drop at text.now)
        ≡ Ok (escape.character, drop escape.after text.now)) }
    ensures behind { IfOk result (λ escape. IsBehind at escape.after text.now) }
    ensures fault { IfErr result (λ fault.
        escape_at (drop at text.now) ≡ Err (fault.kind, drop fault.at text.now)) }
{
    if stands(text, at + 1, b'u') {
        read_character(text, at)
    } else {
        read_letter(text, at + 1)
    }
}

// A unit that is a character, or a pair of them.
fn read_character(text: &[u8], at: usize) -> Result<Escape, Fault>
    ensures ok { IfOk result (λ escape. character_of (drop at text.now) (unit_at (drop at text.now))
        ≡ Ok (escape.character, drop escape.after text.now)) }
    ensures behind { IfOk result (λ escape. IsBehind at escape.after text.now) }
    ensures fault { IfErr result (λ fault. character_of (drop at text.now)
        (unit_at (drop at text.now)) ≡ Err (fault.kind, drop fault.at text.now)) }
{
    let unit = read_unit(text, at)?;
    match unit.value {
        0xd800..=0xdbff => read_pair(text, at, unit),
        value => match char::from_u32(value) {
            Some(character) => Ok(Escape {
                character,
                after: unit.after,
            }),
            None => Err(lone_surrogate(at)),
        },
    }
}

// The low surrogate behind a high one that begins at this place.
fn read_pair(text: &[u8], at: usize, high: CodeUnit) -> Result<Escape, Fault>
    requires high { IsTrue (is_high_surrogate high.value) }
    ensures ok { IfOk result (λ escape.
        pair_with (drop at text.now) high.value (unit_at (drop high.after text.now))
        ≡ Ok (escape.character, drop escape.after text.now)) }
    ensures behind { IfOk result (λ escape. IsBehind high.after escape.after text.now) }
    ensures fault { IfErr result (λ fault.
        pair_with (drop at text.now) high.value (unit_at (drop high.after text.now))
        ≡ Err (fault.kind, drop fault.at text.now)) }
{
    match read_unit(text, high.after) {
        Ok(low) => match pair(high.value, low.value) {
            Some(character) => Ok(Escape {
                character,
                after: low.after,
            }),
            None => Err(lone_surrogate(at)),
        },
        Err(_) => Err(lone_surrogate(at)),
    }
}

// The character of a high surrogate and this unit, where that is a low one.
fn pair(high: u32, low: u32) -> Option<char>
    requires { IsTrue (is_high_surrogate high) }
    ensures { SomeIff result (IsTrue (is_low_surrogate low)) (surrogate_pair_char high low) }
{
    if matches!(low, 0xdc00..=0xdfff) {
        char::from_u32(0x1_0000 + (high - 0xd800) * 0x400 + (low - 0xdc00))
    } else {
        None
    }
}

fn lone_surrogate(at: usize) -> Fault
    ensures { result ≡ record { kind = FaultKind.LoneSurrogate; at = at } }
{
    Fault {
        kind: FaultKind::LoneSurrogate,
        at,
    }
}

// `\u` and four hexadecimal digits.
fn read_unit(text: &[u8], at: usize) -> Result<CodeUnit, Fault>
    ensures answer { AnswersUnit text.now result (unit_at (drop at text.now)) }
    ensures behind { IfOk result (λ unit. IsBehind at unit.after text.now) }
    ensures value { IfOk result (λ unit. unit.value < 2 ^ 16) }
{
    let after = skip_word(text, at, b"\\u")?;
    let none = CodeUnit { value: 0, after };
    let first = read_digit(text, none)?;
    let second = read_digit(text, first)?;
    let third = read_digit(text, second)?;
    read_digit(text, third)
}

// A hexadecimal digit more.
fn read_digit(text: &[u8], front: CodeUnit) -> Result<CodeUnit, Fault>
    requires { front.value < 2 ^ 12 }
    ensures answer { AnswersUnit text.now result (hex_at (front.value, drop front.after text.now)) }
    ensures behind { IfOk result (λ unit. IsBehind front.after unit.after text.now) }
    ensures value { IfOk result (λ unit. unit.value < front.value * 16 + 16) }
{
    let digit = byte_at(text, front.after).and_then(hex_value);
    match digit {
        Some(digit) => Ok(CodeUnit {
            value: front.value * 16 + digit,
            after: front.after + 1,
        }),
        None => Err(syntax(front.after)),
    }
}

fn hex_value(byte: u8) -> Option<u32>
    ensures { SomeIff result (digit_value byte < 16) (digit_value byte) }
{
    char::from(byte).to_digit(16)
}

fn read_letter(text: &[u8], at: usize) -> Result<Escape, Fault>
    ensures ok { IfOk result (λ escape. letter_at (drop at text.now)
        ≡ Ok (escape.character, drop escape.after text.now)) }
    ensures behind { IfOk result (λ escape. IsBehind at escape.after text.now) }
    ensures fault { IfErr result (λ fault.
        letter_at (drop at text.now) ≡ Err (fault.kind, drop fault.at text.now)) }
{
    let character = match byte_at(text, at) {
        Some(b'"') => '"',
        Some(b'\\') => '\\',
        Some(b'/') => '/',
        Some(b'b') => '\u{8}',
        Some(b'f') => '\u{c}',
        Some(b'n') => '\n',
        Some(b'r') => '\r',
        Some(b't') => '\t',
        _ => return Err(syntax(at)),
    };
    Ok(Escape {
        character,
        after: at + 1,
    })
}
