//! Texts and bytes as code has them, and as clauses do.
use crate::error::GenerateError;
use std::alloc::Global;

const DIGITS: &[u8; 16] = b"0123456789abcdef";

// How many numbers of a list stand in a line of a clause.
const NUMBERS_OF_LINE: usize = 12;

/// A text between quotes: what is no printable ASCII, or ends it, as an escape.
pub(crate) fn text_literal(alloc: Global, text: &str) -> Result<String, GenerateError> {
    let mut literal = String::from_str(alloc, "\"")?;
    for letter in text.chars() {
        if is_plain(letter) {
            literal.push(letter)?;
        } else {
            literal.push_str("\\u{")?;
            for place in [5, 4, 3, 2, 1, 0] {
                literal.push(digit(letter as u32 >> (4 * place)))?;
            }
            literal.push('}')?;
        }
    }
    literal.push('"')?;
    Ok(literal)
}

/// The same of bytes.
pub(crate) fn bytes_literal(alloc: Global, bytes: &[u8]) -> Result<String, GenerateError> {
    let mut literal = String::from_str(alloc, "b\"")?;
    for byte in bytes {
        if is_plain(char::from(*byte)) {
            literal.push(char::from(*byte))?;
        } else {
            literal.push_str("\\x")?;
            literal.push(digit(u32::from(*byte) >> 4))?;
            literal.push(digit(u32::from(*byte)))?;
        }
    }
    literal.push('"')?;
    Ok(literal)
}

/// The bytes as a clause has them: by their signs, or as a list of numbers.
pub(crate) fn term(alloc: Global, bytes: &[u8]) -> Result<String, GenerateError> {
    let mut text = String::from_str(alloc, "(")?;
    if bytes.iter().all(|it| is_plain(char::from(*it))) {
        text.push_str("codes \"")?;
        for byte in bytes {
            text.push(char::from(*byte))?;
        }
        text.push_str("\")")?;
        return Ok(text);
    }
    for (place, byte) in bytes.iter().enumerate() {
        text.push_str(&byte.to_string(alloc)?)?;
        text.push_str(if place % NUMBERS_OF_LINE == NUMBERS_OF_LINE - 1 {
            "\n            ∷ "
        } else {
            " ∷ "
        })?;
    }
    text.push_str("[])")?;
    Ok(text)
}

// The lowest digit of a number in base sixteen.
fn digit(number: u32) -> char {
    char::from(DIGITS[number as usize % 16])
}

// Whether a sign stands for itself between quotes.
fn is_plain(letter: char) -> bool {
    matches!(letter, ' '..='~') && letter != '"' && letter != '\\'
}

// How far an escape is read: its backslash, or a number of base eight, of which so many digits are
// to come.
#[derive(Clone, Copy)]
enum Escape {
    None,
    Begun,
    Number(u8, u8),
}

/// The bytes that stand under the escapes of C, as protoc writes them: a sign behind a backslash, or
/// three digits of base eight.
pub(crate) fn unescaped(alloc: Global, text: &[u8]) -> Result<Vec<u8>, GenerateError> {
    let mut bytes = Vec::new(alloc);
    let mut escape = Escape::None;
    for sign in text {
        escape = match (escape, *sign) {
            (Escape::None, b'\\') => Escape::Begun,
            (Escape::Begun, b'0'..=b'7') => Escape::Number(*sign - b'0', 2),
            (Escape::Number(above, 2), b'0'..=b'7') => {
                Escape::Number((above % 32).wrapping_mul(8) + (*sign - b'0'), 1)
            }
            (Escape::Number(above, _), b'0'..=b'7') => {
                bytes.push((above % 32).wrapping_mul(8) + (*sign - b'0'))?;
                Escape::None
            }
            (Escape::Begun, b'n') => pushed(&mut bytes, b'\n')?,
            (Escape::Begun, b'r') => pushed(&mut bytes, b'\r')?,
            (Escape::Begun, b't') => pushed(&mut bytes, b'\t')?,
            (_, other) => pushed(&mut bytes, other)?,
        };
    }
    Ok(bytes)
}

// Puts a byte behind others, where an escape ends.
fn pushed(bytes: &mut Vec<u8>, byte: u8) -> Result<Escape, GenerateError> {
    bytes.push(byte)?;
    Ok(Escape::None)
}
