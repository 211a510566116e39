//! Whole numbers, from what stands for them in JSON.
ghost use Rattle.std.specs.Prelude.{◌≡◌, ◌<◌, ◌^◌, ℕ, ℤ, pos, List, FitsSigned, IfSome, IfNone};
ghost use Rattle.std.specs.Bool.{OnTrue, OnFalse};
ghost use Rattle.std.specs.Int.{w32, w64};
ghost use Rattle.std.specs.Option.{SomeIff};
ghost use Rattle.fast_float.specs.Text.{whole_of};
ghost use Rattle.wire_json.specs.Number.{SpellsNumber};
ghost use Rattle.wire_protojson.specs.Numbers.{HasNumber, IsWholeNumber, MeansSigned, MeansUnsigned, size_of_number, whole_number};
ghost use Rattle.wire_protojson.specs.Tokens.{token_tree};

use crate::token::Token;
use fast_float::Numeral;

// Whether a text is a number of JSON, and nothing else.
fn is_number(text: &[u8]) -> bool
    ensures yes { OnTrue result (SpellsNumber text.now) }
    ensures no { OnFalse result (SpellsNumber text.now → ⊥) }
{
    match wire_json::skip_number(text, 0) {
        Ok(end) => end == text.len(),
        Err(_) => false,
    }
}

/// The text of a number, which may stand in a string.
pub(crate) fn number_of<'a>(token: &'a Token<'a>) -> Option<&'a [u8]>
    ensures some { IfSome result (λ text. HasNumber (token_tree token.now) text.now) }
    ensures none { IfNone result ((text : List ℕ) → HasNumber (token_tree token.now) text → ⊥) }
{
    match token {
        Token::Null => None,
        Token::Bool(_) => None,
        Token::Number(text) => Some(*text),
        Token::String(value) => {
            let bytes = value.as_str().as_bytes();
            if is_number(bytes) { Some(bytes) } else { None }
        }
    }
}

// The whole number that a text is worth, where it is one and fits.
fn signed_number(text: &[u8]) -> Option<i64>
    ensures { SomeIff result (IsWholeNumber text.now × FitsSigned w64 (whole_number text.now))
        (whole_number text.now) }
{
    if text.first() == Some(&b'-') {
        Numeral::scan(&text[1..]).whole_i64(true)
    } else {
        Numeral::scan(text).whole_i64(false)
    }
}

// The same, of a number that is not below zero.
fn unsigned_number(text: &[u8]) -> Option<u64>
    ensures some { IfSome result (λ n. IsWholeNumber text.now × (whole_number text.now ≡ pos n)) }
    ensures none { IfNone result ((n : ℕ) → IsWholeNumber text.now → whole_number text.now ≡ pos n
        → n < 2 ^ 64 → ⊥) }
{
    if text.first() == Some(&b'-') {
        match Numeral::scan(&text[1..]).whole_u64() {
            Some(0) => Some(0),
            _ => None,
        }
    } else {
        Numeral::scan(text).whole_u64()
    }
}

pub(crate) fn int64_of(token: &Token<'_>) -> Option<i64>
    ensures some { IfSome result (MeansSigned w64 (token_tree token.now)) }
    ensures none { IfNone result ((z : ℤ) → MeansSigned w64 (token_tree token.now) z → ⊥) }
{
    match number_of(token) {
        Some(text) => signed_number(text),
        None => None,
    }
}

pub(crate) fn int32_of(token: &Token<'_>) -> Option<i32>
    ensures some { IfSome result (MeansSigned w32 (token_tree token.now)) }
    ensures none { IfNone result ((z : ℤ) → MeansSigned w32 (token_tree token.now) z → ⊥) }
{
    match int64_of(token) {
        Some(value) => i32::try_from(value).ok(),
        None => None,
    }
}

pub(crate) fn uint64_of(token: &Token<'_>) -> Option<u64>
    ensures some { IfSome result (MeansUnsigned 64 (token_tree token.now)) }
    ensures none { IfNone result ((n : ℕ) → MeansUnsigned 64 (token_tree token.now) n → ⊥) }
{
    match number_of(token) {
        Some(text) => unsigned_number(text),
        None => None,
    }
}

pub(crate) fn uint32_of(token: &Token<'_>) -> Option<u32>
    ensures some { IfSome result (MeansUnsigned 32 (token_tree token.now)) }
    ensures none { IfNone result ((n : ℕ) → MeansUnsigned 32 (token_tree token.now) n → ⊥) }
{
    match uint64_of(token) {
        Some(value) => u32::try_from(value).ok(),
        None => None,
    }
}
