//! Strings and bytes, from what stands for them in JSON.
ghost use Rattle.std.specs.Prelude.{ℕ, List, IfOk, IfSome, IfNone, MatchOption};
ghost use Rattle.std.specs.Cow.{cow_str_bytes};
ghost use Rattle.wire_protojson.specs.Scalars.{MeansBase64, MeansBytes, MeansString};
ghost use Rattle.wire_protojson.specs.Tokens.{token_tree};

use crate::token::Token;
use base64::DecodeAllocError;
use base64::engine::general_purpose::{STANDARD_PAD_INDIFFERENT, URL_SAFE_PAD_INDIFFERENT};
use std::alloc::{AllocError, Global};
use std::borrow::CowStr;

pub(crate) fn string_of<'a>(token: Token<'a>) -> Option<CowStr<'a>>
    ensures some { IfSome result (λ value.
        MeansString (token_tree token.entry) (cow_str_bytes value)) }
    ensures none { IfNone result ((value : List ℕ) → MeansString (token_tree token.entry) value → ⊥) }
{
    match token {
        Token::Null => None,
        Token::Bool(_) => None,
        Token::Number(_) => None,
        Token::String(value) => Some(value),
    }
}

pub(crate) fn bytes_of(alloc: Global, token: Token<'_>) -> Result<Option<Vec<u8>>, AllocError>
    ensures { IfOk result (λ read. MatchOption read
        ((value : List ℕ) → MeansBytes (token_tree token.entry) value → ⊥)
        (λ value. MeansBytes (token_tree token.entry) value.items)) }
{
    match string_of(token) {
        Some(text) => of_base64(alloc, text.as_str().as_bytes()),
        None => Ok(None),
    }
}

// The bytes of base64 text.
fn of_base64(alloc: Global, text: &[u8]) -> Result<Option<Vec<u8>>, AllocError>
    ensures { IfOk result (λ read. MatchOption read
        ((value : List ℕ) → MeansBase64 text.now value → ⊥)
        (λ value. MeansBase64 text.now value.items)) }
{
    match STANDARD_PAD_INDIFFERENT.decode(alloc, text) {
        Ok(bytes) => Ok(Some(bytes)),
        Err(DecodeAllocError::OutOfMemory) => Err(AllocError),
        Err(DecodeAllocError::DecodeError(_)) => {
            match URL_SAFE_PAD_INDIFFERENT.decode(alloc, text) {
                Ok(bytes) => Ok(Some(bytes)),
                Err(DecodeAllocError::OutOfMemory) => Err(AllocError),
                Err(DecodeAllocError::DecodeError(_)) => Ok(None),
            }
        }
    }
}
