//! Scalars of JSON, before it is asked what they mean.
ghost use Rattle.std.specs.Prelude.{Bool, drop, IfOk, IfErr, IfSome, IfNone};
ghost use Rattle.wire_json.specs.Answer.{IsBehind};
ghost use Rattle.wire_json.specs.Reading.{ReadsValue};
ghost use Rattle.wire_protojson.specs.Reads.{NoScalarHere, RefusedAt, UnlessNoMemory};
ghost use Rattle.wire_protojson.specs.Scalars.{MeansBool};
ghost use Rattle.wire_protojson.specs.Tokens.{token_tree};

use crate::refusal::{ReadError, no_json, no_value};
use std::alloc::Global;
use std::borrow::CowStr;
use wire_json::{Fault, FaultKind, JsonError, Kind};

/// A value of JSON that is no array and no object.
#[derive(Drop)]
pub(crate) enum Token<'a> {
    Null,
    Bool(bool),
    Number(&'a [u8]),
    String(CowStr<'a>),
}

/// Reads a scalar.
pub(crate) fn read_token<'a>(
    alloc: Global,
    text: &'a [u8],
    at: usize,
) -> Result<(Token<'a>, usize), ReadError>
    ensures ok { IfOk result (λ read.
        ReadsValue (token_tree read.0) (drop at text.now) (drop read.1 text.now)) }
    ensures behind { IfOk result (λ read. IsBehind at read.1 text.now) }
    ensures err { IfErr result (λ e. UnlessNoMemory e
        (λ refusal. RefusedAt text.now refusal (NoScalarHere (drop at text.now)))) }
{
    match wire_json::kind_at(text, at) {
        None => Err(no_json(Fault {
            kind: FaultKind::Syntax,
            at,
        })),
        Some(Kind::Null) => match wire_json::skip_null(text, at) {
            Ok(after) => Ok((Token::Null, after)),
            Err(fault) => Err(no_json(fault)),
        },
        Some(Kind::True) => match wire_json::skip_bool(text, at, true) {
            Ok(after) => Ok((Token::Bool(true), after)),
            Err(fault) => Err(no_json(fault)),
        },
        Some(Kind::False) => match wire_json::skip_bool(text, at, false) {
            Ok(after) => Ok((Token::Bool(false), after)),
            Err(fault) => Err(no_json(fault)),
        },
        Some(Kind::Number) => match wire_json::read_number(text, at) {
            Ok(read) => Ok((Token::Number(read.text), read.after)),
            Err(fault) => Err(no_json(fault)),
        },
        Some(Kind::String) => match wire_json::read_string(alloc, text, at) {
            Ok(read) => Ok((Token::String(read.value), read.after)),
            Err(JsonError::Refused(fault)) => Err(no_json(fault)),
            Err(JsonError::OutOfMemory) => Err(ReadError::OutOfMemory),
        },
        Some(Kind::Array) => Err(no_value(at)),
        Some(Kind::Object) => Err(no_value(at)),
    }
}

pub(crate) fn bool_of(token: &Token<'_>) -> Option<bool>
    ensures some { IfSome result (MeansBool (token_tree token.now)) }
    ensures none { IfNone result ((value : Bool) → MeansBool (token_tree token.now) value → ⊥) }
{
    match token {
        Token::Null => None,
        Token::Bool(value) => Some(*value),
        Token::Number(_) => None,
        Token::String(_) => None,
    }
}
