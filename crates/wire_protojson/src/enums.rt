//! Values of enums, by a table of their names.
ghost use Rattle.std.specs.Prelude.{◌≡◌, ◌≢◌, ◌++◌, ℕ, ℤ, List, drop, IfOk, IfErr, IfSome, IfNone, OnOk, OnErr, MatchBool};
ghost use Rattle.wire_json.specs.Answer.{IsBehind};
ghost use Rattle.wire_json.specs.Compact.{Extends};
ghost use Rattle.wire_json.specs.Json.{Json};
ghost use Rattle.wire_json.specs.Written.{written};
ghost use Rattle.wire_protojson.specs.Enums.{IsEnumTree, MeansEnum, NamesNumber, NumberIsNamed, enum_table};
ghost use Rattle.wire_protojson.specs.Reads.{ReadsMeaning, Refuses, RefusedAt, UnlessNoMemory};
ghost use Rattle.wire_protojson.specs.Tokens.{token_tree};

use crate::number::int32_of;
use crate::refusal::{ReadError, no_value};
use crate::token::{Token, read_token};
use crate::write::write_int32;
use std::alloc::{AllocError, Global};

/// A value of an enum: its name, as the schema has it, and its number.
#[derive(Clone, Copy, Debug)]
pub struct EnumName<'a> {
    pub name: &'a str,
    pub number: i32,
}

fn is_named(entry: &EnumName<'_>, name: &str) -> bool
    ensures { MatchBool result (entry.now.name.now ≡ name.now) (entry.now.name.now ≢ name.now) }
{
    entry.name == name
}

fn is_numbered(entry: &EnumName<'_>, number: i32) -> bool
    ensures { MatchBool result (entry.now.number ≡ number) (entry.now.number ≢ number) }
{
    entry.number == number
}

fn number_in(entry: &EnumName<'_>) -> i32
    ensures { result ≡ entry.now.number }
{
    entry.number
}

// The number of the first value of this name.
fn number_named(names: &[EnumName<'_>], name: &str) -> Option<i32>
    ensures some { IfSome result (NamesNumber (enum_table names.now) name.now) }
    ensures none { IfNone result ((z : ℤ) → NamesNumber (enum_table names.now) name.now z → ⊥) }
{
    for entry in names {
        if is_named(entry, name) {
            return Some(number_in(entry));
        }
    }
    None
}

// The name of the first value of this number.
fn name_of<'a>(names: &[EnumName<'a>], number: i32) -> Option<&'a str>
    ensures some { IfSome result (λ name. NumberIsNamed (enum_table names.now) number name.now) }
    ensures none { IfNone result ((name : List ℕ)
        → NumberIsNamed (enum_table names.now) number name → ⊥) }
{
    for entry in names {
        if is_numbered(entry, number) {
            return Some(entry.name);
        }
    }
    None
}

fn enum_of(names: &[EnumName<'_>], token: &Token<'_>) -> Option<i32>
    ensures some { IfSome result (MeansEnum (enum_table names.now) (token_tree token.now)) }
    ensures none { IfNone result ((z : ℤ)
        → MeansEnum (enum_table names.now) (token_tree token.now) z → ⊥) }
{
    match token {
        Token::Null => None,
        Token::Bool(_) => None,
        Token::Number(_) => int32_of(token),
        Token::String(name) => number_named(names, name.as_str()),
    }
}

/// Reads the number of an enum's value: by its name, or any `int32` as a number. Names that the
/// table does not have are refused.
pub fn read_enum(
    alloc: Global,
    names: &[EnumName<'_>],
    text: &[u8],
    at: usize,
) -> Result<(i32, usize), ReadError>
    ensures ok { IfOk result (λ read. ReadsMeaning (MeansEnum (enum_table names.now))
        (drop at text.now) read.0 (drop read.1 text.now)) }
    ensures behind { IfOk result (λ read. IsBehind at read.1 text.now) }
    ensures err { IfErr result (λ e. UnlessNoMemory e (λ refusal.
        RefusedAt text.now refusal
        (Refuses (MeansEnum (enum_table names.now)) (drop at text.now)))) }
{
    match read_token(alloc, text, at) {
        Ok((token, after)) => match enum_of(names, &token) {
            Some(value) => Ok((value, after)),
            None => Err(no_value(at)),
        },
        Err(error) => Err(error),
    }
}

/// Writes a value of an enum: its first name in the table, or its number where that has none.
pub fn write_enum(out: &mut Vec<u8>, names: &[EnumName<'_>], number: i32) -> Result<(), AllocError>
    ensures ok { OnOk result ((json : Json) × IsEnumTree (enum_table names.now) number json
        × (out.new.items ≡ out.old.items ++ written json)) }
    ensures err { OnErr result (Extends out.old.items out.new.items) }
{
    match name_of(names, number) {
        Some(name) => wire_json::write_string(out, name),
        None => write_int32(out, number),
    }
}
