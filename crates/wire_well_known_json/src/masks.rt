//! Field masks as strings: paths with commas between, in which a capital of ASCII stands for an
//! underscore and its small letter.
ghost use Rattle.std.specs.Prelude.{◌≡◌, ◌≢◌, ◌++◌, Some, None, IfOk, IfErr, IsUtf8, MatchBool, MatchOption, OnErr, OnOk, drop, false, map, string_bytes};
ghost use Rattle.wire_json.specs.Answer.{IsBehind};
ghost use Rattle.wire_json.specs.Compact.{Extends};
ghost use Rattle.wire_json.specs.Json.{Json};
ghost use Rattle.wire_json.specs.Written.{written};
ghost use Rattle.wire_protojson.specs.Reads.{ReadsMeaning, RefusedAt, Refuses, UnlessNoMemory};
ghost use Rattle.wire_well_known_json.specs.Camel.{camel, camel_behind, camel_text};
ghost use Rattle.wire_well_known_json.specs.Masks as spec;
ghost use Rattle.wire_well_known_json.specs.Masks.{IsMaskTree, MeansMask};

use std::alloc::{AllocError, Global};
use std::mem;
use wire_protojson::{ReadError, WriteError, no_value, read_string};

fn has_no_underscore(text: &[u8]) -> bool
    ensures { result ≡ spec.has_no_underscore text.now }
{
    for byte in text {
        if *byte == b'_' {
            return false;
        }
    }
    true
}

fn none_is_empty(paths: &[String]) -> bool
    ensures { result ≡ spec.none_is_empty (map string_bytes paths.now) }
{
    for path in paths {
        if path.is_empty() {
            return false;
        }
    }
    true
}

// Puts what a byte of a text stands for.
fn push_byte(path: &mut Vec<u8>, byte: u8) -> Result<(), AllocError>
    ensures { OnOk result (path.new.items ≡ path.old.items ++ spec.path_bytes byte) }
{
    if byte.is_ascii_uppercase() {
        path.push(b'_')?;
    }
    path.push(byte.to_ascii_lowercase())?;
    Ok(())
}

fn in_text(path: Vec<u8>) -> String
    requires { IsUtf8 path.items }
    ensures { string_bytes result ≡ path.items }
{
    String::from_utf8(path).unwrap()
}

// The paths between the commas of a text.
fn paths_of(alloc: Global, text: &str) -> Result<Vec<String>, AllocError>
    ensures { IfOk result (λ paths. map string_bytes paths.items ≡ spec.paths_of text.now) }
{
    let mut paths = Vec::new(alloc);
    let mut path = Vec::new(alloc);
    let bytes = text.as_bytes();
    for byte in bytes {
        if *byte == b',' {
            let whole = mem::replace(&mut path, Vec::new(alloc));
            paths.push(in_text(whole))?;
        } else {
            push_byte(&mut path, *byte)?;
        }
    }
    paths.push(in_text(path))?;
    Ok(paths)
}

fn mask_of(alloc: Global, text: &str) -> Result<Option<Vec<String>>, AllocError>
    ensures { IfOk result (λ mask. MatchOption mask (spec.mask_of text.now ≡ None)
        (λ paths. spec.mask_of text.now ≡ Some (map string_bytes paths.items))) }
{
    if text.is_empty() {
        return Ok(Some(Vec::new(alloc)));
    }
    if !has_no_underscore(text.as_bytes()) {
        return Ok(None);
    }
    let paths = paths_of(alloc, text)?;
    if none_is_empty(&paths) {
        Ok(Some(paths))
    } else {
        Ok(None)
    }
}

// Reads a `google.protobuf.FieldMask`: a string of paths with commas between, none of which is
// empty or has an underscore. The empty string has no paths.
pub(crate) fn read_mask(
    alloc: Global,
    text: &[u8],
    at: usize,
) -> Result<(Vec<String>, usize), ReadError>
    ensures ok { IfOk result (λ read. ReadsMeaning MeansMask (drop at text.now)
        (map string_bytes read.0.items) (drop read.1 text.now)) }
    ensures behind { IfOk result (λ read. IsBehind at read.1 text.now) }
    ensures err { IfErr result (λ e. UnlessNoMemory e
        (λ refusal. RefusedAt text.now refusal (Refuses MeansMask (drop at text.now)))) }
{
    match read_string(alloc, text, at) {
        Ok((string, after)) => match mask_of(alloc, string.as_str()) {
            Ok(Some(paths)) => Ok((paths, after)),
            Ok(None) => Err(no_value(at)),
            Err(_) => Err(ReadError::OutOfMemory),
        },
        Err(error) => Err(error),
    }
}

// Puts a path as it stands in a text: an underscore and a small letter as a capital.
fn push_path(text: &mut Vec<u8>, path: &[u8]) -> Result<(), AllocError>
    ensures { OnOk result (text.new.items ≡ text.old.items ++ camel false path.now) }
{
    let mut raised = false;
    for byte in path {
        if raised {
            text.push(byte.to_ascii_uppercase())?;
            raised = false;
        } else if *byte == b'_' {
            raised = true;
        } else {
            text.push(*byte)?;
        }
    }
    Ok(())
}

fn push_paths(text: &mut Vec<u8>, paths: &[String]) -> Result<(), AllocError>
    ensures { OnOk result (text.new.items
        ≡ text.old.items ++ camel_behind (map string_bytes paths.now)) }
{
    for path in paths {
        text.push(b',')?;
        push_path(text, path.as_bytes())?;
    }
    Ok(())
}

// The text of the paths, if they have one.
fn text_of(alloc: Global, paths: &[String]) -> Result<Vec<u8>, AllocError>
    ensures { IfOk result (λ text. text.items ≡ camel_text (map string_bytes paths.now)) }
{
    let mut text = Vec::new(alloc);
    if let Some((first, others)) = paths.split_first() {
        push_path(&mut text, first.as_bytes())?;
        push_paths(&mut text, others)?;
    }
    Ok(text)
}

fn are_same(some: &[String], others: &[String]) -> bool
    ensures { MatchBool result (map string_bytes some.now ≡ map string_bytes others.now)
        (map string_bytes some.now ≢ map string_bytes others.now) }
{
    some == others
}

fn stands_for(alloc: Global, text: &str, paths: &[String]) -> Result<bool, AllocError>
    ensures { IfOk result (λ same. MatchBool same
        (spec.mask_of text.now ≡ Some (map string_bytes paths.now))
        (spec.mask_of text.now ≢ Some (map string_bytes paths.now))) }
{
    match mask_of(alloc, text)? {
        Some(read) => Ok(are_same(&read, paths)),
        None => Ok(false),
    }
}

// The text that stands for the paths, if there is one.
fn mask_text(alloc: Global, paths: &[String]) -> Result<Option<String>, AllocError>
    ensures { IfOk result (λ text. MatchOption text
        ((json : Json) → IsMaskTree (map string_bytes paths.now) json → ⊥)
        (λ text. spec.mask_of (string_bytes text) ≡ Some (map string_bytes paths.now))) }
{
    match String::from_utf8(text_of(alloc, paths)?) {
        Ok(text) => {
            if stands_for(alloc, text.as_str(), paths)? {
                Ok(Some(text))
            } else {
                Ok(None)
            }
        }
        Err(_) => Ok(None),
    }
}

// Writes a `google.protobuf.FieldMask`: its paths with commas between, with a capital for an
// underscore and a small letter. What would not be read as these paths is refused. A front of it
// may stand in the vector where memory is refused.
pub(crate) fn write_mask(
    alloc: Global,
    out: &mut Vec<u8>,
    paths: &[String],
) -> Result<(), WriteError>
    ensures ok { OnOk result ((json : Json) × IsMaskTree (map string_bytes paths.now) json
        × (out.new.items ≡ out.old.items ++ written json)) }
    ensures no_text { IfErr result (λ e. e ≢ WriteError.OutOfMemory → (json : Json)
        → IsMaskTree (map string_bytes paths.now) json → ⊥) }
    ensures stays { IfErr result (λ e. e ≡ WriteError.OutOfRange
        → out.new.items ≡ out.old.items) }
    ensures err { OnErr result (Extends out.old.items out.new.items) }
{
    match mask_text(alloc, paths)? {
        Some(text) => {
            wire_json::write_string(out, text.as_str())?;
            Ok(())
        }
        None => Err(WriteError::OutOfRange),
    }
}
