//! Values, structs and lists, written by recursion.
ghost use Rattle.std.specs.Prelude.{◌≡◌, ◌≢◌, ◌++◌, map, from_bits, string_bytes, IfOk, IfErr, IsTrue, MatchOption, OnOk, OnErr};
ghost use Rattle.std.specs.BTreeMap.{insert_entry};
ghost use Rattle.std.specs.Float.{binary64, float_is_finite};
ghost use Rattle.wire_json.specs.Compact.{Extends};
ghost use Rattle.wire_json.specs.Json.{Json, member, no_member};
ghost use Rattle.wire_json.specs.Written.{written};
ghost use Rattle.wire_jsonfields.specs.Lists.{IsListTree};
ghost use Rattle.wire_jsonfields.specs.Maps.{entries_seen};
ghost use Rattle.wire_jsonfields.specs.Messages.{comma_unless, text_of_members};
ghost use Rattle.wire_jsonfields.specs.Told.{HasNoTree};
ghost use Rattle.wire_protojson.specs.declared.refusal.WriteError.TheVariants as untold;
ghost use Rattle.wire_well_known_json.specs.Structs.{IsValueTree, entry-plain, struct_fields, held_fields, list_value, name_order, number_value};
ghost use Rattle.wire_well_known_json.specs.Structs.{bool_value, nothing, null_value, string_value, struct_value, value-plain};
ghost use Rattle.wire_well_known_json.specs.Structs.{value_kind-plain, values_of};

use std::alloc::{AllocError, Global};
use std::collections::BTreeMap;
use wire_fields::DoubleBits;
use wire_json::Mark;
use wire_protojson::{WriteError, write_double};
use wire_well_known::{StructFieldsEntry, Value, ValueKind};

/// Writes a `google.protobuf.Value`. It calls itself once for each list and each struct in which a
/// value stands. What the vector held stays in front.
#[cycle(writing)]
pub(crate) fn write_value(alloc: Global, out: &mut Vec<u8>, value: &Value) -> Result<(), WriteError>
    ensures ok { OnOk result ((json : Json) × IsValueTree (value-plain value.now) json
        × (out.new.items ≡ out.old.items ++ written json)) }
    ensures err { OnErr result (Extends out.old.items out.new.items) }
    ensures no_text { IfErr result (λ e. e ≢ untold.OutOfMemory
        → HasNoTree IsValueTree (value-plain value.now)) }
{
    match &value.kind {
        Some(kind) => write_kind(alloc, out, kind),
        None => write_nothing(out),
    }
}

#[cycle(writing)]
fn write_kind(alloc: Global, out: &mut Vec<u8>, kind: &ValueKind) -> Result<(), WriteError>
    ensures ok { OnOk result ((json : Json) × IsValueTree (value_kind-plain kind.now) json
        × (out.new.items ≡ out.old.items ++ written json)) }
    ensures err { OnErr result (Extends out.old.items out.new.items) }
    ensures no_text { IfErr result (λ e. e ≢ untold.OutOfMemory
        → HasNoTree IsValueTree (value_kind-plain kind.now)) }
{
    match kind {
        ValueKind::NullValue_(_) => write_null(out),
        ValueKind::NumberValue(number) => write_number(out, number),
        ValueKind::StringValue(text) => write_text(out, text),
        ValueKind::BoolValue(truth) => write_truth(out, *truth),
        ValueKind::StructValue(held) => write_fields(alloc, out, &held.fields),
        ValueKind::ListValue(list) => write_values(alloc, out, &list.values),
    }
}

// A value without a kind has no text.
fn write_nothing(_out: &mut Vec<u8>) -> Result<(), WriteError>
    ensures ok { OnOk result ((json : Json) × IsValueTree nothing json
        × (_out.new.items ≡ _out.old.items ++ written json)) }
    ensures err { OnErr result (Extends _out.old.items _out.new.items) }
    ensures no_text { IfErr result (λ e. e ≢ untold.OutOfMemory
        → HasNoTree IsValueTree nothing) }
    ensures never { OnOk result ⊥ }
{
    Err(WriteError::OutOfRange)
}

// Writes `null`.
fn write_null(out: &mut Vec<u8>) -> Result<(), WriteError>
    ensures ok { OnOk result ((json : Json) × IsValueTree null_value json
        × (out.new.items ≡ out.old.items ++ written json)) }
    ensures err { OnErr result (Extends out.old.items out.new.items) }
    ensures no_text { IfErr result (λ e. e ≢ untold.OutOfMemory
        → HasNoTree IsValueTree null_value) }
{
    wire_json::write_null(out)?;
    Ok(())
}

// Writes a string.
fn write_text(out: &mut Vec<u8>, text: &String) -> Result<(), WriteError>
    ensures ok { OnOk result ((json : Json)
        × IsValueTree (string_value (string_bytes text.now)) json
        × (out.new.items ≡ out.old.items ++ written json)) }
    ensures err { OnErr result (Extends out.old.items out.new.items) }
    ensures no_text { IfErr result (λ e. e ≢ untold.OutOfMemory
        → HasNoTree IsValueTree (string_value (string_bytes text.now))) }
{
    wire_json::write_string(out, text.as_str())?;
    Ok(())
}

// Writes `true` or `false`.
fn write_truth(out: &mut Vec<u8>, truth: bool) -> Result<(), WriteError>
    ensures ok { OnOk result ((json : Json) × IsValueTree (bool_value truth) json
        × (out.new.items ≡ out.old.items ++ written json)) }
    ensures err { OnErr result (Extends out.old.items out.new.items) }
    ensures no_text { IfErr result (λ e. e ≢ untold.OutOfMemory
        → HasNoTree IsValueTree (bool_value truth)) }
{
    wire_json::write_bool(out, truth)?;
    Ok(())
}

// Writes a finite number.
fn write_number(out: &mut Vec<u8>, number: &DoubleBits) -> Result<(), WriteError>
    ensures ok { OnOk result ((json : Json)
        × IsValueTree (number_value (from_bits binary64 number.now.bits)) json
        × (out.new.items ≡ out.old.items ++ written json)) }
    ensures err { OnErr result (Extends out.old.items out.new.items) }
    ensures no_text { IfErr result (λ e. e ≢ untold.OutOfMemory
        → HasNoTree IsValueTree (number_value (from_bits binary64 number.now.bits))) }
{
    match finite(number) {
        Some(value) => Ok(write_double(out, value)?),
        None => Err(WriteError::OutOfRange),
    }
}

fn finite(number: &DoubleBits) -> Option<f64>
    ensures { MatchOption result
        (IsTrue (float_is_finite (from_bits binary64 number.now.bits)) → ⊥)
        (λ value. (value ≡ from_bits binary64 number.now.bits) × IsTrue (float_is_finite value)) }
{
    match number.get() {
        Some(value) => { if value.is_finite() { Some(value) } else { None } }
        None => None,
    }
}

/// Writes the values of a `google.protobuf.ListValue`.
#[cycle(writing)]
pub(crate) fn write_values(
    alloc: Global,
    out: &mut Vec<u8>,
    values: &[Value],
) -> Result<(), WriteError>
    ensures ok { OnOk result ((json : Json)
        × IsValueTree (list_value (values_of (map value-plain values.now))) json
        × (out.new.items ≡ out.old.items ++ written json)) }
    ensures err { OnErr result (Extends out.old.items out.new.items) }
    ensures no_text { IfErr result (λ e. e ≢ untold.OutOfMemory
        → HasNoTree IsValueTree (list_value (values_of (map value-plain values.now)))) }
{
    wire_json::write_mark(out, Mark::BeginArray)?;
    let mut first = true;
    for value in values {
        write_comma(out, first)?;
        first = false;
        write_value(alloc, out, value)?;
    }
    wire_json::write_mark(out, Mark::EndArray)?;
    Ok(())
}

/// Writes the fields of a `google.protobuf.Struct` in the order of their names. Of entries with one
/// name the last one counts.
#[cycle(writing)]
pub(crate) fn write_fields(
    alloc: Global,
    out: &mut Vec<u8>,
    entries: &[StructFieldsEntry],
) -> Result<(), WriteError>
    ensures ok { OnOk result ((json : Json)
        × IsValueTree (struct_value (struct_fields (held_fields entries.now))) json
        × (out.new.items ≡ out.old.items ++ written json)) }
    ensures err { OnErr result (Extends out.old.items out.new.items) }
    ensures no_text { IfErr result (λ e. e ≢ untold.OutOfMemory
        → HasNoTree IsValueTree (struct_value (struct_fields (held_fields entries.now)))) }
{
    let last = last_entries(alloc, entries)?;
    wire_json::write_mark(out, Mark::BeginObject)?;
    let mut first = true;
    for (name, entry) in last {
        write_entry(alloc, out, first, name, entry)?;
        first = false;
    }
    wire_json::write_mark(out, Mark::EndObject)?;
    Ok(())
}

// Writes a member.
#[cycle(writing)]
fn write_entry(
    alloc: Global,
    out: &mut Vec<u8>,
    first: bool,
    name: &str,
    entry: &StructFieldsEntry,
) -> Result<(), WriteError>
    ensures ok { OnOk result ((e : Json) × IsValueTree (entry-plain entry.now).1 e
        × (out.new.items ≡ out.old.items
        ++ text_of_members first (member name.now e no_member))) }
    ensures err { OnErr result (Extends out.old.items out.new.items) }
    ensures no_text { IfErr result (λ e. e ≢ untold.OutOfMemory
        → HasNoTree IsValueTree (entry-plain entry.now).1) }
{
    match &entry.value {
        Some(value) => {
            write_comma(out, first)?;
            wire_json::write_name(out, name)?;
            write_value(alloc, out, value)
        }
        None => write_nothing(out),
    }
}

// The entry that counts of each name.
fn last_entries<'a>(
    alloc: Global,
    entries: &'a [StructFieldsEntry],
) -> Result<BTreeMap<&'a str, &'a StructFieldsEntry>, AllocError>
    ensures { IfOk result (λ last. entries_seen (λ name. name.now)
        (λ entry. (entry-plain entry.now).1) last.entries ≡ held_fields entries.now) }
{
    let mut last = BTreeMap::new(alloc);
    for entry in entries {
        put_entry(&mut last, entry)?;
    }
    Ok(last)
}

// Puts an entry in the place of one of its name.
fn put_entry<'a>(
    last: &mut BTreeMap<&'a str, &'a StructFieldsEntry>,
    entry: &'a StructFieldsEntry,
) -> Result<(), AllocError>
    ensures { OnOk result (entries_seen (λ name. name.now) (λ entry. (entry-plain entry.now).1)
        last.new.entries ≡ insert_entry name_order (entries_seen (λ name. name.now)
        (λ entry. (entry-plain entry.now).1) last.old.entries) (entry-plain entry.now).0
        (entry-plain entry.now).1) }
{
    match last.insert(name_of(entry), entry) {
        Ok(_) => Ok(()),
        Err(_full) => Err(AllocError),
    }
}

fn name_of(entry: &StructFieldsEntry) -> &str
    ensures { result.now ≡ (entry-plain entry.now).0 }
{
    entry.key.as_str()
}

// Writes the comma before a member or an element that is not the first.
fn write_comma(out: &mut Vec<u8>, first: bool) -> Result<(), AllocError>
    ensures ok { OnOk result (out.new.items ≡ out.old.items ++ comma_unless first) }
    ensures err { OnErr result (out.new.items ≡ out.old.items) }
{
    if first {
        return Ok(());
    }
    wire_json::write_mark(out, Mark::Comma)
}
