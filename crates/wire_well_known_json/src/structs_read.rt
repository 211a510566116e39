//! Values, structs and lists, read by recursion: a value of each element and of each member.
ghost use Rattle.std.specs.Prelude.{◌≡◌, ◌≢◌, ◌⊎◌, ◌≤◌, ◌∷◌, ◌++◌, ℕ, List, [], Some, drop, is_some, map, string_bytes, IfOk, IfErr, OnOk};
ghost use Rattle.std.specs.BTreeMap.{insert_entry, is_at};
ghost use Rattle.std.specs.Map.{lookup};
ghost use Rattle.wire_json.specs.Answer.{IsBehind};
ghost use Rattle.wire_json.specs.Json.{Members, members_depth};
ghost use Rattle.wire_json.specs.Kind.{kind_begun};
ghost use Rattle.wire_protojson.specs.declared.refusal.ReadError.TheVariants.{OutOfMemory};
ghost use Rattle.wire_jsonfields.specs.Levels.{NothingMeant, ReadsWithin};
ghost use Rattle.wire_jsonfields.specs.Lists.{ListMeans};
ghost use Rattle.wire_jsonfields.specs.Maps.{MapMeans, MembersPut, entries_seen};
ghost use Rattle.wire_jsonfields.specs.Objects.{ArePlaced};
ghost use Rattle.wire_well_known_json.specs.Structs.{IsName, MeansValue, Plain, Plain-Fields, held_order, name_order};
ghost use Rattle.wire_well_known_json.specs.Structs.{held_fields, list_value-plain, struct-plain, value-plain, value_kind-plain};
ghost use Rattle.wire_well_known_json.specs.Structs.{entry-plain, struct_fields, list_value, null_value, struct_value, values_of};

use std::alloc::{AllocError, Global};
use std::collections::BTreeMap;
use wire_codec::{EnumValue, UnknownFields};
use wire_json::{Fault, FaultKind, Kind, Next};
use wire_jsonfields::{JsonScalar, PlacedMember, read_object};
use wire_jsonkinds::Double;
use wire_protojson::{ReadError, Reason, Refusal, no_json, no_value, read_bool, read_string};
use wire_well_known::{ListValue, Struct, StructFieldsEntry, Value, ValueKind};

fn value_of(alloc: Global, kind: ValueKind) -> Value
    ensures { value-plain result ≡ value_kind-plain kind }
{
    Value {
        kind: Some(kind),
        unknown: UnknownFields::new(alloc),
    }
}

/// The list of these values.
pub(crate) fn list_with(alloc: Global, values: Vec<Value>) -> ListValue
    ensures { list_value-plain result ≡ map value-plain values.items }
{
    ListValue {
        values,
        unknown: UnknownFields::new(alloc),
    }
}

fn list_of(alloc: Global, values: Vec<Value>) -> Result<ValueKind, AllocError>
    ensures { IfOk result (λ kind. value_kind-plain kind
        ≡ list_value (values_of (map value-plain values.items))) }
{
    match Box::new(alloc, list_with(alloc, values)) {
        Ok(list) => Ok(ValueKind::ListValue(list)),
        Err(_full) => Err(AllocError),
    }
}

/// The struct of these entries.
pub(crate) fn struct_with(alloc: Global, fields: Vec<StructFieldsEntry>) -> Struct
    ensures { struct-plain result ≡ held_fields fields.items }
{
    Struct {
        fields,
        unknown: UnknownFields::new(alloc),
    }
}

fn struct_of(alloc: Global, fields: Vec<StructFieldsEntry>) -> Result<ValueKind, AllocError>
    ensures { IfOk result (λ kind. value_kind-plain kind
        ≡ struct_value (struct_fields (held_fields fields.items))) }
{
    match Box::new(alloc, struct_with(alloc, fields)) {
        Ok(held) => Ok(ValueKind::StructValue(held)),
        Err(_full) => Err(AllocError),
    }
}

fn null_kind() -> ValueKind
    ensures { value_kind-plain result ≡ null_value }
{
    ValueKind::NullValue_(EnumValue::from(0))
}

// Reads `null`.
fn read_null(text: &[u8], at: usize) -> Result<(ValueKind, usize), ReadError>
    requires { kind_begun (drop at text.now) ≡ Some Kind.Null }
    ensures ok { IfOk result (λ read. ReadsWithin 0 MeansValue (drop at text.now)
        (value_kind-plain read.0) (drop read.1 text.now)) }
    ensures behind { IfOk result (λ read. IsBehind at read.1 text.now) }
    ensures err { IfErr result (λ e. e ≢ OutOfMemory → (levels : ℕ)
        → NothingMeant levels MeansValue (drop at text.now)) }
{
    match wire_json::skip_null(text, at) {
        Ok(after) => Ok((null_kind(), after)),
        Err(fault) => Err(no_json(fault)),
    }
}

// Reads `true` or `false`.
fn read_truth(alloc: Global, text: &[u8], at: usize) -> Result<(ValueKind, usize), ReadError>
    requires { (kind_begun (drop at text.now) ≡ Some Kind.True)
        ⊎ (kind_begun (drop at text.now) ≡ Some Kind.False) }
    ensures ok { IfOk result (λ read. ReadsWithin 0 MeansValue (drop at text.now)
        (value_kind-plain read.0) (drop read.1 text.now)) }
    ensures behind { IfOk result (λ read. IsBehind at read.1 text.now) }
    ensures err { IfErr result (λ e. e ≢ OutOfMemory → (levels : ℕ)
        → NothingMeant levels MeansValue (drop at text.now)) }
{
    match read_bool(alloc, text, at) {
        Ok((value, after)) => Ok((ValueKind::BoolValue(value), after)),
        Err(error) => Err(error),
    }
}

fn read_number(alloc: Global, text: &[u8], at: usize) -> Result<(ValueKind, usize), ReadError>
    requires { kind_begun (drop at text.now) ≡ Some Kind.Number }
    ensures ok { IfOk result (λ read. ReadsWithin 0 MeansValue (drop at text.now)
        (value_kind-plain read.0) (drop read.1 text.now)) }
    ensures behind { IfOk result (λ read. IsBehind at read.1 text.now) }
    ensures err { IfErr result (λ e. e ≢ OutOfMemory → (levels : ℕ)
        → NothingMeant levels MeansValue (drop at text.now)) }
{
    match Double::read_json(alloc, text, at) {
        Ok((value, after)) => Ok((ValueKind::NumberValue(value), after)),
        Err(error) => Err(error),
    }
}

fn read_text(alloc: Global, text: &[u8], at: usize) -> Result<(ValueKind, usize), ReadError>
    requires { kind_begun (drop at text.now) ≡ Some Kind.String }
    ensures ok { IfOk result (λ read. ReadsWithin 0 MeansValue (drop at text.now)
        (value_kind-plain read.0) (drop read.1 text.now)) }
    ensures behind { IfOk result (λ read. IsBehind at read.1 text.now) }
    ensures err { IfErr result (λ e. e ≢ OutOfMemory → (levels : ℕ)
        → NothingMeant levels MeansValue (drop at text.now)) }
{
    match read_string(alloc, text, at) {
        Ok((value, after)) => Ok((ValueKind::StringValue(value), after)),
        Err(error) => Err(error),
    }
}

/// Reads a `google.protobuf.Value`, in which at most `levels` lists and structs stand in one
/// another. It calls itself once for each of these.
#[cycle(values)]
pub(crate) fn read_value(
    alloc: Global,
    text: &[u8],
    at: usize,
    levels: u32,
) -> Result<(Value, usize), ReadError>
    ensures ok { IfOk result (λ read. ReadsWithin levels MeansValue (drop at text.now)
        (value-plain read.0) (drop read.1 text.now)) }
    ensures behind { IfOk result (λ read. IsBehind at read.1 text.now) }
    ensures err { IfErr result (λ e. e ≢ OutOfMemory
        → NothingMeant levels MeansValue (drop at text.now)) }
{
    match read_kind(alloc, text, at, levels) {
        Ok((kind, after)) => Ok((value_of(alloc, kind), after)),
        Err(error) => Err(error),
    }
}

#[cycle(values)]
fn read_kind(
    alloc: Global,
    text: &[u8],
    at: usize,
    levels: u32,
) -> Result<(ValueKind, usize), ReadError>
    ensures ok { IfOk result (λ read. ReadsWithin levels MeansValue (drop at text.now)
        (value_kind-plain read.0) (drop read.1 text.now)) }
    ensures behind { IfOk result (λ read. IsBehind at read.1 text.now) }
    ensures err { IfErr result (λ e. e ≢ OutOfMemory
        → NothingMeant levels MeansValue (drop at text.now)) }
{
    match wire_json::kind_at(text, at) {
        None => Err(no_json(Fault {
            kind: FaultKind::Syntax,
            at,
        })),
        Some(Kind::Array) => match read_values(alloc, text, at, levels) {
            Ok((values, after)) => Ok((list_of(alloc, values)?, after)),
            Err(error) => Err(error),
        },
        Some(Kind::Object) => match read_fields(alloc, text, at, levels) {
            Ok((fields, after)) => Ok((struct_of(alloc, fields)?, after)),
            Err(error) => Err(error),
        },
        Some(Kind::Null) => read_null(text, at),
        Some(Kind::True) => read_truth(alloc, text, at),
        Some(Kind::False) => read_truth(alloc, text, at),
        Some(Kind::Number) => read_number(alloc, text, at),
        Some(Kind::String) => read_text(alloc, text, at),
    }
}

/// Reads the values of a `google.protobuf.ListValue`, which nest one level less deep.
#[cycle(values)]
pub(crate) fn read_values(
    alloc: Global,
    text: &[u8],
    at: usize,
    levels: u32,
) -> Result<(Vec<Value>, usize), ReadError>
    ensures ok { IfOk result (λ read. ReadsWithin levels (ListMeans MeansValue)
        (drop at text.now) (map value-plain read.0.items) (drop read.1 text.now)) }
    ensures behind { IfOk result (λ read. IsBehind at read.1 text.now) }
    ensures err { IfErr result (λ e. e ≢ OutOfMemory
        → NothingMeant levels (ListMeans MeansValue) (drop at text.now)) }
{
    let mut values = Vec::new(alloc);
    let mut next = match wire_json::first_element(text, at) {
        Ok(next) => next,
        Err(_other) => return Err(no_value(at)),
    };
    if levels == 0 {
        return Err(no_json(Fault {
            kind: FaultKind::TooDeep,
            at,
        }));
    }
    loop {
        match next {
            Next::End(after) => return Ok((values, after)),
            Next::Item(place) => match read_value(alloc, text, place, levels - 1) {
                Ok((value, after)) => {
                    push_value(&mut values, value)?;
                    next = match wire_json::next_element(text, after) {
                        Ok(next) => next,
                        Err(fault) => return Err(no_json(fault)),
                    };
                }
                Err(error) => return Err(error),
            },
        }
    }
}

/// Reads the fields of a `google.protobuf.Struct`, whose values nest one level less deep. Two
/// members of one name are refused.
#[cycle(values)]
pub(crate) fn read_fields(
    alloc: Global,
    text: &[u8],
    at: usize,
    levels: u32,
) -> Result<(Vec<StructFieldsEntry>, usize), ReadError>
    ensures ok { IfOk result (λ read. ReadsWithin levels (MapMeans name_order IsName MeansValue)
        (drop at text.now) (held_fields read.0.items) (drop read.1 text.now)) }
    ensures behind { IfOk result (λ read. IsBehind at read.1 text.now) }
    ensures err { IfErr result (λ e. e ≢ OutOfMemory
        → NothingMeant levels (MapMeans name_order IsName MeansValue) (drop at text.now)) }
{
    match read_object(alloc, text, at, levels) {
        Ok(object) => {
            match read_members(alloc, text, object.members.as_slice(), levels - 1) {
                Ok(map) => Ok((entries_of(alloc, map)?, object.after)),
                Err(error) => Err(error),
            }
        }
        Err(error) => Err(error),
    }
}

#[cycle(values)]
fn read_members(
    alloc: Global,
    text: &[u8],
    members: &[PlacedMember<'_>],
    levels: u32,
) -> Result<BTreeMap<String, Value>, ReadError>
    ensures ok { IfOk result (λ map. (ms : Members) → ArePlaced text.now members.now ms
        → MembersPut name_order IsName MeansValue ms []
        (entries_seen string_bytes value-plain map.entries)) }
    ensures err { IfErr result (λ e. e ≢ OutOfMemory → (ms : Members)
        → ArePlaced text.now members.now ms → members_depth ms ≤ levels → (m : Plain-Fields)
        → MembersPut name_order IsName MeansValue ms [] m → ⊥) }
{
    let mut map = BTreeMap::new(alloc);
    for member in members {
        let name = match String::from_str(alloc, member.name.as_str()) {
            Ok(name) => name,
            Err(_full) => return Err(ReadError::OutOfMemory),
        };
        if has_name(&map, &name) {
            return Err(duplicate(member.place));
        }
        match read_value(alloc, text, member.place, levels) {
            Ok((value, _after)) => put_value(&mut map, name, value)?,
            Err(error) => return Err(error),
        }
    }
    Ok(map)
}

fn push_value(values: &mut Vec<Value>, value: Value) -> Result<(), AllocError>
    ensures { OnOk result (values.new.items ≡ values.old.items ++ value ∷ []) }
{
    match values.push(value) {
        Ok(()) => Ok(()),
        Err(_full) => Err(AllocError),
    }
}

fn duplicate(at: usize) -> ReadError {
    ReadError::Refused(Refusal {
        reason: Reason::Duplicate,
        at,
    })
}

fn has_name(map: &BTreeMap<String, Value>, name: &String) -> bool
    ensures { result ≡ is_some (lookup (is_at (held_order name.now)) map.now.entries) }
{
    map.contains_key(name)
}

fn put_value(
    map: &mut BTreeMap<String, Value>,
    name: String,
    value: Value,
) -> Result<(), AllocError>
    ensures { OnOk result (map.new.entries ≡ insert_entry held_order map.old.entries name value) }
{
    match map.insert(name, value) {
        Ok(_) => Ok(()),
        Err(_full) => Err(AllocError),
    }
}

// The entries of a struct, in the order of their names.
fn entries_of(
    alloc: Global,
    fields: BTreeMap<String, Value>,
) -> Result<Vec<StructFieldsEntry>, AllocError>
    ensures { IfOk result (λ entries. map entry-plain entries.items
        ≡ entries_seen string_bytes value-plain fields.entries) }
{
    let mut entries = Vec::new(alloc);
    for (key, value) in fields {
        push_entry(&mut entries, entry_of(alloc, key, value)?)?;
    }
    Ok(entries)
}

fn push_entry(
    entries: &mut Vec<StructFieldsEntry>,
    entry: StructFieldsEntry,
) -> Result<(), AllocError>
    ensures { OnOk result (entries.new.items ≡ entries.old.items ++ entry ∷ []) }
{
    match entries.push(entry) {
        Ok(()) => Ok(()),
        Err(_full) => Err(AllocError),
    }
}

fn entry_of(alloc: Global, key: String, value: Value) -> Result<StructFieldsEntry, AllocError>
    ensures { IfOk result (λ entry. entry-plain entry ≡ (string_bytes key, value-plain value)) }
{
    match Box::new(alloc, value) {
        Ok(value) => Ok(StructFieldsEntry {
            key,
            value: Some(value),
            unknown: UnknownFields::new(alloc),
        }),
        Err(_full) => Err(AllocError),
    }
}
