//! Maps.
ghost use Rattle.std.specs.Prelude.{◌≡◌, ◌≢◌, ◌≤◌, ◌++◌, List, [], IfOk, IfErr, OnOk, OnErr, is_some};
ghost use Rattle.std.specs.BTreeMap.{insert_entry, is_at};
ghost use Rattle.std.specs.Map.{lookup};
ghost use Rattle.wire_json.specs.Compact.{Extends};
ghost use Rattle.wire_json.specs.Json.{Json, Members, member, members_depth, no_member};
ghost use Rattle.wire_json.specs.Written.{written};
ghost use Rattle.wire_protojson.specs.declared.refusal.ReadError.TheVariants.{OutOfMemory};
ghost use Rattle.wire_protojson.specs.declared.refusal.WriteError.TheVariants as untold;
ghost use Rattle.wire_jsonfields.specs.Maps.{IsMapTree, MapMeans, MembersPut, entries_seen};
ghost use Rattle.wire_jsonfields.specs.Messages.{text_of_members};
ghost use Rattle.wire_jsonfields.specs.Objects.{ArePlaced};
ghost use Rattle.wire_jsonfields.specs.Told.{HasNoTree};

use crate::key::JsonKey;
use crate::kind::{JsonKind, JsonValue, write_comma};
use crate::object::{PlacedMember, read_object};
use std::alloc::{AllocError, Global};
use std::collections::BTreeMap;
use std::marker::PhantomData;
use wire_json::Mark;
use wire_protojson::{ReadError, Reason, Refusal, WriteError};

/// A map, of which each member of an object is an entry. Two members of one key are refused, also
/// where their names differ, as `1` and `01`; `null` is no value.
pub struct Map<K: JsonKey, V: JsonValue> {
    key: PhantomData<K>,
    value: PhantomData<V>,
}

impl<K: JsonKey, V: JsonValue> JsonValue for Map<K, V> {
    ghost use Rattle.wire_jsonfields.specs.KindsBack.{IsMapInRange, entries_back};
    ghost use Rattle.wire_jsonfields.specs.OneValues.{one_map};

    type Held = BTreeMap<K::Held, V::Held>;

    ghost Value = { List (K.Value × V.Value) };

    ghost view = { λ m. entries_seen K.view V.view m.entries };

    ghost means = { MapMeans K.order K.means V.means };

    ghost tree = { IsMapTree K.name V.tree };

    ghost absent = { [] };

    ghost one_value = { one_map K.order K.means V.means K.one_key V.one_value };

    ghost in_range = { IsMapInRange K.order K.in_range V.in_range };

    ghost back = { entries_back K.order K.total K.means K.name V.means V.tree K.in_range
        V.in_range K.back V.back };

    fn read_json(
        alloc: Global,
        text: &[u8],
        at: usize,
        levels: u32,
    ) -> Result<(BTreeMap<K::Held, V::Held>, usize), ReadError> {
        match read_object(alloc, text, at, levels) {
            Ok(object) => {
                match read_map_entries::<K, V>(alloc, text, object.members.as_slice(), levels) {
                    Ok(map) => Ok((map, object.after)),
                    Err(error) => Err(error),
                }
            }
            Err(error) => Err(error),
        }
    }

    fn write_json(
        alloc: Global,
        out: &mut Vec<u8>,
        held: &BTreeMap<K::Held, V::Held>,
    ) -> Result<(), WriteError> {
        write_map::<K, V>(alloc, out, held)
    }
}

impl<K: JsonKey, V: JsonValue> JsonKind for Map<K, V> {
    fn absent_value(alloc: Global) -> BTreeMap<K::Held, V::Held> {
        BTreeMap::new(alloc)
    }

    fn is_absent(held: &BTreeMap<K::Held, V::Held>) -> bool {
        held.is_empty()
    }
}

// The map of these members.
fn read_map_entries<K: JsonKey, V: JsonValue>(
    alloc: Global,
    text: &[u8],
    members: &[PlacedMember<'_>],
    levels: u32,
) -> Result<BTreeMap<K::Held, V::Held>, ReadError>
    ensures ok { IfOk result (λ map. (ms : Members) → ArePlaced text.now members.now ms
        → MembersPut K.order K.means V.means ms [] (entries_seen K.view V.view map.entries)) }
    ensures err { IfErr result (λ e. e ≢ OutOfMemory → (ms : Members)
        → ArePlaced text.now members.now ms → members_depth ms ≤ levels
        → (m : List (K.Value × V.Value)) → MembersPut K.order K.means V.means ms [] m → ⊥) }
{
    let mut map = BTreeMap::new(alloc);
    for member in members {
        match K::read_key(alloc, member.name.as_str()) {
            Ok(Some(key)) => {
                if has_key::<K, V>(&map, &key) {
                    return Err(refused(Reason::Duplicate, member.place));
                }
                match V::read_json(alloc, text, member.place, levels) {
                    Ok((value, _after)) => put_entry::<K, V>(&mut map, key, value)?,
                    Err(error) => return Err(error),
                }
            }
            Ok(None) => return Err(refused(Reason::NoKey, member.place)),
            Err(_full) => return Err(ReadError::OutOfMemory),
        }
    }
    Ok(map)
}

fn refused(reason: Reason, at: usize) -> ReadError {
    ReadError::Refused(Refusal { reason, at })
}

fn has_key<K: JsonKey, V: JsonValue>(map: &BTreeMap<K::Held, V::Held>, key: &K::Held) -> bool
    ensures { result ≡ is_some (lookup (is_at (K.Held.cmp key.now)) map.now.entries) }
{
    map.contains_key(key)
}

fn put_entry<K: JsonKey, V: JsonValue>(
    map: &mut BTreeMap<K::Held, V::Held>,
    key: K::Held,
    value: V::Held,
) -> Result<(), AllocError>
    ensures { OnOk result (map.new.entries
        ≡ insert_entry K.Held.cmp map.old.entries key value) }
{
    match map.insert(key, value) {
        Ok(_) => Ok(()),
        Err(_full) => Err(AllocError),
    }
}

fn write_map<K: JsonKey, V: JsonValue>(
    alloc: Global,
    out: &mut Vec<u8>,
    map: &BTreeMap<K::Held, V::Held>,
) -> Result<(), WriteError>
    ensures ok { OnOk result ((json : Json)
        × IsMapTree K.name V.tree (entries_seen K.view V.view map.now.entries) json
        × (out.new.items ≡ out.old.items ++ written json)) }
    ensures err { OnErr result (Extends out.old.items out.new.items) }
    ensures no_text { IfErr result (λ e. e ≢ untold.OutOfMemory
        → HasNoTree (IsMapTree K.name V.tree) (entries_seen K.view V.view map.now.entries)) }
{
    wire_json::write_mark(out, Mark::BeginObject)?;
    let mut first = true;
    for (key, value) in map {
        write_entry::<K, V>(alloc, out, first, key, value)?;
        first = false;
    }
    wire_json::write_mark(out, Mark::EndObject)?;
    Ok(())
}

// Writes the member of an entry.
fn write_entry<K: JsonKey, V: JsonValue>(
    alloc: Global,
    out: &mut Vec<u8>,
    first: bool,
    key: &K::Held,
    value: &V::Held,
) -> Result<(), WriteError>
    ensures ok { OnOk result ((e : Json) × V.tree (V.view value.now) e
        × (out.new.items ≡ out.old.items
        ++ text_of_members first (member (K.name (K.view key.now)) e no_member))) }
    ensures err { OnErr result (Extends out.old.items out.new.items) }
    ensures no_text { IfErr result (λ e. e ≢ untold.OutOfMemory
        → HasNoTree V.tree (V.view value.now)) }
{
    write_comma(out, first)?;
    K::write_key(out, key)?;
    V::write_json(alloc, out, value)
}
