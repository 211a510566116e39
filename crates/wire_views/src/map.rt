//! Maps, whose entries a view holds as they came.
ghost use Rattle.std.specs.BTreeMap.{insert_entry};
ghost use Rattle.std.specs.Prelude.{◌≡◌, ◌∷◌, ◌++◌, [], OnOk, IfOk, IfErr};
ghost use Rattle.wire_codec.specs.DecodeError.TheVariants as errors;
ghost use Rattle.wire_fields.specs.Maps.{viewed};
ghost use Rattle.wire_views.specs.Entries.{map_with};

use crate::encoding::ViewEncoding;
use crate::map_entry::{EntryIn, ViewEntryValue};
use crate::map_key::MapKey;
use crate::message_view::MessageView;
use crate::view_kind::ViewKind;
use std::alloc::Global;
use std::collections::BTreeMap;
use std::marker::PhantomData;
use wire_codec::{DecodeContext, DecodeError, Tag, laws};
use wire_fields::LengthPrefixed;

/// A map, as `Map`: its entries in the order in which they came, of which the last of a key counts.
/// Each is charged for so many bytes of element memory: those that `Map` is given, so that view and
/// message are read within the same limits.
pub struct MapIn<K, V: ViewKind, const PLACE: usize> {
    key: PhantomData<K>,
    value: PhantomData<V>,
}

impl<K: MapKey, V: ViewEntryValue<Source = K::Source>, const PLACE: usize> ViewKind
    for MapIn<K, V, PLACE> {
    ghost use Rattle.std.specs.Prelude.{List};
    ghost use Rattle.wire_fields.specs.Maps.{map_kind, viewed};
    ghost use Rattle.wire_views.specs.Entries.{map_with};

    type Source = K::Source;

    type Held = Vec<(K::Held, V::Held)>;

    type Owned = BTreeMap<K::Owned, V::Owned>;

    ghost Value = { List (K.Value × V.Value) };

    ghost view = { λ v. map_with K.order (viewed K.view V.view v.items) };

    ghost owned = { λ m. viewed K.owned V.owned m.entries };

    ghost kind = { map_kind PLACE K.order K.scalar V.kind };

    fn empty(alloc: Global) -> Vec<(K::Held, V::Held)> {
        Vec::new(alloc)
    }

    fn merge(
        alloc: Global,
        tag: Tag,
        held: &mut Vec<(K::Held, V::Held)>,
        buf: &mut K::Source,
        context: &mut DecodeContext,
    ) -> Result<(), DecodeError> {
        laws::grammar::limits_add_up();
        laws::levels_and_counts();
        context.register_element_memory(PLACE)?;
        let mut entry = EntryIn::<K, V>::default_view(alloc);
        LengthPrefixed::merge::<EntryIn<K, V>>(alloc, tag, &mut entry, buf, context)?;
        push_entry(held, entry)
    }

    fn own(
        alloc: Global,
        held: &Vec<(K::Held, V::Held)>,
    ) -> Result<BTreeMap<K::Owned, V::Owned>, DecodeError> {
        own_entries::<K, V>(alloc, held)
    }
}

/// Puts an entry behind others.
pub(crate) fn push_entry<K: MapKey, V: ViewKind>(
    entries: &mut Vec<(K::Held, V::Held)>,
    entry: EntryIn<K, V>,
) -> Result<(), DecodeError>
    ensures ok { OnOk result (entries.new.items ≡ entries.old.items ++ (entry.key, entry.value) ∷ []) }
    ensures err { IfErr result (λ e. e ≡ errors.OutOfMemory) }
{
    let EntryIn { key, value } = entry;
    entries
        .push((key, value))
        .map_err(|_| DecodeError::OutOfMemory)
}

// The map that the entries are, with memory of its own.
fn own_entries<K: MapKey, V: ViewKind>(
    alloc: Global,
    entries: &[(K::Held, V::Held)],
) -> Result<BTreeMap<K::Owned, V::Owned>, DecodeError>
    ensures ok { IfOk result (λ map. viewed K.owned V.owned map.entries
        ≡ map_with K.order (viewed K.view V.view entries.now)) }
    ensures err { IfErr result (λ e. e ≡ errors.OutOfMemory) }
{
    let mut map = BTreeMap::new(alloc);
    for entry in entries {
        let key = K::own(alloc, &entry.0)?;
        let value = V::own(alloc, &entry.1)?;
        insert::<K, V>(&mut map, key, value)?;
    }
    Ok(map)
}

// Puts an entry in its place, or its value in that of the entry with the same key.
fn insert<K: MapKey, V: ViewKind>(
    map: &mut BTreeMap<K::Owned, V::Owned>,
    key: K::Owned,
    value: V::Owned,
) -> Result<(), DecodeError>
    ensures ok { OnOk result (map.new.entries
        ≡ insert_entry K.Owned.cmp map.old.entries key value) }
    ensures err { IfErr result (λ e. e ≡ errors.OutOfMemory) }
{
    match map.insert(key, value) {
        Ok(_) => Ok(()),
        Err(_) => Err(DecodeError::OutOfMemory),
    }
}
