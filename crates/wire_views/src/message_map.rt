//! Maps of messages.
use crate::map::MapIn;
use crate::map_key::MapKey;
use crate::message_field::AlwaysEmbeddedIn;
use crate::message_view::MessageView;
use crate::view_kind::ViewKind;
use std::alloc::Global;
use std::collections::BTreeMap;
use std::marker::PhantomData;
use wire_codec::{DecodeContext, DecodeError, Tag};

/// A map whose values are views of messages, as `MapIn` of `AlwaysEmbeddedIn`, which it calls.
pub struct EmbeddedMapIn<K, M: MessageView, const PLACE: usize> {
    key: PhantomData<K>,
    message: PhantomData<M>,
}

impl<K: MapKey, M: MessageView<Source = K::Source>, const PLACE: usize> ViewKind
    for EmbeddedMapIn<K, M, PLACE> {
    ghost use Rattle.std.specs.Prelude.{List};
    ghost use Rattle.wire_fields.specs.Maps.{map_kind, viewed};
    ghost use Rattle.wire_fields.specs.Messages.{always_kind, length_prefixed};
    ghost use Rattle.wire_views.specs.Entries.{map_with};

    type Source = K::Source;

    type Held = Vec<(K::Held, M)>;

    type Owned = BTreeMap<K::Owned, M::Owned>;

    ghost Value = { List (K.Value × M.Value) };

    ghost view = { λ v. map_with K.order (viewed K.view M.view v.items) };

    ghost owned = { λ m. viewed K.owned M.owned m.entries };

    ghost kind = { map_kind PLACE K.order K.scalar
        (always_kind length_prefixed M.records M.takes M.default) };

    fn empty(alloc: Global) -> Vec<(K::Held, M)> {
        Vec::new(alloc)
    }

    fn merge(
        alloc: Global,
        tag: Tag,
        held: &mut Vec<(K::Held, M)>,
        buf: &mut K::Source,
        context: &mut DecodeContext,
    ) -> Result<(), DecodeError> {
        <MapIn<K, AlwaysEmbeddedIn<M>, PLACE> as ViewKind>::merge(alloc, tag, held, buf, context)
    }

    fn own(
        alloc: Global,
        held: &Vec<(K::Held, M)>,
    ) -> Result<BTreeMap<K::Owned, M::Owned>, DecodeError> {
        <MapIn<K, AlwaysEmbeddedIn<M>, PLACE> as ViewKind>::own(alloc, held)
    }
}
