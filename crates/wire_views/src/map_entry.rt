//! Entries of maps, as views read them: on the wire, messages of a key and a value.
ghost use Rattle.std.specs.Prelude.{◌≡◌, ◌≢◌, OnOk, OnErr, IfErr};
ghost use Rattle.wire_codec.specs.DecodeError.TheVariants as errors;
ghost use Rattle.wire_codec.specs.Folds.{IsSingle};
ghost use Rattle.wire_codec.specs.Limits.{NoCountGrew};
ghost use Rattle.wire_codec.specs.TagView.{tag_number, tag_type};
ghost use Rattle.wire_codec.specs.Taking.{TakesRecord, IsCharged, NotTaken};
ghost use Rattle.wire_codec.specs.TakingLaws.{OneReading};
ghost use Rattle.wire_fields.specs.Presence.{sets};

use crate::copied::CopiedIn;
use crate::encoding::ViewEncoding;
use crate::map_key::MapKey;
use crate::message_field::AlwaysMessageIn;
use crate::message_view::MessageView;
use crate::presence::AlwaysIn;
use crate::view_kind::ViewKind;
use crate::view_scalar::ViewScalar;
use bytes::Buf;
use std::alloc::Global;
use wire_codec::{DecodeContext, DecodeError, Tag, laws};
use wire_fields::{EntryValue, pass_over};

/// A kind that a map may have for its values, as `EntryValue`: `AlwaysIn`, `AlwaysEmbeddedIn`, and
/// `CopiedIn` of an `Always`.
pub trait ViewEntryValue: ViewKind {
    /// A record has one charge, and makes one value.
    ghost single: { OneReading → IsSingle Self.kind.takes };
}

impl<S: ViewScalar> ViewEntryValue for AlwaysIn<S> {
    ghost use Rattle.wire_fields.specs.Presence.{sets_single};

    ghost single = { λ reading. sets_single S.scalar };
}

impl<M: MessageView, E: ViewEncoding> ViewEntryValue for AlwaysMessageIn<M, E> {
    ghost use Rattle.wire_fields.specs.Messages.{inside_single};

    ghost single = { λ reading. inside_single E.encoding M.takes reading (M.single reading) };
}

impl<B: Buf, K: EntryValue> ViewEntryValue for CopiedIn<B, K>
where
    K::Held: Copy,
{
    ghost single = { K.single };
}

/// An entry of a map, as the message that it is on the wire.
#[derive(Drop)]
pub(crate) struct EntryIn<K: MapKey, V: ViewKind> {
    pub(crate) key: K::Held,
    pub(crate) value: V::Held,
}

/// The same with memory of its own.
#[derive(Drop)]
pub(crate) struct OwnedEntry<K: MapKey, V: ViewKind> {
    pub(crate) key: K::Owned,
    pub(crate) value: V::Owned,
}

impl<K: MapKey, V: ViewEntryValue<Source = K::Source>> MessageView for EntryIn<K, V> {
    ghost use Rattle.wire_fields.specs.Maps.{EntryOf, entry_records, entry_default, entry_takes, entry_single};

    type Source = K::Source;

    type Owned = OwnedEntry<K, V>;

    ghost Value = { EntryOf K.Value V.Value };

    ghost view = { λ e. ((K.view e.key, V.view e.value), tt) };

    ghost owned = { λ e. ((K.owned e.key, V.owned e.value), tt) };

    ghost records = { λ e. entry_records K.scalar V.kind e.0 };

    ghost default = { entry_default K.scalar V.kind };

    ghost takes = { entry_takes K.scalar V.kind };

    ghost single = { λ reading. entry_single K.scalar V.kind (V.single reading) };

    fn default_view(alloc: Global) -> EntryIn<K, V> {
        EntryIn {
            key: K::empty(alloc),
            value: V::empty(alloc),
        }
    }

    fn merge_field(
        &mut self,
        alloc: Global,
        tag: Tag,
        buf: &mut K::Source,
        context: &mut DecodeContext,
    ) -> Result<(), DecodeError> {
        match tag.field_number() {
            1 => merge_key::<K>(alloc, tag, &mut self.key, buf, context),
            2 => V::merge(alloc, tag, &mut self.value, buf, context),
            _ => pass_over(tag, buf, context),
        }
    }

    fn own(&self, alloc: Global) -> Result<OwnedEntry<K, V>, DecodeError> {
        Ok(OwnedEntry {
            key: K::own(alloc, &self.key)?,
            value: V::own(alloc, &self.value)?,
        })
    }
}

// Takes the record of the key, which is always written.
fn merge_key<K: MapKey>(
    alloc: Global,
    tag: Tag,
    held: &mut K::Held,
    buf: &mut K::Source,
    context: &mut DecodeContext,
) -> Result<(), DecodeError>
    ensures ok { OnOk result (IsCharged context.old context.new (λ c.
        TakesRecord (sets K.scalar) context.old (tag_number tag) (tag_type tag)
        (K.view held.old) (K.Source.unread buf.old) c (K.view held.new) (K.Source.unread buf.new))) }
    ensures err { IfErr result (λ e. e ≢ errors.OutOfMemory → NotTaken
        (TakesRecord (sets K.scalar) context.old (tag_number tag) (tag_type tag)
        (K.view held.old) (K.Source.unread buf.old))) }
    ensures counts { OnErr result (NoCountGrew context.old context.new) }
    ensures kept { K.Source.kept buf.new ≡ K.Source.kept buf.old }
{
    laws::records_in_order();
    let _levels = context.depth();
    K::set(alloc, tag, held, buf)
}
