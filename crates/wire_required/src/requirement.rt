//! What is asked of one field: that it is there, or that the messages that it holds lack nothing.
ghost use Rattle.std.specs.Option.{option_or};
ghost use Rattle.std.specs.Prelude.{◌≡◌, ℕ, List, IfOk, map};
ghost use Rattle.wire_fields.specs.Maps.{viewed};
ghost use Rattle.wire_required.specs.Missing.{Missing, under, each_from, entries_from, in_message};
ghost use Rattle.wire_required.specs.Path.{field};

use crate::key::PathKey;
use crate::path::FieldPath;
use crate::required::Required;
use crate::step::PathStep;
use std::alloc::{AllocError, Global};
use std::collections::BTreeMap;
use std::marker::PhantomData;
use wire_codec::Message;
use wire_fields::{AlwaysMessage, Each, Map, MessageEncoding, Once, Optional, Scalar};

/// What is asked of a field, named where the field is asked. A kind of field that holds messages of
/// a type that is `Required` asks these, and `Needed` asks that the field itself is there.
pub trait Requirement {
    /// What a message holds for the field.
    type Held;

    /// What contracts see of it.
    ghost Value: { Type 0 };

    ghost view: { Self.Held → Value };

    /// What a value lacks, of a field of this name.
    ghost missing: { List ℕ → Value → Missing };

    /// The path to the first required field that is not there, with the name of this field in
    /// front. Refused where memory runs out, of which nothing is taken where nothing is missing.
    fn missing(
        alloc: Global,
        name: &'static str,
        held: &Self::Held,
    ) -> Result<Option<FieldPath>, AllocError>
        ensures { IfOk result (λ path. path ≡ missing name.now (view held.now)) };
}

/// That a field of this kind is there: `Needed<Optional<Text>>`, `Needed<Embedded<M>>`.
pub struct Needed<K> {
    kind: PhantomData<K>,
}

impl<S: Scalar> Requirement for Needed<Optional<S>> {
    ghost use Rattle.std.specs.Prelude.{Option, option_map};
    ghost use Rattle.wire_required.specs.Missing.{needs};

    type Held = Option<S::Held>;

    ghost Value = { Option S.Value };

    ghost view = { option_map S.view };

    ghost missing = { needs };

    fn missing(
        alloc: Global,
        name: &'static str,
        held: &Option<S::Held>,
    ) -> Result<Option<FieldPath>, AllocError> {
        match held {
            Some(_) => Ok(None),
            None => Ok(Some(FieldPath::to_field(alloc, name)?)),
        }
    }
}

impl<M: Message, E: MessageEncoding> Requirement for Needed<Once<M, E>> {
    ghost use Rattle.std.specs.Prelude.{Option};
    ghost use Rattle.wire_fields.specs.Messages.{boxed_value};
    ghost use Rattle.wire_required.specs.Missing.{needs};

    type Held = Option<Box<M>>;

    ghost Value = { Option M.Value };

    ghost view = { boxed_value M.view };

    ghost missing = { needs };

    fn missing(
        alloc: Global,
        name: &'static str,
        held: &Option<Box<M>>,
    ) -> Result<Option<FieldPath>, AllocError> {
        match held {
            Some(_) => Ok(None),
            None => Ok(Some(FieldPath::to_field(alloc, name)?)),
        }
    }
}

/// That a field is there whose value contracts see as it is, as one of a closed enum.
pub struct NeededValue<T> {
    value: PhantomData<T>,
}

impl<T> Requirement for NeededValue<T> {
    ghost use Rattle.std.specs.Prelude.{Option};
    ghost use Rattle.wire_required.specs.Missing.{needs};

    type Held = Option<T>;

    ghost Value = { Option T };

    ghost view = { λ held. held };

    ghost missing = { needs };

    fn missing(
        alloc: Global,
        name: &'static str,
        held: &Option<T>,
    ) -> Result<Option<FieldPath>, AllocError> {
        match held {
            Some(_) => Ok(None),
            None => Ok(Some(FieldPath::to_field(alloc, name)?)),
        }
    }
}

impl<M: Message + Required, E: MessageEncoding> Requirement for Once<M, E> {
    ghost use Rattle.std.specs.Prelude.{Option};
    ghost use Rattle.wire_fields.specs.Messages.{boxed_value};
    ghost use Rattle.wire_required.specs.Missing.{within};

    type Held = Option<Box<M>>;

    ghost Value = { Option M.Seen };

    ghost view = { boxed_value M.seen };

    ghost missing = { λ name. within name M.missing };

    fn missing(
        alloc: Global,
        name: &'static str,
        held: &Option<Box<M>>,
    ) -> Result<Option<FieldPath>, AllocError> {
        match held {
            Some(message) => missing_in::<M>(alloc, name, message),
            None => Ok(None),
        }
    }
}

impl<M: Message + Required, E: MessageEncoding, const PLACE: usize> Requirement
    for Each<M, E, PLACE> {
    ghost use Rattle.std.specs.Prelude.{List, map};
    ghost use Rattle.wire_required.specs.Missing.{within_each};

    type Held = Vec<M>;

    ghost Value = { List M.Seen };

    ghost view = { λ held. map M.seen held.items };

    ghost missing = { λ name. within_each name M.missing };

    fn missing(
        alloc: Global,
        name: &'static str,
        held: &Vec<M>,
    ) -> Result<Option<FieldPath>, AllocError> {
        behind_field(missing_in_each::<M>(alloc, held)?, name)
    }
}

impl<K: Scalar, M: Message + Required, E: MessageEncoding, const PLACE: usize> Requirement
    for Map<K, AlwaysMessage<M, E>, PLACE>
where
    K::Held: Ord + PathKey,
{
    ghost use Rattle.std.specs.Prelude.{List};
    ghost use Rattle.wire_fields.specs.Maps.{viewed};
    ghost use Rattle.wire_required.specs.Missing.{within_entries};

    type Held = BTreeMap<K::Held, M>;

    ghost Value = { List (K.Held.Seen × M.Seen) };

    ghost view = { λ held. viewed K.Held.seen M.seen held.entries };

    ghost missing = { λ name. within_entries name K.Held.key M.missing };

    fn missing(
        alloc: Global,
        name: &'static str,
        held: &BTreeMap<K::Held, M>,
    ) -> Result<Option<FieldPath>, AllocError> {
        behind_field(missing_in_entries::<K::Held, M>(alloc, held)?, name)
    }
}

/// The path that was found, or else what the next field lacks, whose name this is.
pub fn or_missing<R: Requirement>(
    found: Option<FieldPath>,
    alloc: Global,
    name: &'static str,
    held: &R::Held,
) -> Result<Option<FieldPath>, AllocError>
    ensures { IfOk result (λ path.
        path ≡ option_or found (R.missing name.now (R.view held.now))) }
{
    match found {
        Some(path) => Ok(Some(path)),
        None => R::missing(alloc, name, held),
    }
}

/// What a message lacks that a field or a variant of this name holds.
pub fn missing_in<M: Required>(
    alloc: Global,
    name: &'static str,
    message: &M,
) -> Result<Option<FieldPath>, AllocError>
    ensures { IfOk result (λ path.
        path ≡ in_message name.now M.missing (M.seen message.now)) }
{
    behind_field(message.missing(alloc)?, name)
}

/// The path from the message that holds a field of this name.
pub(crate) fn behind_field(
    path: Option<FieldPath>,
    name: &'static str,
) -> Result<Option<FieldPath>, AllocError>
    ensures { IfOk result (λ longer. longer ≡ under (field name.now) path) }
{
    match path {
        Some(path) => Ok(Some(path.behind(PathStep::Field(name))?)),
        None => Ok(None),
    }
}

// What the first of the messages lacks that lacks something.
fn missing_in_each<M: Required>(
    alloc: Global,
    messages: &[M],
) -> Result<Option<FieldPath>, AllocError>
    ensures { IfOk result (λ path. path ≡ each_from M.missing 0 (map M.seen messages.now)) }
{
    for (index, message) in messages.iter().enumerate() {
        if let Some(path) = message.missing(alloc)? {
            return Ok(Some(path.behind(PathStep::Index(index))?));
        }
    }
    Ok(None)
}

// What the first of the values lacks that lacks something.
fn missing_in_entries<K: PathKey + Ord, M: Required>(
    alloc: Global,
    entries: &BTreeMap<K, M>,
) -> Result<Option<FieldPath>, AllocError>
    ensures { IfOk result (λ path.
        path ≡ entries_from K.key M.missing (viewed K.seen M.seen entries.now.entries)) }
{
    for (key, message) in entries {
        if let Some(path) = message.missing(alloc)? {
            return Ok(Some(path.behind(PathStep::Key(key.to_key(alloc)?))?));
        }
    }
    Ok(None)
}
