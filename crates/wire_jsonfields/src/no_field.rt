//! The part of a message without fields.
ghost use Rattle.wire_jsonfields.specs.NoFields.{AreNoMembers, IsAnyNothing, SayNothing, no-names, nothing_back, one_nothing};

use crate::object::PlacedMember;
use crate::part::JsonPart;
use std::alloc::Global;
use std::marker::PhantomData;
use wire_protojson::{ReadError, WriteError};

/// What is read of a message without fields.
#[derive(Drop)]
pub struct Nothing;

/// The only part of a message without fields: each member of its object is refused.
pub struct NoField<M> {
    message: PhantomData<M>,
}

impl<M> JsonPart for NoField<M> {
    type Message = M;

    type Held = Nothing;

    ghost Value = { Unit {0} };

    ghost view = { λ h. tt };

    ghost seen = { λ m. tt };

    ghost names = { no-names };

    ghost says = { SayNothing };

    ghost trees = { AreNoMembers };

    ghost default = { tt };

    ghost unsaid = { tt };

    ghost one_value = { one_nothing };

    ghost in_range = { IsAnyNothing };

    ghost back = { nothing_back };

    fn is_named(_name: &str) -> bool {
        false
    }

    fn read(
        _alloc: Global,
        _text: &[u8],
        _members: &[PlacedMember<'_>],
        _levels: u32,
    ) -> Result<Nothing, ReadError> {
        Ok(Nothing)
    }

    fn write(
        _alloc: Global,
        _out: &mut Vec<u8>,
        first: bool,
        _message: &M,
    ) -> Result<bool, WriteError> {
        Ok(first)
    }
}
