//! Where the types of a schema stand, by their full names.
ghost use Rattle.std.specs.Prelude.{◌≡◌, ◌≢◌, Some, IfErr, IfOk, slice_get};
ghost use Rattle.std.specs.BTreeMap.{get_by_text};
ghost use Rattle.wire_dynamic.specs.declared.error.SchemaError.TheVariants.{OutOfMemory};
ghost use Rattle.wire_dynamic.specs.Places.{enum_has_name, message_has_name, ArePlaces};
ghost use Rattle.wire_dynamic.specs.Refusals.{ArePlacesTwice, AreNamedTwice};
ghost use Rattle.wire_dynamic.specs.Table.{IsTableOf};

use crate::declared::{Declared, DeclaredEnum, DeclaredMessage};
use crate::error::SchemaError;
use std::alloc::Global;
use std::collections::BTreeMap;

/// The place of each message type, and of each enum, among those that are declared.
#[derive(Drop)]
pub(crate) struct Places {
    pub(crate) messages: BTreeMap<String, usize>,
    pub(crate) enums: BTreeMap<String, usize>,
}

impl Places {
    /// Those of all that is declared. No two message types have one name, and no two enums.
    pub(crate) fn of(alloc: Global, declared: &Declared) -> Result<Places, SchemaError>
        ensures ok { IfOk result (ArePlaces declared.now) }
        ensures err { IfErr result (λ e. e ≢ OutOfMemory → ArePlacesTwice declared.now e) }
    {
        Ok(Places {
            messages: message_places(alloc, &declared.messages)?,
            enums: enum_places(alloc, &declared.enums)?,
        })
    }

    /// The place of the message type of this full name.
    pub(crate) fn message(&self, name: &str) -> Option<usize>
        ensures { result ≡ get_by_text self.now.messages name.now }
    {
        self.messages.get(name).copied()
    }

    /// The place of the enum of this full name.
    pub(crate) fn enum_of(&self, name: &str) -> Option<usize>
        ensures { result ≡ get_by_text self.now.enums name.now }
    {
        self.enums.get(name).copied()
    }
}

fn message_places(
    alloc: Global,
    declared: &[DeclaredMessage],
) -> Result<BTreeMap<String, usize>, SchemaError>
    ensures ok { IfOk result (λ places. IsTableOf message_has_name
        (λ m i. slice_get declared.now i ≡ Some m) declared.now (get_by_text places)) }
    ensures err { IfErr result (λ e. e ≢ OutOfMemory
        → AreNamedTwice message_has_name declared.now e) }
{
    let mut places = BTreeMap::new(alloc);
    for (place, message) in declared.iter().enumerate() {
        if places.insert(message.name.clone()?, place)?.is_some() {
            return Err(SchemaError::NameTwice(message.name.clone()?));
        }
    }
    Ok(places)
}

fn enum_places(
    alloc: Global,
    declared: &[DeclaredEnum],
) -> Result<BTreeMap<String, usize>, SchemaError>
    ensures ok { IfOk result (λ places. IsTableOf enum_has_name
        (λ e i. slice_get declared.now i ≡ Some e) declared.now (get_by_text places)) }
    ensures err { IfErr result (λ e. e ≢ OutOfMemory
        → AreNamedTwice enum_has_name declared.now e) }
{
    let mut places = BTreeMap::new(alloc);
    for (place, of_enum) in declared.iter().enumerate() {
        if places.insert(of_enum.name.clone()?, place)?.is_some() {
            return Err(SchemaError::NameTwice(of_enum.name.clone()?));
        }
    }
    Ok(places)
}
