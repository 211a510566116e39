//! Extensions, by the message type that they extend and by their numbers.
ghost use Rattle.std.specs.Prelude.{◌≢◌, IfErr, IfOk};
ghost use Rattle.std.specs.BTreeMap.{get};
ghost use Rattle.wire_dynamic.specs.declared.error.SchemaError.TheVariants.{OutOfMemory};
ghost use Rattle.wire_dynamic.specs.Extensions.{extends, place_cmp, IsExtension};
ghost use Rattle.wire_dynamic.specs.Refusals.{ExtensionFault};
ghost use Rattle.wire_dynamic.specs.Table.{IsTableOf};

use crate::declared::Declared;
use crate::error::SchemaError;
use crate::field::{Field, features_of};
use crate::places::Places;
use std::alloc::Global;
use std::collections::BTreeMap;

/// The extensions of a set, by the place of what they extend, and their number.
pub(crate) type Extensions = BTreeMap<(usize, u32), Field>;

/// Those that are declared.
pub(crate) fn extensions_of(
    alloc: Global,
    declared: &Declared,
    places: &Places,
) -> Result<Extensions, SchemaError>
    ensures ok { IfOk result (λ extensions. IsTableOf (extends places.now)
        (IsExtension declared.now places.now) declared.now.extensions.items
        (get place_cmp extensions)) }
    ensures err { IfErr result (λ e. e ≢ OutOfMemory
        → ExtensionFault declared.now places.now e) }
{
    let mut extensions = BTreeMap::new(alloc);
    for extension in &declared.extensions {
        let descriptor = &extension.descriptor;
        let Some(place) = places.message(&descriptor.extendee) else {
            return Err(SchemaError::NoType(descriptor.extendee.clone()?));
        };
        let name = extension.name.clone()?;
        let features = features_of(descriptor, extension.features);
        let field = Field::of(name, descriptor, features, declared, places)?;
        let number = field.number;
        if extensions.insert((place, number), field)?.is_some() {
            return Err(SchemaError::NumberTwice(extension.name.clone()?));
        }
    }
    Ok(extensions)
}
