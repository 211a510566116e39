//! Values in boxes.
use crate::kind::JsonValue;
use std::alloc::Global;
use std::marker::PhantomData;
use wire_protojson::{ReadError, WriteError};

/// A value in a box.
pub struct Boxed<V: JsonValue> {
    value: PhantomData<V>,
}

impl<V: JsonValue> JsonValue for Boxed<V> {
    ghost use Rattle.std.specs.Prelude.{box_value};

    type Held = Box<V::Held>;

    ghost Value = { V.Value };

    ghost view = { λ held. V.view (box_value held) };

    ghost means = { V.means };

    ghost tree = { V.tree };

    ghost absent = { V.absent };

    ghost one_value = { V.one_value };

    ghost in_range = { V.in_range };

    ghost back = { V.back };

    fn read_json(
        alloc: Global,
        text: &[u8],
        at: usize,
        levels: u32,
    ) -> Result<(Box<V::Held>, usize), ReadError> {
        match V::read_json(alloc, text, at, levels) {
            Ok((value, after)) => match Box::new(alloc, value) {
                Ok(boxed) => Ok((boxed, after)),
                Err(_full) => Err(ReadError::OutOfMemory),
            },
            Err(error) => Err(error),
        }
    }

    fn write_json(alloc: Global, out: &mut Vec<u8>, held: &Box<V::Held>) -> Result<(), WriteError> {
        V::write_json(alloc, out, held)
    }
}
