//! What lines with a schema are put into, and how.
use std::alloc::Global;
use wire_dynamic::Schema;

/// How lines are put with a schema.
#[derive(Drop)]
pub(crate) struct Typed<'s> {
    pub(crate) alloc: Global,
    pub(crate) schema: &'s Schema,
    pub(crate) has_offsets: bool,
    /// Whether a record that does not fit its field ends the lines.
    pub(crate) is_strict: bool,
}

/// The lines that are put.
#[derive(Drop)]
pub(crate) struct Output {
    pub(crate) text: Vec<u8>,
    /// Whether one of them has a note that a record does not fit its field.
    pub(crate) has_note: bool,
}
