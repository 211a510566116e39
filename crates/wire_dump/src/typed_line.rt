//! Lines of fields of a schema.
ghost use Rattle.std.specs.Prelude.{◌≡◌, ◌-◌, ◌++◌, ℕ, List, OnOk, codes, length, take, is_some, true};
ghost use Rattle.wire_dump.specs.Lines.{indented};
ghost use Rattle.wire_dump.specs.Names.{field_name};
ghost use Rattle.wire_dump.specs.Numbers.{number_type};
ghost use Rattle.wire_dump.specs.Places.{range_text};
ghost use Rattle.wire_dump.specs.Shows.{field_opening, note_of, string_value, value_line, IsNumberLine};

use crate::field_name::{put_field_name, shown_name};
use crate::layout::Margin;
use crate::line::{put_indentation, put_margin, put_number};
use crate::number::{is_known, put_number_value};
use crate::string::put_escaped;
use std::alloc::{AllocError, Global};
use wire_dynamic::{Field, Schema};

/// A line of a field, by what it begins with.
#[derive(Clone, Copy)]
pub(crate) struct FieldLine<'s> {
    pub(crate) schema: &'s Schema,
    pub(crate) field: &'s Field,
    pub(crate) level: u32,
    pub(crate) margin: Margin,
}

impl FieldLine<'_> {
    // Puts what stands before a name, and the name.
    fn put_name(&self, out: &mut Vec<u8>) -> Result<(), AllocError>
        ensures { OnOk result (out.new.items ≡ out.old.items
            ++ (range_text self.now.margin.is_shown self.now.margin.start self.now.margin.end
            ++ (indented self.now.level ++ field_name self.now.schema.now self.now.field.now))) }
    {
        put_margin(out, self.margin)?;
        put_indentation(out, self.level)?;
        put_field_name(out, self.schema, self.field)
    }

    /// Puts the line before what stands in a message or a group.
    pub(crate) fn put_opening(&self, out: &mut Vec<u8>) -> Result<(), AllocError>
        ensures { OnOk result (out.new.items ≡ out.old.items
            ++ (range_text self.now.margin.is_shown self.now.margin.start self.now.margin.end
            ++ field_opening self.now.schema.now self.now.level self.now.field.now)) }
    {
        self.put_name(out)?;
        out.extend_from_slice(b" {\n")
    }

    /// Puts the line of a value that is these bytes.
    pub(crate) fn put_string(&self, out: &mut Vec<u8>, bytes: &[u8]) -> Result<(), AllocError>
        ensures { OnOk result (out.new.items ≡ out.old.items
            ++ (range_text self.now.margin.is_shown self.now.margin.start self.now.margin.end
            ++ value_line self.now.schema.now self.now.level self.now.field.now
            (string_value bytes.now))) }
    {
        self.put_name(out)?;
        out.extend_from_slice(b": \"")?;
        put_escaped(out, bytes)?;
        out.extend_from_slice(b"\"\n")
    }

    /// Puts the line of a number, and of one that its enum lacks under the number of its record.
    pub(crate) fn put_number(
        &self,
        alloc: Global,
        out: &mut Vec<u8>,
        field_number: u32,
        number: u64,
    ) -> Result<(), AllocError>
        requires { is_some (number_type self.now.field.now.kind) ≡ true }
        ensures { OnOk result ((line : List ℕ)
            × IsNumberLine self.now.schema.now self.now.level field_number self.now.field.now
            number line
            × (out.new.items ≡ out.old.items
            ++ (range_text self.now.margin.is_shown self.now.margin.start self.now.margin.end
            ++ line))) }
    {
        if !is_known(self.schema, self.field.kind, number) {
            return put_number(out, self.margin, self.level, field_number, number);
        }
        self.put_name(out)?;
        out.extend_from_slice(b": ")?;
        put_number_value(alloc, self.schema, out, self.field.kind, number)?;
        out.extend_from_slice(b"\n")
    }
}

/// Puts a note that a record does not fit its field in the place of the last byte.
pub(crate) fn put_note(out: &mut Vec<u8>, field: &Field, cause: &str) -> Result<(), AllocError>
    ensures { OnOk result (out.new.items
        ≡ take (length out.old.items - 1) out.old.items ++ note_of field.now cause.now) }
{
    out.truncate(out.len().saturating_sub(1));
    out.extend_from_slice(b"  # ")?;
    out.extend_from_slice(shown_name(field).as_bytes())?;
    out.extend_from_slice(b": ")?;
    out.extend_from_slice(cause.as_bytes())?;
    out.extend_from_slice(b"\n")
}
