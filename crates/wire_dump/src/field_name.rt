//! Names of fields in lines.
ghost use Rattle.std.specs.Prelude.{◌≡◌, ◌++◌, OnOk};
ghost use Rattle.wire_dump.specs.Names.{field_name, group_name, last_part, name_of_kind, shown_name, without_dot};

use std::alloc::AllocError;
use wire_dynamic::{Field, Kind, Schema};

/// The name of a field; of an extension its full name, with no dot in front.
pub(crate) fn shown_name(field: &Field) -> &str
    ensures { result.now ≡ shown_name field.now }
{
    let name = field.name.as_str();
    match name.strip_prefix('.') {
        Some(rest) => rest,
        None => name,
    }
}

/// Puts the name of a field as a line has it: that of an extension in brackets, and in place of a
/// group's that of its type.
pub(crate) fn put_field_name(
    out: &mut Vec<u8>,
    schema: &Schema,
    field: &Field,
) -> Result<(), AllocError>
    ensures { OnOk result (out.new.items ≡ out.old.items ++ field_name schema.now field.now) }
{
    if field.is_extension {
        out.push(b'[')?;
        out.extend_from_slice(shown_name(field).as_bytes())?;
        out.push(b']')?;
        return Ok(());
    }
    let name = shown_name(field).as_bytes();
    out.extend_from_slice(name_of_kind(schema, field.kind, name))
}

// The name of a field of this kind: a group goes by that of its type, where the two are the same
// but for case.
fn name_of_kind<'a>(schema: &'a Schema, kind: Kind, name: &'a [u8]) -> &'a [u8]
    ensures { result.now ≡ name_of_kind schema.now kind name.now }
{
    let Kind::Group(place) = kind else {
        return name;
    };
    match schema.message(place) {
        Some(message) => group_name(last_part(message.name().as_bytes()), name),
        None => name,
    }
}

fn group_name<'a>(type_name: &'a [u8], name: &'a [u8]) -> &'a [u8]
    ensures { result.now ≡ group_name type_name.now name.now }
{
    if type_name.eq_ignore_ascii_case(name) {
        type_name
    } else {
        name
    }
}

// What stands behind the last dot.
fn last_part(name: &[u8]) -> &[u8]
    ensures { result.now ≡ last_part name.now }
{
    let mut part = name;
    let mut rest = name;
    while let Some((byte, behind)) = rest.split_first() {
        if *byte == b'.' {
            part = behind;
        }
        rest = behind;
    }
    part
}
