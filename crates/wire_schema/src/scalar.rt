//! The scalar types.

/// What a scalar type is in code and in definitions.
#[derive(Clone, Copy)]
pub(crate) struct Scalar {
    /// The type of a value, and the name of the scalar among the kinds of fields.
    pub held: &'static str,
    pub name: &'static str,
    /// A value as contracts see it, and how: `numeric FORM MAP`.
    pub value: &'static str,
    pub form: &'static str,
    pub map: &'static str,
}

const fn number(
    held: &'static str,
    name: &'static str,
    value: &'static str,
    form: &'static str,
    map: &'static str,
) -> Scalar {
    Scalar {
        held,
        name,
        value,
        form,
        map,
    }
}

/// The numeric scalar type of this number of `FieldDescriptorProto.Type`, if it is one.
pub(crate) fn number_type(type_number: i32) -> Option<Scalar> {
    Some(match type_number {
        1 => number("DoubleBits", "Double", "DoubleBits", "Fixed64", "double"),
        2 => number("FloatBits", "Float", "FloatBits", "Fixed32", "float"),
        3 => number("i64", "Int64", "ℤ", "Varint", "int64"),
        4 => number("u64", "Uint64", "ℕ", "Varint", "uint64"),
        5 => number("i32", "Int32", "ℤ", "Varint", "int32"),
        6 => number("u64", "Fixed64", "ℕ", "Fixed64", "fixed64"),
        7 => number("u32", "Fixed32", "ℕ", "Fixed32", "fixed32"),
        8 => number("bool", "Bool", "Bool", "Varint", "bool"),
        13 => number("u32", "Uint32", "ℕ", "Varint", "uint32"),
        15 => number("i32", "Sfixed32", "ℤ", "Fixed32", "sfixed32"),
        16 => number("i64", "Sfixed64", "ℤ", "Fixed64", "sfixed64"),
        17 => number("i32", "Sint32", "ℤ", "Varint", "sint32"),
        18 => number("i64", "Sint64", "ℤ", "Varint", "sint64"),
        _ => return None,
    })
}
