//! A descriptor set of protoc, and what is found in it; and sets that are refused.
use crate::{Kind, Schema, SchemaError, Walk};
use std::test::Fail;
use wire_base::encode_varint;

// That of `syntax = "proto2"; package a; message M { optional group G = 2 { optional int32 x = 3; }
// optional E e = 4; map<int32, M> of = 5; extensions 100 to 200; enum E { ZERO = 0; ONE = 1; } }
// extend M { repeated M more = 100; }`.
const SET: &[u8] =
    b"\n\xeb\x01\n\x07t.proto\x12\x01a\"\xbc\x01\n\x01M\x12\x14\n\x01g\x18\x02 \x01(\n2\x06.\
    a.M.GR\x01g\x12\x14\n\x01e\x18\x04 \x01(\x0e2\x06.a.M.ER\x01e\x12\x1c\n\x02of\x18\x05 \
    \x03(\x0b2\x0c.a.M.OfEntryR\x02of\x1a\x11\n\x01G\x12\x0c\n\x01x\x18\x03 \x01(\x05R\x01\
    x\x1a;\n\x07OfEntry\x12\x10\n\x03key\x18\x01 \x01(\x05R\x03key\x12\x1a\n\x05value\x18\
    \x02 \x01(\x0b2\x04.a.MR\x05value:\x028\x01\"\x16\n\x01E\x12\x08\n\x04ZERO\x10\x00\x12\
    \x07\n\x03ONE\x10\x01*\x05\x08d\x10\xc9\x01:\x1e\n\x04more\x12\x04.a.M\x18d \x03(\x0b2\
    \x04.a.MR\x04more";

// Types, numbers, and the names of the fields that have them, an extension's in brackets.
const FIELDS: [(&str, u32, &str); 9] = [
    (".a.M", 1, ""),
    (".a.M", 2, "g"),
    (".a.M", 4, "e"),
    (".a.M", 5, "of"),
    (".a.M", 100, "[.a.more]"),
    (".a.M", 101, ""),
    (".a.M.G", 3, "x"),
    (".a.M.OfEntry", 2, "value"),
    (".a.M.OfEntry", 100, ""),
];

#[test]
fn fields_are_found(rt: HostRuntime) -> Result<(), Fail> {
    let schema = Schema::decode(rt.alloc(), SET)?;
    for (of, number, name) in FIELDS {
        let place = schema.message_place(of).ok_or("no type")?;
        let found = match schema.field(place, number) {
            Some(field) if field.is_extension => format!(in rt.alloc(); "[{}]", field.name)?,
            Some(field) => field.name.clone()?,
            None => String::new(rt.alloc()),
        };
        assert_eq!(rt; found.as_str(), name);
    }
    Ok(())
}

// Types, names, and the numbers of the fields that have them, or 0.
const NAMES: [(&str, &str, u32); 6] = [
    (".a.M", "e", 4),
    (".a.M", "of", 5),
    (".a.M", "x", 0),
    (".a.M", ".a.more", 0),
    (".a.M.G", "x", 3),
    (".a.M.OfEntry", "value", 2),
];

#[test]
fn fields_are_found_by_their_names(rt: HostRuntime) -> Result<(), Fail> {
    let schema = Schema::decode(rt.alloc(), SET)?;
    for (of, name, number) in NAMES {
        let place = schema.message_place(of).ok_or("no type")?;
        let found = match schema.field_named(place, name) {
            Some(field) => field.number,
            None => 0,
        };
        assert_eq!(rt; found, number);
    }
    Ok(())
}

#[test]
fn values_are_found(rt: HostRuntime) -> Result<(), Fail> {
    let schema = Schema::decode(rt.alloc(), SET)?;
    let place = schema.message_place(".a.M").ok_or("no type")?;
    let field = schema.field(place, 4).ok_or("no field")?;
    let Kind::Enum(place) = field.kind else {
        return Err("no enum")?;
    };
    let of_enum = schema.enum_at(place).ok_or("no such enum")?;
    assert_eq!(rt; of_enum.value_name(1), Some("ONE"));
    assert_eq!(rt; of_enum.value_name(2), None);
    assert_eq!(rt; of_enum.value_number("ZERO"), Some(0));
    assert_eq!(rt; of_enum.is_closed(), true);
    Ok(())
}

#[test]
fn records_in_a_group_are_told(rt: HostRuntime) -> Result<(), Fail> {
    let schema = Schema::decode(rt.alloc(), SET)?;
    let place = schema.message_place(".a.M").ok_or("no type")?;
    let mut walk = Walk::new(&schema, place, 10);
    let bytes = b"\x13\x18\x07\x14";
    for name in ["g", "x", "g"] {
        let told = walk.next(bytes).or(Err("a fault"))?.ok_or("no event")?;
        let found = match told.field {
            Some(field) => field.name.as_str(),
            None => "",
        };
        assert_eq!(rt; found, name);
    }
    Ok(())
}

// That of `edition = "2023"; message M { option features.message_encoding = DELIMITED;
// message N { optional N x = 1; } }`.
const DELIMITED: &[u8] =
    b"\n1\n\x01fp\xe8\x07\"\x1f\n\x01M\x1a\x14\n\x01N\x12\x0f\n\x01x\x18\x01 \x01(\x0b2\x04.M.N:\
    \x04b\x02(\x02b\x08editions";

#[test]
fn features_reach_nested_types(rt: HostRuntime) -> Result<(), Fail> {
    let schema = Schema::decode(rt.alloc(), DELIMITED)?;
    let place = schema.message_place(".M.N").ok_or("no type")?;
    let field = schema.field(place, 1).ok_or("no field")?;
    assert_eq!(rt; field.kind, Kind::Group(place));
    Ok(())
}

// That of `edition = "2023"; option features.message_encoding = DELIMITED; message M {
// map<int32, N> m = 1; } message N { N n = 1; }`, where the type of the entries is called `E`.
const DELIMITED_MAP: &[u8] =
    b"\nj\n\x01f\"=\n\x01M\x12\x0f\n\x01m\x18\x01 \x03(\x0b2\x04.M.E\x1a'\n\x01E\x12\x0b\n\
    \x03key\x18\x01 \x01(\x05\x12\x11\n\x05value\x18\x02 \x01(\x0b2\x02.N:\x028\x01\"\x12\n\x01N\x12\
    \x0d\n\x01n\x18\x01 \x01(\x0b2\x02.NB\x05\x92\x03\x02(\x02b\x08editionsp\xe8\x07";

#[test]
fn maps_are_never_groups(rt: HostRuntime) -> Result<(), Fail> {
    let schema = Schema::decode(rt.alloc(), DELIMITED_MAP)?;
    let inner = schema.message_place(".N").ok_or("no type")?;
    let entry = schema.message_place(".M.E").ok_or("no type")?;
    let kinds = [
        (".M", 1, Kind::Message(entry)),
        (".M.E", 2, Kind::Message(inner)),
        (".N", 1, Kind::Group(inner)),
    ];
    for (of, number, kind) in kinds {
        let place = schema.message_place(of).ok_or("no type")?;
        let field = schema.field(place, number).ok_or("no field")?;
        assert_eq!(rt; field.kind, kind);
    }
    Ok(())
}

// Sets of one file or two, and why they are refused.
const REFUSED: [(&[u8], &str); 14] = [
    (b"\n\x05", "no descriptor set: unexpected end of buffer"),
    (
        b"\n\x0b\n\x01fb\x06proto4",
        "f: no syntax or edition that is known",
    ),
    (
        b"\n\x10\n\x01fp\xe9\x07b\x08editions",
        "f: no syntax or edition that is known",
    ),
    (
        b"\n\x0d\n\x01f\"\x03\n\x01M\"\x03\n\x01M",
        ".M: more than one type has this name",
    ),
    (
        b"\n\x08\n\x01f*\x03\n\x01E\n\x08\n\x01f*\x03\n\x01E",
        ".E: more than one type has this name",
    ),
    (
        b"\n\x13\n\x01f\"\x0e\n\x01M\x12\x09\n\x01x\x18\x00 \x01(\x05",
        "field x: its number is none",
    ),
    (
        b"\n\x17\n\x01f\"\x12\n\x01M\x12\x0d\n\x01x\x18\x80\x80\x80\x80\x02 \x01(\x05",
        "field x: its number is none",
    ),
    (
        b"\n\x1e\n\x01f\"\x19\n\x01M\x12\x09\n\x01x\x18\x01 \x01(\x05\x12\x09\n\x01y\x18\x01 \
        \x01(\x05",
        "field y: another field has its number",
    ),
    (
        b"\n\x13\n\x01f\"\x0e\n\x01M\x12\x09\n\x01x\x18\x01 \x01(\x00",
        "field x: its type is none",
    ),
    (
        b"\n\x17\n\x01f\"\x12\n\x01M\x12\x0d\n\x01x\x18\x01 \x01(\x0b2\x02.N",
        ".N: no such type is in the descriptor set",
    ),
    (
        b"\n\x17\n\x01f\"\x12\n\x01M\x12\x0d\n\x01x\x18\x01 \x01(\x0e2\x02.M",
        ".M: no such type is in the descriptor set",
    ),
    (
        b"\n\x12\n\x01f:\x0d\n\x01x\x12\x02.N\x18\x01 \x01(\x05",
        ".N: no such type is in the descriptor set",
    ),
    (
        b"\n&\n\x01f\"\x03\n\x01M:\x0d\n\x01x\x12\x02.M\x18\x01 \x01(\x05:\x0d\n\x01y\x12\x02.M\
        \x18\x01 \x01(\x05",
        "field .y: another field has its number",
    ),
    (
        b"\n\x0b\n\x01f\"\x06\n\x01M\x1a\x01\n",
        "no descriptor set: unexpected end of buffer",
    ),
];

#[test]
fn sets_are_refused(rt: HostRuntime) -> Result<(), Fail> {
    for (bytes, why) in REFUSED {
        let Err(error) = Schema::decode(rt.alloc(), bytes) else {
            return Err(why)?;
        };
        assert_eq!(rt; format!(in rt.alloc(); "{error}")?.as_str(), why);
    }
    Ok(())
}

// A set of one file, with so many message types within another, each of the name `M`.
fn nested(rt: &HostRuntime, count: u32) -> Result<Vec<u8>, Fail> {
    let mut bytes = Vec::from_slice(rt.alloc(), b"\n\x01M")?;
    for _ in 0..count {
        bytes = wrapped(rt, 0x1a, bytes)?;
    }
    wrapped(rt, b'\n', wrapped(rt, b'"', bytes)?)
}

// A record of a field of this tag, behind the name `M`, or alone in a file.
fn wrapped(rt: &HostRuntime, tag: u8, payload: Vec<u8>) -> Result<Vec<u8>, Fail> {
    let mut bytes = Vec::from_slice(rt.alloc(), if tag == 0x1a { b"\n\x01M" } else { b"" })?;
    bytes.push(tag)?;
    encode_varint(payload.len() as u64, &mut bytes)?;
    bytes.extend_from_slice(&payload)?;
    Ok(bytes)
}

#[test]
fn message_types_nest_100_deep(rt: HostRuntime) -> Result<(), Fail> {
    let deep = nested(&rt, 100)?;
    let schema = Schema::decode(rt.alloc(), &deep)?;
    assert_eq!(rt; schema.message_places().len(), 101);
    let deeper = nested(&rt, 101)?;
    let refused = Schema::decode(rt.alloc(), &deeper);
    assert!(rt; matches!(refused, Err(SchemaError::TooMany(_))));
    Ok(())
}
