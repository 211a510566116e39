//! Values of the well-known types, which JSON has by rules of their own.
use crate::items::{MESSAGE, set_own};
use wire_schema::{Template, Words};

/// The crate of the well-known types.
pub const CRATE: &str = "wire_well_known";

// The wrappers, and the types of what they hold as descriptors number them.
const WRAPPERS: [(&'static str, i32); 9] = [
    ("BoolValue", 8),
    ("BytesValue", 12),
    ("DoubleValue", 1),
    ("FloatValue", 2),
    ("Int32Value", 5),
    ("Int64Value", 3),
    ("StringValue", 9),
    ("UInt32Value", 13),
    ("UInt64Value", 4),
];

// The others of which JSON has no object of their fields.
const OTHERS: &str = "Any Duration FieldMask ListValue Struct Timestamp Value";

// A wrapper is as what it holds.
const WRAPPER: [Template; 5] = [
    ("json_kind", "$of_name$Json"),
    ("json_before", "$of_module$-json "),
    ("json_behind", ""),
    ("json_view", "$of_module$-json"),
    (
        "json_seen_uses",
        "Rattle.wire_well_known_json.specs.Wrappers $of_module$-json\n",
    ),
];

const TIME: [Template; 11] = [
    ("json_value", "ℤ × ℤ"),
    ("json_kind", "$of_name$Json"),
    ("json_before", "$of_module$-json "),
    ("json_view", "$of_module$-json"),
    ("json_means", "Means$of_name$"),
    ("json_tree", "Is$of_name$Tree"),
    ("json_one", "one_$of_module$"),
    ("json_range", "IsAnyTime"),
    ("json_back", "$of_module$_back"),
    (
        "json_uses",
        "Rattle.std.specs.Prelude ℤ\nRattle.wire_jsontimes.specs.$of_name$s Is$of_name$Tree\n\
        Rattle.wire_jsontimes.specs.$of_name$s Means$of_name$\n\
        Rattle.wire_well_known_json.specs.Times IsAnyTime\n\
        Rattle.wire_well_known_json.specs.Times one_$of_module$\n\
        Rattle.wire_well_known_json.specs.Times $of_module$_back\n",
    ),
    (
        "json_seen_uses",
        "Rattle.wire_well_known_json.specs.Times $of_module$-json\n",
    ),
];

const MASK: [Template; 11] = [
    ("json_value", "List (List ℕ)"),
    ("json_kind", "$of_name$Json"),
    ("json_before", "$of_module$-json "),
    ("json_view", "$of_module$-json"),
    ("json_means", "MeansMask"),
    ("json_tree", "IsMaskTree"),
    ("json_one", "one_mask"),
    ("json_range", "IsAnyMask"),
    ("json_back", "mask_back"),
    (
        "json_uses",
        "Rattle.std.specs.Prelude List\nRattle.std.specs.Prelude ℕ\n\
        Rattle.wire_well_known_json.specs.FieldMasks IsAnyMask\n\
        Rattle.wire_well_known_json.specs.FieldMasks mask_back\n\
        Rattle.wire_well_known_json.specs.FieldMasks one_mask\n\
        Rattle.wire_well_known_json.specs.Masks IsMaskTree\n\
        Rattle.wire_well_known_json.specs.Masks MeansMask\n",
    ),
    (
        "json_seen_uses",
        "Rattle.wire_well_known_json.specs.FieldMasks $of_module$-json\n",
    ),
];

const STRUCT: [Template; 11] = [
    ("json_value", "Plain-Fields"),
    ("json_kind", "$of_name$Json"),
    ("json_before", "struct-plain "),
    ("json_view", "struct-plain"),
    ("json_means", "MeansStruct"),
    ("json_tree", "IsStructTree"),
    ("json_one", "one_struct"),
    ("json_range", "IsAnyStruct"),
    ("json_back", "struct_back"),
    (
        "json_uses",
        "Rattle.wire_well_known_json.specs.StructKinds IsAnyStruct\n\
        Rattle.wire_well_known_json.specs.StructKinds IsStructTree\n\
        Rattle.wire_well_known_json.specs.StructKinds MeansStruct\n\
        Rattle.wire_well_known_json.specs.StructKinds one_struct\n\
        Rattle.wire_well_known_json.specs.StructKinds struct_back\n\
        Rattle.wire_well_known_json.specs.Structs Plain-Fields\n",
    ),
    (
        "json_seen_uses",
        "Rattle.wire_well_known_json.specs.Structs struct-plain\n",
    ),
];

const LIST_VALUE: [Template; 11] = [
    ("json_value", "List Plain"),
    ("json_kind", "$of_name$Json"),
    ("json_before", "list_value-plain "),
    ("json_view", "list_value-plain"),
    ("json_means", "MeansListValue"),
    ("json_tree", "IsListValueTree"),
    ("json_one", "one_list_value"),
    ("json_range", "IsAnyList"),
    ("json_back", "list_value_back"),
    (
        "json_uses",
        "Rattle.std.specs.Prelude List\n\
        Rattle.wire_well_known_json.specs.StructKinds IsAnyList\n\
        Rattle.wire_well_known_json.specs.StructKinds IsListValueTree\n\
        Rattle.wire_well_known_json.specs.StructKinds MeansListValue\n\
        Rattle.wire_well_known_json.specs.StructKinds list_value_back\n\
        Rattle.wire_well_known_json.specs.StructKinds one_list_value\n\
        Rattle.wire_well_known_json.specs.Structs Plain\n",
    ),
    (
        "json_seen_uses",
        "Rattle.wire_well_known_json.specs.Structs list_value-plain\n",
    ),
];

// A value, of which `null` is one.
const VALUE: [Template; 12] = [
    ("json_value", "Plain"),
    ("json_kind", "$of_name$Json"),
    ("json_before", "value-plain "),
    ("json_view", "value-plain"),
    ("json_means", "MeansValue"),
    ("json_tree", "IsValueTree"),
    ("json_one", "one_plain"),
    ("json_range", "IsAnyValue"),
    ("json_back", "nullable_value_back"),
    (
        "json_uses",
        "Rattle.wire_well_known_json.specs.OnePlain one_plain\n\
        Rattle.wire_well_known_json.specs.Structs IsValueTree\n\
        Rattle.wire_well_known_json.specs.Structs MeansValue\n\
        Rattle.wire_well_known_json.specs.Structs Plain\n",
    ),
    (
        "json_back_uses",
        "Rattle.wire_well_known_json.specs.StructKinds IsAnyValue\n\
        Rattle.wire_well_known_json.specs.StructKinds nullable_value_back\n",
    ),
    (
        "json_seen_uses",
        "Rattle.wire_well_known_json.specs.Structs value-plain\n",
    ),
];

// The enum that is `null`.
const NULL: [Template; 15] = [
    ("json_value", "ℤ"),
    ("json_held", "EnumValue $of_name$"),
    ("json_kind", "$of_name$Json"),
    ("json_before", "number_of $of_module$-number "),
    ("json_view", "(number_of $of_module$-number)"),
    ("json_absent", "(pos 0)"),
    ("json_means", "MeansNull"),
    ("json_tree", "IsNullTree"),
    ("json_one", "one_null"),
    ("json_range", "IsNullNumber"),
    ("json_back", "null_back"),
    (
        "json_uses",
        "Rattle.std.specs.Prelude ℤ\n\
        Rattle.wire_well_known_json.specs.NullValues IsNullTree\n\
        Rattle.wire_well_known_json.specs.NullValues MeansNull\n\
        Rattle.wire_well_known_json.specs.NullValues one_null\n",
    ),
    (
        "json_back_uses",
        "Rattle.wire_well_known_json.specs.NullValues IsNullNumber\n\
        Rattle.wire_well_known_json.specs.NullValues null_back\n",
    ),
    (
        "json_seen_uses",
        "Rattle.wire_codec.specs.Enumeration number_of\n\
        $of_specs$.$of_name$ $of_module$-number\n",
    ),
    ("json_absent_uses", "Rattle.std.specs.Prelude pos\n"),
];

const HELD_NULL: [Template; 3] = [
    (
        "json_held_uses",
        "Rattle.wire_codec.specs.EnumValue EnumValue\n\
        $of_specs$.declared.$of_module$.$of_name$ $of_name$\n",
    ),
    ("json_code", "$json_home$ $of_name$Json\n"),
    (
        "json_held_code",
        "wire_codec EnumValue\n$of_crate$ $of_name$\n",
    ),
];

const HELD: [Template; 4] = [
    ("json_held", "$of_name$"),
    (
        "json_held_uses",
        "$of_specs$.declared.$of_module$.$of_name$ $of_name$\n",
    ),
    ("json_code", "$json_home$ $of_name$Json\n"),
    ("json_held_code", "$of_crate$ $of_name$\n"),
];

/// Whether a message of this name, as the schema calls it, has a rule of its own in JSON.
pub(crate) fn has_rule(full: &str) -> bool {
    match full.strip_prefix(".google.protobuf.") {
        Some(name) => held_by(name).is_some() || OTHERS.split(' ').any(|it| it == name),
        None => false,
    }
}

/// Whether a field of these words is of a well-known type of which there is JSON.
pub(crate) fn is_well_known(words: &Words) -> bool {
    let name = words.get("of_name");
    let is_structured = matches!(
        name,
        "Empty" | "ListValue" | "NullValue" | "Struct" | "Value"
    );
    let is_text = matches!(name, "Duration" | "FieldMask" | "Timestamp");
    let is_there = is_structured || is_text || held_by(name).is_some();
    is_there && words.get("of_crate") == CRATE && words.get("crate") != CRATE
}

/// Whether an enum of this name, as the schema calls it, is `null` in JSON.
pub fn is_null_value(full: &str) -> bool {
    full == ".google.protobuf.NullValue"
}

fn held_by(name: &str) -> Option<i32> {
    WRAPPERS.iter().find(|it| it.0 == name).map(|it| it.1)
}

/// Sets the words of a value of such a type.
pub(crate) fn set_well_known(words: &mut Words) {
    if let Some(held) = held_by(words.get("of_name")) {
        set_own(held, words);
        words.fill_all(&WRAPPER);
    } else {
        match words.get("of_name") {
            "Empty" => words.fill_all(&MESSAGE),
            "FieldMask" => words.fill_all(&MASK),
            "ListValue" => words.fill_all(&LIST_VALUE),
            "NullValue" => {
                words.fill_all(&NULL);
                return words.fill_all(&HELD_NULL);
            }
            "Struct" => words.fill_all(&STRUCT),
            "Value" => words.fill_all(&VALUE),
            _ => words.fill_all(&TIME),
        }
    }
    words.fill_all(&HELD);
}
