//! What one value of a field is in JSON.
use crate::enum_items::set_enum;
use crate::well_known::{is_well_known, set_well_known};
use wire_descriptor::FieldDescriptorProto;
use wire_schema::{Template, Words};

// The words of a value: how contracts see it, its type `json_value` and what stands `json_before`
// and `json_behind` what a message holds, and the same as a function, `json_view`; the type of what
// is held, `json_held`; the value of an absent one, `json_absent`; what trees mean, `json_means`,
// and which are written, `json_tree`; that a tree means one value, `json_one`; which values are
// read back, `json_range`, and why, `json_back`; its `json_kind` in code; and lines of names that
// are brought in, by definitions, by what sees a value, and by code. Where `null` is a value of the
// type, those of `json_range` and `json_back` are lines of their own, `json_back_uses`.
const SIGNED: [Template; 12] = [
    ("json_value", "ℤ"),
    ("json_held", "ℤ"),
    ("json_view", "(λ v. v)"),
    ("json_absent", "(pos 0)"),
    ("json_means", "(MeansSigned $json_width$)"),
    ("json_tree", "(λ z json. json ≡ $json_size$_signed_tree z)"),
    ("json_one", "(signed_decided $json_width$).one_meaning"),
    ("json_range", "(FitsSigned $json_width$)"),
    ("json_back", "$json_size$_signed_back"),
    (
        "json_uses",
        "Rattle.std.specs.Int $json_width$\nRattle.std.specs.Prelude FitsSigned\n\
        Rattle.std.specs.Prelude ℤ\nRattle.std.specs.Prelude ◌≡◌\n\
        Rattle.wire_protojson.specs.DecidedScalars signed_decided\n\
        Rattle.wire_protojson.specs.Numbers MeansSigned\n\
        Rattle.wire_protojson.specs.Trees $json_size$_signed_tree\n\
        Rattle.wire_jsonfields.specs.ScalarsBack $json_size$_signed_back\n",
    ),
    ("json_absent_uses", "Rattle.std.specs.Prelude pos\n"),
    ("json_held_uses", ""),
];

const UNSIGNED: [Template; 12] = [
    ("json_value", "ℕ"),
    ("json_held", "ℕ"),
    ("json_view", "(λ v. v)"),
    ("json_absent", "0"),
    ("json_means", "(MeansUnsigned $json_bits$)"),
    (
        "json_tree",
        "(λ n json. json ≡ $json_size$_unsigned_tree n)",
    ),
    ("json_one", "(unsigned_decided $json_bits$).one_meaning"),
    ("json_range", "(λ n. n < 2 ^ $json_bits$)"),
    ("json_back", "$json_size$_unsigned_back"),
    (
        "json_uses",
        "Rattle.std.specs.Prelude ℕ\nRattle.std.specs.Prelude ◌<◌\n\
        Rattle.std.specs.Prelude ◌^◌\nRattle.std.specs.Prelude ◌≡◌\n\
        Rattle.wire_protojson.specs.DecidedScalars unsigned_decided\n\
        Rattle.wire_protojson.specs.Numbers MeansUnsigned\n\
        Rattle.wire_protojson.specs.Trees $json_size$_unsigned_tree\n\
        Rattle.wire_jsonfields.specs.ScalarsBack $json_size$_unsigned_back\n",
    ),
    ("json_absent_uses", ""),
    ("json_held_uses", ""),
];

const BOOL: [Template; 12] = [
    ("json_value", "Bool"),
    ("json_held", "Bool"),
    ("json_view", "(λ v. v)"),
    ("json_absent", "false"),
    ("json_means", "MeansBool"),
    ("json_tree", "(λ b json. json ≡ boolean b)"),
    ("json_one", "bools_decided.one_meaning"),
    ("json_range", "(λ b. Unit {0})"),
    ("json_back", "(λ b h. bool_back b)"),
    (
        "json_uses",
        "Rattle.std.specs.Prelude Bool\nRattle.std.specs.Prelude ◌≡◌\n\
        Rattle.wire_json.specs.Json boolean\n\
        Rattle.wire_protojson.specs.DecidedScalars bools_decided\n\
        Rattle.wire_protojson.specs.Scalars MeansBool\n\
        Rattle.wire_jsonfields.specs.ScalarsBack bool_back\n",
    ),
    ("json_absent_uses", "Rattle.std.specs.Prelude false\n"),
    ("json_held_uses", ""),
];

const FLOAT: [Template; 17] = [
    ("json_value", "Float"),
    ("json_held", "$json_kind$Bits"),
    ("json_before", "from_bits $json_format$ "),
    ("json_behind", ".bits"),
    ("json_view", "(λ v. from_bits $json_format$ v.bits)"),
    ("json_absent", "float_zero"),
    ("json_means", "(MeansFloat $json_format$)"),
    ("json_tree", "(IsFloatTree $json_format$)"),
    ("json_one", "(floats_decided $json_format$).one_meaning"),
    ("json_range", "(λ x. Unit {0})"),
    ("json_back", "(λ x h. float_back $json_format$ x)"),
    (
        "json_uses",
        "Rattle.std.specs.Float Float\nRattle.std.specs.Float $json_format$\n\
        Rattle.wire_protojson.specs.DecidedScalars floats_decided\n\
        Rattle.wire_protojson.specs.Numbers MeansFloat\n\
        Rattle.wire_protojson.specs.Trees IsFloatTree\n\
        Rattle.wire_jsonfields.specs.ScalarsBack float_back\n",
    ),
    (
        "json_seen_uses",
        "Rattle.std.specs.Float $json_format$\nRattle.std.specs.Prelude from_bits\n",
    ),
    ("json_absent_uses", "Rattle.std.specs.Float float_zero\n"),
    (
        "json_held_uses",
        "Rattle.wire_fields.specs.declared.floats.$json_held$ $json_held$\n",
    ),
    ("json_code", "wire_jsonkinds $json_kind$\n"),
    ("json_held_code", "wire_fields $json_held$\n"),
];

const STRING: [Template; 14] = [
    ("json_value", "List ℕ"),
    ("json_held", "String Global"),
    ("json_before", "string_bytes "),
    ("json_view", "(λ s. string_bytes s)"),
    ("json_absent", "[]"),
    ("json_means", "MeansString"),
    ("json_tree", "(λ s json. json ≡ string s)"),
    ("json_one", "strings_decided.one_meaning"),
    ("json_range", "IsUtf8"),
    ("json_back", "text_back"),
    (
        "json_uses",
        "Rattle.std.specs.Prelude IsUtf8\nRattle.std.specs.Prelude ℕ\n\
        Rattle.std.specs.Prelude ◌≡◌\nRattle.wire_json.specs.Json string\n\
        Rattle.wire_protojson.specs.DecidedScalars strings_decided\n\
        Rattle.wire_protojson.specs.Scalars MeansString\n\
        Rattle.wire_jsonfields.specs.ScalarsBack text_back\n",
    ),
    ("json_seen_uses", "Rattle.std.specs.Prelude string_bytes\n"),
    ("json_absent_uses", ""),
    (
        "json_held_uses",
        "Rattle.std.specs.Prelude String\nRattle.std.specs.declared.alloc.Global Global\n",
    ),
];

const BYTES: [Template; 13] = [
    ("json_value", "List ℕ"),
    ("json_held", "Vec ℕ Global"),
    ("json_behind", ".items"),
    ("json_view", "(λ b. b.items)"),
    ("json_absent", "[]"),
    ("json_means", "MeansBytes"),
    ("json_tree", "(λ b json. json ≡ bytes_tree b)"),
    ("json_one", "bytes_decided.one_meaning"),
    ("json_range", "IsBytes"),
    ("json_back", "base64_back"),
    (
        "json_uses",
        "Rattle.base64.specs.GeneralPurpose IsBytes\nRattle.std.specs.Prelude ℕ\n\
        Rattle.std.specs.Prelude ◌≡◌\n\
        Rattle.wire_protojson.specs.DecidedScalars bytes_decided\n\
        Rattle.wire_protojson.specs.Scalars MeansBytes\n\
        Rattle.wire_protojson.specs.Trees bytes_tree\n\
        Rattle.wire_jsonfields.specs.ScalarsBack base64_back\n",
    ),
    ("json_absent_uses", ""),
    (
        "json_held_uses",
        "Rattle.std.specs.Prelude Vec\nRattle.std.specs.declared.alloc.Global Global\n",
    ),
];

/// Those of a message that is an object of its fields.
pub(crate) const MESSAGE: [Template; 15] = [
    ("json_value", "$of_name$-Json"),
    ("json_held", "$of_name$"),
    ("json_kind", "$of_name$Json"),
    ("json_before", "$of_module$-json "),
    ("json_view", "$of_module$-json"),
    ("json_means", "(ObjectMeans $of_module$-json-says)"),
    ("json_tree", "(IsObjectTree $of_module$-json-trees)"),
    (
        "json_one",
        "(one_object $of_module$-json-says $of_module$-json-one)",
    ),
    ("json_range", "$of_module$-json-range"),
    ("json_back", "$of_module$-json-back"),
    (
        "json_uses",
        "Rattle.wire_jsonfields.specs.Messages IsObjectTree\n\
        Rattle.wire_jsonfields.specs.Messages ObjectMeans\n\
        Rattle.wire_jsonfields.specs.OneValues one_object\n\
        $json_specs$ $of_name$-Json\n$json_specs$ $of_module$-json-says\n\
        $json_specs$ $of_module$-json-trees\n$json_specs$ $of_module$-json-one\n\
        $json_specs$ $of_module$-json-range\n$json_specs$ $of_module$-json-back\n",
    ),
    ("json_seen_uses", "$json_specs$ $of_module$-json\n"),
    (
        "json_held_uses",
        "$of_specs$.declared.$of_module$.$of_name$ $of_name$\n",
    ),
    ("json_code", "$json_home$ $of_name$Json\n"),
    ("json_held_code", "$of_crate$ $of_name$\n"),
];

const NOTHING: [Template; 8] = [
    ("json_back_uses", ""),
    ("json_held_code", ""),
    ("json_before", ""),
    ("json_behind", ""),
    ("json_seen_uses", ""),
    ("json_absent", ""),
    ("json_absent_uses", ""),
    ("json_code", ""),
];

/// Sets the words of a value of a field of this descriptor; those of the field are set.
pub(crate) fn set_item(descriptor: &FieldDescriptorProto, words: &mut Words) {
    words.fill("json_specs", "Rattle.$of_crate$_json.specs.$of_name$Json");
    words.fill_all(&NOTHING);
    let is_own = words.get("of_crate") == words.get("crate");
    words.fill(
        "json_home",
        if is_own {
            "crate::$of_module$_json"
        } else {
            "$of_crate$_json"
        },
    );
    if is_well_known(words) {
        set_well_known(words);
    } else {
        set_own(descriptor.type_, words);
    }
    let is_one = !words.get("json_value").contains(' ');
    words.fill(
        "json_bracketed",
        if is_one {
            "$json_value$"
        } else {
            "($json_value$)"
        },
    );
}

/// Sets the words of a value of this type, as descriptors number them, which is no type of another
/// crate.
pub(crate) fn set_own(type_: i32, words: &mut Words) {
    match type_ {
        1 => set_float("Double", "binary64", words),
        2 => set_float("Float", "binary32", words),
        3 | 16 | 18 => set_signed("i64", "long", "w64", words),
        5 | 15 | 17 => set_signed("i32", "short", "w32", words),
        4 | 6 => set_unsigned("u64", "long", "64", words),
        7 | 13 => set_unsigned("u32", "short", "32", words),
        8 => set_scalar("bool", &BOOL, words),
        // (a string that need not be UTF-8 may be held as bytes)
        9 if words.get("item_stays") != "any_bytes_stay" => set_scalar("String", &STRING, words),
        9 | 12 => set_scalar("Vec<u8>", &BYTES, words),
        14 => set_enum(words),
        _ => words.fill_all(&MESSAGE),
    }
}

fn set_float(kind: &str, format: &str, words: &mut Words) {
    words.set("json_format", format);
    set_scalar(kind, &FLOAT, words);
}

fn set_signed(kind: &str, size: &str, width: &str, words: &mut Words) {
    words.set("json_size", size);
    words.set("json_width", width);
    set_scalar(kind, &SIGNED, words);
}

fn set_unsigned(kind: &str, size: &str, bits: &str, words: &mut Words) {
    words.set("json_size", size);
    words.set("json_bits", bits);
    set_scalar(kind, &UNSIGNED, words);
}

fn set_scalar(kind: &str, templates: &'static [Template], words: &mut Words) {
    words.set("json_kind", kind);
    words.fill_all(templates);
}
