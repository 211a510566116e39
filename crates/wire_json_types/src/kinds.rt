//! What a field is in JSON, of what its values are.
use crate::items::set_item;
use crate::keys::set_key;
use wire_descriptor::FieldDescriptorProto;
use wire_schema::{Schema, Template, Words};

// The words of a field: as those of a value, but that all of it may be absent, and each name begins
// with `part`.
const IMPLICIT: [Template; 12] = [
    ("part_value", "$json_value$"),
    ("part_before", "$json_before$"),
    ("part_behind", "$json_behind$"),
    ("part_absent", "$json_absent$"),
    ("part_means", "$json_means$"),
    ("part_tree", "$json_tree$"),
    ("part_one", "$json_one$"),
    ("part_range", "$json_range$"),
    ("part_back", "$json_back$"),
    ("part_kind", "$element$"),
    ("part_uses", "$json_uses$$json_absent_uses$"),
    ("part_seen_uses", "$json_seen_uses$"),
];

// Where `null` leaves a field of the enum `NullValue` absent.
const NO_NULL: [Template; 3] = [
    ("part_range", "IsNoNull"),
    ("part_back", "no_null_back"),
    (
        "part_uses",
        "$json_uses$$json_absent_uses$\
        Rattle.wire_well_known_json.specs.NullValues IsNoNull\n\
        Rattle.wire_well_known_json.specs.NullValues no_null_back\n",
    ),
];

const OPTIONAL: [Template; 12] = [
    ("part_value", "Option $json_bracketed$"),
    ("part_before", "option_map $json_view$ "),
    ("part_behind", ""),
    ("part_absent", "None"),
    ("part_means", "(MeansSome $json_means$)"),
    ("part_tree", "(IsSomeTree $json_tree$)"),
    ("part_one", "(one_some $json_means$ $json_one$)"),
    ("part_range", "(IsSomeInRange $json_range$)"),
    (
        "part_back",
        "(some_back $json_means$\n    $json_tree$\n    $json_range$ $json_back$)",
    ),
    ("part_kind", "Optional<$json_kind$>"),
    (
        "part_uses",
        "Rattle.std.specs.Prelude None\nRattle.std.specs.Prelude Option\n\
        Rattle.wire_jsonfields.specs.Fields IsSomeTree\n\
        Rattle.wire_jsonfields.specs.Fields MeansSome\n\
        Rattle.wire_jsonfields.specs.KindsBack IsSomeInRange\n\
        Rattle.wire_jsonfields.specs.KindsBack some_back\n\
        Rattle.wire_jsonfields.specs.OneValues one_some\n$json_uses$",
    ),
    (
        "part_seen_uses",
        "Rattle.std.specs.Prelude option_map\n$json_seen_uses$",
    ),
];

// A value that may be absent, where `null` is a value.
const NULLABLE: [Template; 9] = [
    ("part_value", "Option $json_bracketed$"),
    ("part_before", "option_map $json_view$ "),
    ("part_behind", ""),
    ("part_absent", "None"),
    ("part_tree", "(IsSomeTree $json_tree$)"),
    ("part_range", "(IsSomeInRange $json_range$)"),
    ("part_kind", "Maybe<$json_kind$>"),
    (
        "part_uses",
        "Rattle.std.specs.Prelude None\nRattle.std.specs.Prelude Option\n\
        Rattle.wire_jsonfields.specs.Fields IsSomeTree\n\
        Rattle.wire_jsonfields.specs.KindsBack IsSomeInRange\n\
        $json_uses$$json_back_uses$",
    ),
    (
        "part_seen_uses",
        "Rattle.std.specs.Prelude option_map\n$json_seen_uses$",
    ),
];

// A message in a box.
const BOXED: [Template; 3] = [
    (
        "part_before",
        "option_map (λ v. $json_before$(box_value v)$json_behind$) ",
    ),
    ("part_kind", "Embedded<$json_kind$>"),
    (
        "part_seen_uses",
        "Rattle.std.specs.Prelude box_value\nRattle.std.specs.Prelude option_map\n$json_seen_uses$",
    ),
];

const EACH: [Template; 12] = [
    ("part_value", "List $json_bracketed$"),
    ("part_before", "map $json_view$ "),
    ("part_behind", ".items"),
    ("part_absent", "[]"),
    ("part_means", "(ListMeans $json_means$)"),
    ("part_tree", "(IsListTree $json_tree$)"),
    ("part_one", "(one_list $json_means$ $json_one$)"),
    ("part_range", "(AllByRecursion $json_range$)"),
    (
        "part_back",
        "($list_back$ $json_means$\n    $json_tree$\n    $json_range$ $json_back$)",
    ),
    ("part_kind", "Repeated<$element$>"),
    (
        "part_uses",
        "Rattle.std.specs.List AllByRecursion\n$back_home$ $list_back$\n\
        Rattle.wire_jsonfields.specs.Lists IsListTree\n\
        Rattle.wire_jsonfields.specs.Lists ListMeans\n\
        Rattle.wire_jsonfields.specs.OneValues one_list\n$json_uses$$json_back_uses$",
    ),
    (
        "part_seen_uses",
        "Rattle.std.specs.Prelude map\n$json_seen_uses$",
    ),
];

const MAP: [Template; 12] = [
    ("part_value", "List ($key_value$ × $json_bracketed$)"),
    ("part_before", "entries_seen $key_view$ $json_view$ "),
    ("part_behind", ".entries"),
    ("part_absent", "[]"),
    (
        "part_means",
        "(MapMeans $key_order$ $key_means$ $json_means$)",
    ),
    ("part_tree", "(IsMapTree $key_name$ $json_tree$)"),
    (
        "part_one",
        "(one_map $key_order$ $key_means$ $json_means$ $key_one$ $json_one$)",
    ),
    (
        "part_range",
        "(IsMapInRange $key_order$ $key_range$ $json_range$)",
    ),
    (
        "part_back",
        "($map_back$ $key_order$ $key_total$ $key_means$ $key_name$\n    \
        $json_means$ $json_tree$ $key_range$ $json_range$\n    \
        $key_back$ $json_back$)",
    ),
    ("part_kind", "Map<$key_in_json$, $element$>"),
    (
        "part_uses",
        "Rattle.wire_jsonfields.specs.KindsBack IsMapInRange\n$back_home$ $map_back$\n\
        Rattle.wire_jsonfields.specs.Maps IsMapTree\nRattle.wire_jsonfields.specs.Maps MapMeans\n\
        Rattle.wire_jsonfields.specs.OneValues one_map\n\
        $json_uses$$json_back_uses$$key_uses$",
    ),
    (
        "part_seen_uses",
        "Rattle.wire_jsonfields.specs.Maps entries_seen\n$json_seen_uses$$key_seen_uses$",
    ),
];

const LABEL_REPEATED: i32 = 3;

// Why lists and maps come back, where `null` is no value of them, and where it is.
const BACK: [Template; 3] = [
    ("back_home", "Rattle.wire_jsonfields.specs.KindsBack"),
    ("list_back", "all_back"),
    ("map_back", "entries_back"),
];

const NULLABLE_BACK: [Template; 3] = [
    ("back_home", "Rattle.wire_well_known_json.specs.Nullable"),
    ("list_back", "nullable_list_back"),
    ("map_back", "nullable_entries_back"),
];

/// Sets the words of a field of this descriptor, in code and in definitions; those of its kind are
/// set. Whether `null` is a value of it, and does not leave it absent, is answered.
pub(crate) fn set_part(
    schema: &Schema,
    descriptor: &FieldDescriptorProto,
    words: &mut Words,
) -> bool {
    let entry = schema
        .entries
        .iter()
        .find(|it| it.words.get("full") == descriptor.type_name.as_str());
    if let Some(entry) = entry {
        for part in &entry.descriptor.field {
            if part.number == 1 {
                set_key(part.type_, words);
            } else {
                set_item(part, words);
                set_element(part, words);
            }
        }
        words.append(
            "json_code",
            "wire_jsonfields Map\nstd::collections BTreeMap\n",
        );
        set_back(words);
        words.fill_all(&MAP);
        return false;
    }
    set_item(descriptor, words);
    if descriptor.label == LABEL_REPEATED {
        set_element(descriptor, words);
        words.append("json_code", "wire_jsonfields Repeated\n");
        set_back(words);
        words.fill_all(&EACH);
        return false;
    }
    set_singular(descriptor, words)
}

fn set_back(words: &mut Words) {
    words.fill_all(if is_nullable(words) {
        &NULLABLE_BACK
    } else {
        &BACK
    });
}

// The same of a field that is no list and no map.
fn set_singular(descriptor: &FieldDescriptorProto, words: &mut Words) -> bool {
    let is_null_a_value = is_nullable(words);
    if is_of_message(descriptor) {
        words.append("json_code", "wire_jsonfields Embedded\n");
        words.fill_all(&OPTIONAL);
        if is_null_a_value {
            words.append("json_code", "wire_jsonfields Boxed\n");
            words.fill_all(&NULLABLE);
        }
        words.fill_all(&BOXED);
        words.fill("nullable_kind", "Boxed<$json_kind$>");
        return is_null_a_value;
    }
    if words.get("kind").starts_with("Implicit<") {
        set_element(descriptor, words);
        words.fill_all(&IMPLICIT);
        if is_null_a_value {
            words.fill_all(&NO_NULL);
        }
        return false;
    }
    if is_null_a_value {
        words.append("json_code", "wire_jsonfields Maybe\n");
        words.fill_all(&NULLABLE);
        words.fill("nullable_kind", "$json_kind$");
    } else {
        words.append("json_code", "wire_jsonfields Optional\n");
        words.fill_all(&OPTIONAL);
    }
    is_null_a_value
}

/// Whether `null` is a value of a type of these words.
pub(crate) fn is_nullable(words: &Words) -> bool {
    !words.get("json_back_uses").is_empty()
}

/// Whether a field is of messages, or of groups.
pub(crate) fn is_of_message(descriptor: &FieldDescriptorProto) -> bool {
    matches!(descriptor.type_, 10 | 11)
}

// The kind of an element of a list, or of a value of a map.
pub(crate) fn set_element(descriptor: &FieldDescriptorProto, words: &mut Words) {
    if is_of_message(descriptor) || is_nullable(words) {
        return words.fill("element", "$json_kind$");
    }
    words.append("json_code", "wire_jsonfields Implicit\n");
    words.fill("element", "Implicit<$json_kind$>");
}
