//! What a value of an enum is in JSON: open or closed, and written by its name or as its number.
use wire_schema::{Template, Words};

const ENUM: [Template; 9] = [
    ("json_value", "ℤ"),
    ("json_held", "EnumValue $of_name$"),
    ("json_kind", "$enum_kind$<$of_name$Json>"),
    ("json_before", "number_of $of_module$-number "),
    ("json_view", "(number_of $of_module$-number)"),
    ("json_absent", "(pos 0)"),
    (
        "json_seen_uses",
        "Rattle.wire_codec.specs.Enumeration number_of\n$specs$ $of_module$-number\n",
    ),
    ("json_absent_uses", "Rattle.std.specs.Prelude pos\n"),
    (
        "json_held_uses",
        "Rattle.wire_codec.specs.EnumValue EnumValue\n\
        $of_specs$.declared.$of_module$.$of_name$ $of_name$\n",
    ),
];

const OF_ENUM: [Template; 2] = [
    (
        "json_code",
        "wire_jsonkinds $enum_kind$\n$json_home$ $of_name$Json\n",
    ),
    (
        "json_held_code",
        "wire_codec EnumValue\n$of_crate$ $of_name$\n",
    ),
];

// What trees mean, and which values come back: of an open enum, and of a closed one.
const OPEN: [Template; 5] = [
    ("enum_kind", "Enum$written_as$"),
    ("json_means", "(MeansEnum $of_module$-json-names)"),
    (
        "json_one",
        "(enum_decided $of_module$-json-names).one_meaning",
    ),
    ("json_range", "(FitsSigned w32)"),
    (
        "json_uses",
        "Rattle.std.specs.Int w32\nRattle.std.specs.Prelude FitsSigned\n\
        Rattle.std.specs.Prelude ℤ\n\
        Rattle.wire_protojson.specs.Enums MeansEnum\n\
        Rattle.wire_jsonfields.specs.EnumFields enum_decided\n\
        $json_specs$ $of_module$-json-names\n",
    ),
];

const CLOSED: [Template; 5] = [
    ("enum_kind", "Closed$written_as$"),
    (
        "json_means",
        "(MeansClosed $of_module$-of $of_module$-json-names)",
    ),
    (
        "json_one",
        "(closed_decided $of_module$-of $of_module$-json-names).one_meaning",
    ),
    ("json_range", "(IsInClosed $of_module$-of)"),
    (
        "json_uses",
        "Rattle.std.specs.Prelude ℤ\n\
        Rattle.wire_jsonkinds.specs.ClosedEnums IsInClosed\n\
        Rattle.wire_jsonkinds.specs.ClosedEnums MeansClosed\n\
        Rattle.wire_jsonkinds.specs.ClosedEnums closed_decided\n\
        $specs$ $of_module$-of\n$json_specs$ $of_module$-json-names\n",
    ),
];

// What is written: a name, or a number.
const NAMED: [Template; 2] = [
    ("json_tree", "(IsEnumTree $of_module$-json-names)"),
    (
        "json_uses",
        "$json_uses$Rattle.wire_protojson.specs.Enums IsEnumTree\n\
        $json_specs$ $of_module$-json-agree\n$json_specs$ $of_module$-json-texts\n",
    ),
];

const NUMBERED: [Template; 2] = [
    ("json_tree", "IsNumberTree"),
    (
        "json_uses",
        "$json_uses$Rattle.wire_jsonkinds.specs.NumberedEnums IsNumberTree\n",
    ),
];

// Why that comes back.
const OPEN_NAMED: [Template; 2] = [
    (
        "json_back",
        "(enum_comes_back $of_module$-json-names $of_module$-json-agree $of_module$-json-texts)",
    ),
    (
        "json_uses",
        "$json_uses$Rattle.wire_jsonfields.specs.KindsBack enum_comes_back\n",
    ),
];

const OPEN_NUMBERED: [Template; 2] = [
    ("json_back", "(numbered_back $of_module$-json-names)"),
    (
        "json_uses",
        "$json_uses$Rattle.wire_jsonkinds.specs.NumberedEnums numbered_back\n",
    ),
];

const CLOSED_NAMED: [Template; 2] = [
    (
        "json_back",
        "(closed_comes_back $of_module$-of $of_module$-json-names $of_module$-json-agree\n    \
        $of_module$-json-texts)",
    ),
    (
        "json_uses",
        "$json_uses$Rattle.wire_jsonkinds.specs.ClosedEnums closed_comes_back\n",
    ),
];

const CLOSED_NUMBERED: [Template; 2] = [
    (
        "json_back",
        "(closed_numbered_back $of_module$-of $of_module$-json-names)",
    ),
    (
        "json_uses",
        "$json_uses$Rattle.wire_jsonkinds.specs.NumberedEnums closed_numbered_back\n",
    ),
];

/// Sets the words of a value of an enum.
pub(crate) fn set_enum(words: &mut Words) {
    let is_closed = !words.get("closed").is_empty();
    let is_numbered = words.get("json_enums") == "numbers";
    words.set("written_as", if is_numbered { "Numbered" } else { "Named" });
    words.fill_all(if is_closed { &CLOSED } else { &OPEN });
    words.fill_all(&ENUM);
    words.fill_all(if is_numbered { &NUMBERED } else { &NAMED });
    words.fill_all(match (is_closed, is_numbered) {
        (false, false) => &OPEN_NAMED,
        (false, true) => &OPEN_NUMBERED,
        (true, false) => &CLOSED_NAMED,
        (true, true) => &CLOSED_NUMBERED,
    });
    words.append_all(&OF_ENUM);
}
