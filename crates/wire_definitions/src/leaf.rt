//! What the leaf of a message that holds itself does with records that are no field's.
use crate::returned::{leaves_entries, put_left_charge};
use wire_schema::{Field, Template, Words};

// Of a leaf that keeps them, of one whose fields leave some of their own among them too, and of one
// that drops them: the `leaf_part` that its fields are, and the whole, `leaf_whole`; what is kept,
// as a type and as it is seen; the `leaf_range`; why its fields are read back, `leaf_returned`, and
// the whole with them, `leaf_known_back`; and why decoding gives such, `leaf_stay`.
const KEEPING: [Template; 11] = [
    ("leaf_part", "Shape"),
    ("leaf_whole", "two $module$-known unknown"),
    ("leaf_kept", "Fields"),
    ("leaf_view", "m.unknown"),
    ("left_records", "unknown.records l.1"),
    ("leaf_range", "leaf_range $module$-table $module$-known"),
    ("leaf_returned", "Returned"),
    (
        "leaf_known_back",
        "known_leaf_back g $module$-table $module$-known",
    ),
    ("leaf_stay", "known_stay $module$-table"),
    ("leaf_uses", USES_OF_KEEPING),
    ("back_uses_of_leaf", BACK_OF_KEEPING),
];

const LEAVING: [Template; 9] = [
    ("leaf_kind", "leaving"),
    ("leaf_part", "Leaving"),
    ("leaf_whole", "with_unknown $module$-known"),
    (
        "leaf_range",
        "leaving_leaf_range $module$-table $module$-known",
    ),
    ("leaf_returned", "ReturnedBeside"),
    (
        "leaf_known_back",
        "leaving_leaf_back g $module$-table $module$-known",
    ),
    ("leaf_stay", "leaving_leaf_stay $module$-table"),
    ("leaf_uses", USES_OF_LEAVING),
    ("back_uses_of_leaf", BACK_OF_LEAVING),
];

const DROPPING: [Template; 10] = [
    ("leaf_kind", "dropping"),
    ("leaf_whole", "two $module$-known dropped"),
    ("leaf_kept", "⊤"),
    ("leaf_view", "tt"),
    ("left_records", "dropped.records l.1"),
    ("leaf_range", "dropping_leaf_range"),
    (
        "leaf_known_back",
        "dropping_leaf_back g $module$-table $module$-known",
    ),
    ("leaf_stay", "dropping_leaf_stay $module$-table"),
    ("leaf_uses", USES_OF_DROPPING),
    ("back_uses_of_leaf", BACK_OF_DROPPING),
];

// Of one that leaves entries of maps too, which are charged besides for their reading.
const ENTRIES: [Template; 2] = [
    ("leaves_entries", "leaves_entries"),
    (
        "leaf_stay",
        "charged_leaf_stay $module$-table\n    ($others_stay$)",
    ),
];

// What is read back of it, for what each record is charged.
const CHARGED: [Template; 3] = [
    (
        "leaf_range",
        "charged_leaf_range $module$-table $module$-known ($left_charges$)",
    ),
    (
        "leaf_known_back",
        "charged_leaf_back g $module$-table $module$-known ($left_charges$)",
    ),
    ("back_uses_of_leaf", BACK_OF_ENTRIES),
];

const USES_OF_KEEPING: &str = "\
Rattle.wire_codec.specs.Field Fields
Rattle.wire_fields.specs.Shape unknown
";

const BACK_OF_KEEPING: &str = "\
Rattle.wire_fields.specs.NestRange known_leaf_back
Rattle.wire_fields.specs.NestRange leaf_range
";

const USES_OF_LEAVING: &str = "\
Rattle.wire_codec.specs.Field Fields
Rattle.wire_fields.specs.Leaving both_leaving
Rattle.wire_fields.specs.Leaving leaving_none
Rattle.wire_fields.specs.Shape unknown
Rattle.wire_fields.specs.Leaving Leaving
Rattle.wire_fields.specs.Leaving with_unknown
";

const BACK_OF_LEAVING: &str = "\
Rattle.wire_fields.specs.LeavingBack ReturnedBeside
Rattle.wire_fields.specs.LeavingLeaf leaving_leaf_back
Rattle.wire_fields.specs.LeavingLeaf leaving_leaf_range
";

const BACK_OF_ENTRIES: &str = "\
Rattle.std.specs.Prelude []
Rattle.std.specs.Prelude ◌∷◌
Rattle.wire_fields.specs.ClosedMapsBack entries_left
Rattle.wire_fields.specs.LeavingBack ReturnedBeside
Rattle.wire_fields.specs.LeavingLeaf charged_leaf_back
Rattle.wire_fields.specs.LeavingLeaf charged_leaf_range
";

const USES_OF_DROPPING: &str = "\
Rattle.std.specs.Prelude ⊤
Rattle.wire_fields.specs.Dropped dropped
";

const BACK_OF_DROPPING: &str = "\
Rattle.wire_fields.specs.LeavingLeaf dropping_leaf_back
Rattle.wire_fields.specs.LeavingLeaf dropping_leaf_range
";

/// Tells the page of such a message, of these fields, what its leaf does with other records.
pub fn set_leaf(page: &mut Words, fields: &[Field]) {
    page.fill_all(&[("leaf_kind", ""), ("leaf_uses", "")]);
    page.set("leaves_entries", "");
    page.fill_all(&KEEPING);
    if fields.iter().any(is_leaving) {
        page.fill_all(&LEAVING);
    } else if page.get("unknown") == "drop" {
        page.fill_all(&DROPPING);
    }
    if leaves_entries(fields) {
        put_others_stay(page, fields);
        page.fill_all(&ENTRIES);
    }
}

/// Why a record that no field owns is charged as an unknown field, the word `others_stay`.
pub(crate) fn put_others_stay(page: &mut Words, fields: &[Field]) {
    page.set("others_stay", "λ n p other. refl");
    for field in fields {
        page.copy(&field.words, &["left_others"]);
        if !page.get("left_others").is_empty() {
            page.fill("others_stay", "$left_others$\n    ($others_stay$)");
        }
    }
}

/// Tells the page for what each record is charged that the leaf leaves, by the account `charges`.
pub(crate) fn charge_leaf(page: &mut Words, fields: &[Field]) {
    put_left_charge(page, fields);
    if !page.get("leaves_entries").is_empty() {
        page.fill("left_charges", "charges $account_place$");
        page.fill_all(&CHARGED);
    }
}

/// Whether a field leaves records of its own to the unknown fields.
pub(crate) fn is_leaving(field: &Field) -> bool {
    field.words.get("sort") == "Leaving"
}

/// What decoding leaves of the fields of a leaf, the word `leaf_stays`, for the word `known_range`.
pub(crate) fn set_leaf_stays(page: &mut Words) {
    let is_leaving = page.get("leaf_kind") == "leaving";
    let leaves_entries = !page.get("leaves_entries").is_empty();
    page.fill(
        "left_charges",
        if leaves_entries {
            "$account_of$ $account_place$"
        } else {
            "λ n p. payload_charge p"
        },
    );
    if leaves_entries {
        page.fill_all(&CHARGED);
    }
    page.fill(
        "leaf_stays",
        if is_leaving {
            "LeavingStays $module$-known $known_range$\n    ($left_charges$) anywhere"
        } else {
            "FieldsStay $module$-known $known_range$"
        },
    );
}
