//! What is read back of a message type.
use crate::account::{ACCOUNT, put_account};
use crate::rows::is_row;
use crate::tree::Tree;
use wire_schema::{Field, Template, Words};

const RANGE: &str = "\
-- what is read back once it is written
abbrev pub $module$-range : Range $name$-Value
$module$-range =
    $whole_range$

pub $module$-returned : Grounds → Returned $module$-shape $module$-range
$module$-returned g =
    $whole_returned$
";

// Of a message that leaves entries itself.
const LEFT_CHARGE: &str = "
-- what each record is charged that is left
abbrev pub $module$-left-charge : ℕ → Payload → Charge
$module$-left-charge = $left_charge$
";

// Where it follows from what the records are charged that are left.
const UNDER_CHARGES: &str = "\
-- for what each record is charged that a map of a closed enum left, for its reading too: by the
-- numbers of the fields that lead to its message, from the outermost one on, by its own number and
-- by its payload; of types that hold one another the place of the one that leads out is before them
module _ (charges : List ℕ → ℕ → Payload → Charge) where
$ranges$";

const USES_OF_CHARGED: &str = "\
Rattle.std.specs.Prelude List
Rattle.std.specs.Prelude ℕ
Rattle.wire_codec.specs.Field Payload
Rattle.wire_codec.specs.Limits Charge
";

const USES_OF_RANGE: &str = "\
Rattle.wire_fields.specs.Grounds Grounds
Rattle.wire_fields.specs.Ranges Range
Rattle.wire_fields.specs.Returned Returned
";

const USES_OF_KNOWN: &str = "\
Rattle.std.proofs.Common arith
Rattle.std.proofs.Common refl
Rattle.wire_fields.specs.Ranges pair_range
";

// What puts the proofs of fields together, and where that stands.
const OF_RETURNED: [(&str, &str); 4] = [
    ("known_returned", "Returned"),
    ("two_returned", "Returned"),
    ("none_returned", "LeavingBack"),
    ("both_returned", "LeavingBack"),
];

// Of a message that keeps other fields, and of one that drops them, with fields and without.
const KEPT_RANGE: [Template; 3] = [
    (
        "whole_range",
        "pair_range ($range$)\n    (others_range $module$-known.owns)",
    ),
    ("whole_returned", "whole_returned g\n    ($returned$)"),
    (
        "uses",
        "Rattle.wire_fields.specs.Ranges others_range\n\
        Rattle.wire_fields.specs.Returned whole_returned\n",
    ),
];

const LEAVING_RANGE: [Template; 3] = [
    (
        "whole_range",
        "pair_range ($range$)\n    (left_range $module$-known)",
    ),
    (
        "whole_returned",
        "with_unknown_returned g $module$-known _\n    ($returned$)",
    ),
    (
        "uses",
        "Rattle.wire_fields.specs.LeavingBack left_range\n\
        Rattle.wire_fields.specs.LeavingBack with_unknown_returned\n",
    ),
];

const ENTRIES_RANGE: [Template; 3] = [
    (
        "whole_range",
        "pair_range ($range$)\n    (charged_range $module$-known (charges []))",
    ),
    (
        "whole_returned",
        "charged_returned g $module$-known _\n    ($returned$)\n    (charges [])",
    ),
    (
        "uses",
        "Rattle.std.specs.Prelude []\n\
        Rattle.wire_codec.specs.Charge payload_charge\n\
        Rattle.wire_fields.specs.ClosedMapsBack entries_left\n\
        Rattle.wire_fields.specs.LeavingBack charged_range\n\
        Rattle.wire_fields.specs.LeavingBack charged_returned\n",
    ),
];

const DROPPED_RANGE: [Template; 3] = [
    ("whole_range", "pair_range ($range$)\n    dropped_range"),
    ("whole_returned", "dropping_returned g\n    ($returned$)"),
    (
        "uses",
        "Rattle.wire_fields.specs.Ranges dropped_range\n\
        Rattle.wire_fields.specs.Returned dropping_returned\n",
    ),
];

const EMPTY_RANGE: [Template; 3] = [
    ("whole_range", "unknown_range"),
    ("whole_returned", "unknown_returned g"),
    (
        "uses",
        "Rattle.wire_fields.specs.Ranges unknown_range\n\
        Rattle.wire_fields.specs.Returned unknown_returned\n",
    ),
];

const EMPTY_DROPPED_RANGE: [Template; 3] = [
    ("whole_range", "dropped_range"),
    ("whole_returned", "nothing_returned"),
    (
        "uses",
        "Rattle.wire_fields.specs.Ranges dropped_range\n\
        Rattle.wire_fields.specs.Returned nothing_returned\n",
    ),
];

/// Whether there are fields that read an entry before they leave its record.
pub(crate) fn leaves_entries(fields: &[Field]) -> bool {
    fields.iter().any(|it| !it.words.get("left").is_empty())
}

/// Puts what is read back of a message behind the text of its page.
pub(crate) fn put_range_page(page: &mut Words, fields: &[Field]) {
    if leaves_entries(fields) {
        page.append("text", LEFT_CHARGE);
    }
    if !page.get("charged").is_empty() {
        page.append("text", ACCOUNT);
    }
    page.append("ranges", RANGE);
    under_charges(page);
    page.append("text", "\n$ranges$");
}

/// Puts the word `ranges` under what records are charged, where it follows from that.
pub(crate) fn under_charges(page: &mut Words) {
    if !page.get("charged").is_empty() {
        page.indent("ranges");
        page.fill("ranges", UNDER_CHARGES);
    }
}

/// What that brings in.
pub(crate) fn use_charges(page: &mut Words) {
    if !page.get("charged").is_empty() {
        page.append("uses", USES_OF_CHARGED);
    }
}

/// Which values of the fields are read back, and why: the `range` of their tree, and `returned`.
pub(crate) fn put_returned(page: &mut Words, fields: &[Field], tree: &Tree) {
    page.copy(&tree.words, &["range", "returned", "apart", "goes"]);
    page.append("uses", USES_OF_RANGE);
    use_charges(page);
    if !fields.is_empty() {
        page.append("uses", USES_OF_KNOWN);
    }
    for field in fields {
        if !is_row(field) {
            page.copy(&field.words, &["returned_uses"]);
            page.append("uses", "$returned_uses$");
        }
    }
    use_returned(page);
    for group in &tree.parts {
        page.copy(&group.words, &["returned"]);
        use_returned(page);
    }
    page.copy(&tree.words, &["returned"]);
}

// What the word `returned` brings in.
fn use_returned(page: &mut Words) {
    for (name, module) in &OF_RETURNED {
        if page.get("returned").contains(name) {
            page.set("of", module);
            page.set("import", name);
            page.append("uses", "Rattle.wire_fields.specs.$of$ $import$\n");
        }
    }
    put_sides(page, "returned");
}

/// Brings in the sides of a sum, where the word of this name tells them apart.
pub(crate) fn put_sides(page: &mut Words, name: &str) {
    if page.get(name).contains("elim h") {
        page.append(
            "uses",
            "Rattle.std.proofs.Common inl\nRattle.std.proofs.Common inr\n",
        );
    }
}

/// What is read back of the message.
pub(crate) fn put_range(page: &mut Words, fields: &[Field], tree: &Tree) {
    let is_kept = page.get("unknown") == "keep";
    put_returned(page, fields, tree);
    put_left_charge(page, fields);
    put_account(page, fields);
    let leaves = leaves_entries(fields);
    page.fill(
        "left_here",
        if leaves {
            "$module$-left-charge"
        } else {
            "λ n p. payload_charge p"
        },
    );
    let is_leaving = page.get("part") == "Leaving";
    page.append_all(match (fields.is_empty(), is_kept) {
        _ if leaves_entries(fields) => &ENTRIES_RANGE,
        _ if is_leaving => &LEAVING_RANGE,
        (false, true) => &KEPT_RANGE,
        (false, false) => &DROPPED_RANGE,
        (true, true) => &EMPTY_RANGE,
        (true, false) => &EMPTY_DROPPED_RANGE,
    });
}

/// What each record is charged that is left, the word `left_charge`.
pub(crate) fn put_left_charge(page: &mut Words, fields: &[Field]) {
    page.set("left_charge", "λ n p. payload_charge p");
    for field in fields {
        page.copy(&field.words, &["left"]);
        let is_of_entries = !page.get("left").is_empty();
        page.fill(
            "left_charge",
            if is_of_entries {
                "$left$ ($left_charge$)"
            } else {
                "$left_charge$"
            },
        );
    }
}
