//! Fields of closed enums, of which a number that the enum does not have goes to the unknown fields.
use crate::words::{Template, Words};

const CLOSED: [Template; 5] = [
    (
        "definition",
        "$closed$ $of_module$-number $of_module$-of $number$",
    ),
    (
        "returned",
        "$closed$_returned g $of_module$-number $of_module$-of $number$\n    \
        (omega arith) (omega arith)",
    ),
    (
        "returned_uses",
        "$closed_uses$Rattle.wire_fields.specs.Ranges closed_range\n\
        Rattle.wire_fields.specs.ClosedBack $closed$_returned\n",
    ),
    (
        "stays",
        "$closed$_stays $of_module$-number $of_module$-of\n    \
        (first_numbered_keeps $of_module$-number $of_module$-values) $number$ (λ x. refl)",
    ),
    (
        "definitions",
        "$of_specs$.declared.$of_module$.$of_name$ $of_name$\n",
    ),
];

const OF_CLOSED: [Template; 1] = [("definitions", "Rattle.wire_fields.specs.Closed $closed$\n")];

// What such a field is in its message, whichever it is.
const LEAVING: [Template; 3] = [
    ("table", "$module$-$field$-kind"),
    ("step", "$module$-$field$-kind.takes"),
    ("sort", "Leaving"),
];

const OF_LEAVING: [Template; 2] = [
    (
        "definitions",
        "$specs$ $of_module$-number\n$specs$ $of_module$-of\n",
    ),
    (
        "definitions",
        "Rattle.wire_codec.specs.EnumValue EnumValue\n",
    ),
];

// A closed enum where there is one, and as many as there are in one record, and each in its own.
const ONCE: [Template; 3] = [
    ("closed", "closed_once"),
    ("call", "merge_closed"),
    (
        "closed_uses",
        "Rattle.wire_fields.specs.Ranges optional_range\n",
    ),
];

const IN_ONE: [Template; 3] = [
    ("closed", "closed_packed"),
    ("call", "merge_closed_each"),
    (
        "closed_uses",
        "Rattle.wire_fields.specs.Ranges packed_range\n\
        Rattle.wire_fields.specs.Enums open_enum\n\
        Rattle.wire_fields.specs.declared.form.Form.TheVariants Varint\n",
    ),
];

const IN_EACH: [Template; 3] = [
    ("closed", "closed_unpacked"),
    ("call", "merge_closed_each"),
    (
        "closed_uses",
        "Rattle.wire_fields.specs.Ranges unpacked_range\n",
    ),
];

// What a view holds for them.
const VIEW_OF_MAP: [Template; 2] = [
    (
        "view_kind",
        "ClosedMapIn<$key_view_kind$, $of_name$, $of_entry$>",
    ),
    (
        "view_code",
        "$key_view_code$$of_path$ $of_name$\nwire_codec EnumValue\nwire_views ClosedMapIn\n",
    ),
];

// As values of a map. The record of an entry that is left is charged besides for its reading.
const IN_MAP: [Template; 9] = [
    ("left", "entries_left $of_entry$ $number$"),
    (
        "left_others",
        "entries_others $module$-known $of_entry$ $number$ _ (λ p. refl)",
    ),
    ("closed", "closed_$key_order$"),
    ("call", "merge_closed"),
    (
        "definition",
        "$closed$ $of_entry$$key_numbers$ $of_module$-number $of_module$-of $number$",
    ),
    (
        "returned",
        "closed_map_returned g _ _ _ $of_module$-number $of_module$-of $key_range$\n    \
        $key_back$ $number$ (omega arith) (omega arith)",
    ),
    (
        "stays",
        "$closed$_stays g $of_entry$ $of_module$-number $of_module$-of\n    \
        (first_numbered_keeps $of_module$-number $of_module$-values) $number$ (λ p. refl)\n    \
        $key_stays$",
    ),
    (
        "returned_uses",
        "Rattle.wire_fields.specs.Ranges $key_order$_range\n\
        Rattle.wire_fields.specs.Ranges closed_range\n$key_uses$$numeric$\
        Rattle.wire_fields.specs.Presence always\n\
        Rattle.wire_fields.specs.Enums open_enum\n\
        Rattle.wire_fields.specs.declared.form.Form.TheVariants Varint\n\
        Rattle.wire_fields.specs.ClosedMapsBack closed_map_returned\n",
    ),
    (
        "definitions",
        "$key_definitions$Rattle.wire_fields.specs.Maps viewed\n\
        $of_specs$.declared.$of_module$.$of_name$ $of_name$\n",
    ),
];

const OF_MAP: [Template; 2] = [
    (
        "definitions",
        "Rattle.wire_fields.specs.ClosedMaps $closed$\n",
    ),
    ("definitions", "Rattle.std.specs.Prelude List\n"),
];

/// Makes the words of a field of a closed enum, of those of an open one.
pub(crate) fn set_closed(words: &mut Words) {
    if words.get("kind").starts_with("Map<") {
        return set_closed_map(words);
    }
    let is_once = words.get("kind").starts_with("Optional");
    let is_packed = words.get("kind").starts_with("Packed");
    words.fill_all(if is_once {
        &ONCE
    } else if is_packed {
        &IN_ONE
    } else {
        &IN_EACH
    });
    words.fill_all(&CLOSED);
    words.append_all(&OF_CLOSED);
    set_leaving(words);
    if is_once {
        words.fill_all(&[("view", "m.$field$"), ("view_seen", "m.$field$")]);
        words.append("definitions", "Rattle.std.specs.Prelude Option\n");
    } else {
        words.append("definitions", "Rattle.std.specs.Prelude List\n");
    }
}

fn set_closed_map(words: &mut Words) {
    words.set("maps", "c");
    words.fill_all(&IN_MAP);
    words.fill_all(&VIEW_OF_MAP);
    words.append_all(&OF_MAP);
    set_leaving(words);
}

fn set_leaving(words: &mut Words) {
    words.fill_all(&LEAVING);
    words.append_all(&OF_LEAVING);
}
