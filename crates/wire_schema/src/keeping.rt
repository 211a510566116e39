//! Fields that leave records of other wire types to the unknown fields.
use crate::closing::set_closing;
use crate::field::Field;
use crate::oneof::put_apart;
use crate::words::{Template, Words};

const KEEPING: [Template; 8] = [
    ("lawful", "($definition$)"),
    (
        "returned",
        "types_returned $types$ $number$ $lawful$ $module$-$field$-range
    (known_returned g $number$ $lawful$ $module$-$field$-range
    (omega arith) (omega arith)\n    ($kind_returned$))
    ($typed$ $types$ $typed_of$)",
    ),
    (
        "stays",
        "types_stay $types$ $number$ $lawful$\n    ($kind_stays$)",
    ),
    (
        "definition",
        "leaving_types $types$ $number$ ($definition$)",
    ),
    ("table", "$module$-$field$-kind"),
    ("step", "$module$-$field$-kind.takes"),
    ("sort", "Leaving"),
    ("call", "merge_or_keep"),
];

const OF_KEEPING: [Template; 4] = [
    (
        "returned_uses",
        "Rattle.wire_fields.specs.KeepingBack types_returned\n\
        Rattle.wire_fields.specs.KeepingBack $typed$\n$typed_uses$",
    ),
    ("definitions", "Rattle.wire_fields.specs.Leaving $types$\n"),
    (
        "definitions",
        "Rattle.wire_fields.specs.Leaving leaving_types\n",
    ),
    ("code", "wire_codec WireType\nwire_fields OwnTypes\n"),
];

/// Sets the wire types of a field, `types` in definitions and `own_types` in code. A list of
/// numbers has that of bytes, too.
pub(crate) fn set_types(is_list: bool, words: &mut Words) {
    let types = match words.get("wire_type") {
        "Fixed64" => "of_fixed64",
        "Fixed32" => "of_fixed32",
        "LengthDelimited" => "of_bytes",
        "StartGroup" => "of_group",
        _ => "of_varint",
    };
    words.set("types", types);
    words.fill("own_types", "One(WireType::$wire_type$)");
    if is_list {
        words.fill("types", "$types$s");
        words.fill("own_types", "OrPacked(WireType::$wire_type$)");
    }
}

/// Makes the words of a field those of one that leaves records of other wire types.
pub(crate) fn set_keeping(words: &mut Words) {
    words.fill_all(&KEEPING);
    words.append_all(&OF_KEEPING);
}

/// The numbers of a oneof are a list, and what goes with each: the call and the step of its records,
/// or its wire types where records of others are left.
pub(crate) fn put_number(words: &mut Words, variant: &Words) {
    words.set("next", variant.get("number"));
    words.copy(variant, &["types", "own_types"]);
    let is_first = words.get("numbers").is_empty();
    words.append("numbers", if is_first { "$next$" } else { " $next$" });
    put_apart(words, is_first);
    if !variant.get("closed").is_empty() {
        return set_closing(words, variant);
    }
    if words.get("mismatch") != "keep" {
        return words.append_all(&OF_PLAIN);
    }
    words.set("others", "own_none");
    if !is_first {
        words.fill("others", "($own$)");
    }
    words.fill("own", "own_at $types$ $next$ $others$");
    words.append("all_types", "$own_types$ ");
    words.append("all_own", "$types$ ");
    words.append_all(&OF_KEEPING_ONEOF);
    words.fill_all(&KEEPING_ONEOF);
}

const OF_PLAIN: [Template; 2] = [
    ("all_calls", "merge "),
    ("all_steps", "$module$-shape.takes "),
];

const OF_KEEPING_ONEOF: [Template; 4] = [
    (
        "returned_uses",
        "Rattle.wire_fields.specs.LeavingBack leaving_back\n$specs$ $module$-owned\n",
    ),
    ("definitions", "Rattle.wire_fields.specs.Leaving $types$\n"),
    (
        "definitions",
        "Rattle.wire_fields.specs.Leaving leaving_other\nRattle.wire_fields.specs.Leaving own_at\n\
        Rattle.wire_fields.specs.Leaving own_none\n",
    ),
    ("code", "wire_codec WireType\nwire_fields OwnTypes\n"),
];

const KEEPING_ONEOF: [Template; 7] = [
    (
        "returned",
        "leaving_back ($own$) $module$-shape ($range$)\n    \
        ($module$-returned$charges$ g) ($module$-owned$charges$ g)",
    ),
    ("stays", "other_stays ($own$) ($module$-stays g)"),
    ("definition", "leaving_other ($own$) $module$-shape"),
    ("table", "$holder$-$field$-kind"),
    ("step", "$holder$-$field$-kind.takes"),
    ("sort", "Leaving"),
    ("call", "merge_or_keep"),
];

const LEAVING_NONE: [Template; 3] = [
    ("table", "leaving_none ($table$)"),
    ("returned", "none_returned\n    ($returned$)"),
    ("stays", "none_stays\n    ($stays$)"),
];

const PAIRED: [Template; 4] = [
    ("both", "two"),
    ("both_returned", "two_returned"),
    ("both_stays", "two_stays"),
    ("margin", "    "),
];

const PAIRED_LEAVING: [Template; 4] = [
    ("both", "both_leaving"),
    ("both_returned", "both_returned"),
    ("both_stays", "both_stay"),
    ("margin", "          "),
];

/// Where a field leaves records to the unknown fields, its message is a table of such as may.
pub(crate) fn leave_others(fields: &mut [Field]) {
    let leaves = fields.iter().any(|it| it.words.get("sort") == "Leaving");
    for field in fields {
        if leaves && field.words.get("sort") != "Leaving" {
            field.words.fill_all(&LEAVING_NONE);
            field.words.append(
                "definitions",
                "Rattle.wire_fields.specs.Leaving leaving_none\n",
            );
        }
        // (and how far its proofs stand to the right)
        if leaves {
            field.words.fill_all(&PAIRED_LEAVING);
        } else {
            field.words.fill_all(&PAIRED);
        }
    }
}
