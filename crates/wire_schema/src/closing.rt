//! Closed enums in a oneof: a number that the enum does not have goes to the unknown fields.
use crate::words::{Template, Words};

const CLOSING: [Template; 7] = [
    (
        "set_part",
        "(closed_set $next$ $of_module$-of $word$-of-$module$-from\n    \
        ($definition$) (λ e. refl)\n    $set_part$)",
    ),
    (
        "definition",
        "closing $next$ $of_module$-of\n    $word$-of-$module$-from\n    ($definition$)",
    ),
    (
        "returned",
        "closing_returned g $of_module$-number $of_module$-of $next$\n    \
        $word$-of-$module$-from _ _\n    ($returned$)\n    ($word$-of-$module$-apart$charges$ g)",
    ),
    (
        "stays",
        "closing_stays $of_module$-number $of_module$-of\n    \
        (first_numbered_keeps $of_module$-number $of_module$-values) $next$ (λ x. refl)\n    \
        $word$-of-$module$-from\n    ($stays$) (λ v h. h)",
    ),
    ("table", "$holder$-$field$-kind"),
    ("step", "$holder$-$field$-kind.takes"),
    ("sort", "Leaving"),
];

const OF_CLOSING: [Template; 6] = [
    (
        "closing_uses",
        "$specs$ $word$-of-$module$-from\nRattle.wire_fields.specs.ClosedOneof closing\n\
        $of_specs$.$of_name$ $of_module$-of\n\
        Rattle.wire_fields.specs.Leaving leaving_none\n",
    ),
    (
        "returned_uses",
        "$specs$ $word$-of-$module$-apart\n$of_specs$.$of_name$ $of_module$-number\n\
        Rattle.wire_fields.specs.ClosedBack closing_returned\n",
    ),
    (
        "stays_uses",
        "Rattle.wire_codec.specs.EnumNumbers first_numbered_keeps\n\
        $of_specs$.$of_name$ $of_module$-values\n",
    ),
    ("code", "crate::$module$ set_or_keep_$word$\n"),
    ("all_calls", "set_or_keep_$word$ "),
    ("all_steps", "$word$-of-$module$-closed "),
];

/// Makes the words of a oneof, whose next variant is of a closed enum, those of one that keeps the
/// numbers that the enum lacks.
pub(crate) fn set_closing(words: &mut Words, variant: &Words) {
    words.copy(variant, &["word", "of_specs", "of_name", "of_module"]);
    if words.get("sort") != "Leaving" {
        words.fill_all(&[
            ("definition", "leaving_none $definition$"),
            ("returned", "none_returned ($returned$)"),
            ("stays", "$module$-stays g _"),
            ("set_part", "$module$-set"),
        ]);
    }
    words.fill_all(&CLOSING);
    words.set("closing_uses", "");
    words.append_all(&OF_CLOSING);
    words.append("definitions", "$closing_uses$");
    words.append("all_closing_uses", "$closing_uses$");
    if !words.get("view_name").is_empty() {
        words.append("view_code", "crate::$view_module$ set_or_keep_$word$\n");
    }
}
