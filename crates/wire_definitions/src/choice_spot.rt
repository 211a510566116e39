//! Where a oneof of which some variants are rows stands in a leaf.
use crate::rows::is_row;
use wire_schema::{Field, Template, Words};

/// Where it stands in a tree of fields: what records make of it, whether one of its variants does, and
/// how that is taken away.
pub(crate) const SPOT: [Template; 6] = [
    ("spot", "$module$-spot"),
    ("spot_step", "spot"),
    ("spot_of", "$module$"),
    ("spot_path", ""),
    ("spot_stands", "is_some"),
    ("spot_without", "no_variant"),
];

/// The same among fields that may leave records.
pub(crate) const LEAVING_SPOT: [Template; 2] = [
    (
        "spot",
        "(none_spot $module$-shape $module$-is_plain is_some no_variant\n    $spot$)",
    ),
    ("spot_step", "leaving"),
];

/// The same where a variant of its own may leave records.
pub(crate) const CLOSED_SPOT: [Template; 2] = [
    (
        "spot",
        "(here_leaving $table$ $module$-is_plain (λ n p. refl)\n    $set_part$)",
    ),
    ("spot_step", "leaving"),
];

/// The same in the first of a pair, and in the second.
pub(crate) const SPOT_IN_FIRST: [Template; 4] = [
    (
        "spot",
        "(first_$spot_step$ ($table$)\n    ($right_table$) $spot_of$-is_plain\n    \
        $spot_stands$ $spot_without$\n    $spot$)",
    ),
    ("spot_path", ".0$spot_path$"),
    ("spot_stands", "(λ m. is_some m$spot_path$)"),
    ("spot_without", "(in_first $spot_without$)"),
];

pub(crate) const SPOT_IN_SECOND: [Template; 4] = [
    (
        "spot",
        "(second_$spot_step$ ($table$)\n    ($right_table$) $spot_of$-is_plain\n    \
        $spot_stands$ $spot_without$\n    $spot$)",
    ),
    ("spot_path", ".1$spot_path$"),
    ("spot_stands", "(λ m. is_some m$spot_path$)"),
    ("spot_without", "(in_second $spot_without$)"),
];

/// Tells the page of a type with such a oneof where it stands in the leaf, which is this tree, and
/// which rows it has.
pub(crate) fn set_choice(page: &mut Words, fields: &[Field], tree: &Words) {
    page.copy(tree, &["spot", "spot_path", "spot_stands", "spot_without"]);
    page.fill_all(&[("choice_rows", ""), ("choice_plain", "")]);
    page.fill(
        "uses_of_beside",
        "Rattle.wire_fields.specs.NestTable as_it_was\n\
        Rattle.wire_fields.specs.NestTable as_they_were\n",
    );
    if page.get("choice").is_empty() {
        return;
    }
    page.fill("uses_of_beside", "");
    let mut row: usize = 0;
    for field in fields {
        if is_row(field) {
            if !field.words.get("choice_variant").is_empty() {
                page.index("row", row);
                let is_first = page.get("choice_rows").is_empty();
                page.fill(
                    "choice_rows",
                    if is_first {
                        "i == $row$"
                    } else {
                        "($choice_rows$) || (i == $row$)"
                    },
                );
            }
            row = row.saturating_add(1);
        } else if !field.words.get("in_choice").is_empty() {
            set_spot(page, &field.words);
        }
    }
}

// What a leaf without it is in: what one is in with it, but for this part.
fn set_spot(page: &mut Words, field: &Words) {
    page.set("choice_plain", "plain");
    page.set("spot_is", "tt");
    page.set("steps", ".0");
    page.append("steps", field.get("path"));
    let steps = page.take("steps");
    let mut rest: &str = &steps;
    for _ in 0..steps.len() {
        let Some((before, step)) = rest.rsplit_once('.') else {
            break;
        };
        page.set("before", before);
        if step == "0" {
            page.fill("spot_is", "($spot_is$, is$before$.1)");
        } else {
            page.fill("spot_is", "(is$before$.0, $spot_is$)");
        }
        rest = before;
    }
}
