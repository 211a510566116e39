//! The definitions of views: how one is seen by contracts, as the value of its message.
use crate::oneofs::put_values;
use crate::tree::Tree;
use wire_schema::{Field, Oneof, Template, Words};

// The longest row that stands on one line, with what begins the next.
const MOST_OF_ROW: usize = 96;

const USES: &str = "\
Rattle.wire_views.specs.Spans span_fields
Rattle.$crate$.specs.declared.$view_module$.$view_name$ $view_name$
";

const PART: &str = "\
abbrev pub $part_words$-view_value : $view_name$ → $part_value$
$part_words$-view_value m = $view_seen$

";

const VALUE: &str = "\
abbrev pub $module$-view_value : $view_name$ → $name$-Value
$module$-view_value m = (
$view_seen$,
  span_fields m.unknown.items,
)

";

const VALUE_OF_NONE: &str = "\
abbrev pub $module$-view_value : $view_name$ → $name$-Value
$module$-view_value m = span_fields m.unknown.items

";

/// Whether a type has a view, or a oneof.
pub fn has_view(words: &Words) -> bool {
    !words.get("view_name").is_empty()
}

/// Puts how the view of a message is seen, where it has one: the word `view_value`, and names that
/// are brought in.
pub(crate) fn define_view(page: &mut Words, fields: &[Field], tree: &Tree) {
    page.set("view_value", "");
    if !has_view(page) {
        return;
    }
    page.append_all(&[("uses", USES), ("view_value", "-- the same of its view\n")]);
    for field in fields {
        page.copy(&field.words, &["view_definitions"]);
        page.append_all(&[("uses", "$view_definitions$")]);
    }
    for part in &tree.parts {
        page.copy(&part.words, &["view_seen", "part_words", "part_value"]);
        page.append("view_value", PART);
    }
    page.copy(&tree.words, &["view_seen"]);
    page.indent("view_seen");
    page.append(
        "view_value",
        if fields.is_empty() {
            VALUE_OF_NONE
        } else {
            VALUE
        },
    );
}

const USES_OF_ROWS: &str = "\
Rattle.std.proofs.Common ◌≡◌
Rattle.std.proofs.Common refl
Rattle.std.specs.Prelude List
Rattle.std.specs.Prelude []
Rattle.std.specs.Prelude ◌∷◌
Rattle.wire_codec.specs.Records Records
Rattle.wire_codec.specs.Records of_fields
Rattle.wire_views.specs.Rows all_grouped
Rattle.wire_views.specs.Rows in_rows
Rattle.wire_views.specs.Rows single
";

const ROW: &str = "($table$).records$gap$($field$-of-$module$ m)\n    ∷ ";

const ROWS: &str = "
-- the records of each field, in the order in which they are written
abbrev pub $module$-rows : $name$-Value → List Records
$module$-rows m =
    $rows$of_fields $rest_of_value$
    ∷ []

pub $module$-in_rows : (m : $name$-Value) → in_rows ($module$-rows m) ≡ $module$-shape.records m
$module$-in_rows m =
    all_grouped $grouping$ ($module$-rows m) refl
";

/// Puts how the records of a message whose view is written are told row by row, the word
/// `view_rows`, and names that are brought in.
pub(crate) fn define_rows(page: &mut Words, fields: &[Field], tree: &Tree) {
    page.fill_all(&[("view_rows", ""), ("rows", "")]);
    if !has_view(page) || page.get("view_written").is_empty() {
        return;
    }
    page.append_all(&[("uses", USES_OF_ROWS)]);
    for field in fields {
        page.copy(&field.words, &["field", "table"]);
        page.set("gap", " ");
        page.fill("line", ROW);
        let is_short = page.get("line").len() <= MOST_OF_ROW;
        page.set("gap", if is_short { " " } else { "\n        " });
        page.append("rows", ROW);
    }
    page.copy(&tree.words, &["grouping"]);
    if fields.is_empty() {
        page.fill_all(&[("grouping", "single"), ("rest_of_value", "m")]);
    } else {
        page.append("uses", "Rattle.wire_views.specs.Rows paired\n");
        page.fill_all(&[
            ("grouping", "(paired $grouping$ single)"),
            ("rest_of_value", "m.1"),
        ]);
    }
    page.append("view_rows", ROWS);
}

const ONEOF_USES: &str = "\
Rattle.$crate$.specs.declared.$view_module$.$view_name$ $view_name$
";

// What its page brings in under another name.
const VARIANTS: &str = "\
use Rattle.$crate$.specs.declared.$view_module$.$view_name$.TheVariants as views
";

const ONE: &str = "\
-- the same of its view
abbrev pub $module$-view_one : $view_name$ → $name$-One
$view_ones$
";

const OF: &str = "\
abbrev pub $module$-view_of : Option $view_name$ → $name$-Value
$module$-view_of = option_map $module$-view_one

";

const OF_VARIANT: [Template; 2] = [
    (
        "view_ones",
        "$module$-view_one (views.$variant$ x) = $seen$\n",
    ),
    ("uses", "$view_definitions$"),
];

/// Puts how the view of a oneof is seen, where it has one: the words `view_one` and `view_of`, and
/// names that are brought in.
pub(crate) fn define_oneof_view(page: &mut Words, oneof: &Oneof) {
    page.fill_all(&[("view_one", ""), ("view_of", ""), ("view_variants", "")]);
    if !has_view(page) {
        return;
    }
    page.append_all(&[("uses", ONEOF_USES)]);
    let last = oneof.variants.len().saturating_sub(1);
    for (place, variant) in oneof.variants.iter().enumerate() {
        page.copy(
            variant,
            &["variant", "view_before", "view_behind", "view_definitions"],
        );
        page.fill_all(&[("before", "$view_before$"), ("behind", "$view_behind$")]);
        put_values(page, place, last);
        page.append_all(&OF_VARIANT);
    }
    page.fill_all(&[
        ("view_one", ONE),
        ("view_of", OF),
        ("view_variants", VARIANTS),
    ]);
}
