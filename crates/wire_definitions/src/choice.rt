//! A oneof of which some variants are messages of the type itself or of its family: these are rows,
//! and the others a field of the leaf.
use crate::choice_names::set_opened;
use crate::oneofs::put_values;
use wire_schema::{Field, Oneof, Template, Words};

// The field of the leaf: how what its message holds is seen, and names that are brought in.
const OF_LEAF: [Template; 7] = [
    ("in_choice", "in_choice"),
    ("view", "(or_else $module$-none m.$field$).0"),
    ("view_seen", "(or_else $module$-none m.$field$).0"),
    (
        "definitions",
        "$specs$ $name$-Value\n$specs$ $module$-shape\nRattle.wire_fields.specs.Messages or_else\n\
        $all_closing_uses$",
    ),
    ("view_definitions", ""),
    ("code", ""),
    ("view_code", ""),
];

const OF_ROW: [Template; 2] = [("is_row", "is_row"), ("choice_variant", "$variant$")];

/// The row of a variant. The first of a oneof whose variants are all rows takes the oneof, and else it
/// stays a field of the leaf.
pub(crate) fn row_of(mut variant: Words, of: &Words, whole: &mut Option<Field>) -> Field {
    variant.fill_all(&OF_ROW);
    variant.copy(of, &["field"]);
    let is_group = variant.get("presence") == "AlwaysGroup";
    variant.fill(
        "kind",
        if is_group {
            "Group<$kind$>"
        } else {
            "Embedded<$kind$>"
        },
    );
    let mut oneof = None;
    if let Some(field) = whole {
        let is_bare = match &field.oneof {
            Some(oneof) => oneof.variants.is_empty(),
            None => false,
        };
        if is_bare {
            oneof = field.oneof.take();
        } else {
            field.words.fill_all(&OF_LEAF);
        }
    }
    if oneof.is_some() {
        *whole = None;
    }
    Field {
        words: variant,
        oneof,
    }
}

const USES: &str = "\
Rattle.std.specs.Prelude List
Rattle.std.specs.Prelude []
Rattle.std.specs.Prelude box_value
Rattle.std.specs.Prelude ◌∷◌
Rattle.std.specs.Prelude ◌==◌
Rattle.std.specs.Prelude ◌||◌
Rattle.wire_fields.specs.Messages or_else
Rattle.wire_fields.specs.NestChoice beside_row
Rattle.wire_fields.specs.NestChoice rows_beside_field
Rattle.$crate$.specs.declared.$choice_module$.$choice$ $choice$
Rattle.$crate$.specs.declared.$choice_module$.$choice$ $choice$-F
Rattle.$crate$.specs.declared.$choice_module$.$choice$ fold-$choice$
";

const USES_OF_PLAIN: &str = "\
Rattle.std.specs.Prelude None
Rattle.std.specs.Prelude Some
Rattle.std.specs.Prelude is_some
Rattle.std.proofs.Common inl
Rattle.std.proofs.Common inr
Rattle.wire_fields.specs.NestChoice in_first
Rattle.wire_fields.specs.NestChoice in_second
Rattle.wire_fields.specs.NestChoice no_variant
Rattle.$crate$.specs.$choice$ $choice$-Value
Rattle.$crate$.specs.$choice$ $choice_module$-is_plain
$variant_uses$";

const USES_OF_ROWS: &str = "\
Rattle.std.specs.Prelude ⊤
Rattle.wire_fields.specs.NestChoice rows_alone
";

const ALIAS: &str = "\
use Rattle.wire_fields.specs.NestChoice as choices
use Rattle.$crate$.specs.declared.$first_type$.TheOpen as $open$
";

const HELD_TYPE: &str = "\
-- `$choice$` as contracts see it: the variant that is of the leaf, and the messages of each row
abbrev pub $choice$-Held : Type 0
$choice$-Held = $plain_value$ × $rows_value$

abbrev pub $choice_module$-none : $choice$-Held
$choice_module$-none = ($plain_none$, $rows_none$)

";

const HELD_ONE: &str = "\
abbrev pub $choice_module$-one : $choice$-F$trees$ → $choice$-Held
$variant_lines$
";

const FOLD: &str = "\
abbrev pub $choice_module$-value : $choice$ → $choice$-Held
$choice_module$-value = fold-$choice$$trees$$ones$

";

// Where a variant is of a closed enum.
const HELD: &str = "\
abbrev pub $choice_module$-held : Option $choice$ → $choice$-Held
$choice_module$-held m = or_else $choice_module$-none (option_map $choice_module$-value m)

-- the messages of its rows that stay beside such a variant of the leaf
abbrev pub $choice_module$-beside : $plain_value$ → $rows_value$ → $rows_value$
$choice_module$-beside None rows = rows
$choice_module$-beside (Some x) rows = $rows_none$

";

const USES_OF_HELD: &str = "Rattle.std.specs.Prelude option_map\n";

const CHOICE: &str = "\
-- the oneof `$choice$`: its fields of the leaf, and its rows
abbrev pub $module$-choice : choices.Choice $name$-Leaf
$module$-choice = record {
  is_plain = $choice_module$-is_plain;
  is_row = λ i. $choice_rows$;
  stands = λ l. is_some l.0$spot_path$;
  without = in_first $spot_without$;
}

";

const ROWS_ALONE: &str = "\
-- the oneof `$choice$`, whose fields are all rows
abbrev pub $module$-choice : choices.Choice $name$-Leaf
$module$-choice = rows_alone (λ i. $choice_rows$)

";

/// The definitions of a type with such a oneof: the words `helds`, what stands before the value of
/// one message, `choice_folds` and `choice_table`.
pub(crate) fn put_choice(page: &mut Words, fields: &[Field]) {
    page.fill_all(&[("helds", ""), ("choice_folds", ""), ("choice_table", "")]);
    page.set("held_types", "");
    page.fill_all(&[("beside", "as_it_was"), ("rows_beside", "as_they_were")]);
    if page.get("choice").is_empty() {
        return;
    }
    set_rows_of(page, fields);
    let is_plain = !page.get("choice_plain").is_empty();
    let is_alone = page.get("family_name").is_empty();
    page.fill(
        "open",
        if is_alone {
            "$choice_module$_variants"
        } else {
            "variants"
        },
    );
    put_lines(page, fields);
    page.append("uses", USES);
    page.append(
        "uses",
        if is_plain {
            USES_OF_PLAIN
        } else {
            USES_OF_ROWS
        },
    );
    page.set("plain_none", if is_plain { "None" } else { "tt" });
    page.fill("plain_value", if is_plain { "$choice$-Value" } else { "⊤" });
    page.fill_all(&OF_CHOICE);
    page.fill("helds", if is_alone { "$held_types$" } else { "" });
    page.append("helds", HELD_ONE);
    if !page.get("closed_choice").is_empty() {
        page.append_all(&[("choice_folds", HELD), ("uses", USES_OF_HELD)]);
    }
    page.fill("choice_table", if is_plain { CHOICE } else { ROWS_ALONE });
}

const OF_CHOICE: [Template; 5] = [
    ("choice_aliases", ALIAS),
    ("held_types", HELD_TYPE),
    ("choice_folds", FOLD),
    ("beside", "beside_row $sum_choice$"),
    ("rows_beside", "rows_beside_field $sum_choice$"),
];

// A line of each variant.
fn put_lines(page: &mut Words, fields: &[Field]) {
    page.fill_all(&[("variant_lines", ""), ("variant_uses", "")]);
    page.set("closed_choice", "");
    for field in fields {
        if let Some(oneof) = &field.oneof {
            if !field.words.get("in_choice").is_empty() {
                put_plain_lines(page, oneof);
            }
        }
    }
    put_row_lines(page, fields);
}

// The type of the messages of all its rows, and none of them.
fn set_rows_of(page: &mut Words, fields: &[Field]) {
    page.fill_all(&[("rows_value", ""), ("rows_none", "")]);
    for field in fields.iter().rev() {
        if !field.words.get("choice_variant").is_empty() {
            let is_last = page.get("rows_value").is_empty();
            page.fill_all(if is_last {
                &[("rows_value", "(List $tree$)"), ("rows_none", "[]")]
            } else {
                &[
                    ("rows_value", "((List $tree$) × $rows_value$)"),
                    ("rows_none", "([], $rows_none$)"),
                ]
            });
        }
    }
}

// A line of each variant that is of the leaf.
fn put_plain_lines(page: &mut Words, oneof: &Oneof) {
    let last = oneof.variants.len().saturating_sub(1);
    for (place, variant) in oneof.variants.iter().enumerate() {
        page.copy(variant, &["variant", "before", "behind", "definitions"]);
        page.copy(variant, &["ghosts"]);
        page.append("closed_choice", variant.get("closed"));
        set_opened(page, variant.get("variant"));
        put_values(page, place, last);
        page.append(
            "variant_lines",
            "$choice_module$-one ($open$.$opened$ x) = (Some $seen$, $rows_none$)\n",
        );
        page.append("variant_uses", "$definitions$");
    }
}

// A line of each that is a row, and where the row's messages are: the word `row_path` of each.
fn put_row_lines(page: &mut Words, fields: &[Field]) {
    let is_plain = !page.get("choice_plain").is_empty();
    page.set("plain_of_row", if is_plain { "None" } else { "tt" });
    let mut count: usize = 0;
    for field in fields {
        if !field.words.get("choice_variant").is_empty() {
            count = count.saturating_add(1);
        }
    }
    let last = count.saturating_sub(1);
    let mut place: usize = 0;
    for field in fields {
        if !field.words.get("choice_variant").is_empty() {
            page.copy(&field.words, &["choice_variant"]);
            set_opened(page, field.words.get("choice_variant"));
            set_one_row(page, place, last);
            page.append(
                "variant_lines",
                "$choice_module$-one ($open$.$opened$ x) =\n    \
                ($plain_of_row$, $one_row$)\n",
            );
            place = place.saturating_add(1);
        }
    }
}

/// The messages of all rows, of which the one at this place has one.
pub(crate) fn set_one_row(page: &mut Words, place: usize, last: usize) {
    page.fill_all(&[("one_row", ""), ("here_row", "")]);
    for _ in 0..last.saturating_add(1) {
        // from the last on
        let behind = page.get("here_row").len();
        let at = last.saturating_sub(behind);
        page.append("here_row", ".");
        page.set(
            "items",
            if at == place {
                "(box_value x ∷ [])"
            } else {
                "[]"
            },
        );
        let is_last = page.get("one_row").is_empty();
        page.fill(
            "one_row",
            if is_last {
                "$items$"
            } else {
                "($items$, $one_row$)"
            },
        );
    }
}

/// Where the messages of a row are, of the rows of a oneof: the word `row_path`.
pub(crate) fn set_row_path(page: &mut Words, fields: &[Field], number: &str) {
    page.fill("row_path", ".1");
    let mut is_found = false;
    let mut is_behind = false;
    for field in fields {
        if !field.words.get("choice_variant").is_empty() {
            if is_found {
                is_behind = true;
            } else if field.words.get("number") == number {
                is_found = true;
            } else {
                page.append("row_path", ".1");
            }
        }
    }
    if is_behind {
        page.append("row_path", ".0");
    }
}
