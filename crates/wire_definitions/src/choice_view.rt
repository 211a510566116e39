//! How the view of a oneof is seen by contracts of which some variants are messages of the type
//! itself or of its family.
use crate::choice::set_one_row;
use crate::choice_names::set_opened;
use crate::oneofs::put_values;
use wire_schema::{Field, Oneof, Words};

const USES: &str = "\
Rattle.std.proofs.Common refl
Rattle.std.specs.Prelude None
Rattle.std.specs.Prelude Option
Rattle.std.specs.Prelude Some
Rattle.std.specs.Prelude option_map
Rattle.$crate$.specs.declared.$choice_view_module$.$choice_view$ $choice_view$
Rattle.$crate$.specs.declared.$choice_view_module$.$choice_view$ $choice_view$-F
Rattle.$crate$.specs.declared.$choice_view_module$.$choice_view$ fold-$choice_view$
Rattle.$crate$.specs.declared.$first_type$.TheFolds map-$name$
Rattle.$crate$.specs.declared.$view_first$.TheFolds map-$view_name$
$variant_uses$";

const ALIAS: &str = "\
use Rattle.$crate$.specs.declared.$view_first$.TheOpen as view_variants
";

const ONE: &str = "\
-- the same of the view of the oneof
abbrev pub $choice_module$-view_one : $choice_view$-F$view_trees$ → $choice$-Held
$variant_lines$
$view_one$";

const VALUE: &str = "\
abbrev pub $choice_module$-view_value : $choice_view$ → $choice$-Held
$choice_module$-view_value = fold-$choice_view$$view_trees$$view_ones$

$view_held$$view_value$";

// Where a variant is of a closed enum.
const HELD: &str = "\
abbrev pub $choice_module$-view_held : Option $choice_view$ → $choice$-Held
$choice_module$-view_held m =
    or_else $choice_module$-none (option_map $choice_module$-view_value m)

";

// That what stands is seen alike whether the messages are seen in it, or behind it.
const LAWS: &str = "\
pub $module$-$field$-choice : (m : $name$-F$types$) (x : Option $choice$) → m.$field$ ≡ x
    → or_else $choice_module$-none (map-$name$$types$$trees$$folded$ m).$field$
    ≡ or_else $choice_module$-none (option_map $choice_module$-value x)
$module$-$field$-choice m None e = rw e refl
$module$-$field$-choice m (Some x) e = rw e refl

pub $module$-$field$-view_choice : (m : $view_name$-F$view_types$) (x : Option $choice_view$)
    → m.$field$ ≡ x
    → or_else $choice_module$-none
    (map-$view_name$$view_types$$view_trees$$view_values$ m).$field$
    ≡ or_else $choice_module$-none (option_map $choice_module$-view_value x)
$module$-$field$-view_choice m None e = rw e refl
$module$-$field$-view_choice m (Some x) e = rw e refl

";

/// Puts how the view of such a oneof is seen before how that of its message is, of these fields:
/// before the words `view_one` and `view_value`, and behind the word `view_rows`.
pub(crate) fn put_choice_view(page: &mut Words, fields: &[Field]) {
    if page.get("choice").is_empty() {
        return;
    }
    page.fill_all(&[("variant_lines", ""), ("variant_uses", "")]);
    for field in fields {
        if let (Some(oneof), false) = (&field.oneof, field.words.get("in_choice").is_empty()) {
            put_plain_lines(page, oneof);
        }
    }
    put_row_lines(page, fields);
    let is_closing = !page.get("closed_choice").is_empty();
    page.fill("view_held", if is_closing { HELD } else { "" });
    page.append("uses", USES);
    page.fill_all(&[
        ("view_one", ONE),
        ("view_value", VALUE),
        ("view_aliases", ALIAS),
    ]);
    page.append("view_rows", LAWS);
}

// A line of each variant that is of the leaf.
fn put_plain_lines(page: &mut Words, oneof: &Oneof) {
    let last = oneof.variants.len().saturating_sub(1);
    for (place, variant) in oneof.variants.iter().enumerate() {
        page.copy(variant, &["view_before", "view_behind", "view_definitions"]);
        page.fill_all(&[("before", "$view_before$"), ("behind", "$view_behind$")]);
        set_view_opened(page, variant.get("variant"));
        put_values(page, place, last);
        page.append(
            "variant_lines",
            "$choice_module$-view_one (view_variants.$opened$ x) = (Some $seen$, $rows_none$)\n",
        );
        page.append("variant_uses", "$view_definitions$");
    }
}

// A line of each that is a row.
fn put_row_lines(page: &mut Words, fields: &[Field]) {
    let rows = fields.iter().filter(|it| is_variant(it)).count();
    let last = rows.saturating_sub(1);
    for (place, field) in fields.iter().filter(|it| is_variant(it)).enumerate() {
        page.set("field", field.words.get("field"));
        set_view_opened(page, field.words.get("choice_variant"));
        set_one_row(page, place, last);
        page.append(
            "variant_lines",
            "$choice_module$-view_one (view_variants.$opened$ x) =\n    \
            ($plain_of_row$, $one_row$)\n",
        );
    }
}

// Whether a row is a variant of such a oneof.
fn is_variant(field: &&Field) -> bool {
    !field.words.get("choice_variant").is_empty()
}

// What a definition calls a variant of this name, where all enums of views of a family are taken
// together.
fn set_view_opened(page: &mut Words, name: &str) {
    set_opened(page, name);
    if page.get("opened") != name {
        page.set("opened", name);
        page.fill("opened", "$choice_view$::$opened$");
    }
}
