//! How the view of a message type that holds itself, or of one of several that hold one another, is
//! seen by contracts: as the value of the message.
use crate::choice_view::put_choice_view;
use crate::rows::is_row;
use crate::tree::Tree;
use crate::view_definitions::has_view;
use wire_schema::{Field, Template, Words};

const USES: &str = "\
Rattle.wire_views.specs.Spans span_fields
Rattle.$crate$.specs.declared.$view_module$.$view_name$ $view_name$
Rattle.$crate$.specs.declared.$view_module$.$view_name$ $view_name$-F
Rattle.$crate$.specs.declared.$view_module$.$view_name$ fold-$view_name$
";

// One view, with values in the places of those that it holds.
const ONE: &str = "\
-- the same of its view
abbrev pub $module$-view_one : $view_name$-F$view_trees$ → $tree$
$module$-view_one m =
    nest ($into_open$(
$view_seen$,
      span_fields m.unknown.items,
    )$into_close$)
    $row_views$

";

const ONE_OF_ALONE: &str = "\
-- the same of its view
abbrev pub $module$-view_one : $view_name$-F$view_trees$ → $tree$
$module$-view_one m =
    nest (
$view_seen$,
      span_fields m.unknown.items,
    )
    $row_views$

";

const VALUE: &str = "\
abbrev pub $module$-view_value : $view_name$ → $tree$
$module$-view_value = fold-$view_name$$view_trees$$view_ones$

";

// That a row of one message at most is seen alike whether the message is seen in it, or behind it.
const ROW: &str = "\
pub $module$-$field$-row : (m : $name$-F$types$) (x : Option (Box $of_name$ Global)) → m.$field$ ≡ x
    → boxed_row (map-$name$$types$$trees$$folded$ m).$field$
    ≡ map $of_module$-value (boxed_row x)
$module$-$field$-row m None e = rw e refl
$module$-$field$-row m (Some x) e = rw e refl

pub $module$-$field$-view_row : (m : $view_name$-F$view_types$) (x : Option (Box $of_view$ Global))
    → m.$field$ ≡ x
    → boxed_row (map-$view_name$$view_types$$view_trees$$view_values$ m).$field$
    ≡ map $of_module$-view_value (boxed_row x)
$module$-$field$-view_row m None e = rw e refl
$module$-$field$-view_row m (Some x) e = rw e refl

";

const USES_OF_ROW: &str = "\
Rattle.std.proofs.Common map
Rattle.std.proofs.Common refl
Rattle.std.specs.Prelude Box
Rattle.std.specs.Prelude None
Rattle.std.specs.Prelude Option
Rattle.std.specs.Prelude Some
Rattle.std.specs.declared.alloc.Global Global
Rattle.$crate$.specs.declared.$first_type$.TheFolds map-$name$
Rattle.$crate$.specs.declared.$view_first$.TheFolds map-$view_name$
";

// What one of a family adds to the page of all.
pub(crate) const OF_VIEWED: [Template; 5] = [
    ("view_defs", "$view_one$"),
    ("view_folds", "$view_value$"),
    ("view_laws", "$view_rows$"),
    (
        "view_sorts",
        "family-view-sort (views.$name$ m) = $name$-Sort\n",
    ),
    (
        "view_sums",
        "family-view-value (views.$name$ m) = $module$-view_value m\n",
    ),
];

/// What the page of all has of the enum of their views.
pub(crate) const FAMILY_OF_VIEWS: &str = "
-- the views as one type
abbrev pub family-view-sort : FamilyView → Family-Sorts
$view_sorts$
abbrev pub family-view-value : FamilyView → Family-Tree
$view_sums$";

pub(crate) const USES_OF_VIEWS: &str = "\
Rattle.$crate$.specs.declared.$family_view_module$.FamilyView FamilyView
";

pub(crate) const ALIAS_OF_VIEWS: &str = "\
use Rattle.$crate$.specs.declared.$family_view_module$.FamilyView.TheVariants as views
";

/// Puts how the view of such a type is seen, where it has one: the words `view_one`, `view_value`
/// and `view_rows`, and names that are brought in.
pub(crate) fn define_view_fold(page: &mut Words, fields: &[Field], tree: &Tree) {
    page.fill_all(&[("view_one", ""), ("view_value", ""), ("view_rows", "")]);
    page.set("view_aliases", "");
    if !has_view(page) {
        return;
    }
    page.append("uses", USES);
    page.copy(&tree.words, &["view_seen"]);
    for _ in 0..3 {
        page.indent("view_seen");
    }
    let is_alone = page.get("family_name").is_empty();
    page.fill("view_one", if is_alone { ONE_OF_ALONE } else { ONE });
    page.fill("view_value", VALUE);
    for field in fields {
        page.copy(
            &field.words,
            &[
                "field",
                "view_definitions",
                "of_name",
                "of_module",
                "of_view",
            ],
        );
        if !is_row(field) {
            page.append("uses", "$view_definitions$");
        } else if is_once(field) {
            page.append("view_rows", ROW);
            page.append("uses", USES_OF_ROW);
        }
    }
    put_choice_view(page, fields);
}

// Whether a row has one message at most, and is no variant of a oneof.
fn is_once(field: &Field) -> bool {
    let is_variant = !field.words.get("choice_variant").is_empty();
    !is_variant && !field.words.get("kind").starts_with("Each")
}
