//! What is shown of a oneof of which some variants are rows.
use wire_schema::{Template, Words};

/// Which rows may stand beside a leaf of a family, where some are variants of a oneof.
pub(crate) const STANDS: &str = "
-- which rows may stand beside a leaf
abbrev pub family-stands : Family-Sorts → Beside Family-Leaves
$leaf_stands$";

pub(crate) const USES_OF_STANDS: &str = "\
Rattle.wire_fields.specs.ChoiceBack choice_back
Rattle.wire_fields.specs.ChoiceBack one_stands
Rattle.wire_fields.specs.NestBack beside_returned
Rattle.wire_fields.specs.NestChoice first_choice
Rattle.wire_fields.specs.NestChoice second_choice
Rattle.wire_fields.specs.NestRange Beside
Rattle.wire_fields.specs.NestRange LeafBeside
Rattle.wire_fields.specs.NestRange any_beside
Rattle.wire_fields.specs.NestRange beside_range
Rattle.wire_fields.specs.ChoiceBack first_is_choice
Rattle.wire_fields.specs.ChoiceBack second_is_choice
";

const USES: &str = "\
Rattle.wire_fields.specs.ChoiceBack IsChoice
";

const USES_OF_PLAIN: &str = "\
Rattle.wire_fields.specs.ChoiceLeaving closed_set
Rattle.wire_fields.specs.ChoiceLeaving dropping_choice
Rattle.wire_fields.specs.ChoiceLeaving first_leaving
Rattle.wire_fields.specs.ChoiceLeaving here_leaving
Rattle.wire_fields.specs.ChoiceLeaving leaving_choice
Rattle.wire_fields.specs.ChoiceLeaving none_spot
Rattle.wire_fields.specs.ChoiceLeaving second_leaving
Rattle.wire_fields.specs.ChoiceSpot first_spot
Rattle.wire_fields.specs.ChoiceSpot leaf_choice
Rattle.wire_fields.specs.ChoiceSpot second_spot
Rattle.wire_fields.specs.Dropped dropped
Rattle.$crate$.specs.$choice$ $choice_module$-set
Rattle.$crate$.specs.$choice$ $choice_module$-spot
";

const USES_OF_ROWS: &str = "\
Rattle.wire_fields.specs.ChoiceBack alone_choice
";

const PLAIN: &str = "\
pub $module$-is_choice : IsChoice $module$-leaf.takes $module$-choice
$module$-is_choice =
    $choice_of_leaf$

";

// Of a leaf that keeps what is no field's, of one whose fields leave some of their own too, and of
// one that drops it.
const OF_KEEPING: [Template; 1] = [(
    "choice_of_leaf",
    "leaf_choice $module$-known $module$-choice
    (first_spot $module$-known unknown $choice_module$-is_plain
    $spot_stands$ $spot_without$ $spot$)",
)];

const OF_LEAVING: [Template; 1] = [(
    "choice_of_leaf",
    "leaving_choice $module$-known $module$-choice
    $spot_stands$ $spot_without$ $spot$ (λ m. refl) (λ m. refl)",
)];

const OF_DROPPING: [Template; 1] = [(
    "choice_of_leaf",
    "dropping_choice $module$-known $module$-choice
    (first_spot $module$-known dropped $choice_module$-is_plain
    $spot_stands$ $spot_without$ $spot$)",
)];

const ROWS_ALONE: &str = "\
pub $module$-is_choice : IsChoice $module$-leaf.takes $module$-choice
$module$-is_choice = alone_choice _ _

";

/// Puts it into the word `choice_laws`, where there is such a oneof.
pub(crate) fn put_choice_laws(page: &mut Words) {
    page.set("choice_laws", "");
    if page.get("choice").is_empty() {
        return;
    }
    let is_plain = !page.get("choice_plain").is_empty();
    page.append("uses", USES);
    page.append(
        "uses",
        if is_plain {
            USES_OF_PLAIN
        } else {
            USES_OF_ROWS
        },
    );
    page.fill_all(match page.get("leaf_kind") {
        "leaving" => &OF_LEAVING,
        "dropping" => &OF_DROPPING,
        _ => &OF_KEEPING,
    });
    page.fill("choice_laws", if is_plain { PLAIN } else { ROWS_ALONE });
}

/// What the variants of the leaf bring in.
pub(crate) const USES_OF_SPOT: &str = "\
Rattle.std.proofs.Common refl
Rattle.std.proofs.Common ◌≡◌
Rattle.std.proofs.Common ◌⊎◌
Rattle.std.specs.Prelude Bool
Rattle.std.specs.Prelude is_some
Rattle.std.specs.Prelude true
Rattle.std.specs.Prelude ℕ
Rattle.std.specs.Prelude ◌==◌
Rattle.std.specs.Prelude ◌||◌
Rattle.wire_fields.specs.ChoiceSpot either_sets
Rattle.wire_fields.specs.ChoiceSpot variant_sets
";

/// The numbers of the variants that are of the leaf.
pub(crate) const IS_PLAIN: &str = "
-- its field numbers
abbrev pub $module$-is_plain : ℕ → Bool
$module$-is_plain n = $is_plain$
";

// What records make of them.
const SPOT: &str = "
pub $module$-spot : Spot $module$-shape $module$-is_plain is_some no_variant
$module$-spot =
    here_spot $module$-records $all$ $module$-is_plain (λ n p. refl)
    $sets$
";

const ONE: [Template; 2] = [
    ("is_this", "(n == $digits$)"),
    (
        "sets_this",
        "(variant_sets $digits$ $definition$ $word$-of-$module$-as (λ x. Some $one$) (λ x. refl))",
    ),
];

const FIRST: [Template; 2] = [("is_plain", "$is_this$"), ("sets", "$sets_this$")];

const NEXT: [Template; 2] = [
    ("is_plain", "($is_plain$ || $is_this$)"),
    (
        "sets",
        "(either_sets $all$ $word$-of-$module$\n    $sets$\n    $sets_this$)",
    ),
];

const USES_OF_STANDING: &str = "\
Rattle.wire_fields.specs.ChoiceSpot Spot
Rattle.wire_fields.specs.ChoiceSpot here_spot
Rattle.wire_fields.specs.NestChoice no_variant
";

// The same where some are of closed enums, but for these.
const SET: &str = "
pub $module$-set : LeavesSet (leaving_none $module$-shape)
$module$-set =
    others_set $module$-records $all$
    $sets$
";

const USES_OF_SET: &str = "\
Rattle.wire_fields.specs.ChoiceLeaving LeavesSet
Rattle.wire_fields.specs.ChoiceLeaving others_set
Rattle.wire_fields.specs.Leaving leaving_none
";

/// Puts what records make of the variants of the leaf into the word `standing`.
pub(crate) fn put_standing(page: &mut Words, variants: &[Words]) {
    let is_closing = variants.iter().any(|it| !it.get("closed").is_empty());
    page.fill("standing", if is_closing { SET } else { SPOT });
    page.append(
        "uses",
        if is_closing {
            USES_OF_SET
        } else {
            USES_OF_STANDING
        },
    );
}

/// The variant at this place of those of the leaf.
pub(crate) fn put_spot(page: &mut Words, place: usize) {
    page.fill_all(&ONE);
    page.fill_all(if place == 0 { &FIRST } else { &NEXT });
}
