//! The definitions and the proofs of one of several message types that hold one another.
use crate::comments::set_heading;
use crate::imports::definition_imports;
use crate::laws_pages::has_laws;
use crate::returned::{under_charges, use_charges};
use crate::view_definitions::has_view;
use wire_schema::{GenerateError, Words};

/// What the definitions of one of them bring in.
pub(crate) const MEMBER_USES: &str = "\
Rattle.$crate$.specs.declared.$module$.$name$ $name$
Rattle.$crate$.specs.declared.$module$.$name$ $name$-F
Rattle.$crate$.specs.declared.$module$.$name$ fold-$name$
Rattle.$crate$.specs.declared.$module$.$name$ fold_out-$name$
$uses_of_beside$";

/// What is read back of one of them.
pub(crate) const MEMBER_RANGE: &str = "\
-- what is read back once it is written
abbrev pub $module$-range-of-known : Range $name$-Known
$module$-range-of-known =
    $range$

abbrev pub $module$-returned-of-known : Grounds → $leaf_returned$ $module$-known $module$-range-of-known
$module$-returned-of-known g =
    $returned$

pub $module$-row_numbers : Grounds → (i : ℕ) → i < $count$ → IsFieldNumber ($module$-number i)
$row_numbers$
pub $module$-row_places : (i : ℕ) → i < $count$
    → IsPlaceOf i ($module$-once i) ($module$-place ($module$-number i))
$row_places$
-- the runs, one behind another, are the records of the leaf
pub $module$-runs_in_order : (l : Family-Leaves) → all_runs $module$-table l ≡ $sum_records$ l
$other_patterns$$module$-runs_in_order $pattern$ = same_order
    $run_pieces$
    (followed $leaf_pieces$(piece ($left_records$))) refl

abbrev pub $module$-range-of-leaf : Range $name$-Leaf
$module$-range-of-leaf = $leaf_range$ $module$-range-of-known

pub $module$-known-back : (g : Grounds)
    → IsReadBack $module$-leaf.takes $module$-leaf.default $module$-leaf.records
    (GoesToLeaf $module$-table) $module$-range-of-leaf
$module$-known-back g =
    $leaf_known_back$ $module$-range-of-known
    ($module$-returned-of-known g) (λ n h. $goes$)

pub $module$-back : Grounds → $leaf_back$ $module$-table $sum_range$$stands_of$
$module$-back g =
    $back_of_table$ $sum_takes$
    $sum_start$ $sum_records$$law_of_choice$
    $sum_back$
    refl refl $module$-runs_in_order ($module$-row_numbers g) $module$-row_places (λ i m. refl)
    (λ n l rs. refl)
";

const WHAT: &str = "`$name$` as contracts see it, which is one of the types of `$family_name$`.";

const FACE: &str = "\
$heading$$imports$use Rattle.$crate$.specs.$family_name$ as family

abbrev pub $name$-Value : Type 0
$name$-Value = family.Family-Tree

abbrev pub $module$-value : $name$ → $name$-Value
$module$-value = family.$module$-value

$face_view$abbrev pub $module$-shape : Shape $name$-Value
$module$-shape = family.family-shapes family.$name$-Sort
$face_missing$$back$";

const FACE_VIEW: &str = "\
-- the same of its view
abbrev pub $module$-view_value : $view_name$ → $name$-Value
$module$-view_value = family.$module$-view_value

";

const FACE_MISSING: &str = "
-- the first required field that is not there
abbrev pub $module$-missing : $name$-Value → Missing
$module$-missing = family.family-missing family.$name$-Sort
";

const FACE_OF_BACK: &str = "\
abbrev pub $module$-range : Range $name$-Value
$module$-range = family.family-ranges$charges$ family.$name$-Sort

pub $module$-returned : Grounds → Returned $module$-shape $module$-range
$module$-returned g = family.family-returned$charges$ g family.$name$-Sort
";

const FACE_ACCOUNT: &str = "
-- what each record is charged that is left
abbrev pub $module$-account : List ℕ → ℕ → Payload → Charge
$module$-account = family.family-account
";

const FACE_USES: &str = "\
Rattle.wire_fields.specs.Shape Shape
Rattle.$crate$.specs.declared.$module$.$name$ $name$
";

const FACE_USES_OF_VIEW: &str = "\
Rattle.$crate$.specs.declared.$view_module$.$view_name$ $view_name$
";

const FACE_USES_OF_BACK: &str = "\
Rattle.wire_fields.specs.Grounds Grounds
Rattle.wire_fields.specs.Ranges Range
Rattle.wire_fields.specs.Returned Returned
";

/// The page of one of them.
pub fn member_definitions(base: &Words) -> Result<String, GenerateError> {
    let mut page = Words::like(base);
    let is_read_back = has_laws(base);
    page.fill("uses", FACE_USES);
    page.fill("face_view", if has_view(base) { FACE_VIEW } else { "" });
    page.append(
        "uses",
        if has_view(base) {
            FACE_USES_OF_VIEW
        } else {
            ""
        },
    );
    if !page.get("requiring").is_empty() {
        page.append("uses", "Rattle.wire_required.specs.Missing Missing\n");
        page.fill("face_missing", FACE_MISSING);
    }
    if is_read_back {
        let is_charged = !page.get("charged").is_empty();
        page.set("charges", if is_charged { " charges" } else { "" });
        page.append("uses", FACE_USES_OF_BACK);
        use_charges(&mut page);
        page.fill("ranges", FACE_OF_BACK);
        under_charges(&mut page);
        page.fill("back", if is_charged { FACE_ACCOUNT } else { "" });
        page.append("back", "\n$ranges$");
    }
    definition_imports(&mut page);
    set_heading(&mut page, "--", WHAT);
    page.fill("text", FACE);
    page.finish("text")
}

pub const MEMBER_ROW_HEAD: &str = "\
use Rattle.std.proofs.Common.{◌∙◌, ap, map, sym}
use Rattle.wire_fields.specs.Nest.{listed_row}
use Rattle.$crate$.specs.$family_name$ as family
use Rattle.$crate$.specs.declared.$module$.$name$.{fold_out-$name$}
use Rattle.$crate$.proofs.$module$.$name$.row.Goals as goal
";

pub const MEMBER_ROW: &str = "
pub returns-in-$row$-clause-messages : goal.returns-in-$row$-clause-messages
returns-in-$row$-clause-messages c =
    rw (c.in-$row$.is, fold_out-$name$$their_trees$$their_ones$ c.args.self.now)
    (ap (map family.$of_module$-value) $call$.ensures.value ∙ sym (listed_row _))
";

pub const MEMBER_PUSH_HEAD: &str = "\
use Rattle.std.proofs.Common.{$common$}
use Rattle.std.proofs.lemmas.Result.{on_ok_weaker}
use Rattle.wire_fields.specs.Nest.{listed_row, row_pushed}
use Rattle.$crate$.specs.$family_name$ as family
$type_uses$\
use Rattle.$crate$.specs.declared.$module$.$name$.{out-$name$, fold_out-$name$}
use Rattle.$crate$.specs.declared.$first_type$.TheFolds.{fold-roll-$name$}
use Rattle.$crate$.specs.declared.$first_type$.TheFolds.{map-$name$}
use Rattle.$crate$.proofs.$module$.$name$RecursiveMemberFamilyHeld.push.Goals as goal
";

pub const MEMBER_PUSH: &str = "
pub returns-in-$arm_name$-clause-ok : goal.returns-in-$arm_name$-clause-ok
returns-in-$arm_name$-clause-ok c =
    λ here many kind. on_ok_weaker $call$.result (λ pushed. rw (
      $arm_is$,
      fold_out-$name$$their_trees$$their_ones$ c.args.self.now,
    ) (fold-roll-$name$$their_trees$$their_ones$ _
    ∙ row_pushed family.$of_module$-value $row$
    (family.$module$-one (map-$name$$types$$their_trees$$their_values$
    (out-$name$ c.args.self.now)))
    _ _ c.in-$arm_name$.message (listed_row _) pushed)) $call$.ensures.ok
";

pub const MEMBER_MERGE: &str = "\
use Rattle.std.proofs.Common.{sym}
use Rattle.$crate$.proofs.$module$.$name$MessageFields.merge_field.Goals as goal

pub returns-in-$name$-clause-err : goal.returns-in-$name$-clause-err
returns-in-$name$-clause-err g c =
    rw (sym c.replace.ensures.value) c.merge_held-merged.ensures.err
";

/// The same of one of many fields: what a record makes of it too.
pub const MEMBER_MERGE_OF_MANY: &str = "
pub returns-in-$name$-clause-ok : goal.returns-in-$name$-clause-ok
returns-in-$name$-clause-ok g c =
    rw (sym c.replace.ensures.value) (rw c.in-$name$.is at c.merge_held-merged.ensures.ok)
";
