//! That what decoding leaves of messages that hold themselves or one another is in range.
use crate::comments::set_heading;
use crate::imports::definition_imports;
use crate::leaf::set_leaf_stays;
use crate::rows::is_row;
use crate::stays::{HOME, put_accounted_range, put_fields, put_names, stays_page};
use crate::tree::Tree;
use wire_schema::{Field, GenerateError, Template, Words};

// Of the leaf, of a type that holds itself and of one of several.
const OF_LEAF: &str = "
pub $module$-there : (n : ℕ) → IsThere $module$-table ($module$-place n)
$module$-there n = $theres$

$abbrev$pub $module$-stays-of-known : Grounds → $leaf_stays$
$module$-stays-of-known g =
    $stays$
";

// Of a oneof of which some variants are rows: such a row has one message at most, and what a leaf
// holds without the oneof is as what it holds with it.
const OF_CHOICE: &str = "
pub $module$-choice_rows : (i : ℕ) → $module$-choice.is_row i ≡ true → $module$-once i ≡ true
$choice_lines$
pub $module$-kept : (g : Grounds) (m : $name$-Leaf)
    → ($leaf_stay$ ($module$-stays-of-known g)).Is m
    → ($leaf_stay$ ($module$-stays-of-known g)).Is ($module$-choice.without m)
$module$-kept g m is = $kept$
";

const ALONE_WITH_CHOICE: &str = "$of_leaf$$of_choice$
pub $module$-stays : Grounds → Stays $module$-shape $accounted_range$
$module$-stays g =
    beside_stays g (alone $module$-table)
    (λ s. $leaf_range$ $known_range$)
    (λ s. one_stands $module$-choice)
    (λ s. choice_stays $module$-table $module$-choice $module$-is_choice
    ($leaf_stay$ ($module$-stays-of-known g)) ($module$-kept g)
    refl refl $runs_in_order$ $module$-there $module$-choice_rows (λ i m. refl) (λ n l rs. refl))
    tt $module$-shape refl refl refl
";

const MEMBER_WITH_CHOICE: &str = "$of_leaf$$of_choice$
pub $module$-leaf-stays : Grounds
    → LeafStays $module$-table (family-leaf-ranges$account$ $name$-Sort) (one_stands $sum_choice$)
$module$-leaf-stays g =
    choice_stays $module$-table $sum_choice$ $sum_is_choice$
    $sum_stay$
    $sum_kept$
    refl refl $runs_in_order$ $module$-there $module$-choice_rows (λ i m. refl) (λ n l rs. refl)
";

const ALONE: &str = "$of_leaf$
pub $module$-stays : Grounds → Stays $module$-shape $accounted_range$
$module$-stays g =
    nest_stays g $module$-table ($leaf_range$ $known_range$)
    (table_stays $module$-table ($leaf_stay$ ($module$-stays-of-known g))
    refl refl $runs_in_order$ $module$-there (λ i m. refl) (λ n l rs. refl))
    $module$-shape refl refl refl
";

const MEMBER: &str = "$of_leaf$
pub $module$-leaf-stays : Grounds
    → LeafStays $module$-table (family-leaf-ranges$account$ $name$-Sort) any_beside
$module$-leaf-stays g =
    table_stays $module$-table
    $sum_stay$
    refl refl $runs_in_order$ $module$-there (λ i m. refl) (λ n l rs. refl)
";

const WHAT: &str = "What decoding leaves of messages that hold one another is in range: $listed$.";

const FAMILY_PAGE: &str = "$heading$$imports$$text$";

const FAMILY: &str = "$leaves$
pub family-leaves-stay : Grounds → (s : Family-Sorts)
    → LeafStays (family-tables s) (family-leaf-ranges$account$ s) $stands_there$
$lines$
pub family-stays : Grounds → (s : Family-Sorts)
    → Stays (family-shapes s) (family-ranges$account$ s)
family-stays g s =
    beside_stays g family-all (family-leaf-ranges$account$) $stands_of_all$
    (family-leaves-stay g) s (family-shapes s) refl refl refl
";

const THERE: &str = "\
there_where $module$-table (n == $number$) _ _ (omega arith, refl)
    ($theres$)";

const FACE: &str = "
pub $module$-stays : Grounds → Stays $module$-shape $accounted_range$
$module$-stays g = family-stays g $name$-Sort
";

const NAMED: &str = "\
Rattle.std.proofs.Common zero
Rattle.std.proofs.Common suc
Rattle.std.proofs.Common ◌≡◌
Rattle.std.specs.Prelude true
Rattle.wire_fields.specs.ChoiceBack one_stands
Rattle.wire_fields.specs.ChoiceBack first_is_choice
Rattle.wire_fields.specs.ChoiceBack second_is_choice
Rattle.wire_fields.specs.ChoiceSpot tells_either
Rattle.wire_fields.specs.ChoiceSpot tells_one
Rattle.wire_fields.specs.ChoiceStays choice_stays
Rattle.wire_fields.specs.NestChoice first_choice
Rattle.wire_fields.specs.NestChoice second_choice
Rattle.wire_fields.specs.NestTable alone
Rattle.std.specs.Prelude ℕ
Rattle.std.specs.Prelude ◌==◌
Rattle.wire_fields.specs.NestRange any_beside
Rattle.wire_codec.specs.Charge payload_charge
Rattle.std.specs.Prelude []
Rattle.wire_fields.specs.LeavingLeaf charged_leaf_range
Rattle.wire_fields.specs.LeavingLeaf charged_leaf_stay
Rattle.wire_fields.specs.LeavingLeaf dropping_leaf_range
Rattle.wire_fields.specs.LeavingLeaf dropping_leaf_stay
Rattle.wire_fields.specs.LeavingLeaf leaving_leaf_range
Rattle.wire_fields.specs.LeavingLeaf leaving_leaf_stay
Rattle.wire_fields.specs.NestRange leaf_range
Rattle.wire_fields.specs.NestTable IsThere
Rattle.wire_fields.specs.NoFields no_fields_stay
Rattle.wire_fields.specs.Stays FieldsStay
Rattle.wire_fields.specs.Sums first_takes
Rattle.wire_fields.specs.Sums second_takes
Rattle.wire_fields.specs.StaysLeaf first_kept
Rattle.wire_fields.specs.StaysLeaf first_stay
Rattle.wire_fields.specs.StaysLeaf known_stay
Rattle.wire_fields.specs.StaysLeaf second_kept
Rattle.wire_fields.specs.StaysLeaf second_stay
Rattle.wire_fields.specs.StaysLeaf table_stays
Rattle.wire_fields.specs.StaysLeaf there_where
Rattle.wire_fields.specs.StaysLeaving LeavingStays
Rattle.wire_fields.specs.StaysMessages anywhere
Rattle.wire_fields.specs.StaysNest LeafStays
Rattle.wire_fields.specs.StaysNest beside_stays
Rattle.wire_fields.specs.StaysNest nest_stays
";

const NAMED_OF_LEAF: &str = "\
$home_specs$ $module$-choice
$home_specs$ $module$-is_choice
$home_specs$ $module$-known
$home_specs$ $module$-leaf
$home_specs$ $module$-once
$home_specs$ $name$-Leaf
$home_specs$ $module$-place
$home_specs$ $module$-range-of-known
$home_specs$ $module$-runs_in_order
$home_specs$ $module$-table
";

const NAMED_OF_FAMILY: &str = "\
$home_specs$ Family-Sorts
$home_specs$ $name$-Sort
$home_specs$ family-account
$home_specs$ family-all
$home_specs$ family-leaf-ranges
$home_specs$ family-ranges
$home_specs$ family-stands
$home_specs$ family-shapes
$home_specs$ family-tables
";

const NAMED_OF_FACE: &str = "\
Rattle.$crate$.specs.$family_name$ $name$-Sort
Rattle.$crate$.specs.$family_name$Stays family-stays
";

/// The page of a message that holds itself.
pub fn nest_stays(base: &Words, fields: &[Field], tree: &Tree) -> Result<String, GenerateError> {
    let mut page = Words::like(base);
    page.fill("home_specs", HOME);
    put_account_of(&mut page, "$module$-account");
    put_leaf(&mut page, fields, tree);
    put_accounted_range(&mut page);
    let is_choice = !page.get("choice").is_empty();
    page.fill("text", if is_choice { ALONE_WITH_CHOICE } else { ALONE });
    stays_page(&mut page)
}

/// Tells the page of the table of one of several types the proof of its leaf, the word `leaf_stays`.
pub fn put_leaf_stays(page: &mut Words, fields: &[Field], tree: &Tree) {
    page.fill("home_specs", "Rattle.$crate$.specs.$family_name$");
    put_account_of(page, "family-account");
    put_leaf(page, fields, tree);
    page.append("named", NAMED_OF_FAMILY);
    let is_choice = !page.get("choice").is_empty();
    page.fill(
        "leaf_stays",
        if is_choice {
            MEMBER_WITH_CHOICE
        } else {
            MEMBER
        },
    );
}

/// The page of all of them, of which each has a page of a table.
pub fn family_stays(base: &Words, members: &[Words]) -> Result<String, GenerateError> {
    let mut page = Words::like(base);
    put_account_of(&mut page, "family-account");
    page.set("leaves", "");
    for member in members {
        page.copy(member, &["name", "module", "leaf_stays", "named"]);
        page.append_all(&OF_MEMBER);
        let is_first = page.get("listed").is_empty();
        page.append("listed", if is_first { "`$name$`" } else { ", `$name$`" });
    }
    page.fill("named", "$all_named$");
    let is_choice = !page.get("has_choice").is_empty();
    page.fill_all(if is_choice {
        &OF_CHOICES
    } else {
        &OF_NO_CHOICES
    });
    page.fill("text", FAMILY);
    put_names(&mut page);
    definition_imports(&mut page);
    set_heading(&mut page, "--", WHAT);
    page.fill("text", FAMILY_PAGE);
    page.finish("text")
}

const OF_CHOICES: [Template; 2] = [
    ("stands_there", "(family-stands s)"),
    ("stands_of_all", "family-stands"),
];

const OF_NO_CHOICES: [Template; 2] = [
    ("stands_there", "any_beside"),
    ("stands_of_all", "(λ s. any_beside)"),
];

const OF_MEMBER: [Template; 3] = [
    ("leaves", "$leaf_stays$"),
    ("all_named", "$named$"),
    (
        "lines",
        "family-leaves-stay g $name$-Sort = $module$-leaf-stays g\n",
    ),
];

/// The page of one of them.
pub fn member_stays(base: &Words) -> Result<String, GenerateError> {
    let mut page = Words::like(base);
    put_accounted_range(&mut page);
    page.append("named", NAMED_OF_FACE);
    page.fill("text", FACE);
    stays_page(&mut page)
}

// What is said of an account where one is asked for: as an argument, and of the order of the runs.
fn put_account_of(page: &mut Words, account: &'static str) {
    let is_charged = !page.get("charged").is_empty();
    page.set("account", "");
    page.fill("account_of", account);
    if is_charged {
        page.fill("account", account);
        page.fill("account", " $account$");
    }
    page.fill_all(&[
        ("known_range", "$module$-range-of-known$account$"),
        ("runs_in_order", "$module$-runs_in_order$account$"),
    ]);
    if is_charged {
        page.fill_all(&[
            ("known_range", "($known_range$)"),
            ("runs_in_order", "($runs_in_order$)"),
        ]);
    }
}

// The words of a leaf.
fn put_leaf(page: &mut Words, fields: &[Field], tree: &Tree) {
    page.append("named", NAMED);
    page.append("named", NAMED_OF_LEAF);
    put_fields(page, fields, tree);
    page.set("theres", "tt");
    for field in fields.iter().rev() {
        if is_row(field) {
            page.copy(&field.words, &["number"]);
            page.fill("theres", THERE);
        }
    }
    let is_choice = !page.get("choice").is_empty();
    set_leaf_stays(page);
    page.set("abbrev", if is_choice { "abbrev " } else { "" });
    page.fill("of_leaf", OF_LEAF);
    put_choice_rows(page, fields);
}

// That a row which none has is none of the oneof.
const FIRST_ROW: [Template; 2] = [
    ("row_tells", "tells_one $at_least$ $row$"),
    ("row_told", "absurd (omega (arith, h))"),
];

const NEXT_ROW: [Template; 2] = [
    (
        "row_tells",
        "tells_either _ _ ($row_tells$) (tells_one $at_least$ $row$)",
    ),
    (
        "row_told",
        "elim h [ inl h ↦ $row_told$ | inr h ↦ absurd (omega (arith, h)) ]",
    ),
];

fn put_told(page: &mut Words, fields: &[Field]) {
    page.fill_all(&[("row_tells", ""), ("row_told", "")]);
    let mut row: usize = 0;
    for field in fields {
        if !field.words.get("choice_variant").is_empty() {
            page.index("row", row);
            let is_first = page.get("row_tells").is_empty();
            page.fill_all(if is_first { &FIRST_ROW } else { &NEXT_ROW });
        }
        if is_row(field) {
            row = row.saturating_add(1);
        }
    }
}

// The rows of a oneof have one message at most.
fn put_choice_rows(page: &mut Words, fields: &[Field]) {
    page.set("of_choice", "");
    if page.get("choice").is_empty() {
        return;
    }
    page.fill_all(&[("at", "zero"), ("at_least", "i"), ("choice_lines", "")]);
    for field in fields {
        if is_row(field) {
            let is_each = field.words.get("kind").starts_with("Each");
            page.set("is_once", if is_each { "own" } else { "refl" });
            page.append(
                "choice_lines",
                "$module$-choice_rows $at$ own = $is_once$\n",
            );
            page.fill_all(&[("at", "(suc $at$)"), ("at_least", "(suc $at_least$)")]);
        }
    }
    put_told(page, fields);
    page.append(
        "choice_lines",
        if page.get("is_once") == "refl" {
            "$module$-choice_rows $at_least$ own = refl\n"
        } else {
            "$module$-choice_rows $at_least$ own =\n    let h = $row_tells$ own in\n    $row_told$\n"
        },
    );
    let is_plain = !page.get("choice_plain").is_empty();
    page.fill("kept", if is_plain { "$spot_is$" } else { "is" });
    page.fill("of_choice", OF_CHOICE);
}
