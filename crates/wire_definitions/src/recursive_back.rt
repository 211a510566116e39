//! What is read back of a message that holds itself.
use crate::account::{ACCOUNT, put_account};
use crate::choice_laws::put_choice_laws;
use crate::leaf::charge_leaf;
use crate::members::MEMBER_RANGE;
use crate::returned::{put_returned, put_sides, under_charges};
use crate::rows::{NO_FIELDS_BACK, is_bare, is_row};
use crate::tree::Tree;
use wire_schema::{Field, Template, Words};

const USES: &str = "\
Rattle.std.specs.Prelude ◌<◌
Rattle.wire_codec.specs.FieldNumber IsFieldNumber
Rattle.wire_fields.specs.NestRange IsPlaceOf
Rattle.wire_fields.specs.NestRange followed
$back_uses_of_leaf$\
Rattle.wire_fields.specs.NestRange piece
Rattle.wire_fields.specs.NestRange same_order
";

const USES_ALONE: &str = "\
Rattle.wire_fields.specs.NestBack nest_returned
Rattle.wire_fields.specs.NestRange leaf_back
Rattle.wire_fields.specs.NestRange nest_range
Rattle.wire_fields.specs.NestRange table_back
Rattle.wire_fields.specs.NestRange runs_from
";

const RANGE: &str = "\
-- what is read back once it is written
abbrev pub $module$-range-of-known : Range $name$-Known
$module$-range-of-known =
    $range$

abbrev pub $module$-returned-of-known : Grounds → $leaf_returned$ $module$-known $module$-range-of-known
$module$-returned-of-known g =
    $returned$

pub $module$-row_numbers : Grounds → (i : ℕ) → i < $count$ → IsFieldNumber ($module$-number i)
$row_numbers$
pub $module$-row_places : (i : ℕ) → i < $count$
    → IsPlaceOf i ($module$-once i) ($module$-place ($module$-number i))
$row_places$
-- the runs, one behind another, are the records of the leaf
pub $module$-runs_in_order : (l : $name$-Leaf)
    → runs_from $module$-table l 0 (suc $count$) ≡ $module$-leaf.records l
$module$-runs_in_order l = same_order
    $run_pieces$
    (followed $leaf_pieces$(piece ($left_records$))) refl

";

// Where no row is a variant of a oneof: of a leaf that keeps what is no field's, and of others.
const PLAIN_RANGE: &str = "\
abbrev pub $module$-range : Range $name$-Value
$module$-range =
    nest_range $module$-table (leaf_range $module$-table $module$-known $module$-range-of-known)

pub $module$-returned : Grounds → Returned $module$-shape $module$-range
$module$-returned g =
    nest_returned g $module$-table (leaf_range $module$-table $module$-known $module$-range-of-known)
    ($module$-leaf.single g.reading)
    (leaf_back g $module$-table $module$-known $module$-range-of-known ($module$-returned-of-known g)
    refl refl $module$-runs_in_order (λ n h. $goes$)
    ($module$-row_numbers g) $module$-row_places (λ i m. refl) (λ n l rs. refl))
    $module$-shape refl refl refl (λ n p. refl)
";

const OTHER_RANGE: &str = "\
abbrev pub $module$-range : Range $name$-Value
$module$-range = nest_range $module$-table ($leaf_range$ $module$-range-of-known)

pub $module$-returned : Grounds → Returned $module$-shape $module$-range
$module$-returned g =
    nest_returned g $module$-table ($leaf_range$ $module$-range-of-known)
    ($module$-leaf.single g.reading)
    (table_back $module$-table ($leaf_range$ $module$-range-of-known)
    $module$-leaf.takes $module$-leaf.default $module$-leaf.records
    ($leaf_known_back$ $module$-range-of-known
    ($module$-returned-of-known g) (λ n h. $goes$))
    refl refl $module$-runs_in_order
    ($module$-row_numbers g) $module$-row_places (λ i m. refl) (λ n l rs. refl))
    $module$-shape refl refl refl (λ n p. refl)
";

// Where some rows are variants of a oneof.
const CHOICE_RANGE: &str = "\
abbrev pub $module$-range : Range $name$-Value
$module$-range =
    beside_range (alone $module$-table)
    (λ s. $leaf_range$ $module$-range-of-known)
    (λ s. one_stands $module$-choice) tt

pub $module$-returned : Grounds → Returned $module$-shape $module$-range
$module$-returned g =
    beside_returned g (alone $module$-table)
    (λ s. $leaf_range$ $module$-range-of-known)
    (λ s. one_stands $module$-choice) (λ s. $module$-leaf.single g.reading)
    (λ s. choice_back $module$-table
    ($leaf_range$ $module$-range-of-known) $module$-choice
    $module$-leaf.takes $module$-leaf.default $module$-leaf.records $module$-is_choice
    ($leaf_known_back$ $module$-range-of-known
    ($module$-returned-of-known g) (λ n h. $goes$))
    refl refl $module$-runs_in_order
    ($module$-row_numbers g) $module$-row_places (λ i m. refl) (λ n l rs. refl))
    tt $module$-shape refl refl refl (λ n p. refl)
";

// What is read back of a group of the leaf, and that its numbers go to no row.
const GROUP_RANGE: &str = "\
abbrev pub $part_words$-range : Range $value$
$part_words$-range =
    $range$

abbrev pub $part_words$-returned : Grounds → $leaf_returned$ $part_words$ $part_words$-range
$part_words$-returned g =
    $returned$

pub $part_words$-goes : (g : Grounds) (n : ℕ) → ($part_words$-returned g).Has n
    → GoesToLeaf $module$-table n
$part_words$-goes g n h =
    $goes$

";

const USES_OF_GROUP: &str = "\
Rattle.std.specs.Prelude ℕ
Rattle.wire_fields.specs.NestRange GoesToLeaf
";

const USES_CHOICE: &str = "\
Rattle.wire_fields.specs.ChoiceBack choice_back
Rattle.wire_fields.specs.ChoiceBack one_stands
Rattle.wire_fields.specs.NestBack beside_returned
Rattle.wire_fields.specs.NestRange beside_range
Rattle.wire_fields.specs.NestRange runs_from
Rattle.wire_fields.specs.NestTable alone
";

// What a member shows of its table.
const OF_TABLE: [Template; 5] = [
    ("leaf_back", "LeafBack"),
    ("stands_of", ""),
    ("stands_beside", "any_beside"),
    ("back_of_table", "table_back $module$-table $sum_range$"),
    ("law_of_choice", ""),
];

const OF_CHOICE: [Template; 5] = [
    ("leaf_back", "LeafBeside"),
    ("stands_of", " (one_stands $sum_choice$)"),
    ("stands_beside", "one_stands $sum_choice$"),
    (
        "back_of_table",
        "choice_back $module$-table $sum_range$ $sum_choice$",
    ),
    ("law_of_choice", "\n    $sum_is_choice$"),
];

const OF_ROW: [Template; 2] = [
    (
        "row_numbers",
        "$module$-row_numbers g $at$ low = g.number $number$ (omega arith) (omega arith)\n",
    ),
    (
        "row_places",
        "$module$-row_places $at$ low = (refl, refl)\n",
    ),
];

const OF_NO_ROW: [Template; 2] = [
    (
        "row_numbers",
        "$module$-row_numbers g $at_least$ low = absurd (omega (arith, low))\n",
    ),
    (
        "row_places",
        "$module$-row_places $at_least$ low = absurd (omega (arith, low))\n",
    ),
];

/// Puts what is read back behind the definitions of a message that holds itself.
pub(crate) fn put_back(page: &mut Words, fields: &[Field], tree: &Tree) {
    let is_alone = page.get("family_name").is_empty();
    charge_leaf(page, fields);
    begin_back(page);
    for field in fields {
        put_of_field(page, field);
    }
    if is_bare(fields) {
        page.append_all(&[
            ("uses", NO_FIELDS_BACK),
            ("leaf_pieces", "(piece none)\n    "),
        ]);
    }
    page.append_all(&OF_NO_ROW);
    put_piece(page, "(piece ($left_records$))");
    end_run(page);
    page.append("run_pieces", "$run_ends$");
    put_returned(page, fields, tree);
    if is_alone {
        put_sides(page, "apart");
    }
    for group in &tree.parts {
        page.copy(&group.words, &["part_words", "value", "range", "returned"]);
        page.copy(&group.words, &["goes"]);
        page.append_all(&[("ranges", GROUP_RANGE), ("uses", USES_OF_GROUP)]);
    }
    page.copy(&tree.words, &["range", "returned", "goes"]);
    put_account(page, fields);
    if is_alone && !page.get("charged").is_empty() {
        page.fill("left_here", "$left_charge$");
        page.append("back", ACCOUNT);
    }
    put_ranges(page);
    page.append("back", "\n$ranges$");
}

// What stands before the records of the fields.
fn begin_back(page: &mut Words) {
    let is_alone = page.get("family_name").is_empty();
    let is_choice = !page.get("choice").is_empty();
    page.append("uses", USES);
    page.append(
        "uses",
        match (is_alone, is_choice) {
            (true, true) => USES_CHOICE,
            (true, false) => USES_ALONE,
            (false, _) => "",
        },
    );
    page.fill_all(if is_choice { &OF_CHOICE } else { &OF_TABLE });
    put_choice_laws(page);
    page.fill_all(&[("at", "zero"), ("at_least", "i"), ("run_piece", "")]);
    page.fill_all(&[("run_ends", "(piece none)"), ("run_pieces", "")]);
    page.fill_all(&[("outer_piece", ""), ("leaf_pieces", "")]);
}

// The records of a field, which is a row or one of the leaf.
fn put_of_field(page: &mut Words, field: &Field) {
    page.copy(&field.words, &["number", "table", "path"]);
    if is_row(field) {
        page.append_all(&OF_ROW);
        page.fill_all(&[("at", "(suc $at$)"), ("at_least", "(suc $at_least$)")]);
        end_run(page);
    } else {
        put_field_piece(page, &field.words);
        put_leaf_piece(page);
    }
}

// Which values are read back.
fn put_ranges(page: &mut Words) {
    let is_alone = page.get("family_name").is_empty();
    page.append("ranges", if is_alone { RANGE } else { MEMBER_RANGE });
    if !is_alone {
        return;
    }
    let is_choice = !page.get("choice").is_empty();
    let is_plain = page.get("leaf_kind").is_empty();
    page.append(
        "ranges",
        match (is_choice, is_plain) {
            (true, _) => CHOICE_RANGE,
            (false, true) => PLAIN_RANGE,
            (false, false) => OTHER_RANGE,
        },
    );
    under_charges(page);
}

// Puts the records of a field behind those of the run so far, or of the part that it stands in.
fn put_field_piece(page: &mut Words, field: &Words) {
    let is_within = !page.get("outer_piece").is_empty();
    if !field.get("in_part").is_empty() && !is_within {
        page.fill_all(&[("outer_piece", "$run_piece$ "), ("run_piece", "")]);
    }
    put_piece(page, "(piece (($table$).records l.0$path$))");
    if !field.get("high").is_empty() {
        page.fill("whole_part", "$run_piece$");
        let outer = page.take("outer_piece");
        page.set("run_piece", outer.trim_end());
        put_piece(page, "$whole_part$");
    }
}

// Puts records behind those of the run so far.
fn put_piece(page: &mut Words, piece: &str) {
    page.fill("part", piece);
    let is_first = page.get("run_piece").is_empty();
    page.fill(
        "run_piece",
        if is_first {
            "$part$"
        } else {
            "(followed $run_piece$ $part$)"
        },
    );
}

fn end_run(page: &mut Words) {
    if page.get("run_piece").is_empty() {
        page.fill("run_piece", "(piece none)");
    }
    page.append("run_pieces", "(followed $run_piece$\n    ");
    page.append("run_ends", ")");
    page.set("run_piece", "");
}

// The records of a field in the tree of the leaf: a pair begins with a field whose path ends in a
// first part, and ends with one whose path ends in a second.
fn put_leaf_piece(page: &mut Words) {
    let begun = parts_at_end(page.get("path"), "0");
    let ended = parts_at_end(page.get("path"), "1");
    for _ in 0..begun {
        page.append("leaf_pieces", "(followed ");
    }
    page.append("leaf_pieces", "(piece (($table$).records l.0$path$))");
    for _ in 0..ended {
        page.append("leaf_pieces", ")");
    }
    page.append("leaf_pieces", "\n    ");
}

// How many of these parts are the end of a path.
fn parts_at_end(path: &str, part: &str) -> usize {
    let mut count: usize = 0;
    for step in path.split('.') {
        count = if step == part {
            count.saturating_add(1)
        } else {
            0
        };
    }
    count
}
