//! The definitions and the proofs of a message type that holds itself.
use crate::choice::{put_choice, set_row_path};
use crate::comments::set_heading;
use crate::definitions::put_field_range;
use crate::laws_pages::has_laws;
use crate::leaf::is_leaving;
use crate::members::MEMBER_USES;
use crate::mentioned::use_mentioned_of;
use crate::recursive_back::put_back;
use crate::required_tables::{NESTED, define_asked_rows};
use crate::rows::{USES_OF_NO_FIELDS, is_bare, is_row, place_of};
use crate::runs::{begin_part, end_part};
use crate::tree::Tree;
use crate::view_folds::define_view_fold;
use wire_schema::{Field, GenerateError, Template, Words};

const USES: &str = "\
Rattle.std.proofs.Common ap
Rattle.std.proofs.Common suc
Rattle.std.proofs.Common zero
Rattle.std.proofs.Common ◌≡◌
Rattle.std.specs.Prelude Bool
Rattle.std.specs.Prelude false
Rattle.std.specs.Prelude true
Rattle.std.specs.Prelude ◌==◌
Rattle.std.specs.Prelude ℕ
Rattle.wire_codec.specs.Folds IsSingle
Rattle.wire_codec.specs.Records Records
Rattle.wire_codec.specs.Records joined_records
Rattle.wire_codec.specs.Records none
Rattle.wire_codec.specs.TakingLaws OneReading
Rattle.wire_fields.specs.Nest boxed_row
Rattle.wire_fields.specs.Nest done
Rattle.wire_fields.specs.Nest nest
Rattle.wire_fields.specs.Nest row
Rattle.wire_fields.specs.Nest row_count
Rattle.wire_fields.specs.Nest row_of
$uses_of_beside$\
Rattle.wire_fields.specs.NestTable empty_of
Rattle.wire_fields.specs.NestTable if_number
Rattle.wire_fields.specs.NestTable nest_records
Rattle.wire_fields.specs.NestTable nest_single
Rattle.wire_fields.specs.NestTable nest_takes
Rattle.wire_fields.specs.Shape Lawful
Rattle.wire_fields.specs.Shape Shape
Rattle.wire_fields.specs.Shape known
Rattle.wire_fields.specs.Shape two
Rattle.$crate$.specs.declared.$module$.$name$ $name$
Rattle.$crate$.specs.declared.$module$.$name$ $name$-F
Rattle.$crate$.specs.declared.$module$.$name$ fold-$name$
Rattle.$crate$.specs.declared.$module$.$name$ fold_out-$name$
";

// (a message may be called as these are)
pub(crate) const ALIASES: &str = "\
use Rattle.wire_fields.specs.Nest as nests
use Rattle.wire_fields.specs.NestTable as tables
use Rattle.wire_fields.specs.declared.recursive.Place as place
use Rattle.wire_fields.specs.declared.recursive.Place.TheVariants as places
";

const KIND: &str = "\
abbrev pub $module$-$field$-kind : $sort$ $bracketed$
$module$-$field$-kind = $definition$

";

const WHAT: &str = "`$name$` as contracts see it, and its table: its leaf, and rows of messages of \
                    its own type.";

const HEAD: &str = "\
$heading$$imports$$aliases$$choice_aliases$$view_aliases$
$text$";

const TEXT: &str = "\
$kinds$abbrev pub $name$-Known : Type 0
$name$-Known =
    $value$

abbrev pub $name$-Leaf : Type 0
$name$-Leaf = $name$-Known × $leaf_kept$

abbrev pub $name$-Value : Type 0
$name$-Value = nests.Nest $name$-Leaf

$helds$-- one message, with values in the places of those that it holds
abbrev pub $module$-one : $name$-F$trees$ → $name$-Value
$module$-one m =
    nest (
$view$,
      $leaf_view$,
    )
    $row_views$

abbrev pub $module$-value : $name$ → $name$-Value
$module$-value = fold-$name$$trees$$ones$

$choice_folds$$view_one$$view_value$$view_rows$$leaf_groups$\
abbrev pub $module$-known : $leaf_part$ $name$-Known
$module$-known =
    $table$

abbrev pub $module$-leaf : Shape $name$-Leaf
$module$-leaf = $leaf_whole$

$run_parts$-- the records of the leaf before the first row, behind the first, and so on
abbrev pub $module$-run : ℕ → $name$-Leaf → Records
$runs$
abbrev pub $module$-number : ℕ → ℕ
$numbers$
abbrev pub $module$-once : ℕ → Bool
$onces$
abbrev pub $module$-place : ℕ → place.Place
$module$-place n = $places$

$choice_table$abbrev pub $module$-table : tables.Table $name$-Leaf
$module$-table = record {
  default = $module$-leaf.default;
  takes = $module$-leaf.takes;
  run = $module$-run;
  rows = $count$;
  number = $module$-number;
  once = $module$-once;
  place = $module$-place;
  beside = $beside$;
  rows_beside = $rows_beside$;
}

$choice_laws$pub $module$-counted : (m : $name$) → row_count ($module$-value m) ≡ $count$
$module$-counted m = ap row_count (fold_out-$name$$trees$$ones$ m)

pub $module$-single : OneReading → IsSingle (nest_takes $module$-table)
$module$-single reading = nest_single $module$-table reading ($module$-leaf.single reading)

abbrev pub $module$-shape : Shape $name$-Value
$module$-shape = record {
  owns = λ n p. true;
  default = empty_of $module$-table;
  records = nest_records $module$-table;
  takes = nest_takes $module$-table;
  single = $module$-single;
}
$asked_table$$back$";

/// The value of a message type that holds itself, and its table.
pub fn recursive_definitions(
    base: &Words,
    fields: &[Field],
    tree: &Tree,
) -> Result<String, GenerateError> {
    let mut page = table_page(base, fields, tree);
    page.fill("text", TEXT);
    use_mentioned_of(&mut page);
    page.set("aliases", ALIASES);
    if !page.get("requiring").is_empty() {
        page.append("aliases", NESTED);
    }
    set_heading(&mut page, "--", WHAT);
    page.fill("text", HEAD);
    page.finish("text")
}

/// The words of such a table, or of that of one type of a family.
pub fn table_page(base: &Words, fields: &[Field], tree: &Tree) -> Words {
    let mut page = Words::like(base);
    let is_member = !page.get("family_name").is_empty();
    page.fill("uses", if is_member { MEMBER_USES } else { USES });
    page.append(
        "uses",
        if is_bare(fields) {
            USES_OF_NO_FIELDS
        } else {
            ""
        },
    );
    page.append("uses", "$leaf_uses$");
    page.fill_all(&[("at", "zero"), ("at_least", "i")]);
    let mut count: usize = 0;
    for field in fields {
        page.copy(
            &field.words,
            &["field", "number", "bracketed", "definition"],
        );
        page.copy(&field.words, &["definitions", "table", "path"]);
        if is_row(field) {
            put_row_of(&mut page, &field.words, count);
            count = count.saturating_add(1);
        } else {
            put_of_leaf(&mut page, field);
        }
    }
    put_in_run(&mut page, "$left_records$");
    put_run(&mut page, "$at_least$");
    put_number(&mut page, "$least_before$");
    page.index("count", count);
    put_rows(&mut page, fields, count);
    put_choice(&mut page, fields);
    define_asked_rows(&mut page, fields);
    put_leaf_groups(&mut page, tree);
    if has_laws(base) {
        put_back(&mut page, fields, tree);
    }
    page.copy(&tree.words, &["value", "view", "table"]);
    for _ in 0..3 {
        page.indent("view");
    }
    define_view_fold(&mut page, fields, tree);
    page
}

// A row of the table, behind so many others.
fn put_row_of(page: &mut Words, words: &Words, count: usize) {
    put_run(page, "$at$");
    if count > 0 {
        put_number(page, "$at_before$");
    }
    let is_each = words.get("kind").starts_with("Each");
    page.set("of_row", words.get("number"));
    page.set("type_of_row", words.get("of_name"));
    page.set("is_once", if is_each { "false" } else { "true" });
    page.fill_all(&[("at_before", "$at$"), ("least_before", "$at_least$")]);
    page.fill_all(&[("at", "(suc $at$)"), ("at_least", "(suc $at_least$)")]);
}

// A field of the leaf.
fn put_of_leaf(page: &mut Words, field: &Field) {
    page.append("uses", "$definitions$");
    if field.oneof.is_none() || is_leaving(field) {
        page.copy(&field.words, &["own_range", "of_charged", "sort"]);
        page.append("kinds", KIND);
        if has_laws(page) && field.oneof.is_none() {
            put_field_range(page);
        }
    }
    put_field_in_run(page, &field.words);
}

fn put_leaf_groups(page: &mut Words, tree: &Tree) {
    page.set("leaf_groups", "");
    for group in &tree.parts {
        page.copy(
            &group.words,
            &["low", "high", "part_words", "value", "table"],
        );
        page.append("leaf_groups", LEAF_GROUP);
    }
}

// The fields of a group of the leaf.
const LEAF_GROUP: &str = "\
-- the fields $low$ to $high$
abbrev pub $part_words$ : $leaf_part$ $value$
$part_words$ =
    $table$

";

// Some fields of a run, which are a part by themselves.
const RUN_PART: &str = "\
-- the records of the fields $low$ to $high$
abbrev pub $module$-records-$low$-to-$high$ : $name$-Leaf → Records
$module$-records-$low$-to-$high$ l =
    $run$

";

// The field of a oneof of which some variants are rows.
const RUN_CHOICE: &str = "\
-- the records of the fields of `$choice$` that are of the leaf
abbrev pub $module$-records-$number$ : $name$-Leaf → Records
$module$-records-$number$ l = ($table$).records l.0$path$

";

// Puts the records of a field behind those of the run so far, or of the part that it stands in.
fn put_field_in_run(page: &mut Words, field: &Words) {
    if !field.get("in_part").is_empty() {
        begin_part(page);
    }
    put_in_run(page, "($table$).records l.0$path$");
    if !field.get("in_choice").is_empty() {
        page.append("run_parts", RUN_CHOICE);
    }
    if !field.get("high").is_empty() {
        page.copy(field, &["low", "high"]);
        page.append("run_parts", RUN_PART);
        end_part(page);
        put_in_run(page, "$module$-records-$low$-to-$high$ l");
    }
}

// Puts records behind those of the run so far.
fn put_in_run(page: &mut Words, part: &str) {
    page.fill("part", part);
    let is_first = page.get("run").is_empty();
    page.fill(
        "run",
        if is_first {
            "$part$"
        } else {
            "joined_records ($run$)\n    ($part$)"
        },
    );
}

// The line of a run that ends, which is the one here.
fn put_run(page: &mut Words, at: &str) {
    page.fill("here", at);
    if page.get("run").is_empty() {
        page.append("runs", "$module$-run $here$ l = none\n");
    } else {
        page.append("runs", "$module$-run $here$ l =\n    $run$\n");
    }
    page.set("run", "");
}

// The lines of a row's number, of whether it has one message at most, and of the type of these.
fn put_number(page: &mut Words, at: &str) {
    page.fill("here", at);
    page.append_all(&[
        ("numbers", "$module$-number $here$ = $of_row$\n"),
        ("onces", "$module$-once $here$ = $is_once$\n"),
        (
            "holds",
            "family-holds $name$-Sort $here$ = $type_of_row$-Sort\n",
        ),
    ]);
}

const OF_EACH: [Template; 2] = [
    ("here", "places.$row_place$ $row$ $size$"),
    ("row_view", "m.$field$.items"),
];

const OF_ONCE: [Template; 2] = [
    ("here", "places.$row_place$ $row$"),
    ("row_view", "(boxed_row m.$field$)"),
];

// Where records go, and the rows as they are seen, from the last one on.
fn put_rows(page: &mut Words, fields: &[Field], count: usize) {
    page.fill_all(&[("places", "places.Leaf"), ("row_views", "done")]);
    let mut row = count;
    for field in fields.iter().rev() {
        if is_row(field) {
            row = row.saturating_sub(1);
            page.index("row", row);
            page.copy(&field.words, &["field", "number", "size"]);
            let is_each = field.words.get("kind").starts_with("Each");
            page.set("row_place", place_of(field));
            page.fill_all(if is_each { &OF_EACH } else { &OF_ONCE });
            if !field.words.get("choice_variant").is_empty() {
                set_row_path(page, fields, field.words.get("number"));
                page.fill(
                    "row_view",
                    "(or_else $choice_module$-none m.$field$)$row_path$",
                );
            }
            page.fill_all(&[
                ("places", "if_number (n == $number$) ($here$) ($places$)"),
                ("row_views", "(row (row_of $row_view$) $row_views$)"),
            ]);
        }
    }
}
