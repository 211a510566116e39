//! The definitions of message types that hold one another, on a page of all of them.
use crate::account::{FAMILY_ACCOUNT, MEMBER_ACCOUNT, OWN_ACCOUNT};
use crate::choice_laws::{STANDS, USES_OF_STANDS};
use crate::comments::set_heading;
use crate::laws_pages::has_laws;
use crate::mentioned::use_mentioned_of;
use crate::recursion::ALIASES;
use crate::required_tables::{ASKED, NESTED, OF_ASKED};
use crate::returned::under_charges;
use crate::view_definitions::has_view;
use crate::view_folds::{ALIAS_OF_VIEWS, FAMILY_OF_VIEWS, OF_VIEWED, USES_OF_VIEWS};
use wire_schema::{GenerateError, Template, Words};

const USES: &str = "\
Rattle.std.proofs.Common List
Rattle.std.proofs.Common ap
Rattle.std.proofs.Common inl
Rattle.std.proofs.Common inr
Rattle.std.proofs.Common map
Rattle.std.proofs.Common suc
Rattle.std.proofs.Common zero
Rattle.std.proofs.Common ◌≡◌
Rattle.std.proofs.Common ◌⊎◌
Rattle.std.specs.Prelude Bool
Rattle.std.specs.Prelude false
Rattle.std.specs.Prelude true
Rattle.std.specs.Prelude ◌==◌
Rattle.std.specs.Prelude ℕ
Rattle.wire_codec.specs.Folds IsSingle
Rattle.wire_codec.specs.Records Records
Rattle.wire_codec.specs.Records joined_records
Rattle.wire_codec.specs.Records none
Rattle.wire_codec.specs.TakingLaws OneReading
Rattle.wire_fields.specs.Nest boxed_row
Rattle.wire_fields.specs.Nest done
Rattle.wire_fields.specs.Nest nest
Rattle.wire_fields.specs.Nest row
Rattle.wire_fields.specs.Nest row_count
Rattle.wire_fields.specs.Nest row_of
Rattle.wire_fields.specs.NestTable all_counted
Rattle.wire_fields.specs.NestTable empty_of
Rattle.wire_fields.specs.NestTable family_records
Rattle.wire_fields.specs.NestTable family_single
Rattle.wire_fields.specs.NestTable family_takes
Rattle.wire_fields.specs.NestTable if_number
Rattle.wire_fields.specs.NestTable message_at
Rattle.wire_fields.specs.Shape Lawful
Rattle.wire_fields.specs.Shape Shape
Rattle.wire_fields.specs.Shape known
Rattle.wire_fields.specs.Shape two
Rattle.wire_fields.specs.Sums first_single
Rattle.wire_fields.specs.Sums first_takes
Rattle.wire_fields.specs.Sums of_first
Rattle.wire_fields.specs.Sums of_second
Rattle.wire_fields.specs.Sums second_single
Rattle.wire_fields.specs.Sums second_takes
Rattle.$crate$.specs.declared.$family_module$.FamilyHeld FamilyHeld
Rattle.$crate$.specs.declared.$family_module$.FamilySlice FamilySlice
";

const USES_OF_BACK: &str = "\
Rattle.wire_fields.specs.NestBack family_returned
Rattle.wire_fields.specs.NestRange GoesToLeaf
Rattle.wire_fields.specs.NestRange IsReadBack
Rattle.wire_fields.specs.NestRange LeafBack
Rattle.wire_fields.specs.NestRange all_runs
Rattle.wire_fields.specs.NestRange family_range
Rattle.wire_fields.specs.NestRange table_back
Rattle.wire_fields.specs.Sums first_back
Rattle.wire_fields.specs.Sums first_range
Rattle.wire_fields.specs.Sums second_back
Rattle.wire_fields.specs.Sums second_range
";

const MORE_ALIASES: &str = "\
use Rattle.$crate$.specs.declared.$family_module$.FamilyHeld.TheVariants as held
use Rattle.$crate$.specs.declared.$family_module$.FamilySlice.TheVariants as slices
";

const WHAT: &str =
    "Messages that hold one another, as contracts see them, and their tables: $listed$.";

const HEAD: &str = "\
$heading$$imports$$aliases$$choice_aliases$$view_aliases$
$text$";

const TEXT: &str = "\
-- which of them a message is
pub data Family-Sorts : Type 0 where
$sorts$
$leaves$abbrev pub Family-Leaves : Type 0
Family-Leaves = $sum$

abbrev pub Family-Tree : Type 0
Family-Tree = nests.Nest Family-Leaves

$held_types$$values$$folds$$view_defs$$view_folds$$view_laws$$tables$abbrev pub family-tables : Family-Sorts → tables.Table Family-Leaves
$table_lines$
-- of which type the messages of a row are
abbrev pub family-holds : Family-Sorts → ℕ → Family-Sorts
$all_holds$
abbrev pub family-all : tables.Family Family-Sorts Family-Leaves
family-all = record { table = family-tables; holds = family-holds }

$counted$pub family-singles : OneReading → (s : Family-Sorts) → IsSingle (family-tables s).takes
$singles$
pub family-single-takes : OneReading → (s : Family-Sorts) → IsSingle (family_takes family-all s)
family-single-takes reading = family_single family-all reading (family-singles reading)

abbrev pub family-shapes : Family-Sorts → Shape Family-Tree
family-shapes s = record {
  owns = λ n p. true;
  default = empty_of (family-tables s);
  records = family_records family-all s;
  takes = family_takes family-all s;
  single = λ reading. family-single-takes reading s;
}

-- as one type
abbrev pub family-held-sort : FamilyHeld → Family-Sorts
$held_sorts$
abbrev pub family-held-value : FamilyHeld → Family-Tree
$held_values$$family_of_views$
abbrev pub family-slice-sort : FamilySlice → Family-Sorts
$slice_sorts$
abbrev pub family-slice-values : FamilySlice → List Family-Tree
$slice_values$
pub family-slice-counted : (ms : FamilySlice) (i : ℕ)
    → row_count (message_at (family-tables (family-slice-sort ms)) (family-slice-values ms) i)
    ≡ (family-tables (family-slice-sort ms)).rows
$slice_counted$$asked_of_all$$stands_lines$$backs$";

const BACK: &str = "
abbrev pub family-leaf-ranges : Family-Sorts → Range Family-Leaves
$leaf_ranges$
abbrev pub family-ranges : Family-Sorts → Range Family-Tree
family-ranges = $range_of_all$

pub family-leaves-back : Grounds → (s : Family-Sorts)
    → $leaf_back$ (family-tables s) (family-leaf-ranges s)$stands_there$
$leaves_back$
pub family-returned : Grounds → (s : Family-Sorts) → Returned (family-shapes s) (family-ranges s)
family-returned g s =
    $returned_of_all$ (family-singles g.reading)
    (family-leaves-back g) s (family-shapes s) refl refl refl (λ n p. refl)
";

const OF_MEMBER: [Template; 16] = [
    ("held_types", "$held_types$"),
    ("sorts", "  $name$-Sort : Family-Sorts\n"),
    (
        "leaves",
        "$kinds$abbrev pub $name$-Known : Type 0
$name$-Known =
    $value$

abbrev pub $name$-Leaf : Type 0
$name$-Leaf = $name$-Known × $leaf_kept$

",
    ),
    (
        "values",
        "$helds$-- one message, with values in the places of those that it holds
abbrev pub $module$-one : $name$-F$trees$ → Family-Tree
$module$-one m =
    nest ($into_open$(
$view$,
      $leaf_view$,
    )$into_close$)
    $row_views$

",
    ),
    (
        "folds",
        "$choice_folds$abbrev pub $module$-value : $name$ → Family-Tree
$module$-value = fold-$name$$trees$$ones$

",
    ),
    (
        "tables",
        "$leaf_groups$abbrev pub $module$-known : $leaf_part$ $name$-Known
$module$-known =
    $table$

abbrev pub $module$-leaf : Shape $name$-Leaf
$module$-leaf = $leaf_whole$

$run_parts$-- the records of the leaf before the first row, behind the first, and so on
abbrev pub $module$-run : ℕ → $name$-Leaf → Records
$runs$
abbrev pub $module$-number : ℕ → ℕ
$numbers$
abbrev pub $module$-once : ℕ → Bool
$onces$
abbrev pub $module$-place : ℕ → place.Place
$module$-place n = $places$

$choice_table$abbrev pub $module$-table : tables.Table Family-Leaves
$module$-table = record {
  default = $sum_start$;
  takes = $sum_takes$;
  run = λ i. $sum_run$;
  rows = $count$;
  number = $module$-number;
  once = $module$-once;
  place = $module$-place;
  beside = $beside$;
  rows_beside = $rows_beside$;
}

$choice_laws$",
    ),
    (
        "table_lines",
        "family-tables $name$-Sort = $module$-table\n",
    ),
    ("all_holds", "$holds$"),
    (
        "counted",
        "pub $module$-counted : (m : $name$) → row_count ($module$-value m) ≡ $count$
$module$-counted m = ap row_count (fold_out-$name$$trees$$ones$ m)

",
    ),
    (
        "singles",
        "family-singles reading $name$-Sort = $sum_single$\n",
    ),
    (
        "held_sorts",
        "family-held-sort (held.$name$ m) = $name$-Sort\n",
    ),
    (
        "held_values",
        "family-held-value (held.$name$ m) = $module$-value m\n",
    ),
    (
        "slice_sorts",
        "family-slice-sort (slices.$name$ ms) = $name$-Sort\n",
    ),
    (
        "slice_values",
        "family-slice-values (slices.$name$ ms) = map $module$-value ms.now\n",
    ),
    (
        "slice_counted",
        "family-slice-counted (slices.$name$ ms) i =
    all_counted $module$-table $module$-value $module$-counted ms.now i
",
    ),
    ("backs", "$back$"),
];

const OF_CHOICES: [Template; 4] = [
    (
        "range_of_all",
        "beside_range family-all family-leaf-ranges family-stands",
    ),
    ("leaf_back", "LeafBeside"),
    ("stands_there", " (family-stands s)"),
    (
        "returned_of_all",
        "beside_returned g family-all family-leaf-ranges family-stands",
    ),
];

const OF_NO_CHOICES: [Template; 4] = [
    ("range_of_all", "family_range family-all family-leaf-ranges"),
    ("leaf_back", "LeafBack"),
    ("stands_there", ""),
    (
        "returned_of_all",
        "family_returned g family-all family-leaf-ranges",
    ),
];

const OF_BACK: [Template; 3] = [
    (
        "leaf_stands",
        "family-stands $name$-Sort = $stands_beside$\n",
    ),
    (
        "leaf_ranges",
        "family-leaf-ranges $name$-Sort = $sum_range$\n",
    ),
    (
        "leaves_back",
        "family-leaves-back g $name$-Sort = $module$-back g\n",
    ),
];

/// The page of all of them, of which each has a page of a table.
pub fn family_definitions(base: &Words, members: &[Words]) -> Result<String, GenerateError> {
    let mut page = Words::like(base);
    page.fill("uses", USES);
    let is_read_back = has_laws(base);
    page.append("uses", if is_read_back { USES_OF_BACK } else { "" });
    let is_choice = !page.get("has_choice").is_empty();
    page.append(
        "uses",
        if is_read_back && is_choice {
            USES_OF_STANDS
        } else {
            ""
        },
    );
    let last = members.len().saturating_sub(1);
    page.fill_all(&[("at", "zero"), ("at_least", "i")]);
    for member in members {
        put_member(&mut page, member, last);
    }
    if is_read_back {
        put_back(&mut page);
    }
    let is_requiring = !page.get("requiring").is_empty();
    page.fill("asked_of_all", if is_requiring { ASKED } else { "" });
    let is_viewed = !page.get("view_sums").is_empty();
    page.fill(
        "family_of_views",
        if is_viewed { FAMILY_OF_VIEWS } else { "" },
    );
    page.append("uses", if is_viewed { USES_OF_VIEWS } else { "" });
    page.fill("text", TEXT);
    use_mentioned_of(&mut page);
    page.fill("aliases", MORE_ALIASES);
    page.append("aliases", ALIASES);
    page.append("aliases", if is_requiring { NESTED } else { "" });
    page.append("aliases", if is_viewed { ALIAS_OF_VIEWS } else { "" });
    set_heading(&mut page, "--", WHAT);
    page.fill("text", HEAD);
    page.finish("text")
}

// One of so many members behind the first.
fn put_member(page: &mut Words, member: &Words, last: usize) {
    let mut own = Words::like(member);
    own.fill("aliases", "");
    put_lines(page, &mut own, &OF_MEMBER);
    put_lines(page, &mut own, &OF_BACK);
    put_lines(page, &mut own, &OF_ASKED);
    if has_view(&own) {
        put_lines(page, &mut own, &OF_VIEWED);
    }
    page.copy(&own, &["name", "left_charge", "left_within"]);
    page.append("own_accounts", OWN_ACCOUNT);
    page.append("accounts", MEMBER_ACCOUNT);
    page.fill_all(&[("at", "(suc $at$)"), ("at_least", "(suc $at_least$)")]);
    page.set("line", own.get("uses"));
    page.append("uses", "$line$");
    let is_first = page.get("listed").is_empty();
    page.append("listed", if is_first { "`$name$`" } else { ", `$name$`" });
    if !own.get("choice_aliases").is_empty() {
        page.copy(&own, &["choice_aliases", "view_aliases"]);
    }
    let is_last = page.get("sum_open").len() >= last;
    page.append(
        "sum",
        if is_last {
            "$name$-Leaf$sum_open$"
        } else {
            "$name$-Leaf ⊎ ("
        },
    );
    page.append("sum_open", ")");
}

// Lines of a member's words, each behind those of the others.
fn put_lines(page: &mut Words, own: &mut Words, lines: &'static [Template]) {
    for (name, template) in lines {
        own.fill("line", template);
        page.set("line", own.get("line"));
        page.append(name, "$line$");
    }
}

// What is read back of all, behind an empty line.
fn put_back(page: &mut Words) {
    let is_choice = !page.get("has_choice").is_empty();
    page.fill_all(if is_choice {
        &OF_CHOICES
    } else {
        &OF_NO_CHOICES
    });
    page.fill("stands_lines", if is_choice { STANDS } else { "" });
    page.append("backs", BACK);
    let backs = page.take("backs");
    let (_, ranges) = backs.split_once('\n').unwrap_or(("", ""));
    page.set("ranges", ranges);
    under_charges(page);
    page.fill("backs", "");
    if !page.get("charged").is_empty() {
        page.fill("backs", FAMILY_ACCOUNT);
    }
    page.append("backs", "\n$ranges$");
}
