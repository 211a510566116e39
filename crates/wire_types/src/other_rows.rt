//! The proof that a row is one of those whose messages a call takes, of a message whose rows are
//! looked at before the types of their messages: of any other the call says nothing.
use wire_definitions::is_row;
use wire_schema::{Field, Template, Words};

const LEMMA: &str = "
-- a row is one of these
one_of : (row : ℕ) → row < $count$ → $home_of_once$$module$-once row ≡ $is_once$
$unlike_rows$    → ⊥
$cases$one_of $of_row$ here once $taken_rows$= omega arith

pub returns$in_default$-clause-ok : goal.returns$in_default$-clause-ok
returns$in_default$-clause-ok c =
    λ here once kind. absurd (one_of c.args.row here once$found_rows$)
";

const TAKEN: [Template; 3] = [
    ("unlike_rows", "    → row ≢ $row$\n"),
    ("taken_rows", "is_$row$ "),
    ("found_rows", " (search rules)"),
];

const CASE_TAKEN: &str = "one_of $of_row$ here once $taken_rows$= is_$row$ refl\n";

const CASE_OF_OTHER: &str = "one_of $of_row$ here once $taken_rows$= search rules\n";

const NO_CASE: [Template; 5] = [
    ("unlike_rows", ""),
    ("taken_rows", ""),
    ("found_rows", ""),
    ("cases", ""),
    ("of_row", "zero"),
];

/// What the proofs of a call take of others: of one that puts one message, of one that puts one
/// more.
pub const COMMON: [&str; 2] = [
    "arith, refl, rules, suc, true, zero, ℕ, ◌<◌, ◌≡◌, ◌≢◌",
    "arith, false, refl, rules, suc, zero, ℕ, ◌<◌, ◌∙◌, ◌≡◌, ◌≢◌",
];

const HEAD: &str = "\
use Rattle.std.proofs.Common.{$common$}
$use_of_once$\
use Rattle.$crate$.proofs.$module$.$name$RecursiveMember$held$.$call_of_rows$.Goals as goal
";

const OF_MEMBER: [Template; 3] = [
    ("held", "FamilyHeld"),
    ("home_of_once", "family."),
    (
        "use_of_once",
        "use Rattle.$crate$.specs.$family_name$ as family\n",
    ),
];

const OF_ALONE: [Template; 3] = [
    ("held", ""),
    ("home_of_once", ""),
    (
        "use_of_once",
        "use Rattle.$crate$.specs.$name$.{$module$-once}\n",
    ),
];

/// The word `other_rows`, that proof of the call that puts one message, or one more, and
/// `of_other_rows`, what stands before it where nothing else does.
pub fn set_other_rows(page: &mut Words, fields: &[Field], is_each: bool) {
    let is_member = !page.get("family_name").is_empty();
    page.fill_all(if is_member { &OF_MEMBER } else { &OF_ALONE });
    page.set("call_of_rows", if is_each { "push" } else { "put" });
    page.set("is_once", if is_each { "false" } else { "true" });
    page.set("common", COMMON[usize::from(is_each)]);
    page.fill_all(&NO_CASE);
    let mut row: usize = 0;
    for field in fields.iter().filter(|it| is_row(it)) {
        page.index("row", row);
        if is_of_many(field) == is_each {
            page.append_all(&TAKEN);
        }
        row = row.saturating_add(1);
    }
    page.index("count", row);
    let is_none = page.get("found_rows").is_empty();
    page.set("in_default", if is_none { "" } else { "-in_default" });
    row = 0;
    for field in fields.iter().filter(|it| is_row(it)) {
        page.index("row", row);
        let is_taken = is_of_many(field) == is_each;
        page.append("cases", if is_taken { CASE_TAKEN } else { CASE_OF_OTHER });
        page.fill("of_row", "(suc $of_row$)");
        row = row.saturating_add(1);
    }
    put_last(page, row);
    page.fill("other_rows", LEMMA);
    page.fill("of_other_rows", HEAD);
}

// The row behind all that there are.
fn put_last(page: &mut Words, count: usize) {
    page.set("of_row", "row");
    for _ in 0..count {
        page.fill("of_row", "(suc $of_row$)");
    }
}

/// Whether a row has a list of messages.
pub fn is_of_many(field: &Field) -> bool {
    field.words.get("kind").starts_with("Each")
}
