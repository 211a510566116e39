//! The proofs of the rows of message types that hold themselves or one another.
use crate::other_rows::{COMMON, is_of_many, set_other_rows};
use wire_definitions::{MEMBER_PUSH, MEMBER_PUSH_HEAD, MEMBER_ROW, MEMBER_ROW_HEAD, is_row};
use wire_schema::{Field, GenerateError, Template, Words};

const ROW_HEAD: &str = "\
use Rattle.std.proofs.Common.{◌∙◌, ap, map, sym}
use Rattle.wire_fields.specs.Nest.{listed_row}
use Rattle.$crate$.specs.$name$.{$name$-Value, $module$-one, $module$-value}
$uses_of_choice$\
use Rattle.$crate$.specs.declared.$module$.$name$.{fold_out-$name$}
use Rattle.$crate$.proofs.$module$.$name$RecursiveAlone.row.Goals as goal
";

const ROW: &str = "
pub returns-in-$row$ : goal.returns-in-$row$
returns-in-$row$ c =
    rw (c.in-$row$.is, fold_out-$name$$their_trees$$their_ones$ c.args.self.now)
    (ap (map $module$-value) $call$.ensures.value ∙ sym (listed_row _))
";

const PUSH_HEAD: &str = "\
use Rattle.std.proofs.Common.{$common$}
use Rattle.std.proofs.lemmas.Result.{on_ok_weaker}
use Rattle.wire_fields.specs.Nest.{listed_row, row_pushed}
use Rattle.$crate$.specs.$name$.{$name$-Value, $once_used$$module$-one, $module$-value}
$uses_of_choice$$uses_of_variants$\
use Rattle.$crate$.specs.declared.$module$.$name$.{$name$, out-$name$, fold_out-$name$}
use Rattle.$crate$.specs.declared.$first_type$.TheFolds.{fold-roll-$name$, map-$name$}
use Rattle.$crate$.proofs.$module$.$name$RecursiveMember.push.Goals as goal
";

const PUSH: &str = "
pub returns-in-$row$-clause-ok : goal.returns-in-$row$-clause-ok
returns-in-$row$-clause-ok c =
    λ here many kind. on_ok_weaker $call$.result (λ pushed. rw (
      c.in-$row$.is,
      fold_out-$name$$their_trees$$their_ones$ c.args.self.now,
    ) (fold-roll-$name$$their_trees$$their_ones$ _
    ∙ row_pushed $module$-value $row$
    ($module$-one (map-$name$$types$$their_trees$$their_values$ (out-$name$ c.args.self.now)))
    _ _ c.args.message (listed_row _) pushed)) $call$.ensures.ok
";

// How the arm of a row of one of a family is called in proofs, where the row and the type of the
// message are looked at in one, and what is known there.
const OF_BOTH: [Template; 3] = [
    ("arm_name", "$row$-$of_name$"),
    (
        "arm_is",
        "c.in-$row$-$of_name$.is-0,\n      c.in-$row$-$of_name$.is-1",
    ),
    ("later_call", "(c.push_message-in-$row$-$of_name$)"),
];

// The same where the row is looked at first: of the first row of a type, of the second, and of more.
const OF_ROW_FIRST: [&str; 3] = [
    "$of_name$",
    "$of_name$-message",
    "$of_name$-message-$rows_before$",
];

const OF_NAMED_ARM: [Template; 2] = [
    ("arm_is", "c.in-$row$.is,\n      c.in-$arm_name$.is"),
    ("later_call", "(c.push_message-in-$arm_name$)"),
];

// The same of a type that holds itself alone.
const OF_ROW: [Template; 1] = [("later_call", "(c.push_message-in-$row$)")];

/// The answers of `row`, those of `push`, and those of `put`; nothing where none is wanted.
pub fn row_answers(
    base: &Words,
    fields: &[Field],
    are_many: bool,
) -> Result<[String; 3], GenerateError> {
    let mut page = Words::like(base);
    let is_member = !page.get("family_name").is_empty();
    let mut row: usize = 0;
    for field in fields.iter().filter(|it| is_row(it)) {
        if is_of_many(field) {
            page.copy(&field.words, &["of_name", "of_module"]);
            page.index("row", row);
            put_row(&mut page, row == 0, is_member, are_many);
        }
        row = row.saturating_add(1);
    }
    set_pages(&mut page, fields, is_member, are_many);
    Ok([
        page.finish("of_row")?,
        page.finish("of_push")?,
        page.finish("of_put")?,
    ])
}

// The three pages, of what was put of the rows.
fn set_pages(page: &mut Words, fields: &[Field], is_member: bool, are_many: bool) {
    page.fill_all(&[("other_rows", ""), ("of_other_rows", ""), ("of_put", "")]);
    if are_many {
        set_other_rows(page, fields, false);
        page.fill("of_put", "$of_other_rows$$other_rows$");
        set_other_rows(page, fields, true);
    } else {
        page.set("common", "◌∙◌");
    }
    page.fill("once_used", if are_many { "$module$-once, " } else { "" });
    if page.get("pushes").is_empty() {
        page.fill("of_push", "$of_other_rows$$other_rows$");
    } else {
        page.fill("of_row", if is_member { MEMBER_ROW_HEAD } else { ROW_HEAD });
        page.fill(
            "of_push",
            if is_member {
                MEMBER_PUSH_HEAD
            } else {
                PUSH_HEAD
            },
        );
        page.append_all(&[("of_row", "$rows$"), ("of_push", "$pushes$$other_rows$")]);
    }
}

// What is to be shown of a row of many messages.
fn put_row(page: &mut Words, is_row_0: bool, is_member: bool, are_many: bool) {
    page.fill(
        "call",
        if is_row_0 {
            "c.deref"
        } else {
            "(c.deref-in-$row$)"
        },
    );
    page.append("rows", if is_member { MEMBER_ROW } else { ROW });
    if is_member && are_many {
        set_arm_name(page);
    } else {
        page.fill_all(if is_member { &OF_BOTH } else { &OF_ROW });
    }
    let is_first = page.get("pushes").is_empty();
    page.fill(
        "call",
        if is_first {
            "c.push_message"
        } else {
            "$later_call$"
        },
    );
    page.append("pushes", if is_member { MEMBER_PUSH } else { PUSH });
}

// How the arm of a row is called by the type of its messages, of which there may be other rows.
fn set_arm_name(page: &mut Words) {
    page.fill("this_type", " $of_name$ ");
    let before = page.get("pushed_types").split(page.get("this_type"));
    let count = before.count().saturating_sub(1);
    page.append("pushed_types", "$this_type$");
    page.index("rows_before", count);
    page.fill("arm_name", OF_ROW_FIRST[count.min(2)]);
    page.fill_all(&OF_NAMED_ARM);
}

const HELD_HEAD: &str = "\
use Rattle.$crate$.proofs.$family_module$.FamilyHeldRecursiveHeld.$function$.Goals as goal
$answers$";

const HELD: &str = "
pub returns-in-$name$-clause-$clause$ : goal.returns-in-$name$-clause-$clause$
returns-in-$name$-clause-$clause$ g c = rw c.in-$name$.is $call$.ensures.$clause$
";

/// What a message of any of them is asked that the search does not find of each.
pub const MERGE_LEAF: [Template; 2] = [("function", "merge_leaf"), ("clause", "err")];

pub const TAKE: [Template; 2] = [("function", "take"), ("clause", "result")];

/// The answers of one of these of all of them as one type.
pub fn held_answers(
    base: &Words,
    members: &[Words],
    function: &'static [Template],
) -> Result<String, GenerateError> {
    let mut page = Words::like(base);
    page.fill_all(function);
    for member in members {
        page.copy(member, &["name"]);
        let is_first = page.get("answers").is_empty();
        page.fill(
            "call",
            if is_first {
                "c.$function$"
            } else {
                "(c.$function$-in-$name$)"
            },
        );
        page.append("answers", HELD);
    }
    page.fill("text", HELD_HEAD);
    page.finish("text")
}

const PART_PUT: &str = "\
$use_of_family$\
use Rattle.$crate$.specs.declared.$module$.$name$.{fold_out-$name$}
use Rattle.$crate$.proofs.$module$.$name$Fields$low$To$high$Parts.put.Goals as goal

pub put-requires-clause-sizes : goal.put-requires-clause-sizes
put-requires-clause-sizes g c =
    rw (fold_out-$name$$their_trees$$their_ones$ c.args.self.now.message.now) at c.requires.sizes

pub put-requires-clause-size : goal.put-requires-clause-size
put-requires-clause-size g c =
    rw (fold_out-$name$$their_trees$$their_ones$ c.args.self.now.message.now) at c.requires.size
";

const OF_FAMILY: &str = "use Rattle.$crate$.specs.$family_name$ as family\n";

const OF_ITSELF: &str = "\
use Rattle.$crate$.specs.$name$.{$name$-Value, $module$-one}
$uses_of_choice$";

/// The answers of what writes a part of a run, whose last field this is: what it asks of a message
/// as it is seen is what is asked of its fields.
pub fn part_answers(base: &Words, field: &Field) -> Result<String, GenerateError> {
    let mut page = Words::like(base);
    page.copy(&field.words, &["low", "high"]);
    let is_alone = page.get("family_name").is_empty();
    page.fill(
        "use_of_family",
        if is_alone { OF_ITSELF } else { OF_FAMILY },
    );
    page.fill("text", PART_PUT);
    page.finish("text")
}
