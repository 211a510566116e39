//! The proofs of the rows of the view of a message type that holds itself or is of a family: how a
//! message is put into one, and that the message that is made of the view has the same.
use crate::view_choice_answers::put_step_of_choice;
use crate::view_owned::is_choice;
use wire_definitions::{definition_imports, is_row};
use wire_schema::{Field, GenerateError, Template, Words};

// Of a type that holds itself alone, and of one of a family: what definitions are called, and where
// the proofs are.
const OF_ALONE: [Template; 5] = [
    ("of_home", ""),
    ("held", "$view_name$RecursiveHeldRefSliceU8"),
    ("in_row", "in-$row$"),
    ("message_there", "c.args.message"),
    ("row_is", "      c.in-$row$.is,\n"),
];

const OF_MEMBER: [Template; 5] = [
    ("of_home", "family."),
    ("held", "$view_name$RecursiveViewFamilyView"),
    ("in_row", "in-$row$-$of_name$"),
    ("message_there", "c.in-$row$-$of_name$.message"),
    (
        "row_is",
        "      c.in-$row$-$of_name$.is-0,\n      c.in-$row$-$of_name$.is-1,\n",
    ),
];

const HOME: [&str; 2] = [
    "use Rattle.$crate$.specs.$name$.{$name$-Value, $module$-view_one, $module$-view_value}\n\
     $uses_of_choice_view$$uses_of_view_variants$",
    "use Rattle.$crate$.specs.$family_name$ as family\n$view_type_uses$",
];

const PUSH_HEAD: &str = "\
use Rattle.std.proofs.Common.{◌∙◌}
use Rattle.std.proofs.lemmas.Result.{on_ok_weaker}
use Rattle.wire_fields.specs.Nest.{listed_row, row_pushed}
$home$\
use Rattle.$crate$.specs.declared.$view_module$.$view_name$ as declared
use Rattle.$crate$.specs.declared.$view_first$.TheFolds as folds
use Rattle.$crate$.proofs.$view_module$.$held$.push.Goals as goal
";

const PUSH: &str = "
pub returns-$in_row$-clause-ok : goal.returns-$in_row$-clause-ok
returns-$in_row$-clause-ok c =
    λ here many kind. on_ok_weaker $call$.result (λ pushed. rw (
$row_is$      declared.fold_out-$view_name$$their_view_trees$$their_view_ones$ c.args.self.now,
    ) (folds.fold-roll-$view_name$$their_view_trees$$their_view_ones$ _
    ∙ row_pushed $of_home$$of_module$-view_value $row$
    ($of_home$$module$-view_one
    (folds.map-$view_name$$types_there$$their_view_trees$$their_view_values$
    (declared.out-$view_name$ c.args.self.now)))
    _ _ $message_there$ (listed_row _) pushed)) $call$.ensures.ok
";

/// The answers of `push` of such a view; nothing where there is no row of many messages.
pub fn view_push_answers(base: &Words, fields: &[Field]) -> Result<String, GenerateError> {
    let mut page = Words::like(base);
    let is_member = !page.get("family_name").is_empty();
    page.fill("answers", "");
    page.fill(
        "types_there",
        match (is_member, page.get("choice").is_empty()) {
            (true, _) => "$view_types$",
            (false, true) => " declared.$view_name$",
            (false, false) => " $choice_view$ declared.$view_name$",
        },
    );
    for (row, field) in fields.iter().filter(|it| is_row(it)).enumerate() {
        if field.words.get("kind").starts_with("Each") {
            page.copy(&field.words, &["of_name", "of_module"]);
            page.index("row", row);
            page.fill_all(if is_member { &OF_MEMBER } else { &OF_ALONE });
            let is_first = page.get("answers").is_empty();
            page.fill(
                "call",
                if is_first {
                    "c.push_message"
                } else {
                    "(c.push_message-in-$row$)"
                },
            );
            page.append("answers", PUSH);
        }
    }
    page.fill("text", "");
    if !page.get("answers").is_empty() {
        page.fill("home", HOME[usize::from(is_member)]);
        page.fill("text", PUSH_HEAD);
        page.append("text", "$answers$");
    }
    page.finish("text")
}

const INVARIANTS: &str = "\
use Rattle.std.proofs.Common.{◌≡◌, map, take}
$home$\
use Rattle.$crate$.proofs.$own_module$.+own.Given as goal
$invariants$";

const INVARIANT: &str = "
abbrev pub invariant-each_owned_$of_module$-loop-view : goal.invariant-each_owned_$of_module$-loop-view
invariant-each_owned_$of_module$-loop-view l =
    map $of_home$$of_module$-value l.messages.items
    ≡ map $of_home$$of_module$-view_value (take l.view-index l.views)
";

const OWN_HEAD: &str = "\
$imports$$home$\
use Rattle.$crate$.proofs.$own_module$.+own.Goals as goal
$answers$";

const OWNED: &str = "
pub owned_$module$-returns-clause-ok : goal.owned_$module$-returns-clause-ok
owned_$module$-returns-clause-ok t c =
    let made : $name$-F$types$ = record {
$made$      unknown = c.in_ok-own_unknown.own_unknown;
    } in
    fold-roll-$name$$their_trees$$their_ones$ made
    ∙ rw (
$steps$      c.in_ok-own_unknown.ensures.ok,
      $deref$.ensures.value,
    ) $left$
    ∙ sym (fold_out-$view_name$$their_view_trees$$their_view_ones$ c.args.view.now)
";

const OWN_USES: &str = "\
Rattle.std.proofs.Common refl
Rattle.std.proofs.Common sym
Rattle.std.proofs.Common ◌∙◌
Rattle.$crate$.specs.declared.$module$.$name$ $name$
Rattle.$crate$.specs.declared.$module$.$name$ $name$-F
Rattle.$crate$.specs.declared.$first_type$.TheFolds fold-roll-$name$
Rattle.$crate$.specs.declared.$view_module$.$view_name$ fold_out-$view_name$
";

const USES_OF_ALONE: &str = "\
Rattle.$crate$.specs.$name$ $name$-Value
Rattle.$crate$.specs.$name$ $module$-one
Rattle.$crate$.specs.$name$ $module$-view_one
";

const USES_OF_ONCE: &str = "\
Rattle.$crate$.specs.declared.$view_module$.$view_name$ out-$view_name$
";

const USES_OF_ONCE_ALONE: &str = "\
Rattle.$crate$.specs.$name$ $module$-$field$-row
Rattle.$crate$.specs.$name$ $module$-$field$-view_row
";

// How a row of one message at most is seen of the message, and of the view.
const STEPS_OF_ONCE: &str = "      \
      $of_home$$module$-$field$-row made made.$field$ refl,
      c.in_ok-own_$field$.ensures.ok,
      $of_home$$module$-$field$-view_row (out-$view_name$ c.args.view.now)
          (out-$view_name$ c.args.view.now).$field$ refl,
";

// A closed enum is seen as it is held.
const STEPS_OF_CLOSED: &str = "      \
      sym (option_map_id made.$field$)
          ∙ c.in_ok-own_$field$.ensures.ok
          ∙ option_map_id (out-$view_name$ c.args.view.now).$field$,
";

const USES_OF_CLOSED: &str = "\
Rattle.std.proofs.lemmas.Iterator.Adapters option_map_id
Rattle.$crate$.specs.declared.$view_module$.$view_name$ out-$view_name$
";

const MADE: [Template; 1] = [("made", "      $field$ = c.in_ok-own_$field$.own_$field$;\n")];

const SIGNED_64: [Template; 2] = [
    (
        "made",
        "      $field$ = to_z w64 (of_z w64 c.in_ok-own_$field$.own_$field$);\n",
    ),
    ("uses", "Rattle.std.proofs.Common w64\n"),
];

const SIGNED_32: [Template; 2] = [
    (
        "made",
        "      $field$ = to_z w32 (of_z w32 c.in_ok-own_$field$.own_$field$);\n",
    ),
    ("uses", "Rattle.std.proofs.Common w32\n"),
];

const USES_OF_SIGNED: &str = "\
Rattle.std.proofs.Common of_z
Rattle.std.proofs.Common rules
Rattle.std.proofs.Common to_z
";

/// Begins the answers of what makes messages of views, whose module this is, of a type that holds
/// itself alone or of all of a family.
pub fn begin_owned(page: &mut Words, own_module: &str) {
    page.fill("own_module", own_module);
    page.fill_all(&[("uses", ""), ("answers", ""), ("invariants", "")]);
    page.fill("held_by_many", " ");
}

/// Puts those of the function that makes the message of these fields, whose words the page has.
pub fn put_owned_answers(page: &mut Words, fields: &[Field]) {
    let is_member = !page.get("family_name").is_empty();
    page.fill("of_home", if is_member { "family." } else { "" });
    page.append("uses", OWN_USES);
    page.append("uses", if is_member { "" } else { USES_OF_ALONE });
    page.fill_all(&[("steps", ""), ("made", ""), ("left", "refl")]);
    let mut derefs: usize = 0;
    for field in fields {
        if !is_choice(field) && !field.words.get("choice_variant").is_empty() {
            continue;
        }
        page.copy(&field.words, &["field", "of_module"]);
        put_made(page, field.words.get("view_held"));
        let kind = field.words.get("kind");
        if is_choice(field) {
            put_step_of_choice(page, is_member);
        } else if is_row(field) && !kind.starts_with("Each") {
            page.append_all(&[("steps", STEPS_OF_ONCE), ("uses", USES_OF_ONCE)]);
            page.append("uses", if is_member { "" } else { USES_OF_ONCE_ALONE });
        } else if field.words.get("call") == "merge_closed" && !kind.starts_with("Map<") {
            page.append_all(&[("steps", STEPS_OF_CLOSED), ("uses", USES_OF_CLOSED)]);
        } else {
            page.append("steps", "      c.in_ok-own_$field$.ensures.ok,\n");
            if is_row(field) {
                derefs = derefs.saturating_add(1);
                set_deref(page, derefs);
                page.append("steps", "      $deref$.ensures.value,\n");
                put_invariant(page);
            }
        }
    }
    set_deref(page, derefs.saturating_add(1));
    page.append("answers", OWNED);
}

// What the message has for a field, of what a view holds: a signed number as it is in the machine.
fn put_made(page: &mut Words, held: &str) {
    page.append_all(match held {
        "i64" => &SIGNED_64,
        "i32" => &SIGNED_32,
        _ => &MADE,
    });
    if held == "i64" || held == "i32" {
        page.append("uses", USES_OF_SIGNED);
        page.set("left", "(search rules)");
    }
}

// The invariant of the loop over a list of messages of this type, once.
fn put_invariant(page: &mut Words) {
    page.fill("this", " $of_module$ ");
    if !page.get("held_by_many").contains(page.get("this")) {
        page.append("held_by_many", "$of_module$ ");
        page.append("invariants", INVARIANT);
    }
}

/// The invariants of the loops, or nothing where there are none, and the answers.
pub fn owned_answers(page: &mut Words) -> Result<[String; 2], GenerateError> {
    let is_member = !page.get("family_name").is_empty();
    page.fill(
        "home",
        if is_member {
            "use Rattle.$crate$.specs.$family_name$ as family\n"
        } else {
            "use Rattle.$crate$.specs.$name$.{$module$-value, $module$-view_value}\n"
        },
    );
    let has_loops = !page.get("invariants").is_empty();
    page.fill("text", if has_loops { INVARIANTS } else { "" });
    let invariants = page.finish("text")?;
    definition_imports(page);
    page.fill(
        "home",
        if is_member {
            "use Rattle.$crate$.specs.$family_name$ as family\n"
        } else {
            ""
        },
    );
    page.fill("text", OWN_HEAD);
    Ok([invariants, page.finish("text")?])
}

// The call that lends the list of this number, as proofs name it.
fn set_deref(page: &mut Words, count: usize) {
    page.index("count", count);
    page.fill(
        "deref",
        if count == 1 {
            "c.deref"
        } else {
            "(c.deref-$count$)"
        },
    );
}
