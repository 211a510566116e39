//! The proofs of a message type: why a record that a field refuses is refused by the message.
use crate::choice_answers::put_choice;
use crate::leaf_groups::tell_taken;
use crate::rest_answers::{put_handed_on, put_rest};
use crate::view_choice_answers::put_view_choice;
use wire_definitions::{Node, Tree, definition_imports, use_mentioned_of};
use wire_schema::{Field, GenerateError, Template, Words};

pub const USES: &str = "\
Rattle.$crate$.specs.$specs_of_own$ $module$-known
Rattle.$crate$.specs.$specs_of_own$ $whole$
$whole_uses$";

// Where there are fields.
const USES_OF_FIELDS: &str = "\
Rattle.std.proofs.Common rules
Rattle.std.proofs.Common sym
Rattle.std.proofs.Common ◌∙◌
Rattle.wire_codec.specs.TagView tag_number
Rattle.wire_fields.specs.Arms arm_err
Rattle.wire_fields.specs.Arms unlike
";

const FAMILY: &str = "use Rattle.$crate$.specs.$family_name$ as family\n";

const HEAD: &str = "\
$imports$use Rattle.$crate$.proofs.$of_goals$.$goals$.Goals as goal
";

// The equations of one level of a message that holds itself, before a record is taken and after it.
const LEVELS: &str = " _ _
    (fold_out-$name$$their_trees$$their_ones$ c.args.self.now)
    (fold-roll-$name$$their_trees$$their_ones$ _)";

const LEAF_USES: &str = "\
Rattle.wire_fields.specs.NestArms leaf_ok
Rattle.$crate$.specs.declared.$first_type$.TheFolds fold-roll-$name$
";

const MEMBER_USES: &str = "\
$inner_uses$\
Rattle.wire_fields.specs.NestArms leaf_ok
Rattle.$crate$.specs.declared.$first_type$.TheFolds fold-roll-$name$
";

// Of a message, whose calls the rows make, and of the leaf of one that holds itself.
const OF_WHOLE: [Template; 10] = [
    ("of_call", "c.fields-"),
    ("goals", "$name$MessageFields.merge_field"),
    ("whole", "$module$-shape"),
    ("all_takes", "$module$-shape.takes"),
    ("taken_uses", "Rattle.wire_fields.specs.Arms arm_ok\n"),
    ("taken_by", "arm_ok"),
    ("levels", ""),
    ("before", ""),
    ("behind", ""),
    ("whole_uses", ""),
];

const OF_LEAF: [Template; 10] = [
    ("of_call", "c."),
    ("goals", "$name$RecursiveMember.merge_leaf"),
    ("whole", "$module$-leaf"),
    ("all_takes", "$module$-leaf.takes"),
    ("taken_uses", LEAF_USES),
    ("taken_by", "leaf_ok"),
    ("levels", LEVELS),
    (
        "before",
        "rw (fold_out-$name$$their_trees$$their_ones$ c.args.self.now)\n    (",
    ),
    ("behind", ")"),
    (
        "whole_uses",
        "Rattle.$crate$.specs.$name$ $name$-Value\n\
        Rattle.$crate$.specs.$name$ $module$-one\n\
        Rattle.$crate$.specs.declared.$module$.$name$ fold_out-$name$\n$choice_answers$",
    ),
];

// Of that of a type of a family.
const OF_MEMBER: [Template; 10] = [
    ("of_call", "c."),
    ("goals", "$name$RecursiveMemberFamilyHeld.merge_leaf"),
    ("whole", "$module$-leaf"),
    ("all_takes", "$sum_takes$"),
    ("taken_uses", MEMBER_USES),
    ("taken_by", "leaf_ok"),
    ("levels", LEVELS),
    (
        "before",
        "rw (fold_out-$name$$their_trees$$their_ones$ c.args.self.now)\n    ($err_open$",
    ),
    ("behind", "$err_close$)"),
    (
        "whole_uses",
        "Rattle.$crate$.specs.declared.$module$.$name$ fold_out-$name$\n$err_uses$",
    ),
];

// The same of a group of fields: of the first one, and of another.
const OF_GROUP: [Template; 3] = [
    ("of_call", "c.merged"),
    ("numbered", "c.field_number"),
    ("rest_call", "(c.merged-in_default)"),
];

const OF_LATER_GROUP: [Template; 2] = [
    ("of_goals", "$module$"),
    ("goals", "$name$.merge_from_$low$"),
];

// The same of a leaf.
const OF_LATER_LEAF: [Template; 2] = [
    ("of_goals", "$module$"),
    ("goals", "$name$.merge_leaf_from_$low$"),
];

const REFUSED: &str = "
pub returns-in-$number$-clause-err : goal.returns-in-$number$-clause-err
returns-in-$number$-clause-err $given$ =
    $before$arm_err $whole$.takes $step$ $number$ _
    (sym $numbered$.ensures.number ∙ c.in-$number$.is) _ _
    (λ charge z p h. ($seen$)) _ _ _
    $call$.result $call$.ensures.err$behind$
";

const TAKEN: &str = "
pub returns-in-$number$-clause-ok : goal.returns-in-$number$-clause-ok
returns-in-$number$-clause-ok $given$ =
    $taken_by$ $all_takes$ $step$ $number$ _
    (sym $numbered$.ensures.number ∙ c.in-$number$.is) _ _$levels$ _ _
    (λ charge p h. $taken$) _ _ _ _ _
    $call$.result $call$.ensures.ok
";

// The search does not find by itself that what a list of numbers takes the message takes, nor of
// other fields of a leaf of many, and of other fields of a message it takes seconds to find.
const USES_OF_TAKEN: &str = "\
$taken_uses$\
Rattle.std.proofs.Common refl
";

// A field's part of what a message makes of a record, alone and with the unknown fields.
const INSIDE: &str = "z.0$path$, h.0$firsts$";

const BESIDE: &str = "(z.0$path$, z.1), h$firsts$";

const OF_ONEOF: Template = ("uses", "$specs$ $definition$\n");

const OF_KIND: Template = (
    "uses",
    "Rattle.$crate$.specs.$specs_of_own$ $module$-$field$-kind\n",
);

// Of a number of a oneof that leaves records of other wire types.
const KEEPING_STEP: &str = "(or_kept (λ p. has_type $types$ (type_of p)) $shape$.takes)";

const OF_KEEPING: [Template; 1] = [(
    "uses",
    "$specs$ $shape$\nRattle.wire_codec.specs.Field type_of\n\
    Rattle.wire_fields.specs.Leaving $types$\nRattle.wire_fields.specs.Leaving has_type\n\
    Rattle.wire_fields.specs.Leaving or_kept\n",
)];

/// The answers of `merge_field`.
pub fn answers_of(
    base: &Words,
    fields: &[Field],
    tree: &Tree,
    is_recursive: bool,
) -> Result<String, GenerateError> {
    let mut page = Words::like(base);
    put_whole(&mut page, is_recursive);
    written(page, fields, tree)
}

/// The answers of the function that takes the records of a group of fields.
pub fn group_answers_of(
    base: &Words,
    fields: &[Field],
    tree: &Tree,
    group: &Node,
) -> Result<String, GenerateError> {
    let mut page = Words::like(base);
    put_whole(&mut page, false);
    page.fill_all(&OF_GROUP);
    if group.first > 0 {
        page.copy(&group.words, &["low"]);
        page.fill_all(&OF_LATER_GROUP);
    }
    of_group(page, fields, tree, group)
}

/// The same of a leaf.
pub fn leaf_group_answers_of(
    base: &Words,
    fields: &[Field],
    tree: &Tree,
    group: &Node,
) -> Result<String, GenerateError> {
    let mut page = Words::like(base);
    put_whole(&mut page, true);
    page.set("in_groups", "in_groups");
    if group.first > 0 {
        page.copy(&group.words, &["low"]);
        page.fill_all(&OF_LATER_LEAF);
    }
    of_group(page, fields, tree, group)
}

// The page of the answers of a group.
fn of_group(
    mut page: Words,
    fields: &[Field],
    tree: &Tree,
    group: &Node,
) -> Result<String, GenerateError> {
    page.append("uses", USES_OF_FIELDS);
    for (place, field) in fields.iter().enumerate() {
        if group.first <= place && place < group.behind {
            put_field(&mut page, field);
        }
    }
    match tree.next_group(group) {
        Some(next) => put_handed_on(&mut page, fields, group, next),
        None => {
            page.copy(&tree.words, &["unlike"]);
            put_rest(&mut page, fields);
        }
    }
    finished(page)
}

/// The page of the answers of these fields.
pub fn written(mut page: Words, fields: &[Field], tree: &Tree) -> Result<String, GenerateError> {
    page.copy(&tree.words, &["unlike"]);
    page.append(
        "uses",
        if fields.is_empty() {
            BARE
        } else {
            USES_OF_FIELDS
        },
    );
    for field in fields {
        put_field(&mut page, field);
    }
    put_rest(&mut page, fields);
    finished(page)
}

// The page of what there is so far.
fn finished(mut page: Words) -> Result<String, GenerateError> {
    // (messages and closed enums in a oneof with rows bring in more than each of them names)
    if page.get("kinds_alias").is_empty() && page.get("closed_types").is_empty() {
        definition_imports(&mut page);
    } else {
        page.fill("text", "$answers$$rest$");
        use_mentioned_of(&mut page);
    }
    let is_member = !page.get("family_name").is_empty();
    page.append("imports", if is_member { FAMILY } else { "" });
    page.append("imports", "$kinds_alias$");
    let has_kinds = !page.get("kinds_alias").is_empty();
    page.append("imports", if has_kinds { "" } else { "$closed_types$" });
    page.fill("text", HEAD);
    page.append("text", "$answers$$rest$");
    page.finish("text")
}

/// What the fields are of, and what all answers bring in.
pub fn put_whole(page: &mut Words, is_recursive: bool) {
    let is_member = !page.get("family_name").is_empty();
    page.fill_all(&[
        ("of_goals", "$module$"),
        ("given", "g c"),
        ("keeper", "keep"),
        ("seen_by", "value"),
    ]);
    page.fill_all(if is_member {
        &OF_MEMBER
    } else if is_recursive {
        &OF_LEAF
    } else {
        &OF_WHOLE
    });
    page.set("numbered", "");
    page.fill(
        "specs_of_own",
        if is_member { "$family_name$" } else { "$name$" },
    );
    page.fill("uses", USES);
    page.fill("fold_types", "$types$");
}

// The proof that no field owns a number, where there is none.
const BARE: &str = "Rattle.std.proofs.Common refl\n";

// The answers of the numbers of a field.
fn put_field(page: &mut Words, field: &Field) {
    if let (Some(oneof), false) = (&field.oneof, field.words.get("in_choice").is_empty()) {
        return if page.get("keeper") == "keep_span" {
            put_view_choice(page, &field.words, oneof)
        } else {
            put_choice(page, &field.words, oneof)
        };
    }
    page.copy(
        &field.words,
        &["field", "kind", "definition", "specs", "step", "shape"],
    );
    if page.get("numbered").is_empty() {
        page.fill("numbered", "$of_call$field_number");
    }
    page.copy(&field.words, &["path", "firsts", "taken", "sort"]);
    let is_beside = page.get("sort") == "Leaving";
    page.fill("seen", if is_beside { BESIDE } else { INSIDE });
    tell_taken(page, is_beside && field.oneof.is_none());
    let (name, template) = if field.oneof.is_none() {
        OF_KIND
    } else {
        OF_ONEOF
    };
    let is_of_many = is_beside && field.oneof.is_some();
    page.append(name, if is_of_many { "" } else { template });
    let mut types = field.words.get("all_own").split(' ');
    let mut calls = field.words.get("all_calls").split(' ');
    let mut steps = field.words.get("all_steps").split(' ');
    for number in field.words.get("numbers").split(' ') {
        page.set("number", number);
        page.set("call", field.words.get("call"));
        page.set("types", types.next().unwrap_or(""));
        page.set("own_call", calls.next().unwrap_or(""));
        page.set("own_step", steps.next().unwrap_or(""));
        if is_of_many {
            put_variant(page);
        }
        put_arm(page);
    }
}

// One number of a oneof that leaves records to the unknown fields.
fn put_variant(page: &mut Words) {
    if page.get("call") == "merge_or_keep" {
        page.append_all(&OF_KEEPING);
        page.fill("step", KEEPING_STEP);
    } else {
        page.fill_all(&[("call", "$own_call$"), ("step", "$own_step$")]);
        put_closing(page);
    }
}

// Of one number of a oneof that has closed enums: what such a one makes of a record stands beside
// the unknown fields, what any other does leaves them.
fn put_closing(page: &mut Words) {
    let is_closed = page.get("call") != "merge";
    page.fill("seen", if is_closed { BESIDE } else { INSIDE });
    page.append(
        "uses",
        if is_closed {
            "$specs$ $step$\n"
        } else {
            "$specs$ $shape$\n"
        },
    );
}

// What is to be shown of the record of one number; the first call of a function has no number in
// its name.
fn put_arm(page: &mut Words) {
    if page.get("of_call") == "c.merged" {
        page.set("call", "");
    }
    page.fill("this", " $call$ ");
    let is_first = !page.get("calls").contains(page.get("this"));
    page.append("calls", "$this$");
    page.fill(
        "call",
        if is_first {
            "$of_call$$call$"
        } else {
            "($of_call$$call$-in-$number$)"
        },
    );
    page.append("answers", REFUSED);
    let kind = page.get("kind");
    let is_list = kind.starts_with("Unpacked") || kind.starts_with("Packed");
    let is_asked = page.get("before").is_empty() || !page.get("in_groups").is_empty();
    let is_beside = page.get("sort") == "Leaving" && page.get("is_told").is_empty();
    if (is_list || is_asked) && !is_beside {
        page.append("answers", TAKEN);
        page.append("uses", USES_OF_TAKEN);
    }
}
