//! The proofs of the view of a message type: why a record that a field refuses is refused by the
//! view.
use crate::answers::{USES, put_whole, written};
use crate::view_owned::is_choice;
use wire_definitions::Tree;
use wire_schema::{Field, GenerateError, Template, Words};

// What is another thing for a view than for a message: the calls of its rows, the function, what it
// is given, and the call that keeps a record.
const OF_VIEW: [Template; 6] = [
    ("seen_by", "view_value"),
    ("of_call", "c.view_fields-"),
    ("of_goals", "$view_module$"),
    ("goals", "$view_name$MessageView.merge_field"),
    ("given", "c"),
    ("keeper", "keep_span"),
];

// The same of the leaf of a view of a type that holds itself, whose macro makes its calls; of one
// that does so alone, and of one of a family.
const OF_VIEW_LEAF: [Template; 7] = [
    ("seen_by", "view_value"),
    ("of_call", "c.view_fields-"),
    ("of_goals", "$view_module$"),
    ("given", "c"),
    ("keeper", "keep_span"),
    ("taken_uses", VIEW_LEAF_USES),
    (
        "levels",
        " _ _
    (fold_out-$view_name$$their_view_trees$$their_view_ones$ c.args.self.now)
    (fold-roll-$view_name$$their_view_trees$$their_view_ones$ _)",
    ),
];

const VIEW_LEAF_USES: &str = "\
$uses_inside$\
Rattle.wire_fields.specs.NestArms leaf_ok
Rattle.$crate$.specs.declared.$view_first$.TheFolds fold-roll-$view_name$
";

const VIEW_ALONE: [Template; 3] = [
    ("goals", "$view_name$RecursiveHeldRefSliceU8.merge_leaf"),
    (
        "before",
        "rw (fold_out-$view_name$$their_view_trees$$their_view_ones$ c.args.self.now)\n    (",
    ),
    (
        "uses",
        "$uses_of_known$$choice_view_answers$\
        Rattle.$crate$.specs.$name$ $name$-Value\n\
        Rattle.$crate$.specs.$name$ $module$-view_one\n\
        Rattle.$crate$.specs.declared.$view_module$.$view_name$ fold_out-$view_name$\n",
    ),
];

const VIEW_MEMBER: [Template; 3] = [
    ("goals", "$view_name$RecursiveViewFamilyView.merge_leaf"),
    (
        "before",
        "rw (fold_out-$view_name$$their_view_trees$$their_view_ones$ c.args.self.now)\n    \
        ($err_open$",
    ),
    (
        "uses",
        "$uses_of_known$$err_uses$\
        Rattle.$crate$.specs.declared.$view_module$.$view_name$ fold_out-$view_name$\n",
    ),
];

/// The answers of `merge_field` of a view.
pub fn view_answers_of(
    base: &Words,
    fields: &[Field],
    tree: &Tree,
) -> Result<String, GenerateError> {
    let mut page = Words::like(base);
    put_whole(&mut page, false);
    page.fill_all(&OF_VIEW);
    written(page, fields, tree)
}

/// The answers of `merge_leaf` of the view of a type that holds itself or is of a family: of these
/// fields, the leaf.
pub fn view_leaf_answers_of(
    base: &Words,
    fields: &[Field],
    tree: &Tree,
) -> Result<String, GenerateError> {
    let mut page = Words::like(base);
    put_whole(&mut page, true);
    let is_member = !page.get("family_name").is_empty();
    page.fill_all(&[("whole_uses", ""), ("uses_of_known", USES)]);
    page.fill("uses_inside", if is_member { "$inner_uses$" } else { "" });
    page.fill_all(&OF_VIEW_LEAF);
    page.fill_all(if is_member { &VIEW_MEMBER } else { &VIEW_ALONE });
    let mut choices = fields.iter().filter(|it| is_choice(it));
    if fields.is_empty() || choices.next().is_some() {
        page.set("of_call", "c.");
    }
    written(page, fields, tree)
}
