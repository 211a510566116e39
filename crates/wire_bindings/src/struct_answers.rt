//! The proofs of the struct of a message: what it makes of a record is what its table says.
use crate::struct_trees::StructTrees;
use wire_definitions::definition_imports;
use wire_schema::{Field, GenerateError, Template, Words};

const USES: &str = "\
Rattle.std.proofs.Common refl
Rattle.std.proofs.Common rules
Rattle.std.proofs.Common sym
Rattle.std.proofs.Common ◌∙◌
Rattle.wire_codec.specs.TagView tag_number
Rattle.wire_fields.specs.Arms arm_ok
Rattle.wire_fields.specs.Arms unlike
Rattle.wire_structs.proofs.Arms arm_refused
Rattle.wire_structs.proofs.Arms rest_refused
Rattle.wire_structs.specs.Passed passes
Rattle.$crate$.specs.$name$InC $module$-struct
";

// The table of the fields.
const OF_SAME: [Template; 2] = [
    ("struct_known", "$module$-known"),
    ("uses", "$uses$Rattle.$crate$.specs.$name$ $struct_known$\n"),
];

const OF_MIXED: [Template; 2] = [
    ("struct_known", "$module$-struct_known"),
    (
        "uses",
        "$uses$Rattle.$crate$.specs.$name$InC $struct_known$\n",
    ),
];

const PAIRED: &str = "Rattle.wire_fields.specs.Arms neither\n";

// Of many numbers the search does not find that what is passed by is none of theirs.
const MANY: usize = 8;

const USES_OF_REST: &str = "Rattle.wire_fields.specs.Arms to_rest\n";

const ARM: &str = "
pub returns-in-$number$-clause-ok : goal.returns-in-$number$-clause-ok
returns-in-$number$-clause-ok c =
    arm_ok $module$-struct.takes $struct_step$ $number$ _
    (sym c.field_number.ensures.number ∙ c.in-$number$.is) _ _ _ _
    (λ charge p h. $taken$) _ _ _ _ _
    $of_call$.result $ensures_ok$

pub returns-in-$number$-clause-err : goal.returns-in-$number$-clause-err
returns-in-$number$-clause-err c =
    arm_refused $module$-struct.takes $struct_step$ $number$ _
    (sym c.field_number.ensures.number ∙ c.in-$number$.is) _ _
    (λ charge z p h. (z.0$path$, h.0$firsts$)) _ _ _
    $of_call$.result $ensures_err$
";

const ENDS: [Template; 3] = [
    ("ensures_ok", "($of_call$.ensures.ok _)"),
    ("ensures_err", "($of_call$.ensures.err _)"),
    ("uses", "$uses$Rattle.$crate$.specs.$name$ $struct_sort$\n"),
];

const ENDS_OF_ONEOF: [Template; 2] = [
    ("ensures_ok", "$of_call$.ensures.ok"),
    ("ensures_err", "$of_call$.ensures.err"),
];

const ENDS_OF_INSIDE: [Template; 3] = [
    ("ensures_ok", "$of_call$.ensures.ok"),
    ("ensures_err", "$of_call$.ensures.err"),
    (
        "uses",
        "$uses$Rattle.$crate$.specs.$name$InC $struct_sort$\n",
    ),
];

const ENDS_OF_NUMBERS: [Template; 3] = [
    ("ensures_ok", "($of_call$.ensures.ok _)"),
    ("ensures_err", "($of_call$.ensures.err _)"),
    (
        "uses",
        "$uses$Rattle.$crate$.specs.$name$InC $struct_sort$\n",
    ),
];

const REST: &str = "
pub returns-in_default-clause-err : goal.returns-in_default-clause-err
returns-in_default-clause-err c =
    let n = tag_number c.args.tag in
    rest_refused $struct_known$.owns $struct_known$.takes passes n
    (λ p. $unlike$)
    _ _ _ _ c.pass_by.result c.pass_by.ensures.err
";

const REST_TAKEN: &str = "
pub returns-in_default-clause-ok : goal.returns-in_default-clause-ok
returns-in_default-clause-ok c =
    let n = tag_number c.args.tag in
    arm_ok $module$-struct.takes passes n n refl _ _ _ _
    (λ charge p h. to_rest $struct_known$.owns $struct_known$.takes passes n
    (λ p. $unlike$)
    _ charge _ p h)
    _ _ _ _ _ c.pass_by.result c.pass_by.ensures.ok
";

const PAGE: &str = "\
$imports$use Rattle.$crate$.proofs.$module$_in_c.$name$InCMessageStruct.merge_field.Goals as goal
$answers$";

/// The answers of `merge_field` of a struct.
pub fn struct_answers_of(
    base: &Words,
    fields: &[Field],
    trees: &StructTrees,
) -> Result<String, GenerateError> {
    let mut page = Words::like(base);
    page.fill("uses", USES);
    page.fill_all(if trees.mixed.is_some() {
        &OF_MIXED
    } else {
        &OF_SAME
    });
    let mut count = 0usize;
    for field in fields {
        for number in field.words.get("numbers").split(' ') {
            put_arm(&mut page, &field.words, number);
            count = count.saturating_add(1);
        }
    }
    page.append("uses", if count > 1 { PAIRED } else { "" });
    page.copy(&trees.shown.words, &["unlike"]);
    if count > MANY {
        page.append("answers", REST_TAKEN);
        page.append("uses", USES_OF_REST);
    }
    page.append("answers", REST);
    definition_imports(&mut page);
    page.fill("text", PAGE);
    page.finish("text")
}

// The answers of one field; the first call of a function has no number in its name.
fn put_arm(page: &mut Words, field: &Words, number: &str) {
    page.copy(field, &["field", "call", "taken", "path", "firsts"]);
    page.copy(field, &["struct_sort", "struct_step", "is_mixed"]);
    page.copy(field, &["in_c", "oneof_module", "is_of_numbers"]);
    page.set("number", number);
    page.fill("this", " $call$ ");
    let is_first = !page.get("calls").contains(page.get("this"));
    page.append("calls", "$this$");
    page.fill(
        "of_call",
        if is_first {
            "c.$call$"
        } else {
            "(c.$call$-in-$number$)"
        },
    );
    match page.get("is_mixed") {
        "" => page.fill_all(&ENDS),
        "oneof" => {
            page.fill_all(&ENDS_OF_ONEOF);
            page.append("uses", "$in_c$ $oneof_module$-struct\n");
        }
        _ if !page.get("is_of_numbers").is_empty() => page.fill_all(&ENDS_OF_NUMBERS),
        _ => page.fill_all(&ENDS_OF_INSIDE),
    }
    page.append("answers", ARM);
}
