//! The proofs of what makes a message of no records of one that holds itself, where its fields are
//! many: field by field, from the call of each, as `empty_answers`.
use crate::copies_answers::put_same;
use crate::other_rows::is_of_many;
use wire_definitions::{definition_imports, is_row};
use wire_schema::{Field, GenerateError, Template, Words};

const USES: &str = "\
Rattle.std.proofs.Common ap
Rattle.std.proofs.Common refl
Rattle.std.proofs.Common rules
Rattle.std.proofs.Common ◌∙◌
Rattle.std.proofs.Common ◌≡◌
Rattle.wire_fields.specs.Nest Nest
Rattle.wire_fields.specs.Nest leaf_of
Rattle.wire_fields.specs.Nest rows_of
Rattle.wire_fields.specs.Nest same_nest
Rattle.wire_fields.specs.NestTable empty_of
Rattle.wire_fields.specs.Shape same_pair
Rattle.$crate$.specs.declared.$first_type$.TheFolds fold-roll-$name$
";

const HEAD: &str = "\
$imports$$alias$use Rattle.$crate$.proofs.$module$.$folder_of_rows$.$function$.Goals as goal

seen_as : {L : Type 0} (seen m e : Nest L) → seen ≡ m → leaf_of m ≡ leaf_of e
    → rows_of m ≡ rows_of e → seen ≡ e
seen_as seen m e view leaf rows = view ∙ same_nest m e leaf rows

pub returns : goal.returns
returns c = seen_as _ _ (empty_of $of_home$$module$-table)
    (fold-roll-$name$$their_trees$$their_ones$ _)
    ($leaf_open$same_pair _ _ ($tree$)
    ($of_rest$)$leaf_close$)
    ($of_rows$)
";

const CALL: &str = "search (rules, c.$call$$nth$.ensures)";

// The list that a row is, where it is one of the calls.
const OF_ROW: Template = ("row_calls", ", c.$row_call$$nth$.ensures");

/// What makes a message of no records, and what clears one: the calls of a field, of a row of many
/// messages, and of the unknown fields, of which those of one name are numbered together.
pub const EMPTY: [Template; 4] = [
    ("function", "empty"),
    ("call", "empty"),
    ("row_call", "new"),
    ("folder_of_rows", "$name$RecursiveMember$held$"),
];

pub const CLEAR: [Template; 4] = [
    ("function", "clear"),
    ("call", "clear"),
    ("row_call", "clear"),
    ("folder_of_rows", "$name$MessageFields"),
];

const OF_MEMBER: [Template; 4] = [
    ("held", "FamilyHeld"),
    (
        "alias",
        "use Rattle.$crate$.specs.$family_name$ as family\n",
    ),
    ("leaf_open", "ap (λ l. $into_open$l$into_close$) ("),
    ("leaf_close", ")"),
];

const OF_ALONE: [Template; 5] = [
    ("held", ""),
    ("alias", "$uses_of_choice$"),
    ("leaf_open", ""),
    ("leaf_close", ""),
    (
        "uses",
        "Rattle.$crate$.specs.$name$ $name$-Value\n\
        Rattle.$crate$.specs.$name$ $module$-one\nRattle.$crate$.specs.$name$ $module$-table\n",
    ),
];

// The calls of one name so far.
#[derive(Clone, Copy)]
struct Calls {
    fields: usize,
    rows: usize,
}

impl Calls {
    // The number of the next call of a row, or of the unknown fields.
    fn next_of_rows(&mut self, are_one: bool) -> usize {
        if are_one {
            self.fields = self.fields.saturating_add(1);
            self.fields
        } else {
            self.rows = self.rows.saturating_add(1);
            self.rows
        }
    }
}

/// The answers of one of these.
pub fn leaf_empty_answers(
    base: &Words,
    fields: &[Field],
    function: &'static [Template],
) -> Result<String, GenerateError> {
    let mut page = Words::like(base);
    let is_member = !page.get("family_name").is_empty();
    page.fill("uses", USES);
    page.append_all(if is_member { &OF_MEMBER } else { &OF_ALONE });
    page.fill("of_home", if is_member { "family." } else { "" });
    use_sides(&mut page);
    page.fill_all(function);
    page.set("tree", "");
    page.set("gap", "\n    ");
    let are_one = page.get("call") == page.get("row_call");
    let mut calls = Calls { fields: 0, rows: 0 };
    let mut left = fields.iter().filter(|it| !is_row(it)).count();
    for field in fields {
        if !is_row(field) {
            left = left.saturating_sub(1);
            put_leaf(&mut page, field, &mut calls, left == 0);
        } else if is_of_many(field) {
            let nth = calls.next_of_rows(are_one);
            set_nth(&mut page, nth);
            page.append(OF_ROW.0, OF_ROW.1);
        }
    }
    put_rest(&mut page, calls.next_of_rows(are_one));
    let has_lists = !page.get("row_calls").is_empty();
    page.fill(
        "of_rows",
        if has_lists {
            "search (rules$row_calls$)"
        } else {
            "refl"
        },
    );
    definition_imports(&mut page);
    page.fill("text", HEAD);
    page.finish("text")
}

// What the leaf of one of a family stands in.
fn use_sides(page: &mut Words) {
    for side in ["inl", "inr"] {
        if page.get("leaf_open").contains(side) {
            page.set("side", side);
            page.append("uses", "Rattle.std.proofs.Common $side$\n");
        }
    }
}

fn put_leaf(page: &mut Words, field: &Field, calls: &mut Calls, is_last: bool) {
    let is_choice = field.oneof.is_some() && !field.words.get("in_choice").is_empty();
    if is_choice {
        page.set("same", "refl");
    } else {
        calls.fields = calls.fields.saturating_add(1);
        set_nth(page, calls.fields);
        page.fill("same", CALL);
    }
    put_same(page, field.words.get("path"), is_last);
}

// The unknown fields, where they are kept.
fn put_rest(page: &mut Words, nth: usize) {
    set_nth(page, nth);
    let is_kept = page.get("unknown") == "keep";
    page.fill(
        "of_rest",
        if is_kept {
            "search (rules, c.$row_call$$nth$.ensures)"
        } else {
            "refl"
        },
    );
}

// How the call of this number is told from others of its name.
fn set_nth(page: &mut Words, nth: usize) {
    page.index("nth", nth);
    page.fill("nth", if nth > 1 { "-$nth$" } else { "" });
}
