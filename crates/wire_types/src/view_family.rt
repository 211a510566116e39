//! The code of views that hold one another: the enum of all of them passes on what is asked, and
//! the messages are made of them.
use crate::choice_code::CHOICE;
use crate::view_owned::{put_owned, tell_held};
use wire_definitions::{code_imports, ghost_imports, set_heading};
use wire_schema::{Field, GenerateError, Template, Words};

const USES: &str = "\
crate::$family_module$ FamilyHeld
std::alloc Global
wire_codec DecodeContext
wire_codec DecodeError
wire_codec Tag
wire_fields Place
wire_fields RecursiveHeld
wire_fields RecursiveMember
wire_views RecursiveView
";

const WHAT: &str = "Views that hold one another, as one type: $listed$.";

const HELD_GHOSTS: &str = "\
Rattle.$crate$.specs.$family_name$ Family-Leaves
Rattle.$crate$.specs.$family_name$ Family-Sorts
Rattle.$crate$.specs.$family_name$ family-all
Rattle.$crate$.specs.$family_name$ family-singles
Rattle.$crate$.specs.$family_name$ family-view-sort
Rattle.$crate$.specs.$family_name$ family-view-value
";

const FAMILY: &str = "
// One of them, moved out of a view or into it.
#[derive(Drop)]
pub(crate) enum FamilyView<'a> {
$helds$}

impl<'a> RecursiveHeld<&'a [u8]> for FamilyView<'a> {
$ghost_imports$
    ghost Sort = { Family-Sorts };

    ghost Leaf = { Family-Leaves };

    ghost sort = { family-view-sort };

    ghost view = { family-view-value };

    ghost family = { family-all };

    ghost single = { family-singles };

    fn place(&self, number: u32) -> Place {
        match self {
$placed$        }
    }

    fn new_in(&self, alloc: Global, row: usize) -> FamilyView<'a> {
        match self {
$made$        }
    }

    fn take(&mut self, alloc: Global, row: usize) -> FamilyView<'a> {
        match self {
$taken$        }
    }

    fn put(
        &mut self,
        alloc: Global,
        row: usize,
        message: FamilyView<'a>,
    ) -> Result<(), DecodeError> {
        match self {
$put$        }
    }

    fn push(&mut self, row: usize, message: FamilyView<'a>) -> Result<(), DecodeError> {
        match self {
$pushed$        }
    }

    fn merge_leaf(
        &mut self,
        alloc: Global,
        tag: Tag,
        buf: &mut &'a [u8],
        context: &mut DecodeContext,
    ) -> Result<(), DecodeError> {
        match self {
$merged$        }
    }
}
";

const OF_MEMBER: [Template; 9] = [
    (
        "uses",
        "crate::$module$ $name$\ncrate::$view_module$ $view_name$\n",
    ),
    ("helds", "    $name$($view_name$<'a>),\n"),
    (
        "placed",
        "            FamilyView::$name$(_) => <$name$ as RecursiveMember<FamilyHeld>>::place(number),\n",
    ),
    (
        "made",
        "            FamilyView::$name$(_) => $view_name$::new_in(alloc, row),\n",
    ),
    (
        "taken",
        "            FamilyView::$name$(own) => own.take(alloc, row),\n",
    ),
    (
        "put",
        "            FamilyView::$name$(own) => own.put(alloc, row, message),\n",
    ),
    (
        "pushed",
        "            FamilyView::$name$(own) => own.push(row, message),\n",
    ),
    (
        "merged",
        "            FamilyView::$name$(own) => own.merge_leaf(alloc, tag, buf, context),\n",
    ),
    ("listed", "$and$`$view_name$`"),
];

/// The module of the enum of these views, whose words the pages have, and of what makes messages of
/// them: of each there are its fields.
pub fn family_view_code(
    base: &Words,
    members: &[Words],
    fields: &[Vec<Field>],
) -> Result<String, GenerateError> {
    let mut page = Words::like(base);
    page.append("uses", USES);
    page.fill_all(&[("each_of", ""), ("once_of", "")]);
    for own in fields {
        tell_held(&mut page, own);
    }
    for (place, member) in members.iter().enumerate() {
        page.copy(member, &["name", "module", "view_name", "view_module"]);
        page.copy(member, &CHOICE);
        let is_first = page.get("listed").is_empty();
        page.set("and", if is_first { "" } else { ", " });
        page.append_all(&OF_MEMBER);
        if let Some(own) = fields.get(place) {
            put_owned(&mut page, own);
        }
    }
    use_kinds(&mut page);
    code_imports(&mut page);
    page.fill("ghosts", "$head_ghosts$");
    ghost_imports(&mut page, "");
    set_heading(&mut page, "//!", WHAT);
    page.fill("text", "$heading$$ghost_imports$\n$imports$");
    page.fill("ghosts", HELD_GHOSTS);
    ghost_imports(&mut page, "    ");
    page.append("text", FAMILY);
    page.append("text", "$all_owned$");
    page.finish("text")
}

// Brings in what the kinds of fields name, of all that views bring in for them.
fn use_kinds(page: &mut Words) {
    let lines = page.take("kinds_code");
    let owned = page.take("all_owned");
    for line in lines.split('\n') {
        let (_, name) = line.split_once(' ').unwrap_or((line, ""));
        let mut words = owned.split(|it: char| !it.is_alphanumeric() && it != '_');
        if words.any(|it| it == name && it != "") {
            page.set("line", line);
            page.append("uses", "$line$\n");
        }
    }
    page.set("all_owned", &owned);
}

const LEAF_HEAD: &str = "\
use Rattle.$crate$.proofs.$family_view_module$.FamilyViewRecursiveHeldRefSliceU8.merge_leaf.Goals as goal
$answers$";

const LEAF: &str = "
pub returns-in-$name$-clause-err : goal.returns-in-$name$-clause-err
returns-in-$name$-clause-err c = rw c.in-$name$.is $call$.ensures.err
";

/// The answers of `merge_leaf` of all of them as one type.
pub fn view_leaf_answers(base: &Words, members: &[Words]) -> Result<String, GenerateError> {
    let mut page = Words::like(base);
    page.fill("answers", "");
    for member in members {
        page.copy(member, &["name"]);
        let is_first = page.get("answers").is_empty();
        page.fill(
            "call",
            if is_first {
                "c.merge_leaf"
            } else {
                "(c.merge_leaf-in-$name$)"
            },
        );
        page.append("answers", LEAF);
    }
    page.fill("text", LEAF_HEAD);
    page.finish("text")
}

/// Those of `merge_field` of one of them.
pub const MEMBER_MERGE: &str = "\
use Rattle.std.proofs.Common.{sym}
use Rattle.$crate$.proofs.$view_module$.$view_name$MessageView.merge_field.Goals as goal

pub returns-in-$name$-clause-err : goal.returns-in-$name$-clause-err
returns-in-$name$-clause-err c =
    rw (sym c.replace.ensures.value) c.merge_held-merged.ensures.err
";
