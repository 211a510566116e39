//! The fields of a message as a struct shows them: as trees of pairs, which its definitions, its
//! code and its proofs have alike.
use crate::struct_mixed::set_mixed;
use wire_definitions::{Tree, tree_of};
use wire_schema::{Field, GenerateError, Template, Words};

/// What a struct shows, its table, and why no record adds a level but its own, as the tree's
/// `view`, its `table` and its word `stays`.
#[derive(Drop)]
pub struct StructTrees {
    pub shown: Tree,
    /// Where messages are inside, so that not all of a value is shown.
    pub mixed: Option<Mixed>,
}

/// What is written of a struct, with why what is seen of that is what is shown; and what is seen of
/// a value, with why a struct is read where the message is: their words `stays`.
#[derive(Drop)]
pub struct Mixed {
    pub written: Tree,
    pub seen: Tree,
}

const IN_STRUCT: [Template; 2] = [("table", "$struct_table$"), ("bracketed", "$struct_type$")];

const AS_WRITTEN: [Template; 8] = [
    ("table", "$own_table$"),
    ("leaves", "$list_leaves$"),
    ("stays", "$same$"),
    ("both_stays", "same_pair _ _"),
    ("own_place", "$path$"),
    ("path", ""),
    ("firsts", ""),
    ("view", "$written$"),
];

// (where a field is among the others is known now)
const AS_SEEN: [Template; 7] = [
    ("all_leaves", "$leaves$"),
    ("leaves", ""),
    ("path", ""),
    ("firsts", ""),
    ("view", "$seen$v.0$own_place$"),
    ("stays", "$shows$"),
    ("both_stays", "two_shown _ _ _ _ _ _"),
];

/// The trees of these fields, whose words in a struct are set.
pub fn trees_of(page: &mut Words, fields: &mut [Field]) -> Result<StructTrees, GenerateError> {
    let is_mixed = fields.iter().any(|it| !it.words.get("is_mixed").is_empty());
    for field in fields.iter_mut() {
        set_mixed(&mut field.words);
    }
    if !is_mixed {
        page.set("part_view", "shown");
        let shown = tree_of(page, fields, true)?;
        return Ok(StructTrees { shown, mixed: None });
    }
    let shown = in_place(page, fields, &IN_STRUCT)?;
    for field in fields.iter_mut() {
        field.words.fill_all(&AS_WRITTEN);
    }
    let has_lists = !page.get("of_lists").is_empty();
    page.set("part_view", if has_lists { "written l" } else { "written" });
    let written = tree_of(page, fields, true)?;
    let seen = in_place(page, fields, &AS_SEEN)?;
    Ok(StructTrees {
        shown,
        mixed: Some(Mixed { written, seen }),
    })
}

// The tree of fields with these words, whose parts stand where they are.
fn in_place(
    page: &mut Words,
    fields: &mut [Field],
    words: &'static [Template],
) -> Result<Tree, GenerateError> {
    for field in fields.iter_mut() {
        field.words.fill_all(words);
    }
    page.set("part_view", "in_place");
    tree_of(page, fields, true)
}
