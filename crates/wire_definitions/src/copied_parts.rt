//! The parts of a message that are copied by themselves, as contracts see them.
use crate::tree::{Node, Tree};
use wire_schema::{Field, Words};

const DEFINITION: &str = "\
abbrev pub $copies_words$ : $copies_type$ → $part_value$
$copies_words$ m = $seen$

";

const USES_OF_DEFINITION: &str =
    "Rattle.$crate$.specs.declared.$module$.$copies_type$ $copies_type$\n";

// The most copies that may be refused one behind another: each has all before it to drop.
const MOST_REFUSALS: usize = 12;

/// The part that the field at this place is copied in, where a message has many copies that may be
/// refused.
pub fn copied_part<'a>(fields: &[Field], tree: &'a Tree, place: usize) -> Option<&'a Node> {
    let refused = fields
        .iter()
        .filter(|it| it.words.get("copy").ends_with('?'));
    if tree.has_groups || refused.count() > MOST_REFUSALS {
        return tree.outermost(place);
    }
    None
}

/// Puts what the parts are as contracts see them that are copied by themselves.
pub(crate) fn put_copies(page: &mut Words, fields: &[Field], tree: &Tree) {
    for place in 0..fields.len() {
        if let Some(part) = copied_part(fields, tree, place) {
            if part.first == place {
                page.copy(
                    &part.words,
                    &["copies_type", "copies_words", "part_value", "seen"],
                );
                page.append_all(&[("values", DEFINITION), ("uses", USES_OF_DEFINITION)]);
            }
        }
    }
}
