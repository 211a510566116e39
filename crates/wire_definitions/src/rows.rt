//! Which fields of a message are of its own type, or of one of its family.
use crate::choice::row_of;
use crate::choice_spot::set_choice;
use crate::runs::tell_parts;
use crate::tree::{Tree, tree_of_leaf};
use wire_schema::{Field, GenerateError, Template, Words};

/// Whether a field is of its message's own type, or of one of its family.
pub fn is_row(field: &Field) -> bool {
    !field.words.get("is_row").is_empty()
}

/// Tells the fields of these types that they are rows, and makes the tree of the others. The word
/// `family` of the base is ` A B `, the types, or ` A ` where a type holds itself alone.
pub fn leaf_tree(
    base: &mut Words,
    fields: Vec<Field>,
) -> Result<(Vec<Field>, Tree), GenerateError> {
    let alloc = base.alloc();
    if !base.get("choices").is_empty() {
        return Err(base.refused(SEVERAL));
    }
    let (order, rows, mut leaf) = parted(base, fields)?;
    if base.get("mismatch") == "keep" {
        return Err(base.refused(KEEPING));
    }
    let mut tree = tree_of_leaf(base, &mut leaf)?;
    if leaf.is_empty() {
        tree.words.fill_all(&NO_FIELDS);
    }
    let (mut rows, mut leaf) = (rows.into_iter(), leaf.into_iter());
    let mut fields = Vec::new(alloc);
    for is_row in order {
        let next = if is_row { rows.next() } else { leaf.next() };
        if let Some(field) = next {
            fields.push(field)?;
        }
    }
    tell_parts(alloc, &mut fields)?;
    set_choice(base, &fields, &tree.words);
    Ok((fields, tree))
}

// Whether each is a row, in order; the rows, and the fields of the leaf.
fn parted(
    base: &Words,
    fields: Vec<Field>,
) -> Result<(Vec<bool>, Vec<Field>, Vec<Field>), GenerateError> {
    let alloc = base.alloc();
    let mut order = Vec::new(alloc);
    let (mut rows, mut leaf) = (Vec::new(alloc), Vec::new(alloc));
    for mut field in fields {
        if is_own(base, &field.words) {
            field.words.set("is_row", "is_row");
        }
        let mut variants = Vec::new(alloc);
        if let Some(oneof) = &mut field.oneof {
            std::mem::swap(&mut variants, &mut oneof.rows);
        }
        let mut of = Words::new(alloc);
        of.copy(&field.words, &["field"]);
        let mut whole = Some(field);
        for variant in variants {
            let row = row_of(variant, &of, &mut whole);
            if let Some(field) = whole.take() {
                order.push(false)?;
                leaf.push(field)?;
            }
            order.push(true)?;
            rows.push(row)?;
        }
        if let Some(field) = whole {
            order.push(is_row(&field))?;
            if is_row(&field) {
                rows.push(field)?;
            } else {
                leaf.push(field)?;
            }
        }
    }
    Ok((order, rows, leaf))
}

const SEVERAL: &str = "$full$: messages that hold themselves or one another by several oneofs want \
                       encoded=FIELD";

const KEEPING: &str = "$full$: a message that holds itself, or what holds it, has no mismatch=keep";

// The tree of no fields.
const NO_FIELDS: [Template; 10] = [
    ("value", "⊤"),
    ("view", "tt"),
    ("view_seen", "tt"),
    ("table", "no_fields"),
    ("unlike", "refl"),
    ("range", "no_fields_range"),
    ("returned", "no_fields_returned"),
    ("stays", "no_fields_stay"),
    ("apart", "absurd h"),
    ("goes", "absurd h"),
];

/// What the definitions of a message without other fields bring in, and what is read back of it.
pub(crate) const USES_OF_NO_FIELDS: &str = "\
Rattle.std.specs.Prelude ⊤
Rattle.wire_fields.specs.NoFields no_fields
";

pub(crate) const NO_FIELDS_BACK: &str = "\
Rattle.wire_fields.specs.NoFields no_fields_range
Rattle.wire_fields.specs.NoFields no_fields_returned
";

/// Whether a message that holds itself has no other fields.
pub(crate) fn is_bare(fields: &[Field]) -> bool {
    fields.iter().all(is_row)
}

/// Where records of a row go: of one message or of many, which are groups or not.
pub fn place_of(field: &Field) -> &'static str {
    let kind = field.words.get("kind");
    if kind.starts_with("EachGroup<") {
        "EachGrouped"
    } else if kind.starts_with("Each") {
        "Each"
    } else if kind.starts_with("Group<") {
        "Grouped"
    } else {
        "Once"
    }
}

// Whether a field is an embedded message or a group of such a type, or a list of such.
fn is_own(base: &Words, field: &Words) -> bool {
    let kind = field.get("kind");
    let mut kinds = ["Embedded<", "Group<", "EachEmbedded<", "EachGroup<"].iter();
    kinds.any(|it| kind.starts_with(*it)) && is_of_family(base, field)
}

fn is_of_family(base: &Words, field: &Words) -> bool {
    let is_here = field.get("of_crate") == base.get("crate");
    is_here
        && base
            .get("family")
            .split(' ')
            .any(|it| it == field.get("of_name") && it != "")
}
