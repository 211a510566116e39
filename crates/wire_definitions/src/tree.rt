//! The fields of a message as a balanced tree of pairs, which its code, its definitions and its
//! proofs have alike.
use crate::pairs::{leaf, pair, reach};
use crate::spans::{Span, groups_of_leaf, has_groups, is_before_others, is_few, parts_of};
use crate::view_definitions::has_view;
use wire_schema::{Field, GenerateError, Template, Words};

/// The fields of a message as a tree. Its words are those of the root but for its numbers.
#[derive(Drop)]
pub struct Tree {
    pub words: Words,
    /// Where there are many fields, those in a row that have a type of their own, an inner one
    /// before the one that it is in.
    pub parts: Vec<Node>,
    /// Whether those that are in no other are groups, of which each has a function that takes its
    /// records.
    pub has_groups: bool,
}

/// Fields in a row, as one part of the tree. Its words are the first and the last number, `low` and
/// `high`; its type `value` as contracts see it, and how a message `m` is seen so, its `view`, the
/// same field by field, `seen`, and the same of its view, `view_seen`; the `table`, how its fields
/// are paired, the `grouping`, and why a number is none of it, `unlike`; the `range` of values that
/// are read back, why they are, `returned`, why decoding gives such, `stays`, why a number `h` that
/// is one of it is none of others, `apart`, and why such a one goes to no row, `goes`.
#[derive(Drop)]
pub struct Node {
    pub first: usize,
    pub behind: usize,
    pub words: Words,
}

impl Node {
    // Whether all these fields are in a row.
    fn has(&self, first: usize, behind: usize) -> bool {
        self.first <= first && behind <= self.behind
    }

    // Whether it is a part within another.
    fn is_in(&self, other: &Node) -> bool {
        other.has(self.first, self.behind) && !self.has(other.first, other.behind)
    }
}

impl Tree {
    /// Whether fields in a row stand in a part, or in the whole where that is none, and in no part
    /// within that.
    pub fn has(&self, part: Option<&Node>, first: usize, behind: usize) -> bool {
        match part {
            Some(part) => {
                let mut inner = self.parts.iter().filter(|it| it.is_in(part));
                part.has(first, behind) && !inner.any(|it| it.has(first, behind))
            }
            None => !self.parts.iter().any(|it| it.has(first, behind)),
        }
    }

    /// The same of a part.
    pub fn has_part(&self, part: Option<&Node>, inner: &Node) -> bool {
        let mut between = self.parts.iter().filter(|it| inner.is_in(it));
        match part {
            Some(part) => inner.is_in(part) && !between.any(|it| it.is_in(part)),
            None => between.next().is_none(),
        }
    }

    /// Whether this part is a group.
    pub fn is_group(&self, part: &Node) -> bool {
        self.has_groups && self.has_part(None, part)
    }

    /// The group behind this one.
    pub fn next_group(&self, group: &Node) -> Option<&Node> {
        let mut behind = self.parts.iter().filter(|it| it.first == group.behind);
        behind.find(|it| self.is_group(it))
    }

    /// The part of the field at this place that is in no other but a group.
    pub fn outermost(&self, place: usize) -> Option<&Node> {
        let behind = place.saturating_add(1);
        let parts = self.parts.iter().filter(|it| it.has(place, behind));
        parts.filter(|it| is_few(it.first, it.behind)).last()
    }
}

// What a part by itself is called, in code and in definitions, and its value.
const NAMES: [Template; 5] = [
    ("part_type", "$name$Fields$low$To$high$"),
    ("part_words", "$module$-fields-$low$-to-$high$"),
    ("part_value", "$name$-Fields-$low$-To-$high$"),
    ("copies_type", "$name$Copies$low$To$high$"),
    ("copies_words", "$module$-copies-$low$-to-$high$"),
];

// The word of a base whose parts stand where they are as what they are, and are not named; and of
// one of which their tables are, and what is read back of them.
const IN_PLACE: &str = "in_place";

const IN_LEAF: &str = "in_leaf";

const NAMED_IN_LEAF: [Template; 4] = [
    ("table", "$part_words$"),
    ("range", "$part_words$-range"),
    ("returned", "$part_words$-returned g"),
    ("goes", "$part_words$-goes g n h"),
];

// The name in the place of what it is.
const NAMED: [Template; 4] = [
    ("value", "$part_value$"),
    ("view", "$part_words$-$part_view$ m"),
    ("view_seen", "$part_words$-view_value m"),
    ("table", "$part_words$"),
];

// Behind the function that takes the records of a group, a record is none of these.
const NONE_OF_GROUP: &str = "c.requires.others_$low$_to_$high$ p";

/// The tree of these fields, with parts by themselves where they may be: of each part, and of the
/// whole, what stands there is paired with its neighbour, and so are the pairs. Each field is told
/// its `path`. A part is seen by its definition of the `part_view` of the base, or `value`;
/// where that is `in_place`, by none. Where a field has the word `leaves`, why a record of another
/// number leaves the list that it is, the word becomes why it does so among all fields.
pub fn tree_of(base: &Words, fields: &mut [Field], has_parts: bool) -> Result<Tree, GenerateError> {
    let alloc = base.alloc();
    let spans = if has_parts {
        parts_of(alloc, fields)?
    } else {
        Vec::new(alloc)
    };
    let mut tree = tree_with(base, fields, spans)?;
    tree.has_groups = has_parts && has_groups(fields.len());
    Ok(tree)
}

/// The tree of the fields of a leaf, whose parts are groups alone, where there are many.
pub(crate) fn tree_of_leaf(base: &mut Words, leaf: &mut [Field]) -> Result<Tree, GenerateError> {
    let alloc = base.alloc();
    let groups = if has_view(base) {
        Vec::new(alloc)
    } else {
        groups_of_leaf(alloc, leaf.len())?
    };
    base.set("part_view", IN_LEAF);
    let mut tree = tree_with(base, leaf, groups)?;
    base.set("part_view", "");
    tree.has_groups = !tree.parts.is_empty();
    Ok(tree)
}

// The tree of these fields with these parts, an inner one before the one that it is in.
fn tree_with(base: &Words, fields: &mut [Field], spans: Vec<Span>) -> Result<Tree, GenerateError> {
    let alloc = base.alloc();
    let mut parts = Vec::new(alloc);
    let mut nodes = Vec::new(alloc);
    for (place, field) in fields.iter_mut().enumerate() {
        field.words.fill("taken", "(h, refl)");
        nodes.push(leaf(base, place, &field.words))?;
    }
    for span in spans {
        nodes = gathered(nodes, span, fields, &mut parts)?;
    }
    let mut words = Words::new(alloc);
    if let Some(root) = joined(nodes, fields)? {
        words.set_all(&root.words);
    }
    words.ended()?;
    Ok(Tree {
        words,
        parts,
        has_groups: false,
    })
}

// The same with those in a span as a part, which stands behind the `parts` there are.
fn gathered(
    nodes: Vec<Node>,
    span: Span,
    fields: &mut [Field],
    parts: &mut Vec<Node>,
) -> Result<Vec<Node>, GenerateError> {
    let alloc = *nodes.allocator();
    let mut outer = Vec::new(alloc);
    let mut inner = Vec::new(alloc);
    for node in nodes {
        if node.first < span.first || span.behind < node.behind {
            outer.push(node)?;
            continue;
        }
        let is_last = node.behind == span.behind;
        inner.push(node)?;
        if is_last {
            let within = std::mem::replace(&mut inner, Vec::new(alloc));
            if let Some(whole) = joined(within, fields)? {
                let mut part = named(whole, parts)?;
                keep_path(span, fields);
                if is_before_others(span, fields.len()) {
                    part.words.fill("unlike", NONE_OF_GROUP);
                }
                outer.push(part)?;
            }
        }
    }
    Ok(outer)
}

// The way to each field from the part that it is in, that in no other but a group at last.
fn keep_path(span: Span, fields: &mut [Field]) {
    for (place, field) in fields.iter_mut().enumerate() {
        let has = span.first <= place && place < span.behind;
        if has && is_few(span.first, span.behind) {
            field.words.fill("own_path", "$path$");
        }
    }
}

// All of these as one, where there are any.
fn joined(mut nodes: Vec<Node>, fields: &mut [Field]) -> Result<Option<Node>, GenerateError> {
    let alloc = *nodes.allocator();
    // Each turn halves the number of nodes.
    for _ in 0..usize::BITS {
        if nodes.len() < 2 {
            break;
        }
        let mut next = Vec::new(alloc);
        let mut left: Option<Node> = None;
        for node in nodes {
            match left.take() {
                Some(first) => {
                    reach(&first, &node, fields);
                    next.push(pair(first, node))?;
                }
                None => left = Some(node),
            }
        }
        if let Some(last) = left {
            next.push(last)?;
        }
        nodes = next;
    }
    Ok(nodes.pop())
}

// Makes a node a part by itself, which is named where it stands.
fn named(mut node: Node, parts: &mut Vec<Node>) -> Result<Node, GenerateError> {
    node.words.fill_all(&NAMES);
    parts.push(Node {
        first: node.first,
        behind: node.behind,
        words: Words::like(&node.words),
    })?;
    match node.words.get("part_view") {
        IN_PLACE => {}
        IN_LEAF => node.words.fill_all(&NAMED_IN_LEAF),
        _ => node.words.fill_all(&NAMED),
    }
    Ok(node)
}
