//! The fields of a struct as they are written: as a tree of parts.
use crate::struct_trees::StructTrees;
use std::alloc::Global;
use wire_definitions::{Node, WIDTH, ghost_imports};
use wire_schema::{Field, GenerateError, Template, Words};

// Fields in a row, as they are written: all of them, or a part.
const FIELDS: &str = "
$doc$
#[derive(Drop)]
$seen$struct $part_name$<'h, 'a> {
    $seen$message: &'h $name$InC<'a>,
$lists_member$}

$listed_doc$
macro_rules! $listed$ {
    ($handed$) => {
        $parts$
    };
}

impl<'h, 'a> StructPart for $part_name$<'h, 'a> {
$ghost_imports$
    ghost records = { $records$ };

    #[inline(always)]
    fn len(&self) -> u64 {
        $listed$!($given$).len()
    }

    #[inline(always)]
    fn put<E: EncodeSink>(&self, sink: &mut E) -> Result<(), EncodeError> {
        $listed$!($given$).put(sink)
    }
}
";

const FIELD_GHOSTS: &str = "\
Rattle.$crate$.specs.$name$ $part_words$
Rattle.$crate$.specs.$name$InC $part_shown$
";

const OF_ALL: [Template; 8] = [
    (
        "doc",
        "/// The fields of a `$name$InC`, as they are written.",
    ),
    ("seen", "pub "),
    ("part_name", "$name$InCFields"),
    ("listed", "parts"),
    ("listed_doc", "// The fields one by one."),
    ("part_words", "$module$-known"),
    ("part_shown", "$module$-shown"),
    (
        "records",
        "λ f. $module$-known.records ($module$-shown f.message.now).0",
    ),
];

const OF_PART: [Template; 7] = [
    ("doc", "// The fields $low$ to $high$."),
    ("seen", ""),
    ("part_name", "$name$InCFields$low$To$high$"),
    ("listed", "parts_$low$_to_$high$"),
    ("listed_doc", "// These one by one."),
    ("part_shown", "$part_words$-shown"),
    (
        "records",
        "λ f. $part_words$.records ($part_shown$ f.message.now)",
    ),
];

// What the fields are of: the message, and where it has lists these.
const OF_MESSAGE: [Template; 5] = [
    ("lists_member", ""),
    ("handed", "$message$:expr"),
    ("given", "self.message"),
    ("lists_handed", ""),
    ("of_part", ""),
];

const OF_MESSAGE_AND_LISTS: [Template; 5] = [
    ("lists_member", "    $seen$lists: &'h $name$InCLists<'a>,\n"),
    ("handed", "$message$:expr, $lists$:expr"),
    ("given", "self.message, self.lists"),
    ("lists_handed", "    lists: $lists$,\n"),
    ("of_part", " f.lists.now"),
];

// The same of a message that has messages inside.
const OF_ALL_MIXED: [Template; 3] = [
    ("part_shown", "$module$-written"),
    (
        "records",
        "λ f. $module$-known.records\n        \
        ($module$-written f.message.now$of_part$ Fields.none).0",
    ),
    ("ghosts", "Rattle.wire_codec.specs.Field Fields\n"),
];

const OF_PART_MIXED: [Template; 3] = [
    ("part_shown", "$part_words$-written"),
    (
        "records",
        "λ f. $part_words$.records\n        ($part_shown$$of_part$ f.message.now)",
    ),
    ("ghosts", ""),
];

// A message inside, as it is written.
const INSIDE: &str = "
// The field `$field$`, as it is written.
#[derive(Drop)]
struct $name$InCField$number$<'h, 'a> {
    message: &'h $name$InC<'a>,
}

impl<'h, 'a> StructPart for $name$InCField$number$<'h, 'a> {
$ghost_imports$
    ghost records = { λ f. $module$-$field$-kind.kind.records $number$
        (flagged f.message.now.has_$field$
        ($of_module$-written f.message.now.$field$ Fields.none)) };

    fn len(&self) -> u64 {
$inside_len$
    }

    fn put<E: EncodeSink>(&self, sink: &mut E) -> Result<(), EncodeError> {
        let has = self.message.has_$field$;
        put_optional_message::<$of_name$InC<'a>, E>($number$, has, &self.message.$field$, sink)
    }
}
";

const INSIDE_LEN: &str = "        optional_message_len::<$of_name$InC<'a>>\
    ($number$, self.message.has_$field$, &self.message.$field$)";

const LONG_INSIDE_LEN: &str = "        optional_message_len::<$of_name$InC<'a>>(
            $number$,
            self.message.has_$field$,
            &self.message.$field$,
        )";

const INSIDE_GHOSTS: &str = "\
Rattle.wire_codec.specs.Field Fields
Rattle.wire_structs.specs.Flags flagged
Rattle.$crate$.specs.$name$ $module$-$field$-kind
Rattle.$crate$.specs.$of_name$InC $of_module$-written
";

// A list, as it is written.
const LIST: &str = "
// The field `$field$`, as it is written.
#[derive(Drop)]
struct $name$InCField$number$<'h, 'a> {
    lists: &'h $name$InCLists<'a>,
}

impl<'h, 'a> StructPart for $name$InCField$number$<'h, 'a> {
$ghost_imports$
    ghost records = { λ f. $module$-$field$-kind.kind.records $number$
        ($module$-$field$-listed f.lists.now) };

    fn len(&self) -> u64 {
        $list_len$
    }

    fn put<E: EncodeSink>(&self, sink: &mut E) -> Result<(), EncodeError> {
        $list_put$
    }
}
";

const LIST_GHOSTS: &str = "\
Rattle.$crate$.specs.$name$ $module$-$field$-kind
Rattle.$crate$.specs.$name$InC $module$-$field$-listed
";

/// Puts the fields as they are written behind the text, and those of each part by itself.
pub fn put_fields(
    page: &mut Words,
    fields: &[Field],
    trees: &StructTrees,
) -> Result<(), GenerateError> {
    page.set("message", "$message");
    page.set("lists", "$lists");
    page.fill_all(if page.get("of_lists").is_empty() {
        &OF_MESSAGE
    } else {
        &OF_MESSAGE_AND_LISTS
    });
    page.fill("of_parts", "");
    let parts = listed_fields(page, fields, trees)?;
    page.set("parts", &parts);
    page.fill_all(&OF_ALL);
    page.fill("ghosts", "");
    if trees.mixed.is_some() {
        page.fill_all(&OF_ALL_MIXED);
    }
    page.append("ghosts", FIELD_GHOSTS);
    ghost_imports(page, "    ");
    page.append("text", FIELDS);
    page.append("text", "$of_parts$");
    for field in fields {
        put_inside(page, &field.words);
    }
    Ok(())
}

// The fields and the parts as one expression, and those of each part by itself.
fn listed_fields(
    page: &mut Words,
    fields: &[Field],
    trees: &StructTrees,
) -> Result<String, GenerateError> {
    let alloc = page.alloc();
    let is_mixed = trees.mixed.is_some();
    let mut nodes = Vec::new(alloc);
    let mut behind = 0;
    for (place, field) in fields.iter().enumerate() {
        if let Some(part) = trees.shown.parts.iter().find(|it| it.first == place) {
            put_part(page, fields, part, is_mixed)?;
            page.fill(
                "node",
                "$part_name$ {\n    message: $message$,\n$lists_handed$}",
            );
            nodes.push(page.finish("node")?)?;
            behind = part.behind;
        }
        if behind <= place {
            nodes.push(String::from_str(alloc, field.words.get("part"))?)?;
        }
    }
    paired(alloc, nodes)
}

// How a message inside, or a list, is written.
fn put_inside(page: &mut Words, field: &Words) {
    page.copy(field, &["field", "number", "of_name", "of_module"]);
    page.copy(field, &["list_len", "list_put"]);
    page.fill("inside_len", INSIDE_LEN);
    if page.get("inside_len").chars().count() > WIDTH {
        page.fill("inside_len", LONG_INSIDE_LEN);
    }
    let (ghosts, written) = match field.get("is_mixed") {
        "" | "oneof" => return,
        "list" => (LIST_GHOSTS, LIST),
        _ => (INSIDE_GHOSTS, INSIDE),
    };
    page.fill("ghosts", ghosts);
    ghost_imports(page, "    ");
    page.append("text", written);
}

// Those of a part.
fn put_part(
    page: &mut Words,
    fields: &[Field],
    part: &Node,
    is_mixed: bool,
) -> Result<(), GenerateError> {
    let alloc = page.alloc();
    let mut nodes = Vec::new(alloc);
    for (place, field) in fields.iter().enumerate() {
        if part.first <= place && place < part.behind {
            nodes.push(String::from_str(alloc, field.words.get("part"))?)?;
        }
    }
    let parts = paired(alloc, nodes)?;
    page.set("parts", &parts);
    page.copy(&part.words, &["low", "high", "part_words"]);
    page.fill_all(&OF_PART);
    page.fill("ghosts", "");
    if is_mixed {
        page.fill_all(&OF_PART_MIXED);
    }
    page.append("ghosts", FIELD_GHOSTS);
    ghost_imports(page, "    ");
    page.append("of_parts", FIELDS);
    Ok(())
}

// Expressions as a balanced tree of pairs: each with its neighbour, and so the pairs.
fn paired(alloc: Global, mut nodes: Vec<String>) -> Result<String, GenerateError> {
    // Each turn halves the number of nodes.
    for _ in 0..usize::BITS {
        if nodes.len() < 2 {
            break;
        }
        let mut next = Vec::new(alloc);
        let mut left: Option<String> = None;
        for node in nodes {
            match left.take() {
                Some(first) => next.push(pair(alloc, &first, &node)?)?,
                None => left = Some(node),
            }
        }
        if let Some(last) = left {
            next.push(last)?;
        }
        nodes = next;
    }
    match nodes.pop() {
        Some(node) => {
            let mut words = Words::new(alloc);
            words.set("node", &node);
            for _ in 0..4 {
                words.indent_rest("node");
            }
            words.finish("node")
        }
        None => Ok(String::new(alloc)),
    }
}

fn pair(alloc: Global, first: &str, second: &str) -> Result<String, GenerateError> {
    let mut words = Words::new(alloc);
    words.set("first", first);
    words.set("second", second);
    for _ in 0..2 {
        words.indent("first");
        words.indent("second");
    }
    words.fill("pair", "(\n$first$,\n$second$,\n)");
    words.finish("pair")
}
