//! The definitions of a message type.
use crate::comments::set_heading;
use crate::copied_parts::put_copies;
use crate::imports::definition_imports;
use crate::laws_pages::has_laws;
use crate::required::{define_asked, put_missing};
use crate::returned::{put_range, put_range_page};
use crate::tree::Tree;
use crate::view_definitions::{define_rows, define_view};
use wire_schema::{Field, GenerateError, MessageType, Template, Words};

const USES: &str = "\
Rattle.wire_fields.specs.Shape Shape
Rattle.$crate$.specs.declared.$module$.$name$ $name$
";

// What the records come to that the schema lacks.
const KEPT: [Template; 4] = [
    ("uses", "Rattle.wire_codec.specs.Field Fields\n"),
    ("kept", "Fields"),
    ("kept_view", "m.unknown"),
    ("rest", "unknown"),
];

const DROPPED: [Template; 4] = [
    (
        "uses",
        "Rattle.std.specs.Prelude ⊤\nRattle.wire_fields.specs.Dropped dropped\n",
    ),
    ("kept", "⊤"),
    ("kept_view", "tt"),
    ("rest", "dropped"),
];

// Of a field that leaves nothing to the unknown fields, and of one that may.
const USES_OF_LAWFUL: &str = "\
Rattle.wire_fields.specs.Shape Lawful
Rattle.wire_fields.specs.Shape known
";

const USES_OF_SHAPE: &str = "$uses_of_kept$$twice$";

const USES_OF_LEAVING: &str = "\
Rattle.wire_fields.specs.Leaving Leaving
Rattle.wire_fields.specs.Leaving with_unknown
";

/// What a page of definitions has.
pub(crate) const TABLE: &str = "`$name$` as contracts see it, and the table of its fields.";

const HEAD: &str = "\
$heading$$imports$
$kinds$";

const PART_VALUE: &str = "\
abbrev pub $part_value$ : Type 0
$part_value$ =
    $tree_value$

abbrev pub $part_words$-value : $name$ → $part_value$
$part_words$-value m = $tree_view$

";

const PART_SHAPE: &str = "\
abbrev pub $part_words$ : $part$ $part_value$
$part_words$ =
    $tree_table$

";

const VALUE: &str = "\
abbrev pub $name$-Known : Type 0
$name$-Known =
    $tree_value$

abbrev pub $name$-Value : Type 0
$name$-Value = $name$-Known × $kept$

abbrev pub $module$-value : $name$ → $name$-Value
$module$-value m = (
$tree_view$,
  $kept_view$,
)

$view_value$$accessors$$shapes$";

const SHAPE: &str = "\
abbrev pub $module$-known : $part$ $name$-Known
$module$-known =
    $tree_table$

abbrev pub $module$-shape : Shape $name$-Value
$module$-shape = $whole$
";

const EMPTY: &str = "\
abbrev pub $name$-Value : Type 0
$name$-Value = $kept$

abbrev pub $module$-value : $name$ → $name$-Value
$module$-value m = $kept_view$

$view_value$abbrev pub $module$-shape : Shape $name$-Value
$module$-shape = $rest$
";

const WHOLE: [Template; 2] = [("part", "Shape"), ("whole", "two $module$-known $rest$")];

const LEAVING: [Template; 2] = [
    ("part", "Leaving"),
    ("whole", "with_unknown $module$-known"),
];

const KIND: &str = "\
abbrev pub $module$-$field$-kind : $sort$ $bracketed$
$module$-$field$-kind = $definition$

";

// Which values of a field are read back.
const FIELD_RANGE: &str = "\
abbrev pub $module$-$field$-range : Range $bracketed$
$module$-$field$-range =$break$$own_range$

";

const ACCESSOR: &str = "\
abbrev pub $field$-of-$module$ : $name$-Value → $value$
$field$-of-$module$ m = m.0$path$

";

/// The value of a message type, its table, and a word for each field.
pub fn definitions_of(
    base: &Words,
    fields: &[Field],
    tree: &Tree,
    message: &MessageType,
) -> Result<String, GenerateError> {
    let is_read_back = has_laws(base);
    let mut page = Words::like(base);
    page.fill("uses", USES);
    put_unknown(&mut page);
    for field in fields {
        put_field(&mut page, field, is_read_back);
    }
    put_whole(&mut page, fields);
    for part in &tree.parts {
        put_tree(&mut page, &part.words);
        page.append_all(&[("values", PART_VALUE), ("shapes", PART_SHAPE)]);
    }
    if message.is_twin {
        put_copies(&mut page, fields, tree);
    }
    put_tree(&mut page, &tree.words);
    page.indent("tree_view");
    define_view(&mut page, fields, tree);
    define_rows(&mut page, fields, tree);
    if is_read_back {
        put_range(&mut page, fields, tree);
    }
    define_asked(&mut page, fields);
    definition_imports(&mut page);
    put_text(&mut page, fields);
    put_missing(&mut page);
    if is_read_back {
        put_range_page(&mut page, fields);
    }
    page.finish("text")
}

// What the records come to that the schema lacks.
fn put_unknown(page: &mut Words) {
    if page.get("unknown") == "keep" {
        page.append_all(&KEPT);
        page.fill("uses_of_kept", "Rattle.wire_fields.specs.Shape unknown\n");
    } else {
        page.append_all(&DROPPED);
    }
}

// What there is for each field.
fn put_field(page: &mut Words, field: &Field, is_read_back: bool) {
    page.copy(
        &field.words,
        &["field", "value", "bracketed", "path", "sort"],
    );
    page.copy(&field.words, &["definition", "definitions", "own_range"]);
    page.copy(&field.words, &["of_charged"]);
    page.append_all(&[("uses", "$definitions$"), ("accessors", ACCESSOR)]);
    page.fill("twice", "Rattle.wire_fields.specs.Shape two\n");
    if field.oneof.is_none() || page.get("sort") == "Leaving" {
        let is_lawful = page.get("sort") == "Lawful";
        page.append("kinds", KIND);
        if is_read_back && field.oneof.is_none() {
            put_field_range(page);
        }
        page.append("uses", if is_lawful { USES_OF_LAWFUL } else { "" });
    }
}

// What the table of all fields is.
fn put_whole(page: &mut Words, fields: &[Field]) {
    let leaves = fields
        .iter()
        .any(|it| it.words.get("both") == "both_leaving");
    if leaves {
        page.append("uses", USES_OF_LEAVING);
        page.fill_all(&LEAVING);
    } else {
        page.append("uses", USES_OF_SHAPE);
        page.fill_all(&WHOLE);
    }
}

fn put_text(page: &mut Words, fields: &[Field]) {
    set_heading(page, "--", TABLE);
    page.fill("text", HEAD);
    page.append_all(if fields.is_empty() {
        &[("text", EMPTY), ("text", "$view_rows$")]
    } else {
        &[
            ("text", "$values$"),
            ("text", VALUE),
            ("text", SHAPE),
            ("text", "$view_rows$"),
        ]
    });
}

/// Puts which values of a field are read back among the kinds, or where it holds a message of which
/// that follows from what is charged, among the ranges.
pub(crate) fn put_field_range(page: &mut Words) {
    page.fill("line", "$module$-$field$-range = $own_range$");
    let is_short = page.get("line").len() <= 100 && !page.get("line").contains('\n');
    page.set("break", if is_short { " " } else { "\n    " });
    if page.get("of_charged").is_empty() {
        page.append("kinds", FIELD_RANGE);
    } else {
        page.append("ranges", FIELD_RANGE);
    }
}

// The words of a part of the tree, or of its root.
fn put_tree(page: &mut Words, tree: &Words) {
    page.copy(
        tree,
        &["value", "view", "table", "part_words", "part_value"],
    );
    page.fill_all(&[
        ("tree_value", "$value$"),
        ("tree_view", "$view$"),
        ("tree_table", "$table$"),
    ]);
    if page.get("tree_table").contains("both_leaving") {
        page.append("uses", "Rattle.wire_fields.specs.Leaving both_leaving\n");
    }
}
