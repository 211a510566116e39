//! The lists of a message as a struct for C: what a program hands in beside it, and the calls that
//! give their elements one after another.
use crate::struct_heads::{Head, put_heads};
use crate::struct_numbers::{NUMBER_LIST, NUMBER_LIST_USES, put_number_walk, set_number_words};
use crate::struct_trees::StructTrees;
use wire_definitions::{
    code_imports, definition_imports, ghost_imports, put_field_comment, set_heading,
};
use wire_schema::{Field, GenerateError, Schema, Template, Words};

const HEAD: &str = "\
$heading$$ghost_imports$
$imports$
/// The lists of a `$name$` that is written.
#[repr(C)]
#[derive(Clone, Copy)]
pub struct $name$InCLists<'a> {
$declared$}
$walks$";

const WALK: &str = "
// The list `$field$`.
struct $name$InCWalk$number$<'a> {
    bytes: PhantomData<&'a [u8]>,
}

impl<'a> ValueList for $name$InCWalk$number$<'a> {
$ghost_imports$
    type Source = &'a [u8];

    type Held = &'a [u8];

    ghost Item = { List ℕ };

    ghost view = { λ b. b.now };

    ghost scalar = { $given$ };

    ghost Value = { $name$-Value };

    ghost takes = { $module$-shape.takes };

    ghost Element = { $element$ };

    ghost list = { $field$-of-$module$ };

    ghost Means = { $means$ };

    ghost number = { $number$ };

    ghost lawful = { $module$-$field$-list };

    fn number() -> u32
        ensures { result ≡ $number$ }
    {
        $number$
    }

    fn set(tag: Tag, held: &mut &'a [u8], buf: &mut &'a [u8]) -> Result<(), DecodeError> {
        <$given_kind$<'a> as StructScalar>::set(tag, held, buf)
    }
}

/// The next of `$field$` in these bytes$of_bytes$: 0, and they
/// begin behind it; 1 where none is left; or the number of the error, nowhere in bytes that were
/// read as this message. Where it answers no 0 the bytes stay, and what is given is of no bytes.
$next_head$
    ensures given { result ≡ 0 → GivesNext $module$-shape.takes $field$-of-$module$ $means$
        walk.old.bytes.now walk.new.bytes.now element.new.bytes.now }
    ensures ended { result ≡ 1 → EndsList $module$-shape.takes $field$-of-$module$
        walk.old.bytes.now }
    ensures other { result ≢ 0 → result ≢ 1 → MakesNothing $module$-shape.takes
        walk.old.bytes.now }
    ensures stays { result ≢ 0 → (walk.new.bytes.now ≡ walk.old.bytes.now)
        × (element.new.bytes.now ≡ []) }
{
    let mut rest = walk.bytes;
    let status = next_status::<$name$InCWalk$number$<'a>>(&mut element.bytes, &mut rest);
    if status != 0 {
        element.bytes = &[];
        return status;
    }
    walk.bytes = rest;
    0
}
";

const WALK_HEAD: [Head; 1] = [[
    "next_head",
    "pub fn next_$module$_$field$<'a>",
    "walk: &mut SliceInC<'a>; element: &mut SliceInC<'a>",
    "u32",
]];

/// The head of the same call in the library.
pub const NEXT_HEAD: [Head; 1] = [[
    "next_head",
    "pub extern \"C\" fn $c_name$_next_$c_field$<'a>",
    "walk: &mut SliceInC<'a>; element: &mut SliceInC<'a>",
    "u32",
]];

/// The same call in the library.
pub const NEXT: &str = "
/// The next of `$field$` in these bytes$of_bytes$: 0, and they
/// begin behind it; 1 where none is left; or the number of the error, nowhere in bytes that were
/// read as this message. Where it answers no 0 the bytes stay, and what is given is of no bytes.
#[unsafe(no_mangle)]
$next_head$
    ensures given { result ≡ 0 → GivesNext $module$-shape.takes $field$-of-$module$ $means$
        walk.old.bytes.now walk.new.bytes.now element.new.bytes.now }
    ensures ended { result ≡ 1 → EndsList $module$-shape.takes $field$-of-$module$
        walk.old.bytes.now }
    ensures other { result ≢ 0 → result ≢ 1 → MakesNothing $module$-shape.takes
        walk.old.bytes.now }
    ensures stays { result ≢ 0 → (walk.new.bytes.now ≡ walk.old.bytes.now)
        × (element.new.bytes.now ≡ []) }
{
    next_$module$_$field$(walk, element)
}
";

/// What that brings in.
pub const NEXT_GHOSTS: &str = "\
Rattle.std.specs.Prelude []
Rattle.wire_structs.specs.Walks EndsList
Rattle.wire_structs.specs.Walks GivesNext
Rattle.wire_structs.specs.Walks MakesNothing
Rattle.$crate$.specs.$name$ $field$-of-$module$
$means_uses$";

const GHOSTS: &str = "\
Rattle.std.specs.Prelude ◌≡◌
Rattle.std.specs.Prelude ◌≢◌
Rattle.$crate$.specs.$name$ $module$-shape
";

const WALK_GHOSTS: &str = "\
Rattle.std.specs.Prelude List
Rattle.std.specs.Prelude ℕ
Rattle.std.specs.Prelude ◌≡◌
Rattle.wire_fields.specs.Texts $given$
Rattle.$crate$.specs.$name$ $field$-of-$module$
Rattle.$crate$.specs.$name$ $module$-shape
Rattle.$crate$.specs.$name$ $name$-Value
Rattle.$crate$.specs.$name$InCLists $module$-$field$-list
$means_uses$$element_uses$";

const USES: &str = "\
std::marker PhantomData
wire_codec DecodeError
wire_codec Tag
wire_structs $given_kind$
wire_structs SliceInC
wire_structs StructScalar
wire_structs ValueList
wire_structs next_status
";

// What is given of an element: a text or bytes as they are, a message as bytes that make it.
const OF_TEXTS: [Template; 6] = [
    ("given", "$item_definition$"),
    ("element", "List ℕ"),
    ("means", "IsElement"),
    ("means_uses", "Rattle.wire_structs.specs.Walks IsElement\n"),
    ("element_uses", ""),
    ("of_bytes", ""),
];

const OF_MESSAGES: [Template; 7] = [
    ("given", "any_bytes"),
    ("given_kind", "BytesInC"),
    ("element", "$of_name$-Value"),
    ("means", "(MakesElement $of_module$-shape)"),
    (
        "means_uses",
        "Rattle.wire_structs.specs.Walks MakesElement\n$specs$ $of_module$-shape\n",
    ),
    ("element_uses", "$specs$ $of_name$-Value\n"),
    ("of_bytes", ", as its bytes"),
];

/// Sets the words of a list among those of its message.
pub fn set_list_words(page: &mut Words, field: &Words) {
    page.copy(
        field,
        &[
            "field",
            "number",
            "at",
            "listed",
            "item_definition",
            "specs",
        ],
    );
    page.copy(
        field,
        &["of_name", "of_module", "item_kind", "kind", "c_field"],
    );
    page.copy(field, &["element_bytes", "path", "firsts", "all_leaves"]);
    page.copy(field, &["is_of_numbers"]);
    if !page.get("is_of_numbers").is_empty() {
        return set_number_words(page, field);
    }
    let is_of_messages = page.get("kind").starts_with("Each");
    page.fill_all(if is_of_messages {
        &OF_MESSAGES
    } else {
        &OF_TEXTS
    });
    if !is_of_messages {
        let is_text = page.get("item_definition") == "string";
        page.set("given_kind", if is_text { "TextInC" } else { "BytesInC" });
    }
}

fn is_list(field: &Field) -> bool {
    field.words.get("is_mixed") == "list"
}

/// The module of the lists of a message.
pub fn lists_code_of(
    base: &Words,
    schema: &Schema,
    fields: &[Field],
) -> Result<String, GenerateError> {
    let mut page = Words::like(base);
    page.fill("head_ghosts", GHOSTS);
    page.set("uses", "");
    for field in fields.iter().filter(|it| is_list(it)) {
        set_list_words(&mut page, &field.words);
        put_field_comment(&mut page, schema);
        page.append("declared", "    pub $field$: &'a [$listed$],\n");
        if !page.get("is_of_numbers").is_empty() {
            put_number_walk(&mut page);
            continue;
        }
        page.append("uses", USES);
        if page.get("kind").starts_with("Each") {
            page.append("uses", "crate::$of_module$_in_c $of_name$InC\n");
        }
        page.fill("ghosts", WALK_GHOSTS);
        ghost_imports(&mut page, "    ");
        put_heads(&mut page, &WALK_HEAD);
        page.append("walks", WALK);
        page.append("head_ghosts", NEXT_GHOSTS);
    }
    code_imports(&mut page);
    page.fill("ghosts", "$head_ghosts$");
    ghost_imports(&mut page, "");
    set_heading(&mut page, "//!", "The lists of `$full$` for C.");
    page.fill("text", HEAD);
    page.finish("text")
}

const DEFINITIONS: &str = "\
$heading$$imports$
pub $module$-levels : HasLevels $module$-shape
$module$-levels =
    two_levels _ _
    ($stays$)
    unknown_levels
$lists$";

const LIST: &str = "
-- `$field$`, one after another
pub $module$-$field$-list :
    ListOf $module$-shape.takes $field$-of-$module$ $means$ $number$ $given$
$module$-$field$-list = record {
  own = λ levels limits whole l low m z p c fits h.
      $own$;
  others = λ m z n p c other h.
      whole_leaves $module$-known $number$ (λ v. v$path$)
      ($all_leaves$)
      m z n p c other h;
  levels = $module$-levels.levels;
}
";

const LIST_USES: &str = "\
Rattle.wire_structs.specs.ListLaws field_leaves
Rattle.wire_structs.specs.ListLaws whole_leaves
Rattle.wire_structs.specs.Walks ListOf
Rattle.wire_fields.specs.Texts $given$
Rattle.$crate$.specs.$name$ $field$-of-$module$
Rattle.$crate$.specs.$name$ $module$-$field$-kind
$means_uses$";

const OWN_TEXT: &str = "let mine = h.0$firsts$ in (mine.1, mine.2, mine.1, refl, mine.3)";

const OWN_MESSAGE: &str =
    "message_more $of_module$-shape $element_bytes$ (λ ms after. ms ++ after ∷ []) \
    levels limits whole l low\n      ($field$-of-$module$ m) ($field$-of-$module$ z) $number$ p c \
    fits h.0$firsts$";

const OWN_MESSAGE_USES: &str = "\
Rattle.std.specs.Prelude []
Rattle.std.specs.Prelude ◌++◌
Rattle.std.specs.Prelude ◌∷◌
Rattle.wire_structs.specs.ListLaws message_more
";

/// The page of why the lists of a message are those of its table, with what its levels bring in.
pub fn lists_definitions_of(
    base: &Words,
    fields: &[Field],
    trees: &StructTrees,
    level_uses: &str,
) -> Result<String, GenerateError> {
    let mut page = Words::like(base);
    page.set("uses", level_uses);
    for part in &trees.shown.parts {
        page.copy(&part.words, &["part_words"]);
        page.append("uses", "Rattle.$crate$.specs.$name$ $part_words$\n");
    }
    for field in fields.iter().filter(|it| is_list(it)) {
        set_list_words(&mut page, &field.words);
        let is_of_numbers = !page.get("is_of_numbers").is_empty();
        page.append(
            "uses",
            if is_of_numbers {
                NUMBER_LIST_USES
            } else {
                LIST_USES
            },
        );
        if page.get("kind").starts_with("Each") {
            page.append("uses", OWN_MESSAGE_USES);
            page.fill("own", OWN_MESSAGE);
        } else if !is_of_numbers {
            page.append("uses", "Rattle.std.proofs.Common refl\n");
            page.fill("own", OWN_TEXT);
        }
        use_leaves(&mut page);
        for oneof in fields.iter().filter(|it| it.oneof.is_some()) {
            use_table(&mut page, &oneof.words);
        }
        page.append("lists", if is_of_numbers { NUMBER_LIST } else { LIST });
    }
    page.copy(&trees.shown.words, &["stays"]);
    set_heading(
        &mut page,
        "--",
        "The lists of `$name$` as those of its table.",
    );
    definition_imports(&mut page);
    page.fill("text", DEFINITIONS);
    page.finish("text")
}

// The table of a oneof, where the proof that a record of another number leaves the list names it.
fn use_table(page: &mut Words, oneof: &Words) {
    page.copy(oneof, &["own_table", "oneof_module", "oneof_name"]);
    if page.get("all_leaves").contains(page.get("own_table")) {
        page.append(
            "uses",
            "Rattle.$crate$.specs.$oneof_name$ $oneof_module$-shape\n",
        );
    }
}

// What the proof that a record of another number leaves the list brings in.
fn use_leaves(page: &mut Words) {
    for side in ["left", "right"] {
        page.set("side", side);
        page.fill("name_of_side", "$side$_leaves");
        if page.get("all_leaves").contains(page.get("name_of_side")) {
            page.append("uses", "Rattle.wire_structs.specs.ListLaws $side$_leaves\n");
        }
    }
    for (name, line) in [
        ("two (", "Rattle.wire_fields.specs.Shape two\n"),
        ("known ", "Rattle.wire_fields.specs.Shape known\n"),
    ] {
        if page.get("all_leaves").contains(name) {
            page.append("uses", line);
        }
    }
}
