//! The parts of a message: its fields, each with its names.
use crate::kinds::set_part;
use crate::tables::Part;
use crate::written::set_written;
use wire_definitions::{CALL_WIDTH, WIDTH, ghost_imports};
use wire_descriptor::FieldDescriptorProto;
use wire_schema::{Field, GenerateError, Schema, Template, Words, constant_name, variant_name};

const DEFINITIONS: &str = "\n\
abbrev pub $part$-Value : Type 0
$part$-Value = $part_value$

abbrev pub $part$-names : List Names
$part$-names = $names$ ∷ []

abbrev pub $part$-says : Members → $part$-Value → Type 0
$part$-says =
    $part_saying$
    $named$

abbrev pub $part$-trees : $part$-Value → Members → Type 0
$part$-trees =
    $part_written$
    $json_name$

abbrev pub $part$-range : $part$-Value → Type 0
$part$-range = $part_in_range$

abbrev pub $part$-absent : $part$-Value
$part$-absent = $part_absent$

abbrev pub $part$-seen : $name$ → $part$-Value
$part$-seen m = $part_before$m.$field$$part_behind$

pub $part$-unsaid : $part$-says no_member $part$-absent
$part$-unsaid =
    $part_unsaid$
    $named$

pub $part$-one : SayOne $part$-says
$part$-one =
    $part_one_said$
    $named$

pub $part$-back
    : PartComesBack $part$-names $part$-says $part$-trees $part$-range
$part$-back =
    $part_comes_back$
";

const USES: &str = "\
Rattle.std.specs.Prelude []
Rattle.std.specs.Prelude codes
Rattle.std.specs.Prelude ◌∷◌
Rattle.wire_jsonfields.specs.Objects IsNameOf
$part_said_uses$$part_written_uses$$part_uses$$part_seen_uses$";

// What is said of a field, and why it comes back; and how it is read.
const SAID: [Template; 7] = [
    ("part_saying", "FieldMeans $part_absent$ $part_means$"),
    ("part_unsaid", "unsaid $part_absent$ $part_means$"),
    (
        "part_one_said",
        "one_field $part_absent$ $part_means$\n    $part_one$",
    ),
    (
        "part_comes_back",
        "$back_as$ $part_means$\n    $part_tree$\n    $two_names$\n    $part_range$\n    \
        $part_back$\n    $part_absent$",
    ),
    (
        "part_said_uses",
        "Rattle.wire_jsonfields.specs.Fields FieldMeans\n\
        Rattle.wire_jsonfields.specs.Fields unsaid\n\
        Rattle.wire_jsonfields.specs.OneValues one_field\n\
        Rattle.wire_jsonfields.specs.Parts $back_as$\n",
    ),
    ("call", "read_field::<$part_kind$>"),
    ("read_use", "wire_jsonfields read_field\n"),
];

// The same where `null` is a value of it.
const NULLABLE_SAID: [Template; 7] = [
    ("part_saying", "NullableMeans $json_means$"),
    ("part_unsaid", "nullable_unsaid $json_means$"),
    ("part_one_said", "one_nullable $json_means$\n    $json_one$"),
    (
        "part_comes_back",
        "nullable_back $json_means$\n    $json_tree$\n    $two_names$\n    $json_range$\n    \
        $json_back$",
    ),
    ("part_said_uses", NULLABLE_USES),
    ("call", "read_nullable::<$nullable_kind$>"),
    ("read_use", READ_NULLABLE),
];

const NULLABLE_USES: &str = "\
Rattle.wire_well_known_json.specs.Nullable NullableMeans
Rattle.wire_well_known_json.specs.Nullable nullable_back
Rattle.wire_well_known_json.specs.Nullable nullable_unsaid
Rattle.wire_well_known_json.specs.Nullable one_nullable
";

/// What reads a field of which `null` is a value.
pub(crate) const READ_NULLABLE: &str = "wire_well_known_json read_nullable\n";

/// The names of a field, as definitions have them: `names` is both, in a pair, `two_names` the same
/// as arguments, and `named` the rule that a member has one of them.
pub(crate) const NAMES: [Template; 4] = [
    ("json_name", "(codes \"$in_json$\")"),
    ("names", "(codes \"$read_too$\", codes \"$in_json$\")"),
    ("two_names", "(codes \"$read_too$\") $json_name$"),
    ("named", "(IsNameOf $two_names$)"),
];

/// The constant of the names of a field.
pub(crate) const FIELD_NAME: &str = "\
const $constant$: FieldName = FieldName {
    name: \"$read_too$\",
    json_name: \"$in_json$\",
};

";

/// What the code of a part brings in of its definitions.
pub(crate) const PART_GHOSTS: &str = "\
$json_page$ $part$-Value
$json_page$ $part$-absent
$json_page$ $part$-back
$json_page$ $part$-names
$json_page$ $part$-one
$json_page$ $part$-range
$json_page$ $part$-says
$json_page$ $part$-seen
$json_page$ $part$-trees
$json_page$ $part$-unsaid
";

/// The code of a part of a message.
pub(crate) const PART_CODE: &str = "\
pub struct $part_type$;

impl JsonPart for $part_type$ {
$ghost_imports$
    type Message = $name$;

    type Held = $part_held$;

    ghost Value = { $part$-Value };

    ghost view = { λ h. $part_view$ };

    ghost seen = { $part$-seen };

    ghost names = { $part$-names };

    ghost says = { $part$-says };

    ghost trees = { $part$-trees };

    ghost default = { $part$-absent };

    ghost unsaid = { $part$-unsaid };

    ghost one_value = { $part$-one };

    ghost in_range = { $part$-range };

    ghost back = { $part$-back };

    fn is_named(name: &str) -> bool {
        $is_named$
    }

    fn read(
        alloc: Global,
        text: &[u8],
        members: &[PlacedMember<'_>],
        levels: u32,
    ) -> Result<$part_held$, ReadError> {
        $read$
    }

    fn write(
        alloc: Global,
        out: &mut Vec<u8>,
        first: bool,
        message: &$name$,
    ) -> Result<bool, WriteError> {
        $write$
    }
}

";

const CODE_USES: &str = "\
wire_jsonfields FieldName
wire_jsonfields JsonPart
wire_jsonfields PlacedMember
$write_use$$read_use$$json_code$$json_held_code$";

/// The templates of a part: the names before its code, the code, and its definitions, with what
/// each brings in.
pub(crate) struct PartTexts {
    pub names: &'static str,
    pub code: &'static str,
    pub code_uses: &'static str,
    pub ghosts: &'static str,
    pub definitions: &'static str,
    pub uses: &'static str,
}

const FIELD: PartTexts = PartTexts {
    names: FIELD_NAME,
    code: PART_CODE,
    code_uses: CODE_USES,
    ghosts: PART_GHOSTS,
    definitions: DEFINITIONS,
    uses: USES,
};

const CALLS: [Template; 3] = [
    ("part_held", "$held$"),
    ("part_view", "$part_before$h$part_behind$"),
    (
        "is_named",
        "name == $constant$.name || name == $constant$.json_name",
    ),
];

/// Sets how a field is called in JSON, in code and in definitions.
pub(crate) fn set_names(
    descriptor: &FieldDescriptorProto,
    words: &mut Words,
) -> Result<(), GenerateError> {
    let alloc = words.alloc();
    words.set("in_json", &descriptor.json_name);
    words.fill("read_too", "$proto$");
    if words.get("json_names") == "schema" {
        words.set("read_too", &descriptor.json_name);
        words.fill("in_json", "$proto$");
    }
    words.fill_all(&NAMES);
    words.fill("part", "$field$");
    let constant = constant_name(alloc, words.get("field"))?;
    words.set("constant", &constant);
    let variant = variant_name(alloc, words.get("field"))?;
    words.set("part_variant", &variant);
    words.fill("part_type", "Of$part_variant$");
    Ok(())
}

/// Puts a field of a message to the page.
pub(crate) fn put_field(
    page: &mut Words,
    schema: &Schema,
    descriptor: &FieldDescriptorProto,
    field: &Field,
) -> Result<Part, GenerateError> {
    let mut words = Words::like(&field.words);
    words.copy(page, &["json_page", "crate", "name"]);
    words.copy(page, &CHOICES);
    set_names(descriptor, &mut words)?;
    let is_null_a_value = set_part(schema, descriptor, &mut words);
    words.fill_all(&CALLS);
    set_written(&mut words);
    words.fill_all(if is_null_a_value {
        &NULLABLE_SAID
    } else {
        &SAID
    });
    set_call("read", READ_ARGUMENTS, &mut words);
    words.fill("call", "$write_call$");
    set_call("write", WRITE_ARGUMENTS, &mut words);
    put_part(page, &mut words, &FIELD)
}

/// What of the crate says how its JSON is read and written.
pub(crate) const CHOICES: [&str; 3] = ["json_defaults", "json_names", "json_enums"];

/// Puts the code and the definitions of a part to those of the page.
pub(crate) fn put_part(
    page: &mut Words,
    words: &mut Words,
    texts: &PartTexts,
) -> Result<Part, GenerateError> {
    words.fill("ghosts", texts.ghosts);
    words.append("ghosts", "$part_seen_uses$");
    ghost_imports(words, "    ");
    words.fill("of_names", texts.names);
    words.fill("of_code", texts.code);
    words.fill("of_code_uses", texts.code_uses);
    words.fill("of_definitions", texts.definitions);
    words.fill("of_uses", texts.uses);
    words.fill("local", "read_$field$");
    words.fill("view_at", "$part_before$@$part_behind$");
    page.copy(words, &OF_PART);
    page.append_all(&PUT);
    page.ended()?;
    Ok(Part {
        name: words.take("part"),
        type_name: words.take("part_type"),
        held: words.take("part_held"),
        view: words.take("view_at"),
        uses: words.take("part_seen_uses"),
        local: words.take("local"),
        taken: words.take("part_taken"),
        weight: 1,
    })
}

const OF_PART: [&str; 5] = [
    "of_names",
    "of_code",
    "of_code_uses",
    "of_definitions",
    "of_uses",
];

const PUT: [Template; 5] = [
    ("field_names", "$of_names$"),
    ("code", "$of_code$"),
    ("code_uses", "$of_code_uses$"),
    ("definitions", "$of_definitions$"),
    ("uses", "$of_uses$"),
];

/// What a field is read of.
pub(crate) const READ_ARGUMENTS: &str = "alloc, text, members, levels, &$constant$";

const WRITE_ARGUMENTS: &str = "alloc, out, first, &$constant$, &message.$field$";

// The longest arguments of a call that stand in a line by themselves.
const SHORT: usize = 10;

/// Makes a call of the word `call` with these arguments the word of this name, as the formatter
/// lays it out.
pub(crate) fn set_call(name: &'static str, arguments: &str, words: &mut Words) {
    words.fill("arguments", arguments);
    words.fill(name, "        $call$($arguments$)");
    let has_room = words.get(name).chars().count() <= WIDTH;
    let arguments = words.take("arguments");
    let are_short = arguments
        .split(", ")
        .all(|it| it.len() <= SHORT && !it.ends_with(')'));
    words.set("arguments", &arguments);
    if has_room && arguments.chars().count() <= CALL_WIDTH {
        words.fill(name, "$call$($arguments$)");
    } else if are_short {
        words.fill(name, "$call$(\n            $arguments$,\n        )");
    } else {
        words.fill(name, "$call$(\n");
        for argument in arguments.split(", ") {
            words.set("argument", argument);
            words.append(name, "            $argument$,\n");
        }
        words.append(name, "        )");
    }
}
