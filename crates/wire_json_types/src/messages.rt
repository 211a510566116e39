//! The code and the definitions of a message type in JSON.
use crate::members::described;
use crate::oneof_part::put_oneof;
use crate::parts::{PART_CODE, PART_GHOSTS, PartTexts, put_field, put_part};
use crate::tables::{BOTH, GROUPED, Part, put_at, put_table, set_taken, set_view};
use wire_definitions::{code_imports, definition_imports, ghost_imports, set_heading};
use wire_schema::{Field, GenerateError, MessageType, Schema, Template, Words};

// The most parts of a table, and the greatest weight of several that are one: the kit's borrow
// checker follows a generic type through so many types and no more.
const MOST_PARTS: usize = 4;

const MOST_WEIGHT: usize = 8;

const CODE_PAGE: &str = "\
$heading$$imports$
/// `$full$` by the JSON mapping.
pub struct $name$Json;

$aliases$$field_names$$code$impl JsonValue for $name$Json {
$value_ghosts$
    type Held = $name$;

    ghost Value = { $name$-Json };

    ghost view = { $module$-json };

    ghost means = { ObjectMeans $module$-json-says };

    ghost tree = { IsObjectTree $module$-json-trees };

    ghost absent = { $module$-json-absent };

    ghost one_value = { one_object $module$-json-says $module$-json-one };

    ghost in_range = { $module$-json-range };

    ghost back = { $module$-json-back };

    fn read_json(
        alloc: Global,
        text: &[u8],
        at: usize,
        levels: u32,
    ) -> Result<($name$, usize), ReadError> {
        let (parts, after) = $read_parts$::<$joined_type$>(alloc, text, at, levels)?;
$taken$        Ok((
            $name$ {
$set$                unknown: UnknownFields::new(alloc),
            },
            after,
        ))
    }

    fn write_json(alloc: Global, out: &mut Vec<u8>, held: &$name$) -> Result<(), WriteError> {
        write_parts::<$joined_type$>(alloc, out, held)
    }
}

impl JsonMessage for $name$Json {
    ghost use $json_page$.{$module$-json-unsaid};

    ghost default_meant = { $module$-json-unsaid };
}
";

const CODE_USES: &str = "\
std::alloc Global
wire_codec UnknownFields
wire_jsonfields JsonMessage
wire_jsonfields JsonValue
wire_jsonfields $read_parts$
wire_jsonfields write_parts
wire_protojson ReadError
wire_protojson WriteError
$crate$ $name$
";

const VALUE_GHOSTS: &str = "\
Rattle.wire_jsonfields.specs.Messages IsObjectTree
Rattle.wire_jsonfields.specs.Messages ObjectMeans
Rattle.wire_jsonfields.specs.OneValues one_object
$json_page$ $name$-Json
$json_page$ $module$-json
$json_page$ $module$-json-absent
$json_page$ $module$-json-back
$json_page$ $module$-json-one
$json_page$ $module$-json-range
$json_page$ $module$-json-says
$json_page$ $module$-json-trees
";

const DEFINITION_PAGE: &str = "\
$heading$$imports$$definitions$$tables$
abbrev pub $name$-Json : Type 0
$name$-Json = $joined$-Value

-- a message as contracts see it
abbrev pub $module$-json : $name$ → $name$-Json
$module$-json = $joined$-seen

-- $saying$
abbrev pub $module$-json-says : Members → $name$-Json → Type 0
$module$-json-says = $says$

-- the members that are written
abbrev pub $module$-json-trees : $name$-Json → Members → Type 0
$module$-json-trees = $joined$-trees

-- the values that are read back
abbrev pub $module$-json-range : $name$-Json → Type 0
$module$-json-range = $joined$-range

abbrev pub $module$-json-absent : $name$-Json
$module$-json-absent = $joined$-absent

pub $module$-json-unsaid : $module$-json-says no_member $module$-json-absent
$module$-json-unsaid = $unsaid$

pub $module$-json-one : SayOne $module$-json-says
$module$-json-one = $one$

pub $module$-json-back : (v : $name$-Json) → $module$-json-range v
    → ComesBack (ObjectMeans $module$-json-says) (IsObjectTree $module$-json-trees) v
$module$-json-back =
    $message_back$ $joined$-names $joined$-says $joined$-trees
    $joined$-range refl $joined$-back
";

const USES: &str = "\
Rattle.std.proofs.Common refl
Rattle.std.specs.Prelude List
Rattle.wire_json.specs.Json Members
Rattle.wire_json.specs.Json no_member
Rattle.wire_jsonfields.specs.Back ComesBack
Rattle.wire_jsonfields.specs.Messages IsObjectTree
Rattle.wire_jsonfields.specs.Messages ObjectMeans
Rattle.wire_jsonfields.specs.Names Names
Rattle.wire_jsonfields.specs.OneValues SayOne
Rattle.wire_jsonfields.specs.Parts PartComesBack
Rattle.wire_jsonfields.specs.Parts $message_back$
$says_uses$Rattle.$crate$.specs.declared.$module$.$name$ $name$
";

// What is said of a message where each member is of a field.
const EACH_KNOWN: [Template; 7] = [
    (
        "saying",
        "each member of an object is of a field, and the fields are as the members say",
    ),
    ("says", "MembersSay $joined$-names $joined$-says"),
    ("unsaid", "(tt, $joined$-unsaid)"),
    ("one", "one_said $joined$-names $joined$-says $joined$-one"),
    ("message_back", "message_back"),
    (
        "says_uses",
        "Rattle.wire_jsonfields.specs.Parts MembersSay\n\
        Rattle.wire_jsonfields.specs.Parts one_said\n",
    ),
    ("read_parts", "read_parts"),
];

// The same where others are passed over.
const SOME_KNOWN: [Template; 7] = [
    (
        "saying",
        "the fields are as the members of an object say; those of no field say nothing",
    ),
    ("says", "$joined$-says"),
    ("unsaid", "$joined$-unsaid"),
    ("one", "$joined$-one"),
    ("message_back", "known_message_back"),
    ("says_uses", ""),
    ("read_parts", "read_known_parts"),
];

// Several parts as one.
const OF_GROUP: PartTexts = PartTexts {
    names: "",
    code: PART_CODE,
    code_uses: "",
    ghosts: PART_GHOSTS,
    definitions: "$tables$",
    uses: "",
};

const GROUP_CALLS: [Template; 8] = [
    ("part_seen_uses", "$group_uses$"),
    ("part_view", "$view$"),
    ("part", "$joined$"),
    ("part_type", "Of$whole_type$"),
    ("part_held", "$joined_held$"),
    ("is_named", "$joined_type$::is_named(name)"),
    ("read", "$joined_type$::read(alloc, text, members, levels)"),
    ("write", "$joined_type$::write(alloc, out, first, message)"),
];

/// The code and the definitions of a message type. The words of each oneof among its fields say how
/// that is joined.
pub fn message_files(
    page: &mut Words,
    schema: &Schema,
    message: &MessageType,
    fields: &[Field],
) -> Result<(String, String), GenerateError> {
    page.fill("json_page", "Rattle.$crate$_json.specs.$name$Json");
    let mut parts: Vec<Part> = Vec::new(page.alloc());
    for field in fields {
        let mut part = match (&field.oneof, described(&message.descriptor, &field.words)) {
            (None, Some(descriptor)) => put_field(page, schema, descriptor, field)?,
            _ => put_oneof(page, &field.words)?,
        };
        if let Some(oneof) = &field.oneof {
            part.weight = oneof.variants.len();
        }
        page.set("in_message", field.words.get("field"));
        page.append("set", "                $in_message$: read_$in_message$,\n");
        parts.push(part)?;
    }
    if parts.is_empty() {
        parts.push(nothing(page)?)?;
    }
    for _ in 0..fields.len() {
        if parts.len() > MOST_PARTS {
            parts = grouped(page, parts)?;
        }
    }
    page.fill_all(&[("source", "parts"), ("taken", "")]);
    set_taken(&parts, page);
    page.fill_all(&[("whole", "all-fields"), ("whole_type", "Parts")]);
    put_table(BOTH, &parts, page);
    page.fill_all(if page.get("json_unknown") == "skip" {
        &SOME_KNOWN
    } else {
        &EACH_KNOWN
    });
    Ok((code_of(page)?, definitions_of(page)?))
}

const NOTHING: &str = "\n\
abbrev pub nothing-Value : Type 0
nothing-Value = Unit {0}

abbrev pub nothing-names : List Names
nothing-names = no-names

abbrev pub nothing-says : Members → nothing-Value → Type 0
nothing-says = SayNothing

abbrev pub nothing-trees : nothing-Value → Members → Type 0
nothing-trees = AreNoMembers

abbrev pub nothing-range : nothing-Value → Type 0
nothing-range = IsAnyNothing

abbrev pub nothing-absent : nothing-Value
nothing-absent = tt

abbrev pub nothing-seen : $name$ → nothing-Value
nothing-seen m = tt

pub nothing-unsaid : nothing-says no_member nothing-absent
nothing-unsaid = tt

pub nothing-one : SayOne nothing-says
nothing-one = one_nothing

pub nothing-back : PartComesBack nothing-names nothing-says nothing-trees nothing-range
nothing-back = nothing_back
";

const NOTHING_USES: &str = "\
Rattle.wire_jsonfields.specs.NoFields AreNoMembers
Rattle.wire_jsonfields.specs.NoFields IsAnyNothing
Rattle.wire_jsonfields.specs.NoFields SayNothing
Rattle.wire_jsonfields.specs.NoFields no-names
Rattle.wire_jsonfields.specs.NoFields nothing_back
Rattle.wire_jsonfields.specs.NoFields one_nothing
";

// The part of a message without fields.
fn nothing(page: &mut Words) -> Result<Part, GenerateError> {
    page.append_all(&[
        ("definitions", NOTHING),
        ("uses", NOTHING_USES),
        ("code_uses", "wire_jsonfields NoField\n"),
    ]);
    let mut words = Words::like(page);
    words.fill_all(&[
        ("nothing", "nothing"),
        ("type", "NoField<$name$>"),
        ("held", "Nothing"),
        ("local", "_nothing"),
        ("none", ""),
    ]);
    words.ended()?;
    Ok(Part {
        name: words.take("nothing"),
        type_name: words.take("type"),
        held: words.take("held"),
        view: words.take("none"),
        uses: words.take("none"),
        local: words.take("local"),
        taken: words.take("none"),
        weight: 1,
    })
}

// The parts, of which several that stand together and are not too much are one.
fn grouped(page: &mut Words, parts: Vec<Part>) -> Result<Vec<Part>, GenerateError> {
    let mut groups = Vec::new(page.alloc());
    let mut group: Vec<Part> = Vec::new(page.alloc());
    let mut weight: usize = 0;
    for part in parts {
        let more = weight.saturating_add(part.weight);
        if !group.is_empty() && (group.len() == MOST_PARTS || more > MOST_WEIGHT) {
            groups.push(one_part(page, group)?)?;
            group = Vec::new(page.alloc());
            weight = 0;
        }
        weight = weight.saturating_add(part.weight);
        group.push(part)?;
    }
    groups.push(one_part(page, group)?)?;
    Ok(groups)
}

// Several parts as one.
fn one_part(page: &mut Words, mut parts: Vec<Part>) -> Result<Part, GenerateError> {
    if parts.len() == 1 {
        if let Some(mut part) = parts.pop() {
            part.weight = 1;
            return Ok(part);
        }
    }
    page.append("groups_so_far", "+");
    let number = page.get("groups_so_far").len();
    page.index("group", number);
    page.fill_all(&[
        ("source", "group_$group$"),
        ("taken", ""),
        ("group_uses", ""),
    ]);
    page.fill_all(&[("whole", "group-$group$"), ("whole_type", "Group$group$")]);
    set_view(&parts, page);
    let view = page.take("view");
    page.fill_all(&[("path_of_part", "h"), ("view", "")]);
    put_at(&view, page);
    set_taken(&parts, page);
    put_table(GROUPED, &parts, page);
    page.append("group_aliases", "$aliases$");
    for part in &parts {
        page.set("uses_of_part", &part.uses);
        page.append("group_uses", "$uses_of_part$");
    }
    let mut words = Words::like(page);
    words.fill_all(&GROUP_CALLS);
    let mut part = put_part(page, &mut words, &OF_GROUP)?;
    part.view = view;
    part.local = words.take("source");
    part.taken = words.take("taken");
    Ok(part)
}

fn code_of(page: &mut Words) -> Result<String, GenerateError> {
    set_heading(page, "//!", "The message `$full$` in JSON.");
    page.fill("ghosts", VALUE_GHOSTS);
    ghost_imports(page, "    ");
    page.fill("value_ghosts", "$ghost_imports$");
    page.fill("kept_uses", "$uses$");
    page.fill("uses", CODE_USES);
    page.append("uses", "$code_uses$");
    code_imports(page);
    page.fill("uses", "$kept_uses$");
    page.append("aliases", "$group_aliases$");
    page.fill("text", CODE_PAGE);
    page.finish("text")
}

fn definitions_of(page: &mut Words) -> Result<String, GenerateError> {
    set_heading(
        page,
        "--",
        "The message `$full$` in JSON, and what an object says of it.",
    );
    page.append("uses", USES);
    definition_imports(page);
    page.fill("text", DEFINITION_PAGE);
    page.finish("text")
}
