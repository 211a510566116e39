//! The members of oneofs, as choices of these.
use crate::items::set_item;
use crate::kinds::{is_nullable, set_element};
use crate::parts::{
    CHOICES, FIELD_NAME, PartTexts, READ_ARGUMENTS, READ_NULLABLE, put_part, set_call, set_names,
};
use crate::tables::{EITHER, Part, put_table};
use wire_descriptor::{DescriptorProto, FieldDescriptorProto};
use wire_schema::{GenerateError, Oneof, Template, Words};

// A member of a oneof.
const DEFINITIONS: &str = "\n\
abbrev pub $part$-Value : Type 0
$part$-Value = $json_value$

abbrev pub $part$-Held : Type 0
$part$-Held = $json_held$

abbrev pub $part$-view : $part$-Held → $part$-Value
$part$-view h = $json_before$h$json_behind$

abbrev pub $part$-names : List Names
$part$-names = $names$ ∷ []

abbrev pub $part$-says : Members → Option $part$-Value → Type 0
$part$-says =
    $member_saying$
    $named$

abbrev pub $part$-trees : $part$-Value → Members → Type 0
$part$-trees = IsMemberTree $json_tree$ $json_name$

abbrev pub $part$-range : $part$-Value → Type 0
$part$-range = $json_range$

abbrev pub $part$-of : $name$ → Option $part$-Held
$of_variants$
abbrev pub $part$-seen : $name$ → Option $part$-Value
$part$-seen o = option_map $part$-view ($part$-of o)

pub $part$-unsaid : $part$-says no_member None
$part$-unsaid =
    $member_unsaid$
    $named$

pub $part$-one : SayOne $part$-says
$part$-one =
    $member_one_said$
    $named$

pub $part$-back
    : ChoiceComesBack $part$-names $part$-says $part$-trees $part$-range
$part$-back =
    $variant_back$ $json_means$
    $json_tree$
    $two_names$
    $json_range$ $json_back$
";

const USES: &str = "\
Rattle.std.specs.Prelude []
Rattle.std.specs.Prelude codes
Rattle.std.specs.Prelude List
Rattle.std.specs.Prelude None
Rattle.std.specs.Prelude Option
Rattle.std.specs.Prelude Some
Rattle.std.specs.Prelude option_map
Rattle.std.specs.Prelude ◌∷◌
Rattle.wire_json.specs.Json Members
Rattle.wire_json.specs.Json no_member
Rattle.wire_jsonfields.specs.Names Names
Rattle.wire_jsonfields.specs.Objects IsNameOf
Rattle.wire_jsonfields.specs.Oneofs IsMemberTree
Rattle.wire_jsonfields.specs.OneValues SayOne
Rattle.wire_jsonfields.specs.Parts ChoiceComesBack
$member_uses$$json_uses$$json_back_uses$$json_seen_uses$$json_held_uses$";

// What is said of a member, and why it comes back; and how it is read.
const SAID: [Template; 7] = [
    ("member_saying", "FieldMeans None (MeansSome $json_means$)"),
    ("member_unsaid", "unsaid None (MeansSome $json_means$)"),
    (
        "member_one_said",
        "one_field None (MeansSome $json_means$)\n    (one_some $json_means$ $json_one$)",
    ),
    ("variant_back", "variant_back"),
    (
        "member_uses",
        "Rattle.wire_jsonfields.specs.Fields FieldMeans\n\
        Rattle.wire_jsonfields.specs.Fields MeansSome\n\
        Rattle.wire_jsonfields.specs.Fields unsaid\n\
        Rattle.wire_jsonfields.specs.OneValues one_field\n\
        Rattle.wire_jsonfields.specs.OneValues one_some\n\
        Rattle.wire_jsonfields.specs.Parts variant_back\n",
    ),
    ("call", "read_field::<Maybe<$element$>>"),
    (
        "read_use",
        "wire_jsonfields Maybe\nwire_jsonfields read_field\n",
    ),
];

// The same where `null` is a value of it.
const NULLABLE_SAID: [Template; 7] = [
    ("member_saying", "NullableMeans $json_means$"),
    ("member_unsaid", "nullable_unsaid $json_means$"),
    (
        "member_one_said",
        "one_nullable $json_means$\n    $json_one$",
    ),
    ("variant_back", "nullable_variant_back"),
    (
        "member_uses",
        "Rattle.wire_well_known_json.specs.Nullable NullableMeans\n\
        Rattle.wire_well_known_json.specs.Nullable nullable_unsaid\n\
        Rattle.wire_well_known_json.specs.Nullable nullable_variant_back\n\
        Rattle.wire_well_known_json.specs.Nullable one_nullable\n",
    ),
    ("call", "read_nullable::<$element$>"),
    ("read_use", READ_NULLABLE),
];

const GHOSTS: &str = "\
$json_page$ $part$-Value
$json_page$ $part$-back
$json_page$ $part$-names
$json_page$ $part$-one
$json_page$ $part$-range
$json_page$ $part$-says
$json_page$ $part$-seen
$json_page$ $part$-trees
$json_page$ $part$-unsaid
$json_page$ $part$-view
";

const CHOICE: &str = "\
pub struct $part_type$;

impl JsonChoice for $part_type$ {
$ghost_imports$
    type Oneof = $name$;

    type Held = $part_held$;

    ghost Value = { $part$-Value };

    ghost view = { $part$-view };

    ghost seen = { $part$-seen };

    ghost names = { $part$-names };

    ghost says = { $part$-says };

    ghost trees = { $part$-trees };

    ghost unsaid = { $part$-unsaid };

    ghost one_value = { $part$-one };

    ghost in_range = { $part$-range };

    ghost back = { $part$-back };

    fn is_named(name: &str) -> bool {
        $is_named$
    }

    fn read(
        alloc: Global,
        text: &[u8],
        members: &[PlacedMember<'_>],
        levels: u32,
    ) -> Result<Option<$part_held$>, ReadError> {
        $read$
    }

    fn is_chosen(oneof: &$name$) -> bool {
        $is_chosen$
    }

    fn write(
        alloc: Global,
        out: &mut Vec<u8>,
        first: bool,
        oneof: &$name$,
    ) -> Result<bool, WriteError> {
        $write$
    }
}

$found$";

// A member, where a oneof is that.
const FOUND: &str = "\
fn $field$_of(oneof: &$name$) -> Option<&$held$>
    ensures { option_map (λ h. h.now) result ≡ $part$-of oneof.now }
{
    match oneof {
        $name$::$variant$(value) => Some(value),
$other$    }
}

";

const CHOICE_USES: &str = "\
std::alloc Global
wire_jsonfields FieldName
wire_jsonfields JsonChoice
wire_jsonfields PlacedMember
wire_jsonfields write_chosen
wire_protojson ReadError
wire_protojson WriteError
$crate$ $name$
$read_use$$json_code$$json_held_code$";

const MEMBER_CALLS: [Template; 5] = [
    (
        "is_named",
        "name == $constant$.name || name == $constant$.json_name",
    ),
    ("is_chosen", "$field$_of(oneof).is_some()"),
    ("part_taken", "$name$::$variant$(value)"),
    ("part_seen_uses", ""),
    ("found", FOUND),
];

// Several members as one choice.
const GROUP_CALLS: [Template; 9] = [
    ("part", "$joined$"),
    ("part_type", "Of$joined_type$"),
    ("part_held", "$joined_held$"),
    ("is_named", "$joined_type$::is_named(name)"),
    ("read", "$joined_type$::read(alloc, text, members, levels)"),
    ("is_chosen", "$joined_type$::is_chosen(oneof)"),
    ("write", "$joined_type$::write(alloc, out, first, oneof)"),
    ("part_taken", "$made_of$"),
    ("found", ""),
];

const GROUP: PartTexts = PartTexts {
    names: "",
    code: CHOICE,
    code_uses: "",
    ghosts: GHOSTS,
    definitions: "$tables$",
    uses: "",
};

const MEMBER: PartTexts = PartTexts {
    names: FIELD_NAME,
    code: CHOICE,
    code_uses: CHOICE_USES,
    ghosts: GHOSTS,
    definitions: DEFINITIONS,
    uses: USES,
};

/// What the descriptor says of a field of these words.
pub(crate) fn described<'a>(
    descriptor: &'a DescriptorProto,
    words: &Words,
) -> Option<&'a FieldDescriptorProto> {
    let name = words.get("proto");
    descriptor.field.iter().find(|it| it.name.as_str() == name)
}

/// Puts a member of a oneof, of this descriptor, to the page of the oneof.
pub(crate) fn put_member(
    page: &mut Words,
    descriptor: &FieldDescriptorProto,
    variant: &Words,
    oneof: &Oneof,
) -> Result<Part, GenerateError> {
    let mut words = Words::like(variant);
    words.copy(page, &["json_page", "crate", "name"]);
    words.copy(page, &CHOICES);
    set_names(descriptor, &mut words)?;
    set_item(descriptor, &mut words);
    set_element(descriptor, &mut words);
    words.fill_all(&[("other", ""), ("of_variants", ""), ("part_held", "$held$")]);
    for other in &oneof.variants {
        let is_this = other.get("variant") == words.get("variant");
        words.set("of_variant", other.get("variant"));
        words.append("of_variants", if is_this { OF_THIS } else { OF_OTHER });
        if !is_this {
            words.fill("other", "        _ => None,\n");
        }
    }
    words.fill_all(&MEMBER_CALLS);
    words.fill_all(if is_nullable(&words) {
        &NULLABLE_SAID
    } else {
        &SAID
    });
    set_call("read", READ_ARGUMENTS, &mut words);
    words.fill("call", "write_chosen::<$element$>");
    set_call("write", WRITE_ARGUMENTS, &mut words);
    words.fill("of_ghost", "$json_page$ $part$-of\n");
    page.copy(&words, &["json_held_code", "of_ghost"]);
    page.append("of_ghosts", "$of_ghost$");
    put_part(page, &mut words, &MEMBER)
}

const WRITE_ARGUMENTS: &str = "alloc, out, first, &$constant$, $field$_of(oneof)";

const OF_THIS: &str = "$part$-of (variants.$of_variant$ held) = Some held\n";

const OF_OTHER: &str = "$part$-of (variants.$of_variant$ held) = None\n";

// The most members that stand together, as of the parts of a message.
const MOST_MEMBERS: usize = 4;

/// No more members than stand together, of which several are one choice each.
pub(crate) fn joined_members(
    page: &mut Words,
    members: Vec<Part>,
) -> Result<Vec<Part>, GenerateError> {
    let mut choices = members;
    for _ in 0..choices.len() {
        if choices.len() > MOST_MEMBERS {
            let mut groups = Vec::new(page.alloc());
            let mut group: Vec<Part> = Vec::new(page.alloc());
            for choice in choices {
                if group.len() == MOST_MEMBERS {
                    groups.push(one_choice(page, group)?)?;
                    group = Vec::new(page.alloc());
                }
                group.push(choice)?;
            }
            groups.push(one_choice(page, group)?)?;
            choices = groups;
        }
    }
    Ok(choices)
}

fn one_choice(page: &mut Words, mut members: Vec<Part>) -> Result<Part, GenerateError> {
    if members.len() == 1 {
        if let Some(member) = members.pop() {
            return Ok(member);
        }
    }
    page.append("groups_so_far", "+");
    let number = page.get("groups_so_far").len();
    page.index("group", number);
    page.fill("whole", "$field$-chosen-$group$");
    page.fill("whole_type", "$name$Json$group$");
    put_table(EITHER, &members, page);
    page.append("group_aliases", "$aliases$");
    set_made(&members, page);
    let mut words = Words::like(page);
    words.fill_all(&GROUP_CALLS);
    put_part(page, &mut words, &GROUP)
}

/// How the oneof is made of what was read of these members, `made_as`, as the word `made_of`.
pub(crate) fn set_made(members: &[Part], words: &mut Words) {
    words.fill("made_of", "");
    for member in members.iter().rev() {
        words.set("this", &member.taken);
        words.fill("this_as", called(&member.taken));
        if words.get("made_of").is_empty() {
            words.fill_all(&[("made_of", "$this$"), ("made_as", "$this_as$")]);
        } else {
            for name in ["this", "made_of"] {
                words.indent_rest(name);
                words.indent_rest(name);
            }
            words.fill_all(&MADE_OF);
        }
    }
}

// What is read is called so where the oneof is made of it by this expression.
fn called(expression: &str) -> &'static str {
    if expression.starts_with("match ") {
        "chosen"
    } else {
        "value"
    }
}

const MADE_OF: [Template; 2] = [
    (
        "made_of",
        "match chosen {\n    Chosen::This($this_as$) => $this$,\n    \
        Chosen::That($made_as$) => $made_of$,\n}",
    ),
    ("made_as", "chosen"),
];
