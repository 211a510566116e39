//! A oneof as a part of its message.
use crate::parts::{PART_CODE, PART_GHOSTS, PartTexts, put_part};
use crate::tables::Part;
use wire_schema::{GenerateError, Template, Words, variant_name};

const PART_DEFINITIONS: &str = "\n\
abbrev pub $part$-Value : Type 0
$part$-Value = Option $joined$-Value

abbrev pub $part$-names : List Names
$part$-names = $joined$-names

abbrev pub $part$-says : Members → $part$-Value → Type 0
$part$-says = $joined$-says

abbrev pub $part$-trees : $part$-Value → Members → Type 0
$part$-trees = OneofTrees $joined$-trees

abbrev pub $part$-range : $part$-Value → Type 0
$part$-range = IsOneofInRange $joined$-range

abbrev pub $part$-absent : $part$-Value
$part$-absent = None

abbrev pub $part$-seen : $name$ → $part$-Value
$part$-seen m = oneof_seen $joined$-seen m.$field$

pub $part$-unsaid : $part$-says no_member $part$-absent
$part$-unsaid = $joined$-unsaid

pub $part$-one : SayOne $part$-says
$part$-one = $joined$-one

pub $part$-back
    : PartComesBack $part$-names $part$-says $part$-trees $part$-range
$part$-back =
    oneof_back $joined$-names $joined$-says $joined$-trees
    $joined$-range $joined$-back
";

const PART_USES: &str = "\
Rattle.std.specs.Prelude None
Rattle.std.specs.Prelude Option
Rattle.wire_jsonfields.specs.Choices oneof_seen
Rattle.wire_jsonfields.specs.Oneofs OneofTrees
Rattle.wire_jsonfields.specs.Parts IsOneofInRange
Rattle.wire_jsonfields.specs.Parts oneof_back
$oneof_page$ $joined$-Value
$oneof_page$ $joined$-back
$oneof_page$ $joined$-names
$oneof_page$ $joined$-one
$oneof_page$ $joined$-range
$oneof_page$ $joined$-says
$oneof_page$ $joined$-seen
$oneof_page$ $joined$-trees
$oneof_page$ $joined$-unsaid
";

const PART_CODE_USES: &str = "\
crate::$module$_json $joined_type$
crate::$module$_json $module$_of
wire_jsonfields JsonChoice
wire_jsonfields JsonPart
wire_jsonfields PlacedMember
wire_jsonfields write_oneof
$held_use$";

const PART_CALLS: [Template; 9] = [
    ("part_taken", TAKEN),
    ("part_held", "Option<$joined_held$>"),
    ("part_before", "option_map $joined$-view "),
    ("part_behind", ""),
    ("part_view", "$part_before$h"),
    (
        "part_seen_uses",
        "Rattle.std.specs.Prelude option_map\n$oneof_page$ $joined$-view\n",
    ),
    ("is_named", "$joined_type$::is_named(name)"),
    ("read", "$joined_type$::read(alloc, text, members, levels)"),
    (
        "write",
        "write_oneof::<$joined_type$>(alloc, out, first, &message.$field$)",
    ),
];

// Of what is read of it the oneof is made.
const TAKEN: &str = "        let read_$field$ = match read_$field$ {
            None => None,
            Some(chosen) => Some($module$_of(chosen)),
        };
";

const ONEOF: PartTexts = PartTexts {
    names: "",
    code: PART_CODE,
    code_uses: PART_CODE_USES,
    ghosts: PART_GHOSTS,
    definitions: PART_DEFINITIONS,
    uses: PART_USES,
};

/// Puts a oneof that is joined so, as its words say, to the page of its message.
pub(crate) fn put_oneof(page: &mut Words, oneof: &Words) -> Result<Part, GenerateError> {
    let mut words = Words::like(oneof);
    words.copy(page, &["json_page", "crate"]);
    words.fill("oneof_page", "Rattle.$crate$_json.specs.$name$Json");
    words.fill("part", "$field$");
    let variant = variant_name(words.alloc(), words.get("field"))?;
    words.set("part_variant", &variant);
    words.fill("part_type", "Of$part_variant$");
    words.fill_all(&PART_CALLS);
    words.copy(page, &["name"]);
    put_part(page, &mut words, &ONEOF)
}
