//! The definitions of the struct of a message, and its laws.
use crate::struct_fields::has_no_bytes;
use crate::struct_trees::{Mixed, StructTrees};
use wire_definitions::{Tree, definition_imports, set_heading};
use wire_schema::{Field, GenerateError, Template, Words};

const USES: &str = "\
Rattle.std.specs.Prelude List
Rattle.std.specs.Prelude ℕ
Rattle.std.specs.Prelude ⊤
Rattle.std.specs.Prelude ◌≡◌
Rattle.wire_codec.specs.Field Fields
Rattle.wire_codec.specs.Limits Fits
Rattle.wire_codec.specs.Limits Limits
Rattle.wire_codec.specs.Records text
Rattle.wire_codec.specs.Taking Decodes
Rattle.wire_fields.specs.Shape Shape
Rattle.wire_fields.specs.Shape two
Rattle.wire_structs.specs.Passed passed_by
Rattle.$crate$.specs.$name$ $name$-Known
Rattle.$crate$.specs.$name$ $name$-Value
Rattle.$crate$.specs.$name$ $module$-known
Rattle.$crate$.specs.$name$ $module$-range
Rattle.$crate$.specs.$name$ $module$-shape
Rattle.$crate$.specs.declared.$module$_in_c.$name$InC $name$InC
";

const DEFINITIONS: &str = "\
$heading$$imports$
$shown$
-- each number is 0, each flag is not set, and each slice is of no bytes
pub record $name$-IsZero (m : $name$InC) : Type 0 where
$clears$
$written$
-- its encoding, each record in its shortest form
abbrev pub $module$-encoding : $name$InC →$lists_type$ Fields → List ℕ
$module$-encoding m$lists_given$ fs = text ($module$-shape.records ($module$-written m$lists_given$ fs))

-- $law_is$
abbrev pub $name$InC-ReadsBack : Type 0
$name$InC-ReadsBack =
    (limits : Limits) (m : $name$InC)$lists_named$ (fs : Fields)
    → $module$-range.Holds ($module$-written m$lists_given$ fs)
    → Fits ($module$-range.charge_of ($module$-written m$lists_given$ fs)) limits
    → Decodes $module$-shape.takes limits $module$-shape.default ($module$-encoding m$lists_given$ fs)
    ($module$-written m$lists_given$ fs)$and_seen$
";

// What the law says, without lists and with them.
const LAW_WITHOUT: [Template; 2] = [
    (
        "law_is",
        "what is written of a struct and of unknown fields is read as both, where they are in the range \
        of\n-- the message and the limits suffice; and what is seen of it is what is shown",
    ),
    (
        "and_seen",
        "\n    × ($module$-seen ($module$-written m fs) ≡ $module$-shown m)",
    ),
];

const LAW_WITH: [Template; 6] = [
    (
        "law_is",
        "what is written of a struct, its lists and unknown fields is read as all of them, where \
        they are in\n-- the range of the message and the limits suffice",
    ),
    ("and_seen", ""),
    ("lists_type", " $name$InCLists →"),
    ("lists_given", " l"),
    ("lists_named", " (l : $name$InCLists)"),
    (
        "uses",
        "$uses$Rattle.$crate$.specs.declared.$module$_in_c_lists.$name$InCLists $name$InCLists\n",
    ),
];

const SHOWN: &str = "\
-- all but the unknown fields
abbrev pub $name$-Shown : Type 0
$name$-Shown = $name$-Known × ⊤

-- what is shown of a value
abbrev pub $module$-seen : $name$-Value → $name$-Shown
$module$-seen v = (v.0, tt)

$parts$-- what a struct shows
abbrev pub $module$-shown : $name$InC → $name$-Shown
$module$-shown m = (
$view$,
  tt,
)

-- the table of what a struct shows
abbrev pub $module$-struct : Shape $name$-Shown
$module$-struct = two $module$-known passed_by
";

const WRITTEN: &str = "\
-- what is written of a struct and of unknown fields beside it, as a value of the message
abbrev pub $module$-written : $name$InC → Fields → $name$-Value
$module$-written m fs = (($module$-shown m).0, fs)
";

// The same of a message that has messages inside.
const MIXED_SHOWN: &str = "\
-- all but the unknown fields, here and of the messages inside
abbrev pub $name$-Shown : Type 0
$name$-Shown =
    ($value$)
    × ⊤

-- what is shown of a value
abbrev pub $module$-seen : $name$-Value → $name$-Shown
$module$-seen v = (
$seen$,
  tt,
)

-- what a struct shows
abbrev pub $module$-shown : $name$InC → $name$-Shown
$module$-shown m = (
$view$,
  tt,
)

$struct_kinds$abbrev pub $module$-struct_known : Shape
    ($value$)
$module$-struct_known =
    $table$

-- the table of what a struct shows
abbrev pub $module$-struct : Shape $name$-Shown
$module$-struct = two $module$-struct_known passed_by
";

const MIXED_WRITTEN: &str = "\
$listed$$parts$-- what is written of a struct and of what is beside it, as a value of the message
abbrev pub $module$-written : $name$InC →$lists_type$ Fields → $name$-Value
$module$-written m$lists_given$ fs = (
$view$,
  fs,
)
";

const STRUCT_KIND: &str = "\
abbrev pub $struct_sort$ : Lawful $struct_type$
$struct_sort$ = embedded_once $of_module$-struct

";

const COUNT_KIND: &str = "\
abbrev pub $struct_sort$ : Lawful ℕ
$struct_sort$ = $list_kind$

";

const LISTED: &str = "\
abbrev pub $module$-$field$-listed : $name$InCLists → $list_value$
$module$-$field$-listed l = $list_written$

";

// A part of what is written where there are lists.
const PART_OF_LISTS: &str = "\
abbrev pub $part_words$-written : $name$InCLists → $name$InC → $part_value$
$part_words$-written l m = $view$

";

const MIXED_USES: &str = "\
Rattle.wire_fields.specs.Shape Lawful
Rattle.wire_fields.specs.Shape known
";

const PART: &str = "\
abbrev pub $part_words$-$part_view$ : $name$InC → $part_value$
$part_words$-$part_view$ m = $view$

";

const OF_FIELD: [Template; 2] = [
    ("uses", "$struct_uses$"),
    ("clears", "  pub $member$ : $struct_clear$\n"),
];

/// The page of the definitions of a struct.
pub fn struct_definitions_of(
    base: &Words,
    fields: &[Field],
    trees: &StructTrees,
) -> Result<String, GenerateError> {
    let mut page = Words::like(base);
    page.fill("uses", USES);
    for field in fields {
        put_field(&mut page, &field.words);
    }
    if has_no_bytes(fields) {
        page.append("clears", "  pub no_bytes : m.no_bytes.now ≡ []\n");
        page.append("uses", "Rattle.std.specs.Prelude []\n");
    }
    let has_lists = !page.get("of_lists").is_empty();
    page.fill_all(if has_lists { &LAW_WITH } else { &LAW_WITHOUT });
    match &trees.mixed {
        None => {
            put_tree(&mut page, &trees.shown);
            page.fill_all(&[("shown", SHOWN), ("written", WRITTEN)]);
        }
        Some(mixed) => put_mixed(&mut page, fields, &trees.shown, mixed),
    }
    set_heading(&mut page, "--", "`$name$` as a struct shows it.");
    definition_imports(&mut page);
    page.fill("text", DEFINITIONS);
    page.finish("text")
}

// What there is for a field.
fn put_field(page: &mut Words, field: &Words) {
    page.copy(field, &["field", "struct_uses", "struct_clear", "presence"]);
    page.copy(field, &["member"]);
    if !page.get("presence").is_empty() {
        page.append("clears", "  pub has_$field$ : m.has_$field$ ≡ false\n");
    }
    page.append_all(&OF_FIELD);
}

// How the fields are shown, the `view`, and those of each part by itself.
fn put_tree(page: &mut Words, tree: &Tree) {
    page.set("parts", "");
    for part in &tree.parts {
        page.copy(
            &part.words,
            &["view", "part_words", "part_value", "part_view"],
        );
        let has_lists = page.get("part_view") == "written l";
        page.append("parts", if has_lists { PART_OF_LISTS } else { PART });
        page.append("uses", "Rattle.$crate$.specs.$name$ $part_value$\n");
    }
    page.copy(&tree.words, &["view"]);
    page.indent("view");
}

// The same of a message that has messages inside.
fn put_mixed(page: &mut Words, fields: &[Field], shown: &Tree, mixed: &Mixed) {
    page.append("uses", MIXED_USES);
    for field in fields {
        page.copy(&field.words, &["field", "value_uses", "is_mixed"]);
        page.copy(&field.words, &["struct_sort", "struct_type", "of_module"]);
        page.copy(&field.words, &["kind_use"]);
        page.copy(&field.words, &["list_kind", "list_written", "list_value"]);
        match field.words.get("is_mixed") {
            "" => page.append("uses", "$value_uses$$kind_use$"),
            "oneof" => {}
            "list" => {
                page.append_all(&[("struct_kinds", COUNT_KIND), ("listed", LISTED)]);
            }
            _ => page.append("struct_kinds", STRUCT_KIND),
        }
    }
    page.copy(&mixed.seen.words, &["view"]);
    page.indent("view");
    let seen = page.take("view");
    page.set("seen", &seen);
    page.copy(&shown.words, &["view", "value", "table"]);
    page.indent("view");
    page.fill("shown", MIXED_SHOWN);
    put_tree(page, &mixed.written);
    page.fill("written", MIXED_WRITTEN);
}

/// The laws of a struct, and what they bring in.
pub const STRUCT_LAWS: &str = "
/// What is written of a `$name$InC`$with_lists$ is read as it is written, with the unknown fields
/// behind it.
pub fn $module$_in_c_reads_back()
    ensures { $name$InC-ReadsBack }
{
    $module$_reads_back();
}

/// The unknown fields of bytes, which are written behind a `$name$InC`, are those that the message
/// keeps which the bytes are.
pub fn $module$_in_c_keeps_unknown()
    ensures { KeepsUnknown $module$-known }
{}
";

pub const STRUCT_LAW_USES: &str = "\
Rattle.wire_structs.specs.KeptFields KeepsUnknown
Rattle.$crate$.specs.$name$ $module$-known
Rattle.$crate$.specs.$name$InC $name$InC-ReadsBack
";

/// Why what is written of a struct with lists is read back.
pub const READS_BACK_OF_LISTS: &str = "\
use Rattle.$crate$.specs.$name$.{$module$-range}
use Rattle.$crate$.specs.$name$InC.{$module$-written}
use Rattle.$crate$.proofs.laws.$module$_in_c_reads_back.Goals as goal

pub returns : goal.returns
returns c limits m l fs holds fits =
    let v = $module$-written m l fs in
    ($module$-range.charge_of v, c.$module$_reads_back.ensures limits v holds fits)
";

pub const READS_BACK_ANSWERS: &str = "\
use Rattle.$crate$.proofs.$name$InCShows.{$module$-same}
use Rattle.$crate$.specs.$name$.{$module$-range}
use Rattle.$crate$.specs.$name$InC.{$module$-written}
use Rattle.$crate$.proofs.laws.$module$_in_c_reads_back.Goals as goal

pub returns : goal.returns
returns c l m fs holds fits =
    let v = $module$-written m fs in (
      ($module$-range.charge_of v, c.$module$_reads_back.ensures l v holds fits),
      $module$-same m fs,
    )
";

const KEEPS_USES: &str = "Rattle.wire_structs.proofs.KeptUnknown keeps_unknown\n";

/// What the levels of the records of a message bring in.
pub const LEVEL_USES: &str = "\
Rattle.wire_structs.specs.ListLaws HasLevels
Rattle.wire_structs.specs.ListLaws known_levels
Rattle.wire_structs.specs.ListLaws two_levels
Rattle.wire_structs.specs.ListLaws unknown_levels
Rattle.$crate$.specs.$name$ $module$-known
Rattle.$crate$.specs.$name$ $module$-shape
";

const KEEPS_OF_LISTS: &str = "\
use Rattle.wire_structs.proofs.KeptUnknown.{keeps_unknown}
use Rattle.$crate$.specs.$name$.{$module$-known}
use Rattle.$crate$.specs.$name$InCLists.{$module$-levels}
use Rattle.$crate$.proofs.laws.$module$_in_c_keeps_unknown.Goals as goal

pub returns : goal.returns
returns c = keeps_unknown $module$-known $module$-levels
";

const KEEPS_ANSWERS: &str = "\
$imports$use Rattle.$crate$.proofs.laws.$module$_in_c_keeps_unknown.Goals as goal

$module$-levels : HasLevels $module$-shape
$module$-levels =
    two_levels _ _
    ($stays$)
    unknown_levels

pub returns : goal.returns
returns c = keeps_unknown $module$-known $module$-levels
";

/// Why the unknown fields are those that the message keeps: no record of it adds a level but its
/// own.
pub fn keeps_answers_of(
    base: &Words,
    fields: &[Field],
    tree: &Words,
) -> Result<String, GenerateError> {
    let mut page = Words::like(base);
    if !page.get("of_lists").is_empty() {
        page.fill("text", KEEPS_OF_LISTS);
        return page.finish("text");
    }
    page.fill("uses", KEEPS_USES);
    page.append("uses", LEVEL_USES);
    for field in fields {
        page.copy(&field.words, &["field", "law_uses", "kind_use"]);
        page.append("uses", "$law_uses$$kind_use$");
    }
    page.copy(tree, &["stays"]);
    definition_imports(&mut page);
    page.fill("text", KEEPS_ANSWERS);
    page.finish("text")
}
