//! What is asked of a oneof that has a message with required fields, or one that holds such.
use crate::imports::ghost_imports;
use wire_schema::{Oneof, Words};

// The call that looks into the message that stands.
const REQUIREMENT: &str = "
impl Requirement for $kind_name$ {
$ghost_imports$
    type Held = Option<$name$>;

    ghost Value = { $name$-Value };

    ghost view = { $module$-of };

    ghost missing = { λ name. $module$-missing };

    fn missing(
        alloc: Global,
        _name: &'static str,
        held: &Option<$name$>,
    ) -> Result<Option<FieldPath>, AllocError> {
        match held {
$asked$            None => Ok(None),
        }
    }
}
";

const GHOSTS_OF_ONE: &str = "\
Rattle.$crate$.specs.$name$ $name$-Value
Rattle.$crate$.specs.$name$ $module$-missing
Rattle.$crate$.specs.$name$ $module$-of
";

const USES_OF_VARIANTS: &str = "\
std::alloc AllocError
wire_required FieldPath
wire_required Requirement
wire_required missing_in
";

// The same as a definition.
const MISSING_IN_ONE: &str = "
-- what the message lacks that stands
abbrev pub $module$-missing : $name$-Value → Missing
$module$-missing None = None
$asked$";

const USES_IN_ONE: &str = "\
Rattle.std.specs.Prelude codes
Rattle.wire_required.specs.Missing Missing
Rattle.wire_required.specs.Missing in_message
";

/// Tells the page of a oneof whether one of its messages has required fields, or holds such.
pub(crate) fn set_requiring(page: &mut Words, oneof: &Oneof) {
    let mut variants = oneof.variants.iter();
    let is_requiring = variants.any(|it| !it.get("of_requiring").is_empty());
    page.set("requiring", if is_requiring { "requiring" } else { "" });
    page.set("asked", "");
}

/// The arms of a oneof, as the word `asked`, and what they bring in.
pub fn use_variants(page: &mut Words, oneof: &Oneof) {
    set_requiring(page, oneof);
    if page.get("requiring").is_empty() {
        return;
    }
    page.append("uses", USES_OF_VARIANTS);
    for variant in &oneof.variants {
        page.copy(variant, &["variant", "proto", "of_requiring"]);
        put_arm(page, "$name$");
    }
}

/// Puts the call of a oneof behind the text so far, of the arms that are there.
pub fn put_requirement(page: &mut Words) {
    if !page.get("requiring").is_empty() {
        page.fill("ghosts", GHOSTS_OF_ONE);
        ghost_imports(page, "    ");
        page.append("text", REQUIREMENT);
    }
}

/// Puts its definition behind the text so far, of the lines that are there.
pub(crate) fn put_missing_in_one(page: &mut Words) {
    if !page.get("requiring").is_empty() {
        page.append("text", MISSING_IN_ONE);
    }
}

/// The line of a variant, which is seen as the word `one`, and what it brings in.
pub(crate) fn define_variant(page: &mut Words, variant: &Words) {
    if page.get("requiring").is_empty() {
        return;
    }
    page.append("uses", USES_IN_ONE);
    page.copy(variant, &["proto", "of_requiring", "specs", "of_module"]);
    if page.get("of_requiring").is_empty() {
        page.append("asked", "$module$-missing (Some $one$) = None\n");
    } else {
        page.append(
            "asked",
            "$module$-missing (Some $one$) = in_message (codes \"$proto$\") $of_module$-missing x\n",
        );
        page.append("uses", "$specs$ $of_module$-missing\n");
    }
}

// The same of a oneof of which some variants are rows: of those that are of the leaf.
const CHOICE: &str = "
// What is asked of the variants of `$choice$` that are no messages of a row.
struct $choice$Required$of_low$To$of_high$;

impl Requirement for $choice$Required$of_low$To$of_high$ {
$ghost_imports$
    type Held = Option<$choice$>;

    ghost Value = { $choice$-Value };

    ghost view = { λ held.
        (or_else $choice_module$-none (option_map $choice_module$-value held)).0 };

    ghost missing = { λ name. $choice_module$-missing };

    fn missing(
        alloc: Global,
        _name: &'static str,
        held: &Option<$choice$>,
    ) -> Result<Option<FieldPath>, AllocError> {
        match held {
$asked$            None => Ok(None),
        }
    }
}
";

const CHOICE_GHOSTS: &str = "\
Rattle.std.specs.Prelude option_map
Rattle.wire_fields.specs.Messages or_else
Rattle.$crate$.specs.$choice$ $choice$-Value
Rattle.$crate$.specs.$choice$ $choice_module$-missing
Rattle.$crate$.specs.$home$ $choice_module$-none
Rattle.$crate$.specs.$home$ $choice_module$-value
";

/// Puts what is asked of such a oneof behind the parts so far, where one of its messages that are
/// of the leaf has required fields, or holds such.
pub fn put_choice_requirement(page: &mut Words, oneof: &Oneof) {
    let mut variants = oneof.variants.iter();
    if !variants.any(|it| !it.get("of_requiring").is_empty()) {
        return;
    }
    page.append("uses", USES_OF_VARIANTS);
    page.set("asked", "");
    for variant in &oneof.variants {
        page.copy(variant, &["variant", "proto", "of_requiring"]);
        put_arm(page, "$choice$");
    }
    page.set("of_requiring", "");
    let rows = page.take("own_rows");
    for name in rows.split(' ') {
        if !name.is_empty() {
            page.set("variant", name);
            put_arm(page, "$choice$");
        }
    }
    page.fill("ghosts", CHOICE_GHOSTS);
    ghost_imports(page, "    ");
    page.append("parts", CHOICE);
}

// The arm of a variant of this oneof.
fn put_arm(page: &mut Words, oneof: &str) {
    page.fill("asked_oneof", oneof);
    let is_plain = page.get("of_requiring").is_empty();
    page.append(
        "asked",
        if is_plain {
            "            Some($asked_oneof$::$variant$(_)) => Ok(None),\n"
        } else {
            "            Some($asked_oneof$::$variant$(message)) => missing_in(alloc, \"$proto$\", message),\n"
        },
    );
}
