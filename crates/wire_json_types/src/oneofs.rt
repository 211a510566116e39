//! The code and the definitions of oneofs.
use crate::members::{described, joined_members, put_member, set_made};
use crate::tables::{EITHER, put_table};
use wire_definitions::{code_imports, definition_imports, ghost_imports, set_heading};
use wire_descriptor::DescriptorProto;
use wire_schema::{GenerateError, Oneof, Template, Words};

const MADE: &str = "\
/// The oneof of which a member was read.
pub(crate) fn $module$_of($made_as$: $joined_held$) -> $name$
    ensures { $joined$-seen result ≡ Some ($joined$-view $made_as$) }
{
    $made_of$
}
";

const MADE_GHOSTS: &str = "\
Rattle.std.specs.Prelude ◌≡◌
Rattle.std.specs.Prelude Some
Rattle.std.specs.Prelude option_map
$json_page$ $joined$-seen
$json_page$ $joined$-view
";

const CODE_PAGE: &str = "\
$heading$$ghost_imports$
$imports$
$aliases$$field_names$$code$$made$";

const DEFINITION_PAGE: &str = "\
$heading$$imports$\
use Rattle.$crate$.specs.declared.$module$.$name$.TheVariants as variants
$definitions$$tables$";

/// The code and the definitions of a oneof of a message of this descriptor. The words of the page
/// say then how it is joined.
pub fn oneof_files(
    page: &mut Words,
    descriptor: &DescriptorProto,
    oneof: &Oneof,
) -> Result<(String, String), GenerateError> {
    page.fill("json_page", "Rattle.$crate$_json.specs.$name$Json");
    let mut members = Vec::new(page.alloc());
    for variant in &oneof.variants {
        if let Some(field) = described(descriptor, variant) {
            members.push(put_member(page, field, variant, oneof)?)?;
        }
    }
    let members = joined_members(page, members)?;
    page.fill_all(&[("whole", "$field$-chosen"), ("whole_type", "$name$Json")]);
    put_table(EITHER, &members, page);
    page.append("aliases", "$group_aliases$");
    let is_one = oneof.variants.len() == 1;
    page.fill(
        "held_use",
        if is_one { "$json_held_code$" } else { HELD_USE },
    );
    set_made(&members, page);
    page.indent_rest("made_of");
    page.indent_rest("made_of");
    page.fill("made", MADE);
    page.fill("ghosts", MADE_GHOSTS);
    page.append("ghosts", "$of_ghosts$");
    Ok((code_of(page)?, definitions_of(page)?))
}

const HELD_USE: &str = "crate::$module$_json $joined_held$\n";

fn code_of(page: &mut Words) -> Result<String, GenerateError> {
    set_heading(page, "//!", "The oneof `$full$` in JSON.");
    ghost_imports(page, "");
    page.fill("kept_uses", "$uses$");
    page.fill("uses", "$code_uses$");
    code_imports(page);
    page.fill("uses", "$kept_uses$");
    page.fill("text", CODE_PAGE);
    page.finish("text")
}

fn definitions_of(page: &mut Words) -> Result<String, GenerateError> {
    set_heading(page, "--", "The oneof `$full$` in JSON.");
    page.append("uses", DECLARED);
    definition_imports(page);
    page.fill("text", DEFINITION_PAGE);
    page.finish("text")
}

const DECLARED: &str = "Rattle.$crate$.specs.declared.$module$.$name$ $name$\n";
