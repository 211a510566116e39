//! The code and the definitions of the names of an enum in JSON.
use wire_definitions::{code_imports, definition_imports, ghost_imports, set_heading};
use wire_schema::{EnumType, GenerateError, Template, Words};

const CODE_PAGE: &str = "\
$heading$$imports$
/// The names of `$full$`.
pub struct $name$Json;

const NAMES: [EnumName<'static>; $count$] = [
$rows$];

impl JsonNames for $name$Json {
$ghost_imports$
    type Enum = $name$;

    ghost table = { $module$-json-names };

    ghost agree = { $module$-json-agree };

    ghost texts = { $module$-json-texts };

    fn names() -> &'static [EnumName<'static>] {
        &NAMES
    }
}
";

const NAME: &str =
    "    EnumName {\n        name: \"$proto$\",\n        number: $number$,\n    },\n";

const CODE_USES: &str = "\
wire_jsonkinds JsonNames
wire_protojson EnumName
$crate$ $name$
";

const GHOSTS: &str = "\
$json_page$ $module$-json-agree
$json_page$ $module$-json-names
$json_page$ $module$-json-texts
";

const DEFINITION_PAGE: &str = "\
$heading$$imports$
abbrev pub $module$-json-names : EnumTable
$module$-json-names =
$table$    []

-- no name stands for two numbers
pub $module$-json-agree : NamesAgree $module$-json-names
$module$-json-agree = names_agree $module$-json-names refl

pub $module$-json-texts : AreTexts $module$-json-names
$module$-json-texts = names_are_texts $module$-json-names refl
";

const ROW: &str = "    (codes \"$proto$\", $sign$ $digits$) ∷\n";

const BELOW: [Template; 2] = [("sign", "negsuc"), ("digits", "$below$")];

const FROM_0: [Template; 2] = [("sign", "pos"), ("digits", "$number$")];

const USES: &str = "\
Rattle.std.proofs.Common refl
Rattle.std.specs.Prelude []
Rattle.std.specs.Prelude codes
Rattle.std.specs.Prelude ◌∷◌
Rattle.wire_jsonfields.specs.KindsBack names_agree
Rattle.wire_jsonfields.specs.KindsBack names_are_texts
Rattle.wire_protojson.specs.Enums AreTexts
Rattle.wire_protojson.specs.Enums EnumTable
Rattle.wire_protojson.specs.Enums NamesAgree
";

/// The code and the definitions of the names of an enum.
pub fn enum_files(page: &mut Words, of_enum: &EnumType) -> Result<(String, String), GenerateError> {
    page.fill("json_page", "Rattle.$crate$_json.specs.$name$Json");
    page.index("count", of_enum.descriptor.value.len());
    page.fill("uses", USES);
    for value in &of_enum.descriptor.value {
        page.set("proto", &value.name);
        page.number("number", value.number);
        let is_below = value.number < 0;
        page.number("below", value.number.saturating_add(1).saturating_neg());
        page.fill_all(if is_below { &BELOW } else { &FROM_0 });
        page.append("uses", "Rattle.std.specs.Prelude $sign$\n");
        page.append("rows", NAME);
        page.append("table", ROW);
    }
    definition_imports(page);
    set_heading(page, "--", "The names of `$full$` in JSON.");
    page.fill("text", DEFINITION_PAGE);
    let definitions = page.finish("text")?;
    page.fill("ghosts", GHOSTS);
    ghost_imports(page, "    ");
    page.fill("uses", CODE_USES);
    code_imports(page);
    set_heading(page, "//!", "The names of `$full$` in JSON.");
    page.fill("text", CODE_PAGE);
    Ok((page.finish("text")?, definitions))
}
