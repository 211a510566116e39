//! The code and the definitions of an enum.
use wire_definitions::{ghost_imports, has_laws, put_comment, set_heading};
use wire_schema::{EnumType, GenerateError, NamedValue, Schema, Template, Words, values_of};

const ENUM: &str = "\
#[derive(Clone, Copy, Debug, PartialEq, Eq, Hash)]
pub enum $name$ {
$values$}

impl Plain for $name$ {
    ghost equal = { λ value copy e. e };
}

impl Enumeration for $name$ {
$ghost_imports$
    ghost number = { $module$-number };

    ghost of_number = { $module$-of };

    ghost name = { elim [ $names$ ] };

    ghost keeps_number = { first_numbered_keeps $module$-number $module$-values };

    fn from_i32(value: i32) -> Option<$name$> {
        match value {
$from$            _ => None,
        }
    }

    fn to_i32(&self) -> i32 {
        *self as i32
    }

    fn proto_name(&self) -> &'static str {
        match self {
$protos$        }
    }
}
";

const GHOSTS: &str = "\
Rattle.std.specs.Prelude codes
Rattle.wire_codec.specs.EnumNumbers first_numbered_keeps
Rattle.$crate$.specs.$name$ $module$-number
Rattle.$crate$.specs.$name$ $module$-of
Rattle.$crate$.specs.$name$ $module$-values
";

const DEFINITIONS: &str = "\
$heading$$uses_of_arith$use Rattle.std.specs.Prelude.{ℤ, pos$negsuc$, List, [], ◌∷◌, Option}
use Rattle.wire_codec.specs.EnumNumbers.{first_numbered}
$uses_of_closed$use Rattle.$crate$.specs.declared.$module$.$name$.{$name$}
use Rattle.$crate$.specs.declared.$module$.$name$.TheVariants.{$all$}

abbrev pub $module$-number : $name$ → ℤ
$numbers$
abbrev pub $module$-values : List $name$
$module$-values = $list$[]

abbrev pub $module$-of : ℤ → Option $name$
$module$-of = first_numbered $module$-number $module$-values
$closed$";

const CLOSED: &str = "
-- each value is read back where the enum is closed
pub $module$-closed : (e : $name$) → IsClosed $module$-number $module$-of (Known e)
$closeds$";

const USES_OF_CLOSED: &str = "\
use Rattle.wire_codec.specs.EnumValue.TheVariants.{Known}
use Rattle.wire_fields.specs.Ranges.{IsClosed}
";

const OF_VALUE: [Template; 9] = [
    (
        "closeds",
        "$module$-closed $value$ =\n    \
        record { value = $value$; is = refl; fits = omega arith; found = refl }\n",
    ),
    ("values", "    $value$ = $digits$,\n"),
    (
        "ghosts",
        "Rattle.$crate$.specs.declared.$module$.$name$.TheVariants $value$\n",
    ),
    ("names", "$bar$$value$ ↦ codes \"$proto$\""),
    ("from", "            $digits$ => Some($name$::$value$),\n"),
    ("protos", "            $name$::$value$ => \"$proto$\",\n"),
    ("all", "$comma$$value$"),
    ("numbers", "$module$-number $value$ = $number$\n"),
    ("list", "$value$ ∷ "),
];

// Further names of values.
const ALIASES: &str = "
impl $name$ {
$aliases$}
";

/// The module of an enum, whose words the base has, and its definitions.
pub fn enum_files(
    base: &Words,
    schema: &Schema,
    of_enum: &EnumType,
) -> Result<(String, String), GenerateError> {
    let mut page = Words::like(base);
    let values = values_of(base.alloc(), page.get("name"), &of_enum.descriptor)?;
    let descriptors = of_enum.descriptor.value.iter();
    for (index, (value, descriptor)) in values.iter().zip(descriptors).enumerate() {
        page.index("index", index);
        page.set("proto", &descriptor.name);
        page.set("first", first_of(&values, value.number));
        put_named(&mut page, schema, value);
    }
    put_code(&mut page, schema, of_enum);
    if of_enum.origin.features.is_closed() && has_laws(base) {
        page.fill_all(&OF_CLOSED);
    }
    set_heading(&mut page, "--", "The numbers of `$name$`.");
    page.fill("text", DEFINITIONS);
    Ok((page.finish("code")?, page.finish("text")?))
}

const OF_CLOSED: [Template; 3] = [
    ("closed", CLOSED),
    ("uses_of_closed", USES_OF_CLOSED),
    (
        "uses_of_arith",
        "use Rattle.std.proofs.Common.{arith, refl}\n",
    ),
];

// A value, or a further name of the first one of its number.
fn put_named(page: &mut Words, schema: &Schema, value: &NamedValue) {
    page.set("value", &value.name);
    page.number("digits", value.number);
    page.number("below", value.number.saturating_add(1).saturating_neg());
    page.fill("at", "$place$.2.$index$");
    let comment = schema.comment(page.get("at"));
    if value.is_alias {
        put_alias(page, comment);
    } else {
        put_comment(page, "values", "    ", comment);
        put_value(page);
    }
}

fn put_code(page: &mut Words, schema: &Schema, of_enum: &EnumType) {
    page.set("full", of_enum.words.get("full").trim_start_matches('.'));
    set_heading(page, "//!", "The enum `$full$`.");
    page.fill("code", HEAD);
    match schema.comment(of_enum.words.get("place")) {
        "" => page.append("code", "/// The enum `$name$`.\n"),
        comment => put_comment(page, "code", "", comment),
    }
    page.append("ghosts", GHOSTS);
    ghost_imports(page, "    ");
    page.append("code", ENUM);
    if !page.get("aliases").is_empty() {
        page.append("code", ALIASES);
    }
}

const HEAD: &str = "\
$heading$use wire_codec::Enumeration;
use wire_fields::Plain;

";

// The name of the first value of this number.
fn first_of(values: &[NamedValue], number: i32) -> &str {
    match values.iter().find(|it| it.number == number) {
        Some(value) => &value.name,
        None => "",
    }
}

// A further name of a value.
fn put_alias(page: &mut Words, comment: &str) {
    match comment {
        "" => page.append("aliases", "    /// `$first$` under another name.\n"),
        _ => put_comment(page, "aliases", "    ", comment),
    }
    page.append(
        "aliases",
        "    pub const $value$: $name$ = $name$::$first$;\n",
    );
}

// What there is for each value.
fn put_value(page: &mut Words) {
    if page.get("digits").starts_with('-') {
        page.fill_all(&[("number", "negsuc $below$"), ("negsuc", ", negsuc")]);
    } else {
        page.fill("number", "pos $digits$");
    }
    let is_first = page.get("all").is_empty();
    page.set("bar", if is_first { "" } else { " | " });
    page.set("comma", if is_first { "" } else { ", " });
    page.append_all(&OF_VALUE);
}
