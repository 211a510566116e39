//! What one value of a field is.
use crate::error::GenerateError;
use crate::features::Features;
use crate::kind::bracket;
use crate::scalar::{Scalar, number_type};
use crate::schema::Schema;
use crate::view_field::set_of_view;
use crate::words::{Template, Words};
use wire_descriptor::FieldDescriptorProto;

/// How a value is written.
#[derive(Clone, Copy, PartialEq, Eq)]
pub(crate) enum Sort {
    Number,
    Text,
    Message,
    Group,
}

// The words of a value: its type in code, `held`, and its name among the `kind`s of fields; as
// contracts see it, its type `value`, what stands `before` and `behind` one in code, and the same
// as a function, `view`; its `definition`; the `form` and the `map` of a number, and `numeric`
// where it is one; the `wire_type` of its records; copies of a field, `copy_once` and
// `copy_option`; `closed`, where it is of an enum that is; `order` and `order_numbers` as the key
// of a map; and lines of names that are brought in, of `code`, of `definitions`, and `ghosts` of
// clauses.
const STRING: [Template; 10] = [
    ("item_stays", "string_stays"),
    ("held", "String"),
    ("kind", "Text"),
    ("before", "string_bytes "),
    ("behind", ""),
    ("view", "(λ s. string_bytes s)"),
    ("definition", "string"),
    ("order", "text_map"),
    ("copy_once", "self.$field$.clone()?"),
    ("ghosts", "Rattle.std.specs.Prelude string_bytes\n"),
];

const BYTES: [Template; 9] = [
    ("item_stays", "any_bytes_stay"),
    ("held", "Vec<u8>"),
    ("kind", "Blob"),
    ("before", ""),
    ("behind", ".items"),
    ("view", "(λ b. b.items)"),
    ("definition", "any_bytes"),
    ("copy_once", "copied_numbers(&self.$field$)?"),
    ("ghosts", ""),
];

const TEXT: [Template; 10] = [
    ("value", "List ℕ"),
    ("numeric", ""),
    ("order_numbers", ""),
    ("wire_type", "LengthDelimited"),
    ("copy_option", "copied_option(&self.$field$)?"),
    ("item_range", "$definition$_range"),
    ("item_back", "$definition$_back"),
    (
        "range_uses",
        "Rattle.wire_fields.specs.Ranges $item_range$\n",
    ),
    (
        "back_uses",
        "Rattle.wire_fields.specs.Grounds $item_back$\n",
    ),
    ("scalar_uses", "$back_uses$"),
];

const OF_TEXT: [Template; 3] = [
    ("code", "wire_fields $kind$\n"),
    (
        "definitions",
        "Rattle.std.specs.Prelude List\nRattle.std.specs.Prelude ℕ\n$ghosts$",
    ),
    (
        "definitions",
        "Rattle.wire_fields.specs.Texts $definition$\n",
    ),
];

const NUMBER: [Template; 9] = [
    ("wire_type", "$form$"),
    ("before", ""),
    ("behind", ""),
    ("view", "(λ v. v)"),
    ("definition", "(numeric $form$ $map$)"),
    ("numeric", "Rattle.wire_fields.specs.Numbers numeric\n"),
    ("copy_once", "self.$field$"),
    ("copy_option", "self.$field$"),
    ("ghosts", ""),
];

const OF_NUMBER: [Template; 1] = [(
    "definitions",
    "Rattle.wire_fields.specs.declared.form.Form.TheVariants $form$\n",
)];

// Of a number that is none of an enum.
const RANGE: [Template; 8] = [
    ("number_stays", "$map$_stays"),
    ("item_stays", "(numeric_stays $number_stays$)"),
    ("item_range", "$map$_range"),
    (
        "range_uses",
        "Rattle.wire_fields.specs.Ranges $item_range$\n",
    ),
    ("number_back", "($map$_back g)"),
    ("back_uses", "Rattle.wire_fields.specs.Grounds $map$_back\n"),
    ("item_back", "(numeric_back $number_back$)"),
    (
        "scalar_uses",
        "$back_uses$Rattle.wire_fields.specs.Grounds numeric_back\n",
    ),
];

const OF_FLOAT: [Template; 3] = [
    ("code", "wire_fields $held$\n"),
    (
        "definitions",
        "Rattle.wire_fields.specs.declared.floats.$held$ $held$\n",
    ),
    ("definitions", "Rattle.wire_fields.specs.Floats $map$\n"),
];

const OF_INTEGER: [Template; 2] = [
    ("definitions", "Rattle.std.specs.Prelude $value$\n"),
    ("definitions", "Rattle.wire_codec.specs.ValueMap $map$\n"),
];

// Which values of an enum are read back, and where that is proved.
const OPEN: [Template; 3] = [
    ("closed", ""),
    ("range_of", "enum"),
    ("back_uses", "Rattle.wire_fields.specs.Grounds enum_back\n"),
];

const CLOSED: [Template; 3] = [
    ("closed", "closed"),
    ("range_of", "closed"),
    (
        "back_uses",
        "Rattle.wire_fields.specs.ClosedBack closed_back\n",
    ),
];

const ENUM: [Template; 13] = [
    (
        "number_stays",
        "(enum_stays $of_module$-number $of_module$-of\n    \
        (first_numbered_keeps $of_module$-number $of_module$-values))",
    ),
    (
        "stays_uses",
        "Rattle.wire_codec.specs.EnumNumbers first_numbered_keeps\n$specs$ $of_module$-values\n",
    ),
    ("item_stays", "(numeric_stays $number_stays$)"),
    (
        "item_range",
        "($range_of$_range $of_module$-number $of_module$-of)",
    ),
    (
        "range_uses",
        "Rattle.wire_fields.specs.Ranges $range_of$_range\n",
    ),
    (
        "number_back",
        "($range_of$_back g $of_module$-number $of_module$-of)",
    ),
    ("item_back", "(numeric_back $number_back$)"),
    (
        "scalar_uses",
        "$back_uses$Rattle.wire_fields.specs.Grounds numeric_back\n",
    ),
    ("held", "EnumValue<$of_name$>"),
    ("kind", "Enum<$of_name$>"),
    ("value", "EnumValue $of_name$"),
    ("form", "Varint"),
    ("map", "(open_enum $of_module$-number $of_module$-of)"),
];

const OF_ENUM: [Template; 5] = [
    (
        "code",
        "wire_fields Enum\nwire_codec EnumValue\n$of_path$ $of_name$\n",
    ),
    (
        "definitions",
        "Rattle.wire_codec.specs.EnumValue EnumValue\n",
    ),
    ("definitions", "Rattle.wire_fields.specs.Enums open_enum\n"),
    (
        "definitions",
        "$of_specs$.declared.$of_module$.$of_name$ $of_name$\n",
    ),
    (
        "definitions",
        "$specs$ $of_module$-number\n$specs$ $of_module$-of\n",
    ),
];

const MESSAGE: [Template; 15] = [
    ("item_stays", "($of_module$-stays g)"),
    ("stays_uses", "$specs$Stays $of_module$-stays\n"),
    ("scalar_uses", ""),
    ("item_range", "$of_module$-range"),
    ("item_back", "($of_module$-returned g)"),
    (
        "range_uses",
        "$specs$ $of_module$-range\n$specs$ $of_module$-returned\n",
    ),
    ("held", "$of_name$"),
    ("kind", "$of_name$"),
    ("value", "$of_name$-Value"),
    ("before", "$of_module$-value "),
    ("behind", ""),
    ("view", "$of_module$-value"),
    ("definition", "$of_module$-shape"),
    ("numeric", ""),
    ("ghosts", "$specs$ $of_module$-value\n"),
];

const OF_MESSAGE: [Template; 2] = [
    ("code", "$of_path$ $of_name$\n"),
    (
        "definitions",
        "$specs$ $value$\n$specs$ $view$\n$specs$ $definition$\n",
    ),
];

/// Sets the words of a value of this field; those of its message and of the crate are set.
pub(crate) fn set_item(
    schema: &Schema,
    features: Features,
    field: &FieldDescriptorProto,
    words: &mut Words,
) -> Result<Sort, GenerateError> {
    let sort = match field.type_ {
        9 => set_string(features, words)?,
        12 => set_text(&BYTES, words),
        10 => set_message(schema, true, field, words)?,
        11 => set_message(schema, features.is_delimited(), field, words)?,
        14 => set_enum(schema, field, words)?,
        number => set_number(number, words)?,
    };
    bracket(words);
    Ok(sort)
}

fn foreign(field: &FieldDescriptorProto, words: &mut Words) -> GenerateError {
    words.set("of", &field.type_name);
    words.refused(
        "$full$.$proto$: $of$ is of a file of no crate that is named, as import=PACKAGE=CRATE does",
    )
}

// A string, or bytes where it may be any and that is asked for. A key of a map is a string always.
fn set_string(features: Features, words: &mut Words) -> Result<Sort, GenerateError> {
    let is_asked_for = words.get("strings") == "bytes";
    if features.is_told_unchecked() && !is_asked_for {
        return Err(words.refused("$full$.$proto$: strings that are no UTF-8 want strings=bytes"));
    }
    let is_bytes = is_asked_for && features.is_unchecked() && words.get("entry_part") != "key";
    Ok(set_text(if is_bytes { &BYTES } else { &STRING }, words))
}

fn set_text(text: &'static [Template], words: &mut Words) -> Sort {
    words.fill_all(text);
    words.fill_all(&TEXT);
    words.append_all(&OF_TEXT);
    Sort::Text
}

// A number of the type that descriptors have under this one.
fn set_number(type_number: i32, words: &mut Words) -> Result<Sort, GenerateError> {
    match number_type(type_number) {
        Some(scalar) => set_scalar(&scalar, words),
        None => return Err(words.refused("$full$.$proto$: no type is known")),
    }
    Ok(Sort::Number)
}

fn set_scalar(scalar: &Scalar, words: &mut Words) {
    words.set("held", scalar.held);
    words.set("kind", scalar.name);
    words.set("value", scalar.value);
    words.set("form", scalar.form);
    words.set("map", scalar.map);
    words.fill_all(&NUMBER);
    words.fill_all(&RANGE);
    words.append("code", "wire_fields $kind$\n");
    words.append_all(&OF_NUMBER);
    match scalar.value {
        "DoubleBits" | "FloatBits" => words.append_all(&OF_FLOAT),
        _ => words.append_all(&OF_INTEGER),
    }
    set_order(scalar.value, words);
}

// Which maps have such keys.
fn set_order(value: &str, words: &mut Words) {
    words.fill(
        "order_numbers",
        if value == "Bool" { "" } else { " $form$ $map$" },
    );
    words.fill(
        "order",
        match value {
            "Bool" => "bool_map",
            "ℤ" => "signed_map",
            _ => "unsigned_map",
        },
    );
}

fn set_enum(
    schema: &Schema,
    field: &FieldDescriptorProto,
    words: &mut Words,
) -> Result<Sort, GenerateError> {
    let Some(of_enum) = schema.enum_of(&field.type_name) else {
        return Err(foreign(field, words));
    };
    set_names(&of_enum.words, field, words)?;
    let is_closed = of_enum.origin.features.is_closed();
    words.fill_all(if is_closed { &CLOSED } else { &OPEN });
    words.fill_all(&ENUM);
    words.fill_all(&NUMBER);
    words.append_all(&OF_NUMBER);
    words.append_all(&OF_ENUM);
    Ok(Sort::Number)
}

// Of a message of which what is read back follows from what its records are charged.
const CHARGED: [Template; 4] = [
    (
        "item_range",
        "($of_module$-range (λ path. charges ($member$$number$ ∷ path)))",
    ),
    (
        "item_back",
        "($of_module$-returned (λ path. charges ($member$$number$ ∷ path)) g)",
    ),
    ("range_uses", "$range_uses$Rattle.std.specs.Prelude ◌∷◌\n"),
    ("account_uses", "$specs$ $of_module$-account\n"),
];

fn set_message(
    schema: &Schema,
    is_group: bool,
    field: &FieldDescriptorProto,
    words: &mut Words,
) -> Result<Sort, GenerateError> {
    let Some(message) = schema.message(&field.type_name) else {
        return Err(foreign(field, words));
    };
    set_names(&message.words, field, words)?;
    set_of_view(&message.words, words);
    words.fill_all(&MESSAGE);
    if !message.words.get("charged").is_empty() {
        words.set("of_charged", "of_charged");
        words.fill_all(&CHARGED);
    }
    words.append_all(&OF_MESSAGE);
    if is_group {
        words.set("wire_type", "StartGroup");
        return Ok(Sort::Group);
    }
    words.set("wire_type", "LengthDelimited");
    Ok(Sort::Message)
}

// What the type of a field is called, which is of a crate that is named.
fn set_names(
    of: &Words,
    field: &FieldDescriptorProto,
    words: &mut Words,
) -> Result<(), GenerateError> {
    if of.get("home").is_empty() {
        return Err(foreign(field, words));
    }
    words.set("of_name", of.get("name"));
    words.set("of_module", of.get("module"));
    words.set("of_crate", of.get("home"));
    let is_own = words.get("of_crate") == words.get("crate");
    words.fill(
        "of_path",
        if is_own {
            "crate::$of_module$"
        } else {
            "$of_crate$"
        },
    );
    words.fill_all(&[
        ("of_specs", "Rattle.$of_crate$.specs"),
        ("specs", "$of_specs$.$of_name$"),
    ]);
    Ok(())
}
