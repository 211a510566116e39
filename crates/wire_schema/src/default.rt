//! Default values of fields: as code has them, and as clauses do.
use crate::default_text::{bytes_literal, term, text_literal, unescaped};
use crate::enum_values::values_of;
use crate::error::GenerateError;
use crate::schema::Schema;
use crate::words::{Template, Words};
use std::str;
use wire_descriptor::FieldDescriptorProto;
use wire_fields::{DoubleBits, FloatBits};

// The words of a default: the type that a getter answers, `default_type`; the value in code,
// `default`, and in a clause, `default_term`; what of the result is seen, `default_seen`, and what
// stands `default_before` and `default_behind` the field; how a value that stands is read,
// `default_read`; and lines of names that the clause has.
const OF_NUMBER: [Template; 4] = [
    ("default_read", "value"),
    ("default_type", "$held$"),
    ("default_seen", "result"),
    ("default_match", "self.$field$"),
];

const OF_FLOAT: [Template; 4] = [
    ("default_seen", "result.bits"),
    ("default_before", "(option_map (λ b. b.bits) "),
    ("default_behind", ")"),
    ("default_ghosts", "Rattle.std.specs.Prelude option_map\n"),
];

const OF_TEXT: [Template; 5] = [
    ("default_read", "value"),
    ("default_seen", "result.now"),
    ("default_before", "(option_map $view$ "),
    ("default_behind", ")"),
    ("default_match", "&self.$field$"),
];

const OF_ENUM: [Template; 5] = [
    ("default", "EnumValue::Known($of_name$::$default_name$)"),
    ("default_term", "(Known $of_module$.$default_name$)"),
    (
        "default_as",
        "    ghost use $of_specs$.declared.$of_module$.$of_name$.TheVariants as $of_module$;\n",
    ),
    (
        "default_ghosts",
        "Rattle.wire_codec.specs.EnumValue.TheVariants Known\n",
    ),
    ("default_type", "EnumValue<$of_name$>"),
];

const LIST_GHOSTS: &str = "\
$ghosts$Rattle.std.specs.Prelude []
Rattle.std.specs.Prelude option_map
Rattle.std.specs.Prelude ◌∷◌
";

const CODES_GHOSTS: &str = "\
$ghosts$Rattle.std.specs.Prelude codes
Rattle.std.specs.Prelude option_map
";

const TYPE_BYTES: i32 = 12;

/// Sets the words of the default value of a field, where it has one; those of its values are set.
pub(crate) fn set_default(
    schema: &Schema,
    field: &FieldDescriptorProto,
    words: &mut Words,
) -> Result<(), GenerateError> {
    if field.default_value.is_empty() || words.get("defaults") == "skip" {
        return Ok(());
    }
    if words.get("kind") == "Blob" {
        return set_bytes(field, words);
    }
    let Ok(text) = str::from_utf8(&field.default_value) else {
        return set_no_text(field, words);
    };
    if words.get("kind") == "Text" {
        return set_text(text, words);
    }
    words.set("default", text);
    words.fill_all(&OF_NUMBER);
    match words.get("held") {
        "DoubleBits" => set_double(text, words),
        "FloatBits" => set_float(text, words),
        "bool" => words.fill_all(&[
            ("default_term", "$default$"),
            ("default_ghosts", "Rattle.std.specs.Prelude $default$\n"),
        ]),
        "i32" | "i64" => set_signed(text, words),
        "u32" | "u64" => words.fill("default_term", "$default$"),
        _ => set_enum(schema, field, text, words)?,
    }
    words.ended()?;
    if words.get("default_term").is_empty() {
        return Err(words.refused("$full$.$proto$: $default$ is no default value"));
    }
    Ok(())
}

fn set_signed(text: &str, words: &mut Words) {
    if let Ok(value) = fast_float::parse_i64(text.as_bytes()) {
        let below = value.saturating_add(1).unsigned_abs();
        words.index("below", usize::try_from(below).unwrap_or(usize::MAX));
        words.fill_all(if value < 0 {
            &[
                ("default_term", "(negsuc $below$)"),
                ("default_ghosts", "Rattle.std.specs.Prelude negsuc\n"),
            ]
        } else {
            &[
                ("default_term", "(pos $default$)"),
                ("default_ghosts", "Rattle.std.specs.Prelude pos\n"),
            ]
        });
    }
}

fn set_double(text: &str, words: &mut Words) {
    if let Ok(value) = fast_float::parse::<f64, _>(text) {
        set_bits(DoubleBits::from_f64(value).bits, words);
    }
}

fn set_float(text: &str, words: &mut Words) {
    if let Ok(value) = fast_float::parse::<f32, _>(text) {
        set_bits(u64::from(FloatBits::from_f32(value).bits), words);
    }
}

// A float by its bits, as the formatter lays it out.
fn set_bits(bits: u64, words: &mut Words) {
    words.index("default_term", usize::try_from(bits).unwrap_or(usize::MAX));
    words.fill_all(&OF_FLOAT);
    let is_short = words.get("default_term").len() <= SHORT;
    words.fill(
        "default",
        if is_short {
            "$held$ { bits: $default_term$ }"
        } else {
            "$held$ {\n                bits: $default_term$,\n            }"
        },
    );
}

// The most digits with which the bits of a float stand in a line with its name.
const SHORT: usize = 12;

// The first value of the number that the value of this name has.
fn set_enum(
    schema: &Schema,
    field: &FieldDescriptorProto,
    text: &str,
    words: &mut Words,
) -> Result<(), GenerateError> {
    let Some(of_enum) = schema.enum_of(&field.type_name) else {
        return Ok(());
    };
    let values = values_of(words.alloc(), words.get("of_name"), &of_enum.descriptor)?;
    let mut named = of_enum.descriptor.value.iter();
    if let Some(value) = named.find(|it| it.name.as_str() == text) {
        if let Some(first) = values.iter().find(|it| it.number == value.number) {
            words.set("default_name", &first.name);
            words.fill_all(&OF_ENUM);
        }
    }
    Ok(())
}

fn set_text(text: &str, words: &mut Words) -> Result<(), GenerateError> {
    words.set("default", &text_literal(words.alloc(), text)?);
    words.set("default_type", "&str");
    set_term(text.as_bytes(), words)
}

// Bytes have the escapes of C, and a text that is taken as bytes has none.
fn set_bytes(field: &FieldDescriptorProto, words: &mut Words) -> Result<(), GenerateError> {
    let alloc = words.alloc();
    let bytes = if field.type_ == TYPE_BYTES {
        unescaped(alloc, &field.default_value)?
    } else {
        field.default_value.clone()?
    };
    words.set("default", &bytes_literal(alloc, &bytes)?);
    words.set("default_type", "&[u8]");
    set_term(&bytes, words)
}

// Of a string whose default value is no UTF-8 a getter lends the bytes.
fn set_no_text(field: &FieldDescriptorProto, words: &mut Words) -> Result<(), GenerateError> {
    if words.get("kind") != "Text" {
        return Err(words.refused("$full$.$proto$: a default value that is no UTF-8"));
    }
    let literal = bytes_literal(words.alloc(), &field.default_value)?;
    words.set("default", &literal);
    words.set("default_type", "&[u8]");
    set_term(&field.default_value, words)?;
    words.set("default_read", "value.as_bytes()");
    Ok(())
}

fn set_term(bytes: &[u8], words: &mut Words) -> Result<(), GenerateError> {
    words.set("default_term", &term(words.alloc(), bytes)?);
    let is_plain = words.get("default_term").starts_with("(codes");
    words.fill(
        "default_ghosts",
        if is_plain { CODES_GHOSTS } else { LIST_GHOSTS },
    );
    words.fill_all(&OF_TEXT);
    Ok(())
}
