//! Oneofs, and which fields they have.
use crate::error::GenerateError;
use crate::field::Field;
use crate::keeping::put_number;
use crate::message_type::MessageType;
use crate::names::module_name;
use crate::schema::Schema;
use crate::view::set_oneof_view;
use crate::words::{Template, Words};

/// A oneof, with its fields in the order of their numbers. Its words are those of a type; those of
/// each field are those of its values, and its name as a `variant` and as a `word`.
#[derive(Drop)]
pub struct Oneof {
    /// Its place among those of its message.
    index: i32,
    pub words: Words,
    pub variants: Vec<Words>,
    /// Those variants that are messages of the type itself or of its family, which stand among none
    /// of the above.
    pub rows: Vec<Words>,
}

/// Whether there is no oneof of this index.
pub(crate) fn is_new(fields: &[Field], index: i32) -> bool {
    !fields.iter().any(|it| match &it.oneof {
        Some(oneof) => oneof.index == index,
        None => false,
    })
}

/// A oneof without fields, which stands where its first field does, as a field of this name.
pub(crate) fn oneof_of(
    base: &Words,
    schema: &Schema,
    message: &MessageType,
    index: i32,
    field: &str,
) -> Result<Field, GenerateError> {
    let mut words = oneof_words(base, schema, message, index, field)?;
    let mut own = message.descriptor.field.iter();
    if own.any(|it| it.oneof_index == Some(index) && schema.is_charged(it)) {
        words.fill_all(&CHARGED_ONEOF);
    }
    let mut of = Words::like(base);
    of.copy(
        &words,
        &[
            "full",
            "name",
            "module",
            "kind_name",
            "place",
            "schema",
            "holder",
            "holder_name",
            "charged",
            "view_name",
            "view_module",
            "view_written",
            "view_kind_name",
        ],
    );
    Ok(Field {
        words,
        oneof: Some(Oneof {
            index,
            words: of,
            variants: Vec::new(base.alloc()),
            rows: Vec::new(base.alloc()),
        }),
    })
}

/// Puts a field into its oneof, which is there, as a row or not.
pub(crate) fn add_variant(
    index: i32,
    mut variant: Words,
    is_row: bool,
    fields: &mut [Field],
) -> Result<(), GenerateError> {
    for field in fields {
        if let Some(oneof) = &mut field.oneof {
            if oneof.index == index {
                tell_apart(&mut variant, oneof);
                put_declared(&mut oneof.words, &variant, is_row);
                if is_row {
                    oneof.rows.push(variant)?;
                    return Ok(());
                }
                if oneof.variants.is_empty() {
                    field.words.set("number", variant.get("number"));
                }
                put_number(&mut field.words, &variant);
                if !variant.get("of_requiring").is_empty() {
                    field.words.copy(&variant, &["of_requiring"]);
                }
                oneof.variants.push(variant)?;
                return Ok(());
            }
        }
    }
    Ok(())
}

// The lines of all variants as they are declared, and as their view is.
fn put_declared(words: &mut Words, variant: &Words, is_row: bool) {
    words.copy(variant, &["variant", "held", "view_held"]);
    words.append_all(if is_row {
        &[
            ("declared", "    $variant$(Box<$held$>),\n"),
            ("view_declared", "    $variant$(Box<$view_held$>),\n"),
        ]
    } else {
        &[
            ("declared", "    $variant$($held$),\n"),
            ("view_declared", "    $variant$($view_held$),\n"),
        ]
    });
}

// In a clause a variant is not called as its oneof, nor as its enum, and in code not as another.
fn tell_apart(variant: &mut Words, oneof: &Oneof) {
    if variant.get("variant") == oneof.words.get("name") {
        variant.append("variant", "_");
    }
    let name = variant.get("variant");
    let mut others = oneof.variants.iter().chain(oneof.rows.iter());
    if others.any(|it| it.get("variant") == name) {
        variant.append("variant", "_$number$");
    }
    let is_enum = variant.get("kind").starts_with("Enum<");
    let name = variant.get("variant");
    if name == oneof.words.get("name") || is_enum && name == variant.get("of_name") {
        variant.append("variant", "_");
    }
}

/// Why a number `h` of a oneof is none of others, for one number more.
pub fn put_apart(words: &mut Words, is_first: bool) {
    words.indent_rest("apart");
    words.fill(
        "apart",
        if is_first {
            "rw h refl"
        } else {
            "elim h [\n      | inl h ↦ $apart$\n      | inr h ↦ rw h refl\n    ]"
        },
    );
}

const ONEOF: [Template; 18] = [
    ("shape", "$module$-shape"),
    ("range", "$module$-range"),
    ("returned", "$module$-returned g"),
    ("stays", "$module$-stays g"),
    ("stays_uses", "$specs$Stays $module$-stays\n"),
    (
        "returned_uses",
        "$specs$ $module$-range\n$specs$ $module$-returned\n",
    ),
    ("held", "Option<$name$>"),
    ("kind", "$kind_name$"),
    ("value", "$name$-Value"),
    ("bracketed", "$name$-Value"),
    ("view", "$module$-of m.$field$"),
    ("definition", "$module$-shape"),
    ("table", "$module$-shape"),
    ("step", "$module$-shape.takes"),
    ("call", "merge"),
    ("copy", "copied_option(&self.$field$)?"),
    (
        "code",
        "crate::$module$ $name$\ncrate::$module$ $kind_name$\n",
    ),
    (
        "definitions",
        "$specs$ $name$-Value\n$specs$ $module$-of\n$specs$ $module$-shape\n",
    ),
];

// One that holds a message of which what is read back follows from what its records are charged.
const CHARGED_ONEOF: [Template; 4] = [
    ("charged", "charged"),
    ("charges", " charges"),
    ("range", "$module$-range charges"),
    ("returned", "$module$-returned charges g"),
];

// The words of a oneof, as a type and as a field.
fn oneof_words(
    base: &Words,
    schema: &Schema,
    message: &MessageType,
    index: i32,
    field: &str,
) -> Result<Words, GenerateError> {
    let alloc = base.alloc();
    let mut words = Words::like(base);
    words.copy(&message.words, &["full", "place", "schema"]);
    let place = usize::try_from(index).unwrap_or(usize::MAX);
    let Some(descriptor) = message.descriptor.oneof_decl.get(place) else {
        return Err(words.refused("$full$: a field of no oneof that is there"));
    };
    words.set("field", field);
    words.set("proto", &descriptor.name);
    words.set("holder", message.words.get("module"));
    words.set("holder_name", message.words.get("name"));
    words.number("index", index);
    words.append_all(&[("full", ".$proto$"), ("place", ".8.$index$")]);
    let name = message.oneof_name(place);
    words.set("module", &module_name(alloc, name)?);
    words.set("name", name);
    words.fill("kind_name", "$name$Kind");
    let kind_name = schema
        .names
        .beside(words.get("whole"), words.get("kind_name"))?;
    words.set("kind_name", &kind_name);
    words.fill("specs", "Rattle.$crate$.specs.$name$");
    words.fill_all(&ONEOF);
    set_oneof_view(schema, message, &mut words)?;
    Ok(words)
}
