//! The constants of enums, in a header and in the Rust crate beside it.
use crate::c_comment::put_c_comment;
use crate::c_header::capital;
use wire_schema::{EnumType, GenerateError, Schema, Words, apart};

const ENUM: &str = "
/* The enum `$full$`. */
$c_comment$enum {
$values$};
";

/// Puts the constants of an enum into the words of the header, and those of Rust beside them.
pub fn put_enum(
    words: &mut Words,
    constants: &mut Vec<String>,
    schema: &Schema,
    of_enum: &EnumType,
) -> Result<(), GenerateError> {
    words.copy(&of_enum.words, &["module"]);
    words.set("full", of_enum.words.get("full").trim_start_matches('.'));
    words.fill_all(&[("values", ""), ("rust_values", ""), ("c_comment", "")]);
    // (an escaped name is its own in capitals)
    let own = words.get("module").trim_end_matches('_');
    let own = capital(words.alloc(), own)?;
    words.set("own_capital", &own);
    words.fill("enum_prefix", "$prefix$_$own_capital$");
    let prefix = capital(words.alloc(), words.get("enum_prefix"))?;
    words.set("enum_prefix", &prefix);
    let mut own_constants = Vec::new(words.alloc());
    for value in &of_enum.descriptor.value {
        words.number("number", value.number);
        let name = capital(words.alloc(), &value.name)?;
        put_value(
            words,
            (&name, shortened(&name, &own)),
            constants,
            &mut own_constants,
        )?;
    }
    words.append("values", "\n");
    let comment = schema.comment(of_enum.words.get("place"));
    put_c_comment(words, "c_comment", "", comment)?;
    words.append("enums", ENUM);
    words.ended()
}

// A value of an enum: in C one of all constants, in Rust one of its own.
fn put_value(
    words: &mut Words,
    (name, short): (&str, &str),
    constants: &mut Vec<String>,
    own_constants: &mut Vec<String>,
) -> Result<(), GenerateError> {
    words.set("constant", short);
    words.fill("constant", "$enum_prefix$_$constant$");
    let constant = words.take("constant");
    let constant = apart(words.alloc(), constant, constants)?;
    words.set("constant", &constant);
    let is_first = words.get("values").is_empty();
    words.append("values", if is_first { "" } else { ",\n" });
    words.append("values", "    $constant$ = $number$");
    let begins = |it: &str| it.starts_with(|letter: char| letter.is_ascii_alphabetic());
    let own = match (begins(short), begins(name)) {
        (true, _) => short,
        (false, true) => name,
        (false, false) => constant.as_str(),
    };
    let own = String::from_str(words.alloc(), own)?;
    let own = apart(words.alloc(), own, own_constants)?;
    words.set("constant", &own);
    words.append("rust_values", "    pub const $constant$: i32 = $number$;\n");
    own_constants.push(own)?;
    constants.push(constant)?;
    Ok(())
}

// The name of a value without that of its enum before it.
fn shortened<'a>(constant: &'a str, own: &str) -> &'a str {
    match constant.strip_prefix(own) {
        Some(rest) => rest.strip_prefix('_').unwrap_or(constant),
        None => constant,
    }
}
