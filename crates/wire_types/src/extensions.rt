//! Extensions: a function each, which is the extension's number and its kind.
use wire_definitions::{code_imports, ghost_imports, put_comment, set_heading};
use wire_schema::{Extension, GenerateError, Schema, Words, features_of, set_field, started};

const HEAD: &str = "\
$heading$$ghost_imports$$aliases$
$imports$$functions$";

const FUNCTION: &str = "\
pub fn $function$() -> Extension<$kind$>
    ensures { result.number ≡ $number$ }
{
    match Extension::new($number$) {
        Some(extension) => extension$of_types$,
        None => unreachable!(),
    }
}
";

const DEFAULT: &str = "
/// What the schema has where `$function$` is not there.
pub fn $function_default$() -> $default_type$
    ensures { $default_seen$ ≡ $default_term$ }
{
    $default$
}
";

// A float, with the margin of a function.
const LONG_BITS: &str = "$default_type$ {\n        bits: $default_term$,\n    }";

/// The module of the extensions that the files declare, or nothing where they declare none.
pub fn extensions_of(base: &Words, schema: &Schema) -> Result<String, GenerateError> {
    let mut page = Words::like(base);
    for extension in &schema.extensions {
        if extension.origin.is_own {
            put_extension(&mut page, schema, extension)?;
        }
    }
    if page.get("functions").is_empty() {
        return page.finish("functions");
    }
    page.append("ghosts", "Rattle.std.specs.Prelude ◌≡◌\n");
    ghost_imports(&mut page, "");
    code_imports(&mut page);
    set_heading(&mut page, "//!", "The extensions of `$crate$`.");
    page.fill("text", HEAD);
    page.finish("text")
}

fn put_extension(
    page: &mut Words,
    schema: &Schema,
    extension: &Extension,
) -> Result<(), GenerateError> {
    let mut words = started(page, &extension.words, &extension.descriptor)?;
    let features = features_of(extension.origin.features, &extension.descriptor, &mut words)?;
    if !words.get("needed").is_empty() {
        return Err(words.refused("$full$.$proto$: an extension is not required"));
    }
    if words.get("unknown") == "drop" {
        return Err(words.refused("$full$.$proto$: extensions are not generated with unknown=drop"));
    }
    words.fill_all(&[("code", ""), ("default_term", "")]);
    set_field(schema, features, &extension.descriptor, &mut words)?;
    page.copy(&extension.words, &["function", "function_default"]);
    page.copy(
        &words,
        &["number", "kind", "code", "full", "proto", "own_types"],
    );
    page.set("extendee", &extension.descriptor.extendee);
    put_function(page, schema, extension, &words);
    Ok(())
}

fn put_function(page: &mut Words, schema: &Schema, extension: &Extension, words: &Words) {
    page.fill("of_types", "");
    if page.get("mismatch") == "keep" {
        page.fill("of_types", ".of_types(OwnTypes::$own_types$)");
        page.append("code", "wire_codec WireType\nwire_fields OwnTypes\n");
    }
    page.append("functions", "\n");
    match schema.comment(extension.words.get("at")) {
        "" => page.append(
            "functions",
            "/// The extension `$full$.$proto$` of `$extendee$`.\n",
        ),
        comment => put_comment(page, "functions", "", comment),
    }
    page.append("functions", FUNCTION);
    put_default(page, words);
    put_uses(page);
}

// The function that gives the default value, where there is one.
fn put_default(page: &mut Words, words: &Words) {
    if words.get("default_term").is_empty() {
        return;
    }
    page.copy(words, &["held", "default", "default_type", "default_term"]);
    page.copy(words, &["default_seen", "default_as"]);
    set_term(page);
    let held = page.take("default_type");
    match held.strip_prefix("&") {
        Some(lent) => {
            page.set("lent", lent);
            page.fill("default_type", "&'static $lent$");
        }
        None => page.set("default_type", &held),
    }
    if page.get("default").contains('\n') {
        page.fill("default", LONG_BITS);
    }
    page.append("functions", DEFAULT);
    if page.get("default_seen") == "result.bits" {
        page.append("uses", "wire_fields $default_type$\n");
    }
    if !page.get("default_as").is_empty() {
        page.append("uses", "wire_codec EnumValue\n");
        put_alias(page);
    }
    put_ghosts(page, words.get("default_ghosts"));
}

// The value in a clause of a function, which stands less far to the right than one of a method.
fn set_term(page: &mut Words) {
    let term = page.take("default_term");
    for (place, line) in term.split('\n').enumerate() {
        page.set("line", line.strip_prefix("    ").unwrap_or(line));
        page.append(
            "default_term",
            if place == 0 { "$line$" } else { "\n$line$" },
        );
    }
}

// The name by which a clause knows the values of an enum.
fn put_alias(page: &mut Words) {
    let alias = page.take("default_as");
    page.set("alias", alias.trim_start());
    if !page.get("aliases").contains(page.get("alias")) {
        page.append("aliases", "$alias$");
    }
}

// The names that the clause of a default value has.
fn put_ghosts(page: &mut Words, ghosts: &str) {
    for line in ghosts.split('\n') {
        let (_, name) = line.split_once(' ').unwrap_or(("", line));
        let sign = name.strip_prefix("◌").unwrap_or(name);
        let sign = sign.strip_suffix("◌").unwrap_or(sign);
        if !sign.is_empty() && page.get("default_term").contains(sign) {
            page.set("line", line);
            page.append("ghosts", "$line$\n");
        }
    }
}

// The names that the kind has; what a message holds for it is not named.
fn put_uses(page: &mut Words) {
    let code = page.take("code");
    for line in code.split('\n') {
        let (_, name) = line.split_once(' ').unwrap_or(("", line));
        if page.get("kind").contains(name) || page.get("of_types").contains(name) {
            page.set("line", line);
            page.append("uses", "$line$\n");
        }
    }
    page.append("uses", "wire_extensions Extension\n");
}
