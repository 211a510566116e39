//! Getters of the fields that have a default value in the schema.
use wire_definitions::{ghost_imports, put_others};
use wire_schema::{Field, Template, Words};

const GHOSTS: &str = "\
Rattle.std.specs.Prelude ◌≡◌
Rattle.wire_fields.specs.Messages or_else
$default_ghosts$";

const HEAD: &str = "
    /// `$field$`, or the schema's default value where it is not there.
    pub fn $field$_or_default(&self) -> $default_type$
";

// What the contract says, in a line and where it is longer.
const CLAUSE: [&str; 2] = [
    "        ensures { $default_seen$ ≡ or_else $default_term$ $default_held$ }",
    "        ensures { $default_seen$ ≡ or_else
            $default_term$
            $default_held$ }",
];

const HELD: &str = "$default_before$$fields_of_self$.$field$$default_behind$";

const BODY: &str = "
    {
        match $default_match$ {
            Some(value) => $default_read$,
            None => $default$,
        }
    }
";

const BLOCK: &str = "
impl $name$ {
$ghost_imports$$aliases_of_defaults$$getters$}
";

// Of a field of a oneof, which holds nothing where another of its fields stands.
const GHOSTS_OF_VARIANT: &str = "\
Rattle.$crate$.specs.$oneof_name$ $field$-of-$oneof_module$-as
Rattle.$crate$.specs.$oneof_name$ $oneof_module$-of
";

const HELD_IN_ONE: &str =
    "$mapped_before$($field$-of-$oneof_module$-as ($oneof_module$-of $fields_of_self$.$oneof$))\
    $mapped_behind$";

const BODY_IN_ONE: &str = "
    {
        match &self.$oneof$ {
            Some($oneof_name$::$variant$(value)) => $default_taken$,
$other_defaults$        }
    }
";

const IN_ONE: [Template; 3] = [
    ("ghosts_of_variant", GHOSTS_OF_VARIANT),
    ("default_held", HELD_IN_ONE),
    ("other_defaults", "            _ => $default$,\n"),
];

// Of one of which some variants are messages of the type itself or of its family.
const GHOSTS_OF_CHOICE: &str = "\
Rattle.std.specs.Prelude option_map
Rattle.$crate$.specs.$oneof_name$ $field$-of-$oneof_module$-as
Rattle.$crate$.specs.$home$ $oneof_module$-none
Rattle.$crate$.specs.$home$ $oneof_module$-value
";

const HELD_IN_CHOICE: &str = "$mapped_before$($field$-of-$oneof_module$-as
            (or_else $oneof_module$-none
            (option_map $oneof_module$-value $fields_of_self$.$oneof$)).0)$mapped_behind$";

// (a default arm for several variants is not proved)
const OTHER_DEFAULT: Template = (
    "other_defaults",
    "            Some($oneof_name$::$other$(_)) => $default$,\n",
);

const IN_CHOICE: [Template; 3] = [
    ("ghosts_of_variant", GHOSTS_OF_CHOICE),
    ("default_held", HELD_IN_CHOICE),
    (
        "other_defaults",
        "$other_defaults$            None => $default$,\n",
    ),
];

const OF_VARIANT: [Template; 5] = [
    ("ghosts", GHOSTS),
    ("ghosts", "$ghosts_of_variant$"),
    ("getters", HEAD),
    ("getters", "$clause$"),
    ("getters", BODY_IN_ONE),
];

const OF_FIELD: [Template; 4] = [
    ("ghosts", GHOSTS),
    ("getters", HEAD),
    ("getters", "$clause$"),
    ("getters", BODY),
];

// How a clause sees the fields of a message, and of one that holds itself.
const PLAIN: [Template; 4] = [
    ("ghosts", ""),
    ("getters", ""),
    ("aliases_of_defaults", ""),
    ("fields_of_self", "self.now"),
];

const KNOWN_ALIAS: &str =
    "    ghost use Rattle.wire_codec.specs.EnumValue.TheVariants as enum-values;\n";

const ROLLED: [Template; 2] = [
    (
        "ghosts",
        "Rattle.$crate$.specs.declared.$module$.$name$ out-$name$\n",
    ),
    ("fields_of_self", "(out-$name$ self.now)"),
];

/// Puts the getters behind the code so far.
pub fn put_defaults(page: &mut Words, fields: &[Field], holds_itself: bool) {
    page.fill_all(&PLAIN);
    if holds_itself {
        page.fill_all(&ROLLED);
    }
    for field in fields {
        if let Some(oneof) = &field.oneof {
            page.copy(&field.words, &["in_choice"]);
            page.set("oneof", field.words.get("field"));
            page.set("oneof_name", oneof.words.get("name"));
            page.set("oneof_module", oneof.words.get("module"));
            for variant in &oneof.variants {
                put_variant(page, variant);
            }
        } else if take_default(page, &field.words) {
            page.fill("default_held", HELD);
            put_clause(page);
            page.append_all(&OF_FIELD);
        }
    }
    if !page.get("getters").is_empty() {
        ghost_imports(page, "    ");
        page.append("code", BLOCK);
    }
}

/// Brings in the types that the getters of fields of oneofs name, which no other code there does.
pub fn use_defaults(page: &mut Words, fields: &[Field]) {
    for field in fields {
        if let Some(oneof) = &field.oneof {
            for variant in &oneof.variants {
                page.copy(variant, &["held", "of_path", "of_name"]);
                if !variant.get("default_as").is_empty() {
                    page.append("uses", "wire_codec EnumValue\n$of_path$ $of_name$\n");
                } else if variant.get("default_seen") == "result.bits" {
                    page.append("uses", "wire_fields $held$\n");
                }
            }
        }
    }
}

// The words of the default value of a field, where it has one. Whether it has.
fn take_default(page: &mut Words, field: &Words) -> bool {
    if field.get("default_term").is_empty() {
        return false;
    }
    page.copy(field, &["field", "default", "default_type"]);
    page.copy(field, &["default_term", "default_seen", "default_before"]);
    page.copy(
        field,
        &["default_behind", "default_match", "default_ghosts"],
    );
    page.copy(field, &["default_as", "default_read"]);
    if page.get("fields_of_self") != "self.now" {
        set_known(page);
    }
    if !page
        .get("aliases_of_defaults")
        .contains(page.get("default_as"))
    {
        page.append("aliases_of_defaults", "$default_as$");
    }
    true
}

// The value of an enum, which a module that has the type `Known` of a field calls otherwise.
fn set_known(page: &mut Words) {
    let term = page.take("default_term");
    let Some(number) = term.strip_prefix("(Known ") else {
        return page.set("default_term", &term);
    };
    page.set("default_number", number);
    page.fill("default_term", "(enum-values.Known $default_number$");
    page.set("default_ghosts", "");
    if !page.get("aliases_of_defaults").contains(KNOWN_ALIAS) {
        page.append("aliases_of_defaults", KNOWN_ALIAS);
    }
}

// What the contract says.
fn put_clause(page: &mut Words) {
    page.fill("clause", CLAUSE[0]);
    if page.get("clause").chars().count() > 100 {
        page.fill("clause", CLAUSE[1]);
    }
}

// The getter of a field of a oneof, where it has a default value.
fn put_variant(page: &mut Words, variant: &Words) {
    if !take_default(page, variant) {
        return;
    }
    page.copy(variant, &["variant"]);
    let is_text = page.get("default_match").starts_with('&');
    page.fill(
        "default_taken",
        if is_text { "$default_read$" } else { "*value" },
    );
    // (a text is seen as its bytes there)
    let is_mapped = !is_text && !page.get("default_before").is_empty();
    page.fill(
        "mapped_before",
        if is_mapped { "$default_before$" } else { "" },
    );
    page.fill(
        "mapped_behind",
        if is_mapped { "$default_behind$" } else { "" },
    );
    put_held(page);
    put_clause(page);
    page.append_all(&OF_VARIANT);
}

// How the clause sees what the oneof holds, and the arms of the other variants.
fn put_held(page: &mut Words) {
    page.set("other_defaults", "");
    if page.get("in_choice").is_empty() {
        page.fill_all(&IN_ONE);
    } else {
        put_others(page, "variant", &OTHER_DEFAULT);
        page.fill_all(&IN_CHOICE);
    }
}
