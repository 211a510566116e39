//! What is asked of the fields of a message type that has required fields, or holds messages of a
//! type that has.
use crate::imports::ghost_imports;
use crate::width::WIDTH;
use wire_schema::{Field, Template, Words};

/// What the documentation of such a type says besides.
pub const DOCUMENTED: &str = "\
///
/// It has required fields, or holds messages that have: `parse_from_slice` of `Parse` refuses
/// bytes that lack one, and `decode_from_slice` takes them.
";

// The call that looks for them.
const REQUIRED: &str = "
impl Required for $name$ {
$ghost_imports$
    ghost Seen = { $name$-Value };

    ghost seen = { $module$-value };

    ghost missing = { $module$-missing };

    fn missing(&self, alloc: Global) -> Result<Option<FieldPath>, AllocError> {
        first_missing!(
            self,
            alloc,
$asked$        )
    }
}
";

const GHOSTS: &str = "\
Rattle.$crate$.specs.$name$ $name$-Value
Rattle.$crate$.specs.$name$ $module$-missing
Rattle.$crate$.specs.$name$ $module$-value
";

/// What the call brings in.
pub(crate) const USES: &str = "\
std::alloc AllocError
wire_required FieldPath
wire_required Required
wire_required first_missing
";

// Some fields of a message of many.
const PART: &str = "
// What is asked of the fields $low$ to $high$ of `$name$`.
struct $name$Required$low$To$high$;

impl Requirement for $name$Required$low$To$high$ {
$ghost_imports$
    type Held = $name$;

    ghost Value = { $name$-Value };

    ghost view = { $module$-value };

    ghost missing = { λ name. $module$-missing-$low$-to-$high$ };

    fn missing(
        alloc: Global,
        _name: &'static str,
        held: &$name$,
    ) -> Result<Option<FieldPath>, AllocError> {
        first_missing!(
            held,
            alloc,
$rows_of_part$        )
    }
}
";

const PART_GHOSTS: &str = "\
Rattle.$crate$.specs.$name$ $name$-Value
Rattle.$crate$.specs.$name$ $module$-missing-$low$-to-$high$
Rattle.$crate$.specs.$name$ $module$-value
";

const MISSING_IN_PART: &str = "
abbrev pub $module$-missing-$low$-to-$high$ : $name$-Value → Missing
$module$-missing-$low$-to-$high$ m =
    first_of ($lines_of_part$[])
";

// The most rows that are asked in one call.
const MOST_ROWS: usize = 8;

// The same as a definition.
const MISSING: &str = "
-- the first required field that is not there
abbrev pub $module$-missing : $name$-Value → Missing
$module$-missing m =
    first_of ($asked$[])
";

/// What the definition of a type brings in.
pub(crate) const USES_OF_MISSING: &str = "\
Rattle.std.specs.Prelude []
Rattle.std.specs.Prelude codes
Rattle.std.specs.Prelude ◌∷◌
Rattle.wire_required.specs.Missing Missing
Rattle.wire_required.specs.Missing first_of
";

// A definition in a line, and where it is longer: of what is seen as the word `asked_value`.
const LINES: [&str; 2] = [
    "$missing_in$$lacks$ $asked_value$\n    ∷ ",
    "$missing_in$$lacks$\n    $asked_value$\n    ∷ ",
];

// What a field holds, of a message `m`.
const VALUE: &str = "($field$-of-$module$ m)";

// What is asked of a field that is to be there, and of what a field holds.
const NEEDED: [Template; 4] = [
    ("requirement", "Needed<$kind$>"),
    ("required_uses", "wire_required Needed\n"),
    ("missing_in", "needs (codes \"$proto$\")"),
    ("missing_uses", "Rattle.wire_required.specs.Missing needs\n"),
];

// (contracts see a value of a closed enum as it is)
const NEEDED_VALUE: [Template; 4] = [
    ("requirement", "NeededValue<EnumValue<$of_name$>>"),
    ("required_uses", "wire_required NeededValue\n"),
    ("missing_in", "needs (codes \"$proto$\")"),
    ("missing_uses", "Rattle.wire_required.specs.Missing needs\n"),
];

const WITHIN: [Template; 5] = [
    ("requirement", "$kind$"),
    ("required_uses", ""),
    ("missing_in", "$of_missing$ (codes \"$proto$\")$of_key$"),
    ("lacks", " $of_module$-missing"),
    (
        "missing_uses",
        "Rattle.wire_required.specs.Missing $of_missing$\n$specs$ $of_module$-missing\n$key_uses$",
    ),
];

const OF_KEY: [Template; 2] = [
    ("of_key", " $key$"),
    ("key_uses", "Rattle.wire_required.specs.Path $key$\n"),
];

const IN_ONEOF: [Template; 4] = [
    ("requirement", "$kind$"),
    ("required_uses", ""),
    ("missing_in", "$of_module$-missing"),
    ("missing_uses", "$specs$ $of_module$-missing\n"),
];

// (of a oneof of which some variants are rows, it is asked by those that are of the leaf)
const IN_CHOICE: &str = "$choice$Required$of_low$To$of_high$";

const ROW: &str = "            \"$proto$\" => $field$: $requirement$,\n";

/// The rows of a message type, as the word `asked`, with the parts that are `asked_apart` where
/// there are many, and what they bring in.
pub fn use_asked(page: &mut Words, fields: &[Field]) {
    if page.get("requiring").is_empty() {
        return;
    }
    page.append("uses", USES);
    page.fill_all(&NONE_ASKED);
    use_rows(page, fields, PART_GHOSTS, &USE_PART);
}

/// Puts the rows of fields in a row behind the word `asked`. Where there are many, what a part of
/// them brings in, in clauses, and its templates, are these.
pub(crate) fn use_rows(
    page: &mut Words,
    fields: &[Field],
    ghosts: &str,
    part: &'static [Template],
) {
    let has_parts = rows_of(fields) > MOST_ROWS;
    let mut count: usize = 0;
    for (place, field) in fields.iter().enumerate() {
        for is_needed in [true, false] {
            if set_requirement(page, field, is_needed) {
                page.append_all(&[("rows_of_part", ROW), ("uses", "$required_uses$")]);
                count = count.saturating_add(1);
            }
        }
        if count > 0 && ends_part(fields, place, count) {
            count = 0;
            if has_parts {
                set_span(page, field);
                page.fill("ghosts", ghosts);
                ghost_imports(page, "    ");
                page.append_all(part);
            } else {
                page.append("asked", "$rows_of_part$");
            }
            page.fill_all(&NO_PART);
        }
    }
}

/// The lines of its definition, as the word `asked`, with the parts that are `asked_apart`, and
/// what they bring in.
pub(crate) fn define_asked(page: &mut Words, fields: &[Field]) {
    if page.get("requiring").is_empty() {
        return;
    }
    page.append("uses", USES_OF_MISSING);
    page.fill_all(&NONE_ASKED);
    define_rows(page, fields, VALUE, &DEFINE_PART);
}

/// The same of fields in a row, of which each is seen as this template says.
pub(crate) fn define_rows(
    page: &mut Words,
    fields: &[Field],
    value: &str,
    part: &'static [Template],
) {
    let has_parts = rows_of(fields) > MOST_ROWS;
    let mut count: usize = 0;
    for (place, field) in fields.iter().enumerate() {
        for is_needed in [true, false] {
            if set_requirement(page, field, is_needed) {
                page.fill("asked_value", value);
                put_line(page);
                page.append("uses", "$missing_uses$");
                count = count.saturating_add(1);
            }
        }
        if count > 0 && ends_part(fields, place, count) {
            count = 0;
            if has_parts {
                set_span(page, field);
                page.append_all(part);
            } else {
                page.append("asked", "$lines_of_part$");
            }
            page.fill_all(&NO_PART);
        }
    }
}

/// No rows so far.
pub(crate) const NONE_ASKED: [Template; 5] = [
    ("asked", ""),
    ("asked_apart", ""),
    ("rows_of_part", ""),
    ("lines_of_part", ""),
    ("low", ""),
];

const NO_PART: [Template; 3] = [("rows_of_part", ""), ("lines_of_part", ""), ("low", "")];

const USE_PART: [Template; 3] = [
    ("asked", "            ..$name$Required$low$To$high$,\n"),
    ("asked_apart", PART),
    ("uses", "wire_required Requirement\n"),
];

const DEFINE_PART: [Template; 2] = [
    ("asked", "$module$-missing-$low$-to-$high$ m\n    ∷ "),
    ("asked_apart", MISSING_IN_PART),
];

// How many rows there are.
fn rows_of(fields: &[Field]) -> usize {
    let mut count: usize = 0;
    for field in fields {
        for word in ["needed", "of_requiring"] {
            if !field.words.get(word).is_empty() {
                count = count.saturating_add(1);
            }
        }
    }
    count
}

// Whether a part that has so many rows up to this field ends with it: where the next field might
// have one too many, or none is left.
fn ends_part(fields: &[Field], place: usize, count: usize) -> bool {
    count.saturating_add(2) > MOST_ROWS
        || rows_of(fields.get(place.saturating_add(1)..).unwrap_or(&[])) == 0
}

// The last number of a part.
fn set_span(page: &mut Words, field: &Field) {
    page.set("high", field.words.get("number"));
}

/// Puts the call behind the code so far, of the rows that are there.
pub fn put_required(page: &mut Words) {
    if !page.get("requiring").is_empty() {
        page.fill("ghosts", GHOSTS);
        ghost_imports(page, "    ");
        page.append("code", REQUIRED);
        page.append("code", "$asked_apart$");
    }
}

/// Puts the definition behind the text so far, of the lines that are there.
pub(crate) fn put_missing(page: &mut Words) {
    if !page.get("requiring").is_empty() {
        page.append("text", "$asked_apart$");
        page.append("text", MISSING);
    }
}

fn put_line(page: &mut Words) {
    for form in LINES {
        page.fill("line", form);
        let is_short = page
            .get("line")
            .lines()
            .all(|it| it.chars().count() < WIDTH);
        if is_short {
            break;
        }
    }
    page.append("lines_of_part", "$line$");
}

// Sets the words of what is asked of a field: that it is there, or what it holds. Whether it is.
fn set_requirement(page: &mut Words, field: &Field, is_needed: bool) -> bool {
    let word = if is_needed { "needed" } else { "of_requiring" };
    if field.words.get(word).is_empty() {
        return false;
    }
    page.copy(
        &field.words,
        &["proto", "field", "kind", "of_name", "specs", "path"],
    );
    page.copy(&field.words, &["key_held"]);
    page.set("of_module", field.words.get("of_module"));
    page.set("lacks", "");
    if page.get("low").is_empty() {
        page.set("low", field.words.get("number"));
    }
    if is_needed {
        let is_closed = field.words.get("closed") == "closed_once";
        page.fill_all(if is_closed { &NEEDED_VALUE } else { &NEEDED });
        return true;
    }
    if field.oneof.is_some() {
        page.set("of_module", field.words.get("module"));
        page.fill_all(&IN_ONEOF);
        if !field.words.get("in_choice").is_empty() {
            page.fill("requirement", IN_CHOICE);
        }
        return true;
    }
    set_within(page);
    true
}

// The words of what a field holds, by its kind.
fn set_within(page: &mut Words) {
    let is_map = page.get("kind").starts_with("Map<");
    let is_each = page.get("kind").starts_with("Each");
    page.set(
        "of_missing",
        if is_map {
            "within_entries"
        } else if is_each {
            "within_each"
        } else {
            "within"
        },
    );
    page.set("of_key", "");
    page.set("key_uses", "");
    if is_map {
        let key = key_of(page.get("key_held"));
        page.set("key", key);
        page.fill_all(&OF_KEY);
    }
    page.fill_all(&WITHIN);
}

// What makes a step of the key of a map, by its type in code.
fn key_of(held: &str) -> &'static str {
    match held {
        "i32" | "i64" => "int_key",
        "u32" | "u64" => "uint_key",
        "bool" => "bool_key",
        _ => "text_key",
    }
}
