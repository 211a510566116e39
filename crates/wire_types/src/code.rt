//! The code of a message type.
use crate::arms::put_arm;
use crate::copies::set_clone;
use crate::defaults::{put_defaults, use_defaults};
use crate::field_rows::put_rows;
use crate::groups::set_groups;
use crate::many_rows::{BY_ITSELF, take_apart};
use crate::own_clone::derived_clone;
use wire_definitions::{
    DOCUMENTED, Tree, code_imports, ghost_imports, put_comment, put_field_comment, put_required,
    set_heading, use_asked,
};
use wire_schema::{Field, GenerateError, MessageType, Schema, Template, Words};

const USES: &str = "\
bytes Buf
std::alloc Global
wire_codec DecodeContext
wire_codec DecodeError
wire_codec EncodeError
wire_codec EncodeSink
wire_codec MessageFields
wire_codec MessageName
wire_codec SizeCache
wire_codec Tag
wire_fields measure
wire_fields write
";

// Of types that hold one another.
const CYCLE: &str = "#[cycle($family_module$)]\n";

const STRUCT: &str = "\
#[derive($derived$Debug, Drop, PartialEq)]
pub struct $name$ {$declared$}
";

// (such a map is the list of its entries)
const ENTRY: &str = "/// An entry of a map, of whose keys each counts as it came last.\n";

const NAME: &str = "
impl MessageName for $name$ {
    const PACKAGE: &'static str = \"$package$\";

    const NAME: &'static str = \"$own_name$\";

    const FULL_NAME: &'static str = \"$full$\";

    const TYPE_URL: &'static str = \"type.googleapis.com/$full$\";
}
";

const GHOSTS: &str = "\
Rattle.$crate$.specs.$name$ $name$-Value
Rattle.$crate$.specs.$name$ $module$-shape
Rattle.$crate$.specs.$name$ $module$-value
";

const MESSAGE: &str = "
impl MessageFields for $name$ {
$ghost_imports$
    ghost Value = { $name$-Value };

    ghost view = { $module$-value };

    ghost records = { $module$-shape.records };

    ghost default = { $module$-shape.default };

    ghost takes = { $module$-shape.takes };

    ghost single = { $module$-shape.single };

    fn default_value($alloc$: Global) -> $name$ {
        $empty$
    }

    fn compute_size(&self, cache: &mut SizeCache) -> Result<u32, EncodeError> {
$rest_let$        measure($whole$, cache)
    }

    fn write_to<S: EncodeSink>(
        &self,
        cache: &mut SizeCache,
        sink: &mut S,
    ) -> Result<(), EncodeError> {
$rest_let$        write($whole$, cache, sink)
    }

    fn merge_field<B: Buf>(
        &mut self,
        $alloc$: Global,
        tag: Tag,
        buf: &mut B,
        context: &mut DecodeContext,
    ) -> Result<(), DecodeError> {
        $merged$
    }

    fn clear(&mut self) {$cleared$}
}
";

const PART_GHOSTS: &str = "\
Rattle.$crate$.specs.$name$ $part_words$
Rattle.$crate$.specs.$name$ $part_words$-value
";

// Some fields of a message of many.
const PART: &str = "
// The fields $low$ to $high$ of `$name$`.
#[derive(Drop)]
struct $part_type$<'a> {
    message: &'a $name$,
}

impl<'a> Parts for $part_type$<'a> {
$ghost_imports$
    ghost records = { λ p. $part_words$.records ($part_words$-value p.message.now) };

    fn len(&self, cache: &mut SizeCache) -> Result<u64, EncodeError> {
        rows_$low$_to_$high$!(parts(self.message)).len(cache)
    }

    fn put<S: EncodeSink>(&self, cache: &mut SizeCache, sink: &mut S) -> Result<(), EncodeError> {
        rows_$low$_to_$high$!(parts(self.message)).put(cache, sink)
    }
}
";

// The calls of a message, of whose fields the rows stand above.
const OF_SOME: [Template; 6] = [
    ("alloc", "alloc"),
    ("empty", "rows!(empty($name$, alloc))"),
    ("rest_let", ""),
    ("whole", "rows!(parts(self))"),
    ("merged", "rows!(merge(self, alloc, tag, buf, context))"),
    ("cleared", "\n        rows!(clear(self));\n    "),
];

// Those of one without fields.
const OF_NONE: [Template; 4] = [
    ("empty", "$name$ {$emptied$}"),
    ("rest_let", "$rest_held$"),
    ("whole", "$rest$"),
    ("merged", "$keep$"),
];

// What becomes of the records that the schema lacks.
const KEPT: [Template; 10] = [
    ("uses", "wire_codec UnknownFields\n"),
    ("rest_uses", "wire_fields Rest\nwire_fields keep\n"),
    (
        "declared",
        "    /// The fields that the schema lacks, as they came.\n    pub unknown: UnknownFields,\n",
    ),
    (
        "emptied",
        "            unknown: UnknownFields::new(alloc),\n",
    ),
    ("cleared", "        $of_self$unknown.clear();\n"),
    ("named", "            unknown,\n"),
    ("keep", "keep(alloc, tag, &mut self.unknown, buf, context)"),
    ("rest", "rest"),
    (
        "rest_held",
        "        let rest = Rest {\n            fields: &self.unknown,\n        };\n",
    ),
    ("rest_row", "unknown"),
];

const DROPPED: [Template; 4] = [
    ("rest_uses", "wire_fields Dropped\nwire_fields pass_over\n"),
    ("keep", "pass_over(tag, buf, context)"),
    ("rest", "Dropped"),
    ("rest_row", "dropped"),
];

const OF_FIELD: [Template; 3] = [
    ("uses", "$code$"),
    ("declared", "    pub $field$: $held$,\n"),
    ("named", "            $field$,\n"),
];

// Of a field of a leaf.
const OF_LEAF: [Template; 3] = [
    ("uses", "wire_fields Kind\nwire_fields Known\n"),
    (
        "emptied",
        "            $field$: <$kind$ as Kind>::empty(alloc),\n",
    ),
    (
        "cleared",
        "        <$kind$ as Kind>::clear($mut_self$$field$);\n",
    ),
];

/// The module of a message type, whose words the base has.
pub fn code_of(
    base: &Words,
    schema: &Schema,
    message: &MessageType,
    fields: &[Field],
    tree: &Tree,
) -> Result<String, GenerateError> {
    let mut page = Words::like(base);
    page.set("uses", USES);
    page.fill_all(&BY_ITSELF);
    for field in fields {
        page.copy(&field.words, &["field", "held", "at", "code"]);
        put_field_comment(&mut page, schema);
        page.append_all(&OF_FIELD);
    }
    set_rest(&mut page);
    if fields.is_empty() {
        page.append("uses", "$rest_uses$");
        page.fill_all(&OF_NONE);
    } else {
        page.append("uses", "wire_fields fields\n");
        page.fill_all(&OF_SOME);
    }
    if !tree.parts.is_empty() {
        page.append("uses", "wire_fields Parts\n");
    }
    if tree.has_groups {
        set_groups(&mut page, fields, tree);
    }
    if message.is_twin {
        set_clone(&mut page, fields, tree);
    }
    use_asked(&mut page, fields);
    use_defaults(&mut page, fields);
    put_struct(&mut page, schema, message);
    if !fields.is_empty() {
        put_rows(&mut page, fields, tree);
    }
    page.append("code", NAME);
    put_defaults(&mut page, fields, false);
    page.append("code", "$clone$");
    page.fill("ghosts", GHOSTS);
    ghost_imports(&mut page, "    ");
    page.append("code", MESSAGE);
    for part in &tree.parts {
        page.copy(&part.words, &["low", "high", "part_type", "part_words"]);
        page.fill("ghosts", PART_GHOSTS);
        ghost_imports(&mut page, "    ");
        page.append("code", PART);
    }
    page.append("code", "$copied_apart$$merged_apart$");
    put_required(&mut page);
    page.finish("code")
}

/// What becomes of the records that the schema lacks, and the words that stand on that.
pub fn set_rest(page: &mut Words) {
    let is_kept = page.get("unknown") == "keep";
    page.append_all(if is_kept { &KEPT } else { &DROPPED });
    take_apart(page);
    page.set("alloc", if is_kept { "alloc" } else { "_alloc" });
    for name in ["declared", "emptied", "cleared"] {
        put_in_braces(page, name);
    }
}

/// The same where some fields are a leaf, and the arms of these.
pub fn set_leaf_rest(page: &mut Words) {
    set_rest(page);
    page.append("uses", "$rest_uses$");
    let is_bare = page.get("arms").is_empty();
    page.fill(
        "merge",
        if is_bare {
            "        $keep$\n"
        } else {
            "        match tag.field_number() {\n$arms$            _ => $keep$,\n        }\n"
        },
    );
}

/// The head of the module of a message type: what it brings in, the struct, and its names.
pub fn put_head(page: &mut Words, schema: &Schema, message: &MessageType) {
    put_struct(page, schema, message);
    page.append("code", NAME);
}

// What the module of a message type brings in, and the struct.
fn put_struct(page: &mut Words, schema: &Schema, message: &MessageType) {
    code_imports(page);
    page.set("package", message.words.get("package"));
    page.set("own_name", message.words.get("outer").trim_end_matches('.'));
    page.set("full", message.words.get("full").trim_start_matches('.'));
    set_heading(page, "//!", "The message `$full$`.");
    page.fill("code", "$heading$$head_ghosts$$imports$\n");
    match schema.comment(message.words.get("place")) {
        "" if message.is_entry() => page.append("code", ENTRY),
        "" => page.append("code", "/// The message `$name$`.\n"),
        comment => put_comment(page, "code", "", comment),
    }
    if !page.get("requiring").is_empty() {
        page.append("code", DOCUMENTED);
    }
    page.set(
        "derived",
        if message.is_twin {
            ""
        } else {
            derived_clone(page)
        },
    );
    let is_member = !page.get("family_name").is_empty();
    let is_choice = !page.get("choice").is_empty();
    page.append(
        "code",
        match (is_member, is_choice) {
            (true, _) => CYCLE,
            (false, true) => "#[cycle($module$)]\n",
            (false, false) => "",
        },
    );
    page.append("code", STRUCT);
}

/// Puts lines where they stand between braces: on lines of their own.
pub fn put_in_braces(page: &mut Words, name: &'static str) {
    let lines = page.take(name);
    if !lines.is_empty() {
        page.set("lines", &lines);
        page.fill(
            name,
            match name {
                "declared" => "\n$lines$",
                "emptied" | "copied" => "\n$lines$        ",
                _ => "\n$lines$    ",
            },
        );
    }
}

/// What there is for a field of a leaf.
pub fn put_leaf_field(page: &mut Words, schema: &Schema, field: &Words) {
    put_field_comment(page, schema);
    page.append_all(&OF_FIELD);
    page.append_all(&OF_LEAF);
    let mut calls = field.get("all_calls").split(' ');
    for number in field.get("numbers").split(' ') {
        page.set("number", number);
        page.set("call", calls.next().unwrap_or(""));
        if page.get("call").is_empty() {
            page.copy(field, &["call"]);
        }
        if page.get("call").starts_with("merge_closed") {
            let is_map = field.get("kind").starts_with("Map<");
            page.append(
                "uses",
                if is_map {
                    "wire_fields ClosedMap\n"
                } else {
                    "wire_fields $call$\n"
                },
            );
        }
        put_arm(page);
    }
}
