//! The code of a oneof of which some variants are rows.
use crate::arms::put_arm;
use crate::own_clone::{derived_clone, set_own_clone_of_choice};
use wire_definitions::{
    code_imports, ghost_imports, put_choice_requirement, put_field_comment, put_others, set_heading,
};
use wire_schema::{Field, GenerateError, Oneof, Schema, Template, Words};

/// The words of a oneof of which some variants are rows.
pub const CHOICE: [&str; 5] = [
    "choice",
    "choice_module",
    "choices",
    "choice_view",
    "choice_view_module",
];

const DECLARED: [Template; 5] = [
    ("declared", "    pub $field$: Option<$choice$>,\n"),
    ("emptied", "            $field$: None,\n"),
    ("cleared", "        $set_self$$field$ = None;\n"),
    ("named", "            $field$,\n"),
    ("uses", "crate::$choice_module$ $choice$\n"),
];

/// The field of the oneof as it is declared.
pub fn put_declared(page: &mut Words, schema: &Schema) {
    page.set("at", "");
    put_field_comment(page, schema);
    page.append_all(&DECLARED);
}

/// A row that is a variant.
pub const ONCE_OF_CHOICE: [Template; 4] = [
    (
        "places",
        "            $number$ => Place::$row_place$($row$),\n",
    ),
    (
        "rows",
        "            $row$ => {
                match &self.$field$ {
                    Some($choice$::$choice_variant$(message)) => $slice_open$from_ref(message)$moved_shut$,
$no_rows$                    None => $slice_open$&[]$moved_shut$,
                }
            }
",
    ),
    (
        "takes",
        "            $row$ => {
                match self.$field$.take() {
                    Some($choice$::$choice_variant$(message)) => $moved_open$Box::into_inner(message)$moved_shut$,
                    _ => $moved_open$$of_name$::empty(alloc)$moved_shut$,
                }
            }
",
    ),
    (
        "arm_of_row",
        "$arm$ => {
                self.$field$ = Some($choice$::$choice_variant$(Box::new(alloc, message)?));
                Ok(())
            }
",
    ),
];

// What is measured and written of the leaf's variants, and how their records are taken.
const OF_VARIANT: [Template; 3] = [
    (
        "plain_lens",
        "            Some($choice$::$variant$(value)) => {
                let field: Known<$presence$<$kind$>> = Known {
                    number: $digits$,
                    held: value,
                };
                field.len(cache)
            }
",
    ),
    (
        "plain_puts",
        "            Some($choice$::$variant$(value)) => {
                let field: Known<$presence$<$kind$>> = Known {
                    number: $digits$,
                    held: value,
                };
                field.put(cache, sink)
            }
",
    ),
    ("uses", "$code$wire_fields $presence$\nwire_fields Known\n"),
];

// (a default arm for several variants is not proved)
const NO_ROW: Template = (
    "no_rows",
    "                    Some($choice$::$other$(_)) => $slice_open$&[]$moved_shut$,\n",
);

const NOT_PLAIN: [Template; 3] = [
    ("own_rows", "$other$ "),
    (
        "plain_lens",
        "            Some($choice$::$other$(_)) => Ok(0),\n",
    ),
    (
        "plain_puts",
        "            Some($choice$::$other$(_)) => Ok(()),\n",
    ),
];

const NEW: Template = (
    "news_of_plain",
    "        Some($choice$::$other$(_)) => <$presence$<$kind$> as Kind>::empty(alloc),\n",
);

const TAKEN: &str = "
// The `$variant$` that stands, or a new one.
fn $word$_or_new(alloc: Global, held: Option<$choice$>) -> $held$
    ensures { $of_module$-value result ≡ or_else $of_module$-shape.default ($word$-of-$choice_module$-as
        (or_else $choice_module$-none (option_map $choice_module$-value held)).0) }
{
    match held {
        Some($choice$::$variant$(value)) => value,
$news_of_plain$        None => <$presence$<$kind$> as Kind>::empty(alloc),
    }
}
";

const TAKEN_GHOSTS: &str = "\
Rattle.std.specs.Prelude option_map
Rattle.std.specs.Prelude ◌≡◌
Rattle.wire_fields.specs.Messages or_else
$of_specs$.$of_name$ $of_module$-shape
$of_specs$.$of_name$ $of_module$-value
Rattle.$crate$.specs.$choice$ $word$-of-$choice_module$-as
Rattle.$crate$.specs.$home$ $choice_module$-none
Rattle.$crate$.specs.$home$ $choice_module$-value
";

const SET: &str = "            $digits$ => {
                let value = merge_new::<$presence$<$kind$>, B>(alloc, tag, buf, context)?;
                self.$field$ = Some($choice$::$variant$(value));
                Ok(())
            }
";

const MERGED: &str = "            $digits$ => {
                let mut value = $word$_or_new(alloc, self.$field$.take());
                let merged = <$presence$<$kind$> as Kind>::merge(alloc, tag, &mut value, buf, context);
                self.$field$ = Some($choice$::$variant$(value));
                merged
            }
";

// Of a closed enum.
const CLOSED: &str = "
// Takes the record behind this tag as the `$variant$` where the enum has the number in it, and else
// keeps it as an unknown field, beside what stands. Refused as `merge_closed`.
fn set_or_keep_$word$<B: Buf>(
    tag: Tag,
    held: &mut Option<$choice$>,
    unknown: &mut UnknownFields,
    buf: &mut B,
    context: &mut DecodeContext,
) -> Result<(), DecodeError>
    ensures ok { OnOk result (IsCharged context.old context.new (λ c.
        TakesRecord $word$-of-$choice_module$-closed context.old
        (tag_number tag) (tag_type tag) (($choice_module$-held held.old).0, unknown.old)
        (B.unread buf.old) c (($choice_module$-held held.new).0, unknown.new) (B.unread buf.new))) }
    ensures rows { OnOk result (($choice_module$-held held.new).1
        ≡ $choice_module$-beside ($choice_module$-held held.new).0
        ($choice_module$-held held.old).1) }
    ensures err { IfErr result (λ e. e ≢ OutOfMemory → NotTaken
        (TakesRecord $word$-of-$choice_module$-closed context.old
        (tag_number tag) (tag_type tag) (($choice_module$-held held.old).0, unknown.old)
        (B.unread buf.old))) }
    ensures counts { OnErr result (NoCountGrew context.old context.new) }
    ensures kept { B.kept buf.new ≡ B.kept buf.old }
{
    let mut value = None;
    merge_closed::<$of_name$, B>(tag, &mut value, unknown, buf, context)?;
    match value {
        Some(value) => {
            *held = Some($choice$::$variant$(value));
            Ok(())
        }
        None => Ok(()),
    }
}
";

const CLOSED_GHOSTS: &str = "\
Rattle.std.specs.Prelude IfErr
Rattle.std.specs.Prelude OnErr
Rattle.std.specs.Prelude OnOk
Rattle.std.specs.Prelude ◌≡◌
Rattle.std.specs.Prelude ◌≢◌
Rattle.wire_codec.specs.DecodeError.TheVariants OutOfMemory
Rattle.wire_codec.specs.Limits NoCountGrew
Rattle.wire_codec.specs.TagView tag_number
Rattle.wire_codec.specs.TagView tag_type
Rattle.wire_codec.specs.Taking IsCharged
Rattle.wire_codec.specs.Taking NotTaken
Rattle.wire_codec.specs.Taking TakesRecord
Rattle.$crate$.specs.$choice$ $word$-of-$choice_module$-closed
Rattle.$crate$.specs.$home$ $choice_module$-beside
Rattle.$crate$.specs.$home$ $choice_module$-held
";

const PLAIN: &str = "
// The variants of `$choice$` that are no messages of a row.
#[derive(Drop)]
struct $choice$Fields$of_low$To$of_high$<'a> {
    message: &'a $name$,
}

impl<'a> Parts for $choice$Fields$of_low$To$of_high$<'a> {
    ghost use Rattle.wire_fields.specs.Nest.{leaf_of};
$part_ghosts$
    ghost records = { λ p.
        $part_open$$part_records$$part_close$ (leaf_of ($module$-value p.message.now)) };

    fn len(&self, cache: &mut SizeCache) -> Result<u64, EncodeError> {
        match &self.message.$field$ {
$plain_lens$            None => Ok(0),
        }
    }

    fn put<S: EncodeSink>(&self, cache: &mut SizeCache, sink: &mut S) -> Result<(), EncodeError> {
        match &self.message.$field$ {
$plain_puts$            None => Ok(()),
        }
    }
}
";

/// The variants that are of the leaf: their arms, and what stands for them in the run.
pub fn put_plain(page: &mut Words, oneof: &Oneof) {
    page.fill_all(&[("plain_lens", ""), ("plain_puts", ""), ("of_low", "")]);
    page.set("own_rows", "");
    for variant in &oneof.variants {
        page.copy(
            variant,
            &["variant", "digits", "presence", "kind", "code", "word"],
        );
        page.copy(variant, &["held", "of_module", "of_name", "of_specs"]);
        page.copy(variant, &["closed"]);
        page.append_all(&OF_VARIANT);
        if page.get("of_low").is_empty() {
            page.fill("of_low", "$digits$");
        }
        page.fill("of_high", "$digits$");
        let is_scalar = page.get("presence") == "Always";
        if !page.get("closed").is_empty() {
            put_closed(page);
        } else if is_scalar {
            page.append("uses", "wire_fields merge_new\n");
            page.append("arms", SET);
        } else {
            page.append("uses", "wire_fields Kind\n");
            page.append("arms", MERGED);
            put_taken(page);
        }
    }
    let names = page.take("choice_names");
    for name in names.split(' ') {
        let mut own = oneof.variants.iter();
        if !name.is_empty() && !own.any(|it| it.get("variant") == name) {
            page.set("other", name);
            page.append_all(&NOT_PLAIN);
        }
    }
    page.set("choice_names", &names);
    page.append("parts", PLAIN);
    put_choice_requirement(page, oneof);
}

// The arm of a closed enum, and the function that it calls.
fn put_closed(page: &mut Words) {
    page.fill_all(&[("number", "$digits$"), ("call", "set_or_keep_$word$")]);
    put_arm(page);
    page.append(
        "uses",
        "wire_codec UnknownFields\nwire_fields merge_closed\n",
    );
    page.append_all(&[("parts", CLOSED), ("choice_ghosts", CLOSED_GHOSTS)]);
}

// The function that takes the message of a variant out.
fn put_taken(page: &mut Words) {
    page.set("news_of_plain", "");
    put_others(page, "variant", &NEW);
    page.append_all(&[("parts", TAKEN), ("choice_ghosts", TAKEN_GHOSTS)]);
}

//// The lines of a row for all the other variants, the word `no_rows`.
pub fn put_no_rows(page: &mut Words) {
    page.set("no_rows", "");
    put_others(page, "choice_variant", &NO_ROW);
}

/// What the clauses of the module bring in for it, behind the others.
pub fn put_ghosts(page: &mut Words) {
    if !page.get("choice_ghosts").is_empty() {
        page.fill("ghosts", "$choice_ghosts$");
        ghost_imports(page, "");
        let head = page.take("head_ghosts");
        page.set("head_ghosts", head.trim_end());
        page.append("head_ghosts", "\n$ghost_imports$\n");
    }
}

const ENUM: &str = "\
$heading$$imports$
/// One of these, where one is there.
#[cycle($cycle$)]
#[derive($derived$Debug, Drop, PartialEq)]
pub enum $name$ {
$declared$}
$own_clone$";

/// The module of such a oneof, of a message of these fields, whose words the base has.
pub fn choice_code(base: &Words, oneof: &Oneof, fields: &[Field]) -> Result<String, GenerateError> {
    let mut page = Words::like(base);
    let is_alone = page.get("family_name").is_empty();
    page.fill(
        "cycle",
        if is_alone {
            "$module$"
        } else {
            "$family_module$"
        },
    );
    page.copy(
        &oneof.words,
        &["name", "full", "place", "schema", "declared"],
    );
    page.fill_all(&[("uses", ""), ("all_code", "")]);
    for field in fields {
        if !field.words.get("choice_variant").is_empty() {
            page.copy(&field.words, &["of_name", "of_path"]);
            page.append("uses", "$of_path$ $of_name$\n");
        }
    }
    for variant in &oneof.variants {
        page.copy(variant, &["code"]);
        page.append("all_code", "$code$");
    }
    let code = page.take("all_code");
    let declared = page.take("declared");
    for line in code.split('\n') {
        let (_, name) = line.split_once(' ').unwrap_or((line, ""));
        if !name.is_empty() && is_mentioned(&declared, name) {
            page.set("line", line);
            page.append("uses", "$line$\n");
        }
    }
    page.set("declared", &declared);
    set_own_clone_of_choice(&mut page, oneof, fields);
    page.set("derived", derived_clone(&page));
    code_imports(&mut page);
    page.fill(
        "imports",
        if page.get("imports").is_empty() {
            ""
        } else {
            "$imports$"
        },
    );
    set_heading(&mut page, "//!", "The oneof `$name$`.");
    page.fill("text", ENUM);
    page.finish("text")
}

// Whether a name stands in the types of variants.
fn is_mentioned(declared: &str, name: &str) -> bool {
    declared.lines().any(|line| {
        let (_, held) = line.split_once('(').unwrap_or((line, ""));
        let mut words = held.split(|it: char| !it.is_alphanumeric() && it != '_');
        words.any(|it| it == name)
    })
}
