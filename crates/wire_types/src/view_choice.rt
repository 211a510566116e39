//! The code of the view of a oneof of which some variants are rows.
use crate::recursive::fill_line;
use wire_definitions::{code_imports, put_others, set_heading};
use wire_schema::{Field, GenerateError, Oneof, Template, Words};

/// The field of the oneof.
pub const DECLARED: [Template; 4] = [
    ("declared", "    pub $field$: Option<$choice_view$<'a>>,\n"),
    ("nones", ", $field$: None"),
    ("lines_of_nones", "            $field$: None,\n"),
    ("uses", "crate::$choice_view_module$ $choice_view$\n"),
];

/// A row that is a variant.
pub const ONCE_OF_CHOICE: [Template; 2] = [
    (
        "takes",
        "            $row$ => {
                match self.$field$.take() {
                    Some($choice_view$::$choice_variant$(message)) => $moved_open$Box::into_inner(message)$moved_shut$,
                    _ => $moved_open$$of_view$::default_view(alloc)$moved_shut$,
                }
            }
",
    ),
    (
        "onces",
        "$arm$ => {
                self.$field$ = Some($choice_view$::$choice_variant$(Box::new(alloc, message)?));
                Ok(())
            }
",
    ),
];

/// A field of the leaf that stands beside the oneof.
pub const OF_FIELD: [Template; 3] = [
    ("uses", "$view_code$wire_views ViewKind\n"),
    ("declared", "    pub $field$: $view_held$,\n"),
    (
        "lines_of_nones",
        "            $field$: <$view_kind$ as ViewKind>::empty(alloc),\n",
    ),
];

const ARMS: [&str; 2] = [
    "            $number$ => <$view_kind$ as ViewKind>::merge(alloc, tag, &mut self.$field$, buf, \
     context),",
    "            $number$ => <$view_kind$ as ViewKind>::merge(
                alloc,
                tag,
                &mut self.$field$,
                buf,
                context,
            ),",
];

// Of closed enums: one that stands once, a variant or a list, and a map.
const CLOSED_ARMS: [&str; 2] = [
    "            $number$ => $call$(alloc, tag, &mut self.$field$, &mut self.unknown, buf, \
     context),",
    "            $number$ => {
                $call$(alloc, tag, &mut self.$field$, &mut self.unknown, buf, context)
            }",
];

const MAP_ARMS: [&str; 2] = [MAP_ARM, MAP_ARM];

const MAP_ARM: &str = "            $number$ => <$view_kind$ as ViewClosedMap>::merge_closed(
                alloc,
                tag,
                &mut self.$field$,
                &mut self.unknown,
                buf,
                context,
            ),";

/// The arms of such a field, one for each of its numbers.
pub fn put_arms(page: &mut Words, field: &Words) {
    let is_map = field.get("kind").starts_with("Map<");
    let mut calls = field.get("all_calls").split(' ');
    for number in field.get("numbers").split(' ') {
        page.set("number", number);
        page.set("call", field.get("call"));
        let own = calls.next().unwrap_or("");
        if own != "" {
            page.set("call", own);
        }
        put_arm(page, is_map);
    }
}

// The arm of one number.
fn put_arm(page: &mut Words, is_map: bool) {
    let arms = match page.get("call") {
        "merge" => &ARMS,
        "merge_closed" if is_map => &MAP_ARMS,
        _ => &CLOSED_ARMS,
    };
    fill_line(page, arms);
    page.append("arms", "$line$\n");
    page.append(
        "uses",
        match page.get("call") {
            "merge_closed" if is_map => "wire_views ViewClosedMap\n",
            "merge_closed" => "wire_views merge_closed\n",
            "merge_closed_each" => "wire_views merge_closed_each\n",
            _ => "",
        },
    );
}

const SET: &str = "            $digits$ => {
                let mut value = <$view_kind$ as ViewKind>::empty(alloc);
                <$view_kind$ as ViewKind>::merge(alloc, tag, &mut value, buf, context)?;
                self.$field$ = Some($choice_view$::$variant$(value));
                Ok(())
            }
";

const MERGED: &str = "            $digits$ => {
                let mut value = $word$_or_new(alloc, self.$field$.take());
                let merged = <$view_kind$ as ViewKind>::merge(alloc, tag, &mut value, buf, context);
                self.$field$ = Some($choice_view$::$variant$(value));
                merged
            }
";

const NEW: Template = (
    "news_of_plain",
    "        Some($choice_view$::$other$(_)) => <$view_kind$ as ViewKind>::empty(alloc),\n",
);

const TAKEN: &str = "
// The `$variant$` that stands, or a new one.
fn $word$_or_new<'a>(alloc: Global, held: Option<$choice_view$<'a>>) -> $view_held$
    ensures { $of_module$-view_value result
        ≡ or_else $of_module$-shape.default ($word$-of-$choice_module$-as
        (or_else $choice_module$-none (option_map $choice_module$-view_value held.entry)).0) }
{
    match held {
        Some($choice_view$::$variant$(value)) => value,
$news_of_plain$        None => <$view_kind$ as ViewKind>::empty(alloc),
    }
}
";

const TAKEN_GHOSTS: &str = "\
Rattle.std.specs.Prelude option_map
Rattle.std.specs.Prelude ◌≡◌
Rattle.wire_fields.specs.Messages or_else
$of_specs$.$of_name$ $of_module$-shape
$of_specs$.$of_name$ $of_module$-view_value
Rattle.$crate$.specs.$choice$ $word$-of-$choice_module$-as
Rattle.$crate$.specs.$home$ $choice_module$-none
Rattle.$crate$.specs.$home$ $choice_module$-view_value
";

// Of a closed enum.
const CLOSED: &str = "
// Takes the record behind this tag as the `$variant$` where the enum has the number in it, and else
// keeps it as an unknown field, where it stands, beside what stands. Refused as `merge_closed`.
fn set_or_keep_$word$<'a>(
    alloc: Global,
    tag: Tag,
    held: &mut Option<$choice_view$<'a>>,
    spans: &mut Vec<UnknownSpan<'a>>,
    buf: &mut &'a [u8],
    context: &mut DecodeContext,
) -> Result<(), DecodeError>
    ensures ok { OnOk result (IsCharged context.old context.new (λ c.
        TakesRecord $word$-of-$choice_module$-closed context.old (tag_number tag) (tag_type tag)
        (($choice_module$-view_held held.old).0, span_fields spans.old.items) buf.old.now c
        (($choice_module$-view_held held.new).0, span_fields spans.new.items) buf.new.now)) }
    ensures rows { OnOk result (($choice_module$-view_held held.new).1
        ≡ $choice_module$-beside ($choice_module$-view_held held.new).0
        ($choice_module$-view_held held.old).1) }
    ensures err { IfErr result (λ e. e ≢ OutOfMemory → NotTaken
        (TakesRecord $word$-of-$choice_module$-closed context.old (tag_number tag) (tag_type tag)
        (($choice_module$-view_held held.old).0, span_fields spans.old.items) buf.old.now)) }
    ensures counts { OnErr result (NoCountGrew context.old context.new) }
{
    let mut value = None;
    merge_closed(alloc, tag, &mut value, spans, buf, context)?;
    match value {
        Some(value) => {
            *held = Some($choice_view$::$variant$(value));
            Ok(())
        }
        None => Ok(()),
    }
}
";

const CLOSED_GHOSTS: &str = "\
Rattle.std.specs.Prelude IfErr
Rattle.std.specs.Prelude OnErr
Rattle.std.specs.Prelude OnOk
Rattle.std.specs.Prelude ◌≡◌
Rattle.std.specs.Prelude ◌≢◌
Rattle.wire_codec.specs.DecodeError.TheVariants OutOfMemory
Rattle.wire_codec.specs.Limits NoCountGrew
Rattle.wire_codec.specs.TagView tag_number
Rattle.wire_codec.specs.TagView tag_type
Rattle.wire_codec.specs.Taking IsCharged
Rattle.wire_codec.specs.Taking NotTaken
Rattle.wire_codec.specs.Taking TakesRecord
Rattle.wire_views.specs.Spans span_fields
Rattle.$crate$.specs.$choice$ $word$-of-$choice_module$-closed
Rattle.$crate$.specs.$home$ $choice_module$-beside
Rattle.$crate$.specs.$home$ $choice_module$-view_held
";

// The arm of such a variant, and the function that it calls.
fn put_closed(page: &mut Words) {
    page.fill_all(&[("number", "$digits$"), ("call", "set_or_keep_$word$")]);
    put_arm(page, false);
    page.append("uses", "wire_views UnknownSpan\nwire_views merge_closed\n");
    page.append_all(&[("view_parts", CLOSED), ("choice_ghosts", CLOSED_GHOSTS)]);
}

/// The arms of the variants that are of the leaf, and the functions that take messages out.
pub fn put_variants(page: &mut Words, oneof: &Oneof) {
    for variant in &oneof.variants {
        page.copy(variant, &["variant", "digits", "presence", "word"]);
        page.copy(variant, &["view_kind", "view_held", "view_code"]);
        page.copy(variant, &["of_module", "of_name", "of_specs", "closed"]);
        page.append("uses", "$view_code$wire_views ViewKind\n");
        if !page.get("closed").is_empty() {
            put_closed(page);
        } else if page.get("presence") == "Always" {
            page.append("arms", SET);
        } else {
            page.append("arms", MERGED);
            page.set("news_of_plain", "");
            put_others(page, "variant", &NEW);
            page.append_all(&[("view_parts", TAKEN), ("choice_ghosts", TAKEN_GHOSTS)]);
        }
    }
}

const ENUM: &str = "\
$heading$$imports$
/// One of these, where one is there.
#[cycle($cycle$)]
#[derive(Debug, Drop)]
pub enum $choice_view$<'a> {
$declared$}
";

/// The module of the view of such a oneof, of a message of these fields, whose words the base has.
pub fn choice_view_code(
    base: &Words,
    oneof: &Oneof,
    fields: &[Field],
) -> Result<String, GenerateError> {
    let mut page = Words::like(base);
    let is_alone = page.get("family_name").is_empty();
    page.fill(
        "cycle",
        if is_alone {
            "$view_module$"
        } else {
            "$family_view_module$"
        },
    );
    page.copy(&oneof.words, &["name", "full", "place", "schema"]);
    page.fill_all(&[("uses", ""), ("all_code", "")]);
    for field in fields {
        if !field.words.get("choice_variant").is_empty() {
            page.copy(&field.words, &["of_view", "of_view_path"]);
            page.append("uses", "$of_view_path$ $of_view$\n");
        }
    }
    for variant in &oneof.variants {
        page.copy(variant, &["view_code"]);
        page.append("all_code", "$view_code$");
    }
    page.set("declared", oneof.words.get("view_declared"));
    use_mentioned(&mut page);
    code_imports(&mut page);
    set_heading(&mut page, "//!", "The view of the oneof `$name$`.");
    page.fill("text", ENUM);
    page.finish("text")
}

// Brings in what the types of variants name.
fn use_mentioned(page: &mut Words) {
    let code = page.take("all_code");
    let declared = page.take("declared");
    for line in code.split('\n') {
        let (_, name) = line.split_once(' ').unwrap_or((line, ""));
        let mut words = declared.split(|it: char| !it.is_alphanumeric() && it != '_');
        if words.any(|it| it == name && it != "") {
            page.set("line", line);
            page.append("uses", "$line$\n");
        }
    }
    page.set("declared", &declared);
}
