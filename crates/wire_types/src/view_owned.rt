//! The code by which messages that hold themselves or one another are made of their views.
use crate::recursive::fill_line;
use wire_definitions::is_row;
use wire_schema::{Field, Template, Words};

const OWNED: &str = "
// The message of the same value. It recurses as deep as the view nests.
#[cycle(own)]
$line$
    ensures ok { IfOk result (λ message. $module$-value message ≡ $module$-view_value view.now) }
    ensures err { IfErr result (λ e. e ≡ OutOfMemory) }
{
$owns$    let own_unknown = own_spans(alloc, &view.unknown)?;
    Ok($name$ {
$owned$        unknown: own_unknown,
    })
}
";

// The heads of these functions, in a line and where it is longer.
const OWN_HEAD: [&str; 2] = [
    "$seen_from$fn owned_$module$<'a>(alloc: Global, view: &$view_name$<'a>) \
     -> Result<$name$, DecodeError>",
    "$seen_from$fn owned_$module$<'a>(
    alloc: Global,
    view: &$view_name$<'a>,
) -> Result<$name$, DecodeError>",
];

const OWNED_EACH: &str = "
// The messages of the same values.
#[cycle(own)]
$line$
    ensures ok { IfOk result (λ messages. map $module$-value messages.items
        ≡ map $module$-view_value views.now) }
    ensures err { IfErr result (λ e. e ≡ OutOfMemory) }
{
    let mut messages = Vec::with_capacity(alloc, views.len())?;
    for view in views {
        let message = owned_$module$(alloc, view)?;
        messages.push(message)?;
    }
    Ok(messages)
}
";

const EACH_HEAD: [&str; 2] = [
    "fn each_owned_$module$<'a>(alloc: Global, views: &[$view_name$<'a>]) \
     -> Result<Vec<$name$>, DecodeError>",
    "fn each_owned_$module$<'a>(
    alloc: Global,
    views: &[$view_name$<'a>],
) -> Result<Vec<$name$>, DecodeError>",
];

const OWNED_ONCE: &str = "
// The message of the same value, where there is one.
#[cycle(own)]
fn once_owned_$module$<'a>(
    alloc: Global,
    view: &Option<Box<$view_name$<'a>>>,
) -> Result<Option<Box<$name$>>, DecodeError>
    ensures ok { IfOk result (λ message. map $module$-value (boxed_row message)
        ≡ map $module$-view_value (boxed_row view.now)) }
    ensures err { IfErr result (λ e. e ≡ OutOfMemory) }
{
    match view {
        Some(view) => Ok(Some(Box::new(alloc, owned_$module$(alloc, view)?)?)),
        None => Ok(None),
    }
}
";

// Of a oneof of which some variants are rows.
const OWNED_CHOICE: &str = "
// The one that stands, of the message, where one does.
#[cycle(own)]
fn owned_$choice_module$<'a>(
    alloc: Global,
    view: &Option<$choice_view$<'a>>,
) -> Result<Option<$choice$>, DecodeError>
    ensures ok { IfOk result (λ held. option_map $choice_module$-value held
        ≡ option_map $choice_module$-view_value view.now) }
    ensures err { IfErr result (λ e. e ≡ OutOfMemory) }
{
    match view {
$owned_variants$        None => Ok(None),
    }
}
";

const OWNED_PLAIN: [Template; 2] = [
    (
        "owned_variants",
        "        Some($choice_view$::$variant$(value)) => {
            let own = <$view_kind$ as ViewKind>::own(alloc, value)?;
            Ok(Some($choice$::$variant$(own)))
        }
",
    ),
    ("kinds_code", "$view_code$wire_views ViewKind\n"),
];

const OWNED_ROW: Template = (
    "owned_variants",
    "        Some($choice_view$::$choice_variant$(message)) => {
            let own = owned_$of_module$(alloc, message)?;
            Ok(Some($choice$::$choice_variant$(Box::new(alloc, own)?)))
        }
",
);

const CHOICE_USES: &str = "\
crate::$choice_module$ $choice$
crate::$choice_view_module$ $choice_view$
";

const CHOICE_GHOSTS: &str = "\
Rattle.std.specs.Prelude option_map
Rattle.$crate$.specs.$home$ $choice_module$-value
Rattle.$crate$.specs.$home$ $choice_module$-view_value
";

const GHOSTS: &str = "\
Rattle.std.specs.Prelude ◌≡◌
Rattle.std.specs.Prelude IfErr
Rattle.std.specs.Prelude IfOk
Rattle.$crate$.specs.$home$ $module$-value
Rattle.$crate$.specs.$home$ $module$-view_value
Rattle.wire_codec.specs.DecodeError.TheVariants OutOfMemory
";

// How a field is made of that of a view: one that is no row, a list of messages, and one message.
const OF_LEAF: [Template; 2] = [
    (
        "owns",
        "    let own_$field$ = <$view_kind$ as ViewKind>::own(alloc, &view.$field$)?;\n",
    ),
    ("kinds_code", "$view_code$wire_views ViewKind\n"),
];

const OF_EACH: Template = (
    "owns",
    "    let own_$field$ = each_owned_$of_module$(alloc, &view.$field$)?;\n",
);

const OF_ONCE: Template = (
    "owns",
    "    let own_$field$ = once_owned_$of_module$(alloc, &view.$field$)?;\n",
);

const OF_CHOICE: Template = (
    "owns",
    "    let own_$field$ = owned_$choice_module$(alloc, &view.$field$)?;\n",
);

/// Tells the page of which types the rows among these fields hold messages: many, the word `each_of`,
/// and one at most, `once_of`.
pub fn tell_held(page: &mut Words, fields: &[Field]) {
    for field in fields {
        if is_row(field) && field.words.get("choice_variant").is_empty() {
            page.copy(&field.words, &["of_name"]);
            if field.words.get("kind").starts_with("Each") {
                page.append("each_of", " $of_name$ ");
            } else {
                page.append("once_of", " $of_name$ ");
            }
        }
    }
}

/// Puts how the message of these fields is made of its view behind the word `all_owned`, and what
/// this brings in; the page is told of all of its family which types are held.
pub fn put_owned(page: &mut Words, fields: &[Field]) {
    let is_member = !page.get("family_name").is_empty();
    page.fill("home", if is_member { "$family_name$" } else { "$name$" });
    page.set("seen_from", if is_member { "pub(crate) " } else { "" });
    page.fill_all(&[("owns", ""), ("owned", "")]);
    for field in fields {
        page.copy(
            &field.words,
            &["field", "view_kind", "view_code", "of_module"],
        );
        if is_choice(field) {
            page.append_all(&[OF_CHOICE]);
        } else if !field.words.get("choice_variant").is_empty() {
            continue;
        } else if !is_row(field) {
            page.append_all(&OF_LEAF);
        } else if field.words.get("kind").starts_with("Each") {
            page.append_all(&[OF_EACH]);
        } else {
            page.append_all(&[OF_ONCE]);
        }
        page.append("owned", "        $field$: own_$field$,\n");
    }
    page.append("uses", "wire_views own_spans\n");
    page.append("head_ghosts", GHOSTS);
    fill_line(page, &OWN_HEAD);
    page.append("all_owned", OWNED);
    page.fill("this", " $name$ ");
    if page.get("each_of").contains(page.get("this")) {
        fill_line(page, &EACH_HEAD);
        page.append("all_owned", OWNED_EACH);
        page.append("head_ghosts", "Rattle.std.specs.Prelude map\n");
    }
    if page.get("once_of").contains(page.get("this")) {
        page.append("all_owned", OWNED_ONCE);
        page.append(
            "head_ghosts",
            "Rattle.std.specs.Prelude map\nRattle.wire_fields.specs.Nest boxed_row\n",
        );
    }
    put_owned_choice(page, fields);
}

/// Whether a field is a oneof of which some variants are rows: a field of the leaf, or the first of
/// its rows, where all are.
pub fn is_choice(field: &Field) -> bool {
    let is_variant = !field.words.get("choice_variant").is_empty();
    let is_leaf = !field.words.get("in_choice").is_empty();
    is_leaf || is_variant && field.oneof.is_some()
}

// How what stands of such a oneof is made of its view, where there is one.
fn put_owned_choice(page: &mut Words, fields: &[Field]) {
    if page.get("choice").is_empty() {
        return;
    }
    page.set("owned_variants", "");
    for field in fields {
        if let (Some(oneof), false) = (&field.oneof, field.words.get("in_choice").is_empty()) {
            for variant in &oneof.variants {
                page.copy(variant, &["variant", "view_kind", "view_code"]);
                page.append_all(&OWNED_PLAIN);
            }
        }
        page.copy(&field.words, &["choice_variant", "of_module"]);
        if !page.get("choice_variant").is_empty() {
            page.append_all(&[OWNED_ROW]);
        }
    }
    page.append_all(&[
        ("all_owned", OWNED_CHOICE),
        ("uses", CHOICE_USES),
        ("head_ghosts", CHOICE_GHOSTS),
    ]);
}
