//! The code of the view of a oneof.
use crate::oneof::set_clauses;
use wire_definitions::{code_imports, ghost_imports, set_heading};
use wire_schema::{GenerateError, Oneof, Template, Words};

const USES: &str = "\
crate::$module$ $name$
std::alloc Global
std::marker PhantomData
wire_codec DecodeContext
wire_codec DecodeError
wire_codec Tag
wire_views ViewKind
wire_views view_variants
";

const GHOSTS: &str = "\
Rattle.$crate$.specs.$name$ $name$-Value
Rattle.$crate$.specs.$name$ $module$-kind
Rattle.$crate$.specs.$name$ $module$-of
Rattle.$crate$.specs.$name$ $module$-view_of
";

const ENUM: &str = "
/// One of these, where one is there.
#[derive(Debug, Drop)]
pub enum $view_name$<'a> {
$declared$}

// The variants of `$view_name$`: their numbers, names and kinds.
macro_rules! rows {
    ($given$) => {
        view_variants!(
            $handed_on$
$rows$        )
    };
}

/// The fields of the oneof, of which one stands at most.
pub struct $view_kind_name$<'a> {
    variants: PhantomData<$view_name$<'a>>,
}

impl<'a> ViewKind for $view_kind_name$<'a> {
$ghost_imports$
    type Source = &'a [u8];

    type Held = Option<$view_name$<'a>>;

    type Owned = Option<$name$>;

    ghost Value = { $name$-Value };

    ghost view = { $module$-view_of };

    ghost owned = { $module$-of };

    ghost kind = { $module$-kind };

    fn empty(_alloc: Global) -> Option<$view_name$<'a>> {
        None
    }

    fn merge(
        alloc: Global,
        tag: Tag,
        held: &mut Option<$view_name$<'a>>,
        buf: &mut &'a [u8],
        context: &mut DecodeContext,
    ) -> Result<(), DecodeError> {
        rows!(merge($view_name$, alloc, tag, held, buf, context))
    }

    fn own(alloc: Global, held: &Option<$view_name$<'a>>) -> Result<Option<$name$>, DecodeError> {
        rows!(own($view_name$ => $name$, alloc, held))
    }
}
";

const WRITTEN_USES: &str = "\
wire_codec EncodeError
wire_codec EncodeSink
wire_codec SizeCache
wire_views WrittenKind
";

const WRITTEN: &str = "
impl<'a> WrittenKind for $view_kind_name$<'a> {
    fn len(
        _number: u32,
        held: &Option<$view_name$<'a>>,
        cache: &mut SizeCache,
    ) -> Result<u64, EncodeError> {
        rows!(len($view_name$, held, cache))
    }

    fn put<S: EncodeSink>(
        _number: u32,
        held: &Option<$view_name$<'a>>,
        cache: &mut SizeCache,
        sink: &mut S,
    ) -> Result<(), EncodeError> {
        rows!(put($view_name$, held, cache, sink))
    }
}
";

// The function of a variant of a closed enum.
const CLOSED_VARIANT: &str = "
/// Takes the record behind this tag as this variant where the enum has the number in it,
/// and else keeps it as an unknown field, where it stands. Refused as `merge_closed`.
pub(crate) fn set_or_keep_$word$<'a>(
    alloc: Global,
    tag: Tag,
    held: &mut Option<$view_name$<'a>>,
    spans: &mut Vec<UnknownSpan<'a>>,
    buf: &mut &'a [u8],
    context: &mut DecodeContext,
) -> Result<(), DecodeError>
    ensures ok { OnOk result (IsCharged context.old context.new (λ c.
        TakesRecord $word$-of-$module$-closed context.old (tag_number tag) (tag_type tag)
        ($module$-view_of held.old, span_fields spans.old.items) buf.old.now c
        ($module$-view_of held.new, span_fields spans.new.items) buf.new.now)) }
    ensures err { IfErr result (λ e. e ≢ OutOfMemory → NotTaken
        (TakesRecord $word$-of-$module$-closed context.old (tag_number tag) (tag_type tag)
        ($module$-view_of held.old, span_fields spans.old.items) buf.old.now)) }
    ensures counts { OnErr result (NoCountGrew context.old context.new) }
{
    let mut value = None;
    wire_views::merge_closed(alloc, tag, &mut value, spans, buf, context)?;
    match value {
        Some(value) => {
            *held = Some($view_name$::$variant$(value));
            Ok(())
        }
        None => Ok(()),
    }
}
";

const CLOSED_GHOSTS: &str = "\
Rattle.std.specs.Prelude IfErr
Rattle.std.specs.Prelude OnErr
Rattle.std.specs.Prelude OnOk
Rattle.std.specs.Prelude ◌≢◌
Rattle.wire_codec.specs.DecodeError.TheVariants OutOfMemory
Rattle.wire_codec.specs.Limits NoCountGrew
Rattle.wire_codec.specs.TagView tag_number
Rattle.wire_codec.specs.TagView tag_type
Rattle.wire_codec.specs.Taking IsCharged
Rattle.wire_codec.specs.Taking NotTaken
Rattle.wire_codec.specs.Taking TakesRecord
Rattle.wire_views.specs.Spans span_fields
Rattle.$crate$.specs.$name$ $module$-view_of
Rattle.$crate$.specs.$name$ $word$-of-$module$-closed
";

const OF_CLOSED_VARIANT: [Template; 3] = [
    ("variants", CLOSED_VARIANT),
    ("uses", "wire_views UnknownSpan\n"),
    ("ghosts", CLOSED_GHOSTS),
];

// The last row has all other numbers too.
const OF_VARIANT: [Template; 3] = [
    ("declared", "    $variant$($view_held$),\n"),
    (
        "rows",
        "            $digits$$others$ => $variant$: $view_kind$,\n",
    ),
    ("uses", "$view_code$"),
];

/// The module of the view of a oneof, whose words the base has.
pub fn oneof_view_code(base: &Words, oneof: &Oneof) -> Result<String, GenerateError> {
    let mut page = Words::like(base);
    page.set("given", "$($call:tt)*");
    page.set("handed_on", "$($call)*");
    page.fill("uses", USES);
    let last = oneof.variants.len().saturating_sub(1);
    for (place, variant) in oneof.variants.iter().enumerate() {
        page.copy(
            variant,
            &["variant", "digits", "view_held", "view_kind", "view_code"],
        );
        page.copy(variant, &["word", "closed"]);
        page.set("others", if place == last { " | _" } else { "" });
        page.append_all(&OF_VARIANT);
        if !page.get("closed").is_empty() {
            page.append_all(&OF_CLOSED_VARIANT);
        }
    }
    let is_written = !page.get("view_written").is_empty();
    page.append("uses", if is_written { WRITTEN_USES } else { "" });
    set_clauses(&mut page);
    code_imports(&mut page);
    page.fill("ghosts", GHOSTS);
    ghost_imports(&mut page, "    ");
    set_heading(&mut page, "//!", "The view of the oneof `$name$`.");
    page.fill("text", "$heading$$clauses$$imports$");
    page.append("text", ENUM);
    page.append("text", if is_written { WRITTEN } else { "" });
    page.append("text", "$variants$");
    page.finish("text")
}
