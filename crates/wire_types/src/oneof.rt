//! The code of a oneof.
use wire_definitions::{
    OF_CLOSED_VARIANT, WIDTH, code_imports, ghost_imports, put_requirement, set_heading,
    use_variants,
};
use wire_schema::{GenerateError, Oneof, Template, Words};

const USES: &str = "\
bytes Buf
std::alloc Global
wire_codec DecodeContext
wire_codec DecodeError
wire_codec EncodeError
wire_codec EncodeSink
wire_codec SizeCache
wire_codec Tag
wire_codec laws
wire_fields Kind
wire_fields variants
";

const ENUM: &str = "
/// One of these, where one is there.
#[derive($derived$Debug, Drop, PartialEq)]
pub enum $name$ {
$declared$}

// The variants of `$name$`: their numbers, names and kinds.
macro_rules! rows {
    ($given$) => {
        variants!(
            $handed_on$
$rows$        )
    };
}
$clone$
/// The fields of the oneof, of which one stands at most.
pub struct $kind_name$;

impl Kind for $kind_name$ {
$ghost_imports$
    type Held = Option<$name$>;

    ghost Value = { $name$-Value };

    ghost view = { $module$-of };

    ghost kind = { $module$-kind };

    fn empty(_alloc: Global) -> Option<$name$> {
        None
    }

$len_head$        laws::flat_messages_have_no_sizes();
        rows!(len($name$, held, cache))
    }

    fn put<S: EncodeSink>(
        _number: u32,
        held: &Option<$name$>,
        cache: &mut SizeCache,
        sink: &mut S,
    ) -> Result<(), EncodeError> {
        laws::flat_messages_have_no_sizes();
        rows!(put($name$, held, cache, sink))
    }

    fn merge<B: Buf>(
        alloc: Global,
        tag: Tag,
        held: &mut Option<$name$>,
        buf: &mut B,
        context: &mut DecodeContext,
    ) -> Result<(), DecodeError> {
        rows!(merge($name$, alloc, tag, held, buf, context))
    }

    fn clear(held: &mut Option<$name$>) {
        *held = None;
    }
}
";

const KIND_GHOSTS: &str = "\
Rattle.$crate$.specs.$name$ $name$-Value
Rattle.$crate$.specs.$name$ $module$-kind
Rattle.$crate$.specs.$name$ $module$-of
";

// (a copy is seen as its source is)
const CLONE: &str = "
impl Clone for $name$ {
    ghost use Rattle.std.specs.Prelude.{◌≡◌};
    ghost use Rattle.$crate$.specs.$name$.{$module$-one};

    ghost is_clone = { λ m copy. $module$-one copy ≡ $module$-one m };

    fn clone(&self) -> Result<$name$, AllocError> {
        rows!(copied($name$, self))
    }
}

impl Twin for $name$ {
$ghost_imports$
    ghost Seen = { $name$-One };

    ghost seen = { $module$-one };

    ghost same = { λ m copy e. e };
}
";

const CLONE_GHOSTS: &str = "\
Rattle.$crate$.specs.$name$ $name$-One
Rattle.$crate$.specs.$name$ $module$-one
";

const LEN: &str = "    \
    fn len(_number: u32, held: &Option<$name$>, cache: &mut SizeCache) -> Result<u64, EncodeError> {
";

const LONG_LEN: &str = "    \
    fn len(
        _number: u32,
        held: &Option<$name$>,
        cache: &mut SizeCache,
    ) -> Result<u64, EncodeError> {
";

// The last row has all other numbers too.
const OF_VARIANT: [Template; 3] = [
    ("declared", "    $variant$($held$),\n"),
    (
        "rows",
        "            $digits$$others$ => $variant$: $presence$<$kind$>,\n",
    ),
    ("uses", "$code$wire_fields $presence$\n"),
];

/// The module of a oneof, whose words the base has.
pub fn oneof_code(base: &Words, oneof: &Oneof, is_twin: bool) -> Result<String, GenerateError> {
    let mut page = Words::like(base);
    page.set("given", "$($call:tt)*");
    page.set("handed_on", "$($call)*");
    page.fill("uses", USES);
    let last = oneof.variants.len().saturating_sub(1);
    for (place, variant) in oneof.variants.iter().enumerate() {
        page.copy(
            variant,
            &[
                "variant", "word", "digits", "held", "kind", "presence", "code", "closed",
                "of_name",
            ],
        );
        page.set("others", if place == last { " | _" } else { "" });
        page.append_all(&OF_VARIANT);
        if !page.get("closed").is_empty() {
            page.append_all(&OF_CLOSED_VARIANT);
        }
    }
    use_variants(&mut page, oneof);
    set_clone(&mut page, is_twin);
    page.fill("len_head", LEN);
    // (its line's end counted)
    if page.get("len_head").len() > WIDTH + 1 {
        page.fill("len_head", LONG_LEN);
    }
    set_clauses(&mut page);
    code_imports(&mut page);
    set_heading(&mut page, "//!", "The oneof `$name$`.");
    page.fill("text", "$heading$$clauses$$imports$");
    page.fill("ghosts", KIND_GHOSTS);
    ghost_imports(&mut page, "    ");
    page.append_all(&[("text", ENUM), ("text", "$variants$")]);
    put_requirement(&mut page);
    page.finish("text")
}

/// What the clauses of the functions of closed enums bring in, where there are such.
pub fn set_clauses(page: &mut Words) {
    page.set("clauses", "");
    if !page.get("variants").is_empty() {
        ghost_imports(page, "");
        page.fill("clauses", "$ghost_imports$\n");
    }
}

// The clone, which is derived where a value of a variant has no copy that is seen as its source is.
fn set_clone(page: &mut Words, is_twin: bool) {
    page.set("derived", if is_twin { "" } else { "Clone, " });
    page.set("clone", "");
    if is_twin {
        page.append("uses", "std::alloc AllocError\nwire_fields Twin\n");
        let ghosts = page.take("ghosts");
        page.fill("ghosts", CLONE_GHOSTS);
        ghost_imports(page, "    ");
        page.fill("clone", CLONE);
        page.set("ghosts", &ghosts);
    }
}
