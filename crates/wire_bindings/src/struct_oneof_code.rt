//! The code of a oneof as a struct for C.
use crate::struct_fields::has_no_bytes_in;
use crate::struct_oneof::is_message;
use wire_definitions::{code_imports, ghost_imports, put_comment, set_heading};
use wire_schema::{GenerateError, Oneof, Schema, Template, Words};

const USES: &str = "\
wire_codec DecodeContext
wire_codec DecodeError
wire_codec EncodeError
wire_codec EncodeSink
wire_codec Tag
wire_codec laws
wire_structs StructPart
";

const HEAD_GHOSTS: &str = "\
Rattle.std.specs.Prelude OnErr
Rattle.std.specs.Prelude OnOk
Rattle.std.specs.Prelude ◌≡◌
Rattle.wire_codec.specs.TagView tag_number
Rattle.wire_codec.specs.TagView tag_type
Rattle.wire_codec.specs.Taking IsCharged
Rattle.wire_codec.specs.Taking NotTaken
Rattle.wire_codec.specs.Taking TakesRecord
Rattle.$crate$.specs.$name$InC $module$-shown
Rattle.$crate$.specs.$name$InC $module$-struct
Rattle.$crate$.specs.$name$InC $name$-IsZero
";

// Of a message among the variants.
const MESSAGE_GHOSTS: &str = "\
Rattle.wire_fields.specs.Messages or_else
$of_in_c$ $of_module$-shown
$of_in_c$ $of_module$-struct
Rattle.$crate$.specs.$name$InC $word$-of-$module$-shown-as
";

const PART_GHOSTS: &str = "\
Rattle.$crate$.specs.$name$ $module$-shape
Rattle.$crate$.specs.$name$InC $module$-written
";

const STRUCT: &str = "\
#[repr(C)]
#[derive(Clone, Copy)]
pub struct $name$InC<'a> {
    /// The number of the field that stands, or 0. The others are zero.
    pub which: u32,
$declared$}

impl<'a> $name$InC<'a> {
    /// The oneof of no records.
    pub(crate) fn zero() -> $name$InC<'a>
        ensures value { $module$-shown result ≡ $module$-struct.default }
        ensures zero { $name$-IsZero result }
    {
        $name$InC {
            which: 0,
$zeros$        }
    }

    // Makes this field the one that stands: with the value that it has, or with that of no records.
    fn stand(&mut self, number: u32)
        ensures which { self.new.which ≡ number }
$stood$    {
        if self.which != number {
            *self = $name$InC::zero();
            self.which = number;
        }
    }

    /// Takes the record of one of the fields behind this tag, which stands then. Refused as the
    /// fields are.
    pub(crate) fn merge(
        &mut self,
        tag: Tag,
        buf: &mut &'a [u8],
        context: &mut DecodeContext,
    ) -> Result<(), DecodeError>
        ensures ok { OnOk result (IsCharged context.old context.new (λ c.
            TakesRecord $module$-struct.takes context.old (tag_number tag) (tag_type tag)
            ($module$-shown self.old) buf.old.now c ($module$-shown self.new) buf.new.now)) }
        ensures err { OnErr result (NotTaken
            (TakesRecord $module$-struct.takes context.old (tag_number tag) (tag_type tag)
            ($module$-shown self.old) buf.old.now)) }
    {
$merged$    }
}

/// The field that stands, as it is written; none where `which` is no field's number.
#[derive(Drop)]
pub struct $name$InCPart<'h, 'a> {
    pub oneof: &'h $name$InC<'a>,
}

impl<'h, 'a> StructPart for $name$InCPart<'h, 'a> {
$ghost_imports$
    ghost records = { λ f. $module$-shape.records ($module$-written f.oneof.now) };

    fn len(&self) -> u64 {
        let oneof = self.oneof;
        match oneof.which {
$lens$            _ => 0,
        }
    }

    fn put<E: EncodeSink>(&self, sink: &mut E) -> Result<(), EncodeError> {
        laws::piece_by_piece();
        let oneof = self.oneof;
        match oneof.which {
$puts$            _ => Ok(()),
        }
    }
}
";

const OF_VARIANT: [Template; 3] = [
    ("uses", "$struct_code$"),
    ("declared", "$struct_bits$    pub $field$: $struct_held$,\n"),
    ("zeros", "            $field$: $struct_zero$,\n"),
];

// How the record of a variant is taken, and how it is written.
const OF_SCALAR: [Template; 3] = [
    (
        "taken",
        "self.stand($digits$);\nmerge_value::<$struct_kind$>(tag, &mut self.$field$, buf)\n",
    ),
    (
        "lens",
        "            $digits$ => always_part::<$struct_kind$>($digits$, &oneof.$field$).len(),\n",
    ),
    (
        "puts",
        "            $digits$ => always_part::<$struct_kind$>($digits$, &oneof.$field$).put(sink),\n",
    ),
];

const OF_MESSAGE: [Template; 5] = [
    (
        "taken",
        "self.stand($digits$);\n\
        merge_message::<$struct_kind$>(tag, &mut self.$field$, buf, context)\n",
    ),
    (
        "lens",
        "            $digits$ => message_len($digits$, &oneof.$field$),\n",
    ),
    (
        "puts",
        "            $digits$ => put_message($digits$, &oneof.$field$, sink),\n",
    ),
    (
        "stood",
        "        ensures of_$digits$ { number ≡ $digits$ → $of_module$-shown self.new.$field$\n            \
        ≡ or_else $of_module$-struct.default\n            \
        ($word$-of-$module$-shown-as ($module$-shown self.old)) }\n",
    ),
    ("head_ghosts", MESSAGE_GHOSTS),
];

// Where nothing stays where it was read.
const NO_BYTES: [Template; 2] = [
    (
        "declared",
        "    /// No bytes, as there is nothing else that is read in place.\n    \
        pub no_bytes: &'a [u8],\n",
    ),
    ("zeros", "            no_bytes: &[],\n"),
];

/// The module of a oneof, whose words the base has.
pub fn oneof_in_c_code_of(
    base: &Words,
    schema: &Schema,
    oneof: &Oneof,
) -> Result<String, GenerateError> {
    let mut page = Words::like(base);
    page.fill("uses", USES);
    page.fill_all(&[("head_ghosts", HEAD_GHOSTS), ("merged", "")]);
    let last = oneof.variants.len().saturating_sub(1);
    for (place, variant) in oneof.variants.iter().enumerate() {
        put_variant(&mut page, schema, variant);
        put_merged(&mut page, place, last);
    }
    if has_no_bytes_in(&oneof.variants) {
        page.append_all(&NO_BYTES);
    }
    if last > 0 {
        page.fill(
            "merged",
            "        match tag.field_number() {\n$merged$        }\n",
        );
    }
    code_imports(&mut page);
    page.fill("ghosts", "$head_ghosts$");
    ghost_imports(&mut page, "");
    set_heading(&mut page, "//!", "The oneof `$name$` as a struct for C.");
    page.fill("text", "$heading$$ghost_imports$\n$imports$\n");
    match schema.comment(base.get("place")) {
        "" => page.append("text", "/// One of these, where one is there.\n"),
        comment => put_comment(&mut page, "text", "", comment),
    }
    page.fill("ghosts", PART_GHOSTS);
    ghost_imports(&mut page, "    ");
    page.append("text", STRUCT);
    page.finish("text")
}

// What there is for a variant.
fn put_variant(page: &mut Words, schema: &Schema, variant: &Words) {
    page.copy(
        variant,
        &[
            "word",
            "field",
            "digits",
            "of_module",
            "of_in_c",
            "struct_kind",
            "struct_held",
            "struct_zero",
            "struct_bits",
            "struct_code",
        ],
    );
    put_comment(
        page,
        "declared",
        "    ",
        schema.comment(variant.get("comment_place")),
    );
    page.append_all(&OF_VARIANT);
    page.set("taken", "");
    page.append_all(if is_message(variant) {
        &OF_MESSAGE
    } else {
        &OF_SCALAR
    });
}

// How its record is taken, as an arm where there are several; the last has all other numbers too.
fn put_merged(page: &mut Words, place: usize, last: usize) {
    page.set("arm", if place == last { "_" } else { "" });
    if place < last {
        page.fill("arm", "$digits$");
    }
    let columns = if last == 0 { 4 } else { 8 };
    for _ in 0..columns {
        page.indent("taken");
    }
    page.append(
        "merged",
        if last == 0 {
            "$taken$"
        } else {
            "            $arm$ => {\n$taken$            }\n"
        },
    );
}
