//! The code of a message as a struct for C.
use crate::struct_calls::{CALLS, HEADS};
use crate::struct_fields::has_no_bytes;
use crate::struct_heads::put_heads;
use crate::struct_parts::put_fields;
use crate::struct_ranges::set_has;
use crate::struct_trees::StructTrees;
use wire_definitions::{
    WIDTH, code_imports, ghost_imports, put_comment, put_field_comment, set_heading,
};
use wire_schema::{Field, GenerateError, MessageType, Schema, Template, Words};

// The widest fields of a struct that stand on one line.
const SHORT: usize = 18;

const USES: &str = "\
wire_codec DecodeContext
wire_codec DecodeError
wire_codec EncodeError
wire_codec EncodeSink
wire_codec Tag
wire_structs FieldNumbers
wire_structs MessageStruct
wire_structs SliceInC
wire_structs StructPart
wire_structs next_unknown_status
wire_structs pass_by
wire_structs read_status
wire_structs refused_status
wire_structs size_keeping
wire_structs write_keeping
wire_structs write_status
wire_structs written_size
";

const ONEOF_ARM: &str = "            $number$ => self.$field$.merge(tag, buf, context),\n";

// Of a struct in which nothing stays where it was read: what it borrows from has to be told.
const NO_BYTES: [Template; 2] = [
    (
        "declared",
        "    /// No bytes, as there is nothing else that is read in place.\n    \
        pub no_bytes: &'a [u8],\n",
    ),
    ("zeros", "            no_bytes: &[],\n"),
];

const OF_IMPLICIT: [Template; 2] = [
    (
        "declared",
        "$struct_bits$    pub $member$: $struct_held$,\n",
    ),
    ("zeros", "            $member$: $struct_zero$,\n"),
];

const ARM: &str =
    "            $number$ => merge_value::<$struct_kind$>(tag, &mut self.$field$, buf),\n";

const LONG_ARM: &str = "            $number$ => merge_value::<$struct_kind$>(
                tag,
                &mut self.$field$,
                buf,
            ),
";

const OPTIONAL_ARM: &str = "            $number$ => merge_optional::<$struct_kind$>\
    (tag, &mut self.has_$field$, &mut self.$field$, buf),\n";

const LONG_OPTIONAL_ARM: &str = "            $number$ => merge_optional::<$struct_kind$>(
                tag,
                &mut self.has_$field$,
                &mut self.$field$,
                buf,
            ),
";

const STRUCT_GHOSTS: &str = "\
Rattle.$crate$.specs.$name$InC $module$-shown
Rattle.$crate$.specs.$name$InC $module$-struct
Rattle.$crate$.specs.$name$InC $name$-IsZero
Rattle.$crate$.specs.$name$InC $name$-Shown
";

const STRUCT: &str = "\
#[repr(C)]
#[derive(Clone, Copy)]
pub struct $name$InC<'a> {
$declared$}

impl<'a> MessageStruct for $name$InC<'a> {
$ghost_imports$
    type Source = &'a [u8];

    ghost Value = { $name$-Shown };

    ghost view = { $module$-shown };

    ghost default = { $module$-struct.default };

    ghost takes = { $module$-struct.takes };

    ghost IsZero = { $name$-IsZero };

    ghost single = { $module$-struct.single };

    fn zero() -> $name$InC<'a> {
        $zero$
    }

    fn merge_field(
        &mut self,
        tag: Tag,
        buf: &mut &'a [u8],
        context: &mut DecodeContext,
    ) -> Result<(), DecodeError> {
        match tag.field_number() {
$arms$            _ => pass_by(tag, buf, context),
        }
    }
}
";

const NUMBERS: &str = "
impl<'a> FieldNumbers for $name$InC<'a> {
    ghost use Rattle.std.specs.Prelude.{◌≡◌};
    ghost use Rattle.wire_codec.specs.Field.{Payload};
    ghost use Rattle.$crate$.specs.$name$.{$module$-known};

    ghost owns = { $module$-known.owns };

    #[inline(always)]
    fn has(number: u32) -> bool
        ensures { (p : Payload) → $module$-known.owns number p ≡ result }
    {
$has$    }
}
";

const INSIDE_ARM: &str = "            $number$ => merge_optional_message::<$struct_kind$>\
    (tag, &mut self.has_$field$, &mut self.$field$, buf, context),\n";

const LONG_INSIDE_ARM: &str = "            $number$ => merge_optional_message::<$struct_kind$>(
                tag,
                &mut self.has_$field$,
                &mut self.$field$,
                buf,
                context,
            ),
";

const LIST_ARM: &str = "            $number$ => $call$::<$struct_kind$, $element_bytes$>\
    (tag, &mut self.$member$, buf, context),\n";

const LONG_LIST_ARM: &str = "            $number$ => $call$::<$struct_kind$, $element_bytes$>(
                tag,
                &mut self.$member$,
                buf,
                context,
            ),
";

const NUMBERS_ARM: &str =
    "            $number$ => merge_numbers_count::<$struct_kind$>(tag, &mut self.$member$, buf),\n";

const LONG_NUMBERS_ARM: &str = "            $number$ => merge_numbers_count::<$struct_kind$>(
                tag,
                &mut self.$member$,
                buf,
            ),
";

const WRITTEN: &str = "
impl<'a> WrittenStruct for $name$InC<'a> {
    ghost use Rattle.wire_codec.specs.Field.{Fields};
    ghost use Rattle.$crate$.specs.$name$.{$name$-Value, $module$-shape};
    ghost use Rattle.$crate$.specs.$name$InC.{$module$-written};

    ghost Value = { $name$-Value };

    ghost value = { λ m. $module$-written m Fields.none };

    ghost records = { $module$-shape.records };

    fn written_len(&self) -> u64 {
        ($name$InCFields { message: self }, ()).len()
    }

    fn put_records<E: EncodeSink>(&self, sink: &mut E) -> Result<(), EncodeError> {
        ($name$InCFields { message: self }, ()).put(sink)
    }
}
";

/// The module of the struct of a message, whose words the base has.
pub fn struct_code_of(
    base: &Words,
    schema: &Schema,
    message: &MessageType,
    fields: &[Field],
    trees: &StructTrees,
) -> Result<String, GenerateError> {
    let mut page = Words::like(base);
    page.set("uses", USES);
    for field in fields {
        put_field(&mut page, schema, field);
    }
    if has_no_bytes(fields) {
        page.append_all(&NO_BYTES);
    }
    if page.get("of_lists").is_empty() {
        page.append("uses", "wire_structs WrittenStruct\n");
    } else {
        page.append("uses", "crate::$module$_in_c_lists $name$InCLists\n");
    }
    set_has(&mut page, fields)?;
    code_imports(&mut page);
    page.set("full", message.words.get("full").trim_start_matches('.'));
    set_heading(&mut page, "//!", "The message `$full$` as a struct for C.");
    page.fill("ghosts", crate::struct_calls::GHOSTS);
    ghost_imports(&mut page, "");
    page.fill("text", "$heading$$ghost_imports$\n$imports$\n");
    match schema.comment(message.words.get("place")) {
        "" => page.append("text", "/// The message `$full$`.\n"),
        comment => put_comment(&mut page, "text", "", comment),
    }
    set_zero(&mut page);
    page.fill("ghosts", STRUCT_GHOSTS);
    ghost_imports(&mut page, "    ");
    page.append("text", STRUCT);
    page.append("text", NUMBERS);
    put_fields(&mut page, fields, trees)?;
    let has_lists = !page.get("of_lists").is_empty();
    page.append("text", if has_lists { "" } else { WRITTEN });
    put_heads(&mut page, &HEADS);
    page.append("text", CALLS);
    page.finish("text")
}

const OF_FIELD: [&str; 13] = [
    "field",
    "number",
    "at",
    "presence",
    "struct_held",
    "struct_zero",
    "struct_kind",
    "struct_code",
    "struct_bits",
    "call",
    "member",
    "element_bytes",
    "numbers",
];

// What there is for a field.
fn put_field(page: &mut Words, schema: &Schema, field: &Field) {
    page.copy(&field.words, &OF_FIELD);
    page.append("uses", "$struct_code$");
    let is_optional = !page.get("presence").is_empty();
    if is_optional {
        page.append("declared", "    pub has_$field$: bool,\n");
        page.append("zeros", "            has_$field$: false,\n");
    }
    if field.oneof.is_none() {
        put_field_comment(page, schema);
    }
    page.append_all(&OF_IMPLICIT);
    if field.oneof.is_some() {
        let numbers = page.take("numbers");
        for number in numbers.split(' ') {
            page.set("number", number);
            page.append("arms", ONEOF_ARM);
        }
        return;
    }
    let (arm, long_arm) = match page.get("call") {
        "merge_optional_message" => (INSIDE_ARM, LONG_INSIDE_ARM),
        "merge_count" | "merge_message_count" => (LIST_ARM, LONG_LIST_ARM),
        "merge_numbers_count" => (NUMBERS_ARM, LONG_NUMBERS_ARM),
        "merge_optional" => (OPTIONAL_ARM, LONG_OPTIONAL_ARM),
        _ => (ARM, LONG_ARM),
    };
    page.fill("arm", arm);
    let is_short = page.get("arm").len() <= WIDTH + 1;
    page.append("arms", if is_short { "$arm$" } else { long_arm });
}

// The struct of no records, on one line where its fields have room there.
fn set_zero(page: &mut Words) {
    page.set("zero_line", "");
    let zeros = page.take("zeros");
    for zero in zeros.split('\n') {
        page.set("one", zero.trim_start().trim_end_matches(','));
        let is_first = page.get("zero_line").is_empty() || page.get("one").is_empty();
        page.append("zero_line", if is_first { "" } else { ", " });
        page.append("zero_line", "$one$");
    }
    page.set("zeros", &zeros);
    let is_short = page.get("zero_line").chars().count() <= SHORT;
    page.fill(
        "zero",
        if is_short {
            "$name$InC { $zero_line$ }"
        } else {
            "$name$InC {\n$zeros$        }"
        },
    );
}
