//! The calls of the static library of a schema's structs.
use crate::package::Package;
use wire_bindings::struct_heads::{Head, put_heads};
use wire_bindings::struct_lists::{NEXT, NEXT_GHOSTS, NEXT_HEAD, set_list_words};
use wire_bindings::struct_numbers::{NEXT_NUMBER, NEXT_NUMBER_GHOSTS, set_number_export};
use wire_definitions::{code_imports, ghost_imports, set_heading};
use wire_schema::{Field, GenerateError, Template, Words};

const GHOSTS: &str = "\
Rattle.std.specs.Prelude length
Rattle.std.specs.Prelude ◌<◌
Rattle.std.specs.Prelude ◌≡◌
Rattle.std.specs.Prelude ◌≢◌
Rattle.std.specs.Prelude []
Rattle.wire_base.specs.WriteLaws FillsSlice
Rattle.wire_codec.specs.Field Fields
Rattle.wire_codec.specs.Options default_limits
Rattle.wire_codec.specs.Taking NotDecoded
Rattle.wire_fields.specs.Numbers in_64_bits
Rattle.wire_fields.specs.Shape NotDecodedAs
Rattle.wire_structs.specs.Refused IsDecoded
Rattle.wire_structs.specs.Refused IsRefusedAt
Rattle.wire_structs.specs.Unknown HasStatus
Rattle.wire_structs.specs.Unknown OfUnknown
Rattle.wire_structs.specs.UnknownWalks GivesUnknown
Rattle.wire_structs.specs.UnknownWalks HasNoUnknown
Rattle.wire_structs.specs.Within DecodesSeen
Rattle.wire_structs.specs.Within within_numbers
Rattle.$crate$.specs.$name$ $module$-known
Rattle.$crate$.specs.$name$ $module$-shape
Rattle.$crate$.specs.$name$InC $module$-encoding
Rattle.$crate$.specs.$name$InC $module$-seen
Rattle.$crate$.specs.$name$InC $module$-shown
Rattle.$crate$.specs.$name$InC $name$-IsZero
";

const USES: &str = "\
wire_read::numbers LimitNumbers
wire_structs SliceInC
wire_structs context_within
wire_structs default_context
$crate$::$module$_in_c $module$_fault
$crate$::$module$_in_c $module$_size
$crate$::$module$_in_c $module$_size_keeping
$crate$::$module$_in_c $module$_unknown_record
$crate$::$module$_in_c $name$InC
$crate$::$module$_in_c read_$module$
$crate$::$module$_in_c write_$module$
$crate$::$module$_in_c write_$module$_keeping
";

// The heads of the calls.
const HEADS: [Head; 9] = [
    [
        "read_head",
        "pub extern \"C\" fn $c_name$_read<'a>",
        "bytes: &'a [u8]; message: &mut $name$InC<'a>",
        "u32",
    ],
    [
        "within_head",
        "pub extern \"C\" fn $c_name$_read_within<'a>",
        "bytes: &'a [u8]; limits: &LimitNumbers; message: &mut $name$InC<'a>",
        "u32",
    ],
    [
        "fault_head",
        "pub extern \"C\" fn $c_name$_fault",
        "bytes: &[u8]; place: &mut usize",
        "u32",
    ],
    [
        "fault_within_head",
        "pub extern \"C\" fn $c_name$_fault_within",
        "bytes: &[u8]; limits: &LimitNumbers; place: &mut usize",
        "u32",
    ],
    [
        "unknown_head",
        "pub extern \"C\" fn $c_name$_unknown_record<'a>",
        "walk: &mut SliceInC<'a>; element: &mut SliceInC<'a>",
        "u32",
    ],
    [
        "size_head",
        "pub extern \"C\" fn $c_name$_size",
        "message: &$name$InC<'_>$lists_more$",
        "usize",
    ],
    [
        "write_head",
        "pub extern \"C\" fn $c_name$_write",
        "message: &$name$InC<'_>$lists_more$; room: &mut [u8]; len: &mut usize",
        "u32",
    ],
    [
        "measure_head",
        "pub extern \"C\" fn $c_name$_size_keeping",
        "message: &$name$InC<'_>$lists_more$; bytes: &[u8]; len: &mut usize",
        "u32",
    ],
    [
        "keep_head",
        "pub extern \"C\" fn $c_name$_write_keeping",
        "message: &$name$InC<'_>$lists_more$; bytes: &[u8]; room: &mut [u8]; len: &mut usize",
        "u32",
    ],
];

const CALLS: &str = "\
$heading$$ghost_imports$
$imports$
/// Sets the struct to what all of the bytes are, within the limits of `Message::decode`: 0, exactly
/// where they are such a message. Else the number of the error, and the struct is zero.
#[unsafe(no_mangle)]
$read_head$
    ensures ok { result ≡ 0 → DecodesSeen $module$-shape $module$-seen default_limits
        bytes.now ($module$-shown message.new) }
    ensures err { result ≢ 0 → NotDecodedAs $module$-shape bytes.now }
    ensures zero { result ≢ 0 → $name$-IsZero message.new }
{
    let mut context = default_context();
    read_$module$(bytes, &mut context, message)
}

/// The same within limits that the caller names, of whose levels no more than 100 are given.
#[unsafe(no_mangle)]
$within_head$
    ensures ok { result ≡ 0 → DecodesSeen $module$-shape $module$-seen
        (within_numbers limits.now) bytes.now ($module$-shown message.new) }
    ensures err { result ≢ 0 → NotDecoded $module$-shape.takes (within_numbers limits.now)
        $module$-shape.default bytes.now }
    ensures zero { result ≢ 0 → $name$-IsZero message.new }
{
    let mut context = context_within(limits);
    read_$module$(bytes, &mut context, message)
}

/// Looks whether all of the bytes are such a message, within the limits of `Message::decode`: 0,
/// exactly where they are, and the place is behind the last byte. Else the number of the error, and
/// the place is the byte at which the first record begins that is not taken.
#[unsafe(no_mangle)]
$fault_head$
    ensures ok { result ≡ 0 → IsDecoded $module$-shape default_limits bytes.now }
    ensures behind { result ≡ 0 → place.new ≡ length bytes.now }
    ensures err { result ≢ 0 → NotDecodedAs $module$-shape bytes.now }
    ensures place { result ≢ 0 → IsRefusedAt $module$-shape default_limits bytes.now place.new }
{
    let mut context = default_context();
    $module$_fault(bytes, &mut context, place)
}

/// The same within limits that the caller names, of whose levels no more than 100 are given.
#[unsafe(no_mangle)]
$fault_within_head$
    ensures ok { result ≡ 0 → IsDecoded $module$-shape (within_numbers limits.now) bytes.now }
    ensures behind { result ≡ 0 → place.new ≡ length bytes.now }
    ensures err { result ≢ 0 → NotDecoded $module$-shape.takes (within_numbers limits.now)
        $module$-shape.default bytes.now }
    ensures place { result ≢ 0 → IsRefusedAt $module$-shape (within_numbers limits.now)
        bytes.now place.new }
{
    let mut context = context_within(limits);
    $module$_fault(bytes, &mut context, place)
}

/// Gives the next of the records of the walk that no field of the message owns, as it came, its tag
/// and a group whole: 0, and the walk begins behind it; 1 where none is left; else the number of
/// the error, where the bytes are no records up to the next such, or nest more than 100 groups.
/// Without 0 the walk stays, and the element is of no bytes.
#[unsafe(no_mangle)]
$unknown_head$
    ensures given { result ≡ 0 → GivesUnknown $module$-known.owns walk.old.bytes.now
        element.new.bytes.now walk.new.bytes.now }
    ensures ended { result ≡ 1 → HasNoUnknown $module$-known.owns walk.old.bytes.now }
    ensures other { result ≢ 0 → result ≢ 1 → HasStatus walk.old.bytes.now result }
    ensures stays { result ≢ 0 → walk.new ≡ walk.old }
    ensures empty { result ≢ 0 → element.new.bytes.now ≡ [] }
{
    $module$_unknown_record(walk, element)
}

/// How many bytes the encoding of what the struct shows takes, each record in its shortest form, or
/// `SIZE_MAX` where it is more.
#[unsafe(no_mangle)]
$size_head$
    ensures { result ≡ in_64_bits (length ($module$-encoding message.now$of_lists$ Fields.none)) }
{
    $module$_size(message$lists_field$)
}

/// Writes the encoding of what the struct shows at the front of the room, and tells how many bytes
/// it takes, or `SIZE_MAX` where it is more: 0, or 32 exactly where the room has fewer, and then the
/// room stays.
#[unsafe(no_mangle)]
$write_head$
    ensures len { len.new ≡ in_64_bits (length ($module$-encoding message.now$of_lists$ Fields.none)) }
    ensures ok { result ≡ 0 → FillsSlice ($module$-encoding message.now$of_lists$ Fields.none) 0
        room.old room.new len.new }
    ensures no_room { result ≢ 0 → (result ≡ 32) × (length room.old
        < length ($module$-encoding message.now$of_lists$ Fields.none)) }
    ensures stays { result ≢ 0 → room.new ≡ room.old }
{
    write_$module$(message$lists_field$, room, len)
}

/// How many bytes the encoding takes of what the struct shows and of the unknown fields of these bytes
/// behind it, or `SIZE_MAX` where it is more: 0. Else the number of the error, exactly where the
/// bytes are no records, or these nest more than 100 groups, and the length is 0.
#[unsafe(no_mangle)]
$measure_head$
    ensures ok { result ≡ 0 → OfUnknown $module$-known.owns bytes.now (λ fs.
        len.new ≡ in_64_bits (length ($module$-encoding message.now$of_lists$ fs))) }
    ensures fault { result ≢ 0 → HasStatus bytes.now result × (len.new ≡ 0) }
{
    $module$_size_keeping(message$lists_field$, bytes, len)
}

/// Writes that encoding at the front of the room, and tells how many bytes it takes, or `SIZE_MAX`
/// where it is more: 0, or 32 exactly where the room has fewer. Else refused as
/// `$c_name$_size_keeping`. Where it answers no 0 the room stays.
#[unsafe(no_mangle)]
$keep_head$
    ensures ok { result ≡ 0 → OfUnknown $module$-known.owns bytes.now (λ fs.
        FillsSlice ($module$-encoding message.now$of_lists$ fs) 0 room.old room.new len.new) }
    ensures no_room { result ≡ 32 → OfUnknown $module$-known.owns bytes.now (λ fs.
        (len.new ≡ in_64_bits (length ($module$-encoding message.now$of_lists$ fs)))
        × (length room.old < length ($module$-encoding message.now$of_lists$ fs))) }
    ensures fault { result ≢ 0 → result ≢ 32 → HasStatus bytes.now result × (len.new ≡ 0) }
    ensures stays { result ≢ 0 → room.new ≡ room.old }
{
    write_$module$_keeping(message$lists_field$, bytes, room, len)
}
$nexts$";

// Each call whose limits are told by another call's contract, that call, and what it makes.
const ANSWERED: [[&str; 3]; 4] = [
    ["read", "default_context", "read_$module$"],
    ["read_within", "context_within", "read_$module$"],
    ["fault", "default_context", "$module$_fault"],
    ["fault_within", "context_within", "$module$_fault"],
];

const ANSWERS: &str = "\
use Rattle.$crate$_c.proofs.$module$.$c_name$_$call$.Goals as goal

pub returns-clause-err : goal.returns-clause-err
returns-clause-err c = rw c.$limits_call$-context.ensures at c.$made_call$.ensures.err
";

const OF_LIST: [Template; 3] = [
    ("nexts", NEXT),
    ("ghosts", NEXT_GHOSTS),
    (
        "uses",
        "$crate$::$module$_in_c_lists next_$module$_$field$\nwire_structs SliceInC\n",
    ),
];

const OF_NUMBERS: [Template; 3] = [
    ("nexts", NEXT_NUMBER),
    ("ghosts", NEXT_NUMBER_GHOSTS),
    (
        "uses",
        "$crate$::$module$_in_c_lists next_$module$_$field$\nwire_structs NumbersWalk\n",
    ),
];

impl Package {
    /// The calls of a message in the library.
    pub(crate) fn add_exports(
        &mut self,
        page: &Words,
        fields: &[Field],
    ) -> Result<(), GenerateError> {
        let mut page = Words::like(page);
        page.fill_all(&[
            ("c_name", "$c$_$module$"),
            ("ghosts", GHOSTS),
            ("uses", USES),
        ]);
        for field in fields {
            if field.words.get("is_mixed") == "list" {
                set_list_words(&mut page, &field.words);
                if !page.get("is_of_numbers").is_empty() {
                    set_number_export(&mut page);
                    page.append_all(&OF_NUMBERS);
                    continue;
                }
                put_heads(&mut page, &NEXT_HEAD);
                page.append_all(&OF_LIST);
            }
        }
        if !page.get("of_lists").is_empty() {
            page.append("uses", "$crate$::$module$_in_c_lists $name$InCLists\n");
        }
        ghost_imports(&mut page, "");
        code_imports(&mut page);
        put_heads(&mut page, &HEADS);
        set_heading(&mut page, "//!", "The calls of `$name$InC`.");
        page.fill("text", CALLS);
        let code = page.finish("text")?;
        self.add_beside(&mut page, "src/$module$.rt", code)?;
        for [call, limits, made] in ANSWERED {
            page.set("call", call);
            page.set("limits_call", limits);
            page.fill("made_call", made);
            page.fill("answers", ANSWERS);
            let answers = page.finish("answers")?;
            let path = "proofs/$module$/$c_name$_$call$/Answers.antt";
            self.add_beside(&mut page, path, answers)?;
        }
        Ok(())
    }

    /// A file of the library's folder.
    pub(crate) fn add_beside(
        &mut self,
        page: &mut Words,
        path: &str,
        content: String,
    ) -> Result<(), GenerateError> {
        self.base.fill("crate_folder", "$crate$_$beside$/");
        self.base.ended()?;
        let added = self.add(page, path, content);
        self.base.fill("crate_folder", "$crate$/");
        self.base.ended()?;
        added
    }

    /// The module of a message in the Rust crate.
    pub(crate) fn add_rust(&mut self, page: &mut Words, text: String) -> Result<(), GenerateError> {
        self.add_beside(page, "rust/src/$module$.rs", text)
    }
}
