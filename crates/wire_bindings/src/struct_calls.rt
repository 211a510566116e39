//! The calls that read and write the struct of a message.
use crate::struct_heads::Head;
use wire_schema::Template;

/// The names that their contracts bring in.
pub const GHOSTS: &str = "\
Rattle.std.specs.Prelude length
Rattle.std.specs.Prelude ◌<◌
Rattle.std.specs.Prelude ◌≡◌
Rattle.std.specs.Prelude ◌≢◌
Rattle.std.specs.Prelude []
Rattle.wire_base.specs.WriteLaws FillsSlice
Rattle.wire_codec.specs.Field Fields
Rattle.wire_codec.specs.Taking NotDecoded
Rattle.wire_fields.specs.Numbers in_64_bits
Rattle.wire_structs.specs.Refused IsDecoded
Rattle.wire_structs.specs.Refused IsRefusedAt
Rattle.wire_structs.specs.Unknown HasStatus
Rattle.wire_structs.specs.Unknown OfUnknown
Rattle.wire_structs.specs.UnknownWalks GivesUnknown
Rattle.wire_structs.specs.UnknownWalks HasNoUnknown
Rattle.wire_structs.specs.Within DecodesSeen
Rattle.$crate$.specs.$name$ $module$-known
Rattle.$crate$.specs.$name$ $module$-shape
Rattle.$crate$.specs.$name$InC $module$-encoding
Rattle.$crate$.specs.$name$InC $module$-seen
Rattle.$crate$.specs.$name$InC $module$-shown
Rattle.$crate$.specs.$name$InC $name$-IsZero
";

/// Their heads.
pub const HEADS: [Head; 7] = [
    [
        "read_head",
        "pub fn read_$module$<'a>",
        "bytes: &'a [u8]; context: &mut DecodeContext; message: &mut $name$InC<'a>",
        "u32",
    ],
    [
        "fault_head",
        "pub fn $module$_fault<'a>",
        "bytes: &'a [u8]; context: &mut DecodeContext; place: &mut usize",
        "u32",
    ],
    [
        "unknown_head",
        "pub fn $module$_unknown_record<'a>",
        "walk: &mut SliceInC<'a>; element: &mut SliceInC<'a>",
        "u32",
    ],
    [
        "size_head",
        "pub fn $module$_size",
        "message: &$name$InC<'_>$lists_more$",
        "usize",
    ],
    [
        "write_head",
        "pub fn write_$module$",
        "message: &$name$InC<'_>$lists_more$; room: &mut [u8]; len: &mut usize",
        "u32",
    ],
    [
        "measure_head",
        "pub fn $module$_size_keeping",
        "message: &$name$InC<'_>$lists_more$; bytes: &[u8]; len: &mut usize",
        "u32",
    ],
    [
        "keep_head",
        "pub fn write_$module$_keeping",
        "message: &$name$InC<'_>$lists_more$; bytes: &[u8]; room: &mut [u8]; len: &mut usize",
        "u32",
    ],
];

/// The calls themselves.
pub const CALLS: &str = "
/// Sets the struct to what all of the bytes are as its message, within the limits of the context,
/// whatever it held before: 0, exactly where they are such a message; else the number of the error,
/// and the struct is zero.
$read_head$
    ensures ok { result ≡ 0 → DecodesSeen $module$-shape $module$-seen context.old
        bytes.now ($module$-shown message.new) }
    ensures err { result ≢ 0 → NotDecoded $module$-shape.takes context.old
        $module$-shape.default bytes.now }
    ensures zero { result ≢ 0 → $name$-IsZero message.new }
{
    read_status(message, bytes, context)
}

/// Looks whether all of the bytes are its message, within the limits of the context: 0, exactly
/// where they are, and the place is behind the last byte; else the number of the error, and the
/// place is the byte at which the first record begins that is not taken.
$fault_head$
    ensures ok { result ≡ 0 → IsDecoded $module$-shape context.old bytes.now }
    ensures behind { result ≡ 0 → place.new ≡ length bytes.now }
    ensures err { result ≢ 0 → NotDecoded $module$-shape.takes context.old
        $module$-shape.default bytes.now }
    ensures place { result ≢ 0 → IsRefusedAt $module$-shape context.old bytes.now place.new }
{
    refused_status::<$name$InC<'a>>(bytes, context, place)
}

/// Gives the next of the records of the walk that no field of the message owns, as it came, its tag
/// and a group whole: 0, and the walk begins behind it; 1 where none is left; else the number of
/// the error, where the bytes are no records up to the next such, or nest more than 100 groups.
/// Without 0 the walk stays, and the element is of no bytes.
$unknown_head$
    ensures given { result ≡ 0 → GivesUnknown $module$-known.owns walk.old.bytes.now
        element.new.bytes.now walk.new.bytes.now }
    ensures ended { result ≡ 1 → HasNoUnknown $module$-known.owns walk.old.bytes.now }
    ensures other { result ≢ 0 → result ≢ 1 → HasStatus walk.old.bytes.now result }
    ensures stays { result ≢ 0 → walk.new ≡ walk.old }
    ensures empty { result ≢ 0 → element.new.bytes.now ≡ [] }
{
    next_unknown_status::<$name$InC<'a>>(walk, element)
}

/// How many bytes the encoding of what a struct shows takes, each record in its shortest form, or
/// `usize::MAX` where it is more.
$size_head$
    ensures { result ≡ in_64_bits (length ($module$-encoding message.now$of_lists$ Fields.none)) }
{
    written_size(($name$InCFields { message$lists_field$ }, ()))
}

/// Writes the encoding of what a struct shows at the front of the room, and tells how many bytes it
/// takes, or `usize::MAX` where it is more: 0, or 32 exactly where the room has fewer, and then the
/// room stays.
$write_head$
    ensures len { len.new ≡ in_64_bits (length ($module$-encoding message.now$of_lists$ Fields.none)) }
    ensures ok { result ≡ 0 → FillsSlice ($module$-encoding message.now$of_lists$ Fields.none) 0
        room.old room.new len.new }
    ensures no_room { result ≢ 0 → (result ≡ 32) × (length room.old
        < length ($module$-encoding message.now$of_lists$ Fields.none)) }
    ensures stays { result ≢ 0 → room.new ≡ room.old }
{
    write_status(($name$InCFields { message$lists_field$ }, ()), room, len)
}

/// How many bytes the encoding takes of what a struct shows and of the unknown fields of these bytes
/// behind it, or `usize::MAX` where it is more: 0. Else the number of the error, exactly where the
/// bytes are no records, or these nest more than 100 groups, and the length is 0.
$measure_head$
    ensures ok { result ≡ 0 → OfUnknown $module$-known.owns bytes.now (λ fs.
        len.new ≡ in_64_bits (length ($module$-encoding message.now$of_lists$ fs))) }
    ensures fault { result ≢ 0 → HasStatus bytes.now result × (len.new ≡ 0) }
{
    let fields = $name$InCFields { message$lists_field$ };
    size_keeping::<$name$InC<'_>, _>(fields, bytes, len)
}

/// Writes that encoding at the front of the room, and tells how many bytes it takes: 0, or 32
/// exactly where the room has fewer. Else refused as `$module$_size_keeping`. Where it answers no 0
/// the room stays.
$keep_head$
    ensures ok { result ≡ 0 → OfUnknown $module$-known.owns bytes.now (λ fs.
        FillsSlice ($module$-encoding message.now$of_lists$ fs) 0 room.old room.new len.new) }
    ensures no_room { result ≡ 32 → OfUnknown $module$-known.owns bytes.now (λ fs.
        (len.new ≡ in_64_bits (length ($module$-encoding message.now$of_lists$ fs)))
        × (length room.old < length ($module$-encoding message.now$of_lists$ fs))) }
    ensures fault { result ≢ 0 → result ≢ 32 → HasStatus bytes.now result × (len.new ≡ 0) }
    ensures stays { result ≢ 0 → room.new ≡ room.old }
{
    let fields = $name$InCFields { message$lists_field$ };
    write_keeping::<$name$InC<'_>, _>(fields, bytes, room, len)
}
";

/// Why a struct is read just where its message is.
pub const SHOWS: &str = "\
$heading$$imports$
pub $module$-shows : ShowsShape $module$-seen $module$-shape $module$-struct
$module$-shows =
    $shows$
$as_shown$";

/// Why what is seen of what is written is what is shown, where there are no lists.
pub const AS_SHOWN: &str = "
-- what is seen of what is written is what is shown
pub $module$-same : (m : $name$InC) (fs : Fields)
    → $module$-seen ($module$-written m fs) ≡ $module$-shown m
$module$-same m fs = $same$
";

pub const AS_SHOWN_USES: &str = "\
Rattle.std.proofs.Common ◌≡◌
Rattle.std.proofs.Common refl
Rattle.wire_codec.specs.Field Fields
Rattle.$crate$.specs.$name$InC $module$-shown
Rattle.$crate$.specs.$name$InC $module$-written
Rattle.$crate$.specs.declared.$module$_in_c.$name$InC $name$InC
";

pub const SHOWS_USES: &str = "\
Rattle.wire_fields.specs.Shape unknown
Rattle.wire_structs.proofs.Shown two_shown
Rattle.wire_structs.proofs.Shown unknown_shown
Rattle.wire_structs.specs.Passed passed_by
Rattle.wire_structs.specs.Showing ShowsShape
Rattle.$crate$.specs.$name$ $module$-shape
Rattle.$crate$.specs.$name$InC $module$-seen
Rattle.$crate$.specs.$name$InC $module$-struct
";

pub const SAME: &str = "two_shown (λ v. v) (λ fs. tt) $module$-known unknown $module$-known \
    passed_by\n    (same_shape $module$-known) unknown_shown";

pub const SAME_USES: &str = "\
Rattle.wire_structs.proofs.Shown same_shape
Rattle.$crate$.specs.$name$ $module$-known
";

pub const MIXED_USES: &str = "Rattle.wire_fields.specs.Shape same_pair\n";

pub const MIXED_SAME: &str = "same_pair _ _\n    ($stays$)\n    refl";

pub const MIXED: &str = "two_shown _ (λ fs. tt) _ unknown _ passed_by\n    \
    ($stays$)\n    unknown_shown";

pub const READ_ANSWERS: &str = "\
use Rattle.wire_structs.proofs.Shown.{decodes_back, not_decoded_back}
use Rattle.$crate$.proofs.$name$InCShows.{$module$-shows}
use Rattle.$crate$.specs.$name$.{$module$-shape}
use Rattle.$crate$.specs.$name$InC.{$module$-seen, $module$-struct}
use Rattle.$crate$.proofs.$module$_in_c.read_$module$.Goals as goal

pub returns-clause-ok : goal.returns-clause-ok
returns-clause-ok c = λ is.
    decodes_back $module$-seen $module$-shape.takes $module$-struct.takes
    $module$-shows.steps _ $module$-shape.default _ _ (c.read_status.ensures.ok is)

pub returns-clause-err : goal.returns-clause-err
returns-clause-err c = λ is.
    not_decoded_back $module$-seen $module$-shape.takes $module$-struct.takes
    $module$-shows.steps _ $module$-shape.default _ (c.read_status.ensures.err is)
";

pub const FAULT_ANSWERS: &str = "\
use Rattle.wire_structs.proofs.FirstRefused.{refused_back}
use Rattle.wire_structs.proofs.Shown.{decodes_back, not_decoded_back}
use Rattle.$crate$.proofs.$name$InCShows.{$module$-shows}
use Rattle.$crate$.specs.$name$.{$module$-shape}
use Rattle.$crate$.specs.$name$InC.{$module$-seen, $module$-struct}
use Rattle.$crate$.proofs.$module$_in_c.$module$_fault.Goals as goal

pub returns-clause-ok : goal.returns-clause-ok
returns-clause-ok c = λ is.
    let value = decodes_back $module$-seen $module$-shape.takes $module$-struct.takes
    $module$-shows.steps _ $module$-shape.default _ _ (c.refused_status.ensures.ok is).1 in
    (value.0, value.1)

pub returns-clause-err : goal.returns-clause-err
returns-clause-err c = λ is.
    not_decoded_back $module$-seen $module$-shape.takes $module$-struct.takes
    $module$-shows.steps _ $module$-shape.default _ (c.refused_status.ensures.err is)

pub returns-clause-place : goal.returns-clause-place
returns-clause-place c = λ is.
    refused_back $module$-seen $module$-shape.takes $module$-struct.takes
    $module$-shows.steps _ $module$-shape.default _ _ (c.refused_status.ensures.refused is)
";

/// What the calls of a message with lists have besides.
pub const WITH_LISTS: [Template; 4] = [
    ("with_lists", " and of its lists"),
    ("lists_more", "; lists: &$name$InCLists<'_>"),
    ("of_lists", " lists.now"),
    ("lists_field", ", lists"),
];
