//! The oneof of a message as a struct for C: the number of the field that stands, and the fields.
use crate::struct_fields::{put_all, set_in_oneof};
use wire_schema::{GenerateError, Oneof, Template, Words};

// A oneof among the fields of its message.
const IN_MESSAGE: [Template; 14] = [
    ("presence", ""),
    ("kind_use", ""),
    ("struct_kind", ""),
    ("struct_held", "$name$InC<'a>"),
    ("struct_zero", "$name$InC::zero()"),
    ("struct_bits", ""),
    ("struct_clear", "$name$-IsZero m.$field$"),
    ("call", "merge"),
    ("part", "$name$InCPart {\n    oneof: &$message$.$field$,\n}"),
    ("view", "$module$-shown m.$field$"),
    ("is_mixed", "oneof"),
    ("stays", "$module$-levels"),
    ("c_type", "$c$_$module$"),
    ("shows_uses", ""),
];

const OF_MESSAGE: [Template; 5] = [
    (
        "struct_code",
        "crate::$module$_in_c $name$InC\ncrate::$module$_in_c $name$InCPart\n",
    ),
    (
        "struct_uses",
        "$in_c$ $name$-IsZero\n$in_c$ $name$-Shown\n$in_c$ $module$-seen\n$in_c$ $module$-shown\n",
    ),
    (
        "struct_uses",
        "$in_c$ $module$-struct\n$in_c$ $module$-written\n",
    ),
    ("law_uses", "$in_c$ $module$-levels\n"),
    (
        "shows_uses",
        "Rattle.$crate$.proofs.$name$InCShows $module$-same\n\
        Rattle.$crate$.proofs.$name$InCShows $module$-shows\n",
    ),
];

/// What a oneof is among the trees of its message.
pub const OF_MIXED_ONEOF: [Template; 9] = [
    ("same", "$module$-same m.$field$"),
    ("struct_sort", ""),
    ("struct_step", "$module$-struct.takes"),
    ("struct_table", "$module$-struct"),
    ("own_table", "$module$-shape"),
    ("struct_type", "$name$-Shown"),
    ("written", "$module$-written m.$field$"),
    ("seen", "$module$-seen "),
    ("shows", "$module$-shows"),
];

/// Sets the words of a oneof among the fields of its message, whose comments stand at this place,
/// and those of its variants.
pub fn set_oneof(words: &mut Words, oneof: &mut Oneof, place: &str) -> Result<(), GenerateError> {
    words.fill_all(&[
        ("in_c", "Rattle.$crate$.specs.$name$InC"),
        ("oneof_module", "$module$"),
        ("oneof_name", "$name$"),
    ]);
    put_all(words, &IN_MESSAGE, &OF_MESSAGE);
    words.set("comment_place", oneof.words.get("place"));
    for variant in &mut oneof.variants {
        variant.set("message_place", place);
        variant.fill("comment_place", "$message_place$.2.$at$");
        set_variant(variant)?;
    }
    words.ended()
}

// A message among the variants.
const INSIDE: [Template; 12] = [
    ("struct_kind", "$of_name$InC<'a>"),
    ("struct_held", "$of_name$InC<'a>"),
    ("struct_zero", "<$of_name$InC<'a> as MessageStruct>::zero()"),
    ("struct_shown", "$of_module$-shown m.$field$"),
    (
        "struct_written",
        "$of_module$-written m.$field$ Fields.none",
    ),
    ("struct_clear", "$of_name$-IsZero m.$field$"),
    ("struct_bits", ""),
    ("c_type", "$c$_$of_module$"),
    ("rust_held", "$of_name$<'a>"),
    ("rust_type", "$of_name$<'a>"),
    ("rust_had", "self.$field$"),
    ("rust_made", "$field$"),
];

// Its type and its table in the struct, what is seen of it, and why a record of it adds no level.
const OF_INSIDE: [Template; 8] = [
    ("is_mixed", "mixed"),
    ("seen_type", "$of_name$-Shown"),
    ("seen_sort", "(embedded_always $of_module$-struct)"),
    ("seen_one", "($of_module$-seen x)"),
    ("reveal", "$of_module$-seen"),
    (
        "variant_shows",
        "(inside_shown $of_module$-seen length_prefixed _ _ $of_module$-shows.steps)",
    ),
    ("variant_levels", "(inside_levels $of_module$-shape.takes)"),
    ("rust_use", ""),
];

const INSIDE_USES: [Template; 6] = [
    (
        "struct_code",
        "crate::$of_module$_in_c $of_name$InC\nwire_structs MessageStruct\n\
        wire_structs merge_message\nwire_structs message_len\nwire_structs put_message\n",
    ),
    (
        "struct_uses",
        "Rattle.wire_codec.specs.Field Fields\n$of_in_c$ $of_name$-IsZero\n\
        $of_in_c$ $of_name$-Shown\n$of_in_c$ $of_module$-seen\n\
        $of_in_c$ $of_module$-shown\n$of_in_c$ $of_module$-written\n",
    ),
    (
        "sort_uses",
        "Rattle.wire_fields.specs.Messages embedded_always\n$of_in_c$ $of_module$-struct\n",
    ),
    (
        "law_uses",
        "$specs$ $of_module$-shape\nRattle.wire_structs.specs.ListLaws inside_levels\n",
    ),
    (
        "shows_uses",
        "Rattle.std.proofs.Common ap\nRattle.wire_codec.specs.Field Fields\n\
        $sort_uses$Rattle.wire_fields.specs.Messages length_prefixed\n",
    ),
    (
        "shows_uses",
        "Rattle.wire_structs.proofs.Shown inside_shown\n$specs$ $of_module$-shape\n\
        $of_in_c$ $of_module$-seen\n\
        Rattle.$crate$.proofs.$of_name$InCShows $of_module$-same\n\
        Rattle.$crate$.proofs.$of_name$InCShows $of_module$-shows\n",
    ),
];

// The same of a number, of text or of bytes.
const OF_SCALAR: [Template; 8] = [
    ("is_mixed", ""),
    ("struct_written", "$struct_shown$"),
    ("seen_type", "$bracketed$"),
    ("seen_sort", "(always $definition$)"),
    ("seen_one", "x"),
    ("reveal", "(λ x. x)"),
    ("variant_shows", "(all_shown _)"),
    ("variant_levels", "(sets_levels $struct_flat$)"),
];

const SCALAR_USES: [Template; 5] = [
    (
        "struct_code",
        "wire_structs always_part\nwire_structs merge_value\n",
    ),
    ("sort_uses", "Rattle.wire_fields.specs.Presence always\n"),
    ("struct_uses", "$value_uses$"),
    (
        "law_uses",
        "Rattle.wire_structs.specs.ListLaws sets_levels\n",
    ),
    (
        "shows_uses",
        "$sort_uses$Rattle.wire_structs.proofs.Shown all_shown\n",
    ),
];

fn set_variant(words: &mut Words) -> Result<(), GenerateError> {
    words.fill("of_in_c", "Rattle.$crate$.specs.$of_name$InC");
    set_in_oneof(words);
    words.set("shows_uses", "");
    if is_message(words) {
        words.fill_all(&[("struct_code", ""), ("struct_uses", ""), ("law_uses", "")]);
        words.set("sort_uses", "");
        put_all(words, &INSIDE, &INSIDE_USES);
        words.fill_all(&OF_INSIDE);
    } else {
        put_all(words, &OF_SCALAR, &SCALAR_USES);
        put_value_uses(words);
    }
    words.ended()
}

// What the type of a value brings in, which pages of messages have anyway.
fn put_value_uses(words: &mut Words) {
    let is_list = words.get("seen_type").contains("List");
    let is_natural = words.get("seen_type").contains('ℕ');
    let list = if is_list {
        "Rattle.std.specs.Prelude List\n"
    } else {
        ""
    };
    let natural = if is_natural {
        "Rattle.std.specs.Prelude ℕ\n"
    } else {
        ""
    };
    words.append("struct_uses", list);
    words.append("struct_uses", natural);
}

/// Whether a variant is a message.
pub fn is_message(variant: &Words) -> bool {
    variant.get("presence") == "AlwaysEmbedded"
}
