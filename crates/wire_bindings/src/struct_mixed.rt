//! The fields of a message that is a struct for C which are messages inside, and lists.
use crate::struct_fields::{put_all, set_item_kind};
use crate::struct_oneof::OF_MIXED_ONEOF;
use wire_schema::{GenerateError, Template, Words};

// A message inside.
const INSIDE: [Template; 16] = [
    ("struct_held", "$of_name$InC<'a>"),
    ("struct_zero", "<$of_name$InC<'a> as MessageStruct>::zero()"),
    ("struct_bits", ""),
    ("call", "merge_optional_message"),
    (
        "part",
        "$name$InCField$number$ {\n    message: $message$,\n}",
    ),
    (
        "view",
        "flagged m.has_$field$ ($of_module$-shown m.$field$)",
    ),
    (
        "written",
        "flagged m.has_$field$ ($of_module$-written m.$field$ Fields.none)",
    ),
    ("is_mixed", "mixed"),
    ("c_type", "$c$_$of_module$"),
    ("rust_held", "$of_name$<'a>"),
    ("rust_type", "$of_name$<'a>"),
    ("rust_had", "self.$field$"),
    ("rust_made", "$field$"),
    ("struct_kind", "$of_name$InC<'a>"),
    ("struct_clear", "$of_name$-IsZero m.$field$"),
    (
        "stays",
        "known_levels $number$ $module$-$field$-kind\n    \
        (merges_levels $of_module$-shape.takes $of_module$-shape.default)",
    ),
];

const OF_INSIDE: [Template; 12] = [
    ("struct_code", "crate::$of_module$_in_c $of_name$InC\n"),
    (
        "struct_code",
        "wire_structs merge_optional_message\nwire_structs optional_message_len\n",
    ),
    ("struct_code", "wire_structs put_optional_message\n"),
    (
        "struct_uses",
        "Rattle.std.specs.Prelude Option\nRattle.std.specs.Prelude option_map\n",
    ),
    ("struct_uses", "Rattle.std.specs.Prelude false\n"),
    ("struct_uses", "Rattle.wire_structs.specs.Flags flagged\n"),
    (
        "struct_uses",
        "Rattle.wire_fields.specs.Messages embedded_once\n",
    ),
    (
        "struct_uses",
        "$of_in_c$ $of_name$-IsZero\n$of_in_c$ $of_name$-Shown\n$of_in_c$ $of_module$-seen\n",
    ),
    (
        "struct_uses",
        "$of_in_c$ $of_module$-shown\n$of_in_c$ $of_module$-struct\n\
        $of_in_c$ $of_module$-written\n",
    ),
    ("law_uses", "$specs$ $of_module$-shape\n"),
    (
        "law_uses",
        "Rattle.wire_structs.specs.ListLaws merges_levels\n",
    ),
    (
        "shows_uses",
        "Rattle.wire_codec.specs.Field Fields\n\
        Rattle.wire_fields.specs.Messages length_prefixed\n\
        Rattle.wire_structs.proofs.Shown once_shown\n\
        Rattle.wire_structs.specs.Flags flagged_seen\n$of_in_c$ $of_module$-seen\n\
        Rattle.$crate$.proofs.$of_name$InCShows $of_module$-same\n\
        Rattle.$crate$.proofs.$of_name$InCShows $of_module$-shows\n",
    ),
];

// A list, of which a struct has the count.
const LIST: [Template; 11] = [
    ("member", "$field$_count"),
    ("struct_held", "u64"),
    ("struct_zero", "0"),
    ("struct_bits", "    /// How many there are.\n"),
    ("struct_clear", "m.$member$ ≡ 0"),
    ("view", "m.$member$"),
    ("is_mixed", "list"),
    ("c_type", "uint64_t"),
    ("c_size", "8"),
    ("rust_held", "u64"),
    ("part", "$name$InCField$number$ {\n    lists: $lists$,\n}"),
];

const OF_LIST: [Template; 3] = [
    ("struct_uses", "Rattle.std.specs.Prelude map\n"),
    (
        "struct_uses",
        "Rattle.wire_structs.specs.Counts count_seen\n",
    ),
    ("shows_uses", ""),
];

const TEXTS: [Template; 10] = [
    ("call", "merge_count"),
    ("element_bytes", "$of_text$"),
    ("listed", "SliceInC<'a>"),
    ("list_written", "map (λ b. b.bytes.now) l.$field$.now"),
    ("list_value", "List (List ℕ)"),
    (
        "list_kind",
        "repeated_count $element_bytes$ $item_definition$",
    ),
    (
        "list_shows",
        "repeated_shown $number$ $element_bytes$ $item_definition$",
    ),
    (
        "list_len",
        "values_len::<$slice_kind$>($number$, self.lists.$field$)",
    ),
    (
        "list_put",
        "put_values::<$slice_kind$, E>($number$, self.lists.$field$, sink)",
    ),
    (
        "stays",
        "known_levels $number$ $module$-$field$-kind\n    \
        (adds_levels $struct_flat$ $element_bytes$)",
    ),
];

const OF_TEXTS: [Template; 8] = [
    (
        "struct_code",
        "wire_structs merge_count\nwire_structs put_values\nwire_structs values_len\n",
    ),
    ("struct_code", "wire_structs SliceInC\n"),
    (
        "struct_uses",
        "Rattle.wire_structs.specs.Counts repeated_count\n",
    ),
    (
        "struct_uses",
        "Rattle.wire_fields.specs.Texts $item_definition$\n",
    ),
    (
        "shows_uses",
        "Rattle.wire_structs.proofs.CountedLists repeated_shown\n",
    ),
    (
        "shows_uses",
        "Rattle.wire_fields.specs.Texts $item_definition$\n",
    ),
    (
        "law_uses",
        "Rattle.wire_structs.specs.ListLaws adds_levels\n",
    ),
    (
        "law_uses",
        "Rattle.wire_fields.specs.Texts $item_definition$\n",
    ),
];

const OF_TEXT_LIST: [Template; 6] = [
    ("struct_kind", "TextInC<'a>"),
    ("slice_kind", "TextSliceInC<'a>"),
    ("item_definition", "string"),
    ("struct_flat", "string (flat_delimited IsUtf8)"),
    (
        "struct_code",
        "wire_structs TextInC\nwire_structs TextSliceInC\n",
    ),
    (
        "law_uses",
        "Rattle.std.specs.Prelude IsUtf8\n\
        Rattle.wire_structs.specs.ListLaws flat_delimited\n",
    ),
];

const OF_BYTES_LIST: [Template; 6] = [
    ("struct_kind", "BytesInC<'a>"),
    ("slice_kind", "BytesSliceInC<'a>"),
    ("item_definition", "any_bytes"),
    ("struct_flat", "any_bytes (flat_delimited (λ b. Unit {0}))"),
    (
        "struct_code",
        "wire_structs BytesInC\nwire_structs BytesSliceInC\n",
    ),
    (
        "law_uses",
        "Rattle.wire_structs.specs.ListLaws flat_delimited\n",
    ),
];

const MESSAGES: [Template; 11] = [
    ("struct_kind", "$of_name$InC<'a>"),
    ("call", "merge_message_count"),
    ("element_bytes", "$size$"),
    ("listed", "$of_name$InC<'a>"),
    (
        "list_written",
        "map (λ m. $of_module$-written m Fields.none) l.$field$.now",
    ),
    ("list_value", "List $of_name$-Value"),
    (
        "list_kind",
        "embedded_count $element_bytes$ $of_module$-struct",
    ),
    (
        "list_shows",
        "embedded_shown $of_module$-seen _ _ $of_module$-shows $number$ $element_bytes$",
    ),
    (
        "list_len",
        "messages_len::<$struct_kind$>($number$, self.lists.$field$)",
    ),
    (
        "list_put",
        "put_messages::<$struct_kind$, E>($number$, self.lists.$field$, sink)",
    ),
    (
        "stays",
        "known_levels $number$ $module$-$field$-kind\n    \
        (gathers_levels $of_module$-shape.takes $element_bytes$ $of_module$-shape.default\n    \
        (λ m after. m ++ after ∷ []))",
    ),
];

const OF_MESSAGES: [Template; 8] = [
    (
        "struct_code",
        "crate::$of_module$_in_c $of_name$InC\nwire_structs merge_message_count\n\
        wire_structs messages_len\nwire_structs put_messages\n",
    ),
    (
        "struct_uses",
        "Rattle.wire_structs.specs.Counts embedded_count\n$of_in_c$ $of_module$-struct\n\
        $of_in_c$ $of_module$-written\n$specs$ $of_name$-Value\n",
    ),
    (
        "shows_uses",
        "Rattle.wire_structs.proofs.CountedLists embedded_shown\n",
    ),
    (
        "shows_uses",
        "$of_in_c$ $of_module$-seen\nRattle.$crate$.proofs.$of_name$InCShows $of_module$-shows\n",
    ),
    ("law_uses", "$specs$ $of_module$-shape\n"),
    (
        "law_uses",
        "Rattle.wire_structs.specs.ListLaws gathers_levels\n",
    ),
    (
        "law_uses",
        "Rattle.std.specs.Prelude ◌++◌\nRattle.std.specs.Prelude ◌∷◌\n",
    ),
    ("law_uses", "Rattle.std.specs.Prelude []\n"),
];

const OF_MIXED_LIST: [Template; 10] = [
    ("list_leaves", "field_leaves $number$ $module$-$field$-kind"),
    ("same", "refl"),
    ("struct_sort", "$module$-$field$-count_kind"),
    ("struct_type", "ℕ"),
    ("written", "$module$-$field$-listed l"),
    ("seen", "count_seen "),
    ("shows", "$list_shows$"),
    ("struct_step", "$struct_sort$.kind.takes"),
    ("struct_table", "known $number$ $struct_sort$"),
    ("own_table", "known $number$ $module$-$field$-kind"),
];

// Of a message that has messages inside: what each field is in the table of its struct, how its
// value is seen, and why that is read where the field is.
const OF_MIXED: [Template; 9] = [
    ("same", "refl"),
    ("struct_sort", "$module$-$field$-kind"),
    ("struct_type", "$bracketed$"),
    ("written", "$view$"),
    ("seen", ""),
    ("shows", "same_shown $number$ $module$-$field$-kind"),
    ("struct_step", "$struct_sort$.kind.takes"),
    ("struct_table", "known $number$ $struct_sort$"),
    ("own_table", "known $number$ $module$-$field$-kind"),
];

const OF_MIXED_INSIDE: [Template; 8] = [
    (
        "same",
        "flagged_seen $of_module$-seen m.has_$field$ _ _\n    \
        ($of_module$-same m.$field$ Fields.none)",
    ),
    ("struct_sort", "$module$-$field$-struct_kind"),
    ("struct_type", "(Option $of_name$-Shown)"),
    ("seen", "option_map $of_module$-seen "),
    (
        "shows",
        "once_shown $of_module$-seen $number$ length_prefixed _ _ $of_module$-shows",
    ),
    ("struct_step", "$struct_sort$.kind.takes"),
    ("struct_table", "known $number$ $struct_sort$"),
    ("own_table", "known $number$ $module$-$field$-kind"),
];

/// Sets the words of a message inside.
pub fn set_inside(words: &mut Words) -> Result<(), GenerateError> {
    words.fill_all(&[
        ("presence", "optional"),
        ("of_in_c", "Rattle.$crate$.specs.$of_name$InC"),
        ("shows_uses", ""),
    ]);
    put_all(words, &INSIDE, &OF_INSIDE);
    words.ended()
}

/// Sets the words of a list of texts, of bytes or of messages.
pub fn set_list(words: &mut Words) -> Result<(), GenerateError> {
    words.fill_all(&[
        ("presence", ""),
        ("of_in_c", "Rattle.$crate$.specs.$of_name$InC"),
        ("shows_uses", ""),
    ]);
    put_all(words, &LIST, &OF_LIST);
    if words.get("kind").starts_with("Each") {
        put_all(words, &MESSAGES, &OF_MESSAGES);
    } else {
        set_item_kind(words)?;
        let is_text = words.get("item_kind").starts_with("Text");
        words.fill_all(if is_text {
            &OF_TEXT_LIST
        } else {
            &OF_BYTES_LIST
        });
        put_all(words, &TEXTS, &OF_TEXTS);
    }
    words.ended()
}

/// Sets the words of a field of a message that has messages inside, oneofs, or lists.
pub fn set_mixed(words: &mut Words) {
    match words.get("is_mixed") {
        "" => words.fill_all(&OF_MIXED),
        "oneof" => words.fill_all(&OF_MIXED_ONEOF),
        "list" => words.fill_all(&OF_MIXED_LIST),
        _ => words.fill_all(&OF_MIXED_INSIDE),
    }
}
