//! What a view holds for a field, as words.
use crate::words::{Template, Words};

// The words of a field of a view: what the view holds, `view_held`; its kind, `view_kind`; how what
// a view `m` holds is seen, `view_seen`; and names that are brought in, `view_code` in code and
// `view_definitions` in definitions.
const NONE: [Template; 5] = [
    ("view_held", ""),
    ("view_kind", ""),
    ("view_seen", ""),
    ("view_code", ""),
    ("view_definitions", ""),
];

const IMPLICIT: [Template; 4] = [
    ("view_held", "$held$"),
    ("view_kind", "CopiedIn<&'a [u8], Implicit<$kind$>>"),
    ("view_seen", "m.$field$"),
    (
        "view_code",
        "$code$wire_fields Implicit\nwire_views CopiedIn\n",
    ),
];

const OPTIONAL: [Template; 4] = [
    ("view_held", "Option<$held$>"),
    ("view_kind", "CopiedIn<&'a [u8], Optional<$kind$>>"),
    ("view_seen", "option_map $view$ m.$field$"),
    (
        "view_code",
        "$code$wire_fields Optional\nwire_views CopiedIn\n",
    ),
];

const PACKED: [Template; 4] = [
    ("view_held", "Vec<$held$>"),
    ("view_kind", "PackedIn<&'a [u8], $kind$>"),
    ("view_seen", "m.$field$.items"),
    ("view_code", "$code$wire_views PackedIn\n"),
];

// Of numbers of four or eight bytes each, which stay where they are read.
const FIXED: [Template; 5] = [
    ("view_held", "FixedList<'a, $kind$>"),
    ("view_kind", "FixedIn<'a, $kind$>"),
    ("view_seen", "list_values $form$ $map$ m.$field$"),
    (
        "view_code",
        "wire_fields $kind$\nwire_views FixedIn\nwire_views FixedList\n",
    ),
    (
        "view_definitions",
        "Rattle.wire_views.specs.FixedLists list_values\n",
    ),
];

const UNPACKED: [Template; 4] = [
    ("view_held", "Vec<$held$>"),
    ("view_kind", "UnpackedIn<&'a [u8], $kind$>"),
    ("view_seen", "m.$field$.items"),
    ("view_code", "$code$wire_views UnpackedIn\n"),
];

// What a view holds of a string, and of bytes, and the type that reads it.
const STRING: [Template; 3] = [
    ("lent", "&'a str"),
    ("lent_kind", "TextIn"),
    ("lent_seen", "(λ s. s.now)"),
];

const BYTES: [Template; 3] = [
    ("lent", "&'a [u8]"),
    ("lent_kind", "BytesIn"),
    ("lent_seen", "(λ b. b.now)"),
];

const IMPLICIT_TEXT: [Template; 4] = [
    ("view_held", "$lent$"),
    ("view_kind", "ImplicitIn<$lent_kind$<'a>>"),
    ("view_seen", "m.$field$.now"),
    (
        "view_code",
        "wire_views ImplicitIn\nwire_views $lent_kind$\n",
    ),
];

const OPTIONAL_TEXT: [Template; 4] = [
    ("view_held", "Option<$lent$>"),
    ("view_kind", "OptionalIn<$lent_kind$<'a>>"),
    ("view_seen", "option_map $lent_seen$ m.$field$"),
    (
        "view_code",
        "wire_views OptionalIn\nwire_views $lent_kind$\n",
    ),
];

const REPEATED: [Template; 4] = [
    ("view_held", "Vec<$lent$>"),
    ("view_kind", "RepeatedIn<$lent_kind$<'a>, $of_text$>"),
    ("view_seen", "map $lent_seen$ m.$field$.items"),
    (
        "view_code",
        "wire_views RepeatedIn\nwire_views $lent_kind$\n",
    ),
];

const ONCE: [Template; 5] = [
    ("view_held", "Option<Box<$of_view$<'a>>>"),
    ("view_kind", "$encoding$In<$of_view$<'a>>"),
    ("view_seen", "boxed_value $of_module$-view_value m.$field$"),
    (
        "view_code",
        "$of_view_path$ $of_view$\nwire_views $encoding$In\n",
    ),
    ("view_definitions", "$specs$ $of_module$-view_value\n"),
];

const EACH: [Template; 5] = [
    ("view_held", "Vec<$of_view$<'a>>"),
    ("view_kind", "$encoding$In<$of_view$<'a>, $size$>"),
    ("view_seen", "map $of_module$-view_value m.$field$.items"),
    (
        "view_code",
        "$of_view_path$ $of_view$\nwire_views $encoding$In\n",
    ),
    ("view_definitions", "$specs$ $of_module$-view_value\n"),
];

/// Sets the words of a field of a view, of those of its values, where its kind is the one of this
/// template.
pub(crate) fn set_view(kind: &str, words: &mut Words) {
    let (kind, _) = kind.split_once('<').unwrap_or((kind, ""));
    if kind == "Map" {
        return set_map_view(words);
    }
    words.fill_all(&NONE);
    words.set("encoding", kind);
    let is_text = set_lent(words);
    words.fill_all(match kind {
        "Implicit" if is_text => &IMPLICIT_TEXT,
        "Optional" if is_text => &OPTIONAL_TEXT,
        "Implicit" => &IMPLICIT,
        "Optional" => &OPTIONAL,
        "Packed" if words.get("form") == "Varint" => &PACKED,
        "Packed" => &FIXED,
        "Unpacked" => &UNPACKED,
        "Repeated" => &REPEATED,
        "Embedded" | "Group" => &ONCE,
        "EachEmbedded" | "EachGroup" => &EACH,
        _ => &[],
    });
}

// Whether a value is a string or bytes: tells what is held of it.
fn set_lent(words: &mut Words) -> bool {
    match words.get("kind") {
        "Text" => words.fill_all(&STRING),
        "Blob" => words.fill_all(&BYTES),
        _ => return false,
    }
    true
}

// The words of a variant of the view of a oneof: what it holds, its kind, and what stands before a
// value and behind it.
const ALWAYS: [Template; 6] = [
    ("view_held", "$held$"),
    ("view_kind", "CopiedIn<&'a [u8], Always<$kind$>>"),
    ("view_before", ""),
    ("view_behind", ""),
    ("value_seen", "$view$"),
    (
        "view_code",
        "$value_code$wire_fields Always\nwire_views CopiedIn\n",
    ),
];

const ALWAYS_TEXT: [Template; 6] = [
    ("value_seen", "$lent_seen$"),
    ("view_held", "$lent$"),
    ("view_kind", "AlwaysIn<$lent_kind$<'a>>"),
    ("view_before", ""),
    ("view_behind", ".now"),
    ("view_code", "wire_views AlwaysIn\nwire_views $lent_kind$\n"),
];

const ALWAYS_MESSAGE: [Template; 7] = [
    ("value_seen", "$of_module$-view_value"),
    ("view_held", "$of_view$<'a>"),
    ("view_kind", "$presence$In<$of_view$<'a>>"),
    ("view_before", "$of_module$-view_value "),
    ("view_behind", ""),
    (
        "view_code",
        "$of_view_path$ $of_view$\nwire_views $presence$In\n",
    ),
    ("view_definitions", "$specs$ $of_module$-view_value\n"),
];

/// Sets the words of a variant of the view of a oneof, of those of its values.
pub(crate) fn set_variant_view(words: &mut Words) {
    words.fill("value_code", "$code$");
    set_value_view(words);
}

fn set_value_view(words: &mut Words) {
    words.fill_all(&NONE);
    let is_text = set_lent(words);
    let is_scalar = words.get("presence") == "Always";
    words.fill_all(match (is_scalar, is_text) {
        (true, true) => &ALWAYS_TEXT,
        (true, false) => &ALWAYS,
        (false, _) => &ALWAYS_MESSAGE,
    });
}

// The words of a key of a map of a view, and of one that is a string.
const KEY: [Template; 5] = [
    ("key_code", "$code$"),
    ("key_view_held", "$held$"),
    ("key_view_kind", "NumberIn<&'a [u8], $kind$>"),
    ("key_view_seen", "$view$"),
    ("key_view_code", "$code$wire_views NumberIn\n"),
];

const TEXT_KEY: [Template; 5] = [
    ("key_code", "$code$"),
    ("key_view_held", "$lent$"),
    ("key_view_kind", "$lent_kind$<'a>"),
    ("key_view_seen", "$lent_seen$"),
    ("key_view_code", "wire_views $lent_kind$\n"),
];

/// Sets the words of the key of a map of a view, of those of a value.
pub(crate) fn set_key_view(words: &mut Words) {
    let is_text = set_lent(words);
    words.fill_all(if is_text { &TEXT_KEY } else { &KEY });
}

const MAP: [Template; 5] = [
    ("view_held", "Vec<($key_view_held$, $view_held$)>"),
    (
        "view_kind",
        "MapIn<$key_view_kind$, $view_kind$, $of_entry$>",
    ),
    (
        "view_seen",
        "map_with $map_order$\n    (viewed $key_view_seen$ $value_seen$ m.$field$.items)",
    ),
    ("view_code", "$key_view_code$$view_code$wire_views MapIn\n"),
    (
        "view_definitions",
        "$view_definitions$$map_order_uses$Rattle.wire_views.specs.Entries map_with\n",
    ),
];

// Of a map of messages.
const MESSAGE_MAP: [Template; 2] = [
    (
        "view_kind",
        "EmbeddedMapIn<$key_view_kind$, $of_view$<'a>, $of_entry$>",
    ),
    (
        "view_code",
        "$key_view_code$$of_view_path$ $of_view$\nwire_views EmbeddedMapIn\n",
    ),
];

const OF_TEXT: [Template; 2] = [
    ("map_order", "(slice_cmp nat_cmp)"),
    (
        "map_order_uses",
        "Rattle.std.specs.Cmp.Lexicographic slice_cmp\nRattle.std.specs.Ordering nat_cmp\n",
    ),
];

const OF_UNSIGNED: [Template; 2] = [
    ("map_order", "nat_cmp"),
    ("map_order_uses", "Rattle.std.specs.Ordering nat_cmp\n"),
];

const OF_SIGNED: [Template; 2] = [
    ("map_order", "int_cmp"),
    ("map_order_uses", "Rattle.std.specs.Ordering int_cmp\n"),
];

const OF_BOOL: [Template; 2] = [
    ("map_order", "bool_cmp"),
    ("map_order_uses", "Rattle.std.specs.Ordering bool_cmp\n"),
];

// The words of a map of a view, of those of its key and of its values.
fn set_map_view(words: &mut Words) {
    let code = words.get("code");
    let own = code.strip_prefix(words.get("key_code")).unwrap_or(code);
    let own = String::from_str(words.alloc(), own);
    match own {
        Ok(own) => words.set("value_code", &own),
        Err(_) => words.fill("value_code", "$code$"),
    }
    set_value_view(words);
    words.fill_all(match words.get("key_order") {
        "bool_map" => &OF_BOOL,
        "signed_map" => &OF_SIGNED,
        "unsigned_map" => &OF_UNSIGNED,
        _ => &OF_TEXT,
    });
    words.fill_all(&MAP);
    if words.get("presence") == "AlwaysEmbedded" {
        words.fill_all(&MESSAGE_MAP);
    }
}

/// Tells a value what the view of the message type is called that it is of.
pub(crate) fn set_of_view(of: &Words, words: &mut Words) {
    words.set("of_view", of.get("view_name"));
    words.set("of_view_module", of.get("view_module"));
    let is_own = words.get("of_crate") == words.get("crate");
    words.fill(
        "of_view_path",
        if is_own {
            "crate::$of_view_module$"
        } else {
            "$of_crate$"
        },
    );
}
