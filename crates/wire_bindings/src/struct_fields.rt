//! The fields of a message as a struct for C has them.
use crate::struct_mixed::{set_inside, set_list};
use crate::struct_numbers::{is_of_numbers, set_numbers};
use crate::struct_oneof::set_oneof;
use wire_schema::{Field, GenerateError, Template, Words};

// What each kind of number, text and bytes is in a struct: its kind, and the type of what is held;
// the same of no records; what it shows of a message `m`, and that it is zero there; why a record
// of it adds no level; its type in C, and how many bytes that takes; in Rust what the struct has,
// what a caller has, how that is had of a struct, and the other way; and names that definitions,
// laws and code bring in.
const TEXT: [Template; 13] = [
    ("struct_kind", "TextInC<'a>"),
    ("struct_held", "&'a [u8]"),
    ("struct_zero", "&[]"),
    ("struct_shown", "m.$field$.now"),
    ("struct_clear", "m.$field$.now ≡ []"),
    ("struct_flat", "string (flat_delimited IsUtf8)"),
    ("c_type", "gtv_bytes"),
    ("c_size", "16"),
    ("rust_held", "Text<'a>"),
    ("rust_type", "&'a str"),
    ("rust_had", "self.$field$.get()"),
    ("rust_made", "Text::new($field$)"),
    ("rust_use", "Text"),
];

const OF_TEXT: [Template; 5] = [
    ("struct_code", "wire_structs TextInC\n"),
    ("struct_uses", "Rattle.std.specs.Prelude []\n"),
    ("law_uses", "Rattle.std.specs.Prelude IsUtf8\n"),
    ("sort_uses", "Rattle.wire_fields.specs.Texts string\n"),
    (
        "law_uses",
        "Rattle.wire_structs.specs.ListLaws flat_delimited\n",
    ),
];

const BYTES: [Template; 13] = [
    ("struct_kind", "BytesInC<'a>"),
    ("struct_held", "&'a [u8]"),
    ("struct_zero", "&[]"),
    ("struct_shown", "m.$field$.now"),
    ("struct_clear", "m.$field$.now ≡ []"),
    ("struct_flat", "any_bytes (flat_delimited (λ b. Unit {0}))"),
    ("c_type", "gtv_bytes"),
    ("c_size", "16"),
    ("rust_held", "Bytes<'a>"),
    ("rust_type", "&'a [u8]"),
    ("rust_had", "self.$field$.get()"),
    ("rust_made", "Bytes::new($field$)"),
    ("rust_use", "Bytes"),
];

const OF_BYTES: [Template; 4] = [
    ("struct_code", "wire_structs BytesInC\n"),
    ("struct_uses", "Rattle.std.specs.Prelude []\n"),
    ("sort_uses", "Rattle.wire_fields.specs.Texts any_bytes\n"),
    (
        "law_uses",
        "Rattle.wire_structs.specs.ListLaws flat_delimited\n",
    ),
];

const NUMBER: [Template; 9] = [
    ("struct_kind", "NumberInC<'a, $item_kind$>"),
    ("struct_zero", "0"),
    ("struct_shown", "m.$field$"),
    (
        "struct_flat",
        "(numeric $form$ $map$) (flat_numeric $form$ $map$)",
    ),
    ("rust_type", "$rust_held$"),
    ("rust_had", "self.$field$"),
    ("rust_made", "$field$"),
    ("rust_use", ""),
    ("struct_bits", ""),
];

const OF_NUMBER: [Template; 4] = [
    ("sort_uses", "Rattle.wire_fields.specs.Numbers numeric\n"),
    (
        "sort_uses",
        "Rattle.wire_fields.specs.declared.form.Form.TheVariants $form$\n",
    ),
    (
        "law_uses",
        "Rattle.wire_structs.specs.ListLaws flat_numeric\n",
    ),
    ("struct_uses", "$clear_uses$"),
];

const OF_INTEGER: [Template; 2] = [
    (
        "struct_code",
        "wire_structs NumberInC\nwire_fields $item_kind$\n",
    ),
    ("sort_uses", "Rattle.wire_codec.specs.ValueMap $map$\n"),
];

const NATURAL: [Template; 3] = [
    ("struct_clear", "m.$field$ ≡ 0"),
    ("clear_uses", ""),
    ("value_uses", ""),
];

const SIGNED: [Template; 3] = [
    ("struct_clear", "m.$field$ ≡ pos 0"),
    ("clear_uses", "Rattle.std.specs.Prelude pos\n"),
    ("value_uses", "Rattle.std.specs.Prelude ℤ\n"),
];

const BOOL: [Template; 4] = [
    ("value_uses", "Rattle.std.specs.Prelude Bool\n"),
    ("struct_zero", "false"),
    ("struct_clear", "m.$field$ ≡ false"),
    ("clear_uses", "Rattle.std.specs.Prelude false\n"),
];

// A float is held as its bits.
const FLOATS: [Template; 5] = [
    (
        "value_uses",
        "Rattle.wire_fields.specs.declared.floats.$item_kind$Bits $item_kind$Bits\n",
    ),
    ("struct_kind", "$item_kind$InC<'a>"),
    ("struct_shown", "$map$.dec m.$field$"),
    ("struct_clear", "m.$field$ ≡ 0"),
    ("struct_bits", "    /// The bits of a `$c_type$`.\n"),
];

const OF_FLOAT: [Template; 3] = [
    ("struct_code", "wire_structs $item_kind$InC\n"),
    ("struct_uses", "Rattle.wire_fields.specs.Floats $map$\n"),
    ("sort_uses", "Rattle.wire_fields.specs.Floats $map$\n"),
];

const ENUM: [Template; 3] = [
    (
        "value_uses",
        "Rattle.wire_codec.specs.EnumValue EnumValue\n\
        $of_specs$.declared.$of_module$.$of_name$ $of_name$\n",
    ),
    ("struct_kind", "EnumInC<'a, $of_name$>"),
    (
        "struct_shown",
        "known_or ($of_module$-of m.$field$) m.$field$",
    ),
];

const OF_ENUM: [Template; 7] = [
    ("struct_code", "wire_structs EnumInC\n$of_path$ $of_name$\n"),
    (
        "struct_uses",
        "Rattle.wire_codec.specs.Enumeration known_or\n",
    ),
    ("struct_uses", "$specs$ $of_module$-of\n"),
    ("struct_uses", "Rattle.std.specs.Prelude pos\n"),
    ("sort_uses", "Rattle.wire_fields.specs.Enums open_enum\n"),
    ("sort_uses", "$specs$ $of_module$-number\n"),
    ("sort_uses", "$specs$ $of_module$-of\n"),
];

// How a value is there.
const IMPLICIT: [Template; 5] = [
    ("call", "merge_value"),
    (
        "part",
        "implicit_part::<$struct_kind$>($number$, &$message$.$field$)",
    ),
    ("levels", "sets_levels"),
    ("view", "$struct_shown$"),
    (
        "struct_code",
        "$struct_code$wire_structs implicit_part\nwire_structs merge_value\n",
    ),
];

const OPTIONAL: [Template; 7] = [
    (
        "value_uses",
        "$value_uses$Rattle.std.specs.Prelude Option\n",
    ),
    ("call", "merge_optional"),
    (
        "part",
        "optional_part::<$struct_kind$>($number$, $message$.has_$field$, &$message$.$field$)",
    ),
    ("levels", "some_levels"),
    ("view", "flagged m.has_$field$ $struct_bracketed$"),
    (
        "struct_code",
        "$struct_code$wire_structs optional_part\nwire_structs merge_optional\n",
    ),
    (
        "struct_uses",
        "$struct_uses$Rattle.std.specs.Prelude false\nRattle.wire_structs.specs.Flags flagged\n",
    ),
];

// What a tree of the fields is of: what is shown, and why a record adds no level but its own.
const TREE: [Template; 2] = [
    (
        "stays",
        "known_levels $number$ $module$-$field$-kind\n    ($levels$ $struct_flat$)",
    ),
    (
        "law_uses",
        "$law_uses$Rattle.wire_structs.specs.ListLaws $levels$\n",
    ),
];

// Words of C and C++ that are none of this language, and names that their headers have. A field of
// such a name has an underscore behind it there.
const C_WORDS: &str =
    "alignas alignof and and_eq asm assert auto bitand bitor bool case catch char \
    char8_t char16_t char32_t class co_await co_return co_yield compl concept consteval constexpr \
    constinit const_cast decltype default delete double dynamic_cast errno explicit export float \
    friend goto inline int linux long mutable namespace new noexcept not not_eq nullptr operator \
    or or_eq private protected public register reinterpret_cast restrict short signed size_t sizeof \
    static_assert static_cast stderr stdin stdout switch template this thread_local throw typedef \
    typeid typename typeof_unqual uint32_t uint64_t uint8_t union unix unsigned using void \
    volatile wchar_t xor xor_eq";

// Calls of a struct in Rust. A field of such a name has an underscore behind it there.
const CALLS: &str =
    "new read read_within size size_keeping to_vec to_vec_keeping unknown_records write \
    write_keeping";

/// Whether this is a word of C or C++, or a name that their headers have.
pub fn is_c_word(name: &str) -> bool {
    C_WORDS.split(' ').any(|it| it == name)
}

/// Whether nothing of a struct stays where it was read, so that it has a member `no_bytes`.
pub fn has_no_bytes(fields: &[Field]) -> bool {
    fields
        .iter()
        .all(|it| !it.words.get("struct_held").contains("'a"))
}

/// The same of the fields of a oneof.
pub fn has_no_bytes_in(variants: &[Words]) -> bool {
    variants
        .iter()
        .all(|it| !it.get("struct_held").contains("'a"))
}

/// Sets the words of a field in the struct of a message whose comments stand at this place.
pub fn set_in_struct(field: &mut Field, place: &str) -> Result<(), GenerateError> {
    let words = &mut field.words;
    words.fill_all(&NOTHING_BROUGHT_IN);
    words.set("message_place", place);
    words.fill("comment_place", "$message_place$.2.$at$");
    // (the names of what a macro is handed)
    words.set("message", "$message");
    words.set("lists", "$lists");
    words.fill("member", "$field$");
    set_names(words);
    words.fill_all(&[("margin", "    "), ("both_stays", "two_levels _ _")]);
    if let Some(oneof) = &mut field.oneof {
        return set_oneof(words, oneof, place);
    }
    if words.get("kind").starts_with("Embedded<") {
        return set_inside(words);
    }
    if words.get("kind").starts_with("Repeated<") || words.get("kind").starts_with("Each") {
        return set_list(words);
    }
    if is_of_numbers(words.get("kind")) {
        return set_numbers(words);
    }
    let is_optional = words.get("kind").starts_with("Optional<");
    set_item_kind(words)?;
    set_held(words);
    words.append("law_uses", "$sort_uses$");
    let is_one = !words.get("struct_shown").contains(' ');
    words.fill(
        "struct_bracketed",
        if is_one {
            "$struct_shown$"
        } else {
            "($struct_shown$)"
        },
    );
    words.set("presence", if is_optional { "optional" } else { "" });
    words.fill_all(if is_optional { &OPTIONAL } else { &IMPLICIT });
    words.fill_all(&TREE);
    words.fill(
        "shows_uses",
        "Rattle.wire_structs.proofs.Shown same_shown\n$kind_use$",
    );
    words.ended()
}

// What a field brings in, in code, in definitions and in laws, besides its kind.
const NOTHING_BROUGHT_IN: [Template; 5] = [
    ("struct_code", ""),
    ("struct_uses", ""),
    ("law_uses", ""),
    ("sort_uses", ""),
    (
        "kind_use",
        "Rattle.$crate$.specs.$name$ $module$-$field$-kind\n",
    ),
];

/// Sets what a field is called in C and in Rust.
pub fn set_names(words: &mut Words) {
    let is_word = is_c_word(words.get("field"));
    words.fill("c_field", if is_word { "$field$_" } else { "$field$" });
    let is_call = CALLS.split(' ').any(|it| it == words.get("field"));
    words.fill("rust_field", if is_call { "$field$_" } else { "$field$" });
}

/// Sets the words of a number, of text or of bytes among the fields of a oneof.
pub fn set_in_oneof(words: &mut Words) {
    words.fill_all(&NOTHING_BROUGHT_IN);
    set_names(words);
    words.fill("item_kind", "$kind$");
    set_held(words);
}

/// Makes the kind within that of presence, or of a list, the word `item_kind`.
pub fn set_item_kind(words: &mut Words) -> Result<(), GenerateError> {
    let kind = String::from_str(words.alloc(), words.get("kind"))?;
    let (_, inner) = kind.split_once('<').unwrap_or(("", &kind));
    words.set("item_kind", inner.strip_suffix('>').unwrap_or(inner));
    Ok(())
}

/// Sets the words of a number, of text or of bytes, by its kind.
pub fn set_held(words: &mut Words) {
    words.set("struct_bits", "");
    match words.get("item_kind") {
        "Text" => put_all(words, &TEXT, &OF_TEXT),
        "Blob" => put_all(words, &BYTES, &OF_BYTES),
        "Bool" => set_integer(words, ["bool", "bool", "1"], &BOOL),
        "Double" => set_float(words, ["u64", "double", "8", "f64"]),
        "Float" => set_float(words, ["u32", "float", "4", "f32"]),
        "Int32" | "Sint32" | "Sfixed32" => set_integer(words, ["i32", "int32_t", "4"], &SIGNED),
        "Int64" | "Sint64" | "Sfixed64" => set_integer(words, ["i64", "int64_t", "8"], &SIGNED),
        "Uint32" | "Fixed32" => set_integer(words, ["u32", "uint32_t", "4"], &NATURAL),
        "Uint64" | "Fixed64" => set_integer(words, ["u64", "uint64_t", "8"], &NATURAL),
        _ => {
            put_number(words, "i32", "int32_t", "4");
            words.fill_all(&SIGNED);
            put_all(words, &ENUM, &OF_ENUM);
        }
    }
}

/// Makes each of the first the word of its name, and puts each of the others behind it.
pub fn put_all(words: &mut Words, filled: &'static [Template], appended: &'static [Template]) {
    words.fill_all(filled);
    words.append_all(appended);
}

// The words of a number of this type, and in C of another, of so many bytes.
fn put_number(words: &mut Words, held: &str, c_type: &str, c_size: &str) {
    words.set("struct_held", held);
    words.set("rust_held", held);
    words.set("c_type", c_type);
    words.set("c_size", c_size);
    words.fill_all(&NUMBER);
    words.append_all(&OF_NUMBER);
}

fn set_integer(words: &mut Words, [held, c_type, c_size]: [&str; 3], of: &'static [Template]) {
    words.fill_all(of);
    put_number(words, held, c_type, c_size);
    put_all(words, of, &OF_INTEGER);
}

fn set_float(words: &mut Words, [held, c_type, c_size, rust]: [&str; 4]) {
    words.fill("clear_uses", "");
    put_number(words, held, c_type, c_size);
    words.set("rust_held", rust);
    words.set("rust_type", rust);
    put_all(words, &FLOATS, &OF_FLOAT);
}
