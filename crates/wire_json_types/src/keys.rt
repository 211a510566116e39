//! The keys of maps in JSON: the names of members.
use wire_schema::{Template, Words};

// The words of a key: its type as contracts see it, `key_value`, and how, `key_view`; the order of
// its values, `key_order`, and why that is one, `key_total`; what names mean, `key_means`, and
// which are written, `key_name`; that a name means one key, `key_one`; which keys are read back,
// `key_range`, and why, `key_back`; and lines of names that are brought in.
const SIGNED: [Template; 10] = [
    ("key_value", "ℤ"),
    ("key_view", "(λ k. k)"),
    ("key_order", "int_cmp"),
    ("key_total", "int_cmp_total"),
    ("key_means", "(IsSignedKey $key_width$)"),
    ("key_name", "signed_decimal"),
    ("key_one", "(one_signed_key $key_width$)"),
    ("key_range", "(FitsSigned $key_width$)"),
    ("key_back", "$key_size$_signed_key"),
    (
        "key_uses",
        "Rattle.std.proofs.lemmas.Cmp int_cmp_total\nRattle.std.specs.Fmt signed_decimal\n\
        Rattle.std.specs.Int $key_width$\nRattle.std.specs.Ordering int_cmp\n\
        Rattle.std.specs.Prelude FitsSigned\nRattle.std.specs.Prelude ℤ\n\
        Rattle.wire_jsonfields.specs.Keys IsSignedKey\n\
        Rattle.wire_jsonfields.specs.Keys one_signed_key\n\
        Rattle.wire_jsonfields.specs.KindsBack $key_size$_signed_key\n",
    ),
];

const UNSIGNED: [Template; 10] = [
    ("key_value", "ℕ"),
    ("key_view", "(λ k. k)"),
    ("key_order", "nat_cmp"),
    ("key_total", "nat_cmp_total"),
    ("key_means", "(IsUnsignedKey $key_bits$)"),
    ("key_name", "decimal"),
    ("key_one", "(one_unsigned_key $key_bits$)"),
    ("key_range", "(λ n. n < 2 ^ $key_bits$)"),
    ("key_back", "$key_size$_unsigned_key"),
    (
        "key_uses",
        "Rattle.std.proofs.lemmas.Cmp nat_cmp_total\nRattle.std.specs.Ordering nat_cmp\n\
        Rattle.std.specs.Prelude decimal\nRattle.std.specs.Prelude ℕ\n\
        Rattle.std.specs.Prelude ◌<◌\nRattle.std.specs.Prelude ◌^◌\n\
        Rattle.wire_jsonfields.specs.Keys IsUnsignedKey\n\
        Rattle.wire_jsonfields.specs.Keys one_unsigned_key\n\
        Rattle.wire_jsonfields.specs.KindsBack $key_size$_unsigned_key\n",
    ),
];

const BOOL: [Template; 10] = [
    ("key_value", "Bool"),
    ("key_view", "(λ k. k)"),
    ("key_order", "bool_cmp"),
    ("key_total", "bool_cmp_total"),
    ("key_means", "(λ text k. text ≡ word_text k)"),
    ("key_name", "word_text"),
    ("key_one", "one_bool_key"),
    ("key_range", "(λ b. Unit {0})"),
    ("key_back", "(λ b h. bool_key b)"),
    (
        "key_uses",
        "Rattle.std.specs.Cmp bool_cmp_total\nRattle.std.specs.Ordering bool_cmp\n\
        Rattle.std.specs.Prelude Bool\nRattle.std.specs.Prelude ◌≡◌\n\
        Rattle.wire_json.specs.Written word_text\n\
        Rattle.wire_jsonfields.specs.Keys one_bool_key\n\
        Rattle.wire_jsonfields.specs.KindsBack bool_key\n",
    ),
];

const TEXT: [Template; 11] = [
    ("key_value", "(List ℕ)"),
    ("key_view", "(λ k. string_bytes k)"),
    ("key_order", "(slice_cmp nat_cmp)"),
    ("key_total", "nat_list_cmp_total"),
    ("key_means", "(λ text k. text ≡ k)"),
    ("key_name", "(λ k. k)"),
    ("key_one", "one_text_key"),
    ("key_range", "IsUtf8"),
    ("key_back", "text_key"),
    (
        "key_uses",
        "Rattle.std.proofs.lemmas.Cmp nat_list_cmp_total\n\
        Rattle.std.specs.Cmp.Lexicographic slice_cmp\nRattle.std.specs.Ordering nat_cmp\n\
        Rattle.std.specs.Prelude IsUtf8\nRattle.std.specs.Prelude ℕ\n\
        Rattle.std.specs.Prelude ◌≡◌\n\
        Rattle.wire_jsonfields.specs.Keys one_text_key\n\
        Rattle.wire_jsonfields.specs.KindsBack text_key\n",
    ),
    ("key_seen_uses", "Rattle.std.specs.Prelude string_bytes\n"),
];

/// Sets the words of a key of the type that descriptors have under this number.
pub(crate) fn set_key(type_number: i32, words: &mut Words) {
    words.set("key_seen_uses", "");
    match type_number {
        3 | 16 | 18 => set_signed("i64", "long", "w64", words),
        5 | 15 | 17 => set_signed("i32", "short", "w32", words),
        4 | 6 => set_unsigned("u64", "long", "64", words),
        7 | 13 => set_unsigned("u32", "short", "32", words),
        8 => set("bool", &BOOL, words),
        _ => set("String", &TEXT, words),
    }
}

fn set_signed(key: &str, size: &str, width: &str, words: &mut Words) {
    words.set("key_size", size);
    words.set("key_width", width);
    set(key, &SIGNED, words);
}

fn set_unsigned(key: &str, size: &str, bits: &str, words: &mut Words) {
    words.set("key_size", size);
    words.set("key_bits", bits);
    set(key, &UNSIGNED, words);
}

fn set(key: &str, templates: &'static [Template], words: &mut Words) {
    words.set("key_in_json", key);
    words.fill_all(templates);
}
