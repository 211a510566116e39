//! Keys of maps, as names of members.
ghost use Rattle.std.specs.Prelude.{◌≡◌, ◌++◌, ℕ, List, IsUtf8, IfOk, MatchOption, OnOk, OnErr};
ghost use Rattle.std.specs.Cmp.{IsTotalOrder};
ghost use Rattle.std.specs.declared.cmp.Ordering.{Ordering};
ghost use Rattle.wire_json.specs.Compact.{Extends};
ghost use Rattle.wire_json.specs.Written.{written_name};

use itoa::Buffer;
use std::alloc::{AllocError, Global};

/// A type of keys of maps.
pub trait JsonKey {
    /// What a map holds.
    type Held: Ord + Drop;

    /// What contracts see of it.
    ghost Value: { Type 0 };

    ghost view: { Self.Held → Value };

    /// Which names mean which keys.
    ghost means: { List ℕ → Value → Type 0 };

    /// The name that is written of a key.
    ghost name: { Value → List ℕ };

    /// The order of the entries of a map.
    ghost order: { Value → Value → Ordering };

    /// A name means one key at most.
    ghost one_key: { (text : List ℕ) (j k : Value) → means text j → means text k → j ≡ k };

    ghost total: { IsTotalOrder order };

    /// The keys of the type.
    ghost in_range: { Value → Type 0 };

    /// The name that is written of a key is text, and means it.
    ghost back: { (key : Value) → in_range key → IsUtf8 (name key) × means (name key) key };

    /// The key that a name means.
    fn read_key(alloc: Global, text: &str) -> Result<Option<Self::Held>, AllocError>
        ensures { IfOk result (λ read. MatchOption read ((key : Value) → means text.now key → ⊥)
            (λ key. means text.now (view key))) };

    /// Writes the name of a member, and its colon. A front of it may stand in the vector where
    /// memory is refused.
    fn write_key(out: &mut Vec<u8>, key: &Self::Held) -> Result<(), AllocError>
        ensures ok { OnOk result
            (out.new.items ≡ out.old.items ++ written_name (name (view key.now))) }
        ensures err { OnErr result (Extends out.old.items out.new.items) };

    /// A map has its entries in this order.
    ghost ordered: { (x y : Self.Held) → Self.Held.cmp x y ≡ order (view x) (view y) };
}

impl JsonKey for i32 {
    ghost use Rattle.std.specs.Prelude.{FitsSigned};
    ghost use Rattle.wire_jsonfields.specs.KindsBack.{short_signed_key};
    ghost use Rattle.std.proofs.lemmas.Cmp.{int_cmp_total};
    ghost use Rattle.std.specs.Prelude.{ℤ};
    ghost use Rattle.std.proofs.Common.{refl};
    ghost use Rattle.std.specs.Int.{w32};
    ghost use Rattle.std.specs.Fmt.{signed_decimal};
    ghost use Rattle.std.specs.Ordering.{int_cmp};
    ghost use Rattle.wire_jsonfields.specs.Keys.{IsSignedKey, one_signed_key};

    type Held = i32;

    ghost Value = { ℤ };

    ghost view = { λ k. k };

    ghost means = { IsSignedKey w32 };

    ghost name = { signed_decimal };

    ghost order = { int_cmp };

    ghost one_key = { one_signed_key w32 };

    ghost ordered = { λ x y. refl };

    ghost total = { int_cmp_total };

    ghost in_range = { FitsSigned w32 };

    ghost back = { short_signed_key };

    fn read_key(_alloc: Global, text: &str) -> Result<Option<i32>, AllocError> {
        match text.parse::<i32>() {
            Ok(key) => Ok(Some(key)),
            Err(_) => Ok(None),
        }
    }

    fn write_key(out: &mut Vec<u8>, key: &i32) -> Result<(), AllocError> {
        wire_json::write_name(out, Buffer::new().format(*key))
    }
}

impl JsonKey for i64 {
    ghost use Rattle.std.specs.Prelude.{FitsSigned};
    ghost use Rattle.wire_jsonfields.specs.KindsBack.{long_signed_key};
    ghost use Rattle.std.proofs.lemmas.Cmp.{int_cmp_total};
    ghost use Rattle.std.specs.Prelude.{ℤ};
    ghost use Rattle.std.proofs.Common.{refl};
    ghost use Rattle.std.specs.Int.{w64};
    ghost use Rattle.std.specs.Fmt.{signed_decimal};
    ghost use Rattle.std.specs.Ordering.{int_cmp};
    ghost use Rattle.wire_jsonfields.specs.Keys.{IsSignedKey, one_signed_key};

    type Held = i64;

    ghost Value = { ℤ };

    ghost view = { λ k. k };

    ghost means = { IsSignedKey w64 };

    ghost name = { signed_decimal };

    ghost order = { int_cmp };

    ghost one_key = { one_signed_key w64 };

    ghost ordered = { λ x y. refl };

    ghost total = { int_cmp_total };

    ghost in_range = { FitsSigned w64 };

    ghost back = { long_signed_key };

    fn read_key(_alloc: Global, text: &str) -> Result<Option<i64>, AllocError> {
        match text.parse::<i64>() {
            Ok(key) => Ok(Some(key)),
            Err(_) => Ok(None),
        }
    }

    fn write_key(out: &mut Vec<u8>, key: &i64) -> Result<(), AllocError> {
        wire_json::write_name(out, Buffer::new().format(*key))
    }
}

impl JsonKey for String {
    ghost use Rattle.std.specs.Prelude.{IsUtf8};
    ghost use Rattle.wire_jsonfields.specs.KindsBack.{text_key};
    ghost use Rattle.std.proofs.lemmas.Cmp.{nat_list_cmp_total};
    ghost use Rattle.std.specs.Prelude.{string_bytes};
    ghost use Rattle.std.proofs.Common.{refl};
    ghost use Rattle.std.specs.Cmp.Lexicographic.{slice_cmp};
    ghost use Rattle.std.specs.Ordering.{nat_cmp};
    ghost use Rattle.wire_jsonfields.specs.Keys.{one_text_key};

    type Held = String;

    ghost Value = { List ℕ };

    ghost view = { λ k. string_bytes k };

    ghost means = { λ text k. text ≡ k };

    ghost name = { λ k. k };

    ghost order = { slice_cmp nat_cmp };

    ghost one_key = { one_text_key };

    ghost ordered = { λ x y. refl };

    ghost total = { nat_list_cmp_total };

    ghost in_range = { IsUtf8 };

    ghost back = { text_key };

    fn read_key(alloc: Global, text: &str) -> Result<Option<String>, AllocError> {
        match String::from_str(alloc, text) {
            Ok(key) => Ok(Some(key)),
            Err(_full) => Err(AllocError),
        }
    }

    fn write_key(out: &mut Vec<u8>, key: &String) -> Result<(), AllocError> {
        wire_json::write_name(out, key.as_str())
    }
}

impl JsonKey for bool {
    ghost use Rattle.wire_jsonfields.specs.KindsBack.{bool_key};
    ghost use Rattle.std.specs.Cmp.{bool_cmp_total};
    ghost use Rattle.std.specs.Prelude.{Bool};
    ghost use Rattle.std.proofs.Common.{refl};
    ghost use Rattle.std.specs.Ordering.{bool_cmp};
    ghost use Rattle.wire_json.specs.Written.{word_text};
    ghost use Rattle.wire_jsonfields.specs.Keys.{one_bool_key};

    type Held = bool;

    ghost Value = { Bool };

    ghost view = { λ k. k };

    ghost means = { λ text k. text ≡ word_text k };

    ghost name = { word_text };

    ghost order = { bool_cmp };

    ghost one_key = { one_bool_key };

    ghost ordered = { λ x y. refl };

    ghost total = { bool_cmp_total };

    ghost in_range = { λ b. Unit {0} };

    ghost back = { λ b h. bool_key b };

    fn read_key(_alloc: Global, text: &str) -> Result<Option<bool>, AllocError> {
        match text {
            "true" => Ok(Some(true)),
            "false" => Ok(Some(false)),
            _ => Ok(None),
        }
    }

    fn write_key(out: &mut Vec<u8>, key: &bool) -> Result<(), AllocError> {
        if *key {
            wire_json::write_name(out, "true")
        } else {
            wire_json::write_name(out, "false")
        }
    }
}

impl JsonKey for u32 {
    ghost use Rattle.std.specs.Prelude.{◌<◌, ◌^◌};
    ghost use Rattle.wire_jsonfields.specs.KindsBack.{short_unsigned_key};
    ghost use Rattle.std.proofs.lemmas.Cmp.{nat_cmp_total};
    ghost use Rattle.std.proofs.Common.{refl};
    ghost use Rattle.std.specs.Prelude.{decimal};
    ghost use Rattle.std.specs.Ordering.{nat_cmp};
    ghost use Rattle.wire_jsonfields.specs.Keys.{IsUnsignedKey, one_unsigned_key};

    type Held = u32;

    ghost Value = { ℕ };

    ghost view = { λ k. k };

    ghost means = { IsUnsignedKey 32 };

    ghost name = { decimal };

    ghost order = { nat_cmp };

    ghost one_key = { one_unsigned_key 32 };

    ghost ordered = { λ x y. refl };

    ghost total = { nat_cmp_total };

    ghost in_range = { λ n. n < 2 ^ 32 };

    ghost back = { short_unsigned_key };

    fn read_key(_alloc: Global, text: &str) -> Result<Option<u32>, AllocError> {
        match text.parse::<u32>() {
            Ok(key) => Ok(Some(key)),
            Err(_) => Ok(None),
        }
    }

    fn write_key(out: &mut Vec<u8>, key: &u32) -> Result<(), AllocError> {
        wire_json::write_name(out, Buffer::new().format(*key))
    }
}

impl JsonKey for u64 {
    ghost use Rattle.std.specs.Prelude.{◌<◌, ◌^◌};
    ghost use Rattle.wire_jsonfields.specs.KindsBack.{long_unsigned_key};
    ghost use Rattle.std.proofs.lemmas.Cmp.{nat_cmp_total};
    ghost use Rattle.std.proofs.Common.{refl};
    ghost use Rattle.std.specs.Prelude.{decimal};
    ghost use Rattle.std.specs.Ordering.{nat_cmp};
    ghost use Rattle.wire_jsonfields.specs.Keys.{IsUnsignedKey, one_unsigned_key};

    type Held = u64;

    ghost Value = { ℕ };

    ghost view = { λ k. k };

    ghost means = { IsUnsignedKey 64 };

    ghost name = { decimal };

    ghost order = { nat_cmp };

    ghost one_key = { one_unsigned_key 64 };

    ghost ordered = { λ x y. refl };

    ghost total = { nat_cmp_total };

    ghost in_range = { λ n. n < 2 ^ 64 };

    ghost back = { long_unsigned_key };

    fn read_key(_alloc: Global, text: &str) -> Result<Option<u64>, AllocError> {
        match text.parse::<u64>() {
            Ok(key) => Ok(Some(key)),
            Err(_) => Ok(None),
        }
    }

    fn write_key(out: &mut Vec<u8>, key: &u64) -> Result<(), AllocError> {
        wire_json::write_name(out, Buffer::new().format(*key))
    }
}
