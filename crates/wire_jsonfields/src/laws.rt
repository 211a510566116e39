//! Laws of kinds: each function is a theorem, and does nothing.
ghost use Rattle.std.specs.Prelude.{ℕ, suc, ℤ, List, ◌<◌, ◌^◌, FitsSigned, decimal};
ghost use Rattle.std.specs.Fmt.{signed_decimal};
ghost use Rattle.std.specs.Int.{Width, w32, w64};
ghost use Rattle.std.specs.List.{AllByRecursion};
ghost use Rattle.std.specs.List.Sorted.{IsStrictlySortedBy};
ghost use Rattle.std.specs.Map.{keys_of};
ghost use Rattle.wire_json.specs.Json.{Json};
ghost use Rattle.wire_protojson.specs.Enums.{AreTexts, IsEnumTree, MeansEnum, NamesAgree};
ghost use Rattle.wire_protojson.specs.Laws.{IsReadAs};
ghost use Rattle.wire_jsonfields.specs.Back.{ComesBack, EachComesBack, EntriesComeBack, IsBack, SpellsOneValue};
ghost use Rattle.wire_jsonfields.specs.Keys.{IsSignedKey, IsUnsignedKey};
ghost use Rattle.wire_jsonfields.specs.Levels.{IsReadFrom, NestsWithin};
ghost use Rattle.wire_jsonfields.specs.Lists.{IsListTree, ListMeans};
ghost use Rattle.wire_jsonfields.specs.Maps.{IsMapTree, MapMeans};

use crate::enum_field::JsonEnum;
use crate::key::JsonKey;
use crate::kind::JsonValue;

/// A text is read as one value of a kind at most.
pub fn a_text_has_one_reading<V: JsonValue>()
    ensures { SpellsOneValue V.means }
{}

/// What is written of a value is read as it: its text at just the levels that it has, or more.
pub fn values_come_back<V: JsonValue>()
    ensures means { (v : V.Value) → V.in_range v → ComesBack V.means V.tree v }
    ensures text { (v : V.Value) (json : Json) → V.in_range v → V.tree v json
        → IsReadFrom V.means json v }
    ensures front { (v : V.Value) (json : Json) → V.in_range v → V.tree v json
        → IsReadAs V.means v json }
{}

/// What is written of a list is read as it, where that holds of each element.
pub fn lists_come_back<V: JsonValue>()
    ensures { (vs : List V.Value) → EachComesBack V.means V.tree vs
        → ComesBack (ListMeans V.means) (IsListTree V.tree) vs }
{}

/// What is written of a map is read as it, where its keys ascend and that holds of each value.
pub fn maps_come_back<K: JsonKey, V: JsonValue>()
    ensures { (m : List (K.Value × V.Value)) → IsStrictlySortedBy K.order (keys_of m)
        → EntriesComeBack K.means K.name V.means V.tree m
        → ComesBack (MapMeans K.order K.means V.means) (IsMapTree K.name V.tree) m }
{}

/// The keys of what is read as a map ascend.
pub fn maps_ascend<K: JsonKey, V: JsonValue>()
    ensures { (json : Json) (m : List (K.Value × V.Value))
        → MapMeans K.order K.means V.means json m → IsStrictlySortedBy K.order (keys_of m) }
{}

/// What is written of a value is read as it at just the levels that it has, or more.
pub fn written_is_read<V: JsonValue>()
    ensures { (json : Json) (v : V.Value) → IsBack V.means json v → IsReadFrom V.means json v }
{}

/// What is written of a list has at most one level more than its elements.
pub fn lists_add_a_level<V: JsonValue>()
    ensures { (levels : ℕ) (vs : List V.Value)
        → AllByRecursion (NestsWithin levels V.tree) vs
        → NestsWithin (suc levels) (IsListTree V.tree) vs }
{}

/// What is written of a map has at most one level more than its values.
pub fn maps_add_a_level<K: JsonKey, V: JsonValue>()
    ensures { (levels : ℕ) (m : List (K.Value × V.Value))
        → AllByRecursion (λ e. NestsWithin levels V.tree e.1) m
        → NestsWithin (suc levels) (IsMapTree K.name V.tree) m }
{}

/// What is written of an enum is read as its number, where no name stands for two.
pub fn enums_come_back<E: JsonEnum>()
    ensures { NamesAgree E.table → AreTexts E.table → (z : ℤ) → FitsSigned w32 z
        → ComesBack (MeansEnum E.table) (IsEnumTree E.table) z }
{}

/// The name that is written of a number is its key.
pub fn keys_come_back()
    ensures signed { (w : Width) (z : ℤ) → FitsSigned w z → FitsSigned w64 z
        → IsSignedKey w (signed_decimal z) z }
    ensures unsigned { (bits : ℕ) (n : ℕ) → n < 2 ^ bits → n < 2 ^ 64
        → IsUnsignedKey bits (decimal n) n }
{}
