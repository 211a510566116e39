//! Laws of the definitions that the contracts cite: each function is a theorem, and does nothing.
ghost use Rattle.std.specs.Prelude.{ℕ, ℤ, Bool, List, ◌<◌, ◌^◌, FitsSigned, IsUtf8};
ghost use Rattle.std.specs.Float.{Float, Format};
ghost use Rattle.std.specs.Int.{Width, w32, w64};
ghost use Rattle.base64.specs.GeneralPurpose.{IsBytes};
ghost use Rattle.wire_json.specs.Json.{Json, boolean, string};
ghost use Rattle.wire_protojson.specs.Enums.{AreTexts, EnumTable, IsEnumTree, MeansEnum, NamesAgree};
ghost use Rattle.wire_protojson.specs.Laws.{IsDecided, IsReadAs};
ghost use Rattle.wire_protojson.specs.Numbers.{MeansFloat, MeansSigned, MeansUnsigned};
ghost use Rattle.wire_protojson.specs.Scalars.{MeansBool, MeansBytes, MeansString};
ghost use Rattle.wire_protojson.specs.Trees.{IsFloatTree, bytes_tree, long_signed_tree, long_unsigned_tree, short_signed_tree, short_unsigned_tree};

/// Of the same bytes one value of a scalar type is read or one refusal told, and never both.
pub fn scalars_are_decided()
    ensures bools { IsDecided MeansBool }
    ensures signed { (w : Width) → IsDecided (MeansSigned w) }
    ensures unsigned { (bits : ℕ) → IsDecided (MeansUnsigned bits) }
    ensures floats { (f : Format) → IsDecided (MeansFloat f) }
    ensures strings { IsDecided MeansString }
    ensures bytes { IsDecided MeansBytes }
    ensures enums { (names : EnumTable) → IsDecided (MeansEnum names) }
{}

/// What is written of a value of a scalar type is read as that value.
pub fn scalars_are_read_back()
    ensures bools { (b : Bool) → IsReadAs MeansBool b (boolean b) }
    ensures int32 { (z : ℤ) → FitsSigned w32 z
        → IsReadAs (MeansSigned w32) z (short_signed_tree z) }
    ensures int64 { (z : ℤ) → FitsSigned w64 z
        → IsReadAs (MeansSigned w64) z (long_signed_tree z) }
    ensures uint32 { (n : ℕ) → n < 2 ^ 32
        → IsReadAs (MeansUnsigned 32) n (short_unsigned_tree n) }
    ensures uint64 { (n : ℕ) → n < 2 ^ 64
        → IsReadAs (MeansUnsigned 64) n (long_unsigned_tree n) }
    ensures floats { (f : Format) (x : Float) (json : Json) → IsFloatTree f x json
        → IsReadAs (MeansFloat f) x json }
    ensures strings { (s : List ℕ) → IsUtf8 s → IsReadAs MeansString s (string s) }
    ensures bytes { (b : List ℕ) → IsBytes b → IsReadAs MeansBytes b (bytes_tree b) }
    ensures enums { (names : EnumTable) (z : ℤ) (json : Json) → FitsSigned w32 z
        → NamesAgree names → AreTexts names → IsEnumTree names z json
        → IsReadAs (MeansEnum names) z json }
{}
