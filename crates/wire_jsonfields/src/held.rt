//! Integers and booleans as what a message holds: `i32` for `int32`, `sint32` and `sfixed32`, and so
//! on.
ghost use Rattle.std.specs.Prelude.{◌≡◌, ◌≢◌, MatchBool};
ghost use Rattle.std.specs.Float.{float_zero};

use crate::kind::JsonScalar;
use std::alloc::{AllocError, Global};
use wire_protojson::{
    ReadError, read_bool, read_int32, read_int64, read_uint32, read_uint64, write_bool,
    write_int32, write_int64, write_uint32, write_uint64,
};

impl JsonScalar for i32 {
    ghost use Rattle.std.specs.Prelude.{FitsSigned};
    ghost use Rattle.wire_jsonfields.specs.ScalarsBack.{short_signed_back};
    ghost use Rattle.std.proofs.Common.{refl};
    ghost use Rattle.wire_jsonfields.specs.Flat.{flat_tree};
    ghost use Rattle.wire_protojson.specs.Trees.{short_signed_tree};
    ghost use Rattle.std.specs.Prelude.{◌≡◌, ℤ, pos};
    ghost use Rattle.std.specs.Int.{w32};
    ghost use Rattle.wire_protojson.specs.Numbers.{MeansSigned};
    ghost use Rattle.wire_protojson.specs.DecidedScalars.{signed_decided};

    type Held = i32;

    ghost Value = { ℤ };

    ghost view = { λ v. v };

    ghost means = { MeansSigned w32 };

    ghost tree = { λ z json. json ≡ short_signed_tree z };

    ghost default = { pos 0 };

    ghost decided = { signed_decided w32 };

    ghost flat = { λ z. flat_tree (short_signed_tree z) refl };

    ghost in_range = { FitsSigned w32 };

    ghost back = { short_signed_back };

    fn default_value(_alloc: Global) -> i32 {
        0
    }

    fn read_json(alloc: Global, text: &[u8], at: usize) -> Result<(i32, usize), ReadError> {
        read_int32(alloc, text, at)
    }

    fn is_default(held: &i32) -> bool {
        *held == 0
    }

    fn write_json(_alloc: Global, out: &mut Vec<u8>, held: &i32) -> Result<(), AllocError> {
        write_int32(out, *held)
    }
}

impl JsonScalar for i64 {
    ghost use Rattle.std.specs.Prelude.{FitsSigned};
    ghost use Rattle.wire_jsonfields.specs.ScalarsBack.{long_signed_back};
    ghost use Rattle.std.proofs.Common.{refl};
    ghost use Rattle.wire_jsonfields.specs.Flat.{flat_tree};
    ghost use Rattle.wire_protojson.specs.Trees.{long_signed_tree};
    ghost use Rattle.std.specs.Prelude.{◌≡◌, ℤ, pos};
    ghost use Rattle.std.specs.Int.{w64};
    ghost use Rattle.wire_protojson.specs.Numbers.{MeansSigned};
    ghost use Rattle.wire_protojson.specs.DecidedScalars.{signed_decided};

    type Held = i64;

    ghost Value = { ℤ };

    ghost view = { λ v. v };

    ghost means = { MeansSigned w64 };

    ghost tree = { λ z json. json ≡ long_signed_tree z };

    ghost default = { pos 0 };

    ghost decided = { signed_decided w64 };

    ghost flat = { λ z. flat_tree (long_signed_tree z) refl };

    ghost in_range = { FitsSigned w64 };

    ghost back = { long_signed_back };

    fn default_value(_alloc: Global) -> i64 {
        0
    }

    fn read_json(alloc: Global, text: &[u8], at: usize) -> Result<(i64, usize), ReadError> {
        read_int64(alloc, text, at)
    }

    fn is_default(held: &i64) -> bool {
        *held == 0
    }

    fn write_json(_alloc: Global, out: &mut Vec<u8>, held: &i64) -> Result<(), AllocError> {
        write_int64(out, *held)
    }
}

impl JsonScalar for u32 {
    ghost use Rattle.std.specs.Prelude.{◌<◌, ◌^◌};
    ghost use Rattle.wire_jsonfields.specs.ScalarsBack.{short_unsigned_back};
    ghost use Rattle.std.proofs.Common.{refl};
    ghost use Rattle.wire_jsonfields.specs.Flat.{flat_tree};
    ghost use Rattle.wire_protojson.specs.Trees.{short_unsigned_tree};
    ghost use Rattle.std.specs.Prelude.{◌≡◌, ℕ};
    ghost use Rattle.wire_protojson.specs.Numbers.{MeansUnsigned};
    ghost use Rattle.wire_protojson.specs.DecidedScalars.{unsigned_decided};

    type Held = u32;

    ghost Value = { ℕ };

    ghost view = { λ v. v };

    ghost means = { MeansUnsigned 32 };

    ghost tree = { λ n json. json ≡ short_unsigned_tree n };

    ghost default = { 0 };

    ghost decided = { unsigned_decided 32 };

    ghost flat = { λ n. flat_tree (short_unsigned_tree n) refl };

    ghost in_range = { λ n. n < 2 ^ 32 };

    ghost back = { short_unsigned_back };

    fn default_value(_alloc: Global) -> u32 {
        0
    }

    fn read_json(alloc: Global, text: &[u8], at: usize) -> Result<(u32, usize), ReadError> {
        read_uint32(alloc, text, at)
    }

    fn is_default(held: &u32) -> bool {
        *held == 0
    }

    fn write_json(_alloc: Global, out: &mut Vec<u8>, held: &u32) -> Result<(), AllocError> {
        write_uint32(out, *held)
    }
}

impl JsonScalar for u64 {
    ghost use Rattle.std.specs.Prelude.{◌<◌, ◌^◌};
    ghost use Rattle.wire_jsonfields.specs.ScalarsBack.{long_unsigned_back};
    ghost use Rattle.std.proofs.Common.{refl};
    ghost use Rattle.wire_jsonfields.specs.Flat.{flat_tree};
    ghost use Rattle.wire_protojson.specs.Trees.{long_unsigned_tree};
    ghost use Rattle.std.specs.Prelude.{◌≡◌, ℕ};
    ghost use Rattle.wire_protojson.specs.Numbers.{MeansUnsigned};
    ghost use Rattle.wire_protojson.specs.DecidedScalars.{unsigned_decided};

    type Held = u64;

    ghost Value = { ℕ };

    ghost view = { λ v. v };

    ghost means = { MeansUnsigned 64 };

    ghost tree = { λ n json. json ≡ long_unsigned_tree n };

    ghost default = { 0 };

    ghost decided = { unsigned_decided 64 };

    ghost flat = { λ n. flat_tree (long_unsigned_tree n) refl };

    ghost in_range = { λ n. n < 2 ^ 64 };

    ghost back = { long_unsigned_back };

    fn default_value(_alloc: Global) -> u64 {
        0
    }

    fn read_json(alloc: Global, text: &[u8], at: usize) -> Result<(u64, usize), ReadError> {
        read_uint64(alloc, text, at)
    }

    fn is_default(held: &u64) -> bool {
        *held == 0
    }

    fn write_json(_alloc: Global, out: &mut Vec<u8>, held: &u64) -> Result<(), AllocError> {
        write_uint64(out, *held)
    }
}

impl JsonScalar for bool {
    ghost use Rattle.wire_jsonfields.specs.ScalarsBack.{bool_back};
    ghost use Rattle.std.proofs.Common.{refl};
    ghost use Rattle.wire_jsonfields.specs.Flat.{flat_tree};
    ghost use Rattle.wire_json.specs.Json.{boolean};
    ghost use Rattle.std.specs.Prelude.{◌≡◌, Bool, false};
    ghost use Rattle.wire_protojson.specs.Scalars.{MeansBool};
    ghost use Rattle.wire_protojson.specs.DecidedScalars.{bools_decided};

    type Held = bool;

    ghost Value = { Bool };

    ghost view = { λ v. v };

    ghost means = { MeansBool };

    ghost tree = { λ b json. json ≡ boolean b };

    ghost default = { false };

    ghost decided = { bools_decided };

    ghost flat = { λ b. flat_tree (boolean b) refl };

    ghost in_range = { λ b. Unit {0} };

    ghost back = { λ b h. bool_back b };

    fn default_value(_alloc: Global) -> bool {
        false
    }

    fn read_json(alloc: Global, text: &[u8], at: usize) -> Result<(bool, usize), ReadError> {
        read_bool(alloc, text, at)
    }

    fn is_default(held: &bool) -> bool {
        !*held
    }

    fn write_json(_alloc: Global, out: &mut Vec<u8>, held: &bool) -> Result<(), AllocError> {
        write_bool(out, *held)
    }
}
