//! Floats, strings and bytes as what a message holds.
ghost use Rattle.std.specs.Prelude.{◌≡◌, ◌≢◌, MatchBool};
ghost use Rattle.std.specs.Float.{float_zero};

use crate::kind::JsonScalar;
use std::alloc::{AllocError, Global};
use wire_protojson::{
    ReadError, read_bytes, read_double, read_float, read_string, write_bytes, write_double,
    write_float, write_string,
};

impl JsonScalar for f32 {
    ghost use Rattle.wire_jsonfields.specs.ScalarsBack.{float_back};
    ghost use Rattle.wire_jsonfields.specs.Flat.{flat_float};
    ghost use Rattle.wire_protojson.specs.Trees.{IsFloatTree};
    ghost use Rattle.std.specs.Float.{Float, binary32, float_zero};
    ghost use Rattle.wire_protojson.specs.Numbers.{MeansFloat};
    ghost use Rattle.wire_protojson.specs.DecidedScalars.{floats_decided};

    type Held = f32;

    ghost Value = { Float };

    ghost view = { λ v. v };

    ghost means = { MeansFloat binary32 };

    ghost tree = { IsFloatTree binary32 };

    ghost default = { float_zero };

    ghost decided = { floats_decided binary32 };

    ghost flat = { flat_float binary32 };

    ghost in_range = { λ x. Unit {0} };

    ghost back = { λ x h. float_back binary32 x };

    fn default_value(_alloc: Global) -> f32 {
        0.0
    }

    fn read_json(alloc: Global, text: &[u8], at: usize) -> Result<(f32, usize), ReadError> {
        read_float(alloc, text, at)
    }

    fn is_default(held: &f32) -> bool {
        is_zero_float(*held)
    }

    fn write_json(_alloc: Global, out: &mut Vec<u8>, held: &f32) -> Result<(), AllocError> {
        write_float(out, *held)
    }
}

impl JsonScalar for f64 {
    ghost use Rattle.wire_jsonfields.specs.ScalarsBack.{float_back};
    ghost use Rattle.wire_jsonfields.specs.Flat.{flat_float};
    ghost use Rattle.wire_protojson.specs.Trees.{IsFloatTree};
    ghost use Rattle.std.specs.Float.{Float, binary64, float_zero};
    ghost use Rattle.wire_protojson.specs.Numbers.{MeansFloat};
    ghost use Rattle.wire_protojson.specs.DecidedScalars.{floats_decided};

    type Held = f64;

    ghost Value = { Float };

    ghost view = { λ v. v };

    ghost means = { MeansFloat binary64 };

    ghost tree = { IsFloatTree binary64 };

    ghost default = { float_zero };

    ghost decided = { floats_decided binary64 };

    ghost flat = { flat_float binary64 };

    ghost in_range = { λ x. Unit {0} };

    ghost back = { λ x h. float_back binary64 x };

    fn default_value(_alloc: Global) -> f64 {
        0.0
    }

    fn read_json(alloc: Global, text: &[u8], at: usize) -> Result<(f64, usize), ReadError> {
        read_double(alloc, text, at)
    }

    fn is_default(held: &f64) -> bool {
        is_zero_double(*held)
    }

    fn write_json(_alloc: Global, out: &mut Vec<u8>, held: &f64) -> Result<(), AllocError> {
        write_double(out, *held)
    }
}

impl JsonScalar for String {
    ghost use Rattle.std.specs.Prelude.{IsUtf8};
    ghost use Rattle.wire_jsonfields.specs.ScalarsBack.{text_back};
    ghost use Rattle.std.proofs.Common.{refl};
    ghost use Rattle.wire_jsonfields.specs.Flat.{flat_tree};
    ghost use Rattle.wire_json.specs.Json.{string};
    ghost use Rattle.std.specs.Prelude.{◌≡◌, ℕ, List, [], string_bytes};
    ghost use Rattle.wire_protojson.specs.Scalars.{MeansString};
    ghost use Rattle.wire_protojson.specs.DecidedScalars.{strings_decided};

    type Held = String;

    ghost Value = { List ℕ };

    ghost view = { λ s. string_bytes s };

    ghost means = { MeansString };

    ghost tree = { λ s json. json ≡ string s };

    ghost default = { [] };

    ghost decided = { strings_decided };

    ghost flat = { λ s. flat_tree (string s) refl };

    ghost in_range = { IsUtf8 };

    ghost back = { text_back };

    fn default_value(alloc: Global) -> String {
        String::new(alloc)
    }

    fn read_json(alloc: Global, text: &[u8], at: usize) -> Result<(String, usize), ReadError> {
        read_string(alloc, text, at)
    }

    fn is_default(held: &String) -> bool {
        held.is_empty()
    }

    fn write_json(_alloc: Global, out: &mut Vec<u8>, held: &String) -> Result<(), AllocError> {
        write_string(out, held.as_str())
    }
}

impl JsonScalar for Vec<u8> {
    ghost use Rattle.base64.specs.GeneralPurpose.{IsBytes};
    ghost use Rattle.wire_jsonfields.specs.ScalarsBack.{base64_back};
    ghost use Rattle.std.proofs.Common.{refl};
    ghost use Rattle.wire_jsonfields.specs.Flat.{flat_tree};
    ghost use Rattle.wire_protojson.specs.Trees.{bytes_tree};
    ghost use Rattle.std.specs.Prelude.{◌≡◌, ℕ, List, []};
    ghost use Rattle.wire_protojson.specs.Scalars.{MeansBytes};
    ghost use Rattle.wire_protojson.specs.DecidedScalars.{bytes_decided};

    type Held = Vec<u8>;

    ghost Value = { List ℕ };

    ghost view = { λ v. v.items };

    ghost means = { MeansBytes };

    ghost tree = { λ b json. json ≡ bytes_tree b };

    ghost default = { [] };

    ghost decided = { bytes_decided };

    ghost flat = { λ b. flat_tree (bytes_tree b) refl };

    ghost in_range = { IsBytes };

    ghost back = { base64_back };

    fn default_value(alloc: Global) -> Vec<u8> {
        Vec::new(alloc)
    }

    fn read_json(alloc: Global, text: &[u8], at: usize) -> Result<(Vec<u8>, usize), ReadError> {
        read_bytes(alloc, text, at)
    }

    fn is_default(held: &Vec<u8>) -> bool {
        held.is_empty()
    }

    fn write_json(alloc: Global, out: &mut Vec<u8>, held: &Vec<u8>) -> Result<(), AllocError> {
        write_bytes(alloc, out, held)
    }
}

// Whether this is zero, and not minus zero.
fn is_zero_float(value: f32) -> bool
    ensures { MatchBool result (value ≡ float_zero) (value ≢ float_zero) }
{
    if value.is_nan() {
        return false;
    }
    value.to_bits() == 0
}

fn is_zero_double(value: f64) -> bool
    ensures { MatchBool result (value ≡ float_zero) (value ≢ float_zero) }
{
    if value.is_nan() {
        return false;
    }
    value.to_bits() == 0
}
