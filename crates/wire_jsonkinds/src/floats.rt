//! `float` and `double` by their bits. A NaN is written as `NaN`, whichever it is, and is read as the
//! quiet one.
ghost use Rattle.std.specs.Prelude.{◌≡◌, from_bits};
ghost use Rattle.std.specs.Float.{binary32, binary64};

use std::alloc::{AllocError, Global};
use wire_fields::{DoubleBits, FloatBits};
use wire_jsonfields::JsonScalar;
use wire_protojson::{ReadError, read_double, read_float, write_double, write_float};

/// A `double`.
pub struct Double;

impl JsonScalar for Double {
    ghost use Rattle.std.specs.Float.{Float, float_zero};
    ghost use Rattle.wire_protojson.specs.DecidedScalars.{floats_decided};
    ghost use Rattle.wire_protojson.specs.Numbers.{MeansFloat};
    ghost use Rattle.wire_protojson.specs.Trees.{IsFloatTree};
    ghost use Rattle.wire_jsonfields.specs.Flat.{flat_float};
    ghost use Rattle.wire_jsonfields.specs.ScalarsBack.{float_back};

    type Held = DoubleBits;

    ghost Value = { Float };

    ghost view = { λ held. from_bits binary64 held.bits };

    ghost means = { MeansFloat binary64 };

    ghost tree = { IsFloatTree binary64 };

    ghost default = { float_zero };

    ghost decided = { floats_decided binary64 };

    ghost flat = { flat_float binary64 };

    ghost in_range = { λ x. Unit {0} };

    ghost back = { λ x h. float_back binary64 x };

    fn default_value(_alloc: Global) -> DoubleBits {
        DoubleBits { bits: 0 }
    }

    fn read_json(alloc: Global, text: &[u8], at: usize) -> Result<(DoubleBits, usize), ReadError> {
        match read_double(alloc, text, at) {
            Ok((value, after)) => Ok((double_bits(value), after)),
            Err(error) => Err(error),
        }
    }

    fn is_default(held: &DoubleBits) -> bool {
        match held.get() {
            Some(value) => f64::is_default(&value),
            None => false,
        }
    }

    fn write_json(_alloc: Global, out: &mut Vec<u8>, held: &DoubleBits) -> Result<(), AllocError> {
        match held.get() {
            Some(value) => write_double(out, value),
            None => write_double(out, f64::NAN),
        }
    }
}

/// A `float`.
pub struct Float;

impl JsonScalar for Float {
    ghost use Rattle.std.specs.Float.{float_zero};
    ghost use Rattle.std.specs.Float as ieee;
    ghost use Rattle.wire_protojson.specs.DecidedScalars.{floats_decided};
    ghost use Rattle.wire_protojson.specs.Numbers.{MeansFloat};
    ghost use Rattle.wire_protojson.specs.Trees.{IsFloatTree};
    ghost use Rattle.wire_jsonfields.specs.Flat.{flat_float};
    ghost use Rattle.wire_jsonfields.specs.ScalarsBack.{float_back};

    type Held = FloatBits;

    ghost Value = { ieee.Float };

    ghost view = { λ held. from_bits binary32 held.bits };

    ghost means = { MeansFloat binary32 };

    ghost tree = { IsFloatTree binary32 };

    ghost default = { float_zero };

    ghost decided = { floats_decided binary32 };

    ghost flat = { flat_float binary32 };

    ghost in_range = { λ x. Unit {0} };

    ghost back = { λ x h. float_back binary32 x };

    fn default_value(_alloc: Global) -> FloatBits {
        FloatBits { bits: 0 }
    }

    fn read_json(alloc: Global, text: &[u8], at: usize) -> Result<(FloatBits, usize), ReadError> {
        match read_float(alloc, text, at) {
            Ok((value, after)) => Ok((float_bits(value), after)),
            Err(error) => Err(error),
        }
    }

    fn is_default(held: &FloatBits) -> bool {
        match held.get() {
            Some(value) => f32::is_default(&value),
            None => false,
        }
    }

    fn write_json(_alloc: Global, out: &mut Vec<u8>, held: &FloatBits) -> Result<(), AllocError> {
        match held.get() {
            Some(value) => write_float(out, value),
            None => write_float(out, f32::NAN),
        }
    }
}

fn double_bits(value: f64) -> DoubleBits
    ensures { from_bits binary64 result.bits ≡ value }
{
    DoubleBits::from_f64(value)
}

fn float_bits(value: f32) -> FloatBits
    ensures { from_bits binary32 result.bits ≡ value }
{
    FloatBits::from_f32(value)
}
