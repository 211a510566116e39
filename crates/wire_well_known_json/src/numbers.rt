//! Wrappers of booleans and floats, in JSON as what they hold.
use std::alloc::Global;
use wire_codec::UnknownFields;
use wire_jsonfields::{Implicit, JsonValue};
use wire_jsonkinds::{Double, Float};
use wire_protojson::{ReadError, WriteError};
use wire_well_known::{BoolValue, DoubleValue, FloatValue};

/// `google.protobuf.BoolValue` by the JSON mapping.
pub struct BoolValueJson;

impl JsonValue for BoolValueJson {
    ghost use Rattle.std.specs.Prelude.{Bool, false, ◌≡◌};
    ghost use Rattle.wire_json.specs.Json.{boolean};
    ghost use Rattle.wire_protojson.specs.DecidedScalars.{bools_decided};
    ghost use Rattle.wire_protojson.specs.Scalars.{MeansBool};
    ghost use Rattle.wire_jsonfields.specs.ScalarsBack.{bool_back};
    ghost use Rattle.wire_well_known_json.specs.Wrappers.{bool_value-json};

    type Held = BoolValue;

    ghost Value = { Bool };

    ghost view = { bool_value-json };

    ghost means = { MeansBool };

    ghost tree = { λ b json. json ≡ boolean b };

    ghost absent = { false };

    ghost one_value = { bools_decided.one_meaning };

    ghost in_range = { λ b. Unit {0} };

    ghost back = { λ b h. bool_back b };

    fn read_json(
        alloc: Global,
        text: &[u8],
        at: usize,
        levels: u32,
    ) -> Result<(BoolValue, usize), ReadError> {
        let (value, after) = Implicit::<bool>::read_json(alloc, text, at, levels)?;
        let unknown = UnknownFields::new(alloc);
        Ok((BoolValue { value, unknown }, after))
    }

    fn write_json(alloc: Global, out: &mut Vec<u8>, held: &BoolValue) -> Result<(), WriteError> {
        Implicit::<bool>::write_json(alloc, out, &held.value)
    }
}

/// `google.protobuf.FloatValue` by the JSON mapping.
pub struct FloatValueJson;

impl JsonValue for FloatValueJson {
    ghost use Rattle.std.specs.Float.{binary32, float_zero};
    ghost use Rattle.wire_protojson.specs.DecidedScalars.{floats_decided};
    ghost use Rattle.wire_protojson.specs.Numbers.{MeansFloat};
    ghost use Rattle.wire_protojson.specs.Trees.{IsFloatTree};
    ghost use Rattle.wire_jsonfields.specs.ScalarsBack.{float_back};
    ghost use Rattle.std.specs.Float as ieee;
    ghost use Rattle.wire_well_known_json.specs.Wrappers.{float_value-json};

    type Held = FloatValue;

    ghost Value = { ieee.Float };

    ghost view = { float_value-json };

    ghost means = { MeansFloat binary32 };

    ghost tree = { IsFloatTree binary32 };

    ghost absent = { float_zero };

    ghost one_value = { (floats_decided binary32).one_meaning };

    ghost in_range = { λ x. Unit {0} };

    ghost back = { λ x h. float_back binary32 x };

    fn read_json(
        alloc: Global,
        text: &[u8],
        at: usize,
        levels: u32,
    ) -> Result<(FloatValue, usize), ReadError> {
        let (value, after) = Implicit::<Float>::read_json(alloc, text, at, levels)?;
        let unknown = UnknownFields::new(alloc);
        Ok((FloatValue { value, unknown }, after))
    }

    fn write_json(alloc: Global, out: &mut Vec<u8>, held: &FloatValue) -> Result<(), WriteError> {
        Implicit::<Float>::write_json(alloc, out, &held.value)
    }
}

/// `google.protobuf.DoubleValue` by the JSON mapping.
pub struct DoubleValueJson;

impl JsonValue for DoubleValueJson {
    ghost use Rattle.std.specs.Float.{binary64, float_zero};
    ghost use Rattle.wire_protojson.specs.DecidedScalars.{floats_decided};
    ghost use Rattle.wire_protojson.specs.Numbers.{MeansFloat};
    ghost use Rattle.wire_protojson.specs.Trees.{IsFloatTree};
    ghost use Rattle.wire_jsonfields.specs.ScalarsBack.{float_back};
    ghost use Rattle.std.specs.Float as ieee;
    ghost use Rattle.wire_well_known_json.specs.Wrappers.{double_value-json};

    type Held = DoubleValue;

    ghost Value = { ieee.Float };

    ghost view = { double_value-json };

    ghost means = { MeansFloat binary64 };

    ghost tree = { IsFloatTree binary64 };

    ghost absent = { float_zero };

    ghost one_value = { (floats_decided binary64).one_meaning };

    ghost in_range = { λ x. Unit {0} };

    ghost back = { λ x h. float_back binary64 x };

    fn read_json(
        alloc: Global,
        text: &[u8],
        at: usize,
        levels: u32,
    ) -> Result<(DoubleValue, usize), ReadError> {
        let (value, after) = Implicit::<Double>::read_json(alloc, text, at, levels)?;
        let unknown = UnknownFields::new(alloc);
        Ok((DoubleValue { value, unknown }, after))
    }

    fn write_json(alloc: Global, out: &mut Vec<u8>, held: &DoubleValue) -> Result<(), WriteError> {
        Implicit::<Double>::write_json(alloc, out, &held.value)
    }
}
