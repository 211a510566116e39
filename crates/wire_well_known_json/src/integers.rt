//! Wrappers of integers, in JSON as what they hold.
use std::alloc::Global;
use wire_codec::UnknownFields;
use wire_jsonfields::{Implicit, JsonValue};
use wire_protojson::{ReadError, WriteError};
use wire_well_known::{Int32Value, Int64Value, UInt32Value, UInt64Value};

/// `google.protobuf.Int32Value` by the JSON mapping.
pub struct Int32ValueJson;

impl JsonValue for Int32ValueJson {
    ghost use Rattle.std.specs.Int.{w32};
    ghost use Rattle.std.specs.Prelude.{FitsSigned, pos, ℤ, ◌≡◌};
    ghost use Rattle.wire_protojson.specs.DecidedScalars.{signed_decided};
    ghost use Rattle.wire_protojson.specs.Numbers.{MeansSigned};
    ghost use Rattle.wire_protojson.specs.Trees.{short_signed_tree};
    ghost use Rattle.wire_jsonfields.specs.ScalarsBack.{short_signed_back};
    ghost use Rattle.wire_well_known_json.specs.Wrappers.{int32_value-json};

    type Held = Int32Value;

    ghost Value = { ℤ };

    ghost view = { int32_value-json };

    ghost means = { MeansSigned w32 };

    ghost tree = { λ z json. json ≡ short_signed_tree z };

    ghost absent = { pos 0 };

    ghost one_value = { (signed_decided w32).one_meaning };

    ghost in_range = { FitsSigned w32 };

    ghost back = { short_signed_back };

    fn read_json(
        alloc: Global,
        text: &[u8],
        at: usize,
        levels: u32,
    ) -> Result<(Int32Value, usize), ReadError> {
        let (value, after) = Implicit::<i32>::read_json(alloc, text, at, levels)?;
        let unknown = UnknownFields::new(alloc);
        Ok((Int32Value { value, unknown }, after))
    }

    fn write_json(alloc: Global, out: &mut Vec<u8>, held: &Int32Value) -> Result<(), WriteError> {
        Implicit::<i32>::write_json(alloc, out, &held.value)
    }
}

/// `google.protobuf.Int64Value` by the JSON mapping.
pub struct Int64ValueJson;

impl JsonValue for Int64ValueJson {
    ghost use Rattle.std.specs.Int.{w64};
    ghost use Rattle.std.specs.Prelude.{FitsSigned, pos, ℤ, ◌≡◌};
    ghost use Rattle.wire_protojson.specs.DecidedScalars.{signed_decided};
    ghost use Rattle.wire_protojson.specs.Numbers.{MeansSigned};
    ghost use Rattle.wire_protojson.specs.Trees.{long_signed_tree};
    ghost use Rattle.wire_jsonfields.specs.ScalarsBack.{long_signed_back};
    ghost use Rattle.wire_well_known_json.specs.Wrappers.{int64_value-json};

    type Held = Int64Value;

    ghost Value = { ℤ };

    ghost view = { int64_value-json };

    ghost means = { MeansSigned w64 };

    ghost tree = { λ z json. json ≡ long_signed_tree z };

    ghost absent = { pos 0 };

    ghost one_value = { (signed_decided w64).one_meaning };

    ghost in_range = { FitsSigned w64 };

    ghost back = { long_signed_back };

    fn read_json(
        alloc: Global,
        text: &[u8],
        at: usize,
        levels: u32,
    ) -> Result<(Int64Value, usize), ReadError> {
        let (value, after) = Implicit::<i64>::read_json(alloc, text, at, levels)?;
        let unknown = UnknownFields::new(alloc);
        Ok((Int64Value { value, unknown }, after))
    }

    fn write_json(alloc: Global, out: &mut Vec<u8>, held: &Int64Value) -> Result<(), WriteError> {
        Implicit::<i64>::write_json(alloc, out, &held.value)
    }
}

/// `google.protobuf.UInt32Value` by the JSON mapping.
pub struct UInt32ValueJson;

impl JsonValue for UInt32ValueJson {
    ghost use Rattle.std.specs.Prelude.{◌<◌, ◌^◌, ℕ, ◌≡◌};
    ghost use Rattle.wire_protojson.specs.DecidedScalars.{unsigned_decided};
    ghost use Rattle.wire_protojson.specs.Numbers.{MeansUnsigned};
    ghost use Rattle.wire_protojson.specs.Trees.{short_unsigned_tree};
    ghost use Rattle.wire_jsonfields.specs.ScalarsBack.{short_unsigned_back};
    ghost use Rattle.wire_well_known_json.specs.Wrappers.{uint32_value-json};

    type Held = UInt32Value;

    ghost Value = { ℕ };

    ghost view = { uint32_value-json };

    ghost means = { MeansUnsigned 32 };

    ghost tree = { λ n json. json ≡ short_unsigned_tree n };

    ghost absent = { 0 };

    ghost one_value = { (unsigned_decided 32).one_meaning };

    ghost in_range = { λ n. n < 2 ^ 32 };

    ghost back = { short_unsigned_back };

    fn read_json(
        alloc: Global,
        text: &[u8],
        at: usize,
        levels: u32,
    ) -> Result<(UInt32Value, usize), ReadError> {
        let (value, after) = Implicit::<u32>::read_json(alloc, text, at, levels)?;
        let unknown = UnknownFields::new(alloc);
        Ok((UInt32Value { value, unknown }, after))
    }

    fn write_json(alloc: Global, out: &mut Vec<u8>, held: &UInt32Value) -> Result<(), WriteError> {
        Implicit::<u32>::write_json(alloc, out, &held.value)
    }
}

/// `google.protobuf.UInt64Value` by the JSON mapping.
pub struct UInt64ValueJson;

impl JsonValue for UInt64ValueJson {
    ghost use Rattle.std.specs.Prelude.{◌<◌, ◌^◌, ℕ, ◌≡◌};
    ghost use Rattle.wire_protojson.specs.DecidedScalars.{unsigned_decided};
    ghost use Rattle.wire_protojson.specs.Numbers.{MeansUnsigned};
    ghost use Rattle.wire_protojson.specs.Trees.{long_unsigned_tree};
    ghost use Rattle.wire_jsonfields.specs.ScalarsBack.{long_unsigned_back};
    ghost use Rattle.wire_well_known_json.specs.Wrappers.{uint64_value-json};

    type Held = UInt64Value;

    ghost Value = { ℕ };

    ghost view = { uint64_value-json };

    ghost means = { MeansUnsigned 64 };

    ghost tree = { λ n json. json ≡ long_unsigned_tree n };

    ghost absent = { 0 };

    ghost one_value = { (unsigned_decided 64).one_meaning };

    ghost in_range = { λ n. n < 2 ^ 64 };

    ghost back = { long_unsigned_back };

    fn read_json(
        alloc: Global,
        text: &[u8],
        at: usize,
        levels: u32,
    ) -> Result<(UInt64Value, usize), ReadError> {
        let (value, after) = Implicit::<u64>::read_json(alloc, text, at, levels)?;
        let unknown = UnknownFields::new(alloc);
        Ok((UInt64Value { value, unknown }, after))
    }

    fn write_json(alloc: Global, out: &mut Vec<u8>, held: &UInt64Value) -> Result<(), WriteError> {
        Implicit::<u64>::write_json(alloc, out, &held.value)
    }
}
