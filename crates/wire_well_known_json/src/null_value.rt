//! The enum `NullValue`, which is `null`.
ghost use Rattle.std.specs.Prelude.{◌≡◌, ◌≢◌, Some, drop, IfOk, IfErr, MatchBool};
ghost use Rattle.wire_codec.specs.Enumeration.{number_of};
ghost use Rattle.wire_json.specs.declared.kind.Kind.TheVariants as kinds;
ghost use Rattle.wire_json.specs.Answer.{IsBehind};
ghost use Rattle.wire_json.specs.Kind.{kind_begun};
ghost use Rattle.wire_jsonfields.specs.Levels.{NothingMeant, ReadsWithin};
ghost use Rattle.wire_protojson.specs.declared.refusal.ReadError.TheVariants.{OutOfMemory};
ghost use Rattle.wire_protojson.specs.Enums.{MeansEnum};
ghost use Rattle.wire_well_known.specs.NullValue.{null_value-number};
ghost use Rattle.wire_well_known_json.specs.NullValues.{null_value-json-names};

use std::alloc::Global;
use wire_codec::EnumValue;
use wire_jsonfields::{Implicit, JsonKind, JsonValue};
use wire_jsonkinds::{EnumNamed, JsonNames};
use wire_protojson::{EnumName, ReadError, WriteError, no_json};
use wire_well_known::NullValue;

// The names of the enum.
struct NullNames;

const NAMES: [EnumName<'static>; 1] = [EnumName {
    name: "NULL_VALUE",
    number: 0,
}];

impl JsonNames for NullNames {
    ghost use Rattle.wire_well_known_json.specs.NullValues.{null_value-json-agree};
    ghost use Rattle.wire_well_known_json.specs.NullValues.{null_value-json-texts};

    type Enum = NullValue;

    ghost table = { null_value-json-names };

    ghost agree = { null_value-json-agree };

    ghost texts = { null_value-json-texts };

    fn names() -> &'static [EnumName<'static>] {
        &NAMES
    }
}

/// `google.protobuf.NullValue` by the JSON mapping: `null`, whatever its number. It is read of
/// `null`, whose number is 0, and as other enums are. A field of it is absent where it is `null`,
/// unless `read_nullable` reads it.
pub struct NullValueJson;

impl JsonValue for NullValueJson {
    ghost use Rattle.std.specs.Prelude.{ℤ, pos};
    ghost use Rattle.wire_well_known_json.specs.NullValues.{IsNoNull, IsNullTree, MeansNull};
    ghost use Rattle.wire_well_known_json.specs.NullValues.{no_null_back, one_null};

    type Held = EnumValue<NullValue>;

    ghost Value = { ℤ };

    ghost view = { number_of null_value-number };

    ghost means = { MeansNull };

    ghost tree = { IsNullTree };

    ghost absent = { pos 0 };

    ghost one_value = { one_null };

    ghost in_range = { IsNoNull };

    ghost back = { no_null_back };

    fn read_json(
        alloc: Global,
        text: &[u8],
        at: usize,
        levels: u32,
    ) -> Result<(EnumValue<NullValue>, usize), ReadError> {
        if !is_null(text, at) {
            return read_named(alloc, text, at, levels);
        }
        match wire_json::skip_null(text, at) {
            Ok(after) => Ok((EnumValue::from(0), after)),
            Err(fault) => Err(no_json(fault)),
        }
    }

    fn write_json(
        _alloc: Global,
        out: &mut Vec<u8>,
        _held: &EnumValue<NullValue>,
    ) -> Result<(), WriteError> {
        wire_json::write_null(out)?;
        Ok(())
    }
}

impl JsonKind for NullValueJson {
    fn absent_value(_alloc: Global) -> EnumValue<NullValue> {
        EnumValue::from(0)
    }

    fn is_absent(held: &EnumValue<NullValue>) -> bool {
        held.to_i32() == 0
    }
}

// Reads a name or a number, as of other enums.
fn read_named(
    alloc: Global,
    text: &[u8],
    at: usize,
    levels: u32,
) -> Result<(EnumValue<NullValue>, usize), ReadError>
    ensures ok { IfOk result (λ read. ReadsWithin levels (MeansEnum null_value-json-names)
        (drop at text.now) (number_of null_value-number read.0) (drop read.1 text.now)) }
    ensures behind { IfOk result (λ read. IsBehind at read.1 text.now) }
    ensures err { IfErr result (λ e. e ≢ OutOfMemory
        → NothingMeant levels (MeansEnum null_value-json-names) (drop at text.now)) }
{
    <Implicit<EnumNamed<NullNames>>>::read_json(alloc, text, at, levels)
}

fn is_null(text: &[u8], at: usize) -> bool
    ensures { MatchBool result (kind_begun (drop at text.now) ≡ Some kinds.Null)
        (kind_begun (drop at text.now) ≡ Some kinds.Null → ⊥) }
{
    match wire_json::kind_at(text, at) {
        Some(kind) => kind == wire_json::Kind::Null,
        None => false,
    }
}
