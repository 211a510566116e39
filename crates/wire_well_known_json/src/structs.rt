//! `Value`, `Struct` and `ListValue`: any JSON, objects and arrays.
use crate::structs_read::{list_with, read_fields, read_value, read_values, struct_with};
use crate::structs_write::{write_fields, write_value, write_values};
use std::alloc::Global;
use wire_jsonfields::{JsonMessage, JsonValue};
use wire_protojson::{ReadError, WriteError};
use wire_well_known::{ListValue, Struct, Value};

/// `google.protobuf.Value` by the JSON mapping: any JSON, of which a number is the double nearest
/// to it. A value without a kind and a number that is not finite have no text. `null` is a value,
/// but leaves a field absent that `read_nullable` does not read.
pub struct ValueJson;

impl JsonValue for ValueJson {
    ghost use Rattle.wire_well_known_json.specs.OnePlain.{one_plain};
    ghost use Rattle.wire_well_known_json.specs.StructKinds.{IsNotNull, value_back};
    ghost use Rattle.wire_well_known_json.specs.Structs.{IsValueTree, MeansValue, Plain, nothing, value-plain};

    type Held = Value;

    ghost Value = { Plain };

    ghost view = { value-plain };

    ghost means = { MeansValue };

    ghost tree = { IsValueTree };

    ghost absent = { nothing };

    ghost one_value = { one_plain };

    ghost in_range = { IsNotNull };

    ghost back = { value_back };

    fn read_json(
        alloc: Global,
        text: &[u8],
        at: usize,
        levels: u32,
    ) -> Result<(Value, usize), ReadError> {
        read_value(alloc, text, at, levels)
    }

    fn write_json(alloc: Global, out: &mut Vec<u8>, held: &Value) -> Result<(), WriteError> {
        write_value(alloc, out, held)
    }
}

/// `google.protobuf.Struct` by the JSON mapping: an object, of which each member is a field.
pub struct StructJson;

impl JsonValue for StructJson {
    ghost use Rattle.std.specs.Prelude.{[]};
    ghost use Rattle.wire_well_known_json.specs.StructKinds.{IsAnyStruct, IsStructTree, MeansStruct};
    ghost use Rattle.wire_well_known_json.specs.StructKinds.{one_struct, struct_back};
    ghost use Rattle.wire_well_known_json.specs.Structs.{Plain-Fields, struct-plain};

    type Held = Struct;

    ghost Value = { Plain-Fields };

    ghost view = { struct-plain };

    ghost means = { MeansStruct };

    ghost tree = { IsStructTree };

    ghost absent = { [] };

    ghost one_value = { one_struct };

    ghost in_range = { IsAnyStruct };

    ghost back = { struct_back };

    fn read_json(
        alloc: Global,
        text: &[u8],
        at: usize,
        levels: u32,
    ) -> Result<(Struct, usize), ReadError> {
        match read_fields(alloc, text, at, levels) {
            Ok((fields, after)) => Ok((struct_with(alloc, fields), after)),
            Err(error) => Err(error),
        }
    }

    fn write_json(alloc: Global, out: &mut Vec<u8>, held: &Struct) -> Result<(), WriteError> {
        write_fields(alloc, out, &held.fields)
    }
}

impl JsonMessage for StructJson {
    ghost use Rattle.wire_well_known_json.specs.StructKinds.{no_fields_meant};

    ghost default_meant = { no_fields_meant };
}

/// `google.protobuf.ListValue` by the JSON mapping: an array, of which each element is a value.
pub struct ListValueJson;

impl JsonValue for ListValueJson {
    ghost use Rattle.std.specs.Prelude.{List, []};
    ghost use Rattle.wire_well_known_json.specs.StructKinds.{IsAnyList, IsListValueTree, MeansListValue};
    ghost use Rattle.wire_well_known_json.specs.StructKinds.{list_value_back, one_list_value};
    ghost use Rattle.wire_well_known_json.specs.Structs.{Plain, list_value-plain};

    type Held = ListValue;

    ghost Value = { List Plain };

    ghost view = { list_value-plain };

    ghost means = { MeansListValue };

    ghost tree = { IsListValueTree };

    ghost absent = { [] };

    ghost one_value = { one_list_value };

    ghost in_range = { IsAnyList };

    ghost back = { list_value_back };

    fn read_json(
        alloc: Global,
        text: &[u8],
        at: usize,
        levels: u32,
    ) -> Result<(ListValue, usize), ReadError> {
        match read_values(alloc, text, at, levels) {
            Ok((values, after)) => Ok((list_with(alloc, values), after)),
            Err(error) => Err(error),
        }
    }

    fn write_json(alloc: Global, out: &mut Vec<u8>, held: &ListValue) -> Result<(), WriteError> {
        write_values(alloc, out, &held.values)
    }
}
