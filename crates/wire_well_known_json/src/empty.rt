//! The message `google.protobuf.Empty`, in JSON an object without members.
use std::alloc::Global;
use wire_codec::UnknownFields;
use wire_jsonfields::{JsonMessage, JsonValue, NoField, read_parts, write_parts};
use wire_protojson::{ReadError, WriteError};
use wire_well_known::Empty;

/// `google.protobuf.Empty` by the JSON mapping.
pub struct EmptyJson;

impl JsonValue for EmptyJson {
    ghost use Rattle.wire_jsonfields.specs.Messages.{IsObjectTree, ObjectMeans};
    ghost use Rattle.wire_jsonfields.specs.OneValues.{one_object};
    ghost use Rattle.wire_well_known_json.specs.EmptyJson.{Empty-Json, empty-json};
    ghost use Rattle.wire_well_known_json.specs.EmptyJson.{empty-json-absent, empty-json-back};
    ghost use Rattle.wire_well_known_json.specs.EmptyJson.{empty-json-one, empty-json-range};
    ghost use Rattle.wire_well_known_json.specs.EmptyJson.{empty-json-says, empty-json-trees};

    type Held = Empty;

    ghost Value = { Empty-Json };

    ghost view = { empty-json };

    ghost means = { ObjectMeans empty-json-says };

    ghost tree = { IsObjectTree empty-json-trees };

    ghost absent = { empty-json-absent };

    ghost one_value = { one_object empty-json-says empty-json-one };

    ghost in_range = { empty-json-range };

    ghost back = { empty-json-back };

    fn read_json(
        alloc: Global,
        text: &[u8],
        at: usize,
        levels: u32,
    ) -> Result<(Empty, usize), ReadError> {
        let (_nothing, after) = read_parts::<NoField<Empty>>(alloc, text, at, levels)?;
        Ok((
            Empty {
                unknown: UnknownFields::new(alloc),
            },
            after,
        ))
    }

    fn write_json(alloc: Global, out: &mut Vec<u8>, held: &Empty) -> Result<(), WriteError> {
        write_parts::<NoField<Empty>>(alloc, out, held)
    }
}

impl JsonMessage for EmptyJson {
    ghost use Rattle.wire_well_known_json.specs.EmptyJson.{empty-json-unsaid};

    ghost default_meant = { empty-json-unsaid };
}
