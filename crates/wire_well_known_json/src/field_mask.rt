//! Field masks, in JSON as strings.
use crate::masks::{read_mask, write_mask};
use std::alloc::Global;
use wire_codec::UnknownFields;
use wire_jsonfields::JsonValue;
use wire_protojson::{ReadError, WriteError};
use wire_well_known::FieldMask;

/// `google.protobuf.FieldMask` by the JSON mapping: its paths with commas between, in which a
/// capital of ASCII stands for an underscore and its small letter. What would not be read as the
/// same paths has no text.
pub struct FieldMaskJson;

impl JsonValue for FieldMaskJson {
    ghost use Rattle.std.specs.Prelude.{List, [], ℕ};
    ghost use Rattle.wire_well_known_json.specs.FieldMasks.{IsAnyMask, field_mask-json, mask_back, one_mask};
    ghost use Rattle.wire_well_known_json.specs.Masks.{IsMaskTree, MeansMask};

    type Held = FieldMask;

    ghost Value = { List (List ℕ) };

    ghost view = { field_mask-json };

    ghost means = { MeansMask };

    ghost tree = { IsMaskTree };

    ghost absent = { [] };

    ghost one_value = { one_mask };

    ghost in_range = { IsAnyMask };

    ghost back = { mask_back };

    fn read_json(
        alloc: Global,
        text: &[u8],
        at: usize,
        _levels: u32,
    ) -> Result<(FieldMask, usize), ReadError> {
        let (paths, after) = read_mask(alloc, text, at)?;
        let unknown = UnknownFields::new(alloc);
        Ok((FieldMask { paths, unknown }, after))
    }

    fn write_json(alloc: Global, out: &mut Vec<u8>, held: &FieldMask) -> Result<(), WriteError> {
        write_mask(alloc, out, &held.paths)
    }
}
