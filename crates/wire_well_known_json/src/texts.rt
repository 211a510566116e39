//! Wrappers of strings and bytes, in JSON as what they hold.
use std::alloc::Global;
use wire_codec::UnknownFields;
use wire_jsonfields::{Implicit, JsonValue};
use wire_protojson::{ReadError, WriteError};
use wire_well_known::{BytesValue, StringValue};

/// `google.protobuf.StringValue` by the JSON mapping.
pub struct StringValueJson;

impl JsonValue for StringValueJson {
    ghost use Rattle.std.specs.Prelude.{List, IsUtf8, [], ℕ, ◌≡◌};
    ghost use Rattle.wire_json.specs.Json.{string};
    ghost use Rattle.wire_protojson.specs.DecidedScalars.{strings_decided};
    ghost use Rattle.wire_protojson.specs.Scalars.{MeansString};
    ghost use Rattle.wire_jsonfields.specs.ScalarsBack.{text_back};
    ghost use Rattle.wire_well_known_json.specs.Wrappers.{string_value-json};

    type Held = StringValue;

    ghost Value = { List ℕ };

    ghost view = { string_value-json };

    ghost means = { MeansString };

    ghost tree = { λ s json. json ≡ string s };

    ghost absent = { [] };

    ghost one_value = { strings_decided.one_meaning };

    ghost in_range = { IsUtf8 };

    ghost back = { text_back };

    fn read_json(
        alloc: Global,
        text: &[u8],
        at: usize,
        levels: u32,
    ) -> Result<(StringValue, usize), ReadError> {
        let (value, after) = Implicit::<String>::read_json(alloc, text, at, levels)?;
        let unknown = UnknownFields::new(alloc);
        Ok((StringValue { value, unknown }, after))
    }

    fn write_json(alloc: Global, out: &mut Vec<u8>, held: &StringValue) -> Result<(), WriteError> {
        Implicit::<String>::write_json(alloc, out, &held.value)
    }
}

/// `google.protobuf.BytesValue` by the JSON mapping.
pub struct BytesValueJson;

impl JsonValue for BytesValueJson {
    ghost use Rattle.base64.specs.GeneralPurpose.{IsBytes};
    ghost use Rattle.std.specs.Prelude.{List, [], ℕ, ◌≡◌};
    ghost use Rattle.wire_protojson.specs.DecidedScalars.{bytes_decided};
    ghost use Rattle.wire_protojson.specs.Scalars.{MeansBytes};
    ghost use Rattle.wire_protojson.specs.Trees.{bytes_tree};
    ghost use Rattle.wire_jsonfields.specs.ScalarsBack.{base64_back};
    ghost use Rattle.wire_well_known_json.specs.Wrappers.{bytes_value-json};

    type Held = BytesValue;

    ghost Value = { List ℕ };

    ghost view = { bytes_value-json };

    ghost means = { MeansBytes };

    ghost tree = { λ b json. json ≡ bytes_tree b };

    ghost absent = { [] };

    ghost one_value = { bytes_decided.one_meaning };

    ghost in_range = { IsBytes };

    ghost back = { base64_back };

    fn read_json(
        alloc: Global,
        text: &[u8],
        at: usize,
        levels: u32,
    ) -> Result<(BytesValue, usize), ReadError> {
        let (value, after) = Implicit::<Vec<u8>>::read_json(alloc, text, at, levels)?;
        let unknown = UnknownFields::new(alloc);
        Ok((BytesValue { value, unknown }, after))
    }

    fn write_json(alloc: Global, out: &mut Vec<u8>, held: &BytesValue) -> Result<(), WriteError> {
        Implicit::<Vec<u8>>::write_json(alloc, out, &held.value)
    }
}
