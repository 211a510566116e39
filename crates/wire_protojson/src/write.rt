//! Scalars, put as compact JSON behind what a vector holds. A front of one may stand there where
//! memory is refused.
ghost use Rattle.std.specs.Prelude.{◌≡◌, ◌++◌, OnOk, OnErr};
ghost use Rattle.std.specs.Float.{binary32, binary64};
ghost use Rattle.wire_json.specs.Compact.{Extends};
ghost use Rattle.wire_json.specs.Json.{Json, boolean, string};
ghost use Rattle.wire_json.specs.Written.{written};
ghost use Rattle.wire_protojson.specs.Trees.{IsFloatTree, bytes_tree, long_signed_tree, long_unsigned_tree, short_signed_tree, short_unsigned_tree};

use base64::engine::general_purpose::STANDARD;
use itoa::Buffer;
use std::alloc::{AllocError, Global};

/// Writes a `bool`.
pub fn write_bool(out: &mut Vec<u8>, value: bool) -> Result<(), AllocError>
    ensures ok { OnOk result (out.new.items ≡ out.old.items ++ written (boolean value)) }
    ensures err { OnErr result (Extends out.old.items out.new.items) }
{
    wire_json::write_bool(out, value)
}

/// Writes an `int32`, `sint32` or `sfixed32`.
pub fn write_int32(out: &mut Vec<u8>, value: i32) -> Result<(), AllocError>
    ensures ok { OnOk result (out.new.items ≡ out.old.items ++ written (short_signed_tree value)) }
    ensures err { OnErr result (Extends out.old.items out.new.items) }
{
    wire_json::write_number(out, Buffer::new().format(value).as_bytes())
}

/// Writes a `uint32` or `fixed32`.
pub fn write_uint32(out: &mut Vec<u8>, value: u32) -> Result<(), AllocError>
    ensures ok { OnOk result (out.new.items ≡ out.old.items ++ written (short_unsigned_tree value)) }
    ensures err { OnErr result (Extends out.old.items out.new.items) }
{
    wire_json::write_number(out, Buffer::new().format(value).as_bytes())
}

/// Writes an `int64`, `sint64` or `sfixed64`, as a string.
pub fn write_int64(out: &mut Vec<u8>, value: i64) -> Result<(), AllocError>
    ensures ok { OnOk result (out.new.items ≡ out.old.items ++ written (long_signed_tree value)) }
    ensures err { OnErr result (Extends out.old.items out.new.items) }
{
    wire_json::write_string(out, Buffer::new().format(value))
}

/// Writes a `uint64` or `fixed64`, as a string.
pub fn write_uint64(out: &mut Vec<u8>, value: u64) -> Result<(), AllocError>
    ensures ok { OnOk result (out.new.items ≡ out.old.items ++ written (long_unsigned_tree value)) }
    ensures err { OnErr result (Extends out.old.items out.new.items) }
{
    wire_json::write_string(out, Buffer::new().format(value))
}

/// Writes a `float`: as a number that reads back as it, or as the string `"NaN"`, `"Infinity"` or
/// `"-Infinity"`.
pub fn write_float(out: &mut Vec<u8>, value: f32) -> Result<(), AllocError>
    ensures ok { OnOk result ((json : Json) × IsFloatTree binary32 value json
        × (out.new.items ≡ out.old.items ++ written json)) }
    ensures err { OnErr result (Extends out.old.items out.new.items) }
{
    if value.is_finite() {
        return wire_json::write_number(out, ryu::Buffer::new().format_finite(value).as_bytes());
    }
    if value.is_nan() {
        return wire_json::write_string(out, "NaN");
    }
    if value.is_sign_negative() {
        return wire_json::write_string(out, "-Infinity");
    }
    wire_json::write_string(out, "Infinity")
}

/// Writes a `double`, as `write_float` does.
pub fn write_double(out: &mut Vec<u8>, value: f64) -> Result<(), AllocError>
    ensures ok { OnOk result ((json : Json) × IsFloatTree binary64 value json
        × (out.new.items ≡ out.old.items ++ written json)) }
    ensures err { OnErr result (Extends out.old.items out.new.items) }
{
    if value.is_finite() {
        return wire_json::write_number(out, ryu::Buffer::new().format_finite(value).as_bytes());
    }
    if value.is_nan() {
        return wire_json::write_string(out, "NaN");
    }
    if value.is_sign_negative() {
        return wire_json::write_string(out, "-Infinity");
    }
    wire_json::write_string(out, "Infinity")
}

/// Writes a `string`.
pub fn write_string(out: &mut Vec<u8>, value: &str) -> Result<(), AllocError>
    ensures ok { OnOk result (out.new.items ≡ out.old.items ++ written (string value.now)) }
    ensures err { OnErr result (Extends out.old.items out.new.items) }
{
    wire_json::write_string(out, value)
}

/// Writes `bytes` as base64, which is first made beside the vector.
pub fn write_bytes(alloc: Global, out: &mut Vec<u8>, value: &[u8]) -> Result<(), AllocError>
    ensures ok { OnOk result (out.new.items ≡ out.old.items ++ written (bytes_tree value.now)) }
    ensures err { OnErr result (Extends out.old.items out.new.items) }
{
    match STANDARD.encode(alloc, value) {
        Ok(text) => wire_json::write_string(out, text.as_str()),
        Err(error) => Err(error),
    }
}
