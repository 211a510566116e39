//! The Protocol Buffers wire format: varints, tags, records and unknown fields, over any
//! `bytes::Buf` and any growing sink. `CALLING.md` shows its calls.
//!
//! To read, call `Tag::decode` first, and then by the wire type `decode_varint`, `decode_length`,
//! `skip_field` or `decode_unknown_field`. To write, make a `Vec<u8>`, a `BytesMut` or a `Rope`,
//! and call `Tag::encode` and `encode_varint`. `UnknownFields::decode_from_slice` reads all records
//! of an input. Message types stand in `wire_codec`.
//!
//! The encoding document is <https://protobuf.dev/programming-guides/encoding/>.
#![tactic(auto)]

mod decode_context;
mod encode_sink;
mod error;
mod flat_walk;
pub mod laws;
mod payload;
mod room;
mod rope;
mod skip;
mod tag;
mod unknown_fields;
mod unknown_fields_view;
mod varint;

pub use decode_context::{DEFAULT_UNKNOWN_FIELD_LIMIT, DecodeContext, RECURSION_LIMIT};
pub use encode_sink::EncodeSink;
pub use error::{DecodeError, EncodeError};
pub use flat_walk::{UnknownSpanCharge, register_unknown_record};
pub use payload::{copy_bytes, decode_length, take_bytes};
pub use room::Room;
pub use rope::{DEFAULT_MIN_SEGMENT, Rope, RopeBuf};
pub use skip::{skip_field, skip_field_depth};
pub use tag::{
    FIRST_RESERVED_FIELD_NUMBER, LAST_RESERVED_FIELD_NUMBER, MAX_FIELD_NUMBER, Tag, WireType,
    check_wire_type, tag_as_number, tag_len, wire_type_mismatch,
};
pub use unknown_fields::{UnknownField, UnknownFieldData, UnknownFields, decode_unknown_field};
pub use unknown_fields_view::UnknownFieldsView;
pub use varint::{count_varints, decode_varint, encode_varint, varint_len};
