//! Messages of the Protocol Buffers wire format, with all names of the crates below. `CALLING.md`
//! shows its calls, and a message type from nothing.
//!
//! A user of a message type calls `decode_from_slice` and `try_encode_to_vec` of `Message`, and
//! those of `DecodeOptions` for an input that is not trusted. Of the encoding document see "Message
//! Structure", "Submessages", "Last One Wins" and "Field Order".
#![tactic(auto)]

mod decode_options;
pub mod laws;
mod message;
mod message_fields;
mod message_name;
mod size;
mod size_cache;
mod size_cache_pool;

pub use decode_options::{DEFAULT_ELEMENT_MEMORY_LIMIT, DecodeOptions};
pub use message::Message;
pub use message_fields::MessageFields;
pub use message_name::MessageName;
pub use size::{MAX_MESSAGE_BYTES, checked_encode_size, saturate_size};
pub use size_cache::SizeCache;
pub use size_cache_pool::SizeCachePool;

// The format: varints, tags, records, unknown fields, and sinks.
pub use wire_base::{
    DEFAULT_MIN_SEGMENT, DEFAULT_UNKNOWN_FIELD_LIMIT, DecodeContext, DecodeError, EncodeError,
    EncodeSink, FIRST_RESERVED_FIELD_NUMBER, LAST_RESERVED_FIELD_NUMBER, MAX_FIELD_NUMBER,
    RECURSION_LIMIT, Room, Rope, RopeBuf, Tag, UnknownField, UnknownFieldData, UnknownFields,
    UnknownFieldsView, UnknownSpanCharge, WireType, check_wire_type, copy_bytes, count_varints,
    decode_length, decode_unknown_field, decode_varint, encode_varint, register_unknown_record,
    skip_field, skip_field_depth, tag_as_number, tag_len, take_bytes, varint_len,
    wire_type_mismatch,
};

// Scalars, the numbers of the varint types, packed lists of them, and borrowed groups.
pub use wire_scalar::{
    BOOL_ENCODED_LEN, FIXED32_ENCODED_LEN, FIXED64_ENCODED_LEN, borrow_group, decode_bool,
    decode_bool_packed, decode_fixed32, decode_fixed64, decode_int32, decode_int32_packed,
    decode_int64, decode_int64_packed, decode_sfixed32, decode_sfixed64, decode_sint32,
    decode_sint32_packed, decode_sint64, decode_sint64_packed, decode_uint32, decode_uint32_packed,
    decode_uint64, decode_uint64_packed, encode_bool, encode_fixed32, encode_fixed64, encode_int32,
    encode_int64, encode_sfixed32, encode_sfixed64, encode_sint32, encode_sint64, encode_uint32,
    encode_uint64, extend_packed_bool, extend_packed_fixed32, extend_packed_fixed64,
    extend_packed_int32, extend_packed_int64, extend_packed_sfixed32, extend_packed_sfixed64,
    extend_packed_sint32, extend_packed_sint64, extend_packed_uint32, extend_packed_uint64,
    int32_encoded_len, int64_encoded_len, put_bool_field, put_fixed32_field, put_fixed64_field,
    put_group_end, put_group_start, put_int32_field, put_int64_field, put_len_delimited_header,
    put_sfixed32_field, put_sfixed64_field, put_sint32_field, put_sint64_field, put_uint32_field,
    put_uint64_field, scalar, sint32_encoded_len, sint64_encoded_len, uint32_encoded_len,
    uint64_encoded_len,
};

// Strings, bytes, enums, and types that a user plugs in.
pub use wire_text::{
    EnumValue, Enumeration, ProtoBytes, ProtoList, ProtoString, WirePayload, borrow_bytes,
    borrow_str, bytes_encoded_len, decode_bytes, decode_bytes_to, decode_bytes_to_bytes,
    decode_string, decode_string_to, encode_bytes, encode_string, merge_bytes, merge_string,
    put_bytes_field, put_string_field, string_encoded_len,
};
