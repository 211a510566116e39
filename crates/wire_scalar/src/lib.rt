//! The scalar types of the wire format but for `float` and `double`, packed lists of them, and
//! groups borrowed from a slice. `CALLING.md` shows its calls.
//!
//! Behind a tag of the right wire type call `decode_T`; `put_T_field` writes a field with its tag,
//! and `extend_packed_T` reads a packed list. Of the encoding document see "Base 128 Varints",
//! "Bools and Enums", "Signed Integers", "Non-varint Numbers" for the fixed types, "Packed Repeated
//! Fields" and "Groups".
#![tactic(auto)]

mod fields;
mod fixed;
mod group;
pub mod laws;
mod packed;
pub mod scalar;
mod varints;

pub use fields::{
    put_bool_field, put_fixed32_field, put_fixed64_field, put_group_end, put_group_start,
    put_int32_field, put_int64_field, put_len_delimited_header, put_sfixed32_field,
    put_sfixed64_field, put_sint32_field, put_sint64_field, put_uint32_field, put_uint64_field,
};
pub use fixed::{
    FIXED32_ENCODED_LEN, FIXED64_ENCODED_LEN, decode_fixed32, decode_fixed64, decode_sfixed32,
    decode_sfixed64, encode_fixed32, encode_fixed64, encode_sfixed32, encode_sfixed64,
};
pub use group::borrow_group;
pub use packed::{
    extend_packed_bool, extend_packed_fixed32, extend_packed_fixed64, extend_packed_int32,
    extend_packed_int64, extend_packed_sfixed32, extend_packed_sfixed64, extend_packed_sint32,
    extend_packed_sint64, extend_packed_uint32, extend_packed_uint64,
};
pub use varints::{
    BOOL_ENCODED_LEN, decode_bool, decode_bool_packed, decode_int32, decode_int32_packed,
    decode_int64, decode_int64_packed, decode_sint32, decode_sint32_packed, decode_sint64,
    decode_sint64_packed, decode_uint32, decode_uint32_packed, decode_uint64, decode_uint64_packed,
    encode_bool, encode_int32, encode_int64, encode_sint32, encode_sint64, encode_uint32,
    encode_uint64, int32_encoded_len, int64_encoded_len, sint32_encoded_len, sint64_encoded_len,
    uint32_encoded_len, uint64_encoded_len,
};
