//! Strings and bytes of the wire format: a length, and as many bytes. `CALLING.md` shows its calls.
//!
//! Behind a tag of wire type `LengthDelimited` call `decode_string` or `decode_bytes`, over a slice
//! `borrow_str` or `borrow_bytes`, and for a type of one's own `decode_string_to`.
//! `put_string_field` writes a field with its tag. Of the encoding document see "Length-Delimited
//! Records", and "Bools and Enums" for `EnumValue`.
#![tactic(auto)]

mod borrow;
mod decode;
mod encode;
mod enumeration;
pub mod laws;
mod payload;
mod plugged;
mod proto_bytes;
mod proto_list;
mod proto_string;
mod wire_payload;

pub use borrow::{borrow_bytes, borrow_str};
pub use decode::{decode_bytes, decode_bytes_to_bytes, decode_string, merge_bytes, merge_string};
pub use encode::{
    bytes_encoded_len, encode_bytes, encode_string, put_bytes_field, put_string_field,
    string_encoded_len,
};
pub use enumeration::{EnumValue, Enumeration};
pub use proto_bytes::{ProtoBytes, decode_bytes_to};
pub use proto_list::ProtoList;
pub use proto_string::{ProtoString, decode_string_to};
pub use wire_payload::WirePayload;
