//! Strings and bytes as scalar types.
ghost use Rattle.std.specs.Prelude.{◌≡◌};
ghost use Rattle.wire_codec.specs.FieldNumber.{IsFieldNumber};
ghost use Rattle.wire_fields.specs.Numbers.{in_64_bits, delimited_size};

use crate::scalar::Scalar;
use bytes::Buf;
use std::alloc::Global;
use wire_codec::{
    DecodeError, EncodeError, EncodeSink, Tag, WireType, check_wire_type, laws, merge_bytes,
    merge_string, put_bytes_field, varint_len,
};

/// How many bytes a field takes whose payload has so many, or `u64::MAX` where it is more.
pub(crate) fn delimited_len(number: u32, len: u64) -> u64
    requires { IsFieldNumber number }
    ensures { result ≡ in_64_bits (delimited_size number len) }
{
    (varint_len(u64::from(number) * 8 + 2) as u64)
        .saturating_add(varint_len(len) as u64)
        .saturating_add(len)
}

/// The type `string`. A payload that is not UTF-8 is `InvalidUtf8`.
pub struct Text;

impl Scalar for Text {
    ghost use Rattle.std.specs.Prelude.{ℕ, List, string_bytes};
    ghost use Rattle.wire_fields.specs.Texts.{string};

    type Held = String;

    ghost Value = { List ℕ };

    ghost view = { λ s. string_bytes s };

    ghost scalar = { string };

    fn empty(alloc: Global) -> String {
        String::new(alloc)
    }

    fn is_default(held: &String) -> bool {
        held.is_empty()
    }

    fn len(number: u32, held: &String) -> u64 {
        delimited_len(number, held.len() as u64)
    }

    fn put<S: EncodeSink>(number: u32, held: &String, sink: &mut S) -> Result<(), EncodeError> {
        put_bytes_field(number, held.as_bytes(), sink)
    }

    fn set<B: Buf>(
        alloc: Global,
        tag: Tag,
        held: &mut String,
        buf: &mut B,
    ) -> Result<(), DecodeError> {
        laws::grammar::one_delimited();
        laws::grammar::no_delimited_beside_fault();
        check_wire_type(tag, WireType::LengthDelimited)?;
        merge_string(alloc, held, buf)
    }

    fn clear(held: &mut String) {
        held.clear();
    }
}

/// The type `bytes`.
pub struct Blob;

impl Scalar for Blob {
    ghost use Rattle.std.specs.Prelude.{ℕ, List};
    ghost use Rattle.wire_fields.specs.Texts.{any_bytes};

    type Held = Vec<u8>;

    ghost Value = { List ℕ };

    ghost view = { λ v. v.items };

    ghost scalar = { any_bytes };

    fn empty(alloc: Global) -> Vec<u8> {
        Vec::new(alloc)
    }

    fn is_default(held: &Vec<u8>) -> bool {
        held.is_empty()
    }

    fn len(number: u32, held: &Vec<u8>) -> u64 {
        delimited_len(number, held.len() as u64)
    }

    fn put<S: EncodeSink>(number: u32, held: &Vec<u8>, sink: &mut S) -> Result<(), EncodeError> {
        put_bytes_field(number, held, sink)
    }

    fn set<B: Buf>(
        alloc: Global,
        tag: Tag,
        held: &mut Vec<u8>,
        buf: &mut B,
    ) -> Result<(), DecodeError> {
        laws::grammar::one_delimited();
        laws::grammar::no_delimited_beside_fault();
        check_wire_type(tag, WireType::LengthDelimited)?;
        merge_bytes(alloc, held, buf)
    }

    fn clear(held: &mut Vec<u8>) {
        held.clear();
    }
}
