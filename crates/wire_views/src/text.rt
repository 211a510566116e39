//! Strings and bytes that stay where they were read.
ghost use Rattle.std.specs.Prelude.{◌≡◌};
ghost use Rattle.wire_codec.specs.FieldNumber.{IsFieldNumber};
ghost use Rattle.wire_fields.specs.Numbers.{in_64_bits, delimited_size};

use crate::view_scalar::ViewScalar;
use crate::written::WrittenScalar;
use std::alloc::{AllocError, Global};
use std::marker::PhantomData;
use wire_codec::{
    DecodeError, EncodeError, EncodeSink, Tag, WireType, borrow_bytes, borrow_str, check_wire_type,
    laws, put_bytes_field, varint_len,
};

/// How many bytes a field takes whose payload has so many, or `u64::MAX` where it is more.
pub(crate) fn delimited_len(number: u32, len: u64) -> u64
    requires { IsFieldNumber number }
    ensures { result ≡ in_64_bits (delimited_size number len) }
{
    (varint_len(u64::from(number) * 8 + 2) as u64)
        .saturating_add(varint_len(len) as u64)
        .saturating_add(len)
}

/// The type `string`, borrowed. A payload that is not UTF-8 is `InvalidUtf8`.
pub struct TextIn<'a> {
    text: PhantomData<&'a str>,
}

impl<'a> ViewScalar for TextIn<'a> {
    ghost use Rattle.std.specs.Prelude.{ℕ, List, string_bytes};
    ghost use Rattle.wire_fields.specs.Texts.{string};

    type Source = &'a [u8];

    type Held = &'a str;

    type Owned = String;

    ghost Value = { List ℕ };

    ghost view = { λ s. s.now };

    ghost owned = { λ s. string_bytes s };

    ghost scalar = { string };

    fn empty() -> &'a str {
        ""
    }

    fn set(tag: Tag, held: &mut &'a str, buf: &mut &'a [u8]) -> Result<(), DecodeError> {
        laws::grammar::one_delimited();
        laws::grammar::no_delimited_beside_fault();
        check_wire_type(tag, WireType::LengthDelimited)?;
        *held = borrow_str(buf)?;
        Ok(())
    }

    fn own(alloc: Global, held: &&'a str) -> Result<String, AllocError> {
        String::from_str(alloc, held)
    }
}

impl<'a> WrittenScalar for TextIn<'a> {
    fn is_default(held: &&'a str) -> bool {
        held.is_empty()
    }

    fn len(number: u32, held: &&'a str) -> u64 {
        delimited_len(number, held.len() as u64)
    }

    fn put<E: EncodeSink>(number: u32, held: &&'a str, sink: &mut E) -> Result<(), EncodeError> {
        put_bytes_field(number, held.as_bytes(), sink)
    }
}

/// The type `bytes`, borrowed.
pub struct BytesIn<'a> {
    bytes: PhantomData<&'a [u8]>,
}

impl<'a> ViewScalar for BytesIn<'a> {
    ghost use Rattle.std.specs.Prelude.{ℕ, List};
    ghost use Rattle.wire_fields.specs.Texts.{any_bytes};

    type Source = &'a [u8];

    type Held = &'a [u8];

    type Owned = Vec<u8>;

    ghost Value = { List ℕ };

    ghost view = { λ b. b.now };

    ghost owned = { λ v. v.items };

    ghost scalar = { any_bytes };

    fn empty() -> &'a [u8] {
        &[]
    }

    fn set(tag: Tag, held: &mut &'a [u8], buf: &mut &'a [u8]) -> Result<(), DecodeError> {
        laws::grammar::one_delimited();
        laws::grammar::no_delimited_beside_fault();
        check_wire_type(tag, WireType::LengthDelimited)?;
        *held = borrow_bytes(buf)?;
        Ok(())
    }

    fn own(alloc: Global, held: &&'a [u8]) -> Result<Vec<u8>, AllocError> {
        held.to_vec(alloc)
    }
}

impl<'a> WrittenScalar for BytesIn<'a> {
    fn is_default(held: &&'a [u8]) -> bool {
        held.is_empty()
    }

    fn len(number: u32, held: &&'a [u8]) -> u64 {
        delimited_len(number, held.len() as u64)
    }

    fn put<E: EncodeSink>(number: u32, held: &&'a [u8], sink: &mut E) -> Result<(), EncodeError> {
        put_bytes_field(number, held, sink)
    }
}
