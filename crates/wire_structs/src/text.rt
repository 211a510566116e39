//! Strings and bytes that stay where they were read.
use crate::scalar::StructScalar;
use crate::walking::SliceInC;
use std::marker::PhantomData;
use wire_codec::{DecodeError, Tag, WireType, borrow_bytes, borrow_str, check_wire_type, laws};

/// The type `string`, as its bytes, since text does not cross to C. A payload that is not UTF-8 is
/// `InvalidUtf8`.
pub struct TextInC<'a> {
    text: PhantomData<&'a [u8]>,
}

impl<'a> StructScalar for TextInC<'a> {
    ghost use Rattle.std.specs.Prelude.{ℕ, List};
    ghost use Rattle.wire_fields.specs.Texts.{string};

    type Source = &'a [u8];

    type Held = &'a [u8];

    ghost Value = { List ℕ };

    ghost view = { λ b. b.now };

    ghost scalar = { string };

    fn empty() -> &'a [u8] {
        &[]
    }

    fn set(tag: Tag, held: &mut &'a [u8], buf: &mut &'a [u8]) -> Result<(), DecodeError> {
        laws::grammar::one_delimited();
        laws::grammar::no_delimited_beside_fault();
        check_wire_type(tag, WireType::LengthDelimited)?;
        let text = borrow_str(buf)?;
        *held = text.as_bytes();
        Ok(())
    }
}

/// The type `string` as an element of a list of C's, in which a pointer and a length are a struct.
pub struct TextSliceInC<'a> {
    text: PhantomData<&'a [u8]>,
}

impl<'a> StructScalar for TextSliceInC<'a> {
    ghost use Rattle.std.specs.Prelude.{ℕ, List};
    ghost use Rattle.wire_fields.specs.Texts.{string};

    type Source = &'a [u8];

    type Held = SliceInC<'a>;

    ghost Value = { List ℕ };

    ghost view = { λ b. b.bytes.now };

    ghost scalar = { string };

    fn empty() -> SliceInC<'a> {
        SliceInC { bytes: &[] }
    }

    fn set(tag: Tag, held: &mut SliceInC<'a>, buf: &mut &'a [u8]) -> Result<(), DecodeError> {
        <TextInC<'a> as StructScalar>::set(tag, &mut held.bytes, buf)
    }
}

/// The type `bytes`.
pub struct BytesInC<'a> {
    bytes: PhantomData<&'a [u8]>,
}

impl<'a> StructScalar for BytesInC<'a> {
    ghost use Rattle.std.specs.Prelude.{ℕ, List};
    ghost use Rattle.wire_fields.specs.Texts.{any_bytes};

    type Source = &'a [u8];

    type Held = &'a [u8];

    ghost Value = { List ℕ };

    ghost view = { λ b. b.now };

    ghost scalar = { any_bytes };

    fn empty() -> &'a [u8] {
        &[]
    }

    fn set(tag: Tag, held: &mut &'a [u8], buf: &mut &'a [u8]) -> Result<(), DecodeError> {
        laws::grammar::one_delimited();
        laws::grammar::no_delimited_beside_fault();
        check_wire_type(tag, WireType::LengthDelimited)?;
        *held = borrow_bytes(buf)?;
        Ok(())
    }
}

/// The type `bytes` as an element of a list of C's.
pub struct BytesSliceInC<'a> {
    bytes: PhantomData<&'a [u8]>,
}

impl<'a> StructScalar for BytesSliceInC<'a> {
    ghost use Rattle.std.specs.Prelude.{ℕ, List};
    ghost use Rattle.wire_fields.specs.Texts.{any_bytes};

    type Source = &'a [u8];

    type Held = SliceInC<'a>;

    ghost Value = { List ℕ };

    ghost view = { λ b. b.bytes.now };

    ghost scalar = { any_bytes };

    fn empty() -> SliceInC<'a> {
        SliceInC { bytes: &[] }
    }

    fn set(tag: Tag, held: &mut SliceInC<'a>, buf: &mut &'a [u8]) -> Result<(), DecodeError> {
        <BytesInC<'a> as StructScalar>::set(tag, &mut held.bytes, buf)
    }
}
