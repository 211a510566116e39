//! Scalar types whose values stand in a struct.
ghost use Rattle.std.specs.Prelude.{◌≡◌, ◌<◌, ◌^◌, OnOk, OnErr};
ghost use Rattle.wire_codec.specs.TagView.{tag_number, tag_type};
ghost use Rattle.wire_codec.specs.ValueMap.{ValueMap};
ghost use Rattle.wire_fields.specs.declared.form.Form.{Form};
ghost use Rattle.wire_fields.specs.declared.form.Form.TheVariants.{Fixed32};
ghost use Rattle.wire_fields.specs.Scalar.{ScalarType, ReadsScalar, NoScalar};

use bytes::Buf;
use wire_codec::{DecodeError, Tag};
use wire_fields::Form;

/// A scalar type whose values a struct holds without memory, as `TextInC` and `NumberInC`. Its
/// definition is that of a `Scalar` of `wire_fields`.
pub trait StructScalar {
    /// What is read.
    type Source: Buf;

    /// What a struct holds.
    type Held: Copy;

    /// What contracts see of it.
    ghost Value: { Type 0 };

    ghost view: { Self.Held → Value };

    ghost scalar: { ScalarType Value };

    /// The default value.
    fn empty() -> Self::Held
        ensures { view result ≡ scalar.default };

    /// Reads the payload behind this tag, and puts its value in the place of the one that is held.
    /// Another wire type is `WireTypeMismatch`. A refusal says that no value stands there, and
    /// leaves open what is held, and the place of the buffer.
    fn set(tag: Tag, held: &mut Self::Held, buf: &mut Self::Source) -> Result<(), DecodeError>
        ensures ok { OnOk result (ReadsScalar scalar (tag_number tag) (tag_type tag)
            (view held.new) (Self.Source.unread buf.old) (Self.Source.unread buf.new)) }
        ensures err { OnErr result (NoScalar scalar (tag_number tag) (tag_type tag)
            (Self.Source.unread buf.old)) };
}

/// A scalar type whose values stand on the wire as numbers, so that many stand in one payload: each
/// but `string` and `bytes`. Its definition is that of a `Number` of `wire_fields`.
pub trait StructNumber {
    /// What a struct holds.
    type Held: Copy;

    /// What contracts see of it.
    ghost Value: { Type 0 };

    ghost view: { Self.Held → Value };

    /// The number that is written for a value, and the value that is read from a number.
    ghost map: { ValueMap Value };

    ghost form: { Form };

    /// How the number stands on the wire.
    fn form() -> Form
        ensures { result ≡ form };

    /// The number that is written for a value.
    fn number_of(held: &Self::Held) -> u64
        ensures number { result ≡ map.enc (view held.now) }
        ensures narrow { form ≡ Fixed32 → result < 2 ^ 32 };

    /// The value that is read from a number, which is one of 32 bits where four bytes hold it.
    fn held_of(number: u64) -> Self::Held
        requires { form ≡ Fixed32 → number < 2 ^ 32 }
        ensures { view result ≡ map.dec number };
}
