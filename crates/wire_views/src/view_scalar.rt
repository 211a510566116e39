//! Scalar types whose values are borrowed from what is read.
ghost use Rattle.std.specs.Prelude.{◌≡◌, ◌≢◌, OnOk, IfOk, IfErr};
ghost use Rattle.wire_codec.specs.DecodeError.TheVariants.{OutOfMemory};
ghost use Rattle.wire_codec.specs.TagView.{tag_number, tag_type};
ghost use Rattle.wire_fields.specs.Scalar.{ScalarType, ReadsScalar, NoScalar};

use bytes::Buf;
use std::alloc::{AllocError, Global};
use wire_codec::{DecodeError, Tag};

/// A type whose values are borrowed from what is read, as `TextIn` and `BytesIn`. Its definition is
/// that of a `Scalar` whose values own their memory.
pub trait ViewScalar {
    /// What is read.
    type Source: Buf;

    /// What a view holds.
    type Held: Drop;

    /// What a message holds.
    type Owned: Drop;

    /// What contracts see of both.
    ghost Value: { Type 0 };

    ghost view: { Self.Held → Value };

    ghost owned: { Self.Owned → Value };

    ghost scalar: { ScalarType Value };

    /// The default value.
    fn empty() -> Self::Held
        ensures { view result ≡ scalar.default };

    /// Reads the payload behind this tag, and puts its value in the place of the one that is held,
    /// as `Scalar::set`. Another wire type is `WireTypeMismatch`. A refusal leaves open what is
    /// held, and the place of the buffer.
    fn set(tag: Tag, held: &mut Self::Held, buf: &mut Self::Source) -> Result<(), DecodeError>
        ensures ok { OnOk result (ReadsScalar scalar (tag_number tag) (tag_type tag)
            (view held.new) (Self.Source.unread buf.old) (Self.Source.unread buf.new)) }
        ensures err { IfErr result (λ e. e ≢ OutOfMemory
            → NoScalar scalar (tag_number tag) (tag_type tag) (Self.Source.unread buf.old)) }
        ensures kept { Self.Source.kept buf.new ≡ Self.Source.kept buf.old };

    /// The same value with memory of its own. Refused where memory runs out.
    fn own(alloc: Global, held: &Self::Held) -> Result<Self::Owned, AllocError>
        ensures { IfOk result (λ copy. owned copy ≡ view held.now) };
}
