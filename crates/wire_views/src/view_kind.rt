//! What a kind of field of a view is: how its value is made of records, and owned.
ghost use Rattle.std.specs.Prelude.{◌≡◌, ◌≢◌, OnOk, OnErr, IfOk, IfErr};
ghost use Rattle.wire_codec.specs.DecodeError.TheVariants as errors;
ghost use Rattle.wire_codec.specs.Limits.{NoCountGrew};
ghost use Rattle.wire_codec.specs.TagView.{tag_number, tag_type};
ghost use Rattle.wire_codec.specs.Taking.{TakesRecord, IsCharged, NotTaken};
ghost use Rattle.wire_fields.specs.Shape.{FieldKind};

use bytes::Buf;
use std::alloc::Global;
use wire_codec::{DecodeContext, DecodeError, Tag};

/// A kind of field of a view, as `ImplicitIn<TextIn>` or `EmbeddedIn<M>`. Its definition is that of
/// a kind of `wire_fields`. A kind has no values: a view holds plain values, and names the kind
/// where the field is read or owned.
pub trait ViewKind {
    /// What is read.
    type Source: Buf;

    /// What a view holds for the field.
    type Held: Drop;

    /// What a message holds for it.
    type Owned: Drop;

    /// What contracts see of both.
    ghost Value: { Type 0 };

    ghost view: { Self.Held → Value };

    ghost owned: { Self.Owned → Value };

    /// The value of no records, the records of a value, and what a value makes of a record.
    ghost kind: { FieldKind Value };

    /// The value of no records.
    fn empty(alloc: Global) -> Self::Held
        ensures { view result ≡ kind.default };

    /// Reads the payload behind this tag and takes the record into the value, as `Kind::merge`. A
    /// wire type that the kind does not have is `WireTypeMismatch`. Any error but `OutOfMemory`
    /// says that the kind does not take the record within the limits. A refusal leaves open what
    /// the value holds, the place of the buffer and the depth of the context, and may have used up
    /// counts of it.
    fn merge(
        alloc: Global,
        tag: Tag,
        held: &mut Self::Held,
        buf: &mut Self::Source,
        context: &mut DecodeContext,
    ) -> Result<(), DecodeError>
        ensures ok { OnOk result (IsCharged context.old context.new (λ c.
            TakesRecord kind.takes context.old (tag_number tag) (tag_type tag) (view held.old)
            (Self.Source.unread buf.old) c (view held.new) (Self.Source.unread buf.new))) }
        ensures err { IfErr result (λ e. e ≢ errors.OutOfMemory → NotTaken
            (TakesRecord kind.takes context.old (tag_number tag) (tag_type tag) (view held.old)
            (Self.Source.unread buf.old))) }
        ensures counts { OnErr result (NoCountGrew context.old context.new) }
        ensures kept { Self.Source.kept buf.new ≡ Self.Source.kept buf.old };

    /// The same value with memory of its own. Refused where memory runs out.
    fn own(alloc: Global, held: &Self::Held) -> Result<Self::Owned, DecodeError>
        ensures ok { IfOk result (λ copy. owned copy ≡ view held.now) }
        ensures err { IfErr result (λ e. e ≡ errors.OutOfMemory) };
}
