//! The variants of a oneof as rows, from which its calls are read.
ghost use Rattle.std.specs.Prelude.{◌≡◌, ◌≢◌, IfErr, IfOk, OnErr};
ghost use Rattle.wire_codec.specs.DecodeError.TheVariants.{OutOfMemory};
ghost use Rattle.wire_codec.specs.Limits.{NoCountGrew};
ghost use Rattle.wire_codec.specs.TagView.{tag_number, tag_type};
ghost use Rattle.wire_codec.specs.Taking.{IsCharged, NotTaken, TakesRecord};

use crate::kind::Kind;
use bytes::Buf;
use std::alloc::Global;
use wire_codec::{DecodeContext, DecodeError, Tag};

/// What is asked of the variants of a oneof: `copied`, `len`, `put` or `merge`. Behind the call
/// stand the rows, which a macro of the oneof's module puts there: each has the number of a
/// variant, its name and its kind, and the last has all other numbers too. What is handed in are
/// names and places, which stand in what is made more than once.
#[macro_export]
macro_rules! variants {
    // A copy of the one that stands.
    (copied($name:ident, $one:expr)
        $($number:literal $(| $other:tt)? => $variant:ident: $kind:ty,)+) => {
        match $one {
            $($name::$variant(value) => Ok($name::$variant($crate::copied(value)?)),)+
        }
    };
    (len($name:ident, $held:expr, $cache:expr)
        $($number:literal $(| $other:tt)? => $variant:ident: $kind:ty,)+) => {
        match $held {
            $(Some($name::$variant(value)) => {
                <$kind as $crate::Kind>::len($number, value, $cache)
            })+
            None => Ok(0),
        }
    };
    (put($name:ident, $held:expr, $cache:expr, $sink:expr)
        $($number:literal $(| $other:tt)? => $variant:ident: $kind:ty,)+) => {
        match $held {
            $(Some($name::$variant(value)) => {
                <$kind as $crate::Kind>::put($number, value, $cache, $sink)
            })+
            None => Ok(()),
        }
    };
    // Takes the record behind a tag into the value of its variant where that stands, and else into
    // a new one, which then stands.
    (merge($name:ident, $alloc:expr, $tag:expr, $held:expr, $buf:expr, $context:expr)
        $($number:literal $(| $other:tt)? => $variant:ident: $kind:ty,)+) => {
        match $tag.field_number() {
            $($number $(| $other)? => match $held {
                Some($name::$variant(value)) => {
                    <$kind as $crate::Kind>::merge($alloc, $tag, value, $buf, $context)
                }
                _ => {
                    let value = $crate::merge_new::<$kind, _>($alloc, $tag, $buf, $context)?;
                    *$held = Some($name::$variant(value));
                    Ok(())
                }
            },)+
        }
    };
}

/// Takes the record behind this tag into a value of no records. Refused as `merge` of the kind. A
/// refusal leaves open the place of the buffer and the depth of the context.
pub fn merge_new<K: Kind, B: Buf>(
    alloc: Global,
    tag: Tag,
    buf: &mut B,
    context: &mut DecodeContext,
) -> Result<K::Held, DecodeError>
    ensures ok { IfOk result (λ value. IsCharged context.old context.new (λ c.
        TakesRecord K.kind.takes context.old (tag_number tag) (tag_type tag) K.kind.default
        (B.unread buf.old) c (K.view value) (B.unread buf.new))) }
    ensures err { IfErr result (λ e. e ≢ OutOfMemory → NotTaken
        (TakesRecord K.kind.takes context.old (tag_number tag) (tag_type tag) K.kind.default
        (B.unread buf.old))) }
    ensures counts { OnErr result (NoCountGrew context.old context.new) }
    ensures kept { B.kept buf.new ≡ B.kept buf.old }
{
    let mut value = K::empty(alloc);
    K::merge(alloc, tag, &mut value, buf, context)?;
    Ok(value)
}
