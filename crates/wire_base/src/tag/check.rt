//! Known fields that came with another wire type than their own.
ghost use Rattle.std.specs.Prelude.{◌≡◌, ◌≢◌, OnOk, IfErr};
ghost use Rattle.wire_base.specs.declared.error.DecodeError.TheVariants.{WireTypeMismatch};
ghost use Rattle.wire_base.specs.Tag.{wire_number};
ghost use Rattle.wire_base.specs.TagView.{tag_number, tag_type};

use super::{Tag, WireType};
use crate::error::DecodeError;

/// Refuses a tag whose wire type is not the one that its field has, with `WireTypeMismatch`. See
/// "Message Structure" of the encoding document.
pub fn check_wire_type(tag: Tag, expected: WireType) -> Result<(), DecodeError>
    ensures ok { OnOk result (tag_type tag ≡ expected) }
    ensures err { IfErr result (λ e. (tag_type tag ≢ expected)
        × (e ≡ WireTypeMismatch (tag_number tag) (wire_number expected)
        (wire_number (tag_type tag)))) }
{
    if tag.wire_type() == expected {
        return Ok(());
    }
    Err(wire_type_mismatch(tag, expected))
}

/// The error of a tag whose wire type is not the expected one.
#[cold]
#[inline(never)]
pub fn wire_type_mismatch(tag: Tag, expected: WireType) -> DecodeError
    ensures { result ≡ WireTypeMismatch (tag_number tag) (wire_number expected)
        (wire_number (tag_type tag)) }
{
    DecodeError::WireTypeMismatch {
        field_number: tag.field_number(),
        expected: expected as u8,
        actual: tag.wire_type() as u8,
    }
}
