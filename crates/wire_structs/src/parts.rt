//! Fields of a scalar type, by their presence, as they are written.
ghost use Rattle.std.specs.Prelude.{◌≡◌};
ghost use Rattle.wire_codec.specs.FieldNumber.{IsFieldNumber};
ghost use Rattle.wire_fields.specs.Presence.{always, implicit, optional};
ghost use Rattle.wire_structs.specs.Flags.{flagged};
ghost use Rattle.wire_structs.specs.Payloads.{field_records};

use crate::field_part::FieldPart;
use crate::written::WrittenStructScalar;

/// A field of implicit presence, as `Implicit` of `wire_fields`: left out where it has the default
/// value.
#[inline(always)]
pub fn implicit_part<'h, S: WrittenStructScalar>(number: u32, held: &'h S::Held) -> FieldPart<'h>
    requires { IsFieldNumber number }
    ensures { field_records result
        ≡ (implicit S.scalar).kind.records number (S.view held.now) }
{
    FieldPart {
        number,
        is_left_out: S::is_default(held),
        payload: S::payload(held),
    }
}

/// A field of explicit presence, as `Optional` of `wire_fields`: left out, whatever it holds, where
/// its flag is not set.
#[inline(always)]
pub fn optional_part<'h, S: WrittenStructScalar>(
    number: u32,
    has: bool,
    held: &'h S::Held,
) -> FieldPart<'h>
    requires { IsFieldNumber number }
    ensures { field_records result
        ≡ (optional S.scalar).kind.records number (flagged has (S.view held.now)) }
{
    FieldPart {
        number,
        is_left_out: !has,
        payload: S::payload(held),
    }
}

/// A field that is always written, as the one that stands of a oneof.
#[inline(always)]
pub fn always_part<'h, S: WrittenStructScalar>(number: u32, held: &'h S::Held) -> FieldPart<'h>
    requires { IsFieldNumber number }
    ensures { field_records result ≡ (always S.scalar).kind.records number (S.view held.now) }
{
    FieldPart {
        number,
        is_left_out: false,
        payload: S::payload(held),
    }
}
