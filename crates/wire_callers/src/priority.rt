//! An extension that is put and read again.
ghost use Rattle.std.specs.Prelude.{◌≡◌, ◌≢◌, ◌^◌, ◌-◌, None, Some, OnOk, IfOk, IfErr};
ghost use Rattle.wire_codec.specs.DecodeError.TheVariants.{OutOfMemory};
ghost use Rattle.wire_codec.specs.Limits.{counted};
ghost use Rattle.wire_codec.specs.ValueMap.{int32};
ghost use Rattle.wire_fields.specs.declared.form.Form.TheVariants.{Varint};
ghost use Rattle.wire_fields.specs.Numbers.{numeric};
ghost use Rattle.wire_fields.specs.Presence.{optional};
ghost use Rattle.wire_extensions.specs.Extension.{is_own, others, NotStored};

use std::alloc::Global;
use wire_codec::{DecodeContext, DecodeError, UnknownFields, laws};
use wire_extensions::{Extension, laws as extensions};
use wire_fields::{Int32, Optional};

/// Puts the priority, which is the extension 100, and reads it again. What stands in other fields
/// stays as it was. Refused where memory runs out, or where its record cannot be put.
pub fn put_priority(
    alloc: Global,
    fields: &mut UnknownFields,
    priority: i32,
) -> Result<Option<i32>, DecodeError>
    ensures same { IfOk result (λ read. read ≡ Some priority) }
    ensures others { OnOk result
        (others (is_own 100 None) fields.new ≡ others (is_own 100 None) fields.old) }
    ensures memory { IfErr result (λ e. e ≢ OutOfMemory → NotStored
        ((optional (numeric Varint int32)).kind.records 100 (Some priority))
        (counted 100 (2 ^ 64 - 1))) }
{
    laws::fields_are_plain();
    laws::grammar::charges_add_up();
    laws::grammar::limits_add_up();
    laws::scalar::values_read_back();
    extensions::one_leaves_others();
    extensions::stored_are_plain();
    extensions::get_of_set::<Optional<Int32>>();
    let Some(extension) = Extension::<Optional<Int32>>::new(100) else {
        return Err(DecodeError::InvalidFieldNumber);
    };
    extension.set(alloc, fields, &Some(priority))?;
    extension.get(alloc, fields, &mut DecodeContext::new(100, 1000))
}
