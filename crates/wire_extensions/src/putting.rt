//! The records of a value, put among unknown fields.
ghost use Rattle.std.specs.Prelude.{◌≡◌, ◌≢◌, ◌^◌, ◌-◌, ◌<◌, OnOk, OnErr, IfOk, IfErr};
ghost use Rattle.wire_codec.specs.DecodeError.TheVariants.{OutOfMemory};
ghost use Rattle.wire_codec.specs.Field.{joined, count_top};
ghost use Rattle.wire_codec.specs.FieldNumber.{IsFieldNumber};
ghost use Rattle.wire_codec.specs.Limits.{counted};
ghost use Rattle.wire_extensions.specs.Extension.{Stores, NotStored};

use std::alloc::Global;
use wire_codec::{
    DecodeContext, DecodeError, RECURSION_LIMIT, SizeCache, UnknownFields, checked_encode_size,
    laws, saturate_size,
};
use wire_fields::Kind;

// The records of a value, as unknown fields.
pub(crate) fn stored<K: Kind>(
    alloc: Global,
    number: u32,
    held: &K::Held,
) -> Result<UnknownFields, DecodeError>
    requires { IsFieldNumber number }
    ensures ok { IfOk result (λ fields. Stores (K.kind.records number (K.view held.now))
        (counted 100 (2 ^ 64 - 1)) fields) }
    ensures err { IfErr result (λ e. e ≢ OutOfMemory → NotStored
        (K.kind.records number (K.view held.now)) (counted 100 (2 ^ 64 - 1))) }
{
    laws::sizes_fit();
    laws::grammar::whole_input();
    laws::grammar::no_list_beside_fault();
    let mut cache = SizeCache::new(alloc);
    let len = K::len(number, held, &mut cache).map_err(|_| DecodeError::OutOfMemory)?;
    let size = checked_encode_size(saturate_size(len)).map_err(|_| DecodeError::MessageTooLarge)?;
    let mut text = Vec::with_capacity(alloc, size as usize)?;
    K::put(number, held, &mut cache, &mut text).map_err(|_| DecodeError::OutOfMemory)?;
    let mut context = DecodeContext::new(RECURSION_LIMIT, usize::MAX);
    UnknownFields::decode_from_slice_within(alloc, &text, &mut context)
}

// Puts records behind others. Where memory runs out nothing changes: several are put into a copy
// first.
pub(crate) fn put_behind(fields: &mut UnknownFields, more: UnknownFields) -> Result<(), DecodeError>
    ensures ok { OnOk result (fields.new ≡ joined fields.old more) }
    ensures err { IfErr result (λ e. e ≡ OutOfMemory) }
    ensures unchanged { OnErr result (fields.new ≡ fields.old) }
{
    if more.len() < 2 {
        return append(fields, more);
    }
    let mut next = fields.clone()?;
    append(&mut next, more)?;
    *fields = next;
    Ok(())
}

// Puts records behind others, one by one. Where memory runs out some of them are there, but none
// where there is one at most.
pub(crate) fn append(fields: &mut UnknownFields, more: UnknownFields) -> Result<(), DecodeError>
    ensures ok { OnOk result (fields.new ≡ joined fields.old more) }
    ensures err { IfErr result (λ e. e ≡ OutOfMemory) }
    ensures unchanged { count_top more < 2 → OnErr result (fields.new ≡ fields.old) }
{
    for field in more {
        fields.push(field).map_err(|_| DecodeError::OutOfMemory)?;
    }
    Ok(())
}
