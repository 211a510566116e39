//! Callers of `wire_scalar`: groups, numbers, and packed lists.
ghost use Rattle.std.specs.Prelude.{◌≡◌, [], ◌++◌, OnOk, IfOk, IfErr};
ghost use Rattle.wire_base.specs.Ending.{by_tag};
ghost use Rattle.wire_base.specs.Fault.{ListFault};
ghost use Rattle.wire_base.specs.Field.{varint};
ghost use Rattle.wire_base.specs.Limits.{uncounted};
ghost use Rattle.wire_base.specs.Sink.{Writes};
ghost use Rattle.wire_base.specs.Text.{record_text};
ghost use Rattle.wire_base.specs.Varint.{IsSpelling};
ghost use Rattle.wire_scalar.specs.Packed.{Appends};
ghost use Rattle.wire_scalar.specs.ValueMap.{int32, sint64};

use std::alloc::Global;
use wire_base::{DecodeError, EncodeError, EncodeSink, count_varints};
use wire_scalar::{borrow_group, extend_packed_int32, put_sint64_field};

/// The body of a group whose start tag was read. Groups in it nest at most 10 deep.
pub fn body_of(bytes: &[u8], number: u32) -> Result<&[u8], DecodeError>
    ensures fault { IfErr result (ListFault (uncounted 10) (by_tag number) bytes.now) }
{
    let mut rest = bytes;
    borrow_group(&mut rest, number, 10)
}

/// Writes a balance as field 1.
pub fn put_balance<S: EncodeSink>(balance: i64, sink: &mut S) -> Result<(), EncodeError>
    ensures { Writes (record_text 1 (varint (sint64.enc balance)))
        (S.held sink.old) (S.held sink.new) result }
{
    put_sint64_field(1, balance, sink)
}

/// The scores of a packed list, or why it is none.
pub fn scores_of(alloc: Global, payload: &[u8]) -> Result<Vec<i32>, DecodeError>
    ensures ok { IfOk result (λ scores. Appends IsSpelling int32 payload.now [] scores.items) }
{
    let mut scores = Vec::new(alloc);
    extend_packed_int32(alloc, payload, &mut scores, count_varints(payload))?;
    Ok(scores)
}
