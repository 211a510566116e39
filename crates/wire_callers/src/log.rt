//! Messages one after another, each behind its length.
ghost use Rattle.std.specs.Prelude.{[], IfOk};
ghost use Rattle.wire_callers.specs.CounterLog.{ReadsCounters};

use crate::counter::Counter;
use bytes::Buf;
use std::alloc::Global;
use wire_codec::{DecodeError, Message};

/// The counters of a log, up to the end of the input.
pub fn counters_of<B: Buf>(alloc: Global, buf: &mut B) -> Result<Vec<Counter>, DecodeError>
    ensures ok { IfOk result (λ counters.
        ReadsCounters (B.unread buf.old) counters.items []) }
{
    let mut counters = Vec::new(alloc);
    while buf.remaining() > 0 {
        let counter = Counter::decode_length_delimited(alloc, buf)?;
        counters.push(counter).or(Err(DecodeError::OutOfMemory))?;
    }
    Ok(counters)
}
