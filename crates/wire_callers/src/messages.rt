//! A message that is written and read again.
ghost use Rattle.std.specs.Prelude.{◌≡◌, ◌≢◌, IfOk, IfErr};
ghost use Rattle.wire_codec.specs.DecodeError.TheVariants.{OutOfMemory};

use crate::counter::Counter;
use std::alloc::Global;
use wire_codec::{DecodeError, Message, laws};

/// What is read from the encoding of a counter: the counter, where memory lasts.
pub fn copied(alloc: Global, counter: &Counter) -> Result<Counter, DecodeError>
    ensures same { IfOk result (λ copy. copy ≡ counter.now) }
    ensures memory { IfErr result (λ e. ¬ (e ≢ OutOfMemory)) }
{
    laws::text_decodes::<Counter>();
    laws::taken_in_one_way::<Counter>();
    laws::records_in_order();
    let _value = counter.value;
    let text = counter
        .try_encode_to_vec(alloc)
        .or(Err(DecodeError::OutOfMemory))?;
    Counter::decode_from_slice(alloc, &text)
}
