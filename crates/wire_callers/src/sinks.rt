//! Messages in a rope, and unknown fields in fewer bytes.
ghost use Rattle.std.specs.Prelude.{◌≡◌, ◌≤◌, length, IfOk};
ghost use Rattle.wire_callers.specs.Counter.{counter_records};
ghost use Rattle.wire_codec.specs.Records.{text};
ghost use Rattle.wire_codec.specs.Rope.{rope_bytes};

use crate::counter::Counter;
use std::alloc::Global;
use wire_codec::{DecodeError, EncodeError, Message, Rope, UnknownFields};

/// The counter in a rope, whose segments can be sent as they are.
pub fn in_rope(alloc: Global, counter: &Counter) -> Result<Rope, EncodeError>
    ensures ok { IfOk result (λ rope. rope_bytes rope ≡ text (counter_records counter.now)) }
{
    let mut rope = Rope::new(alloc);
    counter.try_encode(alloc, &mut rope)?;
    Ok(rope)
}

/// The records of the input in their shortest encoding, which is no longer than the input.
pub fn shortened(alloc: Global, input: &[u8]) -> Result<Vec<u8>, DecodeError>
    ensures no_longer { IfOk result (λ output. length output.items ≤ length input.now) }
{
    let fields = UnknownFields::decode_from_slice(alloc, input)?;
    let mut output = Vec::new(alloc);
    fields
        .write_to(&mut output)
        .or(Err(DecodeError::OutOfMemory))?;
    Ok(output)
}
