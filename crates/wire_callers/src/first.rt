//! A first program: a message of an input that is not trusted is read, changed, and written.
ghost use Rattle.std.specs.Prelude.{◌≡◌, ◌≢◌, ◌+◌, ◌-◌, ◌^◌, ◌≤◌, length, min, IfOk, IfErr};
ghost use Rattle.wire_codec.specs.DecodeError.TheVariants.{MessageTooLarge, OutOfMemory};
ghost use Rattle.wire_codec.specs.Limits.{counted, with_elements, with_unknown_bytes};
ghost use Rattle.wire_codec.specs.Records.{text};
ghost use Rattle.wire_codec.specs.Taking.{Decodes, NotDecoded};
ghost use Rattle.wire_callers.specs.Counter.{counter_records, CounterTakes};
ghost use Rattle.wire_callers.specs.declared.counter.Counter.{Counter};

use crate::counter::Counter;
use std::alloc::Global;
use wire_codec::{DecodeError, DecodeOptions, EncodeError, Message};

/// Reads the counter of an input that is not trusted, adds one, and writes it.
pub fn raised(alloc: Global, input: &[u8]) -> Result<Vec<u8>, DecodeError>
    ensures ok { IfOk result (λ output. (was : Counter) × Decodes CounterTakes
        (with_unknown_bytes (with_elements (counted 100 10) 33554432) (2 ^ 64 - 1))
        (record { value = 0 }) input.now was
        × (output.items ≡ text (counter_records
        (record { value = min (was.value + 1) (2 ^ 64 - 1) })))) }
    ensures err { IfErr result (λ e. e ≢ OutOfMemory → e ≢ MessageTooLarge
        → length input.now ≤ 4096 → NotDecoded CounterTakes
        (with_unknown_bytes (with_elements (counted 100 10) 33554432) (2 ^ 64 - 1))
        (record { value = 0 }) input.now) }
{
    let limits = DecodeOptions::new()
        .with_max_message_size(4096)
        .with_unknown_field_limit(10);
    let mut counter: Counter = limits.decode_from_slice(alloc, input)?;
    counter.value = counter.value.saturating_add(1);
    counter
        .try_encode_to_vec(alloc)
        .map_err(|error| match error {
            EncodeError::MessageTooLarge => DecodeError::MessageTooLarge,
            _ => DecodeError::OutOfMemory,
        })
}
