//! Records read in place: the bytes of the payloads of one field number.
ghost use Rattle.std.specs.Prelude.{◌≡◌, IfOk, IfErr};
ghost use Rattle.wire_base.specs.Charge.{charge};
ghost use Rattle.wire_base.specs.Field.{Fields};
ghost use Rattle.wire_base.specs.Limits.{Fits, counted};
ghost use Rattle.wire_base.specs.Spells.{Spells};
ghost use Rattle.wire_read.specs.Faults.{IsFault};
ghost use Rattle.wire_callers.specs.PayloadBytes.{bytes_of_field, payload_length};

use wire_codec::{DecodeContext, RECURSION_LIMIT};
use wire_read::{Fault, Reader, Value, laws};

/// How many bytes the length-delimited payloads of this field number are, at any nesting of groups,
/// under 100 levels and 1,000,000 records.
pub fn payload_bytes(bytes: &[u8], number: u32) -> Result<usize, Fault>
    ensures ok { IfOk result (λ sum. (fs : Fields) × Spells fs bytes.now
        × Fits (charge fs) (counted 100 1000000) × (sum ≡ bytes_of_field number fs)) }
    ensures fault { IfErr result (IsFault (counted 100 1000000) bytes.now) }
{
    laws::reader_begins();
    laws::reader_goes_on();
    laws::reader_moves_on();
    laws::reader_is_done();
    laws::reader_stops();
    let mut reader = Reader::within(&DecodeContext::new(RECURSION_LIMIT, 1_000_000));
    let mut sum = 0;
    while let Some(event) = reader.next(bytes)? {
        sum += length_if(event.number == number, event.value);
    }
    Ok(sum)
}

// The length of a length-delimited payload, where it is asked for.
fn length_if(asked: bool, value: Value<'_>) -> usize
    ensures { result ≡ payload_length asked value.entry }
{
    match value {
        Value::Bytes(payload) if asked => payload.len(),
        _ => 0,
    }
}
