// Puts into a rope.
ghost use Rattle.std.specs.Prelude.{◌≡◌, ◌+◌, ◌-◌, ◌^◌, ◌<◌, [], ◌∷◌, ◌++◌, length, Some, None, MatchResult, OnOk, OnErr};
ghost use Rattle.std.specs.Int.{w32, w64, cast_unsigned, to_le_bytes};
ghost use Rattle.wire_base.specs.declared.error.EncodeError.TheVariants.{LengthOverflow};
ghost use Rattle.wire_base.specs.Rope.{rope_bytes, with_bytes, with_segment, with_shared};
ghost use Rattle.wire_base.specs.Sink.{PutAnswers};

use super::{Rope, close_tail};
use crate::encode_sink::EncodeSink;
use crate::error::EncodeError;
use bytes::Bytes;

impl Rope {
    // How many bytes the rope will have with so many more.
    fn len_with(&self, more: usize) -> Result<usize, EncodeError>
        ensures { MatchResult result (λ len. len ≡ length (rope_bytes self.now) + more)
            (λ e. (e ≡ LengthOverflow) × (2 ^ 64 - 1 < length (rope_bytes self.now) + more)) }
    {
        self.len
            .checked_add(more)
            .ok_or(EncodeError::LengthOverflow)
    }

    // Puts bytes behind the tail.
    fn extend_tail(&mut self, bytes: &[u8]) -> Result<(), EncodeError>
        ensures ok { OnOk result (self.new ≡ with_bytes self.old bytes.now) }
        ensures err { OnErr result (self.new ≡ self.old) }
        ensures cause { PutAnswers (Some (2 ^ 64 - 1))
            (length (rope_bytes self.old) + length bytes.now) result }
    {
        let len = self.len_with(bytes.len())?;
        self.tail.extend_from_slice(bytes)?;
        self.len = len;
        Ok(())
    }

    // Puts a run of some bytes behind the tail, as a segment of its own.
    fn push_segment(&mut self, bytes: Bytes) -> Result<(), EncodeError>
        requires { 0 < length bytes }
        ensures ok { OnOk result (self.new ≡ with_segment self.old bytes) }
        ensures err { OnErr result (self.new ≡ self.old) }
        ensures cause { PutAnswers (Some (2 ^ 64 - 1))
            (length (rope_bytes self.old) + length bytes) result }
    {
        let len = self.len_with(bytes.len())?;
        self.finished.reserve(2)?;
        close_tail(&mut self.finished, &mut self.tail)?;
        self.finished.push(bytes)?;
        self.len = len;
        Ok(())
    }
}

impl EncodeSink for Rope {
    ghost held = { λ rope. record {
      bytes = rope_bytes rope;
      most = Some (2 ^ 64 - 1);
      lent = None;
    } };

    const IS_SEGMENTED: bool = true;

    fn put_u8(&mut self, value: u8) -> Result<(), EncodeError>
        ensures ok { OnOk result (self.new ≡ with_bytes self.old (value ∷ [])) }
        ensures err { OnErr result (self.new ≡ self.old) }
        ensures cause { PutAnswers (Some (2 ^ 64 - 1)) (length (rope_bytes self.old) + 1) result }
    {
        self.extend_tail(&[value])
    }

    fn put_slice(&mut self, bytes: &[u8]) -> Result<(), EncodeError>
        ensures ok { OnOk result (self.new ≡ with_bytes self.old bytes.now) }
        ensures err { OnErr result (self.new ≡ self.old) }
        ensures cause { PutAnswers (Some (2 ^ 64 - 1))
            (length (rope_bytes self.old) + length bytes.now) result }
    {
        self.extend_tail(bytes)
    }

    fn put_u32_le(&mut self, value: u32) -> Result<(), EncodeError>
        ensures ok { OnOk result (self.new ≡ with_bytes self.old (to_le_bytes w32 value)) }
        ensures err { OnErr result (self.new ≡ self.old) }
        ensures cause { PutAnswers (Some (2 ^ 64 - 1)) (length (rope_bytes self.old) + 4) result }
    {
        self.extend_tail(&u32::to_le_bytes(value))
    }

    fn put_u64_le(&mut self, value: u64) -> Result<(), EncodeError>
        ensures ok { OnOk result (self.new ≡ with_bytes self.old (to_le_bytes w64 value)) }
        ensures err { OnErr result (self.new ≡ self.old) }
        ensures cause { PutAnswers (Some (2 ^ 64 - 1)) (length (rope_bytes self.old) + 8) result }
    {
        self.extend_tail(&u64::to_le_bytes(value))
    }

    fn put_i32_le(&mut self, value: i32) -> Result<(), EncodeError>
        ensures ok { OnOk result (self.new
            ≡ with_bytes self.old (to_le_bytes w32 (cast_unsigned w32 value))) }
        ensures err { OnErr result (self.new ≡ self.old) }
        ensures cause { PutAnswers (Some (2 ^ 64 - 1)) (length (rope_bytes self.old) + 4) result }
    {
        self.put_u32_le(value.cast_unsigned())
    }

    fn put_i64_le(&mut self, value: i64) -> Result<(), EncodeError>
        ensures ok { OnOk result (self.new
            ≡ with_bytes self.old (to_le_bytes w64 (cast_unsigned w64 value))) }
        ensures err { OnErr result (self.new ≡ self.old) }
        ensures cause { PutAnswers (Some (2 ^ 64 - 1)) (length (rope_bytes self.old) + 8) result }
    {
        self.put_u64_le(value.cast_unsigned())
    }

    /// A run of the minimum and more is kept as it is, as a segment of its own.
    fn put_shared(&mut self, bytes: Bytes) -> Result<(), EncodeError>
        ensures ok { OnOk result (rope_bytes self.new ≡ rope_bytes self.old ++ bytes) }
        ensures parts { OnOk result (self.new ≡ with_shared self.old bytes) }
        ensures err { OnErr result (self.new ≡ self.old) }
        ensures cause { PutAnswers (Some (2 ^ 64 - 1))
            (length (rope_bytes self.old) + length bytes) result }
    {
        if bytes.len() < self.min_segment {
            return self.extend_tail(bytes.as_slice());
        }
        self.push_segment(bytes)
    }
}
