//! A sink that counts five bytes at most.
ghost use Rattle.std.specs.Prelude.{Some, None};

use wire_codec::{EncodeError, EncodeSink};

const MOST: usize = 5;

/// What was put, which is no more than five bytes.
#[derive(Drop)]
pub struct Narrow {
    pub bytes: Vec<u8>,
}

impl EncodeSink for Narrow {
    ghost held = { λ sink. record { bytes = sink.bytes.items; most = Some 5; lent = None } };

    fn put_u8(&mut self, value: u8) -> Result<(), EncodeError> {
        self.put_slice(&[value])
    }

    fn put_slice(&mut self, bytes: &[u8]) -> Result<(), EncodeError> {
        if self.bytes.len().saturating_add(bytes.len()) > MOST {
            return Err(EncodeError::LengthOverflow);
        }
        self.bytes.extend_from_slice(bytes)?;
        Ok(())
    }

    fn put_u32_le(&mut self, value: u32) -> Result<(), EncodeError> {
        self.put_slice(&value.to_le_bytes())
    }

    fn put_u64_le(&mut self, value: u64) -> Result<(), EncodeError> {
        self.put_slice(&value.to_le_bytes())
    }
}
