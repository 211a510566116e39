//! A `BytesMut` as a sink.
ghost use Rattle.wire_base.specs.Sink.{in_memory};

use super::EncodeSink;
use crate::error::EncodeError;
use bytes::{BufMut, BytesMut};

impl EncodeSink for BytesMut {
    ghost held = { λ sink. in_memory sink.items };

    fn put_u8(&mut self, value: u8) -> Result<(), EncodeError> {
        BufMut::put_u8(self, value)?;
        Ok(())
    }

    fn put_slice(&mut self, bytes: &[u8]) -> Result<(), EncodeError> {
        BufMut::put_slice(self, bytes)?;
        Ok(())
    }

    fn put_u32_le(&mut self, value: u32) -> Result<(), EncodeError> {
        BufMut::put_u32_le(self, value)?;
        Ok(())
    }

    fn put_u64_le(&mut self, value: u64) -> Result<(), EncodeError> {
        BufMut::put_u64_le(self, value)?;
        Ok(())
    }
}
