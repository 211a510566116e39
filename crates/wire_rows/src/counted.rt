//! A buffer over one slice that counts how often bytes are taken from it.
use bytes::Buf;

/// Bytes in one chunk, and the calls that took some of them.
#[derive(Drop)]
pub struct Counted<'a> {
    pub bytes: &'a [u8],
    pub advances: usize,
}

impl Buf for Counted<'_> {
    ghost unread = { λ counted. counted.bytes.now };

    fn remaining(&self) -> usize {
        self.bytes.len()
    }

    fn chunk(&self) -> &[u8] {
        self.bytes
    }

    fn advance(&mut self, cnt: usize) {
        self.bytes = &self.bytes[cnt..];
        self.advances = self.advances.saturating_add(1);
    }
}
