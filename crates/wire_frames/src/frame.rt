//! What stands on a stream.
ghost use Rattle.std.specs.Prelude.{◌≡◌};
ghost use Rattle.wire_frames.specs.Frames.{frame_of};

use bytes::Bytes;

/// In which form frames stand on a stream. In both a prefix tells how many bytes the payload has,
/// and the payload follows it.
#[derive(Clone, Copy, Debug, PartialEq, Eq)]
pub enum Framing {
    /// The prefix is a varint, padded or not, as before a length-delimited payload: the logs that
    /// `writeDelimitedTo` of Java and `SerializeDelimitedToZeroCopyStream` of C++ write.
    Delimited,
    /// The prefix is a byte, 1 for a compressed payload and 0 for any other, and four bytes of
    /// length, the highest first: the Length-Prefixed-Message of gRPC over HTTP2.
    Grpc,
}

/// One frame.
#[derive(Debug, Drop)]
pub struct Frame {
    /// Whether the flag of a gRPC frame says so. The payload is as it came; nothing is inflated.
    pub compressed: bool,
    pub payload: Bytes,
}

/// One frame as it stands on a stream.
#[derive(Debug, Drop)]
pub struct FrameText {
    /// Whether the flag of a gRPC frame says so.
    pub compressed: bool,
    /// How many bytes the prefix has.
    pub prefix: usize,
    /// The prefix as it came, a length padded or not, and the payload.
    pub text: Bytes,
}

impl FrameText {
    /// The bytes behind the prefix.
    pub fn payload(&self) -> &[u8]
        ensures { result.now ≡ (frame_of self.now).payload }
    {
        self.text.as_slice().get(self.prefix..).unwrap_or(&[])
    }

    /// The frame, with no copy of the payload.
    pub fn into_frame(self) -> Frame
        ensures { result ≡ frame_of self }
    {
        let mut payload = self.text;
        let prefix = self.prefix.min(payload.len());
        payload.advance(prefix);
        Frame {
            compressed: self.compressed,
            payload,
        }
    }
}
