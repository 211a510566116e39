//! Where a frame stands.
use std::fmt;

/// Where a frame stands in its log. It is printed as `frame 1 at 4`.
#[derive(Clone, Copy, Debug)]
pub struct FramePlace {
    /// How many frames stand before it.
    pub number: u64,
    /// The byte at which it begins.
    pub start: u64,
}

impl fmt::Display for FramePlace {
    fn fmt<W: fmt::Write>(&self, f: &mut fmt::Formatter<W>) -> fmt::Result {
        write!(f, "frame {} at {}", self.number, self.start)
    }
}
