//! Bytes in segments: written at the end, some of them with no copy, and read as one run.
ghost use Rattle.std.specs.Prelude.{◌≡◌, ◌+◌, ◌≤◌, ◌==◌, max, [], ◌++◌, length, IsOk, IfOk, IfErr, OnOk, OnErr, vec_len, vec_capacity};
ghost use Rattle.wire_base.specs.declared.error.EncodeError.TheVariants.{OutOfMemory};
ghost use Rattle.wire_base.specs.Rope.{AllFilled, rope_bytes, all_segments, tail_segments, empty_rope};

use crate::error::EncodeError;
use bytes::{Bytes, BytesMut};
use std::alloc::{AllocError, Global};
use std::marker::Model;

mod buf;
mod sink;

pub use buf::RopeBuf;

/// The least number of bytes of a shared run that a `Rope` keeps as a segment of its own, where the
/// caller asks for no other.
pub const DEFAULT_MIN_SEGMENT: usize = 4096;

/// A sink that copies no long shared run: it has finished segments, none of them empty, and behind
/// them a tail that the short puts go to. Its bytes are these joined in order, at most
/// `usize::MAX`; more are `LengthOverflow`.
#[derive(Drop)]
pub struct Rope {
    finished: Vec<Bytes>,
    tail: BytesMut,
    len: usize,
    min_segment: usize,
}

impl Model for Rope {
    ghost use Rattle.std.specs.Prelude.{◌≡◌, ◌≤◌, ◌++◌, length};
    ghost use Rattle.std.specs.List.{concat};
    ghost use Rattle.wire_base.specs.Rope.{RopeParts, rope_code, AllFilled};

    ghost Value = { RopeParts };

    ghost coded = { rope_code };

    ghost view = { λ r. record {
      segments = r.finished.items;
      tail = r.tail.items;
      min_segment = r.min_segment;
    } };

    ghost invariant = { λ r. (r.len ≡ length (concat r.finished.items ++ r.tail.items))
        × AllFilled r.finished.items × (1 ≤ r.min_segment) };
}

impl Rope {
    /// An empty rope that keeps shared runs of `DEFAULT_MIN_SEGMENT` bytes and more as they are. It
    /// allocates nothing before the first put.
    pub fn new(alloc: Global) -> Rope
        ensures { result ≡ empty_rope 4096 }
    {
        Rope::with_min_segment(alloc, DEFAULT_MIN_SEGMENT)
    }

    /// An empty rope that keeps shared runs of so many bytes and more as they are, 0 taken as 1.
    pub fn with_min_segment(alloc: Global, min_segment: usize) -> Rope
        ensures { result ≡ empty_rope (max min_segment 1) }
    {
        Rope {
            finished: Vec::new(alloc),
            tail: BytesMut::new(alloc),
            len: 0,
            min_segment: min_segment.max(1),
        }
    }

    /// How many bytes the rope has, in constant time.
    pub fn len(&self) -> usize
        ensures { result ≡ length (rope_bytes self.now) }
    {
        self.len
    }

    /// Whether there is no byte.
    pub fn is_empty(&self) -> bool
        ensures { result ≡ (length (rope_bytes self.now) == 0) }
    {
        self.len == 0
    }

    /// How many segments the rope has, a tail of some bytes among them.
    pub fn segment_count(&self) -> usize
        ensures { result ≡ length (all_segments self.now) }
    {
        self.finished.len() + usize::from(!self.tail.is_empty())
    }

    /// The segments in order, a tail of some bytes the last. None is copied. Where memory is
    /// refused the rope comes back as it was.
    pub fn into_segments(mut self) -> Result<Vec<Bytes>, Rope>
        ensures ok { IfOk result (λ segments. segments.items ≡ all_segments self) }
        ensures filled { IfOk result (λ segments. AllFilled segments.items) }
        ensures err { IfErr result (λ rope. rope ≡ self) }
        ensures whole { length self.tail ≡ 0 → IsOk result }
    {
        if close_tail(&mut self.finished, &mut self.tail).is_err() {
            return Err(self);
        }
        let Rope {
            finished,
            tail: _,
            len: _,
            min_segment: _,
        } = self;
        Ok(finished)
    }

    /// A copy of all the bytes in one run, or `OutOfMemory`.
    pub fn to_contiguous_bytes(&self) -> Result<Bytes, EncodeError>
        ensures ok { IfOk result (λ bytes. bytes ≡ rope_bytes self.now) }
        ensures err { IfErr result (λ e. e ≡ OutOfMemory) }
    {
        let mut joined = Vec::with_capacity(*self.finished.allocator(), self.len)?;
        for segment in &self.finished {
            joined.extend_from_slice(segment.as_slice())?;
        }
        joined.extend_from_slice(self.tail.as_slice())?;
        Ok(Bytes::from_vec(joined)?)
    }
}

// Makes a tail of some bytes the last of the finished segments. A refusal changes nothing.
fn close_tail(finished: &mut Vec<Bytes>, tail: &mut BytesMut) -> Result<(), AllocError>
    ensures ok { OnOk result
        ((finished.new.items ≡ finished.old.items ++ tail_segments tail.old.items)
        × (tail.new.items ≡ [])) }
    ensures err { OnErr result ((finished.new.items ≡ finished.old.items)
        × (tail.new.items ≡ tail.old.items)) }
    ensures whole { length tail.old.items ≡ 0 → IsOk result }
    ensures len { vec_len finished.new ≤ vec_len finished.old + 1 }
    ensures capacity { vec_capacity finished.old ≤ vec_capacity finished.new }
{
    if tail.is_empty() {
        return Ok(());
    }
    finished.reserve(1)?;
    let closed = tail.freeze_to(tail.len())?;
    finished.push(closed)?;
    Ok(())
}
