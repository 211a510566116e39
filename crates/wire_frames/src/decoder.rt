//! Frames off a stream that comes in chunks.
ghost use Rattle.std.specs.Prelude.{◌≡◌, ◌≢◌, ◌+◌, ◌<◌, ◌≤◌, ◌++◌, ◌↔◌, IsTrue, true, false, [], length, take, drop, OnOk, OnErr, IfOk, IfErr, IfSome, IfNone};
ghost use Rattle.wire_base.specs.Read.{Reads};
ghost use Rattle.wire_frames.specs.declared.error.UnfedCause.TheVariants.{NextWaits, OutOfMemory};
ghost use Rattle.wire_frames.specs.Extent.{IsExtent, text_at};
ghost use Rattle.wire_frames.specs.Frames.{EndRefusal, FrameFault, FrameRefusal, HasNext, IsFrame, IsUnfinished, IsWhole};
ghost use Rattle.wire_frames.specs.Stream.{empty_stream, fed, left, unread};

use crate::error::{FrameError, Unfed, UnfedCause};
use crate::extent::{Extent, find_frame};
use crate::frame::{Frame, FrameText, Framing};
use crate::laws;
use bytes::{Buf, Bytes};
use std::alloc::{AllocError, AllocFailed, Global};
use std::marker::Model;
use std::mem;

/// Frames of one form, off a stream that comes in chunks. It keeps the last chunk and, of those
/// before, the beginning of one frame: `next` gives the frames, as long as whole ones are there,
/// and then `feed` takes the next chunk.
#[derive(Drop)]
pub struct FrameDecoder {
    framing: Framing,
    limit: usize,
    held: Vec<u8>,
    chunk: Bytes,
}

impl Model for FrameDecoder {
    ghost use Rattle.wire_frames.specs.Frames.{IsUnfinished};
    ghost use Rattle.wire_frames.specs.Stream.{Stream};

    ghost Value = { Stream };

    ghost view = { λ decoder. record {
      framing = decoder.framing;
      limit = decoder.limit;
      held = decoder.held.items;
      chunk = decoder.chunk;
    } };

    ghost invariant = { λ decoder.
        IsUnfinished decoder.framing decoder.limit decoder.held.items };
}

impl FrameDecoder {
    /// Before the first chunk. A payload may have `limit` bytes. Nothing is allocated before a
    /// chunk ends inside of a frame.
    pub fn new(alloc: Global, framing: Framing, limit: usize) -> FrameDecoder
        ensures { result ≡ empty_stream framing limit }
    {
        FrameDecoder {
            framing,
            limit,
            held: Vec::new(alloc),
            chunk: Bytes::new(),
        }
    }

    /// Takes the next chunk, behind the bytes that were fed before. Refused while `has_next`, and
    /// where there is no memory for the bytes that are left of the chunk before; the chunk is then
    /// handed back, and nothing changes.
    pub fn feed(&mut self, chunk: Bytes) -> Result<(), Unfed>
        ensures ok { OnOk result (self.new ≡ fed self.old chunk) }
        ensures taken { OnOk result
            (IsUnfinished self.old.framing self.old.limit (unread self.old)) }
        ensures handed_back { IfErr result (λ unfed. unfed.chunk ≡ chunk) }
        ensures waiting { IfErr result (λ unfed. unfed.cause ≡ NextWaits
            → HasNext self.old.framing self.old.limit (unread self.old)) }
        ensures memory { IfErr result (λ unfed. unfed.cause ≡ OutOfMemory
            → IsUnfinished self.old.framing self.old.limit (unread self.old)) }
        ensures unchanged { OnErr result (self.new ≡ self.old) }
    {
        if self.has_next() {
            return Err(Unfed {
                chunk,
                cause: UnfedCause::NextWaits,
            });
        }
        match self.held.extend_from_slice(self.chunk.as_slice()) {
            Ok(()) => {
                self.chunk = chunk;
                Ok(())
            }
            Err(AllocError) => Err(Unfed {
                chunk,
                cause: UnfedCause::OutOfMemory,
            }),
        }
    }

    /// The next frame, or none where the bytes that were fed end before it does. A frame that lies
    /// in one chunk is a part of it, with no copy. A fault stays, and each further call answers it.
    pub fn next(&mut self) -> Result<Option<Frame>, FrameError>
        ensures frame { IfOk result (λ next. IfSome next (λ frame. Reads (unread self.old)
            (IsFrame self.old.framing self.old.limit frame) (unread self.new))) }
        ensures rest { IfOk result (λ next. IfSome next (λ _.
            self.new ≡ left self.old (unread self.new))) }
        ensures none { IfOk result (λ next. IfNone next
            (IsUnfinished self.old.framing self.old.limit (unread self.old))) }
        ensures unmoved { IfOk result (λ next. IfNone next (self.new ≡ self.old)) }
        ensures refused { IfErr result
            (FrameRefusal self.old.framing self.old.limit (unread self.old)) }
        ensures unchanged { OnErr result (self.new ≡ self.old) }
    {
        match self.next_text()? {
            Some(whole) => Ok(Some(whole.into_frame())),
            None => Ok(None),
        }
    }

    /// As `next`, but the frame is given as it stands, with its prefix: the texts of the frames are
    /// a front of the bytes that were fed.
    pub fn next_text(&mut self) -> Result<Option<FrameText>, FrameError>
        ensures frame { IfOk result (λ next. IfSome next
            (IsWhole self.old.framing self.old.limit)) }
        ensures parts { IfOk result (λ next. IfSome next (λ whole.
            unread self.old ≡ whole.text ++ unread self.new)) }
        ensures rest { IfOk result (λ next. IfSome next (λ _.
            self.new ≡ left self.old (unread self.new))) }
        ensures none { IfOk result (λ next. IfNone next
            (IsUnfinished self.old.framing self.old.limit (unread self.old))) }
        ensures unmoved { IfOk result (λ next. IfNone next (self.new ≡ self.old)) }
        ensures refused { IfErr result
            (FrameRefusal self.old.framing self.old.limit (unread self.old)) }
        ensures unchanged { OnErr result (self.new ≡ self.old) }
    {
        match self.find()? {
            Some(extent) => Ok(Some(self.take(extent)?)),
            None => Ok(None),
        }
    }

    /// As `next`, where the input ends with the bytes that were fed: none is its end, and the
    /// beginning of a frame is `Truncated`, which stays.
    pub fn next_at_end(&mut self) -> Result<Option<Frame>, FrameError>
        ensures frame { IfOk result (λ next. IfSome next (λ frame. Reads (unread self.old)
            (IsFrame self.old.framing self.old.limit frame) (unread self.new))) }
        ensures rest { IfOk result (λ next. IfSome next (λ _.
            self.new ≡ left self.old (unread self.new))) }
        ensures end { IfOk result (λ next. IfNone next (unread self.old ≡ [])) }
        ensures unmoved { IfOk result (λ next. IfNone next (self.new ≡ self.old)) }
        ensures refused { IfErr result
            (EndRefusal self.old.framing self.old.limit (unread self.old)) }
        ensures unchanged { OnErr result (self.new ≡ self.old) }
    {
        match self.next()? {
            Some(frame) => Ok(Some(frame)),
            None if self.is_empty() => Ok(None),
            None => Err(FrameError::Truncated),
        }
    }

    /// Whether a whole frame or a fault waits, which `next` gives. No chunk is taken until then.
    pub fn has_next(&self) -> bool
        ensures waits { result ≡ true
            → HasNext self.now.framing self.now.limit (unread self.now) }
        ensures unfinished { result ≡ false
            → IsUnfinished self.now.framing self.now.limit (unread self.now) }
    {
        match self.find() {
            Ok(Some(_)) => true,
            Ok(None) => false,
            Err(_) => true,
        }
    }

    /// Whether all bytes that were fed are parts of frames that were given.
    pub fn is_empty(&self) -> bool
        ensures { IsTrue result ↔ (unread self.now ≡ []) }
    {
        self.held.is_empty() && self.chunk.is_empty()
    }

    /// How many bytes were fed and are no part of a frame that was given.
    pub fn unread_len(&self) -> usize
        ensures { result ≡ length (unread self.now) }
    {
        self.held.len() + self.chunk.len()
    }

    /// How many bytes were kept as a copy, which are the beginning of one frame: less than its
    /// prefix and its payload together. All other bytes are the rest of the last chunk.
    pub fn held_len(&self) -> usize
        ensures len { result ≡ length self.now.held }
        ensures begun { IsUnfinished self.now.framing self.now.limit self.now.held }
        ensures short { result < 10 + self.now.limit }
    {
        laws::unfinished_is_short();
        self.held.len()
    }

    // The frame at the front of what is unread.
    fn find(&self) -> Result<Option<Extent>, FrameError>
        ensures some { IfOk result (λ found. IfSome found
            (IsExtent self.now.framing self.now.limit (unread self.now))) }
        ensures none { IfOk result (λ found. IfNone found
            (IsUnfinished self.now.framing self.now.limit (unread self.now))) }
        ensures fault { IfErr result
            (FrameFault self.now.framing self.now.limit (unread self.now)) }
    {
        let mut chunk = self.chunk.as_slice();
        if self.held.is_empty() {
            return find_frame(self.framing, self.limit, &mut chunk);
        }
        let mut both = self.held.as_slice().chain(chunk);
        find_frame(self.framing, self.limit, &mut both)
    }

    // Takes the text of this frame off the front.
    fn take(&mut self, extent: Extent) -> Result<FrameText, AllocError>
        requires { IsExtent self.old.framing self.old.limit (unread self.old) extent }
        ensures text { IfOk result (λ whole. whole ≡ text_at (unread self.old) extent) }
        ensures rest { OnOk result
            (self.new ≡ left self.old (drop extent.len (unread self.old))) }
        ensures unchanged { OnErr result (self.new ≡ self.old) }
    {
        laws::unfinished_has_no_next();
        let more = extent.len - self.held.len();
        let text = split_joined(&mut self.held, &mut self.chunk, more)?;
        Ok(FrameText {
            compressed: extent.compressed,
            prefix: extent.prefix,
            text,
        })
    }
}

// Takes the bytes that are held, and so many of the chunk behind them, as one run.
fn split_joined(held: &mut Vec<u8>, chunk: &mut Bytes, more: usize) -> Result<Bytes, AllocError>
    requires { more ≤ length chunk.old }
    ensures run { IfOk result (λ run. run ≡ held.old.items ++ take more chunk.old) }
    ensures held { OnOk result (held.new.items ≡ []) }
    ensures chunk { OnOk result (chunk.new ≡ drop more chunk.old) }
    ensures held_stays { OnErr result (held.new.items ≡ held.old.items) }
    ensures chunk_stays { OnErr result (chunk.new ≡ chunk.old) }
{
    if held.is_empty() {
        return chunk.split_to(more);
    }
    let begun = held.len();
    held.extend_from_slice(&chunk.as_slice()[..more])?;
    let empty = Vec::new(*held.allocator());
    match Bytes::from_vec(mem::replace(held, empty)) {
        Ok(run) => {
            chunk.advance(more);
            Ok(run)
        }
        Err(AllocFailed { value }) => {
            *held = value;
            held.truncate(begun);
            Err(AllocError)
        }
    }
}
