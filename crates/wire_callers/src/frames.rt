//! All frames of an input that comes in chunks.
ghost use Rattle.std.specs.Prelude.{◌≡◌, ◌≢◌, ◌++◌, List, [], OnOk, IfOk, IfErr};
ghost use Rattle.std.specs.List.{concat};
ghost use Rattle.wire_frames.specs.declared.error.FrameError.TheVariants.{OutOfMemory, Truncated};
ghost use Rattle.wire_frames.specs.declared.frame.Frame.{Frame};
ghost use Rattle.wire_frames.specs.Frames.{Frames, IsUnfinished};
ghost use Rattle.wire_frames.specs.Stops.{StopsAt};
ghost use Rattle.wire_frames.specs.Stream.{unread};

use bytes::Bytes;
use std::alloc::Global;
use wire_frames::{Frame, FrameDecoder, FrameError, Framing, laws};

/// The frames of an input that comes in these chunks, which are those that the joined bytes spell.
pub fn frames_of(
    alloc: Global,
    framing: Framing,
    limit: usize,
    chunks: Vec<Bytes>,
) -> Result<Vec<Frame>, FrameError>
    ensures ok { IfOk result (λ frames.
        Frames framing limit frames.items (concat chunks.items) []) }
    ensures only { IfOk result (λ frames. (others : List Frame)
        → Frames framing limit others (concat chunks.items) [] → frames.items ≡ others) }
    ensures err { IfErr result (λ e. e ≢ OutOfMemory
        → StopsAt framing limit (concat chunks.items) e) }
{
    laws::bytes_behind();
    laws::frames_add_up();
    laws::one_list();
    let mut decoder = FrameDecoder::new(alloc, framing, limit);
    let mut frames = Vec::new(alloc);
    for chunk in chunks {
        decoder.feed(chunk).or(Err(FrameError::OutOfMemory))?;
        take_whole(&mut decoder, &mut frames)?;
    }
    if decoder.is_empty() {
        Ok(frames)
    } else {
        Err(FrameError::Truncated)
    }
}

// Takes all whole frames off the decoder.
fn take_whole(decoder: &mut FrameDecoder, frames: &mut Vec<Frame>) -> Result<(), FrameError>
    ensures frames { OnOk result ((more : List Frame)
        × (frames.new.items ≡ frames.old.items ++ more)
        × Frames decoder.old.framing decoder.old.limit more
        (unread decoder.old) (unread decoder.new)) }
    ensures unfinished { OnOk result (IsUnfinished
        decoder.new.framing decoder.new.limit (unread decoder.new)) }
    ensures framing { decoder.new.framing ≡ decoder.old.framing }
    ensures limit { decoder.new.limit ≡ decoder.old.limit }
    ensures err { IfErr result (λ e. e ≢ OutOfMemory → StopsAt
        decoder.old.framing decoder.old.limit (unread decoder.old) e) }
    ensures whole { IfErr result (λ e. e ≢ Truncated) }
{
    laws::frames_add_up();
    laws::frame_moves_on();
    while let Some(frame) = decoder.next()? {
        frames.push(frame).or(Err(FrameError::OutOfMemory))?;
    }
    Ok(())
}
