//! The longest front of a log that is whole.
ghost use Rattle.std.specs.Prelude.{◌≡◌, ◌++◌, OnOk, OnErr, IfErr};
ghost use Rattle.wire_frames.specs.Frames.{IsUnfinished};
ghost use Rattle.wire_frames.specs.Stream.{unread};
ghost use Rattle.wire_log.specs.Fronts.{IsLongest, PutsFront, StopsBehind};

use crate::entry::{LogReader, Stop};
use std::alloc::AllocError;
use wire_frames::laws;

/// Takes the frames that are whole off a log, and puts each as it stands. Where a frame is at
/// fault, all whole frames before it are put, and nothing of it.
pub(crate) fn put_front(log: &mut LogReader, out: &mut Vec<u8>) -> Result<(), Stop>
    ensures ok { OnOk result (PutsFront log.old.decoder (unread log.new.decoder)
        out.old.items out.new.items) }
    ensures unfinished { OnOk result (IsUnfinished
        log.old.decoder.framing log.old.decoder.limit (unread log.new.decoder)) }
    ensures longest { OnOk result (IsLongest log.old.decoder.framing log.old.decoder.limit
        (unread log.old.decoder) (unread log.new.decoder)) }
    ensures stop { IfErr result (StopsBehind log.old.decoder out.old.items out.new.items) }
    ensures framing { log.new.decoder.framing ≡ log.old.decoder.framing }
    ensures limit { log.new.decoder.limit ≡ log.old.decoder.limit }
{
    laws::frames_add_up();
    laws::one_frame();
    laws::unfinished_has_no_next();
    while let Some(entry) = log.next()? {
        put_text(entry.whole.text.as_slice(), out)?;
    }
    Ok(())
}

/// Puts a text, or nothing.
pub(crate) fn put_text(text: &[u8], out: &mut Vec<u8>) -> Result<(), Stop>
    ensures ok { OnOk result (out.new.items ≡ out.old.items ++ text.now) }
    ensures err { OnErr result (out.new.items ≡ out.old.items) }
    ensures cause { IfErr result (λ e. e ≡ Stop.OutOfMemory) }
{
    match out.extend_from_slice(text) {
        Ok(()) => Ok(()),
        Err(AllocError) => Err(Stop::OutOfMemory),
    }
}
