//! A log without the frames whose payload is no records.
ghost use Rattle.std.specs.Prelude.{◌≡◌, ◌++◌, ◌∷◌, [], OnOk, OnErr, IfErr};
ghost use Rattle.wire_frames.specs.Frames.{IsUnfinished};
ghost use Rattle.wire_frames.specs.Stream.{unread};
ghost use Rattle.wire_log.specs.Kept.{PutsKept, StopsKeeping};

use crate::entry::{Broken, LogReader, Stop};
use crate::front::put_text;

/// Takes the whole frames off a log, and puts each whose payload is records, as it stands. Of each
/// other one it tells where it stands and what is wrong with it. It stops where no frame stands.
pub(crate) fn put_kept(
    log: &mut LogReader,
    out: &mut Vec<u8>,
    left_out: &mut Vec<Broken>,
) -> Result<(), Stop>
    ensures ok { OnOk result (PutsKept log.old (unread log.new.decoder)
        out.old.items out.new.items left_out.old.items left_out.new.items) }
    ensures unfinished { OnOk result (IsUnfinished
        log.old.decoder.framing log.old.decoder.limit (unread log.new.decoder)) }
    ensures stop { IfErr result (StopsKeeping log.old
        out.old.items out.new.items left_out.old.items left_out.new.items) }
    ensures fed { log.new.fed ≡ log.old.fed }
    ensures framing { log.new.decoder.framing ≡ log.old.decoder.framing }
    ensures limit { log.new.decoder.limit ≡ log.old.decoder.limit }
{
    loop {
        match log.next() {
            Ok(Some(entry)) => put_text(entry.whole.text.as_slice(), out)?,
            Ok(None) => return Ok(()),
            Err(Stop::Records(broken)) => tell(broken, left_out)?,
            Err(stop) => return Err(stop),
        }
    }
}

// Tells of one frame more, or of none.
fn tell(broken: Broken, left_out: &mut Vec<Broken>) -> Result<(), Stop>
    ensures ok { OnOk result (left_out.new.items ≡ left_out.old.items ++ broken ∷ []) }
    ensures err { OnErr result (left_out.new.items ≡ left_out.old.items) }
    ensures cause { IfErr result (λ e. e ≡ Stop.OutOfMemory) }
{
    match left_out.push(broken) {
        Ok(()) => Ok(()),
        Err(_) => Err(Stop::OutOfMemory),
    }
}
