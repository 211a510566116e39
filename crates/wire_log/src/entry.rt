//! The frames of a log, one after another.
ghost use Rattle.std.specs.Prelude.{◌≡◌, ◌≢◌, ◌<◌, ◌⊎◌, length, OnOk, IfOk, IfErr, OnErr, IfSome, IfNone};
ghost use Rattle.wire_base.specs.Field.{Fields, count_top};
ghost use Rattle.wire_frames.specs.Frames.{IsUnfinished};
ghost use Rattle.wire_frames.specs.Stream.{empty_stream, unread};
ghost use Rattle.wire_read.specs.Faults.{IsFault};
ghost use Rattle.wire_log.specs.Entries.{entry_limits, HoldsRecords, HoldsEntry, LeavesOut, SpellsEntry, StopsHere, TakesEntry, frame_place};
ghost use Rattle.wire_log.specs.declared.entry.Broken.{Broken};

use bytes::Bytes;
use std::alloc::{AllocError, Global};
use wire_base::laws as grammar;
use wire_codec::{DEFAULT_UNKNOWN_FIELD_LIMIT, DecodeContext, RECURSION_LIMIT, UnknownFields};
use wire_frames::{FrameDecoder, FrameError, FrameText, Framing, laws};
use wire_read::{Fault, validate};
use wire_run::FramePlace;

/// A frame whose payload is records, as it stands in the log.
#[derive(Drop)]
pub(crate) struct Entry {
    pub place: FramePlace,
    pub whole: FrameText,
}

/// A frame whose payload is no list of records within 100 levels and 1,000,000 records.
#[derive(Drop)]
pub(crate) struct Broken {
    pub place: FramePlace,
    /// How many bytes its prefix has.
    pub prefix: usize,
    /// What is wrong, and where in the payload.
    pub fault: Fault,
}

/// Why a log does not go on.
#[derive(Drop)]
pub(crate) enum Stop {
    Frame(FrameError),
    Records(Broken),
    OutOfMemory,
}

/// Takes the frames off what is fed of a log.
#[derive(Drop)]
pub(crate) struct LogReader {
    pub decoder: FrameDecoder,
    /// How many bytes were fed.
    pub fed: u64,
    /// How many frames were taken off.
    pub taken: u64,
}

impl LogReader {
    /// Before the first byte. A payload may have `limit` bytes.
    pub(crate) fn new(alloc: Global, limit: usize) -> LogReader
        ensures decoder { result.decoder ≡ empty_stream Framing.Delimited limit }
        ensures fed { result.fed ≡ 0 }
        ensures taken { result.taken ≡ 0 }
    {
        LogReader {
            decoder: FrameDecoder::new(alloc, Framing::Delimited, limit),
            fed: 0,
            taken: 0,
        }
    }

    /// Takes the next bytes, once what was fed before has no whole frame any more.
    pub(crate) fn feed(&mut self, chunk: Bytes) -> Result<(), AllocError> {
        self.fed = self.fed.saturating_add(chunk.len() as u64);
        self.decoder.feed(chunk).or(Err(AllocError))
    }

    /// Where the next frame stands.
    pub(crate) fn place(&self) -> FramePlace
        ensures { result ≡ frame_place self.now }
    {
        FramePlace {
            number: self.taken,
            start: self.fed.saturating_sub(self.decoder.unread_len() as u64),
        }
    }

    /// The next frame, or none where it is not there as a whole. One whose payload is no records is
    /// taken off too, and is `Records`.
    pub(crate) fn next(&mut self) -> Result<Option<Entry>, Stop>
        ensures entry { IfOk result (λ next. IfSome next (λ entry.
            TakesEntry self.old.decoder self.new.decoder entry.whole)) }
        ensures place { IfOk result (λ next. IfSome next (λ entry.
            entry.place ≡ frame_place self.old)) }
        ensures moves { IfOk result (λ next. IfSome next (λ _.
            length (unread self.new.decoder) < length (unread self.old.decoder))) }
        ensures none { IfOk result (λ next. IfNone next (IsUnfinished
            self.old.decoder.framing self.old.decoder.limit (unread self.old.decoder))) }
        ensures unmoved { IfOk result (λ next. IfNone next (self.new ≡ self.old)) }
        ensures stop { IfErr result (StopsHere
            self.old.decoder.framing self.old.decoder.limit (unread self.old.decoder)) }
        ensures left_out { IfErr result (λ e. (broken : Broken) → e ≡ Stop.Records broken
            → LeavesOut self.old self.new broken) }

        // Memory apart, it stops only where no frame of records stands.
        ensures only { IfErr result (λ e. e ≢ Stop.OutOfMemory → ¬ HoldsEntry
            self.old.decoder.framing self.old.decoder.limit (unread self.old.decoder)) }
        ensures fed { self.new.fed ≡ self.old.fed }
        ensures framing { self.new.decoder.framing ≡ self.old.decoder.framing }
        ensures limit { self.new.decoder.limit ≡ self.old.decoder.limit }
    {
        laws::frame_moves_on();
        laws::one_frame();
        laws::no_frame_beside_fault();
        let place = self.place();
        let whole = match self.decoder.next_text() {
            Ok(Some(whole)) => whole,
            Ok(None) => return Ok(None),
            Err(error) => return Err(frame_stop(error)),
        };
        self.taken = self.taken.saturating_add(1);
        match check_records(whole.payload()) {
            Ok(()) => Ok(Some(Entry { place, whole })),
            Err(fault) => Err(Stop::Records(Broken {
                place,
                prefix: whole.prefix,
                fault,
            })),
        }
    }
}

// Whether a payload is records within 100 levels and 1,000,000 records.
fn check_records(payload: &[u8]) -> Result<(), Fault>
    ensures ok { OnOk result (HoldsRecords payload.now) }
    ensures fault { IfErr result (IsFault entry_limits payload.now) }
    ensures none { OnErr result (¬ HoldsRecords payload.now) }
{
    grammar::no_list_beside_fault();
    grammar::whole_input();
    let context = DecodeContext::new(RECURSION_LIMIT, DEFAULT_UNKNOWN_FIELD_LIMIT);
    validate(payload, &context)
}

/// How many records a payload is, those in groups not counted. Refused is one that is no records
/// within the limits, or want of memory for them.
pub(crate) fn count_records(alloc: Global, payload: &[u8]) -> Result<usize, AllocError>
    ensures { IfOk result (λ count. (fields : Fields) × SpellsEntry fields payload.now
        × (count ≡ count_top fields)) }
{
    match UnknownFields::decode_from_slice(alloc, payload) {
        Ok(fields) => Ok(fields.len()),
        Err(_) => Err(AllocError),
    }
}

// What no frame is, or want of memory for one.
fn frame_stop(error: FrameError) -> Stop
    ensures { ((error ≢ FrameError.OutOfMemory) × (result ≡ Stop.Frame error))
        ⊎ ((error ≡ FrameError.OutOfMemory) × (result ≡ Stop.OutOfMemory)) }
{
    match error {
        FrameError::OutOfMemory => Stop::OutOfMemory,
        _ => Stop::Frame(error),
    }
}
