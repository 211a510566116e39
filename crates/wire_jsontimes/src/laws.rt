//! Laws of times: each function is a theorem, and does nothing.
ghost use Rattle.wire_jsontimes.specs.Laws.{DurationIsDecided, DurationReadsBack, TimestampIsDecided, TimestampReadsBack};

/// What is written of a duration is read as it.
pub fn durations_are_read_back()
    ensures { DurationReadsBack }
{}

/// A tree means one duration at most, and of the same bytes one is read or one refusal told, and
/// never both.
pub fn durations_are_decided()
    ensures { DurationIsDecided }
{}

/// The same of a timestamp.
pub fn timestamps_are_read_back()
    ensures { TimestampReadsBack }
{}

/// A tree means one timestamp at most, and so on.
pub fn timestamps_are_decided()
    ensures { TimestampIsDecided }
{}
