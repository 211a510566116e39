//! Worked runs. A test that is refused a request for memory fails with `OutOfMemory` as what was
//! found, or not at all: `.ci/refusals` looks at that.
mod devices;
mod lines;
mod runs;

use crate::error::RunError;

/// What a row finds: its own answer, want of memory, or anything else.
#[derive(Clone, Copy, Debug, PartialEq)]
pub(crate) enum Found {
    Own,
    Other,
    OutOfMemory,
}

/// What was found that says whether the answer was the row's own.
pub(crate) fn found_in(answer: Result<bool, RunError>) -> Found {
    match answer {
        Ok(true) => Found::Own,
        Err(RunError::OutOfMemory) => Found::OutOfMemory,
        _ => Found::Other,
    }
}
