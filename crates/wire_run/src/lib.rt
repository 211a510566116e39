//! What the programs share: the words of a command line, the input that they name, the place of a
//! frame, and the status with which a run ends.
#![tactic(auto)]

mod command_line;
mod error;
mod frame_place;
mod source;

pub use command_line::{answer_words, words};
pub use error::{RunError, open_error, read_error, report, write_error};
pub use frame_place::FramePlace;
pub use source::Source;
