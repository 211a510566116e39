//! Times by the JSON mapping of Protocol Buffers, as seconds and nanoseconds. `CALLING.md` shows
//! the calls.
#![tactic(auto)]

mod digits;
mod duration;
pub mod laws;
mod stamp;
mod timestamp;
mod write;

pub use duration::{JsonDuration, read_duration};
pub use stamp::write_timestamp;
pub use timestamp::{JsonTimestamp, read_timestamp};
pub use write::write_duration;
