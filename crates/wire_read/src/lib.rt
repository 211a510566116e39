//! Records read in place: one event a call, in the order of the bytes, with no schema, no copy and
//! no request for memory. `CALLING.md` shows the calls.
#![tactic(auto)]

mod event;
mod last;
pub mod laws;
pub mod numbers;
mod payload;
mod reader;
mod validation;

pub use event::{Event, Fault, Part, Value};
pub use last::{Place, find_last};
pub use reader::{MAX_OPEN_GROUPS, Reader};
pub use validation::validate;
