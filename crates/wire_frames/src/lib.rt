//! Messages one after another on a stream: a decoder that is fed chunks as they come, and an
//! encoder into any sink. `CALLING.md` shows the calls.
#![tactic(auto)]

mod decoder;
mod encode;
mod error;
mod extent;
mod frame;
pub mod laws;
mod message;

pub use decoder::FrameDecoder;
pub use encode::{put_delimited_frame, put_grpc_frame};
pub use error::{FrameError, Unfed, UnfedCause};
pub use frame::{Frame, FrameText, Framing};
pub use message::MessageError;
