//! Short callers of `wire_codec`, `wire_read`, `wire_frames` and `wire_extensions`, proved, and a
//! message type from nothing. Those of `wire_codec` name it and `bytes` alone.
#![tactic(auto)]

pub mod counter;
pub mod first;
pub mod frames;
pub mod log;
pub mod messages;
pub mod priority;
pub mod sinks;
pub mod sums;
