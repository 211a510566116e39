//! Short callers of the crates below, proved, beside those of `wire_callers`. The `CALLING.md` of
//! each crate shows those of its calls.
pub mod messages;
pub mod records;
pub mod scalars;
pub mod texts;
pub mod views;

pub use wire_callers::{counter, first, log};
