//! Short proved callers of the crates up to `wire_samples`, as their `CALLING.md` shows them.
#![tactic(auto)]

pub mod callers;
