//! Callers of the crates of JSON: a text that is compacted, and an integer, a duration, a message and
//! a generated one that are read and written again; and rows of texts with what is answered of them.
#![tactic(auto)]

#[cfg(test)]
mod answers;
#[cfg(test)]
mod batch_tests;
pub mod batches;
pub mod durations;
#[cfg(test)]
mod held_tests;
pub mod integers;
#[cfg(test)]
mod kind_tests;
#[cfg(test)]
mod message_tests;
#[cfg(test)]
mod report_tests;
pub mod reports;
pub mod rewrite;
#[cfg(test)]
mod scalar_tests;
#[cfg(test)]
mod text_tests;
pub mod texts;
#[cfg(test)]
mod time_tests;
