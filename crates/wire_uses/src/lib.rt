//! Four callers of the message types of `wire_report`, proved: what a program does with a type
//! that is generated.
#![tactic(auto)]

pub mod edit;
pub mod labels;
pub mod origin;
pub mod samples;
#[cfg(test)]
mod tests;
