//! Callers of message types with required fields: one that is proved, and rows of bytes with what is
//! answered of them.
#![tactic(auto)]

#[cfg(test)]
mod nested_tests;
pub mod number;
#[cfg(test)]
mod region_tests;
#[cfg(test)]
mod tests;
