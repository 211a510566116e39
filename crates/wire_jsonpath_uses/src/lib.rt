//! A caller of `wire_jsonpath`, and rows of texts with the paths to their bytes.
#![tactic(auto)]

pub mod paths;
#[cfg(test)]
mod tests;
