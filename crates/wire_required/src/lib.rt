//! Required fields of proto2: which of them a message lacks, and a decoding call that refuses one
//! that lacks any.
//!
//! A message type that has required fields, or holds messages of a type that has, is `Required`. Its
//! fields are asked one after another by `first_missing!`, each by a kind that is a `Requirement`.
//! `CALLING.md` shows both.
#![tactic(auto)]

mod error;
mod key;
mod nested;
mod path;
mod required;
mod requirement;
mod rows;
mod step;
#[cfg(test)]
mod tests;

pub use error::ParseError;
pub use key::PathKey;
pub use nested::{RequiredAlone, RequiredMember, RequiredSlice, RowRequirement, slice_missing};
pub use path::FieldPath;
pub use required::{Parse, Required};
pub use requirement::{Needed, NeededValue, Requirement, missing_in, or_missing};
pub use step::{MapKey, PathStep};
