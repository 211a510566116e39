//! The path to a byte of a JSON text, as `lines[2].quantity`, and a refusal that is told with it.
//! `CALLING.md` shows the calls.
//!
//! Proved of every text and byte: the path that is answered is the path to it (`Places`), and it
//! has no other one (`laws`).
#![tactic(auto)]

mod element;
pub mod laws;
mod member;
mod path;
mod place;
mod refusal;
mod side;

pub use path::{JsonPath, JsonStep};
pub use place::path_to;
pub use refusal::{Explained, explain};
