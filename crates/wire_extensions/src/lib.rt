//! Extensions: typed access to records that a message type does not know.
//!
//! An extension is a field number and a kind of field of `wire_fields`; its records stand among the
//! `UnknownFields` of any message. `CALLING.md` shows its calls. See "Extensions" of the language's
//! documents.
#![tactic(auto)]

mod extension;
pub mod laws;
mod putting;
mod record;

pub use extension::Extension;
