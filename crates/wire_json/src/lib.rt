//! JSON texts (RFC 8259), read from the front of bytes and written compactly. `CALLING.md` shows its
//! calls.
//!
//! A call takes a text and a place in it, and answers the place behind what it read: `read_string`,
//! `read_number`, `read_name`, `first_element` and `next_element`, `first_member` and `next_member`,
//! and `skip_value` for what is of no interest. Nothing is kept between calls, and a place behind
//! the text is its end. A fault has its byte. `check` looks at a whole text, and `compact` writes its
//! compact text. What nests is limited by the caller, and calls that go into it recurse once for each
//! level.
//!
//! Proved of every text: what is read is what the grammar reads (`Reading`), where a call refuses,
//! the first fault of the grammar stands there (`Fault`), and no value that nests so deep is read
//! beside a fault. A text has one reading, and the compact text of a value spells it (`laws`).
#![tactic(auto)]

mod bytes;
mod compaction;
mod container;
mod escape;
mod fault;
mod kind;
pub mod laws;
mod name;
mod number;
mod part;
mod text;
mod transcribe;
mod value;
mod word;
mod write;

pub use bytes::skip_space;
pub use compaction::compact;
pub use container::{Next, first_element, first_member, next_element, next_member, skip_colon};
pub use fault::{Fault, FaultKind, JsonError};
pub use kind::{Kind, kind_at};
pub use name::{read_name, skip_name};
pub use number::{NumberRead, read_number, skip_number};
pub use text::{StringRead, push_string, read_string, skip_string};
pub use value::{check, skip_value};
pub use word::{skip_bool, skip_null};
pub use write::{Mark, write_bool, write_mark, write_name, write_null, write_number, write_string};
