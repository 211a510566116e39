//! Fields and messages by the JSON mapping of Protocol Buffers, over the scalars of
//! `wire_protojson`. `CALLING.md` shows a message type by hand.
//!
//! Proved of every text: a message is read exactly where the definition reads it, by what the
//! members of its object say of each field (`Fields`, `Lists`, `Maps`, `Oneofs`, `Messages`), and
//! else it is refused; a text has one reading. What is written of lists, maps and enums is read as
//! them (`laws`), and so of the messages by hand (`sample`, `batch`).
#![tactic(auto)]

pub mod batch;
mod boxed;
mod by_parts;
mod choice;
mod enum_field;
mod find;
pub mod grade;
mod held;
mod held_texts;
mod key;
mod kind;
mod known;
pub mod laws;
mod list;
mod map;
mod message;
mod no_field;
mod object;
mod oneof;
pub mod origin;
mod part;
pub mod sample;

pub use boxed::Boxed;
pub use by_parts::{read_known_parts, read_parts, write_parts};
pub use choice::{Chosen, Either, JsonChoice, write_chosen, write_oneof};
pub use enum_field::{EnumOf, JsonEnum};
pub use key::JsonKey;
pub use kind::{
    Implicit, JsonKind, JsonScalar, JsonValue, Maybe, Optional, read_field, write_always,
    write_field, write_member,
};
pub use known::{FieldName, check_names};
pub use list::Repeated;
pub use map::Map;
pub use message::{Embedded, JsonMessage, from_json, to_json};
pub use no_field::{NoField, Nothing};
pub use object::{Object, PlacedMember, read_object};
pub use oneof::second_of_oneof;
pub use part::{Both, JsonPart};
