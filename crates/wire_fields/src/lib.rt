//! Fields of message types, each kind once, from which a message type is put together as a table.
//!
//! A field is named by its kind: `Implicit<Int32>`, `Optional<Text>`, `Embedded<M>` and so on. A
//! message type holds plain values, and its calls go over its fields: `compute_size` is `measure` of
//! a tuple of `Known` fields, `write_to` is `write` of it, and `merge_field` has an arm for each
//! field's number, and `keep` for the others. `specs/Shape.antt` has the same tree as definitions.
#![tactic(auto)]

mod closed;
mod closed_map;
mod dropped;
mod encoding;
mod enums;
mod floats;
mod form;
mod kind;
pub mod laws;
mod leaving;
mod map;
mod map_entry;
mod message_field;
mod number;
mod number_list;
mod numbers;
mod packed;
mod parts;
mod presence;
mod recursive;
mod repeated;
mod rows;
mod scalar;
mod service;
mod text;
mod twin;
mod types;
mod unknown;
mod variants;

pub use closed::{merge_closed, merge_closed_each};
pub use closed_map::ClosedMap;
pub use dropped::{Dropped, pass_over};
pub use encoding::{Delimited, LengthPrefixed, MessageEncoding};
pub use floats::{DoubleBits, FloatBits};
pub use form::Form;
pub use kind::Kind;
pub use leaving::{OwnTypes, merge_or_keep};
pub use map::Map;
pub use map_entry::EntryValue;
pub use message_field::{
    AlwaysEmbedded, AlwaysGroup, AlwaysMessage, Each, EachEmbedded, EachGroup, Embedded, Group,
    Once,
};
pub use number::Number;
pub use packed::{Packed, Unpacked};
pub use parts::{Known, Parts, Rest, measure, write};
pub use presence::{Always, Implicit, Optional};
pub use recursive::{
    Alone, Place, RecursiveAlone, RecursiveHeld, RecursiveMember, RecursiveSlice, merge_held,
    push_message, slice_size, write_slice,
};
pub use repeated::Repeated;
pub use scalar::{Numeric, Scalar};
pub use service::{Method, ServiceMethod};
pub use text::{Blob, Text};
pub use twin::{
    Plain, Twin, copied, copied_box, copied_list, copied_map, copied_numbers, copied_option,
};
pub use types::{
    Bool, Double, Enum, Fixed32, Fixed64, Float, Int32, Int64, Sfixed32, Sfixed64, Sint32, Sint64,
    Uint32, Uint64,
};
pub use unknown::keep;
pub use variants::merge_new;
