//! Views of messages: message types that borrow their strings, bytes and unknown fields from the
//! bytes that they are read from. `CALLING.md` shows one.
//!
//! A view has the table of its message, with the definitions of `wire_fields`: it is read exactly
//! where the message is, within the same limits and at the same charge, and stands for the same
//! value. A kind of field here borrows what its kind of `wire_fields` owns: `ImplicitIn<TextIn>` is
//! that of `Implicit<Text>`, and a number is `CopiedIn` of its kind. `MessageView::own` makes the
//! message.
#![tactic(auto)]

mod closed;
mod closed_each;
mod closed_map;
mod copied;
mod encoding;
mod fixed;
mod fixed_list;
mod fixed_numbers;
mod fixed_written;
mod map;
mod map_entry;
mod map_key;
mod message_field;
mod message_map;
mod message_view;
mod ordering;
mod passing;
mod presence;
mod recursive_view;
mod repeated;
mod rows;
mod span;
mod text;
mod token;
mod unknown;
mod unknown_written;
mod variants;
mod view_kind;
mod view_scalar;
mod written;
mod written_message;
mod written_view;

pub use closed::merge_closed;
pub use closed_each::merge_closed_each;
pub use closed_map::{ClosedMapIn, ViewClosedMap};
pub use copied::{CopiedIn, PackedIn, UnpackedIn};
pub use encoding::ViewEncoding;
pub use fixed::FixedIn;
pub use fixed_list::{FixedList, FixedNumbers};
pub use map::MapIn;
pub use map_entry::ViewEntryValue;
pub use map_key::{MapKey, NumberIn};
pub use message_field::{
    AlwaysEmbeddedIn, AlwaysGroupIn, AlwaysMessageIn, EachEmbeddedIn, EachGroupIn, EachIn,
    EmbeddedIn, GroupIn, OnceIn,
};
pub use message_map::EmbeddedMapIn;
pub use message_view::MessageView;
pub use ordering::in_order;
pub use passing::pass_unknown_field;
pub use presence::{AlwaysIn, ImplicitIn, OptionalIn};
pub use recursive_view::RecursiveView;
pub use repeated::RepeatedIn;
pub use span::UnknownSpan;
pub use text::{BytesIn, TextIn};
pub use unknown::{keep_span, own_spans};
pub use unknown_written::{put_spans, spans_len};
pub use view_kind::ViewKind;
pub use view_scalar::ViewScalar;
pub use written::{WrittenKind, WrittenScalar};
pub use written_view::WrittenView;
