//! Messages as structs for C and other languages: of fixed size, with strings and bytes that stay
//! where they were read, and with no memory of their own.
//!
//! A struct holds numbers as they are, strings and `bytes` as slices of the bytes that were read,
//! presence as a flag beside the value, an enum as its number, and a message inside as a struct
//! inside. Its table is that of its message, with the definitions of `wire_fields`, but for the
//! fields that the schema lacks, which are charged as those of the message are, and not held.
//! `MessageStruct::read` is what a caller of such a type calls.
#![tactic(auto)]

mod counting;
mod counting_numbers;
mod field_part;
mod inside;
mod keeping;
mod message;
mod number;
mod number_forms;
mod number_texts;
mod numbers_walk;
mod parts;
mod passing;
mod payload;
mod presence;
mod refusing;
mod room;
mod scalar;
mod status;
mod text;
mod unknown;
mod unknown_record;
mod unknown_walk;
mod walking;
mod written;
mod written_lists;
mod written_messages;
mod written_numbers;
mod written_scalars;

pub use counting::{merge_count, merge_message_count};
pub use counting_numbers::merge_numbers_count;
pub use field_part::FieldPart;
pub use inside::{merge_message, merge_optional_message};
pub use keeping::{size_keeping, write_keeping};
pub use message::MessageStruct;
pub use number::{DoubleInC, EnumInC, FloatInC, NumberInC};
pub use numbers_walk::{NumberList, NumbersWalk, begin_numbers, next_number, next_number_status};
pub use parts::{always_part, implicit_part, optional_part};
pub use passing::pass_by;
pub use payload::ScalarPayload;
pub use presence::{merge_optional, merge_value};
pub use refusing::refused_status;
pub use room::{write_status, written_size};
pub use scalar::{StructNumber, StructScalar};
pub use status::{context_within, default_context, read_status};
pub use text::{BytesInC, BytesSliceInC, TextInC, TextSliceInC};
pub use unknown::{FieldNumbers, put_unknown, unknown_len};
pub use unknown_walk::{next_unknown, next_unknown_status};
pub use walking::{SliceInC, ValueList, next_status};
pub use written::{StructPart, WrittenStruct, WrittenStructScalar};
pub use written_lists::{messages_len, put_messages, put_values, values_len};
pub use written_messages::{message_len, optional_message_len, put_message, put_optional_message};
pub use written_numbers::{numbers_len, put_numbers};
