//! The JSON mapping of Protocol Buffers: scalars and enums, of which `wire_jsonfields` makes
//! fields. `CALLING.md` shows its calls.
//!
//! Proved of every text: a value is read exactly where the definition reads it (`Reads`), by which
//! trees mean which values (`Numbers`, `Scalars`, `Enums`), and else one refusal is told, at its
//! byte. What is written of a value is read as that value (`laws`).
#![tactic(auto)]

mod enums;
mod float;
pub mod laws;
mod number;
mod refusal;
mod scalar;
mod text;
mod token;
mod write;

pub use enums::{EnumName, read_enum, write_enum};
pub use refusal::{ReadError, Reason, Refusal, WriteError, no_json, no_value};
pub use scalar::{
    read_bool, read_bytes, read_double, read_float, read_int32, read_int64, read_string,
    read_uint32, read_uint64,
};
pub use write::{
    write_bool, write_bytes, write_double, write_float, write_int32, write_int64, write_string,
    write_uint32, write_uint64,
};
