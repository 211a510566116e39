//! The well-known types of Protocol Buffers by the JSON mapping: wrappers as what they hold,
//! timestamps, durations and field masks as strings, `Empty` as an object without members, `Value`,
//! `Struct` and `ListValue` as any JSON, objects and arrays, and `NullValue` as `null`.
#![tactic(auto)]

mod empty;
mod field_mask;
mod integers;
pub mod laws;
mod masks;
mod null_value;
mod nullable;
mod numbers;
mod structs;
mod structs_read;
mod structs_write;
mod texts;
mod times;

pub use empty::EmptyJson;
pub use field_mask::FieldMaskJson;
pub use integers::{Int32ValueJson, Int64ValueJson, UInt32ValueJson, UInt64ValueJson};
pub use null_value::NullValueJson;
pub use nullable::read_nullable;
pub use numbers::{BoolValueJson, DoubleValueJson, FloatValueJson};
pub use structs::{ListValueJson, StructJson, ValueJson};
pub use texts::{BytesValueJson, StringValueJson};
pub use times::{DurationJson, TimestampJson};
