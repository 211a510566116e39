//! The texts of the errors.
use crate::row::Row;
use crate::said::Said;
use std::fmt::Display;
use wire_codec::{DecodeError, EncodeError};

pub fn tell(row: &Row<'_>, said: &mut Said) -> bool {
    match row.call {
        "DecodeError" => say_text(&decode_error(row.words.trim()), said),
        "EncodeError" => say_text(&encode_error(row.words.trim()), said),
        _ => return false,
    }
    true
}

fn say_text<E: Clone + PartialEq + Display + Drop>(error: &E, said: &mut Said) {
    let copy = said.made(error.clone());
    said.expect(copy.as_ref() == Some(error), "a clone");
    said.made_word(error.to_string(said.alloc));
}

fn decode_error(name: &str) -> DecodeError {
    match name {
        "UnexpectedEof" => DecodeError::UnexpectedEof,
        "VarintTooLong" => DecodeError::VarintTooLong,
        "InvalidWireType(7)" => DecodeError::InvalidWireType(7),
        "InvalidFieldNumber" => DecodeError::InvalidFieldNumber,
        "MessageTooLarge" => DecodeError::MessageTooLarge,
        "WireTypeMismatch(1,0,5)" => DecodeError::WireTypeMismatch {
            field_number: 1,
            expected: 0,
            actual: 5,
        },
        "InvalidUtf8" => DecodeError::InvalidUtf8,
        "RecursionLimitExceeded" => DecodeError::RecursionLimitExceeded,
        "InvalidEndGroup(2)" => DecodeError::InvalidEndGroup(2),
        "InvalidMessageSet(x)" => DecodeError::InvalidMessageSet("x"),
        "UnknownFieldLimitExceeded" => DecodeError::UnknownFieldLimitExceeded,
        "ElementMemoryLimitExceeded" => DecodeError::ElementMemoryLimitExceeded,
        "Custom(x)" => DecodeError::Custom("x"),
        _ => DecodeError::OutOfMemory,
    }
}

fn encode_error(name: &str) -> EncodeError {
    match name {
        "MessageTooLarge" => EncodeError::MessageTooLarge,
        "ExceedsBudget(2,1)" => EncodeError::ExceedsBudget {
            len: 2,
            max_bytes: 1,
        },
        "OutOfMemory" => EncodeError::OutOfMemory,
        _ => EncodeError::LengthOverflow,
    }
}
