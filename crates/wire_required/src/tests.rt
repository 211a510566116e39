//! How paths are printed.
use crate::error::ParseError;
use crate::path::FieldPath;
use crate::step::{MapKey, PathStep};
use std::alloc::{AllocError, Global};
use wire_codec::DecodeError;

// A path from a message through a map with such a key.
fn through(alloc: Global, key: MapKey) -> Result<FieldPath, AllocError> {
    let path = FieldPath::to_field(alloc, "amount")?.behind(PathStep::Key(key))?;
    path.behind(PathStep::Field("fees"))
}

fn text(alloc: Global, key: &str) -> Result<FieldPath, AllocError> {
    through(alloc, MapKey::Text(String::from_str(alloc, key)?))
}

#[test]
fn a_path_is_printed(rt: HostRuntime) {
    let alloc = rt.alloc();
    let paths = [
        (FieldPath::to_field(alloc, "amount"), "amount"),
        (text(alloc, "a"), "fees[\"a\"].amount"),
        (text(alloc, "a\"b\n"), "fees[\"a\\\"b\\n\"].amount"),
        (through(alloc, MapKey::Int(-7)), "fees[-7].amount"),
        (
            through(alloc, MapKey::Uint(u64::MAX)),
            "fees[18446744073709551615].amount",
        ),
        (through(alloc, MapKey::Bool(true)), "fees[true].amount"),
    ];
    for (path, wanted) in paths {
        if let Ok(path) = path {
            let printed = format!(in alloc; "{path}");
            assert!(rt;
                printed.is_err() || printed.unwrap().as_str() == wanted,
                "{wanted}"
            );
        }
    }
}

#[test]
fn an_error_is_printed(rt: HostRuntime) {
    let alloc = rt.alloc();
    let error = ParseError::Decode(DecodeError::UnexpectedEof);
    if let Ok(printed) = format!(in alloc; "{error}") {
        assert_eq!(rt; printed.as_str(), "unexpected end of buffer");
    }
    if let Ok(path) = FieldPath::to_field(alloc, "amount") {
        let error = ParseError::MissingRequiredField(path);
        if let Ok(printed) = format!(in alloc; "{error}") {
            assert_eq!(rt; printed.as_str(), "missing required field: amount");
        }
    }
}
