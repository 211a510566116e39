//! A duration that is read and written again: the caller of the page of `wire_jsontimes`.
ghost use Rattle.std.specs.Prelude.{◌≡◌, ◌++◌, ℤ, drop, IfOk};
ghost use Rattle.wire_json.specs.Json.{Json};
ghost use Rattle.wire_json.specs.Written.{written};
ghost use Rattle.wire_protojson.specs.Reads.{ReadsMeaning};
ghost use Rattle.wire_jsontimes.specs.Durations.{IsDurationTree, MeansDuration};

use std::alloc::Global;
use wire_jsontimes::{read_duration, write_duration};
use wire_protojson::ReadError;

/// Reads a duration at the front of a text, and writes it: `"1.5s"` and `"1.50s"` both as
/// `"1.500s"`.
pub fn rewrite_duration(alloc: Global, text: &[u8], out: &mut Vec<u8>) -> Result<usize, ReadError>
    ensures { IfOk result (λ after. (value : ℤ × ℤ)
        × ReadsMeaning MeansDuration text.now value (drop after text.now)
        × (json : Json) × IsDurationTree value json
        × (out.new.items ≡ out.old.items ++ written json)) }
{
    let (duration, after) = read_duration(alloc, text, 0)?;
    match write_duration(alloc, out, duration) {
        Ok(()) => Ok(after),
        // What is read is in range.
        Err(_) => Err(ReadError::OutOfMemory),
    }
}

#[test]
fn a_caller_rewrites(rt: HostRuntime) {
    let mut out = Vec::new(rt.alloc());
    if let Ok(after) = rewrite_duration(rt.alloc(), b"\"1.5s\",", &mut out) {
        assert_eq!(rt; (out.as_slice(), after), (b"\"1.500s\"".as_slice(), 6));
    }
}
