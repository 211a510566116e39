//! An integer that is read and written again: the caller of the page of `wire_protojson`.
ghost use Rattle.std.specs.Prelude.{◌≡◌, ◌++◌, ℤ, drop, IfOk};
ghost use Rattle.std.specs.Int.{w64};
ghost use Rattle.wire_json.specs.Written.{written};
ghost use Rattle.wire_protojson.specs.Numbers.{MeansSigned};
ghost use Rattle.wire_protojson.specs.Reads.{ReadsMeaning};
ghost use Rattle.wire_protojson.specs.Trees.{long_signed_tree};

use std::alloc::Global;
use wire_protojson::{ReadError, read_int64, write_int64};

/// Reads an `int64` at the front of a text, and writes it: `1.5e3`, `"1500"` and `1500` all as
/// `"1500"`.
pub fn rewrite_int64(alloc: Global, text: &[u8], out: &mut Vec<u8>) -> Result<usize, ReadError>
    ensures { IfOk result (λ after. (z : ℤ)
        × ReadsMeaning (MeansSigned w64) text.now z (drop after text.now)
        × (out.new.items ≡ out.old.items ++ written (long_signed_tree z))) }
{
    let (value, after) = read_int64(alloc, text, 0)?;
    write_int64(out, value)?;
    Ok(after)
}

#[test]
fn a_caller_rewrites(rt: HostRuntime) {
    let mut out = Vec::new(rt.alloc());
    if let Ok(after) = rewrite_int64(rt.alloc(), b"1.5e3,", &mut out) {
        assert_eq!(rt; (out.as_slice(), after), (b"\"1500\"".as_slice(), 5));
    }
}
