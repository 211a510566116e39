//! A text that is compacted: the caller of the page of `wire_json`.
ghost use Rattle.std.specs.Prelude.{◌≡◌, ◌≤◌, IfOk};
ghost use Rattle.wire_json.specs.Json.{Json, depth};
ghost use Rattle.wire_json.specs.Reading.{Spells};
ghost use Rattle.wire_json.specs.Written.{written};

use std::alloc::Global;
use wire_json::{JsonError, compact};

/// The compact text of a text in which at most 100 arrays and objects stand in one another.
pub fn compact_text(alloc: Global, text: &[u8]) -> Result<Vec<u8>, JsonError>
    ensures { IfOk result (λ out. (json : Json) × Spells text.now json
        × (depth json ≤ 100) × (out.items ≡ written json)) }
{
    let mut out = Vec::new(alloc);
    compact(text, 100, &mut out)?;
    Ok(out)
}

#[test]
fn a_caller_compacts(rt: HostRuntime) {
    if let Ok(out) = compact_text(rt.alloc(), b"[ 1, 2 ]") {
        assert_eq!(rt; out.as_slice(), b"[1,2]".as_slice());
    }
}
