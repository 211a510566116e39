//! A message that is read and written again: the caller of the page of `wire_jsonfields`.
ghost use Rattle.std.specs.Prelude.{◌≡◌, IfOk};
ghost use Rattle.wire_json.specs.Json.{Json};
ghost use Rattle.wire_json.specs.Written.{written};
ghost use Rattle.wire_jsonfields.specs.Batch.{Batch-Value, batch-says, batch-trees};
ghost use Rattle.wire_jsonfields.specs.Levels.{SpellsWithin};
ghost use Rattle.wire_jsonfields.specs.Messages.{IsObjectTree, ObjectMeans};

use crate::rewrite::RewriteError;
use std::alloc::Global;
use wire_jsonfields::batch::Batch;
use wire_jsonfields::{from_json, to_json};

/// Reads a batch from a text, in which at most 100 arrays and objects stand in one another, and
/// writes it.
pub fn rewrite_batch(alloc: Global, text: &[u8]) -> Result<Vec<u8>, RewriteError>
    ensures { IfOk result (λ out. (value : Batch-Value)
        × SpellsWithin 100 (ObjectMeans batch-says) text.now value × (json : Json)
        × IsObjectTree batch-trees value json × (out.items ≡ written json)) }
{
    let batch = from_json::<Batch>(alloc, text, 100)?;
    let out = to_json::<Batch>(alloc, &batch)?;
    Ok(out)
}

#[test]
fn a_caller_rewrites_a_batch(rt: HostRuntime) {
    if let Ok(out) = rewrite_batch(rt.alloc(), b" {\"totals\": {\"b\": 1, \"a\": 2}} ") {
        assert_eq!(rt;
            out.as_slice(),
            b"{\"totals\":{\"a\":\"2\",\"b\":\"1\"}}".as_slice()
        );
    }
}
