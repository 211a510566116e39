//! Why a text is no batch, and where: the caller of the page of `wire_jsonpath`.
ghost use Rattle.std.specs.Prelude.{IfNone, IfOk, IfSome};
ghost use Rattle.wire_jsonfields.specs.Batch.{Batch-Value, batch-says};
ghost use Rattle.wire_jsonfields.specs.Levels.{SpellsWithin};
ghost use Rattle.wire_jsonfields.specs.Messages.{ObjectMeans};
ghost use Rattle.wire_jsonpath.specs.Places.{IsPathTo};

use std::alloc::{AllocError, Global};
use wire_jsonfields::batch::Batch;
use wire_jsonfields::from_json;
use wire_jsonpath::{Explained, explain};

/// Why a text is refused as a batch, with the path to where that stands; nothing where it is one.
pub fn complaint_of(alloc: Global, text: &[u8]) -> Result<Option<Explained>, AllocError>
    ensures none { IfOk result (λ told. IfNone told ((value : Batch-Value)
        × SpellsWithin 100 (ObjectMeans batch-says) text.now value)) }
    ensures path { IfOk result (λ told. IfSome told (λ told.
        IsPathTo 100 text.now told.refusal.at told.path)) }
{
    match from_json::<Batch>(alloc, text, 100) {
        Ok(_) => Ok(None),
        Err(error) => Ok(Some(explain(alloc, text, 100, error)?)),
    }
}

#[test]
fn a_caller_is_told_the_path(rt: HostRuntime) {
    let text = b"{\"samples\": [{\"value\": 1}, {\"value\": true}]}";
    if let Ok(Some(told)) = complaint_of(rt.alloc(), text) {
        if let Ok(line) = told.to_string(rt.alloc()) {
            assert_eq!(rt;
                line.as_str(),
                "`samples[1].value` (byte 37): no value of the type"
            );
        }
    }
}
