//! A generated message that is read and written again: the caller of the page of `wire_gen`.
ghost use Rattle.std.specs.Prelude.{◌≡◌, IfOk};
ghost use Rattle.wire_json.specs.Json.{Json};
ghost use Rattle.wire_json.specs.Written.{written};
ghost use Rattle.wire_jsonfields.specs.Levels.{SpellsWithin};
ghost use Rattle.wire_jsonfields.specs.Messages.{IsObjectTree, ObjectMeans};
ghost use Rattle.wire_report_json.specs.ReportJson.{Report-Json, report-json-says, report-json-trees};

use crate::rewrite::RewriteError;
use std::alloc::Global;
use wire_jsonfields::{from_json, to_json};
use wire_report_json::ReportJson;

/// Reads a report from a text, in which at most 100 arrays and objects stand in one another, and
/// writes it.
pub fn rewrite_report(alloc: Global, text: &[u8]) -> Result<Vec<u8>, RewriteError>
    ensures { IfOk result (λ out. (value : Report-Json)
        × SpellsWithin 100 (ObjectMeans report-json-says) text.now value × (json : Json)
        × IsObjectTree report-json-trees value json × (out.items ≡ written json)) }
{
    let report = from_json::<ReportJson>(alloc, text, 100)?;
    let out = to_json::<ReportJson>(alloc, &report)?;
    Ok(out)
}

#[test]
fn a_caller_rewrites_a_report(rt: HostRuntime) {
    if let Ok(out) = rewrite_report(rt.alloc(), b" {\"sent_at\": 7, \"level\": 2} ") {
        assert_eq!(rt;
            out.as_slice(),
            b"{\"sentAt\":\"7\",\"level\":\"VERY_HIGH\"}".as_slice()
        );
    }
}
