//! A report as JSON.
use crate::reports::sum_of;
use std::alloc::Global;
use wire_codec::Message;
use wire_jsonfields::{from_json, to_json};
use wire_report::Report;
use wire_report_json::ReportJson;

// The most arrays and objects that stand in one another.
const LEVELS: u32 = 100;

/// A round writes the report that the bytes are as JSON. The answer is how long the text is.
#[unsafe(no_mangle)]
pub extern "C" fn wb_report_to_json(alloc: Global, bytes: &[u8], rounds: u32) -> u64 {
    let Ok(report) = Report::decode_from_slice(alloc, bytes) else {
        return 0;
    };
    let mut len = 0u64;
    for _ in 0..rounds {
        let Ok(text) = to_json::<ReportJson>(alloc, &report) else {
            return 0;
        };
        len = text.len() as u64;
    }
    len
}

/// A round reads the report that the text is. The answer is the sum of one, its time, and how long
/// its strings, lists and maps are.
#[unsafe(no_mangle)]
pub extern "C" fn wb_report_from_json(alloc: Global, text: &[u8], rounds: u32) -> u64 {
    let mut sum = 0u64;
    for _ in 0..rounds {
        let Ok(report) = from_json::<ReportJson>(alloc, text, LEVELS) else {
            return 0;
        };
        sum = sum_of(&report);
    }
    sum
}
