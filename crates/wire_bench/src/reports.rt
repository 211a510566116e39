//! A log of reports, whose types are generated, each behind its length.
use crate::messages::payloads;
use std::alloc::Global;
use wire_codec::{DecodeError, Message};
use wire_report::{Report, ReportView};
use wire_views::MessageView;

// The reports of a log.
fn reports(alloc: Global, log: &[u8]) -> Result<Vec<Report>, DecodeError> {
    let mut reports = Vec::new(alloc);
    let mut rest = log;
    while !rest.is_empty() {
        reports.push(Report::decode_length_delimited(alloc, &mut rest)?)?;
    }
    Ok(reports)
}

// One, its time, and how long its strings, lists and maps are.
pub(crate) fn sum_of(report: &Report) -> u64 {
    let mut sum = report.sent_at.wrapping_add(1);
    sum = sum.wrapping_add(report.host.len() as u64);
    sum = sum.wrapping_add(report.samples.len() as u64);
    sum = sum.wrapping_add(report.labels.len() as u64);
    sum = sum.wrapping_add(report.last.len() as u64);
    sum = sum.wrapping_add(report.offsets.len() as u64);
    sum = sum.wrapping_add(report.ports.len() as u64);
    sum = sum.wrapping_add(report.notes.len() as u64);
    sum.wrapping_add(report.signature.len() as u64)
}

/// A round decodes the reports of a log from their texts. The answer is the sum over them of one,
/// their times, and how long their strings, lists and maps are.
#[unsafe(no_mangle)]
pub extern "C" fn wb_report_decode(alloc: Global, bytes: &[u8], rounds: u32) -> u64 {
    let Ok(payloads) = payloads(alloc, bytes) else {
        return 0;
    };
    let mut sum = 0u64;
    for _ in 0..rounds {
        sum = 0;
        for payload in payloads.iter() {
            let Ok(report) = Report::decode_from_slice(alloc, *payload) else {
                return 0;
            };
            sum = sum.wrapping_add(sum_of(&report));
        }
    }
    sum
}

// The same of a view, of which an entry of a map counts each time that it came.
fn sum_of_view(report: &ReportView<'_>) -> u64 {
    let mut sum = report.sent_at.wrapping_add(1);
    sum = sum.wrapping_add(report.host.len() as u64);
    sum = sum.wrapping_add(report.samples.len() as u64);
    sum = sum.wrapping_add(report.labels.len() as u64);
    sum = sum.wrapping_add(report.last.len() as u64);
    sum = sum.wrapping_add(report.offsets.len() as u64);
    sum = sum.wrapping_add(report.ports.len() as u64);
    sum = sum.wrapping_add(report.notes.len() as u64);
    sum.wrapping_add(report.signature.len() as u64)
}

/// A round reads the reports of a log as views of their texts. The answer is that of decoding, where
/// no key of a map comes twice.
#[unsafe(no_mangle)]
pub extern "C" fn wb_report_view(alloc: Global, bytes: &[u8], rounds: u32) -> u64 {
    let Ok(payloads) = payloads(alloc, bytes) else {
        return 0;
    };
    let mut sum = 0u64;
    for _ in 0..rounds {
        sum = 0;
        for payload in payloads.iter() {
            let Ok(report) = ReportView::decode_view_by_default(alloc, *payload) else {
                return 0;
            };
            sum = sum.wrapping_add(sum_of_view(&report));
        }
    }
    sum
}

/// A round decodes the reports of a log from their texts, and holds them all. The answer is that of
/// decoding.
#[unsafe(no_mangle)]
pub extern "C" fn wb_report_hold(alloc: Global, bytes: &[u8], rounds: u32) -> u64 {
    let Ok(payloads) = payloads(alloc, bytes) else {
        return 0;
    };
    let mut sum = 0u64;
    for _ in 0..rounds {
        sum = 0;
        let Ok(mut held) = Vec::with_capacity(alloc, payloads.len()) else {
            return 0;
        };
        for payload in payloads.iter() {
            let Ok(report) = Report::decode_from_slice(alloc, *payload) else {
                return 0;
            };
            sum = sum.wrapping_add(sum_of(&report));
            if held.push(report).is_err() {
                return 0;
            }
        }
    }
    sum
}

/// A round encodes the reports of a log, each behind its length, into a vector that was cleared.
/// The answer is how many bytes it has then.
#[unsafe(no_mangle)]
pub extern "C" fn wb_report_encode(alloc: Global, bytes: &[u8], rounds: u32) -> usize {
    let Ok(reports) = reports(alloc, bytes) else {
        return 0;
    };
    let mut sink = Vec::new(alloc);
    for _ in 0..rounds {
        sink.clear();
        for report in reports.iter() {
            if report
                .try_encode_length_delimited(alloc, &mut sink)
                .is_err()
            {
                return 0;
            }
        }
    }
    sink.len()
}
