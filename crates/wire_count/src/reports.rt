//! A report that is stored and read again.
ghost use Rattle.std.specs.Prelude.{◌≡◌, IfOk, IfErr};
ghost use Rattle.wire_count.specs.StoreFault.{StoreFault};
ghost use Rattle.wire_fields.specs.Shape.{DecodesAs};
ghost use Rattle.wire_report.specs.Report.{report-shape, report-value};

use std::alloc::Global;
use wire_codec::{DecodeError, EncodeError, Message, laws};
use wire_fields::laws::whole_is_short;
use wire_report::Report;
use wire_report::laws::{report_decodes_in_range, report_reads_back};

/// Why a report is not stored and read again.
#[derive(Drop)]
pub enum StoreError {
    /// The bytes are no report within the limits, or memory ran out.
    NotDecoded(DecodeError),
    /// The encoding has more than 2,147,483,647 bytes, or memory ran out.
    NotEncoded(EncodeError),
    /// The encoding is not read within the limits, or memory ran out.
    NotReadAgain(DecodeError),
}

/// The report that the bytes are, and what is read from its encoding: the same report.
pub fn stored(alloc: Global, bytes: &[u8]) -> Result<(Report, Report), StoreError>
    ensures decoded { IfOk result (λ both. DecodesAs report-shape bytes.now (report-value both.0)) }
    ensures same { IfOk result (λ both. report-value both.1 ≡ report-value both.0) }
    ensures fault { IfErr result (StoreFault bytes.now) }
{
    laws::slice_has_bytes(bytes);
    whole_is_short();
    report_decodes_in_range();
    report_reads_back();
    laws::taken_in_one_way::<Report>();
    let report = match Report::decode_from_slice(alloc, bytes) {
        Ok(report) => report,
        Err(why) => return Err(StoreError::NotDecoded(why)),
    };
    let encoded = match report.try_encode_to_vec(alloc) {
        Ok(encoded) => encoded,
        Err(why) => return Err(StoreError::NotEncoded(why)),
    };
    match Report::decode_from_slice(alloc, &encoded) {
        Ok(again) => Ok((report, again)),
        Err(why) => Err(StoreError::NotReadAgain(why)),
    }
}
