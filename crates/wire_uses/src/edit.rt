//! A report of which one field is changed.
ghost use Rattle.std.specs.Prelude.{◌≡◌, ◌≤◌, IfOk, IfErr};
ghost use Rattle.wire_codec.specs.Records.{text, text_size};
ghost use Rattle.wire_fields.specs.Shape.{DecodesAs};
ghost use Rattle.wire_report.specs.Report.{report-shape, report-value};
ghost use Rattle.wire_report.specs.declared.report.Report.{Report};
ghost use Rattle.wire_uses.specs.Edit.{EditFault, records_with_level};

use std::alloc::Global;
use wire_codec::{DecodeError, EncodeError, EnumValue, Message};
use wire_report::{Report, ReportLevel};

/// Why no changed report is written.
#[derive(Drop)]
pub enum EditError {
    /// The bytes are no report within the limits, or memory ran out.
    NotDecoded(DecodeError),
    /// The changed report has more than 2,147,483,647 bytes, or memory ran out.
    NotEncoded(EncodeError),
}

/// The encoding of the report that the bytes are, with another level.
pub fn with_level(alloc: Global, bytes: &[u8], level: ReportLevel) -> Result<Vec<u8>, EditError>
    ensures ok { IfOk result (λ output. (report : Report)
        × DecodesAs report-shape bytes.now (report-value report)
        × (output.items ≡ text (records_with_level level report))
        × (text_size (records_with_level level report) ≤ 2147483647)) }
    ensures fault { IfErr result (EditFault bytes.now level) }
{
    let mut report = match Report::decode_from_slice(alloc, bytes) {
        Ok(report) => report,
        Err(why) => return Err(EditError::NotDecoded(why)),
    };
    report.level = EnumValue::Known(level);
    match report.try_encode_to_vec(alloc) {
        Ok(output) => Ok(output),
        Err(why) => Err(EditError::NotEncoded(why)),
    }
}
