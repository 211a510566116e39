//! What a report is of.
ghost use Rattle.std.specs.Prelude.{◌≡◌, None, Some, IfSome, IfNone};
ghost use Rattle.wire_codec.specs.EnumValue.TheVariants.{Known};
ghost use Rattle.wire_report.specs.Report.{level-of-report, origin-of-report, report-value};
ghost use Rattle.wire_report.specs.ReportOrigin.{file-of-report_origin-as};
ghost use Rattle.wire_report.specs.declared.report_level.ReportLevel.TheVariants.{VeryHigh};

use wire_codec::EnumValue;
use wire_report::{Report, ReportLevel, ReportOrigin};

/// The name of the file that a report of level `VERY_HIGH` is of.
pub fn urgent_file(report: &Report) -> Option<&str>
    ensures some { let value = report-value report.now in IfSome result (λ name.
        (level-of-report value ≡ Known VeryHigh)
        × (file-of-report_origin-as (origin-of-report value) ≡ Some name.now)) }
    ensures none { let value = report-value report.now in IfNone result
        (level-of-report value ≡ Known VeryHigh
        → file-of-report_origin-as (origin-of-report value) ≡ None) }
{
    match (report.level, &report.origin) {
        (EnumValue::Known(ReportLevel::VeryHigh), Some(ReportOrigin::File(name))) => Some(name),
        _ => None,
    }
}
