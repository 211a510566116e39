//! What the samples of a report counted.
ghost use Rattle.std.specs.Int.{w64};
ghost use Rattle.std.specs.Prelude.{FitsSigned, SomeIff};
ghost use Rattle.wire_report.specs.Report.{report-value, samples-of-report};
ghost use Rattle.wire_uses.specs.Samples.{total_of};

use wire_report::Report;

/// The sum of the counts of the samples that have one, where an `i64` holds it.
pub fn total_count(report: &Report) -> Option<i64>
    ensures { let total = total_of (samples-of-report (report-value report.now)) in
        SomeIff result (FitsSigned w64 total) total }
{
    let mut total: i128 = 0;
    for sample in &report.samples {
        total += i128::from(sample.count.unwrap_or(0));
    }
    i64::try_from(total).ok()
}
