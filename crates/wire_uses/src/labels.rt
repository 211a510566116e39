//! The labels of a report.
ghost use Rattle.std.specs.Option.{option_copied};
ghost use Rattle.std.specs.Prelude.{◌≡◌, OnOk, OnErr};
ghost use Rattle.wire_report.specs.Report.{labels-of-report, report-value};
ghost use Rattle.wire_uses.specs.Labels.{label_at, with_label};

use std::alloc::{AllocError, Global};
use wire_report::Report;

/// The label of this key.
pub fn label<'a>(report: &'a Report, key: &str) -> Option<&'a str>
    ensures { option_copied result
        ≡ label_at key.now (labels-of-report (report-value report.now)) }
{
    report.labels.get(key).map(|text| text.as_str())
}

/// Gives the key this label, in place of one that it has. Refused where memory runs out, and then
/// the report stands as it was.
pub fn put_label(
    alloc: Global,
    report: &mut Report,
    key: &str,
    text: &str,
) -> Result<(), AllocError>
    ensures ok { OnOk result (labels-of-report (report-value report.new)
        ≡ with_label key.now text.now (labels-of-report (report-value report.old))) }
    ensures err { OnErr result (report-value report.new ≡ report-value report.old) }
    ensures others { report.new ≡ record report.old { labels = report.new.labels } }
{
    let key = String::from_str(alloc, key)?;
    let text = String::from_str(alloc, text)?;
    report.labels.insert(key, text)?;
    Ok(())
}
