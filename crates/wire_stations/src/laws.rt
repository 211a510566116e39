//! Laws of the structs: each function is a theorem, and does nothing.
ghost use Rattle.wire_report.specs.ReportSample.{report_sample-known};
ghost use Rattle.wire_stations.specs.ReportSample.{ReportSampleReadsBack};
ghost use Rattle.wire_stations.specs.Station.{station-known};
ghost use Rattle.wire_structs.specs.KeptFields.{KeepsUnknown};

/// What is written of a sample is read as what it shows, with the unknown fields behind it.
pub fn report_sample_reads_back()
    ensures { ReportSampleReadsBack }
{
    wire_report::laws::report_sample_reads_back();
}

/// The unknown fields of bytes, which are written behind a sample, are those that the message keeps
/// which the bytes are.
pub fn report_sample_keeps_unknown()
    ensures { KeepsUnknown report_sample-known }
{}

/// The same of a station.
pub fn station_keeps_unknown()
    ensures { KeepsUnknown station-known }
{}
