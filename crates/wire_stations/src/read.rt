//! The calls that read a struct.
ghost use Rattle.std.specs.Prelude.{◌≡◌, ◌≢◌};
ghost use Rattle.wire_codec.specs.Taking.{NotDecoded};
ghost use Rattle.wire_report.specs.ReportSample.{report_sample-shape};
ghost use Rattle.wire_stations.specs.ReportSample.{ReportSample-IsZero, report_sample-seen};
ghost use Rattle.wire_stations.specs.ReportSample.{report_sample-shown};
ghost use Rattle.wire_stations.specs.Station.{Station-IsZero, station-seen, station-shape};
ghost use Rattle.wire_stations.specs.Station.{station-shown};
ghost use Rattle.wire_structs.specs.Within.{DecodesSeen};

use crate::report_sample::ReportSampleInC;
use crate::station::StationInC;
use wire_codec::DecodeContext;
use wire_structs::read_status;

/// Sets the struct to what all of the bytes are as a `report.Report.Sample`, within the limits of
/// the context, whatever it held before: 0, exactly where they are such a message; else the number
/// of the error, and the struct is zero.
pub fn read_report_sample<'a>(
    bytes: &'a [u8],
    context: &mut DecodeContext,
    sample: &mut ReportSampleInC<'a>,
) -> u32
    ensures ok { result ≡ 0 → DecodesSeen report_sample-shape report_sample-seen context.old
        bytes.now (report_sample-shown sample.new) }
    ensures err { result ≢ 0 → NotDecoded report_sample-shape.takes context.old
        report_sample-shape.default bytes.now }
    ensures zero { result ≢ 0 → ReportSample-IsZero sample.new }
{
    read_status(sample, bytes, context)
}

/// The same of a `station.Station`.
pub fn read_station<'a>(
    bytes: &'a [u8],
    context: &mut DecodeContext,
    station: &mut StationInC<'a>,
) -> u32
    ensures ok { result ≡ 0 → DecodesSeen station-shape station-seen context.old bytes.now
        (station-shown station.new) }
    ensures err { result ≢ 0 → NotDecoded station-shape.takes context.old station-shape.default
        bytes.now }
    ensures zero { result ≢ 0 → Station-IsZero station.new }
{
    read_status(station, bytes, context)
}
