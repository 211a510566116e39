//! Prints the count of a sample, whose bytes standard input has.
#![tactic(auto)]

ghost use Rattle.std.specs.Prelude.{◌≡◌, ◌≢◌, IfOk, IfErr};
ghost use Rattle.wire_codec.specs.DecodeError.TheVariants.{OutOfMemory};
ghost use Rattle.wire_fields.specs.Shape.{DecodesAs, NotDecodedAs};
ghost use Rattle.wire_report.specs.ReportSample.{ReportSample-Value};
ghost use Rattle.wire_report.specs.ReportSample.{report_sample-shape};
ghost use Rattle.wire_report.specs.ReportSample.{count-of-report_sample};

mod reports;
#[cfg(test)]
mod tests;

pub use self::reports::{StoreError, stored};
use std::alloc::Global;
use std::io;
use std::io::Read;
use std::process::ExitCode;
use wire_codec::{DecodeError, Message};
use wire_report::ReportSample;

/// The count of the sample that these bytes are, where it has one.
pub fn count_of(alloc: Global, bytes: &[u8]) -> Result<Option<i64>, DecodeError>
    ensures ok { IfOk result (λ count. (sample : ReportSample-Value)
        × DecodesAs report_sample-shape bytes.now sample
        × (count ≡ count-of-report_sample sample)) }
    ensures err { IfErr result (λ e. e ≢ OutOfMemory
        → NotDecodedAs report_sample-shape bytes.now) }
{
    match ReportSample::decode_from_slice(alloc, bytes) {
        Ok(sample) => Ok(sample.count),
        Err(error) => Err(error),
    }
}

fn main(rt: HostRuntime) -> io::Result<ExitCode> {
    let mut bytes = Vec::new(rt.alloc());
    rt.stdin().read_to_end(&mut bytes)?;
    match count_of(rt.alloc(), &bytes) {
        Ok(Some(count)) => println!(rt; "{count}")?,
        Ok(None) => println!(rt; "no count")?,
        Err(error) => {
            eprintln!(rt; "no sample: {error}")?;
            return Ok(ExitCode::from(1));
        }
    }
    Ok(ExitCode::SUCCESS)
}
