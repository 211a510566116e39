//! The calls of `report_sample`.
ghost use Rattle.std.specs.Prelude.{◌≡◌, ◌≢◌, ◌<◌, length};
ghost use Rattle.wire_base.specs.WriteLaws.{FillsSlice};
ghost use Rattle.wire_codec.specs.Field.{Fields};
ghost use Rattle.wire_codec.specs.Options.{default_limits};
ghost use Rattle.wire_codec.specs.Taking.{NotDecoded};
ghost use Rattle.wire_fields.specs.Numbers.{in_64_bits};
ghost use Rattle.wire_fields.specs.Shape.{NotDecodedAs};
ghost use Rattle.wire_report.specs.ReportSample.{report_sample-known, report_sample-shape};
ghost use Rattle.wire_stations.specs.ReportSample.{ReportSample-IsZero, report_sample-encoding};
ghost use Rattle.wire_stations.specs.ReportSample.{report_sample-seen, report_sample-shown};
ghost use Rattle.wire_structs.specs.Unknown.{HasStatus, OfUnknown};
ghost use Rattle.wire_structs.specs.Within.{DecodesSeen, within_numbers};

use wire_read::numbers::LimitNumbers;
use wire_stations::{
    ReportSampleInC, read_report_sample, write_report_sample, write_report_sample_keeping,
};
use wire_structs::{context_within, default_context};

/// Sets the sample to what all of the bytes are, within the limits of `Message::decode`: 0, exactly
/// where they are such a message. Else the number of the error, and the sample is zero.
#[unsafe(no_mangle)]
pub extern "C" fn report_sample_read<'a>(bytes: &'a [u8], sample: &mut ReportSampleInC<'a>) -> u32
    ensures ok { result ≡ 0 → DecodesSeen report_sample-shape report_sample-seen default_limits
        bytes.now (report_sample-shown sample.new) }
    ensures err { result ≢ 0 → NotDecodedAs report_sample-shape bytes.now }
    ensures zero { result ≢ 0 → ReportSample-IsZero sample.new }
{
    let mut context = default_context();
    read_report_sample(bytes, &mut context, sample)
}

/// The same within limits that the caller names, of whose levels no more than 100 are given.
#[unsafe(no_mangle)]
pub extern "C" fn report_sample_read_within<'a>(
    bytes: &'a [u8],
    limits: &LimitNumbers,
    sample: &mut ReportSampleInC<'a>,
) -> u32
    ensures ok { result ≡ 0 → DecodesSeen report_sample-shape report_sample-seen
        (within_numbers limits.now) bytes.now (report_sample-shown sample.new) }
    ensures err { result ≢ 0 → NotDecoded report_sample-shape.takes (within_numbers limits.now)
        report_sample-shape.default bytes.now }
    ensures zero { result ≢ 0 → ReportSample-IsZero sample.new }
{
    let mut context = context_within(limits);
    read_report_sample(bytes, &mut context, sample)
}

/// How many bytes the shortest encoding of what the sample shows takes, or `SIZE_MAX` where it is
/// more.
#[unsafe(no_mangle)]
pub extern "C" fn report_sample_size(sample: &ReportSampleInC<'_>) -> usize
    ensures { result ≡ in_64_bits (length (report_sample-encoding sample.now Fields.none)) }
{
    wire_stations::report_sample_size(sample)
}

/// Writes the shortest encoding of what the sample shows at the front of the room, and tells how
/// many bytes it takes, or `SIZE_MAX` where it is more: 0, or 32 exactly where the room has fewer,
/// and then the room stays.
#[unsafe(no_mangle)]
pub extern "C" fn report_sample_write(
    sample: &ReportSampleInC<'_>,
    room: &mut [u8],
    len: &mut usize,
) -> u32
    ensures len { len.new ≡ in_64_bits (length (report_sample-encoding sample.now Fields.none)) }
    ensures ok { result ≡ 0 → FillsSlice (report_sample-encoding sample.now Fields.none) 0
        room.old room.new len.new }
    ensures no_room { result ≢ 0 → (result ≡ 32) × (length room.old
        < length (report_sample-encoding sample.now Fields.none)) }
    ensures stays { result ≢ 0 → room.new ≡ room.old }
{
    write_report_sample(sample, room, len)
}

/// How many bytes the shortest encoding takes of what the sample shows and of the unknown fields of
/// these bytes behind it, or `SIZE_MAX` where it is more: 0. Else the number of the error, exactly
/// where the bytes are no records, or these nest more than 100 groups, and the length is 0.
#[unsafe(no_mangle)]
pub extern "C" fn report_sample_size_keeping(
    sample: &ReportSampleInC<'_>,
    bytes: &[u8],
    len: &mut usize,
) -> u32
    ensures ok { result ≡ 0 → OfUnknown report_sample-known.owns bytes.now (λ fs.
        len.new ≡ in_64_bits (length (report_sample-encoding sample.now fs))) }
    ensures fault { result ≢ 0 → HasStatus bytes.now result × (len.new ≡ 0) }
{
    wire_stations::report_sample_size_keeping(sample, bytes, len)
}

/// Writes that encoding at the front of the room, and tells how many bytes it takes, or `SIZE_MAX`
/// where it is more: 0, or 32 exactly where the room has fewer. Else refused as
/// `report_sample_size_keeping`. Where it answers no 0 the room stays.
#[unsafe(no_mangle)]
pub extern "C" fn report_sample_write_keeping(
    sample: &ReportSampleInC<'_>,
    bytes: &[u8],
    room: &mut [u8],
    len: &mut usize,
) -> u32
    ensures ok { result ≡ 0 → OfUnknown report_sample-known.owns bytes.now (λ fs.
        FillsSlice (report_sample-encoding sample.now fs) 0 room.old room.new len.new) }
    ensures no_room { result ≡ 32 → OfUnknown report_sample-known.owns bytes.now (λ fs.
        (len.new ≡ in_64_bits (length (report_sample-encoding sample.now fs)))
        × (length room.old < length (report_sample-encoding sample.now fs))) }
    ensures fault { result ≢ 0 → result ≢ 32 → HasStatus bytes.now result × (len.new ≡ 0) }
    ensures stays { result ≢ 0 → room.new ≡ room.old }
{
    write_report_sample_keeping(sample, bytes, room, len)
}
