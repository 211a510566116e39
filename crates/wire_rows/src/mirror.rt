//! Messages that are read and written again. A line has the name of a type and bytes in hexadecimal
//! digits. It is answered by a line: the shortest encoding of a copy of what was read, or why there
//! is none. A type by the name of a view is read as that; a report's view is written as the message
//! that is made of it, since it has maps.
use std::alloc::Global;
use std::io;
use wire_codec::{DecodeError, EncodeError, Message};
use wire_kinds::{
    Base, Call, Chain, Choice, Expression, Grants, Groups, Levels, Lists, Maps, MaybeVarints,
    MaybeWidths, Rights, Team, Varints, Wide, Widths,
};
use wire_report::{Report, ReportSample, ReportSampleView, ReportView};
use wire_views::{MessageView, WrittenView};
use wire_well_known::{
    Any, BoolValue, BytesValue, DoubleValue, Duration, Empty, FieldMask, FloatValue, Int32Value,
    Int64Value, ListValue, StringValue, Struct, Timestamp, UInt32Value, UInt64Value, Value,
};

/// Why a line has no message.
enum MirrorError {
    NoType,
    NoDigits,
    Refused(DecodeError),
    TooLarge(EncodeError),
    OutOfMemory,
}

/// Answers a line.
pub fn run<R: Print + AllocGlobal>(rt: &R, line: &str) -> io::Result<()> {
    let (name, digits) = line.split_once(' ').unwrap_or((line, ""));
    match answer(rt.alloc(), name, digits) {
        Ok(digits) => println!(rt; "{digits}"),
        Err(MirrorError::Refused(error)) => println!(rt; "refused: {error}"),
        Err(MirrorError::TooLarge(error)) => println!(rt; "too large: {error}"),
        Err(MirrorError::NoType) => println!(rt; "no type is called {name}"),
        Err(MirrorError::NoDigits) => println!(rt; "no digits: {digits}"),
        Err(MirrorError::OutOfMemory) => println!(rt; "out of memory"),
    }
}

fn answer(alloc: Global, name: &str, digits: &str) -> Result<String, MirrorError> {
    match name {
        "Report" => mirrored::<Report>(alloc, digits),
        "ReportSample" => mirrored::<ReportSample>(alloc, digits),
        "ReportView" => report_in_view(alloc, digits),
        "ReportSampleView" => sample_in_view(alloc, digits),
        "Any" => mirrored::<Any>(alloc, digits),
        "Empty" => mirrored::<Empty>(alloc, digits),
        "Duration" => mirrored::<Duration>(alloc, digits),
        "FieldMask" => mirrored::<FieldMask>(alloc, digits),
        "Timestamp" => mirrored::<Timestamp>(alloc, digits),
        "BoolValue" => mirrored::<BoolValue>(alloc, digits),
        "BytesValue" => mirrored::<BytesValue>(alloc, digits),
        "DoubleValue" => mirrored::<DoubleValue>(alloc, digits),
        "FloatValue" => mirrored::<FloatValue>(alloc, digits),
        "Int32Value" => mirrored::<Int32Value>(alloc, digits),
        "Int64Value" => mirrored::<Int64Value>(alloc, digits),
        "ListValue" => mirrored::<ListValue>(alloc, digits),
        "StringValue" => mirrored::<StringValue>(alloc, digits),
        "Struct" => mirrored::<Struct>(alloc, digits),
        "UInt32Value" => mirrored::<UInt32Value>(alloc, digits),
        "UInt64Value" => mirrored::<UInt64Value>(alloc, digits),
        "Value" => mirrored::<Value>(alloc, digits),
        "kinds.Varints" => mirrored::<Varints>(alloc, digits),
        "kinds.Widths" => mirrored::<Widths>(alloc, digits),
        "kinds.MaybeVarints" => mirrored::<MaybeVarints>(alloc, digits),
        "kinds.MaybeWidths" => mirrored::<MaybeWidths>(alloc, digits),
        "kinds.Lists" => mirrored::<Lists>(alloc, digits),
        "kinds.Maps" => mirrored::<Maps>(alloc, digits),
        "kinds.Choice" => mirrored::<Choice>(alloc, digits),
        "kinds.Chain" => mirrored::<Chain>(alloc, digits),
        "kinds.Expression" => mirrored::<Expression>(alloc, digits),
        "kinds.Call" => mirrored::<Call>(alloc, digits),
        "kinds2.Levels" => mirrored::<Levels>(alloc, digits),
        "kinds2.Grants" => mirrored::<Grants>(alloc, digits),
        "kinds2.Rights" => mirrored::<Rights>(alloc, digits),
        "kinds2.Team" => mirrored::<Team>(alloc, digits),
        "kinds2.Groups" => mirrored::<Groups>(alloc, digits),
        "kinds2.Wide" => mirrored::<Wide>(alloc, digits),
        "kinds2.Base" => mirrored::<Base>(alloc, digits),
        _ => Err(MirrorError::NoType),
    }
}

fn mirrored<M: Message>(alloc: Global, digits: &str) -> Result<String, MirrorError> {
    let bytes = decoded(alloc, digits)?;
    let message = M::decode_from_slice(alloc, &bytes).map_err(MirrorError::Refused)?;
    let Ok(copy) = message.clone() else {
        return Err(MirrorError::OutOfMemory);
    };
    encoded(alloc, copy.try_encode_to_vec(alloc))
}

// A report, as the message of its view.
fn report_in_view(alloc: Global, digits: &str) -> Result<String, MirrorError> {
    let bytes = decoded(alloc, digits)?;
    let view = match ReportView::decode_view_by_default(alloc, &bytes) {
        Ok(view) => view,
        Err(error) => return Err(MirrorError::Refused(error)),
    };
    let message = view.own(alloc).map_err(MirrorError::Refused)?;
    encoded(alloc, message.try_encode_to_vec(alloc))
}

// A sample, as its view is written.
fn sample_in_view(alloc: Global, digits: &str) -> Result<String, MirrorError> {
    let bytes = decoded(alloc, digits)?;
    match ReportSampleView::decode_view_by_default(alloc, &bytes) {
        Ok(view) => encoded(alloc, view.try_encode_to_vec(alloc)),
        Err(error) => Err(MirrorError::Refused(error)),
    }
}

fn decoded(alloc: Global, digits: &str) -> Result<Vec<u8>, MirrorError> {
    match hex::decode(alloc, digits) {
        Ok(bytes) => Ok(bytes),
        Err(hex::FromHexError::OutOfMemory) => Err(MirrorError::OutOfMemory),
        Err(_) => Err(MirrorError::NoDigits),
    }
}

// The digits of what was written.
fn encoded(alloc: Global, written: Result<Vec<u8>, EncodeError>) -> Result<String, MirrorError> {
    let bytes = written.map_err(MirrorError::TooLarge)?;
    match hex::encode(alloc, bytes) {
        Ok(digits) => Ok(digits),
        Err(_) => Err(MirrorError::OutOfMemory),
    }
}
