//! A message as its JSON, and as its bytes.
use std::alloc::Global;
use std::io;
use wire_codec::{DecodeError, EncodeError, Message};
use wire_jsonfields::{JsonValue, from_json, to_json};
use wire_protojson::{ReadError, WriteError};
use wire_report::{Report, ReportSample};
use wire_report_json::{ReportJson, ReportSampleJson};
use wire_trips::{Seat, Trip};
use wire_trips_json::{SeatJson, TripJson};
use wire_visits::{Journey, Survey, Visit};
use wire_visits_json::{JourneyJson, SurveyJson, VisitJson};
use wire_well_known::{
    BoolValue, BytesValue, DoubleValue, Duration, Empty, FieldMask, FloatValue, Int32Value,
    Int64Value, ListValue, StringValue, Struct, Timestamp, UInt32Value, UInt64Value, Value,
};
use wire_well_known_json::{
    BoolValueJson, BytesValueJson, DoubleValueJson, DurationJson, EmptyJson, FieldMaskJson,
    FloatValueJson, Int32ValueJson, Int64ValueJson, ListValueJson, StringValueJson, StructJson,
    TimestampJson, UInt32ValueJson, UInt64ValueJson, ValueJson,
};

// The most arrays and objects that stand in one another.
const LEVELS: u32 = 100;

/// Why a line has no answer.
enum MirrorError {
    NoQuestion,
    NoDigits,
    NoUtf8,
    NoMessage(DecodeError),
    TooLarge(EncodeError),
    NoJson(WriteError),
    NoValue(ReadError),
    OutOfMemory,
}

/// Answers a line.
pub fn run<R: Print + AllocGlobal>(rt: &R, line: &str) -> io::Result<()> {
    match answer(rt.alloc(), line) {
        Ok(text) => println!(rt; "{text}"),
        Err(MirrorError::NoValue(error)) => println!(rt; "refused: {error}"),
        Err(MirrorError::NoJson(error)) => println!(rt; "not written: {error}"),
        Err(MirrorError::NoMessage(error)) => println!(rt; "refused: {error}"),
        Err(MirrorError::TooLarge(error)) => println!(rt; "too large: {error}"),
        Err(MirrorError::NoQuestion) => println!(rt; "no question: {line}"),
        Err(MirrorError::NoDigits) => println!(rt; "no digits: {line}"),
        Err(MirrorError::NoUtf8) => println!(rt; "no UTF-8: {line}"),
        Err(MirrorError::OutOfMemory) => println!(rt; "out of memory"),
    }
}

fn answer(alloc: Global, line: &str) -> Result<String, MirrorError> {
    let (asked, rest) = line.split_once(' ').unwrap_or((line, ""));
    let (name, of) = rest.split_once(' ').unwrap_or((rest, ""));
    match asked {
        "write" => write_one(alloc, name, of),
        "read" => read_one(alloc, name, of),
        _ => Err(MirrorError::NoQuestion),
    }
}

fn write_one(alloc: Global, name: &str, of: &str) -> Result<String, MirrorError> {
    match name {
        "BoolValue" => written::<BoolValueJson, BoolValue>(alloc, of),
        "BytesValue" => written::<BytesValueJson, BytesValue>(alloc, of),
        "DoubleValue" => written::<DoubleValueJson, DoubleValue>(alloc, of),
        "Duration" => written::<DurationJson, Duration>(alloc, of),
        "Empty" => written::<EmptyJson, Empty>(alloc, of),
        "FieldMask" => written::<FieldMaskJson, FieldMask>(alloc, of),
        "FloatValue" => written::<FloatValueJson, FloatValue>(alloc, of),
        "Int32Value" => written::<Int32ValueJson, Int32Value>(alloc, of),
        "Int64Value" => written::<Int64ValueJson, Int64Value>(alloc, of),
        "Journey" => written::<JourneyJson, Journey>(alloc, of),
        "ListValue" => written::<ListValueJson, ListValue>(alloc, of),
        "Report" => written::<ReportJson, Report>(alloc, of),
        "ReportSample" => written::<ReportSampleJson, ReportSample>(alloc, of),
        "Seat" => written::<SeatJson, Seat>(alloc, of),
        "StringValue" => written::<StringValueJson, StringValue>(alloc, of),
        "Struct" => written::<StructJson, Struct>(alloc, of),
        "Survey" => written::<SurveyJson, Survey>(alloc, of),
        "Timestamp" => written::<TimestampJson, Timestamp>(alloc, of),
        "Trip" => written::<TripJson, Trip>(alloc, of),
        "UInt32Value" => written::<UInt32ValueJson, UInt32Value>(alloc, of),
        "UInt64Value" => written::<UInt64ValueJson, UInt64Value>(alloc, of),
        "Value" => written::<ValueJson, Value>(alloc, of),
        "Visit" => written::<VisitJson, Visit>(alloc, of),
        _ => Err(MirrorError::NoQuestion),
    }
}

fn read_one(alloc: Global, name: &str, of: &str) -> Result<String, MirrorError> {
    match name {
        "BoolValue" => read::<BoolValueJson, BoolValue>(alloc, of),
        "BytesValue" => read::<BytesValueJson, BytesValue>(alloc, of),
        "DoubleValue" => read::<DoubleValueJson, DoubleValue>(alloc, of),
        "Duration" => read::<DurationJson, Duration>(alloc, of),
        "Empty" => read::<EmptyJson, Empty>(alloc, of),
        "FieldMask" => read::<FieldMaskJson, FieldMask>(alloc, of),
        "FloatValue" => read::<FloatValueJson, FloatValue>(alloc, of),
        "Int32Value" => read::<Int32ValueJson, Int32Value>(alloc, of),
        "Int64Value" => read::<Int64ValueJson, Int64Value>(alloc, of),
        "Journey" => read::<JourneyJson, Journey>(alloc, of),
        "ListValue" => read::<ListValueJson, ListValue>(alloc, of),
        "Report" => read::<ReportJson, Report>(alloc, of),
        "ReportSample" => read::<ReportSampleJson, ReportSample>(alloc, of),
        "Seat" => read::<SeatJson, Seat>(alloc, of),
        "StringValue" => read::<StringValueJson, StringValue>(alloc, of),
        "Struct" => read::<StructJson, Struct>(alloc, of),
        "Survey" => read::<SurveyJson, Survey>(alloc, of),
        "Timestamp" => read::<TimestampJson, Timestamp>(alloc, of),
        "Trip" => read::<TripJson, Trip>(alloc, of),
        "UInt32Value" => read::<UInt32ValueJson, UInt32Value>(alloc, of),
        "UInt64Value" => read::<UInt64ValueJson, UInt64Value>(alloc, of),
        "Value" => read::<ValueJson, Value>(alloc, of),
        "Visit" => read::<VisitJson, Visit>(alloc, of),
        _ => Err(MirrorError::NoQuestion),
    }
}

fn written<V, M>(alloc: Global, digits: &str) -> Result<String, MirrorError>
where
    V: JsonValue<Held = M>,
    M: Message,
{
    let bytes = match hex::decode(alloc, digits) {
        Ok(bytes) => bytes,
        Err(hex::FromHexError::OutOfMemory) => return Err(MirrorError::OutOfMemory),
        Err(_) => return Err(MirrorError::NoDigits),
    };
    let message = M::decode_from_slice(alloc, &bytes).map_err(MirrorError::NoMessage)?;
    let json = to_json::<V>(alloc, &message).map_err(MirrorError::NoJson)?;
    String::from_utf8(json).map_err(|_| MirrorError::NoUtf8)
}

fn read<V, M>(alloc: Global, text: &str) -> Result<String, MirrorError>
where
    V: JsonValue<Held = M>,
    M: Message,
{
    let message = from_json::<V>(alloc, text.as_bytes(), LEVELS).map_err(MirrorError::NoValue)?;
    let bytes = message
        .try_encode_to_vec(alloc)
        .map_err(MirrorError::TooLarge)?;
    match hex::encode(alloc, bytes) {
        Ok(digits) => Ok(digits),
        Err(_) => Err(MirrorError::OutOfMemory),
    }
}
