//! Extensions beside those of protoc's Python: a call, the name of an extension, and the records of
//! a message; for `set` and `add`, behind these, those of another one, whose value is put. Of
//! `repeat` and `deep` the value is so many records, or so many groups in one another, as `times`
//! says. `rows/extensions.py` makes the rows.
use crate::row::Row;
use crate::said::{Digits, Said};
use wire_codec::{DecodeContext, DecodeError, Message, UnknownFields, WireType};
use wire_extensions::Extension;
use wire_fields::{
    Blob, Bool, EachEmbedded, Embedded, Fixed64, Group, Int32, Kind, Optional, OwnTypes, Packed,
    Repeated, Sint32, Text, Unpacked,
};
use wire_samples::Repeat;
use wire_tables::Counter;

/// Says the records that the message has then, those of the value that was got, or a word.
pub fn tell(row: &Row<'_>, said: &mut Said) -> bool {
    let is_call = row.call.starts_with("Extension.");
    if is_call && say(row, said).is_none() {
        said.expect(!said.told().0.is_empty(), "no call");
    }
    is_call
}

// Nothing where a call refuses, which is said, or where there is none of this name.
fn say(row: &Row<'_>, said: &mut Said) -> Option<()> {
    let varint = OwnTypes::One(WireType::Varint);
    let bytes = OwnTypes::One(WireType::LengthDelimited);
    let varints = OwnTypes::OrPacked(WireType::Varint);
    let group = OwnTypes::One(WireType::StartGroup);
    let fixed = OwnTypes::One(WireType::Fixed64);
    match row.word("of")? {
        "priority" => say_of::<Optional<Int32>>(row, 100, varint, said),
        "title" => say_of::<Optional<Text>>(row, 101, bytes, said),
        "scores" => say_of::<Unpacked<Int32>>(row, 102, varints, said),
        "steps" => say_of::<Packed<Sint32>>(row, 103, varints, said),
        "visits" => say_of::<Embedded<Counter>>(row, 104, bytes, said),
        "labels" => say_of::<Repeated<Text, 24>>(row, 105, bytes, said),
        "extra" => say_of::<Group<Counter>>(row, 106, group, said),
        "stamp" => say_of::<Optional<Fixed64>>(row, 107, fixed, said),
        "flag" => say_of::<Optional<Bool>>(row, 108, varint, said),
        "counters" => say_of::<EachEmbedded<Counter, 32>>(row, 109, bytes, said),
        "picture" => say_of::<Optional<Blob>>(row, 110, bytes, said),
        "strict" => say_call(row, &Extension::<Optional<Int32>>::new(100)?, said),
        "repeat" => say_repeat(row, said),
        "deep" => say_deep(row, said),
        _ => None,
    }
}

fn say_of<K: Kind>(row: &Row<'_>, number: u32, types: OwnTypes, said: &mut Said) -> Option<()> {
    say_call(row, &Extension::<K>::new(number)?.of_types(types), said)
}

// A message of so many records, which are no memory until they are written.
fn say_repeat(row: &Row<'_>, said: &mut Said) -> Option<()> {
    let times = row.number("times")?;
    let extra = false;
    say_message::<Embedded<Repeat>, Repeat>(row, 111, Repeat { times, extra }, said)
}

// A group that has so many groups in one another.
fn say_deep(row: &Row<'_>, said: &mut Said) -> Option<()> {
    let levels: u32 = row.number("times")?;
    let mut bytes = Vec::new(said.alloc);
    for byte in [0x4b, 0x4c] {
        for _ in 0..levels {
            said.made(bytes.push(byte))?;
        }
    }
    let mut context = DecodeContext::new(levels, 1_000_000);
    let unknown = UnknownFields::decode_from_slice_within(said.alloc, &bytes, &mut context);
    let unknown = answered(unknown, said)?;
    say_message::<Group<Counter>, Counter>(row, 106, Counter { count: 0, unknown }, said)
}

fn say_message<K: Kind<Held = Option<Box<M>>>, M: Message>(
    row: &Row<'_>,
    number: u32,
    message: M,
    said: &mut Said,
) -> Option<()> {
    let own = Extension::<K>::new(number)?;
    let mut fields = fields_of(row.span(0), said)?;
    let held = Some(said.made(Box::new(said.alloc, message))?);
    put(row, &own, &mut fields, &held, said)?;
    say_records(&fields, said)
}

fn say_call<K: Kind>(row: &Row<'_>, own: &Extension<K>, said: &mut Said) -> Option<()> {
    let mut fields = fields_of(row.span(0), said)?;
    match row.call {
        "Extension.has" => {
            said.word(if own.has(&fields) { "yes" } else { "no" });
            return Some(());
        }
        "Extension.get" => {
            let held = value_of(own, &fields, said)?;
            fields.clear();
            answered(own.set(said.alloc, &mut fields, &held), said)?;
        }
        "Extension.clear" => own.clear(&mut fields),
        _ => {
            let others = fields_of(row.span(1), said)?;
            let held = value_of(own, &others, said)?;
            put(row, own, &mut fields, &held, said)?;
        }
    }
    say_records(&fields, said)
}

fn put<K: Kind>(
    row: &Row<'_>,
    own: &Extension<K>,
    fields: &mut UnknownFields,
    held: &K::Held,
    said: &mut Said,
) -> Option<()> {
    match row.call {
        "Extension.set" => answered(own.set(said.alloc, fields, held), said),
        "Extension.add" => answered(own.add(said.alloc, fields, held), said),
        _ => None,
    }
}

fn value_of<K: Kind>(
    own: &Extension<K>,
    fields: &UnknownFields,
    said: &mut Said,
) -> Option<K::Held> {
    let mut context = DecodeContext::new(100, 1_000_000);
    answered(own.get(said.alloc, fields, &mut context), said)
}

fn fields_of(bytes: &[u8], said: &mut Said) -> Option<UnknownFields> {
    answered(UnknownFields::decode_from_slice(said.alloc, bytes), said)
}

// What a call answers; the text of its refusal is said behind a word.
fn answered<T: Drop>(answer: Result<T, DecodeError>, said: &mut Said) -> Option<T> {
    match answer {
        Err(error) if error != DecodeError::OutOfMemory => {
            said.word("refused: ");
            said.made_word(error.to_string(said.alloc));
            None
        }
        answer => said.made(answer),
    }
}

fn say_records(fields: &UnknownFields, said: &mut Said) -> Option<()> {
    let mut bytes = Vec::new(said.alloc);
    said.made(fields.write_to(&mut bytes))?;
    said.show(&Digits(&bytes));
    Some(())
}
