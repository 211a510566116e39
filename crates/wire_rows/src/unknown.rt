//! Payloads that are skipped, and unknown fields: decoded, written, measured and borrowed.
use crate::row::Row;
use crate::said::{Hex, Said, hash_of};
use crate::scalars::field_number;
use bytes::Buf;
use wire_codec::{
    DecodeError, Tag, UnknownField, UnknownFieldData, UnknownFields, borrow_group,
    decode_unknown_field, skip_field, skip_field_depth,
};

// ---- a tag and its payload

pub fn read<B: Buf>(row: &Row<'_>, buf: &mut B, said: &mut Said) -> bool {
    match row.call {
        "skip_field" => {
            if let Some(tag) = said.answered(Tag::decode(buf)) {
                said.read(skip_field(tag, buf), buf)
            }
        }
        "skip_field_depth" => {
            if let Some(tag) = said.answered(Tag::decode(buf)) {
                let depth = row.number("depth").unwrap_or(0);
                said.read(skip_field_depth(tag, buf, depth), buf)
            }
        }
        "decode_unknown_field" => decode(row, buf, said),
        _ => return false,
    }
    true
}

fn decode<B: Buf>(row: &Row<'_>, buf: &mut B, said: &mut Said) {
    let Some(tag) = said.answered(Tag::decode(buf)) else {
        return;
    };
    let mut context = row.context();
    let depth = context.depth();
    let answer = decode_unknown_field(said.alloc, tag, buf, &mut context);
    if let Some(field) = said.answered(answer) {
        said.expect(context.depth() == depth, "another depth");
        let mut text = Vec::new(said.alloc);
        said.answered(field.write_to(&mut text));
        said.written(&text, row.bytes);
        said.left(buf.remaining());
        said.limits(row, &context);
    }
}

// ---- lists of fields

pub fn tell(row: &Row<'_>, said: &mut Said) -> bool {
    match row.call {
        "UnknownFields" => decode_all(row, said),
        "decode_from_slice_within" => decode_within(row, said),
        "UnknownFields::push" => push(said),
        "UnknownFields::retain" => retain(row, said),
        "UnknownField" => measure(row, said),
        "borrow_group" => borrow(row, said),
        _ => return false,
    }
    true
}

fn decode_all(row: &Row<'_>, said: &mut Said) {
    let answer = UnknownFields::decode_from_slice(said.alloc, row.bytes);
    if let Some(fields) = said.answered(answer) {
        say_fields(&fields, row.bytes, said)
    }
}

// The fields of even numbers are kept, in order.
fn retain(row: &Row<'_>, said: &mut Said) {
    let answer = UnknownFields::decode_from_slice(said.alloc, row.bytes);
    if let Some(mut fields) = said.answered(answer) {
        fields.retain(|field| field.number % 2 == 0);
        say_fields(&fields, row.bytes, said);
    }
}

// A list under the limits of the row, and another of one field under what is left.
fn decode_within(row: &Row<'_>, said: &mut Said) {
    let alloc = said.alloc;
    let mut context = row.context();
    let answer = UnknownFields::decode_from_slice_within(alloc, row.bytes, &mut context);
    if let Some(fields) = said.answered(answer) {
        say_fields(&fields, row.bytes, said);
        said.also(", ", &context.remaining_unknown_fields());
        said.word(" slots, then ");
        let more = UnknownFields::decode_from_slice_within(alloc, b"\x08\x00", &mut context);
        if said.answered(more).is_some() {
            said.word("one more");
        }
    }
}

// How many fields there are, and what they are written as, all at once and one by one. A clone is
// equal, and hashes equally.
fn say_fields(fields: &UnknownFields, given: &[u8], said: &mut Said) {
    let pieces = in_pieces(fields, said);
    let mut text = said.copied(b"\x07");
    let answer = fields.write_to(&mut text);
    said.expect(pieces.starts_with(&text), "no front");
    said.answered(answer);
    said.expect(pieces == text, "other fields");
    let text = text.get(1..).unwrap_or(&[]);
    said.expect(fields.encoded_len() == Ok(text.len()), "another length");
    said.expect(fields.is_empty() == text.is_empty(), "empty");
    if let Some(copy) = said.made(fields.clone()) {
        said.expect(copy == *fields, "a clone");
        said.expect(hash_of(&copy) == hash_of(fields), "a clone's hash");
        said.show(&copy.into_iter().count());
    }
    said.word(": ");
    said.written(text, given);
}

// The fields one by one, behind the byte 7.
fn in_pieces(fields: &UnknownFields, said: &mut Said) -> Vec<u8> {
    let mut pieces = said.copied(b"\x07");
    let mut numbers = 0usize;
    for field in fields {
        said.answered(field.write_to(&mut pieces));
        numbers = numbers.saturating_add(1);
    }
    said.expect(numbers == fields.len(), "another count");
    pieces
}

// A push that is refused hands the very field back, and leaves the others.
fn push(said: &mut Said) {
    let mut fields = UnknownFields::new(said.alloc);
    for number in 1..=9 {
        let value = UnknownFieldData::Fixed32(number);
        if let Err(back) = fields.push(UnknownField { number, value }) {
            said.expect(back.number == number, "another number is handed back");
            let is_own = back.value == UnknownFieldData::Fixed32(number);
            said.expect(is_own, "another value is handed back");
            said.expect(are_up_to(&fields, number), "a refused push");
            return said.refuse(DecodeError::OutOfMemory);
        }
    }
    said.expect(are_up_to(&fields, 10), "other fields");
    let none = UnknownFields::new(said.alloc);
    said.expect(fields != none, "equal to none");
    fields.clear();
    said.expect(fields == none, "not cleared");
    said.word("pushed");
}

// Whether the fields are those of the numbers from 1 up to this one.
fn are_up_to(fields: &UnknownFields, end: u32) -> bool {
    let mut next = 1u32;
    for field in fields {
        if field.number != next {
            return false;
        }
        next = next.saturating_add(1);
    }
    next == end
}

fn value_of(row: &Row<'_>, said: &mut Said) -> Option<UnknownFieldData> {
    if let Some(value) = row.number("varint") {
        return Some(UnknownFieldData::Varint(value));
    }
    if row.word("payload").is_some() {
        return Some(UnknownFieldData::LengthDelimited(said.copied(row.bytes)));
    }
    let fields = said.answered(UnknownFields::decode_from_slice(said.alloc, row.bytes))?;
    Some(UnknownFieldData::Group(fields))
}

// How long a field is that no decoding made, its first bytes, and whether it is read again.
fn measure(row: &Row<'_>, said: &mut Said) {
    let number = row.number("n").unwrap_or(0);
    let Some(value) = value_of(row, said) else {
        return;
    };
    let field = UnknownField { number, value };
    let mut text = Vec::new(said.alloc);
    said.answered(field.write_to(&mut text));
    said.expect(field.encoded_len() == Ok(text.len()), "another length");
    said.show(&text.len());
    said.also(": ", &Hex(text.get(..7).unwrap_or(&text)));
    said.word("; ");
    let answer = UnknownFields::decode_from_slice(said.alloc, &text);
    if let Some(fields) = said.answered(answer) {
        said.expect(fields.len() == 1, "another count");
        said.expect(fields.iter().next() == Some(&field), "another field");
        said.word("read again");
    }
}

// The body of a group and what is left; a refusal leaves the slice.
fn borrow(row: &Row<'_>, said: &mut Said) {
    let mut rest = row.bytes;
    let depth = row.number("depth").unwrap_or(0);
    match borrow_group(&mut rest, field_number(row), depth) {
        Ok(body) => {
            said.show(&Hex(body));
            said.left(rest.len());
        }
        Err(error) => {
            said.expect(rest == row.bytes, "a refused group");
            said.refuse(error);
        }
    }
}
