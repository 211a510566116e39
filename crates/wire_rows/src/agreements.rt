//! What decoding, skipping, borrowing and counting say of the same bytes: of the rows, and of many
//! cases that are lawful or nearly so.
mod case;
mod generator;

use self::case::{Case, Left};
use self::generator::Generator;
use crate::row::Row;
use crate::said::Said;
use wire_codec::{
    DecodeContext, DecodeError, UnknownFields, WireType, borrow_group, register_unknown_record,
};

/// Each agreement that does not hold is told, and how a payload behind a start tag is answered.
pub fn tell(row: &Row<'_>, said: &mut Said) -> bool {
    match row.call {
        "agreement" => {
            let levels = row.number("depth").unwrap_or(0);
            let slots = row.number("slots").unwrap_or(0);
            let case = Case::group(row.bytes, levels, slots, said);
            let answer = agree(&case, said);
            said.show(&bytes_of(&answer))
        }
        "agreements" => many(row, said),
        _ => return false,
    }
    true
}

// Cases from a seed, and whether each answer comes a hundred times.
fn many(row: &Row<'_>, said: &mut Said) {
    let mut generator = Generator::new(row.number("seed").unwrap_or(0));
    let mut counts = [0u32; 8];
    for _ in 0..row.number::<u32>("cases").unwrap_or(0) {
        let case = generator.case(said);
        let answer = agree(&case, said);
        if let Some(count) = counts.get_mut(kind(&answer)) {
            *count = count.saturating_add(1);
        }
    }
    let mut least = u32::MAX;
    for count in counts {
        least = least.min(count);
    }
    said.show(&(least >= 100));
}

// The answer of decoding, with which all others have to agree.
fn agree(case: &Case, said: &mut Said) -> Result<Left, DecodeError> {
    let decoded = case.decoded(&case.behind, case.context(), said);
    match &decoded {
        Ok(left) => agrees_where_decoded(case, *left, said),
        Err(DecodeError::UnexpectedEof) => {}
        Err(_) => stays_refused(case, &decoded, said),
    }
    skips_alike(case, &decoded, said);
    decoded
}

// With more slots than bytes, and as many bytes for payloads, decoding wants for neither.
fn skips_alike(case: &Case, decoded: &Result<Left, DecodeError>, said: &mut Said) {
    let skipped = case.skipped();
    let is_limited = *decoded == Err(DecodeError::UnknownFieldLimitExceeded);
    let is_alike = bytes_of(decoded) == skipped;
    said.expect(is_limited | is_alike, "skips alike");
    let len = case.behind.len();
    let enough = DecodeContext::new(case.levels, len.saturating_add(1)).with_unknown_bytes(len);
    let answer = case.decoded(&case.behind, enough, said);
    said.expect(bytes_of(&answer) == skipped, "slots suffice");
}

fn bytes_of(answer: &Result<Left, DecodeError>) -> Result<usize, DecodeError> {
    match answer {
        Ok(left) => Ok(left.bytes),
        Err(error) => Err(error.clone().unwrap_or(DecodeError::OutOfMemory)),
    }
}

fn agrees_where_decoded(case: &Case, left: Left, said: &mut Said) {
    borrows_alike(case, left, said);
    let span = case.taken(left, said);
    walks_alike(case, left, &span, said);
    writes_no_more(&span, said);
    for len in 0..case.behind.len().saturating_sub(left.bytes) {
        let front = case.behind.get(..len).unwrap_or(&[]);
        let answer = case.decoded(front, case.context(), said);
        said.expect(
            answer == Err(DecodeError::UnexpectedEof),
            "fronts are short",
        );
    }
}

// The body of a group that is decoded can be borrowed, and as many bytes are left.
fn borrows_alike(case: &Case, left: Left, said: &mut Said) {
    if case.tag.wire_type() != WireType::StartGroup {
        return;
    }
    let mut rest = case.behind.as_slice();
    let inner_levels = case.levels.saturating_sub(1);
    let answer = borrow_group(&mut rest, case.tag.field_number(), inner_levels);
    let is_front = match answer {
        Ok(body) => case.behind.starts_with(body),
        Err(_) => false,
    };
    said.expect(is_front & (rest.len() == left.bytes), "borrows alike");
}

// A walk over a tag and its payload takes the slots and the bytes that decoding takes; what it
// counts is what decoding needs, and no less will do.
fn walks_alike(case: &Case, left: Left, span: &[u8], said: &mut Said) {
    let mut context = case.context();
    let answer = register_unknown_record(span, &mut context);
    let Some(charge) = said.answered(answer) else {
        return said.expect(false, "walks alike");
    };
    said.expect(
        context.remaining_unknown_fields() == left.slots,
        "slots of a walk",
    );
    said.expect(
        context.remaining_unknown_bytes() == left.payloads,
        "bytes of a walk",
    );
    let taken = case.slots.checked_sub(left.slots);
    said.expect(taken == Some(charge.fields), "slots taken");
    let taken = case.payloads.checked_sub(left.payloads.unwrap_or(0));
    said.expect(taken == Some(charge.bytes), "bytes taken");
    is_exact(case, charge.depth, charge.fields, charge.bytes, said);
}

// These limits suffice, and one less of each does not.
fn is_exact(case: &Case, depth: u32, fields: usize, bytes: usize, said: &mut Said) {
    let exact = case.decoded_within(depth, fields, bytes, said);
    said.expect(exact.is_ok(), "a walk suffices");
    let no_slot = Err(DecodeError::UnknownFieldLimitExceeded);
    let one_less = case.decoded_within(depth, fields.saturating_sub(1), bytes, said);
    said.expect(one_less == no_slot, "a walk counts slots");
    let one_less = case.decoded_within(depth, fields, bytes.saturating_sub(1), said);
    said.expect((bytes == 0) | (one_less == no_slot), "a walk counts bytes");
    let one_less = case.decoded_within(depth.saturating_sub(1), fields, bytes, said);
    let no_level = Err(DecodeError::RecursionLimitExceeded);
    said.expect(
        (depth == 0) | (one_less == no_level),
        "a walk counts levels",
    );
}

// What is decoded is written in no more bytes, and in as many only where they are the same.
fn writes_no_more(span: &[u8], said: &mut Said) {
    let mut text = Vec::new(said.alloc);
    let answer = UnknownFields::decode_from_slice(said.alloc, span);
    if let Some(fields) = said.answered(answer) {
        said.answered(fields.write_to(&mut text));
    }
    let (is_less, is_same) = (text.len() < span.len(), text.as_slice() == span);
    said.expect(is_less | is_same, "writes no more");
}

// A refusal for another cause than missing bytes stays the same whatever bytes follow.
fn stays_refused(case: &Case, decoded: &Result<Left, DecodeError>, said: &mut Said) {
    for more in [b"\x00".as_slice(), b"\x0c\x14", b"\xff\x01\x08"] {
        let mut longer = said.copied(&case.behind);
        said.made(longer.extend_from_slice(more));
        let answer = case.decoded(&longer, case.context(), said);
        said.expect(answer == *decoded, "faults stay");
    }
}

// Which of the answers that the cases are to have this one is.
fn kind(answer: &Result<Left, DecodeError>) -> usize {
    match answer {
        Ok(_) => 0,
        Err(DecodeError::UnexpectedEof) => 1,
        Err(DecodeError::VarintTooLong) => 2,
        Err(DecodeError::InvalidWireType(_)) => 3,
        Err(DecodeError::InvalidFieldNumber) => 4,
        Err(DecodeError::InvalidEndGroup(_)) => 5,
        Err(DecodeError::RecursionLimitExceeded) => 6,
        Err(DecodeError::UnknownFieldLimitExceeded) => 7,
        Err(_) => 8,
    }
}
