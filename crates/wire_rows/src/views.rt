//! Flat walks over spans, views of unknown fields, and the unknown fields of a person as a view.
use crate::row::Row;
use crate::said::{Hex, Said};
use wire_codec::{
    DecodeContext, DecodeError, Message, UnknownFields, UnknownFieldsView, register_unknown_record,
};
use wire_samples::{Person, person_unknowns};

pub fn tell(row: &Row<'_>, said: &mut Said) -> bool {
    match row.call {
        "register_unknown_record" => walk(row, said),
        "UnknownFieldsView" => view(row, said),
        "person_unknowns" => unknowns(row, said),
        _ => return false,
    }
    true
}

// What a flat walk charges, and what it leaves.
fn walk(row: &Row<'_>, said: &mut Said) {
    let mut context = row.context();
    let depth = context.depth();
    let answer = register_unknown_record(row.bytes, &mut context);
    if let Some(charge) = said.answered(answer) {
        said.expect(context.depth() == depth, "another depth");
        say_charge(charge.fields, charge.depth, charge.bytes, said);
        said.limits(row, &context);
    }
}

fn say_charge(fields: usize, depth: u32, bytes: usize, said: &mut Said) {
    said.also("fields ", &fields);
    said.also(", depth ", &depth);
    said.also(", bytes ", &bytes);
}

// Spans are pushed one by one. One that is refused is not kept, and want of memory takes no slot.
fn view(row: &Row<'_>, said: &mut Said) {
    let mut context = row.context();
    let mut view = UnknownFieldsView::new(said.alloc);
    for pushed in 0..row.span_count() {
        let (fields, slots) = (view.fields(), context.remaining_unknown_fields());
        if let Err(error) = view.push_span(row.span(pushed), &mut context) {
            said.expect(view.len() == pushed, "a refused span");
            said.expect(view.fields() == fields, "fields of a refused span");
            let is_memory = error == DecodeError::OutOfMemory;
            let is_left = context.remaining_unknown_fields() == slots;
            said.expect(!is_memory | is_left, "a slot is gone");
            said.show(&pushed);
            said.word(" kept, then ");
            return said.refuse(error);
        }
    }
    say_view(row, &view, said);
    said.limits(row, &context);
    view.clear();
    said.expect(view.is_empty(), "spans of a cleared view");
    let charge = [view.fields(), view.bytes(), view.depth() as usize];
    said.expect(charge == [0, 0, 0], "a charge of a cleared view");
}

// What a view is charged, what it writes, and what its spans spell under just that charge.
fn say_view(row: &Row<'_>, view: &UnknownFieldsView<'_>, said: &mut Said) {
    say_charge(view.fields(), view.depth(), view.bytes(), said);
    said.word(", ");
    let mut text = Vec::new(said.alloc);
    said.answered(view.write_to(&mut text));
    said.expect(view.encoded_len() == Ok(text.len()), "another length");
    let mut len = 0usize;
    for span in view.iter() {
        len = len.saturating_add(span.len());
    }
    said.expect(len == text.len(), "other spans");
    said.expect(view.is_empty() == (view.len() == 0), "empty");
    said.written(&text, row.bytes);
    said.word("; ");
    if let Some(owned) = said.answered(view.to_owned_fields()) {
        replays_as(view, &owned, said);
        let mut shortest = Vec::new(said.alloc);
        said.answered(owned.write_to(&mut shortest));
        said.show(&owned.len());
        said.word(": ");
        said.written(&shortest, &text);
    }
}

fn replays_as(view: &UnknownFieldsView<'_>, owned: &UnknownFields, said: &mut Said) {
    let context = DecodeContext::new(view.depth(), view.fields());
    let mut context = context.with_unknown_bytes(view.bytes());
    let replayed = said.answered(view.replay(&mut context));
    said.expect(replayed.as_ref() == Some(owned), "another replay");
    said.expect(context.remaining_unknown_fields() == 0, "a charge of slots");
    let bytes = context.remaining_unknown_bytes();
    said.expect(bytes == Some(0), "a charge of bytes");
    said.expect(context.depth() == view.depth(), "a charge of levels");
}

// The spans outlive the view, and spell what a decoded person keeps.
fn unknowns(row: &Row<'_>, said: &mut Said) {
    let mut context = row.context();
    let answer = person_unknowns(said.alloc, row.bytes, &mut context);
    let Some(view) = said.answered(answer) else {
        return;
    };
    for span in view.iter() {
        said.show(&Hex(span));
        said.word(" / ");
    }
    say_view(row, &view, said);
    said.limits(row, &context);
    if let Ok(person) = Person::decode_from_slice(said.alloc, row.bytes) {
        let owned = said.answered(view.to_owned_fields());
        let is_kept = owned.as_ref() == Some(person.unknown());
        said.expect(is_kept, "other fields are kept");
    }
}
