//! Packed lists of scalars, and lists of a type that a user plugs in.
ghost use Rattle.std.specs.Prelude.{◌≡◌};

use crate::row::Row;
use crate::said::Said;
use std::alloc::Global;
use std::fmt::Debug;
use wire_codec::{
    DecodeError, ProtoList, count_varints, extend_packed_bool, extend_packed_fixed32,
    extend_packed_fixed64, extend_packed_int32, extend_packed_int64, extend_packed_sfixed32,
    extend_packed_sfixed64, extend_packed_sint32, extend_packed_sint64, extend_packed_uint32,
    extend_packed_uint64,
};

/// Says which elements are appended behind one, or to none with `into=empty`, and why no more.
pub fn tell(row: &Row<'_>, said: &mut Said) -> bool {
    match row.call {
        "ProtoList<Vec>" => say_plugged::<Vec<u32>>(said),
        "ProtoList<Unreserved>" => say_plugged::<Unreserved>(said),
        _ => match row.call.strip_prefix("extend_packed_") {
            Some(kind) => return tell_packed(kind, row, said),
            None => return false,
        },
    }
    true
}

fn tell_packed(kind: &str, row: &Row<'_>, said: &mut Said) -> bool {
    // For how many elements a reservation is asked.
    let room = row.number("reserve").unwrap_or(count_varints(row.bytes));
    match kind {
        "int32" | "sint32" | "sfixed32" => tell_i32(kind, row, room, said),
        "int64" | "sint64" | "sfixed64" => tell_i64(kind, row, room, said),
        "uint32" | "fixed32" => tell_u32(kind, row, room, said),
        "uint64" | "fixed64" => tell_u64(kind, row, room, said),
        "bool" => tell_bool(row, room, said),
        _ => return false,
    }
    true
}

fn tell_i32(kind: &str, row: &Row<'_>, room: usize, said: &mut Said) {
    let mut list = begun(row, said, 4);
    let answer = match kind {
        "int32" => extend_packed_int32(said.alloc, row.bytes, &mut list, room),
        "sint32" => extend_packed_sint32(said.alloc, row.bytes, &mut list, room),
        _ => extend_packed_sfixed32(said.alloc, row.bytes, &mut list),
    };
    say_list(row, said, answer, &list)
}

fn tell_i64(kind: &str, row: &Row<'_>, room: usize, said: &mut Said) {
    let mut list = begun(row, said, 4);
    let answer = match kind {
        "int64" => extend_packed_int64(said.alloc, row.bytes, &mut list, room),
        "sint64" => extend_packed_sint64(said.alloc, row.bytes, &mut list, room),
        _ => extend_packed_sfixed64(said.alloc, row.bytes, &mut list),
    };
    say_list(row, said, answer, &list)
}

fn tell_u32(kind: &str, row: &Row<'_>, room: usize, said: &mut Said) {
    let mut list = begun(row, said, 4);
    let answer = match kind {
        "uint32" => extend_packed_uint32(said.alloc, row.bytes, &mut list, room),
        _ => extend_packed_fixed32(said.alloc, row.bytes, &mut list),
    };
    say_list(row, said, answer, &list)
}

fn tell_u64(kind: &str, row: &Row<'_>, room: usize, said: &mut Said) {
    let mut list = begun(row, said, 4);
    let answer = match kind {
        "uint64" => extend_packed_uint64(said.alloc, row.bytes, &mut list, room),
        _ => extend_packed_fixed64(said.alloc, row.bytes, &mut list),
    };
    say_list(row, said, answer, &list)
}

fn tell_bool(row: &Row<'_>, room: usize, said: &mut Said) {
    let mut list = begun(row, said, true);
    let answer = extend_packed_bool(said.alloc, row.bytes, &mut list, room);
    say_list(row, said, answer, &list)
}

// How many elements the list has that a row appends to.
fn first(row: &Row<'_>) -> usize {
    usize::from(row.word("into") != Some("empty"))
}

// The list that a row appends to: of one element, or of none.
fn begun<T: Copy + Drop>(row: &Row<'_>, said: &mut Said, element: T) -> Vec<T> {
    let mut list = Vec::new(said.alloc);
    if first(row) > 0 {
        said.made(list.push(element));
    }
    list
}

// What is appended behind what the list had, and why no more.
fn say_list<T: Copy + Debug + Drop>(
    row: &Row<'_>,
    said: &mut Said,
    answer: Result<(), DecodeError>,
    list: &[T],
) {
    said.expect(list.len() >= first(row), "the first element is gone");
    let appended = list.get(first(row)..).unwrap_or(&[]);
    if let Err(error) = answer {
        is_front(row, &error, appended, said);
        said.refuse(error);
        said.word(" ");
    }
    said.show(&appended);
}

// Where memory is refused a front of the wanted elements stands there, and none where room for all
// of them was asked for.
fn is_front<T: Copy + Debug + Drop>(
    row: &Row<'_>,
    error: &DecodeError,
    appended: &[T],
    said: &mut Said,
) {
    if *error == DecodeError::OutOfMemory {
        let is_asked = row.word("reserve").is_some();
        said.expect(is_asked | appended.is_empty(), "not as it was");
        said.show(&appended);
        let (front, _) = said.told();
        let front = front.strip_suffix("]").unwrap_or(front);
        let is_front = row.answer.contains(front);
        said.expect(is_front, "no front");
    }
}

// ---- lists that a user plugs in

// A list that makes room for nothing before it is there.
#[derive(Clone, Debug, PartialEq, Drop)]
struct Unreserved {
    elements: Vec<u32>,
}

impl ProtoList<u32> for Unreserved {
    ghost items = { λ list. list.elements.items };

    fn push(&mut self, value: u32) -> Result<(), u32> {
        match self.elements.push(value) {
            Ok(()) => Ok(()),
            Err(refused) => Err(refused.value),
        }
    }

    fn clear(&mut self) {
        self.elements.clear()
    }

    fn as_slice(&self) -> &[u32] {
        self.elements.as_slice()
    }

    fn empty(alloc: Global) -> Unreserved {
        Unreserved {
            elements: Vec::new(alloc),
        }
    }
}

// A push that is refused hands its value back, and a reservation that is refused changes nothing.
fn say_plugged<L: ProtoList<u32>>(said: &mut Said) {
    let mut list = L::empty(said.alloc);
    for value in 1..=9 {
        if let Err(back) = list.push(value) {
            said.expect(back == value, "another value is handed back");
            said.expect(are_up_to(&list, value), "a refused push");
            return said.refuse(DecodeError::OutOfMemory);
        }
    }
    let answer = list.reserve(100);
    said.expect(are_up_to(&list, 10), "a reservation");
    said.made(answer);
    if let Some(copy) = said.made(list.clone()) {
        said.show(&copy.as_slice());
    }
    list.clear();
    said.expect(list == L::empty(said.alloc), "not cleared");
}

// Whether the elements are those from 1 up to this one.
fn are_up_to<L: ProtoList<u32>>(list: &L, end: u32) -> bool {
    list.as_slice().iter().copied().eq(1..end)
}
