//! The member of an object whose value holds a byte.
ghost use Rattle.std.specs.Prelude.{drop, string_bytes, IfNone, IfOk, IfSome};
ghost use Rattle.wire_jsonpath.specs.Path.{member};
ghost use Rattle.wire_jsonpath.specs.Places.{LeadsTo, NoMemberHolds};

use crate::side::{Side, side_of};
use std::alloc::{AllocError, Global};
use wire_json::{JsonError, Next, first_member, next_member, read_name};

/// A member of an object: its name, and the place of its value.
#[derive(Drop)]
pub(crate) struct FoundMember {
    pub(crate) name: String,
    pub(crate) place: usize,
}

/// The member whose value holds the byte, of the object at this place.
pub(crate) fn find_member(
    alloc: Global,
    text: &[u8],
    at: usize,
    levels: u32,
    left: usize,
) -> Result<Option<FoundMember>, AllocError>
    ensures none { IfOk result (λ found.
        IfNone found (NoMemberHolds levels left (drop at text.now))) }
    ensures found { IfOk result (λ found. IfSome found (λ found.
        LeadsTo levels left (drop at text.now) (member (string_bytes found.name))
        (drop found.place text.now))) }
{
    let mut next = first_member(text, at);
    while let Ok(Next::Item(place)) = next {
        let name = match read_name(alloc, text, place) {
            Ok(name) => name,
            Err(JsonError::OutOfMemory) => return Err(AllocError),
            Err(JsonError::Refused(_)) => return Ok(None),
        };
        match side_of(text, name.after, levels, left) {
            Side::Over(after) => next = next_member(text, after),
            Side::Holding => {
                let place = name.after;
                let name = name.value.into_owned(alloc)?;
                return Ok(Some(FoundMember { name, place }));
            }
            Side::Ahead => return Ok(None),
        }
    }
    Ok(None)
}
