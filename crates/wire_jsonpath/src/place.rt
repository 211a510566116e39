//! The path to a byte of a text.
ghost use Rattle.std.specs.Prelude.{◌≡◌, ◌+◌, drop, length, take, IfNone, IfOk, IfSome};
ghost use Rattle.wire_json.specs.Bytes.{past_space};
ghost use Rattle.wire_jsonpath.specs.Places.{IsPathTo, LeadsTo, NothingHolds};
ghost use Rattle.wire_jsonpath.specs.Seen.{tree_step};

use crate::element::find_element;
use crate::member::find_member;
use crate::path::{JsonPath, JsonStep};
use std::alloc::{AllocError, Global};
use wire_json::skip_space;

// A step, and the place of the value to which it leads.
#[derive(Drop)]
struct Found {
    step: JsonStep,
    place: usize,
}

// The step from the value at this place to what holds the byte in it.
fn find_step(
    alloc: Global,
    text: &[u8],
    at: usize,
    levels: u32,
    left: usize,
) -> Result<Option<Found>, AllocError>
    ensures none { IfOk result (λ found.
        IfNone found (NothingHolds levels left (drop at text.now))) }
    ensures found { IfOk result (λ found. IfSome found (λ found.
        LeadsTo levels left (drop at text.now) (tree_step found.step)
        (drop found.place text.now))) }
{
    if let Some(found) = find_element(text, at, levels, left) {
        return Ok(Some(Found {
            step: JsonStep::Element(found.index),
            place: found.place,
        }));
    }
    match find_member(alloc, text, at, levels, left)? {
        Some(found) => Ok(Some(Found {
            step: JsonStep::Member(found.name),
            place: found.place,
        })),
        None => Ok(None),
    }
}

// The bytes of the text up to this one, with it.
fn front_to(text: &[u8], at: usize) -> &[u8]
    ensures { result.now ≡ take (at + 1) text.now }
{
    text.get(..=at).unwrap_or(text)
}

/// The path to the byte at this place of a text, or to its end where the place lies behind it: a
/// step to each member or element that holds the byte, the outermost first, in at most `levels`
/// arrays and objects that stand in one another. It is empty where no member and no element holds
/// the byte.
///
/// A member holds the bytes of its value, and an element its own, from the first to the last. What
/// stops to be JSON before the byte, or nests deeper, holds it. A name, a colon, a comma and white
/// space between values are held by what is around them.
///
/// For each step, and once more, the text is gone over up to the byte at most.
pub fn path_to(alloc: Global, text: &[u8], at: usize, levels: u32) -> Result<JsonPath, AllocError>
    ensures { IfOk result (λ path. IsPathTo levels text.now at path) }
{
    let front = front_to(text, at);
    let left = front.len().saturating_sub(at);
    let mut path = JsonPath::new(alloc);
    let mut place = skip_space(front, 0);
    let mut inner = levels;
    while inner > 0 {
        inner -= 1;
        match find_step(alloc, front, place, inner, left)? {
            None => return Ok(path),
            Some(found) => {
                place = found.place;
                path.push(found.step)?;
            }
        }
    }
    Ok(path)
}
