//! The element of an array that holds a byte.
ghost use Rattle.std.specs.Prelude.{drop, IfNone, IfSome};
ghost use Rattle.wire_jsonpath.specs.Path.{element};
ghost use Rattle.wire_jsonpath.specs.Places.{LeadsTo, NoElementHolds};

use crate::side::{Side, side_of};
use wire_json::{Next, first_element, next_element};

/// An element of an array, and its place.
#[derive(Clone, Copy)]
pub(crate) struct FoundElement {
    pub(crate) index: usize,
    pub(crate) place: usize,
}

/// The element that holds the byte, of the array at this place.
pub(crate) fn find_element(text: &[u8], at: usize, levels: u32, left: usize) -> Option<FoundElement>
    ensures none { IfNone result (NoElementHolds levels left (drop at text.now)) }
    ensures found { IfSome result (λ found. LeadsTo levels left (drop at text.now)
        (element found.index) (drop found.place text.now)) }
{
    let mut next = first_element(text, at);
    let mut index = 0;
    while let Ok(Next::Item(place)) = next {
        match side_of(text, place, levels, left) {
            Side::Over(after) => {
                next = next_element(text, after);
                index += 1;
            }
            Side::Holding => return Some(FoundElement { index, place }),
            Side::Ahead => return None,
        }
    }
    None
}
