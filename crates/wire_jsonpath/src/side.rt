//! How values lie to a byte of a text. The byte is told by `left`: so many bytes stand from it on.
ghost use Rattle.wire_jsonpath.specs.Seen.{SideIs};

use wire_json::skip_value;

/// How a value lies to the byte.
#[derive(Clone, Copy)]
pub(crate) enum Side {
    /// It is over before the byte, and the text goes on at this place.
    Over(usize),

    /// It holds the byte.
    Holding,

    /// It begins behind the byte.
    Ahead,
}

/// How the value at this place lies to the byte.
pub(crate) fn side_of(text: &[u8], at: usize, levels: u32, left: usize) -> Side
    ensures { SideIs levels left text.now at result }
{
    match skip_value(text, at, levels) {
        Ok(after) if left <= text.len() - after => Side::Over(after),
        _ => {
            if left <= text.len().saturating_sub(at) {
                Side::Holding
            } else {
                Side::Ahead
            }
        }
    }
}
