//! Single bytes, words and white space.
ghost use Rattle.std.specs.Prelude.{◌≡◌, ◌+◌, ◌<◌, ◌≤◌, [], ◌∷◌, length, drop, MatchOption, IfOk};
ghost use Rattle.std.specs.Bool.{OnTrue};
ghost use Rattle.wire_json.specs.Answer.{Answers, IsBehind, IsOnward};
ghost use Rattle.wire_json.specs.Bytes.{begins, is_byte, past_one, past_space, word_end};

use crate::fault::{Fault, FaultKind};

/// The byte at a place, if the text goes so far.
pub(crate) fn byte_at(text: &[u8], at: usize) -> Option<u8>
    ensures { MatchOption result (drop at text.now ≡ [])
        (λ byte. (drop at text.now ≡ byte ∷ drop (at + 1) text.now) × (at < length text.now)) }
{
    text.get(at).copied()
}

/// Whether this byte stands here.
pub(crate) fn stands(text: &[u8], at: usize, byte: u8) -> bool
    ensures test { result ≡ begins (is_byte byte) (drop at text.now) }
    ensures here { OnTrue result (drop at text.now ≡ byte ∷ drop (at + 1) text.now) }
    ensures within { OnTrue result (at < length text.now) }
{
    byte_at(text, at) == Some(byte)
}

/// A fault of syntax at this place.
pub(crate) fn syntax(at: usize) -> Fault
    ensures { result ≡ record { kind = FaultKind.Syntax; at = at } }
{
    Fault {
        kind: FaultKind::Syntax,
        at,
    }
}

/// Passes over white space: space, tab, line feed and carriage return.
pub fn skip_space(text: &[u8], at: usize) -> usize
    ensures space { drop result text.now ≡ past_space (drop at text.now) }
    ensures onward { IsOnward at result text.now }
{
    let mut place = at;
    while let Some(b' ' | b'\t' | b'\n' | b'\r') = byte_at(text, place) {
        place += 1;
    }
    place
}

/// Passes over a word.
pub(crate) fn skip_word(text: &[u8], at: usize, word: &[u8]) -> Result<usize, Fault>
    ensures answer { Answers text.now result (word_end word.now (drop at text.now)) }
    ensures moves { IfOk result (λ after. after ≡ at + length word.now) }
    ensures within { IfOk result (λ after. 0 < length word.now → after ≤ length text.now) }
{
    let mut place = at;
    for byte in word {
        if !stands(text, place, *byte) {
            return Err(syntax(place));
        }
        place += 1;
    }
    Ok(place)
}
