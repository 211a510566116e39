//! The words of JSON.
ghost use Rattle.std.specs.Prelude.{codes, drop, IfOk};
ghost use Rattle.wire_json.specs.Answer.{Answers, IsBehind};
ghost use Rattle.wire_json.specs.Bytes.{word_end};
ghost use Rattle.wire_json.specs.Written.{word_text};

use crate::bytes::skip_word;
use crate::fault::Fault;

/// Passes over `null`. What follows it is not looked at.
pub fn skip_null(text: &[u8], at: usize) -> Result<usize, Fault>
    ensures answer { Answers text.now result (word_end (codes "null") (drop at text.now)) }
    ensures behind { IfOk result (λ after. IsBehind at after text.now) }
{
    skip_word(text, at, b"null")
}

/// Passes over `true` or `false`, as `value` has it. What follows it is not looked at.
pub fn skip_bool(text: &[u8], at: usize, value: bool) -> Result<usize, Fault>
    ensures answer { Answers text.now result (word_end (word_text value) (drop at text.now)) }
    ensures behind { IfOk result (λ after. IsBehind at after text.now) }
{
    if value {
        skip_word(text, at, b"true")
    } else {
        skip_word(text, at, b"false")
    }
}
