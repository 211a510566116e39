//! The kinds of values.
ghost use Rattle.std.specs.Prelude.{◌≡◌, ◌<◌, length, drop, OnSome};
ghost use Rattle.wire_json.specs.Kind.{kind_begun};

use crate::bytes::byte_at;

/// What begins here, by its first byte.
#[derive(Clone, Copy, Debug, PartialEq, Eq)]
pub enum Kind {
    Null,
    True,
    False,
    Number,
    String,
    Array,
    Object,
}

/// The kind of value that begins at this byte, of which nothing more is looked at.
pub fn kind_at(text: &[u8], at: usize) -> Option<Kind>
    ensures kind { result ≡ kind_begun (drop at text.now) }
    ensures within { OnSome result (at < length text.now) }
{
    match byte_at(text, at)? {
        b'n' => Some(Kind::Null),
        b't' => Some(Kind::True),
        b'f' => Some(Kind::False),
        b'"' => Some(Kind::String),
        b'[' => Some(Kind::Array),
        b'{' => Some(Kind::Object),
        b'-' | b'0'..=b'9' => Some(Kind::Number),
        _ => None,
    }
}
