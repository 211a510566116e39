//! Records token by token, of which none stands inside another, so that what is written of unknown
//! fields wants no stack and no memory.
ghost use Rattle.std.specs.Prelude.{◌≡◌, ◌<◌, ◌≤◌, ℕ, List, length, OnSome, IsSomeAnd};
ghost use Rattle.wire_base.specs.Items.{Item, IsItem};
ghost use Rattle.wire_base.specs.Read.{Reads};
ghost use Rattle.wire_codec.specs.FieldNumber.{IsFieldNumber};
ghost use Rattle.wire_codec.specs.TagView.{tag_number, tag_type};
ghost use Rattle.wire_codec.specs.Writes.{Writes};
ghost use Rattle.wire_fields.specs.Numbers.{in_64_bits};
ghost use Rattle.wire_views.specs.Tokens.{IsLeftOf, shortest_item, token_item};

use crate::text::delimited_len;
use wire_base::laws;
use wire_codec::{
    EncodeError, EncodeSink, Tag, WireType, borrow_bytes, decode_fixed32, decode_fixed64,
    decode_varint, put_bytes_field, put_fixed32_field, put_fixed64_field, put_group_end,
    put_group_start, put_uint64_field, varint_len,
};

/// What stands behind a tag up to the next one: a payload, and of a group nothing.
#[derive(Clone, Copy, Debug)]
pub(crate) enum Token<'a> {
    Varint(u64),
    Fixed64(u64),
    Bytes(&'a [u8]),
    GroupStart,
    GroupEnd,
    Fixed32(u32),
}

/// Reads what stands behind this tag: none where it is no payload.
#[inline(always)]
pub(crate) fn read_token<'a>(tag: Tag, buf: &mut &'a [u8]) -> Option<Token<'a>>
    ensures token { (item : Item) (rest : List ℕ)
        → IsLeftOf (tag_number tag) (tag_type tag) item buf.old.now rest
        → IsSomeAnd result (λ token.
        (token_item (tag_number tag) token ≡ item) × (buf.new.now ≡ rest)) }
    ensures shorter { OnSome result (length buf.new.now ≤ length buf.old.now) }
{
    laws::one_varint();
    laws::no_varint_beside_fault();
    laws::one_delimited();
    laws::no_delimited_beside_fault();
    match tag.wire_type() {
        WireType::Varint => match decode_varint(buf) {
            Ok(value) => Some(Token::Varint(value)),
            Err(_) => None,
        },
        WireType::Fixed64 => match decode_fixed64(buf) {
            Ok(value) => Some(Token::Fixed64(value)),
            Err(_) => None,
        },
        WireType::LengthDelimited => match borrow_bytes(buf) {
            Ok(bytes) => Some(Token::Bytes(bytes)),
            Err(_) => None,
        },
        WireType::StartGroup => Some(Token::GroupStart),
        WireType::EndGroup => Some(Token::GroupEnd),
        WireType::Fixed32 => match decode_fixed32(buf) {
            Ok(value) => Some(Token::Fixed32(value)),
            Err(_) => None,
        },
    }
}

/// Reads a tag and what stands behind it: none where these are no item.
#[inline(always)]
pub(crate) fn next_token<'a>(buf: &mut &'a [u8]) -> Option<(Tag, Token<'a>)>
    ensures next { (item : Item) (rest : List ℕ) → Reads buf.old.now (IsItem item) rest
        → IsSomeAnd result (λ next.
        (token_item (tag_number next.0) next.1 ≡ item) × (buf.new.now ≡ rest)) }
    ensures shorter { OnSome result (length buf.new.now < length buf.old.now) }
{
    laws::one_tag();
    laws::no_tag_beside_fault();
    let Ok(tag) = Tag::decode(buf) else {
        return None;
    };
    let token = read_token(tag, buf)?;
    Some((tag, token))
}

/// How many bytes a tag of this number and this token take, or `u64::MAX` where it is more.
#[inline(always)]
pub(crate) fn token_len(number: u32, token: Token<'_>) -> u64
    requires { IsFieldNumber number }
    ensures { result ≡ in_64_bits (length (shortest_item (token_item number token.entry))) }
{
    let key = u64::from(number) * 8;
    match token {
        Token::Varint(value) => {
            (varint_len(key) as u64).saturating_add(varint_len(value) as u64)
        }
        Token::Fixed64(_) => (varint_len(key + 1) as u64).saturating_add(8),
        Token::Bytes(bytes) => delimited_len(number, bytes.len() as u64),
        Token::GroupStart => varint_len(key + 3) as u64,
        Token::GroupEnd => varint_len(key + 4) as u64,
        Token::Fixed32(_) => (varint_len(key + 5) as u64).saturating_add(4),
    }
}

/// Writes a tag of this number and this token. Refused where the sink refuses a put.
#[inline(always)]
pub(crate) fn put_token<S: EncodeSink>(
    number: u32,
    token: Token<'_>,
    sink: &mut S,
) -> Result<(), EncodeError>
    requires { IsFieldNumber number }
    ensures { Writes (shortest_item (token_item number token.entry)) (S.held sink.old) (S.held sink.new)
        result }
{
    match token {
        Token::Varint(value) => put_uint64_field(number, value, sink),
        Token::Fixed64(value) => put_fixed64_field(number, value, sink),
        Token::Bytes(bytes) => put_bytes_field(number, bytes, sink),
        Token::GroupStart => put_group_start(number, sink),
        Token::GroupEnd => put_group_end(number, sink),
        Token::Fixed32(value) => put_fixed32_field(number, value, sink),
    }
}
