//! Texts of numbers, one after another.
ghost use Rattle.std.specs.Prelude.{◌≡◌, ◌+◌, ◌≢◌, ◌≤◌, ◌<◌, ◌^◌, ℕ, List, length, take, drop, OnOk, OnErr, IfOk, IfErr};
ghost use Rattle.wire_codec.specs.DecodeError.TheVariants.{OutOfMemory};
ghost use Rattle.wire_codec.specs.Packed.{Appends};
ghost use Rattle.wire_codec.specs.Read.{Reads};
ghost use Rattle.wire_codec.specs.Writes.{Writes};
ghost use Rattle.wire_fields.specs.declared.form.Form.TheVariants.{Fixed32};
ghost use Rattle.wire_fields.specs.Packed.{IsNumberText, number_text};

use crate::form::Form;
use crate::number::Number;
use bytes::Buf;
use std::alloc::Global;
use wire_codec::{
    DecodeError, EncodeError, EncodeSink, count_varints, decode_fixed32, decode_fixed64,
    decode_varint, encode_fixed32, encode_fixed64, encode_varint, laws, take_bytes, varint_len,
};

/// How many bytes the text of this number has beyond its first.
#[inline(always)]
pub(crate) fn len_beyond_first(form: Form, x: u64) -> u64
    ensures { result + 1 ≡ length (number_text form x) }
{
    match form {
        Form::Varint => {
            if x < 0x80 {
                return 0;
            }
            varint_len(x) as u64 - 1
        }
        Form::Fixed64 => 7,
        Form::Fixed32 => 3,
    }
}

/// Writes the text of this number.
#[inline(always)]
pub(crate) fn put_number_text<S: EncodeSink>(
    form: Form,
    x: u64,
    sink: &mut S,
) -> Result<(), EncodeError>
    requires { form ≡ Fixed32 → x < 2 ^ 32 }
    ensures { Writes (number_text form x) (S.held sink.old)
        (S.held sink.new) result }
{
    laws::put_is_a_write();
    match form {
        Form::Varint => encode_varint(x, sink),
        Form::Fixed64 => encode_fixed64(x, sink),
        Form::Fixed32 => encode_fixed32(x as u32, sink),
    }
}

/// Appends the numbers of the next bytes, so many of which are there. They are read in place where
/// they lie in one chunk, and else copied first.
pub(crate) fn extend_from<N: Number, B: Buf>(
    alloc: Global,
    len: usize,
    values: &mut Vec<N::Value>,
    buf: &mut B,
) -> Result<(), DecodeError>
    requires { len ≤ length (B.unread buf.old) }
    ensures ok { OnOk result (Appends (IsNumberText N.form) N.map (take len (B.unread buf.old))
        values.old.items values.new.items) }
    ensures rest { OnOk result (B.unread buf.new ≡ drop len (B.unread buf.old)) }
    ensures err { IfErr result (λ e. e ≢ OutOfMemory → (after : List N.Value)
        → Appends (IsNumberText N.form) N.map (take len (B.unread buf.old)) values.old.items after
        → ⊥) }
    ensures kept { B.kept buf.new ≡ B.kept buf.old }
{
    let chunk = buf.chunk();
    if chunk.len() < len {
        let payload = take_bytes(alloc, buf, len)?;
        return extend::<N>(payload.as_slice(), values);
    }
    extend::<N>(&chunk[..len], values)?;
    buf.advance(len);
    Ok(())
}

// Appends the numbers of a payload.
fn extend<N: Number>(payload: &[u8], values: &mut Vec<N::Value>) -> Result<(), DecodeError>
    ensures ok { OnOk result (Appends (IsNumberText N.form) N.map payload.now
        values.old.items values.new.items) }
    ensures err { IfErr result (λ e. e ≢ OutOfMemory → (after : List N.Value)
        → Appends (IsNumberText N.form) N.map payload.now values.old.items after → ⊥) }
{
    laws::grammar::one_varint();
    let form = N::form();
    values.reserve(count(form, payload))?;
    let mut rest = payload;
    while !rest.is_empty() {
        let x = take_number(form, &mut rest)?;
        values.push(N::value_of(x))?;
    }
    Ok(())
}

// How many numbers a payload has, where it is whole numbers.
fn count(form: Form, payload: &[u8]) -> usize {
    match form {
        Form::Varint => count_varints(payload),
        Form::Fixed64 => payload.len() / 8,
        Form::Fixed32 => payload.len() / 4,
    }
}

// Reads the number at the front.
#[inline(always)]
fn take_number(form: Form, buf: &mut &[u8]) -> Result<u64, DecodeError>
    ensures ok { IfOk result (λ x. Reads buf.old.now (IsNumberText form x) buf.new.now) }
    ensures narrow { IfOk result (λ x. form ≡ Fixed32 → x < 2 ^ 32) }
    ensures err { OnErr result ((x : ℕ) (new : List ℕ)
        → Reads buf.old.now (IsNumberText form x) new → ⊥) }
{
    laws::grammar::no_varint_beside_fault();
    match form {
        Form::Varint => decode_varint(buf),
        Form::Fixed64 => decode_fixed64(buf),
        Form::Fixed32 => Ok(u64::from(decode_fixed32(buf)?)),
    }
}
