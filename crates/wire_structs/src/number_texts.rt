//! Numbers as they stand in a packed payload, with no tags.
ghost use Rattle.std.specs.Prelude.{◌≡◌, ◌<◌, ◌^◌, ℕ, List, length, OnErr, IfOk};
ghost use Rattle.wire_codec.specs.Read.{Reads};
ghost use Rattle.wire_codec.specs.Writes.{Writes};
ghost use Rattle.wire_fields.specs.declared.form.Form.TheVariants.{Fixed32};
ghost use Rattle.wire_fields.specs.Packed.{IsNumberText, number_text};

use wire_codec::{
    DecodeError, EncodeError, EncodeSink, decode_fixed32, decode_fixed64, decode_varint,
    encode_fixed32, encode_fixed64, encode_varint, laws, varint_len,
};
use wire_fields::Form;

/// Reads the number at the front.
#[inline(always)]
pub(crate) fn take_number(form: Form, buf: &mut &[u8]) -> Result<u64, DecodeError>
    ensures ok { IfOk result (λ x. Reads buf.old.now (IsNumberText form x) buf.new.now) }
    ensures narrow { IfOk result (λ x. form ≡ Fixed32 → x < 2 ^ 32) }
    ensures err { OnErr result ((x : ℕ) (new : List ℕ)
        → Reads buf.old.now (IsNumberText form x) new → ⊥) }
{
    laws::grammar::no_varint_beside_fault();
    match form {
        Form::Varint => decode_varint(buf),
        Form::Fixed64 => decode_fixed64(buf),
        Form::Fixed32 => Ok(u64::from(decode_fixed32(buf)?)),
    }
}

/// How many bytes the text of this number has.
#[inline(always)]
pub(crate) fn number_len(form: Form, x: u64) -> u64
    ensures { result ≡ length (number_text form x) }
{
    match form {
        Form::Varint => varint_len(x) as u64,
        Form::Fixed64 => 8,
        Form::Fixed32 => 4,
    }
}

/// Writes the text of this number.
#[inline(always)]
pub(crate) fn put_number<E: EncodeSink>(form: Form, x: u64, sink: &mut E) -> Result<(), EncodeError>
    requires { form ≡ Fixed32 → x < 2 ^ 32 }
    ensures { Writes (number_text form x) (E.held sink.old) (E.held sink.new) result }
{
    laws::put_is_a_write();
    match form {
        Form::Varint => encode_varint(x, sink),
        Form::Fixed64 => encode_fixed64(x, sink),
        Form::Fixed32 => encode_fixed32(x as u32, sink),
    }
}
