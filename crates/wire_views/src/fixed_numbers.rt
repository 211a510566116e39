//! Numbers of four or eight bytes each, one behind another.
ghost use Rattle.std.specs.Prelude.{◌≡◌, ◌≢◌, ◌<◌, ◌^◌, ◌∷◌, [], ℕ, List, true, false, length, slice_get, IfSome, IfNone};
ghost use Rattle.wire_codec.specs.Packed.{SpellsEach};
ghost use Rattle.wire_fields.specs.declared.form.Form.TheVariants.{Fixed32, Varint};
ghost use Rattle.wire_fields.specs.Packed.{IsNumberText};
ghost use Rattle.wire_views.specs.FixedNumbers.{numbers_in};

use wire_codec::{decode_fixed32, decode_fixed64};
use wire_fields::Form;

/// How many whole numbers the bytes are.
pub(crate) fn count(form: Form, bytes: &[u8]) -> usize
    ensures { result ≡ length (numbers_in form bytes.now) }
{
    match form {
        Form::Varint => 0,
        Form::Fixed64 => bytes.len() / 8,
        Form::Fixed32 => bytes.len() / 4,
    }
}

/// Takes the number at the front, if there is a whole one.
#[inline(always)]
pub(crate) fn take_number(form: Form, bytes: &mut &[u8]) -> Option<u64>
    ensures some { IfSome result (λ x.
        numbers_in form bytes.old.now ≡ x ∷ numbers_in form bytes.new.now) }
    ensures narrow { IfSome result (λ x. form ≡ Fixed32 → x < 2 ^ 32) }
    ensures fewer { IfSome result (λ x. length bytes.new.now < length bytes.old.now) }
    ensures none { IfNone result (numbers_in form bytes.old.now ≡ []) }
    ensures rest { IfNone result (numbers_in form bytes.new.now ≡ []) }
{
    match form {
        Form::Varint => None,
        Form::Fixed64 => match decode_fixed64(bytes) {
            Ok(number) => Some(number),
            Err(_) => None,
        },
        Form::Fixed32 => match decode_fixed32(bytes) {
            Ok(number) => Some(u64::from(number)),
            Err(_) => None,
        },
    }
}

/// The number at a place, if there is one.
#[inline(always)]
pub(crate) fn number_at(form: Form, bytes: &[u8], index: usize) -> Option<u64>
    ensures value { result ≡ slice_get (numbers_in form bytes.now) index }
    ensures narrow { IfSome result (λ x. form ≡ Fixed32 → x < 2 ^ 32) }
{
    let mut rest = bytes_from(form, bytes, index);
    take_number(form, &mut rest)
}

// The bytes from the number at a place on, which are none where there is no such number.
#[inline(always)]
fn bytes_from(form: Form, bytes: &[u8], index: usize) -> &[u8]
    ensures { slice_get (numbers_in form bytes.now) index
        ≡ slice_get (numbers_in form result.now) 0 }
{
    match form {
        Form::Varint => &[],
        Form::Fixed64 => {
            if bytes.len() / 8 <= index {
                return &[];
            }
            bytes.split_at(index * 8).1
        }
        Form::Fixed32 => {
            if bytes.len() / 4 <= index {
                return &[];
            }
            bytes.split_at(index * 4).1
        }
    }
}

/// Whether numbers have a width of their own.
pub(crate) fn is_fixed(form: Form) -> bool
    ensures { result ≡ true → form ≢ Varint }
{
    match form {
        Form::Varint => false,
        Form::Fixed64 => true,
        Form::Fixed32 => true,
    }
}

/// Whether the bytes are whole numbers, one behind another.
pub(crate) fn are_whole(form: Form, bytes: &[u8]) -> bool
    ensures whole { result ≡ true
        → SpellsEach (IsNumberText form) (numbers_in form bytes.now) bytes.now }
    ensures part { result ≡ false → form ≢ Varint → (numbers : List ℕ)
        → SpellsEach (IsNumberText form) numbers bytes.now → ⊥ }
{
    match form {
        Form::Varint => false,
        Form::Fixed64 => bytes.len() % 8 == 0,
        Form::Fixed32 => bytes.len() % 4 == 0,
    }
}
