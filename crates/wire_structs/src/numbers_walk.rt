//! Lists of numbers that are read in place, packed or not, one number after another.
ghost use Rattle.std.specs.Prelude.{◌≡◌, ◌≢◌, ◌<◌, ◌^◌, ℕ, List, length, OnOk, OnErr, IfOk, IfSome, IfNone};
ghost use Rattle.wire_codec.specs.Folds.{Step};
ghost use Rattle.wire_codec.specs.ValueMap.{ValueMap};
ghost use Rattle.wire_fields.specs.declared.form.Form.{Form};
ghost use Rattle.wire_fields.specs.declared.form.Form.TheVariants.{Fixed32};
ghost use Rattle.wire_structs.specs.NumberWalks.{BeginsNumbers, GivesNumber, EndsNumbers};
ghost use Rattle.wire_structs.specs.NumberWalks.{LeadsNowhere, LeadsOn, NumbersOf};

use crate::number::read_number;
use crate::number_texts::take_number;
use wire_codec::{
    DecodeError, RECURSION_LIMIT, Tag, WireType, borrow_bytes, laws, skip_field_depth,
};
use wire_fields::Form;
use wire_read::numbers::status_of;

/// What is left of a list of numbers, as C has it: the bytes that are left of the message, and in
/// front of them what is left of a packed payload.
#[repr(C)]
#[derive(Clone, Copy, Debug)]
pub struct NumbersWalk<'a> {
    pub bytes: &'a [u8],
    pub payload: &'a [u8],
}

/// A list of numbers of a message, packed or not, which is read in place. A list has no values: it
/// names the field where the next number is asked for.
pub trait NumberList {
    /// What is given of a number.
    type Held: Copy;

    /// What contracts see of it.
    ghost Number: { Type 0 };

    ghost view: { Self.Held → Number };

    /// How it stands on the wire, and what is read from there.
    ghost form: { Form };

    ghost values: { ValueMap Number };

    /// The message, what it makes of a record, and the list of it.
    ghost Value: { Type 0 };

    ghost takes: { Step Value };

    ghost list: { Value → List Number };

    /// The field number.
    ghost number: { ℕ };

    fn number() -> u32
        ensures { result ≡ number };

    fn form() -> Form
        ensures { result ≡ form };

    /// The value that is read, as `held_of` of the scalar type.
    fn held_of(read: u64) -> Self::Held
        requires { form ≡ Fixed32 → read < 2 ^ 32 }
        ensures { view result ≡ values.dec read };

    /// The list is that of the records of its number.
    ghost lawful: { NumbersOf takes list number form values };
}

/// The walk over the list of the message that these bytes are.
pub fn begin_numbers<'a, L: NumberList>(bytes: &'a [u8]) -> NumbersWalk<'a>
    ensures { BeginsNumbers L.takes L.list L.form L.values bytes.now result }
{
    NumbersWalk {
        bytes,
        payload: &[],
    }
}

/// The next number of the list, where there is one; the walk then goes on behind it. Records of
/// other numbers are passed over, and not looked into. Refused where the bytes are no records, nest
/// more than 100 groups, or have no numbers there, and so nowhere in a walk over bytes that were
/// read as the message; which leaves open where the walk is.
pub fn next_number<'a, L: NumberList>(
    walk: &mut NumbersWalk<'a>,
) -> Result<Option<L::Held>, DecodeError>
    ensures given { IfOk result (λ next. IfSome next (λ held.
        GivesNumber L.takes L.list L.form L.values walk.old walk.new (L.view held))) }
    ensures ended { IfOk result (λ next. IfNone next
        (EndsNumbers L.takes L.list L.form L.values walk.old)) }
    ensures err { OnErr result (LeadsNowhere L.takes L.list L.form L.values walk.old) }
{
    laws::records_in_order();
    laws::grammar::one_varint();
    while walk.payload.is_empty() {
        if walk.bytes.is_empty() {
            return Ok(None);
        }
        if let Some(held) = next_record::<L>(walk)? {
            return Ok(Some(held));
        }
    }
    let read = take_number(L::form(), &mut walk.payload)?;
    Ok(Some(L::held_of(read)))
}

// Reads the next record: gives its number, where it is one of the list; opens its payload, where
// it has those of the list; and else passes over it.
fn next_record<'a, L: NumberList>(
    walk: &mut NumbersWalk<'a>,
) -> Result<Option<L::Held>, DecodeError>
    requires none_open { length walk.old.payload.now ≡ 0 }
    requires more { 0 < length walk.old.bytes.now }
    ensures given { IfOk result (λ next. IfSome next (λ held.
        GivesNumber L.takes L.list L.form L.values walk.old walk.new (L.view held))) }
    ensures passed { IfOk result (λ next. IfNone next
        (LeadsOn L.takes L.list L.form L.values walk.old walk.new)) }
    ensures shorter { OnOk result (length walk.new.bytes.now < length walk.old.bytes.now) }
    ensures err { OnErr result (LeadsNowhere L.takes L.list L.form L.values walk.old) }
{
    laws::records_in_order();
    laws::grammar::no_payload_beside_fault();
    laws::grammar::no_delimited_beside_fault();
    let tag = Tag::decode(&mut walk.bytes)?;
    if tag.field_number() != L::number() {
        skip_field_depth(tag, &mut walk.bytes, RECURSION_LIMIT)?;
        return Ok(None);
    }
    match tag.wire_type() {
        WireType::LengthDelimited => {
            walk.payload = borrow_bytes(&mut walk.bytes)?;
            Ok(None)
        }
        _ => {
            let read = read_number(tag, L::form(), &mut walk.bytes)?;
            Ok(Some(L::held_of(read)))
        }
    }
}

/// `next_number`, for a caller in another language: 0 and the number, 1 where none is left, or the
/// number that `status_of` gives the error, which is from 2 on. Without 0 the walk and what is held
/// stay.
pub fn next_number_status<'a, L: NumberList>(walk: &mut NumbersWalk<'a>, held: &mut L::Held) -> u32
    ensures given { result ≡ 0 → GivesNumber L.takes L.list L.form L.values walk.old walk.new
        (L.view held.new) }
    ensures ended { result ≡ 1 → EndsNumbers L.takes L.list L.form L.values walk.old }
    ensures other { result ≢ 0 → result ≢ 1
        → LeadsNowhere L.takes L.list L.form L.values walk.old }
    ensures stays { result ≢ 0 → (walk.new ≡ walk.old) × (held.new ≡ held.old) }
{
    let mut next = *walk;
    match next_number::<L>(&mut next) {
        Ok(Some(number)) => {
            *walk = next;
            *held = number;
            0
        }
        Ok(None) => 1,
        Err(error) => status_of(&error),
    }
}
