//! Open enums: a field keeps the number of a value that its enum does not know.
ghost use Rattle.std.specs.Prelude.{◌≡◌, ℕ, ℤ, pos, List, Option, Some, IfSome, is_some, is_none, ⊤};
ghost use Rattle.wire_text.specs.Enumeration.{number_of, known_value, known_or, is_known_as, value_text, value_debug};
ghost use Rattle.wire_text.specs.declared.enumeration.EnumValue.TheVariants.{Known};

pub(crate) mod laws;

use std::fmt;
use std::fmt::Debug;
use std::hash::Hash;

/// An enum whose values stand in message fields. A value has a number on the wire, and a name in
/// the enum's definition. For an enum that lists its values, `specs/EnumNumbers.antt` has
/// `of_number` and the proof of the law. See "Bools and Enums" of the encoding document.
pub trait Enumeration: Clone + Copy + PartialEq + Eq + Hash + Debug {
    /// The number of a value on the wire.
    ghost number: { Self → ℤ };

    /// The value that a number stands for, if the enum has one.
    ghost of_number: { ℤ → Option Self };

    /// The bytes of a value's name.
    ghost name: { Self → List ℕ };

    /// Holds of a value and each name by which it is found. A value may have names beside its own.
    ghost is_named: { Self → List ℕ → Type 0 } = { λ _ _. ⊤ };

    /// The value of a number, where the enum has one.
    fn from_i32(value: i32) -> Option<Self>
        ensures { result ≡ of_number value };

    /// The number of the value.
    fn to_i32(&self) -> i32
        ensures { result ≡ number self.now };

    /// The value's name in the enum's definition.
    fn proto_name(&self) -> &'static str
        ensures { result.now ≡ name self.now };

    /// The value with a name: none where no value has it, or the enum looks up no names.
    fn from_proto_name(_name: &str) -> Option<Self>
        ensures { IfSome result (λ value. is_named value _name.now) }
    {
        None
    }

    /// The enum's values in the order of their definition, where the enum lists them.
    fn values() -> &'static [Self] {
        &[]
    }

    /// A value that a number stands for has that number.
    ghost keeps_number: { (n : ℤ) (e : Self) → of_number n ≡ Some e → number e ≡ n };
}

/// The value of an enum field: one that the enum knows, or the number of one that it does not. See
/// "Bools and Enums" of the encoding document.
#[derive(Clone, Copy, PartialEq, Eq, Hash)]
pub enum EnumValue<E: Enumeration> {
    Known(E),
    Unknown(i32),
}

impl<E: Enumeration> EnumValue<E> {
    /// A value that the enum has.
    pub fn from_known(variant: E) -> EnumValue<E>
        ensures { result ≡ Known variant }
    {
        EnumValue::Known(variant)
    }

    /// The number on the wire.
    pub fn to_i32(&self) -> i32
        ensures { result ≡ number_of E.number self.now }
    {
        match self {
            EnumValue::Known(value) => value.to_i32(),
            EnumValue::Unknown(number) => *number,
        }
    }

    /// Whether the enum has the value.
    pub fn is_known(&self) -> bool
        ensures { result ≡ is_some (known_value self.now) }
    {
        matches!(self, EnumValue::Known(_))
    }

    /// Whether there is a number alone.
    pub fn is_unknown(&self) -> bool
        ensures { result ≡ is_none (known_value self.now) }
    {
        matches!(self, EnumValue::Unknown(_))
    }

    /// The value, where the enum has it.
    pub fn as_known(&self) -> Option<E>
        ensures { result ≡ known_value self.now }
    {
        match self {
            EnumValue::Known(value) => Some(*value),
            EnumValue::Unknown(_) => None,
        }
    }

    /// Whether this is a known value that equals the other, as the enum compares them.
    pub fn is(&self, other: E) -> bool
        ensures { result ≡ is_known_as E.eq self.now other }
    {
        match self {
            EnumValue::Known(value) => *value == other,
            EnumValue::Unknown(_) => false,
        }
    }
}

/// The known value of a number where the enum has one, and else the number.
impl<E: Enumeration> From<i32> for EnumValue<E> {
    ghost from_gives = { λ n value. value ≡ known_or (E.of_number n) n };

    fn from(number: i32) -> EnumValue<E>
        ensures value { result ≡ known_or (E.of_number number) number }
        ensures number { number_of E.number result ≡ number }
    {
        match E::from_i32(number) {
            Some(value) => EnumValue::Known(value),
            None => EnumValue::Unknown(number),
        }
    }
}

/// The value of the number 0.
impl<E: Enumeration> Default for EnumValue<E> {
    ghost is_default = { λ value. value ≡ known_or (E.of_number (pos 0)) (pos 0) };

    fn default() -> EnumValue<E>
        ensures value { result ≡ known_or (E.of_number (pos 0)) (pos 0) }
        ensures number { number_of E.number result ≡ pos 0 }
    {
        EnumValue::from(0)
    }
}

/// Writes the name of a known value, and else the number.
impl<E: Enumeration> fmt::Display for EnumValue<E> {
    ghost output = { λ value. Some (value_text E.name value) };

    fn fmt<W: fmt::Write>(&self, f: &mut fmt::Formatter<W>) -> fmt::Result {
        match self {
            EnumValue::Known(value) => f.write_str(value.proto_name()),
            EnumValue::Unknown(number) => write!(f, "{number}"),
        }
    }
}

impl<E: Enumeration> Debug for EnumValue<E> {
    ghost debug_output = { value_debug E.debug_output };

    fn fmt<W: fmt::Write>(&self, f: &mut fmt::Formatter<W>) -> fmt::Result {
        match self {
            EnumValue::Known(value) => Debug::fmt(value, f),
            EnumValue::Unknown(number) => write!(f, "Unknown({number})"),
        }
    }
}
