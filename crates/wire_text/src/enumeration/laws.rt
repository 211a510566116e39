//! Laws of the values of enum fields: each function is a theorem, and does nothing.
ghost use Rattle.std.specs.Prelude.{◌≡◌, ℤ, Some, IsTrue};
ghost use Rattle.wire_text.specs.Enumeration.{same_value};
ghost use Rattle.wire_text.specs.declared.enumeration.EnumValue.{EnumValue};

use super::{EnumValue, Enumeration};
use std::hash::Hash;

/// A value that a number stands for has that number.
pub fn enum_value_keeps_its_number<E: Enumeration>()
    ensures { (n : ℤ) (e : E) → E.of_number n ≡ Some e → E.number e ≡ n }
{}

/// Values of enum fields are equal where both are known and the enum holds them equal, or both are
/// the same unknown number. A known value equals no unknown one.
pub fn enum_values_equal_by_variant<E: Enumeration>()
    ensures { (x y : EnumValue E) → ⟦<EnumValue<E> as PartialEq>⟧.eq x y ≡ same_value E.eq x y }
{}

/// Equal values of enum fields hash equally.
pub fn equal_enum_values_hash_equally<E: Enumeration>()
    ensures { (x y : EnumValue E) → IsTrue (same_value E.eq x y)
        → ⟦<EnumValue<E> as Hash>⟧.hash_input x ≡ ⟦<EnumValue<E> as Hash>⟧.hash_input y }
{}
