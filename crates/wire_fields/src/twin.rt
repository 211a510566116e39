//! Copies of what a message holds, as contracts see it: the same.
ghost use Rattle.std.specs.Prelude.{◌≡◌, IfOk, map, option_map};
ghost use Rattle.wire_fields.specs.Maps.{viewed};
ghost use Rattle.wire_fields.specs.Messages.{boxed_value};

use crate::floats::{DoubleBits, FloatBits};
use std::alloc::AllocError;
use std::collections::BTreeMap;
use wire_codec::{EnumValue, Enumeration};

/// A type whose clones are the same, as contracts see them.
pub trait Twin: Clone {
    /// What contracts see of a value.
    ghost Seen: { Type 0 };

    ghost seen: { Self → Seen };

    ghost same: { (value copy : Self) → Self.is_clone value copy → seen copy ≡ seen value };
}

/// A type whose clones are equal to their sources, as an enum.
pub trait Plain: Clone {
    ghost equal: { (value copy : Self) → Self.is_clone value copy → copy ≡ value };
}

impl<E: Enumeration + Plain> Twin for EnumValue<E> {
    ghost use Rattle.wire_codec.specs.EnumValue.{EnumValue};
    ghost use Rattle.wire_fields.specs.Twins.{same_enum};

    ghost Seen = { EnumValue E };

    ghost seen = { λ x. x };

    ghost same = { same_enum E.equal Self.is_clone (λ x y h. h) (λ x n h. h) (λ m y h. h)
        (λ m n h. h) };
}

impl Twin for bool {
    ghost use Rattle.std.specs.Prelude.{Bool};

    ghost Seen = { Bool };

    ghost seen = { λ x. x };

    ghost same = { λ x copy e. e };
}

impl Twin for u32 {
    ghost use Rattle.std.specs.Prelude.{ℕ};

    ghost Seen = { ℕ };

    ghost seen = { λ x. x };

    ghost same = { λ x copy e. e };
}

impl Twin for u64 {
    ghost use Rattle.std.specs.Prelude.{ℕ};

    ghost Seen = { ℕ };

    ghost seen = { λ x. x };

    ghost same = { λ x copy e. e };
}

impl Twin for i32 {
    ghost use Rattle.std.specs.Prelude.{ℤ};

    ghost Seen = { ℤ };

    ghost seen = { λ x. x };

    ghost same = { λ x copy e. e };
}

impl Twin for i64 {
    ghost use Rattle.std.specs.Prelude.{ℤ};

    ghost Seen = { ℤ };

    ghost seen = { λ x. x };

    ghost same = { λ x copy e. e };
}

impl Twin for FloatBits {
    ghost use Rattle.wire_fields.specs.declared.floats.FloatBits.{FloatBits};

    ghost Seen = { FloatBits };

    ghost seen = { λ x. x };

    ghost same = { λ x copy e. e };
}

impl Twin for DoubleBits {
    ghost use Rattle.wire_fields.specs.declared.floats.DoubleBits.{DoubleBits};

    ghost Seen = { DoubleBits };

    ghost seen = { λ x. x };

    ghost same = { λ x copy e. e };
}

impl Twin for String {
    ghost use Rattle.std.specs.Prelude.{ℕ, List, string_bytes};

    ghost Seen = { List ℕ };

    ghost seen = { λ s. string_bytes s };

    ghost same = { λ s copy e. e };
}

impl Twin for Vec<u8> {
    ghost use Rattle.std.specs.Prelude.{ℕ, List};
    ghost use Rattle.std.specs.List.{each_same};

    ghost Seen = { List ℕ };

    ghost seen = { λ v. v.items };

    ghost same = { λ v copy h. each_same v.items copy.items h.0 };
}

/// A copy of numbers, or of other plain values. Refused where memory runs out.
pub fn copied_numbers<T: Copy>(numbers: &Vec<T>) -> Result<Vec<T>, AllocError>
    ensures { IfOk result (λ copy. copy.items ≡ numbers.now.items) }
{
    Vec::from_slice(*numbers.allocator(), numbers)
}

/// A copy of a value that may be absent. Refused where memory runs out.
pub fn copied_option<T: Twin>(value: &Option<T>) -> Result<Option<T>, AllocError>
    ensures { IfOk result (λ copy. option_map T.seen copy ≡ option_map T.seen value.now) }
{
    match value {
        Some(value) => Ok(Some(copied(value)?)),
        None => Ok(None),
    }
}

/// A copy of a value in a box, where there is one. Refused where memory runs out.
pub fn copied_box<T: Twin>(value: &Option<Box<T>>) -> Result<Option<Box<T>>, AllocError>
    ensures { IfOk result (λ copy. boxed_value T.seen copy ≡ boxed_value T.seen value.now) }
{
    match value {
        Some(value) => {
            let copy = copied::<T>(value)?;
            Ok(Some(Box::new(*Box::allocator(value), copy)?))
        }
        None => Ok(None),
    }
}

/// A copy of values in order. Refused where memory runs out.
pub fn copied_list<T: Twin>(values: &Vec<T>) -> Result<Vec<T>, AllocError>
    ensures { IfOk result (λ copy. map T.seen copy.items ≡ map T.seen values.now.items) }
{
    values.clone()
}

/// A copy of a map. Refused where memory runs out.
pub fn copied_map<K: Twin + Ord, V: Twin>(
    map: &BTreeMap<K, V>,
) -> Result<BTreeMap<K, V>, AllocError>
    ensures { IfOk result (λ copy. viewed K.seen V.seen copy.entries
        ≡ viewed K.seen V.seen map.now.entries) }
{
    map.clone()
}

/// A copy of a value. Refused where memory runs out.
pub fn copied<T: Twin>(value: &T) -> Result<T, AllocError>
    ensures { IfOk result (λ copy. T.seen copy ≡ T.seen value.now) }
{
    value.clone()
}
