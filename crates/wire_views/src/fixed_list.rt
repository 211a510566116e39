//! Packed lists of numbers of four or eight bytes each, which stay where they were read.
ghost use Rattle.std.specs.Prelude.{◌≡◌, ◌==◌, IfOk, length, slice_get};
ghost use Rattle.wire_views.specs.FixedLists.{list_values, values_left};
ghost use Rattle.wire_views.specs.FixedNumbers.{values_in};

use crate::fixed_numbers::{count, number_at, take_number};
use std::alloc::{AllocError, Global};
use wire_fields::{Number, Numeric, Scalar, copied_numbers};

/// A packed list of `fixed32`, `fixed64`, `sfixed32`, `sfixed64`, `float` or `double`, as
/// `FixedIn` holds it.
#[derive(Drop)]
#[derive_where(Debug; S::Held)]
pub enum FixedList<'a, S: Scalar> {
    /// The payload of the one record that the numbers came in.
    InPlace(&'a [u8]),
    /// The numbers of several records, or of records of one number each.
    Listed(Vec<S::Held>),
}

impl<'a, N: Number> FixedList<'a, Numeric<N>> {
    /// How many numbers there are.
    pub fn len(&self) -> usize
        ensures { result ≡ length (list_values N.form N.map self.now) }
    {
        match self {
            FixedList::InPlace(payload) => count(N::form(), payload),
            FixedList::Listed(values) => values.len(),
        }
    }

    /// Whether there is no number.
    pub fn is_empty(&self) -> bool
        ensures { result ≡ (length (list_values N.form N.map self.now) == 0) }
    {
        self.len() == 0
    }

    /// The number at a place, if there is one.
    pub fn get(&self, index: usize) -> Option<N::Value>
        ensures { result ≡ slice_get (list_values N.form N.map self.now) index }
    {
        match self {
            FixedList::InPlace(payload) => value_at::<N>(payload, index),
            FixedList::Listed(values) => values.get(index).copied(),
        }
    }

    /// The numbers, in order.
    pub fn iter(&self) -> FixedNumbers<'_, N>
        ensures { values_left N.form N.map result ≡ list_values N.form N.map self.now }
    {
        match self {
            FixedList::InPlace(payload) => FixedNumbers {
                bytes: payload,
                values: &[],
            },
            FixedList::Listed(values) => FixedNumbers { bytes: &[], values },
        }
    }

    /// The same numbers in a list of their own. Refused where memory runs out.
    pub fn to_vec(&self, alloc: Global) -> Result<Vec<N::Value>, AllocError>
        ensures { IfOk result (λ values. values.items ≡ list_values N.form N.map self.now) }
    {
        match self {
            FixedList::InPlace(payload) => values_of::<N>(alloc, payload),
            FixedList::Listed(values) => copied_numbers(values),
        }
    }
}

// The value of the number at a place, if there is one.
fn value_at<N: Number>(payload: &[u8], index: usize) -> Option<N::Value>
    ensures { result ≡ slice_get (values_in N.form N.map payload.now) index }
{
    match number_at(N::form(), payload, index) {
        Some(number) => Some(N::value_of(number)),
        None => None,
    }
}

/// The values of the numbers of a payload.
pub(crate) fn values_of<N: Number>(
    alloc: Global,
    payload: &[u8],
) -> Result<Vec<N::Value>, AllocError>
    ensures { IfOk result (λ values. values.items ≡ values_in N.form N.map payload.now) }
{
    let form = N::form();
    let mut values = Vec::with_capacity(alloc, count(form, payload))?;
    let mut rest = payload;
    while let Some(number) = take_number(form, &mut rest) {
        values.push(N::value_of(number))?;
    }
    Ok(values)
}

/// The numbers of a `FixedList`, in order.
#[derive(Drop)]
pub struct FixedNumbers<'a, N: Number> {
    bytes: &'a [u8],
    values: &'a [N::Value],
}

impl<'a, N: Number> Iterator for FixedNumbers<'a, N> {
    ghost use Rattle.std.specs.Iterator.{YieldsFirst, item_count};

    type Item = N::Value;

    ghost next_gives = { YieldsFirst (values_left N.form N.map) };

    ghost remaining = { item_count (values_left N.form N.map) };

    fn next(&mut self) -> Option<N::Value> {
        if let Some(number) = take_number(N::form(), &mut self.bytes) {
            return Some(N::value_of(number));
        }
        let (first, others) = self.values.split_first()?;
        self.values = others;
        Some(*first)
    }
}
