//! An enum, with its values by their numbers and by their names.
ghost use Rattle.std.specs.Prelude.{◌≡◌, IfOk, string_bytes, option_map};
ghost use Rattle.std.specs.BTreeMap.{get, get_by_text};
ghost use Rattle.std.specs.Ordering.{int_cmp};
ghost use Rattle.wire_dynamic.specs.Enums.{value_has_name, value_has_number, IsEnum};
ghost use Rattle.wire_dynamic.specs.Table.{IsTableOf};

use crate::declared::DeclaredEnum;
use std::alloc::{AllocError, Global};
use std::collections::BTreeMap;
use wire_descriptor::EnumValueDescriptorProto;

/// An enum of a schema.
#[derive(Drop)]
pub struct EnumType {
    name: String,
    is_closed: bool,
    names: BTreeMap<i32, String>,
    numbers: BTreeMap<String, i32>,
}

impl EnumType {
    /// The one that is declared. Of several names of one number, and of several numbers of one
    /// name, the first counts.
    pub(crate) fn of(alloc: Global, of_enum: &DeclaredEnum) -> Result<EnumType, AllocError>
        ensures { IfOk result (IsEnum of_enum.now) }
    {
        let name = of_enum.name.clone()?;
        let is_closed = of_enum.features.is_closed();
        let names = names_of(alloc, &of_enum.descriptor.value)?;
        let numbers = numbers_of(alloc, &of_enum.descriptor.value)?;
        Ok(EnumType {
            name,
            is_closed,
            names,
            numbers,
        })
    }

    /// Its full name, as `.package.Outer.Inner`.
    pub fn name(&self) -> &str
        ensures { result.now ≡ string_bytes self.now.name }
    {
        self.name.as_str()
    }

    /// Whether no other numbers than those of its values are its values.
    pub fn is_closed(&self) -> bool
        ensures { result ≡ self.now.is_closed }
    {
        self.is_closed
    }

    /// The first name of this number, if it has one.
    pub fn value_name(&self, number: i32) -> Option<&str>
        ensures { option_map (λ name. name.now) result
            ≡ option_map string_bytes (get int_cmp self.now.names number) }
    {
        match self.names.get(&number) {
            Some(name) => Some(name.as_str()),
            None => None,
        }
    }

    /// The number of this name, if it has one.
    pub fn value_number(&self, name: &str) -> Option<i32>
        ensures { result ≡ get_by_text self.now.numbers name.now }
    {
        self.numbers.get(name).copied()
    }
}

// The names of values by their numbers.
fn names_of(
    alloc: Global,
    values: &[EnumValueDescriptorProto],
) -> Result<BTreeMap<i32, String>, AllocError>
    ensures { IfOk result (λ names. IsTableOf value_has_number
        (λ v name. string_bytes name ≡ string_bytes v.name) values.now (get int_cmp names)) }
{
    let mut names = BTreeMap::new(alloc);
    for value in values {
        if names.contains_key(&value.number) {
            continue;
        }
        names.insert(value.number, value.name.clone()?)?;
    }
    Ok(names)
}

// The numbers of values by their names.
fn numbers_of(
    alloc: Global,
    values: &[EnumValueDescriptorProto],
) -> Result<BTreeMap<String, i32>, AllocError>
    ensures { IfOk result (λ numbers. IsTableOf value_has_name (λ v number. number ≡ v.number)
        values.now (get_by_text numbers)) }
{
    let mut numbers = BTreeMap::new(alloc);
    for value in values {
        if numbers.contains_key(value.name.as_str()) {
            continue;
        }
        numbers.insert(value.name.clone()?, value.number)?;
    }
    Ok(numbers)
}
