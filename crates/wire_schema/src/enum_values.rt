//! The values of an enum, by their names in code.
use crate::error::GenerateError;
use crate::names::{apart, constant_name, value_name};
use std::alloc::Global;
use wire_descriptor::EnumDescriptorProto;

/// A value of an enum, or a further name of one, which is a constant.
#[derive(Drop)]
pub struct NamedValue {
    pub name: String,
    pub number: i32,
    pub is_alias: bool,
}

/// The values of an enum that code calls by this name, in the order of the schema. No two have one
/// name.
pub fn values_of(
    alloc: Global,
    type_name: &str,
    descriptor: &EnumDescriptorProto,
) -> Result<Vec<NamedValue>, GenerateError> {
    let mut values: Vec<NamedValue> = Vec::new(alloc);
    let mut names = Vec::new(alloc);
    names.push(String::from_str(alloc, type_name)?)?;
    for value in &descriptor.value {
        let is_alias = values.iter().any(|it| it.number == value.number);
        let mut name = if is_alias {
            constant_name(alloc, &value.name)?
        } else {
            value_name(alloc, &value.name)?
        };
        // (a clause has one name for one thing)
        if name.as_str() == type_name {
            name.push('_')?;
        }
        let name = apart(alloc, name, &names)?;
        names.push(name.clone()?)?;
        values.push(NamedValue {
            name,
            number: value.number,
            is_alias,
        })?;
    }
    Ok(values)
}
