//! A descriptor set as data: its message types with their fields, and its enums with their values,
//! each found by its number and by its name; and a walk over records that tells of each which field
//! it is of.
#![tactic(auto)]

mod declared;
mod enum_type;
mod error;
mod extensions;
mod features;
mod field;
mod message_type;
mod places;
mod schema;
mod walk;
mod walking;

pub use declared::{Declared, DeclaredEnum, DeclaredExtension, DeclaredMessage};
pub use enum_type::EnumType;
pub use error::SchemaError;
pub use features::Features;
pub use field::{Field, Kind};
pub use message_type::MessageType;
pub use schema::Schema;
pub use walk::Walk;
pub use walking::Told;

#[cfg(test)]
mod tests;
