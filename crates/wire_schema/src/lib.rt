//! The message types of schemas, and the words of which their files are made: names, kinds of
//! fields, and templates that are filled with them. Every function ends and is safe, for all
//! descriptors; none has a contract, since what is made of the words is proved by itself.
#![tactic(auto)]

mod closed;
mod closing;
mod comment;
mod default;
mod default_text;
mod entries;
mod enum_values;
mod error;
mod features;
mod field;
mod field_names;
mod graph;
mod holding;
mod item;
mod keeping;
mod kind;
mod message_type;
mod names;
mod oneof;
mod origin;
mod parameters;
mod places;
mod scalar;
mod schema;
mod split;
mod type_names;
mod view;
mod view_field;
mod words;

pub use enum_values::{NamedValue, values_of};
pub use error::GenerateError;
pub use features::{FIRST_EDITION, Features, LAST_EDITION};
pub use field::{Field, features_of, fields_of, set_field, started};
pub use message_type::{MessageType, Origin};
pub use names::{apart, constant_name, order_key, variant_name, word_name};
pub use oneof::{Oneof, put_apart};
pub use parameters::set_crate;
pub use schema::{EnumType, Extension, Schema, ServiceType};
pub use split::set_part;
pub use type_names::TypeNames;
pub use words::{Template, Words};
