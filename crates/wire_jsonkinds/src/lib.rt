//! What generated messages hold, as scalars of the JSON mapping: floats by their bits, and values
//! of enums. `CALLING.md` shows a message type.
#![tactic(auto)]

mod closed_enum;
mod enum_value;
mod floats;
mod numbered;

pub use closed_enum::ClosedNamed;
pub use enum_value::{EnumNamed, JsonNames};
pub use floats::{Double, Float};
pub use numbered::{ClosedNumbered, EnumNumbered};
