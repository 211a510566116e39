//! Message types as a compiler of schemas would write them, proved to encode and to decode what
//! they say.
#![tactic(auto)]

mod gauge;
pub mod laws;
mod node;
mod person;
mod repeat;
mod rule;
mod unknown_spans;

pub use gauge::Gauge;
pub use node::Node;
pub use person::Person;
pub use repeat::Repeat;
pub use rule::{Rule, RuleTest};
pub use unknown_spans::person_unknowns;
