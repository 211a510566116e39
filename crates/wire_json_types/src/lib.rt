//! What is written of the JSON of messages: the code and the definitions of a crate beside that of
//! the messages. Every function ends and is safe, for all descriptors; none has a contract, since
//! what is written is proved by itself.
#![tactic(auto)]

mod enum_items;
pub mod enums;
mod items;
mod keys;
mod kinds;
pub mod left_out;
pub mod member_proofs;
mod members;
pub mod messages;
mod oneof_part;
pub mod oneofs;
mod parts;
mod tables;
pub mod well_known;
mod written;
