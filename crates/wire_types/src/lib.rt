//! The code and the proofs that are written of message types and of their views: what stands in
//! `src/` and `proofs/` of their crate. Every function ends and is safe, for all descriptors; none
//! has a contract, since what is written is proved by itself.
#![tactic(auto)]

pub mod answers;
pub mod arms;
pub mod breaks;
pub mod choice_answers;
pub mod choice_code;
pub mod code;
pub mod copies;
pub mod copies_answers;
pub mod defaults;
pub mod empty_answers;
pub mod enums;
pub mod extensions;
pub mod family;
pub mod family_code;
pub mod family_names;
pub mod field_rows;
pub mod groups;
pub mod layout;
pub mod leaf_empty_answers;
pub mod leaf_groups;
pub mod many_rows;
pub mod member;
pub mod oneof;
pub mod oneof_proofs;
pub mod other_rows;
pub mod own_clone;
pub mod recursive;
pub mod rest_answers;
pub mod row_answers;
pub mod services;
pub mod view_answers;
pub mod view_choice;
pub mod view_choice_answers;
pub mod view_code;
pub mod view_family;
pub mod view_oneof;
pub mod view_owned;
pub mod view_recursive;
pub mod view_row_answers;
pub mod view_rows;
pub mod view_written;
pub mod written;
