//! What is written of the structs of messages for C: their code, definitions and proofs, the header,
//! and the crate of Rust over it. Every function ends and is safe, for all descriptors; none has a
//! contract, since what is written is proved by itself.
#![tactic(auto)]

pub mod c_comment;
pub mod c_enum;
pub mod c_header;
pub mod c_oneof;
pub mod c_told;
pub mod rust_calls;
pub mod rust_enum;
pub mod rust_oneof;
pub mod rust_structs;
pub mod rust_written;
pub mod struct_answers;
pub mod struct_calls;
pub mod struct_code;
pub mod struct_definitions;
pub mod struct_fields;
pub mod struct_heads;
pub mod struct_inside;
pub mod struct_layout;
pub mod struct_left_out;
pub mod struct_lists;
pub mod struct_mixed;
pub mod struct_numbers;
pub mod struct_oneof;
pub mod struct_oneof_answers;
pub mod struct_oneof_code;
pub mod struct_oneof_definitions;
pub mod struct_parts;
pub mod struct_ranges;
pub mod struct_trees;
