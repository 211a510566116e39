//! The reader of records for a page: a module without state and without requests for memory.
//! `page/build` compiles it for WebAssembly.
//!
//! No call asks anything of what is handed to it: whatever the fields of a struct and the bytes
//! are, it reads and writes only what it is handed.
#![tactic(auto)]

mod events;
mod record;
mod stop;
mod whole;
