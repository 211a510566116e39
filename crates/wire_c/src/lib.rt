//! The reader and the writer of records for C: a static library without state and without requests
//! for memory. `rt lib` makes `out/libwire_c.a`; its header is `bindings/c/gettavil.h`.
//!
//! No call asks anything of what is handed to it: whatever the fields of a struct and the bytes
//! are, it reads and writes only what it is handed.
#![tactic(auto)]

mod number;
mod put;
mod read;
mod status;
mod whole;
