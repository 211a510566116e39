//! The messages of `station.proto` for C: a static library without state and without requests for
//! memory. `rt lib` makes `out/libwire_station_c.a`; its header is `bindings/structs/station.h`.
//!
//! No call asks anything of what is handed to it: whatever the struct held before and the bytes
//! are, it reads and writes only what it is handed.
#![tactic(auto)]

mod report_sample;
mod station;
