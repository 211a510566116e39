//! Work of the crates below that is counted in instructions: a static library for a program in C or
//! Rust.
//!
//! Each function takes bytes, does its work so many times, and answers what the last round gave: 0
//! where a call was refused, and where there was no round. A count of three rounds less one of two
//! is the cost of a round, in which nothing counts that is made once before. `rt lib` builds
//! `out/libwire_bench.a`; a program that declares the functions as `extern "C"`, with a pointer, a
//! length and a number of rounds, is then run under `valgrind --tool=callgrind`.
#![tactic(auto)]

mod albums;
mod json;
mod messages;
mod puts;
mod reports;
mod ropes;
mod strings;
mod unknown;
mod varints;
