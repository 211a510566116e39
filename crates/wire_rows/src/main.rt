//! Worked rows of the crates below. Standard input is a table with a row a line: a call, what it is
//! given, and the answer that is wanted. Each row is tried, and each that is astray is told. Lines
//! behind a line `mirror` are messages that are read and written again.
#![tactic(auto)]

mod agreements;
mod caches;
mod callers;
mod calls;
mod contexts;
mod counted;
mod enums;
mod errors;
mod extensions;
mod frames;
mod lists;
mod messages;
mod mirror;
mod narrow;
mod readers;
mod ropes;
mod row;
mod said;
mod scalars;
mod sinks;
mod table;
mod texts;
mod unknown;
mod views;

use std::io;
use std::io::Read;
use std::process::ExitCode;

fn main(rt: HostRuntime) -> io::Result<ExitCode> {
    let mut text = String::new(rt.alloc());
    rt.stdin().read_to_string(&mut text)?;
    table::run(&rt, &text)
}
