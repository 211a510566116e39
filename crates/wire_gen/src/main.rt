//! A plug-in of protoc: a request on standard input, and on standard output an answer, the files of
//! a crate with the message types of the schemas.
#![tactic(auto)]

mod c_folder;
mod c_library;
mod google_files;
mod groups;
mod json;
mod nests;
mod package;
mod roots;
mod split;
mod structs;
mod view;
mod view_nests;
mod well_known;

use std::io::{Read, Write};
use std::process::ExitCode;
use wire_schema::GenerateError;

fn main(rt: HostRuntime) -> ExitCode {
    let mut request = Vec::new(rt.alloc());
    if rt.stdin().read_to_end(&mut request).is_err() {
        return told(&rt, 3, "reading failed");
    }
    let answer = match package::answer(rt.alloc(), &request) {
        Ok(answer) => answer,
        Err(error) => return stopped(&rt, &error),
    };
    if rt.stdout().write_all(&answer.bytes).is_err() {
        return told(&rt, 4, "writing failed");
    }
    let _ = eprint!(&rt; "{}", answer.notes);
    ExitCode::SUCCESS
}

fn stopped(rt: &impl Eprint, error: &GenerateError) -> ExitCode {
    match error {
        GenerateError::Refused(why) => told(rt, 1, why),
        GenerateError::Request(error) => {
            let _ = eprintln!(rt; "wire_gen: no request of protoc: {error}");
            ExitCode::from(1)
        }
        GenerateError::Answer(error) => {
            let _ = eprintln!(rt; "wire_gen: the answer is too large: {error}");
            ExitCode::from(1)
        }
        GenerateError::OutOfMemory => told(rt, 5, "out of memory"),
    }
}

fn told(rt: &impl Eprint, status: u8, why: &str) -> ExitCode {
    let _ = eprintln!(rt; "wire_gen: {why}");
    ExitCode::from(status)
}
