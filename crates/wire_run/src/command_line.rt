//! The words of a command line.
use crate::error::{RunError, write_error};
use std::alloc::Global;
use std::env;
use std::io::ErrorKind;
use std::rt::Env;

/// The words of the command line, the program's name first. Words that are no UTF-8 text are
/// `Usage`, and the line of why is printed then.
pub fn words(
    rt: &(impl Env + Alloc<A = Global> + Eprint),
    program: &str,
) -> Result<Vec<String>, RunError> {
    let mut words = Vec::new(rt.alloc());
    match env::args(rt) {
        Ok(args) => {
            for word in args {
                words.push(word)?;
            }
            Ok(words)
        }
        Err(error) if error.kind() == ErrorKind::OutOfMemory => Err(RunError::OutOfMemory),
        Err(_) => {
            let _ = eprintln!(rt; "{program}: a word of the command line is no UTF-8 text");
            Err(RunError::Usage)
        }
    }
}

/// Prints what a parse of the words gives in place of matches: help and the version on standard
/// output, after which all is done, and a mistake in the words on standard error.
pub fn answer_words(rt: &(impl Print + Eprint), error: &clap::Error) -> Result<(), RunError> {
    if error.kind() == clap::error::ErrorKind::OutOfMemory {
        return Err(RunError::OutOfMemory);
    }
    if error.use_stderr() {
        let _ = error.print(rt);
        return Err(RunError::Usage);
    }
    match error.print(rt) {
        Ok(()) => Ok(()),
        Err(error) => Err(write_error(error)),
    }
}
