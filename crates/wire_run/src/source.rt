//! What is read.
ghost use Rattle.std.specs.Prelude.{◌≡◌, ◌≢◌, IfSome, IfNone, codes};

use std::fmt;

/// Where the input of a run comes from. It is printed as the file's name, or as `standard input`.
#[derive(Clone, Copy, Debug)]
pub enum Source<'a> {
    StandardInput,
    File(&'a str),
}

impl<'a> Source<'a> {
    /// The input that a word of the command line names; `-` is standard input, and so is no word.
    pub fn named(word: Option<&'a str>) -> Source<'a>
        ensures none { IfNone word.entry (result ≡ Source.StandardInput) }
        ensures dash { IfSome word.entry (λ name.
            name.now ≡ codes "-" → result ≡ Source.StandardInput) }
        ensures file { IfSome word.entry (λ name.
            name.now ≢ codes "-" → result ≡ Source.File name) }
    {
        match word {
            Some(name) if name != "-" => Source::File(name),
            _ => Source::StandardInput,
        }
    }
}

impl fmt::Display for Source<'_> {
    fn fmt<W: fmt::Write>(&self, f: &mut fmt::Formatter<W>) -> fmt::Result {
        match self {
            Source::StandardInput => f.write_str("standard input"),
            Source::File(name) => f.write_str(name),
        }
    }
}
