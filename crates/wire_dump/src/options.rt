//! The words of the command line.
use clap::{Arg, ArgAction, ArgMatches, Command, Error};
use std::alloc::{AllocError, Global};
use wire_codec::DecodeContext;
use wire_run::Source;

/// How the bytes of the input are written.
#[derive(Clone, Copy, Debug, PartialEq)]
pub(crate) enum Notation {
    Plain,
    Hexadecimal,
    Base64,
}

/// What is read, within which limits, and what is printed of it.
#[derive(Drop)]
pub(crate) struct Options<'a> {
    pub(crate) source: Source<'a>,
    pub(crate) notation: Notation,
    /// How many bytes the input may have.
    pub(crate) size: u64,
    pub(crate) context: DecodeContext,
    pub(crate) has_offsets: bool,
    pub(crate) is_shortest: bool,
    pub(crate) is_delimited: bool,
    /// The file of the descriptor set, where there is a schema.
    pub(crate) descriptor_set: Option<&'a str>,
    /// The full name of the type of the messages.
    pub(crate) type_name: Option<&'a str>,
    pub(crate) is_strict: bool,
}

const ABOUT: &str = "Prints the records of Protocol Buffers bytes, without a schema or with one, \
    and says at which byte and why broken ones are broken. Status 0: all is printed; 1: the bytes \
    are no records; 2: these words; 3: the file cannot be opened; 4: reading failed; 5: the input \
    is too long; 6: no hexadecimal text; 8: writing failed; 9: nobody reads the output; 10: no \
    memory; 11: no base64 text; 12: no descriptor set; 13: it has no such type; 14: a record does \
    not fit its field.";

const HEX: &str = "The input is hexadecimal text, spaces between bytes or none";

const BASE64: &str = "The input is base64 text, of either alphabet, padded or not";

const OFFSETS: &str =
    "Print which bytes each line is of, as 12..15 for those from 12 to before 15. \
    The line before a message is of its tag and length, the line behind it of none; those of a \
    group are of its tags. So each byte is of one line";

const SHORTEST: &str = "Write the records as bytes again, with no varint padded, in place of \
    lines; of broken bytes nothing";

const DELIMITED: &str = "The input is a log: messages one after another, each behind its length";

const STRICT: &str = "Stop at the first record that does not fit its field";

const SET: &str = "A descriptor set, as protoc --descriptor_set_out --include_imports writes it: \
    fields are named, and values are of their types";

const TYPE: &str = "The full name of the type of the messages, as package.Type; without it the \
    types of the descriptor set are listed";

// Each flag, the one that it does not go with, if there is one, and its help.
const FLAGS: [(&str, &str, &str); 5] = [
    ("hex", "base64", HEX),
    ("base64", "", BASE64),
    ("offsets", "shortest", OFFSETS),
    ("shortest", "", SHORTEST),
    ("delimited", "shortest", DELIMITED),
];

const MOST: &str = "18446744073709551615";

// Each limit, what it is unless it is given, and its help.
const LIMITS: [(&str, &str, &str); 4] = [
    ("depth", "100", "Levels of groups, at most 100"),
    ("fields", MOST, "Records at most"),
    ("bytes", MOST, "Bytes of payloads at most"),
    ("size", "67108864", "Bytes of input at most"),
];

impl<'a> Options<'a> {
    /// The options of these words, of which the first is the program's name.
    pub(crate) fn parse(alloc: Global, words: &'a [String]) -> Result<Options<'a>, Error> {
        let matches = matches(alloc, words)?;
        Ok(Options {
            source: Source::named(matches.get_str("FILE")),
            notation: notation_of(&matches),
            size: matches.get_one("size").unwrap_or(67_108_864),
            context: context(&matches),
            has_offsets: matches.get_flag("offsets"),
            is_shortest: matches.get_flag("shortest"),
            is_delimited: matches.get_flag("delimited"),
            descriptor_set: matches.get_str("descriptor_set"),
            type_name: matches.get_str("type"),
            is_strict: matches.get_flag("strict"),
        })
    }
}

fn notation_of(matches: &ArgMatches<'_>) -> Notation {
    if matches.get_flag("hex") {
        return Notation::Hexadecimal;
    }
    if matches.get_flag("base64") {
        return Notation::Base64;
    }
    Notation::Plain
}

fn context(matches: &ArgMatches<'_>) -> DecodeContext {
    let depth = matches.get_one("depth").unwrap_or(100);
    let fields = matches.get_one("fields").unwrap_or(usize::MAX);
    let bytes = matches.get_one("bytes").unwrap_or(usize::MAX);
    DecodeContext::new(depth, fields).with_unknown_bytes(bytes)
}

fn matches<'a>(alloc: Global, words: &'a [String]) -> Result<ArgMatches<'a>, Error> {
    let file = Arg::new(alloc, "FILE").help("What to read; standard input without one, and for -");
    let command = Command::new(alloc, "wire_dump")
        .version("1")
        .about(ABOUT)
        .arg(file)?
        .arg(named(alloc, "descriptor_set", "FILE", SET)?)?
        .arg(named(alloc, "type", "NAME", TYPE)?.requires_arg("descriptor_set")?)?
        .arg(flag(alloc, "strict", "shortest", STRICT)?.requires_arg("descriptor_set")?)?;
    let command = with_flags(alloc, command)?;
    with_limits(alloc, command)?.try_get_matches_from(words)
}

fn with_flags<'a>(alloc: Global, mut command: Command<'a>) -> Result<Command<'a>, AllocError> {
    for (name, other, help) in &FLAGS {
        command = command.arg(flag(alloc, name, other, help)?)?;
    }
    Ok(command)
}

fn with_limits<'a>(alloc: Global, mut command: Command<'a>) -> Result<Command<'a>, AllocError> {
    for (name, default, help) in &LIMITS {
        command = command.arg(limit(alloc, name, default, help))?;
    }
    Ok(command)
}

fn flag<'a>(
    alloc: Global,
    name: &'a str,
    other: &'a str,
    help: &'a str,
) -> Result<Arg<'a>, AllocError> {
    let flag = Arg::new(alloc, name)
        .long(name)
        .action(ArgAction::SetTrue)
        .help(help);
    if other.is_empty() {
        return Ok(flag);
    }
    flag.conflicts_with(other)
}

fn named<'a>(
    alloc: Global,
    name: &'a str,
    value: &'a str,
    help: &'a str,
) -> Result<Arg<'a>, AllocError> {
    Arg::new(alloc, name)
        .long(name)
        .value_name(value)
        .action(ArgAction::Set)
        .help(help)
        .conflicts_with("shortest")
}

fn limit<'a>(alloc: Global, name: &'a str, default: &'a str, help: &'a str) -> Arg<'a> {
    Arg::new(alloc, name)
        .long(name)
        .value_name("N")
        .action(ArgAction::Set)
        .value_parser(clap::value_parser!(u64))
        .default_value(default)
        .help(help)
}
