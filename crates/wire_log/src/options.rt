//! The words of the command line.
use clap::{Arg, ArgAction, ArgMatches, Command, Error};
use std::alloc::{AllocError, Global};
use wire_run::Source;

/// What is done with a log.
#[derive(Clone, Copy, Debug)]
pub(crate) enum Task {
    /// A line is printed for each frame, but for so many first ones.
    List { skip: u64 },
    /// The longest whole front is written.
    Repair,
    /// All whole frames are written but those whose payload is no records.
    DropBroken,
}

/// What is read, and what is done with it.
#[derive(Clone, Copy, Debug)]
pub(crate) struct Options<'a> {
    pub source: Source<'a>,
    pub task: Task,
    /// How many bytes a payload may have.
    pub limit: usize,
}

const ABOUT: &str = "Reads a log of Protocol Buffers messages, each behind its length, and prints \
    a line a frame: the byte where it begins, the length of its payload, and how many records \
    that is. Status 0: all is read and kept; 1: the log is broken; 2: these words; 3: the file \
    cannot be opened; 4: reading failed; 8: writing failed; 9: nobody reads the output; 10: no \
    memory.";

// Each flag, the one that it does not go with, if there is one, and its help.
const FLAGS: [(&str, &str, &str); 2] = [
    ("repair", "drop-broken", REPAIR),
    ("drop-broken", "", DROP_BROKEN),
];

const REPAIR: &str =
    "Write the longest front of whole frames whose payloads are records, as it stands";

const DROP_BROKEN: &str = "Write the whole frames whose payloads are records, as they stand, and \
    leave out those whose payload is none";

impl<'a> Options<'a> {
    /// The options of these words, of which the first is the program's name.
    pub(crate) fn parse(alloc: Global, words: &'a [String]) -> Result<Options<'a>, Error> {
        let matches = matches(alloc, words)?;
        Ok(Options {
            source: Source::named(matches.get_str("FILE")),
            task: task_of(&matches),
            limit: matches.get_one("limit").unwrap_or(67_108_864),
        })
    }
}

fn task_of(matches: &ArgMatches<'_>) -> Task {
    if matches.get_flag("repair") {
        return Task::Repair;
    }
    if matches.get_flag("drop-broken") {
        return Task::DropBroken;
    }
    Task::List {
        skip: matches.get_one("skip").unwrap_or(0),
    }
}

fn matches<'a>(alloc: Global, words: &'a [String]) -> Result<ArgMatches<'a>, Error> {
    let file = Arg::new(alloc, "FILE").help("The log; standard input without one, and for -");
    let command = Command::new(alloc, "wire_log")
        .version("1")
        .about(ABOUT)
        .arg(file)?;
    let command = with_flags(alloc, command)?;
    with_numbers(alloc, command)?.try_get_matches_from(words)
}

fn with_flags<'a>(alloc: Global, mut command: Command<'a>) -> Result<Command<'a>, AllocError> {
    for (name, other, help) in &FLAGS {
        let flag = Arg::new(alloc, name)
            .long(name)
            .action(ArgAction::SetTrue)
            .help(help);
        command = match *other {
            "" => command.arg(flag)?,
            other => command.arg(flag.conflicts_with(other)?)?,
        };
    }
    Ok(command)
}

fn with_numbers<'a>(alloc: Global, command: Command<'a>) -> Result<Command<'a>, AllocError> {
    command
        .arg(number(alloc, "skip", "0", "Frames that have no line"))?
        .arg(number(alloc, "limit", "67108864", "Bytes of a payload at most"))
}

fn number<'a>(alloc: Global, name: &'a str, default: &'a str, help: &'a str) -> Arg<'a> {
    Arg::new(alloc, name)
        .long(name)
        .value_name("N")
        .action(ArgAction::Set)
        .value_parser(clap::value_parser!(u64))
        .default_value(default)
        .help(help)
}
