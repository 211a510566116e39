//! Readers and writers that fail, stop, or move few bytes a call. They allocate nothing.
ghost use Rattle.std.specs.Prelude.{◌≤◌};

use std::io;
use std::io::{ErrorKind, Read, Write};

const SHELF: usize = 32;

/// How many bytes a device moves in a call at most, how many calls it answers so, and how it
/// answers the others: with an error of this kind, or by moving no byte.
#[derive(Clone, Copy, Debug)]
pub struct Habits {
    pub most_a_call: usize,
    pub good_calls: usize,
    pub failure: Option<ErrorKind>,
}

pub const WILLING: Habits = Habits {
    most_a_call: SHELF,
    good_calls: usize::MAX,
    failure: None,
};

pub const BY_BYTES: Habits = Habits {
    most_a_call: 1,
    ..WILLING
};

impl Habits {
    /// Fails behind so many calls.
    pub fn failing(self, good_calls: usize, kind: ErrorKind) -> Habits {
        Habits {
            good_calls,
            failure: Some(kind),
            ..self
        }
    }

    /// Moves no byte behind so many calls.
    pub fn stopping(self, good_calls: usize) -> Habits {
        Habits {
            good_calls,
            failure: None,
            ..self
        }
    }

    // Whether one more call is answered well.
    fn answers(&mut self) -> bool {
        let is_good = self.good_calls > 0;
        self.good_calls = self.good_calls.saturating_sub(1);
        is_good
    }
}

/// A reader of these bytes.
#[derive(Drop)]
pub struct Source<'a> {
    left: &'a [u8],
    habits: Habits,
}

impl<'a> Source<'a> {
    pub fn new(bytes: &'a [u8], habits: Habits) -> Source<'a> {
        Source {
            left: bytes,
            habits,
        }
    }
}

impl Read for Source<'_> {
    fn read(&mut self, buf: &mut [u8]) -> io::Result<usize> {
        if !self.habits.answers() {
            return match self.habits.failure {
                None => Ok(0),
                Some(kind) => Err(io::Error::from(kind)),
            };
        }
        let count = buf.len().min(self.habits.most_a_call);
        self.left.read(&mut buf[..count])
    }
}

/// A writer that keeps what it takes.
#[derive(Drop)]
pub struct Shelf {
    bytes: [u8; SHELF],
    len: usize,
    habits: Habits,
    ghost within: { len ≤ 32 },
}

impl Shelf {
    pub fn new(habits: Habits) -> Shelf {
        Shelf {
            bytes: [0; SHELF],
            len: 0,
            habits,
        }
    }

    pub fn taken(&self) -> &[u8] {
        &self.bytes[..self.len]
    }
}

impl Write for Shelf {
    fn write(&mut self, buf: &[u8]) -> io::Result<usize> {
        if !self.habits.answers() {
            return match self.habits.failure {
                None => Ok(0),
                Some(kind) => Err(io::Error::from(kind)),
            };
        }
        let left = SHELF.saturating_sub(self.len);
        let count = buf.len().min(self.habits.most_a_call).min(left);
        self.bytes[self.len..self.len + count].copy_from_slice(&buf[..count]);
        self.len += count;
        Ok(count)
    }

    fn flush(&mut self) -> io::Result<()> {
        let is_good = self.habits.answers();
        match self.habits.failure {
            Some(kind) if !is_good => Err(io::Error::from(kind)),
            _ => Ok(()),
        }
    }
}
