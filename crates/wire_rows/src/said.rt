//! What a row says of its call, in the words of the table.
use crate::row::Row;
use bytes::Buf;
use std::alloc::{AllocError, Global};
use std::fmt;
use std::fmt::{Debug, Write};
use std::hash::{DefaultHasher, Hash, Hasher};
use wire_codec::{DecodeContext, DecodeError, EncodeError};

/// What a row finds: the wanted answer, want of memory, or anything else.
#[derive(Clone, Copy)]
pub enum Found {
    Own,
    OutOfMemory,
    Other,
}

/// Why a call refuses, which can be for want of memory.
pub trait Refusal: Debug + PartialEq + From<AllocError> + Drop {}

impl Refusal for DecodeError {}

impl Refusal for EncodeError {}

/// What a row says. Once memory was wanting it says nothing more, and nothing more is expected.
#[derive(Drop)]
pub struct Said {
    pub alloc: Global,
    text: String,
    wants_memory: bool,
    // What is not as it should be.
    astray: Option<&'static str>,
}

impl Said {
    pub fn new(alloc: Global) -> Said {
        Said {
            alloc,
            text: String::new(alloc),
            wants_memory: false,
            astray: None,
        }
    }

    pub fn clear(&mut self) {
        self.text.clear();
        self.wants_memory = false;
        self.astray = None;
    }

    /// What was said, and what is not as it should be.
    pub fn told(&self) -> (&str, Option<&'static str>) {
        (self.text.as_str(), self.astray)
    }

    pub fn found(&self, answer: &str) -> Found {
        if self.astray.is_some() {
            Found::Other
        } else if self.wants_memory {
            Found::OutOfMemory
        } else if self.text.as_str() == answer {
            Found::Own
        } else {
            Found::Other
        }
    }

    // ---- words

    pub fn word(&mut self, word: &str) {
        if self.text.push_str(word).is_err() {
            self.wants_memory = true;
        }
    }

    pub fn show<T: Debug>(&mut self, value: &T) {
        let text = &mut self.text;
        if write!(text, "{value:?}").is_err() {
            self.wants_memory = true;
        }
    }

    /// A value behind a word.
    pub fn also<T: Debug>(&mut self, word: &str, value: &T) {
        self.word(word);
        self.show(value);
    }

    /// Whether what a call left is as it should be.
    pub fn expect(&mut self, holds: bool, what: &'static str) {
        if !holds && !self.wants_memory && self.astray.is_none() {
            self.astray = Some(what);
        }
    }

    // ---- answers

    /// What was made, where there was memory.
    pub fn made<T: Drop, E: Drop>(&mut self, answer: Result<T, E>) -> Option<T> {
        match answer {
            Ok(made) => Some(made),
            Err(_) => {
                self.wants_memory = true;
                None
            }
        }
    }

    /// A copy of the bytes; none where memory is wanting.
    pub fn copied(&mut self, bytes: &[u8]) -> Vec<u8> {
        let alloc = self.alloc;
        match self.made(Vec::from_slice(alloc, bytes)) {
            Some(copy) => copy,
            None => Vec::new(alloc),
        }
    }

    /// The refusal of a call.
    pub fn refuse<E: Refusal>(&mut self, error: E) {
        if error == E::from(AllocError) {
            self.wants_memory = true;
        } else {
            self.show(&error);
        }
    }

    /// What a call answers; where it refuses, that is said.
    pub fn answered<T: Drop, E: Refusal>(&mut self, answer: Result<T, E>) -> Option<T> {
        match answer {
            Ok(value) => Some(value),
            Err(error) => {
                self.refuse(error);
                None
            }
        }
    }

    /// Shows what a call answers, or the refusal.
    pub fn show_answer<T: Debug + Drop, E: Refusal>(&mut self, answer: Result<T, E>) {
        if let Some(value) = self.answered(answer) {
            self.show(&value);
        }
    }

    /// How many bytes are left, where some are.
    pub fn left(&mut self, left: usize) {
        if left > 0 {
            self.also(", ", &left);
            self.word(" left");
        }
    }

    /// The word that was made, where there was memory.
    pub fn made_word<E: Drop>(&mut self, answer: Result<String, E>) {
        if let Some(word) = self.made(answer) {
            self.word(&word);
        }
    }

    /// What a call read and how many bytes it left, or why it refused.
    pub fn read<T: Debug + Drop, B: Buf>(&mut self, answer: Result<T, DecodeError>, buf: &B) {
        if let Some(value) = self.answered(answer) {
            self.show(&value);
            self.left(buf.remaining());
        }
    }

    /// The bytes that are written of those that were given.
    pub fn written(&mut self, written: &[u8], given: &[u8]) {
        if written.is_empty() {
            self.word("nothing");
        } else if written == given {
            self.word("itself");
        } else {
            self.show(&Hex(written));
        }
    }

    /// What is left of the limits that a row names.
    pub fn limits(&mut self, row: &Row<'_>, context: &DecodeContext) {
        let is_named = row.word("slots").is_some();
        let slots = is_named.then_some(context.remaining_unknown_fields());
        let limits = [
            (slots, " slots"),
            (context.remaining_unknown_bytes(), " for payloads"),
            (context.remaining_element_memory(), " for elements"),
        ];
        for (left, of) in limits {
            if let Some(left) = left {
                self.also(", ", &left);
                self.word(of);
            }
        }
    }
}

/// Bytes, two digits each.
#[derive(Clone, Copy)]
pub struct Hex<'a>(pub &'a [u8]);

impl Debug for Hex<'_> {
    fn fmt<W: Write>(&self, f: &mut fmt::Formatter<W>) -> fmt::Result {
        for (index, byte) in self.0.iter().enumerate() {
            let space = if index > 0 { " " } else { "" };
            write!(f, "{space}{byte:02X}")?;
        }
        Ok(())
    }
}

/// Bytes, two digits each with nothing between them, and `-` for no bytes.
#[derive(Clone, Copy)]
pub struct Digits<'a>(pub &'a [u8]);

impl Debug for Digits<'_> {
    fn fmt<W: Write>(&self, f: &mut fmt::Formatter<W>) -> fmt::Result {
        if self.0.is_empty() {
            f.write_str("-")?;
        }
        for byte in self.0 {
            write!(f, "{byte:02x}")?;
        }
        Ok(())
    }
}

/// The hash of a value.
pub fn hash_of<T: Hash>(value: &T) -> u64 {
    let mut state = DefaultHasher::new();
    value.hash(&mut state);
    state.finish()
}
