//! A row of the table, `call words | bytes | answer`, and what it gives its call.
use crate::said::Said;
use std::alloc::Global;
use std::str::FromStr;
use wire_codec::{DecodeContext, DecodeOptions, encode_varint};

/// What a row gives its call.
#[derive(Clone, Copy)]
pub struct Row<'a> {
    pub call: &'a str,
    /// The words before the bytes, in their order.
    pub words: &'a str,
    pub bytes: &'a [u8],
    ends: &'a [usize],
    /// What is wanted.
    pub answer: &'a str,
}

/// A word `KIND:TEXT*N`; without `*N` it stands once.
#[derive(Clone, Copy)]
pub struct Step<'a> {
    pub kind: &'a str,
    pub text: &'a str,
    pub times: u32,
}

impl<'a> Step<'a> {
    pub fn parse(word: &'a str) -> Step<'a> {
        let (word, times) = word.split_once('*').unwrap_or((word, "1"));
        let (kind, text) = word.split_once(':').unwrap_or((word, ""));
        let times = times.parse().unwrap_or(1);
        Step { kind, text, times }
    }

    pub fn number<T: FromStr<Err: Drop> + Default + Drop>(&self) -> T {
        self.text.parse().unwrap_or(T::default())
    }
}

impl<'a> Row<'a> {
    /// What stands behind `name=`.
    pub fn word(&self, name: &str) -> Option<&'a str> {
        for word in self.words.split(' ') {
            if let Some((given, text)) = word.split_once('=') {
                if given == name {
                    return Some(text);
                }
            }
        }
        None
    }

    /// The number behind `name=`.
    pub fn number<T: FromStr<Err: Drop>>(&self, name: &str) -> Option<T> {
        self.word(name)?.parse().ok()
    }

    /// The value of a scalar, behind `value=`; its default without one.
    pub fn value<T: FromStr<Err: Drop> + Default + Drop>(&self) -> T {
        self.number("value").unwrap_or(T::default())
    }

    /// The bytes behind `onto=`, two digits each and eight bytes at most.
    pub fn onto(&self, said: &mut Said) -> Vec<u8> {
        let word = self.word("onto").unwrap_or("");
        let number = u64::from_str_radix(word, 16).unwrap_or(0);
        let unused = 8usize.saturating_sub(word.len() / 2);
        let bytes = number.to_be_bytes();
        said.copied(bytes.get(unused..).unwrap_or(&[]))
    }

    /// How many spans there are.
    pub fn span_count(&self) -> usize {
        self.ends.len()
    }

    /// The bytes up to each `/`, and behind the last.
    pub fn span(&self, index: usize) -> &'a [u8] {
        let end = self.ends.get(index).copied().unwrap_or(0);
        let start = match index.checked_sub(1) {
            Some(before) => self.ends.get(before).copied().unwrap_or(0),
            None => 0,
        };
        self.bytes.get(start..end).unwrap_or(&[])
    }

    /// A context of the limits that the row names, with 100 levels and 1,000,000 slots otherwise.
    pub fn context(&self) -> DecodeContext {
        let depth = self.number("depth").unwrap_or(100);
        let mut context = DecodeContext::new(depth, self.number("slots").unwrap_or(1_000_000));
        if let Some(bytes) = self.number("payloads") {
            context = context.with_unknown_bytes(bytes);
        }
        if let Some(bytes) = self.number("elements") {
            context = context.with_element_memory(bytes);
        }
        context
    }

    /// Options with the limits that the row names, where it names one.
    pub fn options(&self) -> Option<DecodeOptions> {
        let (depth, size) = (self.number("depth"), self.number("size"));
        let (slots, elements) = (self.number("slots"), self.number("elements"));
        let payloads = self.number("payloads");
        let of_size = depth.is_some() | size.is_some();
        let of_counts = slots.is_some() | elements.is_some() | payloads.is_some();
        let options = DecodeOptions::new()
            .with_recursion_limit(depth.unwrap_or(100))
            .with_max_message_size(size.unwrap_or(usize::MAX))
            .with_unknown_field_limit(slots.unwrap_or(1_000_000))
            .with_unknown_byte_limit(payloads.unwrap_or(usize::MAX))
            .with_element_memory_limit(elements.unwrap_or(33_554_432));
        (of_size | of_counts).then_some(options)
    }
}

/// The bytes of a row, and where its spans end.
#[derive(Drop)]
pub struct Bytes {
    bytes: Vec<u8>,
    ends: Vec<usize>,
    // Where what a repetition repeats begins.
    start: usize,
}

impl Bytes {
    pub fn new(alloc: Global) -> Bytes {
        Bytes {
            bytes: Vec::new(alloc),
            ends: Vec::new(alloc),
            start: 0,
        }
    }

    /// The row of a line, with its bytes here; nothing where the line is no row or memory is
    /// wanting. `xN` repeats what stands in front of it, back to the last `xN`.
    pub fn row<'a>(&'a mut self, line: &'a str, said: &mut Said) -> Option<Row<'a>> {
        let (given, rest) = line.split_once('|')?;
        let (bytes, answer) = rest.split_once('|')?;
        let (call, words) = given.split_once(' ')?;
        self.bytes.clear();
        self.ends.clear();
        self.start = 0;
        for word in bytes.split(' ') {
            self.take(word, said)?;
        }
        for word in words.split(' ') {
            if let Some(levels) = word.strip_prefix("levels=") {
                self.wrap(levels.parse().ok()?, said)?;
            }
        }
        said.made(self.ends.push(self.bytes.len()))?;
        Some(Row {
            call,
            words,
            bytes: &self.bytes,
            ends: &self.ends,
            answer: answer.trim(),
        })
    }

    fn take(&mut self, word: &str, said: &mut Said) -> Option<()> {
        match word {
            "" => Some(()),
            "/" => said.made(self.ends.push(self.bytes.len())),
            _ => match word.strip_prefix("x") {
                Some(times) => self.repeat(times.parse().ok()?, said),
                None => said.made(self.bytes.push(u8::from_str_radix(word, 16).ok()?)),
            },
        }
    }

    fn repeat(&mut self, times: usize, said: &mut Said) -> Option<()> {
        let part = said.copied(self.bytes.get(self.start..).unwrap_or(&[]));
        let more = times.saturating_sub(1);
        said.made(self.bytes.reserve(part.len().saturating_mul(more)))?;
        for _ in 0..more {
            said.made(self.bytes.extend_from_slice(&part))?;
        }
        self.start = self.bytes.len();
        Some(())
    }

    // Puts the bytes into so many records of number 2, one in the other, made from the end.
    fn wrap(&mut self, levels: usize, said: &mut Said) -> Option<()> {
        self.bytes.reverse();
        for _ in 0..levels {
            let mut head = said.copied(b"\x12");
            said.answered(encode_varint(self.bytes.len() as u64, &mut head))?;
            head.reverse();
            said.made(self.bytes.extend_from_slice(&head))?;
        }
        self.bytes.reverse();
        Some(())
    }
}
