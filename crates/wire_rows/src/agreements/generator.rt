//! Cases by chance, the same at each run.
use super::case::Case;
use crate::said::Said;
use wire_codec::{EncodeError, EncodeSink, MAX_FIELD_NUMBER, Tag, WireType, encode_varint};

/// A source of cases, which follow from the seed alone.
#[derive(Drop)]
pub(super) struct Generator {
    state: u64,
    // Whether a tag, a length or an end may be another than it should be.
    is_hostile: bool,
}

impl Generator {
    pub fn new(seed: u64) -> Generator {
        Generator {
            state: seed,
            is_hostile: false,
        }
    }

    /// A payload behind its tag, lawful one time in two, and limits near to what it takes.
    pub fn case(&mut self, said: &mut Said) -> Case {
        self.is_hostile = self.below(2) == 0;
        let tag = self.first_tag();
        let (mut head, mut behind) = (Vec::new(said.alloc), Vec::new(said.alloc));
        said.answered(self.put_varint(varint_of(tag), &mut head));
        said.answered(self.put_payload(tag, &mut behind));
        if self.is_hostile {
            said.answered(self.spoil(&mut behind));
        }
        Case {
            tag,
            head,
            behind,
            levels: self.below(6),
            slots: self.below(16) as usize,
            payloads: self.below(40) as usize,
        }
    }

    // ---- chance

    // The better half of the next state of a linear congruence, below a bound.
    fn below(&mut self, bound: u32) -> u32 {
        self.state = self
            .state
            .wrapping_mul(6_364_136_223_846_793_005)
            .wrapping_add(1_442_695_040_888_963_407);
        (self.state >> 32) as u32 % bound.max(1)
    }

    fn lies(&mut self) -> bool {
        self.is_hostile && self.below(12) == 0
    }

    // A number of few bits or many.
    fn value(&mut self) -> u64 {
        match self.below(4) {
            0 => self.state,
            1 => self.state >> 32,
            2 => u64::from(self.below(1000)),
            _ => u64::from(self.below(8)),
        }
    }

    // ---- tags

    fn tag(&mut self, wire_type: WireType) -> Tag {
        match self.below(8) {
            0 => Tag::new(MAX_FIELD_NUMBER, wire_type),
            1 => Tag::new(16, wire_type),
            2 => Tag::new(2, wire_type),
            _ => Tag::new(1, wire_type),
        }
    }

    // The tag of a record that is no group.
    fn leaf_tag(&mut self) -> Tag {
        match self.below(4) {
            0 => self.tag(WireType::Varint),
            1 => self.tag(WireType::Fixed64),
            2 => self.tag(WireType::Fixed32),
            _ => self.tag(WireType::LengthDelimited),
        }
    }

    // The tag of a group, more often than not.
    fn first_tag(&mut self) -> Tag {
        if self.lies() {
            self.tag(WireType::EndGroup)
        } else if self.below(4) == 0 {
            self.leaf_tag()
        } else {
            self.tag(WireType::StartGroup)
        }
    }

    // ---- texts

    // One time in six with up to three bytes more than it needs.
    fn put_varint(&mut self, value: u64, text: &mut Vec<u8>) -> Result<(), EncodeError> {
        encode_varint(value, text)?;
        if self.below(6) == 0 {
            if let Some(last) = text.last_mut() {
                *last |= 0x80;
            }
            for _ in 0..self.below(3) {
                text.put_u8(0x80)?;
            }
            text.put_u8(0)?;
        }
        Ok(())
    }

    fn put_tag(&mut self, tag: Tag, text: &mut Vec<u8>) -> Result<(), EncodeError> {
        let value = if self.lies() {
            self.value()
        } else {
            varint_of(tag)
        };
        self.put_varint(value, text)
    }

    fn put_bytes(&mut self, count: u32, text: &mut Vec<u8>) -> Result<(), EncodeError> {
        for _ in 0..count {
            let chance = self.below(u32::MAX);
            text.put_u8((chance % 256) as u8)?;
        }
        Ok(())
    }

    // A payload that is no group.
    fn put_leaf(&mut self, wire_type: WireType, text: &mut Vec<u8>) -> Result<(), EncodeError> {
        match wire_type {
            WireType::Varint => {
                let value = self.value();
                self.put_varint(value, text)
            }
            WireType::Fixed64 => self.put_bytes(8, text),
            WireType::Fixed32 => self.put_bytes(4, text),
            _ => {
                let len = self.below(6);
                let told = if self.lies() {
                    self.value()
                } else {
                    u64::from(len)
                };
                self.put_varint(told, text)?;
                self.put_bytes(len, text)
            }
        }
    }

    // A payload; of a group its records, in groups and outside, and its end tag.
    fn put_payload(&mut self, tag: Tag, text: &mut Vec<u8>) -> Result<(), EncodeError> {
        if !matches!(tag.wire_type(), WireType::StartGroup | WireType::EndGroup) {
            return self.put_leaf(tag.wire_type(), text);
        }
        let mut ends = Vec::new(*text.allocator());
        ends.push(Tag::new(tag.field_number(), WireType::EndGroup))?;
        for _ in 0..self.below(12) {
            self.put_item(&mut ends, text)?;
        }
        for _ in 0..ends.len() {
            if let Some(end) = ends.pop() {
                self.put_end(end, text)?;
            }
        }
        Ok(())
    }

    fn put_end(&mut self, end: Tag, text: &mut Vec<u8>) -> Result<(), EncodeError> {
        if self.lies() {
            let other = self.tag(WireType::EndGroup);
            return self.put_tag(other, text);
        }
        self.put_tag(end, text)
    }

    // A record, a start tag, or the last of the end tags that are due.
    fn put_item(&mut self, ends: &mut Vec<Tag>, text: &mut Vec<u8>) -> Result<(), EncodeError> {
        match self.below(5) {
            0 | 1 => {
                let start = self.tag(WireType::StartGroup);
                ends.push(Tag::new(start.field_number(), WireType::EndGroup))?;
                self.put_tag(start, text)
            }
            2 if ends.len() > 1 => match ends.pop() {
                Some(end) => self.put_end(end, text),
                None => Ok(()),
            },
            _ => {
                let tag = self.leaf_tag();
                self.put_tag(tag, text)?;
                self.put_leaf(tag.wire_type(), text)
            }
        }
    }

    // The bytes cut off, changed in one place, or with others behind them.
    fn spoil(&mut self, bytes: &mut Vec<u8>) -> Result<(), EncodeError> {
        let place = self.below(u32::MAX) as usize % bytes.len().max(1);
        match self.below(6) {
            0 => bytes.truncate(place),
            1 => {
                if let Some(byte) = bytes.get_mut(place) {
                    *byte = byte.wrapping_add(1);
                }
            }
            2 | 3 => {
                let count = self.below(4);
                self.put_bytes(count, bytes)?;
            }
            _ => {}
        }
        Ok(())
    }
}

// The number that stands for a tag on the wire.
fn varint_of(tag: Tag) -> u64 {
    u64::from(tag.field_number()) * 8 + u64::from(tag.wire_type() as u8)
}
