//! A tag, the bytes behind it, and limits.
use crate::said::Said;
use wire_codec::{
    DecodeContext, DecodeError, Tag, WireType, decode_unknown_field, skip_field_depth,
};

/// A tag, what stands behind it, and the limits under which that is read.
#[derive(Drop)]
pub(super) struct Case {
    pub tag: Tag,
    /// A text of the tag.
    pub head: Vec<u8>,
    pub behind: Vec<u8>,
    pub levels: u32,
    pub slots: usize,
    /// How many bytes there are for payloads.
    pub payloads: usize,
}

/// What decoding leaves: bytes behind the payload, slots, and bytes for payloads.
#[derive(Clone, Copy, PartialEq)]
pub(super) struct Left {
    pub bytes: usize,
    pub slots: usize,
    pub payloads: Option<usize>,
}

impl Case {
    /// Bytes behind the start tag of a group of number 1.
    pub fn group(behind: &[u8], levels: u32, slots: usize, said: &mut Said) -> Case {
        Case {
            tag: Tag::new(1, WireType::StartGroup),
            head: said.copied(b"\x0b"),
            behind: said.copied(behind),
            levels,
            slots,
            payloads: usize::MAX,
        }
    }

    /// The limits.
    pub fn context(&self) -> DecodeContext {
        DecodeContext::new(self.levels, self.slots).with_unknown_bytes(self.payloads)
    }

    /// What decoding bytes behind the tag leaves of them and of the limits, or why it refuses.
    pub fn decoded(
        &self,
        behind: &[u8],
        mut context: DecodeContext,
        said: &mut Said,
    ) -> Result<Left, DecodeError> {
        let mut rest = behind;
        match decode_unknown_field(said.alloc, self.tag, &mut rest, &mut context) {
            Ok(_) => Ok(Left {
                bytes: rest.len(),
                slots: context.remaining_unknown_fields(),
                payloads: context.remaining_unknown_bytes(),
            }),
            Err(DecodeError::OutOfMemory) => {
                said.refuse(DecodeError::OutOfMemory);
                Err(DecodeError::OutOfMemory)
            }
            Err(error) => Err(error),
        }
    }

    /// What decoding answers under other limits.
    pub fn decoded_within(
        &self,
        depth: u32,
        fields: usize,
        bytes: usize,
        said: &mut Said,
    ) -> Result<Left, DecodeError> {
        let context = DecodeContext::new(depth, fields).with_unknown_bytes(bytes);
        self.decoded(&self.behind, context, said)
    }

    /// How many bytes skipping leaves, or why it refuses.
    pub fn skipped(&self) -> Result<usize, DecodeError> {
        let mut rest = self.behind.as_slice();
        skip_field_depth(self.tag, &mut rest, self.levels)?;
        Ok(rest.len())
    }

    /// The tag and its payload, behind which so many bytes are left.
    pub fn taken(&self, left: Left, said: &mut Said) -> Vec<u8> {
        let mut span = said.copied(&self.head);
        let len = self.behind.len().saturating_sub(left.bytes);
        said.made(span.extend_from_slice(self.behind.get(..len).unwrap_or(&[])));
        span
    }
}
