//! A message of many short records.
use bytes::Buf;
use std::alloc::Global;
use wire_codec::{
    DecodeContext, DecodeError, EncodeError, EncodeSink, MessageFields, SizeCache, Tag, WireType,
    decode_varint, laws, put_uint64_field, saturate_size,
};

const NO_RECORD: &str = "not a Repeat record";

const TOO_MANY: &str = "too many";

/// A message of `times` records of field 1, each the number 0, and one of field 2, the number 128,
/// where `extra` is set. Any other record is `Custom("not a Repeat record")`, or the fault of its
/// varint, and one of field 1 past the greatest `times` is `Custom("too many")`.
#[derive(Clone, Debug, Drop, PartialEq)]
pub struct Repeat {
    pub times: u64,
    pub extra: bool,
}

impl MessageFields for Repeat {
    ghost use Rattle.std.specs.Prelude.{false};
    ghost use Rattle.wire_samples.specs.declared.repeat.Repeat.{Repeat};
    ghost use Rattle.wire_samples.specs.Repeat.{repeat_records, RepeatTakes};
    ghost use Rattle.wire_samples.specs.RepeatSingle.{repeat_single};

    ghost Value = { Repeat };

    ghost view = { λ message. message };

    ghost records = { repeat_records };

    ghost default = { record { times = 0; extra = false } };

    ghost takes = { RepeatTakes };

    ghost single = { repeat_single };

    fn default_value(_alloc: Global) -> Repeat {
        Repeat {
            times: 0,
            extra: false,
        }
    }

    fn compute_size(&self, _cache: &mut SizeCache) -> Result<u32, EncodeError> {
        laws::flat_messages_have_no_sizes();
        let extra = if self.extra { 3 } else { 0 };
        Ok(saturate_size(self.times.saturating_mul(2).saturating_add(extra)))
    }

    fn write_to<S: EncodeSink>(
        &self,
        _cache: &mut SizeCache,
        sink: &mut S,
    ) -> Result<(), EncodeError> {
        laws::flat_messages_have_no_sizes();
        laws::piece_by_piece();
        for _ in 0..self.times {
            put_uint64_field(1, 0, sink)?;
        }
        if self.extra {
            return put_uint64_field(2, 128, sink);
        }
        Ok(())
    }

    fn merge_field<B: Buf>(
        &mut self,
        _alloc: Global,
        tag: Tag,
        buf: &mut B,
        _context: &mut DecodeContext,
    ) -> Result<(), DecodeError> {
        laws::records_in_order();
        laws::grammar::no_varint_beside_fault();
        if tag.wire_type() != WireType::Varint {
            return Err(DecodeError::Custom(NO_RECORD));
        }
        match (tag.field_number(), decode_varint(buf)?) {
            (1, 0) if self.times < u64::MAX => self.times += 1,
            (1, 0) => return Err(DecodeError::Custom(TOO_MANY)),
            (2, 128) => self.extra = true,
            _ => return Err(DecodeError::Custom(NO_RECORD)),
        }
        Ok(())
    }

    fn clear(&mut self) {
        self.times = 0;
        self.extra = false;
    }
}
