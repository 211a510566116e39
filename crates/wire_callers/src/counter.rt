//! A message type from nothing: one `uint64` field, and all other fields passed over.
ghost use Rattle.std.specs.Prelude.{◌≡◌};
ghost use Rattle.wire_codec.specs.Records.{text_size};
ghost use Rattle.wire_codec.specs.Sizes.{cut};
ghost use Rattle.wire_callers.specs.Counter.{counter_records};

use bytes::Buf;
use std::alloc::Global;
use wire_codec::{
    DecodeContext, DecodeError, EncodeError, EncodeSink, Message, SizeCache, Tag, WireType,
    check_wire_type, decode_varint, laws, put_uint64_field, saturate_size, skip_field_depth,
    varint_len,
};

/// `message Counter { uint64 value = 1; }`. Other fields are passed over, and are lost.
#[derive(Clone, Debug, Drop, PartialEq)]
pub struct Counter {
    pub value: u64,
}

impl Message for Counter {
    ghost use Rattle.wire_callers.specs.declared.counter.Counter.{Counter};
    ghost use Rattle.wire_callers.specs.Counter.{counter_records, CounterTakes};
    ghost use Rattle.wire_callers.specs.CounterSingle.{counter_single};

    ghost Value = { Counter };

    ghost view = { λ message. message };

    ghost records = { counter_records };

    ghost default = { record { value = 0 } };

    ghost takes = { CounterTakes };

    ghost single = { counter_single };

    fn default_value(_alloc: Global) -> Counter {
        Counter { value: 0 }
    }

    fn compute_size(&self, _cache: &mut SizeCache) -> Result<u32, EncodeError> {
        laws::flat_messages_have_no_sizes();
        Ok(self.record_size())
    }

    fn write_to<S: EncodeSink>(
        &self,
        _cache: &mut SizeCache,
        sink: &mut S,
    ) -> Result<(), EncodeError> {
        laws::flat_messages_have_no_sizes();
        laws::piece_by_piece();
        if self.value == 0 {
            return Ok(());
        }
        put_uint64_field(1, self.value, sink)
    }

    fn merge_field<B: Buf>(
        &mut self,
        _alloc: Global,
        tag: Tag,
        buf: &mut B,
        context: &mut DecodeContext,
    ) -> Result<(), DecodeError> {
        laws::records_in_order();
        laws::grammar::no_varint_beside_fault();
        laws::grammar::no_payload_beside_fault();
        if tag.field_number() != 1 {
            return skip_field_depth(tag, buf, context.depth());
        }
        check_wire_type(tag, WireType::Varint)?;
        self.value = decode_varint(buf)?;
        Ok(())
    }

    fn clear(&mut self) {
        self.value = 0;
    }

    // Without a cache: there is no message within whose size is kept.
    fn encoded_len(&self, _alloc: Global) -> Result<u32, EncodeError> {
        Ok(self.record_size())
    }
}

impl Counter {
    // The size of its record in bytes, cut at `u32::MAX`.
    fn record_size(&self) -> u32
        ensures { result ≡ cut (text_size (counter_records self.now)) }
    {
        if self.value == 0 {
            return 0;
        }
        saturate_size(1u64.saturating_add(varint_len(self.value) as u64))
    }
}
