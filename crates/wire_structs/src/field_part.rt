//! A field of a scalar type, as it is written.
ghost use Rattle.wire_codec.specs.FieldNumber.{IsFieldNumber};

use crate::payload::{ScalarPayload, put_record, record_len};
use crate::written::StructPart;
use wire_codec::{EncodeError, EncodeSink, laws};

/// A field of a scalar type, as it is written: a record, or none.
#[derive(Drop)]
pub struct FieldPart<'h> {
    pub number: u32,
    pub is_left_out: bool,
    pub payload: ScalarPayload<'h>,
    pub ghost in_range: { IsFieldNumber number },
}

impl<'h> StructPart for FieldPart<'h> {
    ghost use Rattle.wire_structs.specs.Payloads.{field_records};

    ghost records = { field_records };

    #[inline(always)]
    fn len(&self) -> u64 {
        if self.is_left_out {
            return 0;
        }
        record_len(self.number, self.payload)
    }

    #[inline(always)]
    fn put<E: EncodeSink>(&self, sink: &mut E) -> Result<(), EncodeError> {
        laws::piece_by_piece();
        if self.is_left_out {
            return Ok(());
        }
        put_record(self.number, self.payload, sink)
    }
}
