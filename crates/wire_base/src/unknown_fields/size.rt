//! How many bytes unknown fields take.
ghost use Rattle.std.specs.Prelude.{◌≡◌, ◌+◌, ◌≤◌, ◌^◌, length, OnErr, IfOk, IfErr};
ghost use Rattle.wire_base.specs.declared.error.EncodeError.TheVariants.{LengthOverflow};
ghost use Rattle.wire_base.specs.Text.{size, payload_text, record_text};
ghost use Rattle.wire_base.specs.UnknownFields.{payload_of};

use super::{UnknownField, UnknownFieldData, UnknownFields};
use crate::error::EncodeError;
use crate::tag::{WireType, tag_len};
use crate::varint::varint_len;

impl UnknownFields {
    /// How many bytes `write_to` writes. `LengthOverflow` comes exactly where these are more than
    /// `usize::MAX`.
    #[cycle(encoded_len)]
    #[inline(always)]
    pub fn encoded_len(&self) -> Result<usize, EncodeError>
        ensures ok { IfOk result (λ len. len ≡ size self.now) }
        ensures err { IfErr result (λ e. e ≡ LengthOverflow) }
        ensures over { OnErr result (2 ^ 64 ≤ size self.now) }
    {
        if self.is_empty() {
            return Ok(0);
        }
        self.fields_len()
    }

    // How many bytes the records take. Most messages have none, so this stands out of line.
    #[cycle(encoded_len)]
    #[inline(never)]
    fn fields_len(&self) -> Result<usize, EncodeError>
        ensures ok { IfOk result (λ len. len ≡ size self.now) }
        ensures err { IfErr result (λ e. e ≡ LengthOverflow) }
        ensures over { OnErr result (2 ^ 64 ≤ size self.now) }
    {
        let mut len = 0;
        for field in &self.fields {
            len = sum(len, field.encoded_len()?)?;
        }
        Ok(len)
    }
}

impl UnknownField {
    /// How many bytes `write_to` writes. `LengthOverflow` comes exactly where these are more than
    /// `usize::MAX`.
    #[cycle(encoded_len)]
    pub fn encoded_len(&self) -> Result<usize, EncodeError>
        ensures ok { IfOk result (λ len. len
            ≡ length (record_text self.now.number (payload_of self.now.value))) }
        ensures err { IfErr result (λ e. e ≡ LengthOverflow) }
        ensures over { OnErr result (2 ^ 64
            ≤ length (record_text self.now.number (payload_of self.now.value))) }
    {
        sum(
            tag_len(self.number, self.value.wire_type()),
            self.value.encoded_len(self.number)?,
        )
    }
}

impl UnknownFieldData {
    // How many bytes the payload of a record with this number takes.
    #[cycle(encoded_len)]
    fn encoded_len(&self, number: u32) -> Result<usize, EncodeError>
        ensures ok { IfOk result (λ len. len ≡ length (payload_text number (payload_of self.now))) }
        ensures err { IfErr result (λ e. e ≡ LengthOverflow) }
        ensures over { OnErr result (2 ^ 64 ≤ length (payload_text number (payload_of self.now))) }
    {
        match self {
            UnknownFieldData::Varint(value) => Ok(varint_len(*value)),
            UnknownFieldData::Fixed64(_) => Ok(8),
            UnknownFieldData::Fixed32(_) => Ok(4),
            UnknownFieldData::LengthDelimited(bytes) => {
                sum(varint_len(bytes.len() as u64), bytes.len())
            }
            UnknownFieldData::Group(fields) => {
                sum(fields.encoded_len()?, tag_len(number, WireType::EndGroup))
            }
        }
    }
}

// The sum of two lengths, where it fits.
fn sum(a: usize, b: usize) -> Result<usize, EncodeError>
    ensures ok { IfOk result (λ len. len ≡ a + b) }
    ensures err { IfErr result (λ e. e ≡ LengthOverflow) }
    ensures over { OnErr result (2 ^ 64 ≤ a + b) }
{
    a.checked_add(b).ok_or(EncodeError::LengthOverflow)
}
