//! Sizes of messages in 32 bits, and the greatest that is encoded.
ghost use Rattle.std.specs.Prelude.{◌≡◌, ◌≤◌, ◌<◌, ◌^◌, ◌-◌, min, OnErr, IfOk, IfErr};
ghost use Rattle.wire_base.specs.declared.error.EncodeError.TheVariants.{MessageTooLarge};
ghost use Rattle.wire_codec.specs.Sizes.{cut};

use wire_base::EncodeError;

/// The most bytes that a message's encoding may have where it is written or stands behind a length:
/// 2 GiB less one, so that a length fits a signed 32-bit number. See "Encoded Proto Size
/// Limitations" of the encoding document.
pub const MAX_MESSAGE_BYTES: u32 = 2_147_483_647;

/// The size, or `u32::MAX` where it is more.
pub fn saturate_size(size: u64) -> u32
    ensures { result ≡ cut size }
{
    size.min(u64::from(u32::MAX)) as u32
}

/// The size in bytes, or `MessageTooLarge` where it is above `MAX_MESSAGE_BYTES`. A size that
/// `saturate_size` cut is above it too. See "Encoded Proto Size Limitations" of the encoding
/// document.
pub fn checked_encode_size(size: u32) -> Result<u32, EncodeError>
    ensures ok { IfOk result (λ checked. checked ≡ size) }
    ensures within { IfOk result (λ _. size ≤ 2147483647) }
    ensures err { IfErr result (λ e. e ≡ MessageTooLarge) }
    ensures too_large { OnErr result (2147483647 < size) }
{
    if size > MAX_MESSAGE_BYTES {
        return Err(EncodeError::MessageTooLarge);
    }
    Ok(size)
}
