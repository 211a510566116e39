//! Varints that stand in a slice, read at once: three numbers of 32 bits take their digits.
ghost use Rattle.std.specs.Prelude.{◌≡◌, ◌≤◌, ◌<◌, ◌+◌, ◌*◌, ◌^◌, ℕ, List, ◌++◌, ◌↔◌, IsTrue, drop, length, get_or};
ghost use Rattle.wire_base.specs.declared.error.DecodeError.TheVariants.{VarintTooLong};
ghost use Rattle.wire_base.specs.Read.{Reads};
ghost use Rattle.wire_base.specs.Varint.{IsSpelling, VarintFault};
ghost use Rattle.wire_base.specs.InPlace.{HoldsVarint};

/// Whether a varint ends in these bytes or has too many of them: there are more than ten, or the
/// last of them ends one.
#[inline(always)]
pub(crate) fn holds_varint(bytes: &[u8]) -> bool
    ensures { IsTrue result ↔ HoldsVarint bytes.now }
{
    match bytes.last() {
        Some(&last) => bytes.len() > 10 || last < 0x80,
        None => false,
    }
}

/// The varint at the front of the bytes, of three of them or more, and how many it has: 0 where it
/// is too long.
#[inline(never)]
pub(crate) fn varint_at_front(bytes: &[u8]) -> (u64, usize)
    requires holds { HoldsVarint bytes.now }
    requires two { 1 < length bytes.now }
    requires first { 128 ≤ get_or bytes.now 0 0 }
    requires second { 128 ≤ get_or bytes.now 1 0 }
    ensures ok { 0 < result.1 → Reads bytes.now (IsSpelling result.0) (drop result.1 bytes.now) }
    ensures there { result.1 ≤ length bytes.now }
    ensures fault { result.1 ≡ 0 → (more : List ℕ) → VarintFault (bytes.now ++ more) VarintTooLong }
{
    let mut low = u32::from(bytes[0] % 0x80) + u32::from(bytes[1] % 0x80) * 0x80;
    for index in 2..4usize {
        let byte = bytes[index];
        low += digit(byte, index);
        if byte < 0x80 {
            return (u64::from(low), index + 1);
        }
        low -= digit(0x80, index);
    }
    let mut middle = 0u32;
    for index in 4..8usize {
        let byte = bytes[index];
        middle += digit(byte, index - 4);
        if byte < 0x80 {
            return (joined(low, middle, 0), index + 1);
        }
        middle -= digit(0x80, index - 4);
    }
    let ninth = bytes[8];
    if ninth < 0x80 {
        return (joined(low, middle, u32::from(ninth)), 9);
    }
    let tenth = bytes[9];
    if tenth > 1 {
        return (0, 0);
    }
    let high = u32::from(ninth % 0x80) + u32::from(tenth) * 0x80;
    (joined(low, middle, high), 10)
}

// A byte as a digit to the base 128 at a place among four.
#[inline(always)]
fn digit(byte: u8, place: usize) -> u32
    requires { place ≤ 3 }
    ensures value { result ≡ byte * 2 ^ (7 * place) }
    ensures bound { result < 2 ^ 29 }
{
    u32::from(byte) << (7 * place)
}

// Four digits, four digits above them, and the digits above these.
#[inline(always)]
fn joined(low: u32, middle: u32, high: u32) -> u64
    requires low { low < 2 ^ 28 }
    requires middle { middle < 2 ^ 28 }
    requires high { high < 2 ^ 8 }
    ensures { result ≡ low + middle * 2 ^ 28 + high * 2 ^ 56 }
{
    u64::from(low) + (u64::from(middle) << 28) + (u64::from(high) << 56)
}
