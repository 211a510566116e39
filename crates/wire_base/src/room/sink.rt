// Puts into a room.
ghost use Rattle.std.specs.Prelude.{◌≡◌, ◌+◌, ◌-◌, ◌<◌, ◌≤◌, [], ◌∷◌, ◌++◌, true, false, length};
ghost use Rattle.std.specs.Int.{w32, w64, to_le_bytes};
ghost use Rattle.wire_base.specs.Delimited.{delimited_text};
ghost use Rattle.wire_base.specs.Room.{in_room};
ghost use Rattle.wire_base.specs.Sink.{Puts, followed_by};
ghost use Rattle.wire_base.specs.Varint.{shortest_varint};

use super::Room;
use crate::encode_sink::{EncodeSink, MOST_DIGITS};
use crate::error::EncodeError;
use crate::varint::varint_len;

impl Room<'_> {
    // How many bytes are not filled yet.
    #[inline(always)]
    fn left(&self) -> usize
        ensures { result ≡ length self.now.room.now - self.now.place }
    {
        self.room.len() - self.place
    }

    // Whether there is room for the shortest varint of a number and so many bytes behind it. Where
    // there is room for the longest varint, it is not measured.
    #[inline(always)]
    fn fits(&self, value: u64, behind: usize) -> bool
        ensures fits { result ≡ true
            → self.now.place + (length (shortest_varint value) + behind) ≤ length self.now.room.now }
        ensures not { result ≡ false
            → length self.now.room.now < self.now.place + (length (shortest_varint value) + behind) }
    {
        let left = self.left();
        if left < behind {
            return false;
        }
        left - behind >= MOST_DIGITS || left - behind >= varint_len(value)
    }

    // Whether there is room for the shortest varints of two numbers and so many bytes behind them.
    // Where there is room for the longest varints, they are not measured.
    #[inline(always)]
    fn fit(&self, first: u64, second: u64, behind: usize) -> bool
        ensures fit { result ≡ true
            → self.now.place + (length (shortest_varint first ++ shortest_varint second) + behind)
            ≤ length self.now.room.now }
        ensures not { result ≡ false → length self.now.room.now
            < self.now.place + (length (shortest_varint first ++ shortest_varint second) + behind) }
    {
        let left = self.left();
        if left < behind {
            return false;
        }
        left - behind >= 2 * MOST_DIGITS || left - behind >= varint_len(first) + varint_len(second)
    }

    // Fills a byte, for which there is room.
    #[inline(always)]
    fn fill_u8(&mut self, value: u8)
        requires { self.old.place < length self.old.room.now }
        ensures held { in_room self.new
            ≡ followed_by (in_room self.old)
            (value ∷ []) }
        ensures place { self.new.place ≡ self.old.place + 1 }
        ensures len { length self.new.room.now ≡ length self.old.room.now }
    {
        let from = self.place;
        self.place = from + 1;
        self.room[from] = value;
    }

    // Fills the bytes of the shortest varint of a number, for which there is room.
    #[inline(always)]
    fn fill_varint(&mut self, value: u64)
        requires { self.old.place + length (shortest_varint value) ≤ length self.old.room.now }
        ensures held { in_room self.new
            ≡ followed_by (in_room self.old) (shortest_varint value) }
        ensures place { self.new.place ≡ self.old.place + length (shortest_varint value) }
        ensures len { length self.new.room.now ≡ length self.old.room.now }
    {
        let mut rest = value;
        while rest >= 0x80 {
            self.fill_u8((rest % 0x80) as u8 + 0x80);
            rest /= 0x80;
        }
        self.fill_u8(rest as u8);
    }
}

impl EncodeSink for Room<'_> {
    ghost held = { in_room };

    #[inline(always)]
    fn put_u8(&mut self, value: u8) -> Result<(), EncodeError> {
        if self.left() == 0 {
            return Err(EncodeError::LengthOverflow);
        }
        self.fill_u8(value);
        Ok(())
    }

    #[inline(always)]
    fn put_slice(&mut self, bytes: &[u8]) -> Result<(), EncodeError> {
        let from = self.place;
        if bytes.len() > self.room.len() - from {
            return Err(EncodeError::LengthOverflow);
        }
        let behind = from + bytes.len();
        self.place = behind;
        self.room[from..behind].copy_from_slice(bytes);
        Ok(())
    }

    fn put_u32_le(&mut self, value: u32) -> Result<(), EncodeError> {
        self.put_slice(&value.to_le_bytes())
    }

    fn put_u64_le(&mut self, value: u64) -> Result<(), EncodeError> {
        self.put_slice(&value.to_le_bytes())
    }

    #[inline(always)]
    fn put_varint(&mut self, value: u64) -> Result<(), EncodeError>
        ensures { Puts (shortest_varint value) (in_room self.old) (in_room self.new) result }
    {
        if !self.fits(value, 0) {
            return Err(EncodeError::LengthOverflow);
        }
        self.fill_varint(value);
        Ok(())
    }

    #[inline(always)]
    fn put_varints(&mut self, first: u64, second: u64) -> Result<(), EncodeError>
        ensures { Puts (shortest_varint first ++ shortest_varint second)
            (in_room self.old) (in_room self.new) result }
    {
        if !self.fit(first, second, 0) {
            return Err(EncodeError::LengthOverflow);
        }
        self.fill_varint(first);
        self.fill_varint(second);
        Ok(())
    }

    #[inline(always)]
    fn put_delimited(&mut self, first: u64, bytes: &[u8]) -> Result<(), EncodeError>
        ensures { Puts (shortest_varint first ++ delimited_text bytes.now)
            (in_room self.old) (in_room self.new) result }
    {
        let len = bytes.len() as u64;
        if !self.fit(first, len, bytes.len()) {
            return Err(EncodeError::LengthOverflow);
        }
        self.fill_varint(first);
        self.fill_varint(len);
        self.put_slice(bytes)
    }

    #[inline(always)]
    fn put_fixed32(&mut self, first: u64, value: u32) -> Result<(), EncodeError>
        ensures { Puts (shortest_varint first ++ to_le_bytes w32 value)
            (in_room self.old) (in_room self.new) result }
    {
        if !self.fits(first, 4) {
            return Err(EncodeError::LengthOverflow);
        }
        self.fill_varint(first);
        self.put_u32_le(value)
    }

    #[inline(always)]
    fn put_fixed64(&mut self, first: u64, value: u64) -> Result<(), EncodeError>
        ensures { Puts (shortest_varint first ++ to_le_bytes w64 value)
            (in_room self.old) (in_room self.new) result }
    {
        if !self.fits(first, 8) {
            return Err(EncodeError::LengthOverflow);
        }
        self.fill_varint(first);
        self.put_u64_le(value)
    }
}
