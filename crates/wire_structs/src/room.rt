//! Structs that are written into room of the caller's.
ghost use Rattle.std.specs.Prelude.{◌≡◌, ◌≢◌, ◌<◌, ◌≤◌, length, Ok};
ghost use Rattle.wire_base.specs.WriteLaws.{FillsSlice};
ghost use Rattle.wire_codec.specs.Records.{text, text_size};
ghost use Rattle.wire_fields.specs.Numbers.{in_64_bits};

use crate::written::StructPart;
use wire_base::laws::what_fits_is_written;
use wire_codec::Room;

// `GTV_OK` and `GTV_NO_ROOM`.
pub(crate) const OK: u32 = 0;

pub(crate) const NO_ROOM: u32 = 32;

/// How many bytes the shortest encoding takes, or `usize::MAX` where it is more.
pub fn written_size<P: StructPart + Drop>(parts: P) -> usize
    ensures { result ≡ in_64_bits (text_size (P.records parts)) }
{
    parts.len() as usize
}

/// Writes the shortest encoding at the front of the room, and tells how many bytes it takes, or
/// `usize::MAX` where it is more: 0, or 32 exactly where the room has fewer, and then the room
/// stays.
pub fn write_status<P: StructPart + Drop>(parts: P, room: &mut [u8], len: &mut usize) -> u32
    ensures len { len.new ≡ in_64_bits (text_size (P.records parts)) }
    ensures ok { result ≡ 0
        → FillsSlice (text (P.records parts)) 0 room.old room.new len.new }
    ensures no_room { result ≢ 0
        → (result ≡ 32) × (length room.old < text_size (P.records parts)) }
    ensures stays { result ≢ 0 → room.new ≡ room.old }
{
    *len = parts.len() as usize;
    if *len > room.len() {
        return NO_ROOM;
    }
    fill(parts, room);
    OK
}

// Writes the shortest encoding, for which there is room.
fn fill<P: StructPart + Drop>(parts: P, room: &mut [u8])
    requires { text_size (P.records parts) ≤ length room.old }
    ensures { FillsSlice (text (P.records parts)) 0 room.old room.new
        (text_size (P.records parts)) }
{
    what_fits_is_written();
    let mut sink = Room { room, place: 0 };
    // There is room, and no memory is asked for, so that no put is refused.
    let _ = parts.put(&mut sink);
}
