//! Structs that are written into room of the caller's with unknown fields behind them: the records
//! of bytes that are handed in beside the struct, usually those that it was read from.
ghost use Rattle.std.specs.Prelude.{◌≡◌, ◌≢◌, ◌<◌, ◌≤◌, ◌^◌, length};
ghost use Rattle.wire_base.specs.WriteLaws.{FillsSlice};
ghost use Rattle.wire_codec.specs.Field.{Fields};
ghost use Rattle.wire_codec.specs.Records.{text, text_size};
ghost use Rattle.wire_codec.specs.Writes.{Writes};
ghost use Rattle.wire_fields.specs.Numbers.{in_64_bits};
ghost use Rattle.wire_structs.specs.Unknown.{SpellsShallow, HasStatus, OfUnknown, with_fields};
ghost use Rattle.wire_structs.specs.Unknown.{unowned};

use crate::room::{NO_ROOM, OK};
use crate::unknown::{FieldNumbers, put_unknown, unknown_len};
use crate::written::StructPart;
use wire_base::laws::what_fits_is_written;
use wire_codec::{EncodeError, EncodeSink, Room, laws};
use wire_read::numbers::status_of;

/// How many bytes the shortest encoding takes with the records behind it that the bytes have and no
/// field of `M` owns, or `usize::MAX` where it is more: 0. Else the number that `status_of` gives
/// the error, which is from 2 to 15, and the length is 0: exactly where the bytes are no records,
/// or these nest more than 100 groups.
pub fn size_keeping<M: FieldNumbers, P: StructPart + Drop>(
    parts: P,
    bytes: &[u8],
    len: &mut usize,
) -> u32
    ensures ok { result ≡ 0 → OfUnknown M.owns bytes.now (λ fs.
        len.new ≡ in_64_bits (text_size (with_fields (P.records parts) fs))) }
    ensures fault { result ≢ 0 → HasStatus bytes.now result × (len.new ≡ 0) }
{
    match unknown_len::<M>(bytes) {
        Ok(unknown) => {
            *len = parts.len().saturating_add(unknown) as usize;
            OK
        }
        Err(error) => {
            *len = 0;
            status_of(&error)
        }
    }
}

/// Writes that encoding at the front of the room, and tells how many bytes it takes: 0, or 32
/// exactly where the room has fewer. Else refused as `size_keeping`. Where it answers no 0 the room
/// stays.
pub fn write_keeping<M: FieldNumbers, P: StructPart + Drop>(
    parts: P,
    bytes: &[u8],
    room: &mut [u8],
    len: &mut usize,
) -> u32
    ensures ok { result ≡ 0 → OfUnknown M.owns bytes.now (λ fs.
        FillsSlice (text (with_fields (P.records parts) fs)) 0 room.old room.new len.new) }
    ensures no_room { result ≡ 32 → OfUnknown M.owns bytes.now (λ fs.
        (len.new ≡ in_64_bits (text_size (with_fields (P.records parts) fs)))
        × (length room.old < text_size (with_fields (P.records parts) fs))) }
    ensures fault { result ≢ 0 → result ≢ 32 → HasStatus bytes.now result × (len.new ≡ 0) }
    ensures stays { result ≢ 0 → room.new ≡ room.old }
{
    match unknown_len::<M>(bytes) {
        Ok(unknown) => {
            *len = parts.len().saturating_add(unknown) as usize;
            if *len > room.len() {
                return NO_ROOM;
            }
            fill_keeping::<M, P>(parts, bytes, room);
            OK
        }
        Err(error) => {
            *len = 0;
            status_of(&error)
        }
    }
}

// Writes that encoding, for which there is room.
fn fill_keeping<M: FieldNumbers, P: StructPart + Drop>(parts: P, bytes: &[u8], room: &mut [u8])
    requires size { text_size (P.records parts) < 2 ^ 64 }
    requires there { OfUnknown M.owns bytes.now (λ fs.
        text_size (with_fields (P.records parts) fs) ≤ length room.old) }
    ensures { OfUnknown M.owns bytes.now (λ fs.
        FillsSlice (text (with_fields (P.records parts) fs)) 0 room.old room.new
        (text_size (with_fields (P.records parts) fs))) }
{
    what_fits_is_written();
    let mut sink = Room { room, place: 0 };
    // There is room, and no memory is asked for, so that no put is refused.
    let _ = put_keeping::<M, P, Room<'_>>(&parts, bytes, &mut sink);
}

// Puts the parts and the records behind them.
fn put_keeping<M: FieldNumbers, P: StructPart, E: EncodeSink>(
    parts: &P,
    bytes: &[u8],
    sink: &mut E,
) -> Result<(), EncodeError>
    requires size { text_size (P.records parts.now) < 2 ^ 64 }
    requires there { (fs : Fields) × SpellsShallow bytes.now fs }
    ensures { (fs : Fields) → SpellsShallow bytes.now fs
        → Writes (text (with_fields (P.records parts.now) (unowned M.owns fs)))
        (E.held sink.old) (E.held sink.new) result }
{
    laws::piece_by_piece();
    parts.put(sink)?;
    put_unknown::<M, E>(bytes, sink)
}
