//! Records written one by one.
ghost use Rattle.std.specs.Prelude.{◌≡◌};
ghost use Rattle.wire_base.specs.declared.tag.WireType.TheVariants.{StartGroup, EndGroup};
ghost use Rattle.wire_base.specs.Field.{varint, fixed32, fixed64, bytes};
ghost use Rattle.wire_base.specs.Tag.{tag_text};
ghost use Rattle.wire_base.specs.Text.{record_text};
ghost use Rattle.wire_scalar.specs.ValueMap.{sint64};
ghost use Rattle.wire_c.specs.Put.{TellsPut, put_status, told};

use crate::status::{NO_ROOM, OK};
use wire_write::PutError;

// `GTV_INVALID_FIELD_NUMBER`, as in `status`.
const INVALID_FIELD_NUMBER: u32 = 5;

/// Where the next record is written, and how many bytes the last call wanted, where it was refused
/// for want of room.
#[repr(C)]
#[derive(Debug, Drop)]
pub struct Writer {
    pub place: usize,
    pub wanted: usize,
}

// What a put answered, as C is told.
fn tell(put: Result<usize, PutError>, writer: &mut Writer) -> u32
    ensures writer { writer.new ≡ told put writer.old }
    ensures status { result ≡ put_status put }
{
    match put {
        Ok(behind) => {
            writer.place = behind;
            writer.wanted = 0;
            OK
        }
        Err(PutError::InvalidFieldNumber) => {
            writer.wanted = 0;
            INVALID_FIELD_NUMBER
        }
        Err(PutError::NoRoom(wanted)) => {
            writer.wanted = wanted;
            NO_ROOM
        }
    }
}

/// Writes a record with a varint.
#[unsafe(no_mangle)]
pub extern "C" fn gtv_put_varint(
    writer: &mut Writer,
    room: &mut [u8],
    number: u32,
    value: u64,
) -> u32
    ensures { TellsPut number (record_text number (varint value))
        room.old room.new writer.old writer.new result }
{
    tell(
        wire_write::put_varint(room, writer.place, number, value),
        writer,
    )
}

/// Writes a record of type `sint64` or `sint32`.
#[unsafe(no_mangle)]
pub extern "C" fn gtv_put_sint(writer: &mut Writer, room: &mut [u8], number: u32, value: i64) -> u32
    ensures { TellsPut number (record_text number (varint (sint64.enc value)))
        room.old room.new writer.old writer.new result }
{
    tell(
        wire_write::put_sint(room, writer.place, number, value),
        writer,
    )
}

/// Writes a record with four bytes, the lowest first.
#[unsafe(no_mangle)]
pub extern "C" fn gtv_put_fixed32(
    writer: &mut Writer,
    room: &mut [u8],
    number: u32,
    value: u32,
) -> u32
    ensures { TellsPut number (record_text number (fixed32 value))
        room.old room.new writer.old writer.new result }
{
    tell(
        wire_write::put_fixed32(room, writer.place, number, value),
        writer,
    )
}

/// Writes a record with eight bytes, the lowest first.
#[unsafe(no_mangle)]
pub extern "C" fn gtv_put_fixed64(
    writer: &mut Writer,
    room: &mut [u8],
    number: u32,
    value: u64,
) -> u32
    ensures { TellsPut number (record_text number (fixed64 value))
        room.old room.new writer.old writer.new result }
{
    tell(
        wire_write::put_fixed64(room, writer.place, number, value),
        writer,
    )
}

/// Writes a record with a payload behind its length.
#[unsafe(no_mangle)]
pub extern "C" fn gtv_put_bytes(
    writer: &mut Writer,
    room: &mut [u8],
    number: u32,
    payload: &[u8],
) -> u32
    ensures { TellsPut number (record_text number (bytes payload.now))
        room.old room.new writer.old writer.new result }
{
    tell(
        wire_write::put_bytes(room, writer.place, number, payload),
        writer,
    )
}

/// Writes the start tag of a group.
#[unsafe(no_mangle)]
pub extern "C" fn gtv_put_group_start(writer: &mut Writer, room: &mut [u8], number: u32) -> u32
    ensures { TellsPut number (tag_text number StartGroup)
        room.old room.new writer.old writer.new result }
{
    tell(
        wire_write::put_group_start(room, writer.place, number),
        writer,
    )
}

/// Writes the end tag of a group.
#[unsafe(no_mangle)]
pub extern "C" fn gtv_put_group_end(writer: &mut Writer, room: &mut [u8], number: u32) -> u32
    ensures { TellsPut number (tag_text number EndGroup)
        room.old room.new writer.old writer.new result }
{
    tell(
        wire_write::put_group_end(room, writer.place, number),
        writer,
    )
}
