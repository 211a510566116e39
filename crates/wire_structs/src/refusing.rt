//! Where bytes are no message.
ghost use Rattle.std.specs.Prelude.{◌≡◌, ◌≢◌, ◌<◌, length, OnOk, OnErr};
ghost use Rattle.wire_codec.specs.Taking.{Decodes, IsCharged, NotDecoded, NotTaken};
ghost use Rattle.wire_structs.specs.Refused.{IsFirstRefused, TakesNext};

use crate::message::MessageStruct;
use bytes::Buf;
use wire_codec::{DecodeContext, DecodeError, laws};
use wire_read::numbers::status_of;

/// Looks whether all of the bytes are a message, within the limits of the context, and where not, at
/// which byte the first record begins that is not taken: 0, and the place is behind the last byte;
/// or the number that `status_of` gives the error of that record, which is from 2 on.
pub fn refused_status<M: MessageStruct>(
    source: M::Source,
    context: &mut DecodeContext,
    place: &mut usize,
) -> u32
    ensures ok { result ≡ 0 → (value : M.Value)
        × Decodes M.takes context.old M.default (M.Source.unread source) value }
    ensures behind { result ≡ 0 → place.new ≡ length (M.Source.unread source) }
    ensures err { result ≢ 0 → NotDecoded M.takes context.old M.default (M.Source.unread source) }
    ensures refused { result ≢ 0 → IsFirstRefused M.takes context.old M.default
        (M.Source.unread source) place.new }
{
    laws::records_in_order();
    let mut message = M::zero();
    let mut buf = source;
    let whole = buf.remaining();
    *place = 0;
    while buf.remaining() > 0 {
        match take_next(&mut message, &mut buf, context) {
            Ok(()) => *place = whole - buf.remaining(),
            Err(error) => return status_of(&error),
        }
    }
    0
}

// Takes the record at the front into the struct, as a list of all bytes but the last: so one loop
// alone takes records, and the compiler puts `merge_field` into it.
fn take_next<M: MessageStruct>(
    message: &mut M,
    buf: &mut M::Source,
    context: &mut DecodeContext,
) -> Result<(), DecodeError>
    requires { 0 < length (M.Source.unread buf.old) }
    ensures ok { OnOk result (IsCharged context.old context.new (λ c.
        TakesNext M.takes context.old (M.view message.old) (M.Source.unread buf.old) c
        (M.view message.new) (M.Source.unread buf.new))) }
    ensures err { OnErr result (NotTaken
        (TakesNext M.takes context.old (M.view message.old) (M.Source.unread buf.old))) }
{
    laws::records_in_order();
    let limit = buf.remaining() - 1;
    message.merge_to_limit(buf, context, limit)?;
    Ok(())
}
