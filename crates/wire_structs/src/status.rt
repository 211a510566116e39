//! What a caller in another language hands in and is told.
ghost use Rattle.std.specs.Prelude.{◌≡◌, ◌≢◌};
ghost use Rattle.wire_codec.specs.Options.{default_limits};
ghost use Rattle.wire_codec.specs.Taking.{Decodes, NotDecoded};
ghost use Rattle.wire_structs.specs.Within.{within_numbers};

use crate::message::MessageStruct;
use wire_codec::{
    DEFAULT_ELEMENT_MEMORY_LIMIT, DEFAULT_UNKNOWN_FIELD_LIMIT, DecodeContext, RECURSION_LIMIT,
};
use wire_read::numbers::{LimitNumbers, status_of};

/// The limits of a caller that names none, as of `Message::decode`: 100 levels, 1,000,000 unknown
/// fields, and 33,554,432 bytes for elements.
pub fn default_context() -> DecodeContext
    ensures { result ≡ default_limits }
{
    let context = DecodeContext::new(RECURSION_LIMIT, DEFAULT_UNKNOWN_FIELD_LIMIT);
    context.with_element_memory(DEFAULT_ELEMENT_MEMORY_LIMIT)
}

/// The limits that a caller names: levels, of which no more than 100 are given; unknown fields; and
/// bytes of their payloads. Elements have none, since none is held.
pub fn context_within(limits: &LimitNumbers) -> DecodeContext
    ensures { result ≡ within_numbers limits.now }
{
    let context = DecodeContext::new(limits.depth.min(RECURSION_LIMIT), limits.records);
    context.with_unknown_bytes(limits.payload_bytes)
}

/// Sets the struct to what all of the bytes are, within the limits of the context, as `read` of it:
/// 0, or the number that `status_of` gives the error, which is from 2 on.
pub fn read_status<M: MessageStruct>(
    message: &mut M,
    source: M::Source,
    context: &mut DecodeContext,
) -> u32
    ensures ok { result ≡ 0 → Decodes M.takes context.old M.default (M.Source.unread source)
        (M.view message.new) }
    ensures err { result ≢ 0 → NotDecoded M.takes context.old M.default (M.Source.unread source) }
    ensures zero { result ≢ 0 → M.IsZero message.new }
{
    match message.read(source, context) {
        Ok(()) => 0,
        Err(error) => status_of(&error),
    }
}
