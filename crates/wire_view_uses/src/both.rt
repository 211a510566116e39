//! An album and its view from the same bytes.
ghost use Rattle.std.specs.Prelude.{◌≡◌, ◌≢◌, IfOk, IfErr};
ghost use Rattle.wire_albums.specs.Album.{album-shape, album-value};
ghost use Rattle.wire_codec.specs.DecodeError.TheVariants.{OutOfMemory};
ghost use Rattle.wire_codec.specs.Taking.{TakesAll, IsCharged, NotDecoded};
ghost use Rattle.wire_view_uses.specs.Alike.{AreAlike};

use std::alloc::Global;
use wire_albums::{Album, AlbumView};
use wire_codec::{DecodeContext, DecodeError, Message, laws};
use wire_views::MessageView;

/// What bytes are as an album.
#[derive(Debug, Drop)]
pub struct Both<'a> {
    pub view: Result<AlbumView<'a>, DecodeError>,
    pub message: Result<Album, DecodeError>,
}

/// The view and the message of all of the bytes, each within so many levels, unknown fields and
/// bytes for elements: both are read, as one value, or neither is, where memory lasts.
pub fn decode_both<'a>(
    alloc: Global,
    bytes: &'a [u8],
    levels: u32,
    unknown_fields: usize,
    element_memory: usize,
) -> Both<'a>
    ensures { AreAlike result.view result.message }
{
    laws::taken_in_one_way::<Album>();
    let context = DecodeContext::new(levels, unknown_fields);
    let mut context = context.with_element_memory(element_memory);
    let view = AlbumView::decode_view(alloc, bytes, &mut context);
    let context = DecodeContext::new(levels, unknown_fields);
    let mut context = context.with_element_memory(element_memory);
    let message = decode_message(alloc, bytes, &mut context);
    Both { view, message }
}

// The message of all of the bytes.
fn decode_message(
    alloc: Global,
    bytes: &[u8],
    context: &mut DecodeContext,
) -> Result<Album, DecodeError>
    ensures ok { IfOk result (λ message. IsCharged context.old context.new (λ c. TakesAll
        album-shape.takes context.old album-shape.default bytes.now c (album-value message))) }
    ensures err { IfErr result (λ e. e ≢ OutOfMemory
        → NotDecoded album-shape.takes context.old album-shape.default bytes.now) }
{
    let mut buf = bytes;
    let mut message = Album::default_value(alloc);
    message.merge(alloc, &mut buf, context)?;
    Ok(message)
}
