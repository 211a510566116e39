//! What a program does with a view.
ghost use Rattle.std.specs.Prelude.{◌≡◌, ◌≢◌, IfOk, IfErr};
ghost use Rattle.wire_albums.specs.Album.{Album-Value, album-shape, album-value, title-of-album};
ghost use Rattle.wire_albums.specs.Album.{album-view_value};
ghost use Rattle.wire_codec.specs.DecodeError.TheVariants.{OutOfMemory};
ghost use Rattle.wire_codec.specs.Encoding.{TriesToAnswer};
ghost use Rattle.wire_codec.specs.Records.{text, text_size};
ghost use Rattle.wire_fields.specs.Shape.{DecodesAs, NotDecodedAs};

use std::alloc::Global;
use wire_albums::{Album, AlbumView};
use wire_codec::{DecodeError, EncodeError};
use wire_views::{MessageView, WrittenView};

/// The title of the album that the bytes are, where it stands in them.
pub fn title_of<'a>(alloc: Global, bytes: &'a [u8]) -> Result<&'a str, DecodeError>
    ensures ok { IfOk result (λ title. (album : Album-Value)
        × DecodesAs album-shape bytes.now album × (title.now ≡ title-of-album album)) }
    ensures err { IfErr result (λ e. e ≢ OutOfMemory → NotDecodedAs album-shape bytes.now) }
{
    match AlbumView::decode_view_by_default(alloc, bytes) {
        Ok(album) => Ok(album.title),
        Err(why) => Err(why),
    }
}

/// The album that the bytes are, by way of its view.
pub fn decode_by_view(alloc: Global, bytes: &[u8]) -> Result<Album, DecodeError>
    ensures ok { IfOk result (λ album. DecodesAs album-shape bytes.now (album-value album)) }
    ensures err { IfErr result (λ e. e ≢ OutOfMemory → NotDecodedAs album-shape bytes.now) }
{
    match AlbumView::decode_view_by_default(alloc, bytes) {
        Ok(view) => view.own(alloc),
        Err(why) => Err(why),
    }
}

/// The encoding of an album with another title. Its other strings, its bytes and its unknown fields
/// are copied once, from where they were read.
pub fn retitled<'a>(
    alloc: Global,
    album: AlbumView<'a>,
    title: &'a str,
) -> Result<Vec<u8>, EncodeError>
    ensures { TriesToAnswer result
        (text_size (album-shape.records (album-view_value (record album.entry { title = title.entry }))))
        (λ bytes. bytes.items
        ≡ text (album-shape.records (album-view_value (record album.entry { title = title.entry })))) }
{
    let mut album = album;
    album.title = title;
    album.try_encode_to_vec(alloc)
}
