//! An album, whose type is generated, as a message and as a view.
use std::alloc::Global;
use wire_albums::{Album, AlbumView};
use wire_codec::Message;
use wire_views::MessageView;

/// A round decodes the album that the bytes are. The answer is the sum of one, its time, and how
/// long its title, its cover and its lists are.
#[unsafe(no_mangle)]
pub extern "C" fn wb_album_decode(alloc: Global, bytes: &[u8], rounds: u32) -> u64 {
    let mut sum = 0u64;
    for _ in 0..rounds {
        let Ok(album) = Album::decode_from_slice(alloc, bytes) else {
            return 0;
        };
        sum = album.released.unsigned_abs().wrapping_add(1);
        sum = sum.wrapping_add(album.title.len() as u64);
        sum = sum.wrapping_add(album.cover.len() as u64);
        sum = sum.wrapping_add(album.ratings.len() as u64);
        sum = sum.wrapping_add(album.genres.len() as u64);
        sum = sum.wrapping_add(album.tracks.len() as u64);
    }
    sum
}

/// A round reads the album as a view of the bytes. The answer is that of decoding.
#[unsafe(no_mangle)]
pub extern "C" fn wb_album_view(alloc: Global, bytes: &[u8], rounds: u32) -> u64 {
    let mut sum = 0u64;
    for _ in 0..rounds {
        let Ok(album) = AlbumView::decode_view_by_default(alloc, bytes) else {
            return 0;
        };
        sum = album.released.unsigned_abs().wrapping_add(1);
        sum = sum.wrapping_add(album.title.len() as u64);
        sum = sum.wrapping_add(album.cover.len() as u64);
        sum = sum.wrapping_add(album.ratings.len() as u64);
        sum = sum.wrapping_add(album.genres.len() as u64);
        sum = sum.wrapping_add(album.tracks.len() as u64);
    }
    sum
}
