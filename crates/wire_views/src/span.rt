//! A record that a view does not know, where it stands.
ghost use Rattle.wire_codec.specs.TagView.{tag_number, tag_type};
ghost use Rattle.wire_views.specs.SpelledOnce.{SpelledOnce, once_prop};

use wire_codec::Tag;

/// A record that a view does not know: its tag, and the bytes behind it, which are one payload.
#[derive(Debug, Drop)]
pub struct UnknownSpan<'a> {
    pub tag: Tag,
    pub payload: &'a [u8],
    pub ghost spelled: { SpelledOnce (tag_number tag) (tag_type tag) payload.now } by { once_prop (tag_number tag) (tag_type tag) payload.now },
}
