//! The calls by their names: those that read from a buffer, whole or cut, and all others.
use crate::row::Row;
use crate::said::Said;
use crate::{
    agreements, caches, callers, contexts, enums, errors, extensions, frames, lists, messages,
    readers, ropes, scalars, sinks, texts, unknown, views,
};
use bytes::Buf;

/// Says what a call reads from the buffer; false where none of this name reads from one.
pub fn read<B: Buf>(row: &Row<'_>, buf: &mut B, said: &mut Said) -> bool {
    scalars::read(row, buf, said)
        || unknown::read(row, buf, said)
        || texts::read(row, buf, said)
        || messages::read(row, buf, said)
        || callers::read(row, buf, said)
}

/// Says what any other call answers; false where none has this name.
pub fn tell(row: &Row<'_>, said: &mut Said) -> bool {
    scalars::tell(row, said)
        || sinks::tell(row, said)
        || lists::tell(row, said)
        || texts::tell(row, said)
        || unknown::tell(row, said)
        || views::tell(row, said)
        || readers::tell(row, said)
        || frames::tell(row, said)
        || extensions::tell(row, said)
        || messages::tell(row, said)
        || ropes::tell(row, said)
        || caches::tell(row, said)
        || contexts::tell(row, said)
        || enums::tell(row, said)
        || errors::tell(row, said)
        || callers::tell(row, said)
        || agreements::tell(row, said)
}
