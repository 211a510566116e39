//! What goes over records with a schema.
ghost use Rattle.std.specs.Prelude.{◌≡◌, ◌+◌, length};
ghost use Rattle.wire_read.specs.Reading.{groups_of};
ghost use Rattle.wire_dynamic.specs.Walks.{innermost as innermost_at, unknown_groups};

use crate::schema::Schema;
use wire_read::Reader;

/// Goes over the records of bytes that are a message of a type, as a `Reader` does.
#[derive(Drop)]
pub struct Walk<'s> {
    pub(crate) schema: &'s Schema,
    pub(crate) root: usize,
    pub(crate) reader: Reader,
    pub(crate) innermost: Option<usize>,
    pub(crate) known: usize,
    ghost tells: { innermost ≡ innermost_at schema.now root (groups_of reader) },
    ghost counts: { known + unknown_groups schema.now root (groups_of reader)
        ≡ length (groups_of reader) },
}
