//! The code by which the view of a message type is written, where it is.
use wire_definitions::ghost_imports;
use wire_schema::{Template, Words};

const USES: &str = "\
wire_codec EncodeError
wire_codec EncodeSink
wire_codec SizeCache
wire_views WrittenView
";

const GHOSTS: &str = "\
Rattle.$crate$.specs.$name$ $module$-in_rows
Rattle.$crate$.specs.$name$ $module$-rows
Rattle.$crate$.specs.$name$ $module$-view_value
";

const WRITTEN: &str = "
impl<'a> WrittenView for $view_name$<'a> {
$ghost_imports$
    ghost rows = { λ m. $module$-rows ($module$-view_value m) };

    ghost same_records = { λ m. $module$-in_rows ($module$-view_value m) };

    fn row_count(&self) -> usize {
        $rows_behind$
    }

    fn row_len(&self, place: usize, cache: &mut SizeCache) -> Result<u64, EncodeError> {
        $measured$
    }

    fn put_row<S: EncodeSink>(
        &self,
        place: usize,
        cache: &mut SizeCache,
        sink: &mut S,
    ) -> Result<(), EncodeError> {
        $put$
    }
}
";

// Of a view without fields.
const USES_OF_NONE: &str = "wire_views put_spans\nwire_views spans_len\n";

const OF_SOME: [Template; 2] = [
    ("measured", "rows!(row_len(self, place, cache))"),
    ("put", "rows!(put_row(self, place, cache, sink))"),
];

const OF_NONE: [Template; 2] = [
    (
        "measured",
        "match place {\n            0 => spans_len(&self.unknown, cache),\n            \
         _ => Ok(0),\n        }",
    ),
    (
        "put",
        "match place {\n            0 => put_spans(&self.unknown, cache, sink),\n            \
         _ => Ok(()),\n        }",
    ),
];

/// Puts what the code of a view with so many fields brings in to be written.
pub fn use_written(page: &mut Words, count: usize) {
    if page.get("view_written").is_empty() {
        return;
    }
    page.append("uses", USES);
    page.append("uses", if count == 0 { USES_OF_NONE } else { "" });
}

/// Puts how a view with so many fields is written behind its text.
pub fn put_written(page: &mut Words, count: usize) {
    if page.get("view_written").is_empty() {
        return;
    }
    page.fill("ghosts", GHOSTS);
    ghost_imports(page, "    ");
    page.index("rows_behind", count.saturating_add(1));
    page.fill_all(if count == 0 { &OF_NONE } else { &OF_SOME });
    page.append("text", WRITTEN);
}
