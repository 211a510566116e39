//! The code of the view of a message type.
use crate::code::put_in_braces;
use crate::field_rows::set_numbers;
use crate::view_written::{put_written, use_written};
use wire_definitions::{code_imports, ghost_imports, put_field_comment, set_heading};
use wire_schema::{Field, GenerateError, Schema, Template, Words};

const USES: &str = "\
crate::$module$ $name$
std::alloc Global
wire_codec DecodeContext
wire_codec DecodeError
wire_codec Tag
wire_views MessageView
wire_views UnknownSpan
";

pub const STRUCT: &str = "
#[derive(Debug, Drop)]
pub struct $view_name$<'a> {$declared$}
";

pub const UNKNOWN: &str = "    \
    /// The fields that the schema lacks, where they stand.
    pub unknown: Vec<UnknownSpan<'a>>,
";

pub const ROWS: &str = "
// The fields of `$view_name$`: their places, numbers, names and kinds.
macro_rules! rows {
    ($given$) => {
        view_fields!(
            $handed_on$
$rows$            _ [$row$] => unknown
        )
    };
}
";

const GHOSTS: &str = "\
Rattle.$crate$.specs.$name$ $name$-Value
Rattle.$crate$.specs.$name$ $module$-shape
Rattle.$crate$.specs.$name$ $module$-value
Rattle.$crate$.specs.$name$ $module$-view_value
";

const VIEW: &str = "
impl<'a> MessageView for $view_name$<'a> {
$ghost_imports$
    type Source = &'a [u8];

    type Owned = $name$;

    ghost Value = { $name$-Value };

    ghost view = { $module$-view_value };

    ghost owned = { $module$-value };

    ghost records = { $module$-shape.records };

    ghost default = { $module$-shape.default };

    ghost takes = { $module$-shape.takes };

    ghost single = { $module$-shape.single };

    fn default_view(alloc: Global) -> $view_name$<'a> {
        $empty$
    }

    fn merge_field(
        &mut self,
        $alloc$: Global,
        tag: Tag,
        buf: &mut &'a [u8],
        context: &mut DecodeContext,
    ) -> Result<(), DecodeError> {
        $merged$
    }

    fn own(&self, alloc: Global) -> Result<$name$, DecodeError> {
        $owned$
    }
}
";

pub const OF_FIELD: [Template; 3] = [
    ("uses", "$view_code$"),
    ("declared", "    pub $field$: $view_held$,\n"),
    (
        "rows",
        "            [$row$] $all_numbers$ => $field$: $view_kind$,\n",
    ),
];

// The calls of a view, of whose fields the rows stand above.
const OF_SOME: [Template; 4] = [
    ("alloc", "alloc"),
    ("empty", "rows!(empty($view_name$, alloc))"),
    ("merged", "rows!(merge(self, alloc, tag, buf, context))"),
    ("owned", "rows!(own($name$, self, alloc))"),
];

// Those of one without fields.
const OF_NONE: [Template; 4] = [
    ("alloc", "_alloc"),
    (
        "empty",
        "$view_name$ {\n            unknown: Vec::new(alloc),\n        }",
    ),
    ("merged", "keep_span(tag, &mut self.unknown, buf, context)"),
    (
        "owned",
        "Ok($name$ {\n            unknown: own_spans(alloc, &self.unknown)?,\n        })",
    ),
];

/// The module of the view of a message type, whose words the base has.
pub fn view_code_of(
    base: &Words,
    schema: &Schema,
    fields: &[Field],
) -> Result<String, GenerateError> {
    let mut page = Words::like(base);
    page.fill("uses", USES);
    for (row, field) in fields.iter().enumerate() {
        page.copy(
            &field.words,
            &["field", "at", "view_held", "view_kind", "view_code"],
        );
        page.index("row", row);
        set_numbers(&mut page, &field.words);
        put_field_comment(&mut page, schema);
        page.append_all(&OF_FIELD);
    }
    page.index("row", fields.len());
    page.append("declared", UNKNOWN);
    put_in_braces(&mut page, "declared");
    if fields.is_empty() {
        page.append("uses", "wire_views keep_span\nwire_views own_spans\n");
        page.fill_all(&OF_NONE);
    } else {
        page.append("uses", "wire_views view_fields\n");
        page.fill_all(&OF_SOME);
    }
    use_written(&mut page, fields.len());
    code_imports(&mut page);
    page.fill("ghosts", GHOSTS);
    ghost_imports(&mut page, "    ");
    page.set("full", base.get("full").trim_start_matches('.'));
    set_heading(&mut page, "//!", "The view of the message `$full$`.");
    page.fill("text", "$heading$$imports$\n/// The view of `$name$`.");
    page.append_all(&[("text", STRUCT)]);
    if !fields.is_empty() {
        page.set("given", "$($call:tt)*");
        page.set("handed_on", "$($call)*");
        page.append("text", ROWS);
    }
    page.append("text", VIEW);
    put_written(&mut page, fields.len());
    page.finish("text")
}
