//! The code of the view of a message type that holds itself, alone or as one of several that hold
//! one another: the fields of these types are rows, and the loops that read them are those of the
//! message.
use crate::field_rows::set_numbers;
use crate::many_rows::set_others_of_rows;
use crate::recursive::put_calls;
use crate::view_choice::{self, DECLARED, put_arms, put_variants};
use crate::view_code::{OF_FIELD, ROWS, STRUCT, UNKNOWN};
use crate::view_rows::put_row;
use wire_definitions::{
    code_imports, ghost_imports, is_row, put_field_comment, set_heading, set_names,
};
use wire_schema::{Field, GenerateError, Schema, Template, Words};

const USES: &str = "\
crate::$module$ $name$
std::alloc Global
wire_codec DecodeContext
wire_codec DecodeError
wire_codec Tag
wire_fields merge_held
wire_views MessageView
wire_views UnknownSpan
$own_uses$";

// What a type that holds itself alone has of its own: a view moved out of its view is of the type
// itself.
const ALONE: [Template; 8] = [
    (
        "own_uses",
        "wire_fields Place\nwire_fields RecursiveHeld\nwire_fields RecursiveMember\n",
    ),
    ("moved", "$view_name$<'a>"),
    ("own_moved", "$view_name$::default_view(alloc)"),
    ("matched", "row"),
    ("held_ghosts", ALONE_GHOSTS),
    (
        "merge_held",
        "        merge_held(self, alloc, tag, buf, context)\n",
    ),
    ("cycle", ""),
    ("moved_shut", ""),
];

const ALONE_GHOSTS: &str = "\
Rattle.wire_fields.specs.NestTable alone
Rattle.$crate$.specs.$name$ $name$-Leaf
Rattle.$crate$.specs.$name$ $module$-leaf
Rattle.$crate$.specs.$name$ $module$-table
Rattle.$crate$.specs.$name$ $module$-view_value
";

const ALONE_HEAD: &str = "
impl<'a> RecursiveHeld<&'a [u8]> for $view_name$<'a> {
$ghost_imports$
    ghost Sort = { Unit {0} };

    ghost Leaf = { $name$-Leaf };

    ghost sort = { λ m. tt };

    ghost view = { $module$-view_value };

    ghost family = { alone $module$-table };

    ghost single = { λ reading s. $module$-leaf.single reading };

    fn place(&self, number: u32) -> Place {
        <$name$ as RecursiveMember<$name$>>::place(number)
    }

    fn new_in(&self, alloc: Global, _row: usize) -> $moved$ {
        $own_moved$
    }
";

// What one of several that hold one another has of its own: a view moved out of its view is one of
// an enum of all of them.
const MEMBER: [Template; 8] = [
    (
        "own_uses",
        "crate::$family_view_module$ FamilyView
crate::$family_view_module$ owned_$module$
std::mem replace
wire_views RecursiveView
",
    ),
    ("moved", "FamilyView<'a>"),
    (
        "own_moved",
        "FamilyView::$name$($view_name$::default_view(alloc))",
    ),
    ("matched", "(row, message)"),
    ("held_ghosts", MEMBER_GHOSTS),
    ("merge_held", MERGE_HELD),
    ("cycle", "#[cycle($family_view_module$)]\n"),
    ("moved_shut", ")"),
];

const MEMBER_GHOSTS: &str = "\
Rattle.$crate$.specs.$family_name$ $module$-view_value
Rattle.$crate$.specs.$family_name$ $name$-Sort
Rattle.$crate$.specs.$family_name$ Family-Leaves
Rattle.$crate$.specs.$family_name$ Family-Sorts
Rattle.$crate$.specs.$family_name$ family-all
Rattle.$crate$.specs.$family_name$ family-view-sort
Rattle.$crate$.specs.$family_name$ family-view-value
";

const MEMBER_HEAD: &str = "
impl<'a> RecursiveView<FamilyView<'a>> for $view_name$<'a> {
$ghost_imports$
    type Source = &'a [u8];

    ghost Sort = { Family-Sorts };

    ghost Leaf = { Family-Leaves };

    ghost sort = { $name$-Sort };

    ghost view = { $module$-view_value };

    ghost held_sort = { family-view-sort };

    ghost held_view = { family-view-value };

    ghost family = { family-all };

$new_in$";

const MERGE_HELD: &str =
    "        let mut held = FamilyView::$name$(replace(self, $view_name$::default_view(alloc)));
        let merged = merge_held(&mut held, alloc, tag, buf, context);
        match held {
            FamilyView::$name$(message) => *self = message,
$other_views$        }
        merged
";

const CALLS: &str = "
$take$
$put$
$push$
    fn merge_leaf(
        &mut self,
        $alloc$: Global,
        tag: Tag,
        buf: &mut &'a [u8],
        context: &mut DecodeContext,
    ) -> Result<(), DecodeError> {
        $merged$
    }
}
";

const VIEW_GHOSTS: &str = "\
Rattle.$crate$.specs.$name$ $name$-Value
Rattle.$crate$.specs.$name$ $module$-shape
Rattle.$crate$.specs.$name$ $module$-value
Rattle.$crate$.specs.$name$ $module$-view_value
";

const VIEW: &str = "
impl<'a> MessageView for $view_name$<'a> {
$ghost_imports$
    type Source = &'a [u8];

    type Owned = $name$;

    ghost Value = { $name$-Value };

    ghost view = { $module$-view_value };

    ghost owned = { $module$-value };

    ghost records = { $module$-shape.records };

    ghost default = { $module$-shape.default };

    ghost takes = { $module$-shape.takes };

    ghost single = { $module$-shape.single };

    fn default_view(alloc: Global) -> $view_name$<'a> {
        $empty$
    }

    fn merge_field(
        &mut self,
        alloc: Global,
        tag: Tag,
        buf: &mut &'a [u8],
        context: &mut DecodeContext,
    ) -> Result<(), DecodeError> {
$merge_held$    }

    fn own(&self, alloc: Global) -> Result<$name$, DecodeError> {
        owned_$module$(alloc, self)
    }
}
";

// The calls of the fields that are no rows, of which the macro's rows stand above.
const OF_SOME: [Template; 4] = [
    ("alloc", "alloc"),
    ("uses", "$uses$wire_views view_fields\n"),
    ("empty", "rows!(empty($view_name$, alloc$nones$))"),
    ("merged", "rows!(merge(self, alloc, tag, buf, context))"),
];

// Those of a type that has no other field.
const OF_NONE: [Template; 4] = [
    ("alloc", "_alloc"),
    ("uses", "$uses$wire_views keep_span\n"),
    (
        "empty",
        "$view_name$ {\n$lines_of_nones$            unknown: Vec::new(alloc),\n        }",
    ),
    ("merged", "keep_span(tag, &mut self.unknown, buf, context)"),
];

// Those of a type with a oneof of which some variants are rows and others are not.
const OF_CHOICE: [Template; 4] = [
    ("alloc", "alloc"),
    ("uses", "$uses$wire_views keep_span\n"),
    (
        "empty",
        "$view_name$ {\n$lines_of_nones$            unknown: Vec::new(alloc),\n        }",
    ),
    (
        "merged",
        "match tag.field_number() {
$arms$            _ => keep_span(tag, &mut self.unknown, buf, context),
        }",
    ),
];

/// The module of the view of a message type that holds itself or is of a family, whose words the
/// base has. How the message is made of it is told of a type that holds itself alone: the words
/// `all_owned` and `head_ghosts`.
pub fn recursive_view_of(
    base: &Words,
    schema: &Schema,
    fields: &[Field],
) -> Result<String, GenerateError> {
    let mut page = Words::like(base);
    let is_member = !page.get("family_name").is_empty();
    page.fill_all(if is_member { &MEMBER } else { &ALONE });
    if !page.get("choice").is_empty() && !is_member {
        page.fill("cycle", "#[cycle($view_module$)]\n");
    }
    page.append("uses", USES);
    page.set("news", "");
    set_names(&mut page, fields);
    let is_plain = fields.iter().all(|it| it.words.get("in_choice").is_empty());
    let (mut row, mut place) = (0usize, 0usize);
    for field in fields {
        page.copy(
            &field.words,
            &["field", "at", "view_held", "view_kind", "view_code"],
        );
        if is_row(field) {
            page.index("row", row);
            put_row(&mut page, schema, field, is_member);
            row = row.saturating_add(1);
        } else {
            page.index("row", place);
            put_leaf(&mut page, schema, field, is_plain);
            place = place.saturating_add(1);
        }
    }
    page.index("row", place);
    set_others_of_rows(&mut page);
    put_calls(&mut page);
    page.append("declared", UNKNOWN);
    page.fill("declared", "\n$declared$");
    page.fill_all(match (place, is_plain) {
        (0, _) => &OF_NONE,
        (_, true) => &OF_SOME,
        (_, false) => &OF_CHOICE,
    });
    page.set("full", base.get("full").trim_start_matches('.'));
    put_text(&mut page, is_plain && place > 0);
    page.finish("text")
}

// A field of the leaf, of a type whose rows are read by a macro or not.
fn put_leaf(page: &mut Words, schema: &Schema, field: &Field, is_plain: bool) {
    if let (Some(oneof), false) = (&field.oneof, field.words.get("in_choice").is_empty()) {
        page.set("at", "");
        put_field_comment(page, schema);
        page.append_all(&DECLARED);
        return put_variants(page, oneof);
    }
    put_field_comment(page, schema);
    if is_plain {
        set_numbers(page, &field.words);
        page.append_all(&OF_FIELD);
    } else {
        page.append_all(&view_choice::OF_FIELD);
        put_arms(page, &field.words);
    }
}

// The module, of what there is of its parts.
fn put_text(page: &mut Words, has_leaf: bool) {
    let is_member = !page.get("family_name").is_empty();
    code_imports(page);
    page.fill("ghosts", "$head_ghosts$$choice_ghosts$");
    let has_ghosts = !page.get("ghosts").is_empty();
    ghost_imports(page, "");
    page.fill(
        "imports_of_ghosts",
        if has_ghosts { "$ghost_imports$\n" } else { "" },
    );
    set_heading(page, "//!", "The view of the message `$full$`.");
    page.fill(
        "text",
        "$heading$$imports_of_ghosts$$imports$\n/// The view of `$name$`.\n$cycle$",
    );
    page.fill("struct", STRUCT);
    let declared = page.take("struct");
    page.set("struct", declared.trim_start_matches('\n'));
    page.append("text", "$struct$");
    if has_leaf {
        page.set("given", "$($call:tt)*");
        page.set("handed_on", "$($call)*");
        page.append("text", ROWS);
    }
    page.fill("ghosts", "$held_ghosts$");
    ghost_imports(page, "    ");
    page.append("text", if is_member { MEMBER_HEAD } else { ALONE_HEAD });
    page.append("text", CALLS);
    page.fill("ghosts", VIEW_GHOSTS);
    ghost_imports(page, "    ");
    page.append("text", VIEW);
    page.append("text", "$view_parts$$all_owned$");
}
