//! The code of a message type that holds itself: its fields of its own type, or of those that hold
//! it, are rows, and all others its leaf, which is written in runs between the rows.
use crate::choice_code::{ONCE_OF_CHOICE, put_declared, put_ghosts, put_no_rows, put_plain};
use crate::code::{put_head, put_leaf_field, set_leaf_rest};
use crate::defaults::{put_defaults, use_defaults};
use crate::leaf_groups::{end_group, end_last_group};
use crate::many_rows::{
    AT_ONCE, BY_ITSELF, put_arm_of_row, set_nested_arm, set_nested_variant, set_others_of_rows,
    width_of_arm,
};
use crate::member::{ALONE, ALONE_OF, EACH, MEMBER, MEMBER_OF, ONCE};
use crate::own_clone::set_own_clone;
use wire_definitions::{
    Tree, WIDTH, is_row, place_of, put_field_comment, put_field_in_run, put_part_head,
    put_required_rows, put_run, set_names, use_asked_rows,
};
use wire_schema::{Field, GenerateError, MessageType, Schema, Words};

const USES: &str = "\
bytes Buf
std::alloc Global
wire_codec DecodeContext
wire_codec DecodeError
wire_codec EncodeError
wire_codec EncodeSink
wire_codec MessageFields
wire_codec MessageName
wire_codec SizeCache
wire_codec Tag
wire_fields Parts
wire_fields Place
wire_fields RecursiveMember
$own_uses$";

const CODE: &str = "
impl RecursiveMember<$moved$> for $name$ {
$member_ghosts$
    ghost counted = { $module$-counted };

    fn empty(alloc: Global) -> $name$ {
        $name$ {$emptied$}
    }

    fn rows() -> usize {
        $count$
    }

    fn number($row_of_number$: usize) -> u32 {
$numbers_of_rows$    }

    fn place(number: u32) -> Place {
        match number {
$places$            _ => Place::Leaf,
        }
    }

$new_in$
$take$
$put$
$push$
    fn run_len(&self, run: usize, cache: &mut SizeCache) -> Result<u64, EncodeError> {
        match run {
$lens$        }
    }

    fn put_run<S: EncodeSink>(
        &self,
        run: usize,
        cache: &mut SizeCache,
        sink: &mut S,
    ) -> Result<(), EncodeError> {
        match run {
$puts$        }
    }

    fn merge_leaf<B: Buf>(
        &mut self,
        alloc: Global,
        tag: Tag,
        buf: &mut B,
        context: &mut DecodeContext,
    ) -> Result<(), DecodeError> {
$merge$    }
}

$row_head$        match row {
$rows$            _ => $own_slice$,
        }
    }
}

impl MessageFields for $name$ {
    ghost use Rattle.$crate$.specs.$name$.{$name$-Value};
    ghost use Rattle.$crate$.specs.$name$.{$module$-shape};

    ghost Value = { $name$-Value };

    ghost view = { $module$-value };

    ghost records = { $module$-shape.records };

    ghost default = { $module$-shape.default };

    ghost takes = { $module$-shape.takes };

    ghost single = { $module$-shape.single };

    fn default_value(alloc: Global) -> $name$ {
        $name$::empty(alloc)
    }

    fn compute_size(&self, cache: &mut SizeCache) -> Result<u32, EncodeError> {
        $size_call$
    }

    fn write_to<S: EncodeSink>(
        &self,
        cache: &mut SizeCache,
        sink: &mut S,
    ) -> Result<(), EncodeError> {
        $write_call$
    }

    fn merge_field<B: Buf>(
        &mut self,
        alloc: Global,
        tag: Tag,
        buf: &mut B,
        context: &mut DecodeContext,
    ) -> Result<(), DecodeError> {
$merge_held$    }

    fn clear(&mut self) {$cleared$}
}
";

const NEW_IN: &str = "    fn new_in(alloc: Global, row: usize) -> $moved$ {
        match row {
$news$            _ => $own_moved$,
        }
    }
";

const NO_NEW_IN: &str = "    fn new_in(alloc: Global, _row: usize) -> $moved$ {
        $own_moved$
    }
";

const TAKE: &str = "    fn take(&mut self, alloc: Global, row: usize) -> $moved$ {
        match row {
$takes$            _ => $own_moved$,
        }
    }
";

const NO_TAKE: &str = "    fn take(&mut self, alloc: Global, _row: usize) -> $moved$ {
        $own_moved$
    }
";

// The heads of a put and of a push, of some rows and of none, in a line and where it is longer.
const PUT: [&str; 2] = [
    "    fn put(&mut self, alloc: Global, row: usize, message: $moved$) \
     -> Result<(), DecodeError> {",
    "    fn put(
        &mut self,
        alloc: Global,
        row: usize,
        message: $moved$,
    ) -> Result<(), DecodeError> {",
];

const NO_PUT: [&str; 2] = [
    "    fn put(&mut self, _alloc: Global, _row: usize, _message: $moved$) \
     -> Result<(), DecodeError> {",
    "    fn put(
        &mut self,
        _alloc: Global,
        _row: usize,
        _message: $moved$,
    ) -> Result<(), DecodeError> {",
];

const PUSH: [&str; 2] = [
    "    fn push(&mut self, row: usize, message: $moved$) -> Result<(), DecodeError> {",
    "    fn push(
        &mut self,
        row: usize,
        message: $moved$,
    ) -> Result<(), DecodeError> {",
];

const NO_PUSH: [&str; 2] = [
    "    fn push(&mut self, _row: usize, _message: $moved$) -> Result<(), DecodeError> {",
    "    fn push(
        &mut self,
        _row: usize,
        _message: $moved$,
    ) -> Result<(), DecodeError> {",
];

const ARMS: &str = "
        match $matched$ {
$arms_of_call$            _ => $no_row$,
        }
    }
";

const NO_ARMS: &str = "
        $no_row$
    }
";

// How one more is put into a list, in a line and where it is longer.
const PUSHED: [&str; 2] = [
    "$arm$ => push_message(&mut self.$field$, message),",
    "$arm$ => {
                push_message(&mut self.$field$, message)
            }",
];

/// The module of a message type that holds itself, or is of a family, whose words the base has.
pub fn recursive_code(
    base: &Words,
    schema: &Schema,
    message: &MessageType,
    fields: &[Field],
    tree: &Tree,
) -> Result<String, GenerateError> {
    let mut page = Words::like(base);
    if is_member(&page) {
        page.fill_all(&MEMBER);
    } else {
        page.fill_all(&ALONE);
    }
    page.fill("uses", USES);
    page.fill_all(if tree.has_groups {
        &AT_ONCE
    } else {
        &BY_ITSELF
    });
    set_names(&mut page, fields);
    page.set("merged_apart", "");
    let mut count: usize = 0;
    let mut place: usize = 0;
    for field in fields {
        if is_row(field) {
            page.copy(&field.words, &["field", "number", "size", "at"]);
            page.copy(&field.words, &["of_name", "of_path"]);
            page.index("row", count);
            put_run(&mut page, false);
            put_row(&mut page, schema, field);
            count = count.saturating_add(1);
        } else {
            end_group(&mut page, tree, place);
            place = place.saturating_add(1);
            put_leaf(&mut page, schema, field);
        }
    }
    put_run(&mut page, true);
    page.index("count", count);
    put_numbers(&mut page, count);
    set_others_of_rows(&mut page);
    put_calls(&mut page);
    set_leaf_rest(&mut page);
    end_last_group(&mut page, tree);
    set_own_clone(&mut page, fields, tree);
    put_ghosts(&mut page);
    use_defaults(&mut page, fields);
    use_asked_rows(&mut page, fields);
    put_head(&mut page, schema, message);
    put_defaults(&mut page, fields, true);
    page.append_all(&[
        ("code", "$own_clone$"),
        ("code", CODE),
        ("code", "$drop_other$$merged_apart$"),
        ("code", "$parts$"),
    ]);
    put_required_rows(&mut page);
    page.finish("code")
}

// Whether the type is one of several that hold one another.
fn is_member(page: &Words) -> bool {
    !page.get("family_name").is_empty()
}

fn put_row(page: &mut Words, schema: &Schema, field: &Field) {
    page.copy(&field.words, &["choice_variant"]);
    let is_variant = !page.get("choice_variant").is_empty();
    if !is_variant {
        put_field_comment(page, schema);
    } else if field.oneof.is_some() {
        put_declared(page, schema);
    }
    page.fill_all(if is_member(page) {
        &MEMBER_OF
    } else {
        &ALONE_OF
    });
    set_nested_arm(page);
    page.set("arm_of_row", "");
    page.set("row_place", place_of(field));
    if page.get("of_name") != page.get("name") {
        page.append("uses", "$of_path$ $of_name$\n");
    }
    if field.words.get("kind").starts_with("Each") {
        page.append_all(&EACH);
        if is_member(page) {
            page.append(
                "news",
                "            $row$ => $moved_open$$of_name$::empty(alloc)$moved_shut$,\n",
            );
        }
        fill_within(page, &PUSHED, width_of_arm(page));
        page.fill("arm_of_row", "$line$\n");
        put_arm_of_row(page, "eaches");
        page.append("uses", "wire_fields push_message\n");
    } else {
        put_no_rows(page);
        page.append_all(if is_variant { &ONCE_OF_CHOICE } else { &ONCE });
        set_nested_variant(page);
        put_arm_of_row(page, "onces");
        page.append("uses", "std::slice from_ref\n");
    }
    page.fill("last_number", "$number$");
    page.append("numbered", "            $row$ => $number$,\n");
}

/// Makes the first of two templates the word `line`, or the second where it is longer than a line.
pub fn fill_line(page: &mut Words, forms: &'static [&'static str; 2]) {
    fill_within(page, forms, WIDTH);
}

// The same of a line of this width.
fn fill_within(page: &mut Words, forms: &'static [&'static str; 2], width: usize) {
    page.fill("line", forms[0]);
    if page.get("line").chars().count() > width {
        page.fill("line", forms[1]);
    }
}

// A field of the leaf: one of its run, and an arm.
fn put_leaf(page: &mut Words, schema: &Schema, field: &Field) {
    if let (Some(oneof), false) = (&field.oneof, field.words.get("in_choice").is_empty()) {
        page.copy(&field.words, &["field"]);
        put_declared(page, schema);
        put_part_head(page, &field.words);
        put_plain(page, oneof);
        page.copy(&field.words, &["number"]);
        return put_field_in_run(page, &field.words);
    }
    let field = &field.words;
    page.copy(field, &["field", "number", "kind", "held", "at", "code"]);
    put_leaf_field(page, schema, field);
    page.copy(field, &["number"]);
    put_field_in_run(page, field);
}

// The field numbers of the rows.
fn put_numbers(page: &mut Words, count: usize) {
    page.set("row_of_number", if count > 1 { "row" } else { "_row" });
    page.fill(
        "numbers_of_rows",
        if count > 1 {
            "        match row {\n$numbered$            _ => $last_number$,\n        }\n"
        } else {
            "        $last_number$\n"
        },
    );
}

/// The calls of rows, of which some may be for no row.
pub fn put_calls(page: &mut Words) {
    let has_new = !page.get("news").is_empty();
    page.fill("new_in", if has_new { NEW_IN } else { NO_NEW_IN });
    let has_once = !page.get("onces").is_empty();
    page.fill("take", if has_once { TAKE } else { NO_TAKE });
    put_call(page, "put", "$onces$", [&PUT, &NO_PUT]);
    put_call(page, "push", "$eaches$", [&PUSH, &NO_PUSH]);
}

// A call with an arm for each row, of the heads for some rows and for none.
fn put_call(
    page: &mut Words,
    call: &'static str,
    arms: &str,
    heads: [&'static [&'static str; 2]; 2],
) {
    page.fill("arms_of_call", arms);
    let is_none = page.get("arms_of_call").is_empty();
    fill_line(page, heads[usize::from(is_none)]);
    page.fill(call, "$line$");
    page.append(call, if is_none { NO_ARMS } else { ARMS });
}
