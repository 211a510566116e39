//! The code of the rows of a view: fields of its own type, or of those that hold it.
use crate::recursive::fill_line;
use crate::view_choice::{DECLARED, ONCE_OF_CHOICE};
use wire_definitions::put_field_comment;
use wire_schema::{Field, Schema, Template, Words};

// What there is for a row of many messages, and of one at most: `nones`, what it is in the view of
// no records, and its arms.
const EACH: [Template; 5] = [
    ("declared", "    pub $field$: Vec<$of_view$<'a>>,\n"),
    ("nones", ", $field$: Vec::new(alloc)"),
    ("lines_of_nones", "            $field$: Vec::new(alloc),\n"),
    ("uses", "wire_fields push_message\n"),
    ("eaches", "$line$\n"),
];

const ONCE: [Template; 5] = [
    ("declared", "    pub $field$: Option<Box<$of_view$<'a>>>,\n"),
    ("nones", ", $field$: None"),
    ("lines_of_nones", "            $field$: None,\n"),
    (
        "takes",
        "            $row$ => {
                match self.$field$.take() {
                    Some(message) => $moved_open$Box::into_inner(message)$moved_shut$,
                    None => $moved_open$$of_view$::default_view(alloc)$moved_shut$,
                }
            }
",
    ),
    (
        "onces",
        "$arm$ => {
                self.$field$ = Some(Box::new(alloc, message)?);
                Ok(())
            }
",
    ),
];

const PUSHED: [&str; 2] = [
    "$arm$ => push_message(&mut self.$field$, message),",
    "$arm$ => {
                push_message(&mut self.$field$, message)
            }",
];

const ROW_OF_ALONE: [Template; 2] = [("moved_open", ""), ("arm", "            $row$")];

const ROW_OF_MEMBER: [Template; 2] = [
    ("moved_open", "FamilyView::$of_name$("),
    ("arm", "            ($row$, FamilyView::$of_name$(message))"),
];

const NEW: Template = (
    "news",
    "            $row$ => $moved_open$$of_view$::default_view(alloc)$moved_shut$,\n",
);

/// Puts a row of the view of one of several types that hold one another, or of a type that holds
/// itself alone.
pub fn put_row(page: &mut Words, schema: &Schema, field: &Field, is_member: bool) {
    page.copy(&field.words, &["of_name", "of_view", "of_view_path"]);
    page.copy(&field.words, &["choice_variant"]);
    let is_variant = !page.get("choice_variant").is_empty();
    if is_variant {
        page.set("at", "");
    }
    if !is_variant || field.oneof.is_some() {
        put_field_comment(page, schema);
    }
    if field.oneof.is_some() {
        page.append_all(&DECLARED);
    }
    page.fill_all(if is_member {
        &ROW_OF_MEMBER
    } else {
        &ROW_OF_ALONE
    });
    if page.get("of_view") != page.get("view_name") {
        page.append("uses", "$of_view_path$ $of_view$\n");
    }
    if field.words.get("kind").starts_with("Each") {
        fill_line(page, &PUSHED);
        page.append_all(&EACH);
        if is_member {
            page.append_all(&[NEW]);
        }
    } else {
        page.append_all(if is_variant { &ONCE_OF_CHOICE } else { &ONCE });
    }
}
