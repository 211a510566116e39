//! The header of the structs of a schema, and how each lies in memory.
use crate::c_comment::put_c_comment;
use crate::c_enum::put_enum;
use crate::c_oneof::put_oneof;
use crate::c_told::{CHARGES, CHARGES_GIVEN, ENTRY, TOLD, told_of};
use crate::rust_structs::RustCrate;
use crate::struct_fields::has_no_bytes;
use crate::struct_layout::Layout;
use crate::struct_left_out::put_left_out;
use std::alloc::Global;
use wire_definitions::set_heading;
use wire_schema::{EnumType, Field, GenerateError, MessageType, Schema, Template, Words};

const HEADER: &str = "\
/*
$heading$ *
 * What a struct is and what is asked of a caller is told in gettavil_structs.h. C99 and C++11, and
 * from C++17 on what fields hold as `std::string_view` and `std::optional`.
$left_out$ */
#ifndef $guard$_H
#define $guard$_H

#include \"gettavil_structs.h\"

#ifdef __cplusplus
extern \"C\" {
#endif
$enums$$types$$told$$calls$
#ifdef __cplusplus
}
#endif

$claims$
#if defined(__cplusplus) && __cplusplus >= 201703L
#include <optional>
#include <string_view>

namespace $prefix$ {
$views$
}
#endif

#endif
";

const LEFT_OUT: &str = " *\n * No struct is there for\n$left$";

const CALLS: &str = "
uint32_t $c_name$_read(const uint8_t *bytes, size_t len, $c_name$ *it);
uint32_t $c_name$_read_within(const uint8_t *bytes, size_t len,
                              const gtv_limits *limits, $c_name$ *it);
uint32_t $c_name$_fault(const uint8_t *bytes, size_t len, size_t *place);
uint32_t $c_name$_fault_within(const uint8_t *bytes, size_t len,
                               const gtv_limits *limits, size_t *place);
uint32_t $c_name$_unknown_record(gtv_bytes *walk, gtv_bytes *element);
$c_nexts$size_t $c_name$_size(const $c_name$ *it$c_lists$);
uint32_t $c_name$_write(const $c_name$ *it$c_lists$,
                        uint8_t *room, size_t room_len, size_t *len);
uint32_t $c_name$_size_keeping(const $c_name$ *it$c_lists$,
                               const uint8_t *bytes, size_t bytes_len, size_t *len);
uint32_t $c_name$_write_keeping(const $c_name$ *it$c_lists$,
                                const uint8_t *bytes, size_t bytes_len,
                                uint8_t *room, size_t room_len, size_t *len);
";

const NEXT: &str = "uint32_t $c_name$_next_$c_field$(gtv_bytes *walk, gtv_bytes *element);\n";

const NEXT_NUMBER: &str = "\
uint32_t $c_name$_next_$c_field$(gtv_numbers *walk, $element_type$ *number);
";

const LISTS: &str = "
/* The lists of a `$full$` that is written: pointers to the first element, and how many there
 * are. All is zero where there are none. */
typedef struct $c_name$_lists {
$c_listed$} $c_name$_lists;
";

const STRUCT: &str = "
/* The message `$full$`. */
$c_comment$typedef struct $c_name$ {
$members$} $c_name$;
";

const OF_MESSAGE: [Template; 3] = [
    ("types", STRUCT),
    ("calls", CALLS),
    (
        "claims",
        "GTV_LAYOUT(size_of_$c_name$, sizeof($c_name$) == $size$);\n$own_claims$",
    ),
];

const LISTS_CLAIM: &str =
    "GTV_LAYOUT(size_of_$c_name$_lists, sizeof($c_name$_lists) == $size_of_lists$);\n";

const CLAIM: &str =
    "GTV_LAYOUT($c_name$__$c_member$, offsetof($c_name$, $c_member$) == $offset$);\n";

// What C++ has of a field.
const VIEW: &str = "
inline $cpp_type$ $c_member$(const $c_name$ &it) {
    return $cpp_had$;
}
";

const OF_OPTIONAL: [Template; 2] = [
    ("cpp_type", "std::optional<$cpp_item$>"),
    (
        "cpp_had",
        "it.has_$c_field$ ? $cpp_type$($cpp_had$) : std::nullopt",
    ),
];

/// What the header has so far, and the Rust crate beside it.
#[derive(Drop)]
pub struct CHeader {
    words: Words,
    pub rust: RustCrate,
    // How each struct lies in memory, by the module of its message.
    layouts: Vec<(String, Layout)>,
    // Those of enums so far.
    constants: Vec<String>,
}

impl CHeader {
    /// The header of no messages.
    pub fn new(base: &Words) -> CHeader {
        let mut words = Words::like(base);
        // (parameters are called so too)
        words.fill_all(&[("prefix", "$c$"), ("enums", ""), ("views", "")]);
        CHeader {
            rust: RustCrate::new(&words),
            layouts: Vec::new(words.alloc()),
            constants: Vec::new(words.alloc()),
            words,
        }
    }

    /// The modules of the messages that have structs, between spaces.
    pub fn inside(&self) -> &str {
        self.words.get("inside")
    }

    /// Says why a message has no struct.
    pub fn leave_out(
        &mut self,
        message: &MessageType,
        why: (&str, &str),
    ) -> Result<(), GenerateError> {
        put_left_out(&mut self.words, message, why)
    }

    /// The struct of a message, and its calls; its module in the Rust crate.
    pub fn put_message(
        &mut self,
        schema: &Schema,
        message: &MessageType,
        fields: &[Field],
    ) -> Result<String, GenerateError> {
        let words = &mut self.words;
        let comment = match message.is_entry() {
            true => ENTRY,
            false => schema.comment(message.words.get("place")),
        };
        begin_message(words, message, comment)?;
        let mut layout = Layout::new();
        for field in fields {
            if let Some(oneof) = &field.oneof {
                let constants = &mut self.constants;
                let inner = put_oneof(words, &self.layouts, constants, (schema, field, oneof))?;
                let place = (inner.size(), inner.align);
                words.copy(&field.words, &["c_field", "c_type"]);
                words.fill("c_member", "$c_field$");
                let c_type = words.take("c_type");
                put_member(words, &mut layout, &c_type, place);
                continue;
            }
            words.copy(&field.words, &["c_field", "c_type", "presence"]);
            if !words.get("presence").is_empty() {
                words.fill("c_member", "has_$c_field$");
                put_member(words, &mut layout, "bool", (1, 1));
            }
            put_comments(words, schema, &field.words)?;
            let place = place_of(&self.layouts, &field.words);
            put_field(words, &mut layout, &field.words, place)?;
        }
        if has_no_bytes(fields) {
            words.set("c_member", "no_bytes");
            put_member(words, &mut layout, "gtv_bytes", (16, 8));
        }
        words.index("size", layout.size());
        words.append_all(&OF_MESSAGE);
        put_lists(words);
        let module = String::from_str(words.alloc(), words.get("module"))?;
        self.layouts.push((module, layout))?;
        self.rust.put_message(&self.words, comment, schema, fields)
    }

    /// The constants of an enum.
    pub fn put_enum(&mut self, schema: &Schema, of_enum: &EnumType) -> Result<(), GenerateError> {
        put_enum(&mut self.words, &mut self.constants, schema, of_enum)?;
        let comment = schema.comment(of_enum.words.get("place"));
        self.rust.put_enum(&self.words, comment)
    }

    /// A line for each message that has no struct, and why.
    pub fn left_out(&self) -> &str {
        self.words.get("told_left")
    }

    /// The header.
    pub fn finish(&mut self) -> Result<String, GenerateError> {
        let words = &mut self.words;
        let guard = capital(words.alloc(), words.get("prefix"))?;
        words.set("guard", &guard);
        set_heading(
            words,
            " *",
            "Messages as structs, read in place and written.",
        );
        if !words.get("left").is_empty() {
            words.fill("left_out", LEFT_OUT);
        }
        let is_given = !words.get("element").is_empty();
        words.fill("charges", if is_given { CHARGES_GIVEN } else { CHARGES });
        words.fill("told", "\n");
        words.append("told", TOLD);
        words.fill("header", HEADER);
        words.finish("header")
    }
}

const OF_NO_FIELD: [Template; 8] = [
    ("c_name", "$prefix$_$module$"),
    ("members", ""),
    ("own_claims", ""),
    ("c_nexts", ""),
    ("c_listed", ""),
    ("c_lists", ""),
    ("list_marks", ""),
    ("c_comment", ""),
];

// Sets the words of a message, before its fields.
fn begin_message(
    words: &mut Words,
    message: &MessageType,
    comment: &str,
) -> Result<(), GenerateError> {
    words.copy(&message.words, &["name", "module"]);
    words.set("full", message.words.get("full").trim_start_matches('.'));
    words.fill_all(&OF_NO_FIELD);
    put_c_comment(words, "c_comment", "", comment)
}

// Puts the struct of the lists of a message, where it has some; one that has none may stand within
// another.
fn put_lists(words: &mut Words) {
    if words.get("c_lists").is_empty() {
        return words.append("inside", " $module$ ");
    }
    // (a pointer and a length each)
    let size = words.get("list_marks").len().saturating_mul(16);
    words.index("size_of_lists", size);
    words.append_all(&[("types", LISTS), ("claims", LISTS_CLAIM)]);
}

/// The comment of a field.
pub fn comment_of<'a>(schema: &'a Schema, field: &Words) -> &'a str {
    schema.comment(field.get("comment_place"))
}

/// Puts what is told of a field before its member.
pub fn put_comments(
    words: &mut Words,
    schema: &Schema,
    field: &Words,
) -> Result<(), GenerateError> {
    put_c_comment(words, "members", "    ", comment_of(schema, field))?;
    let told = told_of(words, field);
    put_c_comment(words, "members", "    ", told)
}

/// How many bytes a field takes, and what its place is a multiple of.
pub fn place_of(layouts: &[(String, Layout)], field: &Words) -> (usize, usize) {
    let of = field.get("of_module");
    match layouts.iter().find(|(module, _)| module.as_str() == of) {
        Some((_, inner)) if field.get("is_mixed") == "mixed" => (inner.size(), inner.align),
        _ => {
            let size = field.get("c_size").parse::<usize>().unwrap_or(8);
            (size, size.min(8))
        }
    }
}

// The member of a field, or of a list its count, and what C++ has of it.
fn put_field(
    words: &mut Words,
    layout: &mut Layout,
    field: &Words,
    place: (usize, usize),
) -> Result<(), GenerateError> {
    let c_type = String::from_str(words.alloc(), field.get("c_type"))?;
    let is_list = field.get("is_mixed") == "list";
    if is_list {
        put_list(words, field);
    }
    words.fill(
        "c_member",
        if is_list {
            "$c_field$_count"
        } else {
            "$c_field$"
        },
    );
    put_member(words, layout, &c_type, place);
    put_view(words);
    Ok(())
}

/// A member of a struct, and that it lies where it is claimed to.
pub fn put_member(words: &mut Words, layout: &mut Layout, c_type: &str, place: (usize, usize)) {
    words.set("member_type", c_type);
    words.append("members", "    $member_type$ $c_member$;\n");
    let offset = layout.put(place);
    words.index("offset", offset);
    words.append("own_claims", CLAIM);
}

// What there is of a list beside its count.
fn put_list(words: &mut Words, field: &Words) {
    let is_of_messages = field.get("kind").starts_with("Each");
    let is_of_numbers = !field.get("is_of_numbers").is_empty();
    words.copy(field, &["of_module", "field", "c_listed_type"]);
    words.fill(
        "element_type",
        match is_of_messages {
            true => "$prefix$_$of_module$",
            false if is_of_numbers => "$c_listed_type$",
            false => "gtv_bytes",
        },
    );
    words.append(
        "c_listed",
        "    const $element_type$ *$c_field$;\n    size_t $c_field$_len;\n",
    );
    words.append("c_nexts", if is_of_numbers { NEXT_NUMBER } else { NEXT });
    words.append("list_marks", "+");
    words.fill("c_lists", ", const $c_name$_lists *lists");
}

fn put_view(words: &mut Words) {
    set_view(words);
    words.fill("cpp_type", "$cpp_item$");
    if !words.get("presence").is_empty() {
        words.fill_all(&OF_OPTIONAL);
    }
    words.append("views", VIEW);
}

/// What a field is in C++, and how that is had of a struct.
pub fn set_view(words: &mut Words) {
    let is_text = words.get("c_type") == "gtv_bytes";
    words.fill_all(if is_text {
        &[
            ("cpp_item", "std::string_view"),
            ("cpp_had", "gtv_view(it.$c_member$)"),
        ]
    } else {
        &[("cpp_item", "$c_type$"), ("cpp_had", "it.$c_member$")]
    });
}

/// The name in capitals.
pub fn capital(alloc: Global, name: &str) -> Result<String, GenerateError> {
    Ok(name.to_ascii_uppercase(alloc)?)
}
