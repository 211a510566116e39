//! The struct of a oneof in the header, and how it lies in memory.
use crate::c_comment::put_c_comment;
use crate::c_header::{capital, comment_of, place_of, put_comments, put_member, set_view};
use crate::struct_fields::has_no_bytes_in;
use crate::struct_layout::Layout;
use wire_schema::{Field, GenerateError, Oneof, Schema, Template, Words, apart};

const TYPE: &str = "
/* The oneof `$full$`: `which` is the number of the field that stands, or 0. */
$c_comment$enum {
$numbers$};

typedef struct $c_name$ {
$members$} $c_name$;
";

const CLAIM: &str = "\
GTV_LAYOUT(size_of_$c_name$, sizeof($c_name$) == $size$);
$own_claims$";

// What C++ has of a field.
const VIEW: &str = "
inline std::optional<$cpp_item$> $c_field$(const $message_c_name$ &it) {
    return it.$oneof_field$.which == $digits$
        ? std::optional<$cpp_item$>($cpp_had$)
        : std::nullopt;
}
";

const OF_ONEOF: [Template; 3] = [
    ("c_name", "$prefix$_$module$"),
    ("members", ""),
    ("own_claims", ""),
];

/// Puts the struct of a oneof into the words of the header, before that of its message.
pub fn put_oneof(
    header: &mut Words,
    layouts: &[(String, Layout)],
    constants: &mut Vec<String>,
    (schema, field, oneof): (&Schema, &Field, &Oneof),
) -> Result<Layout, GenerateError> {
    let mut words = Words::like(header);
    words.fill("message_c_name", "$c_name$");
    words.copy(&oneof.words, &["module", "full"]);
    words.set("full", oneof.words.get("full").trim_start_matches('.'));
    words.set("oneof_field", field.words.get("c_field"));
    words.fill_all(&OF_ONEOF);
    words.fill_all(&[
        ("types", ""),
        ("claims", ""),
        ("views", ""),
        ("numbers", ""),
    ]);
    words.set("c_comment", "");
    put_c_comment(
        &mut words,
        "c_comment",
        "",
        comment_of(schema, &field.words),
    )?;
    let mut layout = Layout::new();
    words.set("c_member", "which");
    put_member(&mut words, &mut layout, "uint32_t", (4, 4));
    for variant in &oneof.variants {
        words.copy(variant, &["field", "c_field", "c_type", "digits"]);
        put_number(&mut words, constants)?;
        words.fill("c_member", "$c_field$");
        let c_type = String::from_str(words.alloc(), variant.get("c_type"))?;
        put_comments(&mut words, schema, variant)?;
        put_member(&mut words, &mut layout, &c_type, place_of(layouts, variant));
        words.fill("c_member", "$oneof_field$.$c_field$");
        set_view(&mut words);
        words.append("views", VIEW);
    }
    if has_no_bytes_in(&oneof.variants) {
        words.set("c_member", "no_bytes");
        put_member(&mut words, &mut layout, "gtv_bytes", (16, 8));
    }
    words.index("size", layout.size());
    words.append("numbers", "\n");
    words.append_all(&[("types", TYPE), ("claims", CLAIM)]);
    words.ended()?;
    for name in ["types", "claims", "views"] {
        header.set("of_oneof", words.get(name));
        header.append(name, "$of_oneof$");
    }
    Ok(layout)
}

// The number of a field as a constant.
fn put_number(words: &mut Words, constants: &mut Vec<String>) -> Result<(), GenerateError> {
    words.fill("constant", "$c_name$_$field$");
    let constant = capital(words.alloc(), words.get("constant"))?;
    let constant = apart(words.alloc(), constant, constants)?;
    words.set("constant", &constant);
    constants.push(constant)?;
    let is_first = words.get("numbers").is_empty();
    words.append("numbers", if is_first { "" } else { ",\n" });
    words.append("numbers", "    $constant$ = $digits$");
    words.ended()
}
