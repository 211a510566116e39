//! The constants of enums in the Rust crate over the static library of a schema's structs.
use wire_definitions::put_comment;
use wire_schema::{GenerateError, Words};

const ENUM: &str = "
/// The numbers of the enum `$full$`.
$documented$pub mod $module$ {
$rust_values$}
";

/// Puts the module of an enum, whose words those of the header are, into those of the root.
pub fn put_enum(words: &mut Words, header: &Words, comment: &str) -> Result<(), GenerateError> {
    words.copy(header, &["full", "module", "rust_values"]);
    words.fill("documented", "");
    if !comment.is_empty() {
        words.append("documented", "///\n");
        put_comment(words, "documented", "", comment);
    }
    words.append("enums", ENUM);
    words.ended()
}
