//! Comments of a schema as documentation may have them.
use crate::error::GenerateError;
use std::alloc::Global;

// How many columns a tab is.
const TAB: &str = "    ";

/// A comment without what documentation can't have: a tab is four spaces, what else parts lines or
/// moves on the page is one, and other control characters and marks of direction are left out.
pub(crate) fn documentation(alloc: Global, comment: &str) -> Result<String, GenerateError> {
    let mut text = String::new(alloc);
    for letter in comment.chars() {
        match letter {
            '\n' => text.push(letter)?,
            '\t' => text.push_str(TAB)?,
            '\r' | '\u{b}' | '\u{c}' | '\u{85}' | '\u{2028}' | '\u{2029}' => text.push(' ')?,
            _ if is_left_out(letter) => {}
            _ => text.push(letter)?,
        }
    }
    Ok(text)
}

// Control characters, and marks of the direction of writing, which are not seen.
fn is_left_out(letter: char) -> bool {
    matches!(
        letter,
        '\0'..='\u{1f}'
            | '\u{7f}'..='\u{9f}'
            | '\u{61c}'
            | '\u{200e}'
            | '\u{200f}'
            | '\u{202a}'..='\u{202e}'
            | '\u{2066}'..='\u{2069}'
            | '\u{feff}'
    )
}
