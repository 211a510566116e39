//! Comments of a schema in a header.
use std::alloc::Global;
use wire_schema::{GenerateError, Words};

/// Puts a comment of the schema behind the word of this name, behind so many spaces.
pub fn put_c_comment(
    page: &mut Words,
    name: &'static str,
    margin: &str,
    comment: &str,
) -> Result<(), GenerateError> {
    if comment.is_empty() {
        return Ok(());
    }
    let comment = plain(page.alloc(), comment.trim_end())?;
    page.set("margin", margin);
    let mut is_first = true;
    for line in comment.split('\n') {
        let line = line.strip_prefix(" ").unwrap_or(line).trim_end();
        page.set("line", line);
        page.append(
            name,
            match (is_first, line.is_empty()) {
                (true, _) => "$margin$/* $line$",
                (false, true) => "\n$margin$ *",
                (false, false) => "\n$margin$ * $line$",
            },
        );
        is_first = false;
    }
    page.append(name, " */\n");
    Ok(())
}

// A comment that neither ends one nor begins one within it: a space stands between the two signs.
fn plain(alloc: Global, comment: &str) -> Result<String, GenerateError> {
    let mut text = String::new(alloc);
    let mut before = ' ';
    for letter in comment.chars() {
        if matches!((before, letter), ('*', '/') | ('/', '*')) {
            text.push(' ')?;
        }
        text.push(letter)?;
        before = letter;
    }
    Ok(text)
}
