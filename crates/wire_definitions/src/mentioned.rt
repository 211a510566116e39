//! Which names a text has.
use crate::imports::definition_imports;
use wire_schema::Words;

/// Of the lines of the word `named`, of a module and a name each, puts those to the word `uses` whose
/// name stands in the word `text`.
pub(crate) fn use_mentioned(page: &mut Words) {
    let named = page.take("named");
    let sorted = page.sorted(&named);
    let text = page.take("text");
    for line in sorted {
        let (module, import) = line.split_once(' ').unwrap_or((line, ""));
        if mentions(&text, import.trim_start_matches('◌').trim_end_matches('◌')) {
            page.set("of", module);
            page.set("import", import);
            page.append("uses", "$of$ $import$\n");
        }
    }
    page.set("text", &text);
}

/// Makes the lines of the word `uses` whose name stands in the word `text` the word `imports`.
pub fn use_mentioned_of(page: &mut Words) {
    page.fill_all(&[("named", "$uses$"), ("uses", "")]);
    use_mentioned(page);
    definition_imports(page);
}

// Whether a name or an operator stands in a text, and not as a part of another.
fn mentions(text: &str, name: &str) -> bool {
    text.lines().any(|line| {
        let mut words = line.split(' ');
        words.any(|word| name_in(word) == name)
    })
}

// A word without the brackets around it, and without what is taken of it.
fn name_in(word: &str) -> &str {
    let word = word.trim_start_matches('(');
    let (word, _) = word.split_once(')').unwrap_or((word, ""));
    let (word, _) = word.split_once('.').unwrap_or((word, ""));
    word.trim_end_matches(';').trim_end_matches(',')
}
