//! What the variants of a oneof are called of which some are rows.
use wire_schema::{Field, Template, Words};

/// Tells the page the names of all variants of such a oneof, the word `choice_names`.
pub fn set_names(page: &mut Words, fields: &[Field]) {
    page.fill_all(&[("choice_names", ""), ("choice_ghosts", "")]);
    let is_alone = page.get("family_name").is_empty();
    page.fill("home", if is_alone { "$name$" } else { "$family_name$" });
    for field in fields {
        if let (Some(oneof), false) = (&field.oneof, field.words.get("in_choice").is_empty()) {
            for variant in &oneof.variants {
                page.copy(variant, &["variant"]);
                page.append("choice_names", "$variant$ ");
            }
        }
        if !field.words.get("choice_variant").is_empty() {
            page.copy(&field.words, &["choice_variant"]);
            page.append("choice_names", "$choice_variant$ ");
        }
    }
}

/// A line for each of the other variants of the one whose name this word is.
pub fn put_others(page: &mut Words, own: &'static str, line: &'static Template) {
    let names = page.take("choice_names");
    for name in names.split(' ') {
        if !name.is_empty() && name != page.get(own) {
            page.set("other", name);
            page.append(line.0, line.1);
        }
    }
    page.set("choice_names", &names);
}

/// What a definition calls a variant of this name, where all enums of a family are taken together.
pub(crate) fn set_opened(page: &mut Words, name: &str) {
    let names = page.get("all_variants");
    let is_shared = names.split(' ').filter(|it| *it == name).count() > 1;
    page.set("opened", name);
    if is_shared {
        page.fill("opened", "$choice$::$opened$");
    }
}

/// Puts the names of the variants of a oneof of which some are rows behind the word `all_variants`.
pub fn put_all_variants(page: &mut Words, fields: &[Field]) {
    for field in fields {
        if let Some(oneof) = &field.oneof {
            if !oneof.rows.is_empty() {
                for variant in oneof.variants.iter().chain(oneof.rows.iter()) {
                    page.copy(variant, &["variant"]);
                    page.append("all_variants", "$variant$ ");
                }
            }
        }
    }
}
