//! The rows of a message type, one a field, from which its calls are read.
use wire_definitions::{Node, Tree};
use wire_schema::{Field, Words};

const ROWS: &str = "
// The fields of `$name$`: their numbers, names and kinds.
macro_rules! rows {
    ($given$) => {
        fields!(
            $handed_on$
$rows$            _ => $rest_row$
        )
    };
}
";

const PART_ROWS: &str = "
// The fields $low$ to $high$, which are a part by themselves.
macro_rules! rows_$low$_to_$high$ {
    ($given$) => {
        fields!(
            $handed_on$
$rows$        )
    };
}
";

const ROW: &str = "            $all_numbers$ => $field$: $kind$,\n";

const INNER: &str = "            ..$part_type$(rows_$low$_to_$high$),\n";

/// Puts the rows of a message behind its code so far, with those of its parts.
pub fn put_rows(page: &mut Words, fields: &[Field], tree: &Tree) {
    page.set("given", "$($call:tt)*");
    page.set("handed_on", "$($call)*");
    set_rows(page, fields, tree, None);
    page.append("code", ROWS);
    for place in 0..fields.len() {
        for part in tree.parts.iter().rev() {
            if part.first == place {
                set_rows(page, fields, tree, Some(part));
                page.copy(&part.words, &["low", "high"]);
                page.append("code", PART_ROWS);
            }
        }
    }
}

// The rows of a part by itself, or without one those of what is in none.
fn set_rows(page: &mut Words, fields: &[Field], tree: &Tree, part: Option<&Node>) {
    page.set("rows", "");
    for (place, field) in fields.iter().enumerate() {
        if tree.has(part, place, place.saturating_add(1)) {
            page.copy(&field.words, &["field", "kind"]);
            set_numbers(page, &field.words);
            page.append("rows", ROW);
        }
        for inner in &tree.parts {
            if inner.first == place && tree.has_part(part, inner) {
                page.copy(&inner.words, &["low", "high", "part_type"]);
                page.append("rows", INNER);
            }
        }
    }
}

/// The numbers of a field, each with the way in which its records are taken: `all_numbers` as a row
/// has them, and `taken`, a line for each.
pub fn set_numbers(page: &mut Words, field: &Words) {
    page.fill_all(&[("all_numbers", ""), ("taken", "")]);
    let mut types = field.get("all_types").split(' ');
    let mut calls = field.get("all_calls").split(' ');
    for number in field.get("numbers").split(' ') {
        page.set("number", number);
        page.set("own_types", or_else(types.next(), field.get("own_types")));
        let is_first = page.get("all_numbers").is_empty();
        page.append("all_numbers", if is_first { "" } else { " | " });
        let is_map = field.get("kind").starts_with("Map<");
        page.set("call", or_else(calls.next(), field.get("call")));
        set_way(page, is_map);
        let has_way = !page.get("way").is_empty();
        page.append(
            "all_numbers",
            if has_way {
                "$number$ [$way$]"
            } else {
                "$number$"
            },
        );
        page.append("taken", "$number$\t$way$\n");
    }
}

// The way in which the records of a number are taken, by its call: none, where it is the kind's.
fn set_way(page: &mut Words, is_map: bool) {
    page.fill(
        "way",
        match page.get("call") {
            "merge" => "",
            "merge_closed" if is_map => "closed_map",
            "merge_closed" => "closed",
            "merge_closed_each" => "closed_each",
            "merge_or_keep" => "types OwnTypes::$own_types$",
            _ => "$call$",
        },
    );
}

// The word of one number of a oneof, or that of the whole field.
fn or_else<'a>(own: Option<&'a str>, field: &'a str) -> &'a str {
    match own {
        None | Some("") => field,
        Some(own) => own,
    }
}
