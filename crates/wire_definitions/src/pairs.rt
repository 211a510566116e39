//! A field as a node of the tree of a message's fields, and two nodes as a pair.
use crate::choice_spot::{CLOSED_SPOT, LEAVING_SPOT, SPOT, SPOT_IN_FIRST, SPOT_IN_SECOND};
use crate::tree::Node;
use wire_schema::{Field, Template, Words};

const LEAF: [Template; 12] = [
    ("grouping", "single"),
    ("low", "$number$"),
    ("high", "$number$"),
    ("value", "$bracketed$"),
    ("view", "$view$"),
    ("seen", "$view$"),
    ("table", "$table$"),
    ("range", "$range$"),
    ("returned", "$returned$"),
    ("stays", "$stays$"),
    ("apart", "$apart$"),
    ("goes", "$apart$"),
];

// The widest line of such a word that may stand in another: it has room for what is before it.
const MOST_NESTED: usize = 72;

// What is taken over from the right part of a pair.
const RIGHT: [Template; 13] = [
    ("right_grouping", "grouping"),
    ("right_view_seen", "view_seen"),
    ("right_value", "value"),
    ("right_view", "view"),
    ("right_seen", "seen"),
    ("right_table", "table"),
    ("right_unlike", "unlike"),
    ("right_range", "range"),
    ("right_returned", "returned"),
    ("right_stays", "stays"),
    ("right_apart", "apart"),
    ("right_goes", "goes"),
    ("high", "high"),
];

const PAIR: [Template; 12] = [
    ("grouping", "(paired $grouping$\n    $right_grouping$)"),
    ("view_seen", "(\n$view_seen$,\n$right_view_seen$,\n)"),
    ("value", "($value$\n    × $right_value$)"),
    ("view", "(\n$view$,\n$right_view$,\n)"),
    ("seen", "(\n$seen$,\n$right_seen$,\n)"),
    ("table", "$both$ ($table$)\n    ($right_table$)"),
    (
        "unlike",
        "neither _ _$unlike_gap$($unlike$)\n$margin$($right_unlike$)",
    ),
    (
        "range",
        "pair_range$range_gap$($range$)\n    ($right_range$)",
    ),
    (
        "returned",
        "$both_returned$ g\n    ($returned$)\n    ($right_returned$)\n    (λ n p h. $right_apart$)",
    ),
    ("stays", "$both_stays$\n    ($stays$)\n    ($right_stays$)"),
    (
        "apart",
        "elim h [\n      | inl h ↦ $apart$\n      | inr h ↦ $right_in$\n    ]",
    ),
    (
        "goes",
        "elim h [\n      | inl h ↦ $goes$\n      | inr h ↦ $right_goes$\n    ]",
    ),
];

// How the fields are reached that stand in the first of a pair, and in the second: the `path`, the
// same with first parts alone, and the proof that a step is taken there.
const FIRST: [Template; 3] = [
    ("path", ".0$path$"),
    ("firsts", ".0$firsts$"),
    ("taken", "($taken$, refl)"),
];

const SECOND: [Template; 3] = [
    ("path", ".1$path$"),
    ("firsts", ".0$firsts$"),
    ("taken", "($taken$, refl)"),
];

/// A field by itself.
pub(crate) fn leaf(base: &Words, place: usize, field: &Words) -> Node {
    let mut words = Words::new(field.alloc());
    words.copy(base, &["name", "module", "part_view"]);
    if words.get("part_view").is_empty() {
        words.set("part_view", "value");
    }
    words.copy(field, &OF_FIELD);
    words.fill_all(&LEAF);
    if !field.get("in_choice").is_empty() {
        set_spot(&mut words, field);
        words.copy(base, &["module"]);
    }
    set_unlike(&mut words, field);
    Node {
        first: place,
        behind: place.saturating_add(1),
        words,
    }
}

const OF_FIELD: [&str; 14] = [
    "number",
    "bracketed",
    "view",
    "view_seen",
    "table",
    "both",
    "margin",
    "range",
    "returned",
    "both_returned",
    "both_stays",
    "stays",
    "apart",
    "maps",
];

// The words of a oneof of which some variants are rows.
fn set_spot(words: &mut Words, field: &Words) {
    words.copy(field, &["module", "set_part"]);
    words.fill_all(&SPOT);
    if field.get("sort") == "Leaving" {
        words.fill_all(&CLOSED_SPOT);
    } else if words.get("both") == "both_leaving" {
        words.fill_all(&LEAVING_SPOT);
    }
}

// That another number is none of those of a field.
fn set_unlike(words: &mut Words, field: &Words) {
    let mut is_first = true;
    for number in field.get("numbers").split(' ') {
        words.set("of", number);
        words.fill(
            "unlike",
            if is_first {
                "unlike n $of$ (search rules)"
            } else {
                "neither _ _ ($unlike$)\n$margin$(unlike n $of$ (search rules))"
            },
        );
        is_first = false;
    }
}

/// Tells the fields of two parts that they are a pair.
pub(crate) fn reach(left: &Node, right: &Node, fields: &mut [Field]) {
    for (place, field) in fields.iter_mut().enumerate() {
        let is_first = left.first <= place && place < left.behind;
        if !is_first && (place < right.first || right.behind <= place) {
            continue;
        }
        if !field.words.get("leaves").is_empty() {
            field.words.set("left_table", left.words.get("table"));
            field.words.set("right_table", right.words.get("table"));
            field.words.indent_rest("left_table");
            field.words.indent_rest("right_table");
            field
                .words
                .fill("side", if is_first { "left" } else { "right" });
            field.words.fill_all(&LEAVES);
        }
        field
            .words
            .fill_all(if is_first { &FIRST } else { &SECOND });
    }
}

// Why a record of another number leaves a list among both.
const LEAVES: [Template; 1] = [(
    "leaves",
    "$side$_leaves ($left_table$)\n      ($right_table$) $number$ (λ v. v$path$)\n      ($leaves$)",
)];

// What is wide begins on a line of its own.
fn set_gaps(words: &mut Words) {
    for (name, gap, margin) in [
        ("range", "range_gap", "\n    "),
        ("unlike", "unlike_gap", "\n$margin$"),
    ] {
        let (line, _) = words
            .get(name)
            .split_once('\n')
            .unwrap_or((words.get(name), ""));
        let is_wide = line.len() > MOST_NESTED;
        words.fill(gap, if is_wide { margin } else { " " });
    }
}

/// Both as one node.
pub(crate) fn pair(left: Node, right: Node) -> Node {
    let mut words = left.words;
    words.copy(&right.words, &[]);
    for (name, of) in &RIGHT {
        words.set(name, right.words.get(of));
    }
    for name in ["view", "right_view", "seen", "right_seen"] {
        words.indent(name);
    }
    for name in ["view_seen", "right_view_seen"] {
        words.indent(name);
    }
    if !words.get("spot").is_empty() {
        words.fill_all(&SPOT_IN_FIRST);
    } else if !right.words.get("spot").is_empty() {
        words.copy(&right.words, &["spot", "spot_of", "spot_step", "spot_path"]);
        words.copy(&right.words, &["spot_stands", "spot_without"]);
        words.fill_all(&SPOT_IN_SECOND);
    }
    words.indent_rest("apart");
    words.set("right_in", right.words.get("apart"));
    for name in ["right_in", "goes", "right_goes"] {
        words.indent_rest(name);
    }
    set_gaps(&mut words);
    words.fill_all(&PAIR);
    Node {
        first: left.first,
        behind: right.behind,
        words,
    }
}
