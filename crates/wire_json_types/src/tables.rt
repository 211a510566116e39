//! Tables of parts, and oneofs as such of their members: each of one and of those behind it.
use wire_schema::{Template, Words};

/// The templates of what is joined: of fields, or of the members of a oneof.
#[derive(Clone, Copy)]
pub(crate) struct Join {
    definitions: &'static str,
    uses: &'static str,
    code: &'static str,
    code_uses: &'static str,
}

const BOTH_DEFINITIONS: &str = "\n\
abbrev pub $all$-Value : Type 0
$all$-Value = $one$-Value × $others$-Value

abbrev pub $all$-names : List Names
$all$-names = $one$-names ++ $others$-names

abbrev pub $all$-says : Members → $all$-Value → Type 0
$all$-says = BothSay $one$-says $others$-says

abbrev pub $all$-trees : $all$-Value → Members → Type 0
$all$-trees = BothTrees $one$-trees $others$-trees

abbrev pub $all$-range : $all$-Value → Type 0
$all$-range = AreBoth $one$-range $others$-range

abbrev pub $all$-absent : $all$-Value
$all$-absent = ($one$-absent, $others$-absent)

abbrev pub $all$-seen : $name$ → $all$-Value
$all$-seen m = ($one$-seen m, $others$-seen m)

pub $all$-unsaid : $all$-says no_member $all$-absent
$all$-unsaid = ($one$-unsaid, $others$-unsaid)

pub $all$-one : SayOne $all$-says
$all$-one = one_both $one$-says $others$-says $one$-one $others$-one

pub $all$-back
    : PartComesBack $all$-names $all$-says $all$-trees $all$-range
$all$-back =
    both_back $one$-names $others$-names $one$-says $others$-says
    $one$-trees $others$-trees $one$-range $others$-range
    $one$-back $others$-back
";

const BOTH_USES: &str =
    "Rattle.std.specs.Prelude ◌++◌\nRattle.wire_jsonfields.specs.Parts AreBoth\n\
    Rattle.wire_jsonfields.specs.Parts BothSay\nRattle.wire_jsonfields.specs.Parts BothTrees\n\
    Rattle.wire_jsonfields.specs.Parts both_back\nRattle.wire_jsonfields.specs.Parts one_both\n";

const BOTH_CODE: &str = "pub type $all_type$ = Both<$one_type$, $others_type$>;\n\n";

const HELD_CODE: &str = "\
pub type $all_type$ = Both<$one_type$, $others_type$>;

pub type Held$all_type$ = $held_pair$;

";

const BOTH_CODE_USES: &str = "wire_jsonfields Both\n";

/// Of a part and what is behind it.
pub(crate) const BOTH: Join = Join {
    definitions: BOTH_DEFINITIONS,
    uses: BOTH_USES,
    code: BOTH_CODE,
    code_uses: BOTH_CODE_USES,
};

/// The same, of which code says what it reads.
pub(crate) const GROUPED: Join = Join {
    definitions: BOTH_DEFINITIONS,
    uses: BOTH_USES,
    code: HELD_CODE,
    code_uses: BOTH_CODE_USES,
};

/// Of a member of a oneof and those behind it.
pub(crate) const EITHER: Join = Join {
    definitions: "\n\
abbrev pub $all$-Value : Type 0
$all$-Value = $one$-Value ⊎ $others$-Value

abbrev pub $all$-Held : Type 0
$all$-Held = Chosen $one$-Held $others$-Held

abbrev pub $all$-view : $all$-Held → $all$-Value
$all$-view = either_value $one$-view $others$-view

abbrev pub $all$-names : List Names
$all$-names = $one$-names ++ $others$-names

abbrev pub $all$-says : Members → Option $all$-Value → Type 0
$all$-says = EitherSays $one$-says $others$-says

abbrev pub $all$-trees : $all$-Value → Members → Type 0
$all$-trees = EitherTrees $one$-trees $others$-trees

abbrev pub $all$-range : $all$-Value → Type 0
$all$-range = IsEitherInRange $one$-range $others$-range

abbrev pub $all$-seen : $name$ → Option $all$-Value
$all$-seen o = either_seen ($one$-seen o) ($others$-seen o)

pub $all$-unsaid : $all$-says no_member None
$all$-unsaid =
    either_unsaid $one$-says $others$-says $one$-unsaid $others$-unsaid

pub $all$-one : SayOne $all$-says
$all$-one = one_either $one$-says $others$-says $one$-one $others$-one

pub $all$-back
    : ChoiceComesBack $all$-names $all$-says $all$-trees $all$-range
$all$-back =
    either_back $one$-names $others$-names $one$-says $others$-says
    $one$-trees $others$-trees $one$-range $others$-range
    $one$-back $others$-back
",
    code: "pub type $all_type$ = Either<$one_type$, $others_type$>;\n\n\
        pub type Held$all_type$ = Chosen<$one_held$, $others_held$>;\n\n",
    code_uses: "wire_jsonfields Chosen\nwire_jsonfields Either\n",
    uses: "Rattle.std.specs.Prelude ◌++◌\nRattle.std.specs.Prelude ◌⊎◌\n\
        Rattle.wire_jsonfields.specs.Choices either_seen\n\
        Rattle.wire_jsonfields.specs.Choices either_unsaid\n\
        Rattle.wire_jsonfields.specs.Choices either_value\n\
        Rattle.wire_jsonfields.specs.Oneofs EitherSays\n\
        Rattle.wire_jsonfields.specs.Oneofs EitherTrees\n\
        Rattle.wire_jsonfields.specs.Oneofs one_either\n\
        Rattle.wire_jsonfields.specs.Parts IsEitherInRange\n\
        Rattle.wire_jsonfields.specs.Parts either_back\n\
        Rattle.wire_jsonfields.specs.declared.choice.Chosen Chosen\n",
};

/// A part of a table.
#[derive(Drop)]
pub(crate) struct Part {
    /// Its name in definitions, its type in code, and what that reads.
    pub name: String,
    pub type_name: String,
    pub held: String,
    /// How contracts see that, in the place of each `@`, and what is brought in for it.
    pub view: String,
    pub uses: String,
    /// What it reads is called so, and how that is taken apart.
    pub local: String,
    pub taken: String,
    /// How much of a table it is.
    pub weight: usize,
}

/// Joins the parts, the last two first, as `whole` in definitions and `whole_type` in code:
/// `tables` has its definitions and `aliases` its types, and `joined`, `joined_type` and
/// `joined_held` what it is called, which of one part alone is as that is. What each but the first
/// is joined with is called by its place.
pub(crate) fn put_table(join: Join, parts: &[Part], words: &mut Words) {
    words.fill_all(&NOTHING);
    let mut place = parts.len();
    for part in parts.iter().rev() {
        words.set("one", &part.name);
        words.set("one_type", &part.type_name);
        words.set("one_held", &part.held);
        words.index("place_in_table", place);
        if words.get("joined").is_empty() {
            words.fill_all(&LAST);
        } else {
            words.fill_all(&BEHIND);
            words.fill_all(if place == 1 { &WHOLE } else { &FROM });
            words.append("tables", join.definitions);
            words.append("uses", join.uses);
            words.append("code_uses", join.code_uses);
            set_pair(words);
            words.fill("alias", join.code);
            words.fill_all(&JOINED);
        }
        place = place.saturating_sub(1);
    }
}

// The widest pair of types that stands in a line.
const PAIR_WIDTH: usize = 60;

// The pair of what two parts read, as the formatter lays it out.
fn set_pair(words: &mut Words) {
    words.fill("held_pair", "$one_held$, $others_held$");
    let is_short = words.get("held_pair").chars().count() <= PAIR_WIDTH;
    words.fill(
        "held_pair",
        if is_short {
            "($one_held$, $others_held$)"
        } else {
            "(\n    $one_held$,\n    $others_held$,\n)"
        },
    );
}

const NOTHING: [Template; 3] = [("aliases", ""), ("tables", ""), ("joined", "")];

const LAST: [Template; 3] = [
    ("joined", "$one$"),
    ("joined_type", "$one_type$"),
    ("joined_held", "$one_held$"),
];

// What was joined so far are the others.
const BEHIND: [Template; 3] = [
    ("others", "$joined$"),
    ("others_type", "$joined_type$"),
    ("others_held", "$joined_held$"),
];

const WHOLE: [Template; 2] = [("all", "$whole$"), ("all_type", "$whole_type$")];

const FROM: [Template; 2] = [
    ("all", "$whole$-from-$place_in_table$"),
    ("all_type", "$whole_type$From$place_in_table$"),
];

const JOINED: [Template; 4] = [
    ("aliases", "$alias$$aliases$"),
    ("joined", "$all$"),
    ("joined_type", "$all_type$"),
    ("joined_held", "Held$all_type$"),
];

/// How what these parts read together is seen, as the word `view`, with an `@` for it.
pub(crate) fn set_view(parts: &[Part], words: &mut Words) {
    words.fill_all(&[("view", ""), ("path", "@"), ("shut", "")]);
    for (place, part) in parts.iter().enumerate() {
        let is_last = place.saturating_add(1) == parts.len();
        words.append("view", if is_last { "" } else { "(" });
        words.fill("path_of_part", if is_last { "$path$" } else { "$path$.0" });
        put_at(&part.view, words);
        words.append("view", if is_last { "$shut$" } else { ", " });
        words.append_all(&[("path", ".1"), ("shut", ")")]);
    }
}

/// Puts a view behind the word `view`, with the word `path_of_part` in the place of each
/// `@`.
pub(crate) fn put_at(view: &str, words: &mut Words) {
    let mut is_first = true;
    for text in view.split('@') {
        words.set("view_text", text);
        words.append(
            "view",
            if is_first {
                "$view_text$"
            } else {
                "$path_of_part$$view_text$"
            },
        );
        is_first = false;
    }
}

/// How what these parts read together, of the word `source`, is taken apart, behind the word
/// `taken`.
pub(crate) fn set_taken(parts: &[Part], words: &mut Words) {
    for (place, part) in parts.iter().enumerate() {
        words.set("local", &part.local);
        words.set("apart", &part.taken);
        let is_last = place.saturating_add(1) == parts.len();
        words.append("taken", if is_last { TAKEN_LAST } else { TAKEN });
    }
}

const TAKEN: &str = "        let ($local$, $source$) = $source$;\n$apart$";

const TAKEN_LAST: &str = "        let $local$ = $source$;\n$apart$";
