//! The clone of a message that holds itself, and of those that hold one another, where one of them
//! has more fields than the proof of a derived one covers: the copies of the fields of its leaf are
//! made in groups, each in a function of its own.
use crate::other_rows::is_of_many;
use wire_definitions::{Tree, is_row};
use wire_schema::{Field, Oneof, Template, Words};

const CLONE: &str = "
impl Clone for $name$ {
$own_cycle$    fn clone(&self) -> Result<$name$, AllocError> {
$clone_groups$$clone_choices$$clone_onces$$clone_lists$        Ok($name$ {
$cloned$        })
    }
}
$clone_apart$";

const CYCLE: &str = "    #[cycle($family_module$)]\n";

const GROUP: &str = "
// Copies of the fields $low$ to $high$ of `$name$`.
#[derive(Drop)]
struct $copies_type$ {
$clone_held$}

impl $name$ {
    fn copied_$low$_to_$high$(&self) -> Result<$copies_type$, AllocError> {
        Ok($copies_type$ {
$clone_part$        })
    }
}
";

// The oneof of which some variants are rows: where it called for a clone of it, the proof would not
// find that it is smaller than the message.
const OF_CHOICE: [Template; 2] = [
    (
        "clone_choices",
        "        let $field$ = match &self.$field$ {
$clone_variants$            None => None,
        };
",
    ),
    ("cloned", "            $field$,\n"),
];

const VARIANT_OF_ROW: Template = (
    "clone_variants",
    "            Some($choice$::$choice_variant$(message)) => {
                let copy = $of_name$::clone(message)?;
                let copy = Box::new(*Box::allocator(message), copy)?;
                Some($choice$::$choice_variant$(copy))
            }
",
);

const VARIANT: Template = (
    "clone_variants",
    "            Some($choice$::$variant$(value)) => {
                let copy = value.clone()?;
                Some($choice$::$variant$(copy))
            }
",
);

const OF_ONCE: [Template; 2] = [
    (
        "clone_onces",
        "        let $field$ = match &self.$field$ {
            Some(message) => {
                let copy = $of_name$::clone(message)?;
                Some(Box::new(*Box::allocator(message), copy)?)
            }
            None => None,
        };
",
    ),
    ("cloned", "            $field$,\n"),
];

const OF_EACH: [Template; 2] = [
    (
        "clone_lists",
        "        let mut $field$ = Vec::new(*self.$field$.allocator());
        for message in &self.$field$ {
            let copy = $of_name$::clone(message)?;
            $field$.push(copy)?;
        }
",
    ),
    ("cloned", "            $field$,\n"),
];

const OF_FIELD: [Template; 1] = [("cloned", "            $field$: self.$field$.clone()?,\n")];

const IN_GROUP: [Template; 3] = [
    ("clone_held", "    $field$: $held$,\n"),
    (
        "clone_part",
        "            $field$: self.$field$.clone()?,\n",
    ),
    (
        "cloned",
        "            $field$: fields_$low$_to_$high$.$field$,\n",
    ),
];

const OF_GROUP: [Template; 2] = [
    (
        "clone_groups",
        "        let fields_$low$_to_$high$ = self.copied_$low$_to_$high$()?;\n",
    ),
    ("clone_apart", GROUP),
];

const NO_GROUP: [Template; 2] = [("clone_held", ""), ("clone_part", "")];

const NOTHING: [Template; 6] = [
    ("clone_choices", ""),
    ("clone_onces", ""),
    ("clone_lists", ""),
    ("clone_groups", ""),
    ("clone_apart", ""),
    ("cloned", ""),
];

/// What of it is derived.
pub fn derived_clone(page: &Words) -> &'static str {
    if page.get("by_hand").is_empty() {
        "Clone, "
    } else {
        ""
    }
}

/// The word `own_clone`, where a derived clone is not covered.
pub fn set_own_clone(page: &mut Words, fields: &[Field], tree: &Tree) {
    page.set("own_clone", "");
    if page.get("by_hand").is_empty() {
        return;
    }
    page.append("uses", "std::alloc AllocError\n");
    page.fill_all(&NOTHING);
    page.fill_all(&NO_GROUP);
    put_variants(page, fields);
    let mut place: usize = 0;
    for field in fields {
        page.copy(&field.words, &["field", "held", "of_name"]);
        if is_row(field) {
            put_row(page, field);
        } else {
            put_leaf(page, field, tree, place);
            place = place.saturating_add(1);
        }
    }
    if page.get("unknown") == "keep" {
        page.append("cloned", "            unknown: self.unknown.clone()?,\n");
    }
    set_cycle(page);
    page.fill("own_clone", CLONE);
}

// The variants of such a oneof.
fn put_variants(page: &mut Words, fields: &[Field]) {
    page.set("clone_variants", "");
    for field in fields {
        if !field.words.get("choice_variant").is_empty() {
            page.copy(&field.words, &["choice_variant", "of_name"]);
            page.append(VARIANT_OF_ROW.0, VARIANT_OF_ROW.1);
        }
    }
    for field in fields {
        let is_choice = is_row(field) || !field.words.get("in_choice").is_empty();
        if let (Some(oneof), true) = (&field.oneof, is_choice) {
            for variant in &oneof.variants {
                page.copy(variant, &["variant"]);
                page.append(VARIANT.0, VARIANT.1);
            }
        }
    }
}

// (a variant is cloned with its oneof)
fn put_row(page: &mut Words, field: &Field) {
    if field.words.get("choice_variant").is_empty() {
        page.append_all(if is_of_many(field) {
            &OF_EACH
        } else {
            &OF_ONCE
        });
    } else if field.oneof.is_some() {
        page.append_all(&OF_CHOICE);
    }
}

fn put_leaf(page: &mut Words, field: &Field, tree: &Tree, place: usize) {
    let is_choice = field.oneof.is_some() && !field.words.get("in_choice").is_empty();
    let mut groups = tree.parts.iter();
    match groups.find(|it| it.first <= place && place < it.behind) {
        Some(group) => {
            page.copy(&group.words, &["low", "high", "copies_type"]);
            page.append_all(if is_choice { &OF_CHOICE } else { &IN_GROUP });
            if place.saturating_add(1) == group.behind {
                page.append_all(&OF_GROUP);
                page.fill_all(&NO_GROUP);
            }
        }
        None => page.append_all(if is_choice { &OF_CHOICE } else { &OF_FIELD }),
    }
}

// Those that hold one another lead back to one another.
fn set_cycle(page: &mut Words) {
    let is_alone = page.get("family_name").is_empty();
    page.fill("own_cycle", if is_alone { "" } else { CYCLE });
}

const CLONE_OF_CHOICE: &str = "
impl Clone for $name$ {
    fn clone(&self) -> Result<$name$, AllocError> {
        match self {
$clone_arms$        }
    }
}
";

const ARM_OF_ROW: &str = "            $name$::$choice_variant$(message) => {
                let copy = $of_name$::clone(message)?;
                let copy = Box::new(*Box::allocator(message), copy)?;
                Ok($name$::$choice_variant$(copy))
            }
";

const ARM: &str = "            $name$::$variant$(value) => {
                let copy = value.clone()?;
                Ok($name$::$variant$(copy))
            }
";

/// The same of a oneof of which some variants are rows.
pub fn set_own_clone_of_choice(page: &mut Words, oneof: &Oneof, fields: &[Field]) {
    page.fill_all(&[("own_clone", ""), ("clone_arms", "")]);
    if page.get("by_hand").is_empty() {
        return;
    }
    for field in fields {
        if !field.words.get("choice_variant").is_empty() {
            page.copy(&field.words, &["choice_variant", "of_name"]);
            page.append("clone_arms", ARM_OF_ROW);
        }
    }
    for variant in &oneof.variants {
        page.copy(variant, &["variant"]);
        page.append("clone_arms", ARM);
    }
    page.append("uses", "std::alloc AllocError\n");
    page.fill("own_clone", CLONE_OF_CHOICE);
}
