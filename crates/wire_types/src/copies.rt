//! Copies of a message: a clone, which contracts see as they see its source.
use crate::code::put_in_braces;
use wire_definitions::{Node, Tree, copied_part, ghost_imports};
use wire_schema::{Field, Template, Words};

const CLONE: &str = "
impl Clone for $name$ {
    ghost use Rattle.std.specs.Prelude.{◌≡◌};
    ghost use Rattle.$crate$.specs.$name$.{$module$-value};

    ghost is_clone = { λ m copy. $module$-value copy ≡ $module$-value m };

    fn clone(&self) -> Result<$name$, AllocError> {
$copies$        Ok($name$ {$copied$})
    }
}

impl Twin for $name$ {
$ghost_imports$
    ghost Seen = { $name$-Value };

    ghost seen = { $module$-value };

    ghost same = { λ m copy e. e };
}
";

const GHOSTS: &str = "\
Rattle.$crate$.specs.$name$ $name$-Value
Rattle.$crate$.specs.$name$ $module$-value
";

// Copies of some fields of a message of many.
const COPIES: &str = "
// Copies of the fields $low$ to $high$ of `$name$`.
#[derive(Drop)]
struct $copies_type$ {
$held_copies$}

impl $name$ {
    ghost use Rattle.std.specs.Prelude.{IfOk};
    ghost use Rattle.std.specs.Prelude.{◌≡◌};
    ghost use Rattle.$crate$.specs.$name$.{$copies_words$};
    ghost use Rattle.$crate$.specs.$name$.{$part_words$-value};

    fn copied_$low$_to_$high$(&self) -> Result<$copies_type$, AllocError>
        ensures { IfOk result (λ copy. $copies_words$ copy ≡ $part_words$-value self.now) }
    {
        Ok($copies_type$ {
$part_copied$        })
    }
}
";

const COPIES_LET: &str = "        let $copies_type$ {
$part_names$        } = self.copied_$low$_to_$high$()?;
";

const NO_PART: [Template; 3] = [("held_copies", ""), ("part_copied", ""), ("part_names", "")];

const OF_PART: [Template; 3] = [
    ("held_copies", "    $field$: $held$,\n"),
    ("part_copied", "            $field$: $copy$,\n"),
    ("part_names", "            $field$,\n"),
];

const OF_FEW: &str = "            $field$,\n";

// Of many parts the copies stay in their structs until they are in the message.
const PART_LET: &str = "        let fields_$low$_to_$high$ = self.copied_$low$_to_$high$()?;\n";

const OF_MANY: &str = "            $field$: fields_$low$_to_$high$.$field$,\n";

// The widest field of a struct in one line.
const SHORT: usize = 18;

/// The words of the code that copies a message: its `clone`, and what is `copied_apart`.
pub fn set_clone(page: &mut Words, fields: &[Field], tree: &Tree) {
    page.append("uses", "std::alloc AllocError\nwire_fields Twin\n");
    page.fill_all(&[("copies", ""), ("copied", ""), ("copied_apart", "")]);
    page.fill_all(&NO_PART);
    for (place, field) in fields.iter().enumerate() {
        page.copy(&field.words, &["field", "held", "copy"]);
        put_use(page, field);
        match copied_part(fields, tree, place) {
            Some(part) => {
                page.append_all(&OF_PART);
                page.copy(&part.words, &["low", "high"]);
                page.append("copied", if tree.has_groups { OF_MANY } else { OF_FEW });
                if part.behind == place.saturating_add(1) {
                    put_part(page, tree, part);
                }
            }
            None => page.append("copied", "            $field$: $copy$,\n"),
        }
    }
    if page.get("unknown") == "keep" {
        page.append("copied", "            unknown: self.unknown.clone()?,\n");
    }
    close(page);
    page.fill("ghosts", GHOSTS);
    ghost_imports(page, "    ");
    page.fill("clone", CLONE);
}

// What a copy calls.
fn put_use(page: &mut Words, field: &Field) {
    let (call, _) = field.words.get("copy").split_once('(').unwrap_or(("", ""));
    if call.starts_with("copied_") {
        page.set("call", call);
        page.append("uses", "wire_fields $call$\n");
    }
}

fn put_part(page: &mut Words, tree: &Tree, part: &Node) {
    page.copy(
        &part.words,
        &["low", "high", "copies_type", "copies_words", "part_words"],
    );
    let copies = if tree.has_groups {
        PART_LET
    } else {
        COPIES_LET
    };
    page.append("copies", copies);
    page.append("copied_apart", COPIES);
    page.fill_all(&NO_PART);
}

// A struct of one short field stands in one line.
fn close(page: &mut Words) {
    let copied = page.take("copied");
    let only = copied.trim().trim_end_matches(',');
    page.set("copied", &copied);
    if !only.is_empty() && only.len() <= SHORT {
        page.set("only", only);
        return page.fill("copied", " $only$ ");
    }
    put_in_braces(page, "copied");
}
