//! The proofs of what measures and writes fields among which are closed enums. Of one that stands
//! once the code has a number that is seen, and the definitions the number itself: of many of
//! these, among other kinds, the search does not find that both are written alike.
use wire_definitions::{Node, Tree};
use wire_schema::{Field, GenerateError, Template, Words};

const HEAD: &str = "\
use Rattle.std.proofs.Common.{sym}
use Rattle.std.proofs.lemmas.Iterator.Adapters.{option_map_id}
use Rattle.$crate$.proofs.$module$.$owner$.Goals as goal
";

// What is written, from what is known of it as it is seen.
const SHOWN: &str = "
pub returns-clause-$clause$ : goal.returns-clause-$clause$
returns-clause-$clause$ $given$ =
    let m = c.args.self.now$message$ in
    $shown$c.$call$.ensures.$clause$$closed$
";

// What the call asks of it, the other way round.
const ASKED: &str = "
pub $call$-requires-clause-$clause$ : goal.$call$-requires-clause-$clause$
$call$-requires-clause-$clause$ $given$ =
    let m = c.args.self.now$message$ in
    $asked$c.requires.$clause$$closed$
";

const OF_ENUM: [Template; 3] = [
    ("shown", "rw (sym (option_map_id m.$field$))\n    ("),
    ("asked", "rw (option_map_id m.$field$)\n    ("),
    ("closed", ")"),
];

/// The answers of the function that measures these fields, and of the one that writes them; none
/// where no closed enum is among them that stands once.
#[derive(Drop)]
pub struct FieldAnswers {
    pub measured: String,
    pub written: String,
}

/// Those of the fields of a part, or without one those of a message that are in no part.
pub fn written_answers(
    page: &mut Words,
    fields: &[Field],
    tree: &Tree,
    part: Option<&Node>,
) -> Result<Option<FieldAnswers>, GenerateError> {
    page.fill_all(&[("shown", ""), ("asked", ""), ("closed", "")]);
    for (place, field) in fields.iter().enumerate() {
        let is_once = field.words.get("kind").starts_with("Optional");
        let is_closed = field.words.get("call") == "merge_closed";
        if is_once && is_closed && tree.has(part, place, place.saturating_add(1)) {
            page.copy(&field.words, &["field"]);
            page.append_all(&OF_ENUM);
        }
    }
    if page.get("closed").is_empty() {
        return Ok(None);
    }
    match part {
        Some(part) => {
            page.copy(&part.words, &["part_type"]);
            page.fill_all(&OF_PART);
        }
        None => page.fill_all(&OF_MESSAGE),
    }
    let (measuring, writing) = if part.is_some() {
        ("len", "put")
    } else {
        ("compute_size", "write_to")
    };
    page.set("measuring", measuring);
    page.set("writing", writing);
    measured(page, part.is_some());
    written(page);
    Ok(Some(FieldAnswers {
        measured: page.finish("measured")?,
        written: page.finish("written")?,
    }))
}

const OF_MESSAGE: [Template; 2] = [("type", "$name$MessageFields"), ("message", "")];

const OF_PART: [Template; 2] = [("type", "$part_type$Parts"), ("message", ".message.now")];

fn measured(page: &mut Words, is_part: bool) {
    page.fill_all(&[("given", "c"), ("owner", "$type$.$measuring$")]);
    page.fill("measured", HEAD);
    page.set("call", if is_part { "len" } else { "measure" });
    let clauses = if is_part { "ok" } else { "size sizes" };
    for clause in clauses.split(' ') {
        page.set("clause", clause);
        page.append("measured", SHOWN);
    }
}

fn written(page: &mut Words) {
    page.fill_all(&[("given", "g c"), ("owner", "$type$.$writing$")]);
    page.fill("written", HEAD);
    let is_part = page.get("writing") == "put";
    page.set("call", if is_part { "put" } else { "write" });
    for clause in "sizes size".split(' ') {
        page.set("clause", clause);
        page.append("written", ASKED);
    }
    for clause in "written read".split(' ') {
        page.set("clause", clause);
        page.append("written", SHOWN);
    }
}
