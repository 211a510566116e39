//! The leaf of a message that holds itself, where its fields are many and stand in groups: the
//! records of each group are taken by a function of its own, which hands on those of the groups
//! behind it.
use wire_definitions::{Node, Tree};
use wire_schema::{Template, Words};

const MATCH: &str = "        match tag.field_number() {
$arms$            _ => self.merge_leaf_from_$low$(alloc, tag, buf, context),
        }
";

const FUNCTION: &str = "
impl $name$ {
    // Takes a record into the leaf, of its fields from $low$ on, as `merge_leaf`.
    fn merge_leaf_from_$low$<B: Buf>(
        &mut self,
        alloc: Global,
        tag: Tag,
        buf: &mut B,
        context: &mut DecodeContext,
    ) -> Result<(), DecodeError>
$others$        ensures ok { OnOk result (IsCharged context.old context.new (λ c.
            TakesRecord ($of_table$).takes
            context.old (tag_number tag) (tag_type tag) (leaf_of ($module$-value self.old))
            (B.unread buf.old) c (leaf_of ($module$-value self.new)) (B.unread buf.new))) }
        ensures rows { OnOk result (rows_of ($module$-value self.new)
            ≡ ($of_table$).rows_beside
            (tag_number tag) (leaf_of ($module$-value self.new)) (rows_of ($module$-value self.old))) }
        ensures err { IfErr result (λ e. e ≢ OutOfMemory → NotTaken
            (TakesRecord ($of_table$).takes
            context.old (tag_number tag) (tag_type tag) (leaf_of ($module$-value self.old))
            (B.unread buf.old))) }
        ensures counts { OnErr result (NoCountGrew context.old context.new) }
        ensures kept { B.kept buf.new ≡ B.kept buf.old }
    {
$of_group$    }
}
";

const GHOSTS: &str = "\
Rattle.std.specs.Prelude IfErr
Rattle.std.specs.Prelude OnErr
Rattle.std.specs.Prelude OnOk
Rattle.std.specs.Prelude false
Rattle.std.specs.Prelude ◌≡◌
Rattle.std.specs.Prelude ◌≢◌
Rattle.wire_codec.specs.DecodeError.TheVariants OutOfMemory
Rattle.wire_codec.specs.Field Payload
Rattle.wire_codec.specs.Limits NoCountGrew
Rattle.wire_codec.specs.TagView tag_number
Rattle.wire_codec.specs.TagView tag_type
Rattle.wire_codec.specs.Taking IsCharged
Rattle.wire_codec.specs.Taking NotTaken
Rattle.wire_codec.specs.Taking TakesRecord
Rattle.wire_fields.specs.Nest leaf_of
Rattle.wire_fields.specs.Nest rows_of
";

// The table of the type, of one that holds itself alone and of one of a family.
const ALONE: [Template; 3] = [
    ("home", "$name$"),
    ("of_table", "$module$-table"),
    ("table_name", "$module$-table"),
];

const MEMBER: [Template; 3] = [
    ("home", "$family_name$"),
    ("of_table", "family-all.table $name$-Sort"),
    ("table_name", "family-all"),
];

// That a record is of no field of a group before.
const OTHERS: [Template; 2] = [
    (
        "others",
        "        requires others_$low$_to_$high$ { (p : Payload)
            → $part_words$.owns (tag_number tag) p ≡ false }\n",
    ),
    (
        "choice_ghosts",
        "Rattle.$crate$.specs.$home$ $part_words$\n",
    ),
];

/// Ends the group behind which the field at this place of the leaf stands, if one does: its arms
/// are those so far.
pub fn end_group(page: &mut Words, tree: &Tree, place: usize) {
    let mut groups = tree.parts.iter().filter(|it| it.behind == place);
    let Some(group) = groups.next() else {
        return;
    };
    let Some(next) = tree.next_group(group) else {
        return;
    };
    page.copy(&next.words, &["low"]);
    page.fill("of_group", MATCH);
    page.set("arms", "");
    put_function(page, group);
    page.append_all(&OTHERS);
}

/// Ends the last group, of which the word `merge` is the body, and makes that word what the first
/// one does.
pub fn end_last_group(page: &mut Words, tree: &Tree) {
    let Some(last) = tree.parts.last() else {
        return;
    };
    page.fill("of_group", "$merge$");
    put_function(page, last);
    page.fill("merge", "$merged$");
}

// Puts the function of a group, or the body of the first one aside.
fn put_function(page: &mut Words, group: &Node) {
    page.copy(&group.words, &["low", "high", "part_words"]);
    if group.first > 0 {
        page.append("merged_apart", FUNCTION);
        return;
    }
    let is_alone = page.get("family_name").is_empty();
    page.fill_all(if is_alone { &ALONE } else { &MEMBER });
    page.append("choice_ghosts", GHOSTS);
    page.append(
        "choice_ghosts",
        "Rattle.$crate$.specs.$home$ $table_name$\n",
    );
    page.fill_all(&[("merged", "$of_group$"), ("others", "")]);
}

/// Tells of a field of a group that may leave a record, and is no oneof, what it makes of one: it
/// has the unknown fields with it.
pub fn tell_taken(page: &mut Words, may_leave: bool) {
    page.set("is_told", "");
    if !may_leave || page.get("in_groups").is_empty() {
        return;
    }
    let taken = page.take("taken");
    let (before, behind) = taken.split_once("(h, refl)").unwrap_or(("", ""));
    page.set("taken_before", before);
    page.set("taken_behind", behind);
    page.fill("taken", "$taken_before$h$taken_behind$");
    page.set("is_told", "is_told");
}
