//! A message of many fields, whose parts stand in groups: the records of each group are taken by a
//! function of its own, which hands on those of the groups behind it.
use crate::field_rows::set_numbers;
use wire_definitions::{Node, Tree, WIDTH, ghost_imports};
use wire_schema::{Field, Template, Words};

const ARM: &str = "            $number$ => merged!([$way$] $kind$, $field$, \
                   (self, alloc, tag, buf, context)),\n";

const LONG_ARM: &str = "            $number$ => merged!(
                [$way$] $kind$,
                $field$,
                (self, alloc, tag, buf, context)
            ),
";

const MATCH: &str = "match tag.field_number() {
$arms$            _ => $handed_to$,
        }";

const NEXT: &str = "self.merge_from_$low$(alloc, tag, buf, context)";

const LAST: &str = "merged!([$rest_row$](self, alloc, tag, buf, context))";

const GHOSTS: &str = "\
Rattle.std.specs.Prelude IfErr
Rattle.std.specs.Prelude OnErr
Rattle.std.specs.Prelude OnOk
Rattle.std.specs.Prelude false
Rattle.std.specs.Prelude ◌≡◌
Rattle.std.specs.Prelude ◌≢◌
Rattle.wire_codec.specs.DecodeError.TheVariants OutOfMemory
Rattle.wire_codec.specs.Field Payload
Rattle.wire_codec.specs.Limits NoCountGrew
Rattle.wire_codec.specs.TagView tag_number
Rattle.wire_codec.specs.TagView tag_type
Rattle.wire_codec.specs.Taking IsCharged
Rattle.wire_codec.specs.Taking NotTaken
Rattle.wire_codec.specs.Taking TakesRecord
Rattle.$crate$.specs.$name$ $module$-shape
Rattle.$crate$.specs.$name$ $module$-value
$ghosts_of_others$";

const FUNCTION: &str = "
impl $name$ {
$ghost_imports$
    // Takes a record of the fields from $low$ on.
    fn merge_from_$low$<B: Buf>(
        &mut self,
        alloc: Global,
        tag: Tag,
        buf: &mut B,
        context: &mut DecodeContext,
    ) -> Result<(), DecodeError>
$others$        ensures ok { OnOk result (IsCharged context.old context.new (λ c.
            TakesRecord $module$-shape.takes context.old (tag_number tag) (tag_type tag)
            ($module$-value self.old) (B.unread buf.old) c ($module$-value self.new)
            (B.unread buf.new))) }
        ensures err { IfErr result (λ e. e ≢ OutOfMemory → NotTaken
            (TakesRecord $module$-shape.takes context.old (tag_number tag) (tag_type tag)
            ($module$-value self.old) (B.unread buf.old))) }
        ensures counts { OnErr result (NoCountGrew context.old context.new) }
        ensures kept { B.kept buf.new ≡ B.kept buf.old }
    {
        $matched$
    }
}
";

// That a record is of no field of a group before.
const OTHERS: [Template; 2] = [
    (
        "others",
        "        requires others_$low$_to_$high$ { \
         (p : Payload) → $part_words$.owns (tag_number tag) p ≡ false }\n",
    ),
    (
        "ghosts_of_others",
        "Rattle.$crate$.specs.$name$ $part_words$\n",
    ),
];

/// The words `merged`, the body of the function that takes a record, and `merged_apart`, those that
/// it hands on to.
pub fn set_groups(page: &mut Words, fields: &[Field], tree: &Tree) {
    page.append("uses", "wire_fields merged\n");
    page.fill_all(&[
        ("others", ""),
        ("ghosts_of_others", ""),
        ("merged_apart", ""),
    ]);
    let mut next = group_at(tree, 0);
    for _ in &tree.parts {
        let Some(group) = next.take() else {
            break;
        };
        put_arms(page, fields, group);
        set_match(page, tree, group);
        page.copy(&group.words, &["low", "high", "part_words"]);
        if group.first == 0 {
            page.fill("merged", "$matched$");
        } else {
            page.fill("ghosts", GHOSTS);
            ghost_imports(page, "    ");
            page.append("merged_apart", FUNCTION);
        }
        page.append_all(&OTHERS);
        next = tree.next_group(group);
    }
}

// The group that begins with the field at this place.
fn group_at(tree: &Tree, place: usize) -> Option<&Node> {
    let mut beginning = tree.parts.iter().filter(|it| it.first == place);
    beginning.find(|it| tree.is_group(it))
}

fn put_arms(page: &mut Words, fields: &[Field], group: &Node) {
    page.set("arms", "");
    for (place, field) in fields.iter().enumerate() {
        if place < group.first || group.behind <= place {
            continue;
        }
        page.copy(&field.words, &["field", "kind"]);
        set_numbers(page, &field.words);
        let taken = page.take("taken");
        for line in taken.lines() {
            let (number, way) = line.split_once('\t').unwrap_or((line, ""));
            page.set("number", number);
            page.set("way", way);
            page.fill("arm", ARM);
            // (its line's end counted)
            let is_short = page.get("arm").len() <= WIDTH + 1;
            page.append("arms", if is_short { "$arm$" } else { LONG_ARM });
        }
    }
}

// The word `matched`, the body of the function of a group.
fn set_match(page: &mut Words, tree: &Tree, group: &Node) {
    match tree.next_group(group) {
        Some(next) => {
            page.copy(&next.words, &["low"]);
            page.fill("handed_to", NEXT);
        }
        None => page.fill("handed_to", LAST),
    }
    page.fill("matched", MATCH);
}
