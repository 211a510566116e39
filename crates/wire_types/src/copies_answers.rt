//! The proof of what copies a message whose fields stand in groups: field by field, from what is
//! known of the copies of each part.
use wire_definitions::{Tree, definition_imports};
use wire_schema::{Field, GenerateError, Template, Words};

const USES: &str = "\
Rattle.std.proofs.Common ap
Rattle.std.proofs.Common rules
Rattle.std.proofs.Common ◌∙◌
Rattle.wire_fields.specs.Shape same_pair
";

const USES_OF_SIGNED: &str = "\
Rattle.std.proofs.Common $width$
Rattle.std.proofs.lemmas.Int to_z-of_z
";

const HEAD: &str = "\
$imports$use Rattle.$crate$.proofs.$module$.$name$Clone.clone.Goals as goal

pub returns : goal.returns
returns c = record {
  cases = same_pair _ _ ($tree$)
      $behind$;
}
";

// The copy of a field is what it is a copy of.
const SAME: &str = "ap (λ (v : $part_value$). v$own_path$) c.in_ok-$fields_of$.ensures";

// A signed number is read as its bits, and made of them.
const SAME_SIGNED: &str = "to_z-of_z $width$ _ (search rules)$gap$∙ $same$";

// Behind the fields stand the unknown ones, or nothing.
const OF_KEPT: [Template; 1] = [("behind", "c.in_ok-clone.ensures.cases")];

const OF_DROPPED: [Template; 2] = [
    ("behind", "refl"),
    ("uses", "Rattle.std.proofs.Common refl\n"),
];

/// The answers of `clone`.
pub fn copies_answers(
    base: &Words,
    fields: &[Field],
    tree: &Tree,
) -> Result<String, GenerateError> {
    let mut page = Words::like(base);
    page.set("uses", USES);
    page.set("gap", "\n      ");
    for (place, field) in fields.iter().enumerate() {
        let Some(part) = tree.outermost(place) else {
            continue;
        };
        page.copy(&part.words, &["low", "high", "part_value"]);
        page.copy(&field.words, &["own_path", "held", "copy"]);
        page.fill("fields_of", "fields_$low$_to_$high$");
        page.append("uses", "Rattle.$crate$.specs.$name$ $part_value$\n");
        page.fill("same", SAME);
        put_width(&mut page);
        put_same(
            &mut page,
            field.words.get("path"),
            place.saturating_add(1) == fields.len(),
        );
    }
    let is_kept = page.get("unknown") == "keep";
    page.append_all(if is_kept { &OF_KEPT } else { &OF_DROPPED });
    definition_imports(&mut page);
    page.fill("text", HEAD);
    page.finish("text")
}

fn put_width(page: &mut Words) {
    let width = match page.get("held") {
        "i32" => "w32",
        "i64" => "w64",
        _ => return,
    };
    page.set("width", width);
    page.append("uses", USES_OF_SIGNED);
    page.fill("same", SAME_SIGNED);
}

/// Puts why a field is the same, `same`, into the `tree` of pairs, by its path: it opens those that
/// it is the first of, and shuts those that it is the last of. `gap` stands between them.
pub fn put_same(page: &mut Words, path: &str, is_last: bool) {
    for step in path.rsplit('.') {
        if step != "0" {
            break;
        }
        page.append("tree", "same_pair _ _$gap$(");
    }
    page.append("tree", "$same$");
    for step in path.rsplit('.') {
        if step != "1" {
            break;
        }
        page.append("tree", ")");
    }
    page.append("tree", if is_last { "" } else { ")$gap$(" });
}
