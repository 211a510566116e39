//! The proofs of what makes a message of no records where it has many fields: field by field, from
//! the call of each, since the search does not look at so many calls.
use crate::copies_answers::put_same;
use wire_definitions::definition_imports;
use wire_schema::{Field, GenerateError, Template, Words};

const USES: &str = "\
Rattle.std.proofs.Common rules
Rattle.wire_fields.specs.Shape same_pair
";

const HEAD: &str = "\
$imports$use Rattle.$crate$.proofs.$module$.$name$MessageFields.$function$.Goals as goal

pub returns : goal.returns
returns c = same_pair _ _ ($tree$)
    (search rules)
";

const FIRST: &str = "search (rules, c.fields-$call$.ensures)";

const NEXT: &str = "search (rules, c.fields-$call$-$nth$.ensures)";

/// What makes a message of no records.
pub const DEFAULT_VALUE: [Template; 2] = [("function", "default_value"), ("call", "empty")];

pub const CLEAR: [Template; 2] = [("function", "clear"), ("call", "clear")];

/// The answers of one of these, which calls the same of each field.
pub fn empty_answers(
    base: &Words,
    fields: &[Field],
    function: &'static [Template],
) -> Result<String, GenerateError> {
    let mut page = Words::like(base);
    page.set("uses", USES);
    page.set("gap", "\n    ");
    page.fill_all(function);
    for (place, field) in fields.iter().enumerate() {
        let next = place.saturating_add(1);
        page.index("nth", next);
        page.fill("same", if place == 0 { FIRST } else { NEXT });
        put_same(&mut page, field.words.get("path"), next == fields.len());
    }
    definition_imports(&mut page);
    page.fill("text", HEAD);
    page.finish("text")
}
