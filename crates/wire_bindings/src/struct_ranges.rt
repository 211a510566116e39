//! The numbers that the fields of a message have, those in a row as a range, and why a struct says
//! of a number whether it is one.
use std::alloc::Global;
use wire_definitions::definition_imports;
use wire_schema::{Field, GenerateError, Template, Words};

// Of more numbers than these the search does not find whether one is among them.
const MANY: usize = 16;

// Numbers from the first to the last.
#[derive(Clone, Copy)]
struct Range {
    first: i32,
    last: i32,
}

impl Range {
    fn len(self) -> usize {
        let count = self.last.saturating_sub(self.first).saturating_add(1);
        usize::try_from(count).unwrap_or(0)
    }
}

const PATTERN: &str = "        matches!(number, $ranges$)\n";

const MATCH: &str = "        match number {\n$number_arms$            _ => false,\n        }\n";

const ONE: [Template; 3] = [
    ("range", "$first$"),
    ("range_name", "$first$"),
    ("number_arm", "            $range$ => true,\n"),
];

const SEVERAL: [Template; 3] = [
    ("range", "$first$..=$last$"),
    ("range_name", "$first$-to-$last$"),
    ("number_arm", "            $range$ => true,\n"),
];

const USES: &str = "\
Rattle.std.proofs.Common refl
Rattle.std.proofs.Common rules
Rattle.wire_fields.specs.Arms unlike
Rattle.wire_structs.proofs.Runs one_of
Rattle.$crate$.specs.$name$ $module$-known
";

const PAIRED: &str = "Rattle.wire_fields.specs.Arms neither\n";

const OWN: &str = "
pub returns-in-$range_name$ : goal.returns-in-$range_name$
returns-in-$range_name$ c = λ p.
    one_of (λ n. $module$-known.owns n p) $first$ $count$
    c.args.number refl (search rules) (search rules)
";

const PAGE: &str = "\
$imports$use Rattle.$crate$.proofs.$module$_in_c.$name$InCFieldNumbers.has.Goals as goal
$answers$
pub returns-in_default : goal.returns-in_default
returns-in_default c =
    let n = c.args.number in
    λ p. $unlike$
";

/// Sets the body of the call that says whether a number is a field's.
pub fn set_has(page: &mut Words, fields: &[Field]) -> Result<(), GenerateError> {
    let numbers = numbers_of(page.alloc(), fields)?;
    let ranges = ranges_of(page.alloc(), &numbers)?;
    page.fill_all(&[("ranges", ""), ("number_arms", "")]);
    for range in &ranges {
        set_range(page, *range);
        let is_first = page.get("ranges").is_empty();
        page.append("ranges", if is_first { "" } else { " | " });
        page.append_all(&[("ranges", "$range$"), ("number_arms", "$number_arm$")]);
    }
    let is_short = ranges.len() == 1 || numbers.len() <= MANY;
    page.fill("has", if is_short { PATTERN } else { MATCH });
    Ok(())
}

/// The answers of that call, where the search does not find them: a tree of the fields says why a
/// number is none of theirs.
pub fn has_answers_of(
    base: &Words,
    fields: &[Field],
    shown: &Words,
) -> Result<Option<String>, GenerateError> {
    let numbers = numbers_of(base.alloc(), fields)?;
    if numbers.len() <= MANY {
        return Ok(None);
    }
    let mut page = Words::like(base);
    page.fill("uses", USES);
    page.append("uses", PAIRED);
    for range in ranges_of(base.alloc(), &numbers)? {
        set_range(&mut page, range);
        page.append("answers", OWN);
    }
    page.copy(shown, &["unlike"]);
    definition_imports(&mut page);
    page.fill("text", PAGE);
    Ok(Some(page.finish("text")?))
}

fn set_range(page: &mut Words, range: Range) {
    page.number("first", range.first);
    page.number("last", range.last);
    page.index("count", range.len());
    page.fill_all(if range.len() == 1 { &ONE } else { &SEVERAL });
}

// The numbers of the fields, in order.
fn numbers_of(alloc: Global, fields: &[Field]) -> Result<Vec<i32>, GenerateError> {
    let mut numbers = Vec::new(alloc);
    for field in fields {
        for number in field.words.get("numbers").split(' ') {
            numbers.push(number.parse::<i32>().unwrap_or(0))?;
        }
    }
    numbers.sort()?;
    Ok(numbers)
}

fn ranges_of(alloc: Global, numbers: &[i32]) -> Result<Vec<Range>, GenerateError> {
    let mut ranges: Vec<Range> = Vec::new(alloc);
    for &number in numbers {
        match ranges.last_mut() {
            Some(range) if range.last.saturating_add(1) == number => range.last = number,
            _ => ranges.push(Range {
                first: number,
                last: number,
            })?,
        }
    }
    Ok(ranges)
}
