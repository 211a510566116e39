//! The code of the runs of a leaf: what is measured and written before the first row of a message,
//! between its rows, and behind them.
use crate::rows::is_row;
use crate::width::WIDTH;
use std::alloc::Global;
use wire_schema::{Field, GenerateError, Words};

// The most fields of a run, which are a tuple: of more, so many are a part by themselves. Maps count
// for more.
const MOST: usize = 8;

const MOST_WITH_MAPS: usize = 4;

const RUN_FIELD: &str = "                let field_$number$: Known<$kind$> = Known {
                    number: $number$,
                    held: &self.$field$,
                };
";

const RUN_REST: &str = "                let rest = Rest {
                    fields: &self.unknown,
                };
";

const FIELD_OF_PART: &str = "        let field_$number$: Known<$kind$> = Known {
            number: $number$,
            held: &self.message.$field$,
        };
";

// Of a oneof of which some variants are rows.
const RUN_CHOICE: &str =
    "                let field_$number$ = $choice$Fields$of_low$To$of_high$ { message: self };\n";

const CHOICE_OF_PART: &str = "        let field_$number$ = $choice$Fields$of_low$To$of_high$ {
            message: self.message,
        };
";

const RUN_PART: &str = "                \
    let fields_$low$_to_$high$ = $name$Fields$low$To$high$ { message: self };\n";

const PART: &str = "
// The fields $low$ to $high$ of `$name$`, between which no row stands.
#[derive(Drop)]
struct $name$Fields$low$To$high$<'a> {
    message: &'a $name$,
}

impl<'a> Parts for $name$Fields$low$To$high$<'a> {
    ghost use Rattle.wire_fields.specs.Nest.{leaf_of};
$part_ghosts$
    ghost records = { λ p.
        $part_open$$part_records$$part_close$ (leaf_of ($module$-value p.message.now)) };

    fn len(&self, cache: &mut SizeCache) -> Result<u64, EncodeError> {
$run_lets$        $run$.len(cache)
    }

    fn put<S: EncodeSink>(&self, cache: &mut SizeCache, sink: &mut S) -> Result<(), EncodeError> {
$run_lets$        $run$.put(cache, sink)
    }
}
";

const OF_ALONE: &str = "    ghost use Rattle.$crate$.specs.$name$.{$part_records$};\n";

const OF_MEMBER: &str = "    ghost use Rattle.$crate$.specs.$family_name$.{$part_records$};\n";

// Fields in a row: the first, and the place behind the last.
#[derive(Clone, Copy)]
struct Span {
    first: usize,
    behind: usize,
}

/// Tells the fields of runs of many which of them are a part by themselves: the word `in_part` of
/// each, and `low` and `high` of the last, the numbers of such a part.
pub(crate) fn tell_parts(alloc: Global, fields: &mut [Field]) -> Result<(), GenerateError> {
    let mut low = Words::new(alloc);
    for span in parts_of(alloc, fields)? {
        for (place, field) in fields.iter_mut().enumerate() {
            if place == span.first {
                low.copy(&field.words, &["number"]);
            }
            if span.first <= place && place < span.behind {
                field.words.set("in_part", "in_part");
            }
            if place.saturating_add(1) == span.behind {
                field.words.set("low", low.get("number"));
                field.words.fill("high", "$number$");
            }
        }
    }
    low.ended()
}

fn parts_of(alloc: Global, fields: &[Field]) -> Result<Vec<Span>, GenerateError> {
    let mut parts = Vec::new(alloc);
    let mut first: usize = 0;
    for (place, field) in fields.iter().enumerate() {
        if is_row(field) {
            let behind = place;
            put_parts(fields, Span { first, behind }, &mut parts)?;
            first = place.saturating_add(1);
        }
    }
    let behind = fields.len();
    put_parts(fields, Span { first, behind }, &mut parts)?;
    Ok(parts)
}

// Puts the parts of a run.
fn put_parts(fields: &[Field], run: Span, parts: &mut Vec<Span>) -> Result<(), GenerateError> {
    let count = run.behind.saturating_sub(run.first);
    if count <= MOST {
        return Ok(());
    }
    let own = fields.iter().skip(run.first).take(count);
    let maps = own.filter(|it| !it.words.get("maps").is_empty()).count();
    let most = if maps > 1 { MOST_WITH_MAPS } else { MOST };
    let mut first = run.first;
    for _ in 0..count {
        let behind = first.saturating_add(most);
        if behind > run.behind {
            break;
        }
        parts.push(Span { first, behind })?;
        first = behind;
    }
    Ok(())
}

/// Puts a field behind those of the run so far, or of the part that it stands in.
pub fn put_field_in_run(page: &mut Words, field: &Words) {
    let is_choice = !field.get("in_choice").is_empty();
    if field.get("in_part").is_empty() {
        page.append("run_lets", if is_choice { RUN_CHOICE } else { RUN_FIELD });
        return put_in_run(page, "field_$number$");
    }
    begin_part(page);
    page.append(
        "run_lets",
        if is_choice {
            CHOICE_OF_PART
        } else {
            FIELD_OF_PART
        },
    );
    put_in_run(page, "field_$number$");
    if !field.get("high").is_empty() {
        page.copy(field, &["low", "high"]);
        put_part(page);
        end_part(page);
        page.append("run_lets", RUN_PART);
        put_in_run(page, "fields_$low$_to_$high$");
    }
}

// The type of a part.
fn put_part(page: &mut Words) {
    page.fill("part_records", "$module$-records-$low$-to-$high$");
    put_part_ghosts(page);
    narrow_run(page, "        ");
    page.append("parts", PART);
}

/// What the records of a oneof are called of which some variants are rows.
pub fn put_part_head(page: &mut Words, field: &Words) {
    page.copy(field, &["number"]);
    page.fill("part_records", "$module$-records-$number$");
    put_part_ghosts(page);
}

// What the clauses of a part bring in.
fn put_part_ghosts(page: &mut Words) {
    page.set("part_ghosts", "");
    for side in ["of_first", "of_second"] {
        if page.get("part_open").contains(side) {
            page.set("import", side);
            page.append(
                "part_ghosts",
                "    ghost use Rattle.wire_fields.specs.Sums.{$import$};\n",
            );
        }
    }
    let is_alone = page.get("family_name").is_empty();
    page.append("part_ghosts", if is_alone { OF_ALONE } else { OF_MEMBER });
}

/// Puts the run so far aside, where a part begins.
pub(crate) fn begin_part(page: &mut Words) {
    if page.get("is_within").is_empty() {
        page.fill_all(&[("outer_run", "$run$"), ("outer_lets", "$run_lets$")]);
        page.fill_all(&[("outer_items", "$run_items$"), ("run_items", "")]);
        page.fill_all(&[("run", ""), ("run_lets", ""), ("is_within", "is_within")]);
    }
}

/// Takes it up again, where the part ends.
pub(crate) fn end_part(page: &mut Words) {
    page.fill_all(&[("run", "$outer_run$"), ("run_lets", "$outer_lets$")]);
    page.fill_all(&[("run_items", "$outer_items$"), ("is_within", "")]);
}

// Puts a part behind those of the run so far.
fn put_in_run(page: &mut Words, part: &str) {
    page.fill("part", part);
    page.append("run_items", "$part$\n");
    let is_first = page.get("run").is_empty();
    page.fill(
        "run",
        if is_first {
            "$part$"
        } else {
            "($run$, $part$)"
        },
    );
}

// A run that has no room in a line is put together part by part.
fn narrow_run(page: &mut Words, margin: &str) {
    page.set("margin", margin);
    page.fill("line", "$margin$$run$.put(cache, sink)");
    let items = page.take("run_items");
    if page.get("line").len() <= WIDTH {
        return;
    }
    page.set("run", "");
    for item in items.lines() {
        page.set("part", item);
        if page.get("run").is_empty() {
            page.fill("run", "$part$");
        } else {
            page.append("run_lets", "$margin$let fields = ($run$, $part$);\n");
            page.set("run", "fields");
        }
    }
}

/// Puts the arms of a run that ends.
pub fn put_run(page: &mut Words, is_last: bool) {
    if is_last && page.get("unknown") == "drop" {
        put_in_run(page, "Dropped");
    } else if is_last {
        page.append("run_lets", RUN_REST);
        put_in_run(page, "rest");
    }
    page.set("run_at", "_");
    if !is_last {
        page.fill("run_at", "$row$");
    }
    if page.get("run").is_empty() {
        page.append("lens", "            $run_at$ => Ok(0),\n");
        page.append("puts", "            $run_at$ => Ok(()),\n");
        return;
    }
    narrow_run(page, "                ");
    page.append(
        "lens",
        "            $run_at$ => {\n$run_lets$                $run$.len(cache)\n            }\n",
    );
    page.append(
        "puts",
        "            $run_at$ => {\n$run_lets$                $run$.put(cache, sink)\n            }\n",
    );
    page.fill_all(&[("run", ""), ("run_lets", "")]);
}
