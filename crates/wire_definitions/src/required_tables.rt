//! What is asked of a message type that holds itself, or of one of several that hold one another, as
//! definitions.
use crate::required::{NONE_ASKED, USES_OF_MISSING, define_rows};
use crate::required_rows::{asked_as, is_alone};
use crate::rows::is_row;
use wire_schema::{Field, Template, Words};

const DEFINITION: &str = "\
$asked_apart$
-- what is asked of the leaf before the first row, behind the first, and so on
abbrev pub $module$-asked-run : ℕ → $name$-Leaf → Missing
$asked_runs$
-- and of each row
abbrev pub $module$-asked-row : ℕ → nested.AskedRow
$asked_rows$";

const OF_ONE: &str = "
abbrev pub $module$-asked : nested.Asked (Unit {0}) $name$-Leaf
$module$-asked = record { run = λ s. $module$-asked-run; row = λ s. $module$-asked-row }

-- the first required field that is not there
abbrev pub $module$-missing : $name$-Value → Missing
$module$-missing = nested.family_missing (tables.alone $module$-table) $module$-asked tt
";

const USES_OF_ROW: &str = "\
Rattle.std.specs.Prelude None
Rattle.std.specs.Prelude codes
Rattle.std.specs.Prelude ℕ
Rattle.wire_required.specs.Missing Missing
Rattle.wire_required.specs.Nested asked_first
Rattle.wire_required.specs.Nested asked_second
";

const DEFINE_PART: [Template; 2] = [
    ("asked", "$module$-asked-$low$-to-$high$ l\n    ∷ "),
    (
        "asked_apart",
        "
-- what is asked of the fields $low$ to $high$
abbrev pub $module$-asked-$low$-to-$high$ : $name$-Leaf → Missing
$module$-asked-$low$-to-$high$ l =
    first_of ($lines_of_part$[])
",
    ),
];

// A row that others stand behind, and the last.
const ROW_BEFORE: &str = "$module$-asked-row $row_before$ = $last_asked$\n";

const LAST_ROW: &str = "$module$-asked-row $least_row$ = $last_asked$\n";

/// The alias of such definitions.
pub(crate) const NESTED: &str = "use Rattle.wire_required.specs.Nested as nested\n";

/// What is asked of a type of rows, as the word `asked_table`, and what it brings in.
pub(crate) fn define_asked_rows(page: &mut Words, fields: &[Field]) {
    page.set("asked_table", "");
    if page.get("requiring").is_empty() {
        return;
    }
    page.fill_all(&NONE_ASKED);
    page.append_all(&[("uses", USES_OF_MISSING), ("uses", USES_OF_ROW)]);
    page.fill_all(&[("asked_runs", ""), ("asked_rows", ""), ("all_asked", "")]);
    page.fill_all(&[("row_at", "zero"), ("last_row_at", "i")]);
    let mut first: usize = 0;
    for (place, field) in fields.iter().enumerate() {
        if is_row(field) {
            if first > 0 {
                page.append("asked_rows", ROW_BEFORE);
            }
            page.fill("asked_at", "$row_at$");
            define_run(page, fields.get(first..place).unwrap_or(&[]));
            set_row(page, field);
            first = place.saturating_add(1);
        }
    }
    page.append("asked_rows", LAST_ROW);
    page.fill("asked_at", "$last_row_at$");
    define_run(page, fields.get(first..).unwrap_or(&[]));
    if page.get("all_asked").is_empty() {
        page.fill("asked_runs", "$module$-asked-run i l = None\n");
    }
    page.fill("asked_table", DEFINITION);
    page.append("asked_table", if is_alone(page) { OF_ONE } else { "" });
}

// The words of the line of a row.
fn set_row(page: &mut Words, field: &Field) {
    page.copy(&field.words, &["proto"]);
    page.set("asked_as", asked_as(field).1);
    page.fill_all(&[
        ("last_asked", "nested.$asked_as$ (codes \"$proto$\")"),
        ("row_before", "$row_at$"),
        ("row_at", "(suc $row_at$)"),
        ("least_row", "$last_row_at$"),
        ("last_row_at", "(suc $last_row_at$)"),
    ]);
}

// The line of a run of these fields.
fn define_run(page: &mut Words, fields: &[Field]) {
    page.set("asked", "");
    define_rows(page, fields, "l.0$path$", &DEFINE_PART);
    if page.get("asked").is_empty() {
        page.append("asked_runs", "$module$-asked-run $asked_at$ l = None\n");
    } else {
        page.set("all_asked", "asked");
        page.append(
            "asked_runs",
            "$module$-asked-run $asked_at$ l =\n    first_of ($asked$[])\n",
        );
    }
}

/// What is asked of all types of a family.
pub(crate) const ASKED: &str = "\
$asked_tables$
-- what is asked of each of them
abbrev pub family-asked-run : Family-Sorts → ℕ → Family-Leaves → Missing
$all_asked_runs$
abbrev pub family-asked-row : Family-Sorts → ℕ → nested.AskedRow
$all_asked_rows$
abbrev pub family-asked : nested.Asked Family-Sorts Family-Leaves
family-asked = record { run = family-asked-run; row = family-asked-row }

-- the first required field that is not there
abbrev pub family-missing : Family-Sorts → Family-Tree → Missing
family-missing = nested.family_missing family-all family-asked
";

/// The lines of each of them.
pub(crate) const OF_ASKED: [Template; 3] = [
    ("asked_tables", "$asked_table$"),
    (
        "all_asked_runs",
        "family-asked-run $name$-Sort i = $asked_open$$module$-asked-run i$asked_close$\n",
    ),
    (
        "all_asked_rows",
        "family-asked-row $name$-Sort = $module$-asked-row\n",
    ),
];
