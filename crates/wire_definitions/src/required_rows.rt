//! What is asked of a message type that holds itself, or of one of several that hold one another: of
//! each run of its leaf, and of its rows.
use crate::imports::ghost_imports;
use crate::required::{NONE_ASKED, USES, use_rows};
use crate::rows::is_row;
use wire_schema::{Field, Template, Words};

// The calls, of a type that holds itself alone and of one of several.
const MEMBER: &str = "
impl RequiredMember for $name$ {
$ghost_imports$
    ghost Sort = { $asked_sort$ };

    ghost Leaf = { $asked_leaf$ };

    ghost sort = { $asked_own$ };

    ghost view = { $module$-value };

    ghost family = { $asked_family$ };

    ghost asked = { $asked_of$ };

    fn row_requirement($row_of_number$: usize) -> RowRequirement {
$row_arms$    }

    fn run_missing($run_parameters$) -> Result<Option<FieldPath>, AllocError> {
$run_arms$    }
}
";

const ALONE: &str = "
impl RequiredAlone for $name$ {
    ghost use Rattle.std.proofs.Common.{refl};
    ghost use Rattle.$crate$.specs.$name$.{$module$-counted};

    ghost holds_itself = { λ row. refl };

    ghost counted = { $module$-counted };

    fn row_count() -> usize {
        $count$
    }

    fn row_messages(&self, row: usize) -> &[$name$] {
        RecursiveAlone::row(self, row)
    }
}
";

const REQUIRED: &str = "
impl Required for $name$ {
$ghost_imports$
    ghost Seen = { $name$-Value };

    ghost seen = { $module$-value };

    ghost missing = { $module$-missing };

    fn missing(&self, alloc: Global) -> Result<Option<FieldPath>, AllocError> {
        slice_missing($asked_slice$(from_ref(self)), 0, alloc)
    }
}
";

// (the value is brought in at the head of the module)
const GHOSTS: &str = "\
Rattle.$crate$.specs.$name$ $name$-Value
Rattle.$crate$.specs.$name$ $module$-missing
";

const USES_OF_ROWS: &str = "\
wire_required RequiredMember
wire_required RowRequirement
wire_required slice_missing
";

const OF_ALONE: [Template; 8] = [
    ("asked_sort", "Unit {0}"),
    ("asked_leaf", "$name$-Leaf"),
    ("asked_own", "tt"),
    ("asked_family", "alone $module$-table"),
    ("asked_of", "$module$-asked"),
    ("asked_slice", "Alone"),
    ("asked_specs", "Rattle.$crate$.specs.$name$"),
    (
        "asked_ghosts",
        "Rattle.wire_fields.specs.NestTable alone
$asked_specs$ $name$-Leaf
$asked_specs$ $module$-asked
$asked_specs$ $module$-table
$asked_specs$ $module$-value
",
    ),
];

const OF_MEMBER: [Template; 8] = [
    ("asked_sort", "Family-Sorts"),
    ("asked_leaf", "Family-Leaves"),
    ("asked_own", "$name$-Sort"),
    ("asked_family", "family-all"),
    ("asked_of", "family-asked"),
    ("asked_slice", "FamilySlice::$name$"),
    ("asked_specs", "Rattle.$crate$.specs.$family_name$"),
    (
        "asked_ghosts",
        "$asked_specs$ Family-Leaves
$asked_specs$ Family-Sorts
$asked_specs$ $name$-Sort
$asked_specs$ $module$-value
$asked_specs$ family-all
$asked_specs$ family-asked
",
    ),
];

// Some fields of a run of many.
const PART: &str = "
// What is asked of the fields $low$ to $high$ of `$name$`, between which no row stands.
struct $name$Required$low$To$high$;

impl Requirement for $name$Required$low$To$high$ {
$ghost_imports$
    type Held = $name$;

    ghost Value = { $asked_leaf$ };

    ghost view = { λ m. leaf_of ($module$-value m) };

    ghost missing = { λ name. $asked_open$$module$-asked-$low$-to-$high$$asked_close$ };

    fn missing(
        alloc: Global,
        _name: &'static str,
        held: &$name$,
    ) -> Result<Option<FieldPath>, AllocError> {
        first_missing!(
            held,
            alloc,
$rows_of_part$        )
    }
}
";

const PART_GHOSTS: &str = "\
Rattle.wire_fields.specs.Nest leaf_of
$asked_sums$\
$asked_specs$ $asked_leaf$
$asked_specs$ $module$-asked-$low$-to-$high$
$asked_specs$ $module$-value
";

const USE_PART: [Template; 3] = [
    ("asked", "            ..$name$Required$low$To$high$,\n"),
    ("asked_apart", PART),
    ("uses", "wire_required Requirement\n"),
];

const RUN: &str = "            $asked_at$ => first_missing!(
                self,
                alloc,
$asked$            ),
";

/// The arms of a type of rows, and what they bring in.
pub fn use_asked_rows(page: &mut Words, fields: &[Field]) {
    if page.get("requiring").is_empty() {
        return;
    }
    set_asked(page);
    page.append_all(&[("uses", USES), ("uses", USES_OF_ROWS)]);
    if is_alone(page) {
        page.append("uses", "wire_required RequiredAlone\n");
    }
    page.fill_all(&[("run_arms", ""), ("row_arms", ""), ("all_asked", "")]);
    let mut first: usize = 0;
    let mut row: usize = 0;
    for (place, field) in fields.iter().enumerate() {
        if is_row(field) {
            page.index("asked_row", row);
            page.fill("asked_at", "$asked_row$");
            use_run(page, fields.get(first..place).unwrap_or(&[]));
            put_row_arm(page, field);
            first = place.saturating_add(1);
            row = row.saturating_add(1);
        }
    }
    page.set("asked_at", "_");
    use_run(page, fields.get(first..).unwrap_or(&[]));
    end_arms(page, row);
}

// What the words of such a type are called in clauses.
fn set_asked(page: &mut Words) {
    page.fill_all(&NONE_ASKED);
    let own = if is_alone(page) {
        OF_ALONE.as_slice()
    } else {
        OF_MEMBER.as_slice()
    };
    for (name, template) in own {
        page.fill(name, template);
    }
    page.set("asked_sums", "");
    for side in ["asked_first", "asked_second"] {
        if page.get("asked_open").contains(side) {
            page.set("import", side);
            page.append("asked_sums", "Rattle.wire_required.specs.Nested $import$\n");
        }
    }
}

/// Whether a type holds itself alone.
pub(crate) fn is_alone(page: &Words) -> bool {
    page.get("family_name").is_empty()
}

// The arm of a run of these fields.
fn use_run(page: &mut Words, fields: &[Field]) {
    page.set("asked", "");
    use_rows(page, fields, PART_GHOSTS, &USE_PART);
    if page.get("asked").is_empty() {
        page.append("run_arms", "            $asked_at$ => Ok(None),\n");
        return;
    }
    page.set("all_asked", "asked");
    for _ in 0..2 {
        page.indent("asked");
    }
    page.append("run_arms", RUN);
}

// What is asked of a row.
fn put_row_arm(page: &mut Words, field: &Field) {
    page.copy(&field.words, &["proto"]);
    page.set("asked_as", asked_as(field).0);
    page.fill("last_asked", "RowRequirement::$asked_as$(\"$proto$\")");
    page.append("row_arms", "            $asked_row$ => $last_asked$,\n");
}

/// How a row is asked, in code and in definitions: as a list, one message at most, or one that is
/// required.
pub(crate) fn asked_as(field: &Field) -> (&'static str, &'static str) {
    if field.words.get("kind").starts_with("Each") {
        ("Each", "each")
    } else if field.words.get("needed").is_empty() {
        ("Once", "once")
    } else {
        ("Needed", "needed")
    }
}

// The bodies of the calls, of so many rows.
fn end_arms(page: &mut Words, rows: usize) {
    page.fill(
        "row_arms",
        if rows > 1 {
            "        match row {\n$row_arms$            _ => $last_asked$,\n        }\n"
        } else {
            "        $last_asked$\n"
        },
    );
    let is_none = page.get("all_asked").is_empty();
    page.set(
        "run_parameters",
        if is_none {
            "&self, _alloc: Global, _run: usize"
        } else {
            "&self, alloc: Global, run: usize"
        },
    );
    page.fill(
        "run_arms",
        if is_none {
            "        Ok(None)\n"
        } else {
            "        match run {\n$run_arms$        }\n"
        },
    );
}

/// Puts the calls of a type of rows behind the code so far, of the arms that are there.
pub fn put_required_rows(page: &mut Words) {
    if page.get("requiring").is_empty() {
        return;
    }
    page.fill("ghosts", "$asked_ghosts$");
    ghost_imports(page, "    ");
    page.append("code", MEMBER);
    page.append("code", if is_alone(page) { ALONE } else { "" });
    page.fill("ghosts", GHOSTS);
    ghost_imports(page, "    ");
    page.append_all(&[("code", REQUIRED), ("code", "$asked_apart$")]);
}
