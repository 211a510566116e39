//! The proofs of a message type: what becomes of a record whose number no field has.
use wire_definitions::Node;
use wire_schema::{Field, Template, Words};

const REST: &str = "
pub returns-in_default-clause-err : goal.returns-in_default-clause-err
returns-in_default-clause-err $given$ =
    let n = tag_number c.args.tag in
    $before$rest_err $module$-known.owns $module$-known.takes keeps _
    (λ p. $unlike$)
    _ _ _ _ $rest_call$.result $rest_call$.ensures.err$behind$
";

// Of a leaf that has no field.
const REST_OF_NONE: &str = "
pub returns-clause-err : goal.returns-clause-err
returns-clause-err $given$ =
    $before$rest_err $module$-known.owns $module$-known.takes keeps _ (λ p. $unlike$)
    _ _ _ _ $rest_call$.result $rest_call$.ensures.err$behind$
";

// The same of one that keeps no unknown fields.
const DROPPED_OF_NONE: &str = "
pub returns-clause-err : goal.returns-clause-err
returns-clause-err g c =
    $before$rest_err $module$-known.owns $module$-known.takes drops _ (λ p. $unlike$)
    _ _ _ _ $of_call$pass_over.result
    (IfErr-weaker $of_call$pass_over.result _ _ (λ e none other. none)
    $of_call$pass_over.ensures.err)$behind$
";

// Of many fields the search does not find that what is kept is none of theirs.
const MANY: usize = 16;

const MANY_OF_LEAF: usize = 8;

const REST_TAKEN: &str = "
pub returns-in_default-clause-ok : goal.returns-in_default-clause-ok
returns-in_default-clause-ok $given$ =
    let n = tag_number c.args.tag in
    arm_ok $all_takes$ keeps n n refl _ _ _ _
    (λ charge p h. to_rest $module$-known.owns $module$-known.takes keeps n
    (λ p. $unlike$)
    _ charge _ p h)
    _ _ _ _ _ $rest_call$.result $rest_call$.ensures.ok
";

const USES_OF_REST_TAKEN: &str = "\
$taken_uses$\
Rattle.std.proofs.Common refl
Rattle.wire_fields.specs.Arms to_rest
";

// The same of a leaf.
const REST_OF_LEAF: &str = "
pub returns-in_default-clause-ok : goal.returns-in_default-clause-ok
returns-in_default-clause-ok $given$ =
    let n = tag_number c.args.tag in
    let other : (p : Payload) → $module$-known.owns n p ≡ false = λ p. $unlike$ in
    leaf_ok $all_takes$ keeps n n refl _ _$levels$ _ _
    (λ charge p h. to_rest $module$-known.owns $module$-known.takes keeps n other _ charge _ p h)
    _ _ _ _ _ $rest_call$.result $rest_call$.ensures.ok
";

const USES_OF_REST_OF_LEAF: &str = "\
Rattle.std.specs.Prelude false
Rattle.std.specs.Prelude ◌≡◌
Rattle.wire_codec.specs.Field Payload
";

// The same where they are not kept.
const REST_DROPPED: &str = "
pub returns-in_default-clause-err : goal.returns-in_default-clause-err
returns-in_default-clause-err g c =
    let n = tag_number c.args.tag in
    $before$rest_err $module$-known.owns $module$-known.takes drops _
    (λ p. $unlike$)
    _ _ _ _ $rest_call$.result
    (IfErr-weaker $rest_call$.result _ _ (λ e none other. none)
    $rest_call$.ensures.err)$behind$
";

// The same where a field may leave records to the unknown fields.
const REST_BESIDE: &str = "
pub returns-in_default-clause-err : goal.returns-in_default-clause-err
returns-in_default-clause-err $given$ =
    let n = tag_number c.args.tag in
    $before$arm_err $whole$.takes keeps n n refl _ _
    (λ charge z p h. (
      z.1,
      (from_last $module$-known.owns $module$-known.takes keeps_beside n
          (λ p. $unlike$)
          $held_value$ z charge p h).0,
    ))
    _ _ _ $rest_call$.result $rest_call$.ensures.err$behind$
";

// Of many such fields the search does not find what is kept either.
const MANY_BESIDE: usize = 40;

const MANY_BESIDE_OF_LEAF: usize = 3;

const BESIDE_TAKEN: &str = "
pub returns-in_default-clause-ok : goal.returns-in_default-clause-ok
returns-in_default-clause-ok $given$ =
    let n = tag_number c.args.tag in
    arm_ok $all_takes$ keeps n n refl _ _ _ _
    (λ charge p h. to_last $module$-known.owns $module$-known.takes keeps_beside n
    (λ p. $near$)
    _ _ charge p (h, refl))
    _ _ _ _ _ $rest_call$.result $rest_call$.ensures.ok
";

const USES_OF_BESIDE_TAKEN: &str = "\
$taken_uses$\
Rattle.wire_fields.specs.Arms to_last
";

// The same of a leaf.
const BESIDE_OF_LEAF: &str = "
pub returns-in_default-clause-ok : goal.returns-in_default-clause-ok
returns-in_default-clause-ok $given$ =
    let n = tag_number c.args.tag in
    let other : (p : Payload) → $module$-known.owns n p ≡ false = λ p. $near$ in
    leaf_ok $all_takes$ keeps n n refl _ _$levels$ _ _
    (λ charge p h. to_last $module$-known.owns $module$-known.takes keeps_beside n other
    _ _ charge p (h, refl))
    _ _ _ _ _ $rest_call$.result $rest_call$.ensures.ok
";

// What a group hands on is of none of its fields.
const HANDED_ON: &str = "
pub $handed$ : goal.$handed$
$handed$ $given$ =
    let n = tag_number c.args.tag in
    $named_open$λ p. $near$$named_close$
";

// (the first asks one thing, which stands in a record)
const ONE_ASKED: [Template; 2] = [
    ("named_open", "record {\n      others_$low$_to_$high$ = "),
    ("named_close", ";\n    }"),
];

// How much further to the right what stands in a record does, in steps of two columns.
const STEPS: usize = 3;

const FURTHER: &str = "      ";

const USES_OF_REST: &str = "\
Rattle.wire_fields.specs.Arms rest_err
Rattle.wire_fields.specs.Shape keeps
";

const USES_OF_DROPPED: &str = "\
Rattle.std.proofs.lemmas.Result IfErr-weaker
Rattle.wire_fields.specs.Arms rest_err
Rattle.wire_fields.specs.Dropped drops
";

const USES_OF_BESIDE: &str = "\
Rattle.wire_fields.specs.Shape keeps
Rattle.std.proofs.Common refl
Rattle.wire_fields.specs.Arms from_last
Rattle.wire_fields.specs.Leaving keeps_beside
";

// What a message holds before the record, and what a leaf does.
const OF_WHOLE: [Template; 2] = [
    ("held_value", "($module$-$seen_by$ c.args.self.now)"),
    (
        "uses",
        "$uses$Rattle.$crate$.specs.$name$ $module$-$seen_by$\n",
    ),
];

const OF_LEAF: [Template; 1] = [("held_value", "_")];

/// The answer of what a group asks of the function behind it.
pub fn put_handed_on(page: &mut Words, fields: &[Field], group: &Node, next: &Node) {
    page.copy(&next.words, &["low"]);
    let is_whole = page.get("levels").is_empty();
    page.fill(
        "handed",
        if is_whole {
            "merge_from_$low$-requires"
        } else {
            "merge_leaf_from_$low$-requires"
        },
    );
    page.copy(&group.words, &["low", "high", "unlike"]);
    set_near(page, fields);
    if group.first == 0 {
        page.fill_all(&ONE_ASKED);
        for _ in 0..STEPS {
            page.indent_rest("near");
        }
    } else {
        page.append("handed", "-clause-others_$low$_to_$high$");
    }
    page.fill("rest", HANDED_ON);
    use_neither(page);
}

// The word `near`: why a number is of no field, where nothing is before it that stands further to
// the right, as it does where fields leave records.
fn set_near(page: &mut Words, fields: &[Field]) {
    let unlike = page.take("unlike");
    page.set("unlike", &unlike);
    page.set("near", "");
    let further = if leaves(fields) { FURTHER } else { "" };
    for (place, line) in unlike.split('\n').enumerate() {
        page.set("line", line.strip_prefix(further).unwrap_or(line));
        page.append("near", if place == 0 { "$line$" } else { "\n$line$" });
    }
}

// Whether a field may leave records to the unknown ones.
fn leaves(fields: &[Field]) -> bool {
    let mut both = fields.iter().map(|it| it.words.get("both"));
    both.any(|it| it == "both_leaving")
}

fn use_neither(page: &mut Words) {
    if page.get("unlike").contains("neither") {
        page.append("uses", "Rattle.wire_fields.specs.Arms neither\n");
    }
}

/// The answers of the arm of all other numbers.
pub fn put_rest(page: &mut Words, fields: &[Field]) {
    let is_kept = page.get("unknown") == "keep";
    let is_whole = page.get("levels").is_empty();
    if page.get("rest_call").is_empty() {
        page.fill(
            "rest_call",
            if is_kept {
                "$of_call$$keeper$"
            } else {
                "$of_call$pass_over"
            },
        );
    }
    page.fill("rest", "");
    if fields.is_empty() && is_kept {
        page.append_all(&[("uses", USES_OF_REST), ("rest", REST_OF_NONE)]);
    } else if fields.is_empty() {
        page.append_all(&[("uses", USES_OF_DROPPED), ("rest", DROPPED_OF_NONE)]);
    } else if leaves(fields) {
        page.fill_all(if is_whole { &OF_WHOLE } else { &OF_LEAF });
        if is_whole && fields.len() > MANY_BESIDE {
            set_near(page, fields);
            page.append_all(&[("uses", USES_OF_BESIDE_TAKEN), ("rest", BESIDE_TAKEN)]);
        } else if !is_whole && fields.len() > MANY_BESIDE_OF_LEAF {
            set_near(page, fields);
            page.append_all(&[("uses", USES_OF_BESIDE_TAKEN), ("rest", BESIDE_OF_LEAF)]);
            page.append("uses", USES_OF_REST_OF_LEAF);
        }
        page.append_all(&[("uses", USES_OF_BESIDE), ("rest", REST_BESIDE)]);
    } else if is_kept {
        if is_whole && fields.len() > MANY {
            page.append_all(&[("uses", USES_OF_REST_TAKEN), ("rest", REST_TAKEN)]);
        } else if !is_whole && fields.len() > MANY_OF_LEAF {
            page.append_all(&[("uses", USES_OF_REST_TAKEN), ("rest", REST_OF_LEAF)]);
            page.append("uses", USES_OF_REST_OF_LEAF);
        }
        page.append_all(&[("uses", USES_OF_REST), ("rest", REST)]);
    } else {
        page.append_all(&[("uses", USES_OF_DROPPED), ("rest", REST_DROPPED)]);
    }
    use_neither(page);
}
