//! The proofs of a oneof: that a variant refuses what its kind refuses, of the value that stands,
//! or of a value of no records where this variant does not stand.
use wire_definitions::definition_imports;
use wire_schema::{GenerateError, Oneof, Template, Words};

const USES: &str = "\
Rattle.std.proofs.Common refl
Rattle.std.proofs.Common rules
Rattle.std.proofs.lemmas.Result err_from_is_err_and
Rattle.wire_codec.specs.TagView tag_number
Rattle.wire_fields.specs.Arms anew_untaken
Rattle.wire_fields.specs.Arms arm_err
Rattle.$crate$.specs.$name$ $module$-$seen_by$
Rattle.$crate$.specs.$name$ $module$-kind
";

const USES_OF_MANY: &str = "\
Rattle.std.proofs.Common sym
Rattle.std.proofs.Common ◌∙◌
Rattle.wire_fields.specs.Arms from_last
Rattle.wire_fields.specs.Arms last_err
Rattle.wire_fields.specs.Arms unlike
Rattle.$crate$.specs.$name$ $module$-front
Rattle.$crate$.specs.$name$ $word$-of-$module$
";

const USES_OF_VARIANT: &str = "\
Rattle.$crate$.specs.$name$ $word$-of-$module$-as
Rattle.$crate$.specs.$name$ $word$-of-$module$-kind
";

const HEAD: &str = "\
$imports$use Rattle.$crate$.proofs.$of_goals$.merge.Goals as goal
$held_use$";

// From so many variants on a search does not find that the last takes what its kind takes, nor that
// a message behind so many does.
const MANY: usize = 10;

const MANY_BEFORE: usize = 8;

const USES_OF_LAST_OK: &str = "\
Rattle.std.proofs.Common Some
Rattle.wire_fields.specs.Arms arm_ok
Rattle.wire_fields.specs.Arms to_last
Rattle.$crate$.specs.$name$ $module$-one
";

const USES_OF_ANEW_OK: &str = "\
Rattle.std.proofs.Common ◌≡◌
Rattle.std.specs.Prelude Ok
Rattle.wire_fields.specs.Messages or_else
";

const OF_LAST_OK: [Template; 3] = [
    ("uses", USES_OF_LAST_OK),
    ("held_use", HELD_USE),
    ("answers", LAST_OK),
];

const OF_LAST_ANEW_OK: [Template; 2] = [("uses", USES_OF_ANEW_OK), ("answers", LAST_ANEW_OK)];

const OF_ARM_OK: [Template; 3] = [
    ("uses", "Rattle.wire_fields.specs.Arms arm_ok\n"),
    ("uses", USES_OF_ANEW_OK),
    ("answers", ARM_OK),
];

const HELD_USE: &str = "use Rattle.$crate$.specs.declared.$module$.$name$.TheVariants as held\n";

const LAST_OK: &str = "
pub returns-in-Some-$variant$-$rows$-clause-ok :
    goal.returns-in-Some-$variant$-$rows$-clause-ok
returns-in-Some-$variant$-$rows$-clause-ok $given$ =
    let n = tag_number c.args.tag in
    let one = c.in-Some-$variant$-$rows$ in
    rw $stands$ (arm_ok $module$-kind.takes
    $word$-of-$module$-kind.takes n n refl _ _ _ _
    (λ charge p h. to_last $module$-front.owns $module$-front.takes
    $word$-of-$module$.takes n
    (λ p. $unlike$)
    (Some ($module$-one (held.$variant$ one.field-0-0))) _ charge p (_, h, refl)) _ _ _ _ _
    $merge$.result $merge$.ensures.ok)
";

// The same where another stands, or none.
const LAST_ANEW_OK: &str = "
pub returns-in_Continue-$rows$-$rows$-clause-ok :
    goal.returns-in_Continue-$rows$-$rows$-clause-ok
returns-in_Continue-$rows$-$rows$-clause-ok $given$ =
    let n = tag_number c.args.tag in
    let m = $module$-$seen_by$ c.args.held.now in
    let none : or_else $word$-of-$module$-kind.default ($word$-of-$module$-as m)
    ≡ $word$-of-$module$-kind.default = search rules in
    arm_ok $module$-kind.takes
    $word$-of-$module$-kind.takes n n refl m _ $word$-of-$module$-kind.default _
    (λ charge p h. to_last $module$-front.owns $module$-front.takes
    $word$-of-$module$.takes n
    (λ p. $unlike$)
    m _ charge p (_, rw none h, refl)) _ _ _ _ _
    (Ok n) c.in_Continue-$rows$-$rows$.ensures.ok
";

// The same of a variant that is not the last.
const ARM_OK: &str = "
pub returns-in-Some-$variant$-$rows$-clause-ok :
    goal.returns-in-Some-$variant$-$rows$-clause-ok
returns-in-Some-$variant$-$rows$-clause-ok $given$ =
    let n = tag_number c.args.tag in
    let one = c.in-Some-$variant$-$rows$ in
    rw $stands$ (arm_ok $module$-kind.takes
    $word$-of-$module$-kind.takes $digits$ n
    $is$ _ _ _ _
    (λ charge p h. (_, h, refl)) _ _ _ _ _
    $merge$.result $merge$.ensures.ok)

pub returns-in_Continue-$rows$-$rows$-in-$digits$-clause-ok :
    goal.returns-in_Continue-$rows$-$rows$-in-$digits$-clause-ok
returns-in_Continue-$rows$-$rows$-in-$digits$-clause-ok $given$ =
    let n = tag_number c.args.tag in
    let m = $module$-$seen_by$ c.args.held.now in
    let none : or_else $word$-of-$module$-kind.default ($word$-of-$module$-as m)
    ≡ $word$-of-$module$-kind.default = search rules in
    arm_ok $module$-kind.takes
    $word$-of-$module$-kind.takes $digits$ n
    $is$ m _ $word$-of-$module$-kind.default _
    (λ charge p h. (_, rw none h, refl)) _ _ _ _ _
    (Ok n) (c.in_Continue-$rows$-$rows$-in-$digits$).ensures.ok
";

const ANSWERS: &str = "
pub returns-in-Some-$variant$-$rows$-clause-err :
    goal.returns-in-Some-$variant$-$rows$-clause-err
returns-in-Some-$variant$-$rows$-clause-err $given$ =
    let n = tag_number c.args.tag in
    let one = c.in-Some-$variant$-$rows$ in
    rw $stands$ ($stood$)

pub returns$arm$-clause-err : goal.returns$arm$-clause-err
returns$arm$-clause-err $given$ =
    let n = tag_number c.args.tag in
    let m = $module$-$seen_by$ c.args.held.now in
    let r = $residual$ in
    let p = err_from_is_err_and r.result r.ensures.1 in
    rw (p.1, p.2) (λ other. anew_untaken $module$-kind.takes
    $word$-of-$module$-kind $word$-of-$module$-as _ $at$ n
    $is$ m (search rules)
    (λ charge z p h. $own$) _ _ _ ($anew$$broken$.ensures.err other))
";

// What stands refuses what its kind refuses.
const STOOD: &str = "$refused$ _ _
    (λ charge z p h. (h.0, h.1)) _ _ _
    $merge$.result $merge$.ensures.err";

// The same of a message that is the only variant, which the search finds case by case once it is
// known of what value the refusal is.
const ONLY_STOOD: &str = "seen_first $module$-kind.takes
    $word$-of-$module$-kind.takes n n _ _ _ _ _
    $merge$.result refl $merge$.ensures.err
    (λ charge z p h. search (rules, h))";

const SEEN_FIRST: &str = "
seen_first : {V T R : Type 0} (takes : Step V) (step : Step T) (k n : ℕ) (m : V) (t : T)
    (l : Limits) (w : WireType) (old : List ℕ) (r : Result R DecodeError) → n ≡ k
    → IfErr r (λ e. e ≢ OutOfMemory → NotTaken (TakesRecord step l n w t old))
    → ((c : Charge) (z : V) (p : Payload) → takes m k p c z → (u : T) × step t k p c u)
    → IfErr r (λ e. e ≢ OutOfMemory → NotTaken (TakesRecord takes l n w m old))
seen_first takes step k n m t l w old r is h taken =
    arm_err takes step k n is m t taken l w old r h
";

const USES_OF_ONLY: &str = "\
Rattle.std.proofs.Common List
Rattle.std.proofs.Common ℕ
Rattle.std.proofs.Common ◌≡◌
Rattle.std.proofs.Common ◌≢◌
Rattle.std.specs.Prelude IfErr
Rattle.std.specs.Prelude Result
Rattle.wire_codec.specs.DecodeError DecodeError
Rattle.wire_codec.specs.DecodeError.TheVariants OutOfMemory
Rattle.wire_codec.specs.Field Payload
Rattle.wire_codec.specs.Folds Step
Rattle.wire_codec.specs.Limits Charge
Rattle.wire_codec.specs.Limits Limits
Rattle.wire_codec.specs.Taking NotTaken
Rattle.wire_codec.specs.Taking TakesRecord
Rattle.wire_codec.specs.WireType WireType
";

const OF_ONLY_MESSAGE: [Template; 3] = [
    ("stood", ONLY_STOOD),
    ("seen_first", SEEN_FIRST),
    ("only_uses", USES_OF_ONLY),
];

const OF_OTHERS: [Template; 3] = [("stood", STOOD), ("seen_first", ""), ("only_uses", "")];

// A variant whose number is not the last.
const OF_ARM: [Template; 7] = [
    ("stands", "(one.is, one.field-0-is)"),
    ("at", "$digits$"),
    (
        "is",
        "(sym c.$rows$-field_number.ensures.number ∙ c.in-$digits$.is)",
    ),
    ("arm", "-in-$digits$"),
    ("own", "h"),
    ("refused", REFUSED),
    ("broken", "(c.in_Break-$rows$-$rows$-in-$digits$)"),
];

const REFUSED: &str = "arm_err $module$-kind.takes
    $word$-of-$module$-kind.takes $at$ n
    $is$";

const OF_LAST: [Template; 4] = [
    ("at", "n"),
    ("is", "refl"),
    ("arm", ""),
    ("broken", "c.in_Break-$rows$-$rows$"),
];

const OF_ONLY: [Template; 6] = [
    ("empty", "c.$rows$-empty"),
    ("stands", "one.is"),
    ("own", "h"),
    ("refused", REFUSED),
    ("merge", "c.$rows$-merge"),
    ("residual", "c.$rows$-from_residual"),
];

// The last of many, which has all numbers that the others lack.
const OF_LAST_OF_MANY: [Template; 6] = [
    ("empty", "c.$rows$-empty-2"),
    ("stands", "(one.is, one.field-0-is)"),
    (
        "own",
        "from_last $module$-front.owns $module$-front.takes
    $word$-of-$module$.takes n
    (λ p. $unlike$)
    m z charge p h",
    ),
    (
        "refused",
        "last_err $module$-front.owns $module$-front.takes
    $word$-of-$module$.takes n
    (λ p. $unlike$)
    $word$-of-$module$-kind.takes",
    ),
    ("merge", "c.$rows$-merge-2"),
    ("residual", "c.$rows$-from_residual-2"),
];

const OF_FIRST: [Template; 3] = [
    ("empty", "c.$rows$-empty"),
    ("merge", "c.$rows$-merge"),
    ("residual", "c.$rows$-from_residual"),
];

const OF_NEXT: [Template; 3] = [
    ("empty", "(c.$rows$-empty-in-$digits$)"),
    ("merge", "(c.$rows$-merge-in-$digits$)"),
    ("residual", "c.$rows$-from_residual-in-$digits$"),
];

// The rows that the calls are read from, what the function is given, how what is held is seen, and
// the function.
const OF_KIND: [Template; 4] = [
    ("rows", "variants"),
    ("given", "g c"),
    ("seen_by", "of"),
    ("of_goals", "$module$.$kind_name$Kind"),
];

// The same of a view.
const OF_VIEW: [Template; 4] = [
    ("rows", "view_variants"),
    ("given", "c"),
    ("seen_by", "view_of"),
    ("of_goals", "$view_module$.$view_kind_name$ViewKind"),
];

/// The proofs of the kind's `merge`.
pub fn merge_answers(base: &Words, oneof: &Oneof) -> Result<String, GenerateError> {
    let mut page = Words::like(base);
    page.fill_all(&OF_KIND);
    answers_of(page, oneof, "")
}

/// The proofs of that of its view.
pub fn view_merge_answers(base: &Words, oneof: &Oneof) -> Result<String, GenerateError> {
    let mut page = Words::like(base);
    page.fill_all(&OF_VIEW);
    answers_of(page, oneof, "rw $empty$.ensures at ")
}

// The answers of the variant at this place, of so many behind the first.
fn put_answers(page: &mut Words, variant: &Words, place: usize, last: usize) {
    let is_message = variant.get("presence") != "Always" && variant.get("closed").is_empty();
    page.fill_all(if is_message && last == 0 {
        &OF_ONLY_MESSAGE
    } else {
        &OF_OTHERS
    });
    page.append_all(&[("uses", "$only_uses$"), ("answers", ANSWERS)]);
    let are_many = last.saturating_add(1) >= MANY && page.get("rows") == "variants";
    if are_many && place == last {
        page.append_all(&OF_LAST_OK);
        page.append_all(if is_message { &OF_LAST_ANEW_OK } else { &[] });
    } else if are_many && place >= MANY_BEFORE && is_message {
        page.append_all(&OF_ARM_OK);
    }
}

// The same, with what is said of a new value before what is said of its record.
fn answers_of(mut page: Words, oneof: &Oneof, anew: &str) -> Result<String, GenerateError> {
    page.fill("uses", USES);
    let last = oneof.variants.len().saturating_sub(1);
    for (place, variant) in oneof.variants.iter().enumerate() {
        page.copy(variant, &["variant", "word", "digits"]);
        page.append("uses", USES_OF_VARIANT);
        if place < last {
            page.fill_all(&OF_ARM);
            page.fill_all(if place == 0 { &OF_FIRST } else { &OF_NEXT });
        } else {
            page.fill_all(&OF_LAST);
            page.fill_all(if last == 0 {
                &OF_ONLY
            } else {
                &OF_LAST_OF_MANY
            });
        }
        page.fill("anew", anew);
        put_answers(&mut page, variant, place, last);
        page.fill(
            "unlike",
            if place == 0 {
                "unlike n $digits$ (search rules)"
            } else {
                "neither _ _ ($unlike$) (unlike n $digits$ (search rules))"
            },
        );
    }
    if last > 0 {
        page.append("uses", USES_OF_MANY);
    }
    if last > 1 {
        page.append("uses", "Rattle.wire_fields.specs.Arms neither\n");
    }
    definition_imports(&mut page);
    page.fill("text", HEAD);
    page.append("text", "$seen_first$$answers$");
    page.finish("text")
}
