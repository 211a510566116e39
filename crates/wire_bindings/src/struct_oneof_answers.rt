//! The proofs of a oneof as a struct for C: what it makes of a record is what its table says, and
//! it is read just where that of the message is.
use crate::struct_oneof::is_message;
use crate::struct_oneof_definitions::{put_trees, set_variant_words};
use wire_definitions::{definition_imports, set_heading};
use wire_schema::{GenerateError, Oneof, Template, Words};

const SHOWS_USES: &str = "\
Rattle.std.proofs.Common refl
Rattle.std.proofs.Common ◌≡◌
Rattle.std.specs.Prelude None
Rattle.std.specs.Prelude Some
Rattle.std.specs.Prelude option_map
Rattle.std.specs.Prelude ◌==◌
Rattle.wire_structs.proofs.Shown chosen_seen
Rattle.wire_structs.proofs.Shown variant_shown
Rattle.wire_structs.specs.Showing ShowsShape
Rattle.wire_structs.specs.Showing ShowsSteps
Rattle.$crate$.specs.$name$ $name$-Value
Rattle.$crate$.specs.$name$ $module$-shape
Rattle.$crate$.specs.$name$InC $module$-seen
Rattle.$crate$.specs.$name$InC $module$-shown
Rattle.$crate$.specs.$name$InC $module$-struct
Rattle.$crate$.specs.$name$InC $module$-written
Rattle.$crate$.specs.declared.$module$_in_c.$name$InC $name$InC
";

const SHOWS_OF_MANY: &str = "\
Rattle.std.proofs.Common inl
Rattle.std.proofs.Common inr
Rattle.wire_fields.specs.Oneof either_of
Rattle.wire_structs.proofs.Shown either_of_shown
";

const SHOWS: &str = "\
$heading$$imports$
$variants$pub $module$-shows : ShowsShape $module$-seen $module$-shape $module$-struct
$module$-shows = record {
  owns = λ n p. refl;
  default = refl;
  steps = $steps$;
}

-- what is seen of what is written is what is shown
pub $module$-same : (m : $name$InC)
    → $module$-seen ($module$-written m) ≡ $module$-shown m
$module$-same m =
    $same$
";

const VARIANT_SHOWS: &str = "\
$word$-stands : (m : $name$-Value) → $word$-of-$module$-shown-as ($module$-seen m)
    ≡ option_map $reveal$ ($word$-of-$module$-as m)
$word$-stands None = refl
$cases$
$word$-is_shown : ShowsSteps $module$-seen $word$-of-$module$.takes
    $word$-of-$module$-shown.takes
$word$-is_shown =
    variant_shown $module$-seen $reveal$ $digits$
    $own_sort$
    $seen_sort$
    $word$-of-$module$-as $word$-of-$module$-shown-as
    (λ x. Some $one$) (λ x. Some $one$) refl
    $word$-stands (λ x. refl) $variant_shows$

";

const OF_VARIANT: [Template; 3] = [
    ("variants", VARIANT_SHOWS),
    (
        "uses",
        "Rattle.$crate$.specs.$name$ $word$-of-$module$\n\
        Rattle.$crate$.specs.$name$ $word$-of-$module$-as\n",
    ),
    (
        "uses",
        "Rattle.$crate$.specs.$name$InC $word$-of-$module$-shown\n\
        Rattle.$crate$.specs.$name$InC $word$-of-$module$-shown-as\n$shows_uses$",
    ),
];

/// The page that a oneof of a struct is read just where that of the message is.
pub fn oneof_shows_of(base: &Words, oneof: &Oneof) -> Result<String, GenerateError> {
    let mut page = Words::like(base);
    page.fill("uses", SHOWS_USES);
    page.set("indent", "      ");
    let last = oneof.variants.len().saturating_sub(1);
    page.set("ones", "");
    for (place, variant) in oneof.variants.iter().enumerate() {
        set_variant_words(&mut page, variant, place, last);
        page.append("ones", "(Some $one$) = refl\n");
    }
    let ones = page.take("ones");
    for (place, variant) in oneof.variants.iter().enumerate() {
        set_variant_words(&mut page, variant, place, last);
        page.set("cases", "");
        for one in ones.lines() {
            page.set("case", one);
            page.append("cases", "$word$-stands $case$\n");
        }
        page.append_all(&OF_VARIANT);
        put_steps(&mut page, place);
        put_trees(&mut page, place);
    }
    page.set("same", "refl");
    for (place, variant) in oneof.variants.iter().enumerate().rev() {
        set_variant_words(&mut page, variant, place, last);
        page.fill(
            "same",
            "chosen_seen $module$-seen (m.which == $digits$) _ _ _ _\n    $same_one$\n    ($same$)",
        );
    }
    page.append("uses", if last > 0 { SHOWS_OF_MANY } else { "" });
    set_heading(
        &mut page,
        "--",
        "Why `$name$InC` is read just where `$name$` is.",
    );
    definition_imports(&mut page);
    page.fill("text", SHOWS);
    page.finish("text")
}

// Why the variants so far are read just where those of the message are.
fn put_steps(page: &mut Words, place: usize) {
    page.fill(
        "steps",
        if place == 0 {
            "$word$-is_shown"
        } else {
            "either_of_shown $module$-seen\n      $own_all$\n      $word$-of-$module$\n      \
            $all$\n      $word$-of-$module$-shown (λ n p. refl)\n      ($steps$)\n      \
            $word$-is_shown"
        },
    );
}

const USES: &str = "\
Rattle.std.proofs.Common refl
Rattle.std.specs.Prelude Some
Rattle.wire_codec.specs.TagView tag_number
Rattle.wire_structs.proofs.Arms arm_refused
Rattle.$crate$.specs.$name$InC $module$-shown
Rattle.$crate$.specs.$name$InC $module$-struct
";

const USES_OF_ONE: &str = "Rattle.wire_fields.specs.Arms arm_ok\n";

const USES_OF_MANY: &str = "\
Rattle.std.proofs.Common inl
Rattle.std.proofs.Common inr
Rattle.std.proofs.Common rules
Rattle.std.proofs.Common sym
Rattle.std.proofs.Common ◌∙◌
Rattle.wire_fields.specs.Arms arm_ok
Rattle.wire_fields.specs.Arms unlike
Rattle.wire_structs.proofs.Arms last_ok
Rattle.wire_structs.proofs.Arms last_refused
Rattle.$crate$.specs.$name$InC $module$-shown-front
Rattle.$crate$.specs.$name$InC $word$-of-$module$-shown-as
";

const USES_OF_MORE: &str = "Rattle.wire_fields.specs.Arms neither\n";

const ARM: &str = "
pub returns$arm$-clause-ok : goal.returns$arm$-clause-ok
returns$arm$-clause-ok c =
    let n = tag_number c.args.tag in
    rw $stand$.ensures.which (arm_ok $module$-struct.takes
    $seen_sort$.kind.takes $at$
    $is$ _ _ _ _
    (λ charge p h. (_, h, refl)) _ _ _ _ _
    $of_call$.result $ensures_ok$)

pub returns$arm$-clause-err : goal.returns$arm$-clause-err
returns$arm$-clause-err c =
    let n = tag_number c.args.tag in
    arm_refused $module$-struct.takes
    $seen_sort$.kind.takes $at$
    $is$ _ _
    (λ charge z p h. (h.0, h.1)) _ _ _
    $of_call$.result $ensures_err$
";

const LAST: &str = "
pub returns$arm$-clause-ok : goal.returns$arm$-clause-ok
returns$arm$-clause-ok c =
    let n = tag_number c.args.tag in
    rw $stand$.ensures.which (last_ok $module$-shown-front
    $seen_sort$.kind $word$-of-$module$-shown-as
    (λ x. Some $one$) n
    (λ p. $unlike$)
    ($module$-shown c.args.self.now) _ (λ charge p u h. h) _ _ _ _ _ _
    $of_call$.result $ensures_ok$)

pub returns$arm$-clause-err : goal.returns$arm$-clause-err
returns$arm$-clause-err c =
    let n = tag_number c.args.tag in
    last_refused $module$-shown-front
    $seen_sort$.kind $word$-of-$module$-shown-as
    (λ x. Some $one$) n
    (λ p. $unlike$)
    ($module$-shown c.args.self.now) _ (λ charge p u h. h) _ _ _
    $of_call$.result $ensures_err$
";

const OF_SCALAR: [Template; 2] = [
    ("ensures_ok", "($of_call$.ensures.ok _)"),
    ("ensures_err", "($of_call$.ensures.err _)"),
];

const OF_MESSAGE: [Template; 3] = [
    ("stood", "($stand$.ensures.of_$digits$ refl)"),
    (
        "ensures_ok",
        "(stood_ok $seen_sort$.kind.takes _ _\n    $stood$ _ _ _ _ _ _ _ _ $of_call$.ensures.ok)",
    ),
    (
        "ensures_err",
        "(stood_refused $seen_sort$.kind.takes _ _\n    $stood$ _ _ _ _ _ $of_call$.ensures.err)",
    ),
];

const STOOD_USES: &str = "\
Rattle.wire_structs.proofs.Arms stood_ok
Rattle.wire_structs.proofs.Arms stood_refused
";

const PAGE: &str = "\
$imports$use Rattle.$crate$.proofs.$module$_in_c.$name$InC.merge.Goals as goal
$answers$";

/// The answers of `merge` of a oneof of a struct.
pub fn oneof_in_c_answers_of(base: &Words, oneof: &Oneof) -> Result<String, GenerateError> {
    let mut page = Words::like(base);
    page.fill("uses", USES);
    let last = oneof.variants.len().saturating_sub(1);
    page.set("calls", "");
    for (place, variant) in oneof.variants.iter().enumerate() {
        set_variant_words(&mut page, variant, place, last);
        set_place(&mut page, place, last);
        set_calls(&mut page, is_message(variant), place);
        page.append("uses", "$sort_uses$");
        let is_last_of_many = place == last && last > 0;
        if is_message(variant) {
            page.fill_all(&OF_MESSAGE);
            page.append("uses", STOOD_USES);
        } else {
            page.fill_all(&OF_SCALAR);
        }
        page.append("answers", if is_last_of_many { LAST } else { ARM });
        put_unlike(&mut page, place);
    }
    page.append("uses", if last > 0 { USES_OF_MANY } else { USES_OF_ONE });
    page.append("uses", if last > 1 { USES_OF_MORE } else { "" });
    definition_imports(&mut page);
    page.fill("text", PAGE);
    page.finish("text")
}

// In which arm the record of a variant is taken, and why its number is that of the variant.
fn set_place(page: &mut Words, place: usize, last: usize) {
    if last == 0 {
        page.fill_all(&[("arm", ""), ("at", "n n"), ("is", "refl")]);
    } else if place == last {
        page.set("arm", "-in_default");
    } else {
        page.fill_all(&[
            ("arm", "-in-$digits$"),
            ("at", "$digits$ _"),
            (
                "is",
                "(sym c.field_number.ensures.number ∙ c.in-$digits$.is)",
            ),
        ]);
    }
}

// The calls of an arm; the first call of a function has no arm in its name.
fn set_calls(page: &mut Words, is_message: bool, place: usize) {
    page.set(
        "call",
        if is_message {
            "merge_message"
        } else {
            "merge_value"
        },
    );
    page.fill(
        "stand",
        if place == 0 {
            "c.stand"
        } else {
            "(c.stand$arm$)"
        },
    );
    page.fill("this", " $call$ ");
    let is_first = !page.get("calls").contains(page.get("this"));
    page.append("calls", "$this$");
    page.fill(
        "of_call",
        if is_first {
            "c.$call$"
        } else {
            "(c.$call$$arm$)"
        },
    );
}

// Why a number is none of the variants so far.
fn put_unlike(page: &mut Words, place: usize) {
    page.fill(
        "unlike",
        if place == 0 {
            "unlike n $digits$ (search rules)"
        } else {
            "neither _ _ ($unlike$)\n    (unlike n $digits$ (search rules))"
        },
    );
}
