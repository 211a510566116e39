//! Closed enums in a oneof: a number that the enum does not have goes to the unknown fields.
use crate::oneofs::put_values;
use wire_schema::{GenerateError, Template, Words};

/// The function of a variant of a closed enum.
pub(crate) const CLOSED_VARIANT: &str = "
/// Takes the record behind this tag as this variant where the enum has the number in it,
/// and else keeps it as an unknown field. Refused as `merge_closed`.
pub(crate) fn set_or_keep_$word$<B: Buf>(
    tag: Tag,
    held: &mut Option<$name$>,
    unknown: &mut UnknownFields,
    buf: &mut B,
    context: &mut DecodeContext,
) -> Result<(), DecodeError>
    ensures ok { OnOk result (IsCharged context.old context.new (λ c.
        TakesRecord $word$-of-$module$-closed context.old
        (tag_number tag) (tag_type tag) ($module$-of held.old, unknown.old)
        (B.unread buf.old) c ($module$-of held.new, unknown.new) (B.unread buf.new))) }
    ensures err { IfErr result (λ e. e ≢ OutOfMemory → NotTaken
        (TakesRecord $word$-of-$module$-closed context.old
        (tag_number tag) (tag_type tag) ($module$-of held.old, unknown.old)
        (B.unread buf.old))) }
    ensures counts { OnErr result (NoCountGrew context.old context.new) }
    ensures kept { B.kept buf.new ≡ B.kept buf.old }
{
    let mut value = None;
    wire_fields::merge_closed::<$of_name$, B>(tag, &mut value, unknown, buf, context)?;
    match value {
        Some(value) => {
            *held = Some($name$::$variant$(value));
            Ok(())
        }
        None => Ok(()),
    }
}
";

const GHOSTS: &str = "\
Rattle.std.specs.Prelude IfErr
Rattle.std.specs.Prelude OnErr
Rattle.std.specs.Prelude OnOk
Rattle.std.specs.Prelude ◌≡◌
Rattle.std.specs.Prelude ◌≢◌
Rattle.wire_codec.specs.DecodeError.TheVariants OutOfMemory
Rattle.wire_codec.specs.Limits NoCountGrew
Rattle.wire_codec.specs.TagView tag_number
Rattle.wire_codec.specs.TagView tag_type
Rattle.wire_codec.specs.Taking IsCharged
Rattle.wire_codec.specs.Taking NotTaken
Rattle.wire_codec.specs.Taking TakesRecord
Rattle.$crate$.specs.$name$ $module$-of
Rattle.$crate$.specs.$name$ $word$-of-$module$-closed
";

/// What that function brings in.
pub const OF_CLOSED_VARIANT: [Template; 3] = [
    ("variants", CLOSED_VARIANT),
    ("uses", "wire_codec UnknownFields\n"),
    ("ghosts", GHOSTS),
];

/// What such a variant is, beside what any is.
pub(crate) const CLOSED_DEFINITIONS: [Template; 2] = [
    (
        "variants",
        "abbrev pub $word$-of-$module$-from : $value$ → $name$-Value
$word$-of-$module$-from x = Some $one$

-- a number that the enum has becomes the value, and any other is kept
abbrev pub $word$-of-$module$-closed : Step ($name$-Value × Fields)
$word$-of-$module$-closed = closes_by (becomes $word$-of-$module$-from) $of_module$-of

",
    ),
    (
        "uses",
        "Rattle.wire_codec.specs.Field Fields\nRattle.wire_codec.specs.Folds Step\n\
        Rattle.wire_fields.specs.Closed closes_by\nRattle.wire_fields.specs.ClosedOneof becomes\n",
    ),
];

// That a value is of this closed enum, or written under other numbers.
const APART: &str = "
pub $word$-of-$module$-apart : Grounds → (m : $name$-Value) → $module$-holds m
    → ClosingOrApart $of_module$-number $of_module$-of $digits$ $word$-of-$module$-from
    $module$-records $module$-range m
$word$-of-$module$-apart g None h = inr tt
$aparts$";

const OF_APART: [Template; 3] = [
    ("aparts", "$word$-of-$module$-apart g (Some $one$) h =\n"),
    (
        "aparts",
        "    closing_value g $of_module$-number $of_module$-of $digits$ $word$-of-$module$-from
    $module$-records $module$-range x refl h refl\n",
    ),
    (
        "uses",
        "Rattle.std.proofs.Common inr\n$of_specs$.$of_name$ $of_module$-number\n\
        Rattle.wire_fields.specs.ClosedBack ClosingOrApart\n\
        Rattle.wire_fields.specs.ClosedBack closing_value\n",
    ),
];

const OF_OTHER: [Template; 3] = [
    ("aparts", "$word$-of-$module$-apart g (Some $one$) h =\n"),
    (
        "aparts",
        "    inr (variant_has g.charges $module$-shape ($other_always$ $other_definition$).kind
    $other_range$.Holds
    $other_range$.charge_of
    ($other_returned$) (λ x. Some $one$) $other_number$ x refl
    (λ j. (j == $digits$) ≡ false) refl)\n",
    ),
    (
        "uses",
        "Rattle.std.proofs.Common false\nRattle.std.specs.Prelude ◌==◌\n",
    ),
];

// The words of another variant.
const OTHER: [(&str, &str); 5] = [
    ("other_always", "always"),
    ("other_definition", "definition"),
    ("other_range", "always_range"),
    ("other_returned", "always_returned"),
    ("other_number", "digits"),
];

/// The same of each value of a oneof, for each variant of a closed enum.
pub(crate) fn put_apart_variants(page: &mut Words, variants: &[Words]) {
    let last = variants.len().saturating_sub(1);
    for (own, closed) in variants.iter().enumerate() {
        if closed.get("closed").is_empty() {
            continue;
        }
        page.copy(
            closed,
            &["word", "digits", "of_specs", "of_name", "of_module"],
        );
        page.set("aparts", "");
        for (place, variant) in variants.iter().enumerate() {
            put_values(page, place, last);
            for (name, of) in &OTHER {
                page.set(name, variant.get(of));
            }
            page.append_all(if place == own { &OF_APART } else { &OF_OTHER });
        }
        page.append("apart_variants", APART);
    }
}

const ANSWERS: &str = "\
use Rattle.std.proofs.lemmas.Result.{err_from_is_err_and}
use $of_specs$.$of_name$.{$of_module$-of}
use Rattle.$crate$.specs.$name$.{$word$-of-$module$-from}
use Rattle.wire_fields.specs.ClosedOneof.{closing_untaken}
use Rattle.$crate$.proofs.$of_goals$.set_or_keep_$word$.Goals as goal

pub returns-in_err-merge_closed-clause-err : goal.returns-in_err-merge_closed-clause-err
returns-in_err-merge_closed-clause-err $given$ =
    let p = err_from_is_err_and c.from_residual.result c.from_residual.ensures.1 in
    rw (p.1, p.2) (λ other. closing_untaken $of_module$-of $word$-of-$module$-from _ _ _ _ _ _
    (c.in_err-merge_closed.ensures.err other))
";

// The function's module, and what it is given.
const OF_ONEOF: [Template; 2] = [("of_goals", "$module$"), ("given", "g c")];

const OF_VIEW: [Template; 2] = [("of_goals", "$view_module$"), ("given", "c")];

// Of a oneof of which some variants are rows: the function stands beside the message.
const OF_CHOICE: [Template; 2] = [("of_goals", "$holder$"), ("given", "g c")];

const OF_CHOICE_VIEW: [Template; 2] = [("of_goals", "$holder_view$"), ("given", "c")];

/// The proof of that function.
pub fn closed_answers(base: &Words, variant: &Words) -> Result<String, GenerateError> {
    answers_of(base, variant, &OF_ONEOF)
}

/// The proof of that of the oneof's view.
pub fn closed_view_answers(base: &Words, variant: &Words) -> Result<String, GenerateError> {
    answers_of(base, variant, &OF_VIEW)
}

/// That of a oneof of which some variants are rows, and that of its view.
pub fn closed_choice_answers(base: &Words, variant: &Words) -> Result<[String; 2], GenerateError> {
    Ok([
        answers_of(base, variant, &OF_CHOICE)?,
        answers_of(base, variant, &OF_CHOICE_VIEW)?,
    ])
}

fn answers_of(
    base: &Words,
    variant: &Words,
    of: &'static [Template],
) -> Result<String, GenerateError> {
    let mut page = Words::like(base);
    page.copy(variant, &["word", "of_specs", "of_name", "of_module"]);
    page.fill_all(of);
    page.fill("text", ANSWERS);
    page.finish("text")
}
