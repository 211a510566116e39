//! The proofs of what the view of a oneof takes of which some variants are rows, and that the
//! message that is made of it has the same.
use wire_schema::{Oneof, Template, Words};

// A variant of the leaf that is no message.
const SET: &str = "
pub returns-in_err-merge-in-$digits$-clause-err : goal.returns-in_err-merge-in-$digits$-clause-err
returns-in_err-merge-in-$digits$-clause-err c =
    let r = $residual$ in
    let p = err_from_is_err_and r.result r.ensures.1 in
    rw (p.1, p.2)
    (rw (fold_out-$view_name$$their_view_trees$$their_view_ones$ c.args.self.now)
    (λ other. $untaken_open$untaken $whole$.takes ($always$ $definition$).kind.takes $digits$ _
    (sym c.field_number.ensures.number ∙ c.in-$digits$.is) _ _
    (λ charge z p h. (h.0$firsts$.0, h.0$firsts$.1)) _ _ _
    (rw $empty$.ensures at (c.in_err-merge-in-$digits$).ensures.err other)$untaken_close$))
";

const USES_OF_SET: &str = "\
$untaken_uses$\
Rattle.std.proofs.lemmas.Result err_from_is_err_and
Rattle.wire_fields.specs.Arms untaken
$of_always$ $always$
$definitions$$numeric$";

// The first of these, and another.
const FIRST_SET: [Template; 2] = [("residual", "c.from_residual"), ("empty", "c.empty-value")];

const NEXT_SET: [Template; 2] = [
    ("residual", "c.from_residual-in_err-merge-in-$digits$"),
    ("empty", "(c.empty-value-in-$digits$)"),
];

// A variant of a closed enum, of which a number may be kept as an unknown field.
const CLOSED: &str = "
pub returns-in-$digits$-clause-err : goal.returns-in-$digits$-clause-err
returns-in-$digits$-clause-err c =
    $before$arm_err $whole$.takes $word$-of-$choice_module$-closed $digits$ _
    (sym c.field_number.ensures.number ∙ c.in-$digits$.is) _ _
    (λ charge z p h. ((z.0$path$, z.1), rw (← $stood$) h$firsts$)) _ _ _
    $kept$.result $kept$.ensures.err$behind$

pub returns-in-$digits$-clause-ok : goal.returns-in-$digits$-clause-ok
returns-in-$digits$-clause-ok c =
    leaf_ok $all_takes$ $word$-of-$choice_module$-closed $digits$ _
    (sym c.field_number.ensures.number ∙ c.in-$digits$.is) _ _ _ _
    (fold_out-$view_name$$their_view_trees$$their_view_ones$ c.args.self.now)
    (fold-roll-$view_name$$their_view_trees$$their_view_ones$
    (record $out$ { $field$ = $kept$.new.held; unknown = $kept$.new.spans }))
    _ _
    (λ charge p h. $closed_open$rw ($stood$, $stands$) h$closed_close$)
    _ _ _ _ _ $kept$.result $kept$.ensures.ok

pub returns-in-$digits$-clause-rows : goal.returns-in-$digits$-clause-rows
returns-in-$digits$-clause-rows c =
    rows_ok (rows_beside_field $sum_choice$) $digits$ _
    (sym c.field_number.ensures.number ∙ c.in-$digits$.is) _ _ _ _
    (fold_out-$view_name$$their_view_trees$$their_view_ones$ c.args.self.now)
    (fold-roll-$view_name$$their_view_trees$$their_view_ones$ _)
    (λ h. rows_then ($mapped$ $out$)
    (or_else $of_home$$choice_module$-none ($mapped$ $out$).$field$)
    (or_else $of_home$$choice_module$-none
    ($mapped$ (record $out$ { $field$ = $kept$.new.held })).$field$)
    (rw ($stood$, $stands$) h))
    $kept$.result $kept$.ensures.rows
";

// What stands, seen by itself and in its view, and which rows stay beside it.
const HELD: &str = "
held : (m : $view_name$-F$view_types$) (k : Option $choice_view$)
    → or_else $of_home$$choice_module$-none
    (map-$view_name$$view_types$$their_view_trees$$their_view_values$
    (record m { $field$ = k })).$field$
    ≡ $of_home$$choice_module$-view_held k
held m None = refl
held m (Some k) = refl

rows_then : (m : $view_name$-F$their_view_trees$) (t u : $of_home$$choice$-Held)
    → u.1 ≡ $of_home$$choice_module$-beside u.0 t.1
    → rows_of ($of_home$$module$-view_one (record m { $field$ = Some u }))
    ≡ rows_if $sum_choice$ (is_some u.0)
    (rows_of ($of_home$$module$-view_one (record m { $field$ = Some t })))
rows_then m t (None, rows) h =
    ap (λ x. rows_of ($of_home$$module$-view_one (record m { $field$ = Some (None, x) }))) h
rows_then m t (Some one, rows) h =
    ap (λ x. rows_of ($of_home$$module$-view_one (record m { $field$ = Some (Some one, x) }))) h
";

// The call, the view before it, and what stands before and then.
const OF_CLOSED: [Template; 5] = [
    ("kept", "c.set_or_keep_$word$"),
    ("out", "(out-$view_name$ c.args.self.now)"),
    (
        "mapped",
        "map-$view_name$$view_types$$their_view_trees$$their_view_values$",
    ),
    ("stood", "held $out$ $out$.$field$"),
    ("stands", "held $out$ $kept$.new.held"),
];

const USES_OF_CLOSED: &str = "\
$taken_uses$\
Rattle.std.proofs.Common ap
Rattle.std.proofs.Common refl
Rattle.std.proofs.Common ◌≡◌
Rattle.std.specs.Prelude None
Rattle.std.specs.Prelude Option
Rattle.std.specs.Prelude Some
Rattle.std.specs.Prelude is_some
Rattle.wire_fields.specs.Messages or_else
Rattle.wire_fields.specs.Nest rows_of
Rattle.wire_fields.specs.NestArms leaf_ok
Rattle.wire_fields.specs.NestArms rows_ok
Rattle.wire_fields.specs.NestChoice first_choice
Rattle.wire_fields.specs.NestChoice rows_beside_field
Rattle.wire_fields.specs.NestChoice rows_if
Rattle.wire_fields.specs.NestChoice second_choice
Rattle.$crate$.specs.$specs_of_own$ $module$-choice
Rattle.$crate$.specs.$choice$ $word$-of-$choice_module$-closed
Rattle.$crate$.specs.declared.$view_module$.$view_name$ $view_name$-F
Rattle.$crate$.specs.declared.$view_module$.$view_name$ out-$view_name$
Rattle.$crate$.specs.declared.$view_first$.TheFolds map-$view_name$
";

const USES_OF_CLOSED_ALONE: &str = "\
Rattle.$crate$.specs.$name$ $choice_module$-beside
Rattle.$crate$.specs.$name$ $choice_module$-none
Rattle.$crate$.specs.$name$ $choice_module$-view_held
Rattle.$crate$.specs.$name$ $choice_module$-view_value
Rattle.$crate$.specs.$name$ $module$-view_value
Rattle.$crate$.specs.declared.$view_module$.$view_name$ $view_name$
Rattle.$crate$.specs.declared.$choice_view_module$.$choice_view$ $choice_view$
";

// What stands, seen by itself and in its view.
const STANDING: &str = "
-- what stands, as in its view and by itself
standing : (m : $view_name$-F$view_types$) (k : Option $choice_view$)
    → (or_else $of_home$$choice_module$-none
    (map-$view_name$$view_types$$their_view_trees$$their_view_values$
    (record m { $field$ = k })).$field$).0
    ≡ (or_else $of_home$$choice_module$-none
    (option_map $of_home$$choice_module$-view_value k)).0
standing m None = refl
standing m (Some k) = refl
";

// A variant that is a message: its record goes into the one that stands, or into a new one.
const MERGED: &str = "
pub returns-in-$digits$-clause-err : goal.returns-in-$digits$-clause-err
returns-in-$digits$-clause-err c =
    $before$arm_err $whole$.takes ($always$ $definition$).kind.takes $digits$ _
    (sym c.field_number.ensures.number ∙ c.in-$digits$.is) _ _
    (λ charge z p h. (h.0$firsts$.0, rw ($stood$) h.0$firsts$.1)) _ _ _
    $merged$.result $merged$.ensures.err$behind$

pub returns-in-$digits$-clause-ok : goal.returns-in-$digits$-clause-ok
unfolding Rattle.$crate$.specs.declared.$view_first$.TheViews.out-$choice_view$ denote.Hole.Carrier.out
returns-in-$digits$-clause-ok c =
    leaf_ok $all_takes$ ($always$ $definition$).kind.takes $digits$ _
    (sym c.field_number.ensures.number ∙ c.in-$digits$.is) _ _ _ _
    (fold_out-$view_name$$their_view_trees$$their_view_ones$ c.args.self.now)
    (fold-roll-$view_name$$their_view_trees$$their_view_ones$
    (record (out-$view_name$ (roll-$view_name$ $emptied$)) { $field$ = $put$ })
    ∙ ap (λ (f : $view_name$-F$view_types$). $of_home$$module$-view_one
    (map-$view_name$$view_types$$their_view_trees$$their_view_values$ (record f { $field$ = $put$ })))
    (out-roll-$view_name$ $emptied$))
    ($of_module$-view_value c.$word$_or_new-value.result) ($of_module$-view_value $merged$.new.held)
    (λ charge p h. $taken_open$($of_module$-view_value $merged$.new.held, rw ($stood$) at h, $stands$)$taken_close$)
    _ _ _ _ _ $merged$.result $merged$.ensures.ok
";

// What stood before, the view without it, and what is put into it.
// (the formatter would break a tuple of several lines further)
const OF_MERGED: [Template; 4] = [
    (
        "stood",
        "c.$word$_or_new-value.ensures, $taken$.ensures.value, \
        ← standing (out-$view_name$ c.args.self.now) (out-$view_name$ c.args.self.now).$field$",
    ),
    (
        "stands",
        "ap (λ (x : $of_home$$choice$-Held). x.0) \
        (fold_out-$choice_view$$their_view_trees$$their_view_ones$ \
        (kinds.$variant$ $merged$.new.held))",
    ),
    (
        "emptied",
        "(record (out-$view_name$ c.args.self.now) { $field$ = $taken$.new.self })",
    ),
    ("put", "Some (kinds.$variant$ $merged$.new.held)"),
];

const USES_OF_MERGED: &str = "\
$taken_uses$\
Rattle.std.proofs.Common ap
Rattle.std.proofs.Common refl
Rattle.std.proofs.Common ◌≡◌
Rattle.std.specs.Prelude None
Rattle.std.specs.Prelude Option
Rattle.std.specs.Prelude Some
Rattle.std.specs.Prelude option_map
Rattle.wire_fields.specs.Messages or_else
Rattle.$crate$.specs.declared.$view_module$.$view_name$ $view_name$-F
Rattle.$crate$.specs.declared.$view_module$.$view_name$ out-$view_name$
Rattle.$crate$.specs.declared.$choice_view_module$.$choice_view$ $choice_view$
Rattle.$crate$.specs.declared.$choice_view_module$.$choice_view$ fold_out-$choice_view$
Rattle.$crate$.specs.declared.$view_first$.TheFolds map-$view_name$
Rattle.$crate$.specs.declared.$view_first$.TheViews out-roll-$view_name$
Rattle.$crate$.specs.declared.$view_first$.TheViews roll-$view_name$
$of_specs$.$of_name$ $of_module$-view_value
$of_always$ $always$
$definitions$";

const USES_OF_ALONE: &str = "\
Rattle.$crate$.specs.$name$ $choice_module$-none
Rattle.$crate$.specs.$name$ $choice_module$-view_value
Rattle.$crate$.specs.$name$ $module$-view_value
Rattle.$crate$.specs.declared.$view_module$.$view_name$ $view_name$
";

const ALIAS: &str = "\
use Rattle.$crate$.specs.declared.$choice_view_module$.$choice_view$.TheVariants as kinds
";

/// The answers of such variants, of a oneof of this field.
pub fn put_view_choice(page: &mut Words, field: &Words, oneof: &Oneof) {
    page.copy(field, &["path", "firsts", "field"]);
    let (open, close) = field.get("taken").split_once('h').unwrap_or(("", ""));
    page.set("taken_open", open);
    page.set("taken_close", close);
    page.set("closed_open", open.strip_prefix("(").unwrap_or(open));
    page.set(
        "closed_close",
        close.strip_suffix(", refl)").unwrap_or(close),
    );
    if page.get("numbered").is_empty() {
        page.fill("numbered", "$of_call$field_number");
    }
    for variant in &oneof.variants {
        page.copy(variant, &["digits", "always", "of_always", "definition"]);
        page.copy(variant, &["definitions", "numeric", "word", "variant"]);
        page.copy(variant, &["of_module", "of_name", "of_specs", "closed"]);
        if !page.get("closed").is_empty() {
            put_closed(page);
        } else if page.get("always") == "always" {
            put_set(page);
        } else {
            put_merged(page);
        }
    }
}

fn put_closed(page: &mut Words) {
    let is_alone = page.get("family_name").is_empty();
    let is_first = page.get("closed_before").is_empty();
    page.append("closed_before", ".");
    page.append("uses", USES_OF_CLOSED);
    if is_first {
        page.set("of_home", if is_alone { "" } else { "family." });
        page.append("uses", if is_alone { USES_OF_CLOSED_ALONE } else { "" });
        page.fill("closed_types", "$view_type_uses$");
        page.append("answers", HELD);
    }
    page.fill_all(&OF_CLOSED);
    page.append("answers", CLOSED);
}

fn put_set(page: &mut Words) {
    let is_first = page.get("residuals").is_empty();
    page.append_all(&[("residuals", "."), ("calls", " merge ")]);
    page.fill_all(if is_first { &FIRST_SET } else { &NEXT_SET });
    page.append_all(&[("uses", USES_OF_SET), ("answers", SET)]);
}

// The first of several calls has no number in its name.
const FIRST_MERGED: [Template; 2] = [("merged", "c.merge-merged"), ("taken", "c.take")];

const NEXT_MERGED: [Template; 2] = [
    ("merged", "(c.merge-merged-in-$digits$)"),
    ("taken", "(c.take-in-$digits$)"),
];

fn put_merged(page: &mut Words) {
    let is_alone = page.get("family_name").is_empty();
    let is_first = page.get("kinds_alias").is_empty();
    page.append("uses", USES_OF_MERGED);
    if is_first {
        page.set("of_home", if is_alone { "" } else { "family." });
        page.append("uses", if is_alone { USES_OF_ALONE } else { "" });
        page.fill("kinds_alias", ALIAS);
        page.append("kinds_alias", "$view_type_uses$");
        page.append("answers", STANDING);
    }
    page.fill_all(if is_first {
        &FIRST_MERGED
    } else {
        &NEXT_MERGED
    });
    page.fill_all(&OF_MERGED);
    page.append("answers", MERGED);
}

// How what stands is seen of the message, and of the view.
const STEPS: &str = "      \
      $of_home$$module$-$field$-choice made made.$field$ refl,
      c.in_ok-own_$field$.ensures.ok,
      $of_home$$module$-$field$-view_choice (out-$view_name$ c.args.view.now)
          (out-$view_name$ c.args.view.now).$field$ refl,
";

const USES_OF_STEPS: &str = "\
Rattle.$crate$.specs.declared.$choice_module$.$choice$ $choice$
Rattle.$crate$.specs.declared.$view_module$.$view_name$ out-$view_name$
";

const USES_OF_STEPS_ALONE: &str = "\
Rattle.$crate$.specs.$name$ $choice$-Held
Rattle.$crate$.specs.$name$ $choice_module$-one
Rattle.$crate$.specs.$name$ $choice_module$-view_one
Rattle.$crate$.specs.$name$ $module$-$field$-choice
Rattle.$crate$.specs.$name$ $module$-$field$-view_choice
";

/// Puts the step of such a oneof, of the proof that the message that is made has the view's value.
pub fn put_step_of_choice(page: &mut Words, is_member: bool) {
    page.append_all(&[("steps", STEPS), ("uses", USES_OF_STEPS)]);
    page.append("uses", if is_member { "" } else { USES_OF_STEPS_ALONE });
}
