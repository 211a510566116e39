//! The proofs of what is taken by a oneof of which some variants are rows.
use wire_schema::{Oneof, Template, Words};

// A variant of the leaf that is no message.
const SET: &str = "
pub returns-in_err-value-in-$digits$-clause-err : goal.returns-in_err-value-in-$digits$-clause-err
returns-in_err-value-in-$digits$-clause-err g c =
    let r = $residual$ in
    let p = err_from_is_err_and r.result r.ensures.1 in
    rw (p.1, p.2)
    (rw (fold_out-$name$$their_trees$$their_ones$ c.args.self.now)
    (λ other. $untaken_open$untaken $whole$.takes ($always$ $definition$).kind.takes $digits$ _
    (sym c.field_number.ensures.number ∙ c.in-$digits$.is) _ _
    (λ charge z p h. (h.0$firsts$.0, h.0$firsts$.1)) _ _ _
    ((c.in_err-value-in-$digits$).ensures.err other)$untaken_close$))
";

// The same of a leaf of many fields, where the search does not find that it is taken.
const SET_OK: &str = "
pub returns-in_ok-value-in-$digits$-clause-ok : goal.returns-in_ok-value-in-$digits$-clause-ok
unfolding Rattle.$crate$.specs.declared.$first_type$.TheViews.out-$choice$ denote.Hole.Carrier.out
returns-in_ok-value-in-$digits$-clause-ok g c =
    leaf_ok $all_takes$ ($always$ $definition$).kind.takes $digits$ _
    (sym c.field_number.ensures.number ∙ c.in-$digits$.is) _ _ _ _
    (fold_out-$name$$their_trees$$their_ones$ c.args.self.now)
    (fold-roll-$name$$their_trees$$their_ones$
    (record (out-$name$ c.args.self.now) { $field$ = Some ($set$) })) _ _
    (λ charge p h. $taken_open$(_, h, $stands$)$taken_close$) _ _ _ _ _
    (Ok (tag_number c.args.tag)) (c.in_ok-value-in-$digits$).ensures.ok
";

// (the formatter would break a tuple of several lines further)
const OF_SET_OK: [Template; 3] = [
    ("kinds_alias", ALIAS),
    ("set", "kinds.$variant$ c.in_ok-value-in-$digits$.value"),
    (
        "stands",
        "ap (λ (x : $of_home$$choice$-Held). x.0) (fold_out-$choice$$their_trees$$their_ones$ \
        ($set$))",
    ),
];

const USES_OF_SET_OK: &str = "\
$taken_uses$\
Rattle.std.proofs.Common ap
Rattle.std.proofs.Common refl
Rattle.std.specs.Prelude Ok
Rattle.std.specs.Prelude Some
Rattle.$crate$.specs.declared.$module$.$name$ out-$name$
Rattle.$crate$.specs.declared.$choice_module$.$choice$ fold_out-$choice$
";

const USES_OF_SET: &str = "\
$untaken_uses$\
Rattle.std.proofs.lemmas.Result err_from_is_err_and
Rattle.wire_fields.specs.Arms untaken
$of_always$ $always$
$definitions$$numeric$";

// A variant of a closed enum, of which a number may be kept as an unknown field.
const CLOSED: &str = "
pub returns-in-$digits$-clause-err : goal.returns-in-$digits$-clause-err
returns-in-$digits$-clause-err g c =
    $before$arm_err $whole$.takes $word$-of-$choice_module$-closed $digits$ _
    (sym c.field_number.ensures.number ∙ c.in-$digits$.is) _ _
    (λ charge z p h. ((z.0$path$, z.1), rw (← $stood$) h$firsts$)) _ _ _
    $kept$.result $kept$.ensures.err$behind$

pub returns-in-$digits$-clause-ok : goal.returns-in-$digits$-clause-ok
returns-in-$digits$-clause-ok g c =
    leaf_ok $all_takes$ $word$-of-$choice_module$-closed $digits$ _
    (sym c.field_number.ensures.number ∙ c.in-$digits$.is) _ _ _ _
    (fold_out-$name$$their_trees$$their_ones$ c.args.self.now)
    (fold-roll-$name$$their_trees$$their_ones$
    (record $out$ { $field$ = $kept$.new.held; unknown = $kept$.new.unknown }))
    _ _
    (λ charge p h. $closed_open$rw ($stood$, $stands$) h$closed_close$)
    _ _ _ _ _ $kept$.result $kept$.ensures.ok

pub returns-in-$digits$-clause-rows : goal.returns-in-$digits$-clause-rows
returns-in-$digits$-clause-rows g c =
    rows_ok (rows_beside_field $sum_choice$) $digits$ _
    (sym c.field_number.ensures.number ∙ c.in-$digits$.is) _ _ _ _
    (fold_out-$name$$their_trees$$their_ones$ c.args.self.now)
    (fold-roll-$name$$their_trees$$their_ones$ _)
    (λ h. rows_then ($mapped$ $out$)
    (or_else $of_home$$choice_module$-none ($mapped$ $out$).$field$)
    (or_else $of_home$$choice_module$-none
    ($mapped$ (record $out$ { $field$ = $kept$.new.held })).$field$)
    (rw ($stood$, $stands$) h))
    $kept$.result $kept$.ensures.rows
";

// What stands, seen by itself and in its message, and which rows stay beside it.
const HELD: &str = "
held : (m : $name$-F$fold_types$) (k : Option $choice$)
    → or_else $of_home$$choice_module$-none (map-$name$$fold_types$$their_trees$$their_values$
    (record m { $field$ = k })).$field$
    ≡ $of_home$$choice_module$-held k
held m None = refl
held m (Some k) = refl

rows_then : (m : $name$-F$their_trees$) (t u : $of_home$$choice$-Held)
    → u.1 ≡ $of_home$$choice_module$-beside u.0 t.1
    → rows_of ($of_home$$module$-one (record m { $field$ = Some u }))
    ≡ rows_if $sum_choice$ (is_some u.0)
    (rows_of ($of_home$$module$-one (record m { $field$ = Some t })))
rows_then m t (None, rows) h =
    ap (λ x. rows_of ($of_home$$module$-one (record m { $field$ = Some (None, x) }))) h
rows_then m t (Some one, rows) h =
    ap (λ x. rows_of ($of_home$$module$-one (record m { $field$ = Some (Some one, x) }))) h
";

// The call, the message before it, and what stands before and then.
const OF_CLOSED: [Template; 5] = [
    ("kept", "c.set_or_keep_$word$"),
    ("out", "(out-$name$ c.args.self.now)"),
    (
        "mapped",
        "map-$name$$fold_types$$their_trees$$their_values$",
    ),
    ("stood", "held $out$ $out$.$field$"),
    ("stands", "held $out$ $kept$.new.held"),
];

const USES_OF_CLOSED: &str = "\
$taken_uses$\
Rattle.std.proofs.Common ap
Rattle.std.proofs.Common refl
Rattle.std.proofs.Common ◌≡◌
Rattle.std.specs.Prelude None
Rattle.std.specs.Prelude Option
Rattle.std.specs.Prelude Some
Rattle.std.specs.Prelude is_some
Rattle.wire_fields.specs.Messages or_else
Rattle.wire_fields.specs.Nest rows_of
Rattle.wire_fields.specs.NestArms leaf_ok
Rattle.wire_fields.specs.NestArms rows_ok
Rattle.wire_fields.specs.NestChoice first_choice
Rattle.wire_fields.specs.NestChoice rows_beside_field
Rattle.wire_fields.specs.NestChoice rows_if
Rattle.wire_fields.specs.NestChoice second_choice
Rattle.$crate$.specs.$specs_of_own$ $module$-choice
Rattle.$crate$.specs.$choice$ $word$-of-$choice_module$-closed
Rattle.$crate$.specs.declared.$module$.$name$ $name$-F
Rattle.$crate$.specs.declared.$module$.$name$ out-$name$
Rattle.$crate$.specs.declared.$first_type$.TheFolds map-$name$
";

const USES_OF_CLOSED_ALONE: &str = "\
Rattle.$crate$.specs.$name$ $choice_module$-beside
Rattle.$crate$.specs.$name$ $choice_module$-held
Rattle.$crate$.specs.$name$ $choice_module$-none
Rattle.$crate$.specs.$name$ $choice_module$-value
Rattle.$crate$.specs.$name$ $module$-value
Rattle.$crate$.specs.declared.$module$.$name$ $name$
Rattle.$crate$.specs.declared.$choice_module$.$choice$ $choice$
";

// What stands, seen by itself and in its message.
const STANDING: &str = "
-- what stands, as in its message and by itself
standing : (m : $name$-F$fold_types$) (k : Option $choice$)
    → (or_else $of_home$$choice_module$-none (map-$name$$fold_types$$their_trees$$their_values$
    (record m { $field$ = k })).$field$).0
    ≡ (or_else $of_home$$choice_module$-none (option_map $of_home$$choice_module$-value k)).0
standing m None = refl
standing m (Some k) = refl
";

// A variant that is a message: its record goes into the one that stands, or into a new one.
const MERGED: &str = "
pub returns-in-$digits$-clause-err : goal.returns-in-$digits$-clause-err
returns-in-$digits$-clause-err g c =
    $before$arm_err $whole$.takes ($always$ $definition$).kind.takes $digits$ _
    (sym c.field_number.ensures.number ∙ c.in-$digits$.is) _ _
    (λ charge z p h. (h.0$firsts$.0, rw ($stood$) h.0$firsts$.1)) _ _ _
    $merged$.result $merged$.ensures.err$behind$

pub returns-in-$digits$-clause-ok : goal.returns-in-$digits$-clause-ok
unfolding Rattle.$crate$.specs.declared.$first_type$.TheViews.out-$choice$ denote.Hole.Carrier.out
returns-in-$digits$-clause-ok g c =
    leaf_ok $all_takes$ ($always$ $definition$).kind.takes $digits$ _
    (sym c.field_number.ensures.number ∙ c.in-$digits$.is) _ _ _ _
    (fold_out-$name$$their_trees$$their_ones$ c.args.self.now)
    (fold-roll-$name$$their_trees$$their_ones$
    (record (out-$name$ (roll-$name$ $emptied$)) { $field$ = $put$ })
    ∙ ap (λ (f : $name$-F$fold_types$). $of_home$$module$-one
    (map-$name$$fold_types$$their_trees$$their_values$ (record f { $field$ = $put$ })))
    (out-roll-$name$ $emptied$))
    ($of_module$-value c.$word$_or_new-value.result) ($of_module$-value $merged$.new.held)
    (λ charge p h. $taken_open$($of_module$-value $merged$.new.held, rw ($stood$) at h, $stands$)$taken_close$)
    _ _ _ _ _ $merged$.result $merged$.ensures.ok
";

// What stood before, the message without it, and what is put into it.
// (the formatter would break a tuple of several lines further)
const OF_MERGED: [Template; 4] = [
    (
        "stood",
        "c.$word$_or_new-value.ensures, $taken$.ensures.value, \
        ← standing (out-$name$ c.args.self.now) (out-$name$ c.args.self.now).$field$",
    ),
    (
        "stands",
        "ap (λ (x : $of_home$$choice$-Held). x.0) (fold_out-$choice$$their_trees$$their_ones$ \
        (kinds.$variant$ $merged$.new.held))",
    ),
    (
        "emptied",
        "(record (out-$name$ c.args.self.now) { $field$ = $taken$.new.self })",
    ),
    ("put", "Some (kinds.$variant$ $merged$.new.held)"),
];

const USES_OF_MERGED: &str = "\
$taken_uses$\
Rattle.std.proofs.Common ap
Rattle.std.proofs.Common refl
Rattle.std.proofs.Common ◌≡◌
Rattle.std.specs.Prelude None
Rattle.std.specs.Prelude Option
Rattle.std.specs.Prelude Some
Rattle.std.specs.Prelude option_map
Rattle.wire_fields.specs.Messages or_else
Rattle.$crate$.specs.declared.$module$.$name$ $name$-F
Rattle.$crate$.specs.declared.$module$.$name$ out-$name$
Rattle.$crate$.specs.declared.$choice_module$.$choice$ $choice$
Rattle.$crate$.specs.declared.$choice_module$.$choice$ fold_out-$choice$
Rattle.$crate$.specs.declared.$first_type$.TheFolds map-$name$
Rattle.$crate$.specs.declared.$first_type$.TheViews out-roll-$name$
Rattle.$crate$.specs.declared.$first_type$.TheViews roll-$name$
$of_always$ $always$
$definitions$";

const USES_OF_ALONE: &str = "\
Rattle.$crate$.specs.$name$ $choice_module$-none
Rattle.$crate$.specs.$name$ $choice_module$-value
Rattle.$crate$.specs.$name$ $module$-value
Rattle.$crate$.specs.declared.$module$.$name$ $name$
";

const ALIAS: &str = "\
use Rattle.$crate$.specs.declared.$choice_module$.$choice$.TheVariants as kinds
";

/// The answers of such variants, of a oneof of this field.
pub fn put_choice(page: &mut Words, field: &Words, oneof: &Oneof) {
    page.copy(field, &["path", "firsts", "field"]);
    let (open, close) = field.get("taken").split_once('h').unwrap_or(("", ""));
    page.set("taken_open", open);
    page.set("taken_close", close);
    page.set("closed_open", open.strip_prefix("(").unwrap_or(open));
    page.set(
        "closed_close",
        close.strip_suffix(", refl)").unwrap_or(close),
    );
    for variant in &oneof.variants {
        page.copy(variant, &["digits", "always", "of_always", "definition"]);
        page.copy(variant, &["definitions", "numeric", "word", "variant"]);
        page.copy(variant, &["of_module", "closed"]);
        if !page.get("closed").is_empty() {
            put_closed(page);
        } else if page.get("always") == "always" {
            put_set(page);
        } else {
            put_merged(page);
        }
    }
}

fn put_closed(page: &mut Words) {
    let is_alone = page.get("family_name").is_empty();
    let is_first = page.get("closed_before").is_empty();
    page.append("closed_before", ".");
    page.append("uses", USES_OF_CLOSED);
    if is_first {
        page.set("of_home", if is_alone { "" } else { "family." });
        page.append("uses", if is_alone { USES_OF_CLOSED_ALONE } else { "" });
        page.fill("closed_types", "$type_uses$");
        page.append("answers", HELD);
    }
    page.fill_all(&OF_CLOSED);
    page.append("answers", CLOSED);
}

fn put_set(page: &mut Words) {
    let is_first = page.get("residuals").is_empty();
    page.append("residuals", ".");
    page.fill(
        "residual",
        if is_first {
            "c.from_residual"
        } else {
            "c.from_residual-in_err-value-in-$digits$"
        },
    );
    page.append_all(&[("uses", USES_OF_SET), ("answers", SET)]);
    if !page.get("in_groups").is_empty() {
        let is_alone = page.get("family_name").is_empty();
        page.set("of_home", if is_alone { "" } else { "family." });
        page.fill_all(&OF_SET_OK);
        page.append_all(&[("uses", USES_OF_SET_OK), ("answers", SET_OK)]);
    }
}

// The first of several calls has no number in its name.
const FIRST_MERGED: [Template; 2] = [("merged", "c.merge-merged"), ("taken", "c.take")];

const NEXT_MERGED: [Template; 2] = [
    ("merged", "(c.merge-merged-in-$digits$)"),
    ("taken", "(c.take-in-$digits$)"),
];

fn put_merged(page: &mut Words) {
    let is_alone = page.get("family_name").is_empty();
    let is_first = page.get("merged_before").is_empty();
    page.append("merged_before", ".");
    page.append("uses", USES_OF_MERGED);
    if is_first {
        page.set("of_home", if is_alone { "" } else { "family." });
        page.append("uses", if is_alone { USES_OF_ALONE } else { "" });
        page.fill("kinds_alias", ALIAS);
        page.append("kinds_alias", "$type_uses$");
        page.append("answers", STANDING);
    }
    page.fill_all(if is_first {
        &FIRST_MERGED
    } else {
        &NEXT_MERGED
    });
    page.fill_all(&OF_MERGED);
    page.append("answers", MERGED);
}
