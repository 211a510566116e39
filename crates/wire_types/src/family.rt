//! What message types that hold themselves or one another are called, together and each by itself.
use crate::family_names::name_family;
use wire_schema::{GenerateError, Schema, Template, Words};

// What each of them adds to the words of all: the arms of what another is not, the names of types
// and of functions, as they are called in the page of all and in others, and lines of types.
const OF_ALL: [Template; 8] = [
    ("trees", " Family-Tree"),
    ("folded", " $other_module$-value"),
    ("their_trees", " family.Family-Tree"),
    ("ones", " $other_module$-one"),
    ("their_ones", " family.$other_module$-one"),
    ("their_values", " family.$other_module$-value"),
    ("types", " $other$"),
    (
        "type_uses",
        "use Rattle.$crate$.specs.declared.$other_module$.$other$.{$other$}\n",
    ),
];

// The same of their views, and of those of their oneofs.
const OF_VIEWS: [Template; 8] = [
    ("view_trees", " $other_tree$"),
    ("view_values", " $other_module$-view_value"),
    ("their_view_trees", " family.$other_tree$"),
    ("view_ones", " $other_module$-view_one"),
    ("their_view_ones", " family.$other_module$-view_one"),
    ("their_view_values", " family.$other_module$-view_value"),
    ("view_types", " $other_view$"),
    (
        "view_type_uses",
        "use Rattle.$crate$.specs.declared.$other_view_module$.$other_view$.{$other_view$}\n",
    ),
];

// The same of the type of a oneof of which some variants are rows.
const OF_CHOICE: [Template; 9] = [
    ("trees", " $other$-Held"),
    ("folded", " $other_module$-value"),
    ("their_trees", " family.$other$-Held"),
    ("ones", " $other_module$-one"),
    ("their_ones", " family.$other_module$-one"),
    ("their_values", " family.$other_module$-value"),
    ("types", " $other$"),
    (
        "type_uses",
        "use Rattle.$crate$.specs.declared.$other_module$.$other$.{$other$}\n",
    ),
    ("has_choice", "has_choice"),
];

// Of a type that holds itself alone, with such a oneof or without.
const OF_ALONE: [Template; 15] = [
    ("account_place", "[]"),
    ("view_trees", " $name$-Value"),
    ("view_ones", " $module$-view_one"),
    ("view_values", " $module$-view_value"),
    ("view_types", " $view_name$"),
    ("view_first", "$view_module$.$view_name$"),
    ("folded", " $module$-value"),
    ("family", " $name$ "),
    ("tree", "$name$-Value"),
    ("trees", " $name$-Value"),
    ("ones", " $module$-one"),
    ("their_values", " $module$-value"),
    ("types", " $name$"),
    ("first_type", "$module$.$name$"),
    ("sum_choice", "$module$-choice"),
];

const ALONE_WITH_CHOICE: [Template; 17] = [
    ("folded", " $choice_module$-value$folded$"),
    (
        "choice_view_answers",
        "Rattle.$crate$.specs.$name$ $choice$-Held\n\
        Rattle.$crate$.specs.$name$ $choice_module$-view_one\n",
    ),
    ("view_trees", " $choice$-Held$view_trees$"),
    ("view_ones", " $choice_module$-view_one$view_ones$"),
    ("view_values", " $choice_module$-view_value$view_values$"),
    ("view_types", " $choice_view$$view_types$"),
    ("view_first", "$choice_view_module$.$choice_view$"),
    (
        "uses_of_choice_view",
        "use Rattle.$crate$.specs.$name$.{$choice$-Held, $choice_module$-view_one, $choice_module$-view_value}\n",
    ),
    (
        "uses_of_view_variants",
        "use Rattle.$crate$.specs.declared.$choice_view_module$.$choice_view$.{$choice_view$}\n",
    ),
    (
        "choice_answers",
        "Rattle.$crate$.specs.$name$ $choice$-Held\nRattle.$crate$.specs.$name$ $choice_module$-one\n",
    ),
    ("trees", " $choice$-Held$trees$"),
    ("ones", " $choice_module$-one$ones$"),
    ("their_values", " $choice_module$-value$their_values$"),
    ("types", " $choice$$types$"),
    ("first_type", "$choice_module$.$choice$"),
    (
        "uses_of_choice",
        "use Rattle.$crate$.specs.$name$.{$choice$-Held, $choice_module$-one, $choice_module$-value}\n",
    ),
    (
        "uses_of_variants",
        "use Rattle.$crate$.specs.declared.$choice_module$.$choice$.{$choice$}\n",
    ),
];

/// The same of a type that holds itself alone.
pub fn set_alone(page: &mut Words) {
    page.fill_all(&OF_ALONE);
    page.fill_all(&[("uses_of_choice", ""), ("uses_of_variants", "")]);
    page.fill_all(&[("uses_of_choice_view", ""), ("uses_of_view_variants", "")]);
    page.fill_all(&[("choice_answers", ""), ("choice_view_answers", "")]);
    if !page.get("choice").is_empty() {
        page.fill_all(&ALONE_WITH_CHOICE);
    }
    page.fill_all(&[
        ("their_trees", "$trees$"),
        ("their_ones", "$ones$"),
        ("their_view_trees", "$view_trees$"),
        ("their_view_ones", "$view_ones$"),
        ("their_view_values", "$view_values$"),
    ]);
}

// What it is in the sum of all: the words of its leaf by itself, from which the sum's are made.
const OF_LEAF: [Template; 23] = [
    ("tree", "Family-Tree"),
    ("sum_choice", "$module$-choice"),
    ("sum_is_choice", "$module$-is_choice"),
    ("sum_kept", "($module$-kept g)"),
    ("sum_start", "$module$-leaf.default"),
    ("sum_takes", "$module$-leaf.takes"),
    ("sum_run", "($module$-run i)"),
    ("sum_records", "$module$-leaf.records"),
    ("sum_single", "($module$-leaf.single reading)"),
    ("sum_range", "$module$-range-of-leaf"),
    ("sum_back", "($module$-known-back g)"),
    ("sum_stay", "($leaf_stay$ ($module$-stays-of-known g))"),
    ("into_open", ""),
    ("into_close", ""),
    ("part_open", ""),
    ("part_close", ""),
    ("untaken_open", ""),
    ("untaken_close", ""),
    ("untaken_uses", ""),
    ("err_open", ""),
    ("err_close", ""),
    ("asked_open", ""),
    ("asked_close", ""),
];

// Of the word `side`, `first` or `second`, and `into`, `inl` or `inr`: one sum more around it.
const IN_SUM: [Template; 24] = [
    (
        "untaken_open",
        "$side$_untaken _ $sum_takes$ _ _ _ _ _\n    ($untaken_open$",
    ),
    ("untaken_close", "$untaken_close$)"),
    (
        "untaken_uses",
        "$untaken_uses$Rattle.wire_fields.specs.Sums $side$_untaken\n",
    ),
    (
        "sum_is_choice",
        "($side$_is_choice $sum_takes$ $sum_choice$ $sum_is_choice$)",
    ),
    (
        "sum_kept",
        "($side$_kept $sum_stay$ $sum_choice$ $sum_kept$)",
    ),
    ("sum_choice", "($side$_choice $sum_choice$)"),
    ("sum_single", "($side$_single $sum_takes$ $sum_single$)"),
    (
        "sum_back",
        "($side$_back $sum_takes$ $sum_start$ $sum_records$ (GoesToLeaf $module$-table)\n    \
        $sum_range$ $sum_back$)",
    ),
    ("sum_stay", "($side$_stay $sum_stay$)"),
    (
        "err_open",
        "$side$_err _ $sum_takes$ _ _ _ _ _ _\n    ($err_open$",
    ),
    ("err_close", "$err_close$)"),
    (
        "err_uses",
        "$err_uses$$inner_uses$Rattle.wire_fields.specs.Sums $side$_err\n",
    ),
    ("inner_uses", "Rattle.wire_fields.specs.Sums $side$_takes\n"),
    ("sum_start", "($into$ $sum_start$)"),
    ("sum_takes", "($side$_takes $sum_takes$)"),
    ("sum_run", "(of_$side$ $sum_run$)"),
    ("sum_records", "(of_$side$ $sum_records$)"),
    ("sum_range", "($side$_range $sum_range$)"),
    ("part_open", "of_$side$ ($part_open$"),
    ("part_close", "$part_close$)"),
    ("into_open", "$into$ $open$$into_open$"),
    ("into_close", "$into_close$$shut$"),
    ("asked_open", "asked_$side$ ($asked_open$"),
    ("asked_close", "$asked_close$)"),
];

/// Tells a page of one of the types that hold one another, or of all of them, what they are called:
/// the words of those in the order of their modules, which it answers.
pub fn set_family(
    page: &mut Words,
    schema: &Schema,
    first: usize,
) -> Result<Vec<Words>, GenerateError> {
    let members = members_of(page, schema, first)?;
    let own = members
        .iter()
        .position(|it| it.get("name") == page.get("name"));
    let last = members.len().saturating_sub(1);
    page.fill_all(&OF_LEAF);
    put_types(page, &members)?;
    put_view_types(page, &members)?;
    for (place, member) in members.iter().enumerate() {
        page.copy(member, &[]);
        page.set("other", member.get("name"));
        page.set("other_module", member.get("module"));
        page.append("family", " $other$");
        page.fill("pattern", "l");
        put_sides(page, place, last, &[("pattern", "($into$ $pattern$)")]);
        if own == Some(place) {
            page.fill("own_pattern", "$pattern$");
            set_account_place(page, place);
            put_sides(page, place, last, &IN_SUM);
        } else {
            page.append_all(&[
                ("others", "            FamilyHeld::$other$(_other) => {}\n"),
                (
                    "other_patterns",
                    "$module$-runs_in_order $pattern$ = refl\n",
                ),
            ]);
        }
    }
    page.append("family", " ");
    page.fill("pattern", "$own_pattern$");
    Ok(members)
}

// Where the account of all has what a type is charged for at this place.
fn set_account_place(page: &mut Words, place: usize) {
    page.set("account_place", "zero");
    for _ in 0..place {
        page.fill("account_place", "(suc $account_place$)");
    }
    page.fill("account_place", "($account_place$ ∷ [])");
}

// Tells the page of all these types, and of those of their oneofs, in the order in which the folds
// have them: the enums first.
fn put_types(page: &mut Words, members: &[Words]) -> Result<(), GenerateError> {
    let mut order: Vec<(bool, &str, &str)> = Vec::new(page.alloc());
    for member in members {
        order.push((true, member.get("module"), member.get("name")))?;
        if !member.get("choice").is_empty() {
            order.push((false, member.get("choice_module"), member.get("choice")))?;
        }
    }
    order.sort()?;
    for (is_message, module, name) in order {
        page.set("other", name);
        page.set("other_module", module);
        page.append_all(if is_message { &OF_ALL } else { &OF_CHOICE });
        if page.get("first_type").is_empty() {
            page.fill("first_type", "$other_module$.$other$");
        }
    }
    Ok(())
}

// Tells the page of their views, in the order in which the folds have these.
fn put_view_types(page: &mut Words, members: &[Words]) -> Result<(), GenerateError> {
    page.fill_all(&[("view_first", ""), ("other_views", "")]);
    page.fill_all(&[("view_trees", ""), ("view_values", ""), ("view_ones", "")]);
    let own = page.take("name");
    page.set("name", &own);
    let mut order: Vec<(bool, &str, usize)> = Vec::new(page.alloc());
    for (place, member) in members.iter().enumerate() {
        if !member.get("view_name").is_empty() {
            order.push((true, member.get("view_module"), place))?;
            if !member.get("choice").is_empty() {
                order.push((false, member.get("choice_view_module"), place))?;
            }
        }
    }
    order.sort()?;
    for (is_message, _, place) in order {
        if let Some(member) = members.get(place) {
            set_other_view(page, member, is_message);
        }
        page.append_all(&OF_VIEWS);
        if page.get("view_first").is_empty() {
            page.fill("view_first", "$other_view_module$.$other_view$");
        }
    }
    for member in members {
        if member.get("name") != own.as_str() {
            page.set("other", member.get("name"));
            page.append(
                "other_views",
                "            FamilyView::$other$(_other) => {}\n",
            );
        }
    }
    Ok(())
}

// What the view of one of these types is called, or that of its oneof.
fn set_other_view(page: &mut Words, member: &Words, is_message: bool) {
    if is_message {
        page.set("other_view", member.get("view_name"));
        page.set("other_view_module", member.get("view_module"));
        page.set("other_module", member.get("module"));
        page.set("other_tree", "Family-Tree");
    } else {
        page.set("other_view", member.get("choice_view"));
        page.set("other_view_module", member.get("choice_view_module"));
        page.set("other_module", member.get("choice_module"));
        page.set("other", member.get("choice"));
        page.fill("other_tree", "$other$-Held");
    }
}

// Fills these templates for each sum around the leaf at a place, from the inside out.
fn put_sides(page: &mut Words, place: usize, last: usize, templates: &'static [Template]) {
    page.fill_all(&[
        ("side", "first"),
        ("into", "inl"),
        ("open", ""),
        ("shut", ""),
    ]);
    if place < last {
        page.fill_all(templates);
        page.fill_all(&OUTER);
    }
    page.fill_all(&[("side", "second"), ("into", "inr")]);
    for _ in 0..place {
        page.fill_all(templates);
        page.fill_all(&OUTER);
    }
}

const OUTER: [Template; 2] = [("open", "("), ("shut", ")")];

// The words of those types, in the order of their modules; the page is told what the first is
// called, and their module.
fn members_of(
    page: &mut Words,
    schema: &Schema,
    first: usize,
) -> Result<Vec<Words>, GenerateError> {
    let mut order: Vec<(&str, usize)> = Vec::new(page.alloc());
    for (place, message) in schema.messages.iter().enumerate() {
        if message.family == Some(first) {
            order.push((message.words.get("module"), place))?;
        }
    }
    order.sort()?;
    let mut members = Vec::new(page.alloc());
    for (_, place) in order {
        if let Some(message) = schema.messages.get(place) {
            let mut words = Words::new(page.alloc());
            words.copy(
                &message.words,
                &[
                    "name",
                    "module",
                    "choice",
                    "choice_module",
                    "choice_view",
                    "choice_view_module",
                    "view_name",
                    "view_module",
                ],
            );
            members.push(words)?;
        }
    }
    if let Some(member) = members.first() {
        page.set("first_name", member.get("name"));
        page.set("first_module", member.get("module"));
    }
    name_family(page, schema)?;
    Ok(members)
}
