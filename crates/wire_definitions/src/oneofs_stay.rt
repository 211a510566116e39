//! That what decoding leaves of a oneof is in range.
use crate::oneofs::put_values;
use crate::stays::{put_accounted_range, stays_page};
use wire_schema::{GenerateError, Oneof, Template, Words};

const TEXT: &str = "
$stays_of_variants$abbrev pub $module$-is : Grounds → $name$-Value → Type 0
$module$-is g None = Unit {0}
$ises$
$theres$pub $module$-in-range : (g : Grounds) (m : $name$-Value) → $module$-is g m
    → AreShort ($module$-records m) → $settled_holds$ m
$module$-in-range g None h short = tt
$in_ranges$
$stays$";

const PLAIN: &str = "\
$abbrev$pub $module$-stays : Grounds → FieldsStay $module$-shape $accounted_range$
$module$-stays g =
    oneof_stays None $module$-records _ ($module$-is g) tt
    $all_stay$
    ($module$-in-range g)
";

// Where some variants are of closed enums: at the numbers of the others.
const CLOSING: &str = "\
abbrev pub $module$-stays : Grounds → (charge_of : ℕ → Payload → Charge)
    → LeavingStays (leaving_none $module$-shape) $accounted_range$ charge_of
    ($here$)
$module$-stays g charge_of =
    closing_variants None $module$-records _ ($module$-is g) tt
    $all_stay$
    ($module$-in-range g)
";

const OF_VARIANT: [Template; 4] = [
    (
        "stays_of_variants",
        "abbrev pub $word$-of-$module$-stays : Grounds
    → KindStays $definition$.kind
    $always_range$
$word$-of-$module$-stays g =
    $always_stays$

",
    ),
    (
        "ises",
        "$module$-is g (Some $one$) = ($word$-of-$module$-stays g).Is x\n",
    ),
    (
        "theres",
        "pub $word$-of-$module$-there : (g : Grounds) (m : $name$-Value) → $module$-is g m
    → ($word$-of-$module$-stays g).Is
    (or_else $word$-of-$module$-kind.default ($word$-of-$module$-as m))
$word$-of-$module$-there g None h = ($word$-of-$module$-stays g).start
$befores_there$$word$-of-$module$-there g (Some $one$) h = h
$behinds_there$
",
    ),
    (
        "in_ranges",
        "$module$-in-range g (Some $one$) h short =
    ($word$-of-$module$-stays g).holds $digits$ x h short
",
    ),
];

const OF_CLOSED_VARIANT: [Template; 2] = [
    (
        "ises",
        "$module$-is g (Some $one$) = $always_range$.Holds x\n",
    ),
    (
        "in_ranges",
        "$module$-in-range g (Some $one$) h short = h\n",
    ),
];

const ONE: &str = "(variant_stays $digits$ $definition$ $word$-of-$module$-as
    (λ x. Some $one$) ($module$-is g) ($word$-of-$module$-stays g)
    ($word$-of-$module$-there g) (λ t h. h))";

const CLOSED_ONE: &str = "(variant_apart $digits$ $definition$ $word$-of-$module$-as
    (λ x. Some $one$) (λ j h. h$closed_place$.0))";

const NAMED: &str = "\
Rattle.std.specs.Prelude ℕ
Rattle.wire_codec.specs.Field Payload
Rattle.wire_codec.specs.Limits Charge
Rattle.wire_fields.specs.Leaving leaving_none
Rattle.wire_fields.specs.Messages or_else
Rattle.wire_fields.specs.Short AreShort
Rattle.wire_fields.specs.Stays FieldsStay
Rattle.wire_fields.specs.Stays KindStays
Rattle.wire_fields.specs.StaysClosed closing_variants
Rattle.wire_fields.specs.StaysLeaving LeavingStays
Rattle.wire_fields.specs.StaysMessages all_but
Rattle.wire_fields.specs.StaysMessages anywhere
Rattle.wire_fields.specs.StaysMessages either_stays
Rattle.wire_fields.specs.StaysMessages oneof_stays
Rattle.wire_fields.specs.StaysMessages variant_apart
Rattle.wire_fields.specs.StaysMessages variant_stays
Rattle.$crate$.specs.$name$ $module$-holds
Rattle.$crate$.specs.$name$ $module$-records
Rattle.$crate$.specs.$name$ $name$-Value
Rattle.$crate$.specs.$holder_name$ $holder$-account
";

const NAMED_OF_VARIANT: &str = "\
$of_always$ $always$
$definitions$$numeric$$range_uses$$scalar_uses$$always_uses$$stays_uses$\
Rattle.$crate$.specs.$name$ $word$-of-$module$-as
Rattle.$crate$.specs.$name$ $word$-of-$module$-kind
";

/// The page of a oneof.
pub fn oneof_stays(base: &Words, oneof: &Oneof) -> Result<String, GenerateError> {
    let mut page = Words::like(base);
    page.set("here", "anywhere");
    for variant in oneof.variants.iter().rev() {
        if !variant.get("closed").is_empty() {
            page.copy(variant, &["digits"]);
            let is_last = page.get("here") == "anywhere";
            page.fill(
                "here",
                if is_last {
                    "all_but $digits$ $here$"
                } else {
                    "all_but $digits$ ($here$)"
                },
            );
        }
    }
    let last = oneof.variants.len().saturating_sub(1);
    for (place, variant) in oneof.variants.iter().enumerate() {
        put_variant(&mut page, variant, place, last);
    }
    put_range(&mut page);
    let is_plain = page.get("here") == "anywhere";
    let is_choice = !page.get("in_choice").is_empty();
    page.set("abbrev", if is_choice { "abbrev " } else { "" });
    page.fill("stays", if is_plain { PLAIN } else { CLOSING });
    page.append("named", NAMED);
    page.fill("text", TEXT);
    stays_page(&mut page)
}

// A variant more.
fn put_variant(page: &mut Words, variant: &Words, place: usize, last: usize) {
    page.copy(
        variant,
        &[
            "word",
            "digits",
            "definition",
            "definitions",
            "always",
            "of_always",
            "numeric",
            "always_range",
            "always_stays",
            "always_uses",
            "range_uses",
            "scalar_uses",
            "stays_uses",
            "before",
            "behind",
        ],
    );
    page.append("named", NAMED_OF_VARIANT);
    page.fill("definition", "($always$ $definition$)");
    settle(page, "always_range");
    put_values(page, place, last);
    let is_closed = !variant.get("closed").is_empty();
    if is_closed {
        page.append_all(&OF_CLOSED_VARIANT);
        page.fill("one_stays", CLOSED_ONE);
        page.append("closed_place", ".1");
    } else {
        page.append_all(&OF_VARIANT);
        page.fill("one_stays", ONE);
    }
    page.fill(
        "all_stay",
        if place == 0 {
            "$one_stays$"
        } else {
            "(either_stays $all_stay$\n    $one_stays$)"
        },
    );
}

// The range of the oneof, for what the account of its message says where one is asked for.
fn put_range(page: &mut Words) {
    if page.get("charged").is_empty() {
        put_accounted_range(page);
        return page.fill("settled_holds", "$module$-holds");
    }
    page.fill_all(&[
        ("accounted_range", "($module$-range $holder$-account)"),
        ("settled_holds", "$module$-holds $holder$-account"),
    ]);
}

// The account of the message in the place of any.
fn settle(page: &mut Words, name: &'static str) {
    let text = page.take(name);
    let mut parts = text.split("λ path. charges ");
    page.set("part", parts.next().unwrap_or(""));
    page.fill(name, "$part$");
    for part in parts {
        page.set("part", part);
        page.append(name, "λ path. $holder$-account $part$");
    }
}
