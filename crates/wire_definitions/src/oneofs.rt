//! The definitions of a oneof.
use crate::choice_laws::{IS_PLAIN, USES_OF_SPOT as USES_OF_PLAIN, put_spot, put_standing};
use crate::closing::{CLOSED_DEFINITIONS, put_apart_variants};
use crate::comments::set_heading;
use crate::definitions::TABLE;
use crate::imports::definition_imports;
use crate::keeping::put_owned;
use crate::laws_pages::has_laws;
use crate::required_oneof::{define_variant, put_missing_in_one, set_requiring};
use crate::returned::{under_charges, use_charges};
use crate::view_definitions::define_oneof_view;
use wire_schema::{GenerateError, Oneof, Template, Words, put_apart};

const USES: &str = "\
Rattle.std.specs.Prelude None
Rattle.std.specs.Prelude Option
Rattle.std.specs.Prelude Some
Rattle.wire_codec.specs.Records Records
Rattle.wire_codec.specs.Records none
Rattle.wire_fields.specs.Oneof Variants
Rattle.wire_fields.specs.Oneof oneof
Rattle.wire_fields.specs.Oneof variant
Rattle.wire_fields.specs.Shape FieldKind
Rattle.wire_fields.specs.Shape Shape
";

const USES_OF_TYPE: &str = "\
Rattle.std.specs.Prelude option_map
Rattle.$crate$.specs.declared.$module$.$name$ $name$
";

const USES_OF_MANY: &str = "\
Rattle.std.proofs.Common inl
Rattle.std.proofs.Common inr
Rattle.std.specs.Prelude ◌⊎◌
Rattle.wire_fields.specs.Oneof either_of
";

const HEAD: &str = "\
$heading$$imports$$view_variants$";

const VALUE: &str = "
-- the one that stands
abbrev pub $name$-One : Type 0
$name$-One = $sum$

$whole_one$$view_one$abbrev pub $name$-Value : Type 0
$name$-Value = Option $name$-One

$whole_of$$view_of$$variants$abbrev pub $module$-records : $name$-Value → Records
$module$-records None = none
$records$";

const ONE: &str = "\
abbrev pub $module$-one : $name$ → $name$-One
$ones$
";

const OF_ONE: &str = "\
abbrev pub $module$-of : Option $name$ → $name$-Value
$module$-of = option_map $module$-one

";

const SHAPE: &str = "
abbrev pub $module$-shape : Shape $name$-Value
$module$-shape =
    oneof None $module$-records $all$
";

const WHOLE_KIND: &str = "
-- under whatever number, since the variants have their own
abbrev pub $module$-kind : FieldKind $name$-Value
$module$-kind = record {
  default = None;
  records = λ n. $module$-records;
  takes = $module$-shape.takes;
}
";

const RANGE: &str = "\
-- what is read back once it is written
abbrev pub $module$-holds : $name$-Value → Type 0
$module$-holds None = Unit {0}
$holds$
abbrev pub $module$-charge : $name$-Value → Charge
$module$-charge None = no_charge
$of_charges$
abbrev pub $module$-range : Range $name$-Value
$module$-range = record { Holds = $module$-holds; charge_of = $module$-charge }

pub $module$-folds : Grounds → (m : $name$-Value) → $module$-holds m
    → FoldsBack $module$-shape.takes $module$-shape.default
    (plain ($module$-shape.records m)) ($module$-charge m) m
$module$-folds g None h = record { fitting = tt; numbered = tt; folded = (refl, refl) }
$folds$
abbrev pub $module$-numbers : ℕ → Type 0
$module$-numbers n = $numbers$

pub $module$-have : Grounds → (m : $name$-Value)
    → AllAre $module$-numbers (plain ($module$-shape.records m))
$module$-have g None = tt
$haves$
abbrev pub $module$-returned : Grounds → Returned $module$-shape $module$-range
$module$-returned g = record {
  Has = $module$-numbers;
  back = record {
    back = $module$-folds g;
    has = λ m h. $module$-have g m;
    own = λ n p h. $apart$;
  };
}
";

const USES_OF_RANGE: &str = "\
Rattle.std.proofs.Common arith
Rattle.std.proofs.Common refl
Rattle.std.proofs.Common ◌≡◌
Rattle.std.specs.Prelude ℕ
Rattle.wire_codec.specs.Limits Charge
Rattle.wire_codec.specs.Limits no_charge
Rattle.wire_codec.specs.Records plain
Rattle.wire_fields.specs.Back AllAre
Rattle.wire_fields.specs.Back FoldsBack
Rattle.wire_fields.specs.Grounds Grounds
Rattle.wire_fields.specs.OneofBack variant_back
Rattle.wire_fields.specs.OneofBack variant_has
Rattle.wire_fields.specs.Ranges Range
Rattle.wire_fields.specs.Returned Returned
";

// What is read back of a variant.
const OF_RETURNED: [Template; 5] = [
    (
        "holds",
        "$module$-holds (Some $one$) =\n    $always_range$.Holds x\n",
    ),
    (
        "of_charges",
        "$module$-charge (Some $one$) =\n    $always_range$.charge_of x\n",
    ),
    (
        "folds",
        "$module$-folds g (Some $one$) h =
    variant_back g.charges $module$-shape $definition$.kind
    $always_range$.Holds
    $always_range$.charge_of
    ($always_returned$) (λ x. Some $one$) $digits$ x refl
    (g.number $digits$ (omega arith) (omega arith)) h (λ c p k. (x, k, refl))
",
    ),
    (
        "haves",
        "$module$-have g (Some $one$) =
    variant_has g.charges $module$-shape $definition$.kind
    $always_range$.Holds
    $always_range$.charge_of
    ($always_returned$) (λ x. Some $one$) $digits$ x refl
    $module$-numbers $own$
",
    ),
    ("uses", "$range_uses$$scalar_uses$$always_uses$"),
];

const FRONT: &str = "
-- all but the last
abbrev pub $module$-front : Variants $name$-Value
$module$-front = $front$
";

const VARIANT: &str = "\
abbrev pub $word$-of-$module$-as : $name$-Value → Option $bracketed$
$word$-of-$module$-as None = None
$befores$$word$-of-$module$-as (Some $one$) = Some x
$behinds$
abbrev pub $word$-of-$module$-kind : FieldKind $bracketed$
$word$-of-$module$-kind = $definition$.kind

abbrev pub $word$-of-$module$ : Variants $name$-Value
$word$-of-$module$ =
    variant $digits$ $definition$ $word$-of-$module$-as
    (λ x. Some $one$)

";

const OTHER: &str = "$word$-of-$module$-as (Some $injected$) = None\n";

const OTHER_THERE: &str =
    "$word$-of-$module$-there g (Some $injected$) h =\n    ($word$-of-$module$-stays g).start\n";

const OF_TYPE: [Template; 2] = [
    ("ones", "$module$-one ($variant$ x) = $seen$\n"),
    (
        "uses",
        "Rattle.$crate$.specs.declared.$module$.$name$.TheVariants $variant$\n",
    ),
];

const OF_VARIANT: [Template; 3] = [
    (
        "records",
        "$module$-records (Some $one$) = $definition$.kind.records $digits$ x\n",
    ),
    ("variants", VARIANT),
    ("uses", "$of_always$ $always$\n$definitions$$numeric$"),
];

/// The value of a oneof, its table, and what each variant is.
pub fn oneof_definitions(base: &Words, oneof: &Oneof) -> Result<String, GenerateError> {
    let mut page = Words::like(base);
    let is_whole = page.get("in_choice").is_empty();
    page.fill("uses", USES);
    page.append(
        "uses",
        if is_whole {
            USES_OF_TYPE
        } else {
            USES_OF_PLAIN
        },
    );
    set_requiring(&mut page, oneof);
    set_sum(&mut page, oneof);
    let last = oneof.variants.len().saturating_sub(1);
    for (place, variant) in oneof.variants.iter().enumerate() {
        put_variant(&mut page, variant, place, last);
    }
    put_of_all(&mut page, oneof, last);
    define_oneof_view(&mut page, oneof);
    definition_imports(&mut page);
    set_heading(&mut page, "--", TABLE);
    put_text(&mut page, last);
    page.finish("text")
}

// The type of what a oneof holds, as a sum of those of its variants.
fn set_sum(page: &mut Words, oneof: &Oneof) {
    for variant in oneof.variants.iter().rev() {
        page.copy(variant, &["bracketed"]);
        let is_last = page.get("sum").is_empty();
        page.fill(
            "sum",
            if is_last {
                "$bracketed$"
            } else {
                "($bracketed$ ⊎ $sum$)"
            },
        );
    }
}

const OF_ONE_VARIANT: [&str; 19] = [
    "variant",
    "word",
    "digits",
    "value",
    "bracketed",
    "before",
    "behind",
    "definition",
    "definitions",
    "always",
    "of_always",
    "numeric",
    "always_range",
    "always_returned",
    "always_uses",
    "range_uses",
    "scalar_uses",
    "closed",
    "of_module",
];

// The definitions of a variant, which stands at this place.
fn put_variant(page: &mut Words, variant: &Words, place: usize, last: usize) {
    page.copy(variant, &OF_ONE_VARIANT);
    page.fill("definition", "($always$ $definition$)");
    put_values(page, place, last);
    page.append_all(&OF_VARIANT);
    if page.get("in_choice").is_empty() {
        page.append_all(&OF_TYPE);
    } else {
        put_spot(page, place);
    }
    if !page.get("closed").is_empty() {
        page.append_all(&CLOSED_DEFINITIONS);
    }
    define_variant(page, variant);
    put_tree(page, place);
    put_numbers(page, place, last);
    if has_laws(page) {
        page.append_all(&OF_RETURNED);
    }
}

// The definitions of all variants, of which this is the place of the last.
fn put_of_all(page: &mut Words, oneof: &Oneof, last: usize) {
    let is_read_back = has_laws(page);
    page.set("standing", "");
    if is_read_back {
        page.append("uses", USES_OF_RANGE);
        use_charges(page);
    }
    if last > 0 {
        page.append("uses", USES_OF_MANY);
        page.fill("all", "(either_of $module$-front $word$-of-$module$)");
    }
    if is_read_back {
        if !page.get("in_choice").is_empty() {
            put_standing(page, &oneof.variants);
        }
        put_apart_variants(page, &oneof.variants);
        put_owned(page, &oneof.variants);
    }
}

// The text of the page.
fn put_text(page: &mut Words, last: usize) {
    let is_whole = page.get("in_choice").is_empty();
    page.fill_all(&[("whole_one", ""), ("whole_of", "")]);
    if is_whole {
        page.fill_all(&[("whole_one", ONE), ("whole_of", OF_ONE)]);
    }
    page.append_all(&[("text", HEAD), ("text", VALUE)]);
    if last > 0 {
        page.append("text", FRONT);
    }
    page.append("text", SHAPE);
    page.append("text", if is_whole { WHOLE_KIND } else { IS_PLAIN });
    put_missing_in_one(page);
    if has_laws(page) {
        page.append("text", "$standing$");
        page.fill("ranges", RANGE);
        page.append("ranges", "$apart_variants$$owned_variants$");
        under_charges(page);
        page.append("text", "\n$ranges$");
    }
}

// One number more of a sum that leans to the left, which this variant's is `own` of.
fn put_numbers(page: &mut Words, place: usize, last: usize) {
    page.fill("own", "refl");
    put_apart(page, place == 0);
    if place > 0 {
        page.fill("own", "(inr $own$)");
        page.fill("numbers", "($numbers$ ⊎ (n ≡ $digits$))");
    } else {
        page.fill("numbers", "(n ≡ $digits$)");
    }
    for _ in place..last {
        page.fill("own", "(inl $own$)");
    }
}

/// A value of the variant at this place, of which the sum of types has so many: as it is seen, as
/// `x`, and the lines of the other variants, those before and those behind.
pub fn put_values(page: &mut Words, place: usize, last: usize) {
    page.fill("injected", "$before$x$behind$");
    let is_word = page.get("injected") == "x";
    page.fill("injected", if is_word { "x" } else { "($injected$)" });
    inject(page, place, last);
    page.fill_all(&[("seen", "$injected$"), ("injected", "x")]);
    inject(page, place, last);
    page.fill_all(&[("one", "$injected$"), ("befores", ""), ("behinds", "")]);
    page.fill_all(&[("befores_there", ""), ("behinds_there", "")]);
    for before in 0..place {
        page.set("injected", "other");
        inject(page, before, last);
        page.append_all(&[("befores", OTHER), ("befores_there", OTHER_THERE)]);
    }
    if place < last {
        let behind = place.saturating_add(1);
        page.set("injected", "other");
        inject(page, behind, behind);
        page.append_all(&[("behinds", OTHER), ("behinds_there", OTHER_THERE)]);
    }
}

/// Puts the value `injected` into the part at this place of a sum of types, which leans to the right.
pub fn inject(page: &mut Words, place: usize, last: usize) {
    if place < last {
        page.fill("injected", "(inl $injected$)");
    }
    for _ in 0..place {
        page.fill("injected", "(inr $injected$)");
    }
}

// One variant more in the tree of all, which leans to the left.
fn put_tree(page: &mut Words, place: usize) {
    page.fill("front", "$all$");
    page.fill(
        "all",
        if place == 0 {
            "$word$-of-$module$"
        } else {
            "(either_of $front$ $word$-of-$module$)"
        },
    );
}
