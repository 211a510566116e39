//! The definitions of a oneof of a struct, and why it is read just where that of the message is.
use crate::struct_fields::has_no_bytes_in;
use crate::struct_oneof::is_message;
use wire_definitions::{definition_imports, inject, put_values, set_heading};
use wire_schema::{GenerateError, Oneof, Template, Words};

const USES: &str = "\
Rattle.std.proofs.Common ◌≡◌
Rattle.std.specs.Prelude None
Rattle.std.specs.Prelude Option
Rattle.std.specs.Prelude Some
Rattle.std.specs.Prelude if◌then◌else◌
Rattle.std.specs.Prelude ◌==◌
Rattle.wire_codec.specs.Records Records
Rattle.wire_codec.specs.Records none
Rattle.wire_fields.specs.Oneof Variants
Rattle.wire_fields.specs.Oneof oneof
Rattle.wire_fields.specs.Oneof variant
Rattle.wire_fields.specs.Shape Shape
Rattle.wire_structs.specs.ListLaws HasLevels
Rattle.wire_structs.specs.ListLaws variant_levels
Rattle.$crate$.specs.$name$ $name$-Value
Rattle.$crate$.specs.$name$ $module$-shape
Rattle.$crate$.specs.declared.$module$_in_c.$name$InC $name$InC
";

const USES_OF_MANY: &str = "\
Rattle.std.proofs.Common inl
Rattle.std.proofs.Common inr
Rattle.std.specs.Prelude ◌⊎◌
Rattle.wire_fields.specs.Oneof either_of
Rattle.wire_structs.specs.ListLaws either_levels
";

const USES_OF_NO_BYTES: &str = "Rattle.std.specs.Prelude []\n";

const DEFINITIONS: &str = "\
$heading$$imports$
-- what is shown of the one that stands
abbrev pub $name$-Shown : Type 0
$name$-Shown = Option $sum$

-- what is shown of a value
abbrev pub $module$-seen : $name$-Value → $name$-Shown
$module$-seen None = None
$seens$
$variants$abbrev pub $module$-shown-records : $name$-Shown → Records
$module$-shown-records None = none
$records$$fronts$
abbrev pub $module$-struct : Shape $name$-Shown
$module$-struct =
    oneof None $module$-shown-records $all$

-- what a struct shows: the field whose number stands, and nothing where that is no field's
abbrev pub $module$-shown : $name$InC → $name$-Shown
$module$-shown m =
    $shown$None

-- none stands, each number is 0, each flag is not set, and each slice is of no bytes
pub record $name$-IsZero (m : $name$InC) : Type 0 where
  pub which : m.which ≡ 0
$clears$
-- what is written of a struct
abbrev pub $module$-written : $name$InC → $name$-Value
$module$-written m =
    $written$None

-- no record of it adds a level but its own
pub $module$-levels : HasLevels $module$-shape
$module$-levels = record {
  levels = $levels$;
}
";

const FRONT: &str = "
-- all but the last
abbrev pub $module$-shown-front : Variants $name$-Shown
$module$-shown-front =
    $front$
";

const VARIANT: &str = "\
abbrev pub $word$-of-$module$-shown-as : $name$-Shown → Option $seen_type$
$word$-of-$module$-shown-as None = None
$befores$$word$-of-$module$-shown-as (Some $one$) = Some x
$behinds$
abbrev pub $word$-of-$module$-shown : Variants $name$-Shown
$word$-of-$module$-shown =
    variant $digits$ $seen_sort$
    $word$-of-$module$-shown-as (λ x. Some $one$)

";

const OF_VARIANT: [Template; 8] = [
    ("seens", "$module$-seen (Some $one$) =\n    Some $seen$\n"),
    ("variants", VARIANT),
    (
        "records",
        "$module$-shown-records (Some $one$) =\n    $seen_sort$.kind.records $digits$ x\n",
    ),
    (
        "shown",
        "if m.which == $digits$ then\n    Some $shown_one$\n    else ",
    ),
    (
        "written",
        "if m.which == $digits$ then\n    Some $written_one$\n    else ",
    ),
    ("clears", "  pub $field$ : $struct_clear$\n"),
    ("uses", "$struct_uses$$law_uses$$sort_uses$"),
    (
        "uses",
        "Rattle.$crate$.specs.$name$ $word$-of-$module$\n\
        Rattle.$crate$.specs.$name$ $word$-of-$module$-as\n",
    ),
];

/// The page of the definitions of a oneof, whose words the base has.
pub fn oneof_in_c_definitions_of(base: &Words, oneof: &Oneof) -> Result<String, GenerateError> {
    let mut page = Words::like(base);
    page.fill("uses", USES);
    page.set("indent", "    ");
    let last = oneof.variants.len().saturating_sub(1);
    put_sum(&mut page, oneof);
    for (place, variant) in oneof.variants.iter().enumerate() {
        set_variant_words(&mut page, variant, place, last);
        page.append_all(&OF_VARIANT);
        put_levels(&mut page, place);
        put_trees(&mut page, place);
    }
    if last > 0 {
        page.append("uses", USES_OF_MANY);
        page.fill("fronts", FRONT);
    }
    if has_no_bytes_in(&oneof.variants) {
        page.append("clears", "  pub no_bytes : m.no_bytes.now ≡ []\n");
        page.append("uses", USES_OF_NO_BYTES);
    }
    set_heading(&mut page, "--", "`$name$` as a struct shows it.");
    definition_imports(&mut page);
    page.fill("text", DEFINITIONS);
    page.finish("text")
}

// The sum of the types of the variants, which leans to the right.
fn put_sum(page: &mut Words, oneof: &Oneof) {
    page.set("sum", "");
    for variant in oneof.variants.iter().rev() {
        page.copy(variant, &["seen_type"]);
        let is_last = page.get("sum").is_empty();
        page.fill(
            "sum",
            if is_last {
                "$seen_type$"
            } else {
                "($seen_type$\n    ⊎ $sum$)"
            },
        );
    }
}

/// Sets the words of a variant, and its values: as it is seen, shown and written, and `one`, `x`.
pub fn set_variant_words(page: &mut Words, variant: &Words, place: usize, last: usize) {
    page.copy(
        variant,
        &[
            "word",
            "field",
            "digits",
            "always",
            "definition",
            "seen_type",
            "seen_sort",
            "of_module",
            "reveal",
            "struct_clear",
            "struct_uses",
            "law_uses",
            "sort_uses",
            "shows_uses",
            "variant_levels",
            "variant_shows",
        ],
    );
    page.fill("own_sort", "($always$ $definition$)");
    page.fill("own_module", "$module$");
    page.fill("module", "$own_module$-shown");
    put_values(page, place, last);
    page.fill("module", "$own_module$");
    put_injected(page, "seen", variant.get("seen_one"), place, last);
    put_injected(page, "shown_one", variant.get("struct_shown"), place, last);
    put_injected(
        page,
        "written_one",
        variant.get("struct_written"),
        place,
        last,
    );
    page.fill(
        "same_one",
        if is_message(variant) {
            "(ap (λ x. Some $one$) ($of_module$-same m.$field$ Fields.none))"
        } else {
            "refl"
        },
    );
}

// Makes a value in the part at this place of the sum the word of this name.
fn put_injected(page: &mut Words, name: &'static str, text: &str, place: usize, last: usize) {
    page.set("injected", text);
    if text.contains(' ') && !text.starts_with('(') {
        page.fill("injected", "($injected$)");
    }
    inject(page, place, last);
    page.fill(name, "$injected$");
}

// Why a record of the variants so far adds no level but its own.
fn put_levels(page: &mut Words, place: usize) {
    page.fill(
        "own_levels",
        "variant_levels $digits$ $own_sort$\n      $word$-of-$module$-as (λ x. Some $one$)\n      \
        $variant_levels$",
    );
    page.fill(
        "levels",
        if place == 0 {
            "$own_levels$"
        } else {
            "either_levels $own_all$ $word$-of-$module$\n      ($levels$)\n      ($own_levels$)"
        },
    );
}

/// One variant more in the trees of all, which lean to the left: `all` of those that are shown, of
/// which `front` has all but the last, and `own_all` of the message.
pub fn put_trees(page: &mut Words, place: usize) {
    page.fill_all(&[("front", "$all$"), ("own_front", "$own_all$")]);
    page.fill_all(if place == 0 {
        &[
            ("all", "$word$-of-$module$-shown"),
            ("own_all", "$word$-of-$module$"),
        ]
    } else {
        &[
            (
                "all",
                "(either_of $front$\n$indent$$word$-of-$module$-shown)",
            ),
            (
                "own_all",
                "(either_of $own_front$\n      $word$-of-$module$)",
            ),
        ]
    });
}
