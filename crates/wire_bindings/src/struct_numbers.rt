//! Lists of numbers of a message as a struct for C: its fields of that kind, and the calls that give
//! their numbers one after another.
use crate::struct_fields::{put_all, set_held, set_item_kind};
use crate::struct_heads::{Head, put_heads};
use wire_definitions::ghost_imports;
use wire_schema::{GenerateError, Template, Words};

// What each sort of number is: the type that says how it stands on the wire, the value that
// contracts see, how they see it of what is held, and names that its map brings in.
const INTEGER: [Template; 4] = [
    ("given_number", "NumberInC<'_, $item_kind$>"),
    ("number_view", "λ v. v"),
    ("number_seen", "number.new"),
    ("map_uses", "Rattle.wire_codec.specs.ValueMap $map$\n"),
];

const FLOAT: [Template; 5] = [
    ("given_number", "$item_kind$InC<'_>"),
    ("number_value", "$item_kind$Bits"),
    ("number_view", "$map$.dec"),
    ("number_seen", "($map$.dec number.new)"),
    ("map_uses", "Rattle.wire_fields.specs.Floats $map$\n"),
];

const ENUM: [Template; 6] = [
    ("given_number", "EnumInC<'_, $of_name$>"),
    ("number_value", "EnumValue $of_name$"),
    ("number_view", "λ n. known_or ($of_module$-of n) n"),
    (
        "number_seen",
        "(known_or ($of_module$-of number.new) number.new)",
    ),
    (
        "map_uses",
        "Rattle.wire_fields.specs.Enums open_enum\n\
        $specs$ $of_module$-number\n$specs$ $of_module$-of\n",
    ),
    (
        "view_uses",
        "Rattle.wire_codec.specs.Enumeration known_or\n",
    ),
];

// A list, of which a struct has the count.
const NUMBERS: [Template; 19] = [
    ("listed", "$struct_held$"),
    ("c_listed_type", "$c_type$"),
    ("rust_listed", "$rust_held$"),
    ("number_code", "$struct_code$"),
    ("member", "$field$_count"),
    ("struct_held", "u64"),
    ("struct_zero", "0"),
    ("struct_bits", "    /// How many there are.\n"),
    ("struct_clear", "m.$member$ ≡ 0"),
    ("view", "m.$member$"),
    ("is_mixed", "list"),
    ("is_of_numbers", "numbers"),
    ("c_type", "uint64_t"),
    ("c_size", "8"),
    ("rust_held", "u64"),
    ("rust_use", ""),
    ("part", "$name$InCField$number$ {\n    lists: $lists$,\n}"),
    ("call", "merge_numbers_count"),
    ("list_written", "map ($number_view$) l.$field$.now"),
];

const OF_NUMBERS: [Template; 11] = [
    ("struct_code", "wire_structs merge_numbers_count\n"),
    (
        "number_uses",
        "$map_uses$Rattle.wire_fields.specs.declared.form.Form.TheVariants $form$\n",
    ),
    ("struct_uses", "Rattle.std.specs.Prelude map\n"),
    (
        "struct_uses",
        "Rattle.wire_structs.specs.Counts count_seen\n",
    ),
    (
        "struct_uses",
        "Rattle.wire_structs.specs.NumberCounts numbers_count\n",
    ),
    ("struct_uses", "$number_uses$$value_uses$$view_uses$"),
    ("shows_uses", "$number_uses$"),
    (
        "shows_uses",
        "Rattle.wire_structs.proofs.CountedNumbers $packing$_shown\n",
    ),
    ("law_uses", "$number_uses$"),
    (
        "law_uses",
        "Rattle.wire_structs.specs.ListLaws numbers_levels\n",
    ),
    ("struct_code", "$packing_code$"),
];

const LIST: [Template; 4] = [
    ("list_value", "List $number_bracketed$"),
    ("list_kind", "numbers_count $form$ $map$"),
    ("list_shows", "$packing$_shown $form$ $map$ $number$"),
    (
        "stays",
        "known_levels $number$ $module$-$field$-kind\n    (numbers_levels $form$ $map$)",
    ),
];

// Written in one record, or in a record each.
const PACKED: [Template; 4] = [
    ("packing", "packed"),
    (
        "list_len",
        "numbers_len::<$struct_kind$>($number$, self.lists.$field$)",
    ),
    (
        "list_put",
        "put_numbers::<$struct_kind$, E>($number$, self.lists.$field$, sink)",
    ),
    (
        "packing_code",
        "wire_structs numbers_len\nwire_structs put_numbers\n",
    ),
];

const UNPACKED: [Template; 4] = [
    ("packing", "unpacked"),
    (
        "list_len",
        "values_len::<$struct_kind$>($number$, self.lists.$field$)",
    ),
    (
        "list_put",
        "put_values::<$struct_kind$, E>($number$, self.lists.$field$, sink)",
    ),
    (
        "packing_code",
        "wire_structs put_values\nwire_structs values_len\n",
    ),
];

/// Whether this is the kind of a list of numbers.
pub fn is_of_numbers(kind: &str) -> bool {
    kind.starts_with("Packed<") || kind.starts_with("Unpacked<")
}

/// Sets the words of a list of numbers.
pub fn set_numbers(words: &mut Words) -> Result<(), GenerateError> {
    let is_packed = words.get("kind").starts_with("Packed<");
    set_item_kind(words)?;
    set_held(words);
    words.fill("view_uses", "");
    match words.get("item_kind") {
        "Double" | "Float" => words.fill_all(&FLOAT),
        "Bool" => set_integer(words, "Bool"),
        "Uint32" | "Uint64" | "Fixed32" | "Fixed64" => set_integer(words, "ℕ"),
        kind if kind.starts_with("Enum<") => words.fill_all(&ENUM),
        _ => set_integer(words, "ℤ"),
    }
    let is_one = !words.get("number_value").contains(' ');
    words.fill(
        "number_bracketed",
        if is_one {
            "$number_value$"
        } else {
            "($number_value$)"
        },
    );
    words.fill_all(if is_packed { &PACKED } else { &UNPACKED });
    words.fill_all(&[
        ("presence", ""),
        ("struct_uses", ""),
        ("shows_uses", ""),
        ("law_uses", ""),
        ("number_uses", ""),
    ]);
    put_all(words, &NUMBERS, &OF_NUMBERS);
    words.fill_all(&LIST);
    words.ended()
}

fn set_integer(words: &mut Words, value: &str) {
    words.set("number_value", value);
    words.fill("value_uses", "Rattle.std.specs.Prelude $number_value$\n");
    words.fill_all(&INTEGER);
}

const WALK: &str = "
// The list `$field$`.
struct $name$InCWalk$number$;

impl NumberList for $name$InCWalk$number$ {
$ghost_imports$
    type Held = $listed$;

    ghost Number = { $number_value$ };

    ghost view = { $number_view$ };

    ghost form = { $form$ };

    ghost values = { $map$ };

    ghost Value = { $name$-Value };

    ghost takes = { $module$-shape.takes };

    ghost list = { $field$-of-$module$ };

    ghost number = { $number$ };

    ghost lawful = { $module$-$field$-list };

    fn number() -> u32 {
        $number$
    }

    fn form() -> Form {
        <$given_number$ as StructNumber>::form()
    }

    fn held_of(read: u64) -> $listed$ {
        <$given_number$ as StructNumber>::held_of(read)
    }
}

/// The next of `$field$` in this walk: 0, and it goes on behind it; 1 where none is left; or the
/// number of the error, nowhere in a walk over bytes that were read as this message within no more
/// than 100 levels. Where it answers no 0 the walk and the number stay.
$next_head$
$next_clauses$
{
    next_number_status::<$name$InCWalk$number$>(walk, number)
}
";

const CLAUSES: &str = "    \
    ensures given { result ≡ 0 → GivesNumber $module$-shape.takes $field$-of-$module$ $form$
        $map$ walk.old walk.new
        $number_seen$ }
    ensures ended { result ≡ 1 → EndsNumbers $module$-shape.takes $field$-of-$module$ $form$
        $map$ walk.old }
    ensures other { result ≢ 0 → result ≢ 1 → LeadsNowhere $module$-shape.takes
        $field$-of-$module$ $form$ $map$ walk.old }
    ensures stays { result ≢ 0 → (walk.new ≡ walk.old) × (number.new ≡ number.old) }";

const WALK_HEAD: [Head; 1] = [[
    "next_head",
    "pub fn next_$module$_$field$",
    "walk: &mut NumbersWalk<'_>; number: &mut $listed$",
    "u32",
]];

const NEXT_HEAD: [Head; 1] = [[
    "next_head",
    "pub extern \"C\" fn $c_name$_next_$c_field$",
    "walk: &mut NumbersWalk<'_>; number: &mut $listed$",
    "u32",
]];

/// The same call in the library.
pub const NEXT_NUMBER: &str = "
/// The next of `$field$` in this walk: 0, and it goes on behind it; 1 where none is left; or the
/// number of the error, nowhere in a walk over bytes that were read as this message within no more
/// than 100 levels. Where it answers no 0 the walk and the number stay.
#[unsafe(no_mangle)]
$next_head$
$next_clauses$
{
    next_$module$_$field$(walk, number)
}
";

/// What that brings in.
pub const NEXT_NUMBER_GHOSTS: &str = "\
Rattle.wire_structs.specs.NumberWalks EndsNumbers
Rattle.wire_structs.specs.NumberWalks GivesNumber
Rattle.wire_structs.specs.NumberWalks LeadsNowhere
Rattle.$crate$.specs.$name$ $field$-of-$module$
$number_uses$$view_uses$";

const WALK_GHOSTS: &str = "\
Rattle.$crate$.specs.$name$ $field$-of-$module$
Rattle.$crate$.specs.$name$ $module$-shape
Rattle.$crate$.specs.$name$ $name$-Value
Rattle.$crate$.specs.$name$InCLists $module$-$field$-list
$number_uses$$value_uses$$view_uses$";

const USES: &str = "\
wire_fields Form
wire_structs NumberList
wire_structs NumbersWalk
wire_structs StructNumber
wire_structs next_number_status
$number_code$";

/// Sets the words of a list of numbers among those of its message.
pub fn set_number_words(page: &mut Words, field: &Words) {
    page.copy(
        field,
        &[
            "number_value",
            "number_view",
            "number_seen",
            "number_uses",
            "number_code",
            "value_uses",
            "view_uses",
        ],
    );
    page.copy(field, &["form", "map", "given_number"]);
}

/// Puts the walk over a list of numbers behind those of the others; its words are set.
pub fn put_number_walk(page: &mut Words) {
    page.append("uses", USES);
    page.fill("ghosts", WALK_GHOSTS);
    ghost_imports(page, "    ");
    put_heads(page, &WALK_HEAD);
    page.fill("next_clauses", CLAUSES);
    page.append("walks", WALK);
    page.append("head_ghosts", NEXT_NUMBER_GHOSTS);
}

/// Sets the head and the clauses of the call in the library.
pub fn set_number_export(page: &mut Words) {
    put_heads(page, &NEXT_HEAD);
    page.fill("next_clauses", CLAUSES);
}

/// Why the list is that of the table.
pub const NUMBER_LIST: &str = "
-- `$field$`, one after another
pub $module$-$field$-list :
    NumbersOf $module$-shape.takes $field$-of-$module$ $number$ $form$ $map$
$module$-$field$-list = record {
  own = λ m z p c h. h.0$firsts$;
  others = λ m z n p c other h.
      whole_leaves $module$-known $number$ (λ v. v$path$)
      ($all_leaves$)
      m z n p c other h;
  levels = $module$-levels.levels;
}
";

/// What that brings in.
pub const NUMBER_LIST_USES: &str = "\
Rattle.wire_structs.specs.ListLaws field_leaves
Rattle.wire_structs.specs.ListLaws whole_leaves
Rattle.wire_structs.specs.NumberWalks NumbersOf
Rattle.$crate$.specs.$name$ $field$-of-$module$
Rattle.$crate$.specs.$name$ $module$-$field$-kind
$number_uses$";
