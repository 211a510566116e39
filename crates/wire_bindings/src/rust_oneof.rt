//! A oneof of a struct in the Rust crate: what a program has, and what the struct has.
use crate::struct_oneof::is_message;
use wire_schema::{Oneof, Template, Words};

const ONEOF: &str = "
/// The oneof `$oneof_full$`: the field that stands.
#[derive(Clone, Copy, Debug)]
pub enum $oneof_name$$life$ {
$cases$}

// The same as the struct holds it.
#[repr(C)]
#[derive(Clone, Copy)]
struct $oneof_name$Held<'a> {
    which: u32,
$oneof_held$}

impl<'a> $oneof_name$Held<'a> {
    fn get(&self) -> Option<$oneof_name$$life$> {
        match self.which {
$gets$            _ => None,
        }
    }

    fn set(&mut self, one: Option<$oneof_name$$life$>) {
        match one {
$sets$            None => self.which = 0,
        }
    }
}
";

const OF_VARIANT: [Template; 4] = [
    ("cases", "    $variant$($rust_type$),\n"),
    ("oneof_held", "    $field$: $rust_held$,\n"),
    (
        "gets",
        "            $digits$ => Some($oneof_name$::$variant$($rust_had$)),\n",
    ),
    (
        "sets",
        "            Some($oneof_name$::$variant$($field$)) => {\n                \
        self.which = $digits$;\n                self.$field$ = $rust_made$;\n            }\n",
    ),
];

const OF_FIELD: [Template; 4] = [
    ("held", "    $field$: $oneof_name$Held<'a>,\n"),
    (
        "accessors",
        "
$documented$    /// Which of `$field$` stands, where one does.
    pub fn $rust_field$(&self) -> Option<$oneof_name$$life$> {
        self.$field$.get()
    }

    /// Has this one stand, or none.
    pub fn set_$field$(&mut self, $field$: Option<$oneof_name$$life$>) {
        self.$field$.set($field$);
    }
",
    ),
    (
        "shown",
        "            .field(\"$field$\", &self.$rust_field$())\n",
    ),
    ("exports", "pub use $module$::$oneof_name$;\n"),
];

/// Puts a oneof into the words of its message's module, as the field of this name.
pub fn put_oneof(words: &mut Words, field: &Words, oneof: &Oneof) {
    words.copy(field, &["field", "rust_field", "oneof_name"]);
    words.set(
        "oneof_full",
        oneof.words.get("full").trim_start_matches('.'),
    );
    words.fill_all(&[
        ("cases", ""),
        ("oneof_held", ""),
        ("gets", ""),
        ("sets", ""),
    ]);
    let mut borrows = false;
    for variant in &oneof.variants {
        words.copy(variant, &["field", "variant", "digits", "rust_held"]);
        words.copy(variant, &["rust_type", "rust_had", "rust_made"]);
        words.append_all(&OF_VARIANT);
        borrows |= words.get("rust_type").contains("'a");
        if is_message(variant) {
            words.copy(variant, &["of_name", "of_module"]);
            put_once(words);
        }
    }
    words.set("life", if borrows { "<'a>" } else { "" });
    if !borrows {
        words.append("oneof_held", "    no_bytes: Bytes<'a>,\n");
    }
    words.copy(field, &["field"]);
    words.append_all(&OF_FIELD);
    words.append("oneofs", ONEOF);
}

/// Brings the type of a message inside in, once.
pub fn put_once(words: &mut Words) {
    words.fill("use", "use crate::$of_module$::$of_name$;\n");
    let is_there = words.get("inner_uses").contains(words.get("use"));
    words.append("inner_uses", if is_there { "" } else { "$use$" });
}
