//! The kinds of fields.
use crate::features::Features;
use crate::item::Sort;
use crate::view_field::set_view;
use crate::words::{Template, Words};
use wire_descriptor::FieldDescriptorProto;

const LABEL_REPEATED: i32 = 3;

/// Templates of a kind of field over the words of its values: names that are brought in, and then
/// the type that a message holds, the kind, the type as contracts see it, how what a message `m`
/// holds is seen so, the definition, and a copy.
struct Kind {
    code: &'static str,
    definitions: &'static str,
    held: &'static str,
    kind: &'static str,
    value: &'static str,
    view: &'static str,
    definition: &'static str,
    copy: &'static str,
    back: Back,
}

/// Which values of a kind are read back, and why: templates of a range, of the proof, with names that
/// are brought in, and of the proof that decoding gives such. The lemma, and what it is of besides the wire types of the field, by which
/// what is written has these.
struct Back {
    range: &'static str,
    returned: &'static str,
    stays: &'static str,
    uses: &'static str,
    typed: &'static str,
    typed_of: &'static str,
    typed_uses: &'static str,
}

const IMPLICIT: Kind = Kind {
    code: "wire_fields Implicit\n",
    definitions: "Rattle.wire_fields.specs.Presence implicit\n$numeric$",
    held: "$held$",
    kind: "Implicit<$kind$>",
    value: "$value$",
    view: "$before$m.$field$$behind$",
    definition: "implicit $definition$",
    copy: "$copy_once$",
    back: Back {
        range: "$item_range$",
        returned: "implicit_returned g _ _ $item_back$",
        stays: "implicit_stays $item_stays$",
        uses: "Rattle.wire_fields.specs.Returned implicit_returned\n$range_uses$$scalar_uses$",
        typed: "implicit_typed",
        typed_of: "g.plain $definition$ (λ v. refl)",
        typed_uses: "",
    },
};

const OPTIONAL: Kind = Kind {
    code: "wire_fields Optional\n",
    definitions: "Rattle.std.specs.Prelude Option\nRattle.std.specs.Prelude option_map\n\
        Rattle.wire_fields.specs.Presence optional\n$numeric$",
    held: "Option<$held$>",
    kind: "Optional<$kind$>",
    value: "Option $bracketed$",
    view: "option_map $view$ m.$field$",
    definition: "optional $definition$",
    copy: "$copy_option$",
    back: Back {
        range: "optional_range $item_range$",
        returned: "optional_returned g _ _ $item_back$",
        stays: "optional_stays $item_stays$",
        uses: "Rattle.wire_fields.specs.Returned optional_returned\n\
            Rattle.wire_fields.specs.Ranges optional_range\n$range_uses$$scalar_uses$",
        typed: "optional_typed",
        typed_of: "g.plain $definition$ (λ v. refl)",
        typed_uses: "",
    },
};

const EMBEDDED: Kind = Kind {
    code: "wire_fields Embedded\n",
    definitions: "Rattle.std.specs.Prelude Option\nRattle.wire_fields.specs.Messages boxed_value\n\
        Rattle.wire_fields.specs.Messages embedded_once\n",
    held: "Option<Box<$held$>>",
    kind: "Embedded<$kind$>",
    value: "Option $value$",
    view: "boxed_value $view$ m.$field$",
    definition: "embedded_once $definition$",
    copy: "copied_box(&self.$field$)?",
    back: Back {
        range: "once_range $of_module$-shape $item_range$",
        returned: "embedded_once_returned g _ _ $item_back$",
        stays: "embedded_once_stays g $item_stays$",
        uses: "Rattle.wire_fields.specs.Returned embedded_once_returned\n\
            Rattle.wire_fields.specs.Ranges once_range\n$range_uses$",
        typed: "once_typed",
        typed_of: "length_prefixed $definition$ (λ rs. refl)",
        typed_uses: "Rattle.wire_fields.specs.Messages length_prefixed\n",
    },
};

const GROUP: Kind = Kind {
    code: "wire_fields Group\n",
    definitions: "Rattle.std.specs.Prelude Option\nRattle.wire_fields.specs.Messages boxed_value\n\
        Rattle.wire_fields.specs.Messages group_once\n",
    held: "Option<Box<$held$>>",
    kind: "Group<$kind$>",
    value: "Option $value$",
    view: "boxed_value $view$ m.$field$",
    definition: "group_once $definition$",
    copy: "copied_box(&self.$field$)?",
    back: Back {
        range: "once_range $of_module$-shape $item_range$",
        returned: "group_once_returned g _ _ $item_back$",
        stays: "group_once_stays g $item_stays$",
        uses: "Rattle.wire_fields.specs.Returned group_once_returned\n\
            Rattle.wire_fields.specs.Ranges once_range\n$range_uses$",
        typed: "once_typed",
        typed_of: "delimited $definition$ (λ rs. refl)",
        typed_uses: "Rattle.wire_fields.specs.Messages delimited\n",
    },
};

const EACH_EMBEDDED: Kind = Kind {
    code: "wire_fields EachEmbedded\n",
    definitions: "Rattle.std.specs.Prelude List\nRattle.std.specs.Prelude map\n\
        Rattle.wire_fields.specs.Messages embedded_each\n",
    held: "Vec<$held$>",
    kind: "EachEmbedded<$kind$, $size$>",
    value: "List $value$",
    view: "map $view$ m.$field$.items",
    definition: "embedded_each $size$ $definition$",
    copy: "copied_list(&self.$field$)?",
    back: Back {
        range: "each_range $size$ $of_module$-shape $item_range$",
        returned: "embedded_each_returned g _ _ $item_back$ $size$",
        stays: "embedded_each_stays g $item_stays$ $size$",
        uses: "Rattle.wire_fields.specs.Returned embedded_each_returned\n\
            Rattle.wire_fields.specs.Ranges each_range\n$range_uses$",
        typed: "each_typed",
        typed_of: "length_prefixed $definition$ (λ rs. refl) $size$",
        typed_uses: "Rattle.wire_fields.specs.Messages length_prefixed\n",
    },
};

const EACH_GROUP: Kind = Kind {
    code: "wire_fields EachGroup\n",
    definitions: "Rattle.std.specs.Prelude List\nRattle.std.specs.Prelude map\n\
        Rattle.wire_fields.specs.Messages group_each\n",
    held: "Vec<$held$>",
    kind: "EachGroup<$kind$, $size$>",
    value: "List $value$",
    view: "map $view$ m.$field$.items",
    definition: "group_each $size$ $definition$",
    copy: "copied_list(&self.$field$)?",
    back: Back {
        range: "each_range $size$ $of_module$-shape $item_range$",
        returned: "group_each_returned g _ _ $item_back$ $size$",
        stays: "group_each_stays g $item_stays$ $size$",
        uses: "Rattle.wire_fields.specs.Returned group_each_returned\n\
            Rattle.wire_fields.specs.Ranges each_range\n$range_uses$",
        typed: "each_typed",
        typed_of: "delimited $definition$ (λ rs. refl) $size$",
        typed_uses: "Rattle.wire_fields.specs.Messages delimited\n",
    },
};

const PACKED: Kind = Kind {
    code: "wire_fields Packed\n",
    definitions: "Rattle.std.specs.Prelude List\nRattle.wire_fields.specs.Packed packed\n",
    held: "Vec<$held$>",
    kind: "Packed<$kind$>",
    value: "List $bracketed$",
    view: "m.$field$.items",
    definition: "packed $form$ $map$",
    copy: "copied_numbers(&self.$field$)?",
    back: Back {
        range: "packed_range $form$ $map$ $item_range$",
        returned: "packed_returned g _ _ $item_range$ $number_back$",
        stays: "packed_stays _ _ _ $number_stays$",
        uses: "Rattle.wire_fields.specs.Returned packed_returned\n\
            Rattle.wire_fields.specs.Ranges packed_range\n$range_uses$$back_uses$",
        typed: "packed_typed",
        typed_of: "$form$ $map$ refl",
        typed_uses: "",
    },
};

const UNPACKED: Kind = Kind {
    code: "wire_fields Unpacked\n",
    definitions: "Rattle.std.specs.Prelude List\nRattle.wire_fields.specs.Packed unpacked\n",
    held: "Vec<$held$>",
    kind: "Unpacked<$kind$>",
    value: "List $bracketed$",
    view: "m.$field$.items",
    definition: "unpacked $form$ $map$",
    copy: "copied_numbers(&self.$field$)?",
    back: Back {
        range: "unpacked_range $item_range$",
        returned: "unpacked_returned g _ _ $item_range$ $number_back$",
        stays: "unpacked_stays _ _ _ $number_stays$",
        uses: "Rattle.wire_fields.specs.Returned unpacked_returned\n\
            Rattle.wire_fields.specs.Ranges unpacked_range\n$range_uses$$back_uses$",
        typed: "unpacked_typed",
        typed_of: "g.plain $form$ $map$ (λ v. refl)",
        typed_uses: "",
    },
};

const REPEATED: Kind = Kind {
    code: "wire_fields Repeated\n",
    definitions: "Rattle.std.specs.Prelude map\nRattle.wire_fields.specs.Presence repeated\n",
    held: "Vec<$held$>",
    kind: "Repeated<$kind$, $of_text$>",
    value: "List (List ℕ)",
    view: "map $view$ m.$field$.items",
    definition: "repeated $of_text$ $definition$",
    copy: "copied_list(&self.$field$)?",
    back: Back {
        range: "repeated_range $of_text$ $item_range$",
        returned: "repeated_returned g _ _ $item_back$ $of_text$",
        stays: "repeated_stays $item_stays$ $of_text$",
        uses: "Rattle.wire_fields.specs.Returned repeated_returned\n\
            Rattle.wire_fields.specs.Ranges repeated_range\n$range_uses$$scalar_uses$",
        typed: "repeated_typed",
        typed_of: "g.plain $definition$ (λ v. refl) $of_text$",
        typed_uses: "",
    },
};

const MAP: Kind = Kind {
    code: "std::collections BTreeMap\nwire_fields Map\nwire_fields $presence$\n",
    definitions: "Rattle.std.specs.Prelude List\nRattle.wire_fields.specs.Maps $key_order$\n\
        Rattle.wire_fields.specs.Maps viewed\n$of_always$ $always$\n$numeric$",
    held: "BTreeMap<$key_held$, $held$>",
    kind: "Map<$key_kind$, $presence$<$kind$>, $of_entry$>",
    value: "List ($key_bracketed$ × $bracketed$)",
    view: "viewed $key_view$ $view$ m.$field$.entries",
    definition: "$key_order$ $of_entry$$key_numbers$ ($always$ $definition$)",
    copy: "copied_map(&self.$field$)?",
    back: Back {
        range: "$key_order$_range $of_entry$$key_numbers$ ($always$ $plain$)\n    $key_range_there$$always_range$",
        returned: "map_returned g _ _ _ _ $key_range$\n    $always_range$ $key_back$\n    ($always_returned$)",
        stays: "$key_order$_stays g $of_entry$ ($always$ $plain$) $key_stays$\n    ($always_stays$)",
        uses: "Rattle.wire_fields.specs.Returned map_returned\n\
            Rattle.wire_fields.specs.Ranges $key_order$_range\n$key_uses$$range_uses$$scalar_uses$$always_uses$",
        typed: "messages_typed",
        typed_of: "length_prefixed\n    (entry_records $key_definition$ ($always$ $plain$).kind) (λ rs. refl)",
        typed_uses: "Rattle.wire_fields.specs.Messages length_prefixed\n\
            Rattle.wire_fields.specs.Maps entry_records\n",
    },
};

/// Makes the words of a field of those of its values.
pub(crate) fn set_kind(
    features: Features,
    field: &FieldDescriptorProto,
    sort: Sort,
    words: &mut Words,
) {
    let is_repeated = field.label == LABEL_REPEATED;
    let is_packed = match &field.options {
        Some(options) => options.packed.unwrap_or(features.is_packed()),
        None => features.is_packed(),
    };
    let is_implicit = features.is_implicit() && !field.proto3_optional;
    match sort {
        Sort::Message if is_repeated => put_kind(&EACH_EMBEDDED, words),
        Sort::Message => put_kind(&EMBEDDED, words),
        Sort::Group if is_repeated => put_kind(&EACH_GROUP, words),
        Sort::Group => put_kind(&GROUP, words),
        Sort::Text if is_repeated => put_kind(&REPEATED, words),
        Sort::Number if is_repeated && is_packed => put_kind(&PACKED, words),
        Sort::Number if is_repeated => put_kind(&UNPACKED, words),
        _ if is_implicit => put_kind(&IMPLICIT, words),
        _ => put_kind(&OPTIONAL, words),
    }
}

/// Makes the words of a value those of the key of a map.
pub(crate) fn set_key(words: &mut Words) {
    words.fill_all(&[
        ("key_held", "$held$"),
        ("key_kind", "$kind$"),
        ("key_bracketed", "$bracketed$"),
        ("key_view", "$view$"),
        ("key_definition", "$definition$"),
        ("key_order", "$order$"),
        ("key_numbers", "$order_numbers$"),
        ("key_range", "$item_range$"),
        ("key_back", "$item_back$"),
        ("key_stays", "$item_stays$"),
        ("key_uses", "$range_uses$$scalar_uses$"),
        ("key_definitions", "$definitions$"),
        ("key_range_there", ""),
    ]);
    if !words.get("order_numbers").is_empty() {
        words.fill("key_range_there", "$item_range$ ");
    }
}

/// Makes the words of a map of those of its key and its values.
pub(crate) fn set_map(sort: Sort, words: &mut Words) {
    set_always(sort, words);
    put_kind(&MAP, words);
    words.set("maps", "m");
}

// What is read back of a value that is always written.
const ALWAYS_SCALAR: [Template; 4] = [
    ("always_range", "$item_range$"),
    ("always_returned", "always_returned g _ _ $item_back$"),
    ("always_stays", "always_stays $item_stays$"),
    (
        "always_uses",
        "Rattle.wire_fields.specs.Returned always_returned\n",
    ),
];

const ALWAYS_MESSAGE: [Template; 4] = [
    (
        "always_range",
        "(always_range $of_module$-shape $item_range$)",
    ),
    ("always_returned", "$always$_returned g _ _ $item_back$"),
    ("always_stays", "$always$_stays g $item_stays$"),
    (
        "always_uses",
        "Rattle.wire_fields.specs.Ranges always_range\n\
        Rattle.wire_fields.specs.Returned $always$_returned\n",
    ),
];

/// How a value is there that is always written: `presence` in code, and `always` as a definition.
pub(crate) fn set_always(sort: Sort, words: &mut Words) {
    let (presence, always) = match sort {
        Sort::Message => ("AlwaysEmbedded", "embedded_always"),
        Sort::Group => ("AlwaysGroup", "group_always"),
        _ => ("Always", "always"),
    };
    words.set("presence", presence);
    words.set("always", always);
    let is_plain = always == "always";
    words.fill("plain", "$definition$");
    words.fill_all(if is_plain {
        &ALWAYS_SCALAR
    } else {
        &ALWAYS_MESSAGE
    });
    words.set(
        "of_always",
        if is_plain {
            "Rattle.wire_fields.specs.Presence"
        } else {
            "Rattle.wire_fields.specs.Messages"
        },
    );
}

fn put_kind(kind: &Kind, words: &mut Words) {
    set_view(kind.kind, words);
    words.append("returned_uses", kind.back.uses);
    words.fill("range", kind.back.range);
    words.fill("kind_returned", kind.back.returned);
    words.fill("kind_stays", kind.back.stays);
    words.set("typed", kind.back.typed);
    words.fill("typed_of", kind.back.typed_of);
    words.set("typed_uses", kind.back.typed_uses);
    words.append("code", kind.code);
    words.append("definitions", kind.definitions);
    words.fill("view", kind.view);
    words.fill("value", kind.value);
    words.fill("held", kind.held);
    words.fill("kind", kind.kind);
    words.fill("definition", kind.definition);
    words.fill("copy", kind.copy);
    bracket(words);
}

/// Makes the value's type in brackets, where it has several words, the word `bracketed`.
pub(crate) fn bracket(words: &mut Words) {
    let is_one = !words.get("value").contains(' ');
    words.fill("bracketed", if is_one { "$value$" } else { "($value$)" });
}
