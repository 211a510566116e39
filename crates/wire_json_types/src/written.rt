//! What is written of a field of a message in JSON: nothing where it is as without a member, or
//! always a member.
use wire_schema::{Template, Words};

// What is written of a field where it is not as without a member, and which of its values are read
// back.
const WRITTEN: [Template; 6] = [
    ("part_written", "IsFieldTree $part_absent$ $part_tree$"),
    (
        "part_in_range",
        "IsInRangeUnless $part_absent$ $part_range$",
    ),
    ("back_as", "field_back"),
    (
        "part_written_uses",
        "Rattle.wire_jsonfields.specs.Messages IsFieldTree\n\
        Rattle.wire_jsonfields.specs.Parts IsInRangeUnless\n",
    ),
    ("write_call", "write_field::<$part_kind$>"),
    ("write_use", "wire_jsonfields write_field\n"),
];

// The same where it is always written.
const ALWAYS_WRITTEN: [Template; 6] = [
    ("part_written", "IsMemberTree $part_tree$"),
    ("part_in_range", "$part_range$"),
    ("back_as", "always_back"),
    (
        "part_written_uses",
        "Rattle.wire_jsonfields.specs.Oneofs IsMemberTree\n",
    ),
    ("write_call", "write_always::<$part_kind$>"),
    ("write_use", "wire_jsonfields write_always\n"),
];

/// Sets the words of what is written of a field, whose kind is set.
pub(crate) fn set_written(words: &mut Words) {
    words.fill_all(if is_always_written(words) {
        &ALWAYS_WRITTEN
    } else {
        &WRITTEN
    });
}

// Whether a field is written also where it is as without a member: not one that may be absent, and
// not one of the enum `NullValue`, whose `null` is read as no member.
fn is_always_written(words: &Words) -> bool {
    let is_there = words.get("part_absent") != "None" && words.get("part_range") != "IsNoNull";
    is_there && words.get("json_defaults") == "write"
}
