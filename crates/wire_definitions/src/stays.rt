//! That what decoding leaves of a message is in range: a page of its own for each type.
use crate::comments::set_heading;
use crate::imports::definition_imports;
use crate::leaf::put_others_stay;
use crate::mentioned::use_mentioned;
use crate::rows::is_row;
use crate::tree::Tree;
use wire_schema::{Field, GenerateError, Words};

const TEXT: &str = "
pub $module$-stays : Grounds → Stays $module$-shape $accounted_range$
$module$-stays g =
    $whole_stays$
";

const WHAT: &str = "What decoding leaves of `$name$` is in range.";

const HEAD: &str = "$heading$$imports$$text$";

// What puts the proofs together.
const NAMED: &str = "\
Rattle.std.proofs.Common arith
Rattle.std.proofs.Common refl
Rattle.std.specs.Prelude None
Rattle.std.specs.Prelude Some
Rattle.std.proofs.Common inl
Rattle.std.proofs.Common inr
Rattle.std.specs.Prelude ◌∷◌
Rattle.wire_fields.specs.Grounds Grounds
Rattle.wire_fields.specs.Stays Stays
Rattle.wire_fields.specs.Stays dropping_stays
Rattle.wire_fields.specs.Stays known_stays
Rattle.wire_fields.specs.Stays nothing_stays
Rattle.wire_fields.specs.Stays two_stays
Rattle.wire_fields.specs.Stays unknown_stays
Rattle.wire_fields.specs.Stays whole_stays
Rattle.wire_fields.specs.StaysClosed closed_once_stays
Rattle.wire_fields.specs.StaysClosed closed_packed_stays
Rattle.wire_fields.specs.StaysClosed closed_unpacked_stays
Rattle.wire_fields.specs.StaysClosed closing_stays
Rattle.wire_fields.specs.StaysClosedMaps closed_bool_map_stays
Rattle.wire_fields.specs.StaysClosedMaps closed_signed_map_stays
Rattle.wire_fields.specs.StaysClosedMaps closed_text_map_stays
Rattle.wire_fields.specs.StaysClosedMaps closed_unsigned_map_stays
Rattle.wire_fields.specs.StaysClosedMaps entries_others
Rattle.wire_fields.specs.StaysKinds always_stays
Rattle.wire_fields.specs.StaysKinds any_bytes_stay
Rattle.wire_fields.specs.StaysKinds bool_stays
Rattle.wire_fields.specs.StaysKinds double_stays
Rattle.wire_fields.specs.StaysKinds enum_stays
Rattle.wire_fields.specs.StaysKinds fixed32_stays
Rattle.wire_fields.specs.StaysKinds fixed64_stays
Rattle.wire_fields.specs.StaysKinds float_stays
Rattle.wire_fields.specs.StaysKinds implicit_stays
Rattle.wire_fields.specs.StaysKinds int32_stays
Rattle.wire_fields.specs.StaysKinds int64_stays
Rattle.wire_fields.specs.StaysKinds numeric_stays
Rattle.wire_fields.specs.StaysKinds optional_stays
Rattle.wire_fields.specs.StaysKinds packed_stays
Rattle.wire_fields.specs.StaysKinds repeated_stays
Rattle.wire_fields.specs.StaysKinds sfixed32_stays
Rattle.wire_fields.specs.StaysKinds sfixed64_stays
Rattle.wire_fields.specs.StaysKinds sint32_stays
Rattle.wire_fields.specs.StaysKinds sint64_stays
Rattle.wire_fields.specs.StaysKinds string_stays
Rattle.wire_fields.specs.StaysKinds uint32_stays
Rattle.wire_fields.specs.StaysKinds uint64_stays
Rattle.wire_fields.specs.StaysKinds unpacked_stays
Rattle.wire_fields.specs.StaysLeaving both_stay
Rattle.wire_fields.specs.StaysLeaving charged_stays
Rattle.wire_fields.specs.StaysLeaving none_stays
Rattle.wire_fields.specs.StaysLeaving other_stays
Rattle.wire_fields.specs.StaysLeaving types_stay
Rattle.wire_fields.specs.StaysLeaving with_unknown_stays
Rattle.wire_fields.specs.StaysMaps bool_map_stays
Rattle.wire_fields.specs.StaysMaps signed_map_stays
Rattle.wire_fields.specs.StaysMaps text_map_stays
Rattle.wire_fields.specs.StaysMaps unsigned_map_stays
Rattle.wire_fields.specs.StaysMessages embedded_always_stays
Rattle.wire_fields.specs.StaysMessages embedded_each_stays
Rattle.wire_fields.specs.StaysMessages embedded_once_stays
Rattle.wire_fields.specs.StaysMessages group_always_stays
Rattle.wire_fields.specs.StaysMessages group_each_stays
Rattle.wire_fields.specs.StaysMessages group_once_stays
";

// What a message has of its own.
const NAMED_OF_TYPE: &str = "\
Rattle.$crate$.specs.$name$ $module$-account
Rattle.$crate$.specs.$name$ $module$-known
Rattle.$crate$.specs.$name$ $module$-range
Rattle.$crate$.specs.$name$ $module$-shape
";

/// The module of the kinds of the fields.
pub(crate) const HOME: &str = "Rattle.$crate$.specs.$name$";

/// The page of a message that holds neither itself nor others that hold it.
pub fn stays_of(base: &Words, fields: &[Field], tree: &Tree) -> Result<String, GenerateError> {
    let mut page = Words::like(base);
    page.fill("home_specs", HOME);
    put_fields(&mut page, fields, tree);
    put_accounted_range(&mut page);
    put_whole(&mut page, fields);
    page.fill("text", TEXT);
    stays_page(&mut page)
}

/// The names of the fields, and the proof of their tree, the word `stays`.
pub(crate) fn put_fields(page: &mut Words, fields: &[Field], tree: &Tree) {
    page.copy(&tree.words, &["stays"]);
    for field in fields {
        if !is_row(field) {
            page.copy(&field.words, &["field", "definitions", "returned_uses"]);
            page.copy(&field.words, &["stays_uses"]);
            page.append("named", "$definitions$$returned_uses$$stays_uses$");
            page.append(
                "named",
                "$home_specs$ $module$-$field$-kind\n$home_specs$ $module$-$field$-range\n",
            );
        }
    }
}

/// The range, for what the account says where one is asked for.
pub fn put_accounted_range(page: &mut Words) {
    let is_charged = !page.get("charged").is_empty();
    page.fill(
        "accounted_range",
        if is_charged {
            "($module$-range $module$-account)"
        } else {
            "$module$-range"
        },
    );
}

// The fields with the unknown ones.
fn put_whole(page: &mut Words, fields: &[Field]) {
    let is_kept = page.get("unknown") == "keep";
    let mut leaves = false;
    let mut leaves_entries = false;
    put_others_stay(page, fields);
    for field in fields {
        leaves |= field.words.get("both") == "both_leaving";
        leaves_entries |= !field.words.get("left_others").is_empty();
    }
    page.fill(
        "whole_stays",
        match (fields.is_empty(), is_kept) {
            _ if leaves_entries => "charged_stays\n    ($others_stay$)\n    ($stays$)",
            _ if leaves => "with_unknown_stays\n    ($stays$)",
            (false, true) => "whole_stays\n    ($stays$)",
            (false, false) => "dropping_stays\n    ($stays$)",
            (true, true) => "unknown_stays",
            (true, false) => "nothing_stays",
        },
    );
}

/// The page of the text of a type, with what it names.
pub(crate) fn stays_page(page: &mut Words) -> Result<String, GenerateError> {
    page.append("named", NAMED_OF_TYPE);
    put_names(page);
    definition_imports(page);
    set_heading(page, "--", WHAT);
    page.fill("text", HEAD);
    page.finish("text")
}

/// Puts what the text names to the word `uses`.
pub(crate) fn put_names(page: &mut Words) {
    page.set("uses", "");
    page.append("named", NAMED);
    use_mentioned(page);
}
