//! What is written of a oneof, where records of other wire types are left.
use crate::oneofs::put_values;
use wire_schema::{Template, Words};

// That what is written of a oneof has the wire types of its variants.
const OWNED: &str = "
pub $module$-owned : Grounds → (m : $name$-Value) → $module$-holds m
    → AllOwn ($owner$)
    (plain ($module$-records m))
$module$-owned g None h = tt
$owneds$";

const OF_OWNED: [Template; 2] = [
    ("owneds", "$module$-owned g (Some $one$) h =\n    $owned$\n"),
    ("uses", "Rattle.wire_fields.specs.Leaving $types$\n"),
];

const USES_OF_OWNED: &str = "\
Rattle.wire_fields.specs.KeepingBack AllOwn
Rattle.wire_fields.specs.Leaving own_at
Rattle.wire_fields.specs.Leaving own_none
";

/// The same of each of these variants, where records of other wire types are left.
pub(crate) fn put_owned(page: &mut Words, variants: &[Words]) {
    if page.get("mismatch") != "keep" {
        return;
    }
    let last = variants.len().saturating_sub(1);
    page.set("owner", "own_none");
    for (place, variant) in variants.iter().enumerate() {
        page.copy(variant, &["types", "digits"]);
        let others = if place == 0 { "$owner$" } else { "($owner$)" };
        page.fill("others", others);
        page.fill("owner", "own_at $types$ $digits$ $others$");
    }
    for (place, variant) in variants.iter().enumerate() {
        page.copy(variant, &["types", "digits", "always", "definition"]);
        put_values(page, place, last);
        let is_scalar = page.get("always") == "always";
        page.fill(
            "owned",
            if is_scalar {
                SCALAR_OWNED
            } else {
                "(refl, tt)"
            },
        );
        page.append_all(&OF_OWNED);
        page.append("uses", if is_scalar { USES_OF_SCALAR } else { "" });
    }
    page.append("uses", USES_OF_OWNED);
    page.fill("owned_variants", OWNED);
}

const SCALAR_OWNED: &str = "scalar_owned g.plain ($owner$)\n    $definition$ $digits$ x refl";

const USES_OF_SCALAR: &str = "Rattle.wire_fields.specs.KeepingBack scalar_owned\n";
