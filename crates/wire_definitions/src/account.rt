//! What each record is charged that is left, in a message and in those within it.
use crate::rows::is_row;
use wire_schema::{Field, Words};

/// The account of a message, behind what is charged in it alone.
pub(crate) const ACCOUNT: &str = "
-- what each record is charged that is left: by the numbers of the fields that lead to its message,
-- from the outermost one on, by its own number and by its payload
abbrev pub $module$-account : List ℕ → ℕ → Payload → Charge
$module$-account [] = $left_here$
$module$-account (number ∷ path) =
    $left_within$
";

/// The same of types that hold one another: the place of the one that leads out comes first.
pub(crate) const FAMILY_ACCOUNT: &str = "
-- what each record is charged that is left: by the place of the type that leads out, the numbers of
-- the fields that lead to its message, its own number and its payload
abbrev pub family-account : List ℕ → ℕ → Payload → Charge
family-account [] = λ n p. payload_charge p
$own_accounts$family-account ($at_least$ ∷ []) = λ n p. payload_charge p
$accounts$family-account ($at_least$ ∷ number ∷ path) = λ n p. payload_charge p
";

/// The lines of that for each type: what it is charged for, and what those are that it holds.
pub(crate) const OWN_ACCOUNT: &str = "family-account ($at$ ∷ []) = $left_charge$\n";

pub(crate) const MEMBER_ACCOUNT: &str = "\
family-account ($at$ ∷ number ∷ path) =
    $left_within$
";

const USES: &str = "\
Rattle.std.specs.Prelude List
Rattle.std.specs.Prelude []
Rattle.std.specs.Prelude ℕ
Rattle.std.specs.Prelude ◌∷◌
Rattle.wire_codec.specs.Charge payload_charge
Rattle.wire_codec.specs.Field Payload
Rattle.wire_codec.specs.Limits Charge
";

const USES_WITHIN: &str = "\
Rattle.std.specs.Prelude ◌==◌
Rattle.wire_fields.specs.ClosedMapsBack account_where
$account_uses$";

/// What is charged in the messages of these fields, the word `left_within`.
pub(crate) fn put_account(page: &mut Words, fields: &[Field]) {
    if page.get("charged").is_empty() {
        return;
    }
    page.append("uses", USES);
    page.set("left_within", "λ n p. payload_charge p");
    // (one account is that of all messages of a type that holds itself, or of a family)
    for field in fields.iter().filter(|it| !is_row(it)) {
        put_within(page, &field.words);
        if let Some(oneof) = &field.oneof {
            for variant in &oneof.variants {
                put_within(page, variant);
            }
        }
    }
}

fn put_within(page: &mut Words, field: &Words) {
    if field.get("of_charged").is_empty() {
        return;
    }
    page.copy(field, &["of_module", "number", "account_uses"]);
    page.append("uses", USES_WITHIN);
    page.fill(
        "left_within",
        "account_where (number == $number$) ($of_module$-account path)\n    ($left_within$)",
    );
}
