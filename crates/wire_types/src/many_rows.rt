//! What the code of a message that holds itself has otherwise where its fields are many, since the
//! proof of each way through a function has all of them.
use wire_schema::{Template, Words};

/// Its fields are cleared as all of them are borrowed at once: one by one, each would be of a
/// message of its own.
pub const AT_ONCE: [Template; 4] = [
    ("of_self", ""),
    ("mut_self", ""),
    ("set_self", "*"),
    ("is_apart", "is_apart"),
];

/// Those of any other, each by itself.
pub const BY_ITSELF: [Template; 4] = [
    ("of_self", "self."),
    ("mut_self", "&mut self."),
    ("set_self", "self."),
    ("is_apart", ""),
];

const APART: &str = "        let $name$ {
$named$        } = self;
$cleared$";

// A message that is of none of the rows is dropped in a function of its own.
const DROP_OTHER: &str = "
// Drops a message that is of none of the rows.
fn drop_other(message: $moved$) -> Result<(), DecodeError>
    ensures { IsOk result }
{
    Ok(())
}
";

// The row is looked at before the type of the message.
const NESTED: &str = "            $row$ => {
                match message {
$arm_of_row$                    other => drop_other(other),
                }
            }
";

// The arm of a variant, which has less room there.
const NESTED_VARIANT: &str = "$arm$ => {
                let held = Box::new(alloc, message)?;
                self.$field$ = Some($choice$::$choice_variant$(held));
                Ok(())
            }
";

const NESTED_ARM: &str = "            FamilyHeld::$of_name$(message)";

/// The words of the body that clears a message, of which the fields were put one by one.
pub fn take_apart(page: &mut Words) {
    if is_apart(page) {
        page.fill("cleared", APART);
    }
}

/// Whether the fields are many.
pub fn is_apart(page: &Words) -> bool {
    !page.get("is_apart").is_empty()
}

// Whether an arm by the type of a message stands in one by its row.
fn is_nested(page: &Words) -> bool {
    is_apart(page) && !page.get("family_name").is_empty()
}

/// The arm of one of a family, by the type of its messages alone.
pub fn set_nested_arm(page: &mut Words) {
    if is_nested(page) {
        page.fill("arm", NESTED_ARM);
    }
}

/// The arm of a row that is a variant, where it stands in another.
pub fn set_nested_variant(page: &mut Words) {
    if is_nested(page) && !page.get("choice_variant").is_empty() {
        page.fill("arm_of_row", NESTED_VARIANT);
    }
}

/// Puts the arm of a row, which is the word `arm_of_row`, behind the others of this name.
pub fn put_arm_of_row(page: &mut Words, name: &'static str) {
    if is_nested(page) {
        for _ in 0..STEPS {
            page.indent("arm_of_row");
        }
        page.append(name, NESTED);
    } else {
        page.append(name, "$arm_of_row$");
    }
}

/// The widest line of the arm of a row, before it is moved.
pub fn width_of_arm(page: &Words) -> usize {
    if is_nested(page) { 92 } else { 100 }
}

// By how many steps of two columns an arm within an arm stands further to the right.
const STEPS: usize = 4;

/// What becomes of a message that is of none of the rows.
pub fn set_others_of_rows(page: &mut Words) {
    if is_apart(page) {
        page.fill_all(&[("matched", "row"), ("no_row", "drop_other(message)")]);
        page.append("choice_ghosts", "Rattle.std.specs.Prelude IsOk\n");
        page.fill("drop_other", DROP_OTHER);
    } else {
        page.fill_all(&[("no_row", "Ok(())"), ("drop_other", "")]);
    }
}
