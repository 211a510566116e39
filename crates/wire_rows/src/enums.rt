//! Enum fields: numbers that an enum knows, and others that are kept.
ghost use Rattle.std.specs.Prelude.{◌≡◌, pos, [], ◌∷◌, codes};
ghost use Rattle.wire_text.specs.declared.enumeration.EnumValue.TheVariants.{Known, Unknown};
ghost use Rattle.wire_rows.specs.declared.enums.Color.TheVariants.{Green};
ghost use Rattle.wire_codec.specs.EnumNumbers.{first_numbered, first_numbered_keeps};

use crate::row::Row;
use crate::said::{Said, hash_of};
use std::fmt::Debug;
use wire_codec::{EnumValue, Enumeration};

pub fn tell(row: &Row<'_>, said: &mut Said) -> bool {
    match row.call {
        "EnumValue<Color>" => say_number::<Color>(row.value(), said),
        "EnumValue<Status>" => say_number::<Status>(row.value(), said),
        "Enumeration<Color>" => say_name::<Color>(row, said),
        "Enumeration<Status>" => say_name::<Status>(row, said),
        "EnumValue" => say_values(said),
        _ => return false,
    }
    true
}

// A number as an enum sees it: what it shows, and that the other calls say the same.
fn say_number<E: Enumeration + Drop>(number: i32, said: &mut Said) {
    let value = EnumValue::<E>::from(number);
    let known = value.as_known();
    said.expect(value.to_i32() == number, "another number");
    said.expect(value.is_known() == known.is_some(), "known");
    said.expect(value.is_unknown() == known.is_none(), "unknown");
    if let Some(known) = known {
        said.expect(value.is(known), "not the known one");
        let is_known = value == EnumValue::from_known(known);
        said.expect(is_known, "another than the known one");
        let one = EnumValue::Unknown(number);
        said.expect(one != value, "an unknown number is equal to a known one");
        said.expect(!one.is(known), "an unknown number is a known one");
    }
    said.made_word(value.to_string(said.alloc));
    said.also(" ", &value);
    said.also(", default ", &EnumValue::<E>::default().to_i32());
}

fn say_name<E: Enumeration + Debug + 'static>(row: &Row<'_>, said: &mut Said) {
    let name = row.word("name").unwrap_or("");
    let found = E::from_proto_name(name);
    said.show(&found);
    said.also(" of ", &E::values().len());
    if let Some(found) = found {
        said.expect(found.proto_name() == name, "another name");
    }
}

// Equal values hash equally, and a known value equals no number.
fn say_values(said: &mut Said) {
    let (green, one) = (green(), EnumValue::Unknown(1));
    let again = EnumValue::<Color>::from(1);
    said.expect(hash_of(&green) == hash_of(&again), "a hash");
    said.expect(hash_of(&green) != hash_of(&one), "the same hash");
    said.expect(green != one, "a number");
    said.expect(green.is(Color::Green), "not green");
    said.expect(!green.is(Color::Blue), "blue");
    said.show(&green);
    said.also(" ", &no_status());
    said.also(
        " ",
        &[Color::Blue.proto_name(), Status::Inactive.proto_name()],
    );
    said.also(" ", &Color::values());
}

#[derive(Clone, Copy, Debug, PartialEq, Eq, Hash)]
enum Color {
    Red = 0,
    Green = 1,
    Blue = 2,
}

static COLORS: [Color; 3] = [Color::Red, Color::Green, Color::Blue];

impl Enumeration for Color {
    ghost use Rattle.wire_rows.specs.declared.enums.Color.TheVariants.{Red, Green, Blue};

    ghost number = { elim [ Red ↦ pos 0 | Green ↦ pos 1 | Blue ↦ pos 2 ] };

    ghost of_number = { first_numbered (elim [ Red ↦ pos 0 | Green ↦ pos 1 | Blue ↦ pos 2 ]) (Red ∷ Green ∷ Blue ∷ []) };

    ghost name = { elim [ Red ↦ codes "RED" | Green ↦ codes "GREEN" | Blue ↦ codes "BLUE" ] };

    ghost is_named = { elim [ Red ↦ (λ bytes. bytes ≡ codes "RED") | Green ↦ (λ bytes. bytes ≡ codes "GREEN") | Blue ↦ (λ bytes. bytes ≡ codes "BLUE") ] };

    ghost keeps_number = { first_numbered_keeps (elim [ Red ↦ pos 0 | Green ↦ pos 1 | Blue ↦ pos 2 ]) (Red ∷ Green ∷ Blue ∷ []) };

    fn from_i32(value: i32) -> Option<Color> {
        match value {
            0 => Some(Color::Red),
            1 => Some(Color::Green),
            2 => Some(Color::Blue),
            _ => None,
        }
    }

    fn to_i32(&self) -> i32 {
        *self as i32
    }

    fn proto_name(&self) -> &'static str {
        match self {
            Color::Red => "RED",
            Color::Green => "GREEN",
            Color::Blue => "BLUE",
        }
    }

    fn from_proto_name(name: &str) -> Option<Color> {
        match name {
            "RED" => Some(Color::Red),
            "GREEN" => Some(Color::Green),
            "BLUE" => Some(Color::Blue),
            _ => None,
        }
    }

    fn values() -> &'static [Color] {
        &COLORS
    }
}

// An enum without a value for the number 0. It looks up no names, and lists no values.
#[derive(Clone, Copy, Debug, PartialEq, Eq, Hash)]
enum Status {
    Active = 1,
    Inactive = 2,
}

impl Enumeration for Status {
    ghost use Rattle.wire_rows.specs.declared.enums.Status.TheVariants.{Active, Inactive};

    ghost number = { elim [ Active ↦ pos 1 | Inactive ↦ pos 2 ] };

    ghost of_number = { first_numbered (elim [ Active ↦ pos 1 | Inactive ↦ pos 2 ]) (Active ∷ Inactive ∷ []) };

    ghost name = { elim [ Active ↦ codes "ACTIVE" | Inactive ↦ codes "INACTIVE" ] };

    ghost keeps_number = { first_numbered_keeps (elim [ Active ↦ pos 1 | Inactive ↦ pos 2 ]) (Active ∷ Inactive ∷ []) };

    fn from_i32(value: i32) -> Option<Status> {
        match value {
            1 => Some(Status::Active),
            2 => Some(Status::Inactive),
            _ => None,
        }
    }

    fn to_i32(&self) -> i32 {
        *self as i32
    }

    fn proto_name(&self) -> &'static str {
        match self {
            Status::Active => "ACTIVE",
            Status::Inactive => "INACTIVE",
        }
    }
}

// What the contracts alone say of two numbers.
fn green() -> EnumValue<Color>
    ensures { result ≡ Known Green }
{
    EnumValue::from(1)
}

fn no_status() -> EnumValue<Status>
    ensures { result ≡ Unknown (pos 0) }
{
    EnumValue::default()
}
