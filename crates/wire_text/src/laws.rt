//! Laws of the definitions that the contracts cite: each function is a theorem, and does nothing.
//! Those of length-delimited payloads stand in `wire_base::laws`.
ghost use Rattle.wire_text.specs.Laws.{OneString, NoStringBesideFault, OneStringFault, StringOrFaultStands};

pub use crate::enumeration::laws::{
    enum_value_keeps_its_number, enum_values_equal_by_variant, equal_enum_values_hash_equally,
};
use wire_base::laws;

/// The same bytes begin with one string at most: its text and what follows are determined.
pub fn one_string()
    ensures { OneString }
{
    laws::one_delimited();
}

/// Where there is a fault of a string, the bytes begin with none.
pub fn no_string_beside_fault()
    ensures { NoStringBesideFault }
{
    laws::one_delimited();
    laws::no_delimited_beside_fault();
}

/// The same bytes have one fault of a string at most.
pub fn one_string_fault()
    ensures { OneStringFault }
{
    laws::no_delimited_beside_fault();
    laws::one_delimited_fault();
}

/// All bytes begin with a string or have a fault.
pub fn string_or_fault()
    ensures { StringOrFaultStands }
{
    laws::delimited_or_fault();
}
