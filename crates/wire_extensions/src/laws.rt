//! Laws of the definitions that the contracts cite: each function is a theorem, and does nothing.
ghost use Rattle.wire_extensions.specs.Laws.{AgreesWithMessage, GetOfAdd, GetOfSet};
ghost use Rattle.wire_extensions.specs.Laws.{OneLeavesOthers, StoredArePlain};

use wire_codec::laws;
use wire_fields::Kind;

/// What one extension puts is all that it has then, and leaves the records of others as they were.
pub fn one_leaves_others()
    ensures { OneLeavesOthers }
{}

/// Records in range are stored as they are.
pub fn stored_are_plain()
    ensures { StoredArePlain }
{
    laws::grammar::one_spelled();
    laws::grammar::shortest_text_spells();
}

/// A value that was set is what is got.
pub fn get_of_set<K: Kind>()
    ensures { GetOfSet K.kind }
{
    stored_are_plain();
}

/// What the value before makes of the records that are added is what is got.
pub fn get_of_add<K: Kind>()
    ensures { GetOfAdd K.kind }
{
    laws::grammar::charges_add_up();
}

/// A message that declares a field of the kind makes of records what the extension makes of them.
pub fn agrees_with_message<K: Kind>()
    ensures { AgreesWithMessage K.kind.takes }
{}
