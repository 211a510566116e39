//! What the laws of message types stand on: each function is a theorem, and does nothing.
ghost use Rattle.wire_fields.specs.Grounds.{Grounds};
ghost use Rattle.wire_fields.specs.Short.{WholeIsShort};

use wire_codec::laws;

/// What it stands on that values are read back once they are written, and that decoded ones are in
/// range.
pub fn grounds()
    ensures { Grounds }
{
    laws::fields_are_plain();
    laws::one_reading();
    laws::joined_records_add_up();
    laws::spelled_are_fitting();
    laws::grammar::charges_add_up();
    laws::grammar::shortest_text_spells();
    laws::grammar::shortest_reads_back();
    laws::grammar::spelled_are_numbered();
    laws::scalar::values_read_back();
}

/// What takes no more bytes than a message may has nothing in it that takes more.
pub fn whole_is_short()
    ensures { WholeIsShort }
{
    laws::joined_records_add_up();
}
