//! Laws of the definitions that the contracts cite: each function is a theorem, and does nothing.
//! Those of the crates below stand in modules of their own.
ghost use Rattle.wire_codec.specs.Laws.{NoSizeIsAboveTheWhole, SmallSizesAreUncut, MeasuredAreNext};
ghost use Rattle.std.specs.Prelude.{◌<◌, All};
ghost use Rattle.wire_codec.specs.Laws.{JoinedTextsAndSizes, FieldsArePlain, SpelledAreFitting};
ghost use Rattle.wire_codec.specs.Laws.{FlatKeepsTheTape};
ghost use Rattle.wire_codec.specs.TakingLaws.{OneReading, RecordsInOrder, AllIsSpelled};
ghost use Rattle.wire_codec.specs.TakingLaws.{DelimitedIsRead, LevelsAndCounts};
ghost use Rattle.wire_codec.specs.TakingLaws.{TakenInOneWay, JoinedInputsAreTaken};
ghost use Rattle.wire_codec.specs.TakingLaws.{OneRecordMore, LimitIsTheLesser, TextDecodes};

use crate::message::Message;
pub use wire_base::laws as grammar;
use wire_base::laws::{
    charges_add_up, counts_fall, joined_texts_spell, levels_add_up, limits_add_up,
    no_delimited_beside_fault, no_tag_beside_fault, one_delimited, one_delimited_fault, one_list,
    one_payload, one_spelled, one_tag, one_varint, records_from_the_front, shortest_text_spells,
    whole_input,
};
pub use wire_base::laws::{piece_by_piece, put_is_a_write, two_parts};
pub use wire_scalar::laws as scalar;
use wire_scalar::laws::one_packed_list;
pub use wire_text::laws as text;

/// No embedded message is longer than the records that it stands in. So no size is cut where the
/// whole is below `2^32`, and what was measured with an empty cache can be written with it.
pub fn sizes_fit()
    ensures above { NoSizeIsAboveTheWhole }
    ensures uncut { SmallSizesAreUncut }
    ensures next { MeasuredAreNext }
{}

/// The encoding and the sizes of records one behind another are theirs, one behind another.
pub fn joined_records_add_up()
    ensures { JoinedTextsAndSizes }
{}

/// Records of the grammar, kept in a value as they are, stand for themselves and have no sizes.
pub fn fields_are_plain()
    ensures { FieldsArePlain }
{}

/// Records that bytes spell have numbers and lengths in range, inside groups too.
pub fn spelled_are_fitting()
    ensures { SpelledAreFitting }
{}

/// What a slice has is bytes, each of them below 256, which no clause can say of a slice by itself.
/// The walk over it is compiled away.
pub fn slice_has_bytes(bytes: &[u8])
    ensures { All (λ b. b < 256) bytes.now }
{
    for i in 0..bytes.len() {
        let _byte = bytes[i];
    }
}

/// A message with no embedded message records and reads no sizes.
pub fn flat_messages_have_no_sizes()
    ensures { FlatKeepsTheTape }
{}

/// The same bytes are read in one way.
pub fn one_reading()
    ensures { OneReading }
{
    one_varint();
    one_delimited();
    one_packed_list();
    one_tag();
    one_payload();
    one_spelled();
}

/// What readers of records go by: a list is taken record by record from the front, in one way, and
/// charges add up.
pub fn records_in_order()
    ensures { RecordsInOrder }
{
    one_reading();
    no_tag_beside_fault();
    records_from_the_front();
    limits_add_up();
    charges_add_up();
    counts_fall();
}

/// What readers of length-delimited payloads stand on.
pub fn delimited_is_read()
    ensures { DelimitedIsRead }
{
    one_delimited();
    no_delimited_beside_fault();
    one_delimited_fault();
    one_list();
    whole_input();
}

/// Levels and counts add up, and counts fall.
pub fn levels_and_counts()
    ensures { LevelsAndCounts }
{
    levels_add_up();
    counts_fall();
}

/// All of some bytes is taken exactly where they spell records that the value takes one after
/// another, for a charge within the limits.
pub fn all_is_spelled<M: Message>()
    ensures { AllIsSpelled M.takes }
{
    whole_input();
}

/// What is taken is taken in one way: the charge, the value and what is left are determined.
pub fn taken_in_one_way<M: Message>()
    ensures { TakenInOneWay M.takes }
{
    one_list();
    one_reading();
}

/// Inputs that are taken one after the other are taken joined, where both charges together fit.
pub fn joined_inputs_are_taken<M: Message>()
    ensures { JoinedInputsAreTaken M.takes }
{
    all_is_spelled::<M>();
    joined_texts_spell();
    charges_add_up();
}

/// One record more at the end is one record more that is taken.
pub fn one_record_more<M: Message>()
    ensures { OneRecordMore M.takes }
{
    all_is_spelled::<M>();
    joined_texts_spell();
    charges_add_up();
}

/// A limit above the number of bytes that are left acts as that number.
pub fn limit_is_the_lesser<M: Message>()
    ensures { LimitIsTheLesser M.takes }
{}

/// A value whose records have numbers and lengths in range, fold back to it, and fit, is what its
/// encoding decodes to.
pub fn text_decodes<M: Message>()
    ensures { TextDecodes M.takes M.records M.default }
{
    all_is_spelled::<M>();
    shortest_text_spells();
}
