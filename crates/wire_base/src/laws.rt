//! Laws of the definitions that the contracts cite: each function is a theorem, and does nothing.
ghost use Rattle.wire_base.specs.VarintLaws.{ShortestReadsBack, NoSpellingBeginsAnother, OneVarint, NoVarintBesideFault, OneVarintFault, VarintOrFaultStands, NoSpellingIsShorter, DelimitedReadsBack, OneDelimited, NoDelimitedBesideFault, OneDelimitedFault, DelimitedOrFaultStands};
ghost use Rattle.wire_base.specs.TagLaws.{TagTextReadsBack, OneTag, NoTagBesideFault, OneTagFault, TagOrFaultStands, NoTagTextIsShorter};
ghost use Rattle.wire_base.specs.LimitsLaws.{ChargesAddUp, LimitsAddUp, LevelsAddUp, CountsFall};
ghost use Rattle.wire_base.specs.RecordLaws.{PayloadIsField, OnePayload, OneSpelled, OneList, WholeInput, GroupIsList, JoinedTextsSpell, JoinedAddsUp, RecordsOneByOne, RecordsFromTheFront, ShortestTextSpells, NoTextIsShorter, NoOtherTextIsAsShort, TextSpellsOneList, SpelledAreNumbered, NumberedTogether};
ghost use Rattle.wire_base.specs.FaultLaws.{NoPayloadBesideFault, NoListBesideFault, OnePayloadFault, OneListFault, PayloadOrFaultStands, ListOrFaultStands};
ghost use Rattle.wire_base.specs.AgreementLaws.{SkippedWhereDecoded, RefusedAlike, RoomSuffices, BodyWhereDecoded, FaultsStay, CutIsShort};
ghost use Rattle.wire_base.specs.ItemLaws.{RecordsAreItems, OneWalk, NoWalkBesideFault, OneSpanFault, PayloadsInside};
ghost use Rattle.wire_base.specs.SpanLaws.{OneSpansCharge, SpansChargeRecords, JoinedSpansSpell};
ghost use Rattle.wire_base.specs.WriteLaws.{TwoParts, PutIsWrite, PieceByPiece, WhatFitsIsWritten, PutFillsSlice};

/// The shortest varint of a number reads back as that number, whatever follows it.
pub fn shortest_reads_back()
    ensures { ShortestReadsBack }
{}

/// No varint is the beginning of a longer one.
pub fn no_spelling_begins_another()
    ensures { NoSpellingBeginsAnother }
{}

/// The same bytes begin with one varint at most: its number and what follows are determined.
pub fn one_varint()
    ensures { OneVarint }
{}

/// Where the grammar names a fault, the bytes begin with no varint.
pub fn no_varint_beside_fault()
    ensures { NoVarintBesideFault }
{}

/// The same bytes have one fault of a varint at most.
pub fn one_varint_fault()
    ensures { OneVarintFault }
{}

/// All bytes begin with a varint or have a fault.
pub fn varint_or_fault()
    ensures { VarintOrFaultStands }
{}

/// No varint of a number is shorter than its shortest one, and no other is as short.
pub fn no_spelling_is_shorter()
    ensures { NoSpellingIsShorter }
{}

/// The shortest text of a length-delimited payload reads back as it, whatever follows.
pub fn delimited_reads_back()
    ensures { DelimitedReadsBack }
{}

/// The same bytes begin with one length-delimited payload at most.
pub fn one_delimited()
    ensures { OneDelimited }
{}

/// Where the grammar names a fault, the bytes begin with no length-delimited payload that is short
/// enough.
pub fn no_delimited_beside_fault()
    ensures { NoDelimitedBesideFault }
{}

/// The same bytes have one fault of a length-delimited payload at most.
pub fn one_delimited_fault()
    ensures { OneDelimitedFault }
{}

/// All bytes begin with a length-delimited payload that is short enough or have a fault.
pub fn delimited_or_fault()
    ensures { DelimitedOrFaultStands }
{}

/// The shortest text of a tag reads back as that tag, whatever follows it.
pub fn tag_text_reads_back()
    ensures { TagTextReadsBack }
{}

/// The same bytes begin with one tag at most: its field number, its wire type and what follows are
/// determined.
pub fn one_tag()
    ensures { OneTag }
{}

/// Where the grammar names a fault, the bytes begin with no tag.
pub fn no_tag_beside_fault()
    ensures { NoTagBesideFault }
{}

/// The same bytes have one fault of a tag at most.
pub fn one_tag_fault()
    ensures { OneTagFault }
{}

/// All bytes begin with a tag or have a fault.
pub fn tag_or_fault()
    ensures { TagOrFaultStands }
{}

/// No text of a tag is shorter than its shortest one.
pub fn no_tag_text_is_shorter()
    ensures { NoTagTextIsShorter }
{}

/// Charges are added up in any grouping, and those of joined lists add up.
pub fn charges_add_up()
    ensures { ChargesAddUp }
{}

/// A sum fits exactly where its first part fits and its second fits what is left.
pub fn limits_add_up()
    ensures { LimitsAddUp }
{}

/// A charge one level down fits exactly where there is a level and it fits what is left there.
pub fn levels_add_up()
    ensures { LevelsAddUp }
{}

/// A charge makes no count greater, and counts that do not grow twice do not grow.
pub fn counts_fall()
    ensures { CountsFall }
{}

/// A record is a tag and the payload of that tag.
pub fn payload_is_field()
    ensures { PayloadIsField }
{}

/// Behind one tag the same bytes begin with one payload at most: its value and what follows are
/// determined.
pub fn one_payload()
    ensures { OnePayload }
{}

/// A text spells one list of records at most.
pub fn one_spelled()
    ensures { OneSpelled }
{}

/// One list of records at most ends so at the front of the same bytes: its records and what follows
/// are determined.
pub fn one_list()
    ensures { OneList }
{}

/// A list that ends with the input is spelled by all of the bytes.
pub fn whole_input()
    ensures { WholeInput }
{}

/// A list up to the end tag of a group is the payload of that group.
pub fn group_is_list()
    ensures { GroupIsList }
{}

/// A text of records and then a text of more records are a text of them all.
pub fn joined_texts_spell()
    ensures { JoinedTextsSpell }
{}

/// The shortest texts of two lists, their counts and their charges add up to those of the joined
/// list.
pub fn joined_adds_up()
    ensures { JoinedAddsUp }
{}

/// Records are taken one by one: none takes nothing, and one more takes from what the others leave.
pub fn records_one_by_one()
    ensures { RecordsOneByOne }
{}

/// A list up to its end is taken record by record from the front, and in no other way.
pub fn records_from_the_front()
    ensures { RecordsFromTheFront }
{}

/// The shortest text of records whose numbers fit is a text of them.
pub fn shortest_text_spells()
    ensures { ShortestTextSpells }
{}

/// No text of records is shorter than their shortest one.
pub fn no_text_is_shorter()
    ensures { NoTextIsShorter }
{}

/// A text of bytes that is as short as the shortest text of its records is that text.
pub fn no_other_text_is_as_short()
    ensures { NoOtherTextIsAsShort }
{}

/// The shortest text of records whose numbers fit spells these records and no others: what is
/// decoded from it is what was written.
pub fn text_spells_one_list()
    ensures { TextSpellsOneList }
{}

/// Records that a text spells have field numbers from 1 to `MAX_FIELD_NUMBER`, inside groups too.
pub fn spelled_are_numbered()
    ensures { SpelledAreNumbered }
{}

/// A joined list has such field numbers exactly where both lists have.
pub fn numbered_together()
    ensures { NumberedTogether }
{}

/// Where the grammar names a fault, no payload within the limits stands behind the tag.
pub fn no_payload_beside_fault()
    ensures { NoPayloadBesideFault }
{}

/// Where the grammar names a fault, no list of records within the limits stands there that ends so.
pub fn no_list_beside_fault()
    ensures { NoListBesideFault }
{}

/// Behind one tag the same bytes have one fault of a payload at most.
pub fn one_payload_fault()
    ensures { OnePayloadFault }
{}

/// The same bytes have one fault of a list of records at most.
pub fn one_list_fault()
    ensures { OneListFault }
{}

/// Behind a tag all bytes begin with a payload within the limits or have a fault.
pub fn payload_or_fault()
    ensures { PayloadOrFaultStands }
{}

/// All bytes begin with a list of records within the limits that ends so, or have a fault.
pub fn list_or_fault()
    ensures { ListOrFaultStands }
{}

/// What is decoded within the limits is skipped with as many levels, to the same rest.
pub fn skipped_where_decoded()
    ensures { SkippedWhereDecoded }
{}

/// What decoding refuses for another cause than slots and bytes, skipping refuses with the same
/// error.
pub fn refused_alike()
    ensures { RefusedAlike }
{}

/// With more slots than bytes, and as many bytes that may be kept, decoding never wants for room,
/// takes what skipping takes, and refuses what skipping refuses.
pub fn room_suffices()
    ensures { RoomSuffices }
{}

/// Of a group that is decoded, the body and its end tag are a list with one level less.
pub fn body_where_decoded()
    ensures { BodyWhereDecoded }
{}

/// A fault that is not short input stays the same, whatever bytes follow.
pub fn faults_stay()
    ensures { FaultsStay }
{}

/// A payload within the limits that is cut off anywhere before its end is short input.
pub fn cut_is_short()
    ensures { CutIsShort }
{}

/// A text of records that nest less than 2^32 deep is one of items, and a flat walk charges for
/// them what the records are charged.
pub fn records_are_items()
    ensures { RecordsAreItems }
{}

/// The length-delimited payloads of items are no longer than their text.
pub fn payloads_inside()
    ensures { PayloadsInside }
{}

/// A text spells one list of items at most.
pub fn one_walk()
    ensures { OneWalk }
{}

/// Where the grammar names a fault, the span is no list of items for which there is room.
pub fn no_walk_beside_fault()
    ensures { NoWalkBesideFault }
{}

/// A span has one fault at most.
pub fn one_span_fault()
    ensures { OneSpanFault }
{}

/// Spans are charged in one way at most.
pub fn one_spans_charge()
    ensures { OneSpansCharge }
{}

/// Spans that spell records which nest less than 2^32 deep are charged what the records are.
pub fn spans_charge_records()
    ensures { SpansChargeRecords }
{}

/// Where each span spells records, the joined spans spell all of them.
pub fn joined_spans_spell()
    ensures { JoinedSpansSpell }
{}

/// A write of two texts, one behind the other, is a write of the joined text.
pub fn two_parts()
    ensures { TwoParts }
{}

/// A put is a write of its bytes.
pub fn put_is_a_write()
    ensures { PutIsWrite }
{}

/// An encoding may be written piece by piece.
pub fn piece_by_piece()
    ensures { PieceByPiece }
{}

/// A call that writes a text for which a slice has room succeeds. Whatever wrote it, the text stands
/// in the slice then, and all else of the slice stays.
pub fn what_fits_is_written()
    ensures { WhatFitsIsWritten }
{}

/// A put into a slice, as each call of a `Room` is: the text stands in it, or has no room there, and
/// then the slice stays.
pub fn put_fills_a_slice()
    ensures { PutFillsSlice }
{}
