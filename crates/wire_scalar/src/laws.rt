//! Laws of the definitions that the contracts cite: each function is a theorem, and does nothing.
ghost use Rattle.std.specs.Prelude.{◌<◌, ◌^◌, FitsSigned};
ghost use Rattle.std.specs.Int.{w32, w64, to_le_bytes};
ghost use Rattle.wire_base.specs.Varint.{IsSpelling, shortest_varint};
ghost use Rattle.wire_scalar.specs.Laws.{DecodesBack, TextReadsBack, VarintsAreCounted, FixedAreMultiples, OnePackedList, NoPackedListBesideFault, OnePackedFault, PackedListOrFaultStands};
ghost use Rattle.wire_base.specs.Fixed.{IsFixed};
ghost use Rattle.wire_scalar.specs.ValueMap.{int32, int64, uint32, uint64, sint32, sint64, bool, fixed32, fixed64, sfixed32, sfixed64};

/// What is read from the number that is written for a value is that value, for every value of each
/// type.
pub fn values_read_back()
    ensures int32 { DecodesBack int32 (FitsSigned w32) }
    ensures int64 { DecodesBack int64 (FitsSigned w64) }
    ensures uint32 { DecodesBack uint32 (λ value. value < 2 ^ 32) }
    ensures uint64 { DecodesBack uint64 (λ value. value < 2 ^ 64) }
    ensures sint32 { DecodesBack sint32 (FitsSigned w32) }
    ensures sint64 { DecodesBack sint64 (FitsSigned w64) }
    ensures bool { DecodesBack bool (λ _. Unit {0}) }
    ensures fixed32 { DecodesBack fixed32 (λ value. value < 2 ^ 32) }
    ensures fixed64 { DecodesBack fixed64 (λ value. value < 2 ^ 64) }
    ensures sfixed32 { DecodesBack sfixed32 (FitsSigned w32) }
    ensures sfixed64 { DecodesBack sfixed64 (FitsSigned w64) }
{}

/// A value stands at the front of the text that is written for it, whatever follows, for every
/// value of each type.
pub fn texts_read_back()
    ensures int32 { TextReadsBack IsSpelling shortest_varint int32 (FitsSigned w32) }
    ensures int64 { TextReadsBack IsSpelling shortest_varint int64 (FitsSigned w64) }
    ensures uint32 { TextReadsBack IsSpelling shortest_varint uint32 (λ value. value < 2 ^ 32) }
    ensures uint64 { TextReadsBack IsSpelling shortest_varint uint64 (λ value. value < 2 ^ 64) }
    ensures sint32 { TextReadsBack IsSpelling shortest_varint sint32 (FitsSigned w32) }
    ensures sint64 { TextReadsBack IsSpelling shortest_varint sint64 (FitsSigned w64) }
    ensures bool { TextReadsBack IsSpelling shortest_varint bool (λ _. Unit {0}) }
    ensures fixed32 { TextReadsBack (IsFixed w32) (to_le_bytes w32) fixed32
        (λ value. value < 2 ^ 32) }
    ensures fixed64 { TextReadsBack (IsFixed w64) (to_le_bytes w64) fixed64
        (λ value. value < 2 ^ 64) }
    ensures sfixed32 { TextReadsBack (IsFixed w32) (to_le_bytes w32) sfixed32 (FitsSigned w32) }
    ensures sfixed64 { TextReadsBack (IsFixed w64) (to_le_bytes w64) sfixed64 (FitsSigned w64) }
{
    wire_base::laws::shortest_reads_back();
    values_read_back();
}

/// A payload of varints has as many elements as `count_varints` counts.
pub fn varints_are_counted()
    ensures { VarintsAreCounted }
{}

/// A payload of elements of a fixed width has as many bytes as they have together.
pub fn fixed_are_multiples()
    ensures { FixedAreMultiples }
{}

/// A payload is one list of varints at most: its numbers are determined.
pub fn one_packed_list()
    ensures { OnePackedList }
{
    wire_base::laws::one_varint();
}

/// A payload that is a list of varints has no fault.
pub fn no_packed_list_beside_fault()
    ensures { NoPackedListBesideFault }
{
    wire_base::laws::one_varint();
    wire_base::laws::no_varint_beside_fault();
}

/// A payload has one fault of a list of varints at most, behind the same numbers.
pub fn one_packed_fault()
    ensures { OnePackedFault }
{
    wire_base::laws::one_varint();
    wire_base::laws::no_varint_beside_fault();
    wire_base::laws::one_varint_fault();
}

/// Every payload is a list of varints or has a fault.
pub fn packed_list_or_fault()
    ensures { PackedListOrFaultStands }
{
    wire_base::laws::varint_or_fault();
}
