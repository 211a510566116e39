//! Laws of the definitions that the contracts cite: each function is a theorem, and does nothing.
ghost use Rattle.wire_json.specs.Laws.{OneValue, SpellsOne, NoValueBesideFault, NoTextBesideFault, OneValueFault, OneTextFault, WrittenReadsBack, WrittenSpells};

/// Of the same bytes one value is read, and one rest is left.
pub fn one_value()
    ensures { OneValue }
{}

/// A text spells one value at most.
pub fn one_reading()
    ensures { SpellsOne }
{}

/// Where a fault stands no value is read that nests so deep.
pub fn no_value_beside_fault()
    ensures { NoValueBesideFault }
{}

/// A text with a fault spells no value that nests so deep.
pub fn no_text_beside_fault()
    ensures { NoTextBesideFault }
{}

/// The same bytes have one fault of a value that nests so deep, at most: what is wrong, and the
/// bytes left at it.
pub fn one_value_fault()
    ensures { OneValueFault }
{}

/// A text has one fault at most.
pub fn one_text_fault()
    ensures { OneTextFault }
{}

/// The compact text of a lawful value is read as that value, whatever follows, where that goes on
/// no number.
pub fn written_reads_back()
    ensures { WrittenReadsBack }
{}

/// The compact text of a lawful value spells it.
pub fn written_spells()
    ensures { WrittenSpells }
{}
