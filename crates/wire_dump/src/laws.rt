//! Laws of what is printed: each function is a theorem, and does nothing.
ghost use Rattle.wire_dump.specs.Laws.{OneDump, OneShortened};

use wire_base::laws as grammar;

/// Behind the same bytes, what is put of an input in one layout is one text.
pub fn one_dump()
    ensures { OneDump }
{
    grammar::one_tag();
    grammar::one_payload();
    grammar::one_spelled();
}

/// The records of bytes have one shortest text.
pub fn one_shortened()
    ensures { OneShortened }
{
    grammar::one_spelled();
}
