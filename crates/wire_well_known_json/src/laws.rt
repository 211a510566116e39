//! Laws of field masks and of values: each function is a theorem, and does nothing.
ghost use Rattle.wire_well_known_json.specs.Laws.{MasksHaveTexts};
ghost use Rattle.wire_well_known_json.specs.StructLaws.{ListsOfValuesComeBack, TextsAreOneValue, ValueFieldsAreParts, ValuesAreReadBack};

/// Which paths have a text, and which it is: each is not empty, and has no comma, no capital of
/// ASCII, and a small letter of ASCII behind each underscore.
pub fn masks_have_texts()
    ensures { MasksHaveTexts }
{}

/// The text of a `Value`, a `ListValue` or a `Struct` is read as it, at just as many levels as
/// lists and structs stand in one another in it, or more.
pub fn values_are_read_back()
    ensures { ValuesAreReadBack }
{}

/// A text is read as one `Value` at most.
pub fn texts_are_one_value()
    ensures { TextsAreOneValue }
{}

/// A field of the type `Value` is a part of a message type, as those of other types are.
pub fn value_fields_are_parts()
    ensures { ValueFieldsAreParts }
{}

/// A list of values is read back, `null` among them or not.
pub fn lists_of_values_come_back()
    ensures { ListsOfValuesComeBack }
{}
