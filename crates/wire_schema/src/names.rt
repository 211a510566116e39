//! Names: those of a schema as code has them.
use crate::error::GenerateError;
use std::alloc::Global;

// Words of the language, of clauses, and of what stands in each generated module. A field or a
// module of such a name has an underscore behind it.
const WORDS: &str = "abbrev abstract as assumption async await become box break bytes const \
    continue core crate data do dyn elim else ensures enum extensions extern false final fn for \
    ghost ground if impl in instance laws let lib loop macro main match mod module move mut \
    opaque open override priv pub record ref requires return rw self specs static std struct \
    super syntax then trait true try type typeof unknown unsafe unsized use virtual where while \
    wire_codec wire_fields wire_views yield";

// Names of types that each generated module has, or that the language does. A message, an enum or
// its value of such a name has an underscore behind it.
const TYPES: &str = "AllocError Always AlwaysEmbedded AlwaysEmbeddedIn AlwaysGroupIn AlwaysIn \
    BTreeMap Blob Bool Box Buf BytesIn Charge Clone CopiedIn Copy Debug DecodeContext DecodeError \
    Double DoubleBits Drop EachEmbedded EachEmbeddedIn EachGroup EachGroupIn Embedded EmbeddedIn \
    EmbeddedMapIn EncodeError EncodeSink Enum EnumValue Enumeration Eq Err FamilyHeld FamilySlice \
    FieldKind Fields Fixed32 Fixed64 FixedIn FixedList Float FloatBits Global Grounds Group \
    GroupIn Hash Implicit ImplicitIn Int32 Int64 Kind Known Lawful Leaving Lib List Map MapIn \
    Message MessageView None NumberIn Ok Option Optional OptionalIn Packed PackedIn PartialEq \
    Payload PhantomData Plain Range Records Repeated RepeatedIn Rest Result Returned Self Sfixed32 \
    Sfixed64 Shape Sint32 Sint64 Size SizeCache Some Step String Tag Text TextIn Twin Type Uint32 \
    Uint64 UnknownFields UnknownSpan Unpacked UnpackedIn Variants Vec ViewKind";

// Names of types that some generated modules bring in, and type parameters of what is written. A
// message, an enum or a oneof of such a name has an underscore behind it.
const BROUGHT_IN: &str = "Alone AlwaysGroup B Beside ClosedMapIn Dropped Extension FamilyView \
    FieldPath LeafBeside MessageFields MessageName Missing Needed NeededValue OwnTypes Parts \
    Place RecursiveAlone RecursiveHeld RecursiveMember RecursiveSlice RecursiveView Required \
    RequiredAlone RequiredMember RequiredSlice Requirement RowRequirement S Spot Varint WireType \
    WrittenKind WrittenView";

// Modules of each crate whose names are no words, so that fields may have them.
const MODULES: &str = "services";

/// Whether a crate can have this name.
pub(crate) fn is_crate_name(name: &str) -> bool {
    let has_digit_first = name.starts_with(|it: char| it.is_ascii_digit());
    let are_signs = name
        .chars()
        .all(|it| it.is_ascii_alphanumeric() || it == '_');
    are_signs && !has_digit_first && !WORDS.split(' ').any(|it| it == name)
}

/// The name of a type, `OuterInner` of `Outer.Inner`; one that ends as the pages of proofs do,
/// `ReportStays`, has an underscore behind it.
pub(crate) fn type_name(alloc: Global, name: &str) -> Result<String, GenerateError> {
    let mut name = escaped(variant_name(alloc, name)?, BROUGHT_IN)?;
    if name.to_ascii_lowercase(alloc)?.ends_with("stays") {
        name.push('_')?;
    }
    Ok(name)
}

/// The module of a type of this name.
pub(crate) fn module_name(alloc: Global, name: &str) -> Result<String, GenerateError> {
    escaped(word_name(alloc, name)?, MODULES)
}

/// A name of capitals, `OuterInner` of `Outer.Inner` and of `outer_inner`, as that of a field of a
/// oneof.
pub fn variant_name(alloc: Global, name: &str) -> Result<String, GenerateError> {
    let mut text = String::new(alloc);
    let mut begins = true;
    for letter in name.chars() {
        if letter == '_' || letter == '.' {
            begins = true;
        } else if begins {
            text.push(letter.to_ascii_uppercase())?;
            begins = false;
        } else {
            text.push(letter)?;
        }
    }
    escaped(begun(alloc, text)?, TYPES)
}

/// The name of a value of an enum, `VeryHigh` of `VERY_HIGH`.
pub(crate) fn value_name(alloc: Global, name: &str) -> Result<String, GenerateError> {
    let mut text = String::new(alloc);
    let mut begins = true;
    for letter in name.chars() {
        if letter == '_' {
            begins = true;
        } else if begins {
            text.push(letter.to_ascii_uppercase())?;
            begins = false;
        } else {
            text.push(letter.to_ascii_lowercase())?;
        }
    }
    escaped(begun(alloc, text)?, TYPES)
}

/// The name of a constant, `VERY_HIGH` of `very_high`.
pub fn constant_name(alloc: Global, name: &str) -> Result<String, GenerateError> {
    let mut text = String::new(alloc);
    for letter in begin(&mut text, name, 'X')?.chars() {
        text.push(letter.to_ascii_uppercase())?;
    }
    Ok(text)
}

/// A name of small letters, `outer_inner` of `OuterInner`; one of underscores alone has an `x` before
/// them, and another one of those that it begins with.
pub fn word_name(alloc: Global, name: &str) -> Result<String, GenerateError> {
    let mut text = String::new(alloc);
    let mut was_small = false;
    for letter in begin(&mut text, name, 'x')?.chars() {
        if letter.is_ascii_uppercase() && was_small {
            text.push('_')?;
        }
        was_small = !letter.is_ascii_uppercase() && letter != '_';
        text.push(letter.to_ascii_lowercase())?;
    }
    escaped(text, WORDS)
}

/// The name, or where others have it, with an underscore and a number behind it: the first that none
/// of them has, from 2 on.
pub fn apart(alloc: Global, name: String, others: &[String]) -> Result<String, GenerateError> {
    if !others.contains(&name) {
        return Ok(name);
    }
    for number in 2..others.len().saturating_add(3) {
        let mut further = name.clone()?;
        further.push('_')?;
        further.push_str(&number.to_string(alloc)?)?;
        if !others.contains(&further) {
            return Ok(further);
        }
    }
    Ok(name)
}

// Begins a name, and answers what goes on: what begins with two underscores is of a macro.
fn begin<'a>(text: &mut String, name: &'a str, before: char) -> Result<&'a str, GenerateError> {
    let letters = name.trim_start_matches('_');
    if letters.is_empty() {
        text.push(before)?;
        return Ok(name);
    }
    if letters.len() < name.len() {
        text.push('_')?;
    }
    Ok(letters)
}

// A name of capitals that no letter begins has an `X` before it.
fn begun(alloc: Global, text: String) -> Result<String, GenerateError> {
    if text.starts_with(|it: char| it.is_ascii_alphabetic()) {
        return Ok(text);
    }
    let mut name = String::from_str(alloc, "X")?;
    name.push_str(&text)?;
    Ok(name)
}

/// A name of a type that is made of others, with an underscore behind it where it is taken.
pub(crate) fn free_name(name: String) -> Result<String, GenerateError> {
    escaped(escaped(name, TYPES)?, BROUGHT_IN)
}

// A name that is taken has an underscore behind it.
fn escaped(mut name: String, taken: &str) -> Result<String, GenerateError> {
    if taken.split(' ').any(|it| it == name.as_str()) {
        name.push('_')?;
    }
    Ok(name)
}

/// A text for a name, so that the order of the texts is that of the names in the formatter's lists:
/// by their letters, with `_` before all others, and numbers by their values.
pub fn order_key(alloc: Global, name: &str) -> Result<String, GenerateError> {
    let mut key = String::new(alloc);
    let mut number = String::new(alloc);
    for letter in name.chars() {
        if letter.is_ascii_digit() {
            if number.as_str() == "0" {
                number.clear();
            }
            number.push(letter)?;
        } else {
            put_number(alloc, &mut number, &mut key)?;
            key.push(if letter == '_' { '!' } else { letter })?;
        }
    }
    put_number(alloc, &mut number, &mut key)?;
    Ok(key)
}

// Moves the digits of a number behind the key, and behind their count.
fn put_number(alloc: Global, number: &mut String, key: &mut String) -> Result<(), GenerateError> {
    if number.is_empty() {
        return Ok(());
    }
    key.push_str(&number.len().to_string(alloc)?)?;
    key.push_str(number)?;
    number.clear();
    Ok(())
}
