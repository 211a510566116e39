//! What the syntax or the edition of a file leaves to its parts, as fields of a `FeatureSet`.
ghost use Rattle.std.specs.Prelude.{◌≡◌};
ghost use Rattle.wire_dynamic.specs.Features.{features_but_for, features_with, file_features, is_checked, is_closed, is_delimited, is_legacy_required, length_prefixed_features, said_or, prefixed, syntax_features};

use wire_descriptor::{FeatureSet, FileDescriptorProto};

const EDITION_2023: i32 = 1000;

/// The features of a part of a file that say how records are read and shown, as numbers: those of
/// the fields of a `FeatureSet`, none of them 0.
#[derive(Clone, Copy, Debug)]
pub struct Features {
    pub presence: i32,
    pub enum_type: i32,
    pub strings: i32,
    pub encoding: i32,
}

const EXPLICIT: i32 = 1;

const IMPLICIT: i32 = 2;

const LEGACY_REQUIRED: i32 = 3;

const OPEN: i32 = 1;

const CLOSED: i32 = 2;

const VERIFY: i32 = 2;

const NONE: i32 = 3;

const LENGTH_PREFIXED: i32 = 1;

const DELIMITED: i32 = 2;

impl Features {
    /// Those of a file, if its syntax or its edition is known.
    pub(crate) fn of_file(file: &FileDescriptorProto) -> Option<Features>
        ensures { result ≡ file_features file.now }
    {
        let of_syntax = Features::of_syntax(&file.syntax_, file.edition)?;
        Some(match &file.options {
            Some(options) => of_syntax.with(&options.features),
            None => of_syntax,
        })
    }

    // Those of a syntax, or of an edition.
    fn of_syntax(syntax: &str, edition: i32) -> Option<Features>
        ensures { result ≡ syntax_features syntax.now edition }
    {
        if syntax.is_empty() || syntax == "proto2" {
            return Some(Features::new(EXPLICIT, CLOSED, NONE));
        }
        if syntax == "proto3" {
            return Some(Features::new(IMPLICIT, OPEN, VERIFY));
        }
        if syntax == "editions" && edition == EDITION_2023 {
            return Some(Features::new(EXPLICIT, OPEN, VERIFY));
        }
        None
    }

    fn new(presence: i32, enum_type: i32, strings: i32) -> Features
        ensures { result ≡ length_prefixed_features presence enum_type strings }
    {
        Features {
            presence,
            enum_type,
            strings,
            encoding: LENGTH_PREFIXED,
        }
    }

    /// The same but for what a part says itself.
    pub(crate) fn with(self, set: &Option<Box<FeatureSet>>) -> Features
        ensures { result ≡ features_with self set.now }
    {
        match set {
            Some(set) => self.but_for(set),
            None => self,
        }
    }

    /// The same with messages behind their length.
    pub(crate) fn prefixed(self) -> Features
        ensures { result ≡ prefixed self }
    {
        Features {
            encoding: LENGTH_PREFIXED,
            ..self
        }
    }

    // The same but for what a set says.
    fn but_for(self, set: &FeatureSet) -> Features
        ensures { result ≡ features_but_for self set.now }
    {
        Features {
            presence: or_else(set.field_presence, self.presence),
            enum_type: or_else(set.enum_type, self.enum_type),
            strings: or_else(set.utf8_validation, self.strings),
            encoding: or_else(set.message_encoding, self.encoding),
        }
    }

    /// Whether a field is to be there.
    pub(crate) fn is_required(self) -> bool
        ensures { result ≡ is_legacy_required self }
    {
        self.presence == LEGACY_REQUIRED
    }

    /// Whether an enum has no other numbers than those of its values.
    pub(crate) fn is_closed(self) -> bool
        ensures { result ≡ is_closed self }
    {
        self.enum_type == CLOSED
    }

    /// Whether strings are to be UTF-8.
    pub(crate) fn is_checked(self) -> bool
        ensures { result ≡ is_checked self }
    {
        self.strings == VERIFY
    }

    /// Whether messages are groups.
    pub(crate) fn is_delimited(self) -> bool
        ensures { result ≡ is_delimited self }
    {
        self.encoding == DELIMITED
    }
}

// What a set says, where it says something.
fn or_else(said: i32, otherwise: i32) -> i32
    ensures { result ≡ said_or said otherwise }
{
    if said == 0 { otherwise } else { said }
}
