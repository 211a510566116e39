//! What the syntax or the edition of a file leaves to its parts, as fields of a `FeatureSet`.
use crate::error::GenerateError;
use crate::words::Words;
use wire_descriptor::{FeatureSet, FieldDescriptorProto, FileDescriptorProto};

/// The editions that are known: proto2, and that of 2023.
pub const FIRST_EDITION: i32 = 998;

pub const LAST_EDITION: i32 = 1000;

const EDITION_2023: i32 = 1000;

// Values of the features.
const EXPLICIT: i32 = 1;

const IMPLICIT: i32 = 2;

const LEGACY_REQUIRED: i32 = 3;

const OPEN: i32 = 1;

const CLOSED: i32 = 2;

const PACKED: i32 = 1;

const EXPANDED: i32 = 2;

const VERIFY: i32 = 2;

const NONE: i32 = 3;

// (of proto2, where strings may be any bytes: they are taken as texts, or as bytes where that is
// asked for)
const UNTOLD: i32 = 1;

const LENGTH_PREFIXED: i32 = 1;

const DELIMITED: i32 = 2;

const ALLOW: i32 = 1;

const LABEL_REQUIRED: i32 = 2;

/// The features of a part of a file.
#[derive(Clone, Copy)]
pub struct Features {
    presence: i32,
    enum_type: i32,
    repeated: i32,
    encoding: i32,
    strings: i32,
}

impl Features {
    /// Those of a file.
    pub(crate) fn of_file(
        file: &FileDescriptorProto,
        words: &mut Words,
    ) -> Result<Features, GenerateError> {
        let of_syntax = match file.syntax_.as_str() {
            "" | "proto2" => Features {
                strings: UNTOLD,
                ..Features::of(EXPLICIT, CLOSED, EXPANDED)
            },
            "proto3" => Features::of(IMPLICIT, OPEN, PACKED),
            "editions" if file.edition == EDITION_2023 => Features::of(EXPLICIT, OPEN, PACKED),
            _ => return Err(words.refused("$file$: no syntax or edition that is known")),
        };
        match &file.options {
            Some(options) => of_syntax.with(options.features.as_deref(), words),
            None => Ok(of_syntax),
        }
    }

    fn of(presence: i32, enum_type: i32, repeated: i32) -> Features {
        Features {
            presence,
            enum_type,
            repeated,
            encoding: LENGTH_PREFIXED,
            strings: VERIFY,
        }
    }

    /// The same but for what a part says itself.
    pub(crate) fn with(
        self,
        set: Option<&FeatureSet>,
        words: &mut Words,
    ) -> Result<Features, GenerateError> {
        let Some(set) = set else {
            return Ok(self);
        };
        if !matches!(set.utf8_validation, 0 | VERIFY | NONE) {
            return Err(words.refused("$full$: the feature utf8_validation is not known"));
        }
        if !matches!(set.json_format, 0 | ALLOW) {
            return Err(words.refused("$full$: the feature json_format is not known"));
        }
        Ok(Features {
            presence: or_else(set.field_presence, self.presence),
            enum_type: or_else(set.enum_type, self.enum_type),
            repeated: or_else(set.repeated_field_encoding, self.repeated),
            encoding: or_else(set.message_encoding, self.encoding),
            strings: or_else(set.utf8_validation, self.strings),
        })
    }

    /// The same with messages behind their length.
    pub(crate) fn prefixed(self) -> Features {
        Features {
            encoding: LENGTH_PREFIXED,
            ..self
        }
    }

    /// The same with numbers and texts that are there only where they are none that is the default.
    pub(crate) fn with_implicit_presence(self) -> Features {
        Features {
            presence: IMPLICIT,
            ..self
        }
    }

    /// The same with open enums.
    pub(crate) fn with_open_enums(self) -> Features {
        Features {
            enum_type: OPEN,
            ..self
        }
    }

    /// Whether a number or a text is there only where it is none that is the default.
    pub(crate) fn is_implicit(self) -> bool {
        self.presence == IMPLICIT
    }

    pub fn is_closed(self) -> bool {
        self.enum_type == CLOSED
    }

    pub(crate) fn is_packed(self) -> bool {
        self.repeated == PACKED
    }

    pub(crate) fn is_delimited(self) -> bool {
        self.encoding == DELIMITED
    }

    /// Whether strings may be any bytes.
    pub(crate) fn is_unchecked(self) -> bool {
        self.strings != VERIFY
    }

    /// Whether it is told that they may.
    pub(crate) fn is_told_unchecked(self) -> bool {
        self.strings == NONE
    }
}

/// Whether a field is to be there: of proto2 by its label, of an edition by its own feature.
pub(crate) fn is_required(field: &FieldDescriptorProto) -> bool {
    let set = match &field.options {
        Some(options) => options.features.as_deref(),
        None => None,
    };
    let is_legacy = match set {
        Some(set) => set.field_presence == LEGACY_REQUIRED,
        None => false,
    };
    field.label == LABEL_REQUIRED || is_legacy
}

// What a set says, where it says something.
fn or_else(said: i32, otherwise: i32) -> i32 {
    if said == 0 { otherwise } else { said }
}
