//! Message types with required fields, and the calls that refuse a message that lacks one.
ghost use Rattle.std.specs.Prelude.{◌≡◌, ◌<◌, ◌≤◌, None, length, OnOk, IfOk, IfErr, IsErrAnd};
ghost use Rattle.wire_codec.specs.DecodeError.TheVariants.{MessageTooLarge};
ghost use Rattle.wire_codec.specs.Options.{default_limits, limits_of};
ghost use Rattle.wire_codec.specs.Taking.{Decodes};
ghost use Rattle.wire_required.specs.Missing.{Missing};
ghost use Rattle.wire_required.specs.Parsing.{ParseIsRefused, IsIncomplete};
ghost use Rattle.wire_required.specs.declared.error.ParseError.TheVariants.{Decode};

use crate::error::ParseError;
use crate::path::FieldPath;
use std::alloc::{AllocError, Global};
use wire_codec::{DecodeOptions, Message};

/// A message type that has required fields, or holds messages of a type that has. See "Required" of
/// the language's documents. `Parse` has the calls that decode such a message.
pub trait Required {
    /// What contracts see of a value, which is what they see of the message.
    ghost Seen: { Type 0 };

    ghost seen: { Self → Seen };

    /// The path to the first required field that a value lacks, or none.
    ghost missing: { Seen → Missing };

    /// The path to the first required field that is not there: fields come in the order of their
    /// numbers, and what a field holds comes where the field does; elements come in order, and
    /// entries of a map in that of their keys. Extensions and other unknown fields are not looked
    /// into. Refused where memory runs out, of which nothing is taken where nothing is missing.
    fn missing(&self, alloc: Global) -> Result<Option<FieldPath>, AllocError>
        ensures { IfOk result (λ path. path ≡ missing (seen self.now)) };
}

/// The calls that decode a message and refuse one that lacks a required field, of every message type
/// that is `Required`. The calls of `Message` look at no such field, and take what these refuse.
pub trait Parse: Message + Required {
    /// The message of the records of all the bytes, which lacks nothing, within the limits of
    /// `decode`. Refused as `decode_from_slice`, or with the first required field that is not
    /// there.
    final fn parse_from_slice(alloc: Global, bytes: &[u8]) -> Result<Self, ParseError>
        ensures decoded { IfOk result (λ message. Decodes Self.takes default_limits Self.default
            bytes.now (Self.view message)) }
        ensures complete { IfOk result (λ message. Self.missing (Self.seen message) ≡ None) }
        ensures err { IfErr result (ParseIsRefused Self.takes default_limits Self.default Self.view
            (λ message. Self.missing (Self.seen message)) bytes.now) }
    {
        let message = Self::decode_from_slice(alloc, bytes)?;
        message.initialized(alloc)
    }

    /// The same within the limits of the options. An input that is too long is `MessageTooLarge`.
    final fn parse_with(
        options: &DecodeOptions,
        alloc: Global,
        bytes: &[u8],
    ) -> Result<Self, ParseError>
        ensures within { OnOk result (length bytes.now ≤ options.now.max_message_size) }
        ensures decoded { IfOk result (λ message. Decodes Self.takes (limits_of options.now)
            Self.default bytes.now (Self.view message)) }
        ensures complete { IfOk result (λ message. Self.missing (Self.seen message) ≡ None) }
        ensures too_large { options.now.max_message_size < length bytes.now
            → IsErrAnd result (λ e. e ≡ Decode MessageTooLarge) }
        ensures err { length bytes.now ≤ options.now.max_message_size → IfErr result
            (ParseIsRefused Self.takes (limits_of options.now) Self.default Self.view
            (λ message. Self.missing (Self.seen message)) bytes.now) }
    {
        let message = options.decode_from_slice::<Self>(alloc, bytes)?;
        message.initialized(alloc)
    }

    /// The message itself where it lacks nothing, as any other call decodes it. Refused else with
    /// the first required field that is not there, or where memory runs out.
    final fn initialized(self, alloc: Global) -> Result<Self, ParseError>
        ensures same { IfOk result (λ message. message ≡ self) }
        ensures complete { OnOk result (Self.missing (Self.seen self) ≡ None) }
        ensures err { IfErr result (IsIncomplete (Self.missing (Self.seen self))) }
    {
        match self.missing(alloc)? {
            Some(path) => Err(ParseError::MissingRequiredField(path)),
            None => Ok(self),
        }
    }
}

impl<M: Message + Required> Parse for M {}
