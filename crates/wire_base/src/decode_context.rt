//! What a decoder may still take: levels of nesting, unknown fields and their bytes, and bytes for
//! elements.
ghost use Rattle.std.specs.Prelude.{◌≡◌, ℕ, ◌-◌, ◌^◌, ◌<◌, Some, OnOk, OnErr, IfErr};
ghost use Rattle.wire_base.specs.declared.error.DecodeError.TheVariants.{RecursionLimitExceeded, UnknownFieldLimitExceeded, ElementMemoryLimitExceeded};
ghost use Rattle.wire_base.specs.Limits.{Fits, counted, with_elements, with_unknown_bytes, one_field, bytes_charge, element_of, left_after, inner, outer};

use crate::error::DecodeError;
use std::marker::Model;

/// How many groups or messages may stand in one another, the outermost message not counted, where a
/// caller names no limit.
pub const RECURSION_LIMIT: u32 = 100;

/// How many unknown fields are kept, where a caller names no limit.
pub const DEFAULT_UNKNOWN_FIELD_LIMIT: usize = 1_000_000;

/// The limits that are left while bytes are decoded. It is handed on by `&mut`, so that counts that
/// are taken inside a message are gone for what follows it. A contract sees the limits.
#[derive(Debug, Drop)]
pub struct DecodeContext {
    depth: u32,
    unknown_fields: usize,
    element_memory: Option<usize>,
    unknown_bytes: Option<usize>,
}

impl Model for DecodeContext {
    ghost use Rattle.std.specs.Prelude.{Some};
    ghost use Rattle.wire_base.specs.Limits.{Limits};

    ghost Value = { Limits };

    ghost view = { λ c. record {
      depth = c.depth;
      counts = record {
        unknown_fields = Some c.unknown_fields;
        element_memory = c.element_memory;
        unknown_bytes = c.unknown_bytes;
      };
    } };
}

impl DecodeContext {
    /// So many levels of nesting and so many unknown fields, and no limit on bytes for elements or
    /// on the bytes of unknown fields.
    pub fn new(depth: u32, unknown_fields: usize) -> DecodeContext
        ensures { result ≡ counted depth unknown_fields }
    {
        DecodeContext {
            depth,
            unknown_fields,
            element_memory: None,
            unknown_bytes: None,
        }
    }

    /// The same limits, with so many bytes for the elements that message types charge.
    pub fn with_element_memory(self, bytes: usize) -> DecodeContext
        ensures { result ≡ with_elements self bytes }
    {
        DecodeContext {
            element_memory: Some(bytes),
            ..self
        }
    }

    /// The same limits, with so many bytes for the length-delimited payloads of unknown fields,
    /// those in groups too. Their lengths and tags count nothing.
    pub fn with_unknown_bytes(self, bytes: usize) -> DecodeContext
        ensures { result ≡ with_unknown_bytes self bytes }
    {
        DecodeContext {
            unknown_bytes: Some(bytes),
            ..self
        }
    }

    /// The levels that are left.
    pub fn depth(&self) -> u32
        ensures { result ≡ self.now.depth }
    {
        self.depth
    }

    /// The unknown fields that may still be kept.
    pub fn remaining_unknown_fields(&self) -> usize
        ensures { self.now.counts.unknown_fields ≡ Some result }
    {
        self.unknown_fields
    }

    /// The bytes that elements may still take, where there is a limit.
    pub fn remaining_element_memory(&self) -> Option<usize>
        ensures { result ≡ self.now.counts.element_memory }
    {
        self.element_memory
    }

    /// The bytes that the payloads of unknown fields may still be, where there is a limit.
    pub fn remaining_unknown_bytes(&self) -> Option<usize>
        ensures { result ≡ self.now.counts.unknown_bytes }
    {
        self.unknown_bytes
    }

    /// Takes one level, or answers `RecursionLimitExceeded` where none is left.
    pub fn descend(&mut self) -> Result<(), DecodeError>
        ensures ok { OnOk result (self.new ≡ inner self.old) }
        ensures taken { OnOk result (0 < self.old.depth) }
        ensures room { OnOk result (self.new.depth < 2 ^ 32 - 1) }
        ensures err { IfErr result (λ e. e ≡ RecursionLimitExceeded) }
        ensures none_left { OnErr result (self.old.depth ≡ 0) }
        ensures unchanged { OnErr result (self.new ≡ self.old) }
    {
        if self.depth == 0 {
            return Err(DecodeError::RecursionLimitExceeded);
        }
        self.depth -= 1;
        Ok(())
    }

    /// Gives one level back, to a context with fewer than `u32::MAX`, as one has after `descend`.
    pub fn ascend(&mut self)
        requires { self.old.depth < 2 ^ 32 - 1 }
        ensures { self.new ≡ outer self.old }
    {
        self.depth += 1;
    }

    /// Takes the slot of one unknown field, or answers `UnknownFieldLimitExceeded` where none is
    /// left.
    pub fn register_unknown_field(&mut self) -> Result<(), DecodeError>
        ensures ok { OnOk result (self.new ≡ left_after self.old one_field) }
        ensures taken { OnOk result (Fits one_field self.old) }
        ensures err { IfErr result (λ e. e ≡ UnknownFieldLimitExceeded) }
        ensures none_left { OnErr result (¬ Fits one_field self.old) }
        ensures unchanged { OnErr result (self.new ≡ self.old) }
    {
        if self.unknown_fields == 0 {
            return Err(DecodeError::UnknownFieldLimitExceeded);
        }
        self.unknown_fields -= 1;
        Ok(())
    }

    /// Takes so many bytes for the payload of an unknown field, or answers
    /// `UnknownFieldLimitExceeded` where fewer are left. Without a limit nothing changes.
    #[inline(always)]
    pub fn register_unknown_bytes(&mut self, bytes: usize) -> Result<(), DecodeError>
        ensures ok { OnOk result (self.new ≡ left_after self.old (bytes_charge bytes)) }
        ensures taken { OnOk result (Fits (bytes_charge bytes) self.old) }
        ensures err { IfErr result (λ e. e ≡ UnknownFieldLimitExceeded) }
        ensures none_left { OnErr result (¬ Fits (bytes_charge bytes) self.old) }
        ensures unchanged { OnErr result (self.new ≡ self.old) }
    {
        if let Some(left) = self.unknown_bytes {
            if left < bytes {
                return Err(DecodeError::UnknownFieldLimitExceeded);
            }
            self.unknown_bytes = Some(left - bytes);
        }
        Ok(())
    }

    /// Takes so many bytes for an element, or answers `ElementMemoryLimitExceeded` where fewer are
    /// left. Without a limit nothing changes.
    pub fn register_element_memory(&mut self, bytes: usize) -> Result<(), DecodeError>
        ensures ok { OnOk result (self.new ≡ left_after self.old (element_of bytes)) }
        ensures taken { OnOk result (Fits (element_of bytes) self.old) }
        ensures err { IfErr result (λ e. e ≡ ElementMemoryLimitExceeded) }
        ensures none_left { OnErr result (¬ Fits (element_of bytes) self.old) }
        ensures unchanged { OnErr result (self.new ≡ self.old) }
    {
        if let Some(left) = self.element_memory {
            if left < bytes {
                return Err(DecodeError::ElementMemoryLimitExceeded);
            }
            self.element_memory = Some(left - bytes);
        }
        Ok(())
    }
}
