//! Records whose field numbers a message type does not know, kept in their order.
ghost use Rattle.std.specs.Prelude.{◌≡◌, ◌↔◌, IsTrue, OnOk, OnErr, IfErr};
ghost use Rattle.std.specs.Slice.Iter.{iter_rest};
ghost use Rattle.wire_base.specs.Field.{none, push, count_top};

use std::alloc::Global;
use std::marker::Model;
use std::{slice, vec};

mod compare;
mod decode;
mod size;
mod write;

pub use decode::decode_unknown_field;

/// Records in the order in which they came. A contract sees a value as its records. What goes over
/// a value, its clone and drop too, recurses as deep as its groups nest. See "Message Structure" of
/// the encoding document.
#[cycle(unknown)]
#[derive(Debug, Drop)]
pub struct UnknownFields {
    fields: Vec<UnknownField>,
}

/// A record: its field number, and its payload. See "Message Structure" of the encoding document.
///
/// The number is any `u32`; decoding gives one from 1 to `MAX_FIELD_NUMBER`.
#[cycle(unknown)]
#[derive(Debug, Drop)]
pub struct UnknownField {
    pub number: u32,
    pub value: UnknownFieldData,
}

/// What a record has behind its tag.
#[cycle(unknown)]
#[derive(Debug, Drop)]
pub enum UnknownFieldData {
    Varint(u64),
    Fixed64(u64),
    Fixed32(u32),
    LengthDelimited(Vec<u8>),
    Group(UnknownFields),
}

impl Model for UnknownFields {
    ghost use Rattle.wire_base.specs.Field.{Fields};
    ghost use Rattle.wire_base.specs.FieldsCode.{fields_code};

    ghost Value = { Fields };

    ghost coded = { fields_code };

    ghost use Rattle.wire_base.specs.UnknownFields.{fields_of};

    ghost view = { λ s. fields_of s.fields.items };

    ghost use Rattle.wire_base.specs.InRange.{AreFitting};

    ghost invariant = { λ s. AreFitting (fields_of s.fields.items) };

    ghost use Rattle.wire_base.specs.Charge.{count};

    ghost size = { count };

    ghost use Rattle.std.proofs.Common.{arith};
    ghost use Rattle.wire_base.specs.UnknownFieldsSize.{most_le-count};

    ghost size_decreases = { λ a h. omega (arith, most_le-count a.fields.items) };
}

impl UnknownFields {
    ghost use Rattle.std.specs.Fn.{CalledAt};
    ghost use Rattle.std.specs.List.Retain.{IsFiltered};
    ghost use Rattle.wire_base.specs.Filtered.{KeptBy};
    ghost use Rattle.wire_base.specs.InRange.{AreFitting, AreNumbered};
    ghost use Rattle.wire_base.specs.UnknownFields.{payload_of, fields_of};

    /// No fields. Nothing is allocated before the first push.
    pub fn new(alloc: Global) -> UnknownFields
        ensures { result ≡ none }
    {
        UnknownFields {
            fields: Vec::new(alloc),
        }
    }

    /// Whether there is no record.
    pub fn is_empty(&self) -> bool
        ensures { IsTrue result ↔ (self.now ≡ none) }
    {
        self.fields.is_empty()
    }

    /// How many records there are, those nested in groups left out.
    pub fn len(&self) -> usize
        ensures { result ≡ count_top self.now }
    {
        self.fields.len()
    }

    /// Adds a record at the end. Where there is no memory the record comes back, and nothing
    /// changes.
    pub fn push(&mut self, field: UnknownField) -> Result<(), UnknownField>
        ensures ok { OnOk result (self.new ≡ push self.old field.number (payload_of field.value)) }
        ensures err { OnErr result (self.new ≡ self.old) }
        ensures returned { IfErr result (λ given. given ≡ field) }
    {
        field.value.widths_fit();
        match self.fields.push(field) {
            Ok(()) => Ok(()),
            Err(refused) => Err(refused.value),
        }
    }

    /// The records in order.
    pub fn iter(&self) -> slice::Iter<'_, UnknownField>
        ensures { fields_of (iter_rest result) ≡ self.now }
    {
        self.fields.iter()
    }

    /// The numbers and lengths of payloads fit their widths, since the types of Rust hold no
    /// others: a theorem, which does nothing.
    pub fn widths_fit(&self)
        ensures { AreFitting self.now }
    {
        let _fields = &self.fields;
    }

    /// Takes all records out.
    pub fn clear(&mut self)
        ensures { self.new ≡ none }
    {
        self.fields.clear();
    }

    /// Keeps the records, in order, of which the test answers true. It is asked once of each.
    /// Records in groups are not asked: they stay or go with their group.
    pub fn retain<F: Fn(&UnknownField) -> bool + Drop>(&mut self, test: F)
        requires { F.IsAlwaysCallable test }
        ensures kept { KeptBy (IsFiltered (CalledAt F.FnMut) test) self.old self.new }
        ensures numbered { AreNumbered self.old → AreNumbered self.new }
    {
        self.fields.retain(test);
    }
}

impl UnknownFieldData {
    ghost use Rattle.wire_base.specs.InRange.{IsPayloadFitting};
    ghost use Rattle.wire_base.specs.UnknownFields.{payload_of};

    // As `widths_fit` of `UnknownFields`, for one payload.
    fn widths_fit(&self)
        ensures { IsPayloadFitting (payload_of self.now) }
    {
        match self {
            UnknownFieldData::Varint(value) | UnknownFieldData::Fixed64(value) => {
                let _value = *value;
            }
            UnknownFieldData::Fixed32(value) => {
                let _value = *value;
            }
            UnknownFieldData::LengthDelimited(bytes) => {
                let _len = bytes.len();
            }
            UnknownFieldData::Group(fields) => fields.widths_fit(),
        }
    }
}

impl IntoIterator for UnknownFields {
    ghost use Rattle.std.specs.Prelude.{◌≡◌};
    ghost use Rattle.std.specs.Vec.Iter.{into_iter_items};
    ghost use Rattle.wire_base.specs.UnknownFields.{fields_of};

    type Item = UnknownField;

    type IntoIter = vec::IntoIter<UnknownField>;

    ghost into_iter_gives = { λ fields it. fields_of (into_iter_items it) ≡ fields };

    fn into_iter(self) -> vec::IntoIter<UnknownField> {
        let UnknownFields { fields } = self;
        fields.into_iter()
    }
}

impl<'a> IntoIterator for &'a UnknownFields {
    ghost use Rattle.std.specs.Prelude.{◌≡◌};
    ghost use Rattle.std.specs.Slice.Iter.{iter_rest};
    ghost use Rattle.wire_base.specs.UnknownFields.{fields_of};

    type Item = &'a UnknownField;

    type IntoIter = slice::Iter<'a, UnknownField>;

    ghost into_iter_gives = { λ fields it. fields_of (iter_rest it) ≡ fields.now };

    fn into_iter(self) -> slice::Iter<'a, UnknownField> {
        self.iter()
    }
}
