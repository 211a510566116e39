//! Clones, equality and hashes of unknown fields: all go by the records, and not by where they lie.
use super::{UnknownField, UnknownFieldData, UnknownFields};
use std::alloc::AllocError;
use std::hash::{Hash, Hasher};

impl Clone for UnknownFields {
    ghost use Rattle.std.specs.Prelude.{◌≡◌};

    ghost is_clone = { λ fields copy. copy ≡ fields };

    #[cycle(clone)]
    fn clone(&self) -> Result<UnknownFields, AllocError> {
        let mut fields = Vec::with_capacity(*self.fields.allocator(), self.fields.len())?;
        for field in &self.fields {
            fields.push(field.clone()?)?;
        }
        Ok(UnknownFields { fields })
    }
}

impl Clone for UnknownField {
    ghost use Rattle.std.specs.Prelude.{◌≡◌};
    ghost use Rattle.wire_base.specs.UnknownFields.{one_record};

    ghost is_clone = { λ field copy. one_record copy ≡ one_record field };

    #[cycle(clone)]
    fn clone(&self) -> Result<UnknownField, AllocError> {
        Ok(UnknownField {
            number: self.number,
            value: self.value.clone()?,
        })
    }
}

impl Clone for UnknownFieldData {
    ghost use Rattle.std.specs.Prelude.{◌≡◌};
    ghost use Rattle.wire_base.specs.UnknownFields.{payload_of};

    ghost is_clone = { λ value copy. payload_of copy ≡ payload_of value };

    #[cycle(clone)]
    fn clone(&self) -> Result<UnknownFieldData, AllocError> {
        match self {
            UnknownFieldData::Varint(value) => Ok(UnknownFieldData::Varint(*value)),
            UnknownFieldData::Fixed64(value) => Ok(UnknownFieldData::Fixed64(*value)),
            UnknownFieldData::Fixed32(value) => Ok(UnknownFieldData::Fixed32(*value)),
            UnknownFieldData::LengthDelimited(bytes) => {
                Ok(UnknownFieldData::LengthDelimited(bytes.clone()?))
            }
            UnknownFieldData::Group(fields) => Ok(UnknownFieldData::Group(fields.clone()?)),
        }
    }
}

impl PartialEq for UnknownFields {
    ghost use Rattle.wire_base.specs.FieldsEq.{fields_eq};
    ghost use Rattle.wire_base.specs.FieldsEqLaws.{fields_per};

    ghost eq = { fields_eq };

    ghost laws = { fields_per };

    #[cycle(eq)]
    fn eq(&self, other: &UnknownFields) -> bool {
        if self.fields.len() != other.fields.len() {
            return false;
        }
        for index in 0..self.fields.len() {
            if !self.fields[index].eq(&other.fields[index]) {
                return false;
            }
        }
        true
    }
}

impl Eq for UnknownFields {
    ghost use Rattle.wire_base.specs.FieldsEqLaws.{fields_equiv};

    ghost laws = { fields_equiv };
}

impl PartialEq for UnknownField {
    ghost use Rattle.std.specs.Cmp.{on_per};
    ghost use Rattle.wire_base.specs.FieldsEq.{fields_eq};
    ghost use Rattle.wire_base.specs.FieldsEqLaws.{fields_per};
    ghost use Rattle.wire_base.specs.UnknownFields.{one_record};

    ghost eq = { λ a b. fields_eq (one_record a) (one_record b) };

    ghost laws = { on_per one_record fields_per };

    #[cycle(eq)]
    fn eq(&self, other: &UnknownField) -> bool {
        self.number == other.number && self.value.eq(&other.value)
    }
}

impl Eq for UnknownField {
    ghost use Rattle.std.specs.Cmp.{on_equiv};
    ghost use Rattle.wire_base.specs.FieldsEqLaws.{fields_equiv};
    ghost use Rattle.wire_base.specs.UnknownFields.{one_record};

    ghost laws = { on_equiv one_record fields_equiv };
}

impl PartialEq for UnknownFieldData {
    ghost use Rattle.std.specs.Cmp.{on_per};
    ghost use Rattle.wire_base.specs.FieldsEq.{payload_eq};
    ghost use Rattle.wire_base.specs.FieldsEqLaws.{payload_per};
    ghost use Rattle.wire_base.specs.UnknownFields.{payload_of};

    ghost eq = { λ a b. payload_eq (payload_of a) (payload_of b) };

    ghost laws = { on_per payload_of payload_per };

    #[cycle(eq)]
    fn eq(&self, other: &UnknownFieldData) -> bool {
        match (self, other) {
            (UnknownFieldData::Varint(a), UnknownFieldData::Varint(b)) => a == b,
            (UnknownFieldData::Fixed64(a), UnknownFieldData::Fixed64(b)) => a == b,
            (UnknownFieldData::Fixed32(a), UnknownFieldData::Fixed32(b)) => a == b,
            (UnknownFieldData::LengthDelimited(a), UnknownFieldData::LengthDelimited(b)) => a == b,
            (UnknownFieldData::Group(a), UnknownFieldData::Group(b)) => UnknownFields::eq(a, b),
            _ => false,
        }
    }
}

impl Eq for UnknownFieldData {
    ghost use Rattle.std.specs.Cmp.{on_equiv};
    ghost use Rattle.wire_base.specs.FieldsEqLaws.{payload_equiv};
    ghost use Rattle.wire_base.specs.UnknownFields.{payload_of};

    ghost laws = { on_equiv payload_of payload_equiv };
}

impl Hash for UnknownFields {
    ghost use Rattle.wire_base.specs.FieldsEq.{fields_writes};
    ghost use Rattle.wire_base.specs.FieldsEqLaws.{fields_writes-same};

    ghost hash_input = { fields_writes };

    ghost respects_eq = { fields_writes-same };

    #[cycle(hash)]
    fn hash<H: Hasher>(&self, state: &mut H) {
        state.write_usize(self.fields.len());
        for field in &self.fields {
            field.hash(state);
        }
    }
}

impl Hash for UnknownField {
    ghost use Rattle.std.specs.Prelude.{◌++◌};
    ghost use Rattle.std.specs.Hash as fed;
    ghost use Rattle.wire_base.specs.FieldsEq.{payload_writes};
    ghost use Rattle.wire_base.specs.FieldsEqLaws.{record_writes-same};
    ghost use Rattle.wire_base.specs.UnknownFields.{payload_of};

    ghost hash_input = { λ f. fed.u32 f.number ++ payload_writes (payload_of f.value) };

    ghost respects_eq = { λ a b. record_writes-same a.number b.number
        (payload_of a.value) (payload_of b.value) };

    #[cycle(hash)]
    fn hash<H: Hasher>(&self, state: &mut H) {
        self.number.hash(state);
        self.value.hash(state);
    }
}

impl Hash for UnknownFieldData {
    ghost use Rattle.wire_base.specs.FieldsEq.{payload_writes};
    ghost use Rattle.wire_base.specs.FieldsEqLaws.{payload_writes-same};
    ghost use Rattle.wire_base.specs.UnknownFields.{payload_of};

    ghost hash_input = { λ v. payload_writes (payload_of v) };

    ghost respects_eq = { λ a b. payload_writes-same (payload_of a) (payload_of b) };

    #[cycle(hash)]
    fn hash<H: Hasher>(&self, state: &mut H) {
        match self {
            UnknownFieldData::Varint(value) => {
                state.write_u8(0);
                value.hash(state);
            }
            UnknownFieldData::Fixed64(value) => {
                state.write_u8(1);
                value.hash(state);
            }
            UnknownFieldData::Fixed32(value) => {
                state.write_u8(2);
                value.hash(state);
            }
            UnknownFieldData::LengthDelimited(bytes) => {
                state.write_u8(3);
                bytes.hash(state);
            }
            UnknownFieldData::Group(fields) => {
                state.write_u8(4);
                fields.hash(state);
            }
        }
    }
}
