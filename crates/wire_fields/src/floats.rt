//! `float` and `double`. Their bits are held as they stand on the wire: those of a NaN too, which no
//! `f32` and no `f64` of the language is made of. See "Non-varint Numbers" of the encoding document.
ghost use Rattle.std.specs.Prelude.{◌≡◌, ◌<◌, ◌%◌, if◌then◌else◌, IfSome, IfNone, is_nan, to_bits, from_bits};
ghost use Rattle.std.specs.Float.{binary32, binary64};

use crate::form::Form;
use crate::number::Number;

/// The 32 bits of a `float`.
#[derive(Clone, Copy, Debug, PartialEq, Eq, Hash)]
pub struct FloatBits {
    pub bits: u32,
}

impl FloatBits {
    /// The bits of a number, and for a NaN those of the quiet one.
    pub fn from_f32(value: f32) -> FloatBits
        ensures { result.bits ≡ if is_nan value then 0x7FC0_0000 else to_bits binary32 value }
    {
        if value.is_nan() {
            return FloatBits { bits: 0x7FC0_0000 };
        }
        FloatBits {
            bits: value.to_bits(),
        }
    }

    /// The number of these bits, and none for a NaN.
    pub fn get(&self) -> Option<f32>
        ensures some { IfSome result (λ value. value ≡ from_bits binary32 self.now.bits) }
        ensures none { IfNone result (0x7F80_0000 < self.now.bits % 0x8000_0000) }
    {
        if self.bits % 0x8000_0000 > 0x7F80_0000 {
            return None;
        }
        Some(f32::from_bits(self.bits))
    }
}

/// The 64 bits of a `double`.
#[derive(Clone, Copy, Debug, PartialEq, Eq, Hash)]
pub struct DoubleBits {
    pub bits: u64,
}

impl DoubleBits {
    /// The bits of a number, and for a NaN those of the quiet one.
    pub fn from_f64(value: f64) -> DoubleBits
        ensures { result.bits
            ≡ if is_nan value then 0x7FF8_0000_0000_0000 else to_bits binary64 value }
    {
        if value.is_nan() {
            return DoubleBits {
                bits: 0x7FF8_0000_0000_0000,
            };
        }
        DoubleBits {
            bits: value.to_bits(),
        }
    }

    /// The number of these bits, and none for a NaN.
    pub fn get(&self) -> Option<f64>
        ensures some { IfSome result (λ value. value ≡ from_bits binary64 self.now.bits) }
        ensures none { IfNone result
            (0x7FF0_0000_0000_0000 < self.now.bits % 0x8000_0000_0000_0000) }
    {
        if self.bits % 0x8000_0000_0000_0000 > 0x7FF0_0000_0000_0000 {
            return None;
        }
        Some(f64::from_bits(self.bits))
    }
}

/// `float` as a number: four bytes.
pub struct Float;

impl Number for Float {
    ghost use Rattle.wire_fields.specs.declared.form.Form.TheVariants.{Fixed32};
    ghost use Rattle.wire_fields.specs.Floats.{float};

    type Value = FloatBits;

    ghost map = { float };

    ghost form = { Fixed32 };

    fn form() -> Form {
        Form::Fixed32
    }

    fn number_of(value: FloatBits) -> u64 {
        u64::from(value.bits)
    }

    fn value_of(number: u64) -> FloatBits {
        FloatBits {
            bits: number as u32,
        }
    }
}

/// `double` as a number: eight bytes.
pub struct Double;

impl Number for Double {
    ghost use Rattle.wire_fields.specs.declared.form.Form.TheVariants.{Fixed64};
    ghost use Rattle.wire_fields.specs.Floats.{double};

    type Value = DoubleBits;

    ghost map = { double };

    ghost form = { Fixed64 };

    fn form() -> Form {
        Form::Fixed64
    }

    fn number_of(value: DoubleBits) -> u64 {
        value.bits
    }

    fn value_of(number: u64) -> DoubleBits {
        DoubleBits { bits: number }
    }
}
