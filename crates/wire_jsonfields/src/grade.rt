//! The enum of `Batch`, as a scalar by the table of its names.
use crate::enum_field::JsonEnum;
use wire_protojson::EnumName;

/// How much a batch weighs.
#[derive(Clone, Copy, Debug, PartialEq, Eq)]
pub enum Grade {
    Low,
    High,
    Unknown(i32),
}

const GRADE_NAMES: [EnumName<'static>; 2] = [
    EnumName {
        name: "LOW",
        number: 0,
    },
    EnumName {
        name: "HIGH",
        number: 1,
    },
];

impl JsonEnum for Grade {
    ghost use Rattle.wire_jsonfields.specs.Batch.{grade-agree, grade-names, grade-number, grade-texts};

    ghost table = { grade-names };

    ghost number = { grade-number };

    ghost agree = { grade-agree };

    ghost texts = { grade-texts };

    fn names() -> &'static [EnumName<'static>] {
        &GRADE_NAMES
    }

    fn from_i32(value: i32) -> Grade {
        match value {
            0 => Grade::Low,
            1 => Grade::High,
            other => Grade::Unknown(other),
        }
    }

    fn to_i32(&self) -> i32 {
        match self {
            Grade::Low => 0,
            Grade::High => 1,
            Grade::Unknown(number) => *number,
        }
    }
}
