//! A message type by hand, of `message Sample { string name = 1; double value = 2; optional int64
//! sample_count = 3; }`.
ghost use Rattle.wire_jsonfields.specs.Sample.{SampleIsRead, SampleReadsBack};

use crate::by_parts::{read_parts, write_parts};
use crate::kind::{Implicit, JsonValue, Optional, read_field, write_field};
use crate::known::FieldName;
use crate::message::JsonMessage;
use crate::object::PlacedMember;
use crate::part::{Both, JsonPart};
use std::alloc::Global;
use wire_protojson::{ReadError, WriteError};

/// What was measured once.
#[derive(Drop)]
pub struct Sample {
    pub name: String,
    pub value: f64,
    pub sample_count: Option<i64>,
}

/// The fields of `Sample`.
pub type SampleParts = Both<SampleName, Both<SampleValue, SampleCount>>;

const NAME: FieldName = FieldName {
    name: "name",
    json_name: "name",
};

const VALUE: FieldName = FieldName {
    name: "value",
    json_name: "value",
};

const COUNT: FieldName = FieldName {
    name: "sample_count",
    json_name: "sampleCount",
};

pub struct SampleName;

impl JsonPart for SampleName {
    ghost use Rattle.std.specs.Prelude.{ℕ, List, [], string_bytes};
    ghost use Rattle.wire_jsonfields.specs.Sample.{NameSays, NameTrees, name-unsaid, one_name, name-names, IsNameInRange, name-back};

    type Message = Sample;

    type Held = String;

    ghost Value = { List ℕ };

    ghost view = { λ s. string_bytes s };

    ghost seen = { λ m. string_bytes m.name };

    ghost names = { name-names };

    ghost says = { NameSays };

    ghost trees = { NameTrees };

    ghost default = { [] };

    ghost unsaid = { name-unsaid };

    ghost one_value = { one_name };

    ghost in_range = { IsNameInRange };

    ghost back = { name-back };

    fn is_named(name: &str) -> bool {
        name == NAME.name || name == NAME.json_name
    }

    fn read(
        alloc: Global,
        text: &[u8],
        members: &[PlacedMember<'_>],
        levels: u32,
    ) -> Result<String, ReadError> {
        read_field::<Implicit<String>>(alloc, text, members, levels, &NAME)
    }

    fn write(
        alloc: Global,
        out: &mut Vec<u8>,
        first: bool,
        message: &Sample,
    ) -> Result<bool, WriteError> {
        write_field::<Implicit<String>>(alloc, out, first, &NAME, &message.name)
    }
}

pub struct SampleValue;

impl JsonPart for SampleValue {
    ghost use Rattle.std.specs.Float.{Float, float_zero};
    ghost use Rattle.wire_jsonfields.specs.Sample.{ValueSays, ValueTrees, value-unsaid, one_value_field, value-names, IsValueInRange, value-back};

    type Message = Sample;

    type Held = f64;

    ghost Value = { Float };

    ghost view = { λ v. v };

    ghost seen = { λ m. m.value };

    ghost names = { value-names };

    ghost says = { ValueSays };

    ghost trees = { ValueTrees };

    ghost default = { float_zero };

    ghost unsaid = { value-unsaid };

    ghost one_value = { one_value_field };

    ghost in_range = { IsValueInRange };

    ghost back = { value-back };

    fn is_named(name: &str) -> bool {
        name == VALUE.name || name == VALUE.json_name
    }

    fn read(
        alloc: Global,
        text: &[u8],
        members: &[PlacedMember<'_>],
        levels: u32,
    ) -> Result<f64, ReadError> {
        read_field::<Implicit<f64>>(alloc, text, members, levels, &VALUE)
    }

    fn write(
        alloc: Global,
        out: &mut Vec<u8>,
        first: bool,
        message: &Sample,
    ) -> Result<bool, WriteError> {
        write_field::<Implicit<f64>>(alloc, out, first, &VALUE, &message.value)
    }
}

pub struct SampleCount;

impl JsonPart for SampleCount {
    ghost use Rattle.std.specs.Prelude.{ℤ, Option, None, option_map};
    ghost use Rattle.wire_jsonfields.specs.Sample.{CountSays, CountTrees, count-unsaid, one_count, count-names, IsCountInRange, count-back};

    type Message = Sample;

    type Held = Option<i64>;

    ghost Value = { Option ℤ };

    ghost view = { option_map (λ v. v) };

    ghost seen = { λ m. option_map (λ v. v) m.sample_count };

    ghost names = { count-names };

    ghost says = { CountSays };

    ghost trees = { CountTrees };

    ghost default = { None };

    ghost unsaid = { count-unsaid };

    ghost one_value = { one_count };

    ghost in_range = { IsCountInRange };

    ghost back = { count-back };

    fn is_named(name: &str) -> bool {
        name == COUNT.name || name == COUNT.json_name
    }

    fn read(
        alloc: Global,
        text: &[u8],
        members: &[PlacedMember<'_>],
        levels: u32,
    ) -> Result<Option<i64>, ReadError> {
        read_field::<Optional<i64>>(alloc, text, members, levels, &COUNT)
    }

    fn write(
        alloc: Global,
        out: &mut Vec<u8>,
        first: bool,
        message: &Sample,
    ) -> Result<bool, WriteError> {
        write_field::<Optional<i64>>(alloc, out, first, &COUNT, &message.sample_count)
    }
}

impl JsonValue for Sample {
    ghost use Rattle.wire_jsonfields.specs.Sample.{Sample-Value, sample-default, sample-says, sample-trees, sample-value, one_sample, IsSampleInRange, sample-back};
    ghost use Rattle.wire_jsonfields.specs.Messages.{IsObjectTree, ObjectMeans};
    ghost use Rattle.wire_jsonfields.specs.OneValues.{one_object};

    type Held = Sample;

    ghost Value = { Sample-Value };

    ghost view = { sample-value };

    ghost means = { ObjectMeans sample-says };

    ghost tree = { IsObjectTree sample-trees };

    ghost absent = { sample-default };

    ghost one_value = { one_object sample-says one_sample };

    ghost in_range = { IsSampleInRange };

    ghost back = { sample-back };

    fn read_json(
        alloc: Global,
        text: &[u8],
        at: usize,
        levels: u32,
    ) -> Result<(Sample, usize), ReadError> {
        let ((name, (value, sample_count)), after) = read_parts::<SampleParts>(
            alloc, text, at, levels,
        )?;
        Ok((
            Sample {
                name,
                value,
                sample_count,
            },
            after,
        ))
    }

    fn write_json(alloc: Global, out: &mut Vec<u8>, held: &Sample) -> Result<(), WriteError> {
        write_parts::<SampleParts>(alloc, out, held)
    }
}

impl JsonMessage for Sample {
    ghost use Rattle.wire_jsonfields.specs.Sample.{sample-unsaid};

    ghost default_meant = { sample-unsaid };
}

/// What is written of a value is read as that value, whatever follows, and as a text at one level.
pub fn sample_reads_back()
    ensures back { SampleReadsBack }
    ensures text { SampleIsRead }
{}
