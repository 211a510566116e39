//! A message type by hand, with an enum, a list of messages, a map and a oneof, of `message Batch {
//! Grade grade = 1; repeated Sample samples = 2; map<string, int64> totals = 3; oneof origin {
//! string file = 4; Sample template_sample = 5; } }`.
ghost use Rattle.wire_jsonfields.specs.Batch.{BatchIsRead, BatchReadsBack};

use crate::by_parts::{read_parts, write_parts};
use crate::choice::{Chosen, Either, JsonChoice, write_oneof};
use crate::enum_field::EnumOf;
use crate::grade::Grade;
use crate::kind::{Implicit, JsonValue, read_field, write_field};
use crate::known::FieldName;
use crate::list::Repeated;
use crate::map::Map;
use crate::message::JsonMessage;
use crate::object::PlacedMember;
use crate::origin::{Origin, OriginFile, OriginTemplate};
use crate::part::{Both, JsonPart};
use crate::sample::Sample;
use std::alloc::Global;
use std::collections::BTreeMap;
use wire_protojson::{ReadError, WriteError};

/// What was measured together.
#[derive(Drop)]
pub struct Batch {
    pub grade: Grade,
    pub samples: Vec<Sample>,
    pub totals: BTreeMap<String, i64>,
    pub origin: Option<Origin>,
}

/// The fields of `Batch`, and its oneof.
pub type BatchParts = Both<BatchGrade, Both<BatchSamples, Both<BatchTotals, BatchOrigin>>>;

const GRADE: FieldName = FieldName {
    name: "grade",
    json_name: "grade",
};

const SAMPLES: FieldName = FieldName {
    name: "samples",
    json_name: "samples",
};

const TOTALS: FieldName = FieldName {
    name: "totals",
    json_name: "totals",
};

pub struct BatchGrade;

impl JsonPart for BatchGrade {
    ghost use Rattle.std.specs.Prelude.{ℕ, ℤ, pos, List, [], map, option_map, string_bytes, None, Option};
    ghost use Rattle.wire_jsonfields.specs.Batch.{grade-number, GradeSays, GradeTrees, grade-unsaid, one_grade, grade-field-names, IsGradeInRange, grade-back};

    type Message = Batch;

    type Held = Grade;

    ghost Value = { ℤ };

    ghost view = { grade-number };

    ghost seen = { λ m. grade-number m.grade };

    ghost names = { grade-field-names };

    ghost says = { GradeSays };

    ghost trees = { GradeTrees };

    ghost default = { pos 0 };

    ghost unsaid = { grade-unsaid };

    ghost one_value = { one_grade };

    ghost in_range = { IsGradeInRange };

    ghost back = { grade-back };

    fn is_named(name: &str) -> bool {
        name == GRADE.name || name == GRADE.json_name
    }

    fn read(
        alloc: Global,
        text: &[u8],
        members: &[PlacedMember<'_>],
        levels: u32,
    ) -> Result<Grade, ReadError> {
        read_field::<Implicit<EnumOf<Grade>>>(alloc, text, members, levels, &GRADE)
    }

    fn write(
        alloc: Global,
        out: &mut Vec<u8>,
        first: bool,
        message: &Batch,
    ) -> Result<bool, WriteError> {
        write_field::<Implicit<EnumOf<Grade>>>(alloc, out, first, &GRADE, &message.grade)
    }
}

pub struct BatchSamples;

impl JsonPart for BatchSamples {
    ghost use Rattle.std.specs.Prelude.{ℕ, ℤ, pos, List, [], map, option_map, string_bytes, None, Option};
    ghost use Rattle.wire_jsonfields.specs.Sample.{Sample-Value};
    ghost use Rattle.wire_jsonfields.specs.Batch.{samples-value, SamplesSay, SamplesTrees, samples-unsaid, one_samples, samples-names, AreSamplesInRange, samples-back};

    type Message = Batch;

    type Held = Vec<Sample>;

    ghost Value = { List Sample-Value };

    ghost view = { samples-value };

    ghost seen = { λ m. samples-value m.samples };

    ghost names = { samples-names };

    ghost says = { SamplesSay };

    ghost trees = { SamplesTrees };

    ghost default = { [] };

    ghost unsaid = { samples-unsaid };

    ghost one_value = { one_samples };

    ghost in_range = { AreSamplesInRange };

    ghost back = { samples-back };

    fn is_named(name: &str) -> bool {
        name == SAMPLES.name || name == SAMPLES.json_name
    }

    fn read(
        alloc: Global,
        text: &[u8],
        members: &[PlacedMember<'_>],
        levels: u32,
    ) -> Result<Vec<Sample>, ReadError> {
        read_field::<Repeated<Sample>>(alloc, text, members, levels, &SAMPLES)
    }

    fn write(
        alloc: Global,
        out: &mut Vec<u8>,
        first: bool,
        message: &Batch,
    ) -> Result<bool, WriteError> {
        write_field::<Repeated<Sample>>(alloc, out, first, &SAMPLES, &message.samples)
    }
}

pub struct BatchTotals;

impl JsonPart for BatchTotals {
    ghost use Rattle.std.specs.Prelude.{ℕ, ℤ, pos, List, [], map, option_map, string_bytes, None, Option};
    ghost use Rattle.wire_jsonfields.specs.Maps.{entries_seen};
    ghost use Rattle.wire_jsonfields.specs.Batch.{TotalsSay, TotalsTrees, totals-unsaid, one_totals, totals-names, AreTotalsInRange, totals-back};

    type Message = Batch;

    type Held = BTreeMap<String, i64>;

    ghost Value = { List ((List ℕ) × ℤ) };

    ghost view = { λ m. entries_seen (λ k. string_bytes k) (λ v. v) m.entries };

    ghost seen = { λ m. entries_seen (λ k. string_bytes k) (λ v. v) m.totals.entries };

    ghost names = { totals-names };

    ghost says = { TotalsSay };

    ghost trees = { TotalsTrees };

    ghost default = { [] };

    ghost unsaid = { totals-unsaid };

    ghost one_value = { one_totals };

    ghost in_range = { AreTotalsInRange };

    ghost back = { totals-back };

    fn is_named(name: &str) -> bool {
        name == TOTALS.name || name == TOTALS.json_name
    }

    fn read(
        alloc: Global,
        text: &[u8],
        members: &[PlacedMember<'_>],
        levels: u32,
    ) -> Result<BTreeMap<String, i64>, ReadError> {
        read_field::<Map<String, Implicit<i64>>>(alloc, text, members, levels, &TOTALS)
    }

    fn write(
        alloc: Global,
        out: &mut Vec<u8>,
        first: bool,
        message: &Batch,
    ) -> Result<bool, WriteError> {
        write_field::<Map<String, Implicit<i64>>>(alloc, out, first, &TOTALS, &message.totals)
    }
}

pub struct BatchOrigin;

impl JsonPart for BatchOrigin {
    ghost use Rattle.std.specs.Prelude.{None, Option, option_map};
    ghost use Rattle.wire_jsonfields.specs.Choices.{oneof_seen};
    ghost use Rattle.wire_jsonfields.specs.Batch.{Origin-Value, origin-chosen, origin-value, OriginSays, OriginTrees, origin-unsaid, one_origin, origin-names, IsOriginInRange, origin-back};

    type Message = Batch;

    type Held = Option<Chosen<String, Box<Sample>>>;

    ghost Value = { Option Origin-Value };

    ghost view = { option_map origin-chosen };

    ghost seen = { λ m. oneof_seen origin-value m.origin };

    ghost names = { origin-names };

    ghost says = { OriginSays };

    ghost trees = { OriginTrees };

    ghost default = { None };

    ghost unsaid = { origin-unsaid };

    ghost one_value = { one_origin };

    ghost in_range = { IsOriginInRange };

    ghost back = { origin-back };

    fn is_named(name: &str) -> bool {
        Either::<OriginFile, OriginTemplate>::is_named(name)
    }

    fn read(
        alloc: Global,
        text: &[u8],
        members: &[PlacedMember<'_>],
        levels: u32,
    ) -> Result<Option<Chosen<String, Box<Sample>>>, ReadError> {
        Either::<OriginFile, OriginTemplate>::read(alloc, text, members, levels)
    }

    fn write(
        alloc: Global,
        out: &mut Vec<u8>,
        first: bool,
        message: &Batch,
    ) -> Result<bool, WriteError> {
        write_oneof::<Either<OriginFile, OriginTemplate>>(alloc, out, first, &message.origin)
    }
}

impl JsonValue for Batch {
    ghost use Rattle.wire_jsonfields.specs.Batch.{Batch-Value, batch-default, batch-says, batch-trees, batch-value, one_batch, IsBatchInRange, batch-back};
    ghost use Rattle.wire_jsonfields.specs.Messages.{IsObjectTree, ObjectMeans};
    ghost use Rattle.wire_jsonfields.specs.OneValues.{one_object};

    type Held = Batch;

    ghost Value = { Batch-Value };

    ghost view = { batch-value };

    ghost means = { ObjectMeans batch-says };

    ghost tree = { IsObjectTree batch-trees };

    ghost absent = { batch-default };

    ghost one_value = { one_object batch-says one_batch };

    ghost in_range = { IsBatchInRange };

    ghost back = { batch-back };

    fn read_json(
        alloc: Global,
        text: &[u8],
        at: usize,
        levels: u32,
    ) -> Result<(Batch, usize), ReadError> {
        let ((grade, (samples, (totals, chosen))), after) = read_parts::<BatchParts>(
            alloc, text, at, levels,
        )?;
        let origin = match chosen {
            None => None,
            Some(Chosen::This(file)) => Some(Origin::File(file)),
            Some(Chosen::That(template)) => Some(Origin::Template(template)),
        };
        Ok((
            Batch {
                grade,
                samples,
                totals,
                origin,
            },
            after,
        ))
    }

    fn write_json(alloc: Global, out: &mut Vec<u8>, held: &Batch) -> Result<(), WriteError> {
        write_parts::<BatchParts>(alloc, out, held)
    }
}

impl JsonMessage for Batch {
    ghost use Rattle.wire_jsonfields.specs.Batch.{batch-unsaid};

    ghost default_meant = { batch-unsaid };
}

/// What is written of a value is read as that value, whatever follows, and as a text at three
/// levels.
pub fn batch_reads_back()
    ensures back { BatchReadsBack }
    ensures text { BatchIsRead }
{}
