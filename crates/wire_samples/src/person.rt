//! A message with a field of each common kind, as a table of its fields.
ghost use Rattle.std.specs.Prelude.{◌≡◌, ◌≢◌, ◌≤◌, length, OnOk, OnErr, IfOk, IfErr};
ghost use Rattle.wire_codec.specs.DecodeError.TheVariants as errors;
ghost use Rattle.wire_codec.specs.EncodeError.TheVariants.{OutOfMemory};
ghost use Rattle.wire_codec.specs.Limits.{NoCountGrew};
ghost use Rattle.wire_codec.specs.Records.{text, text_size};
ghost use Rattle.wire_codec.specs.Sizes.{sizes, cut, cut_sizes};
ghost use Rattle.wire_codec.specs.TagView.{tag_number, tag_type};
ghost use Rattle.wire_codec.specs.Taking.{TakesRecord, IsCharged, NotTaken};
ghost use Rattle.wire_codec.specs.Tape.{NextAre, advanced, recorded};
ghost use Rattle.wire_codec.specs.Writes.{Writes};
ghost use Rattle.wire_codec.specs.ValueMap.{int32};
ghost use Rattle.wire_fields.specs.Packed.{adds_numbers};
ghost use Rattle.wire_fields.specs.declared.form.Form.TheVariants.{Varint};
ghost use Rattle.wire_samples.specs.Person.{PersonTakes, person_records, person_value};

use bytes::Buf;
use std::alloc::Global;
use wire_codec::{
    DecodeContext, DecodeError, EncodeError, EncodeSink, MessageFields, MessageName, SizeCache,
    Tag, UnknownFields, WireType, wire_type_mismatch,
};
use wire_fields::{Implicit, Int32, Kind, Known, Packed, Rest, Text, keep, measure, write};

/// A person, by number and name, with scores. Fields that a schema of later date has are kept.
#[derive(Clone, Debug, Drop, PartialEq)]
pub struct Person {
    pub id: i32,
    pub name: String,
    pub scores: Vec<i32>,
    unknown: UnknownFields,
}

impl Person {
    /// The fields that decoding found and this type does not know.
    pub fn unknown(&self) -> &UnknownFields
        ensures { result.now ≡ (person_value self.now).unknown }
    {
        &self.unknown
    }
}

impl MessageName for Person {
    const PACKAGE: &'static str = "wire.samples";

    const NAME: &'static str = "Person";

    const FULL_NAME: &'static str = "wire.samples.Person";

    const TYPE_URL: &'static str = "type.googleapis.com/wire.samples.Person";
}

impl MessageFields for Person {
    ghost use Rattle.wire_samples.specs.Person.{PersonValue, person_value};
    ghost use Rattle.wire_samples.specs.Person.{person_records, default_person, PersonTakes};
    ghost use Rattle.wire_samples.specs.PersonSingle.{person_single};

    ghost Value = { PersonValue };

    ghost view = { person_value };

    ghost records = { person_records };

    ghost default = { default_person };

    ghost takes = { PersonTakes };

    ghost single = { person_single };

    fn default_value(alloc: Global) -> Person {
        Person {
            id: <Implicit<Int32> as Kind>::empty(alloc),
            name: <Implicit<Text> as Kind>::empty(alloc),
            scores: <Packed<Int32> as Kind>::empty(alloc),
            unknown: UnknownFields::new(alloc),
        }
    }

    #[inline(always)]
    fn compute_size(&self, cache: &mut SizeCache) -> Result<u32, EncodeError> {
        measure_records(self, cache)
    }

    fn write_to<S: EncodeSink>(
        &self,
        cache: &mut SizeCache,
        sink: &mut S,
    ) -> Result<(), EncodeError> {
        write_records(self, cache, sink)
    }

    fn merge_field<B: Buf>(
        &mut self,
        alloc: Global,
        tag: Tag,
        buf: &mut B,
        context: &mut DecodeContext,
    ) -> Result<(), DecodeError> {
        merge_record(self, alloc, tag, buf, context)
    }

    fn clear(&mut self) {
        <Implicit<Int32> as Kind>::clear(&mut self.id);
        <Implicit<Text> as Kind>::clear(&mut self.name);
        <Packed<Int32> as Kind>::clear(&mut self.scores);
        self.unknown.clear();
    }
}

// Measures the records, in the order of their numbers and the unknown fields behind.
#[inline(always)]
fn measure_records(person: &Person, cache: &mut SizeCache) -> Result<u32, EncodeError>
    ensures size { IfOk result (λ answer. answer
        ≡ cut (text_size (person_records (person_value person.now)))) }
    ensures sizes { OnOk result (cache.new
        ≡ recorded cache.old (cut_sizes (person_records (person_value person.now)))) }
    ensures err { IfErr result (λ e. e ≡ OutOfMemory) }
{
    // What is read is a number of 32 bits.
    let _id = person.id;
    let id: Known<Implicit<Int32>> = Known {
        number: 1,
        held: &person.id,
    };
    let name: Known<Implicit<Text>> = Known {
        number: 2,
        held: &person.name,
    };
    let scores: Known<Packed<Int32>> = Known {
        number: 3,
        held: &person.scores,
    };
    let rest = Rest {
        fields: &person.unknown,
    };
    measure((id, (name, (scores, rest))), cache)
}

// Writes them in the same order.
fn write_records<S: EncodeSink>(
    person: &Person,
    cache: &mut SizeCache,
    sink: &mut S,
) -> Result<(), EncodeError>
    requires sizes { NextAre (sizes (person_records (person_value person.now))) cache.old }
    requires size { text_size (person_records (person_value person.now)) ≤ 2147483647 }
    ensures written { Writes (text (person_records (person_value person.now)))
        (S.held sink.old) (S.held sink.new) result }
    ensures read { OnOk result (cache.new ≡ advanced cache.old
        (length (sizes (person_records (person_value person.now))))) }
{
    // What is read is a number of 32 bits.
    let _id = person.id;
    let id: Known<Implicit<Int32>> = Known {
        number: 1,
        held: &person.id,
    };
    let name: Known<Implicit<Text>> = Known {
        number: 2,
        held: &person.name,
    };
    let scores: Known<Packed<Int32>> = Known {
        number: 3,
        held: &person.scores,
    };
    let rest = Rest {
        fields: &person.unknown,
    };
    write((id, (name, (scores, rest))), cache, sink)
}

// Takes the record of a tag that was read.
fn merge_record<B: Buf>(
    person: &mut Person,
    alloc: Global,
    tag: Tag,
    buf: &mut B,
    context: &mut DecodeContext,
) -> Result<(), DecodeError>
    ensures ok { OnOk result (IsCharged context.old context.new (λ c.
        TakesRecord PersonTakes context.old (tag_number tag) (tag_type tag)
        (person_value person.old) (B.unread buf.old) c (person_value person.new)
        (B.unread buf.new))) }
    ensures err { IfErr result (λ e. e ≢ errors.OutOfMemory → NotTaken (TakesRecord PersonTakes
        context.old (tag_number tag) (tag_type tag) (person_value person.old)
        (B.unread buf.old))) }
    ensures counts { OnErr result (NoCountGrew context.old context.new) }
    ensures kept { B.kept buf.new ≡ B.kept buf.old }
{
    match tag.field_number() {
        1 => <Implicit<Int32> as Kind>::merge(alloc, tag, &mut person.id, buf, context),
        2 => <Implicit<Text> as Kind>::merge(alloc, tag, &mut person.name, buf, context),
        3 => merge_scores(alloc, tag, &mut person.scores, buf, context),
        _ => keep(alloc, tag, &mut person.unknown, buf, context),
    }
}

// Takes a record of the scores, which are said to want a length where they have another type.
fn merge_scores<B: Buf>(
    alloc: Global,
    tag: Tag,
    scores: &mut Vec<i32>,
    buf: &mut B,
    context: &mut DecodeContext,
) -> Result<(), DecodeError>
    ensures ok { OnOk result (IsCharged context.old context.new (λ c.
        TakesRecord (adds_numbers Varint int32) context.old (tag_number tag) (tag_type tag)
        scores.old.items (B.unread buf.old) c scores.new.items (B.unread buf.new))) }
    ensures err { IfErr result (λ e. e ≢ errors.OutOfMemory → NotTaken
        (TakesRecord (adds_numbers Varint int32) context.old (tag_number tag) (tag_type tag)
        scores.old.items (B.unread buf.old))) }
    ensures counts { OnErr result (NoCountGrew context.old context.new) }
    ensures kept { B.kept buf.new ≡ B.kept buf.old }
{
    match <Packed<Int32> as Kind>::merge(alloc, tag, scores, buf, context) {
        Ok(()) => Ok(()),
        Err(error) => Err(wanting_length(tag, error)),
    }
}

// What is said of another wire type.
fn wanting_length(tag: Tag, error: DecodeError) -> DecodeError
    ensures { error ≡ errors.OutOfMemory → result ≡ errors.OutOfMemory }
{
    match error {
        DecodeError::WireTypeMismatch { .. } => {
            wire_type_mismatch(tag, WireType::LengthDelimited)
        }
        error => error,
    }
}
