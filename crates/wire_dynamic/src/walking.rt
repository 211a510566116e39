//! A walk over records that tells of each which field it is of.
ghost use Rattle.std.specs.Prelude.{◌≡◌, option_and_then, reverse, min, OnErr, IfOk, IfErr, IfSome, IfNone};
ghost use Rattle.std.specs.Option.{option_copied};
ghost use Rattle.wire_base.specs.Limits.{uncounted};
ghost use Rattle.wire_read.specs.Budget.{read_limits};
ghost use Rattle.wire_read.specs.Reading.{at, groups_of, Begins, Gives, IsDone, Stops};
ghost use Rattle.wire_dynamic.specs.Told.{reader_of, root_of, schema_of, IsSameWalk};
ghost use Rattle.wire_dynamic.specs.Walks.{field_in, group_field, type_of_group, innermost, told_in, unknown_groups};

use crate::field::{Field, Kind};
use crate::schema::Schema;
use crate::walk::Walk;
use wire_codec::DecodeContext;
use wire_read::{Event, Fault, Reader, Value};

/// An event of a reader, with the field that it is of, where the schema has one.
#[derive(Clone, Copy, Debug)]
pub struct Told<'a, 's> {
    pub event: Event<'a>,
    pub field: Option<&'s Field>,
}

impl<'s> Walk<'s> {
    /// Before the first record of a message of the type at this place, under the limits of a
    /// context.
    pub fn within(schema: &'s Schema, root: usize, context: &DecodeContext) -> Walk<'s>
        ensures begins { Begins (read_limits context.now) (reader_of result) }
        ensures schema { schema_of result ≡ schema.now }
        ensures root { root_of result ≡ root }
    {
        Walk {
            schema,
            root,
            reader: Reader::within(context),
            innermost: Some(root),
            known: 0,
        }
    }

    /// The same with at most so many groups open at once, and no other limit.
    pub fn new(schema: &'s Schema, root: usize, depth: u32) -> Walk<'s>
        ensures begins { Begins (uncounted (min depth 100)) (reader_of result) }
        ensures schema { schema_of result ≡ schema.now }
        ensures root { root_of result ≡ root }
    {
        Walk {
            schema,
            root,
            reader: Reader::new(depth),
            innermost: Some(root),
            known: 0,
        }
    }

    /// What reads the records.
    pub fn reader(&self) -> &Reader
        ensures { result.now ≡ reader_of self.now }
    {
        &self.reader
    }

    /// The place of the type of the message that stands innermost, where the schema tells it.
    pub fn innermost(&self) -> Option<usize>
        ensures { result ≡ innermost (schema_of self.now) (root_of self.now)
            (groups_of (reader_of self.now)) }
    {
        self.innermost
    }

    /// How many groups are open from the outermost on that the schema lacks: none where it tells
    /// the type of the message that stands innermost.
    pub fn unknown_groups(&self) -> usize
        ensures { result ≡ unknown_groups (schema_of self.now) (root_of self.now)
            (groups_of (reader_of self.now)) }
    {
        self.reader.open_groups().len() - self.known
    }

    /// The next event in these bytes, which are those of each call before, with its field: that of
    /// its number in the message that it stands in. The end of a group is told with the field of
    /// its start. Events, the end and a fault are those of the reader, which stays as it was at the
    /// last two.
    pub fn next<'a>(&mut self, bytes: &'a [u8]) -> Result<Option<Told<'a, 's>>, Fault>
        ensures event { IfOk result (λ next. IfSome next (λ told. Gives told.event bytes.now
            (at (reader_of self.old) bytes.now) (at (reader_of self.new) bytes.now))) }
        ensures field { IfOk result (λ next. IfSome next (λ told. option_copied told.field
            ≡ field_in (schema_of self.old) told.event.number
            (innermost (schema_of self.old) (root_of self.old) (told_in told.event.value
            (groups_of (reader_of self.old)) (groups_of (reader_of self.new)))))) }
        ensures end { IfOk result (λ next. IfNone next (IsDone (at (reader_of self.old)
            bytes.now))) }
        ensures unmoved { IfOk result (λ next. IfNone next
            (reader_of self.new ≡ reader_of self.old)) }
        ensures fault { IfErr result (λ fault. Stops fault bytes.now
            (at (reader_of self.old) bytes.now)) }
        ensures kept { OnErr result (reader_of self.new ≡ reader_of self.old) }
        ensures same { IsSameWalk self.old self.new }
    {
        let Some(event) = self.reader.next(bytes)? else {
            return Ok(None);
        };
        let around = match event.value {
            Value::GroupEnd => self.schema.innermost(self.root, self.reader.open_groups()),
            _ => self.innermost,
        };
        let field = field_of(self.schema, around, event.number);
        let innermost = match event.value {
            Value::GroupStart => group_place(field),
            _ => around,
        };
        let known = known_groups(innermost, self.known, self.reader.open_groups().len());
        self.innermost = innermost;
        self.known = known;
        Ok(Some(Told { event, field }))
    }

    /// The field of the group that is open within so many others, where the schema has one.
    pub fn group(&self, count: usize) -> Option<&'s Field>
        ensures { option_copied result ≡ group_field (schema_of self.now) (root_of self.now)
            (reverse (groups_of (reader_of self.now))) count }
    {
        let groups = self.reader.open_groups();
        let number = groups.get(count)?;
        let outside = self
            .schema
            .innermost(self.root, &groups[..count.min(groups.len())]);
        field_of(self.schema, outside, *number)
    }
}

impl Schema {
    /// The place of the type of the message that stands innermost in one of the type at a place,
    /// where groups of these numbers are open, the outermost first; none where the schema has no
    /// such group.
    pub fn innermost(&self, root: usize, groups: &[u32]) -> Option<usize>
        ensures { result ≡ innermost self.now root (reverse groups.now) }
    {
        let mut place = root;
        for number in groups {
            place = group_place(self.field(place, *number))?;
        }
        Some(place)
    }
}

// The field of this number of the message type at a place.
fn field_of(schema: &Schema, place: Option<usize>, number: u32) -> Option<&Field>
    ensures { option_copied result ≡ field_in schema.now number place }
{
    schema.field(place?, number)
}

// How many groups are open up to the first that the schema lacks, of so many, where the type that
// stands innermost is that at this place, and where there were so many before.
fn known_groups(innermost: Option<usize>, known: usize, count: usize) -> usize
    ensures yes { IfSome innermost (λ _. result ≡ count) }
    ensures no { IfNone innermost (result ≡ known) }
{
    match innermost {
        Some(_) => count,
        None => known,
    }
}

// The place of the type of a field that is a group.
fn group_place(field: Option<&Field>) -> Option<usize>
    ensures { result
        ≡ option_and_then (λ f. type_of_group f.kind) (option_copied field.entry) }
{
    match field?.kind {
        Kind::Group(place) => Some(place),
        _ => None,
    }
}
