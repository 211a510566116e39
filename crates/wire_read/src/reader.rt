//! A reader over bytes that are handed to each call.
ghost use Rattle.std.specs.Prelude.{◌≡◌, ◌≢◌, ℕ, ◌+◌, ◌-◌, ◌<◌, ◌≤◌, List, [], ◌∷◌, length, take, drop, min, reverse, OnErr, IfOk, IfErr, IfSome, IfNone};
ghost use Rattle.wire_base.specs.declared.tag.WireType.TheVariants.{StartGroup, EndGroup};
ghost use Rattle.wire_base.specs.declared.error.DecodeError.TheVariants.{UnknownFieldLimitExceeded};
ghost use Rattle.wire_read.specs.declared.event.Part.TheVariants as parts;
ghost use Rattle.wire_base.specs.Limits.{uncounted};
ghost use Rattle.wire_base.specs.Read.{Reads};
ghost use Rattle.wire_base.specs.Tag.{IsTagSpelling};
ghost use Rattle.wire_base.specs.TagView.{tag_number, tag_type};
ghost use Rattle.wire_read.specs.Budget.{read_limits};
ghost use Rattle.wire_read.specs.Opened.{ending_of};
ghost use Rattle.wire_read.specs.PartFault.{PartFault};
ghost use Rattle.wire_read.specs.Reading.{at, facing, groups_of, levels_in, limits_in, item, place_of, Begins, Gives, IsDone, Moves, Stops};

use crate::event::{Event, Fault, Part, Value};
use crate::payload::{Broken, read_payload, spend};
use wire_codec::{DecodeContext, DecodeError, Tag, WireType};

/// How many groups may be open at once.
pub const MAX_OPEN_GROUPS: u32 = 100;

/// Goes over the records of bytes. It keeps where it is, the groups that are open and what is left
/// of its limits, and each call is handed the bytes.
#[repr(C)]
#[derive(Clone, Debug, Drop)]
pub struct Reader {
    place: usize,
    unknown_fields: usize,
    unknown_bytes: usize,
    depth: u32,
    group_count: u32,
    groups: [u32; 100],
}

// An item that was taken: what stands behind its tag, and behind all of it.
#[derive(Clone, Copy, Debug)]
struct Step<'a> {
    number: u32,
    value: Value<'a>,
    behind: &'a [u8],
    rest: &'a [u8],
}

impl Reader {
    /// Before the first byte, with at most so many groups open at once, of which more than 100
    /// count as 100, and no other limit.
    pub fn new(depth: u32) -> Reader
        ensures { Begins (uncounted (min depth 100)) result }
    {
        Reader {
            place: 0,
            unknown_fields: usize::MAX,
            unknown_bytes: usize::MAX,
            depth,
            group_count: 0,
            groups: [0; 100],
        }
    }

    /// Before the first byte, under the limits of a context, of which more than 100 levels count as
    /// 100. Each record takes a slot, a group too, and a payload its bytes; `usize::MAX` of either
    /// is no limit.
    pub fn within(context: &DecodeContext) -> Reader
        ensures { Begins (read_limits context.now) result }
    {
        Reader {
            place: 0,
            unknown_fields: context.remaining_unknown_fields(),
            unknown_bytes: context.remaining_unknown_bytes().unwrap_or(usize::MAX),
            depth: context.depth(),
            group_count: 0,
            groups: [0; 100],
        }
    }

    /// How many bytes were read.
    pub fn place(&self) -> usize
        ensures { result ≡ self.now.place }
    {
        self.place
    }

    /// The numbers of the groups that are open, the outermost first.
    pub fn open_groups(&self) -> &[u32]
        ensures { reverse result.now ≡ groups_of self.now }
    {
        &self.groups[..self.open_count()]
    }

    /// The next event in these bytes, which are those of each call before; none at the end; or the
    /// fault that stands here. At the end and at a fault nothing changes, so the next call answers
    /// the same.
    #[inline(always)]
    pub fn next<'a>(&mut self, bytes: &'a [u8]) -> Result<Option<Event<'a>>, Fault>
        ensures event { IfOk result (λ next. IfSome next (λ event.
            Gives event bytes.now (at self.old bytes.now) (at self.new bytes.now))) }
        ensures end { IfOk result (λ next. IfNone next (IsDone (at self.old bytes.now))) }
        ensures unmoved { IfOk result (λ next. IfNone next (self.new ≡ self.old)) }
        ensures fault { IfErr result (λ fault. Stops fault bytes.now (at self.old bytes.now)) }
        ensures unchanged { OnErr result (self.new ≡ self.old) }
    {
        let rest = &bytes[self.place.min(bytes.len())..];
        if rest.is_empty() && self.open_count() == 0 {
            return Ok(None);
        }
        match self.step(rest) {
            Ok(step) => {
                self.place = bytes.len() - step.rest.len();
                Ok(Some(Event {
                    number: step.number,
                    value: step.value,
                    start: bytes.len() - rest.len(),
                    payload: bytes.len() - step.behind.len(),
                    end: self.place,
                }))
            }
            Err(broken) => Err(Fault {
                error: broken.error,
                record_place: bytes.len() - rest.len(),
                part: broken.part,
                part_place: bytes.len() - broken.place.len(),
            }),
        }
    }

    // Takes the item at the front of the rest.
    #[inline(always)]
    fn step<'a>(&mut self, rest: &'a [u8]) -> Result<Step<'a>, Broken<'a>>
        ensures ok { IfOk result (λ s. Moves (item s.number s.value) (facing self.old rest.now)
            s.behind.now (facing self.new s.rest.now)) }
        ensures fault { IfErr result (λ b. PartFault (limits_in self.old)
            (ending_of (groups_of self.old)) rest.now b.part b.place.now b.error) }
        ensures unchanged { OnErr result (self.new ≡ self.old) }
    {
        let mut behind = rest;
        let tag = match Tag::decode(&mut behind) {
            Ok(tag) => tag,
            Err(error) => {
                return Err(Broken {
                    error,
                    part: Part::Tag,
                    place: rest,
                });
            }
        };
        match tag.wire_type() {
            WireType::StartGroup => self.start_group(tag.field_number(), rest, behind),
            WireType::EndGroup => self.end_group(tag.field_number(), rest, behind),
            // An arm of its own, so that its compiled code does not ask for the wire type again.
            WireType::Varint => self.record(tag, rest, behind),
            _ => self.record(tag, rest, behind),
        }
    }

    // Opens a group behind its start tag.
    #[inline(never)]
    fn start_group<'a>(
        &mut self,
        number: u32,
        rest: &'a [u8],
        behind: &'a [u8],
    ) -> Result<Step<'a>, Broken<'a>>
        requires { Reads rest.now (IsTagSpelling number StartGroup) behind.now }
        ensures ok { IfOk result (λ s. Moves (item s.number s.value) (facing self.old rest.now)
            s.behind.now (facing self.new s.rest.now)) }
        ensures fault { IfErr result (λ b. PartFault (limits_in self.old)
            (ending_of (groups_of self.old)) rest.now b.part b.place.now b.error) }
        ensures unchanged { OnErr result (self.new ≡ self.old) }
    {
        let Some(unknown_fields) = spend(self.unknown_fields, 1) else {
            return Err(full(rest));
        };
        if self.open_count() == self.levels() as usize {
            return Err(Broken {
                error: DecodeError::RecursionLimitExceeded,
                part: Part::Tag,
                place: rest,
            });
        }
        self.push(number);
        self.unknown_fields = unknown_fields;
        Ok(Step {
            number,
            value: Value::GroupStart,
            behind,
            rest: behind,
        })
    }

    // Closes a group behind its end tag.
    #[inline(never)]
    fn end_group<'a>(
        &mut self,
        number: u32,
        rest: &'a [u8],
        behind: &'a [u8],
    ) -> Result<Step<'a>, Broken<'a>>
        requires { Reads rest.now (IsTagSpelling number EndGroup) behind.now }
        ensures ok { IfOk result (λ s. Moves (item s.number s.value) (facing self.old rest.now)
            s.behind.now (facing self.new s.rest.now)) }
        ensures fault { IfErr result (λ b. PartFault (limits_in self.old)
            (ending_of (groups_of self.old)) rest.now b.part b.place.now b.error) }
        ensures unchanged { OnErr result (self.new ≡ self.old) }
    {
        if self.open_count() == 0 {
            if spend(self.unknown_fields, 1).is_none() {
                return Err(full(rest));
            }
            return Err(Broken {
                error: DecodeError::InvalidWireType(4),
                part: Part::EndTag,
                place: rest,
            });
        }
        if self.innermost() != number {
            return Err(Broken {
                error: DecodeError::InvalidEndGroup(number),
                part: Part::EndTag,
                place: rest,
            });
        }
        self.pop();
        Ok(Step {
            number,
            value: Value::GroupEnd,
            behind,
            rest: behind,
        })
    }

    // Takes a record that is no group.
    #[inline(always)]
    fn record<'a>(
        &mut self,
        tag: Tag,
        rest: &'a [u8],
        behind: &'a [u8],
    ) -> Result<Step<'a>, Broken<'a>>
        requires tag { Reads rest.now (IsTagSpelling (tag_number tag) (tag_type tag)) behind.now }
        requires start { tag_type tag ≢ StartGroup }
        requires end { tag_type tag ≢ EndGroup }
        ensures ok { IfOk result (λ s. Moves (item s.number s.value) (facing self.old rest.now)
            s.behind.now (facing self.new s.rest.now)) }
        ensures fault { IfErr result (λ b. PartFault (limits_in self.old)
            (ending_of (groups_of self.old)) rest.now b.part b.place.now b.error) }
        ensures unchanged { OnErr result (self.new ≡ self.old) }
    {
        let Some(unknown_fields) = spend(self.unknown_fields, 1) else {
            return Err(full(rest));
        };
        let found = read_payload(tag, behind, self.unknown_bytes)?;
        self.unknown_fields = unknown_fields;
        self.unknown_bytes = found.unknown_bytes;
        Ok(Step {
            number: tag.field_number(),
            value: found.value,
            behind,
            rest: found.rest,
        })
    }

    // How many groups may be open.
    #[inline(always)]
    fn levels(&self) -> u32
        ensures { result ≡ levels_in self.now }
    {
        self.depth.min(MAX_OPEN_GROUPS)
    }

    // How many groups are open.
    #[inline(always)]
    fn open_count(&self) -> usize
        ensures count { result ≡ min self.now.group_count (levels_in self.now) }
        ensures length { result ≡ length (groups_of self.now) }
    {
        self.group_count.min(self.levels()) as usize
    }

    // The number of the innermost group.
    fn innermost(&self) -> u32
        requires { 0 < length (groups_of self.now) }
        ensures { groups_of self.now ≡ result ∷ drop 1 (groups_of self.now) }
    {
        self.groups[self.open_count() - 1]
    }

    fn push(&mut self, number: u32)
        requires { length (groups_of self.old) < levels_in self.old }
        ensures groups { groups_of self.new ≡ number ∷ groups_of self.old }
        ensures depth { self.new.depth ≡ self.old.depth }
        ensures bytes { self.new.unknown_bytes ≡ self.old.unknown_bytes }
    {
        let count = self.open_count();
        self.groups[count] = number;
        self.group_count = count as u32 + 1;
    }

    fn pop(&mut self)
        requires { 0 < length (groups_of self.old) }
        ensures groups { groups_of self.new ≡ drop 1 (groups_of self.old) }
        ensures depth { self.new.depth ≡ self.old.depth }
        ensures fields { self.new.unknown_fields ≡ self.old.unknown_fields }
        ensures bytes { self.new.unknown_bytes ≡ self.old.unknown_bytes }
    {
        self.group_count = (self.open_count() - 1) as u32;
    }
}

// There is no slot for a record.
fn full(rest: &[u8]) -> Broken<'_>
    ensures error { result.error ≡ UnknownFieldLimitExceeded }
    ensures part { result.part ≡ parts.Tag }
    ensures place { result.place.now ≡ rest.now }
{
    Broken {
        error: DecodeError::UnknownFieldLimitExceeded,
        part: Part::Tag,
        place: rest,
    }
}
