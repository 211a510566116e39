//! Message types that hold themselves or one another, asked for their required fields.
ghost use Rattle.std.specs.Prelude.{◌≡◌, ◌≤◌, ◌<◌, ℕ, List, IfOk, length, map};
ghost use Rattle.wire_fields.specs.Nest.{Nest, leaf_of, row_at, row_count};
ghost use Rattle.wire_fields.specs.NestTable.{Family, message_at};
ghost use Rattle.wire_required.specs.Missing.{each_from};
ghost use Rattle.wire_required.specs.Nested.{Asked, family_missing, row_missing};
ghost use Rattle.wire_required.specs.Seen.{row_seen};

use crate::path::FieldPath;
use crate::requirement::behind_field;
use crate::step::PathStep;
use std::alloc::{AllocError, Global};
use wire_fields::Alone;

/// What is asked of a row of messages, with the name that its field has in its schema.
#[derive(Clone, Copy, Debug, PartialEq)]
pub enum RowRequirement {
    /// That each message of a list lacks nothing.
    Each(&'static str),
    /// That the message lacks nothing, where there is one.
    Once(&'static str),
    /// That the message is there, and lacks nothing.
    Needed(&'static str),
}

/// What is asked of a message type that holds itself, or of one of several that hold one another:
/// of its leaf, and of its rows.
pub trait RequiredMember {
    /// The types, and what contracts see of the leaves.
    ghost Sort: { Type 0 };

    ghost Leaf: { Type 0 };

    /// Which of the types this is.
    ghost sort: { Sort };

    ghost view: { Self → Nest Leaf };

    ghost family: { Family Sort Leaf };

    /// What is asked of each of the types.
    ghost asked: { Asked Sort Leaf };

    /// What is asked of a row.
    fn row_requirement(row: usize) -> RowRequirement
        requires { row < (family.table sort).rows }
        ensures { row_seen result ≡ asked.row sort row };

    /// The path to the first required field that a run of the leaf lacks, or none. Refused where
    /// memory runs out, of which nothing is taken where nothing is missing.
    fn run_missing(&self, alloc: Global, run: usize) -> Result<Option<FieldPath>, AllocError>
        requires { run ≤ (family.table sort).rows }
        ensures { IfOk result (λ path. path ≡ asked.run sort run (leaf_of (view self.now))) };
}

/// A message type that holds itself, and no other that holds it.
pub trait RequiredAlone: RequiredMember {
    /// How many rows there are.
    fn row_count() -> usize
        ensures { result ≡ (Self.family.table Self.sort).rows };

    /// The messages of a row.
    fn row_messages(&self, row: usize) -> &[Self]
        requires { row < (Self.family.table Self.sort).rows }
        ensures { map Self.view result.now ≡ row_at row (Self.view self.now) };

    /// The messages of a row are of the type itself.
    ghost holds_itself: { (row : ℕ) → Self.family.holds Self.sort row ≡ Self.sort };

    /// Each message has all of the rows.
    ghost counted: { (m : Self) → row_count (Self.view m) ≡ (Self.family.table Self.sort).rows };
}

/// Messages of one type of several, one behind another in a slice: `Alone` for a type that holds
/// itself alone, and else an enum of slices, as in `RecursiveSlice`. `slice_missing` makes `missing`
/// of `Required` of them.
pub trait RequiredSlice: Copy {
    ghost Sort: { Type 0 };

    ghost Leaf: { Type 0 };

    ghost sort: { Self → Sort };

    ghost views: { Self → List (Nest Leaf) };

    ghost family: { Family Sort Leaf };

    ghost asked: { Asked Sort Leaf };

    /// How many messages there are.
    fn message_count(self) -> usize
        ensures { result ≡ length (views self) };

    /// How many rows each of them has.
    fn row_count(self) -> usize
        ensures { result ≡ (family.table (sort self)).rows };

    /// The messages of a row of the message at an index.
    fn row_messages(self, index: usize, row: usize) -> Self
        requires message { index < length (views self) }
        requires row { row < (family.table (sort self)).rows }
        ensures messages { views result
            ≡ row_at row (message_at (family.table (sort self)) (views self) index) }
        ensures sort { sort result ≡ family.holds (sort self) row };

    /// What is asked of a row.
    fn row_requirement(self, row: usize) -> RowRequirement
        requires { row < (family.table (sort self)).rows }
        ensures { row_seen result ≡ asked.row (sort self) row };

    /// What a run of the leaf of the message at an index lacks, as `RequiredMember::run_missing`.
    fn run_missing(
        self,
        index: usize,
        alloc: Global,
        run: usize,
    ) -> Result<Option<FieldPath>, AllocError>
        requires message { index < length (views self) }
        requires run { run ≤ (family.table (sort self)).rows }
        ensures { IfOk result (λ path. path ≡ asked.run (sort self) run
            (leaf_of (message_at (family.table (sort self)) (views self) index))) };

    /// Each message has all of the rows.
    ghost counted: { (messages : Self) (index : ℕ)
        → row_count (message_at (family.table (sort messages)) (views messages) index)
        ≡ (family.table (sort messages)).rows };
}

impl<'a, T: RequiredAlone> RequiredSlice for Alone<'a, T> {
    ghost use Rattle.wire_fields.specs.NestTable.{all_counted};

    ghost Sort = { T.Sort };

    ghost Leaf = { T.Leaf };

    ghost sort = { λ messages. T.sort };

    ghost views = { λ messages. map T.view messages.0.now };

    ghost family = { T.family };

    ghost asked = { T.asked };

    ghost counted = { λ messages.
        all_counted (T.family.table T.sort) T.view T.counted messages.0.now };

    #[inline(always)]
    fn message_count(self) -> usize {
        self.0.len()
    }

    #[inline(always)]
    fn row_count(self) -> usize {
        <T as RequiredAlone>::row_count()
    }

    #[inline(always)]
    fn row_messages(self, index: usize, row: usize) -> Alone<'a, T> {
        Alone(self.0[index].row_messages(row))
    }

    #[inline(always)]
    fn row_requirement(self, row: usize) -> RowRequirement {
        <T as RequiredMember>::row_requirement(row)
    }

    #[inline(always)]
    fn run_missing(
        self,
        index: usize,
        alloc: Global,
        run: usize,
    ) -> Result<Option<FieldPath>, AllocError> {
        <T as RequiredMember>::run_missing(&self.0[index], alloc, run)
    }
}

/// What `missing` of the message at an index answers. It calls itself for the messages in that
/// message, so the stack is taken as deep as messages stand within one another.
#[cycle(missing)]
pub fn slice_missing<T: RequiredSlice>(
    messages: T,
    index: usize,
    alloc: Global,
) -> Result<Option<FieldPath>, AllocError>
    requires { index < length (T.views messages) }
    ensures { IfOk result (λ path. path ≡ family_missing T.family T.asked (T.sort messages)
        (message_at (T.family.table (T.sort messages)) (T.views messages) index)) }
{
    if let Some(path) = messages.run_missing(index, alloc, 0)? {
        return Ok(Some(path));
    }
    for row in 0..messages.row_count() {
        let requirement = messages.row_requirement(row);
        if let Some(path) = missing_in_row(requirement, messages.row_messages(index, row), alloc)? {
            return Ok(Some(path));
        }
        if let Some(path) = messages.run_missing(index, alloc, row + 1)? {
            return Ok(Some(path));
        }
    }
    Ok(None)
}

// What the messages of a row lack, or that a required one is not there.
#[cycle(missing)]
fn missing_in_row<T: RequiredSlice>(
    requirement: RowRequirement,
    messages: T,
    alloc: Global,
) -> Result<Option<FieldPath>, AllocError>
    ensures { IfOk result (λ path. path ≡ row_missing (row_seen requirement)
        (map (family_missing T.family T.asked (T.sort messages)) (T.views messages))) }
{
    match requirement {
        RowRequirement::Each(name) => behind_field(missing_in_list(messages, alloc)?, name),
        RowRequirement::Once(_) if messages.message_count() == 0 => Ok(None),
        RowRequirement::Once(name) => behind_field(slice_missing(messages, 0, alloc)?, name),
        RowRequirement::Needed(name) if messages.message_count() == 0 => {
            Ok(Some(FieldPath::to_field(alloc, name)?))
        }
        RowRequirement::Needed(name) => behind_field(slice_missing(messages, 0, alloc)?, name),
    }
}

// What the first of the messages lacks that lacks something.
#[cycle(missing)]
fn missing_in_list<T: RequiredSlice>(
    messages: T,
    alloc: Global,
) -> Result<Option<FieldPath>, AllocError>
    ensures { IfOk result (λ path. path ≡ each_from (λ m. m) 0
        (map (family_missing T.family T.asked (T.sort messages)) (T.views messages))) }
{
    for index in 0..messages.message_count() {
        if let Some(path) = slice_missing(messages, index, alloc)? {
            return Ok(Some(path.behind(PathStep::Index(index))?));
        }
    }
    Ok(None)
}
