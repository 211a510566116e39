//! Which fields of a message of many are parts by themselves.
use std::alloc::Global;
use wire_schema::{Field, GenerateError};

// The fields of a part by itself, where there are more: a tuple of many kinds is not proved. Maps
// count for more, and those of closed enums for more still.
const PART: usize = 8;

const PART_OF_MAPS: usize = 4;

const PART_OF_CLOSED_MAPS: usize = 2;

// The most fields of a message whose records one function takes, and the fields of a group where
// there are more: parts that are a part.
const MOST_FLAT: usize = 80;

const GROUP: usize = 64;

// The same of a leaf, whose fields are not cut into parts besides.
const MOST_OF_LEAF: usize = 48;

const GROUP_OF_LEAF: usize = 32;

/// Fields in a row, and how many of them are maps.
#[derive(Clone, Copy)]
pub(crate) struct Span {
    pub first: usize,
    pub behind: usize,
    maps: usize,
    has_closed: bool,
    is_of_leaf: bool,
}

impl Span {
    fn of(place: usize, field: &Field) -> Span {
        let maps = field.words.get("maps");
        Span {
            first: place,
            behind: place.saturating_add(1),
            maps: maps.len(),
            has_closed: maps == "c",
            is_of_leaf: false,
        }
    }

    fn with(self, next: Span) -> Span {
        Span {
            first: self.first,
            behind: next.behind,
            maps: self.maps.saturating_add(next.maps),
            has_closed: self.has_closed || next.has_closed,
            is_of_leaf: false,
        }
    }

    fn len(self) -> usize {
        self.behind.saturating_sub(self.first)
    }

    // The most fields of a part with these maps.
    fn most(self) -> usize {
        match self.maps {
            0 | 1 => PART,
            _ if self.has_closed => PART_OF_CLOSED_MAPS,
            _ => PART_OF_MAPS,
        }
    }
}

/// Whether the fields of a message of so many stand in groups.
pub fn has_groups(count: usize) -> bool {
    count > MOST_FLAT
}

// Whether so many fields of a leaf stand in groups.
fn leaf_has_groups(count: usize) -> bool {
    count > MOST_OF_LEAF
}

/// Whether a part of these fields is no group of such.
pub(crate) fn is_few(first: usize, behind: usize) -> bool {
    behind.saturating_sub(first) <= PART
}

/// Whether this is a group behind which others stand.
pub(crate) fn is_before_others(span: Span, count: usize) -> bool {
    let is_group = span.is_of_leaf || has_groups(count) && span.len() == GROUP;
    is_group && span.behind < count
}

/// The groups of a leaf of so many fields: none where they are few.
pub(crate) fn groups_of_leaf(alloc: Global, count: usize) -> Result<Vec<Span>, GenerateError> {
    let mut groups = Vec::new(alloc);
    let mut first: usize = 0;
    for _ in 0..count {
        if !leaf_has_groups(count) || count <= first {
            break;
        }
        let behind = first.saturating_add(GROUP_OF_LEAF).min(count);
        groups.push(Span {
            first,
            behind,
            maps: 0,
            has_closed: false,
            is_of_leaf: true,
        })?;
        first = behind;
    }
    Ok(groups)
}

/// The parts by themselves, an inner one before the one that it is in.
pub(crate) fn parts_of(alloc: Global, fields: &[Field]) -> Result<Vec<Span>, GenerateError> {
    let mut parts = Vec::new(alloc);
    let mut spans = Vec::new(alloc);
    let mut is_leaving = false;
    let is_grouped = has_groups(fields.len());
    for (place, field) in fields.iter().enumerate() {
        spans.push(Span::of(place, field))?;
        is_leaving |= field.words.get("both") == "both_leaving";
    }
    // Each turn halves the number of spans.
    for _ in 0..usize::BITS {
        if spans.len() < 2 {
            break;
        }
        let mut next = Vec::new(alloc);
        let mut left: Option<Span> = None;
        for span in spans {
            let Some(first) = left.take() else {
                left = Some(span);
                continue;
            };
            // (with a closed enum the search finds only what a part by itself has)
            if (is_leaving || is_grouped) && first.len() >= PART && span.len() < PART {
                put_part(span, &mut parts)?;
            }
            if is_grouped && first.len() >= GROUP && span.len() < GROUP {
                put_part(span, &mut parts)?;
            }
            let both = first.with(span);
            let is_part = both.len() == both.most() || both.len() == PART;
            if is_part && both.most() < fields.len() || is_grouped && both.len() == GROUP {
                put_part(both, &mut parts)?;
            }
            next.push(both)?;
        }
        if let Some(last) = left {
            next.push(last)?;
        }
        spans = next;
    }
    Ok(parts)
}

// Puts a part behind those that are there, once.
fn put_part(span: Span, parts: &mut Vec<Span>) -> Result<(), GenerateError> {
    let is_there = parts
        .iter()
        .any(|it| it.first == span.first && it.behind == span.behind);
    if !is_there {
        parts.push(span)?;
    }
    Ok(())
}
