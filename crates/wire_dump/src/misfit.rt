//! Records that do not fit their fields.
use crate::field_name::shown_name;
use std::alloc::{AllocError, Global};
use std::fmt;
use wire_codec::DecodeError;
use wire_dynamic::{Field, Told, Walk};
use wire_read::{Reader, Value, laws};

/// What is said of a record that is no value of its field's type.
pub(crate) const TYPE_CAUSE: &str = "no value of its type";

/// Why a record does not fit its field.
#[derive(Debug, Drop)]
pub(crate) enum Cause {
    /// It is no value of the field's type.
    Type,
    /// It is no UTF-8.
    Text,
    /// It is a message within more messages and groups than are allowed.
    Depth,
    /// It is no message, for this cause at this byte of the input.
    Fault(DecodeError, usize),
}

impl fmt::Display for Cause {
    fn fmt<W: fmt::Write>(&self, f: &mut fmt::Formatter<W>) -> fmt::Result {
        match self {
            Cause::Type => f.write_str(TYPE_CAUSE),
            Cause::Text => f.write_str("no UTF-8 text"),
            Cause::Depth => f.write_str("too many levels"),
            Cause::Fault(error, place) => write!(f, "{error} at {place}"),
        }
    }
}

/// A record that does not fit its field: the path to it, and the byte at which it begins.
#[derive(Drop)]
pub(crate) struct Misfit {
    pub(crate) path: String,
    pub(crate) place: usize,
    pub(crate) cause: Cause,
}

impl Misfit {
    /// One of which no path is known yet.
    pub(crate) fn new(alloc: Global, place: usize, cause: Cause) -> Misfit {
        Misfit {
            path: String::new(alloc),
            place,
            cause,
        }
    }

    /// The same with a step of its path more, in front of the others.
    pub(crate) fn within(self, alloc: Global, step: &str) -> Result<Misfit, AllocError> {
        let Misfit { path, place, cause } = self;
        let path = if path.is_empty() {
            String::from_str(alloc, step)?
        } else {
            format!(in alloc; "{step}.{path}")?
        };
        Ok(Misfit { path, place, cause })
    }
}

/// The step of a path to an event: the names of the groups that it stands in, and its own, each with
/// its index where there may be more of its field.
pub(crate) fn step_to(
    alloc: Global,
    walk: &Walk<'_>,
    told: &Told<'_, '_>,
    bytes: &[u8],
) -> Result<String, AllocError> {
    let front = &bytes[..told.event.start.min(bytes.len())];
    let open = walk.reader().open_groups();
    let mut step = String::new(alloc);
    let mut groups = open.len();
    if let Value::GroupStart = told.event.value {
        groups = groups.saturating_sub(1);
    }
    for count in 0..groups {
        if let (Some(field), Some(number)) = (walk.group(count), open.get(count)) {
            let before = Before {
                front,
                number: *number,
                groups: count,
            };
            push_name(alloc, &mut step, field, &before)?;
            step.push('.')?;
        }
    }
    if let Some(field) = told.field {
        let before = Before {
            front,
            number: told.event.number,
            groups,
        };
        push_name(alloc, &mut step, field, &before)?;
    }
    Ok(step)
}

// Puts the name of a field, with the index of its record where there may be more of them.
fn push_name(
    alloc: Global,
    step: &mut String,
    field: &Field,
    before: &Before<'_>,
) -> Result<(), AllocError> {
    step.push_str(shown_name(field))?;
    if field.is_repeated {
        let index = before.count();
        step.push_str(&format!(in alloc; "[{index}]")?)?;
    }
    Ok(())
}

// What stands before a record: the bytes, its number, and how many groups it stands in.
#[derive(Drop)]
struct Before<'a> {
    front: &'a [u8],
    number: u32,
    groups: usize,
}

impl Before<'_> {
    // How many records of the number stand in the innermost of the groups.
    fn count(&self) -> usize {
        laws::reader_moves_on();
        let mut reader = Reader::new(100);
        let mut count: usize = 0;
        while let Ok(Some(event)) = reader.next(self.front) {
            let open = reader.open_groups().len();
            let is_start = matches!(event.value, Value::GroupStart);
            if open < self.groups {
                count = 0;
            } else if open == self.groups && event.number == self.number && !is_start {
                count = count.saturating_add(1);
            }
        }
        count
    }
}
