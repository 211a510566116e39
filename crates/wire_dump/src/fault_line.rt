//! The line on standard error of where and why the input is broken.
use crate::field_name::shown_name;
use std::fmt;
use wire_dynamic::{Field, Walk};
use wire_frames::FrameError;
use wire_read::{Fault, Reader};
use wire_run::{FramePlace, Source};

/// Where records stand in the input. It is printed as the input and, in a log, the frame.
#[derive(Clone, Copy, Debug)]
pub(crate) struct RecordsPlace<'a> {
    pub(crate) source: Source<'a>,
    /// The frame whose payload they are.
    pub(crate) frame: Option<FramePlace>,
    /// The byte of the input at which they begin.
    pub(crate) place: usize,
}

impl fmt::Display for RecordsPlace<'_> {
    fn fmt<W: fmt::Write>(&self, f: &mut fmt::Formatter<W>) -> fmt::Result {
        match self.frame {
            Some(frame) => write!(f, "{}: {frame}", self.source),
            None => write!(f, "{}", self.source),
        }
    }
}

/// Where the record begins and the part at fault, the numbers of the open groups, and why.
pub(crate) fn tell_fault(
    rt: &impl Eprint,
    records: &RecordsPlace<'_>,
    fault: &Fault,
    reader: &Reader,
) {
    let _ = eprintln!(rt;
        "wire_dump: {records}: record at {}, {:?} at {}, in groups {:?}: {:?}: {}",
        records.place.saturating_add(fault.record_place),
        fault.part,
        records.place.saturating_add(fault.part_place),
        reader.open_groups(),
        fault.error,
        fault.error
    );
}

/// The same of a message whose type is known: the field of the record and the groups have their
/// names, where the schema has them.
pub(crate) fn tell_named_fault(
    rt: &impl Eprint,
    records: &RecordsPlace<'_>,
    fault: &Fault,
    walk: &Walk<'_>,
    field: Option<&Field>,
) {
    let _ = eprintln!(rt;
        "wire_dump: {records}: record at {}{}, {:?} at {}, in groups [{}]: {:?}: {}",
        records.place.saturating_add(fault.record_place),
        OfField { field },
        fault.part,
        records.place.saturating_add(fault.part_place),
        OpenGroups { walk },
        fault.error,
        fault.error
    );
}

// ` of name`, where there is a field.
#[derive(Drop)]
struct OfField<'s> {
    field: Option<&'s Field>,
}

impl fmt::Display for OfField<'_> {
    fn fmt<W: fmt::Write>(&self, f: &mut fmt::Formatter<W>) -> fmt::Result {
        match self.field {
            Some(field) => write!(f, " of {}", shown_name(field)),
            None => Ok(()),
        }
    }
}

// The groups that are open, the outermost first: by their names, or else by their numbers.
#[derive(Drop)]
struct OpenGroups<'w, 's> {
    walk: &'w Walk<'s>,
}

impl fmt::Display for OpenGroups<'_, '_> {
    fn fmt<W: fmt::Write>(&self, f: &mut fmt::Formatter<W>) -> fmt::Result {
        for (count, number) in self.walk.reader().open_groups().iter().enumerate() {
            if count > 0 {
                f.write_str(", ")?;
            }
            match self.walk.group(count) {
                Some(field) => f.write_str(shown_name(field))?,
                None => write!(f, "{number}")?,
            }
        }
        Ok(())
    }
}

/// Where the frame begins, and why it is none.
pub(crate) fn tell_frame_error(
    rt: &impl Eprint,
    source: Source<'_>,
    frame: FramePlace,
    error: &FrameError,
) {
    let _ = eprintln!(rt; "wire_dump: {source}: {frame}: {error}");
}
