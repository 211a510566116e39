//! The lists of `station.Station`, which a program hands in beside the struct.
use crate::report_sample::ReportSampleInC;
use wire_structs::SliceInC;

/// The lists of a station that is written.
#[repr(C)]
#[derive(Clone, Copy)]
pub struct StationListsInC<'a> {
    pub tags: &'a [SliceInC<'a>],
    pub samples: &'a [ReportSampleInC<'a>],
}
