//! The messages of `station.proto` and of `report.proto` that it holds, as structs for C: the
//! library below `wire_station_c`. What is written here by hand is what a generator would write.
#![tactic(auto)]

pub mod laws;
mod read;
mod report_sample;
mod station;
mod station_fields;
mod station_list_fields;
mod station_lists;
mod station_power;
mod station_samples;
mod station_tags;
mod write;

pub use read::{read_report_sample, read_station};
pub use report_sample::ReportSampleInC;
pub use station::StationInC;
pub use station_lists::StationListsInC;
pub use station_power::StationPowerInC;
pub use station_samples::next_station_sample;
pub use station_tags::next_station_tag;
pub use write::{
    report_sample_size, report_sample_size_keeping, station_size, station_size_keeping,
    write_report_sample, write_report_sample_keeping, write_station, write_station_keeping,
};
