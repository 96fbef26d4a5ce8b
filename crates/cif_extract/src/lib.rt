//! Extracts of the CIF timetable format: reading a whole one, what is refused and where, and the printing
//! of records.
#![tactic(auto)]

mod call;
mod extract;
mod fault;
pub mod laws;
mod place;
mod reading;
mod writing;

pub use call::{Call, Calls};
pub use extract::{Body, Extract, Schedule};
pub use fault::{Clash, Fault};
pub use reading::{Reading, TakeFault, read_extract};
pub use writing::{
    ScheduleWriter, write_association, write_head, write_schedule, write_tiploc, write_trailer,
};
