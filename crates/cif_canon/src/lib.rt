//! The canonical extract of a CIF extract, how two extracts compare and differ, what runs on a day,
//! and when a train runs.
#![tactic(auto)]

mod asked;
mod canon_lines;
mod canonical_form;
mod canonical_schedules;
mod comparison;
mod difference_lines;
mod differing;
mod extract_runs;
pub mod laws;
mod listed_differences;
mod normal_form;
mod only_days;
pub mod rows;
mod tiplocs;
mod views;
pub mod writing;

pub use asked::{Asked, check_within, narrow, read_pair};
pub use canon_lines::CanonListing;
pub use canonical_form::{Canon, CanonRecord, CanonSchedule, Counts, write_counts};
pub use canonical_schedules::{CanonSchedules, canon_schedules};
pub use comparison::{Comparison, compare, write_comparison};
pub use differing::differences;
pub use listed_differences::{Differences, ListedRecord, Side, Sided};
pub use normal_form::{canon, check, narrowed_canon, normalise, read_canon, read_narrowed, report};
pub use tiplocs::distinct_tiplocs;
pub use views::{DayLines, TrainLines, day_view, train_view, write_day, write_train};
