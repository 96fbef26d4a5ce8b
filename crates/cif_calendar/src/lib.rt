//! Which record of a timetable wins on each date, and what runs.
#![tactic(auto)]

mod applies;
mod by_key;
mod clashing_dates;
mod day_state;
mod entry;
mod key_calendar;
mod key_clashes;
pub mod laws;
mod named_clashes;
mod standing;
mod stretch;

pub use applies::{Dates, Window, precedence};
pub use by_key::{FirstKey, count_of_first_key, first_key, positions_by_key, positions_of_key};
pub use clashing_dates::clash_dates;
pub use day_state::{DayState, day_states};
pub use entry::{Entry, RankedEntry, same_body, uid_number};
pub use key_calendar::{Calendar, CalendarFault, Piece};
pub use key_clashes::{KeyClash, clashing_keys};
pub use named_clashes::{NamedEntry, add_named};
pub use stretch::calendar;
