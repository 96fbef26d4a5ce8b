//! What one extract says, for people and for other tools: why a train runs on a day, which records
//! clash, and what runs, as text or as tables.
#![tactic(auto)]

mod board;
mod board_text;
mod boards;
mod calendar_dates;
mod calendar_weeks;
mod calls;
mod clash_list;
mod columns;
mod difference_table;
mod explanation;
mod find_clashes;
pub mod laws;
mod line_fields;
mod listing;
mod marks;
mod moment;
mod places;
mod public_calls;
mod public_stop;
mod tables;

pub use board::{Board, BoardKind};
pub use boards::{are_at, write_board};
pub use calendar_dates::date_calendar;
pub use calendar_weeks::week_calendar;
pub use clash_list::Clashes;
pub use difference_table::write_difference_table;
pub use explanation::{explain_listing, explain_view};
pub use find_clashes::clashes;
pub use listing::{Listing, day_listing, train_listing};
pub use places::{Locations, Place, tiploc_of};
pub use tables::{Table, write_table};
