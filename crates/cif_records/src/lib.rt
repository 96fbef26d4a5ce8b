//! The records of the CIF timetable format, read from a line and written to one.
#![tactic(auto)]

mod association;
mod basic;
mod change;
mod detail;
mod extra;
mod header;
pub mod laws;
mod layout;
mod origin;
mod record;
mod stop;
mod terminus;
mod tiploc;
mod trailer;

pub use association::{AssocBody, AssocKey, Association};
pub use basic::{Basic, BasicTerms};
pub use change::Change;
pub use detail::Detail;
pub use extra::Extra;
pub use header::Header;
pub use layout::{DateRange, dates_at, field_or};
pub use origin::Origin;
pub use record::{
    Kind, Record, are_plain, is_plain_line, kind_of, plain_line_of, read_record, write_record,
};
pub use stop::Stop;
pub use terminus::Terminus;
pub use tiploc::Tiploc;
pub use trailer::Trailer;
