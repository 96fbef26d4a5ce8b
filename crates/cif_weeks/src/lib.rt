//! Masks of weeks and records that are joined over weeks, in three canonical forms, and why what
//! runs on each day determines them.
#![tactic(auto)]

mod body_runs;
mod calendar_runs;
mod few;
mod fewest;
mod form;
pub mod laws;
mod span;

pub use calendar_runs::runs;
pub use few::runs_of_few;
pub use form::{Form, Run};
