//! What follows from the promises of several crates together: the theorem for published feeds, and what canonical extracts tell of
//! their inputs. It has no code: each function is a law.
#![tactic(auto)]

pub mod canonical;
pub mod canonical_answers;
pub mod feed_views;
pub mod feeds;
pub mod fewest_records;
