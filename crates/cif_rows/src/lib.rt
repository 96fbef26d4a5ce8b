//! What listings say: rows of fields with names, and the formats in which they are written.
//!
//! A view pushes the fields of a row, one after another, into `Rows`, and ends the row. It doesn't know
//! the format: `Rows<Tsv>` writes a row as a line with a tab between the fields, `Rows<Json>` as an object.
#![tactic(auto)]

mod format;
pub mod laws;
mod numeral;
mod rows;
mod shape;

pub use format::{Format, Json, Padded, RowFormat, Tsv};
pub use numeral::Numeral;
pub use rows::{GivenField, Rows, is_plain};
pub use shape::{Padding, Shape, long_date};
