//! Lines of eighty columns, read from any source and written to any sink, and the values that
//! stand in their columns.
#![tactic(auto)]

mod activities;
mod ahead;
mod clock;
mod day;
mod days_run;
mod field;
pub mod laws;
mod line;
mod line_reader;
mod lines;
mod plain_test;
mod refusal;
mod sink;
mod source;
mod stp;
mod text;
mod trials;

pub use activities::Activities;
pub use ahead::{ContentReader, Most, NextContent, line_of};
pub use clock::{PublicTime, WorkTime};
pub use day::{DAYS_IN_WEEK, Day, digits_of};
pub use days_run::DaysRun;
pub use field::{Field, activities_at, columns_at, field_at, text_at, uid_at};
pub use line::{LINE_WIDTH, Line, LineBuilder, are_printable, as_text, is_printable};
pub use line_reader::{Content, LineReader, MAX_LINES};
pub use lines::{LineSlice, LineTexts, Lines, used_columns};
pub use plain_test::PlainTest;
pub use refusal::{LineFault, Refusal};
pub use sink::{Sink, WriteDevice, WriteFault};
pub use source::{ReadDevice, ReadFault, Source};
pub use stp::Stp;
pub use text::{Text, Uid};
pub use trials::{End, TrialReader, TrialWriter};
