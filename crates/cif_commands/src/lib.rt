//! The commands of `cif`, for whoever has words, inputs and an output: what the words ask for, what each command answers, and what
//! goes to the output, to the errors and to the status of a call. [`Program::run`] is the whole of a call.
#![tactic(auto)]

mod advice;
mod answers;
mod command_line;
mod escaped;
mod feed_run;
mod files;
mod help;
mod input;
mod job;
mod last_read;
mod output;
mod program;
mod status;
mod verbosity;
mod words;

pub use advice::{Advice, DoneJob, DonePrepare, DoneUpdates};
pub use answers::{Kept, run_job};
pub use escaped::Escaped;
pub use feed_run::{run_prepare, run_update, run_winners};
pub use files::Files;
pub use input::{Device, Input, START};
pub use job::{
    BoardJob, CalendarJob, CanonicalJob, ClashesJob, CompareJob, DayJob, DiffJob, ExplainJob,
    FeedJob, InputNames, Inputs, Job, JobFault, PrepareJob, Request, TableJob, Task, TrainJob,
    UpdateJob, WinnersJob, run_fault,
};
pub use last_read::LastRead;
pub use output::Output;
pub use program::Program;
pub use status::{DONE, Ended, USAGE_ERROR, end};
pub use verbosity::Verbosity;
pub use words::{bad_word, task_of};
