//! What is said to people after the lines of a call.
use crate::answers::Kept;
use crate::files::Files;
use crate::input::Input;
use crate::job::{Job, JobFault, PrepareJob};
use crate::verbosity::Verbosity;
use cif_columns::Source;
use cif_extract::Fault;
use cif_feed::{Dropped, FeedFault, KeptPrepare, KeptUpdate};

/// What a program says to people on standard error, once a call is answered: its texts are the program's own, and change
/// nothing of the answer. Each call gives whole lines, or nothing.
pub trait Advice<F: Files, W> {
    /// Of a job of extracts.
    fn on_job(
        &self,
        done: &DoneJob<'_, '_, F, W>,
        answer: &Result<u8, Fault>,
        kept: &mut Kept,
    ) -> Vec<u8>;

    /// Of `prepare`, with `--winners` or without.
    fn on_prepare(
        &self,
        done: &DonePrepare<'_, '_, '_, F, W>,
        answer: &Result<Dropped, FeedFault>,
        kept: &KeptPrepare,
    ) -> Vec<u8>;

    /// Of `update`.
    fn on_update(
        &self,
        done: &DoneUpdates<'_, '_, F, W>,
        answer: &Result<(), FeedFault>,
        kept: &KeptUpdate,
    ) -> Vec<u8>;

    /// Of words that ask for nothing.
    fn on_words(&self, fault: &JobFault) -> Vec<u8>;
}

/// A job of extracts that was done.
#[derive(Drop)]
pub struct DoneJob<'a, 'b, F: Files, W> {
    pub verbosity: Verbosity,
    pub job: &'a Job,
    pub output: &'a W,
    pub left: &'a Input<'b, F>,
    /// A job with one input has read nothing of it.
    pub right: &'a Input<'b, F>,
}

/// A job of `prepare` that was done.
#[derive(Drop)]
pub struct DonePrepare<'a, 'h, 'b, F: Files, W> {
    pub verbosity: Verbosity,
    pub job: &'a PrepareJob,
    pub output: &'a W,
    // Lent for as long as the extract, it would be more than the borrow checker covers.
    pub holidays: Option<&'h Source<Input<'b, F>>>,
    pub extract: &'a Input<'b, F>,
}

/// A job of `update` that was done.
#[derive(Drop)]
pub struct DoneUpdates<'a, 'b, F: Files, W> {
    pub verbosity: Verbosity,
    pub output: &'a W,
    pub full: &'a Input<'b, F>,
    pub updates: &'a [Source<Input<'b, F>>],
}
