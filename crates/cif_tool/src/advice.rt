//! What the program says to people after the lines of a call: with `--verbose`, or where standard error is a terminal.
use crate::feed_advice::{prepare_advice, update_advice};
use crate::files::{ProcessFiles, ProcessOutput};
use crate::job_advice::job_advice;
use crate::word_advice::word_advice;
use crate::words_of;
use cif_commands::{Advice, DoneJob, DonePrepare, DoneUpdates, JobFault, Kept};
use cif_extract::Fault;
use cif_feed::{Dropped, FeedFault, KeptPrepare, KeptUpdate};

/// The texts of this program.
#[derive(Clone, Copy)]
pub(crate) struct ProcessAdvice {
    pub(crate) rt: HostRuntime,
}

impl Advice<ProcessFiles, ProcessOutput> for ProcessAdvice {
    fn on_job(
        &self,
        done: &DoneJob<'_, '_, ProcessFiles, ProcessOutput>,
        answer: &Result<u8, Fault>,
        kept: &mut Kept,
    ) -> Vec<u8> {
        job_advice(self.rt, done, answer, kept)
    }

    fn on_prepare(
        &self,
        done: &DonePrepare<'_, '_, '_, ProcessFiles, ProcessOutput>,
        answer: &Result<Dropped, FeedFault>,
        kept: &KeptPrepare,
    ) -> Vec<u8> {
        prepare_advice(self.rt, done, answer, kept)
    }

    fn on_update(
        &self,
        done: &DoneUpdates<'_, '_, ProcessFiles, ProcessOutput>,
        answer: &Result<(), FeedFault>,
        kept: &KeptUpdate,
    ) -> Vec<u8> {
        update_advice(self.rt, done, answer, kept)
    }

    fn on_words(&self, fault: &JobFault) -> Vec<u8> {
        word_advice(self.rt, fault)
    }
}
