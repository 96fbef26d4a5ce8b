//! A call of the program, from its words to what goes out and to the status.
ghost use Rattle.std.specs.Prelude.{◌≡◌, ◌||◌, ◌⊎◌, IfErr, IfOk, MatchResult, map, string_bytes, true};
ghost use Rattle.std.specs.List.{list_any};
ghost use Rattle.cif_commands.specs.{Input.given_by, Job.names_of, Verbosity.helps};
ghost use Rattle.cif_commands.specs.declared.job.Task.TheVariants.{Feed};
ghost use Rattle.cif_commands.specs.Program.{AreWinnersDone, IsDone, IsJobDone, IsPrepareDone, IsUpdateDone};
ghost use Rattle.cif_commands.specs.Program.{IsDoneAndAdvised, IsFaultAnswered, ProgramAnswers, is_verbose, told_by};

use crate::advice::{Advice, DoneJob, DonePrepare, DoneUpdates};
use crate::answers::run_job;
use crate::feed_run::{run_prepare, run_update, run_winners};
use crate::files::Files;
use crate::input::{FeedInputs, Input, JobInputs, Opening, UpdateInputs};
use crate::job::{FeedJob, Job, JobFault, PrepareJob, Request, Task, UpdateJob, run_fault};
use crate::status::end;
use crate::verbosity::Verbosity;
use crate::words::task_of;
use cif_columns::{ReadDevice, Sink, Source, WriteDevice};
use cif_extract::Fault;
use cif_rows::Format;
use std::alloc::{AllocError, Global};
use std::io::Read;
use std::mem::ManuallyDrop;

/// What calls of the program stand in.
#[derive(Clone, Copy)]
pub struct Program<F, A> {
    pub alloc: Global,
    /// What opens the inputs.
    pub files: F,
    /// Whether people read the errors: they get advice then, also without `--verbose`.
    pub is_terminal: bool,
    pub advice: A,
}

impl<F: Files, A> Program<F, A> {
    /// Does what the words ask for, of which the first is the program's name, and returns the status to exit with. The answer
    /// goes to `output`. The line of a fault, or what is reported of an answer, goes to `errors`, and advice after it; that
    /// these can't be written changes no status.
    pub fn run<W: WriteDevice, E: WriteDevice>(
        &self,
        words: Vec<String>,
        output: &mut Sink<W>,
        errors: &mut Sink<E>,
    ) -> u8
    where
        A: Advice<F, W>,
        ensures { ProgramAnswers (told_by ⟦<Input<'static, F> as Read>⟧.remaining ⟦<Input<'static, F> as ReadDevice>⟧.read_errors
            (given_by (F.of_standard self.now.files) (F.of_file self.now.files))
            W.contents W.write_errors W.holds_nothing E.contents E.write_errors)
            self.now.is_terminal (map string_bytes words.items) output.old output.new errors.old errors.new result }
    {
        let asks_more = has_verbose(words.as_slice());
        match task_of(self.alloc, words) {
            Ok(request) => match self.done(&request, output, errors) {
                Ok(status) => status,
                Err(AllocError) => end(&Err(Fault::Memory), errors),
            },
            Err(fault) => self.refused(&fault, asks_more, output, errors),
        }
    }

    /// Does what the request asks for, and returns the status. Returns an error if an input can't be allocated.
    fn done<W: WriteDevice, E: WriteDevice>(
        &self,
        request: &Request,
        output: &mut Sink<W>,
        errors: &mut Sink<E>,
    ) -> Result<u8, AllocError>
    where
        A: Advice<F, W>,
        ensures { IsDoneAndAdvised (told_by ⟦<Input<'static, F> as Read>⟧.remaining ⟦<Input<'static, F> as ReadDevice>⟧.read_errors
            (given_by (F.of_standard self.now.files) (F.of_file self.now.files))
            W.contents W.write_errors W.holds_nothing E.contents E.write_errors)
            (self.now.is_terminal || request.now.verbose) (λ told. IsDone told request.now.task) (names_of request.now.inputs)
            output.old output.new errors.old errors.new result }
    {
        match &request.task {
            Task::Extract(job) => self.job_done(job, request, output, errors),
            Task::Feed(job) => self.feed_done(job, request, output, errors),
        }
    }

    /// The same of published extracts.
    fn feed_done<W: WriteDevice, E: WriteDevice>(
        &self,
        job: &FeedJob,
        request: &Request,
        output: &mut Sink<W>,
        errors: &mut Sink<E>,
    ) -> Result<u8, AllocError>
    where
        A: Advice<F, W>,
        ensures { IsDoneAndAdvised (told_by ⟦<Input<'static, F> as Read>⟧.remaining ⟦<Input<'static, F> as ReadDevice>⟧.read_errors
            (given_by (F.of_standard self.now.files) (F.of_file self.now.files))
            W.contents W.write_errors W.holds_nothing E.contents E.write_errors)
            (self.now.is_terminal || request.now.verbose) (λ told. IsDone told (Feed job.now)) (names_of request.now.inputs)
            output.old output.new errors.old errors.new result }
    {
        match job {
            FeedJob::Prepare(job) => self.prepared(job, request, output, errors),
            FeedJob::Winners(job) => {
                self.winners_shown(&job.prepare, job.format, request, output, errors)
            }
            FeedJob::Update(job) => self.updated(job, request, output, errors),
        }
    }

    /// Answers the job of extracts.
    // Inlined, it would keep its inputs on the stack while a feed is read.
    #[inline(never)]
    fn job_done<W: WriteDevice, E: WriteDevice>(
        &self,
        job: &Job,
        request: &Request,
        output: &mut Sink<W>,
        errors: &mut Sink<E>,
    ) -> Result<u8, AllocError>
    where
        A: Advice<F, W>,
        ensures { IsDoneAndAdvised (told_by ⟦<Input<'static, F> as Read>⟧.remaining ⟦<Input<'static, F> as ReadDevice>⟧.read_errors
            (given_by (F.of_standard self.now.files) (F.of_file self.now.files))
            W.contents W.write_errors W.holds_nothing E.contents E.write_errors)
            (self.now.is_terminal || request.now.verbose) (λ told. IsJobDone told job.now) (names_of request.now.inputs)
            output.old output.new errors.old errors.new result }
    {
        let opening = self.opening(request);
        let inputs = opening.job_inputs(&request.inputs)?;
        let JobInputs {
            mut left,
            mut right,
        } = inputs;
        let ended = run_job(self.alloc, job, &mut *left, &mut *right, output, errors);
        let status = ended.status;
        // The process ends after this: the system takes back the memory of all bodies at once.
        let mut ended = ManuallyDrop::new(ended);
        if !opening.verbosity.helps() {
            return Ok(status);
        }
        let done = DoneJob {
            verbosity: opening.verbosity,
            job,
            output: output.writer(),
            left: left.reader(),
            right: right.reader(),
        };
        let ended = &mut *ended;
        let text = self.advice.on_job(&done, &ended.answer, &mut ended.kept);
        let _ = errors.write_all(text.as_slice());
        Ok(status)
    }

    /// Writes the prepared extract of the last input, with the holidays of the input before it, if there is one.
    // Inlined, it would keep its inputs on the stack beside those of `updated`.
    #[inline(never)]
    fn prepared<W: WriteDevice, E: WriteDevice>(
        &self,
        job: &PrepareJob,
        request: &Request,
        output: &mut Sink<W>,
        errors: &mut Sink<E>,
    ) -> Result<u8, AllocError>
    where
        A: Advice<F, W>,
        ensures { IsDoneAndAdvised (told_by ⟦<Input<'static, F> as Read>⟧.remaining ⟦<Input<'static, F> as ReadDevice>⟧.read_errors
            (given_by (F.of_standard self.now.files) (F.of_file self.now.files))
            W.contents W.write_errors W.holds_nothing E.contents E.write_errors)
            (self.now.is_terminal || request.now.verbose) (λ told. IsPrepareDone told job.now) (names_of request.now.inputs)
            output.old output.new errors.old errors.new result }
    {
        let opening = self.opening(request);
        let inputs = opening.feed_inputs(&request.inputs)?;
        let FeedInputs {
            mut holidays,
            mut extract,
        } = inputs;
        let ended = run_prepare(
            self.alloc,
            job,
            &mut holidays,
            &mut *extract,
            output,
            errors,
        );
        let status = ended.status;
        let ended = ManuallyDrop::new(ended);
        if !opening.verbosity.helps() {
            return Ok(status);
        }
        let done = DonePrepare {
            verbosity: opening.verbosity,
            job,
            output: output.writer(),
            holidays: holidays.as_ref(),
            extract: extract.reader(),
        };
        let text = self.advice.on_prepare(&done, &ended.answer, &ended.kept);
        let _ = errors.write_all(text.as_slice());
        Ok(status)
    }

    /// Writes which published record decides on each date of each train, in this format, of the inputs of `prepared`.
    #[inline(never)]
    fn winners_shown<W: WriteDevice, E: WriteDevice>(
        &self,
        job: &PrepareJob,
        format: Format,
        request: &Request,
        output: &mut Sink<W>,
        errors: &mut Sink<E>,
    ) -> Result<u8, AllocError>
    where
        A: Advice<F, W>,
        ensures { IsDoneAndAdvised (told_by ⟦<Input<'static, F> as Read>⟧.remaining ⟦<Input<'static, F> as ReadDevice>⟧.read_errors
            (given_by (F.of_standard self.now.files) (F.of_file self.now.files))
            W.contents W.write_errors W.holds_nothing E.contents E.write_errors)
            (self.now.is_terminal || request.now.verbose) (λ told. AreWinnersDone told job.now format) (names_of request.now.inputs)
            output.old output.new errors.old errors.new result }
    {
        let opening = self.opening(request);
        let inputs = opening.feed_inputs(&request.inputs)?;
        let FeedInputs {
            mut holidays,
            mut extract,
        } = inputs;
        let ended = run_winners(
            self.alloc,
            job,
            format,
            &mut holidays,
            &mut *extract,
            output,
            errors,
        );
        let status = ended.status;
        let ended = ManuallyDrop::new(ended);
        if !opening.verbosity.helps() {
            return Ok(status);
        }
        let done = DonePrepare {
            verbosity: opening.verbosity,
            job,
            output: output.writer(),
            holidays: holidays.as_ref(),
            extract: extract.reader(),
        };
        let text = self.advice.on_prepare(&done, &ended.answer, &ended.kept);
        let _ = errors.write_all(text.as_slice());
        Ok(status)
    }

    /// Writes what the updates make of the full extract, the first input.
    #[inline(never)]
    fn updated<W: WriteDevice, E: WriteDevice>(
        &self,
        job: &UpdateJob,
        request: &Request,
        output: &mut Sink<W>,
        errors: &mut Sink<E>,
    ) -> Result<u8, AllocError>
    where
        A: Advice<F, W>,
        ensures { IsDoneAndAdvised (told_by ⟦<Input<'static, F> as Read>⟧.remaining ⟦<Input<'static, F> as ReadDevice>⟧.read_errors
            (given_by (F.of_standard self.now.files) (F.of_file self.now.files))
            W.contents W.write_errors W.holds_nothing E.contents E.write_errors)
            (self.now.is_terminal || request.now.verbose) (λ told. IsUpdateDone told job.now) (names_of request.now.inputs)
            output.old output.new errors.old errors.new result }
    {
        let opening = self.opening(request);
        let inputs = opening.update_inputs(&request.inputs)?;
        let UpdateInputs {
            mut full,
            mut updates,
        } = inputs;
        let ended = run_update(
            self.alloc,
            job,
            &mut *full,
            updates.as_mut_slice(),
            output,
            errors,
        );
        let status = ended.status;
        let ended = ManuallyDrop::new(ended);
        if !opening.verbosity.helps() {
            return Ok(status);
        }
        let done = DoneUpdates {
            verbosity: opening.verbosity,
            output: output.writer(),
            full: full.reader(),
            updates: updates.as_slice(),
        };
        let text = self.advice.on_update(&done, &ended.answer, &ended.kept);
        let _ = errors.write_all(text.as_slice());
        Ok(status)
    }

    /// How the inputs of the request are opened.
    fn opening(&self, request: &Request) -> Opening<F>
        ensures files { result.files ≡ self.now.files }
        ensures helps { helps result.verbosity ≡ (self.now.is_terminal || request.now.verbose) }
    {
        Opening {
            alloc: self.alloc,
            files: self.files,
            verbosity: Verbosity::of(self.is_terminal, request.verbose),
        }
    }

    /// Says why the words ask for nothing, and returns the status: help and the version go to the output, all else to `errors`.
    // Inlined, it would keep its faults on the stack while the task is done.
    #[inline(never)]
    fn refused<W: WriteDevice, E: WriteDevice>(
        &self,
        fault: &JobFault,
        asks_more: bool,
        output: &mut Sink<W>,
        errors: &mut Sink<E>,
    ) -> u8
    where
        A: Advice<F, W>,
        ensures { IsFaultAnswered (told_by ⟦<Input<'static, F> as Read>⟧.remaining ⟦<Input<'static, F> as ReadDevice>⟧.read_errors
            (given_by (F.of_standard self.now.files) (F.of_file self.now.files))
            W.contents W.write_errors W.holds_nothing E.contents E.write_errors)
            (self.now.is_terminal || asks_more) fault.now output.old output.new errors.old errors.new result }
    {
        let status = run_fault(fault, output, errors);
        let verbosity = Verbosity::of(self.is_terminal, asks_more);
        if !verbosity.helps() {
            return status;
        }
        let text = self.advice.on_words(fault);
        let _ = errors.write_all(text.as_slice());
        status
    }
}

/// Whether one of the words asks for more on the errors.
fn has_verbose(words: &[String]) -> bool
    ensures { result ≡ list_any is_verbose (map string_bytes words.now) }
{
    for word in words {
        if is_verbose(word.as_str()) {
            return true;
        }
    }
    false
}

/// Whether the word asks for it.
fn is_verbose(word: &str) -> bool
    ensures { result ≡ is_verbose word.now }
{
    word == "-v" || word == "--verbose"
}
