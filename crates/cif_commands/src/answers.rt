//! What each command answers, for any devices, and which of them a job asks for.
ghost use Rattle.std.specs.Prelude.{◌≡◌, ℕ, List, IfErr};
ghost use Rattle.cif_canon.specs.Fault.{IsNormaliseFault};
ghost use Rattle.cif_columns.specs.{Sink.Writes, declared.line_reader.TheConstants.MAX_LINES};
ghost use Rattle.cif_extract.specs.declared.fault.Fault.TheVariants.{Write};
ghost use Rattle.cif_feed.specs.FeedAnswer.{IsHandedOn};
ghost use Rattle.cif_commands.specs.Answer.{Answers, AreAnswered, AreComparedAs, Finishes, IsAnswered, IsBoardAnswer, IsCalendarAnswer, IsCheckAllAnswer};
ghost use Rattle.cif_commands.specs.Answer.{IsClashesAnswer, IsClashlessRefusal, IsCanonicalAnswer, IsDayAnswer, IsDayRefusal, IsPairAnswer};
ghost use Rattle.cif_commands.specs.Answer.{IsExplainAnswer, IsExplainRefusal, IsJobAnswer, IsJobResult, IsTrainAnswer, answering};
ghost use Rattle.cif_commands.specs.Answer.{IsCalendarIn, answering_all, canonical_text, clashes_in, differences_in};
ghost use Rattle.cif_canon.specs.Normalised.{FaultWrites, IfWritten};
ghost use Rattle.cif_extract.specs.ExtractParts.{extract_parts};
ghost use Rattle.cif_views.specs.WeekCalendar.{IsWeekCalendarFault};
ghost use Rattle.cif_commands.specs.Status.{ReportsFault, end_status};

use crate::job::{
    BoardJob, CalendarJob, CanonicalJob, ClashesJob, CompareJob, DayJob, ExplainJob, Job, TrainJob,
};
use crate::status::{DONE, Ended, REFUSED, end, listed, outcome};
use cif_canon::{
    Canon, Differences, compare, differences, narrowed_canon, read_canon, read_narrowed, read_pair,
    write_comparison, write_counts,
};
use cif_columns::{MAX_LINES, ReadDevice, Sink, Source, WriteDevice};
use cif_extract::{Extract, Fault, read_extract};
use cif_feed::{Judged, Reasons};
use cif_rows::Format;
use cif_views::{
    Clashes, Table, clashes, date_calendar, day_listing, explain_listing, train_listing,
    week_calendar, write_board, write_difference_table, write_table,
};
use std::alloc::Global;

/// What a command leaves to its caller.
#[derive(Drop)]
pub struct Kept {
    /// The extract that it has read: of two inputs the left one. `clashes` leaves none.
    pub left: Option<Extract>,
    /// The right one of two inputs.
    pub right: Option<Extract>,
    /// The reasons that `check --all` has listed.
    pub reasons: Option<Reasons>,
}

/// What is written of a canonical extract.
#[derive(Clone, Copy)]
pub enum CanonicalOutput {
    /// Its text.
    Extract,
    /// How many records it has.
    Counts,
    /// This table of it, in this format.
    Table(Table, Format),
}

/// Writes this of the canonical extract of what the source gives, and answers status 0.
pub fn answer_canonical<R: ReadDevice, W: WriteDevice>(
    alloc: Global,
    source: &mut Source<R>,
    sink: &mut Sink<W>,
    job: &CanonicalJob,
    output: CanonicalOutput,
    kept: &mut Option<Extract>,
) -> Result<u8, Fault>
    ensures { IsAnswered R.remaining R.read_errors W.contents W.write_errors W.holds_nothing
        (IsCanonicalAnswer output job.now) (answering (IsNormaliseFault MAX_LINES job.now.asked))
        source.old source.new sink.old sink.new result }
{
    let canon = read_canon(alloc, source, MAX_LINES, &job.asked, job.form, kept)?;
    let written = write_canonical(&canon, output, sink);
    finish(written, sink, DONE)
}

/// Writes this of the canonical form.
fn write_canonical<W: WriteDevice>(
    canon: &Canon<'_>,
    output: CanonicalOutput,
    sink: &mut Sink<W>,
) -> Result<(), Fault>
    ensures writes { Writes W.contents W.write_errors (canonical_text output canon.now)
        sink.old sink.new result }
    ensures fault { IfErr result (λ fault. fault ≡ Write) }
{
    match output {
        CanonicalOutput::Extract => canon.write(sink),
        CanonicalOutput::Counts => write_counts(&canon.counts(), sink).map_err(Fault::from),
        CanonicalOutput::Table(table, format) => write_table(canon, table, format, sink),
    }
}

/// Judges each line by itself, and writes each reason with the number of lines that have it and the first
/// of them, at status 3. If no line has one, it answers as `check` does.
pub fn answer_check_all<R: ReadDevice, W: WriteDevice>(
    alloc: Global,
    source: &mut Source<R>,
    sink: &mut Sink<W>,
    job: &CanonicalJob,
    kept: &mut Kept,
) -> Result<u8, Fault>
    ensures { IsAnswered R.remaining R.read_errors W.contents W.write_errors W.holds_nothing
        (IsCheckAllAnswer job.now) (answering_all job.now.asked)
        source.old source.new sink.old sink.new result }
{
    match Judged::read(alloc, source, MAX_LINES)? {
        Judged::Reasons(reasons) => {
            kept.reasons = Some(reasons);
            let written = reasons.write(sink).map_err(Fault::from);
            finish(written, sink, REFUSED)
        }
        Judged::Extract(extract) => {
            let canon = narrowed_canon(alloc, extract, &job.asked, job.form, &mut kept.left)?;
            let written = write_canonical(&canon, CanonicalOutput::Counts, sink);
            finish(written, sink, DONE)
        }
    }
}

/// What is said of two extracts.
#[derive(Clone, Copy)]
pub enum PairOutput {
    /// How they compare.
    Comparison,
    /// In what they differ, in this format.
    Differences(Format),
}

/// What is asked of two extracts.
#[derive(Clone, Copy)]
pub struct PairJob<'a> {
    /// How they are read and narrowed.
    pub compared: &'a CompareJob,
    /// What is said of them.
    pub output: PairOutput,
}

/// Writes what is asked of the extracts of two sources, and answers 0 where they say the same, else 1. The right one isn't
/// touched before the left one is read to its end and no line of it is refused.
pub fn answer_pair<R: ReadDevice, W: WriteDevice>(
    alloc: Global,
    left: &mut Source<R>,
    right: &mut Source<R>,
    sink: &mut Sink<W>,
    job: PairJob<'_>,
    kept: &mut Kept,
) -> Result<u8, Fault>
    ensures { AreAnswered R.remaining R.read_errors W.contents W.write_errors W.holds_nothing
        (IsPairAnswer job.entry.output job.entry.compared.now)
        (AreComparedAs job.entry.compared.now.asked job.entry.compared.now.common)
        left.old left.new right.old right.new sink.old sink.new result }
{
    let compared = job.compared;
    let (left, right) = read_pair(alloc, left, right, &compared.asked, compared.common)?;
    let left = kept.left.insert(left);
    let right = kept.right.insert(right);
    match job.output {
        PairOutput::Comparison => {
            let comparison = compare(alloc, left, right)?;
            let written = write_comparison(&comparison, sink).map_err(Fault::from);
            finish(written, sink, outcome(&comparison))
        }
        PairOutput::Differences(format) => {
            let found = differences(alloc, left, right)?;
            let written = write_differences(&found, format, sink);
            finish(written, sink, listed(found.is_empty()))
        }
    }
}

/// Appends the differences in this format.
fn write_differences<W: WriteDevice>(
    found: &Differences<'_>,
    format: Format,
    sink: &mut Sink<W>,
) -> Result<(), Fault>
    ensures writes { Writes W.contents W.write_errors (differences_in format found.now)
        sink.old sink.new result }
    ensures fault { IfErr result (λ fault. fault ≡ Write) }
{
    match format {
        Format::Text => found.write(sink),
        Format::Tsv | Format::Json => write_difference_table(found, format, sink),
    }
}

/// Writes what runs on the day, in this listing, and answers status 0.
pub fn answer_day<R: ReadDevice, W: WriteDevice>(
    alloc: Global,
    source: &mut Source<R>,
    sink: &mut Sink<W>,
    job: &DayJob,
    kept: &mut Option<Extract>,
) -> Result<u8, Fault>
    ensures { IsAnswered R.remaining R.read_errors W.contents W.write_errors W.holds_nothing
        (IsDayAnswer job.now) (answering (IsDayRefusal job.now.day))
        source.old source.new sink.old sink.new result }
{
    let extract = read_extract(alloc, source, MAX_LINES)?;
    let extract = kept.insert(extract);
    let written = day_listing(alloc, extract, job.day, sink, job.listing);
    finish(written, sink, DONE)
}

/// Writes what leaves from a place, or arrives there, and answers status 0.
pub fn answer_board<R: ReadDevice, W: WriteDevice>(
    alloc: Global,
    source: &mut Source<R>,
    sink: &mut Sink<W>,
    job: &BoardJob,
    kept: &mut Option<Extract>,
) -> Result<u8, Fault>
    ensures { IsAnswered R.remaining R.read_errors W.contents W.write_errors W.holds_nothing
        (IsBoardAnswer job.now) (answering (IsDayRefusal job.now.board.day))
        source.old source.new sink.old sink.new result }
{
    let extract = read_extract(alloc, source, MAX_LINES)?;
    let extract = kept.insert(extract);
    let written = write_board(alloc, extract, &job.board, job.format, sink);
    finish(written, sink, DONE)
}

/// Writes when the train runs, in this listing, and answers status 0.
pub fn answer_train<R: ReadDevice, W: WriteDevice>(
    alloc: Global,
    source: &mut Source<R>,
    sink: &mut Sink<W>,
    job: &TrainJob,
    kept: &mut Option<Extract>,
) -> Result<u8, Fault>
    ensures { IsAnswered R.remaining R.read_errors W.contents W.write_errors W.holds_nothing
        (IsTrainAnswer job.now) (answering (IsNormaliseFault MAX_LINES job.now.asked))
        source.old source.new sink.old sink.new result }
{
    let extract = read_narrowed(alloc, source, MAX_LINES, &job.asked)?;
    let extract = kept.insert(extract);
    let written = train_listing(alloc, extract, &job.uid, sink, job.form, job.listing);
    finish(written, sink, DONE)
}

/// Writes why the train runs on the day, or doesn't, in this format, and answers status 0.
pub fn answer_explain<R: ReadDevice, W: WriteDevice>(
    alloc: Global,
    source: &mut Source<R>,
    sink: &mut Sink<W>,
    job: &ExplainJob,
    kept: &mut Option<Extract>,
) -> Result<u8, Fault>
    ensures { IsAnswered R.remaining R.read_errors W.contents W.write_errors W.holds_nothing
        (IsExplainAnswer job.now) (answering (IsExplainRefusal job.now.day))
        source.old source.new sink.old sink.new result }
{
    let extract = read_extract(alloc, source, MAX_LINES)?;
    let extract = kept.insert(extract);
    let written = explain_listing(alloc, extract, &job.uid, job.day, sink, job.format);
    finish(written, sink, DONE)
}

/// Writes all clashes, and answers 0 where there is none, else 1.
pub fn answer_clashes<R: ReadDevice, W: WriteDevice>(
    alloc: Global,
    source: &mut Source<R>,
    sink: &mut Sink<W>,
    job: &ClashesJob,
) -> Result<u8, Fault>
    ensures { IsAnswered R.remaining R.read_errors W.contents W.write_errors W.holds_nothing
        (IsClashesAnswer job.now) (answering (IsClashlessRefusal job.now.asked))
        source.old source.new sink.old sink.new result }
{
    let extract = read_narrowed(alloc, source, MAX_LINES, &job.asked)?;
    let found = clashes(alloc, &extract)?;
    let written = write_clashes(&found, job.format, sink);
    finish(written, sink, listed(found.is_empty()))
}

/// Appends the clashes in this format.
fn write_clashes<W: WriteDevice>(
    found: &Clashes,
    format: Format,
    sink: &mut Sink<W>,
) -> Result<(), Fault>
    ensures writes { Writes W.contents W.write_errors (clashes_in format found.now) sink.old sink.new result }
    ensures fault { IfErr result (λ fault. fault ≡ Write) }
{
    match format {
        Format::Text => found.write(sink),
        Format::Tsv | Format::Json => found.write_table(format, sink),
    }
}

/// Writes the calendar of the train, and answers status 0.
pub fn answer_calendar<R: ReadDevice, W: WriteDevice>(
    alloc: Global,
    source: &mut Source<R>,
    sink: &mut Sink<W>,
    job: &CalendarJob,
    kept: &mut Option<Extract>,
) -> Result<u8, Fault>
    ensures { IsAnswered R.remaining R.read_errors W.contents W.write_errors W.holds_nothing
        (IsCalendarAnswer job.now) (answering (IsClashlessRefusal job.now.asked))
        source.old source.new sink.old sink.new result }
{
    let extract = read_narrowed(alloc, source, MAX_LINES, &job.asked)?;
    let extract = kept.insert(extract);
    let written = write_calendar(alloc, extract, job, sink);
    finish(written, sink, DONE)
}

/// Appends the calendar of the train in this format.
fn write_calendar<W: WriteDevice>(
    alloc: Global,
    extract: &Extract,
    job: &CalendarJob,
    sink: &mut Sink<W>,
) -> Result<(), Fault>
    ensures view { (text : List ℕ)
        × FaultWrites W.contents W.write_errors text sink.old sink.new result
        × IfWritten result (IsCalendarIn job.now.format (extract_parts extract.now) job.now.uid text) }
    ensures fault { IfErr result IsWeekCalendarFault }
{
    match job.format {
        Format::Text => week_calendar(alloc, extract, &job.uid, sink),
        Format::Tsv | Format::Json => date_calendar(alloc, extract, &job.uid, job.format, sink),
    }
}

/// Answers this status, if all was written, once it is handed on.
fn finish<W: WriteDevice>(
    written: Result<(), Fault>,
    sink: &mut Sink<W>,
    status: u8,
) -> Result<u8, Fault>
    ensures finishes { Finishes W.contents W.write_errors status written sink.old sink.new result }
    ensures handed_on { IsHandedOn W.holds_nothing sink.new result }
{
    written?;
    sink.flush()?;
    Ok(status)
}

/// Writes what the job's command answers of its input, and of `compare` and `diff` of the right one too; the
/// answer is the status. The extracts that it has read are left in `kept`.
fn answer<R: ReadDevice, W: WriteDevice>(
    alloc: Global,
    job: &Job,
    source: &mut Source<R>,
    right: &mut Source<R>,
    sink: &mut Sink<W>,
    kept: &mut Kept,
) -> Result<u8, Fault>
    ensures answer { Answers W.contents W.write_errors
        (IsJobAnswer R.remaining job.now source.old right.old) sink.old sink.new result }
    ensures reads { IsJobResult R.remaining R.read_errors job.now
        source.old source.new right.old right.new result }
    ensures handed_on { IsHandedOn W.holds_nothing sink.new result }
{
    match job {
        Job::Normalise(job) => {
            let output = CanonicalOutput::Extract;
            answer_canonical(alloc, source, sink, job, output, &mut kept.left)
        }
        Job::Check(job) => {
            let output = CanonicalOutput::Counts;
            answer_canonical(alloc, source, sink, job, output, &mut kept.left)
        }
        Job::CheckAll(job) => answer_check_all(alloc, source, sink, job, kept),
        Job::Compare(job) => {
            let job = PairJob {
                compared: job,
                output: PairOutput::Comparison,
            };
            answer_pair(alloc, source, right, sink, job, kept)
        }
        Job::Diff(job) => {
            let job = PairJob {
                compared: &job.compared,
                output: PairOutput::Differences(job.format),
            };
            answer_pair(alloc, source, right, sink, job, kept)
        }
        Job::Day(job) => answer_day(alloc, source, sink, job, &mut kept.left),
        Job::Train(job) => answer_train(alloc, source, sink, job, &mut kept.left),
        Job::Explain(job) => answer_explain(alloc, source, sink, job, &mut kept.left),
        Job::Clashes(job) => answer_clashes(alloc, source, sink, job),
        Job::Table(job) => {
            let output = CanonicalOutput::Table(job.table, job.format);
            answer_canonical(alloc, source, sink, &job.canonical, output, &mut kept.left)
        }
        Job::Calendar(job) => answer_calendar(alloc, source, sink, job, &mut kept.left),
        Job::Board(job) => answer_board(alloc, source, sink, job, &mut kept.left),
    }
}

/// Answers a job of one extract, or of two. A fault's line goes to `errors`; that it can't be written changes no
/// status.
pub fn run_job<R: ReadDevice, W: WriteDevice, E: WriteDevice>(
    alloc: Global,
    job: &Job,
    source: &mut Source<R>,
    right: &mut Source<R>,
    sink: &mut Sink<W>,
    errors: &mut Sink<E>,
) -> Ended<Result<u8, Fault>, Kept>
    ensures answer { Answers W.contents W.write_errors
        (IsJobAnswer R.remaining job.now source.old right.old) sink.old sink.new result.answer }
    ensures reads { IsJobResult R.remaining R.read_errors job.now
        source.old source.new right.old right.new result.answer }
    ensures handed_on { IsHandedOn W.holds_nothing sink.new result.answer }
    ensures line { ReportsFault E.contents E.write_errors result.answer errors.old errors.new }
    ensures status { result.status ≡ end_status result.answer }
{
    let mut kept = Kept {
        left: None,
        right: None,
        reasons: None,
    };
    let answer = answer(alloc, job, source, right, sink, &mut kept);
    let status = end(&answer, errors);
    Ended {
        answer,
        status,
        kept,
    }
}
