//! What `prepare` and `update` do with their devices, whatever these are: what goes to the output and to standard error, and the status.
ghost use Rattle.std.specs.Prelude.{◌≡◌, IfErr};
ghost use Rattle.cif_canon.specs.Appended.{IsAppended};
ghost use Rattle.cif_feed.specs.FeedAnswer.{AreUpdatesRead, FeedAnswers, IsHandedOn, IsPrepareAnswer, IsPrepareFault, IsPreparedInTurn};
ghost use Rattle.cif_feed.specs.FeedAnswer.{IsReported, IsUpdateAnswer, IsUpdateFault, OfHolidays, OfUpdates, prepare_reported, reported_of};
ghost use Rattle.cif_feed.specs.WinnersAnswer.{AreWinnersInTurn, IsWinnersAnswer, IsWinnersRefusal};
ghost use Rattle.cif_commands.specs.Reported.{dropped_line, feed_status_of, prepared_line, refused_line, unreached_line, waived_line};
ghost use Rattle.cif_commands.specs.Reported.{reported_by_prepare, reported_by_update, reported_status};

use crate::job::{PrepareJob, UpdateJob};
use crate::status::{DONE, Ended, REFUSED, status};
use arrayvec::ArrayString;
use cif_canon::writing::{Texts, append, write_each};
use cif_columns::{ReadDevice, Sink, Source, WriteDevice};
use cif_feed::{
    DoneUpdate, Dropped, DroppedKey, FeedFault, KeptPrepare, KeptUpdate, RefusedLine, Unreached,
    answer_prepare, answer_update, answer_winners,
};
use cif_rows::Format;
use std::alloc::Global;

/// Writes the prepared extract of what the source gives, with the holidays that the other source gives, if there is
/// one. Which holidays don't reach and the keys that were dropped, or a fault's line, go to `errors`; that they can't be
/// written changes no status.
pub fn run_prepare<R: ReadDevice, W: WriteDevice, E: WriteDevice>(
    alloc: Global,
    job: &PrepareJob,
    holidays: &mut Option<Source<R>>,
    source: &mut Source<R>,
    sink: &mut Sink<W>,
    errors: &mut Sink<E>,
) -> Ended<Result<Dropped, FeedFault>, KeptPrepare>
    ensures answer { FeedAnswers W.contents W.write_errors (prepare_reported result.kept)
        (λ text reported. OfHolidays R.remaining
        (λ given bytes. IsReported (IsPrepareAnswer job.now.drop_clashes given bytes text) reported)
        holidays.old source.old) sink.old sink.new result.answer }
    ensures fault { OfHolidays R.remaining (λ given bytes. IfErr result.answer (IsPrepareFault given bytes))
        holidays.old source.old }
    ensures reads { IsPreparedInTurn R.remaining R.read_errors
        holidays.old holidays.new source.old source.new result.answer }
    ensures handed_on { IsHandedOn W.holds_nothing sink.new result.answer }
    ensures reported { IsAppended E.contents E.write_errors (reported_by_prepare result.answer result.kept)
        errors.old errors.new }
    ensures status { result.status ≡ reported_status result.answer }
{
    let mut kept = KeptPrepare {
        extract: None,
        holidays: None,
    };
    let answer = answer_prepare(alloc, holidays, source, sink, job.drop_clashes, &mut kept);
    let status = end_prepare(&answer, &kept, errors);
    Ended {
        answer,
        status,
        kept,
    }
}

/// Writes which published record decides on each date of each train, in this format, of what the source gives, with the
/// holidays that the other source gives, if there is one. What goes to `errors` is as of `run_prepare`.
pub fn run_winners<R: ReadDevice, W: WriteDevice, E: WriteDevice>(
    alloc: Global,
    job: &PrepareJob,
    format: Format,
    holidays: &mut Option<Source<R>>,
    source: &mut Source<R>,
    sink: &mut Sink<W>,
    errors: &mut Sink<E>,
) -> Ended<Result<Dropped, FeedFault>, KeptPrepare>
    ensures answer { FeedAnswers W.contents W.write_errors (prepare_reported result.kept)
        (λ text reported. OfHolidays R.remaining
        (λ given bytes. IsReported (IsWinnersAnswer job.now.drop_clashes format given bytes text) reported)
        holidays.old source.old) sink.old sink.new result.answer }
    ensures fault { OfHolidays R.remaining
        (λ given bytes. IfErr result.answer (IsWinnersRefusal job.now.drop_clashes given bytes))
        holidays.old source.old }
    ensures reads { AreWinnersInTurn R.remaining R.read_errors job.now.drop_clashes
        holidays.old holidays.new source.old source.new result.answer }
    ensures handed_on { IsHandedOn W.holds_nothing sink.new result.answer }
    ensures reported { IsAppended E.contents E.write_errors (reported_by_prepare result.answer result.kept)
        errors.old errors.new }
    ensures status { result.status ≡ reported_status result.answer }
{
    let mut kept = KeptPrepare {
        extract: None,
        holidays: None,
    };
    let drop_clashes = job.drop_clashes;
    let answer = answer_winners(
        alloc,
        holidays,
        source,
        sink,
        drop_clashes,
        format,
        &mut kept,
    );
    let status = end_prepare(&answer, &kept, errors);
    Ended {
        answer,
        status,
        kept,
    }
}

/// Writes what the updates that the sources give make of the full extract. That this looks prepared and the lines that
/// were waived, or a fault's line, go to `errors`; that they can't be written changes no status.
pub fn run_update<R: ReadDevice, W: WriteDevice, E: WriteDevice>(
    alloc: Global,
    job: &UpdateJob,
    full: &mut Source<R>,
    updates: &mut [Source<R>],
    sink: &mut Sink<W>,
    errors: &mut Sink<E>,
) -> Ended<Result<(), FeedFault>, KeptUpdate>
    ensures answer { FeedAnswers W.contents W.write_errors (λ _. reported_of result.kept)
        (λ text reported. OfUpdates R.remaining
        (λ bytes given. IsReported (IsUpdateAnswer job.now.waived bytes given text) reported)
        full.old updates.old) sink.old sink.new result.answer }
    ensures fault { OfUpdates R.remaining
        (λ bytes given. IfErr result.answer (IsUpdateFault job.now.waived bytes given)) full.old updates.old }
    ensures reads { AreUpdatesRead R.remaining R.read_errors (λ _. result.kept.done.items) job.now.waived
        full.old full.new updates.old updates.new result.answer }
    ensures handed_on { IsHandedOn W.holds_nothing sink.new result.answer }
    ensures reported { IsAppended E.contents E.write_errors (reported_by_update result.answer result.kept)
        errors.old errors.new }
    ensures status { result.status ≡ reported_status result.answer }
{
    let mut kept = KeptUpdate {
        extract: None,
        full: None,
        done: Vec::new(alloc),
    };
    let answer = answer_update(alloc, full, updates, sink, job.waived, &mut kept);
    let status = end_update(&answer, &kept, errors);
    Ended {
        answer,
        status,
        kept,
    }
}

/// Reports the answer of `prepare`, where it has left this, or why there is none, and gives the status
/// that the program exits with. That it can't be written changes no status.
fn end_prepare<W: WriteDevice>(
    answer: &Result<Dropped, FeedFault>,
    kept: &KeptPrepare,
    errors: &mut Sink<W>,
) -> u8
    ensures status { result ≡ reported_status answer.now }
    ensures reported { IsAppended W.contents W.write_errors (reported_by_prepare answer.now kept.now) errors.old errors.new }
{
    match answer {
        Ok(dropped) => {
            write_each(&UnreachedLines, &kept.unreached(), errors);
            write_each(&DroppedLines, dropped.keys.as_slice(), errors);
            DONE
        }
        Err(fault) => refuse(fault, errors),
    }
}

/// Reports the answer of `update`, where it has left this, or why there is none, and gives the status
/// that the program exits with. That it can't be written changes no status.
fn end_update<W: WriteDevice>(
    answer: &Result<(), FeedFault>,
    kept: &KeptUpdate,
    errors: &mut Sink<W>,
) -> u8
    ensures status { result ≡ reported_status answer.now }
    ensures reported { IsAppended W.contents W.write_errors (reported_by_update answer.now kept.now) errors.old errors.new }
{
    match answer {
        Ok(()) => {
            append(prepared_line(kept.looks_prepared()).as_str(), errors);
            write_each(&WaivedLines, kept.done.as_slice(), errors);
            DONE
        }
        Err(fault) => refuse(fault, errors),
    }
}

/// Says why there is no answer, and gives its status.
fn refuse<W: WriteDevice>(fault: &FeedFault, errors: &mut Sink<W>) -> u8
    ensures status { result ≡ feed_status_of fault.now }
    ensures reported { IsAppended W.contents W.write_errors (refused_line fault.now) errors.old errors.new }
{
    append(refused_line(fault).as_str(), errors);
    match fault {
        FeedFault::Extract(fault) => status(fault),
        _ => REFUSED,
    }
}

/// The bytes of the longest line that names a fault.
const LONGEST_LINE: usize = 80;

/// The bytes of the longest line of a key that clashes: that of associations.
const LONGEST_DROPPED: usize = 110;

/// The line that names a fault.
#[tactic(auto, unfolding(crate::specs::Reported::refused_line))]
fn refused_line(fault: &FeedFault) -> ArrayString<LONGEST_LINE>
    ensures { result.bytes ≡ refused_line fault.now }
{
    let mut line = ArrayString::new();
    line.push_str("cif: ");
    line.push_str(fault.text().as_str());
    line.push_str("\n");
    line
}

/// The line that names a waived line of an update.
#[tactic(auto, unfolding(crate::specs::Reported::waived_line))]
fn waived_line(refused: &RefusedLine) -> ArrayString<LONGEST_LINE>
    ensures { result.bytes ≡ waived_line refused.now }
{
    let mut line = ArrayString::new();
    line.push_str("cif: ");
    line.push_str(refused.fault().text().as_str());
    line.push_str(" (waived)\n");
    line
}

/// The line of a key of which nothing runs on some dates.
#[tactic(auto, unfolding(crate::specs::Reported::dropped_line))]
fn dropped_line(key: &DroppedKey) -> ArrayString<LONGEST_DROPPED>
    ensures { result.bytes ≡ dropped_line key.now }
{
    let mut line = ArrayString::new();
    line.push_str("cif: dropped: ");
    line.push_str(key.text().as_str());
    line.push_str("\n");
    line
}

/// The line of holidays that don't reach the window, if there are some.
#[tactic(auto, unfolding(crate::specs::Reported::unreached_line))]
fn unreached_line(unreached: Option<Unreached>) -> ArrayString<LONGEST_LINE>
    ensures { result.bytes ≡ unreached_line unreached }
{
    let mut line = ArrayString::new();
    if let Some(unreached) = unreached {
        line.push_str("cif: ");
        line.push_str(unreached.text().as_str());
        line.push_str("\n");
    }
    line
}

/// The line that says that FULL looks prepared, if it does.
#[tactic(auto, unfolding(crate::specs::Reported::prepared_line))]
fn prepared_line(looks_prepared: bool) -> ArrayString<LONGEST_LINE>
    ensures { result.bytes ≡ prepared_line looks_prepared }
{
    let mut line = ArrayString::new();
    if looks_prepared {
        line.push_str("cif: FULL has no open end and no holiday code, as if it were prepared\n");
    }
    line
}

/// The lines of holidays that don't reach the window.
struct UnreachedLines;

impl Texts<Option<Unreached>> for UnreachedLines {
    ghost use Rattle.cif_commands.specs.Reported.{unreached_line};

    ghost text = { λ _ unreached. unreached_line unreached };

    fn write<W: WriteDevice>(&self, unreached: &Option<Unreached>, sink: &mut Sink<W>) {
        append(unreached_line(*unreached).as_str(), sink);
    }
}

/// The lines of keys of which nothing runs on some dates.
struct DroppedLines;

impl Texts<DroppedKey> for DroppedLines {
    ghost use Rattle.cif_commands.specs.Reported.{dropped_line};

    ghost text = { λ _ key. dropped_line key };

    fn write<W: WriteDevice>(&self, key: &DroppedKey, sink: &mut Sink<W>) {
        append(dropped_line(key).as_str(), sink);
    }
}

/// The lines that name what updates waived.
struct WaivedLines;

impl Texts<DoneUpdate> for WaivedLines {
    ghost use Rattle.cif_commands.specs.Reported.{waived_lines};

    ghost text = { λ _ update. waived_lines update };

    fn write<W: WriteDevice>(&self, update: &DoneUpdate, sink: &mut Sink<W>) {
        write_each(self, update.outcome.waived.as_slice(), sink);
    }
}

impl Texts<RefusedLine> for WaivedLines {
    ghost use Rattle.cif_commands.specs.Reported.{waived_line};

    ghost text = { λ _ line. waived_line line };

    fn write<W: WriteDevice>(&self, line: &RefusedLine, sink: &mut Sink<W>) {
        append(waived_line(line).as_str(), sink);
    }
}
