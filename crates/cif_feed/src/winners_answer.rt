//! What `prepare --winners` answers, for any devices: which published schedule decides on each date of each train.
ghost use Rattle.std.specs.Prelude.{◌≡◌, ◌<◌, ◌≤◌, ◌∷◌, [], All, IfErr, IfNone, IfOk, IfSome, List, false, length, true, ℕ};
ghost use Rattle.std.specs.{BTreeMap.get, Ordering.nat_cmp};
ghost use Rattle.cif_feed.specs.{PublishedParts.published_parts, Steps.Deciding.rows_of, Steps.Dropping.AreCounted};
ghost use Rattle.cif_feed.specs.FeedAnswer.{FeedAnswers, IsHandedOn, IsReported, OfHolidays, prepare_reported};
ghost use Rattle.cif_feed.specs.WinnersAnswer.{AreWinnersInTurn, IsWinnersAnswer, IsWinnersRefusal};
ghost use Rattle.cif_feed.specs.WrittenPrepared.{FeedWrites};
ghost use Rattle.cif_feed.specs.WrittenWinners.{AreWinnersAs, HasNoWinners, ShowsWinners, WritesWinners, winning};
ghost use Rattle.cif_columns.specs.Source.{reader_of};
ghost use Rattle.cif_extract.specs.ReadCall.{IsResultOf};
ghost use Rattle.cif_feed.specs.declared.dropped.DroppedKey.{DroppedKey};
ghost use Rattle.cif_records.specs.AssocKey.{key_cmp};
ghost use Rattle.cif_columns.specs.declared.{line_reader.TheConstants.MAX_LINES};

use crate::deciding::Deciders;
use crate::prepare::{ClashDates, read_holidays};
use crate::winners::{append_table, winning_runs};
use crate::{Dropped, DroppedKey, FeedFault, KeptPrepare, Preparation, PublishedExtract};
use cif_calendar::Window;
use cif_columns::{MAX_LINES, ReadDevice, Sink, Source, WriteDevice};
use cif_extract::{Clash, Fault};
use cif_records::AssocKey;
use cif_rows::Format;
use cif_weeks::Run;
use std::alloc::Global;

/// Writes the table of winners of what the source gives, in this format, with the holidays that the other source gives, which is
/// read first; with none where there is no such source. With `drop_clashes` no schedule decides on the dates of clashes, and the
/// answer is what was dropped; else an extract with a clash is refused. What was read is left in `kept`, which says which
/// holidays don't reach.
pub fn answer_winners<R: ReadDevice, W: WriteDevice>(
    alloc: Global,
    holidays: &mut Option<Source<R>>,
    source: &mut Source<R>,
    sink: &mut Sink<W>,
    drop_clashes: bool,
    format: Format,
    kept: &mut KeptPrepare,
) -> Result<Dropped, FeedFault>
    ensures answer { FeedAnswers W.contents W.write_errors (prepare_reported kept.new) (λ text reported. OfHolidays R.remaining
        (λ given bytes. IsReported (IsWinnersAnswer drop_clashes format given bytes text) reported)
        holidays.old source.old) sink.old sink.new result }
    ensures fault { OfHolidays R.remaining (λ given bytes. IfErr result (IsWinnersRefusal drop_clashes given bytes))
        holidays.old source.old }
    ensures reads { AreWinnersInTurn R.remaining R.read_errors drop_clashes
        holidays.old holidays.new source.old source.new result }
    ensures handed_on { IsHandedOn W.holds_nothing sink.new result }
{
    let read = read_holidays(alloc, holidays)?;
    let holidays = kept.holidays.insert(read);
    let preparation = Preparation {
        holidays,
        drops_clashes: drop_clashes,
    };
    let kept = &mut kept.extract;
    let dropped = write_winners(alloc, source, sink, MAX_LINES, preparation, format, kept)?;
    sink.flush()?;
    Ok(dropped)
}

/// Reads a published extract, of which at most `max_lines` contents may come, and appends the table of its winners in this
/// format. The answer is what was left out.
///
/// The faults are those of `PublishedExtract::read`, then Ambiguous with the first clash, unless clashes are dropped, and then
/// Write; Memory where memory ran out. Nothing is written before the whole input is accepted and all memory is allocated. What
/// was read is left in `kept`: to free each of its bodies takes time, which a program that ends right after this can spare.
pub fn write_winners<R: ReadDevice, W: WriteDevice>(
    alloc: Global,
    source: &mut Source<R>,
    sink: &mut Sink<W>,
    max_lines: u64,
    preparation: Preparation<'_>,
    format: Format,
    kept: &mut Option<PublishedExtract>,
) -> Result<Dropped, FeedFault>
    requires within { max_lines ≤ MAX_LINES }
    ensures winners { (text : List ℕ)
        × FeedWrites W.contents W.write_errors text sink.old sink.new result
        × IfSome (R.remaining (reader_of source.old)) (λ bytes. ShowsWinners preparation.entry.holidays.now
        preparation.entry.drops_clashes format max_lines bytes text result) }
    ensures reads { IsResultOf R.remaining R.read_errors
        (winning preparation.entry.holidays.now preparation.entry.drops_clashes max_lines kept.new)
        source.old source.new result }
{
    let codes = preparation.holidays.codes();
    let extract = PublishedExtract::read(alloc, source, max_lines, codes)?;
    let answer = extract.append_winners(alloc, preparation, format, sink);
    *kept = Some(extract);
    answer
}

impl PublishedExtract {
    /// Appends the table of its winners, and gives what it leaves out.
    fn append_winners<W: WriteDevice>(
        &self,
        alloc: Global,
        preparation: Preparation<'_>,
        format: Format,
        sink: &mut Sink<W>,
    ) -> Result<Dropped, FeedFault>
        ensures { WritesWinners W.contents W.write_errors preparation.entry.holidays.now preparation.entry.drops_clashes format
            (published_parts self.now) sink.old sink.new result }
    {
        let (runs, dropped) = self.winners(alloc, preparation)?;
        append_table(self.schedules.as_slice(), runs.as_slice(), format, sink);
        if sink.failed() {
            return Err(FeedFault::Extract(Fault::Write));
        }
        Ok(dropped)
    }

    /// The records of form 3 of the dates on which each of its schedules decides, and what is left out.
    fn winners(
        &self,
        alloc: Global,
        preparation: Preparation<'_>,
    ) -> Result<(Vec<Run>, Dropped), FeedFault>
        ensures within { IfOk result (λ made. All (λ run. run.source < length self.now.schedules.items) made.0.items) }
        ensures winners { IfOk result (λ made. AreWinnersAs preparation.entry.holidays.now preparation.entry.drops_clashes
            (published_parts self.now) (rows_of self.now.schedules.items made.0.items) made.1) }
        ensures fault { IfErr result (HasNoWinners preparation.entry.holidays.now preparation.entry.drops_clashes
            (published_parts self.now)) }
    {
        let holidays = preparation.holidays;
        let mut keys = Vec::new(alloc);
        let (associations, trains) = self.clash_dates(alloc, holidays, &mut keys)?;
        if let Some(clash) = refused_clash(preparation.drops_clashes, &mut keys) {
            return Err(FeedFault::Extract(Fault::Ambiguous(clash)));
        }
        let records = self.count_dropped(preparation, &associations, &trains);
        let runs = winning_runs(
            alloc,
            Deciders {
                schedules: self.schedules.as_slice(),
                window: &Window::of(&self.header),
                holidays,
                clash_dates: &trains,
            },
        )?;
        Ok((runs, Dropped { keys, records }))
    }

    /// How many of its records apply on a date on which their key clashes, if clashes are dropped.
    fn count_dropped(
        &self,
        preparation: Preparation<'_>,
        associations: &ClashDates<AssocKey>,
        trains: &ClashDates<u64>,
    ) -> usize
        ensures none { preparation.entry.drops_clashes ≡ false → result ≡ 0 }
        ensures counted { preparation.entry.drops_clashes ≡ true → AreCounted preparation.entry.holidays.now (published_parts self.now)
            (get key_cmp associations.now) (get nat_cmp trains.now) result }
    {
        if preparation.drops_clashes {
            let holidays = preparation.holidays;
            self.count_clashing_associations(holidays, associations)
                + self.count_clashing_schedules(holidays, trains)
        } else {
            0
        }
    }
}

/// Takes the first clash of the first of these keys, if there is one, unless clashes are dropped.
fn refused_clash(drops_clashes: bool, keys: &mut Vec<DroppedKey>) -> Option<Clash>
    ensures kept { IfNone result ((keys.new.items ≡ keys.old.items) × (drops_clashes ≡ false → keys.old.items ≡ [])) }
    ensures first { IfSome result (λ clash. (drops_clashes ≡ false) × ((key : DroppedKey) × (others : List DroppedKey)
        × (keys.old.items ≡ key ∷ others) × (clash ≡ key.clash))) }
{
    if drops_clashes || keys.is_empty() {
        return None;
    }
    Some(keys.remove(0).clash)
}
