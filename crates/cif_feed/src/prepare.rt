//! What `prepare` answers, for any devices: the prepared extract of a published one, the parts of its records.
ghost use Rattle.std.specs.Prelude.{◌≡◌, ◌≤◌, ℕ, List, Option, IfErr, IfOk, IfSome, false, map, true};
ghost use Rattle.std.specs.{BTreeMap.get, List.Sorted.IsNonDecreasing, Ordering.nat_cmp};
ghost use Rattle.cif_calendar.specs.Entries.{association_entries, schedule_entries};
ghost use Rattle.cif_columns.specs.{Sink.Writes, Source.reader_of, declared.line_reader.TheConstants.MAX_LINES};
ghost use Rattle.cif_extract.specs.{ReadCall.IsResultOf, Texts.extract_text};
ghost use Rattle.cif_feed.specs.FeedAnswer.{AreHolidaysRead, FeedAnswers, IsHandedOn, IsPrepareAnswer, IsPrepareFault};
ghost use Rattle.cif_feed.specs.FeedAnswer.{IsPreparedInTurn, IsReported, OfHolidays, prepare_reported};
ghost use Rattle.cif_feed.specs.Prepared.{ArePrepared, prepared_last, published_terms};
ghost use Rattle.cif_feed.specs.PreparedParts.{IsPrepared, association_on, schedule_on};
ghost use Rattle.cif_feed.specs.PublishedParts.{published_associations, published_parts, published_schedules};
ghost use Rattle.cif_feed.specs.Steps.Dropping.{AreAllFound, IsCutAt, IsStopAmong, ReadsAssociations, ReadsDates, ReadsTrains};
ghost use Rattle.cif_feed.specs.WrittenPrepared.{FeedWrites, IsPreparedAs, Prepares, WritesPrepared, preparing};
ghost use Rattle.cif_feed.specs.declared.{holidays.HolidayCode.HolidayCode, holidays.Holidays.Holidays};
ghost use Rattle.cif_records.specs.{AssocKey.key_cmp, declared.association.AssocKey.AssocKey};

use crate::dropped::find_clash_dates;
use crate::prepared_record::{RisingDays, add_parts};
use crate::written::write_records;
use crate::{
    Dropped, DroppedKey, FeedFault, Holidays, PreparedRecord, PublishedAssociation,
    PublishedExtract, PublishedSchedule,
};
use cif_calendar::{Entry, RankedEntry, Window};
use cif_columns::{Day, MAX_LINES, ReadDevice, Sink, Source, WriteDevice, WriteFault};
use cif_extract::Schedule;
use cif_records::{AssocKey, Association};
use std::alloc::{AllocError, Global};
use std::collections::BTreeMap;
use std::marker::Model;

/// How an extract is prepared.
#[derive(Clone, Copy)]
pub struct Preparation<'a> {
    /// The holidays on which records with a code don't apply.
    pub holidays: &'a Holidays,
    /// Whether the dates on which a key clashes are left out.
    pub drops_clashes: bool,
}

/// What `prepare` leaves to its caller.
#[derive(Drop)]
pub struct KeptPrepare {
    /// The published extract that it has read.
    pub extract: Option<PublishedExtract>,
    /// The holidays that it was prepared with.
    pub holidays: Option<Holidays>,
}

/// Writes the prepared extract of what the source gives, with the holidays that the other source gives, which
/// is read first; with none where there is no such source. With `drop_clashes` the dates of clashes are left
/// out; the answer is what was dropped. What was read is left in `kept`, which says which holidays don't reach.
pub fn answer_prepare<R: ReadDevice, W: WriteDevice>(
    alloc: Global,
    holidays: &mut Option<Source<R>>,
    source: &mut Source<R>,
    sink: &mut Sink<W>,
    drop_clashes: bool,
    kept: &mut KeptPrepare,
) -> Result<Dropped, FeedFault>
    ensures answer { FeedAnswers W.contents W.write_errors (prepare_reported kept.new)
        (λ text reported. OfHolidays R.remaining (λ given bytes. IsReported (IsPrepareAnswer drop_clashes given bytes text) reported)
        holidays.old source.old) sink.old sink.new result }
    ensures fault { OfHolidays R.remaining (λ given bytes. IfErr result (IsPrepareFault given bytes))
        holidays.old source.old }
    ensures reads { IsPreparedInTurn R.remaining R.read_errors holidays.old holidays.new source.old source.new result }
    ensures handed_on { IsHandedOn W.holds_nothing sink.new result }
{
    let read = read_holidays(alloc, holidays)?;
    let holidays = kept.holidays.insert(read);
    let preparation = Preparation {
        holidays,
        drops_clashes: drop_clashes,
    };
    let kept = &mut kept.extract;
    let dropped = write_prepared(alloc, source, sink, MAX_LINES, preparation, kept)?;
    sink.flush()?;
    Ok(dropped)
}

/// The holidays that the source gives; none where there is no source.
// Inlined, it would keep its buffer on the stack while the extract is read.
#[inline(never)]
pub(crate) fn read_holidays<R: ReadDevice>(
    alloc: Global,
    holidays: &mut Option<Source<R>>,
) -> Result<Holidays, FeedFault>
    ensures { AreHolidaysRead R.remaining R.read_errors holidays.old holidays.new result }
{
    match holidays {
        None => Ok(Holidays::new(alloc)),
        Some(source) => Ok(Holidays::read(alloc, source)?),
    }
}

/// Reads a published extract, of which at most `max_lines` contents may come, and appends the text of
/// its prepared extract. The answer is what was left out.
///
/// The faults are those of `PublishedExtract::read`, and then Write; Memory where memory ran out. Nothing is
/// written before the whole input is accepted and all memory is allocated. What was read is left in
/// `kept`: to free each of its bodies takes time, which a program that ends right after this can spare.
pub fn write_prepared<R: ReadDevice, W: WriteDevice>(
    alloc: Global,
    source: &mut Source<R>,
    sink: &mut Sink<W>,
    max_lines: u64,
    preparation: Preparation<'_>,
    kept: &mut Option<PublishedExtract>,
) -> Result<Dropped, FeedFault>
    requires within { max_lines ≤ MAX_LINES }
    ensures prepared { (text : List ℕ)
        × FeedWrites W.contents W.write_errors text sink.old sink.new result
        × IfSome (R.remaining (reader_of source.old)) (λ bytes.
        Prepares preparation.entry.holidays.now preparation.entry.drops_clashes max_lines bytes text result) }
    ensures reads { IsResultOf R.remaining R.read_errors
        (preparing preparation.entry.holidays.now max_lines kept.new) source.old source.new result }
{
    let codes = preparation.holidays.codes();
    let extract = PublishedExtract::read(alloc, source, max_lines, codes)?;
    let answer = extract.append_prepared(alloc, preparation, sink);
    *kept = Some(extract);
    answer
}

/// The prepared extract of a published one, from which its records are borrowed: a clause sees what
/// the extract holds.
#[derive(Drop)]
pub struct Prepared<'a> {
    pub(crate) published: &'a PublishedExtract,
    pub(crate) associations: Vec<PreparedRecord<'a, Association, Day>>,
    pub(crate) schedules: Vec<PreparedRecord<'a, Schedule, Day>>,
}

impl<'a> Model for Prepared<'a> {
    ghost use Rattle.cif_extract.specs.ExtractParts.{ExtractParts};
    ghost use Rattle.cif_feed.specs.PreparedParts.{prepared_parts};

    ghost Value = { ExtractParts };

    ghost view = { λ p. prepared_parts p.published.now p.associations.items p.schedules.items };
}

impl PublishedExtract {
    /// Appends the text of its prepared extract, and gives what it leaves out.
    fn append_prepared<W: WriteDevice>(
        &self,
        alloc: Global,
        preparation: Preparation<'_>,
        sink: &mut Sink<W>,
    ) -> Result<Dropped, FeedFault>
        ensures { WritesPrepared W.contents W.write_errors preparation.entry.holidays.now preparation.entry.drops_clashes
            (published_parts self.now) sink.old sink.new result }
    {
        let (prepared, dropped) = self.prepare_if(alloc, preparation)?;
        prepared.write(sink)?;
        Ok(dropped)
    }

    /// Its prepared extract, without the dates on which a key clashes, if that is asked for.
    fn prepare_if<'a>(
        &'a self,
        alloc: Global,
        preparation: Preparation<'_>,
    ) -> Result<(Prepared<'a>, Dropped), AllocError>
        ensures { IfOk result (λ done. IsPreparedAs preparation.entry.holidays.now preparation.entry.drops_clashes
            (published_parts self.now) done.0 done.1) }
    {
        if preparation.drops_clashes {
            return self.prepare_without_clashes(alloc, preparation.holidays);
        }
        let prepared = self.prepare(alloc, preparation.holidays)?;
        Ok((prepared, Dropped::none(alloc)))
    }

    /// Its prepared extract, with these holidays. A code that they don't name cuts nothing; an extract
    /// that is read with `Holidays::codes` has none.
    pub fn prepare<'a>(
        &'a self,
        alloc: Global,
        holidays: &Holidays,
    ) -> Result<Prepared<'a>, AllocError>
        ensures { IfOk result (IsPrepared holidays.now false (published_parts self.now)) }
    {
        self.cut(
            alloc,
            holidays,
            &BTreeMap::new(alloc),
            &BTreeMap::new(alloc),
        )
    }

    /// Its prepared extract, with these holidays, without the dates on which a key clashes: on these no
    /// record of the key applies. And what was left out.
    pub fn prepare_without_clashes<'a>(
        &'a self,
        alloc: Global,
        holidays: &Holidays,
    ) -> Result<(Prepared<'a>, Dropped), AllocError>
        ensures { IfOk result (λ done. IsPreparedAs holidays.now true (published_parts self.now) done.0 done.1) }
    {
        let mut keys = Vec::new(alloc);
        let (associations, trains) = self.clash_dates(alloc, holidays, &mut keys)?;
        let records = self.count_clashing_associations(holidays, &associations)
            + self.count_clashing_schedules(holidays, &trains);
        let prepared = self.cut(alloc, holidays, &associations, &trains)?;
        Ok((prepared, Dropped { keys, records }))
    }

    /// The dates on which keys of associations and of trains clash. These keys are listed.
    pub(crate) fn clash_dates(
        &self,
        alloc: Global,
        holidays: &Holidays,
        reported: &mut Vec<DroppedKey>,
    ) -> Result<(ClashDates<AssocKey>, ClashDates<u64>), AllocError>
        ensures { IfOk result (λ dates. AreAllFound holidays.now (published_parts self.now) reported.old.items reported.new.items
            (get key_cmp dates.0) (get nat_cmp dates.1)) }
    {
        let window = Window::of(&self.header);
        let associations = find_clash_dates(
            alloc,
            self.associations.as_slice(),
            holidays,
            &window,
            reported,
        )?;
        let schedules = self.schedules.as_slice();
        let trains = find_clash_dates(alloc, schedules, holidays, &window, reported)?;
        Ok((associations, trains))
    }

    /// Its records between their cuts: the holidays of their codes, and the dates on which their keys clash.
    fn cut<'a>(
        &'a self,
        alloc: Global,
        holidays: &Holidays,
        associations: &ClashDates<AssocKey>,
        trains: &ClashDates<u64>,
    ) -> Result<Prepared<'a>, AllocError>
        ensures { IfOk result (λ prepared. (of_associations : AssocKey → List ℕ) (of_trains : List ℕ → List ℕ)
            → ReadsAssociations of_associations (get key_cmp associations.now) → ReadsTrains of_trains (get nat_cmp trains.now)
            → IsCutAt holidays.now (published_parts self.now) of_associations of_trains prepared) }
    {
        let last = self.header.last;
        let associations = cut_associations(
            alloc,
            self.associations.as_slice(),
            last,
            associations,
        )?;
        let schedules = cut_schedules(alloc, self.schedules.as_slice(), last, holidays, trains)?;
        Ok(Prepared {
            published: self,
            associations,
            schedules,
        })
    }
}

impl<'a> Prepared<'a> {
    /// Appends its text: the plain lines of the header, the locations, the associations, the schedules
    /// and the trailer, each with a line feed. It takes no memory.
    pub fn write<W: WriteDevice>(&self, sink: &mut Sink<W>) -> Result<(), WriteFault>
        ensures { Writes W.contents W.write_errors (extract_text self.now) sink.old sink.new result }
    {
        let published = self.published;
        write_records(
            &published.header,
            published.tiplocs.as_slice(),
            self.associations.as_slice(),
            self.schedules.as_slice(),
            sink,
        )
    }
}

/// For what stands for each key that clashes, the dates on which it does.
pub(crate) type ClashDates<R> = BTreeMap<R, RisingDays>;

/// The dates on which the key of the entry clashes.
pub(crate) fn dates_of<'d, E: RankedEntry>(dates: &'d ClashDates<E::Rank>, entry: &E) -> &'d [Day]
    ensures reads { (days : E.Key → List ℕ) → ReadsDates E.stands_for days (get E.Rank.cmp dates.now)
        → result.now ≡ days (E.key entry.now) }
    ensures rising { IsNonDecreasing result.now }
{
    match dates.get(&entry.rank()) {
        Some(found) => found.days.as_slice(),
        None => &[],
    }
}

/// The associations between the dates on which their keys clash, in a window that ends on this date.
/// They have no holidays.
fn cut_associations<'a>(
    alloc: Global,
    associations: &'a [PublishedAssociation],
    window_last: Day,
    clash_dates: &ClashDates<AssocKey>,
) -> Result<Vec<PreparedRecord<'a, Association, Day>>, AllocError>
    ensures { IfOk result (λ prepared. (h : Holidays) (days : AssocKey → List ℕ) → ReadsAssociations days (get key_cmp clash_dates.now)
        → ArePrepared (IsStopAmong h days) window_last (published_associations associations.now)
        (association_entries (map association_on prepared.items))) }
{
    let mut prepared = Vec::with_capacity(alloc, associations.len())?;
    for one in associations {
        let association = &one.association;
        let last = prepared_last(association, one.open_end, window_last);
        let dates = dates_of(clash_dates, association);
        add_parts(association, last, &[], dates, &mut prepared)?;
    }
    Ok(prepared)
}

/// The schedules between the holidays of their codes and the dates on which their trains clash, in a window that
/// ends on this date.
fn cut_schedules<'a>(
    alloc: Global,
    schedules: &'a [PublishedSchedule],
    window_last: Day,
    holidays: &Holidays,
    clash_dates: &ClashDates<u64>,
) -> Result<Vec<PreparedRecord<'a, Schedule, Day>>, AllocError>
    ensures { IfOk result (λ prepared. (days : List ℕ → List ℕ) → ReadsTrains days (get nat_cmp clash_dates.now)
        → ArePrepared (IsStopAmong holidays.now days) window_last (published_schedules schedules.now)
        (schedule_entries (map schedule_on prepared.items))) }
{
    let mut prepared = Vec::with_capacity(alloc, schedules.len())?;
    for one in schedules {
        let schedule = &one.schedule;
        let last = prepared_last(schedule, one.open_end, window_last);
        let dates = dates_of(clash_dates, schedule);
        add_parts(schedule, last, holidays.of(one.code), dates, &mut prepared)?;
    }
    Ok(prepared)
}

/// The last date of a record in the prepared extract, by that of the window.
pub(crate) fn prepared_last<E: Entry>(entry: &E, open_end: bool, window_last: Day) -> Day
    ensures last { (code : Option HolidayCode)
        → result ≡ prepared_last window_last (published_terms (E.terms entry.now) open_end code) }
    ensures in_order { (E.terms entry.now).first ≤ result }
{
    if !open_end {
        return entry.last();
    }
    entry.first().max(window_last)
}
