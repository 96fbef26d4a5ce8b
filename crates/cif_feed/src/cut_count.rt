//! How many records holidays cut, and how many apply on a date on which their key clashes.
ghost use Rattle.std.specs.Prelude.{◌≡◌, ◌↔◌, ◌<◌, ◌≤◌, ◌+◌, ◌^◌, ℕ, Contains, IsTrue, List, length};
ghost use Rattle.std.specs.{BTreeMap.get, List.Sorted.IsNonDecreasing, Ordering.nat_cmp};
ghost use Rattle.cif_feed.specs.{CutCount.AppliesOnAny, CutCount.HasCut, CutCount.IsCountOf, Parts.ended, Published.AppliesAsPublished};
ghost use Rattle.cif_feed.specs.PublishedParts.{published_association_terms, published_schedule_terms};
ghost use Rattle.cif_feed.specs.{Steps.Dropping.ReadsAssociations, Steps.Dropping.ReadsTrains, Steps.Marks.plus_if};
ghost use Rattle.cif_feed.specs.declared.published_extract.PublishedAssociation.{PublishedAssociation};
ghost use Rattle.cif_feed.specs.declared.published_extract.PublishedSchedule.{PublishedSchedule};
ghost use Rattle.cif_records.specs.{AssocKey.key_cmp, declared.association.AssocKey.AssocKey};

use crate::prepare::{ClashDates, dates_of, prepared_last};
use crate::prepared_record::from_day;
use crate::{HolidayCode, Holidays, PublishedExtract, PublishedSchedule};
use cif_calendar::{Dates, Entry};
use cif_columns::Day;
use cif_records::AssocKey;

impl PublishedExtract {
    /// How many of its schedules these holidays cut. Associations have no holidays.
    pub fn count_cut(&self, holidays: &Holidays) -> usize
        ensures { IsCountOf (λ (s : PublishedSchedule).
            HasCut holidays.now self.now.header.last (published_schedule_terms s)) self.now.schedules.items result }
    {
        let mut count = 0;
        let schedules = self.schedules.as_slice();
        for one in schedules {
            count = plus_if(count, has_cut(one, self.header.last, holidays));
        }
        count
    }

    /// How many of its associations apply on a date on which their key clashes.
    pub(crate) fn count_clashing_associations(
        &self,
        holidays: &Holidays,
        clash_dates: &ClashDates<AssocKey>,
    ) -> usize
        ensures count { (days : AssocKey → List ℕ) → ReadsAssociations days (get key_cmp clash_dates.now)
            → IsCountOf (λ (a : PublishedAssociation). AppliesOnAny (Contains (days a.association.key)) holidays.now
            self.now.header.last (published_association_terms a)) self.now.associations.items result }
        ensures within { result ≤ length self.now.associations.items }
    {
        let mut count = 0;
        let associations = self.associations.as_slice();
        for one in associations {
            let association = &one.association;
            let last = prepared_last(association, one.open_end, self.header.last);
            let dates = dates_of(clash_dates, association);
            count = plus_if(
                count,
                applies_on_any(association, last, None, holidays, dates),
            );
        }
        count
    }

    /// How many of its schedules apply on a date on which their UID clashes.
    pub(crate) fn count_clashing_schedules(
        &self,
        holidays: &Holidays,
        clash_dates: &ClashDates<u64>,
    ) -> usize
        ensures count { (days : List ℕ → List ℕ) → ReadsTrains days (get nat_cmp clash_dates.now)
            → IsCountOf (λ (s : PublishedSchedule). AppliesOnAny (Contains (days s.schedule.uid)) holidays.now
            self.now.header.last (published_schedule_terms s)) self.now.schedules.items result }
        ensures within { result ≤ length self.now.schedules.items }
    {
        let mut count = 0;
        let schedules = self.schedules.as_slice();
        for one in schedules {
            let schedule = &one.schedule;
            let last = prepared_last(schedule, one.open_end, self.header.last);
            let dates = dates_of(clash_dates, schedule);
            count = plus_if(
                count,
                applies_on_any(schedule, last, one.code, holidays, dates),
            );
        }
        count
    }
}

/// One more, if it counts.
fn plus_if(count: usize, counts: bool) -> usize
    requires { count + 1 < 2 ^ 64 }
    ensures { result ≡ plus_if count counts }
{
    if counts { count + 1 } else { count }
}

/// Whether the entry, whose last date is `last`, applies on one of the dates, with these holidays. Only the dates
/// between its first and its last are looked at.
fn applies_on_any<E: Entry>(
    entry: &E,
    last: Day,
    code: Option<HolidayCode>,
    holidays: &Holidays,
    dates: &[Day],
) -> bool
    requires { IsNonDecreasing dates.now }
    ensures { IsTrue result ↔ ((d : ℕ) × Contains dates.now d
        × AppliesAsPublished holidays.now code (ended last (E.terms entry.now)) d) }
{
    let later = from_day(dates, entry.first());
    for day in later {
        if *day > last {
            return false;
        }
        if applies_on(entry, last, code, holidays, *day) {
            return true;
        }
    }
    false
}

/// Whether the entry, whose last date is `last`, applies on the day, with these holidays.
fn applies_on<E: Entry>(
    entry: &E,
    last: Day,
    code: Option<HolidayCode>,
    holidays: &Holidays,
    day: Day,
) -> bool
    ensures { IsTrue result ↔ AppliesAsPublished holidays.now code (ended last (E.terms entry.now)) day }
{
    if holidays.has(code, day) {
        return false;
    }
    let dates = Dates {
        first: entry.first(),
        last,
        days: entry.days(),
    };
    dates.has(day)
}

/// Whether the schedule has a cut, in a window that ends on this date.
fn has_cut(one: &PublishedSchedule, window_last: Day, holidays: &Holidays) -> bool
    ensures { IsTrue result ↔ HasCut holidays.now window_last (published_schedule_terms one.now) }
{
    let Some(code) = one.code else {
        return false;
    };
    let schedule = &one.schedule;
    let last = prepared_last(schedule, one.open_end, window_last);
    holidays
        .next_holiday(code, schedule.days, schedule.first, last)
        .is_some()
}
