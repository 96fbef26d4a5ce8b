//! The records of a published extract as entries of the calendar.
ghost use Rattle.std.specs.Prelude.{◌≡◌, ◌<◌, ◌+◌, All, IfOk, length};
ghost use Rattle.cif_feed.specs.Steps.Counting.{AreClashDatesOn, CountsAmong, code_list};

use crate::counting::clash_dates_by;
use crate::{HolidayCode, Holidays, PublishedAssociation, PublishedSchedule};
use cif_calendar::{Entry, NamedEntry, RankedEntry, Window, clash_dates};
use cif_columns::{Day, DaysRun, Stp, Uid};
use cif_extract::{Body, Clash};
use cif_records::{AssocBody, AssocKey};
use std::alloc::{AllocError, Global};

/// A record of a published extract: an entry, which doesn't count on the holidays of its code. Where its end is open,
/// its last date is the last day there is.
pub(crate) trait PublishedEntry: NamedEntry + RankedEntry {
    ghost use Rattle.cif_feed.specs.Published.{PublishedTerms};

    // What the rules read of it.
    ghost published: { Self → PublishedTerms Self.Body };

    /// The dates of the window on which two winners have different bodies, by the entries at `members`, each of which
    /// doesn't count on the holidays of its code. They rise.
    fn clash_dates(
        alloc: Global,
        entries: &[Self],
        members: &[usize],
        holidays: &Holidays,
        window: &Window,
    ) -> Result<Vec<Day>, AllocError>
        requires { All (λ i. i < length entries.now) members.now }
        ensures { IfOk result (λ days. AreClashDatesOn (CountsAmong holidays.now published entries.now members.now code_list)
            window.now.first (window.now.last + 1) days.items) };

    // Its dates, its letter and what runs are those of the entry.
    ghost own_terms: { (e : Self) → (published e).terms ≡ Self.terms e };
}

impl Entry for PublishedAssociation {
    type Key = AssocKey;

    type Body = AssocBody;

    ghost use Rattle.cif_calendar.specs.{Entries.association_terms, Laws.Bodied.cancelled-from_bodied};
    ghost use Rattle.std.proofs.{Common.rules, lemmas.Grind.common_steps};
    ghost use Rattle.std.specs.Cmp.Lexicographic.{bytes_decides, pointwise_decides};

    ghost key = { λ a. a.association.key };

    ghost terms = { λ a. association_terms a.association };

    fn key(&self) -> &AssocKey {
        self.association.key()
    }

    fn first(&self) -> Day {
        self.association.first()
    }

    fn last(&self) -> Day {
        self.association.last()
    }

    fn days(&self) -> DaysRun {
        self.association.days()
    }

    fn letter(&self) -> Stp {
        self.association.letter()
    }

    fn body(&self) -> Option<&AssocBody> {
        self.association.body()
    }

    ghost same_key = { Prim.search (rules, common_steps, pointwise_decides, bytes_decides) };

    ghost same_body = { Prim.search (rules, common_steps, pointwise_decides, bytes_decides) };

    ghost dates_ordered = { λ a. a.association.in_order };

    ghost cancelled = { λ a. cancelled-from_bodied a.association.letter a.association.body a.association.bodied };
}

impl RankedEntry for PublishedAssociation {
    type Rank = AssocKey;

    ghost use Rattle.{cif_calendar.specs.Laws.Ranks.order_of_keys, cif_records.specs.AssocKey.key_cmp};

    ghost stands_for = { λ rank key. rank ≡ key };

    fn rank(&self) -> AssocKey {
        self.association.rank()
    }

    ghost same_order = { order_of_keys key_cmp };
}

impl NamedEntry for PublishedAssociation {
    ghost use Rattle.cif_extract.specs.declared.fault.Clash.TheVariants as clash;

    ghost clash_of = { clash.Association };

    fn clash_on(&self, day: Day) -> Clash {
        self.association.clash_on(day)
    }
}

impl PublishedEntry for PublishedAssociation {
    ghost use Rattle.std.specs.Prelude.{refl};
    ghost use Rattle.cif_feed.specs.PublishedParts.{published_association_terms};

    ghost published = { published_association_terms };

    // No association has a code.
    fn clash_dates(
        alloc: Global,
        entries: &[PublishedAssociation],
        members: &[usize],
        _holidays: &Holidays,
        window: &Window,
    ) -> Result<Vec<Day>, AllocError> {
        clash_dates(alloc, entries, members, window)
    }

    ghost own_terms = { λ a. refl };
}

impl Entry for PublishedSchedule {
    type Key = Uid;

    type Body = Body;

    ghost use Rattle.cif_calendar.specs.{Entries.schedule_terms, Laws.Bodied.cancelled-from_bodied};
    ghost use Rattle.std.proofs.{Common.rules, lemmas.Grind.common_steps};
    ghost use Rattle.std.specs.Cmp.Lexicographic.{bytes_decides, pointwise_decides};

    ghost key = { λ s. s.schedule.uid };

    ghost terms = { λ s. schedule_terms s.schedule };

    fn key(&self) -> &Uid {
        self.schedule.key()
    }

    fn first(&self) -> Day {
        self.schedule.first()
    }

    fn last(&self) -> Day {
        self.schedule.last()
    }

    fn days(&self) -> DaysRun {
        self.schedule.days()
    }

    fn letter(&self) -> Stp {
        self.schedule.letter()
    }

    fn body(&self) -> Option<&Body> {
        self.schedule.body()
    }

    ghost same_key = { Prim.search (rules, common_steps, bytes_decides) };

    ghost same_body = { pointwise_decides bytes_decides };

    ghost dates_ordered = { λ s. s.schedule.in_order };

    ghost cancelled = { λ s. cancelled-from_bodied s.schedule.letter s.schedule.body s.schedule.bodied };
}

impl RankedEntry for PublishedSchedule {
    type Rank = u64;

    ghost use Rattle.cif_calendar.specs.{Laws.Ranks.order_of_numbers, Ranks.IsNumberOf};

    ghost stands_for = { IsNumberOf };

    fn rank(&self) -> u64 {
        self.schedule.rank()
    }

    ghost same_order = { order_of_numbers };
}

impl NamedEntry for PublishedSchedule {
    ghost use Rattle.cif_extract.specs.declared.fault.Clash.TheVariants as clash;

    ghost clash_of = { clash.Train };

    fn clash_on(&self, day: Day) -> Clash {
        self.schedule.clash_on(day)
    }
}

impl PublishedEntry for PublishedSchedule {
    ghost use Rattle.std.specs.Prelude.{refl};
    ghost use Rattle.cif_feed.specs.PublishedParts.{published_schedule_terms};

    ghost published = { published_schedule_terms };

    fn clash_dates(
        alloc: Global,
        entries: &[PublishedSchedule],
        members: &[usize],
        holidays: &Holidays,
        window: &Window,
    ) -> Result<Vec<Day>, AllocError> {
        let codes = [HolidayCode::X, HolidayCode::E, HolidayCode::G];
        clash_dates_by(alloc, entries, members, &codes, holidays, window)
    }

    ghost own_terms = { λ s. refl };
}
