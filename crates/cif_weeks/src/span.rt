//! The days of a window on which a record applies, week by week.

ghost use Rattle.std.specs.Prelude.{◌≡◌, ◌<◌, ◌≤◌, ◌+◌, ◌*◌, ◌↔◌, IfNone, IfSome, ℕ, length, max, min};
ghost use Rattle.cif_columns.specs.DaysRun.{RunsOn};

use cif_calendar::{Dates, Entry, Window};
use cif_columns::{Day, DaysRun, Stp};

/// The days of a window on which a record applies, week by week.
#[derive(Clone, Copy)]
pub(crate) struct Span {
    /// The first of its weeks.
    pub first_week: u32,
    /// The last of its weeks.
    pub last_week: u32,
    /// The weekdays on which it applies in its first week.
    pub first_days: DaysRun,
    /// The weekdays on which it applies in its last week.
    pub last_days: DaysRun,
    /// The weekdays on which it applies in the weeks between these two.
    pub days: DaysRun,
    /// Its letter: the least has precedence.
    pub letter: Stp,
    /// The position of an entry with its body, one position for each body.
    pub source: usize,
    ghost in_order: { first_week ≤ last_week },
    ghost one_week: { first_week ≡ last_week → first_days ≡ last_days },
    ghost in_range: { last_week < 65535 },
    ghost begins: { (weekday : ℕ) → RunsOn first_days weekday → 4 ≤ first_week * 7 + weekday },
}

impl Default for Span {
    /// Fills unused places of a list.
    fn default() -> Span {
        let none = no_days();
        Span {
            first_week: 0,
            last_week: 0,
            first_days: none,
            last_days: none,
            days: none,
            letter: Stp::P,
            source: 0,
        }
    }
}

/// Weeks, from one on, that have one mask.
#[derive(Clone, Copy)]
pub(crate) struct Weeks {
    /// The mask.
    pub days: DaysRun,
    /// The last of the weeks.
    pub last: u32,
}

impl Span {
    ghost use Rattle.cif_calendar.specs.Applies.{Applies, IsAmongDates};
    ghost use Rattle.cif_columns.specs.Day.{week_of};
    ghost use Rattle.cif_weeks.specs.Steps.Spans.{HasDay, HaveOneMask, IsSpanOf};
    ghost use Rattle.cif_weeks.specs.Window.{IsWithin, window_days};

    /// The dates from a first to a last on these weekdays, on which the body at `source` applies with this
    /// letter.
    pub(crate) fn between(first: Day, last: Day, days: DaysRun, letter: Stp, source: usize) -> Span
        requires { first ≤ last }
        ensures days { (n : ℕ) → HasDay result n ↔ IsAmongDates first last days n }
        ensures first_week { result.first_week ≡ week_of first }
        ensures last_week { result.last_week ≡ week_of last }
        ensures letter { result.letter ≡ letter }
        ensures source { result.source ≡ source }
    {
        let after = days.intersection(DaysRun::between(first.weekday(), 7));
        let before = days.intersection(DaysRun::between(0, last.weekday() + 1));
        let (first_week, last_week) = (first.week(), last.week());
        last.fits();
        let (first_days, last_days) = if first_week == last_week {
            let both = after.intersection(before);
            (both, both)
        } else {
            (after, before)
        };
        Span {
            first_week,
            last_week,
            first_days,
            last_days,
            days,
            letter,
            source,
        }
    }

    /// The days of the window on which the entry applies, whose body is that of the entry at `source`;
    /// `None` where it ends before the window or begins after it.
    pub(crate) fn of<E: Entry>(entry: &E, source: usize, window: &Window) -> Option<Span>
        ensures some { IfSome result
            (IsSpanOf (window_days window.now) (E.terms entry.now)) }
        ensures source { IfSome result (λ span. span.source ≡ source) }
        ensures none { IfNone result ((n : ℕ) → IsWithin (window_days window.now) n →
            ¬ Applies (E.terms entry.now) n) }
    {
        let dates = Dates::of(entry);
        let first = dates.first.max(window.first);
        let last = dates.last.min(window.last);
        if last < first {
            return None;
        }
        Some(Span::between(first, last, dates.days, entry.letter(), source))
    }

    /// The week, and those after it up to `until` in which it applies on the same weekdays.
    pub(crate) fn weeks_from(&self, week: u32, until: u32) -> Weeks
        requires { week ≤ until }
        ensures { HaveOneMask (HasDay self.now) week until result }
    {
        if self.last_week < week {
            return Weeks {
                days: no_days(),
                last: until,
            };
        }
        if week < self.first_week {
            let before = self.first_week - 1;
            return Weeks {
                days: no_days(),
                last: until.min(before),
            };
        }
        self.days.fits();
        self.first_days.fits();
        self.last_days.fits();
        if week == self.last_week {
            return Weeks {
                days: self.last_days,
                last: week,
            };
        }
        if week == self.first_week && !self.first_days.is(self.days) {
            return Weeks {
                days: self.first_days,
                last: week,
            };
        }
        let alike = if self.last_days.is(self.days) {
            self.last_week
        } else {
            self.last_week - 1
        };
        Weeks {
            days: self.days,
            last: until.min(alike),
        }
    }
}

/// No weekday.
pub(crate) fn no_days() -> DaysRun
    ensures none { (weekday : ℕ) → ¬ RunsOn result weekday }
    ensures width { length result ≡ 7 }
{
    DaysRun::of([false; 7])
}
