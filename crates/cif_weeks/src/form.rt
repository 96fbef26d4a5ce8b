//! Canonical records by the position of their bodies, their three forms, and whether two weeks that follow
//! one another are joined in the first two.

ghost use Rattle.std.specs.Prelude.{◌≡◌, ◌<◌, ◌+◌, ◌↔◌, ℕ, IsPermutation, IsTrue, MatchBool};
ghost use Rattle.std.specs.List.Sorted.{IsNonDecreasingBy};
ghost use Rattle.cif_weeks.specs.{Steps.WeekMasks.Counts, Steps.WeekMasks.MasksAgree, Steps.WeekMasks.MasksDiffer, Window.window_days};

use cif_calendar::Window;
use cif_columns::{DAYS_IN_WEEK, Day, DaysRun};

/// The dates of one canonical record, and where its body stands.
#[derive(Clone, Copy, Debug)]
pub struct Run {
    /// The first date.
    pub first: Day,
    /// The last date.
    pub last: Day,
    /// The weekdays on which the body runs between them.
    pub days: DaysRun,
    /// The position of an entry with the body, which is a winner of the first date.
    pub source: usize,
}

/// Sorts the runs by their first dates.
pub(crate) fn sort_by_first(runs: &mut Vec<Run>)
    ensures permutation { IsPermutation runs.old.items runs.new.items }
    ensures order { IsNonDecreasingBy (λ r. r.first) runs.new.items }
{
    runs.sort_unstable_by_key(|run| run.first);
}

/// How the dates on which a body runs are written as records.
///
/// In forms 1 and 2 a record is a longest sequence of consecutive weeks, Monday to Sunday, that the form
/// joins. The body runs in each of them, and the record's first and last date are the first and
/// last on which it runs there. In form 3 weeks don't count.
#[derive(Clone, Copy, PartialEq, Eq)]
pub enum Form {
    /// The mask of a week has the weekdays on which the body runs in it, and two consecutive weeks
    /// are joined where their masks are equal. Of a week that the window cuts, the dates outside
    /// it don't count.
    One,
    /// Two consecutive weeks are joined where the body runs alike in both on each weekday whose
    /// dates in both lie in the window; where there is no such weekday, they are joined. The mask
    /// of a record has the weekdays of all its weeks. So two weeks that lie wholly in the window
    /// are joined as in form 1.
    Two,
    /// The fewest records: each goes on as long as can be. It ends where a weekday of its mask is left
    /// out, or where the body runs on a further weekday that it left out since the record's first date.
    Three,
}

/// How consecutive weeks are joined: in a form, where a window may cut the first and the last of them.
#[derive(Drop)]
pub(crate) struct Joining {
    /// The form.
    pub form: Form,
    /// The window.
    pub window: Window,
}

impl Joining {
    /// Whether the week before `next` and this one have to agree on a weekday: in form 1 always, and in
    /// form 2 where its dates in both lie in the window.
    fn counts(&self, next: u32, weekday: u8) -> bool
        requires { weekday < 7 }
        ensures { (week : ℕ) → week + 1 ≡ next → IsTrue result ↔
            Counts self.now.form (window_days self.now.window) week weekday }
    {
        match self.form {
            Form::One | Form::Three => true,
            Form::Two => {
                let day = u64::from(next) * u64::from(DAYS_IN_WEEK) + u64::from(weekday);
                let first = self.window.first.days_since_first_monday() + DAYS_IN_WEEK;
                let last = self.window.last.days_since_first_monday();
                u64::from(first) <= day && day <= u64::from(last)
            }
        }
    }

    /// Whether the masks of the week before `next` and of this one agree where they have to.
    pub(crate) fn agree(&self, next: u32, before: DaysRun, days: DaysRun) -> bool
        ensures { (week : ℕ) → week + 1 ≡ next → MatchBool result
            (MasksAgree self.now.form (window_days self.now.window) week before days)
            (MasksDiffer self.now.form (window_days self.now.window) week before days) }
    {
        if before.is(days) {
            return true;
        }
        for weekday in 0..7u8 {
            if before.has(weekday) != days.has(weekday) && self.counts(next, weekday) {
                return false;
            }
        }
        true
    }
}
