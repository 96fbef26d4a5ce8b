//! Some entries, and who leads on each weekday where they are looked at together.
//!
//! Members that are known to have one body aren't compared again. A list, `alike`, has for a member
//! the number of an earlier one with its body, where that is known: links from number to number,
//! which fall.

ghost use Rattle.std.specs.Prelude.{◌≡◌, ◌<◌, ◌^◌, ◌↔◌, ◌⊎◌, ℕ, All, Some, None, length, IsTrue, MatchResult, slice_index_or};
ghost use Rattle.cif_calendar.specs.{Clash.IsClash, Clash.IsClear, Source.IsChosen, Source.IsSource, Terms.AreLawful};
ghost use Rattle.cif_calendar.specs.Steps.Standing.{AreAlike, AreBelow, Combines, HaveOneBody, IsBelow, IsRank, LooksAt, Stands, StandsAt};
ghost use Rattle.cif_calendar.specs.declared.{key_calendar.CalendarFault.TheVariants.Ambiguous, standing.Standing.TheVariants.Nobody};

use crate::applies::precedence;
use crate::entry::{Entry, same_body};
use crate::key_calendar::CalendarFault;
use cif_columns::{Day, DaysRun};
use std::marker::Model;

/// Some of a list's entries, which are read together. A member's number is its place among them, from 0 on.
#[derive(Drop)]
pub(crate) struct Members<'a, E: Entry> {
    /// The entries.
    pub(crate) entries: &'a [E],
    /// The positions of the members among them.
    pub(crate) positions: &'a [usize],
    ghost within: { All (λ i. i < length entries.now) positions.now },
    ghost few: { length positions.now < 2 ^ 60 },
}

impl<'a, E: Entry> Model for Members<'a, E> {
    ghost use Rattle.std.specs.Prelude.{map};
    ghost use Rattle.cif_calendar.specs.Terms.{Judged};

    ghost Value = { Judged E.Body };

    ghost view = { λ m. record { terms = map E.terms m.entries.now; positions = m.positions.now; few = m.few } };
}

impl<'a, E: Entry> Members<'a, E> {
    /// The member with this number.
    pub(crate) fn entry(&self, number: usize) -> &'a E
        requires { number < length self.now.positions }
        ensures stands { StandsAt self.now.terms self.now.positions number (E.terms result.now) }
        ensures lawful { AreLawful (IsChosen self.now.terms self.now.positions) }
    {
        &self.entries[self.positions[number]]
    }

    /// The position of the member with this number.
    fn position(&self, number: usize) -> usize
        requires { number < length self.now.positions }
        ensures { result ≡ slice_index_or self.now.positions number 0 }
    {
        self.positions[number]
    }
}

/// Who leads among the members that were looked at.
#[derive(Clone, Copy)]
pub(crate) enum Standing {
    /// None of them applies.
    Nobody,
    /// A winner's number among the members, where all winners have its body.
    Leader(usize),
    /// A winner's number, where another winner has another body.
    Disputed(usize),
}

/// Who leads on each weekday, Monday first.
pub(crate) type Standings = [Standing; 7];

/// What `alike` has for the member with this number.
fn known(alike: &[Option<usize>], number: usize) -> Option<usize>
    ensures { result ≡ slice_index_or alike.now number None }
{
    if number < alike.len() {
        alike[number]
    } else {
        None
    }
}

/// Notes that the member with this number has the body of the earlier one.
fn note(alike: &mut [Option<usize>], number: usize, earlier: usize)
    ensures { (k : ℕ) → (slice_index_or alike.new k None ≡ slice_index_or alike.old k None)
        ⊎ ((k ≡ number) × (slice_index_or alike.new k None ≡ Some earlier)) }
{
    if number < alike.len() {
        alike[number] = Some(earlier);
    }
}

/// Whether the members with these numbers have the same body, or both have none.
///
/// It follows the links of both. Where they meet, that is known; else the bodies are compared, and
/// what was found is noted. Links that are followed are shortened.
fn have_one_body<E: Entry>(
    members: &Members<E>,
    alike: &mut [Option<usize>],
    one: usize,
    other: usize,
) -> bool
    requires one { one < length members.now.positions }
    requires other { other < length members.now.positions }
    requires alike { AreAlike members.now.terms members.now.positions alike.old }
    ensures alike { AreAlike members.now.terms members.now.positions alike.new }
    ensures exact { IsTrue result ↔ HaveOneBody members.now.terms members.now.positions one other }
{
    // The greater number first, as links fall.
    let mut pair = (one.max(other), one.min(other));
    for _ in 0..alike.len() {
        if pair.0 == pair.1 {
            return true;
        }
        let Some(next) = known(alike, pair.0) else {
            break;
        };
        if let Some(after) = known(alike, next) {
            note(alike, pair.0, after);
        }
        pair = (next.max(pair.1), next.min(pair.1));
    }
    let same = same_body(members.entry(one), members.entry(other));
    if same {
        note(alike, pair.0, pair.1);
    }
    same
}

/// The precedence of who leads; a number after all others where nobody leads.
fn rank<E: Entry>(members: &Members<E>, standing: Standing) -> u8
    requires leader { IsBelow (length members.now.positions) standing }
    ensures { IsRank members.now.terms members.now.positions standing result }
{
    match standing {
        Standing::Nobody => u8::MAX,
        Standing::Leader(number) | Standing::Disputed(number) => precedence(members.entry(number)),
    }
}

/// Who leads on a date when two sets of members are taken together, by who leads in each. `alike` has
/// what is known of their bodies.
pub(crate) fn combine<E: Entry>(
    members: &Members<E>,
    alike: &mut [Option<usize>],
    one: Standing,
    other: Standing,
) -> Standing
    requires alike { AreAlike members.now.terms members.now.positions alike.old }
    requires one { IsBelow (length members.now.positions) one }
    requires other { IsBelow (length members.now.positions) other }
    ensures alike { AreAlike members.now.terms members.now.positions alike.new }
    ensures stands { Combines members.now.terms members.now.positions one other result }
{
    let rank_of_one = rank(members, one);
    let rank_of_other = rank(members, other);
    if rank_of_one < rank_of_other {
        one
    } else if rank_of_other < rank_of_one {
        other
    } else {
        level(members, alike, one, other)
    }
}

/// Who leads when two sets of members are taken together, if both leaders have the same letter, or neither set has
/// one. A dispute stays a dispute.
fn level<E: Entry>(
    members: &Members<E>,
    alike: &mut [Option<usize>],
    one: Standing,
    other: Standing,
) -> Standing
    requires alike { AreAlike members.now.terms members.now.positions alike.old }
    requires one { IsBelow (length members.now.positions) one }
    requires other { IsBelow (length members.now.positions) other }
    ensures alike { AreAlike members.now.terms members.now.positions alike.new }
    ensures stands { (n : ℕ) → IsRank members.now.terms members.now.positions one n →
        IsRank members.now.terms members.now.positions other n →
        Combines members.now.terms members.now.positions one other result }
{
    let Standing::Leader(leader) = one else {
        return one;
    };
    let Standing::Leader(rival) = other else {
        return other;
    };
    if have_one_body(members, alike, leader, rival) {
        one
    } else {
        Standing::Disputed(leader)
    }
}

/// Looks at the members of other standings too, on these weekdays. Inlined, as it is called most.
#[inline(always)]
pub(crate) fn look_at<E: Entry>(
    members: &Members<E>,
    alike: &mut [Option<usize>],
    standings: &mut Standings,
    days: DaysRun,
    others: &Standings,
)
    requires alike { AreAlike members.now.terms members.now.positions alike.old }
    requires below { AreBelow (length members.now.positions) standings.old }
    requires others { AreBelow (length members.now.positions) others.now }
    ensures alike { AreAlike members.now.terms members.now.positions alike.new }
    ensures below { AreBelow (length members.now.positions) standings.new }
    ensures each { (w : ℕ) → w < 7 → LooksAt members.now.terms members.now.positions days others.now
        w (slice_index_or standings.old w Nobody) (slice_index_or standings.new w Nobody) }
{
    for weekday in 0..7u8 {
        if days.has(weekday) {
            let place = usize::from(weekday);
            let (one, other) = (standings[place], others[place]);
            standings[place] = combine(members, alike, one, other);
        }
    }
}

/// The position among the entries of a winner of the day, on which this standing is that of all members;
/// `None` where nothing runs.
///
/// Any of several winners with one body may be named. `Err` comes exactly where two winners
/// have different bodies; a clash among records that do not win is no fault.
pub(crate) fn winner_by<E: Entry>(
    members: &Members<E>,
    standing: Standing,
    day: Day,
) -> Result<Option<usize>, CalendarFault>
    requires leader { IsBelow (length members.now.positions) standing }
    requires stands { Stands members.now.terms members.now.positions
        (IsChosen members.now.terms members.now.positions) day standing }
    ensures { MatchResult result
        (λ source. IsClear (IsChosen members.now.terms members.now.positions) day
        × IsSource members.now.terms members.now.positions day source)
        (λ fault. (fault ≡ Ambiguous day)
        × IsClash (IsChosen members.now.terms members.now.positions) day) }
{
    match standing {
        Standing::Nobody => Ok(None),
        Standing::Leader(number) => match members.entry(number).body() {
            None => Ok(None),
            Some(_) => Ok(Some(members.position(number))),
        },
        Standing::Disputed(_) => Err(CalendarFault::Ambiguous(day)),
    }
}
