//! The keys that clash, and their dates.
ghost use Rattle.std.specs.Prelude.{◌≡◌, ◌+◌, [], IfOk};
ghost use Rattle.std.specs.{BTreeMap.get, List.Sorted.IsNonDecreasing};
ghost use Rattle.cif_feed.specs.Dropped.{AreClashDays, dropped_text};
ghost use Rattle.cif_feed.specs.Steps.Dropping.{AreFound, IsReported, published_by};

use crate::Holidays;
use crate::prepare::ClashDates;
use crate::prepared_record::RisingDays;
use crate::published_entry::PublishedEntry;
use arrayvec::ArrayString;
use cif_calendar::{NamedEntry, RankedEntry, Window, count_of_first_key, positions_by_key};
use cif_columns::Day;
use cif_extract::Clash;
use itoa::Buffer;
use std::alloc::{AllocError, Global};
use std::collections::BTreeMap;

/// A key of which nothing runs on some dates of the window, as its winners differ on them.
#[derive(Drop)]
pub struct DroppedKey {
    /// The key, with the first of these dates.
    pub clash: Clash,
    /// How many dates it has beside the first.
    pub more: usize,
}

/// The bytes of the longest text: that of associations.
const LONGEST_DROPPED: usize = 90;

impl DroppedKey {
    /// The text of its first clash, and how many more there are, as `train [C00123] on 260112 and 4 more dates`. It
    /// takes no memory.
    #[tactic(auto, unfolding(crate::specs::Dropped::dropped_text))]
    pub fn text(&self) -> ArrayString<LONGEST_DROPPED>
        ensures { result.bytes ≡ dropped_text self.now }
    {
        let mut text = ArrayString::new();
        text.push_str(self.clash.text().as_str());
        if self.more == 0 {
            return text;
        }
        if self.more == 1 {
            text.push_str(" and 1 more date");
            return text;
        }
        text.push_str(" and ");
        text.push_str(Buffer::new().format(self.more));
        text.push_str(" more dates");
        text
    }
}

/// What is left out of a prepared extract, so that it has no clash.
#[derive(Drop)]
pub struct Dropped {
    /// The keys that clash, associations before trains, each rising.
    pub keys: Vec<DroppedKey>,
    /// How many records of the published extract apply on a date on which their key clashes.
    pub records: usize,
}

impl Dropped {
    /// Nothing.
    pub(crate) fn none(alloc: Global) -> Dropped
        ensures keys { result.keys.items ≡ [] }
        ensures records { result.records ≡ 0 }
    {
        Dropped {
            keys: Vec::new(alloc),
            records: 0,
        }
    }
}

/// The dates of the window on which keys of the entries clash. These keys are appended to the list, rising.
pub(crate) fn find_clash_dates<E: PublishedEntry>(
    alloc: Global,
    entries: &[E],
    holidays: &Holidays,
    window: &Window,
    reported: &mut Vec<DroppedKey>,
) -> Result<ClashDates<E::Rank>, AllocError>
    ensures { IfOk result (λ dates. AreFound E.Key.cmp E.clash_of E.stands_for
        (AreClashDays holidays.now (published_by E.key E.published entries.now) window.now.first (window.now.last + 1))
        reported.old.items reported.new.items (get E.Rank.cmp dates)) }
{
    let positions = positions_by_key(alloc, entries)?;
    let mut dates = BTreeMap::new(alloc);
    let mut rest = positions.as_slice();
    while !rest.is_empty() {
        let (members, later) = rest.split_at(count_of_first_key(entries, rest));
        let found = E::clash_dates(alloc, entries, members, holidays, window)?;
        list_key(&entries[members[0]], found, &mut dates, reported)?;
        rest = later;
    }
    Ok(dates)
}

/// Lists the key of the entry with its clash dates, if it has one.
fn list_key<E: NamedEntry + RankedEntry>(
    entry: &E,
    found: Vec<Day>,
    dates: &mut ClashDates<E::Rank>,
    reported: &mut Vec<DroppedKey>,
) -> Result<(), AllocError>
    requires rising { IsNonDecreasing found.items }
    ensures { IfOk result (λ _. IsReported E.Key.cmp E.clash_of E.stands_for (E.key entry.now) found.items
        reported.old.items reported.new.items (get E.Rank.cmp dates.old) (get E.Rank.cmp dates.new)) }
{
    let Some(first) = found.first() else {
        return Ok(());
    };
    reported.push(DroppedKey {
        clash: entry.clash_on(*first),
        more: found.len() - 1,
    })?;
    dates.insert(entry.rank(), RisingDays { days: found })?;
    Ok(())
}
