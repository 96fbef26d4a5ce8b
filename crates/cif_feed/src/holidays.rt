//! The holiday codes, and their dates.
ghost use Rattle.std.specs.Prelude.{◌≡◌, ◌<◌, ◌≤◌, ◌⊎◌, ◌↔◌, ℕ, [], length, slice_index, Contains, IfOk, IfSome, IsTrue, Some, false, true};
ghost use Rattle.std.specs.List.Sorted.{IsNonDecreasing};
ghost use Rattle.cif_feed.specs.HolidayCode.{code_in, letter};

use crate::prepared_record::next_on;
use cif_columns::{Day, DaysRun};
use std::alloc::{AllocError, Global};

/// A holiday code, column 29 of a BS (the CIF End User Specification): a train doesn't run on the
/// holidays of its code.
#[derive(Clone, Copy, Debug, PartialEq, Eq)]
pub enum HolidayCode {
    /// Bank holiday Mondays.
    X,
    /// The holidays of Edinburgh.
    E,
    /// The holidays of Glasgow.
    G,
}

impl HolidayCode {
    ghost use Rattle.cif_feed.specs.declared.holidays.HolidayCode.{HolidayCode};

    /// The code with this letter; `None` for any other byte.
    pub fn read(column: u8) -> Option<HolidayCode>
        ensures found { IfSome result (λ code. column ≡ letter code) }
        ensures only { (code : HolidayCode) → column ≡ letter code → result ≡ Some code }
        ensures exact { result ≡ code_in column }
    {
        match column {
            b'X' => Some(HolidayCode::X),
            b'E' => Some(HolidayCode::E),
            b'G' => Some(HolidayCode::G),
            _ => None,
        }
    }

    /// The letter.
    pub fn write(self) -> u8
        ensures columns { result ≡ letter self }
        ensures again { code_in result ≡ Some self }
    {
        match self {
            HolidayCode::X => b'X',
            HolidayCode::E => b'E',
            HolidayCode::G => b'G',
        }
    }
}

/// Some of the holiday codes: those that may stand in a feed.
#[derive(Clone, Copy, Debug)]
pub struct HolidayCodes {
    /// Bank holiday Mondays.
    pub bank: bool,
    /// The holidays of Edinburgh.
    pub edinburgh: bool,
    /// The holidays of Glasgow.
    pub glasgow: bool,
}

impl HolidayCodes {
    ghost use Rattle.cif_feed.specs.HolidayCode.{all_codes, has_code};

    /// All of them.
    pub fn all() -> HolidayCodes
        ensures { result ≡ all_codes }
    {
        HolidayCodes {
            bank: true,
            edinburgh: true,
            glasgow: true,
        }
    }

    /// Whether the code is among them.
    pub fn has(self, code: HolidayCode) -> bool
        ensures { result ≡ has_code self code }
    {
        match code {
            HolidayCode::X => self.bank,
            HolidayCode::E => self.edinburgh,
            HolidayCode::G => self.glasgow,
        }
    }
}

/// The holidays of one code.
#[derive(Drop)]
pub(crate) struct HolidayDates {
    // Whether the code is named, with or without dates.
    is_named: bool,
    days: Vec<Day>,
    ghost rising: { IsNonDecreasing days.items },
}

impl HolidayDates {
    ghost use Rattle.cif_feed.specs.HolidayDates.{IsDateOnDaysRun, IsFirstFrom};

    /// No dates of a code, which isn't named.
    fn none(alloc: Global) -> HolidayDates
        ensures named { result.is_named ≡ false }
        ensures days { result.days.items ≡ [] }
    {
        HolidayDates {
            is_named: false,
            days: Vec::new(alloc),
        }
    }

    /// How many of the dates come before the day.
    fn count_before(&self, day: Day) -> usize
        ensures within { result ≤ length self.now.days.items }
        ensures before { (k : ℕ) → k < result → slice_index self.now.days.items k < day }
        ensures from { (k : ℕ) → result ≤ k → k < length self.now.days.items →
            day ≤ slice_index self.now.days.items k }
    {
        self.days.as_slice().partition_point(|other| *other < day)
    }

    /// Whether the day is one of the dates.
    fn contains(&self, day: Day) -> bool
        ensures { IsTrue result ↔ Contains self.now.days.items day }
    {
        match self.days.get(self.count_before(day)) {
            Some(other) => *other == day,
            None => false,
        }
    }

    /// Names the code, and adds a date, unless it is there.
    fn insert(&mut self, day: Day) -> Result<(), AllocError>
        ensures days { IfOk result (λ _. (d : ℕ) → Contains self.new.days.items d
            ↔ (Contains self.old.days.items d ⊎ (d ≡ day))) }
        ensures named { self.new.is_named ≡ true }
    {
        self.is_named = true;
        if self.contains(day) {
            return Ok(());
        }
        let at = self.count_before(day);
        self.days.insert(at, day)?;
        Ok(())
    }

    /// The first of the dates from `from` to `last` whose weekday is in the mask.
    fn next_on(&self, days: DaysRun, from: Day, last: Day) -> Option<Day>
        ensures { IsFirstFrom (IsDateOnDaysRun self.now.days.items days) from last result }
    {
        next_on(self.days.as_slice(), days, from, last)
    }
}

/// For some of the holiday codes, their dates.
#[derive(Drop)]
pub struct Holidays {
    bank: HolidayDates,
    edinburgh: HolidayDates,
    glasgow: HolidayDates,
}

impl Holidays {
    ghost use Rattle.cif_feed.specs.declared.holidays.HolidayCode.{HolidayCode};
    ghost use Rattle.cif_feed.specs.{HolidayCode.has_code, HolidayDates.IsFirstFrom, Published.IsHolidayOf};
    ghost use Rattle.cif_feed.specs.Holidays.{HasMore, IsHoliday, IsHolidayOn, Names, dates_of, holidays_of};

    /// No code is named.
    pub fn new(alloc: Global) -> Holidays
        ensures names { (code : HolidayCode) → ¬ Names result code }
        ensures days { (code : HolidayCode) (day : ℕ) → ¬ IsHoliday result code day }
    {
        Holidays {
            bank: HolidayDates::none(alloc),
            edinburgh: HolidayDates::none(alloc),
            glasgow: HolidayDates::none(alloc),
        }
    }

    /// Whether the code is named.
    pub fn names(&self, code: HolidayCode) -> bool
        ensures { IsTrue result ↔ Names self.now code }
    {
        self.dates(code).is_named
    }

    /// The codes that are named.
    pub fn codes(&self) -> HolidayCodes
        ensures { (code : HolidayCode) → IsTrue (has_code result code) ↔ Names self.now code }
    {
        HolidayCodes {
            bank: self.bank.is_named,
            edinburgh: self.edinburgh.is_named,
            glasgow: self.glasgow.is_named,
        }
    }

    /// The first holiday of the code from `from` to `last` whose weekday is in the mask.
    pub fn next_holiday(
        &self,
        code: HolidayCode,
        days: DaysRun,
        from: Day,
        last: Day,
    ) -> Option<Day>
        ensures { IsFirstFrom (IsHolidayOn self.now code days) from last result }
    {
        self.dates(code).next_on(days, from, last)
    }

    /// The holidays of the code; none without one.
    pub(crate) fn of(&self, code: Option<HolidayCode>) -> &[Day]
        ensures days { result.now ≡ holidays_of self.now code }
        ensures rising { IsNonDecreasing result.now }
    {
        match code {
            Some(code) => self.dates(code).days.as_slice(),
            None => &[],
        }
    }

    /// Whether the day is a holiday of the code; no day is without one.
    pub(crate) fn has(&self, code: Option<HolidayCode>, day: Day) -> bool
        ensures { IsTrue result ↔ IsHolidayOf self.now code day }
    {
        match code {
            Some(code) => self.dates(code).contains(day),
            None => false,
        }
    }

    /// Names the code.
    pub(crate) fn name(&mut self, code: HolidayCode)
        ensures { HasMore self.old code (λ _. ⊥) self.new }
    {
        match code {
            HolidayCode::X => self.bank.is_named = true,
            HolidayCode::E => self.edinburgh.is_named = true,
            HolidayCode::G => self.glasgow.is_named = true,
        }
    }

    /// Names the code, and adds a holiday of it.
    pub(crate) fn add(&mut self, code: HolidayCode, day: Day) -> Result<(), AllocError>
        ensures { IfOk result (λ _. HasMore self.old code (λ d. d ≡ day) self.new) }
    {
        match code {
            HolidayCode::X => self.bank.insert(day),
            HolidayCode::E => self.edinburgh.insert(day),
            HolidayCode::G => self.glasgow.insert(day),
        }
    }

    /// The holidays of a code.
    fn dates(&self, code: HolidayCode) -> &HolidayDates
        ensures { result.now ≡ dates_of self.now code }
    {
        match code {
            HolidayCode::X => &self.bank,
            HolidayCode::E => &self.edinburgh,
            HolidayCode::G => &self.glasgow,
        }
    }
}
