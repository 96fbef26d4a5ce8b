//! Holidays that don't reach the window of a published extract.
ghost use Rattle.std.specs.Prelude.{◌≡◌, ◌∷◌, []};
ghost use Rattle.std.specs.List.{list_any};
ghost use Rattle.cif_feed.specs.Unreached.{far_dates, is_code, is_far, is_of_code, unreached_text};
ghost use Rattle.cif_feed.specs.{HolidayCode.letter, declared.published_extract.PublishedSchedule.PublishedSchedule};

use crate::{HolidayCode, Holidays, KeptPrepare, PublishedExtract, PublishedSchedule};
use arrayvec::ArrayString;
use cif_columns::{Day, as_text};

/// The holidays of a code that don't reach the window, as those of another year.
#[derive(Clone, Copy)]
pub struct Unreached {
    /// The code, which some schedule has.
    pub code: HolidayCode,
    /// The first of the holidays.
    pub first: Day,
    /// The last of them.
    pub last: Day,
    /// The first date of the window.
    pub window_first: Day,
    /// The last one.
    pub window_last: Day,
}

/// How many days may lie between the window's end and the last of the holidays before it, or the window's begin and the
/// first of them after it.
const MOST_BETWEEN: u32 = 250;

/// The bytes of the longest text.
const LONGEST_UNREACHED: usize = 64;

impl Unreached {
    /// The code and the dates, as `holidays of X: 250421 to 250505, the window: 260105 to 260125`. It takes no memory.
    #[tactic(auto, unfolding(crate::specs::Unreached::unreached_text))]
    pub fn text(&self) -> ArrayString<LONGEST_UNREACHED>
        ensures { result.bytes ≡ unreached_text self.now }
    {
        let mut text = ArrayString::new();
        text.push_str("holidays of ");
        text.push_str(letter_text(self.code));
        text.push_str(": ");
        text.push_str(as_text(&self.first.to_yymmdd()));
        text.push_str(" to ");
        text.push_str(as_text(&self.last.to_yymmdd()));
        text.push_str(", the window: ");
        text.push_str(as_text(&self.window_first.to_yymmdd()));
        text.push_str(" to ");
        text.push_str(as_text(&self.window_last.to_yymmdd()));
        text
    }
}

/// The letter of the code.
fn letter_text(code: HolidayCode) -> &'static str
    ensures { result.now ≡ letter code ∷ [] }
{
    match code {
        HolidayCode::X => "X",
        HolidayCode::E => "E",
        HolidayCode::G => "G",
    }
}

impl Holidays {
    ghost use Rattle.cif_feed.specs.{PublishedParts.published_parts, Unreached.unreached};

    /// The holidays of the code, if a schedule of the published extract has it, and they don't reach its window: the last of
    /// them is more than 250 days before its last date, or the first more than 250 days after its first date.
    pub fn unreached(&self, extract: &PublishedExtract, code: HolidayCode) -> Option<Unreached>
        ensures { result ≡ unreached self.now (published_parts extract.now) code }
    {
        let found = far_dates(
            code,
            extract.header.first,
            extract.header.last,
            self.of(Some(code)),
        );
        match found {
            Some(dates) if have_code(extract.schedules.as_slice(), code) => Some(dates),
            _ => None,
        }
    }
}

impl KeptPrepare {
    ghost use Rattle.cif_feed.specs.Unreached.{unreached_of};

    /// Of each code the holidays that don't reach the window.
    pub fn unreached(&self) -> [Option<Unreached>; 3]
        ensures { result ≡ unreached_of self.now }
    {
        match (&self.holidays, &self.extract) {
            (Some(holidays), Some(extract)) => [
                holidays.unreached(extract, HolidayCode::X),
                holidays.unreached(extract, HolidayCode::E),
                holidays.unreached(extract, HolidayCode::G),
            ],
            _ => [None, None, None],
        }
    }
}

/// The dates of the code, if they don't reach the window.
fn far_dates(
    code: HolidayCode,
    window_first: Day,
    window_last: Day,
    days: &[Day],
) -> Option<Unreached>
    ensures { result ≡ far_dates code window_first window_last days.now }
{
    let (Some(first), Some(last)) = (days.first(), days.last()) else {
        return None;
    };
    let (first, last) = (*first, *last);
    if is_far(first, last, window_first, window_last) {
        Some(Unreached {
            code,
            first,
            last,
            window_first,
            window_last,
        })
    } else {
        None
    }
}

/// Whether dates from the first to the last are so far from the window.
fn is_far(first: Day, last: Day, window_first: Day, window_last: Day) -> bool
    ensures { result ≡ is_far first last window_first window_last }
{
    u32::from(last.number()) + MOST_BETWEEN < u32::from(window_last.number())
        || u32::from(window_first.number()) + MOST_BETWEEN < u32::from(first.number())
}

/// Whether one of the schedules has the code.
fn have_code(schedules: &[PublishedSchedule], code: HolidayCode) -> bool
    ensures { result ≡ list_any (is_of_code code) schedules.now }
{
    schedules
        .iter()
        .any(|schedule| is_code(code, schedule.code))
}

/// Whether it is this code.
fn is_code(code: HolidayCode, other: Option<HolidayCode>) -> bool
    ensures { result ≡ is_code code other }
{
    match other {
        Some(other) => other.write() == code.write(),
        None => false,
    }
}
