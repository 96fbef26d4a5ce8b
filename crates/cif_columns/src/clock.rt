//! Working times and public times: an hour and a minute, or blank columns.
ghost use Rattle.std.specs.Prelude.{◌≡◌, ◌<◌, ◌≤◌, ℕ, List, Some, IfSome, length};
ghost use Rattle.cif_columns.specs.Clock.{below, is_clock, is_blank as all_spaces, seconds_to};
ghost use Rattle.cif_columns.specs.{Digits.number_in, Line.ArePrintable, PublicTime.is_public_time as is_public};
ghost use Rattle.cif_columns.specs.{WorkTime.is_work_time as is_working};
ghost use Rattle.std.specs.Option.{option_and_then};

use crate::day::number_of;
use crate::line::debug;
use std::fmt;
use std::marker::Model;

/// What the digits of 00 come to, taken for numbers.
const ZEROS: u32 = 528;

/// The seconds from midnight to `HHMM`; `None` where these aren't the digits of an hour and a minute.
fn seconds_to(a: u8, b: u8, c: u8, d: u8) -> Option<u32>
    ensures bound { IfSome result (λ seconds. seconds ≤ 86340) }
    ensures exact { result ≡ seconds_to (number_in a b) (number_in c d) }
{
    let hour = number_below(24, a, b)?;
    let minute = number_below(60, c, d)?;
    Some(hour * 3_600 + minute * 60)
}

/// The number that two digits write, if it is below the limit.
// The first is a digit if the second is, and the number is none too great.
#[inline(always)]
fn number_below(limit: u32, tens: u8, ones: u8) -> Option<u32>
    requires { limit ≤ 100 }
    ensures bound { IfSome result (λ n. n < limit) }
    ensures exact { result ≡ below limit (number_in tens ones) }
{
    if !ones.is_ascii_digit() {
        return None;
    }
    let number = u32::from(tens) * 10 + u32::from(ones);
    if ZEROS <= number && number < ZEROS + limit {
        Some(number - ZEROS)
    } else {
        None
    }
}

/// Whether these are the digits of an hour and a minute, `HHMM`.
// Here and below each test is made, whatever the others say: that takes less than branches do.
fn is_hhmm(a: u8, b: u8, c: u8, d: u8) -> bool
    ensures { result ≡ is_clock a b c d }
{
    match (number_of(a, b), number_of(c, d)) {
        (Some(hour), Some(minute)) => (hour < 24) & (minute < 60),
        _ => false,
    }
}

/// Whether all are spaces.
fn is_blank<const N: usize>(columns: &[u8; N]) -> bool
    ensures { result ≡ all_spaces columns.now }
{
    *columns == [b' '; N]
}

/// A working time, kept as it stands in its five columns: five spaces, or `HHMM` with an hour
/// from 00 to 23 and a minute from 00 to 59 and then a space, or `H` for half a minute more
/// (the CIF End User Specification). A clause sees the columns. Its order is that of the bytes.
#[derive(Clone, Copy, PartialEq, Eq)]
pub struct WorkTime {
    columns: [u8; 5],
}

impl Model for WorkTime {
    ghost use Rattle.std.specs.Prelude.{ℕ, List, IsTrue};
    ghost use Rattle.cif_columns.specs.WorkTime.{is_work_time};

    ghost Value = { List ℕ };

    ghost view = { λ t. t.columns };

    ghost invariant = { λ t. IsTrue (is_work_time t.columns) };

    ghost inverse = { λ columns. record { columns = columns } };
}

/// Whether these columns are blank, or an hour, a minute and a space or `H`.
fn is_work_time(columns: &[u8; 5]) -> bool
    ensures { result ≡ is_working columns.now }
{
    let [a, b, c, d, e] = *columns;
    is_blank(columns) | (is_hhmm(a, b, c, d) & ((e == b' ') | (e == b'H')))
}

/// Its columns, in quotes.
impl fmt::Debug for WorkTime {
    fn fmt<W: fmt::Write>(&self, f: &mut fmt::Formatter<W>) -> fmt::Result {
        debug(&self.write(), f)
    }
}

impl WorkTime {
    ghost use Rattle.cif_columns.specs.WorkTime.{StandsIn, work_seconds, work_time_in};

    /// The time in these columns; `None` where they aren't of the form.
    pub fn read(columns: &[u8; 5]) -> Option<WorkTime>
        ensures found { IfSome result (StandsIn columns.now) }
        ensures only { (time : List ℕ) → StandsIn columns.now time → result ≡ Some time }
        ensures exact { result ≡ work_time_in columns.now }
    {
        if is_work_time(columns) {
            Some(WorkTime { columns: *columns })
        } else {
            None
        }
    }

    /// The five columns.
    pub fn write(&self) -> [u8; 5]
        ensures columns { result ≡ self.now }
        ensures width { length self.now ≡ 5 }
        ensures stands { StandsIn result self.now }
        ensures printable { ArePrintable result }
        ensures again { work_time_in result ≡ Some self.now }
    {
        self.columns
    }

    /// The seconds from midnight to the time in these columns; `None` where they are blank, or none.
    pub fn seconds_in(columns: &[u8; 5]) -> Option<u32>
        ensures bound { IfSome result (λ seconds. seconds < 86400) }
        ensures exact { result ≡ option_and_then work_seconds (work_time_in columns.now) }
    {
        let [a, b, c, d, half] = *columns;
        let seconds = seconds_to(a, b, c, d)?;
        match half {
            b' ' => Some(seconds),
            b'H' => Some(seconds + 30),
            _ => None,
        }
    }

    /// The same time.
    pub fn copy(&self) -> WorkTime
        ensures { result ≡ self.now }
    {
        *self
    }
}

/// A public time, kept as it stands in its four columns: four spaces, or `HHMM` with an hour
/// from 00 to 23 and a minute from 00 to 59 (the CIF End User Specification). `0000` and blank
/// differ. A clause sees the columns. Its order is that of the bytes.
#[derive(Clone, Copy, PartialEq, Eq)]
pub struct PublicTime {
    columns: [u8; 4],
}

impl Model for PublicTime {
    ghost use Rattle.std.specs.Prelude.{ℕ, List, IsTrue};
    ghost use Rattle.cif_columns.specs.PublicTime.{is_public_time};

    ghost Value = { List ℕ };

    ghost view = { λ t. t.columns };

    ghost invariant = { λ t. IsTrue (is_public_time t.columns) };

    ghost inverse = { λ columns. record { columns = columns } };
}

/// Whether these columns are blank, or an hour and a minute.
fn is_public_time(columns: &[u8; 4]) -> bool
    ensures { result ≡ is_public columns.now }
{
    let [a, b, c, d] = *columns;
    is_blank(columns) | is_hhmm(a, b, c, d)
}

/// Its columns, in quotes.
impl fmt::Debug for PublicTime {
    fn fmt<W: fmt::Write>(&self, f: &mut fmt::Formatter<W>) -> fmt::Result {
        debug(&self.write(), f)
    }
}

impl PublicTime {
    ghost use Rattle.cif_columns.specs.PublicTime.{StandsIn, public_seconds, public_time_in};

    /// The time in these columns; `None` where they aren't of the form.
    pub fn read(columns: &[u8; 4]) -> Option<PublicTime>
        ensures found { IfSome result (StandsIn columns.now) }
        ensures only { (time : List ℕ) → StandsIn columns.now time → result ≡ Some time }
        ensures exact { result ≡ public_time_in columns.now }
    {
        if is_public_time(columns) {
            Some(PublicTime { columns: *columns })
        } else {
            None
        }
    }

    /// The four columns.
    pub fn write(&self) -> [u8; 4]
        ensures columns { result ≡ self.now }
        ensures width { length self.now ≡ 4 }
        ensures stands { StandsIn result self.now }
        ensures printable { ArePrintable result }
        ensures again { public_time_in result ≡ Some self.now }
    {
        self.columns
    }

    /// The seconds from midnight to the time in these columns; `None` where they are blank, none, or `0000`,
    /// which stands for no time.
    pub fn seconds_in(columns: &[u8; 4]) -> Option<u32>
        ensures bound { IfSome result (λ seconds. seconds < 86400) }
        ensures exact { result ≡ option_and_then public_seconds (public_time_in columns.now) }
    {
        let [a, b, c, d] = *columns;
        match seconds_to(a, b, c, d) {
            Some(0) => None,
            seconds => seconds,
        }
    }

    /// The same time.
    pub fn copy(&self) -> PublicTime
        ensures { result ≡ self.now }
    {
        *self
    }
}
