//! Moments of a journey.
ghost use Rattle.std.specs.Prelude.{◌≡◌, ◌<◌, ◌≤◌, ◌+◌, ◌-◌, ◌*◌, ◌/◌, ◌%◌, ◌^◌, ◌++◌, ◌∷◌, ℕ, length, max};
ghost use Rattle.cif_columns.specs.Digits.{two_digits};
ghost use Rattle.cif_rows.specs.{Adds.Adds, Row.named, Steps.field_text, declared.shape.Shape.TheVariants.Whole};
ghost use Rattle.cif_views.specs.Moments.{IsBy, IsOnTheWay, in_day_from, midnight, time_text};
ghost use Rattle.cif_views.specs.ClockTimes.{by_the_clock};

use arrayvec::ArrayString;
use cif_columns::{Sink, WriteDevice, as_text, digits_of};
use cif_rows::{Padding, RowFormat, Rows, Shape};
use itoa::Buffer;
use std::marker::Model;

/// The seconds of a day.
const DAY: u32 = 86_400;

/// The seconds by which a timetable may go back from one time to the next; more than that is a new day.
const SLIP: u32 = 3_600;

const HALF_A_DAY: u32 = 43_200;

/// The number of the day that is the schedule's date. Earlier ones have a number too, as a timetable may go
/// back by an hour at a call.
const FIRST_DAY: u128 = 1 << 64;

/// The bytes of the longest text of a moment.
const LONGEST_TIME: usize = 47;

/// A time of day. A clause sees its seconds from midnight.
#[derive(Clone, Copy, PartialEq, Eq, PartialOrd, Ord)]
pub(crate) struct TimeOfDay {
    seconds: u32,
}

impl Model for TimeOfDay {
    ghost use Rattle.std.specs.Prelude.{ℕ, ◌<◌};

    ghost Value = { ℕ };

    ghost view = { λ t. t.seconds };

    ghost invariant = { λ t. t.seconds < 86400 };

    ghost inverse = { λ n. record { seconds = n } };
}

impl TimeOfDay {
    /// The time of day so many seconds from midnight.
    pub(crate) fn new(seconds: u32) -> TimeOfDay
        requires { seconds < DAY }
        ensures { result ≡ seconds }
    {
        TimeOfDay { seconds }
    }

    /// The time HH:MM:SS.
    pub(crate) fn write(self) -> [u8; 8]
        ensures { result ≡ time_text self }
    {
        clock_text((self.seconds / 3_600) as u8, self.seconds)
    }
}

/// When a moment is by the clock.
#[derive(Clone, Copy)]
pub(crate) struct ClockTime {
    /// How many midnights it is after the date on which the train runs.
    pub(crate) midnights: u128,
    pub(crate) time: TimeOfDay,
}

/// A moment of a journey. A clause sees it in seconds from the midnight from which moments are counted.
#[derive(Clone, Copy)]
pub(crate) struct Moment {
    day: u128,
    // The time of day.
    seconds: u32,
}

impl Model for Moment {
    ghost use Rattle.std.specs.Prelude.{ℕ, ◌+◌, ◌*◌, ◌/◌, ◌%◌, ◌<◌};

    ghost Value = { ℕ };

    ghost view = { λ m. m.day * 86400 + m.seconds };

    ghost invariant = { λ m. m.seconds < 86400 };

    ghost inverse = { λ n. record { day = n / 86400; seconds = n % 86400 } };
}

impl Moment {
    /// The moment with this time of day on the schedule's date.
    pub(crate) fn on_date(time: TimeOfDay) -> Moment
        ensures { result ≡ midnight + time }
    {
        Moment {
            day: FIRST_DAY,
            seconds: time.seconds,
        }
    }

    /// The moment with this time of day in the day that begins so many seconds before this one.
    fn in_day_from(self, before: u32, time: TimeOfDay) -> Moment
        requires before { before < DAY }
        requires on_the_way { IsOnTheWay self }
        ensures moment { result ≡ in_day_from (self - before) time }
        ensures not_before { self ≤ result + before }
        ensures within { result < self + DAY }
    {
        let (own, other) = (self.seconds, time.seconds + before);
        let day = if other < own {
            self.day + 1
        } else if other >= own + DAY {
            self.day - 1
        } else {
            self.day
        };
        Moment {
            day,
            seconds: time.seconds,
        }
    }

    /// The next moment on the way with this time of day. Up to an hour back is a slip of the timetable.
    pub(crate) fn next(self, time: TimeOfDay) -> Moment
        requires { (n : ℕ) × (n ≤ 2 ^ 65) × IsBy n self }
        ensures moment { result ≡ in_day_from (self - 3600) time }
        ensures by { (n : ℕ) → IsBy n self → IsBy (n + 1) result }
    {
        self.in_day_from(SLIP, time)
    }

    /// The moment of this public time that is nearest to this one.
    pub(crate) fn nearest(self, time: TimeOfDay) -> Moment
        requires { IsOnTheWay self }
        ensures moment { result ≡ in_day_from (self - 43200) time }
        ensures within { result < self + DAY }
    {
        self.in_day_from(HALF_A_DAY, time)
    }

    /// The later of both.
    pub(crate) fn or_later(self, other: Moment) -> Moment
        ensures { result ≡ max self other }
    {
        if self.day < other.day || self.day == other.day && self.seconds < other.seconds {
            other
        } else {
            self
        }
    }

    /// When it is by the clock.
    pub(crate) fn by_the_clock(self) -> ClockTime
        requires { midnight ≤ self }
        ensures { result ≡ by_the_clock self }
    {
        ClockTime {
            midnights: self.day - FIRST_DAY,
            time: TimeOfDay {
                seconds: self.seconds,
            },
        }
    }

    /// Adds to the row its time as HH:MM:SS, counted from the midnight at which the schedule's date begins.
    pub(crate) fn push_to<F: RowFormat, W: WriteDevice>(
        self,
        rows: &mut Rows<F>,
        name: &str,
        sink: &mut Sink<W>,
    )
        requires from { midnight ≤ self }
        requires early { self < DAY * 2 ^ 100 }
        requires narrow { length name.now ≤ 100 }
        ensures { Adds W.contents W.write_errors (field_text F.FORMAT (named name.now (Whole, time_text (self - midnight))))
            sink.old sink.new rows.old rows.new }
    {
        // Nearly all are on that date.
        if self.day == FIRST_DAY {
            let hour = (self.seconds / 3_600) as u8;
            let text = clock_text(hour, self.seconds);
            rows.push(sink, name, Padding::Apart, Shape::Whole, &text);
        } else {
            self.push_later(rows, name, sink);
        }
    }

    /// Adds to the row the moment on any date, after the hours of the dates before.
    #[inline(never)]
    fn push_later<F: RowFormat, W: WriteDevice>(
        self,
        rows: &mut Rows<F>,
        name: &str,
        sink: &mut Sink<W>,
    )
        requires from { midnight ≤ self }
        requires early { self < DAY * 2 ^ 100 }
        requires narrow { length name.now ≤ 100 }
        ensures { Adds W.contents W.write_errors (field_text F.FORMAT (named name.now (Whole, time_text (self - midnight))))
            sink.old sink.new rows.old rows.new }
    {
        let hours = (self.day - FIRST_DAY) * 24 + (self.seconds / 3_600) as u128;
        if hours < 100 {
            let text = clock_text(hours as u8, self.seconds);
            rows.push(sink, name, Padding::Apart, Shape::Whole, &text);
            return;
        }
        let mut text = ArrayString::<LONGEST_TIME>::new();
        text.push_str(Buffer::new().format(hours / 100));
        text.push_str(as_text(&clock_text((hours % 100) as u8, self.seconds)));
        rows.push(
            sink,
            name,
            Padding::Apart,
            Shape::Whole,
            text.as_str().as_bytes(),
        );
    }
}

/// An hour of two digits, and the minute and the second of this time of day.
fn clock_text(hour: u8, seconds: u32) -> [u8; 8]
    requires { hour < 100 }
    ensures { result ≡ two_digits hour ++ ((58 ∷ two_digits (seconds / 60 % 60)) ++ (58 ∷ two_digits (seconds % 60))) }
{
    let [a, b] = digits_of(hour);
    let [c, d] = digits_of((seconds / 60 % 60) as u8);
    let [e, f] = digits_of((seconds % 60) as u8);
    [a, b, b':', c, d, b':', e, f]
}
