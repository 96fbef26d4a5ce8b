//! The text of holidays.
ghost use Rattle.std.specs.Prelude.{◌≡◌, ◌<◌, ◌≤◌, ◌+◌, ◌∷◌, ◌==◌, [], ℕ, All, IfErr, IfOk, IfSome, Some, length};
ghost use Rattle.std.specs.List.{before_first};
ghost use Rattle.cif_extract.specs.ReadCall.{IsResultOf};
ghost use Rattle.cif_feed.specs.Words.{words_in};

use crate::{HolidayCode, Holidays};
use cif_columns::{ContentReader, Day, LineFault, MAX_LINES, NextContent, ReadDevice, Source};
use memchr::memchr;
use std::alloc::Global;

/// How many bytes a line of holidays may have, its remark included and its ending not.
const LONGEST_LINE: usize = 1_000;

/// How many bytes of a line are read at most: as many as it may have, a carriage return and a line feed.
const MOST_OF_LINE: usize = LONGEST_LINE + 2;

/// Why there are no holidays. Its number, its name and its text are those of the `FeedFault` that it is.
#[derive(Clone, Copy, Debug)]
pub enum HolidayFault {
    /// A line, by its number from 1, isn't one of holidays, or is one too many.
    BadHoliday { line: u64 },
    /// The source failed before a bad line was decided.
    Read,
    /// Memory ran out: a request for it was refused.
    Memory,
}

impl From<LineFault> for HolidayFault {
    ghost use Rattle.cif_feed.specs.HolidayText.{of_line_fault};

    ghost from_gives = { λ line_fault fault. fault ≡ of_line_fault line_fault };

    fn from(fault: LineFault) -> HolidayFault {
        match fault {
            LineFault::Refused { line, why: _ } => HolidayFault::BadHoliday { line },
            LineFault::Read => HolidayFault::Read,
        }
    }
}

impl Holidays {
    ghost use Rattle.cif_feed.specs.Holidays.{HasMore};
    ghost use Rattle.cif_feed.specs.HolidayText.{IsDate, IsHolidayLine, NamesDay, reading_holidays};
    ghost use Rattle.cif_feed.specs.Steps.HolidayReading.{HasLineMore, IsDateFault, IsLineFault};

    /// The holidays of a text. Each line has at most 1,000 bytes. What begins with a `#` is a remark.
    /// What stands before it is empty, or a code and any number of dates, `yymmdd` or `YYYY-MM-DD`, with spaces
    /// between and around them. The first other line is refused, and so is one after `MAX_LINES`.
    ///
    /// BadHoliday names that line; Read comes where the source failed before it was decided, by its
    /// line feed, its 1,002nd byte, its first if it is one too many, or the end. Where there are
    /// holidays, nothing is left in the source.
    // Inlined, it would keep what is read ahead on the stack of its caller.
    #[inline(never)]
    pub fn read<R: ReadDevice>(
        alloc: Global,
        source: &mut Source<R>,
    ) -> Result<Holidays, HolidayFault>
        ensures { IsResultOf R.remaining R.read_errors reading_holidays
            source.old source.new result }
    {
        let mut lines = ContentReader::new(MAX_LINES, MOST_OF_LINE);
        let mut holidays = Holidays::new(alloc);
        loop {
            match lines.next(source) {
                Ok(NextContent::Content) => {
                    let number = lines.line_number();
                    match holidays.add_line(number, lines.content()) {
                        Ok(()) => {}
                        Err(fault) => return Err(fault),
                    }
                }
                Ok(NextContent::Overlong) => {
                    let line = lines.line_number() + 1;
                    return Err(HolidayFault::BadHoliday { line });
                }
                Ok(NextContent::End) => return Ok(holidays),
                Err(fault) => return Err(HolidayFault::from(fault)),
            }
        }
    }

    /// Adds what the line of this number says. After a fault nothing is said of the holidays.
    fn add_line(&mut self, number: u64, line: &[u8]) -> Result<(), HolidayFault>
        ensures ok { IfOk result (λ _. IsHolidayLine line.now
            × HasLineMore self.old line.now self.new) }
        ensures err { IfErr result (IsLineFault number line.now) }
    {
        let bad = HolidayFault::BadHoliday { line: number };
        if line.len() > LONGEST_LINE {
            return Err(bad);
        }
        let (word, rest) = first_word(before_byte(line, b'#'));
        match word {
            [] => Ok(()),
            [letter] => match HolidayCode::read(*letter) {
                Some(code) => self.add_dates(number, code, rest),
                None => Err(bad),
            },
            _ => Err(bad),
        }
    }

    /// Names the code, and adds the dates that the words are, in the line of this number.
    fn add_dates(
        &mut self,
        number: u64,
        code: HolidayCode,
        words: &[u8],
    ) -> Result<(), HolidayFault>
        ensures ok { IfOk result (λ _. All IsDate (words_in words.now)
            × HasMore self.old code (NamesDay (words_in words.now)) self.new) }
        ensures err { IfErr result (IsDateFault number (words_in words.now)) }
    {
        self.name(code);
        let mut rest = words;
        loop {
            let (word, more) = first_word(rest);
            if word.is_empty() {
                return Ok(());
            }
            let Some(day) = Day::from_word(word) else {
                return Err(HolidayFault::BadHoliday { line: number });
            };
            match self.add(code, day) {
                Ok(()) => rest = more,
                Err(_) => return Err(HolidayFault::Memory),
            }
        }
    }
}

/// The first of the words, or nothing where there is none, and what stands behind it.
#[tactic(auto, unfolding(crate::specs::Words::words_in))]
fn first_word(bytes: &[u8]) -> (&[u8], &[u8])
    ensures none { length result.0.now ≡ 0 → words_in bytes.now ≡ [] }
    ensures some { 0 < length result.0.now →
        words_in bytes.now ≡ result.0.now ∷ words_in result.1.now }
    ensures shorter { length result.0.now + length result.1.now ≤ length bytes.now }
{
    let mut start = 0;
    while start < bytes.len() && bytes[start] == b' ' {
        start += 1;
    }
    let from = &bytes[start..];
    let word = before_byte(from, b' ');
    (word, &from[word.len()..])
}

/// What stands before the first such byte; all bytes where there is none.
fn before_byte(bytes: &[u8], byte: u8) -> &[u8]
    ensures { result.now ≡ before_first (λ b. b == byte) bytes.now }
{
    match memchr(byte, bytes) {
        Some(at) => &bytes[..at],
        None => bytes,
    }
}
