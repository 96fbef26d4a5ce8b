//! What `--verbose` says of a line that is refused: the line, and which of its columns must be otherwise.
use crate::line_again::{LineAgain, MOST_LOOKED_AT};
use crate::message::{Message, shown};
use crate::refused_columns::{columns_refused, holiday_refused};
use cif_columns::{LINE_WIDTH, Refusal};
use cif_feed::HolidayCode;

const IGNORED: &str = "a line of --holidays with the code alone ignores it";

/// The bytes of the longest line of holidays.
const LONGEST_OF_HOLIDAYS: usize = 1000;

/// Which commands read an input.
#[derive(Clone, Copy, PartialEq, Eq)]
pub(crate) enum Reader {
    /// The commands that read extracts.
    Extracts,
    /// `prepare` and `update`, which read published extracts, and whether holidays are given.
    Feeds { has_holidays: bool },
}

impl LineAgain {
    /// Whether the line, which has eighty columns, is a note.
    pub(crate) fn is_note(&self) -> bool {
        self.bytes.starts_with(b"TN") || self.bytes.starts_with(b"LN")
    }

    /// Whether the line has a holiday code in column 29.
    pub(crate) fn has_holiday_code(&self) -> bool {
        let column = self.bytes.get(28);
        column.is_some_and(|column| HolidayCode::read(*column).is_some())
    }

    /// Whether the line is the header of an update.
    pub(crate) fn is_of_update(&self) -> bool {
        self.bytes.starts_with(b"HD") && self.bytes.get(46) == Some(&b'U')
    }

    /// Adds the line, which of its columns are refused, and what must stand there.
    pub(crate) fn add_to(&self, why: Refusal, reader: Reader, message: &mut Message) {
        let bytes = self.bytes.as_slice();
        message.add_bytes(bytes);
        let begins_comment = reader != Reader::Extracts && bytes.starts_with(b"/!!");
        match (why, reader) {
            (Refusal::BadLength, _) if begins_comment => {
                message.line("a comment has at most 1,000 bytes");
            }
            (Refusal::BadLength, _) => self.add_length(message),
            (Refusal::BankHoliday, Reader::Feeds { has_holidays }) if self.has_holiday_code() => {
                message.add_columns(
                    29,
                    29,
                    if has_holidays {
                        "--holidays doesn't name this code"
                    } else {
                        "--holidays FILE gives the dates of this code"
                    },
                );
                message.line(IGNORED);
            }
            (Refusal::BankHoliday, Reader::Feeds { has_holidays: _ }) => {
                message.add_columns(29, 29, "a holiday code is a space, X, E or G");
            }
            _ => {
                if let Some((first, last, what)) = columns_refused(bytes, why) {
                    message.add_columns(first, last, what);
                }
            }
        }
    }

    /// Adds how long the line is.
    fn add_length(&self, message: &mut Message) {
        let length = self.bytes.len();
        if self.is_whole {
            message.line(format_args!("the line has {length} columns, not 80"));
            if !self.is_ended && length < LINE_WIDTH {
                message.line("the input ends in the midst of it");
            }
        } else if length < MOST_LOOKED_AT {
            message.line("the line has more than 80 columns");
        } else {
            message.line("the line has thousands of columns, not 80");
        }
    }

    /// Adds the first mistaken word of a line of holidays, if it is known: under the line, or by itself if it ends
    /// too far to the right. Whether it is.
    pub(crate) fn add_holiday_word(&self, message: &mut Message) -> bool {
        let bytes = self.bytes.as_slice();
        if bytes.len() > LONGEST_OF_HOLIDAYS {
            return false;
        }
        let text = shown::<LONGEST_OF_HOLIDAYS>(bytes);
        match holiday_refused(text.split('#').next().unwrap_or("")) {
            // Of a word at the end of what is known there may be more.
            Some((_, last, _)) if !self.is_whole && last == bytes.len() => false,
            Some((first, last, what)) if last <= LINE_WIDTH => {
                message.add_bytes(bytes);
                message.add_columns(first, last, what);
                true
            }
            Some((first, last, what)) => {
                message.add_bytes(bytes.get(first.saturating_sub(1)..last).unwrap_or(b""));
                message.add_names(first, last, what);
                true
            }
            None => false,
        }
    }
}
