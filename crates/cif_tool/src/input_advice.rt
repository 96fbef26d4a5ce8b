//! What `--verbose` says of an input: its window, its records that clash, its lines that are refused.
use crate::job_advice::reason_of;
use crate::line_advice::Reader;
use crate::line_again::LineAgain;
use crate::message::Message;
use crate::read_input::ReadInput;
use cif_columns::{MAX_LINES, Refusal, Sink, as_text};
use cif_extract::{Clash, Extract};
use cif_feed::Reasons;
use cif_records::Header;
use cif_views::explain_view;
use std::str;

const PREPARE: &str = "cif prepare makes an extract of a published one";

const PREPARE_WITH_HOLIDAYS: &str =
    "cif prepare --holidays FILE makes an extract of a published one";

const UPDATE: &str = "cif update applies an update to a full extract";

pub(crate) const FULL_FIRST: &str =
    "the full extract comes first, and its updates in their order behind it";

const EMPTY: &str = "the input is empty: > FILE empties FILE before it is read";

/// How files begin that are no extracts, and what each is.
static BEGINNINGS: [(&[u8], &str); 13] = [
    (b"\x1F\x8B", "gzip: decompress it first"),
    (b"PK\x03\x04", "a zip archive: extract it first"),
    (
        b"\xEF\xBB\xBF",
        "text with a byte order mark: remove its first three bytes",
    ),
    (b"\xFF\xFE", "UTF-16: convert it to ASCII first"),
    (b"\xFE\xFF", "UTF-16: convert it to ASCII first"),
    (b"H\0", "UTF-16: convert it to ASCII first"),
    (b"\0H", "UTF-16: convert it to ASCII first"),
    (b"{", "JSON: take the feed in the CIF format"),
    (b"[", "JSON: take the feed in the CIF format"),
    (b"<?xml", "XML: take the feed in the CIF format"),
    (b"<", "HTML, a page of the web: take the feed itself"),
    (b"A    ", "the stations of RSP (MSN), for cif-gtfs-csv"),
    (b"M=", "the links of RSP (ALF), for cif-gtfs-csv"),
];

/// What an input that begins so looks like, where that is no extract.
pub(crate) fn other_format(start: &[u8]) -> Option<&'static str> {
    for (beginning, format) in &BEGINNINGS {
        if start.starts_with(beginning) {
            return Some(format);
        }
    }
    None
}

impl ReadInput<'_, '_> {
    /// Adds which input it is about.
    pub(crate) fn add_name(&self, message: &mut Message) {
        message.line(format_args!("in {self}"));
    }

    /// Adds what wasn't read, and why if the system says so.
    pub(crate) fn add_read_failure(&self, message: &mut Message) {
        match reason_of(message.alloc, self.input.failure) {
            Some(reason) => message.line(format_args!("in {self}: {reason}")),
            None => self.add_name(message),
        }
    }

    /// Adds the window of the input, which has this header.
    pub(crate) fn add_window(&self, header: &Header, message: &mut Message) {
        let first = header.first.to_yymmdd();
        let last = header.last.to_yymmdd();
        let (first, last) = (as_text(&first), as_text(&last));
        message.line(format_args!("{self} has the window {first} to {last}"));
    }

    /// Adds which input it is about, and its line of this number, if that is still known.
    pub(crate) fn add_shown(&self, number: u64, message: &mut Message) -> Option<LineAgain> {
        self.add_name(message);
        let line = self.line_again(number)?;
        message.add_bytes(line.bytes.as_slice());
        Some(line)
    }

    /// Adds which records of the clash's key clash in this extract, and says whether any do, or memory ran out. The
    /// extract is left with the records of this key alone.
    pub(crate) fn add_records(
        &self,
        clash: &Clash,
        kept: &mut Option<Extract>,
        message: &mut Message,
    ) -> bool {
        let Some(extract) = kept else {
            return false;
        };
        let mut view = Sink::new(Vec::new(message.alloc));
        let (uid, day) = match clash {
            Clash::Association(key, day) => {
                extract.schedules.clear();
                extract.associations.retain(|one| one.key == *key);
                (&key.base, *day)
            }
            Clash::Train(uid, day) => {
                extract.associations.clear();
                extract.schedules.retain(|one| one.uid == *uid);
                (uid, *day)
            }
        };
        explain_view(message.alloc, extract, uid, day, &mut view).is_err()
            || self.add_clashing(view.writer().as_slice(), message)
    }

    /// Adds those lines of an explanation that are marked as clashes; whether there are any.
    fn add_clashing(&self, view: &[u8], message: &mut Message) -> bool {
        let mut found = false;
        for line in str::from_utf8(view).unwrap_or("").lines() {
            if line.starts_with("clash ") {
                if !found {
                    self.add_name(message);
                }
                found = true;
                message.line(line);
            }
        }
        found
    }

    /// Adds what the input looks like, or the commands that accept the first lines with these reasons.
    pub(crate) fn add_reasons(&self, reasons: &Reasons, message: &mut Message) {
        if let Some(format) = other_format(self.input.start.as_slice()) {
            message.line(format_args!("the input looks like {format}"));
            return;
        }
        if reasons.lines(Refusal::NotFull) > 0 {
            // `prepare` refuses an update.
            match self.line_again(reasons.first(Refusal::NotFull)) {
                Some(line) if line.is_of_update() => return message.line(UPDATE),
                None if self.header().is_none() => return,
                _ => {}
            }
        }
        let mut reported = "";
        for why in [
            Refusal::OpenEnd,
            Refusal::BadLength,
            Refusal::UnknownRecord,
            Refusal::BankHoliday,
        ] {
            if reasons.lines(why) == 0 {
                continue;
            }
            let line = self.line_again(reasons.first(why));
            if let Some(command) = self.command_for(line.as_ref(), why) {
                if command != reported {
                    message.line(command);
                }
                reported = command;
            }
        }
    }

    /// Adds what is wrong with the line of this number.
    pub(crate) fn add_refusal(
        &self,
        number: u64,
        why: Refusal,
        reader: Reader,
        message: &mut Message,
    ) {
        self.add_name(message);
        if number == 1
            && let Some(format) = other_format(self.input.start.as_slice())
        {
            message.line(format_args!("the input looks like {format}"));
            return;
        }
        match why {
            Refusal::Truncated if self.input.start.is_empty() => message.line(EMPTY),
            Refusal::Truncated => message.line("the input ends before its trailer, ZZ"),
            Refusal::TooManyLines => {
                message.line(format_args!("an extract has at most {MAX_LINES} lines"));
            }
            _ => {
                let line = self.line_again(number);
                if let Some(line) = &line {
                    line.add_to(why, reader, message);
                }
                if reader == Reader::Extracts || why == Refusal::NotFull {
                    if let Some(command) = self.command_for(line.as_ref(), why) {
                        message.line(command);
                    }
                }
            }
        }
    }

    /// The command that accepts a line of the input which others refuse for this reason, if there is one. Of a
    /// line that isn't known only an open end decides; of a comment what stands behind it, in a file.
    fn command_for(&self, line: Option<&LineAgain>, why: Refusal) -> Option<&'static str> {
        match (why, line) {
            (Refusal::OpenEnd, _) => Some(PREPARE),
            (Refusal::BankHoliday, Some(line)) if line.has_holiday_code() => {
                Some(PREPARE_WITH_HOLIDAYS)
            }
            (Refusal::UnknownRecord, Some(line)) if line.is_note() => Some(PREPARE),
            (Refusal::BadLength | Refusal::UnknownRecord, Some(line)) if line.is_comment() => {
                match self.letter_of_header() {
                    Some(b'F') => Some(PREPARE),
                    Some(b'U') => Some(UPDATE),
                    _ => None,
                }
            }
            (Refusal::NotFull, Some(line)) if line.is_of_update() => Some(match self.input.side {
                "FULL" => FULL_FIRST,
                _ => UPDATE,
            }),
            _ => None,
        }
    }
}
