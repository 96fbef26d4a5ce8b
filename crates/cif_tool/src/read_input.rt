//! An input that was read, of which advice speaks.
use crate::files::ProcessFiles;
use crate::line_again::{LineAgain, MOST_LOOKED_AT};
use cif_columns::{LINE_WIDTH, Line};
use cif_commands::{Device, Escaped, Input, START};
use cif_records::Header;
use std::alloc::Global;
use std::fmt::{Display, Formatter};
use std::fs::File;
use std::io::{BufRead, BufReader, Seek, SeekFrom};
use std::{fmt, fs};

/// The comments after which a header is looked for.
const MOST_COMMENTS: u64 = 100;

/// An input of a call that was done.
#[derive(Clone, Copy)]
pub(crate) struct ReadInput<'a, 'b> {
    pub(crate) rt: HostRuntime,
    pub(crate) input: &'a Input<'b, ProcessFiles>,
}

impl ReadInput<'_, '_> {
    /// The header, if what was read begins with one.
    pub(crate) fn header(&self) -> Option<Header> {
        let columns = self.input.start.as_slice().first_chunk::<LINE_WIDTH>()?;
        Header::read(&Line::of(*columns)?).ok()
    }

    /// Column 47 of the header that comes after the first comments of a file, of which there are at most a hundred.
    pub(crate) fn letter_of_header(&self) -> Option<u8> {
        let alloc = self.rt.alloc();
        let mut file = BufReader::new(alloc, self.again()?).ok()?;
        for _ in 0..MOST_COMMENTS {
            let line = LineAgain::read(alloc, &mut file, MOST_LOOKED_AT)?;
            if line.bytes.starts_with(b"HD") {
                return line.bytes.get(46).copied();
            }
            if !line.is_comment() {
                return None;
            }
        }
        None
    }

    /// The line of this number, counted from 1, if it is still known: of a file, or the first of the standard input,
    /// or one that was read last.
    pub(crate) fn line_again(&self, number: u64) -> Option<LineAgain> {
        let alloc = self.rt.alloc();
        let Some(file) = self.again() else {
            return self.kept_line(alloc, number);
        };
        let mut file = BufReader::new(alloc, file).ok()?;
        for _ in 1..number {
            file.skip_until(b'\n').ok()?;
        }
        LineAgain::read(alloc, &mut file, MOST_LOOKED_AT)
    }

    /// The same of the standard input.
    fn kept_line(&self, alloc: Global, number: u64) -> Option<LineAgain> {
        let last = self
            .input
            .last
            .as_ref()
            .and_then(|last| last.from_line(number));
        match (last, number) {
            (Some(mut rest), _) => {
                // More is known of a line that is too long, but how much depends on the reads.
                let mut line = LineAgain::read(alloc, &mut rest, START)?;
                line.bytes.truncate(START);
                Some(line)
            }
            (None, 1) => LineAgain::read(alloc, &mut self.input.start.as_slice(), START),
            (None, _) => None,
        }
    }

    /// The file, to be read again from its beginning: none if the input isn't a file that allows it.
    fn again(&self) -> Option<File> {
        match self.input.device() {
            Device::Ended => fs::open(&self.rt, self.input.name()).ok()?.try_clone().ok(),
            Device::Opened(file) => {
                let mut file = file.try_clone().ok()?;
                file.seek(SeekFrom::Start(0)).ok()?;
                Some(file)
            }
            _ => None,
        }
    }
}

/// Of several inputs which one it is, and the file's name.
impl Display for ReadInput<'_, '_> {
    fn fmt<W: fmt::Write>(&self, f: &mut Formatter<W>) -> fmt::Result {
        let side = self.input.side;
        let name = Escaped {
            text: self.input.name(),
            has_lines: false,
        };
        if side.is_empty() {
            write!(f, "{name}")
        } else {
            write!(f, "{side} ({name})")
        }
    }
}
