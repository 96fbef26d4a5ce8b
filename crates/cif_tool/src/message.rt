//! The lines of a message on standard error.
use arrayvec::ArrayString;
use cif_columns::{LINE_WIDTH, is_printable};
use std::alloc::Global;
use std::fmt::Display;
use std::io::Write;

/// The lines that follow those of a fault. They are gathered, so that one write takes them all.
#[derive(Drop)]
pub(crate) struct Message {
    pub(crate) alloc: Global,
    text: Vec<u8>,
}

impl Message {
    /// No line yet.
    pub(crate) fn new(alloc: Global) -> Self {
        Message {
            alloc,
            text: Vec::new(alloc),
        }
    }

    /// Adds the text as one line, indented by two spaces, if there is memory for it.
    pub(crate) fn line<T: Display + Drop>(&mut self, text: T) {
        let length = self.text.len();
        if writeln!(self.text, "  {text}").is_err() {
            self.text.truncate(length);
        }
    }

    /// All lines.
    pub(crate) fn into_text(self) -> Vec<u8> {
        self.text
    }
}

const BLANKS: &str =
    "                                                                                ";

const CARETS: &str =
    "^^^^^^^^^^^^^^^^^^^^^^^^^^^^^^^^^^^^^^^^^^^^^^^^^^^^^^^^^^^^^^^^^^^^^^^^^^^^^^^^";

impl Message {
    /// Adds the first eighty of the bytes of a line.
    pub(crate) fn add_bytes(&mut self, bytes: &[u8]) {
        self.line(shown::<LINE_WIDTH>(bytes));
    }

    /// Adds which columns are refused, under the line, and what must stand there.
    pub(crate) fn add_columns(&mut self, first: usize, last: usize, what: &str) {
        let before = first.saturating_sub(1);
        let blanks = BLANKS.get(..before).unwrap_or("");
        let carets = CARETS.get(before..last).unwrap_or("");
        self.line(format_args!("{blanks}{carets}"));
        self.add_names(first, last, what);
    }

    /// Adds which columns are refused, by their numbers, and what must stand there.
    pub(crate) fn add_names(&mut self, first: usize, last: usize, what: &str) {
        if first == last {
            self.line(format_args!("column {first}: {what}"));
        } else {
            self.line(format_args!("columns {first}-{last}: {what}"));
        }
    }
}

/// The first bytes of a line as text, with a question mark for each that isn't printable.
pub(crate) fn shown<const N: usize>(bytes: &[u8]) -> ArrayString<N> {
    let mut text = ArrayString::new();
    for byte in bytes {
        let shown = if is_printable(*byte) {
            char::from(*byte)
        } else {
            '?'
        };
        let _ = text.try_push(shown);
    }
    text
}
