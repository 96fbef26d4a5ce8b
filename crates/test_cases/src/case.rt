//! Cases, as they stand on the standard input.
//!
//! A case is a header line and the lines of its input, as they stand:
//!
//! ```text
//! # A line that begins with a number sign is passed over, and so is an empty one.
//! == NAME: CALL KEY=VALUE KEY=VALUE
//! HDTPS.UTEST01.PD2601040401262000DFTEST1       FA050126250126
//! ZZ
//! ```
//!
//! NAME says what the case shows, CALL what is asked, and the words behind it the rest of the
//! question. Each line of the input has its line
//! feed. In a line `\xNN` is the byte with that number in hexadecimal digits, and a backslash at its
//! end takes its line feed away.
use crate::output::Output;
use cif_columns::{Day, Source};
use cif_extract::{Extract, Fault, read_extract};
use std::alloc::{AllocError, Global};
use std::str;

/// The bytes of a line of eighty columns and its line feed.
pub(crate) const LINE_BYTES: usize = 81;

/// What is asked.
#[derive(Drop)]
pub(crate) struct Case<'a> {
    /// What the case is called.
    pub(crate) name: &'a str,
    /// What is asked of its input.
    pub(crate) call: &'a str,
    /// The words behind that.
    pub(crate) words: &'a str,
    /// The bytes of its lines.
    pub(crate) input: Vec<u8>,
}

impl<'a> Case<'a> {
    /// What stands behind `key=` in the first of its words that begins so.
    pub(crate) fn value(&self, key: &str) -> Option<&'a str> {
        for word in self.words.split_whitespace() {
            if let Some((name, value)) = word.split_once('=')
                && name == key
            {
                return Some(value);
            }
        }
        None
    }

    /// The number that stands behind `key=`, 0 if that is no number; `default` where there is no
    /// such word.
    pub(crate) fn number(&self, key: &str, default: u16) -> u16 {
        match self.value(key) {
            Some(digits) => digits.parse::<u16>().unwrap_or(0),
            None => default,
        }
    }

    /// The day whose columns stand behind `key=`.
    pub(crate) fn day(&self, key: &str) -> Option<Day> {
        day_in(self.value(key)?)
    }

    /// What its input is read as.
    pub(crate) fn extract(&self, alloc: Global) -> Result<Extract, Fault> {
        read_extract(alloc, &mut Source::new(self.input.as_slice()), 1000)
    }

    /// The input of the first of these cases with the name behind `key=`; no byte where there is
    /// none.
    pub(crate) fn named<'b>(&self, key: &str, cases: &'b [Case]) -> &'b [u8] {
        let name = self.value(key).unwrap_or("");
        for case in cases {
            if case.name == name {
                return case.input.as_slice();
            }
        }
        b""
    }
}

/// The cases of a text.
pub(crate) fn cases_of<'a>(alloc: Global, text: &'a str) -> Result<Vec<Case<'a>>, AllocError> {
    let mut cases = Vec::new(alloc);
    for (at, part) in text.split("\n== ").enumerate() {
        // Only the first part begins with its mark, or has no case.
        let headed = if at > 0 {
            Some(part)
        } else {
            part.strip_prefix("== ")
        };
        if let Some(part) = headed {
            cases.push(case_of(alloc, part)?)?;
        }
    }
    Ok(cases)
}

/// The case whose header, behind its mark, begins the text.
fn case_of<'a>(alloc: Global, text: &'a str) -> Result<Case<'a>, AllocError> {
    let mut lines = text.lines();
    let header = lines.next().unwrap_or("");
    let (name, asked) = header.split_once(": ").unwrap_or((header, ""));
    let (call, words) = asked.split_once(' ').unwrap_or((asked, ""));
    let mut input = Vec::new(alloc);
    for line in lines {
        if !line.is_empty() && !line.starts_with('#') {
            push_line(&mut input, line)?;
        }
    }
    Ok(Case {
        name,
        call,
        words,
        input,
    })
}

/// Appends the bytes that a line stands for.
fn push_line(input: &mut Vec<u8>, line: &str) -> Result<(), AllocError> {
    let (columns, ending) = match line.strip_suffix('\\') {
        Some(columns) => (columns, ""),
        None => (line, "\n"),
    };
    let mut parts = columns.split("\\x");
    let first = parts.next().unwrap_or("");
    input.extend_from_slice(first.as_bytes())?;
    for part in parts {
        match part.split_at_checked(2) {
            Some((digits, rest)) => {
                input.push(u8::from_str_radix(digits, 16).unwrap_or(b'?'))?;
                input.extend_from_slice(rest.as_bytes())?;
            }
            None => input.extend_from_slice(part.as_bytes())?,
        }
    }
    input.extend_from_slice(ending.as_bytes())
}

/// Appends the bytes as they stand in a case, line feeds by their number too.
pub(crate) fn push_bytes(out: &mut Output, bytes: &[u8]) {
    for byte in bytes {
        if (b' '..=b'~').contains(byte) && *byte != b'\\' {
            write!(out, "{}", char::from(*byte));
        } else {
            write!(out, "\\x{byte:02x}");
        }
    }
}

/// The day with these columns `yymmdd`.
pub(crate) fn day_in(columns: &str) -> Option<Day> {
    Day::from_yymmdd(columns.as_bytes().as_array()?)
}

/// Whether a line ends with the byte.
pub(crate) fn is_line_feed(byte: &u8) -> bool {
    *byte == b'\n'
}

/// The bytes as text.
pub(crate) fn text_of(bytes: &[u8]) -> &str {
    str::from_utf8(bytes).unwrap_or("no text")
}
