//! What is kept of an input that can't be read again.
use std::alloc::Global;
use std::io::BufRead;

/// How many bytes are kept at least: more than is read ahead of a line, and of the line itself.
const LEAST_KEPT: usize = 32_768;

/// With how many bytes the first of them are forgotten.
const MOST_KEPT: usize = 65_536;

/// What was read last of an input, from the beginning of a line on.
#[derive(Drop)]
pub struct LastRead {
    bytes: Vec<u8>,
    /// How many lines came before them; not known once memory ran out.
    lines_before: Option<u64>,
}

impl LastRead {
    /// Nothing yet.
    pub(crate) fn new(alloc: Global) -> Self {
        LastRead {
            bytes: Vec::new(alloc),
            lines_before: Some(0),
        }
    }

    /// Keeps the bytes that were read now, and forgets the first lines if it has too many.
    pub(crate) fn add(&mut self, read: &[u8]) {
        let length = self.bytes.len();
        if length >= MOST_KEPT {
            self.forget(length.saturating_sub(LEAST_KEPT));
        }
        if self.bytes.extend_from_slice(read).is_err() {
            self.lines_before = None;
        }
    }

    /// Forgets the first `count` bytes, and those up to the next line feed.
    fn forget(&mut self, count: usize) {
        let (gone, left) = self.bytes.as_slice().split_at(count.min(self.bytes.len()));
        let Some(at) = left.iter().position(|byte| *byte == b'\n') else {
            return;
        };
        let feeds = gone.iter().filter(|byte| **byte == b'\n').count() as u64;
        self.lines_before = match self.lines_before {
            Some(lines) => lines.checked_add(feeds.saturating_add(1)),
            None => None,
        };
        let first = gone
            .len()
            .saturating_add(at)
            .saturating_add(1)
            .min(self.bytes.len());
        let length = self.bytes.len() - first;
        self.bytes.copy_within(first.., 0);
        self.bytes.truncate(length);
    }

    /// The bytes from the line of this number on, counted from 1, if it is still known.
    pub fn from_line(&self, number: u64) -> Option<&[u8]> {
        let before = number.checked_sub(self.lines_before?.checked_add(1)?)?;
        let mut rest = self.bytes.as_slice();
        for _ in 0..before {
            rest.skip_until(b'\n').ok()?;
        }
        Some(rest)
    }
}
