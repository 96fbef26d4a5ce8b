//! A line of an input that is shown again.
use cif_columns::{Content, Line, LineReader, Source};
use std::alloc::Global;
use std::io::{BufRead, Read};

/// The bytes of a line that are looked at before it counts as endless.
pub(crate) const MOST_LOOKED_AT: usize = 4096;

/// A line of an input that is read again, without its ending.
#[derive(Drop)]
pub(crate) struct LineAgain {
    /// Its bytes, or the first of them.
    pub(crate) bytes: Vec<u8>,
    /// Whether these are known to be all.
    pub(crate) is_whole: bool,
    /// Whether a line feed ends it.
    pub(crate) is_ended: bool,
}

impl LineAgain {
    /// The next line, if there is one. Fewer bytes than `known` are all of it.
    pub(crate) fn read<B: BufRead>(alloc: Global, file: &mut B, known: usize) -> Option<LineAgain> {
        let mut bytes = Vec::new(alloc);
        let mut line = file.by_ref().take((known as u64).saturating_add(1));
        if line.read_until(b'\n', &mut bytes).ok()? == 0 {
            return None;
        }
        let ended = bytes.as_slice().strip_suffix(b"\n");
        let is_ended = ended.is_some();
        let length = match ended {
            Some(line) => line.strip_suffix(b"\r").unwrap_or(line).len(),
            None => bytes.len(),
        };
        bytes.truncate(length);
        let is_whole = length < known;
        Some(LineAgain {
            bytes,
            is_whole,
            is_ended,
        })
    }

    /// Whether it is a comment: the reader that passes over comments decides it.
    pub(crate) fn is_comment(&self) -> bool {
        let mut source = Source::new(self.bytes.as_slice());
        let content = LineReader::new(1).read_content(&mut source, &mut Line::blank());
        self.is_whole && matches!(content, Ok(Content::Comment))
    }
}
