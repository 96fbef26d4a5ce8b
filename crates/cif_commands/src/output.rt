//! An output of a call, of which advice knows what became of it.
use cif_columns::WriteDevice;
use std::io;
use std::io::Write;

/// A writer, and what became of what was written.
#[derive(Drop)]
pub struct Output<W> {
    writer: W,
    /// How many lines were written, of which no more than two are counted.
    pub lines: u8,
    /// The system's number of the error that a write ended with.
    pub failure: Option<i32>,
}

impl<W: WriteDevice> Output<W> {
    /// An output to which nothing was written.
    pub fn new(writer: W) -> Self {
        Output {
            writer,
            lines: 0,
            failure: None,
        }
    }
}

impl<W: WriteDevice> Write for Output<W> {
    ghost contents = { λ o. W.contents o.writer };

    fn write(&mut self, bytes: &[u8]) -> io::Result<usize> {
        WriteDevice::write_once(self, bytes)
    }

    fn flush(&mut self) -> io::Result<()> {
        WriteDevice::flush_once(self)
    }
}

impl<W: WriteDevice> WriteDevice for Output<W> {
    ghost write_errors = { λ o. W.write_errors o.writer };

    ghost holds_nothing = { λ o. W.holds_nothing o.writer };

    fn write_once(&mut self, bytes: &[u8]) -> io::Result<usize> {
        match self.writer.write_once(bytes) {
            Ok(count) => {
                self.lines = counted(self.lines, &bytes[..count]);
                Ok(count)
            }
            Err(error) => {
                self.failure = error.raw_os_error();
                Err(error)
            }
        }
    }

    fn flush_once(&mut self) -> io::Result<()> {
        self.writer.flush_once()
    }
}

/// How many lines were written, of which no more than two are counted, once these bytes were written too.
fn counted(before: u8, bytes: &[u8]) -> u8 {
    let mut lines = before;
    for byte in bytes {
        if lines == 2 {
            return lines;
        }
        if *byte == b'\n' {
            lines = lines.saturating_add(1);
        }
    }
    lines
}
