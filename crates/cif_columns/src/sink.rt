//! A writer that isn't written to again once it has failed, and the errors that a writer reports.
ghost use Rattle.std.specs.Prelude.{◌≡◌, ◌++◌, ◌∷◌, [], ◌<◌, IfOk, ℕ, Option, None, IsErr, false, length};
ghost use Rattle.cif_columns.specs.Contents.{lines_text};
ghost use Rattle.std.specs.{Io.KnownBytes.Keeps, Io.KnownBytes.WriteAppends, Io.WritesAtMost};

use crate::line::Line;
use crate::lines::LineSlice;
use std::alloc::Allocator;
use std::fs::File;
use std::io;
use std::io::{BufWriter, Print, Printer, Stderr, Stdout, Write};
use thiserror::Error;

/// The sink's writer has failed, or has taken none of some bytes, in this call or an earlier one.
#[derive(Clone, Copy, Debug, PartialEq, Eq, Error)]
#[error("the output can't be written")]
pub struct WriteFault;

/// A writer, and whether it has failed.
#[derive(Drop)]
pub struct Sink<W> {
    writer: W,
    failed: bool,
}

impl<W: WriteDevice> Sink<W> {
    ghost use Rattle.cif_columns.specs.Sink.{Writes, sink_failed, writer_of};

    /// A sink that hasn't failed.
    pub fn new(writer: W) -> Self
        ensures writer { writer_of result ≡ writer }
        ensures failed { sink_failed result ≡ false }
    {
        Sink {
            writer,
            failed: false,
        }
    }

    /// The writer as it stands.
    pub fn writer(&self) -> &W
        ensures { result.now ≡ writer_of self.now }
    {
        &self.writer
    }

    /// Whether a write or a flush has failed.
    pub fn failed(&self) -> bool
        ensures { result ≡ sink_failed self.now }
    {
        self.failed
    }

    /// Writes all the bytes, or fails after a prefix of them. The first failure is the last: from
    /// then on each call fails, and the writer isn't touched.
    pub fn write_all(&mut self, bytes: &[u8]) -> Result<(), WriteFault>
        ensures { Writes W.contents W.write_errors bytes.now self.old self.new result }
    {
        if self.failed {
            return Err(WriteFault);
        }
        let mut rest = bytes;
        while !rest.is_empty() {
            match self.writer.write_once(rest) {
                Ok(n) if n > 0 => rest = &rest[n..],
                _ => {
                    self.failed = true;
                    return Err(WriteFault);
                }
            }
        }
        Ok(())
    }

    /// Writes the line and a line feed, as `write_all` does.
    pub fn write_line(&mut self, line: &Line) -> Result<(), WriteFault>
        ensures { Writes W.contents W.write_errors (line.now ++ 10 ∷ []) self.old self.new result }
    {
        self.write_all(&line.text())
    }

    /// Writes the lines, each with a line feed, as `write_all` does.
    pub fn write_lines(&mut self, lines: &LineSlice<'_>) -> Result<(), WriteFault>
        ensures { Writes W.contents W.write_errors (lines_text lines.now) self.old self.new result }
    {
        if self.failed {
            return Err(WriteFault);
        }
        let mut rest = lines.copy();
        while !rest.is_empty() {
            self.write_line(&rest.first())?;
            rest = rest.rest();
        }
        Ok(())
    }

    /// Hands on what the writer holds back, and writes no bytes of its own. A failure is the last,
    /// as in `write_all`.
    pub fn flush(&mut self) -> Result<(), WriteFault>
        ensures writes { Writes W.contents W.write_errors [] self.old self.new result }
        ensures handed_on { IfOk result (λ _. W.holds_nothing (writer_of self.new)) }
    {
        if self.failed {
            return Err(WriteFault);
        }
        match self.writer.flush_once() {
            Ok(()) => Ok(()),
            Err(_) => {
                self.failed = true;
                Err(WriteFault)
            }
        }
    }
}

/// A writer that a `Sink` can write to.
pub trait WriteDevice: Write {
    ghost use Rattle.cif_columns.specs.Devices.{OneError, CountsErrors};

    // How many writes and flushes have failed, where that is known. A write that takes none of some
    // bytes has failed too.
    ghost write_errors: { Self → Option ℕ } = { λ _. None };

    // It holds nothing back: what it took has gone to what lies below it. A writer without a buffer never does.
    ghost holds_nothing: { Self → Type 0 } = { λ _. Unit {0} };

    /// Writes once, as `write` does.
    fn write_once(&mut self, bytes: &[u8]) -> io::Result<usize>
        ensures bound { WritesAtMost result bytes.now }
        ensures bytes { WriteAppends (Self.contents self.old) (Self.contents self.new)
            result bytes.now }
        ensures fine { IfOk result (λ n. (n ≡ 0 → length bytes.now ≡ 0)
            → write_errors self.new ≡ write_errors self.old) }
        ensures stuck { IfOk result (λ n. n ≡ 0 → 0 < length bytes.now
            → OneError (write_errors self.old) (write_errors self.new)) }
        ensures errors { IsErr result → OneError (write_errors self.old) (write_errors self.new) };

    /// Flushes once, as `flush` does.
    fn flush_once(&mut self) -> io::Result<()>
        ensures bytes { Keeps (Self.contents self.old) (Self.contents self.new) }
        ensures errors { CountsErrors (write_errors self.old) (write_errors self.new) result }
        ensures handed_on { IfOk result (λ _. holds_nothing self.new) };
}

impl WriteDevice for File {
    fn write_once(&mut self, bytes: &[u8]) -> io::Result<usize> {
        self.write(bytes)
    }

    fn flush_once(&mut self) -> io::Result<()> {
        self.flush()
    }
}

impl WriteDevice for Stdout {
    fn write_once(&mut self, bytes: &[u8]) -> io::Result<usize> {
        self.write(bytes)
    }

    fn flush_once(&mut self) -> io::Result<()> {
        self.flush()
    }
}

impl WriteDevice for Stderr {
    fn write_once(&mut self, bytes: &[u8]) -> io::Result<usize> {
        self.write(bytes)
    }

    fn flush_once(&mut self) -> io::Result<()> {
        self.flush()
    }
}

/// What `io::writer(rt)` gives.
impl<P: Print> WriteDevice for Printer<'_, P> {
    fn write_once(&mut self, bytes: &[u8]) -> io::Result<usize> {
        self.write(bytes)
    }

    fn flush_once(&mut self) -> io::Result<()> {
        self.flush()
    }
}

/// A vector fails where it gets no memory.
impl<A: Allocator> WriteDevice for Vec<u8, A> {
    fn write_once(&mut self, bytes: &[u8]) -> io::Result<usize> {
        self.write(bytes)
    }

    fn flush_once(&mut self) -> io::Result<()> {
        self.flush()
    }
}

/// The errors of the writer behind the buffer aren't kept. It holds back what is in the buffer.
impl<W: WriteDevice + Drop, A: Allocator> WriteDevice for BufWriter<W, A> {
    ghost use Rattle.std.specs.{Io.Buffered.writer_buffer, Prelude.[], Prelude.◌≡◌};

    ghost holds_nothing = { λ w. writer_buffer w ≡ [] };

    fn write_once(&mut self, bytes: &[u8]) -> io::Result<usize> {
        self.write(bytes)
    }

    fn flush_once(&mut self) -> io::Result<()> {
        self.flush()
    }
}

impl<W: WriteDevice> WriteDevice for &mut W {
    ghost write_errors = { λ w. W.write_errors w.now };

    ghost holds_nothing = { λ w. W.holds_nothing w.now };

    fn write_once(&mut self, bytes: &[u8]) -> io::Result<usize> {
        WriteDevice::write_once(&mut **self, bytes)
    }

    fn flush_once(&mut self) -> io::Result<()> {
        WriteDevice::flush_once(&mut **self)
    }
}
