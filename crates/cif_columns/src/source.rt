//! A reader that isn't read again once it has failed, and the errors that a reader reports.
ghost use Rattle.std.specs.Prelude.{◌≡◌, ◌↔◌, ◌<◌, ℕ, Option, None, Some, IfOk, IsTrue, false, length};
ghost use Rattle.std.specs.{Io.KnownBytes.ReadConsumes, Io.ReadsAtMost};

use std::alloc::Allocator;
use std::fs::File;
use std::io;
use std::io::{BufReader, Read, Stdin, StdinLock};
use thiserror::Error;

/// The source's reader has failed, in this read or an earlier one.
#[derive(Clone, Copy, Debug, PartialEq, Eq, Error)]
#[error("the input can't be read")]
pub struct ReadFault;

/// A reader, whether it has failed, and whether the last read that didn't fail reached the end.
#[derive(Drop)]
pub struct Source<R> {
    reader: R,
    failed: bool,
    ended: bool,
}

impl<R: ReadDevice> Source<R> {
    ghost use Rattle.cif_columns.specs.Source.{Reads, reader_of, source_ended, source_failed};

    /// A source that hasn't failed.
    pub fn new(reader: R) -> Self
        ensures reader { reader_of result ≡ reader }
        ensures failed { source_failed result ≡ false }
        ensures ended { source_ended result ≡ false }
    {
        Source {
            reader,
            failed: false,
            ended: false,
        }
    }

    /// The reader as it stands.
    pub fn reader(&self) -> &R
        ensures { result.now ≡ reader_of self.now }
    {
        &self.reader
    }

    /// Whether a read has failed.
    pub fn failed(&self) -> bool
        ensures { result ≡ source_failed self.now }
    {
        self.failed
    }

    /// Reads once. The first error is the last: from then on each read fails, and the reader isn't
    /// touched.
    pub fn read(&mut self, buf: &mut [u8]) -> Result<usize, ReadFault>
        ensures bound { ReadsAtMost result buf.new }
        ensures bytes { ReadConsumes (R.remaining (reader_of self.old))
            (R.remaining (reader_of self.new)) result buf.new }
        ensures device { Reads R.read_errors self.old self.new result }
        ensures ended { IfOk result (λ n.
            IsTrue (source_ended self.new) ↔ ((n ≡ 0) × (0 < length buf.new))) }
    {
        if self.failed {
            return Err(ReadFault);
        }
        match self.reader.read_once(buf) {
            Ok(n) => {
                self.ended = n == 0 && !buf.is_empty();
                Ok(n)
            }
            Err(_) => {
                self.failed = true;
                Err(ReadFault)
            }
        }
    }
}

/// A reader that a `Source` can read.
pub trait ReadDevice: Read {
    ghost use Rattle.cif_columns.specs.Devices.{CountsErrors};

    // How many reads have failed, where that is known.
    ghost read_errors: { Self → Option ℕ } = { λ _. None };

    /// Reads once, as `read` does.
    fn read_once(&mut self, buf: &mut [u8]) -> io::Result<usize>
        ensures bound { ReadsAtMost result buf.new }
        ensures bytes { ReadConsumes (Self.remaining self.old) (Self.remaining self.new)
            result buf.new }
        ensures errors { CountsErrors (read_errors self.old) (read_errors self.new) result };
}

impl ReadDevice for File {
    fn read_once(&mut self, buf: &mut [u8]) -> io::Result<usize> {
        self.read(buf)
    }
}

impl ReadDevice for Stdin {
    fn read_once(&mut self, buf: &mut [u8]) -> io::Result<usize> {
        self.read(buf)
    }
}

/// What `rt.reader()` gives.
impl ReadDevice for StdinLock<'static> {
    fn read_once(&mut self, buf: &mut [u8]) -> io::Result<usize> {
        self.read(buf)
    }
}

/// A slice never fails.
impl ReadDevice for &[u8] {
    ghost read_errors = { λ _. Some 0 };

    fn read_once(&mut self, buf: &mut [u8]) -> io::Result<usize> {
        self.read(buf)
    }
}

/// The errors of the reader behind the buffer aren't kept.
impl<R: ReadDevice, A: Allocator> ReadDevice for BufReader<R, A> {
    fn read_once(&mut self, buf: &mut [u8]) -> io::Result<usize> {
        self.read(buf)
    }
}

impl<R: ReadDevice> ReadDevice for &mut R {
    ghost read_errors = { λ r. R.read_errors r.now };

    fn read_once(&mut self, buf: &mut [u8]) -> io::Result<usize> {
        ReadDevice::read_once(&mut **self, buf)
    }
}
