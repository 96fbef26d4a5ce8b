//! A reader and a writer for tests, which fail where a test asks for it.
ghost use Rattle.std.specs.Prelude.{◌≡◌, ◌+◌, ◌-◌, ◌^◌, ◌<◌, ◌≤◌, [], Some, IsTrue, IfOk, IsErr, min, length, take};
ghost use Rattle.std.specs.{Io.KnownBytes.Keeps, Io.KnownBytes.ReadConsumes, Io.KnownBytes.WriteAppends, Io.ReadsAtMost, Io.WritesAtMost};
ghost use Rattle.cif_columns.specs.{Devices.CountsErrors, Devices.OneError, Devices.known_count, End.bytes_left, End.ends_below};
ghost use Rattle.cif_columns.specs.declared.trials.TheConstants.{ROOM};

use crate::sink::WriteDevice;
use crate::source::ReadDevice;
use std::io;
use std::io::{Read, Write};

/// What a `TrialReader` does after its bytes.
#[derive(Clone, Copy)]
pub enum End {
    /// It has no more bytes.
    Stop,
    /// Each further read fails.
    Fail,
    /// It goes on with its bytes from this place, for ever.
    Again(usize),
}

/// Gives its bytes in pieces of at most `step`, and then does what `end` says.
#[derive(Drop)]
pub struct TrialReader<'a> {
    bytes: &'a [u8],
    rest: &'a [u8],
    step: usize,
    end: End,
    calls: u64,
    failures: u64,
    ghost moves: { 0 < step },
    ghost goes_on: { IsTrue (ends_below end (length bytes.now)) },
}

impl<'a> TrialReader<'a> {
    ghost use Rattle.cif_columns.specs.TrialReader.{read_calls};

    /// A reader that hasn't been read.
    pub fn new(bytes: &'a [u8], step: usize, end: End) -> Self
        requires moves { 0 < step }
        requires goes_on { IsTrue (ends_below end (length bytes.now)) }
        ensures bytes { ⟦<TrialReader<'a> as Read>⟧.remaining result ≡ bytes_left end bytes.now }
        ensures errors { ⟦<TrialReader<'a> as ReadDevice>⟧.read_errors result ≡ Some 0 }
        ensures calls { read_calls result ≡ 0 }
    {
        TrialReader {
            bytes,
            rest: bytes,
            step,
            end,
            calls: 0,
            failures: 0,
        }
    }

    /// How often it was read, at most `u64::MAX`.
    pub fn calls(&self) -> u64
        ensures { result ≡ read_calls self.now }
    {
        self.calls
    }
}

impl<'a> Read for TrialReader<'a> {
    ghost use Rattle.cif_columns.specs.TrialReader.{read_calls};

    ghost remaining = { λ r. bytes_left r.end r.rest.now };

    fn read(&mut self, buf: &mut [u8]) -> io::Result<usize>
        ensures bound { ReadsAtMost result buf.new }
        ensures bytes { ReadConsumes (⟦<TrialReader<'a> as Read>⟧.remaining self.old)
            (⟦<TrialReader<'a> as Read>⟧.remaining self.new) result buf.new }
        ensures errors { CountsErrors (known_count self.old.failures) (known_count self.new.failures)
            result }
        ensures calls { read_calls self.new ≡ min (read_calls self.old + 1) (2 ^ 64 - 1) }
    {
        self.calls = self.calls.saturating_add(1);
        // `buf` has room, and no byte is left for it.
        if self.rest.len() < buf.len().min(1) {
            match self.end {
                End::Stop => {}
                End::Fail => {
                    self.failures = self.failures.saturating_add(1);
                    return Err(io::Error::from(io::ErrorKind::Other));
                }
                End::Again(place) => self.rest = &self.bytes[place..],
            }
        }
        let most = buf.len().min(self.step);
        self.rest.read(&mut buf[..most])
    }
}

impl<'a> ReadDevice for TrialReader<'a> {
    ghost use Rattle.cif_columns.specs.TrialReader.{read_calls};

    ghost read_errors = { λ r. known_count r.failures };

    fn read_once(&mut self, buf: &mut [u8]) -> io::Result<usize>
        ensures bound { ReadsAtMost result buf.new }
        ensures bytes { ReadConsumes (⟦<TrialReader<'a> as Read>⟧.remaining self.old)
            (⟦<TrialReader<'a> as Read>⟧.remaining self.new) result buf.new }
        ensures errors { CountsErrors (⟦<TrialReader<'a> as ReadDevice>⟧.read_errors self.old)
            (⟦<TrialReader<'a> as ReadDevice>⟧.read_errors self.new) result }
        ensures calls { read_calls self.new ≡ min (read_calls self.old + 1) (2 ^ 64 - 1) }
    {
        self.read(buf)
    }
}

/// The most bytes that a `TrialWriter` can keep.
const ROOM: usize = 2048;

/// Keeps the first `takes` bytes, and then takes none: it answers 0, or fails.
#[derive(Drop)]
pub struct TrialWriter {
    kept: [u8; ROOM],
    len: usize,
    takes: usize,
    zero: bool,
    calls: u64,
    failures: u64,
    ghost within: { len ≤ takes },
    ghost fits: { takes ≤ ROOM },
}

impl TrialWriter {
    ghost use Rattle.cif_columns.specs.TrialWriter.{write_calls};

    /// A writer that hasn't been written to. After its bytes it answers 0 if `zero`, and else
    /// fails.
    pub fn new(takes: usize, zero: bool) -> Self
        requires { takes ≤ 2048 }
        ensures bytes { ⟦<TrialWriter as Write>⟧.contents result ≡ Some [] }
        ensures errors { ⟦<TrialWriter as WriteDevice>⟧.write_errors result ≡ Some 0 }
        ensures calls { write_calls result ≡ 0 }
    {
        TrialWriter {
            kept: [0; ROOM],
            len: 0,
            takes,
            zero,
            calls: 0,
            failures: 0,
        }
    }

    /// The bytes that it has taken.
    pub fn bytes(&self) -> &[u8]
        ensures { ⟦<TrialWriter as Write>⟧.contents self.now ≡ Some result.now }
    {
        &self.kept[..self.len]
    }

    /// How often it was written to or flushed, at most `u64::MAX`.
    pub fn calls(&self) -> u64
        ensures { result ≡ write_calls self.now }
    {
        self.calls
    }
}

impl Write for TrialWriter {
    ghost use Rattle.cif_columns.specs.TrialWriter.{write_calls};

    ghost contents = { λ w. Some (take w.len w.kept) };

    fn write(&mut self, buf: &[u8]) -> io::Result<usize>
        ensures bound { WritesAtMost result buf.now }
        ensures bytes { WriteAppends (⟦<TrialWriter as Write>⟧.contents self.old)
            (⟦<TrialWriter as Write>⟧.contents self.new) result buf.now }
        ensures fine { IfOk result (λ n. (n ≡ 0 → length buf.now ≡ 0)
            → self.new.failures ≡ self.old.failures) }
        ensures stuck { IfOk result (λ n. n ≡ 0 → 0 < length buf.now
            → OneError (known_count self.old.failures) (known_count self.new.failures)) }
        ensures errors { IsErr result
            → OneError (known_count self.old.failures) (known_count self.new.failures) }
        ensures calls { write_calls self.new ≡ min (write_calls self.old + 1) (2 ^ 64 - 1) }
    {
        self.calls = self.calls.saturating_add(1);
        let n = buf.len().min(self.takes - self.len);
        // A write of some bytes takes at least one of them, or fails.
        if n >= buf.len().min(1) {
            self.kept[self.len..self.len + n].copy_from_slice(&buf[..n]);
            self.len += n;
            return Ok(n);
        }
        self.failures = self.failures.saturating_add(1);
        if self.zero {
            Ok(0)
        } else {
            Err(io::Error::from(io::ErrorKind::Other))
        }
    }

    fn flush(&mut self) -> io::Result<()>
        ensures bytes { Keeps (⟦<TrialWriter as Write>⟧.contents self.old)
            (⟦<TrialWriter as Write>⟧.contents self.new) }
        ensures errors { CountsErrors (known_count self.old.failures) (known_count self.new.failures)
            result }
        ensures calls { write_calls self.new ≡ min (write_calls self.old + 1) (2 ^ 64 - 1) }
    {
        self.calls = self.calls.saturating_add(1);
        Ok(())
    }
}

impl WriteDevice for TrialWriter {
    ghost write_errors = { λ w. known_count w.failures };

    fn write_once(&mut self, bytes: &[u8]) -> io::Result<usize> {
        self.write(bytes)
    }

    fn flush_once(&mut self) -> io::Result<()> {
        self.flush()
    }
}
