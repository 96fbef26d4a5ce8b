//! An input of a call, which isn't opened before it is read.
ghost use Rattle.std.specs.{Io.KnownBytes.ReadConsumes, Io.ReadsAtMost};
ghost use Rattle.cif_commands.specs.InputLeft.{input_remaining};

use crate::files::Files;
use crate::job::InputNames;
use crate::last_read::LastRead;
use crate::verbosity::Verbosity;
use crate::words::is_standard;
use arrayvec::ArrayVec;
use cif_columns::{LINE_WIDTH, ReadDevice, Source};
use std::alloc::{AllocError, Global};
use std::io;
use std::io::Read;

/// The bytes of a line with its ending.
pub const START: usize = LINE_WIDTH + 2;

/// A file, or the standard input. It isn't touched before it is read first, and a file that can't be opened is one that
/// can't be read.
#[derive(Drop)]
pub struct Input<'a, F: Files> {
    files: F,
    /// What the user knows it by: of several inputs which one it is, such as `LEFT`, or else nothing.
    pub side: &'static str,
    name: &'a str,
    device: Device<F::Standard, F::File>,
    /// What was read first, up to the length of a line with its ending.
    pub start: ArrayVec<u8, START>,
    /// What was read last, of the standard input, if a line of it may be shown.
    pub last: Option<LastRead>,
    /// The system's number of the error that a read ended with.
    pub failure: Option<i32>,
}

/// Where an input stands.
#[derive(Drop)]
pub enum Device<S, D> {
    /// The standard input, before it is read first.
    Unlocked,
    Standard(S),
    /// A file, before it is read first.
    Closed,
    Opened(D),
    /// A file that was read to its end, and can be opened again: it is closed, as there may be many.
    Ended,
}

impl<'a, F: Files> Input<'a, F> {
    /// The file's name, or `standard input`.
    pub fn name(&self) -> &'a str {
        match self.device {
            Device::Unlocked | Device::Standard(_) => "standard input",
            Device::Closed | Device::Opened(_) | Device::Ended => self.name,
        }
    }

    /// Where it stands.
    pub fn device(&self) -> &Device<F::Standard, F::File> {
        &self.device
    }

    /// Whether it was read, or it was tried.
    pub fn is_touched(&self) -> bool {
        match self.device {
            Device::Standard(_) | Device::Opened(_) | Device::Ended => true,
            Device::Unlocked | Device::Closed => self.failure.is_some(),
        }
    }

    /// Reads as `Read` does, and opens the input if it hasn't been read.
    fn read_device(&mut self, buf: &mut [u8]) -> io::Result<usize>
        ensures bound { ReadsAtMost result buf.new }
        ensures bytes { ReadConsumes
            (input_remaining F.Standard.remaining F.File.remaining F.of_standard F.of_file self.old)
            (input_remaining F.Standard.remaining F.File.remaining F.of_standard F.of_file self.new)
            result buf.new }
    {
        match &mut self.device {
            Device::Standard(reader) => reader.read(buf),
            Device::Opened(file) => {
                let count = file.read(buf);
                if matches!(count, Ok(0)) && !buf.is_empty() && self.files.reopens(file) {
                    self.device = Device::Ended;
                }
                count
            }
            Device::Ended => Ok(0),
            Device::Unlocked => {
                let mut reader = self.files.standard();
                let count = reader.read(buf);
                self.device = Device::Standard(reader);
                count
            }
            Device::Closed => {
                let mut file = self.files.open(self.name)?;
                let count = file.read(buf);
                self.device = Device::Opened(file);
                count
            }
        }
    }
}

impl<F: Files> Read for Input<'_, F> {
    ghost use Rattle.cif_commands.specs.InputLeft.{input_remaining};

    ghost remaining = { input_remaining F.Standard.remaining F.File.remaining F.of_standard F.of_file };

    fn read(&mut self, buf: &mut [u8]) -> io::Result<usize> {
        match self.read_device(buf) {
            Ok(count) => {
                let kept = count.min(self.start.remaining_capacity());
                let _ = self.start.try_extend_from_slice(&buf[..kept]);
                if let Some(last) = &mut self.last {
                    last.add(&buf[..count]);
                }
                Ok(count)
            }
            Err(error) => {
                self.failure = error.raw_os_error();
                Err(error)
            }
        }
    }
}

impl<F: Files> ReadDevice for Input<'_, F> {
    fn read_once(&mut self, buf: &mut [u8]) -> io::Result<usize> {
        self.read(buf)
    }
}

/// How the inputs of a call are opened.
#[derive(Clone, Copy)]
pub(crate) struct Opening<F> {
    pub(crate) alloc: Global,
    pub(crate) files: F,
    /// If advice is given, a line of the standard input may be shown again: what is read last of it is kept then.
    pub(crate) verbosity: Verbosity,
}

impl<F: Files> Opening<F> {
    ghost use Rattle.std.specs.Box.{box_value};
    ghost use Rattle.std.specs.Prelude.{IfOk, List, ℕ, map, string_bytes};
    ghost use Rattle.cif_commands.specs.Job.{names_of};
    ghost use Rattle.cif_commands.specs.Input.{AreFeedInputs, AreJobInputs, AreOpened, AreUpdateInputs, IsOpened, given_by};

    /// The input of this name, which is the standard input if it is `-`; `side` says which input it is.
    // Inlined, it would keep copies of an input on the stack of its caller, and each is some kilobytes large.
    #[inline(never)]
    pub(crate) fn source<'a>(&self, side: &'static str, name: &'a str) -> Source<Input<'a, F>>
        ensures { IsOpened ⟦<Input<'a, F> as Read>⟧.remaining
            (given_by (F.of_standard self.now.files) (F.of_file self.now.files)) name.now result }
    {
        let is_standard = is_standard(name);
        Source::new(Input {
            files: self.files,
            side,
            name,
            // Made in place: it is some kilobytes large, and lives in the frame of its caller.
            device: if is_standard {
                Device::Unlocked
            } else {
                Device::Closed
            },
            start: ArrayVec::new(),
            last: (is_standard && self.verbosity.helps()).then(|| LastRead::new(self.alloc)),
            failure: None,
        })
    }

    /// The same on the heap, since a small stack has no room for two. Returns an error if it can't be allocated.
    // Inlined, it would keep a copy on the stack of its caller.
    #[inline(never)]
    pub(crate) fn boxed<'a>(
        &self,
        side: &'static str,
        name: &'a str,
    ) -> Result<Box<Source<Input<'a, F>>>, AllocError>
        ensures { IfOk result (λ source. IsOpened ⟦<Input<'a, F> as Read>⟧.remaining
            (given_by (F.of_standard self.now.files) (F.of_file self.now.files)) name.now (box_value source)) }
    {
        Ok(Box::new(self.alloc, self.source(side, name))?)
    }

    /// The input of a job of extracts, or the left one and the right one.
    #[inline(never)]
    pub(crate) fn job_inputs<'a>(
        &self,
        inputs: &'a InputNames,
    ) -> Result<JobInputs<'a, F>, AllocError>
        ensures { IfOk result (λ opened. AreJobInputs ⟦<Input<'a, F> as Read>⟧.remaining
            (given_by (F.of_standard self.now.files) (F.of_file self.now.files)) (names_of inputs.now)
            (box_value opened.left) (box_value opened.right)) }
    {
        let first = inputs.first.as_str();
        match inputs.rest.first() {
            None => Ok(JobInputs {
                left: self.boxed("", first)?,
                right: self.boxed("RIGHT", "-")?,
            }),
            Some(name) => Ok(JobInputs {
                left: self.boxed("LEFT", first)?,
                right: self.boxed("RIGHT", name.as_str())?,
            }),
        }
    }

    /// The holidays, the input before the extract, if there is one, and the extract.
    #[inline(never)]
    pub(crate) fn feed_inputs<'a>(
        &self,
        inputs: &'a InputNames,
    ) -> Result<FeedInputs<'a, F>, AllocError>
        ensures { IfOk result (λ opened. AreFeedInputs ⟦<Input<'a, F> as Read>⟧.remaining
            (given_by (F.of_standard self.now.files) (F.of_file self.now.files)) (names_of inputs.now)
            opened.holidays (box_value opened.extract)) }
    {
        let first = inputs.first.as_str();
        match inputs.rest.first() {
            None => Ok(FeedInputs {
                holidays: None,
                extract: self.boxed("", first)?,
            }),
            Some(name) => Ok(FeedInputs {
                holidays: Some(self.source("holidays", first)),
                extract: self.boxed("", name.as_str())?,
            }),
        }
    }

    /// The full extract, the first input, and the updates, the others.
    #[inline(never)]
    pub(crate) fn update_inputs<'a>(
        &self,
        inputs: &'a InputNames,
    ) -> Result<UpdateInputs<'a, F>, AllocError>
        ensures { IfOk result (λ opened. AreUpdateInputs ⟦<Input<'a, F> as Read>⟧.remaining
            (given_by (F.of_standard self.now.files) (F.of_file self.now.files)) (names_of inputs.now)
            (box_value opened.full) opened.updates.items) }
    {
        Ok(UpdateInputs {
            full: self.boxed("FULL", inputs.first.as_str())?,
            updates: self.updates(inputs.rest.as_slice())?,
        })
    }

    /// The updates of these names.
    // Inlined, it would keep copies of inputs on the stack of its caller.
    #[inline(never)]
    pub(crate) fn updates<'a>(
        &self,
        names: &'a [String],
    ) -> Result<Vec<Source<Input<'a, F>>>, AllocError>
        ensures { IfOk result (λ updates. AreOpened ⟦<Input<'a, F> as Read>⟧.remaining
            (given_by (F.of_standard self.now.files) (F.of_file self.now.files)) (map string_bytes names.now) updates.items) }
    {
        let mut updates = Vec::new(self.alloc);
        for name in names {
            updates.push(self.source("UPDATE", name.as_str()))?;
        }
        Ok(updates)
    }
}

/// The inputs of a job of extracts. Of a job with one input `right` is never touched.
#[derive(Drop)]
pub(crate) struct JobInputs<'a, F: Files> {
    pub(crate) left: Box<Source<Input<'a, F>>>,
    pub(crate) right: Box<Source<Input<'a, F>>>,
}

/// The inputs of `prepare`.
#[derive(Drop)]
pub(crate) struct FeedInputs<'a, F: Files> {
    pub(crate) holidays: Option<Source<Input<'a, F>>>,
    pub(crate) extract: Box<Source<Input<'a, F>>>,
}

/// The inputs of `update`.
#[derive(Drop)]
pub(crate) struct UpdateInputs<'a, F: Files> {
    pub(crate) full: Box<Source<Input<'a, F>>>,
    pub(crate) updates: Vec<Source<Input<'a, F>>>,
}
