//! The files and the standard streams of the process.
use cif_columns::Sink;
use cif_commands::{Files, Output};
use std::fs::File;
use std::io::{BufWriter, Seek, SeekFrom, StdinLock, Stdout};
use std::mem::ManuallyDrop;
use std::{fs, io};

/// The files and the standard input of the process. Nothing is known of what they give.
#[derive(Clone, Copy)]
pub(crate) struct ProcessFiles {
    pub(crate) rt: HostRuntime,
}

impl Files for ProcessFiles {
    ghost use Rattle.std.specs.Prelude.{None};

    type File = File;

    type Standard = StdinLock<'static>;

    ghost of_file = { λ _ _. None };

    ghost of_standard = { λ _. None };

    fn open(self, name: &str) -> io::Result<File> {
        // A copy never has the descriptor of a standard stream, of which one may be closed.
        fs::open(&self.rt, name)?.try_clone()
    }

    fn standard(self) -> StdinLock<'static> {
        self.rt.reader()
    }

    fn reopens(self, file: &mut File) -> bool {
        file.seek(SeekFrom::Start(0)).is_ok()
    }
}

/// The bytes of output that are gathered before they are written.
const OUTPUT_BUFFER: usize = 65_536;

/// The standard output of the process, behind a buffer.
pub(crate) type ProcessOutput = BufWriter<Output<Stdout>>;

/// The standard output, if there is memory for its buffer. It isn't dropped: a buffer that is dropped writes what it holds, also
/// after a failure.
pub(crate) fn standard_output(rt: HostRuntime) -> io::Result<ManuallyDrop<Sink<ProcessOutput>>> {
    let output = Output::new(rt.stdout());
    let buffered = BufWriter::with_capacity(rt.alloc(), OUTPUT_BUFFER, output)?;
    Ok(ManuallyDrop::new(Sink::new(buffered)))
}
