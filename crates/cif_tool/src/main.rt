//! The program `cif`: extracts of the CIF timetable format, normalised. `cif_commands` does what its words ask for. This crate hands it
//! the words, the files and the standard streams of the process, and has the texts of advice.
#![tactic(auto)]

mod advice;
mod feed_advice;
mod files;
mod input_advice;
mod job_advice;
mod line_advice;
mod line_again;
mod message;
mod read_input;
mod refused_columns;
mod word_advice;

use crate::advice::ProcessAdvice;
use crate::files::{ProcessFiles, standard_output};
use cif_columns::Sink;
use cif_commands::{Program, USAGE_ERROR, end};
use cif_extract::Fault;
use std::io::{ErrorKind, IsTerminal, Stderr};
use std::process::ExitCode;
use std::{env, io};

const NOT_TEXT: &str =
    "error: an argument isn't valid UTF-8\n\nFor more information, try '--help'.\n";

/// Does what the words of the process ask for, and exits with the status of that.
fn main(rt: HostRuntime) -> ExitCode {
    let mut errors = Sink::new(rt.stderr());
    ExitCode::from(match words_of(rt) {
        Ok(words) => run(rt, words, &mut errors),
        Err(error) if error.kind() == ErrorKind::OutOfMemory => {
            end(&Err(Fault::Memory), &mut errors)
        }
        Err(_) => {
            let _ = errors.write_all(NOT_TEXT.as_bytes());
            USAGE_ERROR
        }
    })
}

/// Does what these words ask for, with the files and the standard output of the process.
fn run(rt: HostRuntime, words: Vec<String>, errors: &mut Sink<Stderr>) -> u8 {
    let program = Program {
        alloc: rt.alloc(),
        files: ProcessFiles { rt },
        is_terminal: rt.stderr().is_terminal(),
        advice: ProcessAdvice { rt },
    };
    match standard_output(rt) {
        Ok(mut output) => program.run(words, &mut output, errors),
        Err(_) => end(&Err(Fault::Memory), errors),
    }
}

/// The words of the process, the program's name first. One that is no text fails them all.
pub(crate) fn words_of(rt: HostRuntime) -> io::Result<Vec<String>> {
    Ok(env::args(&rt)?.collect(rt.alloc())?)
}
