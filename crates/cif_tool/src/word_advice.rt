//! What is said of a mistaken word.
use crate::message::Message;
use crate::refused_columns::DATE_WORD;
use crate::words_of;
use cif_commands::{Escaped, JobFault, Verbosity, bad_word};
use std::io::IsTerminal;

/// What is said of the words of the process, which ask for nothing: which of them is mistaken, if one is, and what it must be.
pub(crate) fn word_advice(rt: HostRuntime, fault: &JobFault) -> Vec<u8> {
    let alloc = rt.alloc();
    let mut message = Message::new(alloc);
    if let Ok(words) = words_of(rt) {
        add_word_advice(rt, words.as_slice(), fault, &mut message);
    }
    message.into_text()
}

/// Adds what is said of these words.
fn add_word_advice(rt: HostRuntime, words: &[String], fault: &JobFault, message: &mut Message) {
    let alloc = rt.alloc();
    let verbosity = Verbosity::of(rt.stderr().is_terminal(), false);
    match fault {
        JobFault::BadUid => {
            if let Some(word) = bad_word(alloc, words, fault, verbosity) {
                add_word(word, "must be six printable ASCII characters", message);
                if word.len() == 5 {
                    message.line(
                        "a space before or behind the other five belongs to it, in quotes",
                    );
                }
                if word.len() == 4 {
                    message.line("cif table schedules lists UIDs and identities");
                }
            }
        }
        JobFault::BadDate => {
            if let Some(word) = bad_word(alloc, words, fault, verbosity) {
                add_word(word, DATE_WORD, message);
            }
        }
        JobFault::BadPlace => {
            if let Some(word) = bad_word(alloc, words, fault, verbosity) {
                add_word(
                    word,
                    "must be a TIPLOC or a CRS code, such as EUSTON or EUS",
                    message,
                );
            }
        }
        JobFault::Usage { kind: _, text: _ } => match words.get(1).map(String::as_str) {
            Some("-v" | "--verbose") => {
                message.line("options stand behind the command: cif check --verbose FILE");
            }
            _ => {}
        },
        _ => {}
    }
}

/// Adds the mistaken word, and what it must be.
fn add_word(word: &str, must_be: &str, message: &mut Message) {
    let shown = Escaped {
        text: word,
        has_lines: false,
    };
    message.line(format_args!("'{shown}': {must_be}"));
}
