//! The text of an answer.
use std::alloc::{AllocError, Global};
use std::fmt;

/// The text of an answer so far, or that memory ran out.
#[derive(Drop)]
pub(crate) struct Output {
    text: String,
    outcome: Result<(), AllocError>,
}

impl Output {
    pub(crate) fn new(alloc: Global) -> Output {
        Output {
            text: String::new(alloc),
            outcome: Ok(()),
        }
    }

    /// What `write!` and `writeln!` call.
    pub(crate) fn write_fmt<D: fmt::Display + Drop>(&mut self, value: D) {
        if self.outcome.is_ok() {
            self.outcome = self.text.write_fmt(value);
        }
    }

    pub(crate) fn push_str(&mut self, text: &str) {
        if self.outcome.is_ok() {
            self.outcome = self.text.push_str(text);
        }
    }

    /// Notes that memory ran out.
    pub(crate) fn fail(&mut self) {
        self.outcome = Err(AllocError);
    }

    /// The text of the answer.
    pub(crate) fn finish(self) -> Result<String, AllocError> {
        let Output { text, outcome } = self;
        outcome?;
        Ok(text)
    }
}
