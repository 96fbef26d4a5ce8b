//! A text of the call's, as it is shown on standard error.
use std::fmt;
use std::fmt::{Display, Formatter};

/// A text with what stands for its characters that hide or turn text, as those of a file's name or an argument may: for a
/// control character `\t` or `\x1b`, and for a line separator or a mark of direction `\u{202e}`.
#[derive(Clone, Copy)]
pub struct Escaped<'a> {
    pub text: &'a str,
    /// Whether the text has lines, whose line feeds stay.
    pub has_lines: bool,
}

impl Display for Escaped<'_> {
    fn fmt<W: fmt::Write>(&self, f: &mut Formatter<W>) -> fmt::Result {
        for c in self.text.chars() {
            match c {
                '\n' if self.has_lines => f.write_str("\n"),
                '\t' | '\n' | '\r' | '\u{2028}'..='\u{202E}' | '\u{2066}'..='\u{2069}' => {
                    write!(f, "{}", c.escape_default())
                }
                _ if c.is_control() => write!(f, "\\x{:02x}", u32::from(c)),
                _ => write!(f, "{c}"),
            }?;
        }
        Ok(())
    }
}
