//! Why a job on an extract isn't done.
ghost use Rattle.std.specs.Prelude.{◌≡◌, ◌+◌, ◌≤◌, ◌++◌, Some, length};
ghost use Rattle.arrayvec.specs.ArrayString.{array_string_len};
ghost use Rattle.cif_columns.specs.Line.{ArePrintable};
ghost use Rattle.cif_extract.specs.Clash.{bracketed, clash_text, key_text};

use arrayvec::ArrayString;
use cif_columns::{Day, LineFault, Refusal, Uid, WriteFault, as_text};
use cif_records::AssocKey;
use itoa::Buffer;
use std::alloc::AllocError;
use std::error::Error;
use std::fmt;

/// Why a job on an extract isn't done.
#[derive(Drop, PartialEq, Eq)]
pub enum Fault {
    /// The first refused line, counted from 1, and its reason.
    Refused { line: u64, why: Refusal },
    /// Two winning records differ on a date of the extract's window.
    Ambiguous(Clash),
    /// Two extracts speak of different windows.
    WindowsDiffer,
    /// A date that was asked for isn't in the window.
    OutsideWindow,
    /// The first date that was asked for is after the last.
    WindowReversed,
    /// The source failed, and what it gave before decides no line that is refused.
    Read,
    /// The sink failed.
    Write,
    /// Memory ran out.
    Memory,
}

/// The bytes of the longest text: that of associations that clash.
const LONGEST_FAULT: usize = 64;

impl Fault {
    ghost use Rattle.cif_extract.specs.Fault.{fault_text, name_of, number_of};

    /// The number of the fault: 1 to 14 for a refusal, and then 15 Ambiguous, 16 WindowsDiffer, 17
    /// OutsideWindow, 18 Read, 19 Write, 20 Memory, 21 WindowReversed.
    pub fn number(&self) -> u8
        ensures { result ≡ number_of self.now }
    {
        match self {
            Fault::Refused { line: _, why } => why.number(),
            Fault::Ambiguous(_) => 15,
            Fault::WindowsDiffer => 16,
            Fault::OutsideWindow => 17,
            Fault::Read => 18,
            Fault::Write => 19,
            Fault::Memory => 20,
            Fault::WindowReversed => 21,
        }
    }

    /// The name of the fault: that of the refusal, or Ambiguous, WindowsDiffer, OutsideWindow,
    /// WindowReversed, ReadFault, WriteFault or Memory.
    pub fn name(&self) -> &'static str
        ensures { result.now ≡ name_of self.now }
    {
        match self {
            Fault::Refused { line: _, why } => why.name(),
            Fault::Ambiguous(_) => "Ambiguous",
            Fault::WindowsDiffer => "WindowsDiffer",
            Fault::OutsideWindow => "OutsideWindow",
            Fault::WindowReversed => "WindowReversed",
            Fault::Read => "ReadFault",
            Fault::Write => "WriteFault",
            Fault::Memory => "Memory",
        }
    }

    /// What the fault is: its name, behind the line that is refused, as `line 2: BadDays`, or before
    /// what clashes. It takes no memory.
    #[tactic(auto, unfolding(crate::specs::Fault::fault_text))]
    pub fn text(&self) -> ArrayString<LONGEST_FAULT>
        ensures { result.bytes ≡ fault_text self.now }
    {
        let mut text = ArrayString::new();
        match self {
            Fault::Refused { line, why } => {
                text.push_str("line ");
                text.push_str(Buffer::new().format(*line));
                text.push_str(": ");
                text.push_str(why.name());
            }
            Fault::Ambiguous(clash) => {
                text.push_str("Ambiguous: ");
                text.push_str(clash.text().as_str());
            }
            _ => text.push_str(self.name()),
        }
        text
    }
}

/// Its text.
impl fmt::Display for Fault {
    ghost use Rattle.cif_extract.specs.Fault.{fault_text};

    ghost output = { λ fault. Some (fault_text fault) };

    fn fmt<W: fmt::Write>(&self, f: &mut fmt::Formatter<W>) -> fmt::Result {
        f.write_str(self.text().as_str())
    }
}

/// Its text.
impl fmt::Debug for Fault {
    fn fmt<W: fmt::Write>(&self, f: &mut fmt::Formatter<W>) -> fmt::Result {
        fmt::Display::fmt(self, f)
    }
}

impl Error for Fault {}

impl From<LineFault> for Fault {
    ghost use Rattle.cif_extract.specs.Fault.{of_line_fault};

    ghost from_gives = { λ line_fault fault. fault ≡ of_line_fault line_fault };

    fn from(fault: LineFault) -> Fault {
        match fault {
            LineFault::Refused { line, why } => Fault::Refused { line, why },
            LineFault::Read => Fault::Read,
        }
    }
}

impl From<WriteFault> for Fault {
    ghost use Rattle.cif_extract.specs.declared.fault.Fault.TheVariants.{Write};

    ghost from_gives = { λ _ fault. fault ≡ Write };

    fn from(_fault: WriteFault) -> Fault {
        Fault::Write
    }
}

impl From<AllocError> for Fault {
    ghost use Rattle.cif_extract.specs.declared.fault.Fault.TheVariants.{Memory};

    ghost from_gives = { λ _ fault. fault ≡ Memory };

    fn from(_error: AllocError) -> Fault {
        Fault::Memory
    }
}

/// A key and the first of its dates on which records of the winning letter have different bodies
/// (this profile).
#[derive(Drop, PartialEq, Eq)]
pub enum Clash {
    /// Two associations of one key.
    Association(AssocKey, Day),
    /// Two schedules of one train.
    Train(Uid, Day),
}

/// The bytes of the longest text: that of associations.
pub(crate) const LONGEST_CLASH: usize = 53;

impl Clash {
    /// What clashes, and on which date, as `train [C00123] on 260106`. It takes no memory.
    #[tactic(auto, unfolding(crate::specs::Clash::clash_text))]
    pub fn text(&self) -> ArrayString<LONGEST_CLASH>
        ensures { result.bytes ≡ clash_text self.now }
    {
        let mut text = ArrayString::new();
        match self {
            Clash::Association(key, day) => {
                text.push_str("association ");
                push_key(&mut text, key);
                text.push_str(" on ");
                text.push_str(as_text(&day.to_yymmdd()));
            }
            Clash::Train(uid, day) => {
                text.push_str("train ");
                push_columns(&mut text, &uid.write());
                text.push_str(" on ");
                text.push_str(as_text(&day.to_yymmdd()));
            }
        }
        text
    }
}

/// Appends each field of the key between brackets.
#[tactic(auto, unfolding(crate::specs::Clash::key_text))]
fn push_key(text: &mut ArrayString<LONGEST_CLASH>, key: &AssocKey)
    requires { array_string_len text.old + 31 ≤ LONGEST_CLASH }
    ensures text { text.new.bytes ≡ text.old.bytes ++ key_text key.now }
    ensures len { array_string_len text.new ≡ array_string_len text.old + 31 }
{
    push_columns(text, &key.base.write());
    push_columns(text, &key.associated.write());
    push_columns(text, &key.location.write());
    push_columns(text, &key.base_suffix.write());
    push_columns(text, &key.associated_suffix.write());
}

/// Appends the columns between brackets.
fn push_columns(text: &mut ArrayString<LONGEST_CLASH>, columns: &[u8])
    requires room { array_string_len text.old + length columns.now + 2 ≤ LONGEST_CLASH }
    requires printable { ArePrintable columns.now }
    ensures text { text.new.bytes ≡ text.old.bytes ++ bracketed columns.now }
    ensures len { array_string_len text.new ≡ array_string_len text.old + length columns.now + 2 }
{
    text.push_str("[");
    text.push_str(as_text(columns));
    text.push_str("]");
}

/// Its text.
impl fmt::Display for Clash {
    ghost output = { λ clash. Some (clash_text clash) };

    fn fmt<W: fmt::Write>(&self, f: &mut fmt::Formatter<W>) -> fmt::Result {
        f.write_str(self.text().as_str())
    }
}

/// Its text.
impl fmt::Debug for Clash {
    fn fmt<W: fmt::Write>(&self, f: &mut fmt::Formatter<W>) -> fmt::Result {
        fmt::Display::fmt(self, f)
    }
}
