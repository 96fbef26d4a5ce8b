//! Why a feed isn't read, or an update not done.
ghost use Rattle.std.specs.Prelude.{◌≡◌, ◌≤◌, ◌++◌, length};
ghost use Rattle.cif_feed.specs.FeedTexts.{line_text};

use crate::HolidayFault;
use arrayvec::ArrayString;
use cif_columns::{LineFault, WriteFault};
use cif_extract::Fault;
use itoa::Buffer;
use std::alloc::AllocError;

/// Why a feed isn't read, or an update not done.
#[derive(Drop)]
pub enum FeedFault {
    /// As an extract of this profile.
    Extract(Fault),
    /// The header of an update, by its number from 1, isn't one of an update.
    NotUpdate { line: u64 },
    /// An AA or a BS of an update, by its number, has no transaction.
    BadTransaction { line: u64 },
    /// A line of an update, by its number, revises, amends or deletes a record that isn't there.
    NotThere { line: u64 },
    /// A line of an update, by its number, puts a record that is there already.
    AlreadyThere { line: u64 },
    /// A line of holidays, by its number, isn't one of holidays, or is one too many.
    BadHoliday { line: u64 },
    /// The header of an update, by its number, doesn't follow the extract.
    OutOfSequence { line: u64 },
}

/// The bytes of the longest text, which is one of an extract of this profile.
const LONGEST_FAULT: usize = 64;

impl FeedFault {
    ghost use Rattle.cif_feed.specs.FeedTexts.{fault_text, name_of, number_of};

    /// The number of the fault: that of an extract of this profile, or 22 NotUpdate, 23
    /// BadTransaction, 24 NotThere, 25 AlreadyThere, 26 BadHoliday, 27 OutOfSequence.
    pub fn number(&self) -> u8
        ensures { result ≡ number_of self.now }
    {
        match self {
            FeedFault::Extract(fault) => fault.number(),
            FeedFault::NotUpdate { line: _ } => 22,
            FeedFault::BadTransaction { line: _ } => 23,
            FeedFault::NotThere { line: _ } => 24,
            FeedFault::AlreadyThere { line: _ } => 25,
            FeedFault::BadHoliday { line: _ } => 26,
            FeedFault::OutOfSequence { line: _ } => 27,
        }
    }

    /// The name of the fault.
    pub fn name(&self) -> &'static str
        ensures { result.now ≡ name_of self.now }
    {
        match self {
            FeedFault::Extract(fault) => fault.name(),
            FeedFault::NotUpdate { line: _ } => "NotUpdate",
            FeedFault::BadTransaction { line: _ } => "BadTransaction",
            FeedFault::NotThere { line: _ } => "NotThere",
            FeedFault::AlreadyThere { line: _ } => "AlreadyThere",
            FeedFault::BadHoliday { line: _ } => "BadHoliday",
            FeedFault::OutOfSequence { line: _ } => "OutOfSequence",
        }
    }

    /// What the fault is: its name, behind the line that is refused, as `line 2: NotUpdate`. It takes no
    /// memory.
    #[tactic(auto, unfolding(crate::specs::FeedTexts::fault_text))]
    pub fn text(&self) -> ArrayString<LONGEST_FAULT>
        ensures { result.bytes ≡ fault_text self.now }
    {
        match self {
            FeedFault::Extract(fault) => fault.text(),
            FeedFault::NotUpdate { line } => line_text("", *line, "NotUpdate"),
            FeedFault::BadTransaction { line } => line_text("", *line, "BadTransaction"),
            FeedFault::NotThere { line } => line_text("", *line, "NotThere"),
            FeedFault::AlreadyThere { line } => line_text("", *line, "AlreadyThere"),
            FeedFault::BadHoliday { line } => line_text("holidays: ", *line, "BadHoliday"),
            FeedFault::OutOfSequence { line } => line_text("", *line, "OutOfSequence"),
        }
    }
}

/// The input that it is of, a line's number and a name.
#[tactic(auto, unfolding(crate::specs::FeedTexts::line_text))]
fn line_text(input: &str, line: u64, name: &str) -> ArrayString<LONGEST_FAULT>
    requires input { length input.now ≤ 10 }
    requires name { length name.now ≤ 20 }
    ensures { result.bytes ≡ input.now ++ line_text line name.now }
{
    let mut text = ArrayString::new();
    text.push_str(input);
    text.push_str("line ");
    text.push_str(Buffer::new().format(line));
    text.push_str(": ");
    text.push_str(name);
    text
}

impl From<HolidayFault> for FeedFault {
    ghost use Rattle.cif_feed.specs.FeedFault.{of_holiday_fault};

    ghost from_gives = { λ holiday_fault fault. fault ≡ of_holiday_fault holiday_fault };

    fn from(fault: HolidayFault) -> FeedFault {
        match fault {
            HolidayFault::BadHoliday { line } => FeedFault::BadHoliday { line },
            HolidayFault::Read => FeedFault::Extract(Fault::Read),
            HolidayFault::Memory => FeedFault::Extract(Fault::Memory),
        }
    }
}

impl From<LineFault> for FeedFault {
    ghost use Rattle.cif_extract.specs.Fault.{of_line_fault};
    ghost use Rattle.cif_feed.specs.declared.feed_fault.FeedFault.TheVariants.{Extract};

    ghost from_gives = { λ line_fault fault. fault ≡ Extract (of_line_fault line_fault) };

    fn from(fault: LineFault) -> FeedFault {
        FeedFault::Extract(Fault::from(fault))
    }
}

impl From<WriteFault> for FeedFault {
    ghost use Rattle.cif_extract.specs.declared.fault.Fault.TheVariants.{Write};
    ghost use Rattle.cif_feed.specs.declared.feed_fault.FeedFault.TheVariants.{Extract};

    ghost from_gives = { λ _ fault. fault ≡ Extract Write };

    fn from(_fault: WriteFault) -> FeedFault {
        FeedFault::Extract(Fault::Write)
    }
}

impl From<AllocError> for FeedFault {
    ghost use Rattle.cif_extract.specs.declared.fault.Fault.TheVariants.{Memory};
    ghost use Rattle.cif_feed.specs.declared.feed_fault.FeedFault.TheVariants.{Extract};

    ghost from_gives = { λ _ fault. fault ≡ Extract Memory };

    fn from(_error: AllocError) -> FeedFault {
        FeedFault::Extract(Fault::Memory)
    }
}
