//! What a call of `cif` asks for, or why it asks for nothing.
ghost use Rattle.std.specs.Prelude.{◌≡◌};
ghost use Rattle.cif_commands.specs.JobFault.{IsExplained};

use crate::status::{DONE, FAILED, USAGE_ERROR, end};
use cif_canon::Asked;
use cif_columns::{Day, Sink, Uid, WriteDevice};
use cif_extract::Fault;
use cif_feed::Waived;
use cif_rows::Format;
use cif_views::{Board, Listing, Table};
use cif_weeks::Form;
use clap::error::ErrorKind;
use std::alloc::AllocError;

/// What a call of `cif` asks for.
#[derive(Drop)]
pub struct Request {
    pub task: Task,
    pub inputs: InputNames,
    /// Whether it is to say more on standard error.
    pub verbose: bool,
}

/// The names of the inputs of a call, in the order in which they are read. `-` is the standard input.
#[derive(Drop)]
pub struct InputNames {
    pub first: String,
    pub rest: Vec<String>,
}

/// What a command is asked for.
#[derive(Clone, Copy)]
pub enum Task {
    /// Something of extracts.
    Extract(Job),
    /// Something of published extracts.
    Feed(FeedJob),
}

/// What a command that reads extracts is asked for.
#[derive(Clone, Copy)]
pub enum Job {
    /// To write the canonical extract.
    Normalise(CanonicalJob),
    /// To say how many records the canonical extract has, or why there is none.
    Check(CanonicalJob),
    /// To say which lines have a reason to be refused by themselves, or else what `Check` says.
    CheckAll(CanonicalJob),
    /// To say where two extracts first differ.
    Compare(CompareJob),
    /// To list everything in which two extracts differ.
    Diff(DiffJob),
    /// To list what runs on a day.
    Day(DayJob),
    /// To list the canonical schedules of a train.
    Train(TrainJob),
    /// To say why a train runs on a day, or doesn't.
    Explain(ExplainJob),
    /// To list the clashes in the window that is asked for.
    Clashes(ClashesJob),
    /// To write a table of the canonical extract.
    Table(TableJob),
    /// To show which records of a train win on each date.
    Calendar(CalendarJob),
    /// To list what leaves from a place on a date, or arrives there.
    Board(BoardJob),
}

/// Of which canonical extract `normalise`, `check` and `table` are asked for something.
#[derive(Clone, Copy)]
pub struct CanonicalJob {
    pub asked: Asked,
    pub form: Form,
}

/// What `compare` and `diff` are asked for. With `common`, dates that aren't asked for are those of the window that both
/// extracts have in common.
#[derive(Clone, Copy)]
pub struct CompareJob {
    pub asked: Asked,
    pub common: bool,
}

/// What `diff` is asked for.
#[derive(Clone, Copy)]
pub struct DiffJob {
    pub compared: CompareJob,
    pub format: Format,
}

/// What `day` is asked for.
#[derive(Clone, Copy)]
pub struct DayJob {
    pub day: Day,
    pub listing: Listing,
}

/// What `train` is asked for.
#[derive(Clone, Copy)]
pub struct TrainJob {
    pub uid: Uid,
    pub asked: Asked,
    pub form: Form,
    pub listing: Listing,
}

/// What `explain` is asked for.
#[derive(Clone, Copy)]
pub struct ExplainJob {
    pub uid: Uid,
    pub day: Day,
    pub format: Format,
}

/// What `clashes` is asked for.
#[derive(Clone, Copy)]
pub struct ClashesJob {
    pub asked: Asked,
    pub format: Format,
}

/// What `table` is asked for.
#[derive(Clone, Copy)]
pub struct TableJob {
    pub table: Table,
    pub canonical: CanonicalJob,
    pub format: Format,
}

/// What `calendar` is asked for.
#[derive(Clone, Copy)]
pub struct CalendarJob {
    pub uid: Uid,
    pub asked: Asked,
    pub format: Format,
}

/// What `departures` and `arrivals` are asked for.
#[derive(Clone, Copy)]
pub struct BoardJob {
    pub board: Board,
    pub format: Format,
}

/// What a command that reads published extracts is asked for.
#[derive(Clone, Copy)]
pub enum FeedJob {
    /// To write the prepared extract of a published one, the last input. An input before it has the holidays;
    /// without one there are none.
    Prepare(PrepareJob),
    /// To write which published record decides on each date of each train, of the same inputs as `Prepare`.
    Winners(WinnersJob),
    /// To write what updates, one after the other, make of a full published extract, the first input.
    Update(UpdateJob),
}

/// What `prepare` is asked for.
#[derive(Clone, Copy)]
pub struct PrepareJob {
    /// Whether what clashes is left out.
    pub drop_clashes: bool,
}

/// What `prepare --winners` is asked for.
#[derive(Clone, Copy)]
pub struct WinnersJob {
    /// How the extract is prepared.
    pub prepare: PrepareJob,
    pub format: Format,
}

/// What `update` is asked for.
#[derive(Clone, Copy)]
pub struct UpdateJob {
    /// Which lines that don't fit are waived.
    pub waived: Waived,
}

/// Why a call of `cif` asks for nothing.
#[derive(Drop)]
pub enum JobFault {
    /// A usage error, or a request for help or for the version, with the text of `clap`.
    Usage { kind: ErrorKind, text: String },
    /// `clap` takes the words, but enters no subcommand of the program's own.
    NoCommand,
    /// A word that stands for a date names none, YYMMDD or YYYY-MM-DD.
    BadDate,
    /// A word that stands for a UID isn't six bytes from 0x20 to 0x7E.
    BadUid,
    /// A word that stands for a place isn't 1 to 7 bytes from 0x21 to 0x7E.
    BadPlace,
    /// `prepare` is given a format, and not asked for a table.
    FormatAlone,
    /// Two of these inputs are the standard input.
    StandardInputTwice(Inputs),
    /// Memory ran out.
    Memory,
}

/// Inputs of which one may be the standard input.
#[derive(Clone, Copy)]
pub enum Inputs {
    /// The two extracts of `compare` or `diff`.
    LeftAndRight,
    /// The holidays and the extract of `prepare`.
    HolidaysAndFile,
    /// The extracts of `update`.
    Extracts,
}

/// What `clap` says of an argument that is missing, here of one that another needs.
const FORMAT_ALONE: &str = "\
error: the following required arguments were not provided:
  --winners

Usage: cif prepare --winners --format <FORMAT> [FILE]

For more information, try '--help'.
";

impl From<AllocError> for JobFault {
    ghost use Rattle.cif_commands.specs.declared.job.JobFault.TheVariants.{Memory};

    ghost from_gives = { λ _ fault. fault ≡ Memory };

    fn from(_error: AllocError) -> JobFault {
        JobFault::Memory
    }
}

impl JobFault {
    ghost use Rattle.cif_feed.specs.FeedAnswer.{IsHandedOn};
    ghost use Rattle.cif_commands.specs.JobFault.{Explains, status_of, text_of};

    /// Says why the arguments ask for nothing, and answers the status. Help and the version go to
    /// `output`; all else goes to `errors`, and that it can't be written there changes no status.
    /// Write comes where `output` fails.
    pub fn explain<O: WriteDevice, E: WriteDevice>(
        &self,
        output: &mut Sink<O>,
        errors: &mut Sink<E>,
    ) -> Result<u8, Fault>
        ensures answer { Explains O.contents O.write_errors E.contents E.write_errors self.now
            output.old output.new errors.old errors.new result }
        ensures handed_on { status_of self.now ≡ 0 → IsHandedOn O.holds_nothing output.new result }
    {
        let status = self.status();
        if status == DONE {
            output.write_all(self.text().as_bytes())?;
            output.flush()?;
            Ok(status)
        } else {
            let _ = errors.write_all(self.text().as_bytes());
            Ok(status)
        }
    }

    /// The status that the program exits with.
    pub fn status(&self) -> u8
        ensures { result ≡ status_of self.now }
    {
        match self {
            JobFault::Usage { kind, text: _ } => match kind {
                ErrorKind::DisplayHelp | ErrorKind::DisplayVersion => DONE,
                _ => USAGE_ERROR,
            },
            JobFault::NoCommand
            | JobFault::BadDate
            | JobFault::BadUid
            | JobFault::BadPlace
            | JobFault::FormatAlone
            | JobFault::StandardInputTwice(_) => USAGE_ERROR,
            JobFault::Memory => FAILED,
        }
    }

    /// What is said of it: the line that names the fault, or the text of `clap`.
    pub fn text(&self) -> &str
        ensures { result.now ≡ text_of self.now }
    {
        match self {
            JobFault::Usage { kind: _, text } => text.as_str(),
            JobFault::NoCommand => "cif: no command\n",
            JobFault::BadDate => "cif: bad date\n",
            JobFault::BadUid => "cif: bad UID\n",
            JobFault::BadPlace => "cif: bad place\n",
            JobFault::FormatAlone => FORMAT_ALONE,
            JobFault::StandardInputTwice(Inputs::LeftAndRight) => {
                "cif: LEFT and RIGHT are both standard input\n"
            }
            JobFault::StandardInputTwice(Inputs::HolidaysAndFile) => {
                "cif: --holidays and FILE are both standard input\n"
            }
            JobFault::StandardInputTwice(Inputs::Extracts) => {
                "cif: two inputs are standard input\n"
            }
            JobFault::Memory => "cif: Memory\n",
        }
    }
}

/// Says why the arguments ask for nothing, and gives the status that the program exits with: help and the version go to
/// `output`, all else to `errors`.
pub fn run_fault<O: WriteDevice, E: WriteDevice>(
    fault: &JobFault,
    output: &mut Sink<O>,
    errors: &mut Sink<E>,
) -> u8
    ensures { IsExplained O.contents O.write_errors O.holds_nothing E.contents E.write_errors fault.now
        output.old output.new errors.old errors.new result }
{
    let explained = fault.explain(output, errors);
    end(&explained, errors)
}
