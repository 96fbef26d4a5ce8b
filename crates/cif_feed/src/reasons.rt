//! The reasons to refuse lines, each judged by itself: how many lines have each, and the first of them.
ghost use Rattle.std.specs.Prelude.{◌≡◌, ◌≢◌, ◌<◌, ◌≤◌, ◌+◌, ◌++◌, ◌∷◌, [], ℕ, List, Option, Some, length};
ghost use Rattle.std.specs.List.{flat_map};
ghost use Rattle.cif_columns.specs.{Line.IsLine, Sink.Writes};
ghost use Rattle.cif_columns.specs.declared.{line_reader.TheConstants.MAX_LINES, refusal.Refusal.Refusal};
ghost use Rattle.cif_columns.specs.declared.{refusal.Refusal.TheVariants.OutOfOrder, refusal.Refusal.TheVariants.TooManyLines};
ghost use Rattle.cif_extract.specs.FirstRefusal.{refusal_of};
ghost use Rattle.cif_feed.specs.Reasons.{ReportReasons, first_in, lines_in, own_reason, reason_line};
ghost use Rattle.cif_feed.specs.Reasons.{first_with, lines_word, place_of, reported_text};
ghost use Rattle.cif_records.specs.Record.{record_refusal};

use arrayvec::ArrayString;
use cif_columns::{Refusal, Sink, WriteDevice, WriteFault};
use itoa::Buffer;

/// The reasons that a line can have by itself, in the order of their numbers.
const OWN_REASONS: [Refusal; 11] = [
    Refusal::BadLength,
    Refusal::BadByte,
    Refusal::UnknownRecord,
    Refusal::NotFull,
    Refusal::BadDate,
    Refusal::OpenEnd,
    Refusal::DatesReversed,
    Refusal::BadDays,
    Refusal::BankHoliday,
    Refusal::BadStp,
    Refusal::BadTime,
];

/// How many refusals there are.
const REFUSALS: usize = 14;

/// The bytes of the longest line of a reason, with its line feed.
const LONGEST_LINE: usize = 80;

/// The bytes of the lines of all reasons, at most.
const LONGEST_REASONS: usize = 880;

/// For each reason how many lines have it, and the number of the first, counted from 1.
#[derive(Clone, Copy)]
pub struct Reasons {
    // By the numbers of the refusals. No line has the first number 0.
    lines: [u64; REFUSALS],
    first: [u64; REFUSALS],
}

impl Reasons {
    /// No line has a reason.
    pub(crate) fn new() -> Reasons
        ensures { ReportReasons [] result }
    {
        Reasons {
            lines: [0; REFUSALS],
            first: [0; REFUSALS],
        }
    }

    /// How many lines have this reason.
    pub fn lines(&self, why: Refusal) -> u64
        ensures { result ≡ lines_in self.now why }
    {
        self.lines[place_of(why)]
    }

    /// The number of the first line that has this reason, if one has it.
    pub fn first(&self, why: Refusal) -> u64
        ensures { result ≡ first_in self.now why }
    {
        self.first[place_of(why)]
    }

    /// Counts one line more, of this number, that has this reason.
    pub(crate) fn count(&mut self, why: Refusal, line: u64)
        requires line { line ≤ MAX_LINES }
        requires reported { (reasons : List (Option Refusal)) × ReportReasons reasons self.old
            × (line ≡ length reasons + 1) }
        ensures { (reasons : List (Option Refusal)) → ReportReasons reasons self.old
            → line ≡ length reasons + 1 → ReportReasons (reasons ++ Some why ∷ []) self.new }
    {
        let place = place_of(why);
        let lines = self.lines[place];
        self.first[place] = first_of(lines, self.first[place], line);
        self.lines[place] = lines + 1;
    }

    /// Appends a line for each reason that a line has, in the order of their numbers, as `OpenEnd: 1
    /// line, first at line 6`. It takes no memory.
    pub fn write<W: WriteDevice>(&self, sink: &mut Sink<W>) -> Result<(), WriteFault>
        ensures { Writes W.contents W.write_errors (reported_text self.now) sink.old sink.new result }
    {
        sink.write_all(self.text().as_str().as_bytes())
    }

    /// A law for proofs. A line judged by itself is refused as a record is. If a content is refused after
    /// others, except as OutOfOrder or TooManyLines, it is refused by itself for the same reason.
    pub fn own_reasons()
        ensures lines { (line : List ℕ) → IsLine line → own_reason line ≡ record_refusal line }
        ensures refusals { (max : ℕ) (before : List (List ℕ)) (content : List ℕ) (why : Refusal)
            → refusal_of max before content ≡ Some why → why ≢ TooManyLines → why ≢ OutOfOrder
            → own_reason content ≡ Some why }
    {}

    /// The lines of all reasons.
    #[tactic(auto, unfolding(crate::specs::Reasons::reported_text))]
    fn text(&self) -> ArrayString<LONGEST_REASONS>
        ensures { result.bytes ≡ reported_text self.now }
    {
        self.text_of(&OWN_REASONS)
    }

    /// The lines of these reasons.
    fn text_of(&self, reasons: &[Refusal]) -> ArrayString<LONGEST_REASONS>
        requires { length reasons.now ≤ 11 }
        ensures { result.bytes ≡ flat_map
            (λ why. reason_line why (lines_in self.now why) (first_in self.now why)) reasons.now }
    {
        let mut text = ArrayString::new();
        for why in reasons {
            let line = line_of(*why, self.lines(*why), self.first(*why));
            text.push_str(line.as_str());
        }
        text
    }
}

/// The line for a reason: how many lines have it, and the first; empty if none has it.
#[tactic(auto, unfolding(crate::specs::Reasons::reason_line))]
fn line_of(why: Refusal, lines: u64, first: u64) -> ArrayString<LONGEST_LINE>
    ensures { result.bytes ≡ reason_line why lines first }
{
    let mut line = ArrayString::new();
    if lines == 0 {
        return line;
    }
    line.push_str(why.name());
    line.push_str(": ");
    line.push_str(Buffer::new().format(lines));
    line.push_str(lines_word(lines));
    line.push_str(", first at line ");
    line.push_str(Buffer::new().format(first));
    line.push_str("\n");
    line
}

/// The word for so many lines, behind a space.
fn lines_word(lines: u64) -> &'static str
    ensures { result.now ≡ lines_word lines }
{
    if lines == 1 { " line" } else { " lines" }
}

/// The first line with a reason, once `line` is counted too.
fn first_of(lines: u64, first: u64, line: u64) -> u64
    ensures { result ≡ first_with lines first line }
{
    if lines == 0 { line } else { first }
}

/// The index of a reason.
fn place_of(why: Refusal) -> usize
    ensures place { result ≡ place_of why }
    ensures within { result < REFUSALS }
{
    usize::from(why.number()) - 1
}
