//! Judging each line of an input by itself, and reading the extract where no line is refused so.
ghost use Rattle.std.specs.Prelude.{◌≡◌, ◌<◌, ◌≤◌, ◌+◌, ◌^◌, ◌++◌, ◌∷◌, [], ℕ, List, None, Some, IfErr, IfOk, length};
ghost use Rattle.cif_columns.specs.{FirstLine.line_of, Source.unread_of, declared.line_reader.TheConstants.MAX_LINES};
ghost use Rattle.cif_extract.specs.ReadCall.{IsResultOf};
ghost use Rattle.cif_feed.specs.{Reasons.own_reason, Steps.Judging.HasJudged, Steps.Judging.IsFinished, Steps.Judging.IsInOrder};
ghost use Rattle.cif_records.specs.Record.{record_refusal};

use crate::reasons::Reasons;
use cif_columns::{ContentReader, Line, NextContent, ReadDevice, Refusal, Source, line_of};
use cif_extract::{Extract, Fault, Reading, TakeFault};
use cif_records::{is_plain_line, kind_of, read_record};
use std::alloc::Global;

/// How many bytes of a line are read, with its ending, at most.
const MOST_OF_LINE: usize = 10_000;

/// What comes of an input whose lines are judged each by itself.
#[derive(Drop)]
pub enum Judged {
    /// Some line has a reason to be refused, whatever stands before it.
    Reasons(Reasons),
    /// None has, and the lines spell this extract.
    Extract(Extract),
}

impl Judged {
    ghost use Rattle.cif_feed.specs.Judged.{judging};

    /// What comes of the source's lines, of which at most `max_lines` may come, each judged by itself.
    ///
    /// A line may have any length, but one without a line feed among its first 10,000 bytes is the
    /// last that is judged. Refused comes where a line is one too many, whatever reasons the lines
    /// before it have; or else where no line has a reason, and the lines are out of order, or the
    /// trailer is missing. Read comes where the source failed before all lines were judged, and
    /// Memory where what a line says can't be kept. No other fault is answered.
    // Inlined, it would keep what is read ahead on the stack of its caller.
    #[inline(never)]
    pub fn read<R: ReadDevice>(
        alloc: Global,
        source: &mut Source<R>,
        max_lines: u64,
    ) -> Result<Judged, Fault>
        requires within { max_lines ≤ MAX_LINES }
        ensures { IsResultOf R.remaining R.read_errors
            (judging max_lines (unread_of R.remaining source.new)) source.old source.new result }
    {
        let mut contents = ContentReader::new(max_lines, MOST_OF_LINE);
        let mut judging = Judging::new(alloc);
        loop {
            match contents.next(source) {
                Ok(NextContent::Content) => {
                    let number = contents.line_number();
                    match judging.take(alloc, line_of(contents.content()), number) {
                        Ok(()) => {}
                        Err(fault) => return Err(fault),
                    }
                }
                Ok(NextContent::Overlong) => {
                    let number = contents.line_number() + 1;
                    judging.refuse(Refusal::BadLength, number);
                    return Ok(Judged::Reasons(judging.reasons));
                }
                Ok(NextContent::End) => return judging.finish(contents.line_number()),
                Err(fault) => return Err(Fault::from(fault)),
            }
        }
    }
}

/// What the contents so far have come to.
#[derive(Drop)]
pub(crate) struct Judging {
    reasons: Reasons,
    order: Order,
}

/// What the order of the contents so far has come to.
#[derive(Drop)]
pub(crate) enum Order {
    /// They are lines, none of which is refused.
    Reading(Reading),
    /// The first that is refused is the line of this number. It can't follow those before it.
    OutOfOrder { line: u64 },
    /// One of them has a reason by itself, so that their order decides nothing.
    Refused,
}

impl Judging {
    /// The judging of no contents.
    fn new(alloc: Global) -> Judging
        ensures { (max : ℕ) → HasJudged max [] result }
    {
        Judging {
            reasons: Reasons::new(),
            order: Order::Reading(Reading::new(alloc)),
        }
    }

    /// Takes one content more, of this number: the line that it is, or why it is none. Memory is asked
    /// for after it is judged; no other fault is answered.
    fn take(
        &mut self,
        alloc: Global,
        content: Result<Line, Refusal>,
        number: u64,
    ) -> Result<(), Fault>
        requires number { number ≤ MAX_LINES }
        requires judged { (max : ℕ) × (contents : List (List ℕ)) × HasJudged max contents self.old
            × (number ≡ length contents + 1) × (number ≤ max) }
        ensures judged { (max : ℕ) (contents : List (List ℕ)) (c : List ℕ)
            → HasJudged max contents self.old → number ≡ length contents + 1 → number ≤ max
            → content ≡ line_of c
            → IfOk result (λ _. HasJudged max (contents ++ c ∷ []) self.new) }
        ensures memory { IfErr result (λ fault. fault ≡ Fault.Memory) }
    {
        match content {
            Ok(line) => match own_refusal(&line) {
                None => self.order.take(alloc, &line, number),
                Some(why) => {
                    self.refuse(why, number);
                    Ok(())
                }
            },
            Err(why) => {
                self.refuse(why, number);
                Ok(())
            }
        }
    }

    /// Takes one content more, of this number, that has this reason by itself.
    fn refuse(&mut self, why: Refusal, number: u64)
        requires number { number ≤ MAX_LINES }
        requires judged { (max : ℕ) × (contents : List (List ℕ)) × HasJudged max contents self.old
            × (number ≡ length contents + 1) }
        ensures { (max : ℕ) (contents : List (List ℕ)) (c : List ℕ)
            → HasJudged max contents self.old → number ≡ length contents + 1
            → own_reason c ≡ Some why → HasJudged max (contents ++ c ∷ []) self.new }
    {
        self.reasons.count(why, number);
        self.order = Order::Refused;
    }

    /// What has come of them, where these are all contents.
    fn finish(self, lines: u64) -> Result<Judged, Fault>
        requires { lines < 2 ^ 32 }
        ensures { (max : ℕ) (contents : List (List ℕ)) → HasJudged max contents self
            → lines ≡ length contents → IsFinished max contents result }
    {
        let Judging { reasons, order } = self;
        match order {
            Order::Refused => Ok(Judged::Reasons(reasons)),
            Order::OutOfOrder { line } => Err(Fault::Refused {
                line,
                why: Refusal::OutOfOrder,
            }),
            Order::Reading(reading) => match reading.end() {
                Some(extract) => Ok(Judged::Extract(extract)),
                None => Err(Fault::Refused {
                    line: lines + 1,
                    why: Refusal::Truncated,
                }),
            },
        }
    }
}

/// Why a line is refused by itself, if it is.
fn own_refusal(line: &Line) -> Option<Refusal>
    ensures { result ≡ record_refusal line.now }
{
    // `read_record` alone would do. Of most lines this spares the reading of their fields.
    if let Some(kind) = kind_of(line)
        && is_plain_line(kind, line)
    {
        return None;
    }
    match read_record(line) {
        Ok(_) => None,
        Err(why) => Some(why),
    }
}

impl Order {
    /// Takes one line more, of this number, that has no reason by itself. Memory is the only fault.
    fn take(&mut self, alloc: Global, line: &Line, number: u64) -> Result<(), Fault>
        requires { (max : ℕ) × (contents : List (List ℕ)) × IsInOrder max contents self.old }
        ensures taken { (max : ℕ) (contents : List (List ℕ)) → IsInOrder max contents self.old
            → number ≡ length contents + 1 → number ≤ max → own_reason line.now ≡ None
            → IfOk result (λ _. IsInOrder max (contents ++ line.now ∷ []) self.new) }
        ensures memory { IfErr result (λ fault. fault ≡ Fault.Memory) }
    {
        match self {
            Order::Reading(reading) => match reading.take(alloc, line) {
                Ok(()) => Ok(()),
                Err(TakeFault::Refused(_)) => {
                    *self = Order::OutOfOrder { line: number };
                    Ok(())
                }
                Err(TakeFault::Memory) => Err(Fault::Memory),
            },
            Order::OutOfOrder { line: _ } => Ok(()),
            Order::Refused => Ok(()),
        }
    }
}
