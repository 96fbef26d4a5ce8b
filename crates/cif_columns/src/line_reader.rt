//! Lines, one by one, from a source that gives its bytes in any pieces.
ghost use Rattle.std.specs.Prelude.{◌≡◌, ◌<◌, ◌≤◌, ◌+◌, [], ℕ, List, IfSome, IsTrue, false};
ghost use Rattle.cif_columns.specs.{Contents.most_by, declared.ahead.TheConstants.AHEAD, declared.line_reader.TheConstants.MAX_LINES};

use crate::ahead::{ContentReader, LONGEST_LINE, Most, NextContent, is_comment, line_of};
use crate::line::{LINE_WIDTH, Line};
use crate::refusal::{LineFault, Refusal};
use crate::source::{ReadDevice, Source};

/// The most lines that a reader may be asked to give.
pub const MAX_LINES: u64 = 100_000_000;

/// What the calls so far came to.
#[derive(Clone, Copy)]
enum Past {
    Reading,
    Ended,
    Faulted(LineFault),
}

/// What stood next, where a comment may.
#[derive(Clone, Copy)]
pub enum Content {
    /// A line.
    Line,
    /// A comment, which says nothing: it begins with `/!!`, and has at most 1,000 bytes, whatever they are.
    Comment,
    /// Nothing: the input is at its end.
    End,
}

impl Content {
    ghost use Rattle.cif_columns.specs.LineReader.{content_of};

    /// What a line is.
    fn of_line(line: &Line) -> Content
        ensures { result ≡ content_of line.now }
    {
        if is_comment(line.bytes()) {
            Content::Comment
        } else {
            Content::Line
        }
    }
}

/// Gives the lines of one source one by one, and keeps what it has read ahead of them.
///
/// A line is eighty bytes from a space to a tilde, and ends at a line feed, at a carriage return
/// and a line feed, or at the end of the input. Nothing is allocated.
#[derive(Drop)]
pub struct LineReader {
    contents: ContentReader,
    past: Past,
    ghost counted: { contents.given ≤ contents.limit },
    ghost limited: { contents.limit ≤ MAX_LINES },
}

impl LineReader {
    ghost use Rattle.cif_columns.specs.LineReader.{held, given, limit, line_read, past, IsNext};
    ghost use Rattle.cif_columns.specs.LineReader.{AreAhead, HasPassed, HasReadAhead, IsNextContent, PassesContent};
    ghost use Rattle.cif_columns.specs.declared.{line_reader.Past.TheVariants.Faulted, line_reader.Past.TheVariants.Reading};
    ghost use Rattle.cif_columns.specs.declared.{refusal.LineFault.LineFault};

    /// A reader that will give at most `max_lines` lines.
    pub fn new(max_lines: u64) -> Self
        requires { max_lines ≤ MAX_LINES }
        ensures held { held result ≡ [] }
        ensures given { given result ≡ 0 }
        ensures limit { limit result ≡ max_lines }
        ensures past { past result ≡ Reading }
    {
        LineReader {
            contents: ContentReader::new(max_lines, LONGEST_LINE),
            past: Past::Reading,
        }
    }

    /// How many lines were given.
    pub fn line_number(&self) -> u64
        ensures { result ≡ given self.now }
    {
        self.contents.given
    }

    /// The next line of what is held and of what the source still gives.
    ///
    /// The source is read only while the held bytes decide no line, each time once. A line is
    /// decided by its line feed, by 82 bytes with none, by its first byte if it is one too many,
    /// and by the end of the input.
    pub fn next<R: ReadDevice>(&mut self, source: &mut Source<R>) -> Result<Option<Line>, LineFault>
        ensures { IsNext R.remaining R.read_errors self.old source.old result self.new source.new }
    {
        let mut line = Line::blank();
        let is_given = self.read_line(source, &mut line)?;
        Ok(is_given.then_some(line))
    }

    /// Puts the next line into `line`, and returns whether there was one; it answers as `next` does, and
    /// what stands in `line` means nothing where there was none.
    // It is called for each line, so that the line is copied once, from what was read ahead.
    #[inline(always)]
    pub fn read_line<R: ReadDevice>(
        &mut self,
        source: &mut Source<R>,
        line: &mut Line,
    ) -> Result<bool, LineFault>
        ensures { IsNext R.remaining R.read_errors self.old source.old (line_read result line.new)
            self.new source.new }
    {
        if self.read_ahead(line) {
            return Ok(true);
        }
        self.read_other_line(source, line)
    }

    /// Puts the next line into `line`, or passes the comment that stands there, and returns which. It
    /// answers as `next` does of all but comments, which count as lines, and are decided as such.
    #[inline(always)]
    pub fn read_content<R: ReadDevice>(
        &mut self,
        source: &mut Source<R>,
        line: &mut Line,
    ) -> Result<Content, LineFault>
        ensures { IsNextContent R.remaining R.read_errors self.old source.old result line.new
            self.new source.new }
    {
        if self.read_ahead(line) {
            return Ok(Content::of_line(line));
        }
        self.read_other_content(source, line)
    }

    /// Puts the line that stands first in what is held into `line`, if a line feed follows it and it may
    /// come, and returns whether it did. Nothing is read.
    #[inline(always)]
    fn read_ahead(&mut self, line: &mut Line) -> bool
        ensures read { IsTrue result → HasReadAhead self.old line.new self.new }
        ensures none { result ≡ false → self.new ≡ self.old }
    {
        let Past::Reading = self.past else {
            return false;
        };
        let is_full = self.contents.given == self.contents.limit;
        if !self.contents.ahead.line_with_feed(is_full, line) {
            return false;
        }
        self.contents.ahead.pass_line_with_feed();
        self.contents.given += 1;
        true
    }

    /// The columns that stand first in what is held, where a line feed follows them and a line may come.
    /// If each of them may stand in a line, they are the next line. Nothing is read.
    // With `pass_line` this spares the copy of a line.
    #[inline(always)]
    pub fn columns_ahead(&self) -> Option<&[u8; LINE_WIDTH]>
        ensures { IfSome result (λ columns. AreAhead self.now columns.now) }
    {
        match self.past {
            Past::Reading if self.contents.given < self.contents.limit => {
                self.contents.ahead.columns_with_feed()
            }
            _ => None,
        }
    }

    /// Gives the line that the columns ahead are: after it the next ones are ahead.
    #[inline(always)]
    pub fn pass_line(&mut self)
        requires { (line : List ℕ) × AreAhead self.old line }
        ensures { HasPassed self.old self.new }
    {
        self.contents.ahead.pass_line_with_feed();
        self.contents.given += 1;
    }

    /// What `read_line` does where no line is ahead.
    // Few lines come here, so it is kept out of the loops that `read_line` is inlined into.
    #[cold]
    #[inline(never)]
    fn read_other_line<R: ReadDevice>(
        &mut self,
        source: &mut Source<R>,
        line: &mut Line,
    ) -> Result<bool, LineFault>
        ensures { IsNext R.remaining R.read_errors self.old source.old (line_read result line.new)
            self.new source.new }
    {
        match self.pass_content(Most::Of(LONGEST_LINE), source) {
            Ok(true) => match line_of(self.contents.content()) {
                Ok(next) => {
                    *line = next;
                    Ok(true)
                }
                Err(why) => Err(self.refuse(why)),
            },
            other => other,
        }
    }

    /// What `read_content` does where no line is ahead.
    #[cold]
    #[inline(never)]
    fn read_other_content<R: ReadDevice>(
        &mut self,
        source: &mut Source<R>,
        line: &mut Line,
    ) -> Result<Content, LineFault>
        ensures { IsNextContent R.remaining R.read_errors self.old source.old result line.new
            self.new source.new }
    {
        match self.pass_content(Most::InFeed, source) {
            Ok(true) => {
                let content = self.contents.content();
                if is_comment(content) {
                    return Ok(Content::Comment);
                }
                match line_of(content) {
                    Ok(next) => {
                        *line = next;
                        Ok(Content::Line)
                    }
                    Err(why) => Err(self.refuse(why)),
                }
            }
            Ok(false) => Ok(Content::End),
            Err(fault) => Err(fault),
        }
    }

    /// Passes the next content, and returns whether there is one. An end or a fault is answered from now on.
    fn pass_content<R: ReadDevice>(
        &mut self,
        most: Most,
        source: &mut Source<R>,
    ) -> Result<bool, LineFault>
        requires some { (bytes : List ℕ) → 81 < most_by most bytes }
        requires room { (bytes : List ℕ) → most_by most bytes ≤ AHEAD }
        ensures { PassesContent R.remaining R.read_errors most self.old source.old result self.new
            source.new }
    {
        match self.past {
            Past::Reading => {}
            Past::Ended => return Ok(false),
            Past::Faulted(fault) => return Err(fault),
        }
        match self.contents.next_within(most, source) {
            Ok(NextContent::Content) => Ok(true),
            Ok(NextContent::Overlong) => Err(self.stop(LineFault::Refused {
                line: self.contents.given + 1,
                why: Refusal::BadLength,
            })),
            Ok(NextContent::End) => {
                self.past = Past::Ended;
                Ok(false)
            }
            Err(fault) => Err(self.stop(fault)),
        }
    }

    /// Refuses the content that was given last: it is no line, and isn't counted.
    fn refuse(&mut self, why: Refusal) -> LineFault
        requires { 0 < given self.old }
        ensures fault { result ≡ LineFault.Refused (given self.old) why }
        ensures given { given self.new + 1 ≡ given self.old }
        ensures limit { limit self.new ≡ limit self.old }
        ensures past { past self.new ≡ Faulted result }
    {
        let line = self.contents.given;
        self.contents.given -= 1;
        self.stop(LineFault::Refused { line, why })
    }

    /// Answers the fault from now on.
    fn stop(&mut self, fault: LineFault) -> LineFault
        ensures fault { result ≡ fault }
        ensures contents { self.new.contents ≡ self.old.contents }
        ensures past { past self.new ≡ Faulted fault }
    {
        self.past = Past::Faulted(fault);
        fault
    }
}
