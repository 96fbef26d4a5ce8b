//! The bytes that are read ahead of the lines, the line that stands first in them, and the contents that they
//! are cut into, one by one.
ghost use Rattle.std.specs.Prelude.{◌≡◌, ◌<◌, ◌≤◌, [], ℕ, List, Ok, OnErr, IfSome, IfNone, IsTrue, MatchOption, length};
ghost use Rattle.std.specs.Prelude.{take, drop, true, false, slice_index};
ghost use Rattle.std.specs.{Io.KnownBytes.IsAtEnd, Io.KnownBytes.Keeps, Str.Lines.strip_carriage_return};
ghost use Rattle.cif_columns.specs.{Comment.begins_comment, Comment.is_comment, Contents.HaveNoFeed, Contents.IsFirstFeed};
ghost use Rattle.cif_columns.specs.{Contents.most_by, FirstLine.line_of, Source.Reads, Source.reader_of, Source.source_ended};
ghost use Rattle.cif_columns.specs.declared.{ahead.TheConstants.AHEAD, line_reader.TheConstants.MAX_LINES};

use crate::line::{LINE_TEXT_WIDTH, LINE_WIDTH, Line};
use crate::refusal::{LineFault, Refusal};
use crate::source::{ReadDevice, ReadFault, Source};
use memchr::memchr;

// A read gives about two hundred lines. The buffer lies on the stack.
pub(crate) const AHEAD: usize = 16_384;

/// The line that a content is, or why it is none.
pub fn line_of(content: &[u8]) -> Result<Line, Refusal>
    ensures { result ≡ line_of content.now }
{
    let Some(columns) = content.as_array::<LINE_WIDTH>() else {
        return Err(Refusal::BadLength);
    };
    match Line::of(*columns) {
        Some(line) => Ok(line),
        None => Err(Refusal::BadByte),
    }
}

/// How many bytes a line takes at most, with its ending: a carriage return and a line feed. With so
/// many bytes and no line feed the first line is too long, whatever follows.
pub(crate) const LONGEST_LINE: usize = LINE_WIDTH + 2;

/// How many bytes a comment has at most.
const COMMENT_WIDTH: usize = 1_000;

/// How many it takes at most, with its ending.
const LONGEST_COMMENT: usize = COMMENT_WIDTH + 2;

/// With how many bytes, and no line feed among them, a content is overlong.
#[derive(Clone, Copy)]
pub enum Most {
    /// With so many.
    Of(usize),
    /// In a feed: with as many as a comment takes at most, if it begins as one does, and else as a line.
    InFeed,
}

impl Most {
    /// With how many, if it begins as these bytes do.
    fn of(self, bytes: &[u8]) -> usize
        ensures { result ≡ most_by self bytes.now }
    {
        match self {
            Most::Of(most) => most,
            Most::InFeed if begins_comment(bytes) => LONGEST_COMMENT,
            Most::InFeed => LONGEST_LINE,
        }
    }
}

/// The bytes that are read and not yet given: `buf[start..end]`.
#[derive(Drop)]
pub(crate) struct Ahead {
    buf: [u8; AHEAD],
    start: usize,
    end: usize,
    // Where the content stands that was passed last: `buf[first..last]`.
    first: usize,
    last: usize,
    ghost ordered: { start ≤ end },
    ghost in_bounds: { end ≤ AHEAD },
    ghost content_ordered: { first ≤ last },
    ghost content_in_bounds: { last ≤ AHEAD },
}

impl Ahead {
    ghost use Rattle.cif_columns.specs.Ahead.{held_bytes, known_left};

    pub(crate) fn new() -> Self
        ensures { held_bytes result ≡ [] }
    {
        Ahead {
            buf: [0; AHEAD],
            start: 0,
            end: 0,
            first: 0,
            last: 0,
        }
    }

    fn as_slice(&self) -> &[u8]
        ensures { result.now ≡ held_bytes self.now }
    {
        &self.buf[self.start..self.end]
    }

    /// Moves the held bytes to the front, reads once behind them, and returns whether any bytes came.
    pub(crate) fn fill<R: ReadDevice>(&mut self, source: &mut Source<R>) -> Result<bool, ReadFault>
        requires { length (held_bytes self.old) < AHEAD }
        ensures bytes { Keeps (known_left R.remaining self.old source.old)
            (known_left R.remaining self.new source.new) }
        ensures more { result ≡ Ok true
            → length (held_bytes self.old) < length (held_bytes self.new) }
        ensures end { result ≡ Ok false → (held_bytes self.new ≡ held_bytes self.old)
            × IsAtEnd (R.remaining (reader_of source.new)) × (source_ended source.new ≡ true) }
        ensures err { OnErr result (held_bytes self.new ≡ held_bytes self.old) }
        ensures device { Reads R.read_errors source.old source.new result }
    {
        let len = self.end - self.start;
        self.buf.copy_within(self.start..self.end, 0);
        self.start = 0;
        self.end = len;
        match source.read(&mut self.buf[len..]) {
            Ok(n) => {
                self.end += n;
                Ok(n > 0)
            }
            Err(fault) => Err(fault),
        }
    }
}

impl Ahead {
    ghost use Rattle.cif_columns.specs.Ahead.{BeginWithLine, held_bytes};

    /// Makes it the line that stands first in the held bytes, if that is 80 bytes and a line feed, and
    /// returns whether it did. Most lines are, and this gives them with one copy.
    pub(crate) fn line_with_feed(&self, is_full: bool, line: &mut Line) -> bool
        ensures found { IsTrue result → BeginWithLine (held_bytes self.now) line.new }
        ensures not_full { IsTrue result → is_full ≡ false }
    {
        match self.columns_with_feed() {
            Some(columns) => !is_full && line.replace(columns),
            None => false,
        }
    }

    /// The first 80 of the held bytes, if a line feed follows them.
    #[inline(always)]
    pub(crate) fn columns_with_feed(&self) -> Option<&[u8; LINE_WIDTH]>
        ensures columns { IfSome result (λ columns. columns.now ≡ take 80 (held_bytes self.now)) }
        ensures within { IfSome result (λ _. 80 < length (held_bytes self.now)) }
        ensures feed { IfSome result (λ _. slice_index (held_bytes self.now) 80 ≡ 10) }
    {
        let held = self.as_slice();
        if held.len() <= LINE_WIDTH || held[LINE_WIDTH] != b'\n' {
            return None;
        }
        held.first_chunk::<LINE_WIDTH>()
    }

    /// Passes over 80 bytes and a line feed.
    pub(crate) fn pass_line_with_feed(&mut self)
        requires { 81 ≤ length (held_bytes self.old) }
        ensures { held_bytes self.new ≡ drop 81 (held_bytes self.old) }
    {
        self.start += LINE_TEXT_WIDTH;
    }
}

/// What stands first in the bytes that are left.
#[derive(Clone, Copy)]
pub enum NextContent {
    /// A content.
    Content,
    /// A content that is overlong: none of so many bytes from where it begins is a line feed. It isn't
    /// passed, and so no other follows.
    Overlong,
    /// Nothing: the input is at its end.
    End,
}

impl Ahead {
    ghost use Rattle.cif_columns.specs.Ahead.{CutsNext, IsLast, PassesFirst, content_bytes, held_bytes};
    ghost use Rattle.cif_columns.specs.Contents.{AreUndecided};

    /// Passes the content that stands first in the held bytes and those that the source gives after
    /// them, and returns what stood there.
    ///
    /// The source is read only while the held bytes decide no content, each time once. A content is
    /// decided by its line feed, by so many bytes with none that it is overlong, and by the end of the input.
    pub(crate) fn next_content<R: ReadDevice>(
        &mut self,
        most: Most,
        source: &mut Source<R>,
    ) -> Result<NextContent, ReadFault>
        requires some { (bytes : List ℕ) → 0 < most_by most bytes }
        requires room { (bytes : List ℕ) → most_by most bytes ≤ AHEAD }
        ensures { CutsNext R.remaining R.read_errors most self.old source.old result self.new
            source.new }
    {
        loop {
            if let Some(next) = self.decided_content(most) {
                return Ok(next);
            }
            match self.fill(source) {
                Ok(true) => {}
                Ok(false) => return Ok(self.last_content()),
                Err(fault) => return Err(fault),
            }
        }
    }

    /// The content that was passed last, until more is read.
    pub(crate) fn content(&self) -> &[u8]
        ensures { result.now ≡ content_bytes self.now }
    {
        &self.buf[self.first..self.last]
    }

    /// Passes the content that stands first in the held bytes, if they decide one: it, or that it is
    /// overlong, which passes nothing.
    fn decided_content(&mut self, most: Most) -> Option<NextContent>
        ensures found { IfSome result (λ next. PassesFirst (most_by most (held_bytes self.old))
            (held_bytes self.old) next (content_bytes self.new) (held_bytes self.new)) }
        ensures none { IfNone result (AreUndecided (most_by most (held_bytes self.old)) (held_bytes self.old)) }
        ensures kept { IfNone result (held_bytes self.new ≡ held_bytes self.old) }
    {
        let held = self.as_slice();
        let most = most.of(held);
        if let Some(at) = first_feed(held, most) {
            let len = without_carriage_return(&held[..at]).len();
            self.pass(len, at + 1);
            return Some(NextContent::Content);
        }
        if held.len() < most {
            return None;
        }
        Some(NextContent::Overlong)
    }

    /// Passes the content that the held bytes are, where no others follow.
    fn last_content(&mut self) -> NextContent
        ensures { IsLast (held_bytes self.old) result (content_bytes self.new) (held_bytes self.new) }
    {
        let len = self.end - self.start;
        if len == 0 {
            return NextContent::End;
        }
        self.pass(len, len);
        NextContent::Content
    }

    /// Passes so many of the held bytes, whose first `len` are a content.
    fn pass(&mut self, len: usize, whole: usize)
        requires within { len ≤ whole }
        requires whole { whole ≤ length (held_bytes self.old) }
        ensures content { content_bytes self.new ≡ take len (held_bytes self.old) }
        ensures held { held_bytes self.new ≡ drop whole (held_bytes self.old) }
    {
        self.first = self.start;
        self.last = self.start + len;
        self.start += whole;
    }
}

/// Gives the contents of one source one by one, whether they are lines or not, and keeps what it has
/// read ahead of them.
///
/// A content ends where a line does, and may have any length, but of one that is overlong no more than
/// its first `most` bytes are read. Nothing is allocated.
#[derive(Drop)]
pub struct ContentReader {
    pub(crate) ahead: Ahead,
    pub(crate) given: u64,
    pub(crate) limit: u64,
    most: usize,
    ghost counted: { given ≤ limit },
    ghost limited: { limit ≤ MAX_LINES },
    ghost some: { 0 < most },
    ghost room: { most ≤ AHEAD },
}

impl ContentReader {
    ghost use Rattle.cif_columns.specs.ContentReader.{IsNextOf, IsNextWithin, content, given, held, limit, most_of};

    /// A reader that will give at most `max_contents` contents, of fewer than `most` bytes up to their
    /// line feeds.
    pub fn new(max_contents: u64, most: usize) -> Self
        requires max { max_contents ≤ MAX_LINES }
        requires some { 0 < most }
        requires room { most ≤ AHEAD }
        ensures held { held result ≡ [] }
        ensures given { given result ≡ 0 }
        ensures limit { limit result ≡ max_contents }
        ensures most { most_of result ≡ most }
    {
        ContentReader {
            ahead: Ahead::new(),
            given: 0,
            limit: max_contents,
            most,
        }
    }

    /// How many contents were given. One that is overlong isn't among them.
    pub fn line_number(&self) -> u64
        ensures { result ≡ given self.now }
    {
        self.given
    }

    /// The content that was given last, without its ending.
    pub fn content(&self) -> &[u8]
        ensures { result.now ≡ content self.now }
    {
        self.ahead.content()
    }

    /// Gives the next content of what is held and of what the source still gives.
    ///
    /// The source is read only while the held bytes decide no content, each time once. A content is
    /// decided by its line feed, by `most` bytes with none, by its first byte if it is one too many,
    /// and by the end of the input.
    pub fn next<R: ReadDevice>(&mut self, source: &mut Source<R>) -> Result<NextContent, LineFault>
        ensures { IsNextOf R.remaining R.read_errors self.old source.old result self.new source.new }
    {
        self.next_within(Most::Of(self.most), source)
    }

    /// Gives the next content as `next` does; this many bytes without a line feed are overlong.
    pub(crate) fn next_within<R: ReadDevice>(
        &mut self,
        most: Most,
        source: &mut Source<R>,
    ) -> Result<NextContent, LineFault>
        requires some { (bytes : List ℕ) → 0 < most_by most bytes }
        requires room { (bytes : List ℕ) → most_by most bytes ≤ AHEAD }
        ensures { IsNextWithin R.remaining R.read_errors most self.old source.old result self.new
            source.new }
    {
        if self.given == self.limit {
            let Ok(next) = self.ahead.next_content(Most::Of(1), source) else {
                return Err(LineFault::Read);
            };
            return match next {
                NextContent::End => Ok(NextContent::End),
                _ => Err(LineFault::Refused {
                    line: self.given + 1,
                    why: Refusal::TooManyLines,
                }),
            };
        }
        match self.ahead.next_content(most, source) {
            Ok(NextContent::Content) => {
                self.given += 1;
                Ok(NextContent::Content)
            }
            Ok(NextContent::Overlong) => Ok(NextContent::Overlong),
            Ok(NextContent::End) => Ok(NextContent::End),
            Err(_) => Err(LineFault::Read),
        }
    }
}

/// Whether the bytes begin as a comment does, with `/!!`.
#[tactic(auto, unfolding(crate::specs::Comment::begins_comment))]
fn begins_comment(bytes: &[u8]) -> bool
    ensures { result ≡ begins_comment bytes.now }
{
    bytes.starts_with(b"/!!")
}

/// Whether the content is a comment, which says nothing: it begins with `/!!`, and has at most 1,000 bytes,
/// whatever they are (files that others derive from CIF have them).
#[tactic(auto, unfolding(crate::specs::Comment::is_comment))]
pub(crate) fn is_comment(content: &[u8]) -> bool
    ensures { result ≡ is_comment content.now }
{
    begins_comment(content) && content.len() <= COMMENT_WIDTH
}

/// Where the first line feed is, if it is among the first `most` bytes.
fn first_feed(bytes: &[u8], most: usize) -> Option<usize>
    ensures { MatchOption result (HaveNoFeed (take most bytes.now)) (IsFirstFeed most bytes.now) }
{
    memchr(b'\n', &bytes[..bytes.len().min(most)])
}

/// The bytes without the one carriage return at their end.
fn without_carriage_return(bytes: &[u8]) -> &[u8]
    ensures { result.now ≡ strip_carriage_return bytes.now }
{
    match bytes {
        [start @ .., b'\r'] => start,
        _ => bytes,
    }
}
