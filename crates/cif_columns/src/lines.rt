//! Lines that are kept without the spaces at their ends, and lines as they are written.
ghost use Rattle.std.specs.Prelude.{◌≡◌, ◌++◌, ◌∷◌, [], ◌+◌, ◌-◌, ◌<◌, ◌≤◌, ◌↔◌, ◌==◌, OnOk, IfOk, IsTrue, All};
ghost use Rattle.std.specs.Prelude.{◌^◌, cond, drop, length, slice_index, slice_index_or, take};
ghost use Rattle.cif_columns.specs.{Contents.lines_text, Line.ArePrintable, Line.IsLine, Lines.is_space, Lines.used, Lines.wide};

use crate::line::{LINE_TEXT_WIDTH, LINE_WIDTH, Line, array_of};
use crate::text::left_justified;
use std::alloc::{AllocError, Global};
use std::marker::Model;

/// Lines, each kept without the spaces at its end. A clause sees the list of the lines.
#[derive(Debug, Drop)]
pub struct Lines {
    // Of each line the number of its columns up to the last that is no space, and these.
    kept: Vec<u8>,
}

impl Model for Lines {
    ghost use Rattle.std.specs.Prelude.{ℕ, List};
    ghost use Rattle.cif_columns.specs.Lines.{AreKept, lines_in};

    ghost Value = { List (List ℕ) };

    ghost view = { λ l. lines_in l.kept.items };

    ghost invariant = { λ l. AreKept l.kept.items };
}

impl Lines {
    /// No lines.
    pub fn new(alloc: Global) -> Lines
        ensures { result ≡ [] }
    {
        Lines {
            kept: Vec::new(alloc),
        }
    }

    /// A copy of the lines, with no spare capacity.
    pub fn of(alloc: Global, lines: &LineSlice<'_>) -> Result<Lines, AllocError>
        ensures { IfOk result (λ copy. copy ≡ lines.now) }
    {
        let kept = Vec::from_slice(alloc, lines.kept)?;
        Ok(Lines { kept })
    }

    /// Appends the line. After an error nothing is said of the lines.
    pub fn push(&mut self, line: &Line) -> Result<(), AllocError>
        ensures { OnOk result (self.new ≡ self.old ++ line.now ∷ []) }
    {
        self.push_columns(line.bytes())
    }

    /// Appends the line of these bytes, each of which may stand in one, as `push` does.
    #[inline(always)]
    pub fn push_columns(&mut self, columns: &[u8; LINE_WIDTH]) -> Result<(), AllocError>
        requires { ArePrintable columns.now }
        ensures { OnOk result (self.new ≡ self.old ++ columns.now ∷ []) }
    {
        // The compiler can tell that a copy doesn't lie where it is kept.
        let columns = *columns;
        self.kept.reserve(LINE_TEXT_WIDTH)?;
        let count = used_in_line(&columns);
        self.kept.push_reserved(count);
        let end = self.kept.as_slice().len() + usize::from(count);
        // To copy all columns takes less time than a copy whose size depends on them.
        let _ = self.kept.extend_from_slice(&columns);
        self.kept.truncate(end);
        Ok(())
    }

    /// Leaves no line, and keeps the room.
    pub fn clear(&mut self)
        ensures { self.new ≡ [] }
    {
        self.kept.clear();
    }

    /// All the lines.
    pub fn as_slice(&self) -> LineSlice<'_>
        ensures { result ≡ self.now }
    {
        LineSlice {
            kept: self.kept.as_slice(),
        }
    }
}

/// How many columns of a line there are up to the last that is no space.
// No branch depends on a column, so that the compiler can take sixteen of them at a time.
#[inline(always)]
fn used_in_line(columns: &[u8; LINE_WIDTH]) -> u8
    ensures { result ≡ used columns.now }
{
    let mut count = 0u8;
    for i in 0..LINE_WIDTH as u8 {
        count = count.max(end_of(columns, i));
    }
    count
}

/// How many columns there are up to this one, if it is no space.
#[inline(always)]
fn end_of(columns: &[u8; LINE_WIDTH], i: u8) -> u8
    requires { i < 80 }
    ensures { result ≡ cond (is_space (slice_index columns.now i)) 0 (i + 1) }
{
    if columns[usize::from(i)] == b' ' {
        0
    } else {
        i + 1
    }
}

/// How many columns there are up to the last that is no space.
// Most wide fields end in spaces, and one comparison of eight columns takes less time than eight.
#[inline(always)]
pub fn used_columns(columns: &[u8]) -> usize
    ensures value { result ≡ used columns.now }
    ensures bound { result ≤ length columns.now }
{
    match columns.strip_suffix(b"        ") {
        Some(columns) => count_used(columns),
        None => count_used(columns),
    }
}

/// `used_columns`, column by column.
#[inline(always)]
fn count_used(columns: &[u8]) -> usize
    ensures value { result ≡ used columns.now }
    ensures bound { result ≤ length columns.now }
{
    let mut count = 0;
    for i in 0..columns.len() {
        count = used_up_to(columns, i, count);
    }
    count
}

/// How many columns there are up to this one, or `count` if it is a space.
#[inline(always)]
fn used_up_to(columns: &[u8], i: usize, count: usize) -> usize
    requires { i < length columns.now }
    ensures { result ≡ cond (is_space (slice_index columns.now i)) count (i + 1) }
{
    if columns[i] == b' ' { count } else { i + 1 }
}

/// The greatest byte of each column that is used, and then spaces for those that aren't.
static MOST: [[u8; LINE_WIDTH]; 2] = [[b'~'; LINE_WIDTH], [b' '; LINE_WIDTH]];

/// The text of the line that has the first `count` columns, and then spaces.
// No branch depends on the count, so that the compiler can take sixteen columns at a time.
#[inline(always)]
fn widened(columns: &[u8; LINE_WIDTH], count: u8) -> [u8; LINE_TEXT_WIDTH]
    requires count { count ≤ 80 }
    requires printable { ArePrintable (take count columns.now) }
    ensures { result ≡ wide (take count columns.now) ++ 10 ∷ [] }
{
    let mut text = [b' '; LINE_TEXT_WIDTH];
    let (_, most) = MOST
        .as_flattened()
        .split_at(LINE_WIDTH - usize::from(count));
    for i in 0..LINE_WIDTH {
        text[i] = columns[i].min(most[i]).max(b' ');
    }
    text[LINE_WIDTH] = b'\n';
    text
}

/// Lines of `Lines`, from one of them to the last. A clause sees the list of them.
#[derive(Drop)]
pub struct LineSlice<'a> {
    kept: &'a [u8],
}

impl<'a> Model for LineSlice<'a> {
    ghost use Rattle.std.specs.Prelude.{ℕ, List};
    ghost use Rattle.cif_columns.specs.Lines.{AreKept, lines_in};

    ghost Value = { List (List ℕ) };

    ghost view = { λ s. lines_in s.kept.now };

    ghost invariant = { λ s. AreKept s.kept.now };
}

/// How many bytes come from memory at once.
const CACHE_LINE: usize = 64;

impl<'a> LineSlice<'a> {
    /// The same lines.
    pub fn copy(&self) -> LineSlice<'a>
        ensures { result ≡ self.now }
    {
        LineSlice { kept: self.kept }
    }

    /// Whether there is no line.
    pub fn is_empty(&self) -> bool
        ensures { result ≡ (length self.now == 0) }
    {
        self.kept.is_empty()
    }

    /// The first line.
    pub fn first(&self) -> Line
        requires { 0 < length self.now }
        ensures { result ≡ slice_index_or self.now 0 [] }
    {
        self.are_lines();
        let text = self.first_text();
        Line::of_printable(array_of(&text[..LINE_WIDTH]))
    }

    /// The lines behind the first.
    #[inline(always)]
    pub fn rest(&self) -> LineSlice<'a>
        requires { 0 < length self.now }
        ensures { result ≡ drop 1 self.now }
    {
        let (_, kept) = self.kept.split_at(1 + usize::from(self.kept[0]));
        LineSlice { kept }
    }

    /// The last line.
    pub fn last(&self) -> Line
        requires { 0 < length self.now }
        ensures { result ≡ slice_index_or self.now (length self.now - 1) [] }
    {
        let mut last = self.copy();
        let mut rest = last.rest();
        while !rest.is_empty() {
            let behind = rest.rest();
            last = rest;
            rest = behind;
        }
        last.first()
    }

    /// The text of the first line: its columns and a line feed.
    #[inline(always)]
    fn first_text(&self) -> [u8; LINE_TEXT_WIDTH]
        requires { 0 < length self.now }
        ensures { result ≡ slice_index_or self.now 0 [] ++ 10 ∷ [] }
    {
        let count = self.kept[0];
        let (_, columns) = self.kept.split_at(1);
        match columns.first_chunk::<LINE_WIDTH>() {
            Some(columns) => widened(columns, count),
            // The last lines of all.
            None => widened(&left_justified(columns), count),
        }
    }

    /// Always true. To answer, the lines have to come from memory. Ask this of the lines of several bodies
    /// before they are needed, and they all arrive in one wait.
    pub fn prefetch(&self) -> bool
        ensures { IsTrue result }
    {
        // One byte of each line of the cache, in few instructions: so more of them are asked for at once.
        let mut bits = 0u8;
        let mut at = 0;
        while at < self.kept.len() {
            bits |= self.kept[at];
            at += CACHE_LINE;
        }
        bits < 128
    }

    /// A law for proofs: each of them is a line.
    #[inline]
    pub fn are_lines(&self)
        ensures { All IsLine self.now }
    {
        let _ = &self.kept;
    }

    /// A law for proofs: there are fewer of them than 64 bits can count.
    #[inline]
    pub fn are_few(&self)
        ensures { length self.now < 2 ^ 63 }
    {
        let _ = self.kept.len();
    }

    /// Whether these are the same lines.
    pub fn is(&self, other: &LineSlice<'_>) -> bool
        ensures { IsTrue result ↔ (self.now ≡ other.now) }
    {
        // Lines are kept in one way.
        self.kept == other.kept
    }
}

/// The most lines of `LineTexts`.
const ROOM: usize = 64;

/// A line and others behind it, each with its line feed, so that they go out as they lie. A clause sees the
/// text of the one and that of the others.
#[derive(Drop)]
pub struct LineTexts {
    texts: [[u8; LINE_TEXT_WIDTH]; ROOM],
    count: usize,
}

impl Model for LineTexts {
    ghost use Rattle.std.specs.Prelude.{ℕ, List, [], ◌<◌, ◌≤◌, drop, slice_index_or, take};
    ghost use Rattle.std.specs.List.{flat_map};

    ghost Value = { List ℕ × List ℕ };

    ghost view = { λ t. (
      slice_index_or t.texts 0 [],
      flat_map (λ (text : List ℕ). text) (drop 1 (take t.count t.texts)),
    ) };

    ghost invariant = { λ t. (0 < t.count) × (t.count ≤ 64) };
}

impl LineTexts {
    /// Any line, and no others.
    pub fn new() -> LineTexts
        ensures { result.1 ≡ [] }
    {
        LineTexts {
            texts: [[b'\n'; LINE_TEXT_WIDTH]; ROOM],
            count: 1,
        }
    }

    /// Puts these lines in place of the others, as many as there is room for, and returns those that are left.
    pub fn take<'a>(&mut self, lines: LineSlice<'a>) -> LineSlice<'a>
        ensures { self.new.1 ++ lines_text result ≡ lines_text lines.entry }
    {
        let mut lines = lines;
        let mut count = 1;
        while count < ROOM && !lines.is_empty() {
            let text = lines.first_text();
            lines = lines.rest();
            self.texts[count] = text;
            count += 1;
        }
        self.count = count;
        lines
    }

    /// Puts the line before the others.
    pub fn set_first(&mut self, line: &Line)
        ensures { self.new ≡ (line.now ++ 10 ∷ [], self.old.1) }
    {
        self.texts[0] = line.text();
    }

    /// The text of all.
    pub fn text(&self) -> &[u8]
        ensures { result.now ≡ self.now.0 ++ self.now.1 }
    {
        self.texts[..self.count].as_flattened()
    }
}
