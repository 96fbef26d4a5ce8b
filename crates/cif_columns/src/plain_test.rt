//! Whether a line is the plain line of its kind, found in one pass with no branch on what stands in it.
ghost use Rattle.std.specs.Prelude.{◌≡◌, ◌<◌, ◌≤◌, ◌↔◌, List, IsTrue, true, false};
ghost use Rattle.cif_columns.specs.{Field.Row, Line.IsLine};
ghost use Rattle.cif_columns.specs.PlainTest.{IsFollowed, IsFollowedOver, IsInRange, IsPlainLineOf};
ghost use Rattle.cif_columns.specs.PlainTest.{IsTimed, Passes, asks_all, asks_printable, read_off};

use crate::line::{FIFTH, LINE_WIDTH, Line};

/// What a plain line of one kind has in its columns, column by column, as tables that loops read.
/// The last four have `~` where they ask for nothing.
pub struct PlainTest {
    /// The least byte of each column.
    pub least: [u8; LINE_WIDTH],
    /// The greatest byte of each column.
    pub most: [u8; LINE_WIDTH],
    /// A byte that each column may have besides.
    pub also: [u8; LINE_WIDTH],
    /// A space where a space asks for one in the next column: columns 1 to 79.
    pub next: [u8; 79],
    /// A space where a space asks for one in the column after the next: columns 1 to 64.
    pub over: [u8; 64],
    /// A space where a space in the next column asks for one: columns 1 to 32.
    pub back: [u8; 32],
    /// A `2` where a `2` asks for at most `3` in the next column: columns 1 to 32.
    pub hour: [u8; 32],
}

impl PlainTest {
    /// `passes` for columns that may be no line. Where the tables have bytes of lines alone, columns
    /// that pass are one.
    #[inline(always)]
    pub fn passes_columns(&self, columns: &[u8; LINE_WIDTH]) -> bool
        ensures exact { IsTrue result ↔ Passes self.now columns.now }
        ensures line { IsTrue result → asks_printable self.now ≡ true → IsLine columns.now }
        ensures plain { IsTrue result → asks_printable self.now ≡ true → (rows : List Row)
            → asks_all self.now rows ≡ true → read_off columns.now rows ≡ rows
            → IsPlainLineOf rows columns.now }
    {
        has_all(columns, self)
    }

    /// Whether the line has all that the tables ask for. Then it spells each table of a record that
    /// the test asks for, with the values that stand in it, and is the plain line of that. A `false`
    /// costs time alone: some plain lines with rare contents get it too.
    // A caller's tables are constants: inlined there, they are constants of the code.
    #[inline(always)]
    pub fn passes(&self, line: &Line) -> bool
        ensures exact { IsTrue result ↔ Passes self.now line.now }
        ensures plain { IsTrue result → (rows : List Row) → asks_all self.now rows ≡ true
            → read_off line.now rows ≡ rows → IsPlainLineOf rows line.now }
    {
        has_all(line.bytes(), self)
    }
}

/// Whether each column passes, without what that means for tables: this has a proof of its own.
// A step looks at one column of each fifth, and no branch ends the loop.
#[inline(always)]
fn has_all(columns: &[u8; LINE_WIDTH], test: &PlainTest) -> bool
    ensures { IsTrue result ↔ Passes test.now columns.now }
{
    let mut fails = false;
    for i in 0..FIFTH {
        fails |= fails_followed(columns, test, i)
            | is_untimed(columns, test, i)
            | fails_followed(columns, test, FIFTH + i)
            | is_untimed(columns, test, FIFTH + i)
            | fails_followed(columns, test, 2 * FIFTH + i)
            | fails_followed(columns, test, 3 * FIFTH + i)
            | is_unfollowed(columns, test, 4 * FIFTH - 1 + i)
            | is_out_of_range(columns, test, 4 * FIFTH + i);
    }
    !fails
}

/// Whether one of the first 64 columns isn't in range, or isn't followed by what the test requires.
#[inline(always)]
fn fails_followed(columns: &[u8; LINE_WIDTH], test: &PlainTest, i: usize) -> bool
    requires { i < 64 }
    ensures { result ≡ false ↔ (IsInRange test.now columns.now i × IsFollowed test.now columns.now i
        × IsFollowedOver test.now columns.now i) }
{
    is_out_of_range(columns, test, i)
        | is_unfollowed(columns, test, i)
        | lacks_space(test.over[i], columns[i], columns[i + 2])
}

/// Whether the column's byte isn't in its range, and isn't the other byte.
#[inline(always)]
fn is_out_of_range(columns: &[u8; LINE_WIDTH], test: &PlainTest, i: usize) -> bool
    requires { i < 80 }
    ensures { result ≡ false ↔ IsInRange test.now columns.now i }
{
    is_beyond(columns[i], test.least[i], test.most[i]) & (columns[i] != test.also[i])
}

/// Whether the byte is less than the least, or greater than the most.
// Where these two are constants, one comparison is left.
#[inline(always)]
fn is_beyond(b: u8, least: u8, most: u8) -> bool
    ensures { result ≡ false ↔ (least ≤ b × b ≤ most) }
{
    (b.wrapping_sub(least) > most.wrapping_sub(least)) | (least > most)
}

/// Whether the column is a space that asks for one in the next column, where none is.
#[inline(always)]
fn is_unfollowed(columns: &[u8; LINE_WIDTH], test: &PlainTest, i: usize) -> bool
    requires { i < 79 }
    ensures { result ≡ false ↔ IsFollowed test.now columns.now i }
{
    lacks_space(test.next[i], columns[i], columns[i + 1])
}

/// Whether one of the first 32 columns and the next one aren't as the test wants it of a time.
#[inline(always)]
fn is_untimed(columns: &[u8; LINE_WIDTH], test: &PlainTest, i: usize) -> bool
    requires { i < 32 }
    ensures { result ≡ false ↔ IsTimed test.now columns.now i }
{
    let b = columns[i];
    let next = columns[i + 1];
    lacks_space(test.back[i], next, b) | lacks_three(test.hour[i], b, next)
}

/// Whether a space that asks for another one lacks it.
#[inline(always)]
fn lacks_space(asking: u8, b: u8, other: u8) -> bool
    ensures { result ≡ false ↔ (asking ≡ 32 → b ≡ 32 → other ≡ 32) }
{
    (asking == b' ') & (b == b' ') & (other != b' ')
}

/// Whether a `2` that asks for at most `3` lacks it.
#[inline(always)]
fn lacks_three(asking: u8, b: u8, other: u8) -> bool
    ensures { result ≡ false ↔ (asking ≡ 50 → b ≡ 50 → other ≤ 51) }
{
    (asking == b'2') & (b == b'2') & (other > b'3')
}
