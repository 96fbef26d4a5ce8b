//! How the columns of a field are shown.
ghost use Rattle.std.specs.Prelude.{◌≡◌, length};
ghost use Rattle.cif_columns.specs.Line.{ArePrintable};
ghost use Rattle.cif_rows.specs.Row.{century, long_date};

/// How a table shows the columns of a field.
#[derive(Clone, Copy, PartialEq, Eq)]
pub enum Shape {
    /// Without the spaces at their end.
    Trimmed,
    /// As they stand: those of a UID.
    Whole,
    /// As a date YYYY-MM-DD: six digits YYMMDD.
    Date,
    /// As a number: decimal digits, as many as it takes.
    Number,
}

/// How a line of text lays out a field.
#[derive(Clone, Copy, PartialEq, Eq)]
pub enum Padding {
    /// With a space before the next field.
    Apart,
    /// With the next field directly after it: a location before its suffix.
    Joined,
    /// Not at all: only tables have it.
    Hidden,
}

/// The date YYYY-MM-DD of six digits YYMMDD. The years 60 to 99 are 1960 to 1999.
pub fn long_date(yymmdd: &[u8]) -> [u8; 10]
    requires { length yymmdd.now ≡ 6 }
    ensures text { result ≡ long_date yymmdd.now }
    ensures printable { ArePrintable yymmdd.now → ArePrintable result }
{
    let [a, b] = century(yymmdd[0]);
    [
        a, b, yymmdd[0], yymmdd[1], b'-', yymmdd[2], yymmdd[3], b'-', yymmdd[4], yymmdd[5],
    ]
}

/// The first two digits of a year, by the first one of its last two.
fn century(digit: u8) -> [u8; 2]
    ensures { result ≡ century digit }
{
    if digit < b'6' { *b"20" } else { *b"19" }
}
