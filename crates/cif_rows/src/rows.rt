//! Rows that are written field by field, through a buffer.
ghost use Rattle.std.specs.Prelude.{◌≡◌, ◌<◌, ◌≤◌, ◌+◌, ◌*◌, ◌++◌, ◌∷◌, [], All, IsTrue, codes, cond, drop, length, map, take};
ghost use Rattle.std.specs.List.{flat_map};
ghost use Rattle.cif_rows.specs.{Adds.Adds, Appended.IsAppended};
ghost use Rattle.cif_rows.specs.Row.{absent, cell, escape, is_escaped, member, named, number_field, padded, text, text_value, value_text, without_last};
ghost use Rattle.cif_rows.specs.declared.{format.Format.TheVariants.Json, shape.Padding.TheVariants.Apart, shape.Shape.TheVariants.Number};
ghost use Rattle.cif_rows.specs.Steps.{AreOfShape, IsOfShape, IsPlain, are_short, closing, field_text, fields_of, fields_text, name_text};
ghost use Rattle.cif_rows.specs.Steps.{names_ended, names_text, opening, room_for, texts, width_of};

use crate::format::{Format, RowFormat};
use crate::numeral::Numeral;
use crate::shape::{Padding, Shape, long_date};
use cif_columns::{Sink, WriteDevice, digits_of, used_columns};
use std::marker::{Model, PhantomData};

/// The bytes that wait at most.
const ROOM: usize = 1280;

/// With more bytes than so many, fields of a line may have no room.
const FULL: usize = 640;

/// A field: its name, how a line of text lays it out, how a table shows its columns, and its columns.
pub type GivenField<'a> = (&'a str, Padding, Shape, &'a [u8]);

/// Rows in the format `F`. A clause sees the text that waits to be written.
#[derive(Drop)]
pub struct Rows<F> {
    bytes: [u8; ROOM],
    len: usize,
    format: PhantomData<F>,
}

impl<F> Model for Rows<F> {
    ghost use Rattle.std.specs.Prelude.{◌≤◌, ℕ, List, take};

    ghost Value = { List ℕ };

    ghost view = { λ r. take r.len r.bytes };

    ghost invariant = { λ r. r.len ≤ 1280 };
}

impl<F: RowFormat> Rows<F> {
    /// No row yet.
    pub fn new() -> Rows<F>
        ensures { result ≡ [] }
    {
        Rows {
            bytes: [b'\n'; ROOM],
            len: 0,
            format: PhantomData,
        }
    }

    /// Appends the first `count` of these columns.
    // To copy all columns takes less time than a copy whose size depends on them.
    #[inline(always)]
    fn append(&mut self, columns: &[u8], count: usize)
        requires count { count ≤ length columns.now }
        requires room { length self.old + length columns.now ≤ ROOM }
        ensures { self.new ≡ self.old ++ take count columns.now }
    {
        self.len = put(&mut self.bytes, self.len, columns, count);
    }

    /// Appends a byte.
    #[inline(always)]
    fn append_byte(&mut self, byte: u8)
        requires room { length self.old < ROOM }
        ensures { self.new ≡ self.old ++ (byte ∷ []) }
    {
        self.append(&[byte], 1);
    }

    /// Appends all these columns.
    #[inline(always)]
    fn append_all(&mut self, columns: &[u8])
        requires room { length self.old + length columns.now ≤ ROOM }
        ensures { self.new ≡ self.old ++ columns.now }
    {
        self.append(columns, columns.len());
    }

    /// Appends the cell of these columns.
    #[inline(always)]
    fn append_cell(&mut self, shape: Shape, columns: &[u8])
        requires field { IsOfShape shape columns.now }
        requires room { length self.old + width_of shape columns.now ≤ ROOM }
        ensures text { self.new ≡ self.old ++ cell shape columns.now }
        ensures len { length self.new ≤ length self.old + width_of shape columns.now }
    {
        match shape {
            Shape::Trimmed => self.append(columns, used_columns(columns)),
            Shape::Whole | Shape::Number => self.append_all(columns),
            Shape::Date => self.append_all(&long_date(columns)),
        }
    }

    /// Appends the columns of a field of a line of text, and what stands after them.
    fn append_padded(&mut self, padding: Padding, columns: &[u8])
        requires room { length self.old + length columns.now + 1 ≤ ROOM }
        ensures { self.new ≡ self.old ++ padded padding columns.now }
    {
        match padding {
            Padding::Apart => {
                self.append_all(columns);
                self.append_byte(b' ');
            }
            Padding::Joined => self.append_all(columns),
            Padding::Hidden => {}
        }
    }

    /// Appends the value of the first `count` of these columns as a text, or null if there is none.
    #[inline(always)]
    fn append_text(&mut self, columns: &[u8], count: usize)
        requires count { count ≤ length columns.now }
        requires room { length self.old + 2 * length columns.now + 4 ≤ ROOM }
        ensures text { self.new ≡ self.old ++ text_value (take count columns.now) }
        ensures len { length self.new ≤ length self.old + 2 * length columns.now + 4 }
    {
        if count == 0 {
            self.append_all(b"null");
        } else if is_plain(columns) {
            self.append_byte(b'"');
            self.append(columns, count);
            self.append_byte(b'"');
        } else {
            self.append_byte(b'"');
            self.append_escaped(&columns[..count]);
            self.append_byte(b'"');
        }
    }

    /// Appends the value of all these columns as a text.
    #[inline(always)]
    fn append_whole(&mut self, columns: &[u8])
        requires room { length self.old + 2 * length columns.now + 4 ≤ ROOM }
        ensures text { self.new ≡ self.old ++ text_value columns.now }
        ensures len { length self.new ≤ length self.old + 2 * length columns.now + 4 }
    {
        self.append_text(columns, columns.len());
    }

    /// Appends a text with a backslash before each quote and each backslash.
    #[inline(never)]
    fn append_escaped(&mut self, text: &[u8])
        requires room { length self.old + 2 * length text.now ≤ ROOM }
        ensures text { self.new ≡ self.old ++ flat_map escape text.now }
        ensures len { length self.new ≤ length self.old + 2 * length text.now }
    {
        for byte in text {
            if is_escaped(*byte) {
                self.append_byte(b'\\');
            }
            self.append_byte(*byte);
        }
    }

    /// Appends the value of these columns.
    #[inline(always)]
    fn append_value(&mut self, shape: Shape, columns: &[u8])
        requires field { IsOfShape shape columns.now }
        requires room { length self.old + 2 * width_of shape columns.now + 4 ≤ ROOM }
        ensures text { self.new ≡ self.old ++ value_text shape (cell shape columns.now) }
        ensures len { length self.new ≤ length self.old + 2 * width_of shape columns.now + 4 }
    {
        match shape {
            Shape::Trimmed => self.append_text(columns, used_columns(columns)),
            Shape::Whole => self.append_whole(columns),
            Shape::Date => self.append_whole(&long_date(columns)),
            Shape::Number => self.append_number(columns),
        }
    }

    /// Appends the first `count` of these digits, or null if there is none.
    #[inline(always)]
    fn append_digits(&mut self, digits: &[u8], count: usize)
        requires count { count ≤ length digits.now }
        requires room { length self.old + length digits.now + 4 ≤ ROOM }
        ensures text { self.new ≡ self.old ++ value_text Number (take count digits.now) }
        ensures len { length self.new ≤ length self.old + length digits.now + 4 }
    {
        if count == 0 {
            self.append_all(b"null");
        } else {
            self.append(digits, count);
        }
    }

    /// Appends a number.
    #[inline(always)]
    fn append_number(&mut self, digits: &[u8])
        requires room { length self.old + length digits.now + 4 ≤ ROOM }
        ensures text { self.new ≡ self.old ++ value_text Number digits.now }
        ensures len { length self.new ≤ length self.old + length digits.now + 4 }
    {
        self.append_digits(digits, digits.len());
    }

    /// Appends a member of an object, and a comma.
    #[inline(always)]
    fn append_member(&mut self, name: &str, shape: Shape, columns: &[u8])
        requires field { IsOfShape shape columns.now }
        requires room { length self.old + length name.now + 2 * width_of shape columns.now + 8 ≤ ROOM }
        ensures text { self.new ≡ self.old ++ (((34 ∷ name.now) ++ (codes "\":" ++ value_text shape (cell shape columns.now))) ++ codes ",") }
        ensures len { length self.new ≤ length self.old + length name.now + 2 * width_of shape columns.now + 8 }
    {
        self.append_name(name);
        self.append_value(shape, columns);
        self.append_byte(b',');
    }

    /// Appends the name of a member, up to its value.
    #[inline(always)]
    fn append_name(&mut self, name: &str)
        requires room { length self.old + length name.now + 3 ≤ ROOM }
        ensures { self.new ≡ self.old ++ ((34 ∷ name.now) ++ codes "\":") }
    {
        let bytes = &mut self.bytes;
        let at = put_array(bytes, self.len, *b"\"");
        let at = put(bytes, at, name.as_bytes(), name.len());
        self.len = put_array(bytes, at, *b"\":");
    }

    /// Appends a member of an object whose text are the first `count` of these columns, and a comma.
    #[inline(always)]
    fn append_plain_member(&mut self, name: &str, columns: &[u8], count: usize)
        requires count { count ≤ length columns.now }
        requires plain { All IsPlain columns.now }
        requires room { length self.old + length name.now + length columns.now + 8 ≤ ROOM }
        ensures text { self.new ≡ self.old ++ (((34 ∷ name.now) ++ (codes "\":" ++ text_value (take count columns.now))) ++ codes ",") }
        ensures len { length self.new ≤ length self.old + length name.now + length columns.now + 8 }
    {
        let bytes = &mut self.bytes;
        let at = put_array(bytes, self.len, *b"\"");
        let at = put(bytes, at, name.as_bytes(), name.len());
        if count == 0 {
            self.len = put_array(bytes, at, *b"\":null,");
        } else {
            let at = put_array(bytes, at, *b"\":\"");
            let at = put(bytes, at, columns, count);
            self.len = put_array(bytes, at, *b"\",");
        }
    }

    /// Appends a field, for which there is room.
    #[inline(always)]
    pub fn push_within(&mut self, name: &str, padding: Padding, shape: Shape, columns: &[u8])
        requires field { IsOfShape shape columns.now }
        requires room { length self.old + length name.now + 2 * width_of shape columns.now + 8 ≤ ROOM }
        ensures text { self.new ≡ self.old ++ field_text F.FORMAT
            (record { name = name.now; padding = padding; shape = shape; columns = columns.now }) }
        ensures len { length self.new ≤ length self.old + length name.now + 2 * width_of shape columns.now + 8 }
    {
        match F::FORMAT {
            Format::Text => self.append_padded(padding, columns),
            Format::Tsv => {
                self.append_cell(shape, columns);
                self.append_byte(b'\t');
            }
            Format::Json => self.append_member(name, shape, columns),
        }
    }

    /// Appends a text that JSON shows as it is, for which there is room.
    #[inline(always)]
    pub fn push_plain_within(&mut self, name: &str, columns: &[u8])
        requires plain { F.FORMAT ≡ Json → All IsPlain columns.now }
        requires room { length self.old + length name.now + 2 * length columns.now + 8 ≤ ROOM }
        ensures text { self.new ≡ self.old ++ field_text F.FORMAT (named name.now (text columns.now)) }
        ensures len { length self.new ≤ length self.old + length name.now + 2 * length columns.now + 8 }
    {
        match F::FORMAT {
            Format::Text | Format::Tsv => {
                self.push_within(name, Padding::Apart, Shape::Trimmed, columns)
            }
            Format::Json => self.append_plain_member(name, columns, used_columns(columns)),
        }
    }

    /// Replaces the last byte, which is what stands after a field.
    #[inline(always)]
    fn replace_last(&mut self, byte: u8)
        ensures { self.new ≡ without_last self.old ++ (byte ∷ []) }
    {
        if self.len > 0 {
            self.len -= 1;
        }
        self.append_byte(byte);
    }

    /// Makes room for the fields of a line. The last byte goes on waiting, as the end of a row may replace it.
    #[inline(always)]
    pub fn make_room<W: WriteDevice>(&mut self, sink: &mut Sink<W>)
        ensures adds { Adds W.contents W.write_errors [] sink.old sink.new self.old self.new }
        ensures room { length self.new ≤ FULL }
    {
        if self.len > FULL {
            self.write_most(sink);
        }
    }

    /// Writes all bytes but the last.
    #[cold]
    #[inline(never)]
    fn write_most<W: WriteDevice>(&mut self, sink: &mut Sink<W>)
        requires { 0 < length self.old }
        ensures adds { Adds W.contents W.write_errors [] sink.old sink.new self.old self.new }
        ensures one { length self.new ≡ 1 }
    {
        let last = self.bytes[self.len - 1];
        let _ = sink.write_all(&self.bytes[..self.len - 1]);
        self.len = 0;
        self.append_byte(last);
    }

    /// Writes what waits.
    pub fn finish<W: WriteDevice>(self, sink: &mut Sink<W>)
        ensures { IsAppended W.contents W.write_errors self sink.old sink.new }
    {
        let _ = sink.write_all(&self.bytes[..self.len]);
    }

    /// Begins a row.
    #[inline(always)]
    pub fn begin_row<W: WriteDevice>(&mut self, sink: &mut Sink<W>)
        ensures { Adds W.contents W.write_errors (opening F.FORMAT) sink.old sink.new self.old self.new }
    {
        match F::FORMAT {
            Format::Text | Format::Tsv => {}
            Format::Json => {
                self.make_room(sink);
                self.append_byte(b'{');
            }
        }
    }

    /// Ends a row: what stands after its last field makes place.
    #[inline(always)]
    pub fn end_row<W: WriteDevice>(&mut self, sink: &mut Sink<W>)
        ensures { Adds W.contents W.write_errors (drop 1 (closing F.FORMAT)) sink.old sink.new
            (without_last self.old ++ take 1 (closing F.FORMAT)) self.new }
    {
        match F::FORMAT {
            Format::Text | Format::Tsv => self.replace_last(b'\n'),
            Format::Json => {
                self.replace_last(b'}');
                self.make_room(sink);
                self.append_byte(b'\n');
            }
        }
    }

    /// Adds a field to the row.
    #[inline(always)]
    pub fn push<W: WriteDevice>(
        &mut self,
        sink: &mut Sink<W>,
        name: &str,
        padding: Padding,
        shape: Shape,
        columns: &[u8],
    )
        requires field { IsOfShape shape columns.now }
        requires narrow { length name.now + 2 * width_of shape columns.now ≤ 400 }
        ensures { Adds W.contents W.write_errors
            (field_text F.FORMAT (record { name = name.now; padding = padding; shape = shape; columns = columns.now }))
            sink.old sink.new self.old self.new }
    {
        self.make_room(sink);
        self.push_within(name, padding, shape, columns);
    }

    /// Adds a number to the row.
    pub fn push_number<W: WriteDevice>(&mut self, sink: &mut Sink<W>, name: &str, number: usize)
        requires narrow { length name.now ≤ 300 }
        ensures { Adds W.contents W.write_errors (field_text F.FORMAT (number_field name.now number))
            sink.old sink.new self.old self.new }
    {
        if number < 10 {
            self.push(
                sink,
                name,
                Padding::Apart,
                Shape::Number,
                &[b'0' + number as u8],
            );
        } else if number < 100 {
            self.push(
                sink,
                name,
                Padding::Apart,
                Shape::Number,
                &digits_of(number as u8),
            );
        } else {
            self.push_long_number(sink, name, number);
        }
    }

    /// Adds a number of any length to the row.
    #[inline(never)]
    fn push_long_number<W: WriteDevice>(&mut self, sink: &mut Sink<W>, name: &str, number: usize)
        requires narrow { length name.now ≤ 300 }
        ensures { Adds W.contents W.write_errors (field_text F.FORMAT (number_field name.now number))
            sink.old sink.new self.old self.new }
    {
        self.push_numeral(sink, name, &Numeral::of(number));
    }

    /// Adds to the row a number that is written out already.
    #[inline(always)]
    pub fn push_numeral<W: WriteDevice>(&mut self, sink: &mut Sink<W>, name: &str, number: &Numeral)
        requires narrow { length name.now ≤ 300 }
        ensures { Adds W.contents W.write_errors
            (field_text F.FORMAT (record { name = name.now; padding = Apart; shape = Number; columns = number.now }))
            sink.old sink.new self.old self.new }
    {
        self.make_room(sink);
        let (digits, count) = (&number.digits, number.count);
        match F::FORMAT {
            Format::Text => {
                self.append(digits, count);
                self.append_byte(b' ');
            }
            Format::Tsv => {
                self.append(digits, count);
                self.append_byte(b'\t');
            }
            Format::Json => {
                self.append_name(name);
                self.append_digits(digits, count);
                self.append_byte(b',');
            }
        }
    }

    /// Adds the name of a field, if names stand before the rows.
    pub fn push_name<W: WriteDevice>(&mut self, sink: &mut Sink<W>, name: &str)
        requires narrow { length name.now < FULL }
        ensures { Adds W.contents W.write_errors (name_text F.FORMAT name.now) sink.old sink.new self.old self.new }
    {
        match F::FORMAT {
            Format::Text | Format::Json => {}
            Format::Tsv => {
                self.make_room(sink);
                self.append_all(name.as_bytes());
                self.append_byte(b'\t');
            }
        }
    }

    /// Ends the names of the fields.
    pub fn end_names(&mut self)
        ensures { self.new ≡ names_ended F.FORMAT self.old }
    {
        match F::FORMAT {
            Format::Text | Format::Json => {}
            Format::Tsv => self.replace_last(b'\n'),
        }
    }

    /// Adds fields to the row.
    #[inline(always)]
    pub fn push_fields<W: WriteDevice>(&mut self, sink: &mut Sink<W>, fields: &[GivenField<'_>])
        requires fields { AreOfShape (fields_of fields.now) }
        requires narrow { room_for (fields_of fields.now) ≤ FULL }
        ensures { Adds W.contents W.write_errors (fields_text F.FORMAT (fields_of fields.now)) sink.old sink.new self.old self.new }
    {
        self.make_room(sink);
        self.push_fields_within(fields);
    }

    /// Adds fields, for which there is room.
    #[inline(always)]
    pub fn push_fields_within(&mut self, fields: &[GivenField<'_>])
        requires fields { AreOfShape (fields_of fields.now) }
        requires room { length self.old + room_for (fields_of fields.now) ≤ ROOM }
        ensures text { self.new ≡ self.old ++ fields_text F.FORMAT (fields_of fields.now) }
        ensures len { length self.new ≤ length self.old + room_for (fields_of fields.now) }
    {
        for field in fields {
            self.push_within(field.0, field.1, field.2, field.3);
        }
    }

    /// Adds empty fields that the record doesn't have.
    pub fn push_absent<W: WriteDevice>(&mut self, sink: &mut Sink<W>, names: &[&str])
        requires narrow { room_for (map absent (texts names.now)) ≤ FULL }
        ensures { Adds W.contents W.write_errors (fields_text F.FORMAT (map absent (texts names.now)))
            sink.old sink.new self.old self.new }
    {
        self.make_room(sink);
        self.push_absent_within(names);
    }

    /// Adds empty fields that the record doesn't have, for which there is room.
    #[inline(always)]
    pub fn push_absent_within(&mut self, names: &[&str])
        requires room { length self.old + room_for (map absent (texts names.now)) ≤ ROOM }
        ensures text { self.new ≡ self.old ++ fields_text F.FORMAT (map absent (texts names.now)) }
        ensures len { length self.new ≤ length self.old + room_for (map absent (texts names.now)) }
    {
        for name in names {
            self.push_within(name, Padding::Hidden, Shape::Trimmed, b"");
        }
    }

    /// Adds fields that were added to other rows, which have nothing else.
    #[inline(always)]
    pub fn push_kept<W: WriteDevice>(&mut self, sink: &mut Sink<W>, kept: &Rows<F>)
        requires narrow { length kept.now ≤ FULL }
        ensures { Adds W.contents W.write_errors kept.now sink.old sink.new self.old self.new }
    {
        self.make_room(sink);
        self.append_all(&kept.bytes[..kept.len]);
    }

    /// Adds the names of fields, if names stand before the rows.
    pub fn push_names<W: WriteDevice>(&mut self, sink: &mut Sink<W>, names: &[&str])
        requires short { IsTrue (are_short (texts names.now)) }
        ensures { Adds W.contents W.write_errors (names_text F.FORMAT (texts names.now)) sink.old sink.new self.old self.new }
    {
        for name in names {
            self.push_name(sink, name);
        }
    }

    /// Adds these bytes of JSON.
    fn push_json<W: WriteDevice>(&mut self, sink: &mut Sink<W>, bytes: &[u8])
        requires few { length bytes.now ≤ 100 }
        ensures { Adds W.contents W.write_errors bytes.now sink.old sink.new self.old self.new }
    {
        self.make_room(sink);
        self.append_all(bytes);
    }

    /// Begins the calls of a row of JSON, which are its last field.
    pub fn begin_calls<W: WriteDevice>(&mut self, sink: &mut Sink<W>)
        ensures { Adds W.contents W.write_errors (codes "\"calls\":[") sink.old sink.new self.old self.new }
    {
        self.push_json(sink, b"\"calls\":[");
    }

    /// Begins one of them.
    pub fn begin_call<W: WriteDevice>(&mut self, sink: &mut Sink<W>)
        ensures { Adds W.contents W.write_errors (codes "{") sink.old sink.new self.old self.new }
    {
        self.push_json(sink, b"{");
    }

    /// Ends it: what stands after its last field makes place.
    pub fn end_call<W: WriteDevice>(&mut self, sink: &mut Sink<W>)
        ensures { Adds W.contents W.write_errors (codes ",") sink.old sink.new
            (without_last self.old ++ codes "}") self.new }
    {
        self.replace_last(b'}');
        self.push_json(sink, b",");
    }

    /// Ends the calls: what stands after the last one makes place.
    pub fn end_calls<W: WriteDevice>(&mut self, sink: &mut Sink<W>)
        ensures { Adds W.contents W.write_errors (codes ",") sink.old sink.new
            (without_last self.old ++ codes "]") self.new }
    {
        self.replace_last(b']');
        self.push_json(sink, b",");
    }

    /// Adds to a row of JSON that it has no calls.
    pub fn push_no_calls<W: WriteDevice>(&mut self, sink: &mut Sink<W>)
        ensures { Adds W.contents W.write_errors (codes "\"calls\":[],") sink.old sink.new self.old self.new }
    {
        self.push_json(sink, b"\"calls\":[],");
    }
}

/// Copies columns to this place, and returns the place after the first `count` of them.
#[inline(always)]
fn put(bytes: &mut [u8; ROOM], at: usize, columns: &[u8], count: usize) -> usize
    requires count { count ≤ length columns.now }
    requires room { at + length columns.now ≤ ROOM }
    ensures text { take result bytes.new ≡ take at bytes.old ++ take count columns.now }
    ensures at { result ≡ at + count }
{
    bytes[at..at + columns.len()].copy_from_slice(columns);
    at + count
}

/// Puts letters at this place, and returns the place after them.
// The compiler knows that a copy is no part of the bytes.
#[inline(always)]
fn put_array<const N: usize>(bytes: &mut [u8; ROOM], at: usize, letters: [u8; N]) -> usize
    requires { at + N ≤ ROOM }
    ensures text { take result bytes.new ≡ take at bytes.old ++ letters.entry }
    ensures at { result ≡ at + N }
{
    put(bytes, at, &letters, N)
}

/// Whether the bytes stand in a text of JSON as they are.
// No branch depends on a byte, so that the compiler can take sixteen of them at a time.
#[inline(always)]
pub fn is_plain(bytes: &[u8]) -> bool
    ensures { IsTrue result → All IsPlain bytes.now }
{
    let mut escaped = 0u8;
    for byte in bytes {
        escaped = escaped.max(escape_mark(*byte));
    }
    escaped == 0
}

/// 1 if a text of JSON has a backslash before this byte, and else 0.
#[inline(always)]
fn escape_mark(byte: u8) -> u8
    ensures { result ≡ cond (is_escaped byte) 1 0 }
{
    if is_escaped(byte) { 1 } else { 0 }
}

/// Whether a text of JSON has a backslash before this byte.
#[inline(always)]
fn is_escaped(byte: u8) -> bool
    ensures { result ≡ is_escaped byte }
{
    byte == b'"' || byte == b'\\'
}
