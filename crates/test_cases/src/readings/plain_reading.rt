//! What whole contents say, plainly: why a line is refused by those before it, and which records an
//! extract has. It is written from the rules of the format and shares nothing with the reader but
//! the records' own reading.
use cif_columns::{Line, Refusal};
use cif_extract::{Body, Call, Calls, Extract, Schedule};
use cif_records::{Association, Basic, Header, Kind, Record, Tiploc, read_record};
use std::alloc::{AllocError, Global};

/// The contents of the lines: what stands before each line feed, without one carriage return
/// directly before it, and what stands after the last line feed, if anything does.
pub(crate) fn contents_of(alloc: Global, bytes: &[u8]) -> Result<Vec<&[u8]>, AllocError> {
    let mut contents = Vec::new(alloc);
    let mut content_from = 0;
    for (at, byte) in bytes.iter().enumerate() {
        if *byte == b'\n' {
            let content = bytes.get(content_from..at).unwrap_or(b"");
            contents.push(match content {
                [start @ .., b'\r'] => start,
                _ => content,
            })?;
            content_from = at.saturating_add(1);
        }
    }
    match bytes.get(content_from..) {
        None | Some([]) => {}
        Some(rest) => contents.push(rest)?,
    }
    Ok(contents)
}

/// The kind that the first two columns name.
fn kind_at(content: &[u8]) -> Option<Kind> {
    match content {
        [b'H', b'D', ..] => Some(Kind::Hd),
        [b'T', b'I', ..] => Some(Kind::Ti),
        [b'T', b'A', ..] => Some(Kind::Ta),
        [b'T', b'D', ..] => Some(Kind::Td),
        [b'A', b'A', ..] => Some(Kind::Aa),
        [b'B', b'S', ..] => Some(Kind::Bs),
        [b'B', b'X', ..] => Some(Kind::Bx),
        [b'L', b'O', ..] => Some(Kind::Lo),
        [b'L', b'I', ..] => Some(Kind::Li),
        [b'C', b'R', ..] => Some(Kind::Cr),
        [b'L', b'T', ..] => Some(Kind::Lt),
        [b'Z', b'Z', ..] => Some(Kind::Zz),
        _ => None,
    }
}

/// Whether the last BS among these contents has the letter C.
fn is_cancelled(before: &[&[u8]]) -> bool {
    let mut is_cancelled = false;
    for content in before {
        if kind_at(content) == Some(Kind::Bs) {
            is_cancelled = content.get(79).copied() == Some(b'C');
        }
    }
    is_cancelled
}

/// Whether a record of this kind may stand after these contents.
fn may_follow(before: &[&[u8]], kind: Kind) -> bool {
    let Some(last) = before.last() else {
        return kind == Kind::Hd;
    };
    let may_stand: &[Kind] = match (kind_at(last), is_cancelled(before)) {
        (Some(Kind::Hd | Kind::Ti), _) => &[
            Kind::Ti,
            Kind::Ta,
            Kind::Td,
            Kind::Aa,
            Kind::Bs,
            Kind::Zz,
        ],
        (Some(Kind::Aa), _) => &[Kind::Aa, Kind::Bs, Kind::Zz],
        (Some(Kind::Bs), false) => &[Kind::Bx, Kind::Lo],
        (Some(Kind::Bx), false) => &[Kind::Lo],
        (Some(Kind::Bs), true) => &[Kind::Bx, Kind::Lo, Kind::Bs, Kind::Zz],
        (Some(Kind::Bx), true) => &[Kind::Lo, Kind::Bs, Kind::Zz],
        (Some(Kind::Lo | Kind::Li | Kind::Cr), _) => &[Kind::Li, Kind::Cr, Kind::Lt],
        (Some(Kind::Lt), _) => &[Kind::Bs, Kind::Zz],
        (Some(Kind::Zz | Kind::Ta | Kind::Td) | None, _) => &[],
    };
    may_stand.contains(&kind)
}

/// The first reason why this content is refused after those before it.
fn refusal_of(before: &[&[u8]], content: &[u8], max_lines: u16) -> Option<Refusal> {
    if before.len() == usize::from(max_lines) {
        return Some(Refusal::TooManyLines);
    }
    let Some(columns) = content.as_array::<80>() else {
        return Some(Refusal::BadLength);
    };
    let Some(line) = Line::of(*columns) else {
        return Some(Refusal::BadByte);
    };
    let Some(kind) = kind_at(content) else {
        return Some(Refusal::UnknownRecord);
    };
    if !may_follow(before, kind) {
        return Some(Refusal::OutOfOrder);
    }
    if matches!(kind, Kind::Ta | Kind::Td) {
        return Some(Refusal::NotFull);
    }
    read_record(&line).err()
}

/// The first line that is refused, counted from 1, and its first reason.
pub(crate) fn first_refusal(contents: &[&[u8]], max_lines: u16) -> Option<(u64, Refusal)> {
    let mut line = 1u64;
    for (at, content) in contents.iter().enumerate() {
        let before = contents.get(..at).unwrap_or(&[]);
        if let Some(why) = refusal_of(before, content, max_lines) {
            return Some((line, why));
        }
        line = line.saturating_add(1);
    }
    for content in contents {
        if kind_at(content) == Some(Kind::Zz) {
            return None;
        }
    }
    Some((line, Refusal::Truncated))
}

/// The record that the content spells.
fn record_at(content: &[u8]) -> Option<Record> {
    let line = Line::of(*content.as_array::<80>()?)?;
    read_record(&line).ok()
}

/// The body that the contents are being compared with.
#[derive(Drop)]
struct Compared<'a> {
    body: &'a Body,
    calls: Calls<'a>,
    has_extra: bool,
}

/// Whether the schedule has what its BS says.
fn is_of_basic(schedule: &Schedule, basic: &Basic) -> bool {
    let detail = match &schedule.body {
        Some(body) => Some(body.detail()),
        None => None,
    };
    schedule.uid == basic.uid
        && schedule.first == basic.first
        && schedule.last == basic.last
        && schedule.days == basic.days
        && schedule.letter == basic.letter
        && detail == basic.detail
}

/// Whether the record stands next in the body.
fn is_next(compared: &mut Compared, record: Record) -> bool {
    match record {
        Record::Extra(extra) => {
            compared.has_extra = true;
            compared.body.extra() == Some(extra)
        }
        Record::Origin(origin) => {
            compared.body.origin() == origin
                && compared.body.extra().is_some() == compared.has_extra
        }
        Record::Stop(stop) => compared.calls.next() == Some(Call::At(stop)),
        Record::Change(change) => compared.calls.next() == Some(Call::Turn(change)),
        Record::Terminus(terminus) => {
            compared.body.terminus() == terminus && compared.calls.next().is_none()
        }
        _ => false,
    }
}

/// What of an extract hasn't been compared yet, and the body that is being compared, if there is one.
#[derive(Drop)]
struct Rest<'a> {
    header: &'a Header,
    tiplocs: &'a [Tiploc],
    associations: &'a [Association],
    schedules: &'a [Schedule],
    compared: Option<Compared<'a>>,
}

impl<'a> Rest<'a> {
    /// Passes over what the record stands for, and tells whether it is that.
    fn passes(&mut self, record: Record) -> bool {
        match record {
            Record::Header(header) => *self.header == header,
            Record::Tiploc(tiploc) => match self.tiplocs {
                [first, rest @ ..] => {
                    self.tiplocs = rest;
                    *first == tiploc
                }
                [] => false,
            },
            Record::Association(association) => match self.associations {
                [first, rest @ ..] => {
                    self.associations = rest;
                    *first == association
                }
                [] => false,
            },
            Record::Basic(basic) => self.passes_basic(&basic),
            Record::Trailer => true,
            record => match &mut self.compared {
                Some(compared) => is_next(compared, record),
                None => true,
            },
        }
    }

    /// The same of a schedule by its BS, whose body is compared from then on.
    fn passes_basic(&mut self, basic: &Basic) -> bool {
        let [first, rest @ ..] = self.schedules else {
            return false;
        };
        self.schedules = rest;
        self.compared = match &first.body {
            Some(body) => Some(Compared {
                body,
                calls: body.calls(),
                has_extra: false,
            }),
            None => None,
        };
        is_of_basic(first, basic)
    }
}

/// Whether the extract has the records of the contents, in their order, and no others.
pub(crate) fn has_records_of(extract: &Extract, contents: &[&[u8]]) -> bool {
    let mut rest = Rest {
        header: &extract.header,
        tiplocs: extract.tiplocs.as_slice(),
        associations: extract.associations.as_slice(),
        schedules: extract.schedules.as_slice(),
        compared: None,
    };
    for content in contents {
        let Some(record) = record_at(content) else {
            return false;
        };
        if !rest.passes(record) {
            return false;
        }
    }
    rest.tiplocs.is_empty() && rest.associations.is_empty() && rest.schedules.is_empty()
}
