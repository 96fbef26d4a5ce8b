//! The kinds of record, and a record of any kind.
ghost use Rattle.std.specs.Prelude.{◌≡◌, IfSome, Some, IsTrue, Ok, find};
ghost use Rattle.cif_columns.specs.{Field.columns, Field.plain_line, Line.IsLine};
ghost use Rattle.cif_records.specs.{Checks.IsJudged, Kind.identity, Kind.is_identity, Kind.kind_in, declared.record.Kind.Kind};
ghost use Rattle.cif_records.specs.declared.record.Record.{Record};
ghost use Rattle.cif_records.specs.Record.{IsPlainAs, IsPlainOf, SpellsRecord, record_refusal, record_table, refusal_as};

use crate::{
    Association, Basic, Change, Extra, Header, Origin, Stop, Terminus, Tiploc, Trailer, change,
    extra, layout, origin, stop, terminus,
};
use cif_columns::{LINE_WIDTH, Line, Refusal, columns_at};
use std::fmt;

/// The kinds of record of the CIF End User Specification that this profile knows, by the
/// identities in columns 1 and 2.
#[derive(Clone, Copy, Debug, PartialEq, Eq)]
pub enum Kind {
    /// `HD`, the header.
    Hd,
    /// `TI`, a TIPLOC.
    Ti,
    /// `TA`, an amended TIPLOC: of update extracts alone.
    Ta,
    /// `TD`, a deleted TIPLOC: of update extracts alone.
    Td,
    /// `AA`, an association.
    Aa,
    /// `BS`, a basic schedule.
    Bs,
    /// `BX`, the extra details of a basic schedule.
    Bx,
    /// `LO`, where a journey begins.
    Lo,
    /// `LI`, an intermediate location.
    Li,
    /// `CR`, a change en route.
    Cr,
    /// `LT`, where a journey ends.
    Lt,
    /// `ZZ`, the trailer.
    Zz,
}

impl Kind {
    /// All kinds, in the order in which `kind_of` tries them. Most lines are LI.
    pub const ALL: [Kind; 12] = [
        Kind::Li,
        Kind::Cr,
        Kind::Lt,
        Kind::Lo,
        Kind::Bx,
        Kind::Bs,
        Kind::Aa,
        Kind::Ti,
        Kind::Hd,
        Kind::Zz,
        Kind::Ta,
        Kind::Td,
    ];

    /// The two letters of its lines' columns 1 and 2.
    pub fn identity(self) -> [u8; 2]
        ensures { result ≡ identity self }
    {
        match self {
            Kind::Hd => *b"HD",
            Kind::Ti => *b"TI",
            Kind::Ta => *b"TA",
            Kind::Td => *b"TD",
            Kind::Aa => *b"AA",
            Kind::Bs => *b"BS",
            Kind::Bx => *b"BX",
            Kind::Lo => *b"LO",
            Kind::Li => *b"LI",
            Kind::Cr => *b"CR",
            Kind::Lt => *b"LT",
            Kind::Zz => *b"ZZ",
        }
    }
}

/// The kind that columns 1 and 2 of the line name; `None` where they name none of the twelve.
pub fn kind_of(line: &Line) -> Option<Kind>
    ensures kind { result ≡ kind_in line.now }
    ensures found { IfSome result (λ kind. columns 1 2 line.now ≡ identity kind) }
    ensures only { (kind : Kind) → columns 1 2 line.now ≡ identity kind → result ≡ Some kind }
    ensures line { IsLine line.now }
{
    kind_among(&Kind::ALL, &columns_at(line, 1))
}

/// The first of the kinds with this identity.
fn kind_among(kinds: &[Kind], letters: &[u8; 2]) -> Option<Kind>
    ensures { result ≡ find (is_identity letters.now) kinds.now }
{
    kinds
        .iter()
        .copied()
        .find(|kind| kind.identity() == *letters)
}

/// A record of a full extract (the CIF End User Specification).
#[derive(Drop)]
pub enum Record {
    /// `HD`, the header.
    Header(Header),
    /// `TI`, a location.
    Tiploc(Tiploc),
    /// `AA`, an association of two trains.
    Association(Association),
    /// `BS`, a basic schedule.
    Basic(Basic),
    /// `BX`, its further details.
    Extra(Extra),
    /// `LO`, where a journey begins.
    Origin(Origin),
    /// `LI`, a location on the way.
    Stop(Stop),
    /// `CR`, a change on the way.
    Change(Change),
    /// `LT`, where a journey ends.
    Terminus(Terminus),
    /// `ZZ`, the trailer.
    Trailer,
}

/// Its plain line.
impl fmt::Debug for Record {
    fn fmt<W: fmt::Write>(&self, f: &mut fmt::Formatter<W>) -> fmt::Result {
        layout::debug(&write_record(self), f)
    }
}

/// The record that the line spells, or the first reason why it spells none: UnknownRecord where
/// columns 1 and 2 name no kind, NotFull for `TA` and `TD`, else the reason of the kind's `read`.
#[tactic(auto, unfolding(crate::specs::Record::record_refusal))]
pub fn read_record(line: &Line) -> Result<Record, Refusal>
    ensures exact { IsJudged (record_refusal line.now) (SpellsRecord line.now) result }
    ensures only { (r : Record) → SpellsRecord line.now r → result ≡ Ok r }
{
    match kind_of(line) {
        Some(kind) => read_as(kind, line),
        None => Err(Refusal::UnknownRecord),
    }
}

/// The record of this kind that the line spells, or the first reason why it spells none.
fn read_as(kind: Kind, line: &Line) -> Result<Record, Refusal>
    ensures { IsJudged (refusal_as (Some kind) line.now) (SpellsRecord line.now) result }
{
    match kind {
        Kind::Li => Ok(Record::Stop(Stop::read(line)?)),
        Kind::Cr => Ok(Record::Change(Change::read(line)?)),
        Kind::Lt => Ok(Record::Terminus(Terminus::read(line)?)),
        Kind::Lo => Ok(Record::Origin(Origin::read(line)?)),
        Kind::Bx => Ok(Record::Extra(Extra::read(line)?)),
        Kind::Bs => Ok(Record::Basic(Basic::read(line)?)),
        Kind::Aa => Ok(Record::Association(Association::read(line)?)),
        Kind::Ti => Ok(Record::Tiploc(Tiploc::read(line)?)),
        Kind::Hd => Ok(Record::Header(Header::read(line)?)),
        Kind::Zz => {
            Trailer::read(line)?;
            Ok(Record::Trailer)
        }
        Kind::Ta | Kind::Td => Err(Refusal::NotFull),
    }
}

/// The plain line of the record.
pub fn write_record(record: &Record) -> Line
    ensures plain { result ≡ plain_line (record_table «record».now) }
    ensures again { SpellsRecord result «record».now }
{
    match record {
        Record::Header(header) => header.write(),
        Record::Tiploc(tiploc) => tiploc.write(),
        Record::Association(association) => association.write(),
        Record::Basic(basic) => basic.write(),
        Record::Extra(extra) => extra.write(),
        Record::Origin(origin) => origin.write(),
        Record::Stop(stop) => stop.write(),
        Record::Change(change) => change.write(),
        Record::Terminus(terminus) => terminus.write(),
        Record::Trailer => Trailer.write(),
    }
}

/// The plain line of the record that the line, which names this kind, spells, or the first reason
/// why it spells none: what `read_record` and then `write_record` give. Where `is_plain_line` says
/// so, that is the line itself.
// Few lines come here, so it is kept out of the loops over lines.
#[inline(never)]
pub fn plain_line_of(kind: Kind, line: &Line) -> Result<Line, Refusal>
    requires { kind_in line.now ≡ Some kind }
    ensures exact { IsJudged (record_refusal line.now) (IsPlainOf Record record_table line.now)
        result }
    ensures only { (r : Record) → SpellsRecord line.now r
        → result ≡ Ok (plain_line (record_table r)) }
{
    match read_as(kind, line) {
        Ok(record) => Ok(write_record(&record)),
        Err(why) => Err(why),
    }
}

/// Whether the line is the plain line of a record of this kind, and spells it, as far as one pass
/// over its columns shows. A `false` costs time alone: `plain_line_of` answers then.
#[inline]
pub fn is_plain_line(kind: Kind, line: &Line) -> bool
    ensures { IsTrue result → IsJudged (record_refusal line.now)
        (IsPlainOf Record record_table line.now) (Ok line.now) }
{
    are_plain(kind, line.bytes())
}

/// What `is_plain_line` tells of columns that may be no line, or that of another kind.
#[inline(always)]
pub fn are_plain(kind: Kind, columns: &[u8; LINE_WIDTH]) -> bool
    ensures { IsTrue result → IsPlainAs kind columns.now }
{
    match kind {
        Kind::Li => stop::PLAIN.passes_columns(columns),
        Kind::Cr => change::PLAIN.passes_columns(columns),
        Kind::Lt => terminus::PLAIN.passes_columns(columns),
        Kind::Lo => origin::PLAIN.passes_columns(columns),
        Kind::Bx => extra::PLAIN.passes_columns(columns),
        // There are few lines of these, or their fields are read anyway, so they have no test.
        _ => false,
    }
}
