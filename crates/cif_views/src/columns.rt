//! The columns of the tables: the name of each field, and where it stands in a line of each kind.
ghost use Rattle.std.specs.Prelude.{◌≡◌, ◌+◌, ◌≤◌, ◌^◌, cond};
ghost use Rattle.cif_views.specs.{Steps.Columns.span_in, Tables.extra_in, Tables.is_call, Tables.kind_of_line};

use cif_columns::{Line, LineSlice};
use cif_records::{Kind, kind_of};

/// The lines of a journey, by kind.
#[derive(Clone, Copy)]
pub(crate) enum JourneyKind {
    /// LO.
    Origin,
    /// LI.
    Stop,
    /// LT.
    Terminus,
    /// CR.
    Change,
    /// None of them.
    Other,
}

/// Columns of a line, from one to another, which are counted from 1.
pub(crate) type ColumnRange = (usize, usize);

/// No columns.
const NO_COLUMNS: ColumnRange = (1, 0);

/// The location of TI.
const LOCATION: Column = ("tiploc", Text(3, 9));

/// The base UID of AA.
const BASE_UID: Column = ("base_uid", Whole(4, 9));

/// The associated UID of AA.
const ASSOCIATED_UID: Column = ("associated_uid", Whole(10, 15));

/// The dates and days of AA.
const HOLDS_FROM: Column = ("first_date", Date(16, 21));

const HOLDS_TO: Column = ("last_date", Date(22, 27));

const HOLDS_ON: Column = ("days_run", Text(28, 34));

/// The location of AA, with the suffixes.
const MEETS_AT: Column = ("location", Text(38, 44));

const BASE_SUFFIX: Column = ("base_suffix", Text(45, 45));

const ASSOCIATED_SUFFIX: Column = ("associated_suffix", Text(46, 46));

/// The UID of BS.
const UID: Column = ("uid", Whole(4, 9));

/// The dates and days of BS.
const RUNS_FROM: Column = ("first_date", Date(10, 15));

const RUNS_TO: Column = ("last_date", Date(16, 21));

const RUNS_ON: Column = ("days_run", Text(22, 28));

/// The names of the numbers that rows of calls and of changes begin with.
pub(crate) const NUMBERS: [Column; 2] = [("schedule", Nowhere), ("call", Nowhere)];

/// Where a field stands in a line, and how a table shows it.
#[derive(Clone, Copy)]
pub(crate) enum FieldPlace {
    /// Without the spaces at its end.
    Text(usize, usize),
    /// As it stands.
    Whole(usize, usize),
    /// As a date YYYY-MM-DD: six digits YYMMDD.
    Date(usize, usize),
    /// As a date YYYY-MM-DD: six digits DDMMYY.
    DayFirst(usize, usize),
    /// In no columns.
    Nowhere,
    /// Without the spaces at its end: where it stands in LO, in LI and in LT.
    Call(ColumnRange, ColumnRange, ColumnRange),
}

use self::FieldPlace::{Call, Date, DayFirst, Nowhere, Text, Whole};

/// A field: its name, and where it stands.
pub(crate) type Column = (&'static str, FieldPlace);

/// The columns of HD.
pub(crate) const HEADER: [Column; 9] = [
    ("mainframe_identity", Text(3, 22)),
    ("extract_date", Text(23, 28)),
    ("extract_time", Text(29, 32)),
    ("current_reference", Text(33, 39)),
    ("last_reference", Text(40, 46)),
    ("update_indicator", Text(47, 47)),
    ("version", Text(48, 48)),
    ("first_date", DayFirst(49, 54)),
    ("last_date", DayFirst(55, 60)),
];

/// The columns of TI.
pub(crate) const TIPLOC: [Column; 9] = [
    LOCATION,
    ("capitals", Text(10, 11)),
    ("nalco", Text(12, 17)),
    ("nlc_check", Text(18, 18)),
    ("tps_description", Text(19, 44)),
    ("stanox", Text(45, 49)),
    ("po_mcp_code", Text(50, 53)),
    ("crs_code", Text(54, 56)),
    ("description", Text(57, 72)),
];

/// The columns of AA.
pub(crate) const ASSOCIATION: [Column; 12] = [
    BASE_UID,
    ASSOCIATED_UID,
    HOLDS_FROM,
    HOLDS_TO,
    HOLDS_ON,
    ("category", Text(35, 36)),
    ("date_indicator", Text(37, 37)),
    MEETS_AT,
    BASE_SUFFIX,
    ASSOCIATED_SUFFIX,
    ("diagram_type", Text(47, 47)),
    ("association_type", Text(48, 48)),
];

/// The columns of BS.
pub(crate) const BASIC: [Column; 21] = [
    UID,
    RUNS_FROM,
    RUNS_TO,
    RUNS_ON,
    ("status", Text(30, 30)),
    ("category", Text(31, 32)),
    ("identity", Text(33, 36)),
    ("headcode", Text(37, 40)),
    ("course", Text(41, 41)),
    ("service_code", Text(42, 49)),
    ("sector", Text(50, 50)),
    ("power", Text(51, 53)),
    ("timing_load", Text(54, 57)),
    ("speed", Text(58, 60)),
    ("characteristics", Text(61, 66)),
    ("class", Text(67, 67)),
    ("sleepers", Text(68, 68)),
    ("reservations", Text(69, 69)),
    ("connection", Text(70, 70)),
    ("catering", Text(71, 74)),
    ("branding", Text(75, 78)),
];

/// The columns of BX.
pub(crate) const EXTRA: [Column; 7] = [
    ("extra", Text(1, 2)),
    ("traction", Text(3, 6)),
    ("uic", Text(7, 11)),
    ("operator_code", Text(12, 13)),
    ("timetable_code", Text(14, 14)),
    ("reserved_a", Text(15, 22)),
    ("reserved_b", Text(23, 23)),
];

/// The columns of LO, LI and LT.
pub(crate) const CALL: [Column; 15] = [
    ("record", Text(1, 2)),
    ("location", Text(3, 9)),
    ("suffix", Text(10, 10)),
    ("arrival", Call(NO_COLUMNS, (11, 15), (11, 15))),
    ("departure", Call((11, 15), (16, 20), NO_COLUMNS)),
    ("pass", Call(NO_COLUMNS, (21, 25), NO_COLUMNS)),
    ("public_arrival", Call(NO_COLUMNS, (26, 29), (16, 19))),
    ("public_departure", Call((16, 19), (30, 33), NO_COLUMNS)),
    ("platform", Call((20, 22), (34, 36), (20, 22))),
    ("line", Call((23, 25), (37, 39), NO_COLUMNS)),
    ("path", Call(NO_COLUMNS, (40, 42), (23, 25))),
    ("activities", Call((30, 41), (43, 54), (26, 37))),
    ("engineering", Call((26, 27), (55, 56), NO_COLUMNS)),
    ("pathing", Call((28, 29), (57, 58), NO_COLUMNS)),
    ("performance", Call((42, 43), (59, 60), NO_COLUMNS)),
];

/// The names of the fields of a public call, of which each is made by a function of its own.
pub(crate) const PUBLIC: [Column; 6] = [
    ("location", Nowhere),
    ("platform", Nowhere),
    ("arrival", Nowhere),
    ("departure", Nowhere),
    ("set_down", Nowhere),
    ("pick_up", Nowhere),
];

/// The columns of CR.
pub(crate) const CHANGE: [Column; 21] = [
    ("location", Text(3, 9)),
    ("suffix", Text(10, 10)),
    ("category", Text(11, 12)),
    ("identity", Text(13, 16)),
    ("headcode", Text(17, 20)),
    ("course", Text(21, 21)),
    ("service_code", Text(22, 29)),
    ("sector", Text(30, 30)),
    ("power", Text(31, 33)),
    ("timing_load", Text(34, 37)),
    ("speed", Text(38, 40)),
    ("characteristics", Text(41, 46)),
    ("class", Text(47, 47)),
    ("sleepers", Text(48, 48)),
    ("reservations", Text(49, 49)),
    ("connection", Text(50, 50)),
    ("catering", Text(51, 54)),
    ("branding", Text(55, 58)),
    ("traction", Text(59, 62)),
    ("uic", Text(63, 67)),
    ("reserved_a", Text(68, 75)),
];

/// The names of the fields of the table of differences.
pub(crate) const DIFFERENCE: [Column; 17] = [
    ("change", Nowhere),
    ("kind", Nowhere),
    ("tiploc", Nowhere),
    ("uid", Nowhere),
    ("associated_uid", Nowhere),
    ("location", Nowhere),
    ("base_suffix", Nowhere),
    ("associated_suffix", Nowhere),
    ("first_date", Nowhere),
    ("last_date", Nowhere),
    ("days_run", Nowhere),
    ("call", Nowhere),
    ("record", Nowhere),
    ("place", Nowhere),
    ("field", Nowhere),
    ("left", Nowhere),
    ("right", Nowhere),
];

/// Fields that a record doesn't have, in the table of differences.
const NO_TIPLOC: Column = ("tiploc", Nowhere);

const NO_UID: Column = ("uid", Nowhere);

const NO_ASSOCIATED_UID: Column = ("associated_uid", Nowhere);

const NO_LOCATION: Column = ("location", Nowhere);

const NO_BASE_SUFFIX: Column = ("base_suffix", Nowhere);

const NO_ASSOCIATED_SUFFIX: Column = ("associated_suffix", Nowhere);

/// The fields up to the days run of TI, in the table of differences.
pub(crate) const TIPLOC_HEAD: [Column; 9] = [
    LOCATION,
    NO_UID,
    NO_ASSOCIATED_UID,
    NO_LOCATION,
    NO_BASE_SUFFIX,
    NO_ASSOCIATED_SUFFIX,
    ("first_date", Nowhere),
    ("last_date", Nowhere),
    ("days_run", Nowhere),
];

/// The fields up to the days run of AA, in the table of differences.
pub(crate) const ASSOCIATION_HEAD: [Column; 9] = [
    NO_TIPLOC,
    ("uid", Whole(4, 9)),
    ASSOCIATED_UID,
    MEETS_AT,
    BASE_SUFFIX,
    ASSOCIATED_SUFFIX,
    HOLDS_FROM,
    HOLDS_TO,
    HOLDS_ON,
];

/// The fields up to the days run of BS, in the table of differences.
pub(crate) const BASIC_HEAD: [Column; 9] = [
    NO_TIPLOC,
    UID,
    NO_ASSOCIATED_UID,
    NO_LOCATION,
    NO_BASE_SUFFIX,
    NO_ASSOCIATED_SUFFIX,
    RUNS_FROM,
    RUNS_TO,
    RUNS_ON,
];

/// The columns of the field in a line of this kind.
#[inline(always)]
pub(crate) fn span_in(kind: JourneyKind, place: &FieldPlace) -> ColumnRange
    ensures { result ≡ span_in kind place.now }
{
    match place {
        Text(first, last) | Whole(first, last) => (*first, *last),
        Date(first, last) | DayFirst(first, last) => (*first, *last),
        Nowhere => NO_COLUMNS,
        Call(origin, stop, terminus) => match kind {
            JourneyKind::Origin => *origin,
            JourneyKind::Stop => *stop,
            JourneyKind::Terminus => *terminus,
            JourneyKind::Change | JourneyKind::Other => NO_COLUMNS,
        },
    }
}

/// The kind of a line of a journey.
pub(crate) fn kind_of_line(line: &Line) -> JourneyKind
    ensures { result ≡ kind_of_line line.now }
{
    match kind_of(line) {
        Some(Kind::Lo) => JourneyKind::Origin,
        Some(Kind::Li) => JourneyKind::Stop,
        Some(Kind::Lt) => JourneyKind::Terminus,
        Some(Kind::Cr) => JourneyKind::Change,
        _ => JourneyKind::Other,
    }
}

/// The number of the next call after a line of this kind, where before it that number is `call`.
pub(crate) fn call_after(call: usize, kind: JourneyKind) -> usize
    requires { call ≤ 2 ^ 63 }
    ensures { result ≡ cond (is_call kind) (call + 1) call }
{
    match kind {
        JourneyKind::Origin | JourneyKind::Stop | JourneyKind::Terminus => call + 1,
        JourneyKind::Change | JourneyKind::Other => call,
    }
}

/// The BX that stands first among the lines, or a line of spaces.
pub(crate) fn extra_among(lines: &LineSlice<'_>) -> Line
    ensures { result ≡ extra_in lines.now }
{
    if lines.is_empty() {
        return Line::blank();
    }
    let first = lines.first();
    match kind_of(&first) {
        Some(Kind::Bx) => first,
        _ => Line::blank(),
    }
}
