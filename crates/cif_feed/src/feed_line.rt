//! Reading the lines of feeds: the records that they spell.
ghost use Rattle.std.specs.Prelude.{◌≡◌, ◌≤◌, ◌+◌, ◌++◌, ◌∷◌, [], None, Some, IfSome, codes, false};
ghost use Rattle.cif_columns.specs.Field.{AllStandIn, StandsIn, columns, columns_from, date};
ghost use Rattle.cif_columns.specs.Line.{ArePrintable};
ghost use Rattle.cif_records.specs.{Basic.basic_back, Checks.IsJudged, Kind.kind_in};
ghost use Rattle.cif_records.specs.declared.record.Record.TheVariants as of;
ghost use Rattle.cif_feed.specs.FeedLine.{IsClosedAt, IsDeletion, SpellsAssociationBy, SpellsInFeed, code_of};
ghost use Rattle.cif_feed.specs.FeedLine.{code_value, deleted_basic_rows, end_value, is_open, letter_of};
ghost use Rattle.cif_feed.specs.FeedLine.{put_association_rows, put_basic_front, put_tiploc, transaction_at};
ghost use Rattle.cif_feed.specs.{LastDay.last_day, Steps.FeedLine.ReadsBasic, Steps.Marks.mark_of, Transaction.transaction_letter};
ghost use Rattle.cif_feed.specs.LayoutRefusals.{association_refusal_by, basic_refusal_by, feed_refusal_as};
ghost use Rattle.cif_feed.specs.LayoutRefusals.{holiday_code_refusal, kind_read_as, open_dates_refusal};
ghost use Rattle.cif_feed.specs.Marks.{association_mark, deleted_mark, put_mark, schedule_mark, tiploc_transaction};
ghost use Rattle.cif_feed.specs.declared.holidays.HolidayCodes.{HolidayCodes};

use crate::mark::{LineMark, RecordMark, TiplocMark};
use crate::{HolidayCode, HolidayCodes, Transaction};
use cif_columns::{Day, DaysRun, Line, Refusal, Stp, columns_at, uid_at};
use cif_records::{
    AssocKey, Association, BasicTerms, DateRange, Header, Kind, Tiploc, dates_at, field_or,
};

/// What is read.
#[derive(Clone, Copy, PartialEq, Eq)]
pub enum Feed {
    /// A published extract.
    Full,
    /// An update.
    Update,
}

/// The number of the last day there is, 31 December 2059.
const LAST_DAY: u16 = 36_524;

/// The header that an HD of the feed spells, or the first reason in column order why it spells none.
pub(crate) fn read_header(feed: Feed, line: &Line) -> Result<Header, Refusal>
    ensures { (allowed : HolidayCodes) → IsJudged (feed_refusal_as feed allowed (Some Kind.Hd) line.now)
        (λ h. SpellsInFeed feed allowed line.now (of.Header h)) result }
{
    match feed {
        Feed::Full => Header::read(line),
        Feed::Update => Header::read_by(line, b"U"),
    }
}

/// The location that a line of this kind spells, and its mark: a TI, or a TA or a TD of an update.
pub(crate) fn read_tiploc(feed: Feed, kind: Kind, number: u64, line: &Line) -> (Tiploc, TiplocMark)
    requires kind { kind_in line.now ≡ Some kind }
    requires located { kind_read_as feed (Some kind) ≡ Some Kind.Ti }
    ensures spells { (allowed : HolidayCodes) → SpellsInFeed feed allowed line.now (of.Tiploc result.0) }
    ensures mark { (allowed : HolidayCodes) → LineMark.Tiploc result.1 ≡ mark_of allowed (Some kind) (number, line.now) }
{
    let tiploc = Tiploc {
        columns: match (feed, kind) {
            (Feed::Update, Kind::Ta) => put_columns(line),
            _ => columns_at(line, 3),
        },
    };
    let mark = TiplocMark {
        line: number,
        transaction: tiploc_transaction(kind),
        tiploc: columns_at(line, 3),
    };
    (tiploc, mark)
}

/// The transaction of a line of this kind of location.
fn tiploc_transaction(kind: Kind) -> Transaction
    ensures { result ≡ tiploc_transaction (Some kind) }
{
    match kind {
        Kind::Ta => Transaction::Revised,
        Kind::Td => Transaction::Deleted,
        _ => Transaction::New,
    }
}

/// The columns of the location that a TA puts: columns 73 to 79 are its new TIPLOC, if they aren't blank.
fn put_columns(line: &Line) -> [u8; 70]
    ensures value { result ≡ put_tiploc line.now ++ columns 10 72 line.now }
    ensures printable { ArePrintable result }
{
    let new_tiploc: [u8; 7] = columns_at(line, 73);
    let mut columns: [u8; 70] = columns_at(line, 3);
    if new_tiploc != [b' '; 7] {
        columns[..7].copy_from_slice(&new_tiploc);
    }
    columns
}

/// The association that an AA of the feed spells, and its mark; or the first reason in column order why it spells none.
pub(crate) fn read_association(
    feed: Feed,
    number: u64,
    line: &Line,
) -> Result<(Association, RecordMark), Refusal>
    requires { kind_in line.now ≡ Some Kind.Aa }
    ensures { (allowed : HolidayCodes) → IsJudged (feed_refusal_as feed allowed (Some Kind.Aa) line.now)
        (λ read. SpellsInFeed feed allowed line.now (of.Association read.0)
        × (read.1 ≡ association_mark (number, line.now))) result }
{
    match transaction_at(feed, line) {
        Some(Transaction::New) => put_association(Transaction::New, number, line),
        Some(Transaction::Revised) => put_association(Transaction::Revised, number, line),
        Some(Transaction::Deleted) => deleted_association(number, line),
        None => Err(Refusal::NotFull),
    }
}

/// The association that an AA puts by this transaction, and its mark.
fn put_association(
    transaction: Transaction,
    number: u64,
    line: &Line,
) -> Result<(Association, RecordMark), Refusal>
    requires identity { columns 1 2 line.now ≡ codes "AA" }
    requires transaction { columns 3 3 line.now ≡ transaction_letter transaction ∷ [] }
    ensures { IsJudged (association_refusal_by (Some Transaction.New) line.now)
        (λ read. (AllStandIn line.now (put_association_rows transaction (is_open 22 line.now) read.0)
        × IsClosedAt (is_open 22 line.now) read.0.last)
        × (read.1 ≡ put_mark transaction (is_open 22 line.now) None (number, line.now))) result }
{
    let (dates, open_end) = open_dates_at(line, 16)?;
    let days = field_or(line, 28, Refusal::BadDays)?;
    let letter = field_or(line, 80, Refusal::BadStp)?;
    let association = Association {
        key: AssocKey::read(line),
        first: dates.first,
        last: dates.last,
        days,
        letter,
        body: Association::body_at(line, letter),
    };
    let mark = RecordMark {
        line: number,
        transaction,
        letter,
        open_end,
        code: None,
    };
    Ok((association, mark))
}

/// What the deletion of an association is read as, and its mark.
fn deleted_association(number: u64, line: &Line) -> Result<(Association, RecordMark), Refusal>
    requires identity { columns 1 2 line.now ≡ codes "AA" }
    requires transaction { columns 3 3 line.now ≡ codes "D" }
    ensures { IsJudged (association_refusal_by (Some Transaction.Deleted) line.now)
        (λ read. SpellsAssociationBy (Some Transaction.Deleted) line.now read.0
        × (read.1 ≡ deleted_mark (number, line.now))) result }
{
    let first: Day = field_or(line, 16, Refusal::BadDate)?;
    let letter = field_or(line, 80, Refusal::BadStp)?;
    first.fits();
    let association = Association {
        key: AssocKey::read(line),
        first,
        last: last_day(),
        days: DaysRun::of([false; 7]),
        letter: Stp::C,
        body: None,
    };
    Ok((association, deleted_mark(number, letter)))
}

/// The terms of the schedule that a BS of the feed spells, and its mark; or the first reason in column order why it
/// spells none. `allowed` are the holiday codes that may stand in the feed.
pub(crate) fn read_basic(
    feed: Feed,
    allowed: HolidayCodes,
    number: u64,
    line: &Line,
) -> Result<(BasicTerms, RecordMark), Refusal>
    requires { kind_in line.now ≡ Some Kind.Bs }
    ensures { IsJudged (feed_refusal_as feed allowed (Some Kind.Bs) line.now)
        (λ read. ReadsBasic feed allowed line.now read.0
        × (read.1 ≡ schedule_mark allowed (number, line.now))) result }
{
    match transaction_at(feed, line) {
        Some(Transaction::New) => put_basic(allowed, Transaction::New, number, line),
        Some(Transaction::Revised) => put_basic(allowed, Transaction::Revised, number, line),
        Some(Transaction::Deleted) => deleted_basic(number, line),
        None => Err(Refusal::NotFull),
    }
}

/// The terms of the schedule that a BS puts by this transaction, and its mark.
fn put_basic(
    allowed: HolidayCodes,
    transaction: Transaction,
    number: u64,
    line: &Line,
) -> Result<(BasicTerms, RecordMark), Refusal>
    requires identity { columns 1 2 line.now ≡ codes "BS" }
    requires transaction { columns 3 3 line.now ≡ transaction_letter transaction ∷ [] }
    ensures { IsJudged (basic_refusal_by allowed (Some Transaction.New) line.now)
        (λ read. (AllStandIn line.now
        (put_basic_front transaction (is_open 16 line.now) (code_of allowed line.now) read.0)
        × AllStandIn line.now (basic_back read.0.letter)
        × IsClosedAt (is_open 16 line.now) read.0.last)
        × (read.1 ≡ put_mark transaction (is_open 16 line.now) (code_of allowed line.now) (number, line.now)))
        result }
{
    let (dates, open_end) = open_dates_at(line, 10)?;
    let days = field_or(line, 22, Refusal::BadDays)?;
    let code = code_at(allowed, line)?;
    let letter = field_or(line, 80, Refusal::BadStp)?;
    let terms = BasicTerms {
        uid: uid_at(line, 4),
        first: dates.first,
        last: dates.last,
        days,
        letter,
    };
    let mark = RecordMark {
        line: number,
        transaction,
        letter,
        open_end,
        code,
    };
    Ok((terms, mark))
}

/// What the deletion of a schedule is read as, and its mark.
fn deleted_basic(number: u64, line: &Line) -> Result<(BasicTerms, RecordMark), Refusal>
    requires identity { columns 1 2 line.now ≡ codes "BS" }
    requires transaction { columns 3 3 line.now ≡ codes "D" }
    ensures { (allowed : HolidayCodes) → IsJudged (basic_refusal_by allowed (Some Transaction.Deleted) line.now)
        (λ read. (AllStandIn line.now (deleted_basic_rows read.0.uid read.0.first (letter_of line.now))
        × IsDeletion read.0.last read.0.days read.0.letter)
        × (read.1 ≡ deleted_mark (number, line.now))) result }
{
    let first: Day = field_or(line, 10, Refusal::BadDate)?;
    let letter = field_or(line, 80, Refusal::BadStp)?;
    first.fits();
    let terms = BasicTerms {
        uid: uid_at(line, 4),
        first,
        last: last_day(),
        days: DaysRun::of([false; 7]),
        letter: Stp::C,
    };
    Ok((terms, deleted_mark(number, letter)))
}

/// The mark of a deletion, the line of this number with this letter.
fn deleted_mark(line: u64, letter: Stp) -> RecordMark
    ensures { result ≡ record {
      line = line;
      transaction = Transaction.Deleted;
      letter = letter;
      open_end = false;
      code = None;
    } }
{
    RecordMark {
        line,
        transaction: Transaction::Deleted,
        letter,
        open_end: false,
        code: None,
    }
}

/// The transaction in column 3, where it may stand in the feed.
fn transaction_at(feed: Feed, line: &Line) -> Option<Transaction>
    ensures exact { result ≡ transaction_at feed line.now }
    ensures stands { IfSome result (λ transaction. columns 3 3 line.now ≡ transaction_letter transaction ∷ []) }
{
    let column: [u8; 1] = columns_at(line, 3);
    match feed {
        Feed::Full if column == *b"N" => Some(Transaction::New),
        Feed::Full => None,
        Feed::Update => Transaction::read(column[0]),
    }
}

/// The dates in the twelve columns of a line from `at` on, counted from 1, and whether the last is open: it may be
/// `999999`, which is read as the last day there is.
fn open_dates_at(line: &Line, at: usize) -> Result<(DateRange, bool), Refusal>
    requires from_one { 1 ≤ at }
    requires within { at ≤ 69 }
    ensures { IsJudged (open_dates_refusal (columns_from at 6 line.now) (columns_from (at + 6) 6 line.now))
        (λ read. StandsIn (columns_from at 6 line.now) (date read.0.first)
        × StandsIn (columns_from (at + 6) 6 line.now) (end_value (is_open (at + 6) line.now) read.0.last)
        × IsClosedAt (is_open (at + 6) line.now) read.0.last
        × (read.1 ≡ is_open (at + 6) line.now)) result }
{
    if columns_at(line, at + 6) == *b"999999" {
        let first: Day = field_or(line, at, Refusal::BadDate)?;
        first.fits();
        let dates = DateRange {
            first,
            last: last_day(),
        };
        return Ok((dates, true));
    }
    Ok((dates_at(line, at)?, false))
}

/// The holiday code in column 29, where it may stand; none for a space.
fn code_at(allowed: HolidayCodes, line: &Line) -> Result<Option<HolidayCode>, Refusal>
    ensures { IsJudged (holiday_code_refusal allowed line.now)
        (λ code. StandsIn (columns 29 29 line.now) (code_value code)
        × (code ≡ code_of allowed line.now)) result }
{
    let column: [u8; 1] = columns_at(line, 29);
    if column == *b" " {
        return Ok(None);
    }
    match HolidayCode::read(column[0]) {
        Some(code) if allowed.has(code) => Ok(Some(code)),
        _ => Err(Refusal::BankHoliday),
    }
}

/// The last day there is.
fn last_day() -> Day
    ensures { result ≡ last_day }
{
    match Day::from_number(LAST_DAY) {
        Some(day) => day,
        None => unreachable!(),
    }
}
