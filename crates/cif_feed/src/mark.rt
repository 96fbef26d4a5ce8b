//! What the lines of a feed say beyond their records.
ghost use Rattle.std.specs.Prelude.{◌≡◌, [], IfOk};
ghost use Rattle.cif_feed.specs.{Counts.have_marks, Marks.mark_parts, Marks.marks_in, Transaction.transaction_in};
ghost use Rattle.cif_feed.specs.Steps.Marks.{HaveRoom, is_schedule_mark, is_trailer_mark, with_mark, with_record, with_transaction};
ghost use Rattle.cif_feed.specs.declared.holidays.HolidayCodes.{HolidayCodes};

use crate::HolidayCode;
use cif_columns::Stp;
use std::alloc::{AllocError, Global};

/// What a line of an update asks for, column 3 of AA and BS (the CIF End User Specification).
#[derive(Clone, Copy, Debug, PartialEq, Eq)]
pub enum Transaction {
    /// A record whose key isn't there is put.
    New,
    /// The records of its key are taken out, and it is put.
    Revised,
    /// The records of its key are taken out.
    Deleted,
}

impl Transaction {
    /// The transaction with this letter; `None` for any other byte.
    pub fn read(column: u8) -> Option<Transaction>
        ensures { result ≡ transaction_in column }
    {
        match column {
            b'N' => Some(Transaction::New),
            b'R' => Some(Transaction::Revised),
            b'D' => Some(Transaction::Deleted),
            _ => None,
        }
    }
}

/// What a TI, a TA or a TD says beyond its record.
#[derive(Clone, Copy)]
pub(crate) struct TiplocMark {
    /// The number of the line.
    pub(crate) line: u64,
    /// New for TI, Revised for TA, Deleted for TD.
    pub(crate) transaction: Transaction,
    /// Columns 3 to 9: the TIPLOC. The record of a TA has its new TIPLOC, if it has one.
    pub(crate) tiploc: [u8; 7],
}

/// What an AA or a BS says beyond its record.
#[derive(Clone, Copy)]
pub(crate) struct RecordMark {
    /// The number of the line.
    pub(crate) line: u64,
    /// Column 3: the transaction.
    pub(crate) transaction: Transaction,
    /// Column 80: the letter. The record of a deletion has `C`, so that no journey has to follow.
    pub(crate) letter: Stp,
    /// Whether the last date is `999999`. The record has the last day there is. Of a deletion neither this nor the code
    /// is read.
    pub(crate) open_end: bool,
    /// Column 29 of a BS: the holiday code, where one may stand.
    pub(crate) code: Option<HolidayCode>,
}

/// What any line says beyond its record.
#[derive(Clone, Copy)]
pub(crate) enum LineMark {
    /// An HD, by the number of its line.
    Header(u64),
    /// A TI, a TA or a TD.
    Tiploc(TiplocMark),
    /// An AA.
    Association(RecordMark),
    /// A BS.
    Schedule(RecordMark),
    /// A ZZ.
    Trailer,
    /// Any other line.
    Nothing,
}

impl LineMark {
    /// Whether it is that of a BS.
    pub(crate) fn is_of_schedule(&self) -> bool
        ensures { result ≡ is_schedule_mark self.now }
    {
        matches!(self, LineMark::Schedule(_))
    }

    /// Whether it is that of a ZZ.
    pub(crate) fn is_of_trailer(&self) -> bool
        ensures { result ≡ is_trailer_mark self.now }
    {
        matches!(self, LineMark::Trailer)
    }
}

/// How many contents of a feed were ignored.
#[derive(Clone, Copy, Debug)]
pub struct Passed {
    /// The comments.
    pub comments: u64,
    /// The notes, TN and LN.
    pub notes: u64,
}

/// What the lines of a feed say beyond their records.
#[derive(Drop)]
pub(crate) struct Marks {
    // The number of the line of the header; 0 before one has come.
    pub(crate) header_line: u64,
    // The marks of the locations, associations and schedules, in their order.
    pub(crate) tiplocs: Vec<TiplocMark>,
    pub(crate) associations: Vec<RecordMark>,
    pub(crate) schedules: Vec<RecordMark>,
    // How many lines do what.
    pub(crate) counts: UpdateCounts,
    pub(crate) passed: Passed,
}

impl Marks {
    /// The marks of no contents.
    pub(crate) fn new(alloc: Global) -> Marks
        ensures { (allowed : HolidayCodes) → mark_parts result ≡ marks_in allowed [] }
    {
        Marks {
            header_line: 0,
            tiplocs: Vec::new(alloc),
            associations: Vec::new(alloc),
            schedules: Vec::new(alloc),
            counts: UpdateCounts {
                put: 0,
                revised: 0,
                taken_out: 0,
                open_ends: 0,
                holiday_codes: 0,
            },
            passed: Passed {
                comments: 0,
                notes: 0,
            },
        }
    }

    /// Adds what a line says beyond its record.
    pub(crate) fn add(&mut self, mark: LineMark) -> Result<(), AllocError>
        requires { HaveRoom self.old.counts }
        ensures { IfOk result (λ _. mark_parts self.new ≡ with_mark (mark_parts self.old) mark) }
    {
        match mark {
            LineMark::Header(line) => {
                if self.header_line == 0 {
                    self.header_line = line;
                }
            }
            LineMark::Tiploc(mark) => {
                self.counts.add(mark.transaction);
                self.tiplocs.push(mark)?;
            }
            LineMark::Association(mark) => {
                self.counts.add_record(&mark);
                self.associations.push(mark)?;
            }
            LineMark::Schedule(mark) => {
                self.counts.add_record(&mark);
                self.schedules.push(mark)?;
            }
            LineMark::Trailer | LineMark::Nothing => {}
        }
        Ok(())
    }
}

/// How many lines a feed has, by what they do.
#[derive(Clone, Copy, Debug)]
pub struct UpdateCounts {
    /// The TI, and the AA and BS with N.
    pub put: u64,
    /// The TA, and the AA and BS with R.
    pub revised: u64,
    /// The TD, and the AA and BS with D.
    pub taken_out: u64,
    /// The AA and BS without D that have an open end.
    pub open_ends: u64,
    /// The BS without D that have a holiday code.
    pub holiday_codes: u64,
}

impl UpdateCounts {
    /// Counts a line with this transaction.
    fn add(&mut self, transaction: Transaction)
        requires { HaveRoom self.old }
        ensures { self.new ≡ with_transaction self.old transaction }
    {
        match transaction {
            Transaction::New => self.put += 1,
            Transaction::Revised => self.revised += 1,
            Transaction::Deleted => self.taken_out += 1,
        }
    }

    /// Counts an AA or a BS with this mark.
    fn add_record(&mut self, mark: &RecordMark)
        requires { HaveRoom self.old }
        ensures { self.new ≡ with_record self.old mark.now }
    {
        self.add(mark.transaction);
        if mark.open_end {
            self.open_ends += 1;
        }
        if mark.code.is_some() {
            self.holiday_codes += 1;
        }
    }

    /// Whether a line has an open end or a holiday code, of which a prepared extract has none.
    pub(crate) fn have_marks(&self) -> bool
        ensures { result ≡ have_marks self.now }
    {
        self.open_ends > 0 || self.holiday_codes > 0
    }
}
