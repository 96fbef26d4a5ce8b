//! Laws: what the marks of an explanation and the letters of a calendar say, and what tables say.
ghost use Rattle.std.specs.Prelude.{◌≡◌, ◌≢◌, ◌↔◌, ◌<◌, ◌≤◌, ◌^◌, ℕ, Contains, List, [], length};
ghost use Rattle.cif_calendar.specs.{Clash.IsClear, Keys.keyed, Keys.of_key, Runs.Runs, Terms.Terms};
ghost use Rattle.cif_canon.specs.{Accepted.IsAccepted, Accepted.IsClearExtract, Canon.CanonParts, Canon.IsCanonOf, Differences.AreDifferences, Differences.AreNone};
ghost use Rattle.cif_canon.specs.{Differences.DifferencesParts, Lines.ScheduleLines, Meaning.SameMeaning};
ghost use Rattle.cif_rows.specs.{Row.Value, declared.format.Format.Format, declared.format.Format.TheVariants.Text};
ghost use Rattle.cif_canon.specs.declared.asked.Asked.{Asked};
ghost use Rattle.cif_extract.specs.ExtractParts.{ExtractParts};
ghost use Rattle.cif_weeks.specs.declared.form.Form.{Form};
ghost use Rattle.cif_views.specs.{Boards.IsBoard, declared.board.Board.Board};
ghost use Rattle.cif_views.specs.AllFields.{CallsHaveAll, DayRowsHaveAll, DifferenceRowsHaveAll};
ghost use Rattle.cif_views.specs.AllFields.{ExplainedRowsHaveAll, TablesHaveColumns, TrainRowsHaveAll};
ghost use Rattle.cif_views.specs.{DifferenceTable.difference_rows, PublicCalls.ArePublicCalls};
ghost use Rattle.cif_views.specs.{RowsOfDifferences.AreRowsOfFields, RowsOfDifferences.HaveRows, SameTables.HaveSameTables};
ghost use Rattle.cif_views.specs.{Steps.PublicCalls.public_calls, Tables.TableFields, WeekCalendar.IsWeekCalendar};
ghost use Rattle.cif_views.specs.{WeekCalendar.SaysWhatRuns, declared.marks.Mark.TheVariants.Wins};
ghost use Rattle.cif_views.specs.Explanation.{AreExplained, Explained, HasWinningMark, SomeApplies};

use crate::marks::ExplainedEntry;

/// What the marks of explained records say.
pub fn marks_say_what_runs<E: ExplainedEntry>()
    // A record that is marked as the winner has the body that runs; a cancellation has none.
    ensures runs { (entries : List E)
        (uid : List ℕ) (day : ℕ) (explained : List (Explained E.Key E.Body))
        (e : Explained E.Key E.Body) → AreExplained E.Key.cmp E.is_of (keyed E.key E.terms entries) uid day explained
        → Contains explained e → e.mark ≡ Wins
        → Runs (of_key (keyed E.key E.terms entries) e.key) day e.terms.body }
    // A key has one exactly if some record of it applies and no two winners differ.
    ensures agree { (entries : List (E.Key × Terms E.Body))
        (uid : List ℕ) (day : ℕ) (explained : List (Explained E.Key E.Body)) (key : E.Key)
        → AreExplained E.Key.cmp E.is_of entries uid day explained → E.is_of key uid
        → HasWinningMark explained key
        ↔ (SomeApplies (of_key entries key) day × IsClear (of_key entries key) day) }
{}

/// The fields of each row have the names in a table's first line, in order.
pub fn rows_have_all_fields()
    ensures calls { CallsHaveAll }
    ensures day { DayRowsHaveAll }
    ensures train { TrainRowsHaveAll }
    ensures explanation { ExplainedRowsHaveAll }
    ensures differences { DifferenceRowsHaveAll }
    // The fields of a record are its columns, in the layout's order.
    ensures columns { (line : List ℕ) → TablesHaveColumns line }
{}

/// The tables of a canonical extract, but for that of public calls, together say what it says: two extracts
/// have the same tables exactly if they have the same text, each of fewer than 2^64 bytes. In longer ones
/// the numbers of schedules and calls may not fit 64 bits.
pub fn equal_tables_equal_extracts()
    ensures text { (format : Format) (form other : Form) (x y : ExtractParts) (c d : CanonParts)
        → IsCanonOf form x c → IsCanonOf other y d → length c.text < 2 ^ 64 → length d.text < 2 ^ 64
        → format ≢ Text → HaveSameTables format c.lines d.lines ↔ (c.text ≡ d.text) }
    // In one form they have the same tables exactly if they were made of extracts that say the same.
    ensures meaning { (format : Format) (form : Form) (x y : ExtractParts) (c d : CanonParts)
        → IsCanonOf form x c → IsCanonOf form y d → length c.text < 2 ^ 64 → length d.text < 2 ^ 64
        → format ≢ Text → HaveSameTables format c.lines d.lines ↔ SameMeaning x y }
{}

/// The table of the differences of two accepted inputs has a row for each location, record and pair
/// that is listed, and is the line of its names alone exactly where there is no difference.
pub fn a_row_for_each_difference()
    ensures rows { (asked other : Asked) (left right : List ℕ) (x y : ExtractParts)
        (d : DifferencesParts) → IsAccepted asked x left → IsAccepted other y right
        → AreDifferences x y d → HaveRows d }
    ensures none { (asked other : Asked) (left right : List ℕ) (x y : ExtractParts)
        (d : DifferencesParts) → IsAccepted asked x left → IsAccepted other y right
        → AreDifferences x y d
        → (difference_rows d ≡ []) ↔ AreNone d }
{}

/// A pair of records has a row for each field that differs and for no other, and two extracts have one list
/// of differences: so one table is right.
pub fn one_table_of_differences()
    ensures fields { (start : List Value) (fields : TableFields (List ℕ)) (left right : List ℕ)
        → AreRowsOfFields start fields left right }
    ensures once { (x y : ExtractParts) (d e : DifferencesParts) → AreDifferences x y d → AreDifferences x y e → d ≡ e }
{}

/// In the line of its Monday a calendar shows of each date whether the train runs.
pub fn calendars_say_what_runs()
    ensures { (x : ExtractParts) (uid text : List ℕ) (day : ℕ) → IsWeekCalendar x uid text
        → x.header.first ≤ day → day ≤ x.header.last → SaysWhatRuns x uid text day }
{}

/// The public calls that a table shows of a schedule are those by the definition of moments.
pub fn public_calls_are_by_moments()
    ensures { (s : ℕ × ScheduleLines) → ArePublicCalls s (public_calls s) }
{}

/// Of clear extracts that say the same, such as an extract and its canonical one of any form, all boards are the same.
pub fn boards_of_equal_meanings()
    ensures { (x y : ExtractParts) (format : Format) (board : Board) (text : List ℕ) → SameMeaning x y
        → IsClearExtract x → IsClearExtract y → IsBoard format x board text ↔ IsBoard format y board text }
{}
