//! What the help of `cif` says, in lines of at most 80 columns. The first line of a command's is what the list of
//! commands says of it.

pub(crate) const CIF: &str = "\
Works out what runs on each date of a CIF timetable extract
Each command reads full extracts: lines of 80 columns, from HD to ZZ. Those
with holiday codes, open end dates, notes or comments go through `cif prepare`
first, and update extracts through `cif update`. A date is 260114 or 2026-01-14.
Faults go to standard error; --verbose says more about them. `cif help COMMAND`
says what a command prints.

Example:
  cif normalise extract.cif > canonical.cif

Statuses:
  0  success; for compare and diff: no difference; for clashes: no clash
  1  for compare and diff: a difference; for clashes: a clash
  2  a usage error
  3  an input is refused, or its window doesn't fit what was asked for
  4  reading or writing failed, or memory ran out";

pub(crate) const NORMALISE: &str = "\
Writes the canonical extract of what the input says
Prints an extract of permanent records only. On each date at most one record of
a train or an association applies. If the input is refused, prints nothing.
Form 1 joins weeks that have the same days. Form 2 also joins a week that the
window cuts, if its remaining days match the other week's. Form 3 has the fewest
records: each goes on as long as can be, in whatever weeks.

Example:
  cif normalise --from 260105 --to 260118 extract.cif > canonical.cif

Statuses:
  0  success
  2  a usage error
  3  the input is refused, or the dates asked for don't fit its window
  4  reading or writing failed, or memory ran out";

pub(crate) const CHECK: &str = "\
Says whether an extract is accepted, and counts its records
Prints one line, with the numbers of records in the canonical extract:
  accepted: T tiplocs, A associations, S schedules
With --all each line is judged by itself first, even if an earlier one is
refused. If some are refused, prints a line for each reason instead:
  REASON: N lines, first at line L
Form 1 joins weeks that have the same days. Form 2 also joins a week that the
window cuts, if its remaining days match the other week's. Form 3 has the fewest
records: each goes on as long as can be, in whatever weeks.

Examples:
  cif check extract.cif
  cif check --all extract.cif

Statuses:
  0  accepted
  2  a usage error
  3  the input is refused, or the dates asked for don't fit its window;
     with --all also: lines are refused
  4  reading or writing failed, or memory ran out";

pub(crate) const COMPARE: &str = "\
Says whether two extracts differ, and where first
Prints one line: `same`, or the first difference. Tiplocs come first, then
associations, then trains. Of the headers only the windows are compared.
With --common, the common window goes from the later of the two first dates
to the earlier of the two last dates. Extracts of different days need it.

  differs: tiploc [COLUMNS 3-72]
  differs: association [BASE][OTHER][LOCATION][SUFFIX][SUFFIX] on YYMMDD
  differs: train [UID] on YYMMDD

Example:
  cif compare --from 260105 old.cif new.cif

Statuses:
  0  no difference
  1  a difference
  2  a usage error
  3  one is refused, or their windows differ or don't fit the dates asked for
  4  reading or writing failed, or memory ran out";

pub(crate) const DIFF: &str = "\
Lists all differences of two extracts
Prints the records of what only one of the two says: its lines begin with `< `
if that is LEFT, and with `> ` if it is RIGHT. Locations come first, then
associations, then schedules. If there is no difference, prints nothing.
--format tsv prints a table instead: field names in the first line, tabs between
fields. Two records of one train or association with the same dates and days
have a row for each field that differs. If their journeys have other places, one
row says how many calls each has. Any other record has one row. --format json
prints an object a line instead, with the names and the cells of that table.
With --common, the common window goes from the later of the two first dates
to the earlier of the two last dates. Extracts of different days need it.

Examples:
  cif diff --common yesterday.cif today.cif
  cif diff --format tsv old.cif new.cif > changes.tsv

Statuses:
  0  no difference
  1  a difference
  2  a usage error
  3  one is refused, or their windows differ or don't fit the dates asked for
  4  reading or writing failed, or memory ran out";

pub(crate) const DAY: &str = "\
Lists the associations and the trains of one date
Prints a line for each association that holds, then one for each train:
  AA BASE OTHER CATEGORY INDICATOR LOCATION SUFFIX SUFFIX DIAGRAM KIND
  BS UID IDENTITY ORIGIN DEPARTURE PLATFORM TERMINUS ARRIVAL PLATFORM
With --stops a line for each call of a train follows its own (LO, LI or LT):
  LI LOCATION SUFFIX ARRIVAL DEPARTURE PASS, public ARRIVAL DEPARTURE,
  PLATFORM PATH LINE ACTIVITIES
Fields have their full width, with one space between them. --format tsv prints
a table instead: field names in the first line, tabs between fields, no padding.
Each call is then a row that begins with its train's fields. --format json
prints an object a line, in which a train's calls are a list.

Examples:
  cif day 260114 extract.cif
  cif day --stops --format tsv 260114 extract.cif > calls.tsv

Statuses:
  0  success
  2  a usage error
  3  the input is refused, or the date isn't in its window
  4  reading or writing failed, or memory ran out";

pub(crate) const TRAIN: &str = "\
Lists the schedules of one train
Prints a line for each schedule that the train has in the canonical extract:
  FIRST LAST DAYS IDENTITY ORIGIN DEPARTURE PLATFORM TERMINUS ARRIVAL PLATFORM
--stops and --format work as in `cif day`.
Form 1 joins weeks that have the same days. Form 2 also joins a week that the
window cuts, if its remaining days match the other week's. Form 3 has the fewest
records: each goes on as long as can be, in whatever weeks.

Example:
  cif train C00123 extract.cif

Statuses:
  0  success, even if the train doesn't run
  2  a usage error
  3  the input is refused, or the dates asked for don't fit its window
  4  reading or writing failed, or memory ran out";

pub(crate) const EXPLAIN: &str = "\
Says why a train runs on a date, or why it doesn't
Prints a line for each record of the train that applies on the date, those of
its associations first:
  MARK AA LETTER FIRST LAST DAYS and what `cif day` prints after AA
  MARK BS LETTER FIRST LAST DAYS and what `cif day` prints after BS
MARK is `wins`, `hidden` (a record with an earlier letter wins) or `clash`
(two winners differ). A cancellation (letter C) has only the UID there, and one
of an association only its key. --format works as in `cif day`.

Example:
  cif explain C00123 260114 extract.cif

Statuses:
  0  success, even if no record applies
  2  a usage error
  3  the input is refused, or the date isn't in its window
  4  reading or writing failed, or memory ran out";

pub(crate) const CLASHES: &str = "\
Lists the clashes of an extract
Prints a line for each train or association with a clash in the window, with
the first date on which two winning records differ:
  association [BASE][OTHER][LOCATION][SUFFIX][SUFFIX] on YYMMDD
  train [UID] on YYMMDD
If there is none, prints nothing. --format tsv prints a table instead: field
names in the first line, tabs between fields. --format json prints an object a
line.

Example:
  cif clashes extract.cif

Statuses:
  0  no clash
  1  a clash
  2  a usage error
  3  the input is refused, or the dates asked for don't fit its window
  4  reading or writing failed, or memory ran out";

pub(crate) const TABLE: &str = "\
Writes a table of the canonical extract
Prints field names in the first line, and then a row for each of these:
  header        the header
  tiplocs       a location (TI)
  associations  an association (AA)
  schedules     a schedule (BS and BX), with its number
  calls         a call (LO, LI or LT), with the number of its schedule
  changes       a change en route (CR), with the numbers of its schedule and of
                the call that follows
  public        a call that riders can use, with its times, counted on past
                midnight, and whether they may get off and on
Tabs separate fields, and dates are YYYY-MM-DD. The first six together say what
the canonical extract says. --format json prints an object a line instead.
Form 1 joins weeks that have the same days. Form 2 also joins a week that the
window cuts, if its remaining days match the other week's. Form 3 has the fewest
records: each goes on as long as can be, in whatever weeks.

Examples:
  cif table schedules extract.cif > schedules.tsv
  cif table calls --from 260105 --to 260118 extract.cif > calls.tsv

Statuses:
  0  success
  2  a usage error
  3  the input is refused, or the dates asked for don't fit its window
  4  reading or writing failed, or memory ran out";

pub(crate) const CALENDAR: &str = "\
Shows week by week on which dates a train runs
Prints a line for each week that has a date of the window: the date of its
Monday, and a character for each day from Monday to Sunday.
         MTWTFSS
  260105 PPPPP..
  260112 PPOPP..
P, O and N are the letters of the records that win: the train runs. On the other
dates of the window it doesn't:
  C  it is cancelled
  .  no record applies
  !  winning records differ
--format tsv prints a table with a row for each date instead, with this
character and whether the train runs: 1, 0, or nothing at `!`. --format json
prints an object a line.

Example:
  cif calendar C00123 extract.cif

Statuses:
  0  success, even if the train doesn't run
  2  a usage error
  3  the input is refused, or the dates asked for don't fit its window
  4  reading or writing failed, or memory ran out";

pub(crate) const DEPARTURES: &str = "\
Lists what leaves from a place on a date
Prints a line for each call at which riders may get on, by the time of day:
  TIME PLATFORM OPERATOR IDENTITY UID DESTINATION
PLACE is a TIPLOC or a CRS code, in capitals or not. Times and the date are by
the clock: a train of the evening before that calls after midnight is there.
With --calling-at only trains are listed on which riders may get off at that
place later, with the time there after the first. --format tsv prints a table
instead, with field names in the first line and also the date on which the
train runs, and --format json an object a line.

Examples:
  cif departures EUS 2026-06-05 extract.cif
  cif departures --calling-at MKC EUS 2026-06-05 extract.cif

Statuses:
  0  success, even if nothing leaves
  2  a usage error
  3  the input is refused, or the date isn't in its window
  4  reading or writing failed, or memory ran out";

pub(crate) const ARRIVALS: &str = "\
Lists what arrives at a place on a date
Prints a line for each call at which riders may get off, by the time of day:
  TIME PLATFORM OPERATOR IDENTITY UID ORIGIN
PLACE is a TIPLOC or a CRS code, in capitals or not. Times, the date and
--format are as in `cif departures`.

Example:
  cif arrivals EUS 2026-06-05 extract.cif

Statuses:
  0  success, even if nothing arrives
  2  a usage error
  3  the input is refused, or the date isn't in its window
  4  reading or writing failed, or memory ran out";

pub(crate) const PREPARE: &str = "\
Turns a published extract into one that all commands read
Prints an extract in which the same runs on each date of the window, without
comments, notes, open end dates and holiday codes. An open end becomes the last
date of the window, or the record's first date if that is later. A record with
a holiday code is split at its holidays, on which it doesn't run.
A line of --holidays is a code, X, E or G, and dates, in at most 1,000 bytes;
# begins a remark:
  X 260406 260504   # bank holiday Mondays
  E 2026-04-20      # Edinburgh; G is Glasgow
If a code's last date is more than 250 days before the window's last date, or
its first date more than 250 days after the window's first date, standard error
says so:
  cif: holidays of X: YYMMDD to YYMMDD, the window: YYMMDD to YYMMDD
With --drop-clashes nothing of a train or an association runs on the dates on
which it has a clash, and standard error names these: the first, and how many
more there are.
  cif: dropped: train [UID] on YYMMDD and N more dates
With --winners prints a table in place of the extract, as tsv unless --format
says json, with the fields uid, first_date, last_date, stp_indicator, wins_from,
wins_to and days_run: the UID, dates and letter of a published schedule, and
dates on which it decides what runs, or, with letter C, that nothing does. An
open end is empty. A clash is refused, unless --drop-clashes is given.

Examples:
  cif prepare --holidays holidays.txt published.cif > extract.cif
  cif prepare --drop-clashes published.cif > extract.cif
  cif prepare --winners published.cif > winners.tsv

Statuses:
  0  success
  2  a usage error
  3  the extract or the holidays are refused
  4  reading or writing failed, or memory ran out";

pub(crate) const UPDATE: &str = "\
Applies update extracts to a full extract
Prints the full extract that the updates, one after the other, make of FULL,
which may be a published one, with holiday codes, open end dates, notes and
comments. Keep the output: it is the FULL of the next update. `cif prepare`
makes an extract of it that all commands read. Don't take as FULL what
`cif prepare` or `cif normalise` wrote: they split records and replace their
letters, so an update no longer finds them.
An update is refused if it doesn't follow the extract before it: its last
reference is neither blank nor the current reference of that extract. It is
refused, too, where it puts a record that is there already, or changes or
deletes one that isn't there. With --lenient it is done all the same: it
replaces the record that is there, puts the one that isn't, or deletes nothing.
With --lenient --in-sequence an update that doesn't follow is still refused.
With --lenient, standard error names each line that didn't fit:
  cif: line N: OutOfSequence (waived)
  cif: line N: AlreadyThere (waived)
  cif: line N: NotThere (waived)

Examples:
  cif update full.cif update.cif > new.cif
  cif update --lenient --in-sequence full.cif update.cif > new.cif

Statuses:
  0  success
  2  a usage error
  3  an extract is refused, or an update doesn't fit what it applies to
  4  reading or writing failed, or memory ran out";

pub(crate) const FILE: &str = "The extract to read; - is standard input [default: -]";

pub(crate) const LEFT: &str = "One extract; - is standard input";

pub(crate) const RIGHT: &str = "The extract that it is compared with; - is standard input";

pub(crate) const FULL: &str = "The full extract; - is standard input";

pub(crate) const UPDATES: &str = "The update extracts, in their order; - is standard input";

pub(crate) const TABLES: &str =
    "header, tiplocs, associations, schedules, calls, changes or public";

pub(crate) const DATE: &str = "The date, such as 260114 or 2026-01-14";

pub(crate) const PLACE: &str = "The place: a TIPLOC or a CRS code, such as EUSTON or EUS";

pub(crate) const CALLING_AT: &str = "Only trains that call at PLACE later";

pub(crate) const UID: &str = "The UID of the train: six characters; quote it if it has a space";

pub(crate) const FROM: &str = "First date of the window [default: the header's]";

pub(crate) const TO: &str = "Last date of the window [default: the header's]";

pub(crate) const VERBOSE: &str = "Say more on standard error";

pub(crate) const ALL: &str = "Judge each line by itself, and count the reasons";

pub(crate) const COMMON: &str = "Use the common window for dates that aren't given";

pub(crate) const STOPS: &str = "List the calls of each train too";

pub(crate) const HOLIDAYS: &str = "The dates of the holiday codes; - is standard input";

pub(crate) const DROP_CLASHES: &str = "Leave out what has a clash, on the dates of the clash";

pub(crate) const WINNERS: &str = "Write which published record decides each date";

pub(crate) const WINNERS_FORMAT: &str = "Layout of --winners";

pub(crate) const LENIENT: &str = "Go on if an update doesn't follow, or a line doesn't fit";

pub(crate) const IN_SEQUENCE: &str = "With --lenient, refuse an update that doesn't follow";

pub(crate) const FORM: &str = "Form of records";

pub(crate) const FORMAT: &str = "Layout: text, tsv or json";

pub(crate) const TABLE_FORMAT: &str = "Layout";
