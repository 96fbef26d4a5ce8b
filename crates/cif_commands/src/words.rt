//! What the words of a call ask for.
ghost use Rattle.std.specs.Prelude.{◌≡◌, ◌≢◌, ◌⊎◌, ◌<◌, ◌≤◌, ◌∷◌, IfErr, IfOk, IsSomeAnd};
ghost use Rattle.std.specs.Prelude.{MatchOption, String, codes, false, map, option_map, string_bytes, true};
ghost use Rattle.clap.specs.Words.{all_of, first_of, found_of, kind_of, rows_of, subcommand_rows_of};
ghost use Rattle.cif_columns.specs.DateWord.{IsDateWord};
ghost use Rattle.cif_commands.specs.CommandLine.{feed_subcommands};
ghost use Rattle.cif_commands.specs.Job.{AreBoardWords, Asks, IsAskedBy, IsChosen, IsPlaceIf, IsDateOf, IsFeedChosen, IsRequestChosen};
ghost use Rattle.cif_commands.specs.Job.{IsTaskChosen, IsUidWord, file_of, form_of, format_of, has_flag, inputs_of, is_standard, listing_of};
ghost use Rattle.cif_commands.specs.Job.{names_of, required_word, standard_inputs, table_format_of, table_of, waived_of};
ghost use Rattle.cif_views.specs.Places.{IsPlaceOf, IsPlaceWord};
ghost use Rattle.cif_commands.specs.JobFault.{HasBadDate, HasBadGoal, HasBadWindow, IsBoardFault, IsAskedFor, IsEnteredFault};
ghost use Rattle.cif_commands.specs.JobFault.{IsFaultOf, IsNoUid, IsNoneOf, NamesNoDay, several_of};

use crate::command_line::{all_choices, matches_of};
use crate::escaped::Escaped;
use crate::job::{
    BoardJob, CalendarJob, CanonicalJob, ClashesJob, CompareJob, DayJob, DiffJob, ExplainJob,
    FeedJob, InputNames, Inputs, Job, JobFault, PrepareJob, Request, TableJob, Task, TrainJob,
    UpdateJob, WinnersJob,
};
use crate::verbosity::Verbosity;
use cif_canon::Asked;
use cif_columns::{Day, Uid, are_printable};
use cif_feed::Waived;
use cif_rows::Format;
use cif_views::{Board, BoardKind, Listing, Place, Table};
use cif_weeks::Form;
use clap::ArgMatches;
use clap::error::ErrorKind;
use std::alloc::{AllocError, Global};

/// What the words of a call ask for, of which the first is the program's name.
///
/// `Usage` comes where `clap` refuses the words, or where they ask for help or for the version;
/// else `BadUid` where a UID is no UID, else `BadPlace` if PLACE is no place, else `BadDate` where a date is no date,
/// else `BadPlace` if that of `--calling-at` is none, and else `StandardInputTwice` where two inputs are the standard input; `Memory` where memory ran out, in
/// `clap` or in this call itself.
// Inlined, it would keep `clap`'s 25 KiB on the stack while the job is done.
#[inline(never)]
pub fn task_of(alloc: Global, words: Vec<String>) -> Result<Request, JobFault>
    ensures asked { IfOk result (Asks (map string_bytes words.items)) }
    ensures refused { IfErr result (IsFaultOf (map string_bytes words.items)) }
{
    match matches_of(alloc, &all_choices(), words.as_slice()) {
        Ok(matches) => chosen_request(alloc, &matches),
        Err(error) => Err(fault_of_error(alloc, &error)),
    }
}

/// The first word that should name a date or a place, or the UID, and doesn't, as `fault` says; none where
/// `--verbose` isn't among the words, and a terminal gets no help.
#[inline(never)]
pub fn bad_word<'a>(
    alloc: Global,
    words: &'a [String],
    fault: &JobFault,
    verbosity: Verbosity,
) -> Option<&'a str> {
    match matches_of(alloc, &all_choices(), words) {
        Ok(matches) => match matches.subcommand() {
            Some((_, inner)) if verbosity.helps() || has_flag(inner, "verbose") => match fault {
                JobFault::BadUid => word_of(inner, "UID"),
                JobFault::BadPlace => bad_place(inner),
                _ => bad_date(inner),
            },
            _ => None,
        },
        Err(_) => None,
    }
}

/// The first word that should name a date and doesn't.
fn bad_date<'a>(matches: &ArgMatches<'a>) -> Option<&'a str> {
    for id in ["YYMMDD", "from", "to"] {
        match word_of(matches, id) {
            Some(word) if day_of_word(word).is_none() => return Some(word),
            _ => {}
        }
    }
    None
}

/// The first word that should be a place and isn't.
fn bad_place<'a>(matches: &ArgMatches<'a>) -> Option<&'a str> {
    for id in ["PLACE", "calling-at"] {
        match word_of(matches, id) {
            Some(word) if Place::of_word(word.as_bytes()).is_none() => return Some(word),
            _ => {}
        }
    }
    None
}

/// Why `clap` gives no matches.
fn fault_of_error(alloc: Global, error: &clap::Error) -> JobFault
    ensures { (result ≡ JobFault.Memory)
        ⊎ ((kind_of error.now ≢ ErrorKind.OutOfMemory)
        × ((text : String Global) × (result ≡ JobFault.Usage (kind_of error.now) text))) }
{
    match error.kind() {
        ErrorKind::OutOfMemory => JobFault::Memory,
        kind => match text_of_error(alloc, error) {
            Ok(text) => JobFault::Usage { kind, text },
            Err(AllocError) => JobFault::Memory,
        },
    }
}

/// The text of `clap`, which may have words of the call, with what hides or turns text escaped.
fn text_of_error(alloc: Global, error: &clap::Error) -> Result<String, AllocError> {
    let text = error.to_string(alloc)?;
    let escaped = Escaped {
        text: text.as_str(),
        has_lines: true,
    };
    escaped.to_string(alloc)
}

// ---- the jobs

/// What the subcommand that was entered asks for.
fn chosen_request(alloc: Global, matches: &ArgMatches<'_>) -> Result<Request, JobFault>
    ensures ok { IfOk result (λ request. IsSomeAnd (subcommand_rows_of matches.now) (IsRequestChosen request)) }
    ensures err { IfErr result (IsEnteredFault (subcommand_rows_of matches.now)) }
{
    match matches.subcommand() {
        Some((name, inner)) => named_request(alloc, name, inner),
        None => Err(JobFault::NoCommand),
    }
}

/// What the subcommand of this name asks for.
fn named_request(alloc: Global, name: &str, matches: &ArgMatches<'_>) -> Result<Request, JobFault>
    ensures { IsAskedFor IsRequestChosen (name.now, rows_of (found_of matches.now)) result }
{
    let task = named_task(name, matches)?;
    let inputs = inputs_of(alloc, name, matches)?;
    if share_standard(&inputs) {
        return Err(JobFault::StandardInputTwice(several_of(name)));
    }
    Ok(Request {
        task,
        inputs,
        verbose: has_flag(matches, "verbose"),
    })
}

/// The task that the subcommand of this name asks for.
fn named_task(name: &str, matches: &ArgMatches<'_>) -> Result<Task, JobFault>
    ensures { IsAskedFor IsTaskChosen (name.now, rows_of (found_of matches.now)) result }
{
    match name {
        "prepare" => Ok(Task::Feed(prepare_job(matches)?)),
        "update" => Ok(Task::Feed(FeedJob::Update(UpdateJob {
            waived: waived_of(matches),
        }))),
        _ => Ok(Task::Extract(named_job(name, matches)?)),
    }
}

/// What `prepare` is asked for: the prepared extract, or a table of its winners.
fn prepare_job(matches: &ArgMatches<'_>) -> Result<FeedJob, JobFault>
    ensures { IsAskedFor IsFeedChosen (codes "prepare", rows_of (found_of matches.now)) result }
{
    let prepare = PrepareJob {
        drop_clashes: has_flag(matches, "drop-clashes"),
    };
    if has_flag(matches, "winners") {
        return Ok(FeedJob::Winners(WinnersJob {
            prepare,
            format: table_format_of(matches),
        }));
    }
    match word_of(matches, "format") {
        Some(_) => Err(JobFault::FormatAlone),
        None => Ok(FeedJob::Prepare(prepare)),
    }
}

/// The job that the subcommand of this name, which reads no published extract, asks for.
fn named_job(name: &str, matches: &ArgMatches<'_>) -> Result<Job, JobFault>
    requires { IsNoneOf feed_subcommands name.now }
    ensures { IsAskedFor IsChosen (name.now, rows_of (found_of matches.now)) result }
{
    match name {
        "day" => Ok(Job::Day(DayJob {
            day: day_of(matches)?,
            listing: listing_of(matches),
        })),
        "train" => Ok(Job::Train(TrainJob {
            uid: uid_of(matches)?,
            asked: asked_of(matches)?,
            form: form_of(matches),
            listing: listing_of(matches),
        })),
        "explain" => Ok(Job::Explain(ExplainJob {
            uid: uid_of(matches)?,
            day: day_of(matches)?,
            format: format_of(matches),
        })),
        "calendar" => Ok(Job::Calendar(CalendarJob {
            uid: uid_of(matches)?,
            asked: asked_of(matches)?,
            format: format_of(matches),
        })),
        "departures" => Ok(Job::Board(board_job(BoardKind::Departures, matches)?)),
        "arrivals" => Ok(Job::Board(board_job(BoardKind::Arrivals, matches)?)),
        _ => {
            let asked = asked_of(matches)?;
            let canonical = canonical_job(asked, matches);
            match name {
                "normalise" => Ok(Job::Normalise(canonical)),
                "check" if has_flag(matches, "all") => Ok(Job::CheckAll(canonical)),
                "check" => Ok(Job::Check(canonical)),
                "compare" => Ok(Job::Compare(compare_job(asked, matches))),
                "diff" => Ok(Job::Diff(DiffJob {
                    compared: compare_job(asked, matches),
                    format: format_of(matches),
                })),
                "clashes" => Ok(Job::Clashes(ClashesJob {
                    asked,
                    format: format_of(matches),
                })),
                "table" => Ok(Job::Table(TableJob {
                    table: table_of(required_word(matches, "TABLE")),
                    canonical,
                    format: table_format_of(matches),
                })),
                _ => Err(JobFault::NoCommand),
            }
        }
    }
}

/// The board of this kind that the words ask for.
fn board_job(kind: BoardKind, matches: &ArgMatches<'_>) -> Result<BoardJob, JobFault>
    ensures ok { IfOk result (λ job. (job.board.kind ≡ kind) × AreBoardWords (rows_of (found_of matches.now)) job) }
    ensures err { IfErr result (IsBoardFault (rows_of (found_of matches.now))) }
{
    let place = place_of(matches)?;
    let day = day_of(matches)?;
    let calling_at = calling_at_of(matches)?;
    Ok(BoardJob {
        board: Board {
            kind,
            place,
            calling_at,
            day,
        },
        format: format_of(matches),
    })
}

/// The window that is asked for, with the form that the words name.
fn canonical_job(asked: Asked, matches: &ArgMatches<'_>) -> CanonicalJob
    ensures { (result.asked ≡ asked)
        × (result.form ≡ form_of (first_of (codes "form") (rows_of (found_of matches.now)))) }
{
    CanonicalJob {
        asked,
        form: form_of(matches),
    }
}

/// The window that is asked for, of both extracts if the words say so.
fn compare_job(asked: Asked, matches: &ArgMatches<'_>) -> CompareJob
    ensures { (result.asked ≡ asked)
        × (result.common ≡ has_flag (codes "common") (rows_of (found_of matches.now))) }
{
    CompareJob {
        asked,
        common: has_flag(matches, "common"),
    }
}

// ---- the inputs

/// The names of the inputs that the subcommand of this name reads.
fn inputs_of(alloc: Global, name: &str, matches: &ArgMatches<'_>) -> Result<InputNames, AllocError>
    ensures { IfOk result (λ inputs.
        names_of inputs ≡ inputs_of (name.now, rows_of (found_of matches.now))) }
{
    match name {
        "compare" | "diff" => copied(
            alloc,
            required_word(matches, "LEFT"),
            &[required_word(matches, "RIGHT")],
        ),
        "prepare" => match word_of(matches, "holidays") {
            Some(holidays) => copied(alloc, holidays, &[file_of(matches)]),
            None => copied(alloc, file_of(matches), &[]),
        },
        "update" => match words_of(matches, "UPDATE") {
            Some(updates) => copied(alloc, required_word(matches, "FULL"), updates),
            None => copied(alloc, required_word(matches, "FULL"), &[]),
        },
        _ => copied(alloc, file_of(matches), &[]),
    }
}

/// These names, in memory of their own.
fn copied(alloc: Global, first: &str, rest: &[&str]) -> Result<InputNames, AllocError>
    ensures { IfOk result (λ inputs. names_of inputs
        ≡ first.now ∷ map (λ word. word.now) rest.now) }
{
    let first = String::from_str(alloc, first)?;
    let mut names = Vec::new(alloc);
    for name in rest {
        names.push(String::from_str(alloc, name)?)?;
    }
    Ok(InputNames { first, rest: names })
}

/// Whether two or more of the inputs are the standard input.
fn share_standard(inputs: &InputNames) -> bool
    ensures shared { (result ≡ true) → 1 < standard_inputs (names_of inputs.now) }
    ensures alone { (result ≡ false) → standard_inputs (names_of inputs.now) ≤ 1 }
{
    let mut found = is_standard(inputs.first.as_str());
    for name in &inputs.rest {
        if is_standard(name.as_str()) {
            if found {
                return true;
            }
            found = true;
        }
    }
    false
}

/// Which inputs the subcommand of this name reads, where it reads several.
fn several_of(name: &str) -> Inputs
    ensures { result ≡ several_of name.now }
{
    match name {
        "prepare" => Inputs::HolidaysAndFile,
        "update" => Inputs::Extracts,
        _ => Inputs::LeftAndRight,
    }
}

// ---- what the matches hold

/// The word under this id, if there is one.
fn word_of<'a>(matches: &ArgMatches<'a>, id: &str) -> Option<&'a str>
    ensures { option_map (λ word. word.now) result
        ≡ first_of id.now (rows_of (found_of matches.now)) }
{
    matches.get_str(id)
}

/// The word under this id, which is required: `clap` misses none.
fn required_word<'a>(matches: &ArgMatches<'a>, id: &str) -> &'a str
    ensures { result.now ≡ required_word id.now (rows_of (found_of matches.now)) }
{
    word_of(matches, id).unwrap_or("")
}

/// The words under this id, in their order, if there are any.
fn words_of<'m, 'a>(matches: &'m ArgMatches<'a>, id: &str) -> Option<&'m [&'a str]>
    ensures { option_map (λ words. map (λ word. word.now) words.now) result
        ≡ all_of id.now (rows_of (found_of matches.now)) }
{
    matches.get_strs(id)
}

/// The name of the file, which is the standard input where it is absent.
fn file_of<'a>(matches: &ArgMatches<'a>) -> &'a str
    ensures { result.now ≡ file_of (rows_of (found_of matches.now)) }
{
    word_of(matches, "FILE").unwrap_or("-")
}

/// Whether the word stands for the standard input.
pub(crate) fn is_standard(word: &str) -> bool
    ensures { result ≡ is_standard word.now }
{
    word == "-"
}

/// The window that the words ask for.
fn asked_of(matches: &ArgMatches<'_>) -> Result<Asked, JobFault>
    ensures ok { IfOk result (IsAskedBy (rows_of (found_of matches.now))) }
    ensures err { IfErr result (λ fault. (fault ≡ JobFault.BadDate)
        × HasBadWindow (rows_of (found_of matches.now))) }
{
    let from = date_of(matches, "from")?;
    let to = date_of(matches, "to")?;
    Ok(Asked { from, to })
}

/// The date that the word under this id names, if there is such a word.
fn date_of(matches: &ArgMatches<'_>, id: &str) -> Result<Option<Day>, JobFault>
    ensures ok { IfOk result (IsDateOf (first_of id.now (rows_of (found_of matches.now)))) }
    ensures err { IfErr result (λ fault. (fault ≡ JobFault.BadDate)
        × HasBadDate id.now (rows_of (found_of matches.now))) }
{
    match word_of(matches, id) {
        Some(word) => match day_of_word(word) {
            Some(day) => Ok(Some(day)),
            None => Err(JobFault::BadDate),
        },
        None => Ok(None),
    }
}

/// The day that the word under YYMMDD names.
fn day_of(matches: &ArgMatches<'_>) -> Result<Day, JobFault>
    ensures ok { IfOk result (IsDateWord (required_word (codes "YYMMDD") (rows_of (found_of matches.now)))) }
    ensures err { IfErr result (λ fault. (fault ≡ JobFault.BadDate)
        × NamesNoDay (required_word (codes "YYMMDD") (rows_of (found_of matches.now)))) }
{
    match day_of_word(required_word(matches, "YYMMDD")) {
        Some(day) => Ok(day),
        None => Err(JobFault::BadDate),
    }
}

/// The UID that the word UID is.
fn uid_of(matches: &ArgMatches<'_>) -> Result<Uid, JobFault>
    ensures ok { IfOk result (IsUidWord (required_word (codes "UID") (rows_of (found_of matches.now)))) }
    ensures err { IfErr result (λ fault. (fault ≡ JobFault.BadUid)
        × IsNoUid (required_word (codes "UID") (rows_of (found_of matches.now)))) }
{
    match <[u8; 6]>::try_from(required_word(matches, "UID").as_bytes()) {
        Ok(columns) if are_printable(&columns) => Ok(Uid::read(&columns)),
        _ => Err(JobFault::BadUid),
    }
}

/// The place that the word PLACE is.
fn place_of(matches: &ArgMatches<'_>) -> Result<Place, JobFault>
    ensures ok { IfOk result (IsPlaceOf (required_word (codes "PLACE") (rows_of (found_of matches.now)))) }
    ensures err { IfErr result (λ fault. (fault ≡ JobFault.BadPlace)
        × ¬ IsPlaceWord (required_word (codes "PLACE") (rows_of (found_of matches.now)))) }
{
    match Place::of_word(required_word(matches, "PLACE").as_bytes()) {
        Some(place) => Ok(place),
        None => Err(JobFault::BadPlace),
    }
}

/// The place that the word of `--calling-at` is, if there is such a word.
fn calling_at_of(matches: &ArgMatches<'_>) -> Result<Option<Place>, JobFault>
    ensures ok { IfOk result (IsPlaceIf (first_of (codes "calling-at") (rows_of (found_of matches.now)))) }
    ensures err { IfErr result (λ fault. (fault ≡ JobFault.BadPlace)
        × HasBadGoal (rows_of (found_of matches.now))) }
{
    match word_of(matches, "calling-at") {
        Some(word) => match Place::of_word(word.as_bytes()) {
            Some(place) => Ok(Some(place)),
            None => Err(JobFault::BadPlace),
        },
        None => Ok(None),
    }
}

/// The form that the words name.
fn form_of(matches: &ArgMatches<'_>) -> Form
    ensures { result ≡ form_of (first_of (codes "form") (rows_of (found_of matches.now))) }
{
    match word_of(matches, "form") {
        Some("1") => Form::One,
        Some("3") => Form::Three,
        _ => Form::Two,
    }
}

/// The format that the words name, which is text if they name none.
fn format_of(matches: &ArgMatches<'_>) -> Format
    ensures { result ≡ format_of (first_of (codes "format") (rows_of (found_of matches.now))) }
{
    match word_of(matches, "format") {
        Some("tsv") => Format::Tsv,
        Some("json") => Format::Json,
        _ => Format::Text,
    }
}

/// The format of a table that the words name, which is TSV if they name none.
fn table_format_of(matches: &ArgMatches<'_>) -> Format
    ensures { result ≡ table_format_of (first_of (codes "format") (rows_of (found_of matches.now))) }
{
    match word_of(matches, "format") {
        Some("json") => Format::Json,
        _ => Format::Tsv,
    }
}

/// Whether the words have this flag.
fn has_flag(matches: &ArgMatches<'_>, id: &str) -> bool
    ensures { result ≡ has_flag id.now (rows_of (found_of matches.now)) }
{
    matches!(word_of(matches, id), Some("true"))
}

/// What the words waive.
fn waived_of(matches: &ArgMatches<'_>) -> Waived
    ensures { result ≡ waived_of (rows_of (found_of matches.now)) }
{
    if !has_flag(matches, "lenient") {
        Waived::Nothing
    } else if has_flag(matches, "in-sequence") {
        Waived::Keys
    } else {
        Waived::Everything
    }
}

/// The listing that the words name.
fn listing_of(matches: &ArgMatches<'_>) -> Listing
    ensures { result ≡ listing_of (rows_of (found_of matches.now)) }
{
    Listing {
        format: format_of(matches),
        calls: has_flag(matches, "stops"),
    }
}

// ---- the values of words

/// The table of this name.
fn table_of(word: &str) -> Table
    ensures { result ≡ table_of word.now }
{
    match word {
        "header" => Table::Header,
        "tiplocs" => Table::Tiplocs,
        "associations" => Table::Associations,
        "schedules" => Table::Schedules,
        "calls" => Table::Calls,
        "changes" => Table::Changes,
        _ => Table::Public,
    }
}

/// The day that a word names, YYMMDD or YYYY-MM-DD.
pub(crate) fn day_of_word(word: &str) -> Option<Day>
    ensures { MatchOption result (NamesNoDay word.now) (IsDateWord word.now) }
{
    Day::from_word(word.as_bytes())
}
