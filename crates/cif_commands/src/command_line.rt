//! The command line of `cif`.
ghost use Rattle.std.specs.Prelude.{◌≡◌, IfOk, Some, false, map, string_bytes};
ghost use Rattle.clap.specs.Words.{FailsBy, app_of, new_app, rule_of, subcommand_rows_of, with_subcommand};
ghost use Rattle.clap.specs.declared.{Command.TheViews.out-Command, builder.ArgAction.TheVariants.SetTrue};
ghost use Rattle.clap.specs.declared.{builder.ValueParser.TheVariants.Names, builder.texts.Texts.TheVariants.One};
ghost use Rattle.cif_commands.specs.CommandLine.{AreChoices, IsCommand, argument, chosen, cif, faults_of, given, taken, taking};

use crate::help;
use Argument::{
    All, CallingAt, Common, Date, DropClashes, File, Form, Format, FromDate, Full, Holidays,
    InSequence, Left, Lenient, Place, Right, Stops, Table, TableFormat, ToDate, Uid, Updates,
    Verbose, Winners, WinnersFormat,
};
use clap::{Arg, ArgAction, ArgMatches, Command};
use std::alloc::{AllocError, Global};

/// How an argument is written.
#[derive(Clone, Copy)]
enum Syntax {
    /// By a word that may be left out.
    Word,
    /// By a word that may not be left out.
    Required,
    /// By one word or more.
    Several,
    /// By `--ID`.
    Flag,
    /// By `-v` or `--ID`.
    Verbose,
    /// By `--ID FILE`.
    Name,
    /// By `--ID YYMMDD`.
    Date,
    /// By `--ID PLACE`.
    Place,
    /// By `--ID FORM`.
    Form,
    /// By `--ID FORMAT`, where text is the default.
    Format,
    /// By `--ID FORMAT`, where a table in TSV is the default.
    TableFormat,
    /// By `--ID FORMAT`, where no table may be wanted.
    WinnersFormat,
    /// By a word that may not be left out, and names a table.
    Table,
}

/// What a subcommand can take.
#[derive(Clone, Copy)]
enum Argument {
    Verbose,
    File,
    Left,
    Right,
    Full,
    Updates,
    Uid,
    Date,
    FromDate,
    ToDate,
    All,
    Common,
    Stops,
    Holidays,
    DropClashes,
    Winners,
    WinnersFormat,
    Lenient,
    InSequence,
    Form,
    Format,
    TableFormat,
    Table,
    Place,
    CallingAt,
}

impl Argument {
    /// What it is called, how it is written, and what help says of it.
    fn given(self) -> (&'static str, Syntax, &'static str)
        ensures { (result.0.now, result.1) ≡ given self }
    {
        match self {
            Verbose => ("verbose", Syntax::Verbose, help::VERBOSE),
            File => ("FILE", Syntax::Word, help::FILE),
            Left => ("LEFT", Syntax::Required, help::LEFT),
            Right => ("RIGHT", Syntax::Required, help::RIGHT),
            Full => ("FULL", Syntax::Required, help::FULL),
            Updates => ("UPDATE", Syntax::Several, help::UPDATES),
            Uid => ("UID", Syntax::Required, help::UID),
            Date => ("YYMMDD", Syntax::Required, help::DATE),
            FromDate => ("from", Syntax::Date, help::FROM),
            ToDate => ("to", Syntax::Date, help::TO),
            All => ("all", Syntax::Flag, help::ALL),
            Common => ("common", Syntax::Flag, help::COMMON),
            Stops => ("stops", Syntax::Flag, help::STOPS),
            Holidays => ("holidays", Syntax::Name, help::HOLIDAYS),
            DropClashes => ("drop-clashes", Syntax::Flag, help::DROP_CLASHES),
            Winners => ("winners", Syntax::Flag, help::WINNERS),
            WinnersFormat => ("format", Syntax::WinnersFormat, help::WINNERS_FORMAT),
            Lenient => ("lenient", Syntax::Flag, help::LENIENT),
            InSequence => ("in-sequence", Syntax::Flag, help::IN_SEQUENCE),
            Form => ("form", Syntax::Form, help::FORM),
            Format => ("format", Syntax::Format, help::FORMAT),
            TableFormat => ("format", Syntax::TableFormat, help::TABLE_FORMAT),
            Table => ("TABLE", Syntax::Table, help::TABLES),
            Place => ("PLACE", Syntax::Required, help::PLACE),
            CallingAt => ("calling-at", Syntax::Place, help::CALLING_AT),
        }
    }
}

/// What a subcommand is called, what help says of it, and what it takes.
type Parts<'a> = (&'a str, &'a str, &'a [Argument]);

/// The words that name a form, those that name a format, those that name the format of a table, and those that name a
/// table.
#[derive(Clone, Copy)]
pub(crate) struct Choices<'a> {
    forms: &'a [&'a str],
    formats: &'a [&'a str],
    table_formats: &'a [&'a str],
    tables: &'a [&'a str],
}

/// All words that name one.
pub(crate) fn all_choices() -> Choices<'static>
    ensures { AreChoices result }
{
    Choices {
        forms: &["1", "2", "3"],
        formats: &["text", "tsv", "json"],
        table_formats: &["tsv", "json"],
        tables: &[
            "header",
            "tiplocs",
            "associations",
            "schedules",
            "calls",
            "changes",
            "public",
        ],
    }
}

/// The argument that is given so.
fn arg_of<'a>(alloc: Global, given: (&'a str, Syntax, &'a str), choices: &Choices<'a>) -> Arg<'a>
    ensures rule { rule_of result ≡ argument choices.now (given.entry.0.now, given.entry.1) }
    ensures local { result.global ≡ false }
{
    let (id, syntax, help) = given;
    let arg = Arg::new(alloc, id).help(help);
    match syntax {
        Syntax::Word => arg,
        Syntax::Required => arg.required(true),
        Syntax::Several => arg.required(true).num_args(1..),
        Syntax::Flag => flag(arg, id),
        Syntax::Verbose => flag(arg.short('v'), id),
        Syntax::Name => option(arg, id, "FILE"),
        Syntax::Date => option(arg, id, "YYMMDD"),
        Syntax::Place => option(arg, id, "PLACE"),
        Syntax::Form => one_of_or(option(arg, id, "FORM"), choices.forms, "2"),
        // Help would have these, and the names of tables, in a line of more than 80 columns.
        Syntax::Format => one_of_or(
            option(arg, id, "FORMAT"),
            choices.formats,
            "text",
        ).hide_possible_values(true),
        Syntax::TableFormat => one_of_or(option(arg, id, "FORMAT"), choices.table_formats, "tsv"),
        Syntax::WinnersFormat => option(arg, id, "FORMAT").value_parser(choices.table_formats),
        Syntax::Table => arg
            .required(true)
            .value_parser(choices.tables)
            .hide_possible_values(true),
    }
}

/// The argument by `--ID`.
fn flag<'a>(arg: Arg<'a>, id: &'a str) -> Arg<'a>
    ensures { result ≡ record arg.entry { long = Some id.entry; action = Some SetTrue } }
{
    arg.long(id).action(ArgAction::SetTrue)
}

/// The argument by `--ID` and a value, which help calls so.
fn option<'a>(arg: Arg<'a>, id: &'a str, value: &'a str) -> Arg<'a>
    ensures { result ≡ record arg.entry { long = Some id.entry; val_names = One value.entry } }
{
    arg.long(id).value_name(value)
}

/// The argument with a value that is one of these words, the default where it is left out.
fn one_of_or<'a>(arg: Arg<'a>, words: &'a [&'a str], default: &'a str) -> Arg<'a>
    ensures { result ≡ record arg.entry { value_parser = Some (Names words.entry); default_vals = One default.entry } }
{
    arg.value_parser(words).default_value(default)
}

/// A command of this name, and what help says of it: in its first line what the list of commands says.
fn described<'a>(alloc: Global, name: &'a str, help: &'a str) -> Command<'a>
    ensures { IsCommand (new_app name.entry.now) result }
{
    let (about, more) = help.split_once('\n').unwrap_or((help, ""));
    Command::new(alloc, name).about(about).after_help(more)
}

/// The command, with the subcommand of these parts too.
fn with_parts<'a>(
    alloc: Global,
    command: Command<'a>,
    parts: &Parts<'a>,
    choices: &Choices<'a>,
) -> Result<Command<'a>, AllocError>
    requires { (out-Command command).has_globals ≡ false }
    ensures { IfOk result (IsCommand (with_subcommand (app_of command.entry)
        (taking choices.now (new_app (taken parts.now).0) (taken parts.now).1).top)) }
{
    let (name, help, arguments) = *parts;
    let mut subcommand = described(alloc, name, help);
    for which in arguments {
        subcommand = subcommand.arg(arg_of(alloc, which.given(), choices))?;
    }
    command.subcommand(subcommand)
}

/// All subcommands, in the order of the help.
static SUBCOMMANDS: [Parts<'static>; 14] = [
    (
        "normalise",
        help::NORMALISE,
        &[Verbose, File, FromDate, ToDate, Form],
    ),
    (
        "check",
        help::CHECK,
        &[Verbose, File, FromDate, ToDate, Form, All],
    ),
    (
        "compare",
        help::COMPARE,
        &[Verbose, Left, Right, FromDate, ToDate, Common],
    ),
    (
        "diff",
        help::DIFF,
        &[Verbose, Left, Right, FromDate, ToDate, Common, Format],
    ),
    ("day", help::DAY, &[Verbose, Date, File, Stops, Format]),
    (
        "train",
        help::TRAIN,
        &[Verbose, Uid, File, FromDate, ToDate, Form, Stops, Format],
    ),
    (
        "explain",
        help::EXPLAIN,
        &[Verbose, Uid, Date, File, Format],
    ),
    (
        "clashes",
        help::CLASHES,
        &[Verbose, File, FromDate, ToDate, Format],
    ),
    (
        "table",
        help::TABLE,
        &[Verbose, Table, File, FromDate, ToDate, Form, TableFormat],
    ),
    (
        "calendar",
        help::CALENDAR,
        &[Verbose, Uid, File, FromDate, ToDate, Format],
    ),
    (
        "departures",
        help::DEPARTURES,
        &[Verbose, Place, Date, File, CallingAt, Format],
    ),
    (
        "arrivals",
        help::ARRIVALS,
        &[Verbose, Place, Date, File, Format],
    ),
    (
        "prepare",
        help::PREPARE,
        &[Verbose, File, Holidays, DropClashes, Winners, WinnersFormat],
    ),
    (
        "update",
        help::UPDATE,
        &[Verbose, Full, Updates, Lenient, InSequence],
    ),
];

/// The program with its subcommands.
fn program<'a>(alloc: Global, choices: &Choices<'a>) -> Result<Command<'a>, AllocError>
    ensures { IfOk result (IsCommand (cif choices.now)) }
{
    let mut command = described(alloc, "cif", help::CIF)
        .version("0.4.0")
        .subcommand_required(true);
    for parts in &SUBCOMMANDS {
        command = with_parts(alloc, command, parts, choices)?;
    }
    command.bin_name("cif")
}

/// The matches that `clap` gives for the words, of which the first is the program's name.
pub(crate) fn matches_of<'a>(
    alloc: Global,
    choices: &Choices<'a>,
    words: &'a [String],
) -> Result<ArgMatches<'a>, clap::Error>
    ensures ok { IfOk result (λ matches. subcommand_rows_of matches
        ≡ chosen choices.now (map string_bytes words.entry.now)) }
    ensures kinds { FailsBy (faults_of choices.now (map string_bytes words.entry.now)) result }
{
    program(alloc, choices)?.try_get_matches_from(words)
}
