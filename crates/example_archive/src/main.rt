//! Tells whether two extracts agree from one date to another, as an archive may ask before it keeps
//! today's extract beside yesterday's.
#![tactic(auto)]

ghost use Rattle.std.specs.Prelude.{◌≡◌, true, IfOk};
ghost use Rattle.cif_columns.specs.Sink.{writer_of};
ghost use Rattle.example_archive.specs.Archive.{AreCanonicalBytes, IsAnswer};
ghost use Rattle.cif_canon.specs.NormalForm.{after_first_line};

mod by_hand;

use anyhow::{Context, bail};
use cif_canon::{Asked, normalise};
use cif_columns::{Day, MAX_LINES, Sink, Source};
use cif_extract::Fault;
use cif_weeks::Form;
use std::alloc::Global;
use std::process::ExitCode;
use std::{env, fs};

/// The bytes of the header's line: eighty columns and a line feed.
const HEADER_LINE: usize = 81;

/// Whether two extracts agree from one date to another: the same locations, and on each date the
/// same associations and the same trains. They do exactly if their canonical bytes for these dates
/// are equal after the header's line, whatever else the two headers say.
fn agree(alloc: Global, from: Day, to: Day, one: &[u8], other: &[u8]) -> Result<bool, Fault>
    ensures { IfOk result (IsAnswer from to one.now other.now) }
{
    let one = canonical_bytes(alloc, from, to, one)?;
    let other = canonical_bytes(alloc, from, to, other)?;
    Ok(after_header(one.writer()) == after_header(other.writer()))
}

/// A sink with the canonical bytes of an extract from one date to another.
fn canonical_bytes(
    alloc: Global,
    from: Day,
    to: Day,
    extract: &[u8],
) -> Result<Sink<Vec<u8>>, Fault>
    ensures { IfOk result (λ sink. AreCanonicalBytes from to extract.now (writer_of sink).items) }
{
    let mut source = Source::new(extract);
    let mut sink = Sink::new(Vec::new(alloc));
    let asked = Asked {
        from: Some(from),
        to: Some(to),
    };
    normalise(alloc, &mut source, &mut sink, MAX_LINES, &asked, Form::Two)?;
    Ok(sink)
}

/// What follows the header's line.
fn after_header(bytes: &[u8]) -> &[u8]
    ensures { result.now ≡ after_first_line bytes.now }
{
    if bytes.len() < HEADER_LINE {
        &[]
    } else {
        &bytes[HEADER_LINE..]
    }
}

/// Whether the canonical bytes of an extract stay the same when they are normalised again. They
/// always do, so an archive can keep them in place of the extract.
fn stay_the_same(alloc: Global, from: Day, to: Day, extract: &[u8]) -> Result<bool, Fault>
    ensures { IfOk result (λ same. same ≡ true) }
{
    let once = canonical_bytes(alloc, from, to, extract)?;
    let twice = canonical_bytes(alloc, from, to, once.writer())?;
    Ok(once.writer().as_slice() == twice.writer().as_slice())
}

/// The date that an argument YYMMDD names.
fn date_of(argument: &str) -> anyhow::Result<Day> {
    let columns = argument.as_bytes().try_into()?;
    Day::from_yymmdd(columns).context("no date")
}

/// Answers whether the extracts agree, and says so.
fn run(rt: &HostRuntime) -> anyhow::Result<bool> {
    let arguments = env::args(rt)?.collect::<Vec<String>>(rt.alloc())?;
    let [_, from, to, archived, offered] = arguments.as_slice() else {
        bail!("usage: example_archive FROM TO ARCHIVED OFFERED, with dates YYMMDD");
    };
    let (from, to) = (date_of(from)?, date_of(to)?);
    let archived = fs::read(rt, archived.as_str())?;
    let offered = fs::read(rt, offered.as_str())?;
    let same = agree(
        rt.alloc(),
        from,
        to,
        archived.as_slice(),
        offered.as_slice(),
    )?;
    println!(rt; "{}", if same { "the same" } else { "something else" })?;
    if stay_the_same(rt.alloc(), from, to, archived.as_slice())? {
        println!(rt; "normalised again, the bytes stay the same")?;
    }
    let made = by_hand::extract(rt.alloc(), from, to).context("no extract")?;
    if by_hand::reads_back(rt.alloc(), &made)? {
        println!(rt; "an extract made by hand reads back")?;
    }
    Ok(same)
}

/// Ends with status 0 where the extracts agree, 1 where they don't, and 2 where there is no answer:
/// the standard error says why.
fn main(rt: HostRuntime) -> ExitCode {
    match run(&rt) {
        Ok(same) => ExitCode::from(u8::from(!same)),
        Err(error) => {
            let _ = eprintln!(rt; "example_archive: {error}");
            ExitCode::from(2)
        }
    }
}
