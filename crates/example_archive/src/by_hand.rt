//! An extract that is made, and not read, has a canonical text too.
ghost use Rattle.std.specs.Prelude.{◌≡◌, ◌≤◌, true, IfOk};
ghost use Rattle.cif_columns.specs.Sink.{writer_of};
ghost use Rattle.cif_extract.specs.ExtractParts.{extract_parts};
ghost use Rattle.example_archive.specs.ByHand.{IsCanonicalTextOf};

use cif_canon::canon;
use cif_columns::{Day, Line, MAX_LINES, Sink, Source, Stp};
use cif_extract::{Body, Extract, Fault, Schedule, read_extract};
use cif_records::{Association, Basic, Header, Origin, Terminus};
use cif_weeks::Form;
use std::alloc::Global;

const HEADER: &[u8; 80] =
    b"HDTPS.UTEST01.PD2601040401262000DFTEST1       FA050126250126                    ";

const ASSOCIATION: &[u8; 80] =
    b"AANC00123C004562601052601251111100JJSDUNDEE   TP                               P";

const SCHEDULE: &[u8; 80] =
    b"BSNC001232601052601251111100 PXX1A23    122104000 DMU    090      B            P";

const ORIGIN: &[u8; 80] =
    b"LOABRDEEN 0900 09001         TB                                                 ";

const TERMINUS: &[u8; 80] =
    b"LTEDINBUR 1130H1131      TF                                                     ";

/// An extract of an association and a train from one date to another; `None` where the first date
/// is after the last, or out of memory.
pub fn extract(alloc: Global, from: Day, to: Day) -> Option<Extract> {
    if to < from {
        return None;
    }
    let header = Header::read(&Line::of(*HEADER)?).ok()?;
    let association = Association::read(&Line::of(*ASSOCIATION)?).ok()?;
    let mut associations = Vec::new(alloc);
    associations
        .push(Association {
            key: association.key,
            first: from,
            last: to,
            days: association.days,
            letter: association.letter,
            body: association.body,
        })
        .ok()?;
    let mut schedules = Vec::new(alloc);
    schedules.push(schedule(alloc, from, to)?).ok()?;
    Some(Extract {
        header: header.with_window(from, to),
        tiplocs: Vec::new(alloc),
        associations,
        schedules,
    })
}

/// The train of the extract.
fn schedule(alloc: Global, from: Day, to: Day) -> Option<Schedule>
    requires { from ≤ to }
{
    let basic = Basic::read(&Line::of(*SCHEDULE)?).ok()?;
    let origin = Origin::read(&Line::of(*ORIGIN)?).ok()?;
    let terminus = Terminus::read(&Line::of(*TERMINUS)?).ok()?;
    let body = Body::of(alloc, &basic.detail?, None, &origin, &[], &terminus).ok()?;
    Some(Schedule {
        uid: basic.uid,
        first: from,
        last: to,
        days: basic.days,
        letter: Stp::P,
        body: Some(body),
    })
}

/// Whether the canonical text of an extract, read again, has that text too. It always has, as no
/// other text is canonical and says the same.
pub fn reads_back(alloc: Global, extract: &Extract) -> Result<bool, Fault>
    ensures { IfOk result (λ same. same ≡ true) }
{
    let text = canonical_text(alloc, extract)?;
    let mut source = Source::new(text.writer().as_slice());
    let read = read_extract(alloc, &mut source, MAX_LINES)?;
    let again = canonical_text(alloc, &read)?;
    Ok(text.writer().as_slice() == again.writer().as_slice())
}

/// A sink with the canonical text of an extract.
fn canonical_text(alloc: Global, extract: &Extract) -> Result<Sink<Vec<u8>>, Fault>
    ensures { IfOk result (λ sink.
        IsCanonicalTextOf (extract_parts extract.now) (writer_of sink).items) }
{
    let mut sink = Sink::new(Vec::new(alloc));
    canon(alloc, extract, Form::Two)?.write(&mut sink)?;
    Ok(sink)
}
