//! The lines of a canonical form, one by one.
ghost use Rattle.std.specs.{List.enumerate_from, List.flat_map, Prelude.All, Prelude.map, Prelude.◌≡◌};
ghost use Rattle.cif_calendar.specs.Entries.{schedule_entries};
ghost use Rattle.cif_canon.specs.{Appended.IsAppended, Lines.line_of_tiploc, Steps.Texts.HasRecord, Steps.Texts.numbered_text};

use crate::canonical_form::{
    Canon, CanonRecord, CanonSchedule, look_ahead_at, record_of, write_runs,
};
use crate::writing::Texts;
use cif_columns::{Line, Sink, WriteDevice};
use cif_extract::Schedule;
use cif_records::{AssocBody, AssocKey, Tiploc};
use cif_weeks::Run;

/// What is listed of a canonical form: a text for each association, and one for each schedule with
/// its number.
pub trait CanonListing {
    ghost use Rattle.std.specs.Prelude.{ℕ, List};
    ghost use Rattle.cif_canon.specs.Lines.{ScheduleLines, schedule_plain};

    // The text of an association, by its line.
    ghost association_text: { Self → List ℕ → List ℕ };

    // The text of a schedule, by its number and its lines.
    ghost schedule_text: { Self → ℕ → ScheduleLines → List ℕ };

    /// Appends the text of the association with this line.
    fn write_association<W: WriteDevice>(&self, line: &Line, sink: &mut Sink<W>)
        ensures { IsAppended W.contents W.write_errors (association_text self.now line.now) sink.old sink.new };

    /// Appends the text of the schedule with this number.
    fn write_schedule<W: WriteDevice>(
        &self,
        number: usize,
        schedule: &CanonSchedule<'_>,
        sink: &mut Sink<W>,
    )
        ensures { IsAppended W.contents W.write_errors
            (schedule_text self.now number (schedule_plain schedule.now)) sink.old sink.new };
}

impl<'a> Canon<'a> {
    /// The line of its header.
    #[tactic(auto, unfolding(crate::specs::Steps::Texts::canon_lines))]
    pub fn header_line(&self) -> Line
        ensures { result ≡ self.now.lines.header }
    {
        self.extract.header.write()
    }

    /// Its locations, rising.
    #[tactic(auto, unfolding(crate::specs::Steps::Texts::canon_lines))]
    pub fn tiplocs(&self) -> &[Tiploc]
        ensures { map line_of_tiploc result.now ≡ self.now.lines.tiplocs }
    {
        self.tiplocs.as_slice()
    }

    /// Appends what is listed of its associations, in their order.
    pub fn list_associations<L: CanonListing, W: WriteDevice>(
        &self,
        listing: &L,
        sink: &mut Sink<W>,
    )
        ensures { IsAppended W.contents W.write_errors
            (flat_map (L.association_text listing.now) self.now.lines.associations) sink.old sink.new }
    {
        write_runs(
            &ListedLines { listing },
            self.extract.associations.as_slice(),
            self.associations.as_slice(),
            sink,
        );
    }

    /// Appends what is listed of its schedules, in their order, which are numbered from 1 on.
    pub fn list_schedules<L: CanonListing, W: WriteDevice>(&self, listing: &L, sink: &mut Sink<W>)
        ensures { IsAppended W.contents W.write_errors
            (flat_map (λ s. L.schedule_text listing.now s.0 s.1) (enumerate_from 1 self.now.lines.schedules))
            sink.old sink.new }
    {
        list_runs(
            listing,
            self.extract.schedules.as_slice(),
            self.schedules.as_slice(),
            sink,
        );
    }
}

/// What is listed of associations, by their lines.
#[derive(Drop)]
struct ListedLines<'a, L> {
    listing: &'a L,
}

impl<'a, 'b, L: CanonListing> Texts<CanonRecord<'b, AssocKey, AssocBody>> for ListedLines<'a, L> {
    ghost use Rattle.cif_canon.specs.Lines.{association_plain};

    ghost text = { λ lines e. L.association_text lines.listing.now (association_plain e) };

    fn write<W: WriteDevice>(
        &self,
        item: &CanonRecord<'b, AssocKey, AssocBody>,
        sink: &mut Sink<W>,
    ) {
        self.listing.write_association(&item.line(), sink);
    }
}

/// Appends what is listed of the runs' schedules, which are numbered from 1 on.
fn list_runs<L: CanonListing, W: WriteDevice>(
    listing: &L,
    schedules: &[Schedule],
    runs: &[Run],
    sink: &mut Sink<W>,
)
    requires { All (HasRecord (schedule_entries schedules.now)) runs.now }
    ensures { IsAppended W.contents W.write_errors
        (flat_map (numbered_text (L.schedule_text listing.now) (schedule_entries schedules.now)) (enumerate_from 1 runs.now))
        sink.old sink.new }
{
    for (at, run) in runs.iter().enumerate() {
        look_ahead_at(schedules, runs, at);
        listing.write_schedule(at + 1, &record_of(schedules, run), sink);
    }
}
