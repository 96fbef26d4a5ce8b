//! Laws of the commands on canonical extracts: each answers an input and its canonical extract by the same text and status.
ghost use Rattle.std.specs.Prelude.{◌≡◌, ◌↔◌, ℕ, List, false};
ghost use Rattle.cif_canon.specs.{Accepted.SpellsNarrowed, Asked.nothing_asked, Meaning.SameMeaning, Views.IsDayFault, declared.asked.Asked.Asked};
ghost use Rattle.cif_columns.specs.declared.line_reader.TheConstants.{MAX_LINES};
ghost use Rattle.cif_commands.specs.Answer.{IsBoardAnswer, IsCanonicalAnswer, IsCompareAnswer, IsDayAnswer, IsDiffAnswer, IsTrainAnswer};
ghost use Rattle.cif_commands.specs.declared.answers.CanonicalOutput.{CanonicalOutput};
ghost use Rattle.cif_commands.specs.declared.{job.BoardJob.BoardJob, job.CanonicalJob.CanonicalJob, job.CompareJob.CompareJob};
ghost use Rattle.cif_commands.specs.declared.{job.DayJob.DayJob, job.TrainJob.TrainJob};
ghost use Rattle.cif_extract.specs.{ExtractParts.ExtractParts, declared.fault.Fault.TheVariants.OutsideWindow};
ghost use Rattle.cif_laws.specs.CanonicalAnswers.{IsItsCanonical, OfExtract};
ghost use Rattle.cif_rows.specs.declared.{format.Format.Format, format.Format.TheVariants.Text};
ghost use Rattle.cif_weeks.specs.declared.form.Form.{Form};

/// `day`, on each date, also on one that is outside the window: of the canonical extract of the whole window.
pub fn days_of_canonical_extracts()
    ensures answered { (form : Form) (input canonical text : List ℕ) (job : DayJob) (status : ℕ)
        → IsItsCanonical form nothing_asked input canonical
        → IsDayAnswer job input text status ↔ IsDayAnswer job canonical text status }
    ensures refused { (form : Form) (input canonical : List ℕ) (d : ℕ) → IsItsCanonical form nothing_asked input canonical
        → OfExtract input (λ x. IsDayFault x d OutsideWindow) ↔ OfExtract canonical (λ x. IsDayFault x d OutsideWindow) }
{}

/// `departures` and `arrivals`, whose faults are those of `day`.
pub fn boards_of_canonical_extracts()
    ensures { (form : Form) (input canonical text : List ℕ) (job : BoardJob) (status : ℕ)
        → IsItsCanonical form nothing_asked input canonical
        → IsBoardAnswer job input text status ↔ IsBoardAnswer job canonical text status }
{}

/// `train`, in any form. What is accepted for some dates is so once it is canonical, for the same dates: no command but `day` and
/// the boards has another fault then.
pub fn trains_of_canonical_extracts()
    ensures answered { (form : Form) (input canonical text : List ℕ) (job : TrainJob) (status : ℕ)
        → IsItsCanonical form job.asked input canonical
        → IsTrainAnswer job input text status ↔ IsTrainAnswer job canonical text status }
    ensures accepted { (form : Form) (asked : Asked) (input canonical : List ℕ) → IsItsCanonical form asked input canonical
        → ((x : ExtractParts) × SpellsNarrowed MAX_LINES asked x input)
        × ((y : ExtractParts) × SpellsNarrowed MAX_LINES asked y canonical) }
{}

/// `normalise`, `check` and each table, in any form.
pub fn tables_of_canonical_extracts()
    ensures { (form : Form) (input canonical text : List ℕ) (output : CanonicalOutput) (job : CanonicalJob) (status : ℕ)
        → IsItsCanonical form job.asked input canonical
        → IsCanonicalAnswer output job input text status ↔ IsCanonicalAnswer output job canonical text status }
{}

/// `compare` and `diff`, each of two inputs with its own form, for the same dates.
pub fn comparisons_of_canonical_extracts()
    ensures compared { (form other_form : Form) (left right left_canonical right_canonical text : List ℕ) (job : CompareJob) (status : ℕ)
        → job.common ≡ false
        → IsItsCanonical form job.asked left left_canonical → IsItsCanonical other_form job.asked right right_canonical
        → IsCompareAnswer job left right text status ↔ IsCompareAnswer job left_canonical right_canonical text status }
    ensures listed { (form other_form : Form) (left right left_canonical right_canonical text : List ℕ) (format : Format)
        (job : CompareJob) (status : ℕ)
        → job.common ≡ false
        → IsItsCanonical form job.asked left left_canonical → IsItsCanonical other_form job.asked right right_canonical
        → IsDiffAnswer format job left right text status ↔ IsDiffAnswer format job left_canonical right_canonical text status }
{}

/// The text of `diff` tells what the right extract says, by what the left one says.
pub fn answers_of_diff_tell_the_right_extract()
    ensures { (left right other text : List ℕ) (job : CompareJob) (status other_status : ℕ) → job.common ≡ false
        → (a : IsDiffAnswer Text job left right text status) (b : IsDiffAnswer Text job left other text other_status)
        → a.right.header.columns ≡ b.right.header.columns → SameMeaning a.right b.right }
{}
