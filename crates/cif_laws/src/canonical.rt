//! Laws of canonical extracts: what the canonical bytes of an input say of it.
ghost use Rattle.std.specs.Prelude.{◌≡◌, ◌↔◌, ℕ, List, true};
ghost use Rattle.cif_canon.specs.{Accepted.IsAccepted, Accepted.IsClearExtract, Canon.CanonParts, Canon.IsCanonOf, Comparison.AreCompared};
ghost use Rattle.cif_canon.specs.{Meaning.SameMeaning, NormalForm.IsNormalFormOf};
ghost use Rattle.cif_canon.specs.Asked.{AskedDatesAreWithin, header_window, nothing_asked, window_asked};
ghost use Rattle.cif_canon.specs.Differences.{AreDifferences, DifferencesParts, TurnLeftIntoRight, differences_text};
ghost use Rattle.cif_canon.specs.Views.{DayTexts, IsDayListed, IsTrainListed, TrainTexts};
ghost use Rattle.cif_canon.specs.declared.{asked.Asked.Asked, comparison.Comparison.Comparison};
ghost use Rattle.cif_extract.specs.{ExtractParts.ExtractParts, Texts.FitsColumns};
ghost use Rattle.cif_feed.specs.{OfProfile.as_published, PreparedParts.IsPrepared};
ghost use Rattle.cif_feed.specs.declared.holidays.Holidays.{Holidays};
ghost use Rattle.cif_laws.specs.Examples.{example_canonical, example_input};
ghost use Rattle.cif_weeks.specs.declared.{form.Form.Form, form.Form.TheVariants.Two};

/// Canonical bytes of an input, narrowed to a part of their window, are what the input is, narrowed to that part: of
/// any form, from any form.
pub fn canonical_extracts_narrow_as_their_inputs()
    ensures { (form other_form : Form) (asked asked_of_input asked_of_canonical : Asked)
        (input canonical narrower : List ℕ)
        (n : IsNormalFormOf form asked input canonical)
        (m : IsNormalFormOf other_form asked_of_input input narrower)
        → AskedDatesAreWithin asked_of_canonical n.meant.header
        → window_asked asked_of_canonical n.meant.header ≡ header_window m.meant.header
        → IsNormalFormOf other_form asked_of_canonical canonical narrower }
{}

/// Canonical bytes are accepted for the same dates asked for as their input, and then say the same.
pub fn canonical_extracts_say_what_their_inputs_say()
    ensures clear { (asked : Asked) (input : List ℕ) (x : ExtractParts) → IsAccepted asked x input → IsClearExtract x }
    ensures same { (form : Form) (asked : Asked) (input canonical : List ℕ) (x : ExtractParts)
        → IsNormalFormOf form asked input canonical → IsAccepted asked x input
        → (y : ExtractParts) × IsAccepted asked y canonical × SameMeaning x y }
{}

/// Of clear extracts that say the same, the views are the same: what runs on a day, when a train runs, the canonical
/// extract with its records and their number, of which tables are made, and how each compares and differs.
pub fn what_says_the_same_has_the_same_views()
    ensures day { (x y : ExtractParts) (listed : DayTexts) (day : ℕ) (text : List ℕ) → SameMeaning x y
        → IsClearExtract x → IsClearExtract y → IsDayListed listed x day text ↔ IsDayListed listed y day text }
    ensures train { (x y : ExtractParts) (listed : TrainTexts) (form : Form) (uid text : List ℕ) → SameMeaning x y
        → IsClearExtract x → IsClearExtract y
        → IsTrainListed listed form x uid text ↔ IsTrainListed listed form y uid text }
    ensures canon { (x y : ExtractParts) (form : Form) (c d : CanonParts) → SameMeaning x y
        → IsCanonOf form x c → IsCanonOf form y d → c ≡ d }
    ensures compared { (x y z w : ExtractParts) (comparison : Comparison) → SameMeaning x y → SameMeaning z w
        → IsClearExtract x → IsClearExtract y → IsClearExtract z → IsClearExtract w
        → AreCompared x z comparison ↔ AreCompared y w comparison }
    ensures differences { (x y z w : ExtractParts) (d : DifferencesParts) → SameMeaning x y → SameMeaning z w
        → IsClearExtract x → IsClearExtract y → IsClearExtract z → IsClearExtract w
        → AreDifferences x z d ↔ AreDifferences y w d }
{}

/// A clear extract of this profile prepares to itself without its clashes, too: it has none.
pub fn clear_extracts_prepare_to_themselves()
    ensures { (h : Holidays) (x y : ExtractParts) → IsClearExtract x
        → IsPrepared h true (as_published x) y ↔ (y ≡ x) }
{}

/// The text of differences tells what the right extract says, by what the left one says: `turn` of `differences` holds of
/// all that are found.
pub fn differences_tell_the_right_extract()
    ensures { (x y z : ExtractParts) (d e : DifferencesParts) → FitsColumns x → FitsColumns y → FitsColumns z
        → AreDifferences x y d → TurnLeftIntoRight x y d → AreDifferences x z e → TurnLeftIntoRight x z e
        → differences_text d ≡ differences_text e → y.header.columns ≡ z.header.columns → SameMeaning y z }
{}

/// An input with its canonical bytes: what the definitions ask for is met by real bytes.
pub fn an_input_has_its_canonical_bytes()
    ensures { IsNormalFormOf Two nothing_asked example_input example_canonical }
{}
