//! Laws of published feeds: what becomes of one that `prepare` writes, and `normalise`, `compare` and `diff` read.
ghost use Rattle.std.specs.Prelude.{◌≡◌, ◌≢◌, ◌↔◌, ◌≤◌, ℕ, All, Bool, List, Option, false};
ghost use Rattle.cif_canon.specs.{Accepted.IsAcceptedWithin, Comparison.AreCompared, Differences.AreDifferences};
ghost use Rattle.cif_canon.specs.{Differences.DifferencesParts, NormalForm.IsNormalFormOf, NormalForm.after_first_line, Pair.SpellPair};
ghost use Rattle.cif_canon.specs.Asked.{header_window, nothing_asked, window_asked};
ghost use Rattle.cif_canon.specs.declared.{asked.Asked.Asked, comparison.Comparison.Comparison};
ghost use Rattle.cif_columns.specs.declared.line_reader.TheConstants.{MAX_LINES};
ghost use Rattle.cif_extract.specs.{Body.BodyLines, ExtractParts.ExtractParts};
ghost use Rattle.cif_feed.specs.{Changes.key_of, HolidayText.SpellHolidays, UpdateParts.UpdateParts, WrittenPrepared.IsPreparedText};
ghost use Rattle.cif_feed.specs.HolidayCode.{all_codes};
ghost use Rattle.cif_feed.specs.PublishedParts.{BytesSpellPublished, PublishedParts, published_associations, published_schedules};
ghost use Rattle.cif_feed.specs.Updated.{IsUpdated, published_association_key, published_schedule_key};
ghost use Rattle.cif_feed.specs.declared.{changes.Waived.Waived, dropped.Dropped.Dropped, holidays.Holidays.Holidays};
ghost use Rattle.cif_laws.specs.Examples.{example_feed, example_holidays, example_prepared, example_prepared_canonical};
ghost use Rattle.cif_laws.specs.FeedChains.{HasOutcome, IsChain, SaysWhatChainSays, SpellUpdates};
ghost use Rattle.cif_laws.specs.{FeedDifferences.AreFeedDifferences, FeedDifferences.IsFeedComparison, PublishedFeed.FeedRuns};
ghost use Rattle.cif_laws.specs.{PublishedFeed.feed_of};
ghost use Rattle.cif_laws.specs.Feeds.{FeedsAgree, FeedsSayTheSame, IsFeedAccepted, SaysWhatFeedSays, columns_asked};
ghost use Rattle.cif_records.specs.declared.{association.AssocBody.AssocBody, association.AssocKey.AssocKey};
ghost use Rattle.cif_weeks.specs.declared.{form.Form.Form, form.Form.TheVariants.Two};

/// What is prepared of a feed is accepted for the dates that are asked for exactly if it isn't too long, the
/// dates lie in its window, and, unless clashes are dropped, none is in the window that is asked for.
pub fn prepared_feeds_are_accepted()
    ensures { (h : Holidays) (drops : Bool) (max limit : ℕ) (bytes text : List ℕ) (dropped : Dropped)
        (asked : Asked) (a : IsPreparedText h drops limit bytes text dropped)
        → ((x : ExtractParts) × IsAcceptedWithin max asked x text) ↔ IsFeedAccepted max asked text (feed_of a) }
{}

/// The canonical extract of what is prepared of a feed has the header of the feed, with the window that is asked
/// for, and says on each date of that window what the feed says.
pub fn canonical_extracts_say_what_feeds_say()
    ensures header { (h : Holidays) (drops : Bool) (limit : ℕ) (bytes text canonical : List ℕ) (dropped : Dropped)
        (form : Form) (asked : Asked) (a : IsPreparedText h drops limit bytes text dropped)
        (n : IsNormalFormOf form asked text canonical)
        → n.canonical.made.header.columns ≡ columns_asked asked a.published.header }
    ensures says { (h : Holidays) (drops : Bool) (limit : ℕ) (bytes text canonical : List ℕ) (dropped : Dropped)
        (form : Form) (asked : Asked) (a : IsPreparedText h drops limit bytes text dropped)
        (n : IsNormalFormOf form asked text canonical)
        → SaysWhatFeedSays (window_asked asked a.published.header) n.canonical.made (feed_of a) }
{}

/// The theorem for feeds: the canonical extracts of what is prepared of two feeds, in one form, are equal exactly
/// if the feeds say the same, each of the window that is asked for.
pub fn equal_bytes_are_equal_feeds()
    ensures whole { (h i : Holidays) (drops other_drops : Bool) (limit other_limit : ℕ)
        (bytes text canonical other_bytes other_text other_canonical : List ℕ) (dropped other_dropped : Dropped)
        (form : Form) (asked other_asked : Asked)
        (a : IsPreparedText h drops limit bytes text dropped)
        (b : IsPreparedText i other_drops other_limit other_bytes other_text other_dropped)
        → IsNormalFormOf form asked text canonical → IsNormalFormOf form other_asked other_text other_canonical
        → (canonical ≡ other_canonical) ↔ FeedsSayTheSame asked (feed_of a) other_asked (feed_of b) }
    // Where only the windows are equal, they are equal after their first lines exactly if the feeds agree.
    ensures after_header { (h i : Holidays) (drops other_drops : Bool) (limit other_limit : ℕ)
        (bytes text canonical other_bytes other_text other_canonical : List ℕ) (dropped other_dropped : Dropped)
        (form : Form) (asked other_asked : Asked)
        (a : IsPreparedText h drops limit bytes text dropped)
        (b : IsPreparedText i other_drops other_limit other_bytes other_text other_dropped)
        → IsNormalFormOf form asked text canonical → IsNormalFormOf form other_asked other_text other_canonical
        → window_asked asked a.published.header ≡ window_asked other_asked b.published.header
        → (after_first_line canonical ≡ after_first_line other_canonical)
        ↔ FeedsAgree (window_asked asked a.published.header) (feed_of a) (feed_of b) }
{}

/// What is prepared of two feeds compares as the feeds do, and differs in what they differ in, in the window that is
/// asked for of both.
pub fn comparisons_are_of_feeds()
    ensures compared { (h i : Holidays) (drops other_drops : Bool) (limit other_limit : ℕ)
        (bytes text other_bytes other_text : List ℕ) (dropped other_dropped : Dropped)
        (asked : Asked) (common : Bool) (x y : ExtractParts) (comparison : Comparison)
        (a : IsPreparedText h drops limit bytes text dropped)
        (b : IsPreparedText i other_drops other_limit other_bytes other_text other_dropped)
        → SpellPair asked common text other_text x y → AreCompared x y comparison
        → IsFeedComparison (header_window x.header) (feed_of a) (feed_of b) comparison }
    ensures differences { (h i : Holidays) (drops other_drops : Bool) (limit other_limit : ℕ)
        (bytes text other_bytes other_text : List ℕ) (dropped other_dropped : Dropped)
        (asked : Asked) (common : Bool) (x y : ExtractParts) (d : DifferencesParts)
        (a : IsPreparedText h drops limit bytes text dropped)
        (b : IsPreparedText i other_drops other_limit other_bytes other_text other_dropped)
        → SpellPair asked common text other_text x y → AreDifferences x y d
        → AreFeedDifferences (header_window x.header) (feed_of a) (feed_of b) d }
{}

/// Of a key that no line of an update names, the extract that it leaves says what the extract before it says.
pub fn updates_leave_other_keys_alone()
    ensures associations { (u : UpdateParts) (old new : PublishedParts) (h : Holidays) (drops : Bool)
        (k : AssocKey) (d : ℕ) (o : Option AssocBody) → IsUpdated u old new
        → All (λ c. (key_of published_association_key c.action).0 ≢ k) u.associations
        → FeedRuns drops h (published_associations old.associations) k d o
        ↔ FeedRuns drops h (published_associations new.associations) k d o }
    ensures trains { (u : UpdateParts) (old new : PublishedParts) (h : Holidays) (drops : Bool)
        (uid : List ℕ) (d : ℕ) (o : Option BodyLines) → IsUpdated u old new
        → All (λ c. (key_of published_schedule_key c.action).0 ≢ uid) u.schedules
        → FeedRuns drops h (published_schedules old.schedules) uid d o
        ↔ FeedRuns drops h (published_schedules new.schedules) uid d o }
{}

/// That there is an answer, memory and devices aside: a full extract and updates, each as it is spelled, are written, or one of
/// the updates is refused.
pub fn updates_have_an_outcome()
    ensures { (how : Waived) (max : ℕ) (full : List ℕ) (old : PublishedParts) (updates : List (List ℕ)) (us : List UpdateParts)
        → BytesSpellPublished all_codes max full old → SpellUpdates max updates us → HasOutcome how max full updates }
{}

/// The whole chain of published files, over bytes: what `normalise` writes of what `prepare` writes of what `update` writes says on each
/// date of the window that is asked for what the last lines say that name each key, of the full extract or of the updates,
/// with the holidays.
pub fn chains_say_what_their_last_lines_say()
    ensures { (how : Waived) (max limit : ℕ) (h : Holidays) (drops : Bool) (form : Form) (asked : Asked) (full first : List ℕ)
        (others : List (List ℕ)) (canonical : List ℕ)
        (chain : IsChain how max limit h drops form asked full first others canonical) → SaysWhatChainSays h drops asked chain }
{}

/// A feed with a holiday, the text of the holidays, what `prepare` writes of them, and its canonical bytes: what the
/// definitions ask for is met by real bytes.
pub fn a_feed_has_its_prepared_bytes()
    ensures prepared { (h : Holidays) × (dropped : Dropped) × SpellHolidays example_holidays h
        × IsPreparedText h false MAX_LINES example_feed example_prepared dropped }
    ensures canonical { IsNormalFormOf Two nothing_asked example_prepared example_prepared_canonical }
{}
