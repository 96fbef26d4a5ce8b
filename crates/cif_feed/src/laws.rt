//! Laws: which published extract and which update bytes spell, and what a prepared extract and an update say.
ghost use Rattle.std.specs.Prelude.{◌≡◌, ◌↔◌, ◌≤◌, ◌+◌, ◌++◌, ℕ, Bool, List, Option, None, Contains, IsTrue, false, length, IfErr, IfOk};
ghost use Rattle.std.specs.Prelude.{Result};
ghost use Rattle.cif_calendar.specs.Keys.{of_key as rows_of_train};
ghost use Rattle.cif_extract.specs.Body.{BodyLines};
ghost use Rattle.cif_weeks.specs.{Applies.Applies as RowApplies, Permanent.Permanent, Window.IsWithin, Window.window_from};
ghost use Rattle.cif_feed.specs.{PublishedParts.published_schedules, Winners.AreWinners, WinnersDays.SaysWhatRuns};
ghost use Rattle.cif_columns.specs.{Contents.contents_of, Field.columns, Source.Unread};
ghost use Rattle.cif_extract.specs.declared.fault.Fault.{Fault};
ghost use Rattle.cif_feed.specs.{FeedFault.IsFailure, FeedFault.IsFeedFault, FeedFault.IsReadAs, HolidayText.AreRead};
ghost use Rattle.cif_feed.specs.{HolidayText.IsHolidayFault, HolidayText.SpellHolidays, Judged.IsJudgedAs, Judged.IsJudgedFault};
ghost use Rattle.cif_feed.specs.{Judged.IsReadAsJudged, PublishedParts.SpellPublished, PublishedParts.published_lines};
ghost use Rattle.cif_feed.specs.PublishedParts.{IsPublishedOf, PublishedParts, published_parts, BytesSpellPublished};
ghost use Rattle.cif_feed.specs.{PublishedParts.published_text, UpdateParts.UpdateParts, UpdateParts.update_parts};
ghost use Rattle.cif_feed.specs.UpdateParts.{IsUpdateOf, BytesSpellUpdate, AssociationKey, ScheduleKey, SpellUpdate};
ghost use Rattle.cif_feed.specs.Unreached.{DoesNotReach, unreached};
ghost use Rattle.cif_feed.specs.declared.{changes.Waived.Waived, unreached.Unreached.Unreached};
ghost use Rattle.cif_feed.specs.declared.{changes.RecordChange.RecordChange, changes.RefusedLine.RefusedLine, dropped.Dropped.Dropped};
ghost use Rattle.cif_feed.specs.WrittenPrepared.{AreDroppedIf, IsDeviceOrMemory, IsPrepareFault, IsPreparedText, codes_named};
ghost use Rattle.cif_feed.specs.declared.{feed_fault.FeedFault.FeedFault, feed_line.Feed.Feed, feed_line.Feed.TheVariants.Full};
ghost use Rattle.cif_feed.specs.declared.{holiday_text.HolidayFault.HolidayFault, holidays.HolidayCode.HolidayCode};
ghost use Rattle.cif_feed.specs.declared.{holidays.HolidayCodes.HolidayCodes, holidays.Holidays.Holidays, judged.Judged.Judged};
ghost use Rattle.cif_feed.specs.declared.published_extract.PublishedAssociation.{PublishedAssociation};
ghost use Rattle.cif_feed.specs.declared.published_extract.PublishedExtract.{PublishedExtract};
ghost use Rattle.cif_feed.specs.declared.{published_extract.PublishedSchedule.PublishedSchedule, update.Update.Update};
ghost use Rattle.cif_feed.specs.declared.feed_line.Feed.TheVariants as feed;
ghost use Rattle.cif_calendar.specs.{Applies.Applies, Terms.Terms};
ghost use Rattle.cif_feed.specs.{FeedLine.SpellsInFeed, FromLines.ArePairs, HolidayCode.all_codes, LayoutRefusals.feed_refusal_as};
ghost use Rattle.cif_feed.specs.{OfProfile.as_published, OfProfile.of_profile, Prepared.part_terms, PreparedDays.SayAsPublished};
ghost use Rattle.cif_feed.specs.{PreparedParts.IsPrepared, RecordKeys.tiploc_key, UpdatesInTurn.IsRefused, UpdatesInTurn.IsWritten};
ghost use Rattle.cif_feed.specs.{WrittenExtracts.CodesMayStand};
ghost use Rattle.cif_feed.specs.declared.mark.Transaction.TheVariants as transaction;
ghost use Rattle.cif_feed.specs.Changes.{ChangeParts, HaveLastWord, TellsSame, after_all, last_word, put_last};
ghost use Rattle.cif_feed.specs.Changes.{transaction_of, untouched, of_key as records_of_key};
ghost use Rattle.cif_feed.specs.Parts.{AreParts, IsPart, Part, ended};
ghost use Rattle.cif_extract.specs.{ExtractParts.ExtractParts, SpellsExtract.BytesSpell, SpellsExtract.BytesSpellWithin, Texts.FitsColumns};
ghost use Rattle.cif_extract.specs.{Texts.extract_text};
ghost use Rattle.cif_feed.specs.Published.{AppliesAsPublished, CountOn, IsClashDay, IsStop, PublishedTerms};
ghost use Rattle.cif_feed.specs.UpdateLines.{SayTiplocs, SaysAssociation, SaysSchedule};
ghost use Rattle.cif_feed.specs.Updated.{IsUpdateFault, IsUpdated, MayBeDone, published_association_key, published_schedule_key};
ghost use Rattle.cif_records.specs.{Kind.kind_in, declared.record.Record.Record};
ghost use Rattle.cif_feed.specs.RecordLines.{is_association, is_basic, is_of_tiploc, lines_of};

use cif_calendar::Entry;

/// What bytes spell is what is read of them, where it is a result of `PublishedExtract::read`,
/// `Update::read`, `update_from`, `Judged::read`, `Holidays::read` or `write_prepared`, unless a device
/// fails or memory runs out.
pub fn what_bytes_spell_is_read()
    ensures published { (allowed : HolidayCodes) (max : ℕ) (bytes : List ℕ) (after : Unread)
        (x : PublishedParts) (result : Result PublishedExtract FeedFault)
        → BytesSpellPublished allowed max bytes x → IfOk result (IsPublishedOf allowed max bytes)
        → IfErr result (IsFeedFault Full allowed max bytes after) → IsReadAs published_parts x result }
    ensures update { (max : ℕ) (bytes : List ℕ) (after : Unread) (x : UpdateParts)
        (result : Result Update FeedFault) → BytesSpellUpdate max bytes x → IfOk result (IsUpdateOf max bytes)
        → IfErr result (IsFeedFault feed.Update all_codes max bytes after) → IsReadAs update_parts x result }
    ensures updated { (how : Waived) (max : ℕ) (old : PublishedParts) (bytes : List ℕ) (after : Unread)
        (u : UpdateParts) (fault : FeedFault) → BytesSpellUpdate max bytes u → MayBeDone how old u
        → IsUpdateFault how old max bytes after fault → IsFailure fault }
    ensures judged { (max : ℕ) (bytes : List ℕ) (after : Unread) (x : ExtractParts)
        (result : Result Judged Fault) → BytesSpellWithin max bytes x
        → IfOk result (IsJudgedAs max bytes after) → IfErr result (IsJudgedFault max bytes after)
        → IsReadAsJudged x result }
    ensures holidays { (bytes : List ℕ) (after : Unread) (h : Holidays)
        (result : Result Holidays HolidayFault) → SpellHolidays bytes h
        → IfErr result (IsHolidayFault bytes after) → AreRead result }
    ensures prepared { (h : Holidays) (max : ℕ) (bytes : List ℕ) (after : Unread) (x : PublishedParts)
        (fault : FeedFault) → BytesSpellPublished (codes_named h) max bytes x
        → IsPrepareFault h max bytes after fault → IsDeviceOrMemory fault }
{}

/// The parts of a record apply on exactly the dates on which it applies and isn't stopped: by a holiday of its
/// code, or, if clashes are dropped, by a clash of its key.
pub fn parts_apply_as_published<E: Entry>()
    // Among the parts of a record is each range that is one, so that there is one such list.
    ensures all { (drops : Bool) (h : Holidays) (entries : List (E.Key × PublishedTerms E.Body)) (first to : ℕ)
        (k : E.Key) (code : Option HolidayCode) (r : Terms E.Body) (parts : List Part) (p : Part)
        → AreParts (IsStop drops h entries first to k code) r parts
        → Contains parts p ↔ IsPart (IsStop drops h entries first to k code) r p }
    ensures parts { (drops : Bool) (h : Holidays) (entries : List (E.Key × PublishedTerms E.Body)) (first to : ℕ)
        (k : E.Key) (code : Option HolidayCode) (r : Terms E.Body) (last : ℕ) (parts : List Part) (d : ℕ)
        → AreParts (IsStop drops h entries first to k code) (ended last r) parts → d ≤ last → d ≤ r.last
        → (Applies r d × (¬ IsStop drops h entries first to k code d))
        ↔ ((p : Part) × Contains parts p × Applies (part_terms r p) d) }
    // A record counts and applies exactly if it is one of the key's that applies as published,
    ensures counts { (h : Holidays) (entries : List (E.Key × PublishedTerms E.Body))
        (k : E.Key) (d : ℕ) (r : Terms E.Body)
        → (CountOn h entries k d r × Applies r d)
        ↔ ((open_end : Bool) × (code : Option HolidayCode)
        × Contains entries (k, record { terms = r; open_end = open_end; code = code })
        × AppliesAsPublished h code r d) }
    // and without a code it applies as a record of this profile does.
    ensures plain { (h : Holidays) (r : Terms E.Body) (d : ℕ) → AppliesAsPublished h None r d ↔ Applies r d }
{}

/// What is written as the prepared extract says on each date of its window what the bytes that were read say, with
/// these holidays: the same wins, or, if clashes are dropped, nothing on a clash date, and each key that has one is
/// returned, with the first and their number.
pub fn prepared_texts_say_what_was_published()
    ensures { (bytes text : List ℕ) (h : Holidays) (drops : Bool) (max : ℕ) (dropped : Dropped)
        (p : PublishedParts) (x : ExtractParts)
        → IsPreparedText h drops max bytes text dropped → BytesSpellPublished (codes_named h) max bytes p
        → BytesSpell text x → SayAsPublished h drops p x × AreDroppedIf drops h p dropped }
{}

/// On each date of the window on which a published schedule of a train applies, one row of the train's winners shows which
/// schedule decides, and by it what runs; unless clashes are dropped and the date is one.
pub fn winners_say_what_runs()
    ensures some { (h : Holidays) (drops : Bool) (p : PublishedParts) (rows : List (List ℕ × Permanent ℕ))
        → AreWinners h drops p rows → (train : List ℕ) (d : ℕ) → IsWithin (window_from p.header.first p.header.last) d
        → ¬ (IsTrue drops × IsClashDay h (published_schedules p.schedules) p.header.first (p.header.last + 1) train d)
        → (r : Terms BodyLines) → CountOn h (published_schedules p.schedules) train d r → Applies r d
        → (row : Permanent ℕ) × rows_of_train rows train row × RowApplies row d }
    ensures one { (h : Holidays) (drops : Bool) (p : PublishedParts) (rows : List (List ℕ × Permanent ℕ))
        → AreWinners h drops p rows → (train : List ℕ) (d : ℕ) (row other : Permanent ℕ)
        → rows_of_train rows train row → rows_of_train rows train other → RowApplies row d → RowApplies other d → row ≡ other }
    ensures runs { (h : Holidays) (drops : Bool) (p : PublishedParts) (rows : List (List ℕ × Permanent ℕ))
        → AreWinners h drops p rows → (train : List ℕ) (d : ℕ) → IsWithin (window_from p.header.first p.header.last) d
        → (row : Permanent ℕ) → rows_of_train rows train row → RowApplies row d → SaysWhatRuns h p train d row.body }
{}

/// Which holidays don't reach the window of a published extract.
pub fn holidays_that_dont_reach()
    ensures found { (h : Holidays) (p : PublishedParts) (code : HolidayCode) (u : Unreached)
        → unreached h p code ≡ Some u → (u.code ≡ code) × DoesNotReach h p u }
    ensures only { (h : Holidays) (p : PublishedParts) (u : Unreached) → DoesNotReach h p u
        → unreached h p u.code ≡ Some u }
{}

/// What changes leave, by a test of whether two keys are the same.
pub fn changes_leave_the_last_word<K, I>()
    // Of each key, what the last change of it puts, or what was there.
    ensures last { (same : K → K → Bool) (records : List (K × I)) (changes : List (ChangeParts K I)) (key : K)
        → TellsSame same
        → records_of_key same (after_all same records changes) key
        ≡ last_word same (records_of_key same records key) changes key }
    // In order: what no change is of, and then what the changes put last.
    ensures order { (same : K → K → Bool) (records : List (K × I)) (changes : List (ChangeParts K I))
        → TellsSame same
        → after_all same records changes ≡ untouched same records changes ++ put_last same changes }
    // Two lists of changes one after the other are the one after the other.
    ensures sequence { (same : K → K → Bool) (records : List (K × I)) (one other : List (ChangeParts K I))
        → after_all same records (one ++ other) ≡ after_all same (after_all same records one) other }
{}

/// What an update says is what its lines say by their columns, line by line.
pub fn updates_say_what_their_lines_say()
    ensures locations { (max : ℕ) (bytes : List ℕ) (u : UpdateParts) → BytesSpellUpdate max bytes u
        → SayTiplocs (lines_of is_of_tiploc (contents_of bytes)) u.tiplocs }
    ensures associations { (max : ℕ) (bytes : List ℕ) (u : UpdateParts) → BytesSpellUpdate max bytes u
        → ArePairs SaysAssociation (lines_of is_association (contents_of bytes)) u.associations }
    ensures schedules { (max : ℕ) (bytes : List ℕ) (u : UpdateParts) → BytesSpellUpdate max bytes u
        → ArePairs SaysSchedule (lines_of is_basic (contents_of bytes)) u.schedules }
    // Two deletions of associations that agree in columns 3 to 21, 38 to 46 and 80 are the same,
    ensures same_association { (one other : ℕ × List ℕ) (c d : RecordChange AssociationKey PublishedAssociation)
        → SaysAssociation one c → SaysAssociation other d → transaction_of c.action ≡ transaction.Deleted
        → columns 3 21 one.1 ≡ columns 3 21 other.1 → columns 38 46 one.1 ≡ columns 38 46 other.1
        → columns 80 80 one.1 ≡ columns 80 80 other.1 → c.action ≡ d.action }
    // and two of schedules that agree in columns 3 to 15 and 80.
    ensures same_schedule { (one other : ℕ × List ℕ) (c d : RecordChange ScheduleKey PublishedSchedule)
        → SaysSchedule one c → SaysSchedule other d → transaction_of c.action ≡ transaction.Deleted
        → columns 3 15 one.1 ≡ columns 3 15 other.1 → columns 80 80 one.1 ≡ columns 80 80 other.1
        → c.action ≡ d.action }
{}

/// What an update leaves of each key: what the last of its lines with this key puts, or what was there. A line
/// that renames a location deletes the one TIPLOC, and then puts the other.
pub fn updates_leave_the_last_word()
    ensures locations { (max : ℕ) (bytes : List ℕ) (u : UpdateParts) (old new : PublishedParts) (key : List ℕ)
        → BytesSpellUpdate max bytes u → IsUpdated u old new
        → HaveLastWord tiploc_key old.tiplocs u.tiplocs new.tiplocs key }
    ensures associations { (max : ℕ) (bytes : List ℕ) (u : UpdateParts) (old new : PublishedParts)
        (key : AssociationKey) → BytesSpellUpdate max bytes u → IsUpdated u old new
        → HaveLastWord published_association_key old.associations u.associations new.associations key }
    ensures schedules { (max : ℕ) (bytes : List ℕ) (u : UpdateParts) (old new : PublishedParts)
        (key : ScheduleKey) → BytesSpellUpdate max bytes u → IsUpdated u old new
        → HaveLastWord published_schedule_key old.schedules u.schedules new.schedules key }
{}

/// Contents spell one published extract at most, and one update.
pub fn contents_spell_one_feed()
    ensures published { (allowed : HolidayCodes) (contents : List (List ℕ)) (p q : PublishedParts)
        → SpellPublished allowed contents p → SpellPublished allowed contents q → p ≡ q }
    ensures update { (contents : List (List ℕ)) (u v : UpdateParts)
        → SpellUpdate contents u → SpellUpdate contents v → u ≡ v }
{}

/// An extract of this profile is a published extract too, and prepares to itself, whatever the holidays are.
pub fn extracts_of_this_profile_prepare_to_themselves()
    // Bytes that spell it spell it as a published extract, whatever holiday codes may stand: no end of it is
    // open, and it has no holiday code.
    ensures published { (allowed : HolidayCodes) (max : ℕ) (bytes : List ℕ) (x : ExtractParts)
        → BytesSpellWithin max bytes x → BytesSpellPublished allowed max bytes (as_published x) }
    // It is its prepared extract, and no other is: the same records in the same order.
    ensures prepared { (h : Holidays) (x y : ExtractParts)
        → IsPrepared h false (as_published x) y ↔ (y ≡ x) }
{}

/// The text of a published extract spells it, with its open ends and holiday codes, where what it says
/// fits the columns of lines: as what contents spell does.
pub fn published_texts_spell_their_extracts()
    ensures fits { (allowed : HolidayCodes) (contents : List (List ℕ)) (p : PublishedParts)
        → SpellPublished allowed contents p → FitsColumns (of_profile p) }
    // Its holiday codes have to be among those that may stand,
    ensures spells { (allowed : HolidayCodes) (max : ℕ) (p : PublishedParts)
        → FitsColumns (of_profile p) → CodesMayStand allowed p.schedules → length (published_lines p) ≤ max
        → BytesSpellPublished allowed max (published_text p) p }
    // which an update allows all.
    ensures any_codes { (p : PublishedParts) → CodesMayStand all_codes p.schedules }
    ensures lines { (p : PublishedParts) → FitsColumns (of_profile p)
        → contents_of (published_text p) ≡ published_lines p }
    // What an update leaves fits the columns of lines too.
    ensures updated { (max : ℕ) (bytes : List ℕ) (u : UpdateParts) (old new : PublishedParts)
        → BytesSpellUpdate max bytes u → IsUpdated u old new
        → FitsColumns (of_profile old) → FitsColumns (of_profile new) }
{}

/// Updates that are done one after another are done in one run as in two: in the second, to what the first
/// wrote. All runs waive the same.
pub fn updates_in_turn()
    // A run with the updates of both writes and waives what the second writes and waives, where what the first
    // wrote isn't too long to be read.
    ensures written { (how : Waived) (max : ℕ) (full : List ℕ) (first second : List (List ℕ))
        (between : List ℕ) (waived : List RefusedLine)
        → IsWritten how max full first between waived → length (contents_of between) ≤ max
        → (written : List ℕ) (later : List RefusedLine)
        → IsWritten how max full (first ++ second) written (waived ++ later)
        ↔ IsWritten how max between second written later }
    // It is refused for what the second is refused for.
    ensures refused { (how : Waived) (max : ℕ) (full : List ℕ) (first second : List (List ℕ))
        (between : List ℕ) (waived : List RefusedLine)
        → IsWritten how max full first between waived → length (contents_of between) ≤ max
        → (fault : FeedFault)
        → IsRefused how max full (first ++ second) fault ↔ IsRefused how max between second fault }
    // A run writes and waives one thing at most, and nothing, if it is refused.
    ensures one { (how : Waived) (max : ℕ) (full : List ℕ) (updates : List (List ℕ))
        (a b : List ℕ) (v w : List RefusedLine)
        → IsWritten how max full updates a v → IsWritten how max full updates b w
        → (a ≡ b) × (v ≡ w) }
    ensures either { (how : Waived) (max : ℕ) (full : List ℕ) (updates : List (List ℕ))
        (written : List ℕ) (waived : List RefusedLine) (fault : FeedFault)
        → IsWritten how max full updates written waived → IsRefused how max full updates fault → ⊥ }
{}

/// The text of a prepared extract spells it, as an extract of this profile, where what the published one
/// says fits the columns of lines.
pub fn prepared_texts_spell_extracts()
    ensures fits { (h : Holidays) (drops : Bool) (p : PublishedParts) (x : ExtractParts)
        → FitsColumns (of_profile p) → IsPrepared h drops p x → FitsColumns x }
    ensures spells { (h : Holidays) (drops : Bool) (p : PublishedParts) (x : ExtractParts)
        → FitsColumns (of_profile p) → IsPrepared h drops p x → BytesSpell (extract_text x) x }
{}

/// A line of a feed spells one record at most, and then there is no reason to refuse it.
pub fn lines_of_feeds_spell_one_record()
    ensures one { (feed : Feed) (allowed : HolidayCodes) (line : List ℕ) (r q : Record)
        → SpellsInFeed feed allowed line r → SpellsInFeed feed allowed line q → r ≡ q }
    ensures fine { (feed : Feed) (allowed : HolidayCodes) (line : List ℕ) (r : Record)
        → SpellsInFeed feed allowed line r → feed_refusal_as feed allowed (kind_in line) line ≡ None }
{}
