//! Laws of the commands on what `prepare` writes of a published feed: what they show of it is what the feed says.
ghost use Rattle.std.specs.Prelude.{◌≤◌, ℕ, Bool, Contains, List};
ghost use Rattle.cif_calendar.specs.{DayState.IsDayState, Entries.schedule_entries, Keys.of_key};
ghost use Rattle.cif_calendar.specs.declared.day_state.DayState.{DayState};
ghost use Rattle.cif_canon.specs.{Accepted.SpellsNarrowed, Asked.header_window, Asked.window_asked, declared.asked.Asked.Asked};
ghost use Rattle.cif_canon.specs.Views.{DayTexts, IsDayListed, IsTrainListed, TrainTexts};
ghost use Rattle.cif_extract.specs.{ExtractParts.ExtractParts, SpellsExtract.BytesSpellWithin};
ghost use Rattle.cif_feed.specs.{WrittenPrepared.IsPreparedText, declared.dropped.Dropped.Dropped, declared.holidays.Holidays.Holidays};
ghost use Rattle.cif_laws.specs.FeedViews.{AreRecordsOfFeed, AreRunningByFeed, IsBoardRowOfFeed, IsFeedState};
ghost use Rattle.cif_laws.specs.{Feeds.SaysWhatFeedSays, PublishedFeed.feed_of};
ghost use Rattle.cif_rows.specs.declared.format.Format.{Format};
ghost use Rattle.cif_views.specs.{Boards.IsBoard, declared.board.Board.Board, declared.board.BoardRow.BoardRow};
ghost use Rattle.cif_weeks.specs.declared.form.Form.{Form};

/// `day` lists of what is prepared of a feed the associations and the trains that run by the feed on this date, with their
/// bodies: a train is listed exactly if one of its bodies runs.
pub fn days_are_of_feeds()
    ensures { (h : Holidays) (drops : Bool) (limit max : ℕ) (bytes text shown : List ℕ) (dropped : Dropped)
        (listed : DayTexts) (x : ExtractParts) (d : ℕ) (a : IsPreparedText h drops limit bytes text dropped)
        → BytesSpellWithin max text x → (view : IsDayListed listed x d shown)
        → AreRunningByFeed (feed_of a) d view.associations view.trains }
{}

/// `train` lists the canonical records of what a train does by the feed, on the dates that are asked for.
pub fn trains_are_of_feeds()
    ensures { (h : Holidays) (drops : Bool) (limit max : ℕ) (bytes text shown uid : List ℕ) (dropped : Dropped)
        (listed : TrainTexts) (form : Form) (asked : Asked) (x : ExtractParts) (a : IsPreparedText h drops limit bytes text dropped)
        → SpellsNarrowed max asked x text → (view : IsTrainListed listed form x uid shown)
        → AreRecordsOfFeed form (window_asked asked a.published.header) (feed_of a) view.records }
{}

/// `calendar` marks each date of a train by its published records: the letter of those that win, `!` if these differ, and `.` if
/// none applies, or if what clashes is dropped and they clash.
pub fn calendars_are_of_feeds()
    ensures { (h : Holidays) (drops : Bool) (limit max : ℕ) (bytes text uid : List ℕ) (dropped : Dropped)
        (asked : Asked) (x : ExtractParts) (d : ℕ) (state : DayState) (a : IsPreparedText h drops limit bytes text dropped)
        → SpellsNarrowed max asked x text → x.header.first ≤ d → d ≤ x.header.last
        → IsDayState (of_key (schedule_entries x.schedules) uid) d state → IsFeedState (feed_of a) uid d state }
{}

/// `departures` and `arrivals` have rows of the trains that run by the feed, and of no other; the places are the feed's.
pub fn boards_are_of_feeds()
    ensures shown { (h : Holidays) (drops : Bool) (limit max : ℕ) (bytes text shown : List ℕ) (dropped : Dropped)
        (format : Format) (board : Board) (x : ExtractParts) (row : BoardRow)
        (a : IsPreparedText h drops limit bytes text dropped)
        → BytesSpellWithin max text x → (view : IsBoard format x board shown) → Contains view.rows row
        → IsBoardRowOfFeed (feed_of a) x board row }
    // Each train that runs by the feed has its rows: what `IsBoardRow` asks of what runs is met.
    ensures runs { (h : Holidays) (drops : Bool) (limit max : ℕ) (bytes text : List ℕ) (dropped : Dropped)
        (x : ExtractParts) (a : IsPreparedText h drops limit bytes text dropped)
        → BytesSpellWithin max text x → SaysWhatFeedSays (header_window x.header) x (feed_of a) }
{}
