//! Published extracts and updates: what they say beyond the extracts of this profile.
#![tactic(auto)]

mod changes;
mod counting;
mod cut_count;
mod deciding;
mod dropped;
mod feed_fault;
mod feed_line;
mod feed_reading;
mod holiday_text;
mod holidays;
mod judged;
pub mod laws;
mod mark;
mod prepare;
mod prepared_record;
mod published_entry;
mod published_extract;
mod reasons;
mod record_keys;
mod unreached;
mod update;
mod updates_in_turn;
mod winners;
mod winners_answer;
mod written;

pub use changes::{Action, Keyed, RecordChange, RefusedLine, Unfit, Waived, apply};
pub use dropped::{Dropped, DroppedKey};
pub use feed_fault::FeedFault;
pub use feed_line::Feed;
pub use holiday_text::HolidayFault;
pub use holidays::{HolidayCode, HolidayCodes, Holidays};
pub use judged::Judged;
pub use mark::{Passed, Transaction, UpdateCounts};
pub use prepare::{KeptPrepare, Preparation, Prepared, answer_prepare, write_prepared};
pub use prepared_record::PreparedRecord;
pub use published_extract::{PublishedAssociation, PublishedExtract, PublishedSchedule};
pub use reasons::Reasons;
pub use unreached::Unreached;
pub use update::{Outcome, Update, current_reference, last_reference};
pub use updates_in_turn::{DoneUpdate, KeptUpdate, ReadFeed, answer_update};
pub use winners_answer::{answer_winners, write_winners};
