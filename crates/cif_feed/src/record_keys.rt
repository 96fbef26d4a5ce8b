//! The keys by which an update finds records.
ghost use Rattle.std.specs.Prelude.{◌≡◌};
ghost use Rattle.cif_feed.specs.RecordKeys.{schedule_rank, tiploc_key};

use crate::{Keyed, PublishedAssociation, PublishedSchedule};
use cif_calendar::uid_number;
use cif_columns::{Day, Stp, Uid};
use cif_records::{AssocKey, Tiploc};

/// The key of a location: its TIPLOC.
pub(crate) fn tiploc_key(tiploc: &Tiploc) -> [u8; 7]
    ensures { result ≡ tiploc_key tiploc.now }
{
    let mut key = [0; 7];
    key.copy_from_slice(&tiploc.columns[..7]);
    key
}

/// The rank of the key of a schedule: of its UID, its first date and its letter.
fn schedule_rank(uid: Uid, first: Day, letter: Stp) -> (u64, Day, Stp, Uid)
    ensures { result ≡ schedule_rank (uid, first, letter) }
{
    (uid_number(&uid), first, letter, uid)
}

/// A location by its TIPLOC.
impl Keyed for Tiploc {
    type Key = [u8; 7];

    type Rank = [u8; 7];

    ghost use Rattle.std.specs.Cmp.Lexicographic.{bytes_decides};
    ghost use Rattle.cif_feed.specs.RecordKeys.{tiploc_key};

    ghost key = { tiploc_key };

    ghost rank = { λ k. k };

    fn rank(&self) -> [u8; 7] {
        tiploc_key(self)
    }

    fn rank_of(known: &[u8; 7]) -> [u8; 7] {
        *known
    }

    ghost same_key = { bytes_decides };
}

/// A published association by its key, its first date and its letter.
impl Keyed for PublishedAssociation {
    type Key = (AssocKey, Day, Stp);

    type Rank = (AssocKey, Day, Stp);

    ghost use Rattle.std.proofs.{Common.rules, lemmas.Grind.common_steps};
    ghost use Rattle.std.specs.Cmp.Lexicographic.{pointwise_decides, bytes_decides};
    ghost use Rattle.cif_feed.specs.RecordKeys.{association_key};

    ghost key = { λ a. association_key a.association };

    ghost rank = { λ k. k };

    fn rank(&self) -> (AssocKey, Day, Stp) {
        let association = &self.association;
        (
            association.key.copy(),
            association.first,
            association.letter,
        )
    }

    fn rank_of(known: &(AssocKey, Day, Stp)) -> (AssocKey, Day, Stp) {
        (known.0.copy(), known.1, known.2)
    }

    ghost same_key = { Prim.search (rules, common_steps, pointwise_decides, bytes_decides) };
}

/// A published schedule by its UID, its first date and its letter.
impl Keyed for PublishedSchedule {
    type Key = (Uid, Day, Stp);

    // The columns of the UID come first as one number: to compare two numbers takes a third of the time that
    // two UIDs take.
    type Rank = (u64, Day, Stp, Uid);

    ghost use Rattle.std.{proofs.Common.rules, proofs.lemmas.Grind.common_steps, specs.Cmp.Lexicographic.bytes_decides};
    ghost use Rattle.cif_feed.specs.RecordKeys.{schedule_key, schedule_rank};

    ghost key = { λ s. schedule_key s.schedule };

    ghost rank = { schedule_rank };

    fn rank(&self) -> (u64, Day, Stp, Uid) {
        schedule_rank(self.schedule.uid, self.schedule.first, self.schedule.letter)
    }

    fn rank_of(known: &(Uid, Day, Stp)) -> (u64, Day, Stp, Uid) {
        schedule_rank(known.0, known.1, known.2)
    }

    ghost same_key = { Prim.search (rules, common_steps, bytes_decides) };
}
