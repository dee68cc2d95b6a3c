//! The steps of the search of the ring, under a locked record and without.

ghost use Rattle.std.specs.Prelude.{◌≡◌, ◌<◌, length};
ghost use Rattle.nam_layout.specs.PlaceFits.{FitsPlace};
ghost use Rattle.nam_calls.specs.declared.ring.RingPoint.TheVariants.{SlotHead, SlotEnding, SlotWords, SlotAgain};
ghost use Rattle.nam_calls.specs.Ring.{next_slot, ring_after};
ghost use Rattle.nam_reader.specs.Registers.{state_of, searched};

use crate::registers::{Registers, Search, Step};
use nam_header::{MARK, is_deleted, same_stamp, sees};
use nam_layout::Place;
use si_model::Snapshot;

impl Registers {
    #[tactic(auto, using(crate::proofs::SearchLemmas::searched_at))]
    #[inline]
    fn next_slot(&mut self, place: &Place)
        requires fits { FitsPlace place.now }
        requires slot { self.old.slot < place.now.ring }
        ensures { state_of self.new ≡ searched self.old (next_slot place.now self.old.slot) }
    {
        if self.slot + 1 != place.ring {
            self.slot += 1;
            self.step = Step::SlotHead;
            return;
        }
        match self.search {
            Search::Locked => self.step = Step::Recheck,
            Search::Plain => {
                self.cell = 0;
                self.step = Step::CellTag;
            }
        }
    }

    #[tactic(auto, using(crate::proofs::SearchLemmas::searched_at))]
    #[inline]
    pub(crate) fn slot_head(&mut self, place: &Place, seen: &Snapshot, found: u64)
        requires fits { FitsPlace place.now }
        requires slot { self.old.slot < place.now.ring }
        ensures { state_of self.new ≡ searched self.old
            (ring_after place.now seen.now (SlotHead self.old.slot) found) }
    {
        if found == MARK || !sees(place.form, seen, found) {
            self.next_slot(place);
        } else {
            self.older_header = found;
            self.step = Step::SlotEnding;
        }
    }

    #[tactic(auto, using(crate::proofs::SearchLemmas::searched_at))]
    #[inline]
    pub(crate) fn slot_ending(&mut self, place: &Place, seen: &Snapshot, found: u64)
        requires fits { FitsPlace place.now }
        requires slot { self.old.slot < place.now.ring }
        ensures { state_of self.new ≡ searched self.old
            (ring_after place.now seen.now (SlotEnding self.old.slot self.old.older_header) found) }
    {
        // A visible end is the stamp of a later version that the snapshot sees.
        if sees(place.form, seen, found) {
            self.next_slot(place);
        } else {
            self.older.clear();
            self.step = Step::SlotWords;
        }
    }

    #[tactic(auto, using(crate::proofs::SearchLemmas::searched_at))]
    #[inline]
    pub(crate) fn slot_words(&mut self, place: &Place, seen: &Snapshot, found: u64)
        requires fits { FitsPlace place.now }
        requires words { length self.old.older < place.now.width }
        ensures { state_of self.new ≡ searched self.old
            (ring_after place.now seen.now (SlotWords self.old.slot self.old.older_header self.old.older) found) }
    {
        self.older.push(found);
        self.step = if self.older.len() == place.width as usize {
            Step::SlotAgain
        } else {
            Step::SlotWords
        };
    }

    #[tactic(auto, using(crate::proofs::SearchLemmas::searched_found))]
    #[inline]
    pub(crate) fn slot_again(&mut self, place: &Place, seen: &Snapshot, found: u64)
        requires fits { FitsPlace place.now }
        requires slot { self.old.slot < place.now.ring }
        ensures { state_of self.new ≡ searched self.old
            (ring_after place.now seen.now (SlotAgain self.old.slot self.old.older_header self.old.older) found) }
    {
        // Under another header the words may be those of a version that was copied here since.
        if !same_stamp(place.form, found, self.older_header) || found == MARK {
            self.next_slot(place);
        } else if is_deleted(place.form, self.older_header) {
            self.step = Step::Absent;
        } else {
            self.step = Step::Older;
        }
    }
}
