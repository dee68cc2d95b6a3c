//! The steps at the current version.

ghost use Rattle.std.specs.Prelude.{◌≡◌, ◌<◌, length};
ghost use Rattle.nam_layout.specs.PlaceFits.{FitsPlace};
ghost use Rattle.nam_calls.specs.declared.reading.ReadPoint.TheVariants.{ReadCurrent, ReadRecheck};
ghost use Rattle.nam_calls.specs.declared.record.CurrentPoint.TheVariants.{CurrentHead, CurrentWords, CurrentAgain};
ghost use Rattle.nam_calls.specs.Reading.{read_after};
ghost use Rattle.nam_reader.specs.declared.registers.Step.TheVariants as step;
ghost use Rattle.nam_reader.specs.Registers.{state_of};

use crate::registers::{Registers, Search, Step};
use nam_calls::Sight;
use nam_header::{is_deleted, is_locked, same_stamp, sees};
use si_model::Snapshot;

impl Registers {
    // Goes on to the ring's first slot.
    #[inline]
    fn search_ring(&mut self, search: Search)
        ensures { self.new ≡ record self.old { step = step.SlotHead; search = search; slot = 0 } }
    {
        self.search = search;
        self.slot = 0;
        self.step = Step::SlotHead;
    }

    #[inline]
    pub(crate) fn current_head(&mut self, sight: &Sight, seen: &Snapshot, found: u64)
        ensures { state_of self.new ≡ read_after sight.now seen.now (ReadCurrent CurrentHead) found }
    {
        let form = sight.place.form;
        if !sees(form, seen, found) {
            self.search_ring(Search::Plain);
        } else if is_deleted(form, found) {
            self.step = Step::Absent;
        } else {
            self.header = found;
            self.current.clear();
            self.step = Step::CurrentWords;
        }
    }

    #[inline]
    pub(crate) fn current_words(&mut self, sight: &Sight, seen: &Snapshot, found: u64)
        requires fits { FitsPlace sight.now.place }
        requires words { length self.old.current < sight.now.place.width }
        ensures { state_of self.new ≡ read_after sight.now seen.now
            (ReadCurrent (CurrentWords self.old.header self.old.current)) found }
    {
        self.current.push(found);
        self.step = if self.current.len() == sight.place.width as usize {
            Step::CurrentAgain
        } else {
            Step::CurrentWords
        };
    }

    #[inline]
    pub(crate) fn current_again(&mut self, sight: &Sight, seen: &Snapshot, found: u64)
        ensures { state_of self.new ≡ read_after sight.now seen.now
            (ReadCurrent (CurrentAgain self.old.header self.old.current)) found }
    {
        // Under a lock, at either look, the words may be those of the next version.
        let form = sight.place.form;
        if !same_stamp(form, found, self.header) {
            self.search_ring(Search::Plain);
        } else if is_locked(form, self.header) || is_locked(form, found) {
            self.search_ring(Search::Locked);
        } else {
            self.step = Step::Current;
        }
    }

    #[inline]
    pub(crate) fn recheck(&mut self, sight: &Sight, seen: &Snapshot, found: u64)
        ensures { state_of self.new ≡ read_after sight.now seen.now
            (ReadRecheck self.old.current self.old.header) found }
    {
        if same_stamp(sight.place.form, found, self.header) {
            self.step = Step::Current;
        } else {
            self.search_ring(Search::Plain);
        }
    }
}
