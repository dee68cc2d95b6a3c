//! The verb of a step, and what follows the word that it found.

ghost use Rattle.std.specs.Prelude.{◌≡◌, ◌<◌, length, IfSome};
ghost use Rattle.nam_verbs.specs.Verb.{address_of};
ghost use Rattle.nam_verbs.specs.VerbAt.{verb_by};
ghost use Rattle.nam_verbs.specs.Now.{verb_now, after_now};
ghost use Rattle.nam_calls.specs.Reading.{read_verb, read_after};
ghost use Rattle.nam_reader.specs.Reading.{sight_address, sight_end};
ghost use Rattle.nam_reader.specs.Registers.{state_of, StepFits};

use crate::registers::{Registers, Step};
use nam_calls::Sight;
use nam_layout::horizon_at;
use nam_verbs::Verb;
use si_model::Snapshot;

impl Registers {
    /// The verb that stands.
    #[tactic(auto, using(crate::proofs::SearchLemmas::verb_searching))]
    #[inline]
    pub(crate) fn verb(&self, sight: &Sight) -> Option<Verb>
        requires { StepFits sight.now self.now.step self.now }
        ensures value { result ≡ verb_now (λ at. verb_by (sight_address sight.now) (read_verb sight.now at))
            (state_of self.now) }
        ensures within { IfSome result (λ verb. address_of verb < sight_end sight.now) }
    {
        let place = &sight.place;
        let cells = &sight.cells;
        let at = match self.step {
            Step::CurrentHead | Step::CurrentAgain | Step::Recheck => place.header_at,
            Step::CurrentWords => place.word(self.current.len() as u32),
            Step::SlotHead | Step::SlotAgain => place.slot_header(self.slot),
            Step::SlotEnding => place.slot_end(self.slot),
            Step::SlotWords => place.slot_word(self.slot, self.older.len() as u32),
            Step::CellTag | Step::CellAgain => cells.tag(self.cell),
            Step::CellOwner => cells.owner(self.cell),
            Step::CellBegin => cells.begin(self.cell),
            Step::CellEnding => cells.end(self.cell),
            Step::CellWords => cells.word(self.cell, self.older.len() as u32),
            Step::Horizon => horizon_at(sight.workers, self.worker),
            Step::Current | Step::Older | Step::Absent | Step::TooOld | Step::Astray => return None,
        };
        Some(Verb::Read { at })
    }

    /// Goes on with the word that the verb found.
    #[tactic(auto, using(crate::proofs::SearchLemmas::after_searching))]
    #[inline]
    pub(crate) fn take(&mut self, sight: &Sight, seen: &Snapshot, found: u64)
        requires fits { StepFits sight.now self.old.step self.old }
        requires seen { length seen.now ≡ sight.now.workers }
        ensures { state_of self.new ≡ after_now (read_after sight.now seen.now) (state_of self.old) found }
    {
        match self.step {
            Step::CurrentHead => self.current_head(sight, seen, found),
            Step::CurrentWords => self.current_words(sight, seen, found),
            Step::CurrentAgain => self.current_again(sight, seen, found),
            Step::SlotHead => self.slot_head(&sight.place, seen, found),
            Step::SlotEnding => self.slot_ending(&sight.place, seen, found),
            Step::SlotWords => self.slot_words(&sight.place, seen, found),
            Step::SlotAgain => self.slot_again(&sight.place, seen, found),
            Step::Recheck => self.recheck(sight, seen, found),
            Step::CellTag => self.cell_tag(sight, seen, found),
            Step::CellOwner => self.cell_owner(sight, seen, found),
            Step::CellBegin => self.cell_begin(sight, seen, found),
            Step::CellEnding => self.cell_ending(sight, seen, found),
            Step::CellWords => self.cell_words(sight, seen, found),
            Step::CellAgain => self.cell_again(sight, seen, found),
            Step::Horizon => self.horizon_entry(sight, seen, found),
            Step::Current | Step::Older | Step::Absent | Step::TooOld | Step::Astray => {}
        }
    }
}
