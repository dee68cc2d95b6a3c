//! The step at the horizon.

ghost use Rattle.std.specs.Prelude.{◌≡◌, ◌≤◌, length};
ghost use Rattle.nam_catalog.specs.declared.bounds.TheConstants.{MOST_WORKERS};
ghost use Rattle.nam_calls.specs.declared.reading.ReadPoint.TheVariants.{ReadHorizon};
ghost use Rattle.nam_calls.specs.Reading.{read_after};
ghost use Rattle.nam_calls.specs.Fits.{IsOf};
ghost use Rattle.nam_reader.specs.Registers.{state_of};

use crate::registers::{Registers, Step};
use nam_calls::Sight;
use si_model::Snapshot;

impl Registers {
    #[inline]
    pub(crate) fn horizon_entry(&mut self, sight: &Sight, seen: &Snapshot, found: u64)
        requires seen { length seen.now ≡ sight.now.workers }
        requires worker { IsOf sight.now.workers self.old.worker }
        requires most { sight.now.workers ≤ MOST_WORKERS }
        ensures { state_of self.new ≡ read_after sight.now seen.now (ReadHorizon self.old.worker) found }
    {
        let entry = *seen.at(self.worker as usize - 1);
        if entry < found {
            self.entry = entry;
            self.horizon = found;
            self.step = Step::TooOld;
        } else if self.worker == sight.workers {
            self.step = Step::Astray;
        } else {
            self.worker += 1;
            self.step = Step::Horizon;
        }
    }
}
