//! Snapshots of the vector, in registers.

ghost use Rattle.std.specs.Prelude.{◌≡◌, ◌<◌, ◌≤◌, ◌*◌, length, Some, IsSome, IfSome};
ghost use Rattle.nam_verbs.specs.declared.now.Now.TheVariants.{Over};
ghost use Rattle.nam_verbs.specs.Verb.{address_of};
ghost use Rattle.nam_verbs.specs.Running.{next_verb, after_found, end_of, verbs_left};
ghost use Rattle.nam_catalog.specs.declared.bounds.TheConstants.{MOST_WORKERS};
ghost use Rattle.nam_vector.specs.declared.snap.SnapEnd.TheVariants.{Done};
ghost use Rattle.nam_vector.specs.Snap.{snapping, running};
ghost use Rattle.nam_upkeep.specs.Snapper.{resting, end_told};
ghost use Rattle.nam_upkeep.specs.declared.snapper.SnapperEnd.TheVariants as told;

use nam_verbs::Verb;
use si_model::Snapshot;
use std::marker::Model;

/// How a snapshot ended.
#[derive(Clone, Copy, Debug, PartialEq, Eq)]
pub enum SnapperEnd {
    /// Both passes found the same entries, which `Snapper::seen` gives.
    Done,
    /// The first entry of the second pass that differs is that of `worker`: `first` was found, and then `second`.
    Again {
        worker: u32,
        first: u64,
        second: u64,
    },
}

/// Where a snapshot stands, or how it has ended.
#[derive(Clone, Copy, Debug, PartialEq, Eq)]
pub enum SnapStep {
    First,
    Second,
    Over(SnapperEnd),
}

/// Snapshots of the vector by double collect, one after another over one buffer: the first pass fills it, and the
/// second compares in place.
#[derive(Debug, Drop)]
pub struct Snapper {
    step: SnapStep,
    workers: u32,
    nth: u32,
    seen: Snapshot,
}

impl Model for Snapper {
    ghost use Rattle.nam_vector.specs.Snap.{Snapping};
    ghost use Rattle.nam_upkeep.specs.Snapper.{state_of, FitsSnapper};

    ghost Value = { Snapping };

    ghost view = { λ a. record { workers = a.workers; state = state_of a.step a.seen a.nth } };

    ghost invariant = { λ a. FitsSnapper a.workers (state_of a.step a.seen a.nth) };
}

impl Snapper {
    /// A snapshot that is over: of no workers, and done.
    pub fn new() -> Snapper
        ensures { result ≡ resting }
    {
        Snapper {
            step: SnapStep::Over(SnapperEnd::Done),
            workers: 0,
            nth: 0,
            seen: Snapshot::new(),
        }
    }

    /// Begins a snapshot of the entries of workers 1 to `workers`, of at most two verbs for each of them.
    #[inline]
    pub fn begin(&mut self, workers: u32)
        requires least { 1 ≤ workers }
        requires most { workers ≤ MOST_WORKERS }
        ensures begins { self.new ≡ snapping workers }
        ensures left { verbs_left (running self.new) ≡ 2 * workers }
    {
        self.workers = workers;
        self.seen.clear();
        self.step = SnapStep::First;
    }

    /// The verb that stands, and none exactly where the snapshot is over.
    #[inline]
    pub fn verb(&self) -> Option<Verb>
        ensures verb { result ≡ next_verb (running self.now) }
        ensures within { IfSome result (λ verb. address_of verb < self.now.workers) }
    {
        let at = match self.step {
            SnapStep::First => self.seen.len() as u64,
            SnapStep::Second => self.nth as u64,
            SnapStep::Over(_) => return None,
        };
        Some(Verb::Read { at })
    }

    /// Goes on with the word that the verb found.
    #[inline]
    pub fn take(&mut self, found: u64)
        requires { IsSome (next_verb (running self.old)) }
        ensures value { self.new ≡ record self.old { state = (after_found (running self.old) found).state } }
        ensures after { running self.new ≡ after_found (running self.old) found }
        ensures falls { verbs_left (running self.new) < verbs_left (running self.old) }
    {
        match self.step {
            SnapStep::First => {
                self.seen.push(found);
                if self.seen.len() == self.workers as usize {
                    self.nth = 0;
                    self.step = SnapStep::Second;
                }
            }
            SnapStep::Second => {
                let first = *self.seen.at(self.nth as usize);
                if found != first {
                    let worker = self.nth + 1;
                    let second = found;
                    self.step = SnapStep::Over(SnapperEnd::Again {
                        worker,
                        first,
                        second,
                    });
                } else if self.nth + 1 == self.workers {
                    self.step = SnapStep::Over(SnapperEnd::Done);
                } else {
                    self.nth += 1;
                }
            }
            SnapStep::Over(_) => {}
        }
    }

    /// A number of verbs that are to come at the most. Each word that is taken lowers it.
    pub fn left(&self) -> u64
        ensures value { result ≡ verbs_left (running self.now) }
        ensures few { result ≤ 2 * MOST_WORKERS }
    {
        let workers = self.workers as u64;
        match self.step {
            SnapStep::First => workers + (workers - self.seen.len() as u64),
            SnapStep::Second => workers - self.nth as u64,
            SnapStep::Over(_) => 0,
        }
    }

    /// How the snapshot ended, and none exactly where a verb stands.
    #[inline]
    pub fn end(&self) -> Option<SnapperEnd>
        ensures { result ≡ end_told (end_of (running self.now)) }
    {
        match self.step {
            SnapStep::Over(end) => Some(end),
            _ => None,
        }
    }

    /// The entries that both passes found, where the snapshot is done.
    #[inline]
    pub fn seen(&self) -> &Snapshot
        requires { end_told (end_of (running self.now)) ≡ Some told.Done }
        ensures done { self.now.state ≡ Over (Done result.now) }
        ensures whole { length result.now ≡ self.now.workers }
    {
        &self.seen
    }
}
