//! Snapshots of the vector.

ghost use Rattle.std.specs.Prelude.{◌≡◌, ◌<◌, ◌≤◌, ◌*◌};
ghost use Rattle.nam_verbs.specs.Verb.{address_of};
ghost use Rattle.nam_verbs.specs.VerbAt.{verb_by};
ghost use Rattle.nam_verbs.specs.Now.{FitsNow, left_now};
ghost use Rattle.nam_verbs.specs.Running.{verbs_left};
ghost use Rattle.nam_layout.specs.Place.{worker_address};
ghost use Rattle.nam_vector.specs.Snap.{SnapFits, snap_begin, snap_verb, snap_after, snap_left, snapping, running};

use nam_layout::Field;
use nam_verbs::{Machine, Now, Verb};
use si_model::Snapshot;
use std::marker::Model;
use std::mem::replace;

/// Where a snapshot stands. Each point has one verb, the read of the entry after those that are at hand.
#[derive(Debug, Drop)]
pub enum SnapPoint {
    /// The first pass, which has got these entries.
    First { got: Snapshot },
    /// The second pass, which has found the first `at` entries of the first pass again.
    Second { seen: Snapshot, at: u32 },
}

/// How a snapshot ended.
#[derive(Debug, Drop)]
pub enum SnapEnd {
    /// Both passes found these entries.
    Done(Snapshot),
    /// The first entry of the second pass that differs is that of `worker`: `first` was found, and then `second`.
    Again {
        worker: u32,
        first: u64,
        second: u64,
    },
}

impl SnapEnd {
    /// An equal end, made without memory.
    pub fn copy(&self) -> SnapEnd
        ensures { result ≡ self.now }
    {
        match self {
            SnapEnd::Done(seen) => SnapEnd::Done(seen.copy()),
            SnapEnd::Again {
                worker,
                first,
                second,
            } => SnapEnd::Again {
                worker: *worker,
                first: *first,
                second: *second,
            },
        }
    }
}

/// Where a snapshot begins.
pub fn snap_begin() -> SnapPoint
    ensures { result ≡ snap_begin }
{
    SnapPoint::First {
        got: Snapshot::new(),
    }
}

/// The verb that stands at a point, in a store of so many workers.
pub fn snap_verb(workers: u32, place: &SnapPoint) -> Verb
    requires { SnapFits workers place.now }
    ensures value { result ≡ verb_by (worker_address workers) (snap_verb place.now) }
    ensures within { address_of result < workers }
{
    let at = match place {
        SnapPoint::First { got } => got.len() as u64,
        SnapPoint::Second { at, .. } => *at as u64,
    };
    Verb::Read { at }
}

/// The snapshot of so many workers' entries after the word that its verb found.
pub fn snap_after(workers: u32, place: SnapPoint, found: u64) -> Now<SnapPoint, SnapEnd>
    requires most { workers ≤ 16 }
    requires place { SnapFits workers place }
    ensures value { result ≡ snap_after workers place found }
    ensures place { FitsNow (SnapFits workers) result }
    ensures falls { left_now (snap_left workers) result < snap_left workers place }
{
    match place {
        SnapPoint::First { mut got } => {
            got.push(found);
            if got.len() == workers as usize {
                Now::At(SnapPoint::Second { seen: got, at: 0 })
            } else {
                Now::At(SnapPoint::First { got })
            }
        }
        SnapPoint::Second { seen, at } => {
            let first = *seen.at(at as usize);
            if found != first {
                return Now::Over(SnapEnd::Again {
                    worker: at + 1,
                    first,
                    second: found,
                });
            }
            if at + 1 == workers {
                Now::Over(SnapEnd::Done(seen))
            } else {
                Now::At(SnapPoint::Second { seen, at: at + 1 })
            }
        }
    }
}

/// A number of verbs that are to come from a point at the most: all that a snapshot would take that is done.
pub fn snap_left(workers: u32, place: &SnapPoint) -> u64
    requires { SnapFits workers place.now }
    ensures { result ≡ snap_left workers place.now }
{
    let workers = workers as u64;
    match place {
        SnapPoint::First { got } => workers + (workers - got.len() as u64),
        SnapPoint::Second { at, .. } => workers - *at as u64,
    }
}

/// A snapshot of the vector by double collect: two passes over the entries, which is done where the second finds
/// what the first found (Y. Afek, H. Attiya, D. Dolev, E. Gafni, M. Merritt, N. Shavit: Atomic snapshots of shared
/// memory, Journal of the ACM 40, 1993). It reads no further entry after one that differs.
#[derive(Debug, Drop)]
pub struct Snap {
    workers: u32,
    state: Now<SnapPoint, SnapEnd>,
}

impl Model for Snap {
    ghost use Rattle.std.specs.Prelude.{◌≤◌};
    ghost use Rattle.nam_verbs.specs.Now.{FitsNow};
    ghost use Rattle.nam_vector.specs.Snap.{SnapFits, Snapping};

    ghost Value = { Snapping };

    ghost view = { λ a. record { workers = a.workers; state = a.state } };

    ghost invariant = { λ a. (a.workers ≤ 16) × FitsNow (SnapFits a.workers) a.state };
}

impl Snap {
    /// A snapshot of the entries of workers 1 to `workers`, of two verbs for each of them.
    pub fn new(workers: u32) -> Snap
        requires least { 1 ≤ workers }
        requires most { workers ≤ 16 }
        ensures begins { result ≡ snapping workers }
        ensures left { verbs_left (running result) ≡ 2 * workers }
    {
        Snap {
            workers,
            state: Now::At(snap_begin()),
        }
    }
}

impl Machine for Snap {
    ghost use Rattle.nam_vector.specs.Snap.{running};

    type Word = Field;

    type Point = SnapPoint;

    type End = SnapEnd;

    ghost running = { running };

    fn state(&self) -> &Now<SnapPoint, SnapEnd> {
        &self.state
    }

    fn verb_from(&self, place: &SnapPoint) -> Verb {
        snap_verb(self.workers, place)
    }

    fn left_from(&self, place: &SnapPoint) -> u64 {
        snap_left(self.workers, place)
    }

    fn take(&mut self, found: u64) {
        self.state = match replace(&mut self.state, Now::At(snap_begin())) {
            Now::At(place) => snap_after(self.workers, place, found),
            Now::Over(end) => Now::Over(end),
        };
    }

    fn end(&self) -> Option<SnapEnd> {
        match &self.state {
            Now::At(_) => None,
            Now::Over(end) => Some(end.copy()),
        }
    }
}
