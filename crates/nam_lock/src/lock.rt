//! Locking records in order.

ghost use Rattle.std.specs.Prelude.{◌≡◌, ◌<◌, ◌≤◌, ◌^◌, ◌*◌, All, length};
ghost use Rattle.nam_verbs.specs.Verb.{address_of};
ghost use Rattle.nam_verbs.specs.VerbAt.{verb_by};
ghost use Rattle.nam_verbs.specs.Running.{verbs_left};
ghost use Rattle.nam_catalog.specs.declared.bounds.TheConstants.{MOST_WORDS};
ghost use Rattle.nam_layout.specs.PlaceFits.{FitsPlace};
ghost use Rattle.nam_calls.specs.Fits.{LockFits};
ghost use Rattle.nam_calls.specs.Lock.{lock_begin, lock_verb_by, lock_after, lock_left, lock_next, give_back, loss_of};
ghost use Rattle.nam_lock.specs.Headers.{header_address, headers_end};
ghost use Rattle.nam_lock.specs.Locking.{locking, running, taken_by};

use lists::ShortList;
use nam_calls::{LockEnd, LockPoint, Locks};
use nam_catalog::Form;
use nam_header::{is_locked, sees, with_lock};
use nam_layout::Place;
use nam_verbs::{Machine, Now, Verb};
use si_model::Snapshot;
use std::marker::Model;
use std::mem::replace;

/// Where a locking begins, if there are records.
pub fn lock_begin() -> LockPoint
    ensures { result ≡ lock_begin }
{
    LockPoint::Peek
}

/// The verb that stands at a point, where locks are held under these headers.
#[tactic(auto, using(crate::proofs::HeadersLemmas::is_below_end))]
pub fn lock_verb(worker: u32, places: &[Place], held: &[u64], at: LockPoint) -> Verb
    requires worker { worker ≤ 16 }
    requires at { LockFits (length places.now) held.now at }
    ensures value { result ≡ verb_by header_address (lock_verb_by (λ place. place) worker places.now held.now at) }
    ensures within { address_of result < headers_end places.now }
{
    match at {
        LockPoint::Peek => Verb::Read {
            at: places[held.len()].header_at,
        },
        LockPoint::Seize { header } => {
            let place = places[held.len()];
            Verb::Exchange {
                at: place.header_at,
                expect: header,
                word: with_lock(place.form, worker, header),
            }
        }
        LockPoint::GiveBack { given, .. } => Verb::Write {
            at: places[given as usize].header_at,
            word: held[given as usize],
        },
    }
}

/// What a header found in the way of the lock of the `nth` record says.
fn loss_of(form: Form, nth: u32, found: u64) -> LockEnd
    ensures { result ≡ loss_of form nth found }
{
    if is_locked(form, found) {
        LockEnd::Locked { nth, found }
    } else {
        LockEnd::Newer { nth, found }
    }
}

/// Gives the header of the next record back that it holds, or ends.
fn give_back(
    places: &[Place],
    held: ShortList<u64, 16>,
    given: u32,
    found: u64,
) -> Now<Locks, LockEnd>
    requires { length held < length places.now }
    ensures { result ≡ give_back places.now held given found }
{
    if given as usize == held.len() {
        Now::Over(loss_of(places[held.len()].form, given, found))
    } else {
        Now::At(Locks {
            held,
            at: LockPoint::GiveBack { given, found },
        })
    }
}

/// Goes on with the next record, or ends with all locks.
fn lock_next(places: &[Place], held: ShortList<u64, 16>) -> Now<Locks, LockEnd>
    ensures { result ≡ lock_next places.now held }
{
    if held.len() == places.len() {
        Now::Over(LockEnd::Held(held))
    } else {
        Now::At(Locks {
            held,
            at: LockPoint::Peek,
        })
    }
}

/// The locking after the word that its verb found.
pub fn lock_after(
    places: &[Place],
    seen: &Snapshot,
    locks: Locks,
    found: u64,
) -> Now<Locks, LockEnd>
    requires most { length places.now ≤ 16 }
    requires at { LockFits (length places.now) locks.held locks.at }
    ensures { result ≡ lock_after places.now seen.now locks.held locks.at found }
{
    let Locks { mut held, at } = locks;
    match at {
        LockPoint::Peek => {
            let form = places[held.len()].form;
            if is_locked(form, found) || !sees(form, seen, found) {
                give_back(places, held, 0, found)
            } else {
                Now::At(Locks {
                    held,
                    at: LockPoint::Seize { header: found },
                })
            }
        }
        LockPoint::Seize { header } => {
            if found == header {
                held.push(header);
                lock_next(places, held)
            } else {
                give_back(places, held, 0, found)
            }
        }
        LockPoint::GiveBack { given, found } => give_back(places, held, given + 1, found),
    }
}

/// A number of verbs that are to come from a point at the most, where no more than `rest` follow the last lock.
pub fn lock_left(places: &[Place], rest: u64, held: &[u64], at: LockPoint) -> u64
    requires most { length places.now ≤ 16 }
    requires rest { rest < 2 ^ 32 }
    requires at { LockFits (length places.now) held.now at }
    ensures { result ≡ lock_left places.now rest held.now at }
{
    let records = places.len() as u64;
    match at {
        LockPoint::Peek => 2 * (records - held.len() as u64) + rest,
        LockPoint::Seize { .. } => 2 * (records - held.len() as u64) - 1 + rest,
        LockPoint::GiveBack { given, .. } => held.len() as u64 - given as u64,
    }
}

/// The locking of records in their order, each of which is read and then exchanged for the same with the lock. It ends
/// with all locks, and else with none.
#[derive(Debug, Drop)]
pub struct LockAll {
    worker: u32,
    places: ShortList<Place, 16>,
    seen: Snapshot,
    state: Now<Locks, LockEnd>,
}

impl Model for LockAll {
    ghost use Rattle.std.specs.Prelude.{◌≤◌, length};
    ghost use Rattle.nam_verbs.specs.Now.{FitsNow};
    ghost use Rattle.nam_calls.specs.Fits.{LockFits};
    ghost use Rattle.nam_calls.specs.Lock.{of_locks};
    ghost use Rattle.nam_lock.specs.Locking.{Locking};

    ghost Value = { Locking };

    ghost view = { λ a. record { worker = a.worker; places = a.places; seen = a.seen; state = a.state } };

    ghost invariant = { λ a. (a.worker ≤ 16) × (length a.places ≤ 16) × FitsNow (of_locks (LockFits (length a.places))) a.state };
}

impl LockAll {
    /// The locking of records by `worker`, under headers that `seen` sees, of at most three verbs for each record.
    /// Where there are no records it has ended, and holds none.
    #[tactic(auto, using(crate::proofs::HeadersLemmas::end_fits))]
    pub fn new(worker: u32, places: ShortList<Place, 16>, seen: Snapshot) -> LockAll
        requires least { 1 ≤ worker }
        requires most { worker ≤ 16 }
        requires places { All FitsPlace places }
        ensures begins { result ≡ locking worker places seen }
        ensures left { verbs_left (running result) ≡ 3 * length places }
        ensures within { (running result).reach ≤ MOST_WORDS }
    {
        let state = lock_next(places.as_slice(), ShortList::new());
        LockAll {
            worker,
            places,
            seen,
            state,
        }
    }

    /// How many locks were taken so far. Those that are given back count too.
    pub fn taken(&self) -> u32
        ensures { result ≡ taken_by self.now.state }
    {
        match &self.state {
            Now::At(locks) => locks.held.len() as u32,
            Now::Over(LockEnd::Held(held)) => held.len() as u32,
            Now::Over(LockEnd::Locked { nth, .. } | LockEnd::Newer { nth, .. }) => *nth,
        }
    }
}

impl Machine for LockAll {
    ghost use Rattle.nam_lock.specs.Locking.{running};

    type Word = Place;

    type Point = Locks;

    type End = LockEnd;

    ghost running = { running };

    fn state(&self) -> &Now<Locks, LockEnd> {
        &self.state
    }

    fn verb_from(&self, locks: &Locks) -> Verb {
        lock_verb(
            self.worker,
            self.places.as_slice(),
            locks.held.as_slice(),
            locks.at,
        )
    }

    fn left_from(&self, locks: &Locks) -> u64 {
        let places = self.places.as_slice();
        lock_left(places, places.len() as u64, locks.held.as_slice(), locks.at)
    }

    fn take(&mut self, found: u64) {
        let begin = Locks {
            held: ShortList::new(),
            at: lock_begin(),
        };
        self.state = match replace(&mut self.state, Now::At(begin)) {
            Now::At(locks) => lock_after(self.places.as_slice(), &self.seen, locks, found),
            Now::Over(end) => Now::Over(end),
        };
    }

    fn end(&self) -> Option<LockEnd> {
        match &self.state {
            Now::At(_) => None,
            Now::Over(end) => Some(end.copy()),
        }
    }
}
