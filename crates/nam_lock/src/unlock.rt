//! Writing headers back.

ghost use Rattle.std.specs.Prelude.{◌≡◌, ◌<◌, ◌≤◌, All, length};
ghost use Rattle.nam_verbs.specs.Verb.{address_of};
ghost use Rattle.nam_verbs.specs.VerbAt.{verb_by};
ghost use Rattle.nam_verbs.specs.Running.{verbs_left};
ghost use Rattle.nam_catalog.specs.declared.bounds.TheConstants.{MOST_WORDS};
ghost use Rattle.nam_layout.specs.PlaceFits.{FitsPlace};
ghost use Rattle.nam_calls.specs.Lock.{unlock_begin, unlock_verb_by, unlock_after, unlock_left};
ghost use Rattle.nam_lock.specs.Headers.{header_address, headers_end};
ghost use Rattle.nam_lock.specs.Unlocking.{unlocking, running};

use lists::ShortList;
use nam_layout::Place;
use nam_verbs::{Machine, Now, Verb};
use std::marker::Model;

/// Where the writing back begins, before the first header. Where there are no records it is over.
pub fn unlock_begin(places: &[Place]) -> Now<u32, ()>
    ensures { result ≡ unlock_begin places.now }
{
    if places.is_empty() {
        Now::Over(())
    } else {
        Now::At(0)
    }
}

/// The verb that stands where so many headers were written.
#[tactic(auto, using(crate::proofs::HeadersLemmas::is_below_end))]
pub fn unlock_verb(places: &[Place], headers: &[u64], given: u32) -> Verb
    requires places { given < length places.now }
    requires headers { given < length headers.now }
    ensures value { result ≡ verb_by header_address (unlock_verb_by (λ place. place) places.now headers.now given) }
    ensures within { address_of result < headers_end places.now }
{
    Verb::Write {
        at: places[given as usize].header_at,
        word: headers[given as usize],
    }
}

/// The writing back after the verb that stands where so many headers were written.
pub fn unlock_after(places: &[Place], given: u32) -> Now<u32, ()>
    requires most { length places.now ≤ 16 }
    requires given { given < length places.now }
    ensures { result ≡ unlock_after places.now given }
{
    if given as usize + 1 == places.len() {
        Now::Over(())
    } else {
        Now::At(given + 1)
    }
}

/// How many verbs are to come where so many headers were written.
pub fn unlock_left(places: &[Place], given: u32) -> u64
    requires { given < length places.now }
    ensures { result ≡ unlock_left places.now given }
{
    places.len() as u64 - given as u64
}

/// The writing of headers to their records, in order.
#[derive(Debug, Drop)]
pub struct UnlockAll {
    places: ShortList<Place, 16>,
    headers: ShortList<u64, 16>,
    state: Now<u32, ()>,
}

impl Model for UnlockAll {
    ghost use Rattle.std.specs.Prelude.{◌≡◌, ◌<◌, ◌≤◌, length};
    ghost use Rattle.nam_verbs.specs.Now.{FitsNow};
    ghost use Rattle.nam_lock.specs.Unlocking.{Unlocking};

    ghost Value = { Unlocking };

    ghost view = { λ a. record { places = a.places; headers = a.headers; state = a.state } };

    ghost invariant = { λ a. (length a.places ≤ 16) × (length a.headers ≡ length a.places)
        × FitsNow (λ given. given < length a.places) a.state };
}

impl UnlockAll {
    /// The writing of each record's header, of one verb for each.
    #[tactic(auto, using(crate::proofs::HeadersLemmas::end_fits))]
    pub fn new(places: ShortList<Place, 16>, headers: ShortList<u64, 16>) -> UnlockAll
        requires places { All FitsPlace places }
        requires headers { length headers ≡ length places }
        ensures begins { result ≡ unlocking places headers }
        ensures left { verbs_left (running result) ≡ length places }
        ensures within { (running result).reach ≤ MOST_WORDS }
    {
        let state = unlock_begin(places.as_slice());
        UnlockAll {
            places,
            headers,
            state,
        }
    }
}

impl Machine for UnlockAll {
    ghost use Rattle.nam_lock.specs.Unlocking.{running};

    type Word = Place;

    type Point = u32;

    type End = ();

    ghost running = { running };

    fn state(&self) -> &Now<u32, ()> {
        &self.state
    }

    fn verb_from(&self, place: &u32) -> Verb {
        unlock_verb(self.places.as_slice(), self.headers.as_slice(), *place)
    }

    fn left_from(&self, place: &u32) -> u64 {
        unlock_left(self.places.as_slice(), *place)
    }

    fn take(&mut self, _found: u64) {
        self.state = match &self.state {
            Now::At(given) => unlock_after(self.places.as_slice(), *given),
            Now::Over(()) => Now::Over(()),
        };
    }

    fn end(&self) -> Option<()> {
        self.state.end()
    }
}
