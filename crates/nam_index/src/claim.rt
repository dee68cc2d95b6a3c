//! Finding the position of a key, or claiming one for it.

ghost use Rattle.std.specs.Prelude.{◌≡◌, ◌<◌, ◌≤◌, ◌-◌, ◌*◌, ◌^◌, length};
ghost use Rattle.nam_verbs.specs.Verb.{address_of};
ghost use Rattle.nam_verbs.specs.VerbAt.{verb_by};
ghost use Rattle.nam_verbs.specs.Running.{verbs_left};
ghost use Rattle.nam_catalog.specs.Words.{words_of};
ghost use Rattle.nam_calls.specs.Words.{capacity_of};
ghost use Rattle.nam_calls.specs.Fits.{ClaimKeyFits};
ghost use Rattle.nam_calls.specs.Index.{claim_key_begin, claim_key_verb, claim_key_next, claim_key_after};
ghost use Rattle.nam_calls.specs.Index.{claim_key_left};
ghost use Rattle.nam_index.specs.Path.{path_address, path_end, FitsPath};
ghost use Rattle.nam_index.specs.Claim.{claiming, running};

use crate::path::{key_at, path_of, position_at};
use nam_calls::{ClaimKeyEnd, ClaimKeyPoint, Path};
use nam_layout::{Field, Layout};
use nam_verbs::{Machine, Now, Verb};
use std::marker::Model;
use std::mem::replace;

/// Where a claim begins: no position of the key's path has been passed.
pub fn claim_key_begin() -> ClaimKeyPoint
    ensures { result ≡ claim_key_begin }
{
    ClaimKeyPoint::KeyLook { passed: 0 }
}

/// The verb that stands at a point.
pub fn claim_key_verb(path: &Path, place: &ClaimKeyPoint) -> Verb
    requires fits { FitsPath path.now }
    requires place { ClaimKeyFits path.now.capacity place.now }
    ensures value { result ≡ verb_by (path_address path.now) (claim_key_verb path.now place.now) }
    ensures within { address_of result < path_end path.now }
{
    match place {
        ClaimKeyPoint::KeyLook { passed } => Verb::Read {
            at: key_at(path, *passed),
        },
        ClaimKeyPoint::KeyTake { passed } => Verb::Exchange {
            at: key_at(path, *passed),
            expect: 0,
            word: path.key + 1,
        },
    }
}

/// Goes on after a position that bears another key.
fn claim_key_next(path: &Path, passed: u32) -> Now<ClaimKeyPoint, ClaimKeyEnd>
    requires fits { FitsPath path.now }
    requires passed { passed < path.now.capacity }
    ensures { result ≡ claim_key_next path.now passed }
{
    if passed + 1 == path.capacity {
        Now::Over(ClaimKeyEnd::NoSpace)
    } else {
        Now::At(ClaimKeyPoint::KeyLook { passed: passed + 1 })
    }
}

/// What follows the word that the verb of a point found.
pub fn claim_key_after(
    path: &Path,
    place: ClaimKeyPoint,
    found: u64,
) -> Now<ClaimKeyPoint, ClaimKeyEnd>
    requires fits { FitsPath path.now }
    requires place { ClaimKeyFits path.now.capacity place }
    ensures { result ≡ claim_key_after path.now place found }
{
    match place {
        ClaimKeyPoint::KeyLook { passed } => {
            if found == path.key + 1 {
                Now::Over(ClaimKeyEnd::At(position_at(path, passed)))
            } else if found == 0 {
                Now::At(ClaimKeyPoint::KeyTake { passed })
            } else {
                claim_key_next(path, passed)
            }
        }
        ClaimKeyPoint::KeyTake { passed } => {
            if found == 0 || found == path.key + 1 {
                Now::Over(ClaimKeyEnd::At(position_at(path, passed)))
            } else {
                claim_key_next(path, passed)
            }
        }
    }
}

/// A number of verbs that are to come from a point at the most.
pub fn claim_key_left(path: &Path, place: &ClaimKeyPoint) -> u64
    requires { ClaimKeyFits path.now.capacity place.now }
    ensures { result ≡ claim_key_left path.now place.now }
{
    match place {
        ClaimKeyPoint::KeyLook { passed } => 2 * (path.capacity - passed - 1) as u64 + 2,
        ClaimKeyPoint::KeyTake { passed } => 2 * (path.capacity - passed - 1) as u64 + 1,
    }
}

/// The search for the position that bears a key, which claims the first free position of the key's path for it: a free
/// position is claimed by an exchange, and passed where another key won it.
#[derive(Debug, Drop)]
pub struct FindOrClaim {
    path: Path,
    state: Now<ClaimKeyPoint, ClaimKeyEnd>,
}

impl Model for FindOrClaim {
    ghost use Rattle.nam_verbs.specs.Now.{FitsNow};
    ghost use Rattle.nam_calls.specs.Fits.{ClaimKeyFits};
    ghost use Rattle.nam_index.specs.Path.{FitsPath};
    ghost use Rattle.nam_index.specs.Claim.{Claiming};

    ghost Value = { Claiming };

    ghost view = { λ a. record { path = a.path; state = a.state } };

    ghost invariant = { λ a. FitsPath a.path × FitsNow (ClaimKeyFits a.path.capacity) a.state };
}

impl FindOrClaim {
    /// The search or claim of a position for a key of a table.
    pub fn new(layout: &Layout, table: u32, key: u64) -> FindOrClaim
        requires table { table < length layout.now.tables }
        requires key { key < 2 ^ 64 - 1 }
        ensures begins { result ≡ claiming layout.now table key }
        ensures left { verbs_left (running result) ≡ 2 * capacity_of layout.now table }
        ensures within { (running result).reach ≤ words_of layout.now }
    {
        FindOrClaim {
            path: path_of(layout, table, key),
            state: Now::At(claim_key_begin()),
        }
    }
}

impl Machine for FindOrClaim {
    ghost use Rattle.nam_index.specs.Claim.{running};

    type Word = Field;

    type Point = ClaimKeyPoint;

    type End = ClaimKeyEnd;

    ghost running = { running };

    fn state(&self) -> &Now<ClaimKeyPoint, ClaimKeyEnd> {
        &self.state
    }

    fn verb_from(&self, place: &ClaimKeyPoint) -> Verb {
        claim_key_verb(&self.path, place)
    }

    fn left_from(&self, place: &ClaimKeyPoint) -> u64 {
        claim_key_left(&self.path, place)
    }

    fn take(&mut self, found: u64) {
        self.state = match replace(&mut self.state, Now::At(claim_key_begin())) {
            Now::At(place) => claim_key_after(&self.path, place, found),
            Now::Over(end) => Now::Over(end),
        };
    }

    fn end(&self) -> Option<ClaimKeyEnd> {
        self.state.end()
    }
}
