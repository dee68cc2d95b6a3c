//! The locks of a commit.

ghost use Rattle.std.specs.Prelude.{◌≡◌, ◌<◌, ◌≤◌, length, ℕ, List};
ghost use Rattle.nam_verbs.specs.VerbAt.{verb_by};
ghost use Rattle.nam_layout.specs.Place.{position_address};
ghost use Rattle.nam_calls.specs.Fits.{LockFits};
ghost use Rattle.nam_calls.specs.Lock.{give_back, lock_next, lock_after, lock_verb, unlock_verb, unlock_after};
ghost use Rattle.nam_protocol.specs.Commit.{on_lock, on_return, places, record_place};
ghost use Rattle.nam_commit.specs.Commits.{stepped_by};
ghost use Rattle.nam_commit.specs.Stands.{CommonStands, lock_place};

use crate::ending::refused;
use crate::records::{header_at, lock_at, place_at};
use crate::step::{Loss, Step};
use nam_calls::{LockPoint, SlotPoint};
use nam_header::{is_locked, sees, with_lock};
use nam_protocol::TxnState;
use nam_verbs::Verb;
use si_model::Lock;

/// The verb of a locking.
#[inline]
pub fn lock_verb(state: &TxnState, at: LockPoint) -> Verb
    requires common { CommonStands state.now }
    requires at { LockFits (length state.now.records) state.now.held at }
    ensures { result ≡ verb_by (position_address (lock_place state.now at))
        (lock_verb state.now.worker (places state.now) state.now.held at) }
{
    match at {
        LockPoint::Peek => Verb::Read {
            at: place_at(state, state.held.len() as u32).header_at,
        },
        LockPoint::Seize { header } => {
            let place = place_at(state, state.held.len() as u32);
            Verb::Exchange {
                at: place.header_at,
                expect: header,
                word: with_lock(place.form, state.worker, header),
            }
        }
        LockPoint::GiveBack { given, .. } => unlock_verb(state, given),
    }
}

/// The write of a header that is held.
#[inline]
pub fn unlock_verb(state: &TxnState, given: u32) -> Verb
    requires held { given < length state.now.held }
    requires within { given < length state.now.records }
    ensures { result ≡ verb_by (position_address (record_place state.now given))
        (unlock_verb (places state.now) state.now.held given) }
{
    Verb::Write {
        at: place_at(state, given).header_at,
        word: header_at(state, given),
    }
}

// Gives the next header back, or ends: the lock that was missed is locked by another, or newer.
fn give_back(state: &TxnState, given: u32, found: u64) -> Step
    requires common { CommonStands state.now }
    requires held { length state.now.held < length state.now.records }
    ensures { (words : List ℕ) → stepped_by state.now result words
        ≡ on_lock state.now (give_back (places state.now) state.now.held given found) }
{
    if given as usize != state.held.len() {
        return Step::Locking {
            at: LockPoint::GiveBack { given, found },
        };
    }
    let lock = lock_at(state, given, found);
    if is_locked(place_at(state, given).form, found) {
        refused(state, Loss::Locked { lock })
    } else {
        refused(state, Loss::Newer { lock })
    }
}

// Locks the next record, or goes on with all locks.
#[inline]
fn lock_next(state: &TxnState) -> Step
    ensures { (words : List ℕ) → stepped_by state.now result words
        ≡ on_lock state.now (lock_next (places state.now) state.now.held) }
{
    if state.held.len() == state.records.len() {
        Step::Checking {
            at: SlotPoint::CheckCount,
        }
    } else {
        Step::Locking {
            at: LockPoint::Peek,
        }
    }
}

/// The locking after the word that its verb found.
#[inline]
pub fn lock_after(state: &mut TxnState, at: LockPoint, found: u64) -> Step
    requires common { CommonStands state.old }
    requires at { LockFits (length state.old.records) state.old.held at }
    ensures { (words : List ℕ) → stepped_by state.new result words
        ≡ on_lock state.old (lock_after (places state.old) state.old.seen state.old.held at found) }
{
    match at {
        LockPoint::Peek => {
            let nth = state.held.len() as u32;
            let form = place_at(state, nth).form;
            if is_locked(form, found) || !sees(form, &state.seen, found) {
                give_back(state, 0, found)
            } else {
                Step::Locking {
                    at: LockPoint::Seize { header: found },
                }
            }
        }
        LockPoint::Seize { header } => {
            if found == header {
                state.held.push(header);
                lock_next(state)
            } else {
                give_back(state, 0, found)
            }
        }
        LockPoint::GiveBack { given, found: lost } => give_back(state, given + 1, lost),
    }
}

/// The writing back, after a slot was not free.
pub fn return_after(state: &TxnState, given: u32, full: Lock) -> Step
    requires common { CommonStands state.now }
    requires given { given < length state.now.records }
    ensures { (words : List ℕ) → stepped_by state.now result words
        ≡ on_return state.now full (unlock_after (places state.now) given) }
{
    if given as usize + 1 == state.records.len() {
        refused(state, Loss::Full { lock: full })
    } else {
        Step::Returning {
            given: given + 1,
            full,
        }
    }
}
