//! Snapshots as lengths and words.

ghost use Rattle.std.specs.Prelude.{◌≡◌, ◌-◌, ◌≤◌, [], ◌∷◌, ◌++◌, length, false, IsTrue};
ghost use Rattle.nam_log.specs.Flat.{lists_in, AreLists};

use crate::RoomyList;
use si_model::Snapshot;
use std::alloc::{AllocError, Global};
use std::marker::Model;

/// Snapshots in few bytes: one for each snapshot and eight for each of its entries. It takes memory only by `reserve`,
/// and refuses a snapshot that it has no room for.
#[derive(Debug, Drop)]
pub(crate) struct FlatSnaps {
    counts: RoomyList<u8>,
    words: RoomyList<u64>,
}

impl Model for FlatSnaps {
    ghost use Rattle.std.specs.Prelude.{ℕ, List};
    ghost use Rattle.nam_log.specs.Flat.{lists_in, AreLists};

    ghost Value = { List (List ℕ) };

    ghost view = { λ a. lists_in a.counts.items a.words.items };

    ghost invariant = { λ a. AreLists a.counts.items a.words.items };
}

/// The words as a snapshot.
fn snapshot_of(words: &[u64]) -> Snapshot
    requires { length words.now ≤ 16 }
    ensures { result ≡ words.now }
{
    let mut seen = Snapshot::new();
    for word in words {
        seen.push(*word);
    }
    seen
}

#[tactic(auto, using(crate::proofs::FlatLemmas::lists_count))]
/// Lists the snapshots of these lengths.
fn list_snaps(counts: &[u8], words: &[u64], list: &mut RoomyList<Snapshot>)
    requires snaps { AreLists counts.now words.now }
    requires room { length (lists_in counts.now words.now) ≤ list.old.room }
    ensures items { list.new.items ≡ list.old.items ++ lists_in counts.now words.now }
    ensures room { list.new.room ≡ list.old.room - length (lists_in counts.now words.now) }
{
    let mut at = 0;
    for count in counts {
        let after = at + *count as usize;
        list.push(snapshot_of(&words[at..after]));
        at = after;
    }
}

impl FlatSnaps {
    /// No snapshots.
    pub fn new(alloc: Global) -> FlatSnaps
        ensures { result ≡ [] }
    {
        FlatSnaps {
            counts: RoomyList::new(alloc),
            words: RoomyList::new(alloc),
        }
    }

    /// Makes room for so many snapshots of so many words in all.
    pub fn reserve(&mut self, snaps: usize, words: usize) -> Result<(), AllocError>
        ensures { self.new ≡ self.old }
    {
        self.counts.reserve(snaps)?;
        self.words.reserve(words)
    }

    /// Appends a snapshot, if there is room for it.
    pub fn try_push(&mut self, seen: &Snapshot) -> bool
        ensures taken { IsTrue result → self.new ≡ self.old ++ seen.now ∷ [] }
        ensures left { result ≡ false → self.new ≡ self.old }
    {
        let words = seen.as_slice();
        if self.counts.room() == 0 || self.words.room() < words.len() {
            return false;
        }
        self.counts.push(words.len() as u8);
        self.words.append(words);
        true
    }

    /// Moves the snapshots to the end of a list that has room for them.
    pub fn move_to(&mut self, list: &mut RoomyList<Snapshot>)
        requires { length self.old ≤ list.old.room }
        ensures items { list.new.items ≡ list.old.items ++ self.old }
        ensures room { list.new.room ≡ list.old.room - length self.old }
        ensures emptied { self.new ≡ [] }
    {
        list_snaps(self.counts.as_slice(), self.words.as_slice(), list);
        self.counts.clear();
        self.words.clear();
    }
}
