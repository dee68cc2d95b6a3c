//! A list of snapshots whose newest stand in few bytes.

ghost use Rattle.std.specs.Prelude.{◌≡◌, ◌-◌, ◌<◌, [], ◌∷◌, ◌++◌, max, OnOk, OnErr};

use crate::RoomyList;
use crate::flat_snaps::FlatSnaps;
use si_model::Snapshot;
use std::alloc::{AllocError, Global};
use std::marker::Model;

/// A list of snapshots with room. The newest stand in few bytes for as long as there is room for them there.
#[derive(Debug, Drop)]
pub(crate) struct CompactSnaps {
    listed: RoomyList<Snapshot>,
    newest: FlatSnaps,
}

impl Model for CompactSnaps {
    ghost use Rattle.std.specs.Prelude.{ℕ, List, ◌-◌, ◌≤◌, ◌++◌, length};
    ghost use Rattle.nam_log.specs.Roomy.{Roomy};

    ghost Value = { Roomy (List ℕ) };

    ghost view = { λ a. record { items = a.listed.items ++ a.newest; room = a.listed.room - length a.newest } };

    ghost invariant = { λ a. length a.newest ≤ a.listed.room };
}

impl CompactSnaps {
    /// No snapshots and no room.
    pub fn new(alloc: Global) -> CompactSnaps
        ensures items { result.items ≡ [] }
        ensures room { result.room ≡ 0 }
    {
        CompactSnaps {
            listed: RoomyList::new(alloc),
            newest: FlatSnaps::new(alloc),
        }
    }

    /// Makes room for so many more snapshots, if there is not as much already. Where memory is not found, snapshots and
    /// room stay as they were.
    pub fn reserve(&mut self, room: u32) -> Result<(), AllocError>
        ensures items { self.new.items ≡ self.old.items }
        ensures ok { OnOk result (self.new.room ≡ max self.old.room room) }
        ensures err { OnErr result (self.new.room ≡ self.old.room) }
    {
        self.newest.move_to(&mut self.listed);
        let room = room as usize;
        self.newest.reserve(room, 2 * room)?;
        self.listed.reserve(room)
    }

    /// Appends a snapshot, for which there is room.
    #[inline]
    pub fn push(&mut self, seen: &Snapshot)
        requires { 0 < self.old.room }
        ensures items { self.new.items ≡ self.old.items ++ seen.now ∷ [] }
        ensures room { self.new.room ≡ self.old.room - 1 }
    {
        if !self.newest.try_push(seen) {
            self.push_listed(seen);
        }
    }

    /// The same, where the newest have no room.
    #[cold]
    #[inline(never)]
    fn push_listed(&mut self, seen: &Snapshot)
        requires { 0 < self.old.room }
        ensures items { self.new.items ≡ self.old.items ++ seen.now ∷ [] }
        ensures room { self.new.room ≡ self.old.room - 1 }
    {
        self.newest.move_to(&mut self.listed);
        self.listed.push(seen.copy());
    }

    /// The vector of the snapshots, made without memory.
    pub fn into_vec(self) -> Vec<Snapshot>
        ensures { result.items ≡ self.items }
    {
        let CompactSnaps {
            mut listed,
            mut newest,
        } = self;
        newest.move_to(&mut listed);
        listed.into_vec()
    }
}
