//! Lists with room that was reserved.

ghost use Rattle.std.specs.Prelude.{◌≡◌, ◌+◌, ◌-◌, ◌<◌, ◌≤◌, [], ◌∷◌, ◌++◌, length, max, OnOk, OnErr};
ghost use Rattle.std.specs.List.Sorted.{IsPermutation, IsSortedByKeyClosure};

use std::alloc::{AllocError, Global};
use std::marker::Model;

/// A list that takes more elements without memory, as many as it has room for. Only `reserve` takes memory.
#[derive(Debug, Drop)]
pub struct RoomyList<T> {
    buffer: Vec<T>,
    room: usize,
}

impl<T> Model for RoomyList<T> {
    ghost use Rattle.std.specs.Prelude.{◌+◌, ◌≤◌};
    ghost use Rattle.std.specs.Vec.{vec_len, vec_capacity};
    ghost use Rattle.nam_log.specs.Roomy.{Roomy};

    ghost Value = { Roomy T };

    ghost view = { λ a. record { items = a.buffer.items; room = a.room } };

    ghost invariant = { λ a. vec_len a.buffer + a.room ≤ vec_capacity a.buffer };
}

impl<T> RoomyList<T> {
    /// An empty list without room, which has taken no memory yet.
    pub fn new(alloc: Global) -> Self
        ensures items { result.items ≡ [] }
        ensures room { result.room ≡ 0 }
    {
        RoomyList {
            buffer: Vec::new(alloc),
            room: 0,
        }
    }

    /// Makes room for so many more elements, if there is not as much already. Where memory is not found, list and room
    /// stay as they were.
    pub fn reserve(&mut self, room: usize) -> Result<(), AllocError>
        ensures items { self.new.items ≡ self.old.items }
        ensures ok { OnOk result (self.new.room ≡ max self.old.room room) }
        ensures err { OnErr result (self.new.room ≡ self.old.room) }
    {
        if self.room < room {
            self.buffer.reserve(room)?;
            self.room = room;
        }
        Ok(())
    }

    /// How many more elements there is room for.
    pub fn room(&self) -> usize
        ensures { result ≡ self.now.room }
    {
        self.room
    }

    pub fn len(&self) -> usize
        ensures { result ≡ length self.now.items }
    {
        self.buffer.len()
    }

    pub fn as_slice(&self) -> &[T]
        ensures { result.now ≡ self.now.items }
    {
        self.buffer.as_slice()
    }

    /// Appends an element, for which there is room.
    pub fn push(&mut self, item: T)
        requires { 0 < self.old.room }
        ensures items { self.new.items ≡ self.old.items ++ item ∷ [] }
        ensures room { self.new.room ≡ self.old.room - 1 }
    {
        self.room -= 1;
        self.buffer.push_reserved(item);
    }

    /// Sorts the elements by their keys in place, those of one key in any order.
    pub fn sort_unstable_by_key<K: Ord + Drop, F: FnMut(&T) -> K>(&mut self, key: F)
        requires { F.IsAlwaysCallable key }
        ensures permutation { IsPermutation self.old.items self.new.items }
        ensures sorted { IsSortedByKeyClosure F.FnMut K.cmp key self.new.items }
        ensures room { self.new.room ≡ self.old.room }
    {
        self.buffer.sort_unstable_by_key(key);
    }

    /// The vector of the elements, made without memory.
    pub fn into_vec(self) -> Vec<T>
        ensures { result.items ≡ self.items }
    {
        let RoomyList { buffer, room: _ } = self;
        buffer
    }
}

impl<T: Drop> RoomyList<T> {
    /// Makes the list empty. The room of its elements is room again.
    pub fn clear(&mut self)
        ensures items { self.new.items ≡ [] }
        ensures room { self.new.room ≡ self.old.room + length self.old.items }
    {
        self.room += self.buffer.len();
        self.buffer.clear();
    }
}

impl<T: Copy> RoomyList<T> {
    /// Appends elements, for which there is room.
    pub fn append(&mut self, items: &[T])
        requires { length items.now ≤ self.old.room }
        ensures items { self.new.items ≡ self.old.items ++ items.now }
        ensures room { self.new.room ≡ self.old.room - length items.now }
    {
        self.room -= items.len();
        let _appended = self.buffer.extend_from_slice(items);
    }
}
