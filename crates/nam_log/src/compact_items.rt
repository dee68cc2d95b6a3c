//! A list of items whose newest stand in few bytes.

ghost use Rattle.std.specs.Prelude.{◌≡◌, ◌-◌, ◌<◌, [], ◌∷◌, ◌++◌, max, OnOk, OnErr};

use crate::RoomyList;
use crate::flat_items::FlatItems;
use si_model::{Item, Value, copy_value};
use std::alloc::{AllocError, Global};
use std::marker::Model;

/// A list of items with room. The newest stand in few bytes for as long as there is room for them there.
#[derive(Debug, Drop)]
pub(crate) struct CompactItems {
    listed: RoomyList<Item>,
    newest: FlatItems,
}

impl Model for CompactItems {
    ghost use Rattle.std.specs.Prelude.{◌-◌, ◌≤◌, ◌++◌, length};
    ghost use Rattle.si_model.specs.declared.row.Item.{Item};
    ghost use Rattle.nam_log.specs.Roomy.{Roomy};

    ghost Value = { Roomy Item };

    ghost view = { λ a. record { items = a.listed.items ++ a.newest; room = a.listed.room - length a.newest } };

    ghost invariant = { λ a. length a.newest ≤ a.listed.room };
}

impl CompactItems {
    /// No items and no room.
    pub fn new(alloc: Global) -> CompactItems
        ensures items { result.items ≡ [] }
        ensures room { result.room ≡ 0 }
    {
        CompactItems {
            listed: RoomyList::new(alloc),
            newest: FlatItems::new(alloc),
        }
    }

    /// Makes room for so many more items, if there is not as much already. Where memory is not found, items and room
    /// stay as they were.
    pub fn reserve(&mut self, room: u32) -> Result<(), AllocError>
        ensures items { self.new.items ≡ self.old.items }
        ensures ok { OnOk result (self.new.room ≡ max self.old.room room) }
        ensures err { OnErr result (self.new.room ≡ self.old.room) }
    {
        self.newest.move_to(&mut self.listed);
        let room = room as usize;
        self.newest.reserve(room, 2 * room)?;
        self.listed.reserve(room)
    }

    /// Appends an item, for which there is room.
    #[inline]
    pub fn push(&mut self, table: u32, key: u64, value: &Option<Value>)
        requires { 0 < self.old.room }
        ensures items { self.new.items ≡ self.old.items ++ record { table = table; key = key; value = value.now } ∷ [] }
        ensures room { self.new.room ≡ self.old.room - 1 }
    {
        if !self.newest.try_push(table, key, value) {
            self.push_listed(table, key, value);
        }
    }

    /// The same, where the newest have no room.
    #[cold]
    #[inline(never)]
    fn push_listed(&mut self, table: u32, key: u64, value: &Option<Value>)
        requires { 0 < self.old.room }
        ensures items { self.new.items ≡ self.old.items ++ record { table = table; key = key; value = value.now } ∷ [] }
        ensures room { self.new.room ≡ self.old.room - 1 }
    {
        self.newest.move_to(&mut self.listed);
        self.listed.push(Item {
            table,
            key,
            value: copy_value(value),
        });
    }

    /// The vector of the items, made without memory.
    pub fn into_vec(self) -> Vec<Item>
        ensures { result.items ≡ self.items }
    {
        let CompactItems {
            mut listed,
            mut newest,
        } = self;
        newest.move_to(&mut listed);
        listed.into_vec()
    }
}
