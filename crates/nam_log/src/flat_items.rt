//! Items as heads and words.

ghost use Rattle.std.specs.Prelude.{◌≡◌, ◌-◌, ◌≤◌, [], ◌∷◌, ◌++◌, length, false, IsTrue};
ghost use Rattle.nam_log.specs.Flat.{words_in, item_in, items_in, AreItems};

use crate::RoomyList;
use crate::item_head::ItemHead;
use si_model::{Item, Value};
use std::alloc::{AllocError, Global};
use std::marker::Model;

/// Items in few bytes: sixteen for each item and eight for each of its words. It takes memory only by `reserve`, and
/// refuses an item that it has no room for.
#[derive(Debug, Drop)]
pub(crate) struct FlatItems {
    heads: RoomyList<ItemHead>,
    words: RoomyList<u64>,
}

impl Model for FlatItems {
    ghost use Rattle.std.specs.Prelude.{List};
    ghost use Rattle.si_model.specs.declared.row.Item.{Item};
    ghost use Rattle.nam_log.specs.Flat.{items_in, AreItems};

    ghost Value = { List Item };

    ghost view = { λ a. items_in a.heads.items a.words.items };

    ghost invariant = { λ a. AreItems a.heads.items a.words.items };
}

/// The words as a value.
fn value_of(words: &[u64]) -> Value
    requires { length words.now ≤ 8 }
    ensures { result ≡ words.now }
{
    let mut value = Value::new();
    for word in words {
        value.push(*word);
    }
    value
}

/// How many words the value of this width has.
fn words_in(width: Option<u8>) -> usize
    ensures { result ≡ words_in width }
{
    width.map_or(0, usize::from)
}

/// The item of this head, whose words are the first.
fn item_in(head: &ItemHead, words: &[u64]) -> Item
    requires { (words_in head.now.width ≤ 8) × (words_in head.now.width ≤ length words.now) }
    ensures { result ≡ item_in head.now words.now }
{
    let value = match head.width {
        Some(width) => Some(value_of(&words[..width as usize])),
        None => None,
    };
    Item {
        table: head.table,
        key: head.key,
        value,
    }
}

#[tactic(auto, using(crate::proofs::FlatLemmas::items_count))]
/// Lists the items of these heads.
fn list_items(heads: &[ItemHead], words: &[u64], list: &mut RoomyList<Item>)
    requires items { AreItems heads.now words.now }
    requires room { length (items_in heads.now words.now) ≤ list.old.room }
    ensures items { list.new.items ≡ list.old.items ++ items_in heads.now words.now }
    ensures room { list.new.room ≡ list.old.room - length (items_in heads.now words.now) }
{
    let mut at = 0;
    for head in heads {
        list.push(item_in(head, &words[at..]));
        at += words_in(head.width);
    }
}

impl FlatItems {
    /// No items.
    pub fn new(alloc: Global) -> FlatItems
        ensures { result ≡ [] }
    {
        FlatItems {
            heads: RoomyList::new(alloc),
            words: RoomyList::new(alloc),
        }
    }

    /// Makes room for so many items of so many words in all.
    pub fn reserve(&mut self, items: usize, words: usize) -> Result<(), AllocError>
        ensures { self.new ≡ self.old }
    {
        self.heads.reserve(items)?;
        self.words.reserve(words)
    }

    /// Appends an item, if there is room for it.
    pub fn try_push(&mut self, table: u32, key: u64, value: &Option<Value>) -> bool
        ensures taken { IsTrue result → self.new ≡ self.old ++ record { table = table; key = key; value = value.now } ∷ [] }
        ensures left { result ≡ false → self.new ≡ self.old }
    {
        let mut head = ItemHead {
            key,
            table,
            width: None,
        };
        match value {
            Some(value) => {
                head.width = Some(value.len() as u8);
                self.try_append(head, value.as_slice())
            }
            None => self.try_append(head, &[]),
        }
    }

    /// Appends the item of this head and these words, if there is room for it.
    fn try_append(&mut self, head: ItemHead, words: &[u64]) -> bool
        requires { (length words.now ≡ words_in head.width) × (length words.now ≤ 8) }
        ensures taken { IsTrue result → self.new ≡ self.old ++ item_in head words.now ∷ [] }
        ensures left { result ≡ false → self.new ≡ self.old }
    {
        if self.heads.room() == 0 || self.words.room() < words.len() {
            return false;
        }
        self.heads.push(head);
        self.words.append(words);
        true
    }

    /// Moves the items to the end of a list that has room for them.
    pub fn move_to(&mut self, list: &mut RoomyList<Item>)
        requires { length self.old ≤ list.old.room }
        ensures items { list.new.items ≡ list.old.items ++ self.old }
        ensures room { list.new.room ≡ list.old.room - length self.old }
        ensures emptied { self.new ≡ [] }
    {
        list_items(self.heads.as_slice(), self.words.as_slice(), list);
        self.heads.clear();
        self.words.clear();
    }
}
