//! Rows, keys, and what a key holds.

ghost use Rattle.std.specs.Prelude.{◌≡◌, IfOk};

use lists::{List, ShortList};
use std::alloc::{AllocError, Global};

/// The words of a row, one for each field of its table.
pub type Value = ShortList<u64, 8>;

/// A table, numbered from 0 in script order, and a key in it. The order is by table and then by key.
#[derive(Clone, Copy, Debug, Default, PartialEq, Eq, PartialOrd, Ord)]
pub struct Key {
    pub table: u32,
    pub key: u64,
}

/// A row of a table.
#[derive(Debug, Drop)]
pub struct Row {
    pub table: u32,
    pub key: u64,
    pub value: Value,
}

impl Row {
    ghost use Rattle.si_model.specs.Rows.{row_key};

    /// The table and the key.
    pub fn key(&self) -> Key
        ensures { result ≡ row_key self.now }
    {
        Key {
            table: self.table,
            key: self.key,
        }
    }
}

/// What a key holds: a value, or none where it is absent.
#[derive(Debug, Default, Drop, PartialEq, Eq)]
pub struct Item {
    pub table: u32,
    pub key: u64,
    pub value: Option<Value>,
}

impl Item {
    ghost use Rattle.si_model.specs.Rows.{item_key};

    /// The table and the key.
    pub fn key(&self) -> Key
        ensures { result ≡ item_key self.now }
    {
        Key {
            table: self.table,
            key: self.key,
        }
    }

    /// An equal item, made without memory.
    pub fn copy(&self) -> Item
        ensures { result ≡ self.now }
    {
        Item {
            table: self.table,
            key: self.key,
            value: copy_value(&self.value),
        }
    }
}

/// An equal value, if there is one.
pub fn copy_value(value: &Option<Value>) -> Option<Value>
    ensures { result ≡ value.now }
{
    value.as_ref().map(|value| value.copy())
}

/// What was read or written, in order.
pub type Items = List<Item>;

/// Equal items.
pub fn copy_items(alloc: Global, items: &[Item]) -> Result<Items, AllocError>
    ensures { IfOk result (λ copies. copies ≡ items.now) }
{
    let mut copies = List::new(alloc);
    for item in items {
        copies.push(item.copy())?;
    }
    Ok(copies)
}
