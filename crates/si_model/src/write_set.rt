//! The write set of an evaluation, and the rows under it.

ghost use Rattle.std.specs.Prelude.{◌≡◌, ◌-◌, ◌≤◌, false, [], ◌∷◌, ◌++◌, OnOk};
ghost use Rattle.si_model.specs.Rows.{item_key, writes_key, overlay, items_from, items_between, present};
ghost use Rattle.si_model.specs.Evaluation.{with_write};
ghost use Rattle.si_model.specs.Committed.{rows_held};

use crate::committed::CommittedRows;
use crate::row::{Item, Items, Key, Value, copy_value};
use lists::List;
use std::alloc::{AllocError, Global};
use std::collections::BTreeMap;
use std::marker::Model;

/// What is written so far: each key once, in the order of first writes, with its last value.
#[derive(Drop)]
pub(crate) struct WriteSet {
    items: Items,
    /// The place of each key's item.
    places: BTreeMap<Key, usize>,
}

impl Model for WriteSet {
    ghost use Rattle.std.specs.Prelude.{List};
    ghost use Rattle.si_model.specs.declared.row.Item.{Item};

    ghost Value = { List Item };

    ghost use Rattle.si_model.specs.Places.{HasPlaces};

    ghost view = { λ w. w.items };

    ghost invariant = { λ w. HasPlaces w.places w.items };
}

impl WriteSet {
    pub fn new(alloc: Global) -> WriteSet
        ensures { result ≡ [] }
    {
        WriteSet {
            items: List::new(alloc),
            places: BTreeMap::new(alloc),
        }
    }

    /// Notes a write: each key stands once, in the order of first writes, with its last value.
    pub fn note(&mut self, item: Item) -> Result<(), AllocError>
        ensures { OnOk result (self.new ≡ with_write self.old item) }
    {
        let key = item.key();
        match self.places.get(&key).copied() {
            Some(place) => {
                self.items.set(place, item);
                Ok(())
            }
            None => self.add(item),
        }
    }

    /// Appends an item whose key is not written yet.
    fn add(&mut self, item: Item) -> Result<(), AllocError>
        requires { writes_key self.old (item_key item) ≡ false }
        ensures { OnOk result (self.new ≡ self.old ++ item ∷ []) }
    {
        let key = item.key();
        self.places.insert(key, self.items.len())?;
        if self.items.push(item).is_err() {
            self.places.remove(&key);
            return Err(AllocError);
        }
        Ok(())
    }

    /// Is the key written?
    pub fn writes(&self, key: Key) -> bool
        ensures { result ≡ writes_key self.now key }
    {
        self.places.contains_key(&key)
    }

    /// What stands at a key of the rows under the write set.
    pub fn value_over(&self, rows: &CommittedRows, key: Key) -> Option<Value>
        ensures { result ≡ overlay self.now (rows_held rows.now) key }
    {
        match self.places.get(&key) {
            Some(place) => copy_value(&self.items.at(*place).value),
            None => rows.value(key),
        }
    }

    /// Appends the items of the present rows under the write set whose keys are from `low` on and before `end`, in
    /// order of keys: before each written key the rows since the last one, and then what is written.
    fn add_items_before(
        &self,
        items: &mut Items,
        rows: &CommittedRows,
        table: u32,
        low: u64,
        end: u64,
    ) -> Result<(), AllocError>
        requires { low ≤ end }
        ensures { OnOk result (
            items.new ≡ items.old ++ items_from (overlay self.now (rows_held rows.now)) table low (end - low)) }
    {
        let mut from = low;
        for (key, place) in self
            .places
            .range(Key { table, key: low }..Key { table, key: end })
        {
            rows.add_items_before(items, table, from, key.key)?;
            let value = copy_value(&self.items.at(*place).value);
            add_if_present(items, *key, value)?;
            from = key.key + 1;
        }
        rows.add_items_before(items, table, from, end)
    }

    /// Appends the items of the present rows under the write set whose keys are from `low` to `high`, in order of keys.
    pub fn add_items_between(
        &self,
        items: &mut Items,
        rows: &CommittedRows,
        table: u32,
        low: u64,
        high: u64,
    ) -> Result<(), AllocError>
        ensures { OnOk result (
            items.new ≡ items.old ++ items_between (overlay self.now (rows_held rows.now)) table low high) }
    {
        if high < low {
            return Ok(());
        }
        self.add_items_before(items, rows, table, low, high)?;
        let last = Key { table, key: high };
        add_if_present(items, last, self.value_over(rows, last))
    }

    /// The items, in the order of first writes.
    pub fn into_items(self) -> Items
        ensures { result ≡ self }
    {
        let WriteSet { items, .. } = self;
        items
    }
}

/// Appends the item of a key that holds a row.
fn add_if_present(items: &mut Items, key: Key, value: Option<Value>) -> Result<(), AllocError>
    ensures { OnOk result (items.new ≡ items.old ++ present key value) }
{
    match value {
        Some(value) => items.push(Item {
            table: key.table,
            key: key.key,
            value: Some(value),
        }),
        None => Ok(()),
    }
}
