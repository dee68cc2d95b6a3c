//! The committed state: the rows after the first entries of a history.

ghost use Rattle.std.specs.Prelude.{◌≡◌, ◌-◌, ◌≤◌, ◌++◌, length, take, IfOk, OnOk, if◌then◌else◌};
ghost use Rattle.si_model.specs.declared.row.Key.{Key};
ghost use Rattle.si_model.specs.Committed.{rows_held};
ghost use Rattle.si_model.specs.Held.{held_at};
ghost use Rattle.si_model.specs.Rows.{same_key, rows_of, overlay, items_from, ListsRows};
ghost use Rattle.si_model.specs.State.{state_at};

use crate::report::CommitLine;
use crate::row::{Item, Items, Key, Row, Value, copy_value};
use std::alloc::{AllocError, Global};
use std::collections::BTreeMap;

/// What the rows hold. Where several have one key the first counts, so it is put in last.
#[tactic(auto, using(crate::proofs::HeldLemmas::under_rows))]
fn held_by(alloc: Global, rows: &[Row]) -> Result<BTreeMap<Key, Value>, AllocError>
    ensures { IfOk result (λ held. (key : Key) → held_at held key ≡ rows_of rows.now key) }
{
    let mut held = BTreeMap::new(alloc);
    for row in rows.iter().rev() {
        held.insert(row.key(), row.value.copy())?;
    }
    Ok(held)
}

/// Gives a key a value, or makes it absent.
fn hold(held: &mut BTreeMap<Key, Value>, key: Key, value: Option<Value>) -> Result<(), AllocError>
    ensures { OnOk result (
        (k : Key) → held_at held.new k ≡ (if same_key key k then value else held_at held.old k)) }
{
    match value {
        Some(value) => {
            held.insert(key, value)?;
        }
        None => {
            held.remove(&key);
        }
    }
    Ok(())
}

/// Puts a write set over what is held. Where it writes a key several times the first counts, so it is put in last.
#[tactic(auto, using(crate::proofs::HeldLemmas::under_writes))]
fn write_over(held: &mut BTreeMap<Key, Value>, writes: &[Item]) -> Result<(), AllocError>
    ensures { OnOk result ((key : Key) → held_at held.new key ≡ overlay writes.now (held_at held.old) key) }
{
    for item in writes.iter().rev() {
        hold(held, item.key(), copy_value(&item.value))?;
    }
    Ok(())
}

/// The rows that are held, in order of tables and keys.
fn rows_in_order(alloc: Global, held: BTreeMap<Key, Value>) -> Result<Vec<Row>, AllocError>
    ensures { IfOk result (λ rows. ListsRows rows.items (held_at held)) }
{
    let mut rows = Vec::new(alloc);
    for (key, value) in held {
        rows.push(Row {
            table: key.table,
            key: key.key,
            value,
        })?;
    }
    Ok(rows)
}

/// The committed rows, by key, while one write set after another is put over them.
#[derive(Drop)]
pub struct CommittedRows {
    held: BTreeMap<Key, Value>,
}

impl CommittedRows {
    /// The loaded rows. Where several have one key, the first counts.
    pub fn load(alloc: Global, rows: &[Row]) -> Result<CommittedRows, AllocError>
        ensures { IfOk result (λ c. (key : Key) → rows_held c key ≡ rows_of rows.now key) }
    {
        let held = held_by(alloc, rows)?;
        Ok(CommittedRows { held })
    }

    /// What a key holds.
    pub fn value(&self, key: Key) -> Option<Value>
        ensures { result ≡ rows_held self.now key }
    {
        self.held.get(&key).map(|value| value.copy())
    }

    /// Puts a write set over the rows. Where memory is not found, some of it may stand over them.
    pub fn write(&mut self, writes: &[Item]) -> Result<(), AllocError>
        ensures { OnOk result ((key : Key) → rows_held self.new key ≡ overlay writes.now (rows_held self.old) key) }
    {
        write_over(&mut self.held, writes)
    }

    /// Appends the items of the rows of a table whose keys are from `low` on and before `end`, in order of keys.
    pub(crate) fn add_items_before(
        &self,
        items: &mut Items,
        table: u32,
        low: u64,
        end: u64,
    ) -> Result<(), AllocError>
        requires { low ≤ end }
        ensures { OnOk result (items.new ≡ items.old ++ items_from (rows_held self.now) table low (end - low)) }
    {
        for (key, value) in self
            .held
            .range(Key { table, key: low }..Key { table, key: end })
        {
            items.push(Item {
                table: key.table,
                key: key.key,
                value: Some(value.copy()),
            })?;
        }
        Ok(())
    }

    /// The rows, ordered by table and key.
    pub fn into_rows(self, alloc: Global) -> Result<Vec<Row>, AllocError>
        ensures { IfOk result (λ listed. ListsRows listed.items (rows_held self)) }
    {
        let CommittedRows { held } = self;
        rows_in_order(alloc, held)
    }
}

/// What the first `p` entries of a history leave of the rows. Where rows share a key, the first counts.
pub(crate) fn committed_at(
    alloc: Global,
    rows: &[Row],
    history: &[CommitLine],
    p: usize,
) -> Result<CommittedRows, AllocError>
    requires { p ≤ length history.now }
    ensures { IfOk result (λ c. rows_held c ≡ state_at (rows_of rows.now) (take p history.now)) }
{
    let mut committed = CommittedRows::load(alloc, rows)?;
    for line in &history[..p] {
        committed.write(line.writes.as_slice())?;
    }
    Ok(committed)
}

/// The rows after the first `p` entries of a history, each key once, ordered by table and key. Where rows share a
/// key, the first counts.
pub fn state(
    alloc: Global,
    rows: &[Row],
    history: &[CommitLine],
    p: usize,
) -> Result<Vec<Row>, AllocError>
    requires { p ≤ length history.now }
    ensures { IfOk result (λ listed. ListsRows listed.items (state_at (rows_of rows.now) (take p history.now))) }
{
    let committed = committed_at(alloc, rows, history, p)?;
    committed.into_rows(alloc)
}
