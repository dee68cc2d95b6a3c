//! Evaluation of operations.

ghost use Rattle.std.specs.Prelude.{◌≡◌, ◌^◌, ◌<◌, [], ◌∷◌, ◌++◌, length, All, IfOk, OnOk, IsTrue};
ghost use Rattle.si_model.specs.Committed.{rows_held};
ghost use Rattle.si_model.specs.Rows.{item_at, rows_of, overlay};
ghost use Rattle.si_model.specs.Evaluation.{with_write, passes, found, writes_after, guards_after, unwritten};
ghost use Rattle.si_model.specs.Evaluation.{evaluation_of, OpFits, AreWide};

use crate::committed::CommittedRows;
use crate::evaluated::Evaluated;
use crate::field::{changed_by, field_at, with_field};
use crate::keys::KeyList;
use crate::op::Op;
use crate::row::{Item, Items, Key, Row, Value, copy_value};
use crate::write_set::WriteSet;
use lists::List;
use std::alloc::{AllocError, Global};

/// The guarded keys that aren't written.
fn unwritten(alloc: Global, writes: &WriteSet, guards: &[Key]) -> Result<List<Key>, AllocError>
    ensures { IfOk result (λ keys. keys ≡ unwritten writes.now guards.now) }
{
    let mut keys = List::new(alloc);
    for guard in guards {
        if !writes.writes(*guard) {
            keys.push(*guard)?;
        }
    }
    Ok(keys)
}

/// What was read, written and guarded so far. The rows under the writes are the copy of the rows.
#[derive(Drop)]
struct Progress {
    reads: Items,
    writes: WriteSet,
    guards: KeyList,
}

impl Progress {
    /// Reads a key, and gives what was found.
    fn read(&mut self, rows: &CommittedRows, key: Key) -> Result<Option<Value>, AllocError>
        ensures found { IfOk result (λ value. value ≡ overlay self.old.writes (rows_held rows.now) key) }
        ensures reads { OnOk result (
            self.new.reads ≡ self.old.reads ++ item_at key (overlay self.old.writes (rows_held rows.now) key) ∷ []) }
        ensures writes { self.new.writes ≡ self.old.writes }
        ensures guards { self.new.guards ≡ self.old.guards }
    {
        let value = self.writes.value_over(rows, key);
        self.reads.push(Item {
            table: key.table,
            key: key.key,
            value: copy_value(&value),
        })?;
        Ok(value)
    }

    /// Gives a key a value, or makes it absent.
    fn write(&mut self, key: Key, value: Option<Value>) -> Result<(), AllocError>
        ensures writes { OnOk result (self.new.writes ≡ with_write self.old.writes (item_at key value)) }
        ensures reads { self.new.reads ≡ self.old.reads }
        ensures guards { self.new.guards ≡ self.old.guards }
    {
        let item = Item {
            table: key.table,
            key: key.key,
            value,
        };
        self.writes.note(item)
    }

    /// Does one operation on the copy, and says whether it passed.
    fn apply(&mut self, widths: &[u32], rows: &CommittedRows, op: &Op) -> Result<bool, AllocError>
        requires fits { OpFits widths.now op.now }
        requires wide { AreWide widths.now (overlay self.old.writes (rows_held rows.now)) }
        ensures passed { IfOk result (λ passed.
            passed ≡ passes op.now (overlay self.old.writes (rows_held rows.now))) }
        ensures reads { OnOk result (
            self.new.reads ≡ self.old.reads ++ found op.now (overlay self.old.writes (rows_held rows.now))) }
        ensures writes { IfOk result (λ passed. IsTrue passed →
            self.new.writes
            ≡ writes_after widths.now op.now (overlay self.old.writes (rows_held rows.now)) self.old.writes) }
        ensures guards { IfOk result (λ passed. IsTrue passed →
            self.new.guards ≡ guards_after op.now self.old.guards) }
    {
        match op {
            Op::Get { .. } => {
                self.read(rows, op.key())?;
            }
            Op::Put { value, .. } => self.write(op.key(), Some(value.copy()))?,
            Op::Add {
                table,
                field,
                up,
                by,
                ..
            } => {
                let before = self.read(rows, op.key())?;
                let Some(number) = changed_by(field_at(&before, *field), *up, *by) else {
                    return Ok(false);
                };
                let after = with_field(widths[*table as usize], before, *field, number);
                self.write(op.key(), Some(after))?;
            }
            Op::Del { .. } => self.write(op.key(), None)?,
            Op::Need { field, least, .. } => {
                let found = self.read(rows, op.key())?;
                return Ok(*least <= field_at(&found, *field));
            }
            Op::Guard { .. } => {
                self.read(rows, op.key())?;
                self.guards.note(op.key())?;
            }
            Op::Scan { table, low, high } => {
                self.writes
                    .add_items_between(&mut self.reads, rows, *table, *low, *high)?;
            }
        }
        Ok(true)
    }
}

/// What a list of operations does, one after another, on a copy of the committed rows. `widths` has the width of each
/// table, which each value has and an `add` gives a row that it makes. No row is copied but what is read.
pub fn eval_on(
    alloc: Global,
    widths: &[u32],
    ops: &[Op],
    rows: &CommittedRows,
) -> Result<Evaluated, AllocError>
    requires fits { All (OpFits widths.now) ops.now }
    requires wide { AreWide widths.now (rows_held rows.now) }
    requires short { length ops.now < 2 ^ 32 }
    ensures { IfOk result (λ evaluated.
        evaluated ≡ evaluation_of widths.now (rows_held rows.now) ops.now) }
{
    let mut progress = Progress {
        reads: List::new(alloc),
        writes: WriteSet::new(alloc),
        guards: KeyList::new(alloc),
    };
    for (place, op) in ops.iter().enumerate() {
        if !progress.apply(widths, rows, op)? {
            let Progress { reads, .. } = progress;
            return Ok(Evaluated::Declined {
                op: place as u32 + 1,
                reads,
            });
        }
    }
    let Progress {
        reads,
        writes,
        guards,
    } = progress;
    let guards = unwritten(alloc, &writes, guards.as_slice())?;
    Ok(Evaluated::Done {
        reads,
        writes: writes.into_items(),
        guards,
    })
}

/// What a list of operations does, one after another, on a copy of the rows. `widths` has the width of each table,
/// which each value has and an `add` gives a row that it makes. Where rows share a key, the first counts.
pub fn eval(
    alloc: Global,
    widths: &[u32],
    ops: &[Op],
    rows: &[Row],
) -> Result<Evaluated, AllocError>
    requires fits { All (OpFits widths.now) ops.now }
    requires wide { AreWide widths.now (rows_of rows.now) }
    requires short { length ops.now < 2 ^ 32 }
    ensures { IfOk result (λ evaluated.
        evaluated ≡ evaluation_of widths.now (rows_of rows.now) ops.now) }
{
    let rows = CommittedRows::load(alloc, rows)?;
    eval_on(alloc, widths, ops, &rows)
}
