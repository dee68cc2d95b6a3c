//! The store of the serial run.

ghost use Rattle.std.specs.Prelude.{◌≡◌, ◌+◌, ◌-◌, ◌<◌, ◌≤◌, ◌++◌, [], ◌∷◌, length, map, replicate, slice_set};
ghost use Rattle.std.specs.Prelude.{IfOk, OnOk, if◌then◌else◌};
ghost use Rattle.si_model.specs.declared.row.Key.{Key};
ghost use Rattle.si_model.specs.Rows.{rows_of, overlay, writes_key};
ghost use Rattle.si_model.specs.Committed.{rows_held};
ghost use Rattle.si_model.specs.History.{loader, stamp_at, keys_of};
ghost use Rattle.namdb.specs.Stamps.{stamp_held, lock_held};

use crate::stamps;
use lists::List;
use nam_vector::publish_number;
use nam_verbs::PlainRegion;
use si_model::{CommitLine, CommittedRows, Item, Key, Lock, Row, Stamp, copy_items, keys_of};
use std::alloc::{AllocError, Global};
use std::collections::BTreeMap;

/// The vector of published numbers, the committed rows with the newest stamp of each, and the history so far.
#[derive(Drop)]
pub struct Store {
    pub vector: PlainRegion,
    pub rows: CommittedRows,
    pub stamps: BTreeMap<Key, Stamp>,
    pub history: List<CommitLine>,
}

impl Store {
    /// A store of the loaded rows, where each of the workers has published `start`.
    pub fn open(alloc: Global, workers: u32, start: u64, rows: &[Row]) -> Result<Store, AllocError>
        ensures vector { IfOk result (λ store. store.vector ≡ replicate workers start) }
        ensures rows { IfOk result (λ store. (key : Key) → rows_held store.rows key ≡ rows_of rows.now key) }
        ensures stamps { IfOk result (λ store. (key : Key) → stamp_held store.stamps key ≡ loader) }
        ensures history { IfOk result (λ store. store.history ≡ []) }
    {
        let vector = PlainRegion::new(vec![in alloc; start; workers as usize]?);
        let rows = CommittedRows::load(alloc, rows)?;
        Ok(Store {
            vector,
            rows,
            stamps: BTreeMap::new(alloc),
            history: List::new(alloc),
        })
    }

    /// The locks of a commit: of the keys that it writes, and then of those that it guards.
    pub fn locks(
        &self,
        alloc: Global,
        writes: &[Item],
        guards: &[Key],
    ) -> Result<List<Lock>, AllocError>
        ensures { IfOk result (λ locks. locks ≡ map (lock_held self.now.stamps) (keys_of writes.now guards.now)) }
    {
        let keys = keys_of(alloc, writes, guards)?;
        stamps::locks_on(alloc, &self.stamps, keys.as_slice())
    }

    /// Commits a write set as the worker's commit of this number, and publishes it.
    pub fn commit(
        &mut self,
        alloc: Global,
        worker: u32,
        number: u64,
        txn: u32,
        writes: &[Item],
    ) -> Result<(), AllocError>
        requires worker { (1 ≤ worker) × (worker ≤ 16) }
        requires entry { worker ≤ length self.old.vector }
        ensures vector { OnOk result (self.new.vector ≡ slice_set self.old.vector (worker - 1) number) }
        ensures rows { OnOk result (
            (key : Key) → rows_held self.new.rows key ≡ overlay writes.now (rows_held self.old.rows) key) }
        ensures stamps { OnOk result (
            (key : Key) → stamp_held self.new.stamps key
            ≡ (if writes_key writes.now key then stamp_at worker number else stamp_held self.old.stamps key)) }
        ensures history { OnOk result (
            self.new.history ≡ self.old.history ++ record {
              worker = worker;
              number = number;
              prefix = length self.old.history;
              txn = txn;
              writes = writes.now;
            } ∷ []) }
    {
        let line = CommitLine {
            worker,
            number,
            prefix: self.history.len() as u64,
            txn,
            writes: copy_items(alloc, writes)?,
        };
        self.rows.write(writes)?;
        let stamp = Stamp {
            thread: worker,
            number,
        };
        stamps::note(&mut self.stamps, stamp, writes)?;
        self.history.push(line)?;
        publish_number(&mut self.vector, worker, number);
        Ok(())
    }
}
