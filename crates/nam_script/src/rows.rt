//! The loaded rows so far, with the set of their keys and their number in each table, so that each row is tried in
//! logarithmic time.

ghost use Rattle.std.specs.Prelude.{◌≡◌, ◌<◌, ◌^◌, ◌-◌, [], ◌∷◌, ◌++◌, not, IsTrue, IfOk};
ghost use Rattle.nam_script.specs.Checks.{is_given, rows_in};

use lists::{List, ShortList};
use si_model::{Key, Row};
use std::alloc::{AllocError, Global};
use std::collections::BTreeSet;
use std::marker::Model;

/// Rows, which contracts see as the list of them.
#[derive(Debug, Drop)]
pub struct Rows {
    rows: Vec<Row>,
    keys: BTreeSet<Key>,
    counts: ShortList<u32, 8>,
}

impl Model for Rows {
    ghost use Rattle.std.specs.Prelude.{List, ℕ, ◌≡◌, ◌<◌, length, slice_index};
    ghost use Rattle.std.specs.BTreeSet.{contains};
    ghost use Rattle.si_model.specs.declared.row.Row.{Row as TheRow};
    ghost use Rattle.nam_script.specs.Checks.{is_given as has_row, rows_in as count_in};
    ghost use Rattle.si_model.specs.Rows.{key_at};
    ghost use Rattle.si_model.specs.Held.{key_cmp};

    ghost Value = { List TheRow };

    ghost view = { λ r. r.rows.items };

    ghost invariant = { λ r. ((t k : ℕ) → contains key_cmp r.keys (key_at t k) ≡ has_row r.rows.items t k)
        × (length r.counts ≡ 8)
        × ((t : ℕ) → t < 8 → slice_index r.counts t ≡ count_in r.rows.items t) };
}

fn no_counts() -> ShortList<u32, 8>
    ensures { result ≡ 0 ∷ 0 ∷ 0 ∷ 0 ∷ 0 ∷ 0 ∷ 0 ∷ 0 ∷ [] }
{
    let mut counts = ShortList::new();
    counts.push(0);
    counts.push(0);
    counts.push(0);
    counts.push(0);
    counts.push(0);
    counts.push(0);
    counts.push(0);
    counts.push(0);
    counts
}

impl Rows {
    pub fn new(alloc: Global) -> Rows
        ensures { result ≡ [] }
    {
        Rows {
            rows: Vec::new(alloc),
            keys: BTreeSet::new(alloc),
            counts: no_counts(),
        }
    }

    pub fn is_given(&self, table: u32, key: u64) -> bool
        ensures { result ≡ is_given self.now table key }
    {
        self.keys.contains(&Key { table, key })
    }

    /// How many rows a table has.
    pub fn count(&self, table: u32) -> u32
        requires { table < 8 }
        ensures { result ≡ rows_in self.now table }
    {
        *self.counts.at(table as usize)
    }

    /// Appends a row, and tells if its key is new. The rows stay as they were where it is not.
    pub fn push(&mut self, row: Row) -> Result<bool, AllocError>
        requires table { row.table < 8 }
        requires count { rows_in self.old row.table < 2 ^ 32 - 1 }
        ensures new { IfOk result (λ new. new ≡ not (is_given self.old row.table row.key)) }
        ensures pushed { IfOk result (λ new. IsTrue new → self.new ≡ self.old ++ row ∷ []) }
    {
        let table = row.table as usize;
        let key = row.key();
        self.rows.push(row)?;
        match self.keys.insert(key) {
            Ok(true) => {
                let count = *self.counts.at(table);
                self.counts.set(table, count + 1);
                Ok(true)
            }
            Ok(false) => {
                self.rows.pop();
                Ok(false)
            }
            Err(failed) => {
                self.rows.pop();
                Err(AllocError::from(failed))
            }
        }
    }

    pub fn into_list(self) -> List<Row>
        ensures { result ≡ self }
    {
        let Rows { rows, .. } = self;
        List::from_vec(rows)
    }
}
