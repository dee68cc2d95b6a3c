//! The lines of transactions and of turns.

ghost use Rattle.std.specs.Prelude.{◌≡◌, ◌≤◌, [], ◌++◌, length, IfOk, OnOk};
ghost use Rattle.nam_script.specs.Admit.{Takes, admit_txn, push_op, admit_get, admit_put, admit_add, admit_del};
ghost use Rattle.nam_script.specs.Admit.{admit_need, admit_guard, admit_scan, admit_end, admit_turns, admit_seed};

use crate::checks::{
    all_small, all_stints, claim, key_of, small, steps_of, total_within, within_u32,
};
use crate::draft::Draft;
use crate::line::{Change, Numbers, SpeltStint};
use crate::refusal::{Kind, LineEnd};
use crate::script::{ScriptTxn, Stint};
use crate::stage::Stage;
use lists::List;
use nam_catalog::bounds::{MOST_OPS, MOST_PICKS, MOST_TURNS, MOST_TXN_OPS, MOST_TXNS};
use nam_text::Number;
use si_model::Op;
use std::alloc::{AllocError, Global};
use std::mem;

/// The operations in a list of exactly their number. The list that they came from keeps its room for those to come.
fn take_ops(alloc: Global, ops: &mut List<Op>) -> Result<List<Op>, AllocError>
    ensures { IfOk result (λ taken. (taken ≡ ops.old) × (ops.new ≡ [])) }
{
    let mut room = mem::replace(ops, List::new(alloc)).into_vec();
    let mut taken = Vec::with_capacity(alloc, room.len())?;
    taken.append(&mut room)?;
    *ops = List::from_vec(room);
    Ok(List::from_vec(taken))
}

fn push_stints(stints: &mut List<Stint>, more: &[Stint]) -> Result<(), AllocError>
    ensures { OnOk result (stints.new ≡ stints.old ++ more.now) }
{
    for stint in more {
        stints.push(*stint)?;
    }
    Ok(())
}

impl Draft {
    #[inline(always)]
    pub fn txn(&mut self, worker: Number) -> Result<(), LineEnd>
        ensures { Takes result self.new (admit_txn self.old worker) }
    {
        if !self.stage.is_loaded() {
            return Err(LineEnd::Bad(Kind::Word));
        }
        self.body.worker = within_u32(1, self.shape.workers, worker)?;
        if self.body.txns.len() >= MOST_TXNS {
            return Err(LineEnd::Bad(Kind::Size));
        }
        self.stage = Stage::Open;
        Ok(())
    }

    /// An operation of the open transaction, which counts `cost` of the operations in all.
    fn push_op(&mut self, op: Op, cost: u32) -> Result<(), LineEnd>
        ensures { Takes result self.new (push_op self.old op cost) }
    {
        if self.body.ops.len() >= MOST_TXN_OPS {
            return Err(LineEnd::Bad(Kind::Size));
        }
        self.body.cost = total_within(self.body.cost, cost as u64, MOST_OPS)?;
        claim(&mut self.body.keys, &op)?;
        self.body.ops.push(op)?;
        Ok(())
    }

    #[inline(always)]
    pub fn get(&mut self, table: &[u8], key: Number) -> Result<(), LineEnd>
        ensures { Takes result self.new (admit_get self.old table.now key) }
    {
        if !self.stage.is_at(Stage::Open) {
            return Err(LineEnd::Bad(Kind::Word));
        }
        let found = self.find(table)?;
        let key = key_of(key)?;
        let op = Op::Get {
            table: found.table,
            key,
        };
        self.push_op(op, 1)
    }

    #[inline(always)]
    pub fn put(&mut self, table: &[u8], key: Number, values: Numbers) -> Result<(), LineEnd>
        ensures { Takes result self.new (admit_put self.old table.now key values) }
    {
        if !self.stage.is_at(Stage::Open) {
            return Err(LineEnd::Bad(Kind::Word));
        }
        let found = self.find(table)?;
        let key = key_of(key)?;
        let value = all_small(&values)?;
        if value.len() != found.width as usize {
            return Err(LineEnd::Bad(Kind::Size));
        }
        let op = Op::Put {
            table: found.table,
            key,
            value,
        };
        self.push_op(op, 1)
    }

    #[inline(always)]
    pub fn add(
        &mut self,
        table: &[u8],
        key: Number,
        field: Number,
        change: Change,
    ) -> Result<(), LineEnd>
        ensures { Takes result self.new (admit_add self.old table.now key field change) }
    {
        if !self.stage.is_at(Stage::Open) {
            return Err(LineEnd::Bad(Kind::Word));
        }
        let found = self.find(table)?;
        let key = key_of(key)?;
        let field = within_u32(1, found.width, field)?;
        let by = small(change.by)?;
        let op = Op::Add {
            table: found.table,
            key,
            field,
            up: change.up,
            by,
        };
        self.push_op(op, 1)
    }

    #[inline(always)]
    pub fn del(&mut self, table: &[u8], key: Number) -> Result<(), LineEnd>
        ensures { Takes result self.new (admit_del self.old table.now key) }
    {
        if !self.stage.is_at(Stage::Open) {
            return Err(LineEnd::Bad(Kind::Word));
        }
        let found = self.find(table)?;
        let key = key_of(key)?;
        let op = Op::Del {
            table: found.table,
            key,
        };
        self.push_op(op, 1)
    }

    #[inline(always)]
    pub fn need(
        &mut self,
        table: &[u8],
        key: Number,
        field: Number,
        least: Number,
    ) -> Result<(), LineEnd>
        ensures { Takes result self.new (admit_need self.old table.now key field least) }
    {
        if !self.stage.is_at(Stage::Open) {
            return Err(LineEnd::Bad(Kind::Word));
        }
        let found = self.find(table)?;
        let key = key_of(key)?;
        let field = within_u32(1, found.width, field)?;
        let least = small(least)?;
        let op = Op::Need {
            table: found.table,
            key,
            field,
            least,
        };
        self.push_op(op, 1)
    }

    #[inline(always)]
    pub fn guard(&mut self, table: &[u8], key: Number) -> Result<(), LineEnd>
        ensures { Takes result self.new (admit_guard self.old table.now key) }
    {
        if !self.stage.is_at(Stage::Open) {
            return Err(LineEnd::Bad(Kind::Word));
        }
        let found = self.find(table)?;
        let key = key_of(key)?;
        let op = Op::Guard {
            table: found.table,
            key,
        };
        self.push_op(op, 1)
    }

    #[inline(always)]
    pub fn scan(&mut self, table: &[u8], low: Number, high: Number) -> Result<(), LineEnd>
        ensures { Takes result self.new (admit_scan self.old table.now low high) }
    {
        if !self.stage.is_at(Stage::Open) {
            return Err(LineEnd::Bad(Kind::Word));
        }
        let found = self.find(table)?;
        let low = key_of(low)?;
        let high = key_of(high)?;
        if low > high {
            return Err(LineEnd::Bad(Kind::Range));
        }
        let op = Op::Scan {
            table: found.table,
            low,
            high,
        };
        self.push_op(op, found.capacity)
    }

    #[inline(always)]
    pub fn end(&mut self, alloc: Global) -> Result<(), LineEnd>
        ensures { Takes result self.new (admit_end self.old) }
    {
        if !self.stage.is_at(Stage::Open) {
            return Err(LineEnd::Bad(Kind::Word));
        }
        if self.body.ops.len() == 0 {
            return Err(LineEnd::Bad(Kind::Word));
        }
        let ops = take_ops(alloc, &mut self.body.ops)?;
        self.body.keys.clear();
        self.body.txns.push(ScriptTxn {
            worker: self.body.worker,
            ops,
        })?;
        self.stage = Stage::Between;
        Ok(())
    }

    pub fn turns(&mut self, spelt: &List<SpeltStint>) -> Result<(), LineEnd>
        requires { length spelt.now ≤ 64 }
        ensures { Takes result self.new (admit_turns self.old spelt.now) }
    {
        if !self.stage.takes_turns() {
            return Err(LineEnd::Bad(Kind::Word));
        }
        let stints = all_stints(self.shape.workers, spelt)?;
        let steps = steps_of(stints.as_slice());
        self.body.steps = total_within(self.body.steps, steps, MOST_TURNS)?;
        push_stints(&mut self.body.stints, stints.as_slice())?;
        self.stage = Stage::Turns;
        Ok(())
    }

    pub fn seed(&mut self, seed: Number, picks: Number) -> Result<(), LineEnd>
        ensures { Takes result self.new (admit_seed self.old seed picks) }
    {
        if !self.stage.is_loaded() {
            return Err(LineEnd::Bad(Kind::Word));
        }
        self.body.seed = small(seed)?;
        self.body.picks = within_u32(0, MOST_PICKS, picks)?;
        self.stage = Stage::Seed;
        Ok(())
    }
}
