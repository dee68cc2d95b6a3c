//! A call is asked.

ghost use Rattle.std.specs.Prelude.{◌≡◌, ◌<◌, length, true, Some};
ghost use Rattle.si_model.specs.Rows.{writes_key};
ghost use Rattle.si_model.specs.Evaluation.{op_key};
ghost use Rattle.si_model.specs.Places.{place_of};
ghost use Rattle.nam_catalog.specs.Fits.{FitsLimits};
ghost use Rattle.nam_calls.specs.Words.{width_of};
ghost use Rattle.nam_calls.specs.Reading.{read_most};
ghost use Rattle.nam_calls.specs.Fits.{HasWidth, IsTableOf};
ghost use Rattle.nam_protocol.specs.Operations.{value_in};
ghost use Rattle.nam_protocol.specs.Txn.{ask_op, with_own};
ghost use Rattle.nam_protocol.specs.TxnCalls.{txn_ask};
ghost use Rattle.nam_protocol.specs.TxnFits.{StateFits, OpStands, TxnCallFits};
ghost use Rattle.nam_txn.specs.Txn.{stepped_of, asked_op, own_step, verbs_step, Keeps};
ghost use Rattle.nam_txn.specs.Walk.{IsWalk};

use crate::change::{answer_of, change, passes};
use crate::deciding::read_of;
use crate::keys::place_written;
use crate::registers::Registers;
use crate::step::Step;
use nam_layout::Layout;
use nam_protocol::{TxnAnswer, TxnCall};
use si_model::{Op, copy_value};

/// The operation of a call, and none of a commit.
fn op_of(call: &TxnCall) -> Option<Op>
    ensures { result ≡ asked_op call.now }
{
    Some(match call {
        TxnCall::Get { table, key } => Op::Get {
            table: *table,
            key: *key,
        },
        TxnCall::Put { table, key, value } => Op::Put {
            table: *table,
            key: *key,
            value: value.copy(),
        },
        TxnCall::Add {
            table,
            key,
            field,
            up,
            by,
        } => Op::Add {
            table: *table,
            key: *key,
            field: *field,
            up: *up,
            by: *by,
        },
        TxnCall::Del { table, key } => Op::Del {
            table: *table,
            key: *key,
        },
        TxnCall::Need {
            table,
            key,
            field,
            least,
        } => Op::Need {
            table: *table,
            key: *key,
            field: *field,
            least: *least,
        },
        TxnCall::Guard { table, key } => Op::Guard {
            table: *table,
            key: *key,
        },
        TxnCall::Commit => return None,
    })
}

impl Registers {
    /// Asks a call.
    #[inline(never)]
    pub fn ask(&mut self, layout: &Layout, call: &TxnCall)
        requires walk { IsWalk self.old.walk }
        requires fits { StateFits layout.now self.old.state }
        requires call { TxnCallFits layout.now self.old.state call.now }
        ensures value { stepped_of self.new ≡ txn_ask layout.now self.old.state call.now }
        ensures keeps { Keeps layout.now self.new }
    {
        match op_of(call) {
            Some(op) => self.ask_op(layout, op),
            None => self.ask_commit(layout),
        }
    }

    fn ask_op(&mut self, layout: &Layout, op: Op)
        requires walk { IsWalk self.old.walk }
        requires fits { StateFits layout.now self.old.state }
        requires stands { OpStands layout.now self.old.state.claims op }
        ensures value { stepped_of self.new ≡ ask_op layout.now self.old.state op }
        ensures keeps { Keeps layout.now self.new }
    {
        // A layout's total says that the shape is within its limits.
        let _words = layout.total();
        let table = op.key().table;
        self.op = op;
        self.see_table(layout, table);
        self.begin_op(layout);
    }

    // A key of the write set takes no verb.
    fn begin_op(&mut self, layout: &Layout)
        requires limits { FitsLimits layout.now }
        requires walk { IsWalk self.old.walk }
        requires fits { StateFits layout.now self.old.state }
        requires stands { OpStands layout.now self.old.state.claims self.old.op }
        requires width { self.old.width ≡ width_of layout.now (op_key self.old.op).table }
        requires read_most { self.old.read_most ≡ read_most layout.now (op_key self.old.op).table }
        ensures value { stepped_of self.new ≡ ask_op layout.now self.old.state self.old.op }
        ensures keeps { Keeps layout.now self.new }
    {
        let key = self.op.key();
        match place_written(self.state.writes.as_slice(), key) {
            Some(place) => self.read_own(layout, place),
            None => self.begin_verbs(layout),
        }
    }

    // The write set's value of the key is what is read.
    fn read_own(&mut self, layout: &Layout, place: usize)
        requires limits { FitsLimits layout.now }
        requires walk { IsWalk self.old.walk }
        requires fits { StateFits layout.now self.old.state }
        requires stands { OpStands layout.now self.old.state.claims self.old.op }
        requires width { self.old.width ≡ width_of layout.now (op_key self.old.op).table }
        requires place { place_of self.old.state.writes (op_key self.old.op) ≡ Some place }
        requires within { place < length self.old.state.writes }
        ensures value { stepped_of self.new ≡ own_step layout.now self.old.state self.old.op }
        ensures keeps { Keeps layout.now self.new }
    {
        let own = copy_value(&self.state.writes.at(place).value);
        self.state.read = read_of(&self.op, own);
        self.do_own(layout);
    }

    // The first verb is at the first position of the key's path.
    fn begin_verbs(&mut self, layout: &Layout)
        requires limits { FitsLimits layout.now }
        requires stands { OpStands layout.now self.old.state.claims self.old.op }
        requires width { self.old.width ≡ width_of layout.now (op_key self.old.op).table }
        requires read_most { self.old.read_most ≡ read_most layout.now (op_key self.old.op).table }
        ensures value { stepped_of self.new ≡ verbs_step self.old.state self.old.op }
        ensures keeps { Keeps layout.now self.new }
    {
        let key = self.op.key();
        self.state.read = None;
        self.walk.begin(layout, key.table, key.key);
        if self.op.key_read().is_some() {
            self.step = Step::Finding;
        } else {
            self.step = Step::KeyLook;
        }
    }

    // What the steps need of a table.
    fn see_table(&mut self, layout: &Layout, table: u32)
        requires limits { FitsLimits layout.now }
        requires table { IsTableOf layout.now table }
        requires workers { length self.old.state.seen ≡ layout.now.workers }
        ensures { self.new ≡ record self.old {
          width = width_of layout.now table;
          read_most = read_most layout.now table;
        } }
    {
        let place = layout.place(table, 0);
        let cells = layout.cells(0);
        let workers = self.state.seen.len() as u32;
        self.width = place.width;
        self.read_most = 4
            + place.width
            + 2 * (place.ring * (place.width + 3))
            + cells.cells * (place.width + 5)
            + workers;
    }

    // Does the operation on what the write set has of its key.
    #[inline(never)]
    fn do_own(&mut self, layout: &Layout)
        requires limits { FitsLimits layout.now }
        requires walk { IsWalk self.old.walk }
        requires fits { StateFits layout.now self.old.state }
        requires stands { OpStands layout.now self.old.state.claims self.old.op }
        requires width { self.old.width ≡ width_of layout.now (op_key self.old.op).table }
        requires own { writes_key self.old.state.writes (op_key self.old.op) ≡ true }
        requires wide { HasWidth self.old.width (value_in self.old.state.read) }
        ensures value { stepped_of self.new
            ≡ with_own layout.now self.old.state self.old.op (value_in self.old.state.read) }
        ensures keeps { Keeps layout.now self.new }
    {
        if passes(&self.op, &self.state.read) {
            change(&mut self.state, &self.op, self.width);
            let answer = answer_of(&self.op, &self.state.read);
            self.end(answer);
        } else {
            self.end(TxnAnswer::Declined);
        }
    }
}
