//! An operation claims the position of its key.

ghost use Rattle.std.specs.Prelude.{◌≡◌};
ghost use Rattle.nam_calls.specs.Index.{claim_key_next, nth_position};
ghost use Rattle.nam_calls.specs.declared.index.ClaimKeyPoint.TheVariants.{KeyLook, KeyTake};
ghost use Rattle.nam_protocol.specs.declared.txn.TxnPoint.TheVariants.{Claiming};
ghost use Rattle.nam_protocol.specs.Operations.{value_in, answer_of};
ghost use Rattle.nam_protocol.specs.Txn.{over, after_claim, on_claim};
ghost use Rattle.nam_protocol.specs.TxnCalls.{txn_after};
ghost use Rattle.nam_txn.specs.Txn.{stepped_of, OpRuns, ClaimStands, Keeps};
ghost use Rattle.nam_txn.specs.declared.step.Step.TheVariants as step;

use crate::change::{answer_of, change};
use crate::keys::note_claim;
use crate::registers::Registers;
use crate::step::Step;
use nam_layout::Layout;
use nam_protocol::{Record, TxnAnswer};

impl Registers {
    /// A key word was found.
    #[inline]
    pub fn look_key(&mut self, layout: &Layout, found: u64)
        requires step { self.old.step ≡ step.KeyLook }
        requires runs { OpRuns layout.now self.old }
        requires claims { ClaimStands layout.now self.old }
        ensures value { stepped_of self.new
            ≡ txn_after layout.now self.old.state (Claiming self.old.op (KeyLook self.old.walk.passed)) found }
        ensures keeps { Keeps layout.now self.new }
    {
        if found == self.walk.path.key + 1 {
            self.claim(layout);
        } else if found == 0 {
            self.step = Step::KeyTake;
        } else {
            self.pass_key(layout);
        }
    }

    /// The exchange of a free key word found this.
    #[inline]
    pub fn take_key(&mut self, layout: &Layout, found: u64)
        requires step { self.old.step ≡ step.KeyTake }
        requires runs { OpRuns layout.now self.old }
        requires claims { ClaimStands layout.now self.old }
        ensures value { stepped_of self.new
            ≡ txn_after layout.now self.old.state (Claiming self.old.op (KeyTake self.old.walk.passed)) found }
        ensures keeps { Keeps layout.now self.new }
    {
        if found == 0 || found == self.walk.path.key + 1 {
            self.claim(layout);
        } else {
            self.pass_key(layout);
        }
    }

    // The position bears another key.
    #[inline]
    fn pass_key(&mut self, layout: &Layout)
        requires runs { OpRuns layout.now self.old }
        requires claims { ClaimStands layout.now self.old }
        ensures value { stepped_of self.new ≡ on_claim layout.now self.old.state self.old.op
            (claim_key_next self.old.walk.path self.old.walk.passed) }
        ensures keeps { Keeps layout.now self.new }
    {
        if self.walk.passed + 1 == self.walk.path.capacity {
            let table = self.op.key().table;
            self.end(TxnAnswer::NoSpace { table });
        } else {
            self.walk.pass();
            self.step = Step::KeyLook;
        }
    }

    // The position bears the key.
    #[inline(never)]
    fn claim(&mut self, layout: &Layout)
        requires runs { OpRuns layout.now self.old }
        requires claims { ClaimStands layout.now self.old }
        ensures value { stepped_of self.new ≡ over
            (after_claim layout.now self.old.state self.old.op
            (nth_position self.old.walk.path self.old.walk.passed))
            (answer_of self.old.op (value_in self.old.state.read)) }
        ensures keeps { Keeps layout.now self.new }
    {
        let key = self.op.key();
        let place = layout.place(key.table, self.walk.position);
        note_claim(&mut self.state.claims, Record { key, place });
        change(&mut self.state, &self.op, self.width);
        let answer = answer_of(&self.op, &self.state.read);
        self.end(answer);
    }
}
