//! An operation's value is known: it declines, claims a position, or is answered.

ghost use Rattle.std.specs.Prelude.{◌≡◌, false, Some};
ghost use Rattle.si_model.specs.EvaluationLaws.{is_scan};
ghost use Rattle.nam_calls.specs.Words.{width_of};
ghost use Rattle.nam_calls.specs.Fits.{HasWidth};
ghost use Rattle.si_model.specs.Evaluation.{op_key};
ghost use Rattle.nam_protocol.specs.Operations.{value_in, read_of};
ghost use Rattle.nam_protocol.specs.Txn.{over, on_decision, on_value};
ghost use Rattle.nam_txn.specs.Txn.{stepped_of, OpRuns, Keeps};
ghost use Rattle.nam_txn.specs.declared.step.Step.TheVariants as step;

use crate::change::{answer_of, passes};
use crate::registers::Registers;
use crate::step::Step;
use nam_layout::Layout;
use nam_protocol::TxnAnswer;
use si_model::{Item, Op, Value};

/// The item that an operation other than a scan reads, where its key has this value.
pub(crate) fn read_of(op: &Op, value: Option<Value>) -> Option<Item>
    requires { is_scan op.now ≡ false }
    ensures { result ≡ read_of op.now value }
{
    match op {
        Op::Get { table, key }
        | Op::Add { table, key, .. }
        | Op::Need { table, key, .. }
        | Op::Guard { table, key } => Some(Item {
            table: *table,
            key: *key,
            value,
        }),
        Op::Put { .. } | Op::Del { .. } | Op::Scan { .. } => None,
    }
}

impl Registers {
    /// The call is answered so.
    pub fn end(&mut self, answer: TxnAnswer)
        ensures step { self.new.step ≡ step.Answered }
        ensures value { stepped_of self.new ≡ over self.old.state answer }
        ensures walk { self.new.walk ≡ self.old.walk }
    {
        self.answer = answer;
        self.step = Step::Answered;
    }

    /// The value of the operation's key is known.
    #[inline(never)]
    #[tactic(auto, using(crate::proofs::ValueLemmas::known_again))]
    pub fn know(&mut self, layout: &Layout, value: Option<Value>)
        requires runs { OpRuns layout.now self.old }
        requires wide { HasWidth (width_of layout.now (op_key self.old.op).table) value }
        ensures value { stepped_of self.new ≡ on_value layout.now self.old.state self.old.op value }
        ensures keeps { Keeps layout.now self.new }
    {
        self.state.read = read_of(&self.op, value);
        self.decide(layout);
    }

    // A decline stands before any claim.
    fn decide(&mut self, layout: &Layout)
        requires runs { OpRuns layout.now self.old }
        requires wide { HasWidth (width_of layout.now (op_key self.old.op).table) (value_in self.old.state.read) }
        ensures value { stepped_of self.new
            ≡ on_decision layout.now self.old.state self.old.op (value_in self.old.state.read) }
        ensures keeps { Keeps layout.now self.new }
    {
        if !passes(&self.op, &self.state.read) {
            self.end(TxnAnswer::Declined);
        } else if self.op.key_claimed().is_some() {
            self.walk.restart();
            self.step = Step::KeyLook;
        } else {
            let answer = answer_of(&self.op, &self.state.read);
            self.end(answer);
        }
    }
}
