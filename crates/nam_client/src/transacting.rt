//! Calls of the open transaction, and what they list.

ghost use Rattle.std.specs.Prelude.{◌≡◌, ◌<◌, ◌≤◌, ◌+◌, ◌-◌, ◌^◌, IsSome, true, length};
ghost use Rattle.nam_protocol.specs.declared.txn.TxnAnswer.{TxnAnswer as Answered};
ghost use Rattle.nam_protocol.specs.declared.client.Answer.TheVariants as answer;
ghost use Rattle.nam_protocol.specs.declared.client.Call.TheVariants.{Txn as TxnOf};
ghost use Rattle.nam_protocol.specs.Client.{client_ask, client_after};
ghost use Rattle.nam_protocol.specs.Own.{MayAsk};
ghost use Rattle.nam_protocol.specs.RoomLaw.{call_room};
ghost use Rattle.nam_protocol.specs.Telling.{on_answer, with_answer};
ghost use Rattle.nam_protocol.specs.TxnCalls.{txn_ask};
ghost use Rattle.nam_catalog.specs.declared.shape.Shape.{Shape};
ghost use Rattle.nam_txn.specs.Txn.{IsAt, IsTxnOf, Rests, Runs, after_of, answer_in};
ghost use Rattle.nam_client.specs.declared.registers.Step.TheVariants as step;
ghost use Rattle.nam_client.specs.Registers.{client_of, call_of, open_of, with_new_locks};
ghost use Rattle.nam_client.specs.Room.{CanList, HasAnswered, HasRoom, Holds, reads_at_hand};
ghost use Rattle.nam_client.specs.Fits.{IsClientOf, HandFits};
ghost use Rattle.nam_client.specs.Ending.{CanGoOn, attempt_listed, call_counted, commit_listed, op_count, read_listed};

use crate::ending::{Ending, ending_of};
use crate::registers::{Registers, Step};
use nam_layout::Layout;
use nam_protocol::TxnCall;
use si_model::{Attempt, Outcome};

/// Asks a call of the open transaction.
#[tactic(auto, using(crate::proofs::AskRoom::room_of_call, crate::proofs::AskRoom::ask_runs, crate::proofs::AskRoom::ask_ends, crate::proofs::StepRoom::can_list, crate::proofs::StepRoom::is_answered, crate::proofs::StepRoom::room_going, crate::proofs::StepRoom::hand_fits,))]
pub fn ask_txn(a: &mut Registers, layout: &Layout, call: &TxnCall)
    requires of { IsClientOf layout.now a.old }
    requires may { MayAsk layout.now (client_of a.old) (TxnOf call.now) }
    requires holds { Holds a.old }
    requires rests { Rests a.old.txn.call }
    requires spare { (call_room layout.now (TxnOf call.now)).ops ≤ a.old.spare.ops }
    requires counted { a.old.attempt.ops_so_far + (call_room layout.now (TxnOf call.now)).ops < 2 ^ 32 }
    ensures client { client_of a.new ≡ client_ask layout.now (client_of a.old) (TxnOf call.now) }
    ensures spare { a.new.spare
        ≡ record a.old.spare { ops = a.old.spare.ops - (call_room layout.now (TxnOf call.now)).ops } }
    ensures txn { a.new.is_open ≡ true → IsTxnOf layout.now a.new.txn }
    ensures step { a.new.step ≡ step.InTxn }
    ensures hand { HandFits layout.now a.new (call_of a.new.step a.new) }
    ensures room { HasRoom a.new }
{
    start_txn(a, layout, call);
    if !a.txn.is_busy() {
        list_answer(a);
    }
}

/// Counts a call of the transaction, and asks it.
#[tactic(auto, using(crate::proofs::AskRoom::call_fits, crate::proofs::AskRoom::none_held, crate::proofs::AskRoom::is_open, crate::proofs::AskRoom::few_ops, crate::proofs::AskRoom::ready_asked,))]
fn start_txn(a: &mut Registers, layout: &Layout, call: &TxnCall)
    requires of { IsClientOf layout.now a.old }
    requires may { MayAsk layout.now (client_of a.old) (TxnOf call.now) }
    requires holds { Holds a.old }
    requires rests { Rests a.old.txn.call }
    requires spare { op_count call.now ≤ a.old.spare.ops }
    requires counted { a.old.attempt.ops_so_far + op_count call.now < 2 ^ 32 }
    ensures at { IsAt a.new.txn (txn_ask layout.now a.old.txn.state call.now) }
    ensures of { IsTxnOf layout.now a.new.txn }
    ensures value { a.new ≡ record (call_counted a.old call.now) { txn = a.new.txn } }
    ensures ready { CanGoOn a.new a.new.txn.call }
{
    count_call(a, call);
    a.txn.ask(layout, call);
}

/// Counts a call of the transaction, which is to run.
fn count_call(a: &mut Registers, call: &TxnCall)
    requires spare { op_count call.now ≤ a.old.spare.ops }
    requires ops { a.old.attempt.ops + op_count call.now < 2 ^ 32 }
    requires counted { a.old.attempt.ops_so_far + op_count call.now < 2 ^ 32 }
    ensures { a.new ≡ call_counted a.old call.now }
{
    if !matches!(call, TxnCall::Commit) {
        a.spare.ops -= 1;
        a.attempt.ops += 1;
        a.attempt.ops_so_far += 1;
    }
    a.step = Step::InTxn;
}

/// Goes on with a word of the transaction's call. A lock that it takes is listed at once.
#[inline]
#[tactic(auto, using(crate::proofs::StepRoom::can_list, crate::proofs::StepRoom::is_answered, crate::proofs::StepRoom::room_going, crate::proofs::StepRoom::client_runs, crate::proofs::StepRoom::client_ends, crate::proofs::StepRoom::hand_fits,))]
pub fn take_txn(a: &mut Registers, layout: &Layout, found: u64)
    requires of { IsClientOf layout.now a.old }
    requires holds { Holds a.old }
    requires step { a.old.step ≡ step.InTxn }
    requires runs { Runs a.old.txn.call }
    ensures client { client_of a.new ≡ client_after layout.now (client_of a.old) found }
    ensures spare { a.new.spare ≡ a.old.spare }
    ensures txn { a.new.is_open ≡ true → IsTxnOf layout.now a.new.txn }
    ensures step { a.new.step ≡ step.InTxn }
    ensures hand { HandFits layout.now a.new (call_of a.new.step a.new) }
    ensures room { HasRoom a.new }
{
    step_txn(a, layout, found);
    if !a.txn.is_busy() {
        list_answer(a);
    }
}

/// Hands the word to the transaction, and lists a lock that it has taken.
#[inline]
#[tactic(auto, using(crate::proofs::StepRoom::ready))]
fn step_txn(a: &mut Registers, layout: &Layout, found: u64)
    requires of { IsClientOf layout.now a.old }
    requires holds { Holds a.old }
    requires step { a.old.step ≡ step.InTxn }
    requires runs { Runs a.old.txn.call }
    ensures at { IsAt a.new.txn (after_of layout.now a.old.txn.state a.old.txn.call found) }
    ensures of { IsTxnOf layout.now a.new.txn }
    ensures value { a.new ≡ with_new_locks (record a.old { txn = a.new.txn }) }
    ensures ready { CanGoOn a.new a.new.txn.call }
{
    a.txn.take(layout, found);
    list_new_locks(a);
}

/// Lists the lock that the commit has taken, if it has.
#[inline]
fn list_new_locks(a: &mut Registers)
    requires least { a.old.attempt.locks ≤ length a.old.txn.state.held }
    requires most { length a.old.txn.state.held ≤ a.old.attempt.locks + 1 }
    requires word { length a.old.txn.state.held < 2 ^ 32 }
    requires room { length a.old.txn.state.held ≤ a.old.log.room.locks + a.old.attempt.locks }
    ensures { a.new ≡ with_new_locks a.old }
{
    if a.txn.held_len() != a.attempt.locks {
        list_lock(a);
    }
}

/// Lists the lock that the commit has taken.
#[inline(never)]
fn list_lock(a: &mut Registers)
    requires one { length a.old.txn.state.held ≡ a.old.attempt.locks + 1 }
    requires word { a.old.attempt.locks + 1 < 2 ^ 32 }
    requires room { 0 < a.old.log.room.locks }
    ensures { a.new ≡ with_new_locks a.old }
{
    a.log.list_lock(a.txn.lock(a.attempt.locks));
    a.attempt.locks += 1;
}

/// Lists what the call has read, and the attempt where it has ended.
#[inline(never)]
fn list_answer(a: &mut Registers)
    requires can { CanList a.old }
    requires answered { IsSome (answer_in a.old.txn.call) }
    ensures client { (end : Answered) → HasAnswered a.old end
        → client_of a.new ≡ with_answer (on_answer (client_of a.old) (open_of a.old) end) (answer.Txn end) }
    ensures spare { a.new.spare ≡ a.old.spare }
    ensures txn { (shape : Shape) → IsTxnOf shape a.old.txn → IsTxnOf shape a.new.txn }
    ensures same { a.new ≡ record a.old {
      last = a.new.last;
      log = a.new.log;
      is_open = a.new.is_open;
      attempt = a.new.attempt;
      txn = record a.old.txn { state = a.new.txn.state };
    } }
    ensures room { HasRoom a.new }
{
    let ending = match a.txn.answered() {
        Some(answer) => ending_of(answer, a.attempt.ops),
        None => return,
    };
    match ending {
        Ending::Passes => list_read(a),
        Ending::Commits { number } => list_commit(a, number),
        Ending::Ends(outcome) => list_attempt(a, outcome, 0),
        Ending::EndsReading(outcome) => {
            list_read(a);
            list_attempt(a, outcome, 0);
        }
    }
}

/// Lists what the call has read.
fn list_read(a: &mut Registers)
    requires rests { Rests a.old.txn.call }
    requires room { reads_at_hand a.old ≤ a.old.log.room.reads }
    requires word { a.old.attempt.reads + reads_at_hand a.old < 2 ^ 32 }
    ensures value { a.new ≡ read_listed a.old }
    ensures txn { (shape : Shape) → IsTxnOf shape a.old.txn → IsTxnOf shape a.new.txn }
{
    if let Some(item) = a.txn.read() {
        a.log.list_read(item.table, item.key, &item.value);
        a.attempt.reads += 1;
    }
    a.txn.forget_read();
}

/// Lists the open transaction's attempt as a commit under this number.
pub fn list_commit(a: &mut Registers, number: u64)
    requires events { 0 < a.old.log.room.events }
    requires writes { length a.old.txn.state.writes ≤ a.old.log.room.writes }
    ensures { a.new ≡ commit_listed a.old number }
{
    a.last = number;
    let writes = a.txn.written();
    list_attempt(a, Outcome::Commit { number }, writes);
    a.log.list_writes(a.txn.writes());
}

/// Lists the open transaction's attempt, which is no longer open then.
pub fn list_attempt(a: &mut Registers, outcome: Outcome, writes: u32)
    requires { 0 < a.old.log.room.events }
    ensures { a.new ≡ attempt_listed a.old outcome writes }
{
    a.is_open = false;
    a.log.list_tried(Attempt {
        txn: a.attempt.txn,
        nth: a.attempt.nth,
        prefix: Some(a.attempt.prefix),
        reads: a.attempt.reads,
        locks: a.attempt.locks,
        writes,
        outcome,
    });
}
