//! A transaction begins.

ghost use Rattle.std.specs.Prelude.{◌≡◌, length, None};
ghost use Rattle.nam_protocol.specs.Txn.{new_txn};
ghost use Rattle.nam_txn.specs.Txn.{Holds};
ghost use Rattle.nam_txn.specs.declared.step.Step.TheVariants as step;

use crate::registers::Registers;
use crate::step::Step;
use crate::walk::Walk;
use lists::ShortList;
use nam_commit::Committer;
use nam_protocol::{TxnAnswer, TxnState};
use nam_reader::Reader;
use si_model::{Op, Snapshot};

// The same snapshot, in a buffer that stands.
fn copy_seen(seen: &mut Snapshot, from: &Snapshot)
    ensures { seen.new ≡ from.now }
{
    seen.clear();
    for entry in from.as_slice() {
        seen.push(*entry);
    }
}

impl Registers {
    pub fn new(worker: u32, last: u64, seen: Snapshot) -> Registers
        ensures step { result.step ≡ step.Resting }
        ensures state { result.state ≡ new_txn worker last seen }
        ensures holds { Holds result }
    {
        Registers {
            step: Step::Resting,
            state: TxnState {
                worker,
                last,
                seen,
                writes: ShortList::new(),
                guards: ShortList::new(),
                claims: ShortList::new(),
                read: None,
                records: ShortList::new(),
                held: ShortList::new(),
                counts: ShortList::new(),
            },
            op: Op::Get { table: 0, key: 0 },
            walk: Walk::new(),
            width: 0,
            read_most: 0,
            reader: Reader::new(),
            committer: Committer::new(),
            answer: TxnAnswer::ReadOnly,
        }
    }

    pub fn restart(&mut self, worker: u32, last: u64, seen: &Snapshot)
        requires { Holds self.old }
        ensures step { self.new.step ≡ step.Resting }
        ensures state { self.new.state ≡ new_txn worker last seen.now }
        ensures holds { Holds self.new }
    {
        let state = &mut self.state;
        state.worker = worker;
        state.last = last;
        copy_seen(&mut state.seen, seen);
        state.writes.clear();
        state.guards.clear();
        state.claims.clear();
        state.read = None;
        state.records.clear();
        state.held.clear();
        state.counts.clear();
        self.step = Step::Resting;
    }
}
