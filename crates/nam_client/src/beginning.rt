//! Begins.

ghost use Rattle.std.specs.Prelude.{◌≡◌, ◌<◌, ◌≤◌, ◌-◌, IsSome, None, true, false};
ghost use Rattle.nam_verbs.specs.Running.{next_verb};
ghost use Rattle.nam_verbs.specs.declared.now.Now.TheVariants.{Over};
ghost use Rattle.nam_catalog.specs.declared.shape.Shape.{Shape};
ghost use Rattle.nam_vector.specs.Snap.{running};
ghost use Rattle.nam_vector.specs.declared.snap.SnapEnd.TheVariants.{Done};
ghost use Rattle.nam_protocol.specs.declared.client.Call.TheVariants.{Begin};
ghost use Rattle.nam_protocol.specs.Client.{client_ask, client_after};
ghost use Rattle.nam_protocol.specs.Log.{prefix_of, unbegun};
ghost use Rattle.nam_protocol.specs.Own.{MayAsk};
ghost use Rattle.nam_layout.specs.Address.{IsWorker};
ghost use Rattle.nam_client.specs.Registers.{client_of, call_of, seen_in, opened, listed};
ghost use Rattle.nam_protocol.specs.Txn.{new_txn};
ghost use Rattle.nam_client.specs.declared.registers.Step.TheVariants as step;
ghost use Rattle.nam_client.specs.Room.{HasRoom, StepHolds, TxnRests};
ghost use Rattle.nam_client.specs.Fits.{IsClientOf, HandFits, IsFresh};

use crate::registers::{Attempting, Registers, Step};
use nam_layout::Layout;
use nam_upkeep::SnapperEnd;
use si_model::{Attempt, Outcome};

/// How many workers the layout has: so many entries stand between the vector's and the horizon's of one worker.
pub fn workers_of(layout: &Layout, worker: u32) -> u32
    requires { IsWorker layout.now worker }
    ensures { result ≡ layout.now.workers }
{
    // A layout's total says that the shape is within its limits.
    let _words = layout.total();
    (layout.horizon_at(worker) - layout.entry_at(worker)) as u32
}

/// The sum of the entries above `start`, modulo 2^64: in a world, the number of commits that the snapshot sees.
pub fn prefix_of(start: u64, entries: &[u64]) -> u64
    ensures { result ≡ prefix_of start entries.now }
{
    match entries {
        [] => 0,
        [entry, rest @ ..] => entry
            .wrapping_sub(start)
            .wrapping_add(prefix_of(start, rest)),
    }
}

/// Asks for the snapshot of try `nth` of a transaction.
pub fn begin(a: &mut Registers, layout: &Layout, txn: u32, nth: u32)
    requires of { IsClientOf layout.now a.old }
    requires may { MayAsk layout.now (client_of a.old) (Begin txn nth) }
    requires room { HasRoom a.old }
    requires spare { 1 ≤ a.old.spare.attempts }
    ensures client { client_of a.new ≡ client_ask layout.now (client_of a.old) (Begin txn nth) }
    ensures spare { a.new.spare ≡ record a.old.spare { attempts = a.old.spare.attempts - 1 } }
    ensures hand { HandFits layout.now a.new (call_of a.new.step a.new) }
    ensures room { HasRoom a.new }
    ensures closed { a.new.is_open ≡ false }
    ensures at { StepHolds a.new.step a.new }
{
    a.spare.attempts -= 1;
    a.snapper.begin(workers_of(layout, a.worker));
    a.step = Step::Beginning { txn, nth };
}

/// Lists an attempt that got no snapshot.
#[inline(never)]
pub fn list_unbegun(a: &mut Registers, txn: u32, nth: u32, outcome: Outcome)
    requires { 0 < a.old.log.room.events }
    ensures { a.new ≡ listed a.old (unbegun txn nth outcome) }
{
    a.log.list_tried(Attempt {
        txn,
        nth,
        prefix: None,
        reads: 0,
        locks: 0,
        writes: 0,
        outcome,
    });
}

/// Goes on with a word of the snapshot.
#[inline]
pub fn take_begin(a: &mut Registers, txn: u32, nth: u32, found: u64)
    requires step { a.old.step ≡ step.Beginning txn nth }
    requires stands { IsSome (next_verb (running a.old.snapper)) }
    requires closed { a.old.is_open ≡ false }
    requires room { HasRoom a.old }
    ensures client { (shape : Shape) → a.old.snapper.workers ≡ shape.workers
        → client_of a.new ≡ client_after shape (client_of a.old) found }
    ensures spare { a.new.spare ≡ a.old.spare }
    ensures txn { a.new.is_open ≡ true → IsFresh a.new.txn }
    ensures hand { (shape : Shape) → a.old.snapper.workers ≡ shape.workers
        → HandFits shape a.new (call_of a.new.step a.new) }
    ensures room { HasRoom a.new }
    ensures at { StepHolds a.new.step a.new }
    ensures calm { a.new.is_open ≡ true → TxnRests a.new.step a.new.txn.call }
{
    a.snapper.take(found);
    match a.snapper.end() {
        None => {}
        Some(SnapperEnd::Done) => open(a, txn, nth),
        Some(
            SnapperEnd::Again {
                worker,
                first,
                second,
            },
        ) => {
            list_unbegun(
                a,
                txn,
                nth,
                Outcome::Again {
                    worker,
                    first,
                    second,
                },
            );
        }
    }
}

/// The transaction is open, on the snapshot that was taken.
#[inline(never)]
fn open(a: &mut Registers, txn: u32, nth: u32)
    requires done { a.old.snapper.state ≡ Over (Done (seen_in a.old.snapper.state)) }
    requires snaps { 0 < a.old.log.room.snaps }
    ensures state { a.new.txn.state ≡ new_txn a.old.worker a.old.last (seen_in a.old.snapper.state) }
    ensures call { a.new.txn.call ≡ None }
    ensures rest { a.new ≡ record (opened a.old txn nth) { txn = a.new.txn } }
{
    let seen = a.snapper.seen();
    a.attempt = Attempting {
        txn,
        nth,
        prefix: prefix_of(a.start, seen.as_slice()),
        ops: 0,
        ops_so_far: 0,
        reads: 0,
        locks: 0,
    };
    a.txn.restart(a.worker, a.last, seen);
    a.log.list_snap(seen);
    a.is_open = true;
}
