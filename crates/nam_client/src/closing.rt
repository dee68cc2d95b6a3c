//! The end of a client: what it lists of the call that was stopped, and its log.

ghost use Rattle.std.specs.Prelude.{◌≡◌, ◌<◌, ◌≤◌, IsSome, length, true, false};
ghost use Rattle.nam_catalog.specs.declared.shape.Shape.{Shape};
ghost use Rattle.nam_protocol.specs.CutClient.{into_log};
ghost use Rattle.si_model.specs.declared.log.Outcome.TheVariants as outcome;
ghost use Rattle.nam_client.specs.Ending.{attempt_listed};
ghost use Rattle.nam_protocol.specs.SessionFits.{is_running};
ghost use Rattle.nam_client.specs.Registers.{client_of, call_of};
ghost use Rattle.nam_client.specs.Room.{Holds, HasRoom};
ghost use Rattle.nam_client.specs.Fits.{HandFits};
ghost use Rattle.nam_client.specs.Closing.{open_listed, cut_move_listed, was_rolled_on};
ghost use Rattle.nam_client.specs.Closing.{cut_txn_listed, ended, finish_listed};

use crate::beginning::list_unbegun;
use crate::collecting::list_collect;
use crate::registers::{Registers, Step};
use crate::transacting::{list_attempt, list_commit};
use si_model::{Event, Finish, Log, MoveEnd, Outcome};

/// Lists the open transaction, which is left between two calls, or stopped.
fn list_open(a: &mut Registers)
    requires { a.old.is_open ≡ true → 0 < a.old.log.room.events }
    ensures { a.new ≡ open_listed a.old }
{
    if a.is_open {
        let outcome = if a.is_cut {
            Outcome::Cut
        } else {
            Outcome::Left
        };
        list_attempt(a, outcome, 0);
    }
}

/// Gives the open transaction up.
pub fn abandon(a: &mut Registers)
    requires holds { Holds a.old }
    requires opened { IsSome (client_of a.old).txn }
    requires rests { is_running (client_of a.old).call ≡ false }
    ensures value { a.new ≡ attempt_listed a.old outcome.Left 0 }
    ensures room { HasRoom a.new }
{
    list_attempt(a, Outcome::Left, 0);
}

/// Lists a tidying that was stopped: a move from the claim of its cell on.
fn list_cut_move(a: &mut Registers, table: u32, key: u64)
    requires { 0 < a.old.log.room.events }
    ensures { a.new ≡ cut_move_listed a.old table key }
{
    match a.mover.claimed() {
        None => a.log.list_event(Event::TidyCut { table, key }),
        Some(stamp) => a.log.list_event(Event::Moved {
            bucket: a.mover.bucket(),
            table,
            key,
            stamp,
            how: MoveEnd::Cut,
        }),
    }
}

fn was_rolled_on(finish: Option<Finish>) -> bool
    ensures { result ≡ was_rolled_on finish }
{
    matches!(finish, Some(Finish::RolledOn))
}

/// Lists the transaction's call that was stopped: a commit that has published is one, and so is one that its medic has
/// rolled on.
fn list_cut_txn(a: &mut Registers)
    requires events { 1 < a.old.log.room.events }
    requires writes { length a.old.txn.state.writes ≤ a.old.log.room.writes }
    ensures { a.new ≡ cut_txn_listed a.old }
{
    let rolled_on = a.txn.is_committing() && was_rolled_on(a.finish);
    if a.txn.has_published() || rolled_on {
        let number = a.txn.number();
        list_commit(a, number);
        if a.finish.is_none() {
            a.log.list_event(Event::TailCut);
        }
    } else {
        list_attempt(a, Outcome::Cut, 0);
    }
}

/// Lists the call that runs, which is stopped; where none runs, the open transaction.
fn list_call(a: &mut Registers)
    requires { Holds a.old }
    ensures log { (shape : Shape) → HandFits shape a.old (call_of a.old.step a.old)
        → a.new.log.log ≡ (ended shape (client_of a.old)).log }
    ensures room { IsSome a.old.finish → 0 < a.new.log.room.events }
    ensures finish { a.new.finish ≡ a.old.finish }
{
    match a.step {
        Step::Beginning { txn, nth } if a.snapper.end().is_none() => {
            list_unbegun(a, txn, nth, Outcome::Cut);
        }
        Step::InTxn if a.txn.is_busy() => list_cut_txn(a),
        Step::Seeking { table, key, .. } => a.log.list_event(Event::TidyCut { table, key }),
        Step::Moving { table, key, .. } if a.mover.end().is_none() => list_cut_move(a, table, key),
        Step::Snapping { bucket } if a.snapper.end().is_none() => {
            a.log.list_event(Event::CollectCut { bucket });
        }
        Step::Collecting { bucket, prefix } if !a.collector.is_over() => {
            list_collect(a, bucket, prefix, true);
        }
        _ => list_open(a),
    }
}

/// Lists how a medic has finished the client, if it has.
fn list_finish(a: &mut Registers)
    requires { IsSome a.old.finish → 0 < a.old.log.room.events }
    ensures { a.new.log.log ≡ finish_listed a.old.finish a.old.log.log }
{
    if let Some(how) = a.finish {
        a.log.list_event(Event::Finished { how });
    }
}

/// The log at the end.
pub fn into_log(registers: Registers) -> Log
    requires { Holds registers }
    ensures { (shape : Shape) → HandFits shape registers (call_of registers.step registers)
        → result ≡ into_log shape (client_of registers) }
{
    let mut a = registers;
    list_call(&mut a);
    list_finish(&mut a);
    let Registers { log, .. } = a;
    log.into_log()
}
