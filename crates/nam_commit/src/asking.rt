//! Where a commit begins.

ghost use Rattle.std.specs.Prelude.{◌≡◌, ◌<◌, ◌≤◌, ◌+◌, ◌++◌, length, map, ℕ, List};
ghost use Rattle.si_model.specs.Rows.{item_key, writes_key};
ghost use Rattle.si_model.specs.Evaluation.{unwritten};
ghost use Rattle.nam_catalog.specs.declared.shape.Shape.{Shape};
ghost use Rattle.nam_protocol.specs.Commit.{record_in, records_of, ask_commit};
ghost use Rattle.nam_protocol.specs.TxnFits.{StateFits};
ghost use Rattle.nam_commit.specs.Commits.{stepped_by};

use crate::step::{ListStep, Step};
use lists::ShortList;
use nam_calls::LockPoint;
use nam_catalog::{Form, greatest};
use nam_layout::{Layout, Place};
use nam_protocol::{Record, TxnState};
use si_model::{Item, Key};

// The key with the position that was claimed for it.
fn record_in(claims: &[Record], key: Key) -> Record
    ensures { result ≡ record_in claims.now key }
{
    for claim in claims {
        if claim.key.table == key.table && claim.key.key == key.key {
            return *claim;
        }
    }
    Record {
        key,
        place: Place::default(),
    }
}

fn writes_key(writes: &[Item], key: Key) -> bool
    ensures { result ≡ writes_key writes.now key }
{
    for item in writes {
        if item.table == key.table && item.key == key.key {
            return true;
        }
    }
    false
}

fn fill_written(records: &mut ShortList<Record, 16>, claims: &[Record], writes: &[Item])
    requires { length records.old + length writes.now ≤ 16 }
    ensures { records.new ≡ records.old ++ map (record_in claims.now) (map item_key writes.now) }
{
    for item in writes {
        records.push(record_in(
            claims,
            Key {
                table: item.table,
                key: item.key,
            },
        ));
    }
}

fn fill_guarded(
    records: &mut ShortList<Record, 16>,
    claims: &[Record],
    writes: &[Item],
    guards: &[Key],
)
    requires { length records.old + length (unwritten writes.now guards.now) ≤ 16 }
    ensures { records.new ≡ records.old ++ map (record_in claims.now) (unwritten writes.now guards.now) }
{
    for guard in guards {
        if !writes_key(writes, *guard) {
            records.push(record_in(claims, *guard));
        }
    }
}

// The records of the commit, the written ones first.
#[inline(never)]
fn fill_records(state: &mut TxnState)
    requires { length (records_of state.old) ≤ 16 }
    ensures { state.new ≡ record state.old { records = records_of state.old } }
{
    let TxnState {
        writes,
        guards,
        claims,
        records,
        ..
    } = state;
    records.clear();
    fill_written(records, claims.as_slice(), writes.as_slice());
    fill_guarded(
        records,
        claims.as_slice(),
        writes.as_slice(),
        guards.as_slice(),
    );
}

/// Where the commit of a transaction begins: at its locks, in form Held at its intent; or how it is over at once.
pub fn begin(layout: &Layout, state: &mut TxnState) -> Step
    requires { StateFits layout.now state.old }
    ensures { (words : List ℕ) → stepped_by state.new result words ≡ ask_commit layout.now state.old }
{
    let form = layout.form();
    state.read = None;
    if state.writes.is_empty() {
        return Step::ReadOnly;
    }
    if state.last == greatest(form) {
        return Step::Spent;
    }
    fill_records(state);
    state.held.clear();
    state.counts.clear();
    match form {
        Form::Narrow | Form::Wide => Step::Locking {
            at: LockPoint::Peek,
        },
        Form::Held => Step::Listing {
            at: ListStep::Row { nth: 0 },
        },
    }
}
