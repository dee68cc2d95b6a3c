//! What an operation makes of what its transaction has read: whether it passes, its write or guard, and its answer.

ghost use Rattle.std.specs.Prelude.{◌≡◌, ◌≤◌, length, replicate, true};
ghost use Rattle.si_model.specs.Evaluation.{passes, field_of, with_field, can_change, new_number};
ghost use Rattle.si_model.specs.Rows.{item_at};
ghost use Rattle.si_model.specs.Evaluation.{with_write, guards_after};
ghost use Rattle.nam_calls.specs.Fits.{HasWidth};
ghost use Rattle.nam_protocol.specs.Operations.{holding, value_in, answer_of};
ghost use Rattle.nam_txn.specs.Read.{HasField, CanRead, NamesField, written_by, changed_by};

use crate::keys::{note_guard, note_write};
use nam_protocol::{TxnAnswer, TxnState};
use si_model::{Item, Key, Op, Value, copy_value};

// The number in a field of what was read, which is 0 where there is no value.
fn field_in(read: &Option<Item>, field: u32) -> u64
    requires counted { 1 ≤ field }
    requires within { HasField field (value_in read.now) }
    ensures { result ≡ field_of (value_in read.now) field }
{
    match read {
        Some(item) => match &item.value {
            Some(value) => *value.at(field as usize - 1),
            None => 0,
        },
        None => 0,
    }
}

fn can_change(number: u64, up: bool, by: u64) -> bool
    ensures { result ≡ can_change up number by }
{
    if up {
        number <= u64::MAX - by
    } else {
        by <= number
    }
}

fn new_number(number: u64, up: bool, by: u64) -> u64
    requires { can_change up number by ≡ true }
    ensures { result ≡ new_number up number by }
{
    if up { number + by } else { number - by }
}

/// May the operation pass on what was read?
pub(crate) fn passes(op: &Op, read: &Option<Item>) -> bool
    requires { CanRead op.now (value_in read.now) }
    ensures { result ≡ passes op.now (holding (value_in read.now)) }
{
    match op {
        Op::Add { field, up, by, .. } => can_change(field_in(read, *field), *up, *by),
        Op::Need { field, least, .. } => *least <= field_in(read, *field),
        _ => true,
    }
}

fn zeros(width: u32) -> Value
    requires { width ≤ 8 }
    ensures { result ≡ replicate width 0 }
{
    let mut value = Value::new();
    for _ in 0..width {
        value.push(0);
    }
    value
}

// The value that was read with another number in a field. Where there is none, it starts as zeros.
fn with_field(width: u32, read: &Option<Item>, field: u32, number: u64) -> Value
    requires narrow { width ≤ 8 }
    requires counted { (1 ≤ field) × (field ≤ width) }
    requires wide { HasWidth width (value_in read.now) }
    ensures { result ≡ with_field width (value_in read.now) field number }
{
    let mut words = match read {
        Some(item) => match &item.value {
            Some(value) => value.copy(),
            None => zeros(width),
        },
        None => zeros(width),
    };
    words.set(field as usize - 1, number);
    words
}

/// The operation's write or guard, on what was read.
#[inline(never)]
pub(crate) fn change(state: &mut TxnState, op: &Op, width: u32)
    requires named { NamesField width op.now }
    requires wide { HasWidth width (value_in state.old.read) }
    requires passes { passes op.now (holding (value_in state.old.read)) ≡ true }
    requires writes { length (written_by width op.now (value_in state.old.read) state.old.writes) ≤ 16 }
    requires guards { length (guards_after op.now state.old.guards) ≤ 16 }
    ensures { state.new ≡ changed_by width op.now (value_in state.old.read) state.old }
{
    let key = op.key();
    match op {
        Op::Put { value, .. } => write(state, key, Some(value.copy())),
        Op::Add { field, up, by, .. } => {
            let number = new_number(field_in(&state.read, *field), *up, *by);
            let value = with_field(width, &state.read, *field, number);
            write(state, key, Some(value));
        }
        Op::Del { .. } => write(state, key, None),
        Op::Guard { .. } => note_guard(&mut state.guards, key),
        Op::Get { .. } | Op::Need { .. } | Op::Scan { .. } => {}
    }
}

fn write(state: &mut TxnState, key: Key, value: Option<Value>)
    requires { length (with_write state.old.writes (item_at key value)) ≤ 16 }
    ensures { state.new ≡ record state.old { writes = with_write state.old.writes (item_at key value) } }
{
    let item = Item {
        table: key.table,
        key: key.key,
        value,
    };
    note_write(&mut state.writes, item);
}

/// The answer of an operation that passes.
#[inline(never)]
pub(crate) fn answer_of(op: &Op, read: &Option<Item>) -> TxnAnswer
    requires reads { CanRead op.now (value_in read.now) }
    requires passes { passes op.now (holding (value_in read.now)) ≡ true }
    ensures { result ≡ answer_of op.now (value_in read.now) }
{
    match op {
        Op::Get { .. } | Op::Guard { .. } => TxnAnswer::Value(match read {
            Some(item) => copy_value(&item.value),
            None => None,
        }),
        Op::Put { .. } | Op::Del { .. } | Op::Scan { .. } => TxnAnswer::Written,
        Op::Add { field, up, by, .. } => {
            TxnAnswer::Added(new_number(field_in(read, *field), *up, *by))
        }
        Op::Need { .. } => TxnAnswer::Met,
    }
}
