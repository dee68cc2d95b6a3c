//! The script of a bank, made from a number.

ghost use Rattle.std.specs.Prelude.{◌≡◌, ◌≤◌, [], ◌∷◌, IfOk};
ghost use Rattle.nam_script.specs.Limits.{IsScript};
ghost use Rattle.nam_script.specs.Bank.{bank_ops, bank_txn, state_after, bank_txns, rows_from, bank_shape, bank_of};

use crate::script::{Script, ScriptTxn, Turns};
use lists::{List, ShortList};
use nam_catalog::{Form, Shape, Table, TableName};
use si_model::{Op, Policy, Row, Value, next_state, pick};
use std::alloc::{AllocError, Global};

const ACCOUNTS: u64 = 16;

fn bank_ops(alloc: Global, from: u64, to: u64, amount: u64) -> Result<List<Op>, AllocError>
    ensures { IfOk result (λ ops. ops ≡ bank_ops from to amount) }
{
    let mut ops = List::new(alloc);
    ops.push(Op::Need {
        table: 0,
        key: from,
        field: 1,
        least: amount,
    })?;
    ops.push(Op::Add {
        table: 0,
        key: from,
        field: 1,
        up: false,
        by: amount,
    })?;
    ops.push(Op::Add {
        table: 0,
        key: to,
        field: 1,
        up: true,
        by: amount,
    })?;
    Ok(ops)
}

/// A transfer between two accounts, and the generator's state after it.
fn bank_txn(alloc: Global, place: u32, state: u64) -> Result<(ScriptTxn, u64), AllocError>
    ensures { IfOk result (λ x. x ≡ (bank_txn place state, state_after state)) }
{
    let first = next_state(state);
    let second = next_state(first);
    let third = next_state(second);
    let from = pick(first, ACCOUNTS);
    let to = (from + 1 + pick(second, ACCOUNTS - 1)) % ACCOUNTS;
    let ops = bank_ops(alloc, from, to, 1 + pick(third, 100))?;
    let worker = 1 + place % 4;
    Ok((ScriptTxn { worker, ops }, third))
}

#[tactic(auto, using(crate::proofs::BankLemmas::txns_more))]
fn bank_txns(alloc: Global, size: u32, seed: u64) -> Result<List<ScriptTxn>, AllocError>
    ensures { IfOk result (λ txns. txns ≡ bank_txns 0 size seed) }
{
    let mut txns = List::new(alloc);
    let mut state = seed;
    for place in 0..size {
        let (txn, next) = bank_txn(alloc, place, state)?;
        txns.push(txn)?;
        state = next;
    }
    Ok(txns)
}

#[tactic(auto, using(crate::proofs::BankLemmas::rows_more))]
fn bank_rows(alloc: Global) -> Result<List<Row>, AllocError>
    ensures { IfOk result (λ rows. rows ≡ rows_from 0 16) }
{
    let mut rows = List::new(alloc);
    for key in 0..ACCOUNTS {
        let mut value = Value::new();
        value.push(1000);
        rows.push(Row {
            table: 0,
            key,
            value,
        })?;
    }
    Ok(rows)
}

fn bank_shape() -> Shape
    ensures { result ≡ bank_shape }
{
    let mut tables = ShortList::new();
    tables.push(Table {
        name: TableName::from_text("acct"),
        width: 1,
        capacity: 16,
        ring: 4,
    });
    Shape {
        form: Form::Narrow,
        workers: 4,
        tables,
        buckets: 4,
        cells: 64,
        start: 0,
    }
}

/// A bank: 16 accounts of 1,000 each, and `size` transfers between accounts that a generator picks from a seed, for
/// four workers in turn. A transfer declines where its account has too little.
///
/// The generator is linear congruential, modulo 2^64, and a pick takes the upper 31 bits of its state.
pub fn bank(alloc: Global, seed: u64, size: u32) -> Result<Script, AllocError>
    requires { (1 ≤ size) × (size ≤ 2000) }
    // The script of the generator's rule.
    ensures exact { IfOk result (λ script. script ≡ bank_of seed size) }
    // The script keeps to all limits: its text can be read.
    ensures limits { IfOk result IsScript }
{
    let rows = bank_rows(alloc)?;
    let txns = bank_txns(alloc, size, seed)?;
    Ok(Script {
        shape: bank_shape(),
        policy: Policy {
            tries: 16,
            tidy: true,
        },
        rows,
        txns,
        turns: Turns::List(List::new(alloc)),
    })
}
