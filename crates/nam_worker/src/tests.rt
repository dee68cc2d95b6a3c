ghost use Rattle.std.specs.Prelude.{◌≡◌, ◌∷◌, [], Some, IfOk};
ghost use Rattle.si_model.specs.declared.op.Op.TheVariants.{Scan, Del};
ghost use Rattle.nam_catalog.specs.Tables.{widths_of, capacities_of};
ghost use Rattle.nam_protocol.specs.Driver.{driver_next};

use crate::{Answer, Call, Driver, Job, Policy, TxnAnswer, TxnCall, are_jobs, is_answer_to, needs};
use lists::{List, ShortList};
use nam_catalog::{Form, Shape, Table, TableName, check};
use nam_layout::Layout;
use si_model::{Lock, Op, Stamp};
use std::alloc::{AllocError, Global};

fn get(key: u64) -> Op {
    Op::Get { table: 0, key }
}

fn del(key: u64) -> Op
    ensures { result ≡ Del 0 key }
{
    Op::Del { table: 0, key }
}

fn job(txn: u32, ops: Vec<Op>) -> Job
    ensures { result.ops ≡ ops.items }
{
    Job {
        txn,
        ops: List::from_vec(ops),
    }
}

fn scan(low: u64, high: u64) -> Op
    ensures { result ≡ Scan 0 low high }
{
    Op::Scan {
        table: 0,
        low,
        high,
    }
}

fn full(key: u64) -> Answer {
    Answer::Txn(TxnAnswer::Full(Lock {
        table: 0,
        key,
        stamp: Stamp::default(),
    }))
}

// The driver takes the answer, where it is one to this call, its next one.
fn takes(driver: &mut Driver, jobs: &[Job], call: &Call, answer: &Answer) -> bool
    requires { driver_next jobs.now driver.old ≡ Some call.now }
{
    if !is_answer_to(call, answer) || !are_jobs(jobs) {
        return false;
    }
    driver.take(jobs, answer);
    true
}

// The driver's next call is this one, and it takes the answer, which is one to that call.
fn goes(driver: &mut Driver, jobs: &[Job], call: &Call, answer: &Answer) -> bool {
    match driver.next(jobs) {
        Some(next) => next == *call && takes(driver, jobs, call, answer),
        None => false,
    }
}

fn follows(driver: &mut Driver, jobs: &[Job], steps: &[(Call, Answer)]) -> bool {
    for (call, answer) in steps {
        if !goes(driver, jobs, call, answer) {
            return false;
        }
    }
    driver.next(jobs).is_none()
}

#[test]
fn a_key_that_was_full_is_tidied_before_the_next_try(rt: HostRuntime) -> Result<(), AllocError> {
    let alloc = rt.alloc();
    let jobs = vec![in alloc; job(7, vec![in alloc; get(1), del(2)]?)]?;
    let mut driver = Driver::new(Policy {
        tries: 2,
        tidy: true,
    });
    let steps = vec![in alloc;
        (Call::Begin { txn: 7, nth: 1 }, Answer::Begun { prefix: 0 }),
        (
            Call::Txn(TxnCall::Get { table: 0, key: 1 }),
            Answer::Txn(TxnAnswer::Value(None))
        ),
        (
            Call::Txn(TxnCall::Del { table: 0, key: 2 }),
            Answer::Txn(TxnAnswer::Written)
        ),
        (Call::Txn(TxnCall::Commit), full(2)),
        (
            Call::Tidy { table: 0, key: 2 },
            Answer::NoRoom { bucket: 3 }
        ),
        (
            Call::Collect { bucket: 3 },
            Answer::Again {
                worker: 2,
                first: 0,
                second: 1
            }
        ),
        (
            Call::Tidy { table: 0, key: 2 },
            Answer::NoRoom { bucket: 3 }
        ),
        (Call::Begin { txn: 7, nth: 2 }, Answer::Begun { prefix: 1 }),
        (
            Call::Txn(TxnCall::Get { table: 0, key: 1 }),
            Answer::Txn(TxnAnswer::Value(None))
        ),
        (
            Call::Txn(TxnCall::Del { table: 0, key: 2 }),
            Answer::Txn(TxnAnswer::Written)
        ),
        (Call::Txn(TxnCall::Commit), full(2)),
    ]?;
    assert!(rt; follows(&mut driver, jobs.as_slice(), steps.as_slice()));
    Ok(())
}

#[test]
fn each_written_key_is_tidied_after_a_commit(rt: HostRuntime) -> Result<(), AllocError> {
    let alloc = rt.alloc();
    let jobs = vec![in alloc;
        job(1, vec![in alloc; del(5), get(1), del(4), del(5)]?),
        job(3, vec![in alloc; scan(2, 9)]?),
    ]?;
    let mut driver = Driver::new(Policy {
        tries: 1,
        tidy: true,
    });
    let written = Answer::Txn(TxnAnswer::Written);
    let steps = vec![in alloc;
        (Call::Begin { txn: 1, nth: 1 }, Answer::Begun { prefix: 0 }),
        (
            Call::Txn(TxnCall::Del { table: 0, key: 5 }),
            Answer::Txn(TxnAnswer::Written)
        ),
        (
            Call::Txn(TxnCall::Get { table: 0, key: 1 }),
            Answer::Txn(TxnAnswer::Value(None))
        ),
        (
            Call::Txn(TxnCall::Del { table: 0, key: 4 }),
            Answer::Txn(TxnAnswer::Written)
        ),
        (Call::Txn(TxnCall::Del { table: 0, key: 5 }), written),
        (
            Call::Txn(TxnCall::Commit),
            Answer::Txn(TxnAnswer::Committed { number: 1 })
        ),
        (Call::Tidy { table: 0, key: 5 }, Answer::Back),
        (Call::Tidy { table: 0, key: 4 }, Answer::Nothing),
        (Call::Begin { txn: 3, nth: 1 }, Answer::Begun { prefix: 1 }),
        (
            Call::Scan {
                table: 0,
                low: 2,
                high: 9
            },
            Answer::Scanned { items: 0 }
        ),
        (Call::Txn(TxnCall::Commit), Answer::Txn(TxnAnswer::ReadOnly)),
    ]?;
    assert!(rt; follows(&mut driver, jobs.as_slice(), steps.as_slice()));
    Ok(())
}

// One table of width 1 with four positions.
fn one_table() -> Shape
    ensures widths { widths_of result.tables ≡ 1 ∷ [] }
    ensures capacities { capacities_of result.tables ≡ 4 ∷ [] }
{
    let mut tables: ShortList<Table, 8> = ShortList::new();
    tables.push(Table {
        name: TableName::from_text("t"),
        width: 1,
        capacity: 4,
        ring: 1,
    });
    Shape {
        form: Form::Narrow,
        workers: 1,
        tables,
        buckets: 1,
        cells: 1,
        start: 0,
    }
}

fn scan_and_deletion(alloc: Global) -> Result<Job, AllocError>
    ensures { IfOk result (λ job. job.ops ≡ Scan 0 2 9 ∷ Del 0 5 ∷ []) }
{
    Ok(job(1, vec![in alloc; scan(2, 9), del(5)]?))
}

#[test]
fn a_scan_needs_as_many_operations_as_its_table_has_positions(
    rt: HostRuntime,
) -> Result<(), AllocError> {
    let alloc = rt.alloc();
    let shape = one_table();
    let jobs = [scan_and_deletion(alloc)?];
    let policy = Policy {
        tries: 3,
        tidy: true,
    };
    if check(&shape).is_ok() {
        let layout = Layout::new(&shape);
        assert!(rt; needs(&layout, policy, jobs.as_slice()) == (3, 15, 12));
    }
    Ok(())
}
