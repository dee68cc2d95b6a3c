mod mistakes;

use crate::{Kind, ParseEnd, Script, ScriptTxn, Stint, Turns, bank, parse, print};
use lists::{List, ShortList};
use nam_catalog::{Form, Shape, Table, TableName};
use si_model::{Op, Policy, Row, Value};
use std::alloc::{AllocError, Global};
use std::fmt::Write;
use std::test::Fail;

const TRANSFER: &str = "\
namdb 1
header narrow
workers 1
tries 1
tidy off
start 0
overflow 1 1
table acct width 1 capacity 2 ring 1
row acct 0 100
row acct 1 0
txn 1
need acct 0 1 10
add acct 0 1 -10
add acct 1 1 +10
end
";

const DECLINED: &str = "\
namdb 1
header narrow
workers 1
tries 1
tidy off
start 0
overflow 1 1
table t width 1 capacity 1 ring 1
row t 0 5
txn 1
need t 0 1 6
end
txn 1
add t 0 1 +18446744073709551615
end
txn 1
add t 0 1 -6
end
";

const EACH_OPERATION: &str = "\
namdb 1
header held
workers 2
tries 3
tidy on
start 7
overflow 2 4
table acct width 2 capacity 4 ring 1
table log_1 width 1 capacity 8 ring 2
row acct 0 1 2
txn 1
get acct 0
put acct 1 3 4
add acct 0 2 +5
add acct 0 1 -6
del acct 1
need acct 0 1 7
guard log_1 3
scan acct 0 3
end
txn 2
get log_1 0
end
";

const WIDE: &str = "\
namdb 1
header wide
workers 1
tries 1
tidy off
start 35184372088830
overflow 1 1
table t width 1 capacity 1 ring 1
row t 0 1
txn 1
put t 0 2
end
txn 1
put t 0 3
end
txn 1
get t 0
end
";

const SCANNED: &str = "\
namdb 1
header narrow
workers 1
tries 1
tidy off
start 0
overflow 1 1
table t width 1 capacity 4 ring 1
row t 3 30
row t 1 10
row t 7 70
txn 1
put t 2 20
del t 1
scan t 1 3
end
txn 1
scan t 0 18446744073709551614
end
";

const TURNED: &str = "\
namdb 1
header narrow
workers 2
tries 2
tidy off
start 0
overflow 1 1
table acct width 1 capacity 4 ring 2
row acct 0 100
txn 1
add acct 0 1 +5
end
txn 2
add acct 0 1 +7
end
turns 1*4 2*4 1*18
";

const BANK: &str = "\
namdb 1
header narrow
workers 4
tries 16
tidy on
start 0
overflow 4 64
table acct width 1 capacity 16 ring 4
row acct 0 1000
row acct 1 1000
row acct 2 1000
row acct 3 1000
row acct 4 1000
row acct 5 1000
row acct 6 1000
row acct 7 1000
row acct 8 1000
row acct 9 1000
row acct 10 1000
row acct 11 1000
row acct 12 1000
row acct 13 1000
row acct 14 1000
row acct 15 1000
txn 1
need acct 6 1 97
add acct 6 1 -97
add acct 10 1 +97
end
txn 2
need acct 6 1 96
add acct 6 1 -96
add acct 0 1 +96
end
txn 3
need acct 10 1 90
add acct 10 1 -90
add acct 2 1 +90
end
";

#[test]
fn what_is_parsed_prints_as_it_was(rt: HostRuntime) -> Result<(), Fail> {
    for text in [TRANSFER, DECLINED] {
        let script = parse(rt.alloc(), text.as_bytes())?;
        let printed = print(rt.alloc(), &script)?;
        assert!(rt; printed.as_slice() == text.as_bytes(), "{text}");
    }
    Ok(())
}

fn pair(first: u64, second: u64) -> Value {
    let mut value = Value::new();
    value.push(first);
    value.push(second);
    value
}

fn each_operation(alloc: Global) -> Result<List<Op>, AllocError> {
    let mut ops = List::new(alloc);
    ops.push(Op::Get { table: 0, key: 0 })?;
    ops.push(Op::Put {
        table: 0,
        key: 1,
        value: pair(3, 4),
    })?;
    for (field, up, by) in [(2, true, 5), (1, false, 6)] {
        ops.push(Op::Add {
            table: 0,
            key: 0,
            field,
            up,
            by,
        })?;
    }
    ops.push(Op::Del { table: 0, key: 1 })?;
    ops.push(Op::Need {
        table: 0,
        key: 0,
        field: 1,
        least: 7,
    })?;
    ops.push(Op::Guard { table: 1, key: 3 })?;
    ops.push(Op::Scan {
        table: 0,
        low: 0,
        high: 3,
    })?;
    Ok(ops)
}

fn two_txns(alloc: Global) -> Result<List<ScriptTxn>, AllocError> {
    let mut get = List::new(alloc);
    get.push(Op::Get { table: 1, key: 0 })?;
    let mut txns = List::new(alloc);
    txns.push(ScriptTxn {
        worker: 1,
        ops: each_operation(alloc)?,
    })?;
    txns.push(ScriptTxn {
        worker: 2,
        ops: get,
    })?;
    Ok(txns)
}

fn held_shape() -> Shape {
    let mut tables = ShortList::new();
    tables.push(Table {
        name: TableName::from_text("acct"),
        width: 2,
        capacity: 4,
        ring: 1,
    });
    tables.push(Table {
        name: TableName::from_text("log_1"),
        width: 1,
        capacity: 8,
        ring: 2,
    });
    Shape {
        form: Form::Held,
        workers: 2,
        tables,
        buckets: 2,
        cells: 4,
        start: 7,
    }
}

/// The script of `EACH_OPERATION` and then these turns.
fn script_with(alloc: Global, turns: Turns) -> Result<Script, AllocError> {
    let mut rows = List::new(alloc);
    rows.push(Row {
        table: 0,
        key: 0,
        value: pair(1, 2),
    })?;
    Ok(Script {
        shape: held_shape(),
        policy: Policy {
            tries: 3,
            tidy: true,
        },
        rows,
        txns: two_txns(alloc)?,
        turns,
    })
}

#[test]
fn each_operation_and_65_stints_are_printed(rt: HostRuntime) -> Result<(), AllocError> {
    let mut stints = List::new(rt.alloc());
    let mut text = String::from_str(rt.alloc(), EACH_OPERATION)?;
    write!(&mut text, "turns")?;
    for _ in 0..64 {
        stints.push(Stint {
            worker: 1,
            steps: 2,
        })?;
        write!(&mut text, " 1*2")?;
    }
    stints.push(Stint {
        worker: 2,
        steps: 3,
    })?;
    write!(&mut text, "\nturns 2*3\n")?;
    let script = script_with(rt.alloc(), Turns::List(stints))?;
    let printed = print(rt.alloc(), &script)?;
    assert!(rt; printed.as_slice() == text.as_bytes());
    Ok(())
}

#[test]
fn a_seed_is_printed(rt: HostRuntime) -> Result<(), AllocError> {
    let mut text = String::from_str(rt.alloc(), EACH_OPERATION)?;
    write!(&mut text, "seed 9 100\n")?;
    let turns = Turns::Seed {
        seed: 9,
        picks: 100,
    };
    let script = script_with(rt.alloc(), turns)?;
    let printed = print(rt.alloc(), &script)?;
    assert!(rt; printed.as_slice() == text.as_bytes());
    Ok(())
}

/// Is the text refused so?
pub fn refuses(alloc: Global, text: &str, line: u32, kind: Kind) -> bool {
    match parse(alloc, text.as_bytes()) {
        Ok(_) => false,
        Err(end) => end == ParseEnd::Bad { line, kind },
    }
}

#[test]
fn a_text_that_ends_too_early_is_cut(rt: HostRuntime) {
    assert!(rt; refuses(rt.alloc(), "", 1, Kind::Cut));
    assert!(rt; refuses(rt.alloc(), "namdb 1\nheader narrow\n", 3, Kind::Cut));
    let Some(no_newline) = TRANSFER.strip_suffix('\n') else {
        return;
    };
    assert!(rt; refuses(rt.alloc(), no_newline, 15, Kind::Cut));
}

/// The lines before the rows of a large script.
const LARGE: &str = "\
namdb 1
header narrow
workers 1
tries 1
tidy off
start 0
overflow 1 1
table t width 1 capacity 17 ring 1
";

/// A script with so many transactions, each of which writes so many keys, guards them too, and reads so many times.
fn large_script(alloc: Global, txns: u32, adds: u32, gets: u32) -> Result<String, AllocError> {
    let mut text = String::from_str(alloc, LARGE)?;
    for _ in 0..txns {
        write!(&mut text, "txn 1\n")?;
        for key in 0..adds {
            write!(&mut text, "add t {key} 1 +1\n")?;
        }
        for _ in 0..gets {
            write!(&mut text, "get t 0\n")?;
        }
        write!(&mut text, "end\n")?;
    }
    Ok(text)
}

#[test]
fn a_script_has_limits(rt: HostRuntime) -> Result<(), Fail> {
    for (txns, adds, gets) in [(1, 16, 16), (8_192, 4, 4)] {
        let largest = large_script(rt.alloc(), txns, adds, gets)?;
        parse(rt.alloc(), largest.as_bytes())?;
    }
    let beyond = [
        (1, 16, 17, 42),
        (1, 17, 0, 26),
        (8_193, 0, 1, 24_585),
        (2_049, 0, 32, 69_642),
    ];
    for (txns, adds, gets, line) in beyond {
        let text = large_script(rt.alloc(), txns, adds, gets)?;
        assert!(rt;
            refuses(rt.alloc(), text.as_str(), line, Kind::Size),
            "line {line}"
        );
    }
    Ok(())
}

#[test]
fn rows_and_tables_have_limits(rt: HostRuntime) -> Result<(), Fail> {
    let alloc = rt.alloc();
    let mut rows = String::from_str(alloc, LARGE)?;
    for key in 0..18 {
        write!(&mut rows, "row t {key} 0\n")?;
    }
    assert!(rt; refuses(alloc, rows.as_str(), 26, Kind::Size));
    write!(&mut rows, "row t 0 0\n")?;
    let mut tables = String::from_str(alloc, LARGE)?;
    for table in 0..8 {
        write!(&mut tables, "table t{table} width 1 capacity 1 ring 1\n")?;
    }
    assert!(rt; refuses(alloc, tables.as_str(), 16, Kind::Size));
    let mut words = String::from_str(alloc, LARGE)?;
    for table in 0..6 {
        write!(&mut words, "table t{table} width 8 capacity 4096 ring 16\n")?;
    }
    assert!(rt; refuses(alloc, words.as_str(), 14, Kind::Size));
    Ok(())
}

#[test]
fn turns_have_limits(rt: HostRuntime) -> Result<(), Fail> {
    let alloc = rt.alloc();
    let mut turns = String::from_str(alloc, LARGE)?;
    for _ in 0..10 {
        write!(&mut turns, "turns 1*1000000\n")?;
    }
    parse(alloc, turns.as_bytes())?;
    write!(&mut turns, "turns 1*1\n")?;
    assert!(rt; refuses(alloc, turns.as_str(), 19, Kind::Size));
    Ok(())
}

#[test]
fn scans_have_limits(rt: HostRuntime) -> Result<(), Fail> {
    let alloc = rt.alloc();
    let mut scans = String::from_str(alloc, LARGE)?;
    for _ in 0..3_855 {
        write!(&mut scans, "txn 1\nscan t 0 1\nend\n")?;
    }
    write!(&mut scans, "txn 1\nget t 0\n")?;
    let mut over = String::from_str(alloc, scans.as_str())?;
    write!(&mut over, "get t 0\n")?;
    assert!(rt; refuses(alloc, over.as_str(), 11_576, Kind::Size));
    write!(&mut scans, "end\n")?;
    parse(alloc, scans.as_bytes())?;
    Ok(())
}

#[test]
fn a_script_may_be_wide_and_have_turns(rt: HostRuntime) -> Result<(), Fail> {
    for text in [WIDE, SCANNED, TURNED] {
        let script = parse(rt.alloc(), text.as_bytes())?;
        let printed = print(rt.alloc(), &script)?;
        assert!(rt; printed.as_slice() == text.as_bytes(), "{text}");
    }
    Ok(())
}

/// From seed 1 the first account is 6.
#[test]
fn a_bank_is_made_from_a_seed(rt: HostRuntime) -> Result<(), Fail> {
    let script = bank(rt.alloc(), 1, 3)?;
    let printed = print(rt.alloc(), &script)?;
    assert!(rt; printed.as_slice() == BANK.as_bytes());
    parse(rt.alloc(), BANK.as_bytes())?;
    Ok(())
}
