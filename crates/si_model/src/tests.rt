ghost use Rattle.std.specs.Prelude.{◌≡◌, ◌<◌, ◌≤◌, length, slice_index, All, IsTrue};
ghost use Rattle.si_model.specs.Evaluation.{OpFits};

mod legal;

use crate::{CommitLine, CommittedRows, Evaluated, Item, Key, Op, Row, Value, eval, state};
use lists::List;
use std::alloc::{AllocError, Global};

fn value(words: &[u64]) -> Value {
    let mut value = Value::new();
    for word in words {
        if value.len() < 8 {
            value.push(*word);
        }
    }
    value
}

fn row(table: u32, key: u64, words: &[u64]) -> Row {
    let value = value(words);
    Row { table, key, value }
}

fn is_table(widths: &[u32], table: u32) -> bool
    ensures { IsTrue result → (table < length widths.now) × (slice_index widths.now table ≤ 8) }
{
    match widths.get(table as usize) {
        Some(width) => *width <= 8,
        None => false,
    }
}

fn fits(widths: &[u32], op: &Op) -> bool
    ensures { IsTrue result → OpFits widths.now op.now }
{
    match op {
        Op::Get { table, .. } | Op::Del { table, .. } => is_table(widths, *table),
        Op::Guard { table, .. } | Op::Scan { table, .. } => is_table(widths, *table),
        Op::Put { table, value, .. } => {
            is_table(widths, *table) && value.len() == widths[*table as usize] as usize
        }
        Op::Add { table, field, .. } | Op::Need { table, field, .. } => {
            is_table(widths, *table) && 1 <= *field && *field <= widths[*table as usize]
        }
    }
}

fn all_fit(widths: &[u32], ops: &[Op]) -> bool
    ensures { IsTrue result → All (OpFits widths.now) ops.now }
{
    ops.iter().all(|op| fits(widths, op))
}

fn is_wide(widths: &[u32], row: &Row) -> bool
    ensures { IsTrue result → length row.now.value ≡ slice_index widths.now row.now.table }
{
    match widths.get(row.table as usize) {
        Some(width) => row.value.len() == *width as usize,
        None => false,
    }
}

fn all_wide(widths: &[u32], rows: &[Row]) -> bool
    ensures { IsTrue result → All (λ r. length r.value ≡ slice_index widths.now r.table) rows.now }
{
    rows.iter().all(|row| is_wide(widths, row))
}

fn add_items(text: &mut String, items: &[Item]) -> Result<(), AllocError> {
    for item in items {
        write!(text, " {} {}", item.table, item.key)?;
        match &item.value {
            Some(value) => add_words(text, value.as_slice())?,
            None => text.push_str(" -,")?,
        }
    }
    Ok(())
}

fn add_words(text: &mut String, words: &[u64]) -> Result<(), AllocError> {
    for word in words {
        write!(text, " {word}")?;
    }
    text.push_str(",")
}

fn text_of_rows(alloc: Global, rows: &[Row]) -> Result<String, AllocError> {
    let mut text = String::new(alloc);
    for row in rows {
        write!(text, " {} {}", row.table, row.key)?;
        add_words(&mut text, row.value.as_slice())?;
    }
    Ok(text)
}

fn text_of(alloc: Global, evaluated: &Evaluated) -> Result<String, AllocError> {
    let mut text = String::new(alloc);
    match evaluated {
        Evaluated::Done {
            reads,
            writes,
            guards,
        } => {
            text.push_str("reads")?;
            add_items(&mut text, reads.as_slice())?;
            text.push_str(" writes")?;
            add_items(&mut text, writes.as_slice())?;
            text.push_str(" guards")?;
            for guard in guards.as_slice() {
                write!(text, " {} {},", guard.table, guard.key)?;
            }
        }
        Evaluated::Declined { op, reads } => {
            write!(text, "declined {op} reads")?;
            add_items(&mut text, reads.as_slice())?;
        }
    }
    Ok(text)
}

/// The evaluation as a text, of operations and rows that fit the widths.
fn evaluated(
    alloc: Global,
    widths: &[u32],
    ops: &[Op],
    rows: &[Row],
) -> Result<String, AllocError> {
    if ops.len() < 100 && all_fit(widths, ops) && all_wide(widths, rows) {
        let evaluated = eval(alloc, widths, ops, rows)?;
        return text_of(alloc, &evaluated);
    }
    String::from_str(alloc, "unfit")
}

fn add(key: u64, up: bool, by: u64) -> Op {
    Op::Add {
        table: 0,
        key,
        field: 1,
        up,
        by,
    }
}

fn put(key: u64, word: u64) -> Op {
    Op::Put {
        table: 0,
        key,
        value: value(&[word]),
    }
}

fn scan(low: u64, high: u64) -> Op {
    Op::Scan {
        table: 0,
        low,
        high,
    }
}

fn all_operations() -> [Op; 10] {
    [
        Op::Get { table: 0, key: 0 },
        put(1, 7),
        add(0, true, 7),
        Op::Add {
            table: 1,
            key: 5,
            field: 2,
            up: true,
            by: 9,
        },
        Op::Del { table: 0, key: 3 },
        Op::Need {
            table: 0,
            key: 0,
            field: 1,
            least: 112,
        },
        Op::Guard { table: 1, key: 0 },
        Op::Guard { table: 0, key: 1 },
        scan(0, 5),
        put(1, 8),
    ]
}

/// A scan lists the own writes, and a guard of a written key is none.
#[test]
fn all_operations_are_done(rt: HostRuntime) -> Result<(), AllocError> {
    let rows = [row(0, 3, &[30]), row(0, 0, &[105]), row(1, 0, &[1, 2])];
    let text = evaluated(rt.alloc(), &[1, 2], &all_operations(), &rows)?;
    assert_eq!(rt;
        text.as_str(),
        "reads 0 0 105, 0 0 105, 1 5 -, 0 0 112, 1 0 1 2, 0 1 7, 0 0 112, 0 1 7, \
         writes 0 1 8, 0 0 112, 1 5 0 9, 0 3 -, guards 1 0,"
    );
    Ok(())
}

/// What is too little, and what would be more than a word or less than none.
#[test]
fn operations_decline(rt: HostRuntime) -> Result<(), AllocError> {
    let rows = [row(0, 0, &[5])];
    let need = Op::Need {
        table: 0,
        key: 0,
        field: 1,
        least: 6,
    };
    let text = evaluated(
        rt.alloc(),
        &[1],
        &[Op::Get { table: 0, key: 1 }, need],
        &rows,
    )?;
    assert_eq!(rt; text.as_str(), "declined 2 reads 0 1 -, 0 0 5,");
    let text = evaluated(
        rt.alloc(),
        &[1],
        &[add(0, true, 18446744073709551615)],
        &rows,
    )?;
    assert_eq!(rt; text.as_str(), "declined 1 reads 0 0 5,");
    let text = evaluated(rt.alloc(), &[1], &[add(1, false, 1)], &rows)?;
    assert_eq!(rt; text.as_str(), "declined 1 reads 0 1 -,");
    Ok(())
}

/// Sixteen scans of 4,096 rows. After each, one of the first rows goes and one comes last.
#[test]
fn many_rows_are_scanned_often(rt: HostRuntime) -> Result<(), AllocError> {
    let alloc = rt.alloc();
    let mut rows = Vec::new(alloc);
    for key in 0..4096 {
        rows.push(row(0, key, &[key]))?;
    }
    let mut ops = Vec::new(alloc);
    for key in 0..16 {
        ops.push(scan(0, 5000))?;
        ops.push(Op::Del { table: 0, key })?;
        ops.push(put(4096 + key, key))?;
    }
    let text = evaluated(alloc, &[1], &ops, &rows)?;
    assert_eq!(rt; text.len(), 817096);
    assert!(rt;
        text.as_str().ends_with(
            " 0 4109 13, 0 4110 14, writes 0 0 -, 0 4096 0, 0 1 -, 0 4097 1, 0 2 -, 0 4098 \
         2, 0 3 -, 0 4099 3, 0 4 -, 0 4100 4, 0 5 -, 0 4101 5, 0 6 -, 0 4102 6, 0 7 -, 0 \
         4103 7, 0 8 -, 0 4104 8, 0 9 -, 0 4105 9, 0 10 -, 0 4106 10, 0 11 -, 0 4107 11, \
         0 12 -, 0 4108 12, 0 13 -, 0 4109 13, 0 14 -, 0 4110 14, 0 15 -, 0 4111 15, \
         guards"
        )
    );
    Ok(())
}

fn item(key: u64, value: Option<Value>) -> Item {
    Item {
        table: 0,
        key,
        value,
    }
}

fn entry(writes: Vec<Item>) -> CommitLine {
    CommitLine {
        worker: 1,
        number: 1,
        prefix: 0,
        txn: 1,
        writes: List::from_vec(writes),
    }
}

fn state_text(
    alloc: Global,
    rows: &[Row],
    history: &[CommitLine],
    p: usize,
) -> Result<String, AllocError>
    requires { p ≤ length history.now }
{
    let rows = state(alloc, rows, history, p)?;
    text_of_rows(alloc, &rows)
}

/// An account of 100 gets 5, and then 7.
#[test]
fn a_change_is_evaluated_on_the_state(rt: HostRuntime) -> Result<(), AllocError> {
    let alloc = rt.alloc();
    let rows = [row(0, 0, &[100])];
    let history = [entry(vec![in alloc; item(0, Some(value(&[105])))]?)];
    let before = state_text(alloc, &rows, &history, 0)?;
    assert_eq!(rt; before.as_str(), " 0 0 100,");
    let after = state(alloc, &rows, &history, 1)?;
    let text = evaluated(alloc, &[1], &[add(0, true, 7)], &after)?;
    assert_eq!(rt; text.as_str(), "reads 0 0 105, writes 0 0 112, guards");
    Ok(())
}

/// A scan lists what was written before it, and what the state has.
#[test]
fn a_scan_is_evaluated_on_the_state(rt: HostRuntime) -> Result<(), AllocError> {
    let alloc = rt.alloc();
    let rows = [row(0, 3, &[30]), row(0, 1, &[10]), row(0, 7, &[70])];
    let ops = [
        scan(1, 3),
        put(2, 20),
        Op::Del { table: 0, key: 1 },
        scan(1, 3),
    ];
    let text = evaluated(alloc, &[1], &ops, &rows)?;
    assert_eq!(rt;
        text.as_str(),
        "reads 0 1 10, 0 3 30, 0 2 20, 0 3 30, writes 0 2 20, 0 1 -, guards"
    );
    let history = [entry(vec![in alloc; item(2, Some(value(&[20]))), item(1, None)]?)];
    let after = state(alloc, &rows, &history, 1)?;
    let text = text_of_rows(alloc, &after)?;
    assert_eq!(rt; text.as_str(), " 0 2 20, 0 3 30, 0 7 70,");
    let text = evaluated(alloc, &[1], &[scan(0, 18446744073709551614)], &after)?;
    assert_eq!(rt;
        text.as_str(),
        "reads 0 2 20, 0 3 30, 0 7 70, writes guards"
    );
    Ok(())
}

/// A write set over the loaded rows gives a key another value, and makes one absent.
#[test]
fn committed_rows_are_written_over(rt: HostRuntime) -> Result<(), AllocError> {
    let alloc = rt.alloc();
    let rows = [row(0, 3, &[30]), row(0, 1, &[10])];
    let mut committed = CommittedRows::load(alloc, &rows)?;
    committed.write(&[item(3, Some(value(&[31]))), item(1, None)])?;
    assert!(rt; committed.value(Key { table: 0, key: 1 }).is_none());
    let rows = committed.into_rows(alloc)?;
    let text = text_of_rows(alloc, &rows)?;
    assert_eq!(rt; text.as_str(), " 0 3 31,");
    Ok(())
}

/// No size is refused that there is memory for.
#[test]
fn a_state_may_be_large(rt: HostRuntime) -> Result<(), AllocError> {
    let alloc = rt.alloc();
    let mut rows = Vec::new(alloc);
    let mut history = Vec::new(alloc);
    for key in 0..8_192 {
        rows.push(row(0, key, &[1]))?;
        history.push(entry(vec![in alloc; item(key, Some(value(&[2])))]?))?;
    }
    let after = state(alloc, rows.as_slice(), history.as_slice(), history.len())?;
    assert_eq!(rt; after.len(), 8_192);
    let text = evaluated(alloc, &[1], &[scan(0, 8_191), add(8_191, true, 5)], &after)?;
    assert!(rt; text.ends_with(" 0 8191 2, 0 8191 2, writes 0 8191 7, guards"));
    Ok(())
}
