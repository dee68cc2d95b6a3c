ghost use Rattle.std.specs.Prelude.{◌≡◌, All, IsTrue, None, IfSome};
ghost use Rattle.nam_catalog.specs.Limits.{fault_of};
ghost use Rattle.nam_core.specs.Opening.{FitsRow};

use crate::{MakeError, audit, opening};
use lists::ShortList;
use nam_catalog::{Form, Shape, Table, TableName, check};
use nam_layout::Layout;
use si_model::{AuditRow, Row, Value};
use std::alloc::{AllocError, Global};

// The words with the rows below, where the key words stand at 4, 11, 18, 25 and 34: vector and horizon, three positions
// of one word, two of two words, and a cell.
const OPENED: [u64; 55] = [
    7, 7, 7, 7, 2, 0, 0, 10, 5, 0, 0, 5, 0, 0, 40, 5, 0, 0, 8, 0, 0, 70, 5, 0, 0, 6, 0, 0, 50, 51,
    5, 0, 0, 0, 4, 0, 0, 30, 31, 5, 0, 0, 0, 0, 0, 0, 0, 0, 0, 0, 0, 0, 0, 0, 0,
];

// Two workers, three positions of one word and two of two words.
fn shape() -> Option<Shape>
    ensures { IfSome result (λ shape. fault_of shape ≡ None) }
{
    let mut tables: ShortList<Table, 8> = ShortList::new();
    tables.push(Table {
        name: TableName::from_text("t"),
        width: 1,
        capacity: 3,
        ring: 1,
    });
    tables.push(Table {
        name: TableName::from_text("u"),
        width: 2,
        capacity: 2,
        ring: 1,
    });
    let shape = Shape {
        form: Form::Narrow,
        workers: 2,
        tables,
        buckets: 1,
        cells: 1,
        start: 7,
    };
    if check(&shape).is_err() {
        return None;
    }
    Some(shape)
}

// One worker, and 4,096 positions of one word.
fn wide_shape() -> Option<Shape>
    ensures { IfSome result (λ shape. fault_of shape ≡ None) }
{
    let mut tables: ShortList<Table, 8> = ShortList::new();
    tables.push(Table {
        name: TableName::from_text("t"),
        width: 1,
        capacity: 4096,
        ring: 1,
    });
    let shape = Shape {
        form: Form::Narrow,
        workers: 1,
        tables,
        buckets: 1,
        cells: 1,
        start: 0,
    };
    if check(&shape).is_err() {
        return None;
    }
    Some(shape)
}

fn row(table: u32, key: u64, word: u32) -> Row {
    let mut value = Value::new();
    value.push(word as u64);
    if table == 1 {
        value.push(word as u64 + 1);
    }
    Row { table, key, value }
}

// The paths of 4, 7 and 1 begin at the second position, and those of 3 and 5 at the last.
fn rows(alloc: Global) -> Result<Vec<Row>, AllocError> {
    let mut rows = Vec::new(alloc);
    rows.push(row(0, 4, 40))?;
    rows.push(row(1, 3, 30))?;
    rows.push(row(0, 7, 70))?;
    rows.push(row(0, 1, 10))?;
    rows.push(row(1, 5, 50))?;
    Ok(rows)
}

fn fits(shape: &Shape, row: &Row) -> bool
    ensures { IsTrue result → FitsRow shape.now row.now }
{
    match shape.tables.as_slice().get(row.table as usize) {
        Some(table) => row.value.len() == table.width as usize && row.key < u64::MAX,
        None => false,
    }
}

fn all_fit(shape: &Shape, rows: &[Row]) -> bool
    ensures { IsTrue result → All (FitsRow shape.now) rows.now }
{
    for row in rows {
        if !fits(shape, row) {
            return false;
        }
    }
    true
}

fn is_row(row: &AuditRow, table: u32, key: u64, words: &[u64], locked: bool) -> bool {
    let same = match &row.value {
        Some(value) => value.as_slice() == words,
        None => words.is_empty(),
    };
    same && row.table == table && row.key == key && row.locked == locked
}

#[test]
fn colliding_keys_stand_on_their_paths(rt: HostRuntime) -> Result<(), AllocError> {
    let shape = shape().expect(&rt, "a shape");
    let layout = Layout::new(&shape);
    let mut rows = rows(rt.alloc())?;
    assert!(rt; all_fit(&shape, rows.as_slice()));
    let words = opening(rt.alloc(), &shape, &layout, rows.as_slice());
    assert!(rt; words.expect(&rt, "words").as_slice() == OPENED.as_slice());
    rows.push(row(1, 9, 90))?;
    assert!(rt; all_fit(&shape, rows.as_slice()));
    let refused = opening(rt.alloc(), &shape, &layout, rows.as_slice());
    assert!(rt; refused.err() == Some(MakeError::NoSpace { table: 1 }));
    Ok(())
}

// Key 1 is locked and absent; the version of key 4 is not seen, and its ring has the one before.
#[test]
fn the_audit_sees_locks_and_old_versions(rt: HostRuntime) -> Result<(), AllocError> {
    let shape = shape().expect(&rt, "a shape");
    let layout = Layout::new(&shape);
    let mut words = OPENED;
    let second = 68_719_476_808;
    words[5] = 3;
    words[12] = second;
    words[14] = 41;
    words[15] = 0;
    words[16] = second;
    words[17] = 40;
    assert!(rt; words.len() as u64 == layout.total());
    let audit = audit(rt.alloc(), &shape, &layout, words.as_slice())?;
    let rows = audit.as_slice();
    assert_eq!(rt; rows.len(), 5);
    assert!(rt; is_row(&rows[0], 0, 1, [].as_slice(), true));
    assert!(rt; is_row(&rows[1], 0, 4, [40].as_slice(), false));
    assert!(rt; is_row(&rows[2], 0, 7, [70].as_slice(), false));
    assert!(rt; is_row(&rows[3], 1, 3, [30, 31].as_slice(), false));
    assert!(rt; is_row(&rows[4], 1, 5, [50, 51].as_slice(), false));
    Ok(())
}

#[test]
fn a_table_of_many_rows_is_opened_and_audited(rt: HostRuntime) -> Result<(), AllocError> {
    let shape = wide_shape().expect(&rt, "a shape");
    let layout = Layout::new(&shape);
    let mut rows = Vec::new(rt.alloc());
    for key in 0..4096 {
        rows.push(row(0, key, 1))?;
    }
    assert!(rt; all_fit(&shape, rows.as_slice()));
    let words = opening(rt.alloc(), &shape, &layout, rows.as_slice());
    let words = words.expect(&rt, "words");
    assert!(rt; words.len() as u64 == layout.total());
    let audit = audit(rt.alloc(), &shape, &layout, words.as_slice())?;
    assert_eq!(rt; audit.len(), 4096);
    Ok(())
}
