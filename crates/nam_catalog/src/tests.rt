ghost use Rattle.std.specs.Prelude.{◌≤◌, length};

use crate::form::{Form, greatest};
use crate::{Shape, ShapeFault, Table, TableName, check, table_named};
use lists::ShortList;

fn table(name: &str, width: u32, capacity: u32, ring: u32) -> Table
    requires { length name.now ≤ 16 }
{
    Table {
        name: TableName::from_text(name),
        width,
        capacity,
        ring,
    }
}

// One worker and one bucket of one cell.
fn shape(form: Form, tables: ShortList<Table, 8>) -> Shape {
    Shape {
        form,
        workers: 1,
        tables,
        buckets: 1,
        cells: 1,
        start: 0,
    }
}

fn with_table(form: Form, width: u32, capacity: u32, ring: u32) -> Shape {
    let mut tables: ShortList<Table, 8> = ShortList::new();
    tables.push(table("acct", width, capacity, ring));
    shape(form, tables)
}

fn with_tables(first: Table, second: Table) -> Shape {
    let mut tables: ShortList<Table, 8> = ShortList::new();
    tables.push(first);
    tables.push(second);
    shape(Form::Narrow, tables)
}

#[test]
fn a_name_keeps_its_text(rt: HostRuntime) {
    let name = TableName::from_text("acct");
    assert!(rt; name.copy().as_str() == "acct");
    assert_eq!(rt; name.len(), 4);
    assert_eq!(rt; TableName::default().len(), 0);
}

#[test]
fn each_form_has_its_greatest_number(rt: HostRuntime) {
    assert_eq!(rt; greatest(Form::Narrow), 4_294_967_295);
    assert_eq!(rt; greatest(Form::Held), 4_294_967_295);
    assert_eq!(rt; greatest(Form::Wide), 35_184_372_088_831);
}

#[test]
fn words_are_counted(rt: HostRuntime) {
    assert_eq!(rt; check(&with_table(Form::Narrow, 1, 2, 1)), Ok(28));
    assert_eq!(rt; check(&with_table(Form::Wide, 1, 2, 1)), Ok(28));
    let mut held = with_table(Form::Held, 1, 2, 1);
    assert_eq!(rt; check(&held), Ok(206));
    held.workers = 2;
    assert_eq!(rt; check(&held), Ok(386));
    assert_eq!(rt; check(&with_table(Form::Narrow, 8, 4096, 16)), Ok(700_430));
}

#[test]
fn each_number_has_its_fault(rt: HostRuntime) {
    let mut small = with_table(Form::Narrow, 1, 2, 1);
    small.workers = 0;
    assert_eq!(rt; check(&small), Err(ShapeFault::NoWorkers));
    small.workers = 17;
    assert_eq!(rt; check(&small), Err(ShapeFault::TooManyWorkers));
    small.workers = 16;
    small.buckets = 257;
    assert_eq!(rt; check(&small), Err(ShapeFault::BadBuckets));
    small.buckets = 256;
    small.cells = 65;
    assert_eq!(rt; check(&small), Err(ShapeFault::BadCells));
    small.cells = 64;
    small.start = 4_294_967_296;
    assert_eq!(rt; check(&small), Err(ShapeFault::BadStart));
    small.start = 4_294_967_295;
    assert_eq!(rt; check(&small), Ok(196_654));
    small.tables = ShortList::new();
    assert_eq!(rt; check(&small), Err(ShapeFault::NoTables));
}

#[test]
fn each_table_has_its_faults(rt: HostRuntime) {
    let width = with_tables(table("acct", 8, 1, 17), table("cust", 9, 0, 0));
    assert_eq!(rt; check(&width), Err(ShapeFault::BadWidth { table: 1 }));
    let capacity = with_tables(table("acct", 8, 1, 17), table("cust", 1, 4097, 0));
    assert_eq!(rt; check(&capacity), Err(ShapeFault::BadCapacity { table: 1 }));
    let ring = with_tables(table("acct", 8, 1, 17), table("acct", 1, 4096, 0));
    assert_eq!(rt; check(&ring), Err(ShapeFault::BadRing { table: 0 }));
    let name = with_tables(table("acct", 8, 1, 16), table("acct", 1, 4096, 1));
    assert_eq!(rt; check(&name), Err(ShapeFault::TwiceNamed { table: 1 }));
    assert_eq!(rt; table_named(&name, "acct"), Some(0));
    let sound = with_tables(table("cust", 8, 1, 16), table("acct", 1, 4096, 1));
    assert_eq!(rt; check(&sound), Ok(28_857));
    assert_eq!(rt; table_named(&sound, "acct"), Some(1));
    assert_eq!(rt; table_named(&sound, "acc"), None);
}

#[test]
fn a_store_has_at_most_so_many_words(rt: HostRuntime) {
    let mut tables: ShortList<Table, 8> = ShortList::new();
    tables.push(table("a", 8, 4096, 16));
    tables.push(table("b", 8, 4096, 16));
    tables.push(table("c", 8, 4096, 16));
    tables.push(table("d", 8, 4096, 16));
    tables.push(table("e", 8, 4096, 16));
    tables.push(table("f", 8, 4048, 16));
    let mut large = shape(Form::Narrow, tables);
    large.workers = 2;
    assert_eq!(rt; check(&large), Ok(4_194_304));
    large.workers = 3;
    assert_eq!(rt; check(&large), Err(ShapeFault::TooManyWords));
}
