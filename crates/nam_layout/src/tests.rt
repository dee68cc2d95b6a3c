ghost use Rattle.std.specs.Prelude.{◌≡◌, ◌+◌, ◌<◌, ◌≤◌, length, IfSome};
ghost use Rattle.nam_layout.specs.PlaceFits.{FitsPlace, FitsCells};

use crate::{Cells, Field, Layout, Place};
use lists::ShortList;
use nam_catalog::{Form, Shape, Table, TableName, check};

fn table(name: &str, width: u32, capacity: u32, ring: u32) -> Table
    requires { length name.now ≤ 16 }
{
    Table {
        name: TableName::from_text(name),
        width,
        capacity,
        ring,
    }
}

fn shape(form: Form, workers: u32, tables: ShortList<Table, 8>, buckets: u32, cells: u32) -> Shape
    ensures { result ≡ record {
      form = form;
      workers = workers;
      tables = tables;
      buckets = buckets;
      cells = cells;
      start = 0;
    } }
{
    Shape {
        form,
        workers,
        tables,
        buckets,
        cells,
        start: 0,
    }
}

// The layout of a shape, where the shape has no fault.
fn laid(shape: &Shape) -> Option<Layout>
    ensures { IfSome result (λ layout. layout ≡ shape.now) }
{
    match check(shape) {
        Ok(_) => Some(Layout::new(shape)),
        Err(_) => None,
    }
}

fn place_of_row(layout: &Layout, shape: &Shape, row: u32) -> Option<Place>
    requires { layout.now ≡ shape.now }
    ensures { IfSome result FitsPlace }
{
    let mut position = row;
    for table in 0..shape.tables.len() {
        let capacity = layout.capacity(table as u32);
        if position < capacity {
            return Some(layout.place(table as u32, position));
        }
        position -= capacity;
    }
    None
}

fn cells_of(layout: &Layout, shape: &Shape, bucket: u32) -> Option<Cells>
    requires { layout.now ≡ shape.now }
    ensures { IfSome result FitsCells }
{
    if bucket < shape.buckets {
        Some(layout.cells(bucket))
    } else {
        None
    }
}

fn address_of_place(layout: &Layout, shape: &Shape, field: &Field) -> Option<u64>
    requires { layout.now ≡ shape.now }
{
    match *field {
        Field::Key { row } => Some(place_of_row(layout, shape, row)?.key_at),
        Field::Header { row } => Some(place_of_row(layout, shape, row)?.header_at),
        Field::Count { row } => Some(place_of_row(layout, shape, row)?.count_at),
        Field::Word { row, nth } => {
            let place = place_of_row(layout, shape, row)?;
            (nth < place.width).then(|| place.word(nth))
        }
        Field::SlotHeader { row, slot } => {
            let place = place_of_row(layout, shape, row)?;
            (slot < place.ring).then(|| place.slot_header(slot))
        }
        Field::SlotEnd { row, slot } => {
            let place = place_of_row(layout, shape, row)?;
            (slot < place.ring).then(|| place.slot_end(slot))
        }
        Field::SlotWord { row, slot, nth } => {
            let place = place_of_row(layout, shape, row)?;
            (slot < place.ring && nth < place.width).then(|| place.slot_word(slot, nth))
        }
        _ => None,
    }
}

fn address_of_cell(layout: &Layout, shape: &Shape, field: &Field) -> Option<u64>
    requires { layout.now ≡ shape.now }
{
    match *field {
        Field::Tag { bucket, cell } => {
            let cells = cells_of(layout, shape, bucket)?;
            (cell < cells.cells).then(|| cells.tag(cell))
        }
        Field::Owner { bucket, cell } => {
            let cells = cells_of(layout, shape, bucket)?;
            (cell < cells.cells).then(|| cells.owner(cell))
        }
        Field::Begin { bucket, cell } => {
            let cells = cells_of(layout, shape, bucket)?;
            (cell < cells.cells).then(|| cells.begin(cell))
        }
        Field::End { bucket, cell } => {
            let cells = cells_of(layout, shape, bucket)?;
            (cell < cells.cells).then(|| cells.end(cell))
        }
        Field::CellWord { bucket, cell, nth } => {
            let cells = cells_of(layout, shape, bucket)?;
            (cell < cells.cells && nth < 8).then(|| cells.word(cell, nth))
        }
        _ => None,
    }
}

fn address_of(layout: &Layout, shape: &Shape, field: &Field) -> Option<u64>
    requires { layout.now ≡ shape.now }
{
    match *field {
        Field::Entry { worker } if 1 <= worker && worker <= shape.workers => {
            Some(layout.entry_at(worker))
        }
        Field::Horizon { worker } if 1 <= worker && worker <= shape.workers => {
            Some(layout.horizon_at(worker))
        }
        Field::Intent { worker, nth } if 1 <= worker && worker <= shape.workers => {
            match shape.form {
                Form::Held => Some(layout.intent_at(worker) + nth as u64),
                _ => None,
            }
        }
        _ => address_of_place(layout, shape, field).or(address_of_cell(layout, shape, field)),
    }
}

fn field_of(layout: &Layout, address: u64) -> Option<Field> {
    if address < layout.total() {
        Some(layout.field_of(address))
    } else {
        None
    }
}

// Whether each address from one to before another is that of its field.
fn agree(layout: &Layout, shape: &Shape, from: u64, to: u64) -> bool
    requires { layout.now ≡ shape.now }
{
    for address in from..to {
        if address < layout.total() {
            let field = layout.field_of(address);
            if address_of(layout, shape, &field) != Some(address) {
                return false;
            }
        }
    }
    true
}

// The same around the first words of a table.
fn agree_around(layout: &Layout, shape: &Shape, table: u32) -> bool
    requires { layout.now ≡ shape.now }
{
    if table as usize >= shape.tables.len() || layout.capacity(table) == 0 {
        return false;
    }
    let begin = layout.place(table, 0).key_at;
    agree(layout, shape, begin.saturating_sub(200), begin + 200)
}

fn add(tables: &mut ShortList<Table, 8>, name: &str, width: u32, capacity: u32, ring: u32)
    requires name { length name.now ≤ 16 }
    requires room { length tables.old < 8 }
    ensures { length tables.new ≡ length tables.old + 1 }
{
    tables.push(table(name, width, capacity, ring));
}

#[test]
fn a_small_store_is_laid_out(rt: HostRuntime) {
    let mut tables = ShortList::new();
    add(&mut tables, "acct", 1, 2, 1);
    let shape = shape(Form::Narrow, 1, tables, 1, 1);
    let layout = laid(&shape).expect(&rt, "a layout");
    assert_eq!(rt; layout.total(), 28);
    assert_eq!(rt; layout.capacity(0), 2);
    assert_eq!(rt; layout.entry_at(1), 0);
    assert_eq!(rt; layout.horizon_at(1), 1);
    let first = place_of_row(&layout, &shape, 0).expect(&rt, "a row");
    assert_eq!(rt; first.key_at, 2);
    let place = place_of_row(&layout, &shape, 1).expect(&rt, "a row");
    assert_eq!(rt; place.row, 1);
    assert_eq!(rt; place.key_at, 9);
    assert_eq!(rt; place.header_at, 10);
    assert_eq!(rt; place.count_at, 11);
    assert_eq!(rt; place.words_at, 12);
    assert_eq!(rt; place.ring_at, 13);
    assert_eq!(rt; layout.cells(0).first, 16);
    assert_eq!(rt; layout.bucket_of(1), 0);
    assert_eq!(rt; field_of(&layout, 10), Some(Field::Header { row: 1 }));
    assert_eq!(rt;
        field_of(&layout, 27),
        Some(Field::CellWord {
            bucket: 0,
            cell: 0,
            nth: 7
        })
    );
    assert!(rt; agree(&layout, &shape, 0, 28));
}

#[test]
fn eight_tables_are_laid_out(rt: HostRuntime) {
    let mut tables = ShortList::new();
    add(&mut tables, "a", 1, 1, 1);
    add(&mut tables, "b", 2, 3, 16);
    add(&mut tables, "c", 3, 7, 2);
    add(&mut tables, "d", 4, 2, 5);
    add(&mut tables, "e", 5, 1, 3);
    add(&mut tables, "f", 6, 4, 4);
    add(&mut tables, "g", 7, 2, 1);
    add(&mut tables, "h", 8, 5, 2);
    let shape = shape(Form::Wide, 16, tables, 3, 5);
    let layout = laid(&shape).expect(&rt, "a layout");
    assert_eq!(rt; layout.total(), 998);
    let last = place_of_row(&layout, &shape, 24).expect(&rt, "a row");
    assert_eq!(rt; last.ring_at, 798);
    assert_eq!(rt; layout.cells(2).first, 938);
    assert_eq!(rt; layout.bucket_of(23), 2);
    assert!(rt; agree(&layout, &shape, 0, layout.total()));
}

#[test]
fn intents_are_laid_out(rt: HostRuntime) {
    let mut tables = ShortList::new();
    add(&mut tables, "acct", 2, 3, 2);
    add(&mut tables, "cust", 8, 1, 1);
    let shape = shape(Form::Held, 3, tables, 2, 2);
    let layout = laid(&shape).expect(&rt, "a layout");
    assert_eq!(rt; layout.intent_at(1), 114);
    assert_eq!(rt; layout.intent_at(3), 470);
    assert_eq!(rt; layout.total(), 648);
    assert_eq!(rt;
        field_of(&layout, 647),
        Some(Field::Intent {
            worker: 3,
            nth: 177
        })
    );
    assert!(rt; agree(&layout, &shape, 0, layout.total()));
}

#[test]
fn the_largest_store_is_laid_out(rt: HostRuntime) {
    let mut tables = ShortList::new();
    add(&mut tables, "a", 8, 4096, 16);
    add(&mut tables, "b", 8, 4096, 16);
    add(&mut tables, "c", 8, 4096, 16);
    add(&mut tables, "d", 8, 4096, 16);
    add(&mut tables, "e", 8, 4096, 16);
    add(&mut tables, "f", 8, 4048, 16);
    let shape = shape(Form::Narrow, 2, tables, 1, 1);
    let layout = laid(&shape).expect(&rt, "a layout");
    assert_eq!(rt; layout.total(), 4_194_304);
    for table in 0..6 {
        assert!(rt; agree_around(&layout, &shape, table));
    }
    assert!(rt; agree(&layout, &shape, 4_194_000, 4_194_304));
}
