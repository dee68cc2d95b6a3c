ghost use Rattle.std.specs.Prelude.{◌≡◌, IfSome};
ghost use Rattle.nam_catalog.specs.Fits.{FitsLimits};
ghost use Rattle.nam_scan.specs.Scan.{IsScanOf};

use crate::{Scan, ScanAnswer};
use nam_catalog::check;
use nam_layout::Layout;
use nam_trial::{PlainStore, pair, plain_shape, read};
use si_model::{Item, Value};
use std::alloc::{AllocError, Global};

// The stamp (1, 1), and the lock.
const FIRST: u64 = 34_359_738_376;

const LOCK: u64 = 1;

// The table of the store below.
fn laid_out() -> Option<Layout>
    ensures fits { IfSome result FitsLimits }
    ensures workers { IfSome result (λ shape. shape.workers ≡ 2) }
{
    let shape = plain_shape(1, 4, 1, 1);
    if check(&shape).is_err() {
        return None;
    }
    let layout = Layout::new(&shape);
    let _words = layout.total();
    Some(layout)
}

// Four positions of one word, whose key words stand at 4, 11, 18 and 25. The third is free, and the others bear the
// keys 8, 1 and 3.
fn opened(alloc: Global) -> Result<Option<PlainStore>, AllocError> {
    let Some(mut store) = PlainStore::new(alloc, plain_shape(1, 4, 1, 1))? else {
        return Ok(None);
    };
    let rows = [(0, 8, 80), (1, 1, 10), (3, 3, 30)];
    for (position, key, word) in rows.as_slice() {
        if let Some(place) = store.place(0, *position) {
            store.load(&place, *key, [*word].as_slice());
        }
    }
    Ok(Some(store))
}

// Whether the scan reads just these words, one after another, up to its next answer.
fn reads(store: &mut PlainStore, layout: &Layout, scan: &mut Scan, expected: &[u64]) -> bool
    requires { IsScanOf layout.now scan.old }
    ensures { IsScanOf layout.now scan.new }
{
    for address in expected {
        if scan.verb() != Some(read(*address)) {
            return false;
        }
        let found = store.word(*address);
        scan.take(layout, found);
    }
    scan.verb().is_none()
}

// A row of one word.
fn row(key: u64, word: u64) -> Option<ScanAnswer> {
    let mut value = Value::new();
    value.push(word);
    Some(ScanAnswer::Row(Item {
        table: 0,
        key,
        value: Some(value),
    }))
}

// Reads there where the scan has answered this key.
fn reads_key(scan: &mut Scan, layout: &Layout, key: u64) -> bool
    requires { IsScanOf layout.now scan.old }
    ensures { IsScanOf layout.now scan.new }
{
    match scan.answer() {
        Some(ScanAnswer::Key { key: answered }) if answered == key => {
            scan.read(layout);
            true
        }
        _ => false,
    }
}

// Leaves the position where the scan has answered a key or a row.
fn skips(scan: &mut Scan, layout: &Layout) -> bool
    requires { IsScanOf layout.now scan.old }
    ensures { IsScanOf layout.now scan.new }
{
    match scan.answer() {
        Some(ScanAnswer::Key { .. } | ScanAnswer::Row(_)) => {
            scan.skip(layout);
            true
        }
        _ => false,
    }
}

#[test]
fn two_of_three_rows_are_in_the_range(rt: HostRuntime) -> Result<(), AllocError> {
    let mut store = opened(rt.alloc())?.expect(&rt, "a store");
    let layout = laid_out().expect(&rt, "a layout");
    let mut scan = Scan::new(&layout, 0, 1, 3, pair(0, 0));
    assert_eq!(rt; scan.left(), 88);
    assert!(rt; reads(&mut store, &layout, &mut scan, &[4, 11]));
    assert_eq!(rt; scan.left(), 0);
    assert!(rt; reads_key(&mut scan, &layout, 1));
    assert!(rt; reads(&mut store, &layout, &mut scan, &[12, 14, 12]));
    assert!(rt; scan.answer() == row(1, 10));
    assert!(rt; skips(&mut scan, &layout));
    // The free position is passed.
    assert!(rt; reads(&mut store, &layout, &mut scan, &[18, 25]));
    assert!(rt; reads_key(&mut scan, &layout, 3));
    assert!(rt; reads(&mut store, &layout, &mut scan, &[26, 28, 26]));
    assert!(rt; scan.answer() == row(3, 30));
    assert!(rt; skips(&mut scan, &layout));
    assert!(rt; scan.verb().is_none());
    assert!(rt; scan.answer() == Some(ScanAnswer::Done));
    Ok(())
}

#[test]
fn a_key_may_be_left(rt: HostRuntime) -> Result<(), AllocError> {
    let mut store = opened(rt.alloc())?.expect(&rt, "a store");
    let layout = laid_out().expect(&rt, "a layout");
    let mut scan = Scan::new(&layout, 0, 0, u64::MAX, pair(0, 0));
    assert!(rt; reads(&mut store, &layout, &mut scan, &[4]));
    assert!(rt; scan.answer() == Some(ScanAnswer::Key { key: 8 }));
    assert!(rt; skips(&mut scan, &layout));
    assert!(rt; reads(&mut store, &layout, &mut scan, &[11]));
    assert!(rt; scan.answer() == Some(ScanAnswer::Key { key: 1 }));
    Ok(())
}

#[test]
fn an_empty_range_reads_the_key_words_alone(rt: HostRuntime) -> Result<(), AllocError> {
    let mut store = opened(rt.alloc())?.expect(&rt, "a store");
    let layout = laid_out().expect(&rt, "a layout");
    let mut scan = Scan::new(&layout, 0, 4, 7, pair(0, 0));
    assert!(rt; reads(&mut store, &layout, &mut scan, &[4, 11, 18, 25]));
    assert!(rt; scan.answer() == Some(ScanAnswer::Done));
    Ok(())
}

// The second position's record, locked: its ring is searched, and its header read once more.
#[test]
fn a_locked_record_is_read_by_a_further_look(rt: HostRuntime) -> Result<(), AllocError> {
    let mut store = opened(rt.alloc())?.expect(&rt, "a store");
    let layout = laid_out().expect(&rt, "a layout");
    store.set(12, FIRST + LOCK);
    let mut scan = Scan::new(&layout, 0, 1, 1, pair(1, 0));
    assert!(rt; reads(&mut store, &layout, &mut scan, &[4, 11]));
    assert!(rt; reads_key(&mut scan, &layout, 1));
    assert!(rt; reads(&mut store, &layout, &mut scan, &[12, 14, 12, 15, 12]));
    assert!(rt; scan.answer() == row(1, 10));
    Ok(())
}

// No version of it is seen: ring, cells and horizon are searched.
#[test]
fn a_snapshot_is_too_old_where_the_horizon_passed_it(rt: HostRuntime) -> Result<(), AllocError> {
    let mut store = opened(rt.alloc())?.expect(&rt, "a store");
    let layout = laid_out().expect(&rt, "a layout");
    store.set(12, FIRST);
    let all = [12, 15, 32, 2, 3];
    let mut scan = Scan::new(&layout, 0, 1, 1, pair(0, 0));
    assert!(rt; reads(&mut store, &layout, &mut scan, &[4, 11]));
    assert!(rt; reads_key(&mut scan, &layout, 1));
    assert!(rt; reads(&mut store, &layout, &mut scan, all.as_slice()));
    assert!(rt; scan.answer() == Some(ScanAnswer::Astray));
    store.set(3, 5);
    let mut scan = Scan::new(&layout, 0, 1, 1, pair(0, 4));
    assert!(rt; reads(&mut store, &layout, &mut scan, &[4, 11]));
    assert!(rt; reads_key(&mut scan, &layout, 1));
    assert!(rt; reads(&mut store, &layout, &mut scan, all.as_slice()));
    let answer = ScanAnswer::TooOld {
        worker: 2,
        entry: 4,
        horizon: 5,
    };
    assert!(rt; scan.answer() == Some(answer));
    Ok(())
}
