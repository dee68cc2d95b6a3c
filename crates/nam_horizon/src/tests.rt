use crate::{Collect, OldEnd, ShowOld};
use nam_trial::{PlainStore, exchange, pair, plain_shape, read, takes};
use nam_verbs::Machine;
use std::alloc::{AllocError, Global};

// The end stamps of two versions of worker 1, which its commits 5 and 6 ended.
const FIFTH: u64 = 34_359_738_408;

const SIXTH: u64 = 34_359_738_416;

// Two workers, whose horizon entries are at 2 and 3, one position, and a bucket of three cells at 11, 23 and 35.
fn opened(alloc: Global) -> Result<Option<PlainStore>, AllocError> {
    PlainStore::new(alloc, plain_shape(1, 1, 1, 3))
}

// Makes a cell full, with this end.
fn fill(store: &mut PlainStore, tag: u32, ending: u64) {
    store.set(tag as u64, 2);
    store.set(tag as u64 + 3, ending);
}

#[test]
fn the_horizon_is_raised_to_the_snapshot(rt: HostRuntime) -> Result<(), AllocError> {
    let mut store = opened(rt.alloc())?.expect(&rt, "a store");
    let cells = store.cells(0).expect(&rt, "a bucket");
    let mut collect = Collect::new(cells, 2, pair(5, 0));
    assert_eq!(rt; collect.left(), 4 + 3 * cells.cells as u64);
    let verbs = store.run(rt.alloc(), &mut collect)?;
    let expected = [
        read(2),
        exchange(2, 0, 5),
        read(3),
        read(11),
        read(23),
        read(35),
    ];
    assert!(rt; verbs.as_slice() == expected.as_slice());
    assert!(rt; collect.end() == Some(pair(5, 0)));
    assert_eq!(rt; store.word(2), 5);
    Ok(())
}

#[test]
fn a_cell_within_the_horizon_is_freed(rt: HostRuntime) -> Result<(), AllocError> {
    let mut store = opened(rt.alloc())?.expect(&rt, "a store");
    let cells = store.cells(0).expect(&rt, "a bucket");
    store.set(2, 5);
    fill(&mut store, 11, FIFTH);
    fill(&mut store, 23, SIXTH);
    let mut collect = Collect::new(cells, 2, pair(4, 0));
    let verbs = store.run(rt.alloc(), &mut collect)?;
    let expected = [
        read(2),
        read(3),
        read(11),
        read(14),
        exchange(11, 2, 4),
        read(23),
        read(26),
        read(35),
    ];
    assert!(rt; verbs.as_slice() == expected.as_slice());
    assert!(rt; collect.end() == Some(pair(5, 0)));
    assert_eq!(rt; store.word(11), 4);
    assert_eq!(rt; store.word(23), 2);
    Ok(())
}

// The horizon was raised by another worker meanwhile, though less far.
#[test]
fn a_lost_exchange_leaves_the_horizon_that_was_found(rt: HostRuntime) -> Result<(), AllocError> {
    let store = opened(rt.alloc())?.expect(&rt, "a store");
    let cells = store.cells(0).expect(&rt, "a bucket");
    let mut collect = Collect::new(cells, 2, pair(5, 0));
    let steps = [
        (read(2), 0),
        (exchange(2, 0, 5), 3),
        (read(3), 0),
        (read(11), 2),
        (read(14), FIFTH),
        (read(23), 1),
        (read(35), 0),
    ];
    assert!(rt; takes(&mut collect, &steps));
    assert!(rt; collect.end() == Some(pair(3, 0)));
    Ok(())
}

#[test]
fn a_snapshot_below_the_horizon_is_too_old(rt: HostRuntime) -> Result<(), AllocError> {
    let mut store = opened(rt.alloc())?.expect(&rt, "a store");
    store.set(3, 5);
    let mut old = ShowOld::new(2, pair(0, 4));
    assert_eq!(rt; old.left(), 2);
    let verbs = store.run(rt.alloc(), &mut old)?;
    assert!(rt; verbs.as_slice() == [read(2), read(3)].as_slice());
    let end = OldEnd::TooOld {
        worker: 2,
        entry: 4,
        horizon: 5,
    };
    assert_eq!(rt; old.end(), Some(end));
    Ok(())
}

#[test]
fn a_snapshot_at_the_horizon_is_not_passed(rt: HostRuntime) -> Result<(), AllocError> {
    let mut store = opened(rt.alloc())?.expect(&rt, "a store");
    store.set(3, 5);
    let mut old = ShowOld::new(2, pair(0, 5));
    let verbs = store.run(rt.alloc(), &mut old)?;
    assert!(rt; verbs.as_slice() == [read(2), read(3)].as_slice());
    assert_eq!(rt; old.end(), Some(OldEnd::NotPassed));
    Ok(())
}
