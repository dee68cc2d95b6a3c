use crate::{LockAll, LockEnd, UnlockAll};
use lists::ShortList;
use nam_catalog::Form;
use nam_trial::{PlainStore, exchange, pair, plain_shape, read, takes, write};
use nam_verbs::{Machine, Verb};
use std::alloc::{AllocError, Global};

// The header of the first commit of worker 1, not locked.
const NEWER: u64 = 34_359_738_376;

// Two positions, of which the first has a row and the second is blank: their headers stand at 5 and at 12.
fn opened(form: Form, alloc: Global) -> Result<Option<PlainStore>, AllocError> {
    let mut shape = plain_shape(1, 2, 1, 1);
    shape.form = form;
    let Some(mut store) = PlainStore::new(alloc, shape)? else {
        return Ok(None);
    };
    if let Some(place) = store.place(0, 0) {
        store.load(&place, 0, [9].as_slice());
    }
    Ok(Some(store))
}

#[test]
fn locks_are_taken_and_written_back_in_order(rt: HostRuntime) -> Result<(), AllocError> {
    let mut store = opened(Form::Narrow, rt.alloc())?.expect(&rt, "a store");
    let first = store.place(0, 0).expect(&rt, "a row");
    let second = store.place(0, 1).expect(&rt, "a blank position");
    let mut lock = LockAll::new(1, pair(first, second), pair(0, 0));
    assert_eq!(rt; lock.left(), 6);
    assert_eq!(rt; lock.taken(), 0);
    let verbs = store.run(rt.alloc(), &mut lock)?;
    let expected = [read(5), exchange(5, 0, 1), read(12), exchange(12, 2, 3)];
    assert!(rt; verbs.as_slice() == expected.as_slice());
    assert_eq!(rt; lock.end(), Some(LockEnd::Held(pair(0, 2))));
    assert_eq!(rt; lock.taken(), 2);
    assert_eq!(rt; store.word(12), 3);
    let mut unlock = UnlockAll::new(pair(first, second), pair(0, 2));
    assert_eq!(rt; unlock.left(), 2);
    let verbs = store.run(rt.alloc(), &mut unlock)?;
    let expected = [write(5, 0), write(12, 2)];
    assert!(rt; verbs.as_slice() == expected.as_slice());
    assert_eq!(rt; unlock.end(), Some(()));
    Ok(())
}

// The verbs by which the first lock is taken and given back, since the second is missed.
fn given_back() -> [Verb; 4] {
    [read(5), exchange(5, 0, 1), read(12), write(5, 0)]
}

#[test]
fn the_first_lock_is_given_back_where_the_second_is_newer(
    rt: HostRuntime,
) -> Result<(), AllocError> {
    let mut store = opened(Form::Narrow, rt.alloc())?.expect(&rt, "a store");
    let first = store.place(0, 0).expect(&rt, "a row");
    let second = store.place(0, 1).expect(&rt, "a blank position");
    let mut lock = LockAll::new(1, pair(first, second), pair(0, 0));
    store.set(12, NEWER);
    let verbs = store.run(rt.alloc(), &mut lock)?;
    assert!(rt; verbs.as_slice() == given_back().as_slice());
    let newer = LockEnd::Newer {
        nth: 1,
        found: NEWER,
    };
    assert_eq!(rt; lock.end(), Some(newer));
    assert_eq!(rt; lock.taken(), 1);
    assert_eq!(rt; store.word(5), 0);
    Ok(())
}

#[test]
fn locked_goes_before_newer(rt: HostRuntime) -> Result<(), AllocError> {
    let mut store = opened(Form::Narrow, rt.alloc())?.expect(&rt, "a store");
    let first = store.place(0, 0).expect(&rt, "a row");
    let second = store.place(0, 1).expect(&rt, "a blank position");
    let mut lock = LockAll::new(1, pair(first, second), pair(0, 0));
    store.set(12, NEWER + 1);
    let verbs = store.run(rt.alloc(), &mut lock)?;
    assert!(rt; verbs.as_slice() == given_back().as_slice());
    let locked = LockEnd::Locked {
        nth: 1,
        found: NEWER + 1,
    };
    assert_eq!(rt; lock.end(), Some(locked));
    assert_eq!(rt; store.word(5), 0);
    Ok(())
}

#[test]
fn a_lost_exchange_misses_the_lock(rt: HostRuntime) -> Result<(), AllocError> {
    let store = opened(Form::Narrow, rt.alloc())?.expect(&rt, "a store");
    let first = store.place(0, 0).expect(&rt, "a row");
    let second = store.place(0, 1).expect(&rt, "a blank position");
    let mut lock = LockAll::new(1, pair(first, second), pair(0, 0));
    assert!(rt; takes(&mut lock, &[(read(5), 0), (exchange(5, 0, 1), 1)]));
    assert_eq!(rt; lock.end(), Some(LockEnd::Locked { nth: 0, found: 1 }));
    let mut lock = LockAll::new(1, pair(first, second), pair(0, 0));
    assert!(rt; takes(&mut lock, &[(read(5), 0), (exchange(5, 0, 1), 2)]));
    assert_eq!(rt; lock.end(), Some(LockEnd::Newer { nth: 0, found: 2 }));
    Ok(())
}

#[test]
fn a_held_header_names_its_holder(rt: HostRuntime) -> Result<(), AllocError> {
    let mut store = opened(Form::Held, rt.alloc())?.expect(&rt, "a store");
    let first = store.place(0, 0).expect(&rt, "a row");
    let second = store.place(0, 1).expect(&rt, "a blank position");
    let mut lock = LockAll::new(2, pair(first, second), pair(0, 0));
    store.run(rt.alloc(), &mut lock)?;
    assert_eq!(rt; lock.end(), Some(LockEnd::Held(pair(0, 2))));
    assert_eq!(rt; store.word(5), 1_152_921_504_606_846_977);
    assert_eq!(rt; store.word(12), 1_152_921_504_606_846_979);
    Ok(())
}

#[test]
fn no_records_are_locked_at_once(rt: HostRuntime) {
    let unlock = UnlockAll::new(ShortList::new(), ShortList::new());
    assert_eq!(rt; unlock.end(), Some(()));
    let lock = LockAll::new(1, ShortList::new(), pair(0, 0));
    assert_eq!(rt; lock.verb(), None);
    assert_eq!(rt; lock.left(), 0);
    assert_eq!(rt; lock.end(), Some(LockEnd::Held(ShortList::new())));
}
