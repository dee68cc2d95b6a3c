use crate::{ClaimKeyEnd, Find, FindEnd, FindOrClaim};
use nam_trial::{PlainStore, exchange, plain_shape, read, takes};
use nam_verbs::Machine;
use std::alloc::{AllocError, Global};

// A table of three positions, whose key words stand at 4, 11 and 18. The keys 4 and 7, whose paths begin at the second
// position, are loaded there and at the third.
fn opened(alloc: Global) -> Result<Option<PlainStore>, AllocError> {
    let Some(mut store) = PlainStore::new(alloc, plain_shape(1, 3, 1, 1))? else {
        return Ok(None);
    };
    if let (Some(second), Some(third)) = (store.place(0, 1), store.place(0, 2)) {
        store.load(&second, 4, [40].as_slice());
        store.load(&third, 7, [70].as_slice());
    }
    Ok(Some(store))
}

#[test]
fn a_loaded_key_is_found_on_its_path(rt: HostRuntime) -> Result<(), AllocError> {
    let mut store = opened(rt.alloc())?.expect(&rt, "a store");
    let mut find = Find::new(store.layout(), 0, 7);
    assert_eq!(rt; find.left(), 3);
    let verbs = store.run(rt.alloc(), &mut find)?;
    assert!(rt; verbs.as_slice() == [read(11), read(18)].as_slice());
    assert_eq!(rt; find.left(), 0);
    assert_eq!(rt; find.end(), Some(FindEnd::At(2)));
    let mut claim = FindOrClaim::new(store.layout(), 0, 7);
    let verbs = store.run(rt.alloc(), &mut claim)?;
    assert!(rt; verbs.as_slice() == [read(11), read(18)].as_slice());
    assert_eq!(rt; claim.end(), Some(ClaimKeyEnd::At(2)));
    Ok(())
}

#[test]
fn a_key_is_absent_by_a_free_position_or_by_all_others(rt: HostRuntime) -> Result<(), AllocError> {
    let mut store = opened(rt.alloc())?.expect(&rt, "a store");
    let path = [read(11), read(18), read(4)];
    let mut find = Find::new(store.layout(), 0, 1);
    let verbs = store.run(rt.alloc(), &mut find)?;
    assert!(rt; verbs.as_slice() == path.as_slice());
    assert_eq!(rt; find.end(), Some(FindEnd::Absent));
    let mut short = Find::new(store.layout(), 0, 6);
    let verbs = store.run(rt.alloc(), &mut short)?;
    assert!(rt; verbs.as_slice() == [read(4)].as_slice());
    assert_eq!(rt; short.end(), Some(FindEnd::Absent));
    store.set(4, 100);
    let mut full = Find::new(store.layout(), 0, 1);
    let verbs = store.run(rt.alloc(), &mut full)?;
    assert!(rt; verbs.as_slice() == path.as_slice());
    assert_eq!(rt; full.end(), Some(FindEnd::Absent));
    Ok(())
}

#[test]
fn a_free_position_is_claimed(rt: HostRuntime) -> Result<(), AllocError> {
    let mut store = opened(rt.alloc())?.expect(&rt, "a store");
    let mut claim = FindOrClaim::new(store.layout(), 0, 3);
    assert_eq!(rt; claim.left(), 6);
    let verbs = store.run(rt.alloc(), &mut claim)?;
    assert!(rt; verbs.as_slice() == [read(4), exchange(4, 0, 4)].as_slice());
    assert_eq!(rt; claim.end(), Some(ClaimKeyEnd::At(0)));
    assert_eq!(rt; store.word(4), 4);
    Ok(())
}

#[test]
fn other_keys_leave_no_space(rt: HostRuntime) -> Result<(), AllocError> {
    let store = opened(rt.alloc())?.expect(&rt, "a store");
    let mut claim = FindOrClaim::new(store.layout(), 0, 3);
    let lost = [(read(4), 0), (exchange(4, 0, 4), 10), (read(11), 5)];
    assert!(rt; takes(&mut claim, lost.as_slice()));
    assert_eq!(rt; claim.left(), 2);
    assert!(rt; takes(&mut claim, [(read(18), 8)].as_slice()));
    assert_eq!(rt; claim.end(), Some(ClaimKeyEnd::NoSpace));
    Ok(())
}

#[test]
fn an_exchange_that_is_lost_to_the_same_key_ends_there(rt: HostRuntime) -> Result<(), AllocError> {
    let store = opened(rt.alloc())?.expect(&rt, "a store");
    let mut claim = FindOrClaim::new(store.layout(), 0, 3);
    assert!(rt;
        takes(
            &mut claim,
            [(read(4), 0), (exchange(4, 0, 4), 4)].as_slice()
        )
    );
    assert_eq!(rt; claim.end(), Some(ClaimKeyEnd::At(0)));
    Ok(())
}
