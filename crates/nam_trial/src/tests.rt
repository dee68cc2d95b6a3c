use crate::{PlainStore, plain_shape};
use std::alloc::AllocError;

#[test]
fn a_store_opens_without_versions(rt: HostRuntime) -> Result<(), AllocError> {
    let store = PlainStore::new(rt.alloc(), plain_shape(1, 2, 1, 1))?;
    let mut store = store.expect(&rt, "a shape within its limits");
    let place = store.place(0, 1).expect(&rt, "a second position");
    assert_eq!(rt; place.key_at, 11);
    assert_eq!(rt; store.word(place.header_at), 2);
    assert_eq!(rt; store.word(place.ring_at), 5);
    assert!(rt; store.place(0, 2).is_none());
    store.load(&place, 7, [9].as_slice());
    assert_eq!(rt; store.word(place.key_at), 8);
    assert_eq!(rt; store.word(place.header_at), 0);
    assert_eq!(rt; store.word(place.words_at), 9);
    Ok(())
}

/// No size is refused that there is memory for.
#[test]
fn a_store_may_be_large(rt: HostRuntime) -> Result<(), AllocError> {
    let store = PlainStore::new(rt.alloc(), plain_shape(1, 4_096, 16, 64))?;
    let mut store = store.expect(&rt, "a shape within its limits");
    let place = store.place(0, 4_095).expect(&rt, "the last position");
    assert_eq!(rt; store.word(place.header_at), 2);
    Ok(())
}
