use crate::{Publish, Snap, SnapEnd, publish_number, take_snapshot};
use nam_verbs::{Machine, PlainRegion, Verb};
use std::alloc::AllocError;

#[test]
fn a_snapshot_has_what_was_published(rt: HostRuntime) -> Result<(), AllocError> {
    let mut region = PlainRegion::new(vec![in rt.alloc(); 7, 8, 9]?);
    publish_number(&mut region, 2, 5);
    let seen = take_snapshot(&mut region, 3);
    assert!(rt; seen.as_slice() == [7, 5, 9].as_slice());
    Ok(())
}

#[test]
fn an_entry_that_changes_between_the_passes_is_named(rt: HostRuntime) {
    let mut snap = Snap::new(2);
    assert_eq!(rt; snap.left(), 4);
    snap.take(7);
    snap.take(8);
    assert_eq!(rt; snap.verb(), Some(Verb::Read { at: 0 }));
    snap.take(7);
    snap.take(9);
    assert_eq!(rt; snap.verb(), None);
    assert_eq!(rt; snap.left(), 0);
    let again = matches!(
        snap.end(),
        Some(SnapEnd::Again {
            worker: 2,
            first: 8,
            second: 9
        })
    );
    assert!(rt; again);
}

#[test]
fn a_number_is_published_by_one_write(rt: HostRuntime) {
    let mut publish = Publish::new(2, 5);
    assert_eq!(rt; publish.end(), None);
    assert_eq!(rt; publish.verb(), Some(Verb::Write { at: 1, word: 5 }));
    publish.take(0);
    assert_eq!(rt; publish.verb(), None);
    assert_eq!(rt; publish.end(), Some(()));
}
