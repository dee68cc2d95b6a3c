ghost use Rattle.nam_layout.specs.PlaceFits.{FitsPlace};

use crate::{CheckSlot, CopyOld, SearchEnd, SearchRing, SlotEnd};
use nam_layout::Place;
use nam_trial::{PlainStore, pair, plain_shape, read, write};
use nam_verbs::Machine;
use si_model::Stamp;
use std::alloc::{AllocError, Global};

// One position of two words, with two slots from address 9 on.
fn opened(alloc: Global) -> Result<Option<PlainStore>, AllocError> {
    PlainStore::new(alloc, plain_shape(2, 1, 2, 1))
}

#[test]
fn a_slot_is_free_once_its_version_was_moved(rt: HostRuntime) -> Result<(), AllocError> {
    let mut store = opened(rt.alloc())?.expect(&rt, "a store");
    let place = store.place(0, 0).expect(&rt, "a position");
    let mut check = CheckSlot::new(place);
    assert_eq!(rt; check.left(), 2);
    let verbs = store.run(rt.alloc(), &mut check)?;
    assert!(rt; verbs.as_slice() == [read(6), read(9)].as_slice());
    assert_eq!(rt; check.end(), Some(SlotEnd::Free { count: 0 }));
    store.set(6, 3);
    store.set(13, 34_359_738_376);
    let mut check = CheckSlot::new(place);
    let verbs = store.run(rt.alloc(), &mut check)?;
    assert!(rt; verbs.as_slice() == [read(6), read(13)].as_slice());
    assert_eq!(rt;
        check.end(),
        Some(SlotEnd::NotMoved {
            slot: 1,
            found: 34_359_738_376
        })
    );
    Ok(())
}

#[test]
fn a_copy_is_whole_before_its_header(rt: HostRuntime) -> Result<(), AllocError> {
    let mut store = opened(rt.alloc())?.expect(&rt, "a store");
    let place = store.place(0, 0).expect(&rt, "a position");
    assert_eq!(rt; place.width, 2);
    let next = Stamp {
        thread: 2,
        number: 3,
    };
    let mut copy = CopyOld::new(place, 3, 34_359_738_376, pair(7, 8), next);
    assert_eq!(rt; copy.left(), 5);
    let verbs = store.run(rt.alloc(), &mut copy)?;
    let expected = [
        write(13, 5),
        write(14, 68_719_476_760),
        write(15, 7),
        write(16, 8),
        write(13, 34_359_738_376),
    ];
    assert!(rt; verbs.as_slice() == expected.as_slice());
    Ok(())
}

// The ends of a search by snapshots that see so much of the first worker.
fn search(
    store: &mut PlainStore,
    place: Place,
    first: u64,
    alloc: Global,
) -> Result<(usize, Option<SearchEnd>), AllocError>
    requires { FitsPlace place }
{
    let mut search = SearchRing::new(place, pair(first, 0));
    let verbs = store.run(alloc, &mut search)?;
    Ok((verbs.len(), search.end()))
}

#[test]
fn a_search_finds_the_version_between_two_stamps(rt: HostRuntime) -> Result<(), AllocError> {
    let mut store = opened(rt.alloc())?.expect(&rt, "a store");
    let place = store.place(0, 0).expect(&rt, "a position");
    assert!(rt; search(&mut store, place, 9, rt.alloc())? == (2, Some(SearchEnd::NotThere)));
    // The loader's version, then (1, 2), which is a deletion, up to (1, 5).
    store.set(10, 34_359_738_384);
    store.set(9, 0);
    store.set(11, 7);
    store.set(12, 8);
    store.set(14, 34_359_738_408);
    store.set(13, 34_359_738_386);
    let mut first = SearchRing::new(place, pair(1, 0));
    assert_eq!(rt; first.left(), 10);
    let verbs = store.run(rt.alloc(), &mut first)?;
    let expected = [read(9), read(10), read(11), read(12), read(9)];
    assert!(rt; verbs.as_slice() == expected.as_slice());
    assert!(rt; first.end() == Some(SearchEnd::Found(Some(pair(7, 8)))));
    assert!(rt; search(&mut store, place, 2, rt.alloc())? == (7, Some(SearchEnd::Found(None))));
    assert!(rt; search(&mut store, place, 5, rt.alloc())? == (4, Some(SearchEnd::NotThere)));
    Ok(())
}
