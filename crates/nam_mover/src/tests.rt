use crate::{Move, MoveAnswer};
use nam_trial::{PlainStore, exchange, plain_shape, read, takes, write};
use nam_verbs::Machine;
use si_model::Stamp;
use std::alloc::{AllocError, Global};

// One position of two words with one slot, at 9, and a bucket of two cells, from address 13 on.
fn opened(alloc: Global) -> Result<Option<PlainStore>, AllocError> {
    PlainStore::new(alloc, plain_shape(2, 1, 1, 2))
}

// Stamp words of the first worker, of numbers 1 and 2.
const ONE: u64 = 34_359_738_376;

const TWO: u64 = 34_359_738_384;

// A version of number 1 stands in the slot, up to number 2.
fn fill_slot(store: &mut PlainStore) {
    store.set(6, 2);
    store.set(9, ONE);
    store.set(10, TWO);
    store.set(11, 7);
    store.set(12, 8);
}

fn one() -> Stamp {
    Stamp {
        thread: 1,
        number: 1,
    }
}

#[test]
fn a_version_is_whole_in_its_cell_before_its_slot_says_moved(
    rt: HostRuntime,
) -> Result<(), AllocError> {
    let mut store = opened(rt.alloc())?.expect(&rt, "a store");
    let place = store.place(0, 0).expect(&rt, "a position");
    let cells = store.cells(0).expect(&rt, "a bucket");
    fill_slot(&mut store);
    let mut call = Move::new(place, cells);
    assert_eq!(rt; call.left(), 17);
    let verbs = store.run(rt.alloc(), &mut call)?;
    let expected = [
        read(6),
        read(9),
        read(10),
        read(13),
        exchange(13, 0, 1),
        read(11),
        read(12),
        write(14, 0),
        write(15, ONE),
        write(16, TWO),
        write(17, 7),
        write(18, 8),
        read(9),
        write(13, 2),
        exchange(9, ONE, ONE + 4),
    ];
    assert!(rt; verbs.as_slice() == expected.as_slice());
    assert_eq!(rt; call.end(), Some(MoveAnswer::Moved { stamp: one() }));
    assert_eq!(rt; store.word(9), ONE + 4);

    let mut call = Move::new(place, cells);
    let verbs = store.run(rt.alloc(), &mut call)?;
    assert!(rt; verbs.as_slice() == [read(6), read(9)].as_slice());
    assert_eq!(rt; call.end(), Some(MoveAnswer::Nothing));
    Ok(())
}

#[test]
fn no_cell_is_taken_from_a_full_bucket(rt: HostRuntime) -> Result<(), AllocError> {
    let mut store = opened(rt.alloc())?.expect(&rt, "a store");
    let place = store.place(0, 0).expect(&rt, "a position");
    let cells = store.cells(0).expect(&rt, "a bucket");
    fill_slot(&mut store);
    store.set(13, 2);
    store.set(25, 1);
    let mut call = Move::new(place, cells);
    let verbs = store.run(rt.alloc(), &mut call)?;
    assert!(rt; verbs.as_slice() == [read(6), read(9), read(10), read(13), read(25)].as_slice());
    assert_eq!(rt; call.end(), Some(MoveAnswer::NoRoom { bucket: 0 }));
    assert_eq!(rt; store.word(9), ONE);
    Ok(())
}

#[test]
fn a_cell_is_given_back_where_another_moved_the_version(rt: HostRuntime) -> Result<(), AllocError> {
    let store = opened(rt.alloc())?.expect(&rt, "a store");
    let place = store.place(0, 0).expect(&rt, "a position");
    let cells = store.cells(0).expect(&rt, "a bucket");
    let mut call = Move::new(place, cells);
    let claim = [
        (read(6), 2),
        (read(9), ONE),
        (read(10), TWO),
        // The first cell is lost to another, and the second is taken in its fifth generation.
        (read(13), 0),
        (exchange(13, 0, 1), 1),
        (read(25), 16),
    ];
    assert!(rt; takes(&mut call, &claim));
    assert_eq!(rt; call.claimed(), None);
    assert!(rt; takes(&mut call, &[(exchange(25, 16, 17), 16)]));
    assert_eq!(rt; call.claimed(), Some(one()));
    let rest = [
        (read(11), 7),
        (read(12), 8),
        (write(26, 0), 0),
        (write(27, ONE), 0),
        (write(28, TWO), 0),
        (write(29, 7), 0),
        (write(30, 8), 0),
        (read(9), ONE + 4),
    ];
    assert!(rt; takes(&mut call, &rest));
    assert_eq!(rt; call.claimed(), Some(one()));
    assert!(rt; takes(&mut call, &[(write(25, 20), 0)]));
    assert_eq!(rt; call.verb(), None);
    assert_eq!(rt; call.claimed(), None);
    assert_eq!(rt; call.end(), Some(MoveAnswer::Back { stamp: one() }));
    Ok(())
}
