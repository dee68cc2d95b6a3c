use crate::{CellEnd, ClaimCell, ClaimEnd, FillCell, SearchCells};
use nam_trial::{PlainStore, exchange, pair, plain_shape, read, takes, write};
use nam_verbs::Machine;
use std::alloc::{AllocError, Global};

// One position of two words, and a bucket with so many cells, from address 13 on.
fn opened(alloc: Global, cells: u32) -> Result<Option<PlainStore>, AllocError> {
    PlainStore::new(alloc, plain_shape(2, 1, 1, cells))
}

// Stamp words of the first worker: of number 1, which the snapshots see, and of number 2, which they don't see.
const ONE: u64 = 34_359_738_376;

const TWO: u64 = 34_359_738_384;

#[test]
fn a_version_is_put_into_an_opening_cell_and_found_there(
    rt: HostRuntime,
) -> Result<(), AllocError> {
    let mut store = opened(rt.alloc(), 2)?.expect(&rt, "a store");
    let place = store.place(0, 0).expect(&rt, "a position");
    let cells = store.cells(0).expect(&rt, "a bucket");
    let mut search = SearchCells::new(cells, place, pair(1, 0));
    assert_eq!(rt; search.left(), 14);
    let verbs = store.run(rt.alloc(), &mut search)?;
    assert!(rt; verbs.as_slice() == [read(13), read(25)].as_slice());
    assert!(rt; search.end() == Some(CellEnd::NotThere));

    let mut claim = ClaimCell::new(cells);
    let verbs = store.run(rt.alloc(), &mut claim)?;
    assert!(rt; verbs.as_slice() == [read(13), exchange(13, 0, 1)].as_slice());
    assert!(rt; claim.end() == Some(ClaimEnd::Claimed { cell: 0, tag: 1 }));

    assert!(rt; cells.cells == 2);
    let mut fill = FillCell::new(cells, 0, place.row, ONE, TWO, pair(7, 8));
    assert_eq!(rt; fill.left(), 5);
    let verbs = store.run(rt.alloc(), &mut fill)?;
    let writes = [
        write(14, 0),
        write(15, ONE),
        write(16, TWO),
        write(17, 7),
        write(18, 8),
    ];
    assert!(rt; verbs.as_slice() == writes.as_slice());
    assert!(rt; fill.end() == Some(()));

    store.set(13, 2);
    let mut search = SearchCells::new(cells, place, pair(1, 0));
    let verbs = store.run(rt.alloc(), &mut search)?;
    let reads = [
        read(13),
        read(14),
        read(15),
        read(16),
        read(17),
        read(18),
        read(13),
    ];
    assert!(rt; verbs.as_slice() == reads.as_slice());
    assert!(rt; search.end() == Some(CellEnd::Found(Some(pair(7, 8)))));
    Ok(())
}

#[test]
fn each_word_of_a_cell_can_end_it(rt: HostRuntime) -> Result<(), AllocError> {
    let store = opened(rt.alloc(), 6)?.expect(&rt, "a store");
    let place = store.place(0, 0).expect(&rt, "a position");
    let cells = store.cells(0).expect(&rt, "a bucket");
    let mut search = SearchCells::new(cells, place, pair(1, 0));
    let steps = [
        // its tag: it is being written
        (read(13), 1),
        // its owner
        (read(25), 2),
        (read(26), 1),
        // its header
        (read(37), 2),
        (read(38), 0),
        (read(39), TWO),
        // its end
        (read(49), 2),
        (read(50), 0),
        (read(51), 0),
        (read(52), ONE),
        // its tag read again
        (read(61), 2),
        (read(62), 0),
        (read(63), ONE),
        (read(64), TWO),
        (read(65), 7),
        (read(66), 8),
        (read(61), 4),
        // and then a deletion is found
        (read(73), 6),
        (read(74), 0),
        (read(75), ONE + 2),
        (read(76), TWO),
        (read(77), 7),
        (read(78), 8),
        (read(73), 6),
    ];
    assert!(rt; takes(&mut search, &steps));
    assert_eq!(rt; search.verb(), None);
    assert!(rt; search.end() == Some(CellEnd::Found(None)));
    Ok(())
}

#[test]
fn a_cell_is_lost_to_its_tag_or_to_an_exchange(rt: HostRuntime) -> Result<(), AllocError> {
    let store = opened(rt.alloc(), 2)?.expect(&rt, "a store");
    let cells = store.cells(0).expect(&rt, "a bucket");
    let mut claim = ClaimCell::new(cells);
    assert_eq!(rt; claim.left(), 4);
    assert!(rt;
        takes(
            &mut claim,
            &[(read(13), 2), (read(25), 4), (exchange(25, 4, 5), 5)]
        )
    );
    assert!(rt; claim.end() == Some(ClaimEnd::NoRoom));
    Ok(())
}
