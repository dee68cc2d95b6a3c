ghost use Rattle.std.specs.Prelude.{◌≡◌, length};

use crate::{Collector, MoveAnswer, Mover, Snapper, SnapperEnd};
use nam_trial::{PlainStore, exchange, pair, plain_shape, read, write};
use nam_verbs::Verb;
use si_model::{Snapshot, Stamp};
use std::alloc::AllocError;

// Stamp words of the first worker, of numbers 1 and 2.
const ONE: u64 = 34_359_738_376;

const TWO: u64 = 34_359_738_384;

// The word that a verb finds.
fn find(store: &mut PlainStore, verb: Verb) -> u64 {
    match verb {
        Verb::Read { at } => store.word(at),
        Verb::Write { at, word } => {
            store.set(at, word);
            0
        }
        Verb::Exchange { at, expect, word } => {
            let found = store.word(at);
            if found == expect {
                store.set(at, word);
            }
            found
        }
    }
}

// Goes on by one verb, and gives it.
fn step_snap(store: &mut PlainStore, snapper: &mut Snapper) -> Option<Verb> {
    let verb = snapper.verb()?;
    let found = find(store, verb);
    snapper.take(found);
    Some(verb)
}

fn step_move(store: &mut PlainStore, mover: &mut Mover) -> Option<Verb> {
    let verb = mover.verb()?;
    let found = find(store, verb);
    mover.take(found);
    Some(verb)
}

fn step_collection(
    store: &mut PlainStore,
    collector: &mut Collector,
    seen: &Snapshot,
) -> Option<Verb>
    requires { length seen.now ≡ collector.old.workers }
    ensures { collector.new.workers ≡ collector.old.workers }
{
    let verb = collector.verb(seen)?;
    let found = find(store, verb);
    collector.take(seen, found);
    Some(verb)
}

#[test]
fn the_entries_are_read_twice(rt: HostRuntime) -> Result<(), AllocError> {
    let opened = PlainStore::new(rt.alloc(), plain_shape(1, 1, 1, 1))?;
    let mut store = opened.expect(&rt, "a store");
    store.set(0, 5);
    store.set(1, 4);
    let mut snapper = Snapper::new();
    snapper.begin(2);
    assert_eq!(rt; snapper.left(), 4);
    for verb in [read(0), read(1), read(0), read(1)] {
        assert_eq!(rt; step_snap(&mut store, &mut snapper), Some(verb));
    }
    assert_eq!(rt; snapper.verb(), None);
    match snapper.end() {
        Some(SnapperEnd::Done) => assert!(rt; snapper.seen().as_slice() == [5, 4].as_slice()),
        _ => assert!(rt; false),
    }
    Ok(())
}

// One position of two words with one slot, at 9, and a bucket of two cells, from address 13 on.
#[test]
fn a_version_is_whole_in_its_cell_before_its_slot_says_moved(
    rt: HostRuntime,
) -> Result<(), AllocError> {
    let opened = PlainStore::new(rt.alloc(), plain_shape(2, 1, 1, 2))?;
    let mut store = opened.expect(&rt, "a store");
    let place = store.place(0, 0).expect(&rt, "a position");
    let cells = store.cells(0).expect(&rt, "a bucket");
    for (at, word) in [(6, 2), (9, ONE), (10, TWO), (11, 7), (12, 8), (13, 2)] {
        store.set(at, word);
    }
    let mut mover = Mover::new();
    mover.begin(&place, &cells);
    assert_eq!(rt; mover.left(), 17);
    let expected = [
        read(6),
        read(9),
        read(10),
        read(13),
        read(25),
        exchange(25, 0, 1),
        read(11),
        read(12),
        write(26, 0),
        write(27, ONE),
        write(28, TWO),
        write(29, 7),
        write(30, 8),
        read(9),
        write(25, 2),
        exchange(9, ONE, ONE + 4),
    ];
    for verb in expected {
        assert_eq!(rt; step_move(&mut store, &mut mover), Some(verb));
    }
    assert_eq!(rt; mover.verb(), None);
    let stamp = Stamp {
        thread: 1,
        number: 1,
    };
    assert_eq!(rt; mover.end(), Some(MoveAnswer::Moved { stamp }));
    Ok(())
}

// Two workers, whose horizon entries are at 2 and 3, one position, and a bucket of one cell at 11.
#[test]
fn a_cell_within_the_horizon_is_freed(rt: HostRuntime) -> Result<(), AllocError> {
    let opened = PlainStore::new(rt.alloc(), plain_shape(1, 1, 1, 1))?;
    let mut store = opened.expect(&rt, "a store");
    let cells = store.cells(0).expect(&rt, "a bucket");
    store.set(11, 2);
    store.set(14, ONE);
    let seen = pair(1, 0);
    let mut collector = Collector::new();
    collector.begin(&cells, 2);
    assert_eq!(rt;
        step_collection(&mut store, &mut collector, &seen),
        Some(read(2))
    );
    assert_eq!(rt;
        step_collection(&mut store, &mut collector, &seen),
        Some(exchange(2, 0, 1))
    );
    assert_eq!(rt;
        step_collection(&mut store, &mut collector, &seen),
        Some(read(3))
    );
    assert_eq!(rt;
        step_collection(&mut store, &mut collector, &seen),
        Some(read(11))
    );
    assert_eq!(rt;
        step_collection(&mut store, &mut collector, &seen),
        Some(read(14))
    );
    assert_eq!(rt;
        step_collection(&mut store, &mut collector, &seen),
        Some(exchange(11, 2, 4))
    );
    if collector.is_over() {
        assert!(rt; collector.known().as_slice() == [1, 0].as_slice());
    } else {
        assert!(rt; false);
    }
    Ok(())
}
