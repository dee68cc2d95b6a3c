ghost use Rattle.std.specs.Prelude.{◌≡◌, length, IfSome};

use crate::{Reader, ReaderEnd};
use nam_header::Tag;
use nam_trial::{PlainStore, pair, plain_shape, read};
use si_model::{Snapshot, Value};
use std::alloc::{AllocError, Global};

// The stamp (1, 1), that of a deletion, and the stamp (1, 2).
const FIRST: u64 = 34_359_738_376;

const FIRST_DELETED: u64 = 34_359_738_378;

const SECOND: u64 = 34_359_738_384;

const LOCK: u64 = 1;

// One position of two words, with the header at address 5, the words 3 and 4 from 7 on, two slots from 9 on, and one
// cell from 17 on. The entries of the horizon are at 2 and 3.
fn opened(alloc: Global) -> Result<Option<PlainStore>, AllocError> {
    let Some(mut store) = PlainStore::new(alloc, plain_shape(2, 1, 2, 1))? else {
        return Ok(None);
    };
    if let Some(place) = store.place(0, 0) {
        store.load(&place, 7, [3, 4].as_slice());
    }
    Ok(Some(store))
}

// A read at the position.
fn begun(store: &PlainStore) -> Option<Reader>
    ensures { IfSome result (λ reader. reader.sight.workers ≡ 2) }
{
    let mut reader = Reader::new();
    reader.begin(&store.place(0, 0)?, &store.cells(0)?, 2);
    Some(reader)
}

// How the read ends under the snapshot, where it reads just these words, one after another.
fn reads(
    store: &mut PlainStore,
    reader: &mut Reader,
    seen: &Snapshot,
    expected: &[u64],
) -> Option<ReaderEnd>
    requires { length seen.now ≡ reader.old.sight.workers }
    ensures { reader.new.sight ≡ reader.old.sight }
{
    for address in expected {
        let verb = reader.verb()?;
        if verb != read(*address) {
            return None;
        }
        let found = store.word(*address);
        reader.take(seen, found);
    }
    reader.end()
}

// The words of a present value.
fn value_of(reader: &Reader) -> Option<Value> {
    match reader.end() {
        Some(ReaderEnd::Present) => Some(reader.value().copy()),
        _ => None,
    }
}

#[test]
fn a_current_version_is_read_between_two_looks(rt: HostRuntime) -> Result<(), AllocError> {
    let mut store = opened(rt.alloc())?.expect(&rt, "a store");
    let mut reader = begun(&store).expect(&rt, "a read");
    assert_eq!(rt; reader.left(), 34);
    let end = reads(&mut store, &mut reader, &pair(0, 0), &[5, 7, 8, 5]);
    assert_eq!(rt; end, Some(ReaderEnd::Present));
    assert_eq!(rt; reader.left(), 0);
    assert!(rt; reader.verb().is_none());
    assert!(rt; value_of(&reader) == Some(pair(3, 4)));
    Ok(())
}

// While the record was locked, its version was copied into the first slot, and its words were replaced.
#[test]
fn a_locked_version_is_found_in_the_ring(rt: HostRuntime) -> Result<(), AllocError> {
    let mut store = opened(rt.alloc())?.expect(&rt, "a store");
    store.set(5, FIRST + LOCK);
    store.set(7, 8);
    store.set(8, 9);
    let mut reader = begun(&store).expect(&rt, "a read");
    let end = reads(
        &mut store,
        &mut reader,
        &pair(1, 0),
        &[5, 7, 8, 5, 9, 13, 5],
    );
    assert_eq!(rt; end, Some(ReaderEnd::Present));
    assert!(rt; value_of(&reader) == Some(pair(8, 9)));
    store.set(9, FIRST);
    store.set(10, SECOND);
    store.set(11, 3);
    store.set(12, 4);
    let mut reader = begun(&store).expect(&rt, "a read");
    let end = reads(
        &mut store,
        &mut reader,
        &pair(1, 0),
        &[5, 7, 8, 5, 9, 10, 11, 12, 9],
    );
    assert_eq!(rt; end, Some(ReaderEnd::Present));
    assert!(rt; value_of(&reader) == Some(pair(3, 4)));
    Ok(())
}

#[test]
fn a_moved_version_is_found_in_the_cell(rt: HostRuntime) -> Result<(), AllocError> {
    let mut store = opened(rt.alloc())?.expect(&rt, "a store");
    store.set(5, SECOND);
    store.set(17, Tag(0).full().0);
    store.set(18, 0);
    store.set(19, FIRST);
    store.set(20, SECOND);
    store.set(21, 5);
    store.set(22, 6);
    let all = [5, 9, 13, 17, 18, 19, 20, 21, 22, 17];
    let mut reader = begun(&store).expect(&rt, "a read");
    let end = reads(&mut store, &mut reader, &pair(1, 0), all.as_slice());
    assert_eq!(rt; end, Some(ReaderEnd::Present));
    assert!(rt; value_of(&reader) == Some(pair(5, 6)));
    store.set(19, FIRST_DELETED);
    let mut reader = begun(&store).expect(&rt, "a read");
    let end = reads(&mut store, &mut reader, &pair(1, 0), all.as_slice());
    assert_eq!(rt; end, Some(ReaderEnd::Absent));
    Ok(())
}

// The first worker's horizon is at the snapshot's entry, and the second's above it.
#[test]
fn a_snapshot_is_too_old_below_the_horizon(rt: HostRuntime) -> Result<(), AllocError> {
    let mut store = opened(rt.alloc())?.expect(&rt, "a store");
    store.set(5, SECOND);
    store.set(2, 1);
    store.set(3, 5);
    let all = [5, 9, 13, 17, 2, 3];
    let mut reader = begun(&store).expect(&rt, "a read");
    let end = reads(&mut store, &mut reader, &pair(1, 4), all.as_slice());
    let too_old = ReaderEnd::TooOld {
        worker: 2,
        entry: 4,
        horizon: 5,
    };
    assert_eq!(rt; end, Some(too_old));
    let mut reader = begun(&store).expect(&rt, "a read");
    let end = reads(&mut store, &mut reader, &pair(1, 5), all.as_slice());
    assert_eq!(rt; end, Some(ReaderEnd::Astray));
    Ok(())
}
