ghost use Rattle.std.specs.Prelude.{All};
ghost use Rattle.nam_layout.specs.PlaceFits.{FitsPlace};

use crate::commit::{Puts, commit};
use crate::tidy::{collect, tidy};
use lists::ShortList;
use nam_layout::Place;
use nam_mover::MoveAnswer;
use nam_trial::{PlainStore, pair, plain_shape};
use nam_vector::{Snap, SnapEnd};
use nam_verbs::Machine;
use si_model::Stamp;
use std::alloc::{AllocError, Global};

// The first positions of the store's table, at most 16.
fn first_places(store: &PlainStore, records: u32) -> ShortList<Place, 16>
    ensures { All FitsPlace result }
{
    let mut places = ShortList::new();
    for position in 0..records {
        if let Some(place) = store.place(0, position) {
            if places.len() < 16 {
                places.push(place);
            }
        }
    }
    places
}

// A commit of so many puts, right after its snapshot: the verbs of both.
fn begin_and_commit(
    store: &mut PlainStore,
    records: u32,
    number: u32,
    alloc: Global,
) -> Result<Option<(usize, Option<usize>)>, AllocError> {
    let places = first_places(store, records);
    let mut snap = Snap::new(2);
    let begin = store.run(alloc, &mut snap)?.len();
    match snap.end() {
        Some(SnapEnd::Done(seen)) => {
            let puts = Puts {
                places,
                seen,
                number: number as u64,
            };
            Ok(Some((begin, commit(store, &puts, alloc)?)))
        }
        _ => Ok(None),
    }
}

#[test]
fn a_snapshot_takes_two_verbs_a_worker_and_a_commit_its_figure(
    rt: HostRuntime,
) -> Result<(), AllocError> {
    for width in 1..9 {
        for records in 1..17 {
            let figure = 4 * records + records * (3 * width + 5) + 1;
            let store = PlainStore::new(rt.alloc(), plain_shape(width, 16, 1, 1))?;
            let mut store = store.expect(&rt, "a store");
            let verbs = begin_and_commit(&mut store, records, 1, rt.alloc())?;
            assert_eq!(rt; verbs, Some((4, Some(figure as usize))));
        }
    }
    Ok(())
}

// A store of 16 positions and two cells, with rows of the keys 16 and 32, whose paths both begin at the first position.
fn opened(width: u32, alloc: Global) -> Result<Option<PlainStore>, AllocError> {
    let Some(mut store) = PlainStore::new(alloc, plain_shape(width, 16, 1, 2))? else {
        return Ok(None);
    };
    if let (Some(first), Some(second)) = (store.place(0, 0), store.place(0, 1)) {
        store.load(&first, 16, [].as_slice());
        store.load(&second, 32, [].as_slice());
    }
    Ok(Some(store))
}

#[test]
fn tidying_and_collecting_keep_to_their_figures(rt: HostRuntime) -> Result<(), AllocError> {
    let loaded = Stamp {
        thread: 0,
        number: 0,
    };
    for width in 1..9 {
        let most = 16 + 3 + 2 * 2 + 2 * width as usize + 6;
        let mut store = opened(width, rt.alloc())?.expect(&rt, "a store");
        let (verbs, end) = tidy(&mut store, 32, rt.alloc())?;
        assert_eq!(rt; end, Some(MoveAnswer::Nothing));
        assert_eq!(rt; verbs, 4);
        begin_and_commit(&mut store, 2, 1, rt.alloc())?;
        let (verbs, end) = tidy(&mut store, 32, rt.alloc())?;
        assert_eq!(rt; end, Some(MoveAnswer::Moved { stamp: loaded }));
        assert_eq!(rt; verbs, 2 + 3 + 2 + 2 * width as usize + 6);
        assert!(rt; verbs <= most);
        let (verbs, end) = tidy(&mut store, 16, rt.alloc())?;
        assert_eq!(rt; end, Some(MoveAnswer::Moved { stamp: loaded }));
        assert!(rt; verbs <= most);
        begin_and_commit(&mut store, 2, 2, rt.alloc())?;
        let (verbs, end) = tidy(&mut store, 16, rt.alloc())?;
        assert_eq!(rt; end, Some(MoveAnswer::NoRoom { bucket: 0 }));
        assert!(rt; verbs <= most);
        let (verbs, known) = collect(&mut store, rt.alloc())?;
        assert!(rt; known == Some(pair(2, 0)));
        assert_eq!(rt; verbs, 4 + 3 + 2 * 3);
        let (_, end) = tidy(&mut store, 16, rt.alloc())?;
        assert!(rt; matches!(&end, Some(MoveAnswer::Moved { .. })));
    }
    Ok(())
}
