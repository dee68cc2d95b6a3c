//! A tidying and a collection, machine after machine.

use nam_horizon::Collect;
use nam_index::{Find, FindEnd};
use nam_mover::{Move, MoveAnswer};
use nam_trial::PlainStore;
use nam_vector::{Snap, SnapEnd};
use nam_verbs::Machine;
use si_model::Snapshot;
use std::alloc::{AllocError, Global};

/// How many verbs the tidying of a key of the first table takes, and how it ends.
pub fn tidy(
    store: &mut PlainStore,
    key: u32,
    alloc: Global,
) -> Result<(usize, Option<MoveAnswer>), AllocError> {
    let mut find = Find::new(store.layout(), 0, key as u64);
    let found = store.run(alloc, &mut find)?.len();
    let place = match find.end() {
        Some(FindEnd::At(position)) => store.place(0, position),
        _ => return Ok((found, Some(MoveAnswer::Nothing))),
    };
    match (place, store.cells(0)) {
        (Some(place), Some(cells)) => {
            let mut moves = Move::new(place, cells);
            let moved = store.run(alloc, &mut moves)?.len();
            Ok((found.saturating_add(moved), moves.end()))
        }
        _ => Ok((found, None)),
    }
}

/// How many verbs the collection of the bucket takes, and the horizon that it knows.
pub fn collect(
    store: &mut PlainStore,
    alloc: Global,
) -> Result<(usize, Option<Snapshot>), AllocError> {
    let mut snap = Snap::new(2);
    let begun = store.run(alloc, &mut snap)?.len();
    match (snap.end(), store.cells(0)) {
        (Some(SnapEnd::Done(seen)), Some(cells)) if seen.len() == 2 => {
            let mut collect = Collect::new(cells, 2, seen);
            let collected = store.run(alloc, &mut collect)?.len();
            Ok((begun.saturating_add(collected), collect.end()))
        }
        _ => Ok((begun, None)),
    }
}
