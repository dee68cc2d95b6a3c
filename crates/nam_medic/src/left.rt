//! How many verbs are to come.

ghost use Rattle.std.specs.Prelude.{◌≡◌, ◌<◌, ◌≤◌, length};
ghost use Rattle.nam_calls.specs.MedicFits.{MedicFits, IsRecordOf, GuardFits};
ghost use Rattle.nam_calls.specs.MedicLeft.{medic_left, walk_left, undo_left, guards_left};
ghost use Rattle.nam_catalog.specs.declared.bounds.TheConstants.{MOST_KEYS};

use crate::words::place_at;
use lists::ShortList;
use nam_calls::{MedicPoint, Walk};
use nam_catalog::bounds::{MOST_KEYS, MOST_WIDTH};
use nam_layout::Layout;
use nam_record::{install_left, words_left};
use nam_ring::copy_left;

// The verbs of a record at the most.
const RECORD_MOST: u64 = 4 * MOST_WIDTH as u64 + 10;

fn walk_left(walk: &Walk) -> u64
    requires record { IsRecordOf walk.now.records walk.now.nth }
    requires guards { length walk.now.guards ≤ MOST_KEYS }
    ensures { result ≡ walk_left walk.now }
{
    (walk.records - walk.nth - 1) as u64 * RECORD_MOST + 4 * walk.guards.len() as u64 + 2
}

fn undo_left(records: u32, nth: u32) -> u64
    requires { IsRecordOf records nth }
    ensures { result ≡ undo_left records nth }
{
    3 * (records - nth - 1) as u64 + 1
}

fn guards_left(guards: &ShortList<u32, 16>, passed: u32) -> u64
    requires { passed < length guards.now }
    ensures { result ≡ guards_left guards.now passed }
{
    4 * (guards.len() as u64 - passed as u64 - 1) + 1
}

/// A number of verbs that are to come from a point at the most.
pub fn medic_left(layout: &Layout, at: &MedicPoint) -> u64
    requires at { MedicFits layout.now at.now }
    ensures { result ≡ medic_left layout.now at.now }
{
    match at {
        MedicPoint::MedicState => MOST_KEYS as u64 * RECORD_MOST + 4,
        MedicPoint::UndoRow { records, nth } => undo_left(*records, *nth) + 3,
        MedicPoint::UndoHead { records, nth, .. } => undo_left(*records, *nth) + 2,
        MedicPoint::UndoBack { records, nth, .. } => undo_left(*records, *nth) + 1,
        MedicPoint::UndoClear | MedicPoint::RollClear => 1,
        MedicPoint::RollNumber { records } => *records as u64 * RECORD_MOST + 3,
        MedicPoint::RollRow { walk } => walk_left(walk) + RECORD_MOST,
        MedicPoint::RollKind { walk, .. } => walk_left(walk) + RECORD_MOST - 1,
        MedicPoint::RollCount { walk, row, .. } => {
            walk_left(walk) + 4 * place_at(layout, *row).width as u64 + 8
        }
        MedicPoint::RollData { walk, row, got, .. } => {
            let place = place_at(layout, *row);
            walk_left(walk) + words_left(&place, got) + 3 * place.width as u64 + 7
        }
        MedicPoint::RollHead { walk, next } => {
            walk_left(walk) + 3 * place_at(layout, next.row).width as u64 + 7
        }
        MedicPoint::RollSlot { walk, next, .. } => {
            walk_left(walk) + 3 * place_at(layout, next.row).width as u64 + 6
        }
        MedicPoint::RollOld {
            walk,
            next,
            got,
            ..
        } => {
            let place = place_at(layout, next.row);
            walk_left(walk) + words_left(&place, got) + 2 * place.width as u64 + 5
        }
        MedicPoint::RollCopy { walk, next, at, .. } => {
            let place = place_at(layout, next.row);
            walk_left(walk) + copy_left(&place, at) + place.width as u64 + 2
        }
        MedicPoint::RollInstall { walk, next, at } => {
            walk_left(walk) + install_left(&place_at(layout, next.row), at)
        }
        MedicPoint::RollEntry { guards, .. } => 4 * guards.len() as u64 + 2,
        MedicPoint::GuardRow { guards, passed } => guards_left(guards, *passed) + 4,
        MedicPoint::GuardKind { guards, passed, .. } => guards_left(guards, *passed) + 3,
        MedicPoint::GuardHead { guards, passed, .. } => guards_left(guards, *passed) + 2,
        MedicPoint::GuardBack { guards, passed, .. } => guards_left(guards, *passed) + 1,
    }
}
