//! The points of a move.

ghost use Rattle.std.specs.Prelude.{◌≡◌, ◌<◌, ◌≤◌, IsSome, if◌then◌else◌};
ghost use Rattle.nam_verbs.specs.Verb.{address_of};
ghost use Rattle.nam_verbs.specs.VerbAt.{verb_by};
ghost use Rattle.nam_layout.specs.Place.{known_address, place_end, cells_end, later};
ghost use Rattle.nam_layout.specs.PlaceFits.{FitsPlace, FitsCells};
ghost use Rattle.nam_calls.specs.declared.mover.MovePoint.TheVariants.{MoveFull, MoveBack};
ghost use Rattle.nam_calls.specs.Mover.{move_begin, move_verb, move_after, move_left, move_claimed, on_claim, on_fill};
ghost use Rattle.nam_calls.specs.Fits.{MoveFits};

use nam_calls::{ClaimEnd, ClaimPoint, FillPoint, MoveAnswer, MovePoint, Version};
use nam_header::{Tag, is_moved, stamp_in, with_moved, without_moved};
use nam_layout::{Cells, Place};
use nam_overflow::{
    claim_after, claim_begin, claim_left, claim_verb, fill_after, fill_begin, fill_left, fill_verb,
};
use nam_verbs::{Now, Verb};
use si_model::{Stamp, Value};

/// Where a move begins: at the number of the current version.
pub fn move_begin() -> MovePoint
    ensures { result ≡ move_begin }
{
    MovePoint::MoveCount
}

/// The verb that stands at a point.
pub fn move_verb(place: &Place, cells: &Cells, at: &MovePoint) -> Verb
    requires place { FitsPlace place.now }
    requires cells { FitsCells cells.now }
    requires at { MoveFits place.now cells.now at.now }
    ensures value { result ≡ verb_by (known_address place.now cells.now 0) (move_verb place.now cells.now at.now) }
    ensures within { address_of result < later (place_end place.now) (cells_end cells.now) }
{
    match at {
        MovePoint::MoveCount => Verb::Read { at: place.count_at },
        MovePoint::MoveHead { slot } => Verb::Read {
            at: place.slot_header(*slot),
        },
        MovePoint::MoveEnding { slot, .. } => Verb::Read {
            at: place.slot_end(*slot),
        },
        MovePoint::MoveClaim { at, .. } => claim_verb(cells, at),
        MovePoint::MoveWords { slot, got, .. } => Verb::Read {
            at: place.slot_word(*slot, got.len() as u32),
        },
        MovePoint::MoveFill {
            cell,
            version,
            at,
            ..
        } => fill_verb(cells, *cell, place.row, version, at),
        MovePoint::MoveAgain { slot, .. } => Verb::Read {
            at: place.slot_header(*slot),
        },
        MovePoint::MoveFull { cell, tag, .. } => Verb::Write {
            at: cells.tag(*cell),
            word: Tag(*tag).full().0,
        },
        MovePoint::MoveFlag { slot, header } => Verb::Exchange {
            at: place.slot_header(*slot),
            expect: *header,
            word: with_moved(*header),
        },
        MovePoint::MoveBack { cell, tag, .. } => Verb::Write {
            at: cells.tag(*cell),
            word: Tag(*tag).freed().0,
        },
    }
}

// Once a cell is claimed, the slot's words are read.
fn on_claim(
    cells: &Cells,
    slot: u32,
    header: u64,
    ending: u64,
    now: Now<ClaimPoint, ClaimEnd>,
) -> Now<MovePoint, MoveAnswer>
    ensures { result ≡ on_claim cells.now slot header ending now }
{
    match now {
        Now::At(at) => Now::At(MovePoint::MoveClaim {
            slot,
            header,
            ending,
            at,
        }),
        Now::Over(ClaimEnd::Claimed { cell, tag }) => Now::At(MovePoint::MoveWords {
            slot,
            header,
            ending,
            cell,
            tag,
            got: Value::new(),
        }),
        Now::Over(ClaimEnd::NoRoom) => Now::Over(MoveAnswer::NoRoom {
            bucket: cells.bucket,
        }),
    }
}

// Once the cell is filled, the slot's header is read again.
fn on_fill(
    slot: u32,
    header: u64,
    cell: u32,
    tag: u64,
    version: Version,
    now: Now<FillPoint, ()>,
) -> Now<MovePoint, MoveAnswer>
    ensures { result ≡ on_fill slot header cell tag version now }
{
    match now {
        Now::At(at) => Now::At(MovePoint::MoveFill {
            slot,
            header,
            cell,
            tag,
            version,
            at,
        }),
        Now::Over(()) => Now::At(MovePoint::MoveAgain {
            slot,
            header,
            cell,
            tag,
        }),
    }
}

// The cell is said to be full where the slot's header is the same, and else is given back: another worker has moved the
// version, and the words that were read may be those of the slot's next one.
fn after_look(slot: u32, header: u64, cell: u32, tag: u64, same: bool) -> MovePoint
    ensures { result ≡ (if same then MoveFull slot header cell tag else MoveBack header cell tag) }
{
    if same {
        MovePoint::MoveFull {
            slot,
            header,
            cell,
            tag,
        }
    } else {
        MovePoint::MoveBack { header, cell, tag }
    }
}

/// What follows the word that the verb of a point found.
pub fn move_after(
    place: &Place,
    cells: &Cells,
    at: MovePoint,
    found: u64,
) -> Now<MovePoint, MoveAnswer>
    requires place { FitsPlace place.now }
    requires cells { FitsCells cells.now }
    requires at { MoveFits place.now cells.now at }
    ensures { result ≡ move_after place.now cells.now at found }
{
    match at {
        MovePoint::MoveCount => {
            let slot = place.slot_of(found);
            Now::At(MovePoint::MoveHead { slot })
        }
        MovePoint::MoveHead { slot } => {
            if is_moved(place.form, found) {
                return Now::Over(MoveAnswer::Nothing);
            }
            let header = found;
            Now::At(MovePoint::MoveEnding { slot, header })
        }
        MovePoint::MoveEnding { slot, header } => {
            on_claim(cells, slot, header, found, Now::At(claim_begin()))
        }
        MovePoint::MoveClaim {
            slot,
            header,
            ending,
            at,
        } => on_claim(cells, slot, header, ending, claim_after(cells, at, found)),
        claimed => after_claim(place, cells, claimed, found),
    }
}

// The same at the points where a cell is claimed.
fn after_claim(
    place: &Place,
    cells: &Cells,
    at: MovePoint,
    found: u64,
) -> Now<MovePoint, MoveAnswer>
    requires place { FitsPlace place.now }
    requires at { MoveFits place.now cells.now at }
    requires claimed { IsSome (move_claimed place.now at) }
    ensures { result ≡ move_after place.now cells.now at found }
{
    match at {
        MovePoint::MoveWords {
            slot,
            header,
            ending,
            cell,
            tag,
            mut got,
        } => {
            got.push(found);
            if got.len() != place.width as usize {
                return Now::At(MovePoint::MoveWords {
                    slot,
                    header,
                    ending,
                    cell,
                    tag,
                    got,
                });
            }
            let version = Version {
                begin: without_moved(place.form, header),
                end: ending,
                value: got,
            };
            on_fill(slot, header, cell, tag, version, Now::At(fill_begin()))
        }
        MovePoint::MoveFill {
            slot,
            header,
            cell,
            tag,
            version,
            at,
        } => {
            let now = fill_after(place.width, at);
            on_fill(slot, header, cell, tag, version, now)
        }
        copied => after_copy(place, cells, copied, found),
    }
}

// The same once the cell is filled: no more than three verbs are to come.
fn after_copy(place: &Place, cells: &Cells, at: MovePoint, found: u64) -> Now<MovePoint, MoveAnswer>
    requires at { MoveFits place.now cells.now at }
    requires few { move_left place.now cells.now at ≤ 3 }
    ensures { result ≡ move_after place.now cells.now at found }
{
    match at {
        MovePoint::MoveAgain {
            slot,
            header,
            cell,
            tag,
        } => Now::At(after_look(slot, header, cell, tag, found == header)),
        // The cell is full before the flag is set: from then on the slot may be overwritten.
        MovePoint::MoveFull { slot, header, .. } => Now::At(MovePoint::MoveFlag { slot, header }),
        // Where the exchange was lost, another worker has moved the version.
        MovePoint::MoveFlag { header, .. } => Now::Over(MoveAnswer::Moved {
            stamp: stamp_in(place.form, header),
        }),
        MovePoint::MoveBack { header, .. } => Now::Over(MoveAnswer::Back {
            stamp: stamp_in(place.form, header),
        }),
        _ => unreachable!(),
    }
}

/// The stamp of the version for which a cell was claimed, and none before one was.
pub fn move_claimed(place: &Place, at: &MovePoint) -> Option<Stamp>
    ensures { result ≡ move_claimed place.now at.now }
{
    match at {
        MovePoint::MoveCount
        | MovePoint::MoveHead { .. }
        | MovePoint::MoveEnding { .. }
        | MovePoint::MoveClaim { .. } => None,
        MovePoint::MoveWords { header, .. }
        | MovePoint::MoveFill { header, .. }
        | MovePoint::MoveAgain { header, .. }
        | MovePoint::MoveFull { header, .. }
        | MovePoint::MoveFlag { header, .. }
        | MovePoint::MoveBack { header, .. } => Some(stamp_in(place.form, *header)),
    }
}

/// A number of verbs that are to come from a point at the most.
pub fn move_left(place: &Place, cells: &Cells, at: &MovePoint) -> u64
    requires place { FitsPlace place.now }
    requires cells { FitsCells cells.now }
    requires at { MoveFits place.now cells.now at.now }
    ensures { result ≡ move_left place.now cells.now at.now }
{
    let width = place.width as u64;
    let claim = 2 * cells.cells as u64;
    match at {
        MovePoint::MoveCount => claim + 2 * width + 9,
        MovePoint::MoveHead { .. } => claim + 2 * width + 8,
        MovePoint::MoveEnding { .. } => claim + 2 * width + 7,
        MovePoint::MoveClaim { at, .. } => claim_left(cells, at) + 2 * width + 6,
        MovePoint::MoveWords { got, .. } => width - got.len() as u64 + width + 6,
        MovePoint::MoveFill { at, .. } => fill_left(place.width, at) + 3,
        MovePoint::MoveAgain { .. } => 3,
        MovePoint::MoveFull { .. } => 2,
        MovePoint::MoveFlag { .. } | MovePoint::MoveBack { .. } => 1,
    }
}
