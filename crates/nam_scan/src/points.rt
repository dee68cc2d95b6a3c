//! The points of a scan.

ghost use Rattle.std.specs.Prelude.{◌≡◌, ℕ, ◌<◌, ◌≤◌, length};
ghost use Rattle.nam_verbs.specs.Verb.{address_of};
ghost use Rattle.nam_verbs.specs.VerbAt.{verb_by};
ghost use Rattle.nam_catalog.specs.declared.shape.Shape.{Shape};
ghost use Rattle.nam_catalog.specs.Fits.{FitsLimits};
ghost use Rattle.nam_calls.specs.Words.{capacity_of};
ghost use Rattle.nam_calls.specs.Reading.{sight_of};
ghost use Rattle.nam_calls.specs.Fits.{SightFits, IsTableOf};
ghost use Rattle.nam_protocol.specs.Scan.{in_range, scan_begin, scan_read, scan_skip, scan_verb, scan_after};
ghost use Rattle.nam_protocol.specs.Scan.{scan_left, on_scan_read, position_of};
ghost use Rattle.nam_scan.specs.Reading.{sight_address, sight_end};
ghost use Rattle.nam_scan.specs.Scan.{ReadsIn, IsSightIn, position_whole};

use crate::range::ScanRange;
use crate::reading::{cells_whole, read_after, read_begin, read_left, read_verb, ring_whole};
use nam_calls::{ReadPoint, ReadingEnd, Sight};
use nam_catalog::bounds::MOST_WORKERS;
use nam_protocol::{ScanAnswer, ScanPoint};
use nam_verbs::{Now, Verb};
use si_model::{Item, Snapshot};

/// Where a scan begins: at the key word of the first position.
pub fn scan_begin() -> ScanPoint
    ensures { result ≡ scan_begin }
{
    ScanPoint::ScanKey { position: 0 }
}

/// The position is read, which bears this key.
pub fn scan_read(position: u32, key: u64) -> Now<ScanPoint, ScanAnswer>
    ensures { result ≡ scan_read position key }
{
    Now::At(ScanPoint::ScanRead {
        position,
        key,
        at: read_begin(),
    })
}

/// The position of a table with so many is left.
pub fn scan_skip(capacity: u32, position: u32) -> Now<ScanPoint, ScanAnswer>
    requires { position < capacity }
    ensures { (shape : Shape) (table : ℕ) → capacity ≡ capacity_of shape table
        → result ≡ scan_skip shape table position }
{
    if position + 1 == capacity {
        Now::Over(ScanAnswer::Done)
    } else {
        Now::At(ScanPoint::ScanKey {
            position: position + 1,
        })
    }
}

/// The verb that stands at a point.
pub fn scan_verb(sight: &Sight, at: &ScanPoint) -> Verb
    requires fits { SightFits sight.now }
    requires at { ReadsIn sight.now at.now }
    ensures value { (shape : Shape) (table : ℕ) → sight.now ≡ sight_of shape table (position_of at.now)
        → result ≡ verb_by (sight_address sight.now) (scan_verb shape table at.now) }
    ensures within { address_of result < sight_end sight.now }
{
    match at {
        ScanPoint::ScanKey { .. } => Verb::Read {
            at: sight.place.key_at,
        },
        ScanPoint::ScanRead { at, .. } => read_verb(sight, at),
    }
}

fn in_range(range: &ScanRange, word: u64) -> bool
    ensures { result ≡ in_range range.now.low range.now.high word }
{
    range.low < word && word - 1 <= range.high
}

fn on_scan_read(
    table: u32,
    position: u32,
    key: u64,
    now: Now<ReadPoint, ReadingEnd>,
) -> Now<ScanPoint, ScanAnswer>
    ensures { result ≡ on_scan_read table position key now }
{
    match now {
        Now::At(at) => Now::At(ScanPoint::ScanRead { position, key, at }),
        Now::Over(ReadingEnd::Got(value)) => Now::Over(ScanAnswer::Row(Item { table, key, value })),
        Now::Over(
            ReadingEnd::Passed {
                worker,
                entry,
                horizon,
            },
        ) => Now::Over(ScanAnswer::TooOld {
            worker,
            entry,
            horizon,
        }),
        Now::Over(ReadingEnd::Astray) => Now::Over(ScanAnswer::Astray),
    }
}

/// What follows the word that the verb of a point found.
pub fn scan_after(
    range: &ScanRange,
    sight: &Sight,
    seen: &Snapshot,
    at: ScanPoint,
    found: u64,
) -> Now<ScanPoint, ScanAnswer>
    requires fits { SightFits sight.now }
    requires seen { length seen.now ≡ sight.now.workers }
    requires position { position_of at < range.now.capacity }
    requires at { ReadsIn sight.now at }
    ensures { (shape : Shape) → IsSightIn shape range.now sight.now (position_of at)
        → result ≡ scan_after shape range.now.table range.now.low range.now.high seen.now at found }
{
    match at {
        ScanPoint::ScanKey { position } => {
            if in_range(range, found) {
                Now::Over(ScanAnswer::Key { key: found - 1 })
            } else {
                scan_skip(range.capacity, position)
            }
        }
        ScanPoint::ScanRead { position, key, at } => {
            on_scan_read(
                range.table,
                position,
                key,
                read_after(sight, seen, at, found),
            )
        }
    }
}

// The key word of a position and a whole read there.
fn position_whole(sight: &Sight) -> u64
    requires fits { SightFits sight.now }
    requires workers { sight.now.workers ≤ MOST_WORKERS }
    ensures value { result ≡ position_whole sight.now }
    ensures few { result < 4096 }
{
    let ring = ring_whole(&sight.place);
    let cells = cells_whole(sight);
    5 + sight.place.width as u64 + ring + ring + cells + sight.workers as u64
}

/// A number of verbs that are to come from a point at the most, where its caller leaves each key of the range or reads
/// there.
pub fn scan_left(capacity: u32, sight: &Sight, at: &ScanPoint) -> u64
    requires fits { SightFits sight.now }
    requires workers { sight.now.workers ≤ MOST_WORKERS }
    requires position { position_of at.now < capacity }
    requires at { ReadsIn sight.now at.now }
    ensures { (shape : Shape) (table : ℕ) → FitsLimits shape → IsTableOf shape table
        → capacity ≡ capacity_of shape table → sight.now ≡ sight_of shape table (position_of at.now)
        → result ≡ scan_left shape table at.now }
{
    let whole = position_whole(sight);
    match at {
        ScanPoint::ScanKey { position } => (capacity - *position) as u64 * whole,
        ScanPoint::ScanRead { position, at, .. } => {
            read_left(sight, at) + (capacity - *position - 1) as u64 * whole
        }
    }
}
