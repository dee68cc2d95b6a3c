//! A commit of puts, machine after machine.

ghost use Rattle.std.specs.Prelude.{◌≡◌, ◌≤◌, ◌<◌, ◌^◌, All, length};
ghost use Rattle.nam_layout.specs.PlaceFits.{FitsPlace};

use lists::ShortList;
use nam_catalog::Form;
use nam_header::version_word;
use nam_layout::Place;
use nam_lock::{LockAll, LockEnd};
use nam_record::{Install, ReadWords};
use nam_ring::{CheckSlot, CopyOld, SlotEnd};
use nam_trial::PlainStore;
use nam_vector::Publish;
use nam_verbs::Machine;
use si_model::{Snapshot, Stamp};
use std::alloc::{AllocError, Global};

/// Records to each of which the first worker writes what is there, under its next number.
#[derive(Drop)]
pub struct Puts {
    pub places: ShortList<Place, 16>,
    pub seen: Snapshot,
    pub number: u64,
}

// The verbs by which a slot is found free, and the number of the version that goes there.
fn check(
    store: &mut PlainStore,
    place: Place,
    alloc: Global,
) -> Result<Option<(usize, u64)>, AllocError>
    requires { FitsPlace place }
{
    let mut check = CheckSlot::new(place);
    let verbs = store.run(alloc, &mut check)?;
    match check.end() {
        Some(SlotEnd::Free { count }) => Ok(Some((verbs.len(), count))),
        _ => Ok(None),
    }
}

// The verbs by which the current version is copied into its slot, and the next one is installed.
fn put(
    store: &mut PlainStore,
    place: Place,
    puts: &Puts,
    count: u64,
    header: u64,
    alloc: Global,
) -> Result<Option<usize>, AllocError>
    requires place { FitsPlace place }
    requires number { puts.now.number < 2 ^ 32 }
{
    let mut read = ReadWords::new(place);
    let reads = store.run(alloc, &mut read)?.len();
    let old = match read.end() {
        Some(old) => old,
        None => return Ok(None),
    };
    let next = Stamp {
        thread: 1,
        number: puts.number,
    };
    if old.len() != place.width as usize || place.form != Form::Narrow {
        return Ok(None);
    }
    let value = old.copy();
    let mut copy = CopyOld::new(place, count, header, old, next);
    let copies = store.run(alloc, &mut copy)?.len();
    let word = version_word(place.form, next, false);
    let mut install = Install::new(place, Some(value), count, word);
    let installs = store.run(alloc, &mut install)?.len();
    Ok(Some(reads.saturating_add(copies).saturating_add(installs)))
}

/// How many verbs the commit takes, where it is done.
pub fn commit(
    store: &mut PlainStore,
    puts: &Puts,
    alloc: Global,
) -> Result<Option<usize>, AllocError>
    requires places { All FitsPlace puts.now.places }
    requires number { puts.now.number < 2 ^ 32 }
{
    let places = puts.places.as_slice();
    let mut lock = LockAll::new(1, puts.places.copy(), puts.seen.copy());
    let mut total = store.run(alloc, &mut lock)?.len();
    let headers = match lock.end() {
        Some(LockEnd::Held(headers)) => headers,
        _ => return Ok(None),
    };
    let mut counts: ShortList<u64, 16> = ShortList::new();
    for place in places {
        match check(store, *place, alloc)? {
            Some((verbs, count)) if counts.len() < 16 => {
                total = total.saturating_add(verbs);
                counts.push(count);
            }
            _ => return Ok(None),
        }
    }
    let records = places.iter().zip(counts.as_slice()).zip(headers.as_slice());
    for ((place, count), header) in records {
        match put(store, *place, puts, *count, *header, alloc)? {
            Some(verbs) => total = total.saturating_add(verbs),
            None => return Ok(None),
        }
    }
    let mut publish = Publish::new(1, puts.number);
    let verbs = store.run(alloc, &mut publish)?.len();
    Ok(Some(total.saturating_add(verbs)))
}
