//! The calls on the vector, on words that nobody else changes.

ghost use Rattle.std.specs.Prelude.{◌≡◌, ◌-◌, ◌≤◌, length, slice_set, take};

use crate::publish::Publish;
use crate::snap::{Snap, SnapEnd};
use nam_verbs::{Machine, Region, drive};
use si_model::Snapshot;

/// The entries of workers 1 to `workers`.
pub fn take_snapshot<R: Region>(region: &mut R, workers: u32) -> Snapshot
    requires least { 1 ≤ workers }
    requires most { workers ≤ 16 }
    requires within { workers ≤ length (R.words region.old) }
    ensures entries { result ≡ take workers (R.words region.old) }
    ensures unchanged { R.words region.new ≡ R.words region.old }
{
    let mut snap = Snap::new(workers);
    drive(region, &mut snap);
    match snap.end() {
        Some(SnapEnd::Done(seen)) => seen,
        Some(SnapEnd::Again { .. }) => unreachable!(),
        None => unreachable!(),
    }
}

/// Writes the entry of `worker`.
pub fn publish_number<R: Region>(region: &mut R, worker: u32, number: u64)
    requires least { 1 ≤ worker }
    requires most { worker ≤ 16 }
    requires within { worker ≤ length (R.words region.old) }
    ensures { R.words region.new ≡ slice_set (R.words region.old) (worker - 1) number }
{
    let mut publish = Publish::new(worker, number);
    drive(region, &mut publish);
}
