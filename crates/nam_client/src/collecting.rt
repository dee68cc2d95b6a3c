//! Collections: a snapshot is taken, the horizon is raised to it, and the bucket's cells below are freed.

ghost use Rattle.std.specs.Prelude.{◌≡◌, ◌<◌, ◌≤◌, ◌-◌, IsSome, true, false};
ghost use Rattle.nam_verbs.specs.declared.now.Now.TheVariants.{Over};
ghost use Rattle.nam_verbs.specs.Running.{next_verb};
ghost use Rattle.nam_catalog.specs.declared.shape.Shape.{Shape};
ghost use Rattle.nam_vector.specs.Snap.{running as snap_running};
ghost use Rattle.nam_vector.specs.declared.snap.SnapEnd.TheVariants.{Done};
ghost use Rattle.nam_upkeep.specs.Collector.{running};
ghost use Rattle.nam_protocol.specs.declared.client.Call.TheVariants.{Collect};
ghost use Rattle.nam_protocol.specs.Client.{client_ask, client_after};
ghost use Rattle.nam_protocol.specs.Own.{MayAsk};
ghost use Rattle.si_model.specs.declared.log.Event.TheVariants.{Collected};
ghost use Rattle.nam_client.specs.declared.registers.Step.TheVariants as step;
ghost use Rattle.nam_client.specs.Registers.{client_of, call_of, seen_in, listed, collecting};
ghost use Rattle.nam_client.specs.Room.{HasRoom, StepHolds};
ghost use Rattle.nam_client.specs.Fits.{IsClientOf, HandFits};

use crate::beginning::{prefix_of, workers_of};
use crate::registers::{Registers, Step};
use nam_layout::Layout;
use nam_upkeep::SnapperEnd;
use si_model::Event;

/// Asks for the collection of a bucket.
pub fn collect(a: &mut Registers, layout: &Layout, bucket: u32)
    requires of { IsClientOf layout.now a.old }
    requires may { MayAsk layout.now (client_of a.old) (Collect bucket) }
    requires room { HasRoom a.old }
    requires spare { 1 ≤ a.old.spare.tidies }
    ensures client { client_of a.new ≡ client_ask layout.now (client_of a.old) (Collect bucket) }
    ensures spare { a.new.spare ≡ record a.old.spare { tidies = a.old.spare.tidies - 1 } }
    ensures hand { HandFits layout.now a.new (call_of a.new.step a.new) }
    ensures room { HasRoom a.new }
    ensures closed { a.new.is_open ≡ false }
    ensures at { StepHolds a.new.step a.new }
{
    a.spare.tidies -= 1;
    let workers = workers_of(layout, a.worker);
    a.snapper.begin(workers);
    a.to_follow = 2 * workers as u64 + 3 * layout.cells(bucket).cells as u64;
    a.step = Step::Snapping { bucket };
}

/// Goes on with a word of the snapshot.
#[inline]
pub fn take_snap(a: &mut Registers, layout: &Layout, bucket: u32, found: u64)
    requires step { a.old.step ≡ step.Snapping bucket }
    requires stands { IsSome (next_verb (snap_running a.old.snapper)) }
    requires hand { HandFits layout.now a.old (call_of a.old.step a.old) }
    requires workers { a.old.snapper.workers ≡ layout.now.workers }
    requires bucket { bucket < layout.now.buckets }
    requires at { StepHolds a.old.step a.old }
    requires closed { a.old.is_open ≡ false }
    requires room { HasRoom a.old }
    ensures client { client_of a.new ≡ client_after layout.now (client_of a.old) found }
    ensures spare { a.new.spare ≡ a.old.spare }
    ensures hand { HandFits layout.now a.new (call_of a.new.step a.new) }
    ensures room { HasRoom a.new }
    ensures closed { a.new.is_open ≡ false }
    ensures at { StepHolds a.new.step a.new }
{
    a.snapper.take(found);
    match a.snapper.end() {
        None => {}
        Some(SnapperEnd::Done) => begin_collect(a, layout, bucket),
        Some(
            SnapperEnd::Again {
                worker,
                first,
                second,
            },
        ) => a.log.list_event(Event::CollectAgain {
            bucket,
            worker,
            first,
            second,
        }),
    }
}

/// The snapshot was taken.
#[inline(never)]
fn begin_collect(a: &mut Registers, layout: &Layout, bucket: u32)
    requires done { a.old.snapper.state ≡ Over (Done (seen_in a.old.snapper.state)) }
    requires workers { a.old.snapper.workers ≡ layout.now.workers }
    requires bucket { bucket < layout.now.buckets }
    requires snaps { 0 < a.old.log.room.snaps }
    ensures { a.new ≡ collecting layout.now a.old bucket }
{
    // A layout's total says that the shape is within its limits.
    let _words = layout.total();
    let seen = a.snapper.seen();
    a.log.list_snap(seen);
    a.collector.begin(&layout.cells(bucket), seen.len() as u32);
    a.step = Step::Collecting {
        bucket,
        prefix: prefix_of(a.start, seen.as_slice()),
    };
}

/// Goes on with a word of the collection.
#[inline]
pub fn take_collect(a: &mut Registers, bucket: u32, prefix: u64, found: u64)
    requires step { a.old.step ≡ step.Collecting bucket prefix }
    requires at { StepHolds a.old.step a.old }
    requires stands { IsSome (next_verb (running (seen_in a.old.snapper.state) a.old.collector)) }
    requires closed { a.old.is_open ≡ false }
    requires room { HasRoom a.old }
    ensures client { (shape : Shape) → HandFits shape a.old (call_of a.old.step a.old)
        → client_of a.new ≡ client_after shape (client_of a.old) found }
    ensures spare { a.new.spare ≡ a.old.spare }
    ensures hand { (shape : Shape) → HandFits shape a.old (call_of a.old.step a.old)
        → HandFits shape a.new (call_of a.new.step a.new) }
    ensures room { HasRoom a.new }
    ensures closed { a.new.is_open ≡ false }
    ensures at { StepHolds a.new.step a.new }
{
    a.collector.take(a.snapper.seen(), found);
    if a.collector.is_over() {
        list_collect(a, bucket, prefix, false);
    }
}

/// Lists a collection on the snapshot that was taken.
#[inline(never)]
pub fn list_collect(a: &mut Registers, bucket: u32, prefix: u64, cut: bool)
    requires done { a.old.snapper.state ≡ Over (Done (seen_in a.old.snapper.state)) }
    requires room { 0 < a.old.log.room.events }
    ensures { a.new ≡ listed a.old (Collected bucket prefix (seen_in a.old.snapper.state) cut) }
{
    a.log.list_event(Event::Collected {
        bucket,
        prefix,
        entries: a.snapper.seen().copy(),
        cut,
    });
}
