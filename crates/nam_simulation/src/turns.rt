//! One turn of a worker in a simulated run.

ghost use Rattle.std.specs.Prelude.{◌≡◌, ◌-◌, map, slice_get};
ghost use Rattle.nam_line.specs.Plan.{asked_once, refuses_next};
ghost use Rattle.nam_protocol.specs.Schedule.{turn_of};
ghost use Rattle.nam_simulation.specs.Simulation.{run_of, refused_by, after_asking};

use nam_core::{Runs, World};
use nam_line::Line;
use nam_verbs::Verb;

// Asks a line to pass a verb: whether it refuses.
fn refuses(line: &mut Box<dyn Line + Send>, verb: Verb) -> bool
    ensures refuses { result ≡ refuses_next (state line.old) }
    ensures asked { state line.new ≡ asked_once (state line.old) }
{
    line.pass(verb).is_err()
}

// Asks the worker's line to pass a verb: whether it refuses. A worker without a line is never refused.
fn is_refused(lines: &mut [Box<dyn Line + Send>], worker: u32, verb: Verb) -> bool
    ensures refused { result ≡ refused_by (slice_get (map (λ line. state line) lines.old) (worker - 1)) }
    ensures asked { map (λ line. state line) lines.new
        ≡ after_asking (map (λ line. state line) lines.old) worker }
{
    let place = worker.saturating_sub(1) as usize;
    if place < lines.len() {
        return refuses(&mut lines[place], verb);
    }
    false
}

/// The worker's turn. A worker that was not stopped asks its line to pass its next verb: the verb is done, or the
/// worker is stopped before it. A worker that was stopped asks no more, and does what is left to it.
pub fn turn<S: Runs>(world: &mut World<S>, lines: &mut [Box<dyn Line + Send>], worker: u32)
    ensures shape { world.new.shape ≡ world.old.shape }
    ensures run { run_of world.new (map (λ line. state line) lines.new)
        ≡ turn_of world.old.shape (run_of world.old (map (λ line. state line) lines.old)) worker }
{
    let Some(verb) = world.verb(worker) else {
        return;
    };
    if world.is_cut(worker) {
        world.step(worker);
        return;
    }
    if is_refused(lines, worker, verb) {
        world.cut(worker);
        return;
    }
    world.step(worker);
}
