//! The turns of a script's schedule.

ghost use Rattle.std.specs.Prelude.{◌≡◌, ◌≤◌, map, replicate};
ghost use Rattle.nam_protocol.specs.Schedule.{after_workers, stint_workers, picked, scheduled};
ghost use Rattle.nam_scenario.specs.Scenario.{schedule_of};
ghost use Rattle.nam_simulation.specs.Simulation.{run_of, stints_of};

use crate::turns::turn;
use nam_core::{Runs, World};
use nam_line::Line;
use nam_script::{Stint, Turns};
use si_model::{next_state, pick};

// Turns of one worker, one after another.
fn take_stint<S: Runs>(world: &mut World<S>, lines: &mut [Box<dyn Line + Send>], stint: Stint)
    ensures shape { world.new.shape ≡ world.old.shape }
    ensures run { run_of world.new (map (λ line. state line) lines.new)
        ≡ after_workers world.old.shape (run_of world.old (map (λ line. state line) lines.old))
        (replicate stint.steps stint.worker) }
{
    for _step in 0..stint.steps {
        turn(world, lines, stint.worker);
    }
}

// The turns of all stints.
fn take_stints<S: Runs>(world: &mut World<S>, lines: &mut [Box<dyn Line + Send>], stints: &[Stint])
    ensures shape { world.new.shape ≡ world.old.shape }
    ensures run { run_of world.new (map (λ line. state line) lines.new)
        ≡ after_workers world.old.shape (run_of world.old (map (λ line. state line) lines.old))
        (stint_workers (stints_of stints.now)) }
{
    for stint in stints {
        take_stint(world, lines, *stint);
    }
}

// So many turns, each of a worker that is picked from the seed on.
fn take_picks<S: Runs>(
    world: &mut World<S>,
    lines: &mut [Box<dyn Line + Send>],
    workers: u32,
    seed: u64,
    picks: u32,
)
    requires some { 1 ≤ workers }
    ensures shape { world.new.shape ≡ world.old.shape }
    ensures run { run_of world.new (map (λ line. state line) lines.new)
        ≡ after_workers world.old.shape (run_of world.old (map (λ line. state line) lines.old))
        (picked workers seed picks) }
{
    let mut generator = seed;
    for _nth in 0..picks {
        generator = next_state(generator);
        turn(world, lines, 1 + pick(generator, workers as u64) as u32);
    }
}

/// The turns of a schedule, before the rounds.
pub fn take_turns<S: Runs>(
    world: &mut World<S>,
    lines: &mut [Box<dyn Line + Send>],
    workers: u32,
    turns: &Turns,
)
    requires some { 1 ≤ workers }
    requires workers { workers ≡ world.old.shape.workers }
    ensures shape { world.new.shape ≡ world.old.shape }
    ensures run { run_of world.new (map (λ line. state line) lines.new)
        ≡ after_workers world.old.shape (run_of world.old (map (λ line. state line) lines.old))
        (scheduled world.old.shape (schedule_of turns.now)) }
{
    match turns {
        Turns::List(stints) => take_stints(world, lines, stints.as_slice()),
        Turns::Seed { seed, picks } => take_picks(world, lines, workers, *seed, *picks),
    }
}
