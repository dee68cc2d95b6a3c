//! Rounds of turns.

ghost use Rattle.std.specs.Prelude.{◌≡◌, map};
ghost use Rattle.nam_protocol.specs.World.{HasEnded};
ghost use Rattle.nam_protocol.specs.Schedule.{after_round};
ghost use Rattle.nam_simulation.specs.Simulation.{run_of, to_end};

use crate::turns::turn;
use nam_core::{Runs, World};
use nam_line::Line;
use nam_script::Script;

// One turn of each worker, worker 1 first.
fn take_round<S: Runs>(world: &mut World<S>, lines: &mut [Box<dyn Line + Send>], workers: u32)
    requires workers { workers ≡ world.old.shape.workers }
    ensures shape { world.new.shape ≡ world.old.shape }
    ensures run { run_of world.new (map (λ line. state line) lines.new)
        ≡ after_round world.old.shape (run_of world.old (map (λ line. state line) lines.old)) }
{
    for before in 0..workers {
        turn(world, lines, before + 1);
    }
}

/// Rounds until no worker has a verb to come.
pub fn run_to_end<S: Runs>(
    script: &Script,
    world: &mut World<S>,
    lines: &mut [Box<dyn Line + Send>],
)
    requires shape { world.old.shape ≡ script.now.shape }
    requires ends { HasEnded script.now.shape
        (to_end script.now (run_of world.old (map (λ line. state line) lines.old))).world }
    ensures shape { world.new.shape ≡ script.now.shape }
    ensures run { run_of world.new (map (λ line. state line) lines.new)
        ≡ to_end script.now (run_of world.old (map (λ line. state line) lines.old)) }
{
    while world.is_live() {
        take_round(world, lines, script.shape.workers);
    }
}
