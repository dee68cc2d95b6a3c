//! The simulated run of a script: its workers take turns over one world, and each verb is asked of the worker's line.

ghost use Rattle.std.specs.Prelude.{◌≡◌, map, IfOk};
ghost use Rattle.nam_script.specs.Limits.{IsScript};
ghost use Rattle.nam_protocol.specs.Schedule.{Simulated};
ghost use Rattle.nam_scenario.specs.Scenario.{scenario_of};
ghost use Rattle.nam_simulation.specs.Simulation.{run_of, IsOpened};
ghost use Rattle.nam_simulation.specs.SimulatedText.{IsSimulatedText};

use crate::reporting::report_of;
use crate::rounds::run_to_end;
use crate::schedule::take_turns;
use nam_core::{Runs, World};
use nam_line::Line;
use nam_script::Script;
use std::alloc::{AllocError, Global};

/// Runs a script's world to its end: first the turns of the script's schedule, then rounds in which each worker has one
/// turn, until no worker has a verb to come.
///
/// Worker 1 has the first line. A line that refuses a verb stops its worker before it, once; a worker that is stopped
/// asks no more, nor does one without a line.
fn simulate<S: Runs>(script: &Script, world: &mut World<S>, lines: &mut [Box<dyn Line + Send>])
    requires script { IsScript script.now }
    requires opened { IsOpened script.now world.old }
    ensures shape { world.new.shape ≡ script.now.shape }
    ensures run { Simulated (scenario_of script.now) (map (λ line. state line) lines.old)
        (run_of world.new (map (λ line. state line) lines.new)) }
{
    take_turns(world, lines, script.shape.workers, &script.turns);
    run_to_end(script, world, lines);
}

/// The text of the report of the simulated run of a script under the lines of its workers, in a world in which nothing
/// was done yet.
///
/// # Errors
///
/// Only where memory is not found.
pub fn simulated_text<S: Runs>(
    alloc: Global,
    script: &Script,
    world: World<S>,
    lines: &mut [Box<dyn Line + Send>],
) -> Result<Vec<u8>, AllocError>
    requires script { IsScript script.now }
    requires opened { IsOpened script.now world }
    ensures { IfOk result (λ text.
        IsSimulatedText script.now (map (λ line. state line) lines.old) text.items) }
{
    let mut world = world;
    simulate(script, &mut world, lines);
    let report = report_of(alloc, script, world)?;
    nam_report::report_text(alloc, script, &report)
}
