//! The simulated run of a script, from the script to its text.

ghost use Rattle.std.specs.Prelude.{◌≡◌, map, IfOk};
ghost use Rattle.nam_script.specs.Limits.{IsScript};
ghost use Rattle.nam_simulation.specs.Simulation.{IsOpened};
ghost use Rattle.nam_simulation.specs.SimulatedText.{IsSimulatedText};

use crate::sessions::sessions_of;
use crate::simulate::simulated_text;
use nam_core::World;
use nam_layout::Layout;
use nam_line::Line;
use nam_script::Script;
use nam_worker::Session;
use std::alloc::{AllocError, Global};

// The world of a script, in which nothing was done yet.
fn world_of(alloc: Global, script: &Script) -> Result<World<Session>, AllocError>
    requires { IsScript script.now }
    ensures { IfOk result (IsOpened script.now) }
{
    let layout = Layout::new(&script.shape);
    let sessions = sessions_of(alloc, &layout, script)?;
    // A script's shape has no fault, and its rows have room: only memory may be missing.
    World::new(alloc, &script.shape, script.rows.as_slice(), sessions).map_err(|_| AllocError)
}

/// The text of the report of the simulated run of a script under the lines of its workers.
///
/// # Errors
///
/// Only where memory is not found.
pub fn simulated(
    alloc: Global,
    script: &Script,
    lines: &mut [Box<dyn Line + Send>],
) -> Result<Vec<u8>, AllocError>
    requires { IsScript script.now }
    ensures { IfOk result (λ text.
        IsSimulatedText script.now (map (λ line. state line) lines.old) text.items) }
{
    let world = world_of(alloc, script)?;
    simulated_text(alloc, script, world, lines)
}
