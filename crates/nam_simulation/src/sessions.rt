//! The sessions of a script's workers.

ghost use Rattle.std.specs.Prelude.{◌≡◌, ◌≤◌, ◌<◌, ◌+◌, All, map, IfOk, length};
ghost use Rattle.std.specs.List.{AllByRecursion};
ghost use Rattle.nam_script.specs.Limits.{IsScript};
ghost use Rattle.nam_protocol.specs.Schedule.{all_jobs};
ghost use Rattle.nam_protocol.specs.Session.{new_session};
ghost use Rattle.nam_protocol.specs.Telling.{new_client};
ghost use Rattle.nam_protocol.specs.World.{new_sessions};
ghost use Rattle.nam_scenario.specs.Scenario.{scenario_of};
ghost use Rattle.nam_worker.specs.Session.{session_of, IsSessionOf};
ghost use Rattle.nam_simulation.specs.Simulation.{AreJobsOf};

use crate::jobs::jobs_of;
use lists::List;
use nam_client::Client;
use nam_layout::Layout;
use nam_protocol::Job;
use nam_script::Script;
use nam_worker::Session;
use std::alloc::{AllocError, Global};

// The session of a worker with these jobs, which is ready to run.
fn session_with(
    alloc: Global,
    layout: &Layout,
    script: &Script,
    worker: u32,
    jobs: List<Job>,
) -> Result<Session, AllocError>
    requires script { IsScript script.now }
    requires layout { layout.now ≡ script.now.shape }
    requires worker { (1 ≤ worker) × (worker ≤ script.now.shape.workers) }
    requires jobs { AreJobsOf script.now jobs }
    ensures of { IfOk result (IsSessionOf script.now.shape) }
    ensures session { IfOk result (λ session. session_of session
        ≡ new_session script.now.shape (new_client worker script.now.shape.start) jobs script.now.policy) }
{
    let client = Client::new(alloc, worker, script.shape.start);
    let mut session = Session::new(client, jobs.into_vec(), script.policy);
    session.prepare(layout)?;
    Ok(session)
}

/// The sessions of a script's workers, in which nothing was done yet, worker 1 first.
pub fn sessions_of(
    alloc: Global,
    layout: &Layout,
    script: &Script,
) -> Result<Vec<Session>, AllocError>
    requires script { IsScript script.now }
    requires layout { layout.now ≡ script.now.shape }
    ensures of { IfOk result (λ sessions. All (IsSessionOf script.now.shape) sessions.items) }
    ensures sessions { IfOk result (λ sessions. map session_of sessions.items
        ≡ new_sessions script.now.shape script.now.policy 1
        (all_jobs script.now.shape.workers (scenario_of script.now).txns)) }
{
    let mut sessions = Vec::new(alloc);
    for jobs in jobs_of(alloc, script)? {
        let worker = sessions.len() as u32 + 1;
        sessions.push(session_with(alloc, layout, script, worker, jobs)?)?;
    }
    Ok(sessions)
}
