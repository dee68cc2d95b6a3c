//! Sessions that run one after another.

ghost use Rattle.std.specs.Prelude.{◌≡◌, All, length};
ghost use Rattle.nam_catalog.specs.Words.{words_of};
ghost use Rattle.nam_script.specs.Limits.{IsScript};
ghost use Rattle.nam_worker.specs.Session.{IsSessionOf};

use nam_core::opening;
use nam_layout::Layout;
use nam_script::Script;
use nam_simulation::sessions_of;
use nam_verbs::{PlainRegion, Region};
use nam_worker::Session;
use std::time::Instant;

/// How many verbs were done, and how long that took.
#[derive(Clone, Copy, Debug)]
pub struct Measure {
    pub verbs: u64,
    pub nanoseconds: u64,
}

/// The session runs to its end: how many verbs it did.
fn run_session(layout: &Layout, region: &mut PlainRegion, session: &mut Session) -> u64
    requires of { IsSessionOf layout.now session.old }
    requires long { length region.old ≡ words_of layout.now }
    ensures long { length region.new ≡ words_of layout.now }
{
    let mut verbs: u64 = 0;
    while let Some(verb) = session.verb() {
        let found = region.verb(verb);
        session.take(layout, found);
        verbs = verbs.wrapping_add(1);
    }
    verbs
}

/// Each session runs to its end, one after another: how many verbs they did.
fn run_all(layout: &Layout, region: &mut PlainRegion, sessions: Vec<Session>) -> u64
    requires of { All (IsSessionOf layout.now) sessions.items }
    requires long { length region.old ≡ words_of layout.now }
{
    let mut verbs: u64 = 0;
    for session in sessions {
        let mut session = session;
        verbs = verbs.wrapping_add(run_session(layout, region, &mut session));
    }
    verbs
}

/// The run of a script's sessions, without what it takes to make them. None where memory or the clock fails.
pub fn measured(rt: &HostRuntime, script: &Script) -> Option<Measure>
    requires { IsScript script.now }
{
    let layout = Layout::new(&script.shape);
    let sessions = sessions_of(rt.alloc(), &layout, script).ok()?;
    let words = opening(rt.alloc(), &script.shape, &layout, script.rows.as_slice()).ok()?;
    let mut region = PlainRegion::new(words);
    let start = Instant::now(rt).ok()?;
    let verbs = run_all(&layout, &mut region, sessions);
    let nanoseconds = u64::try_from(start.elapsed(rt).ok()?.as_nanos()).ok()?;
    Some(Measure { verbs, nanoseconds })
}
