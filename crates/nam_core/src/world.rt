//! Worlds.

ghost use Rattle.std.specs.Prelude.{◌≡◌, ◌≤◌, ◌++◌, None, All, map, length, IfOk, MatchOption, MatchResult};
ghost use Rattle.std.specs.List.{AllByRecursion};
ghost use Rattle.nam_verbs.specs.Verb.{after_verb, found_by};
ghost use Rattle.nam_catalog.specs.Limits.{fault_of};
ghost use Rattle.nam_catalog.specs.Words.{words_of};
ghost use Rattle.nam_calls.specs.Memory.{verb_there};
ghost use Rattle.nam_protocol.specs.Session.{session_verb, session_after, session_log};
ghost use Rattle.nam_protocol.specs.World.{world_verb, session_of, is_cut, step, cut, after_turn, after_turns};
ghost use Rattle.nam_protocol.specs.World.{HasNoVerb, HasEnded};
ghost use Rattle.nam_protocol.specs.Schedule.{is_live};
ghost use Rattle.nam_protocol.specs.Closed.{closed};
ghost use Rattle.nam_core.specs.Opening.{FitsRow};
ghost use Rattle.nam_core.specs.Turn.{turn_of, turns_of};
ghost use Rattle.nam_core.specs.World.{Opened, NotMade, IsStepped, are_live};

use crate::audited::audit;
use crate::make_error::MakeError;
use crate::opened::opening;
use crate::runs::Runs;
use crate::turn::Turn;
use lists::{List, ShortList};
use nam_catalog::{Shape, Table, check};
use nam_layout::Layout;
use nam_verbs::{PlainRegion, Region, Verb};
use si_model::{Closed, Log, Row};
use std::alloc::{AllocError, Global};
use std::marker::Model;

/// Sessions that take turns over one region of words. The session of worker 1 is the first.
#[derive(Drop)]
pub struct World<S: Runs> {
    shape: Shape,
    layout: Layout,
    region: PlainRegion,
    sessions: Vec<S>,
}

impl<S: Runs> Model for World<S> {
    ghost use Rattle.nam_core.specs.World.{ShapedWorld, shaped, WorldFits};

    ghost Value = { ShapedWorld };

    ghost view = { λ a. shaped S.session a.shape a.region a.sessions.items };

    ghost invariant = { λ a. WorldFits S.IsOf a.shape a.layout a.region a.sessions.items };
}

// An equal shape, made without memory.
fn copied(shape: &Shape) -> Shape
    ensures { result ≡ shape.now }
{
    let mut tables = ShortList::new();
    for table in shape.tables.as_slice() {
        tables.push(Table {
            name: table.name.copy(),
            width: table.width,
            capacity: table.capacity,
            ring: table.ring,
        });
    }
    Shape {
        form: shape.form,
        workers: shape.workers,
        tables,
        buckets: shape.buckets,
        cells: shape.cells,
        start: shape.start,
    }
}

// The verb of the session is done, if one stands.
fn step_session<S: Runs>(layout: &Layout, region: &mut PlainRegion, session: &mut S)
    requires of { S.IsOf layout.now session.old }
    requires long { length region.old ≡ words_of layout.now }
    ensures step { IsStepped layout.now region.old (S.session session.old) region.new (S.session session.new) }
    ensures of { S.IsOf layout.now session.new }
    ensures long { length region.new ≡ words_of layout.now }
{
    if let Some(verb) = session.verb() {
        let found = region.verb(verb);
        session.take(layout, found);
    }
}

// Whether any of the sessions has a verb to come.
fn are_live<S: Runs>(layout: &Layout, sessions: &[S]) -> bool
    requires { All (S.IsOf layout.now) sessions.now }
    ensures { result ≡ are_live layout.now (map S.session sessions.now) }
{
    for session in sessions {
        if session.verb().is_some() {
            return true;
        }
    }
    false
}

// The logs of the sessions.
fn logs_of<S: Runs>(
    alloc: Global,
    layout: &Layout,
    sessions: Vec<S>,
) -> Result<List<Log>, AllocError>
    requires of { All (S.IsOf layout.now) sessions.items }
    requires ended { AllByRecursion (HasNoVerb layout.now) (map S.session sessions.items) }
    ensures { IfOk result (λ logs. logs ≡ map (session_log layout.now) (map S.session sessions.items)) }
{
    let mut logs = List::new(alloc);
    for session in sessions {
        logs.push(session.into_log())?;
    }
    Ok(logs)
}

// The words of a region.
fn words_of(alloc: Global, region: PlainRegion, count: u64) -> Result<Vec<u64>, AllocError>
    requires { length region ≡ count }
    ensures { IfOk result (λ words. words.items ≡ region) }
{
    let mut region = region;
    let mut words = Vec::with_capacity(alloc, count as usize)?;
    for at in 0..count {
        words.push(region.verb(Verb::Read { at }))?;
    }
    Ok(words)
}

impl<S: Runs> World<S> {
    /// The world of a shape, the rows and the sessions, in which nothing was done yet. `Shape` where no store can have
    /// the shape, `NoSpace` where a table has more rows than positions, and `Memory` where the words find no room.
    pub fn new(
        alloc: Global,
        shape: &Shape,
        rows: &[Row],
        sessions: Vec<S>,
    ) -> Result<World<S>, MakeError>
        requires rows { All (FitsRow shape.now) rows.now }
        requires sessions { All (S.IsOf shape.now) sessions.items }
        ensures exact { MatchResult result
            (λ world. Opened shape.now rows.now (map S.session sessions.items) world)
            (λ error. NotMade shape.now rows.now error) }
    {
        if let Err(fault) = check(shape) {
            return Err(MakeError::Shape(fault));
        }
        let layout = Layout::new(shape);
        let words = opening(alloc, shape, &layout, rows)?;
        Ok(World {
            shape: copied(shape),
            layout,
            region: PlainRegion::new(words),
            sessions,
        })
    }

    /// The worker's next verb, if it has one.
    pub fn verb(&self, worker: u32) -> Option<Verb>
        ensures { result ≡ world_verb self.now.shape self.now.world worker }
    {
        let session = self.sessions.get(worker.saturating_sub(1) as usize)?;
        session.verb()
    }

    /// Whether the worker was stopped.
    pub fn is_cut(&self, worker: u32) -> bool
        ensures { result ≡ is_cut (session_of self.now.world worker) }
    {
        match self.sessions.get(worker.saturating_sub(1) as usize) {
            Some(session) => session.is_cut(),
            None => false,
        }
    }

    /// Whether any worker has a verb to come.
    pub fn is_live(&self) -> bool
        ensures { result ≡ is_live self.now.shape self.now.world }
    {
        are_live(&self.layout, self.sessions.as_slice())
    }

    /// The worker's next verb is done, if it has one.
    pub fn step(&mut self, worker: u32)
        ensures { self.new ≡ record self.old { world = step self.old.shape self.old.world worker } }
    {
        let place = worker.saturating_sub(1) as usize;
        if place < self.sessions.len() {
            step_session(&self.layout, &mut self.region, &mut self.sessions[place]);
        }
    }

    /// The worker is stopped before its next verb.
    pub fn cut(&mut self, worker: u32)
        ensures { self.new ≡ record self.old { world = cut self.old.shape self.old.world worker } }
    {
        let place = worker.saturating_sub(1) as usize;
        if place < self.sessions.len() {
            self.sessions[place].cut();
        }
    }

    // One turn.
    fn turn(&mut self, turn: Turn)
        ensures { self.new ≡ record self.old { world = after_turn self.old.shape self.old.world (turn_of turn) } }
    {
        match turn {
            Turn::Step { worker } => self.step(worker),
            Turn::Cut { worker } => self.cut(worker),
        }
    }

    /// Turns, one after another.
    pub fn run(&mut self, turns: &[Turn])
        ensures { self.new ≡ record self.old {
          world = after_turns self.old.shape self.old.world (turns_of turns.now);
        } }
    {
        for turn in turns {
            self.turn(*turn);
        }
    }

    /// The logs, and the audit of the words, once no worker has a verb to come. Where memory is not found, the world is
    /// lost.
    pub fn finish(self, alloc: Global) -> Result<Closed, AllocError>
        requires { HasEnded self.shape self.world }
        ensures { IfOk result (λ end. end ≡ closed self.shape self.world) }
    {
        let World {
            shape,
            layout,
            region,
            sessions,
        } = self;
        let logs = logs_of(alloc, &layout, sessions)?;
        let words = words_of(alloc, region, layout.total())?;
        let audit = audit(alloc, &shape, &layout, words.as_slice())?;
        Ok(Closed { logs, audit })
    }
}
