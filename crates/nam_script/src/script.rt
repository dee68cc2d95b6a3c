//! Scripts.

use lists::List;
use nam_catalog::Shape;
use si_model::{Op, Policy, Row};

/// A transaction, and the worker that it belongs to.
#[derive(Debug, Drop)]
pub struct ScriptTxn {
    pub worker: u32,
    pub ops: List<Op>,
}

/// So many turns of one worker.
#[derive(Clone, Copy, Debug, Default, PartialEq, Eq)]
pub struct Stint {
    pub worker: u32,
    pub steps: u32,
}

/// The turns of a simulated run.
#[derive(Debug, Drop)]
pub enum Turns {
    List(List<Stint>),
    /// So many turns of workers that are picked by a generator with this seed.
    Seed { seed: u64, picks: u32 },
}

/// What is to be run: a store's shape, how its workers try and tidy, its loaded rows and its transactions.
#[derive(Debug, Drop)]
pub struct Script {
    pub shape: Shape,
    pub policy: Policy,
    pub rows: List<Row>,
    pub txns: List<ScriptTxn>,
    pub turns: Turns,
}
