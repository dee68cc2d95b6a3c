//! What a transaction has at hand.

use crate::step::Step;
use crate::walk::Walk;
use nam_commit::Committer;
use nam_protocol::{TxnAnswer, TxnState};
use nam_reader::Reader;
use si_model::Op;

/// A transaction, the step where its call stands, and what the steps need of the layout.
#[derive(Debug, Drop)]
pub(crate) struct Registers {
    pub step: Step,
    pub state: TxnState,
    /// The operation that runs.
    pub op: Op,
    pub walk: Walk,
    /// The width of its table.
    pub width: u32,
    /// How many verbs a read at a position of its table takes at the most.
    pub read_most: u32,
    pub reader: Reader,
    pub committer: Committer,
    /// The last answer.
    pub answer: TxnAnswer,
}
