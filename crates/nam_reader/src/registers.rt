//! What a read has at hand.

ghost use Rattle.std.specs.Prelude.{◌≡◌};
ghost use Rattle.nam_reader.specs.declared.registers.Step.TheVariants as step;

use si_model::Value;

/// Where a read stands, or how it has ended.
#[derive(Clone, Copy, Debug, PartialEq, Eq)]
pub(crate) enum Step {
    CurrentHead,
    CurrentWords,
    CurrentAgain,
    SlotHead,
    SlotEnding,
    SlotWords,
    SlotAgain,
    Recheck,
    CellTag,
    CellOwner,
    CellBegin,
    CellEnding,
    CellWords,
    CellAgain,
    Horizon,
    /// The current version's words are the value.
    Current,
    /// The older version's words are the value.
    Older,
    Absent,
    TooOld,
    Astray,
}

/// Why the ring is searched.
#[derive(Clone, Copy, Debug, PartialEq, Eq)]
pub(crate) enum Search {
    /// The record was locked: its current words count where the ring has no version.
    Locked,
    /// The current version isn't the one.
    Plain,
}

/// The step and what it needs. The words of the current version and of an older one have a buffer each, so that those
/// of a locked record stay where they are while the ring is searched.
#[derive(Debug, Drop)]
pub(crate) struct Registers {
    pub(crate) step: Step,
    pub(crate) search: Search,
    pub(crate) slot: u32,
    pub(crate) cell: u32,
    pub(crate) worker: u32,
    pub(crate) header: u64,
    pub(crate) older_header: u64,
    pub(crate) tag: u64,
    pub(crate) entry: u64,
    pub(crate) horizon: u64,
    pub(crate) current: Value,
    pub(crate) older: Value,
}

impl Registers {
    /// A read that rests.
    pub(crate) fn new() -> Registers
        ensures { result.step ≡ step.Astray }
    {
        Registers {
            step: Step::Astray,
            search: Search::Plain,
            slot: 0,
            cell: 0,
            worker: 0,
            header: 0,
            older_header: 0,
            tag: 0,
            entry: 0,
            horizon: 0,
            current: Value::new(),
            older: Value::new(),
        }
    }
}
