//! Moves of old versions, in registers.

ghost use Rattle.std.specs.Prelude.{◌≡◌, ◌<◌, ◌+◌, ◌*◌, IsSome, IfSome, Some, None};
ghost use Rattle.nam_verbs.specs.Verb.{address_of};
ghost use Rattle.nam_verbs.specs.declared.verb.Verb.TheVariants.{Read};
ghost use Rattle.nam_verbs.specs.Running.{next_verb, after_found, end_of, verbs_left};
ghost use Rattle.nam_layout.specs.PlaceFits.{FitsPlace, FitsCells};
ghost use Rattle.nam_upkeep.specs.Move.{moving, running, claimed_now};
ghost use Rattle.nam_upkeep.specs.Mover.{resting};

use crate::cells::no_cells;
use crate::move_registers::{MoveRegisters, MoveStep};
use nam_calls::MoveAnswer;
use nam_layout::{Cells, Place};
use nam_verbs::Verb;
use si_model::{Stamp, Value};
use std::marker::Model;

/// Moves of the version in the slot that a record's next version needs, one after another. A cell is claimed for it,
/// its header, end and words are read from the slot and written into the cell, and the slot's header is read again.
/// Where that is the same, the cell's tag says that it is full, and then the slot's header gets the moved flag; else
/// the cell is given back.
#[derive(Debug, Drop)]
pub struct Mover {
    registers: MoveRegisters,
}

impl Model for Mover {
    ghost use Rattle.nam_upkeep.specs.Move.{Moving};
    ghost use Rattle.nam_upkeep.specs.Mover.{moving_of, HasTag, FitsMove};

    ghost Value = { Moving };

    ghost view = { λ a. moving_of a.registers };

    ghost invariant = { λ a. FitsMove a.registers × HasTag a.registers };
}

impl Mover {
    /// A move that is over: nothing was moved.
    pub fn new() -> Mover
        ensures { result ≡ resting }
    {
        Mover {
            registers: MoveRegisters {
                step: MoveStep::Nothing,
                cell: 0,
                tag_at: 0,
                tag: 0,
                slot: 0,
                nth: 0,
                header: 0,
                ending: 0,
                value: Value::new(),
                place: Place::default(),
                cells: no_cells(),
            },
        }
    }

    /// Begins the move of a position's old version into one of these cells.
    #[inline]
    pub fn begin(&mut self, place: &Place, cells: &Cells)
        requires place { FitsPlace place.now }
        requires cells { FitsCells cells.now }
        ensures begins { self.new ≡ moving place.now cells.now }
        ensures left { verbs_left (running self.new) ≡ 2 * cells.now.cells + 2 * place.now.width + 9 }
    {
        self.registers.place = *place;
        self.registers.cells = *cells;
        self.registers.cell = 0;
        self.registers.tag_at = cells.first;
        self.registers.step = MoveStep::Count;
    }

    /// The verb that stands, and none exactly where the move is over.
    #[inline]
    pub fn verb(&self) -> Option<Verb>
        ensures verb { result ≡ next_verb (running self.now) }
        ensures within { IfSome result (λ verb. address_of verb < (running self.now).reach) }
    {
        self.registers.verb()
    }

    /// Goes on with the word that the verb found.
    #[inline]
    pub fn take(&mut self, found: u64)
        requires { IsSome (next_verb (running self.old)) }
        ensures value { self.new ≡ record self.old { state = (after_found (running self.old) found).state } }
        ensures after { running self.new ≡ after_found (running self.old) found }
        ensures falls { verbs_left (running self.new) < verbs_left (running self.old) }
    {
        self.registers.take(found);
    }

    /// Goes on with the word that the verb found, where that is the tag of a cell that isn't free, and another cell
    /// follows: the address of that one's tag, which is looked at next. Else nothing is done. Most words of a move are
    /// such tags.
    #[inline]
    pub fn pass(&mut self, found: u64) -> Option<u64>
        ensures none { result ≡ None → self.new ≡ self.old }
        ensures value { IsSome result
            → self.new ≡ record self.old { state = (after_found (running self.old) found).state } }
        ensures stood { IsSome result → IsSome (next_verb (running self.old)) }
        ensures verb { IfSome result (λ at. Some (Read at) ≡ next_verb (running self.new)) }
    {
        self.registers.pass(found)
    }

    /// A number of verbs that are to come at the most. Each word that is taken lowers it.
    pub fn left(&self) -> u64
        ensures { result ≡ verbs_left (running self.now) }
    {
        self.registers.left()
    }

    /// How the move ended, and none exactly where a verb stands.
    pub fn end(&self) -> Option<MoveAnswer>
        ensures { result ≡ end_of (running self.now) }
    {
        self.registers.end()
    }

    /// The bucket whose cells it is of.
    pub fn bucket(&self) -> u32
        ensures { result ≡ self.now.cells.bucket }
    {
        self.registers.cells.bucket
    }

    /// The stamp of the version for which a cell was claimed, from the exchange that claimed it to the move's end.
    pub fn claimed(&self) -> Option<Stamp>
        ensures { result ≡ claimed_now self.now }
    {
        self.registers.claimed()
    }
}
