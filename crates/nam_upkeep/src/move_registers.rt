//! The registers of a move, and its steps.

ghost use Rattle.std.specs.Prelude.{◌≡◌, ◌≢◌, ◌<◌, ◌+◌, ℕ, IfSome, IsSome, Some, None};
ghost use Rattle.nam_catalog.specs.declared.bounds.TheConstants.{CELL_WORDS};
ghost use Rattle.nam_verbs.specs.Verb.{address_of};
ghost use Rattle.nam_verbs.specs.declared.verb.Verb.TheVariants.{Read};
ghost use Rattle.nam_verbs.specs.Running.{next_verb, end_of, verbs_left};
ghost use Rattle.nam_layout.specs.PlaceFits.{FitsCells};
ghost use Rattle.nam_calls.specs.Mover.{on_claim};
ghost use Rattle.nam_calls.specs.Overflow.{claim_next};
ghost use Rattle.nam_upkeep.specs.Move.{running, claimed_now};
ghost use Rattle.nam_upkeep.specs.Mover.{moving_of, moved_by, HasTag, FitsMove};
ghost use Rattle.nam_upkeep.specs.declared.move_registers.MoveStep.TheVariants as step;

use nam_calls::MoveAnswer;
use nam_catalog::bounds::CELL_WORDS;
use nam_header::{Tag, is_moved, stamp_in, with_moved, without_moved};
use nam_layout::{Cells, Place};
use nam_verbs::Verb;
use si_model::{Stamp, Value};

/// Where a move stands, or how it has ended.
#[derive(Clone, Copy, Debug, PartialEq, Eq)]
pub enum MoveStep {
    Look,
    Take,
    Count,
    Head,
    Ending,
    Words,
    FillOwner,
    FillBegin,
    FillEnding,
    FillWord,
    Again,
    Full,
    Flag,
    Back,
    Moved,
    GivenBack,
    Nothing,
    NoRoom,
}

/// What a move has at hand. The tag of the cell stands at `tag_at`.
#[derive(Debug, Drop)]
pub struct MoveRegisters {
    pub step: MoveStep,
    pub cell: u32,
    pub tag_at: u64,
    pub tag: u64,
    pub slot: u32,
    pub nth: u32,
    pub header: u64,
    pub ending: u64,
    pub value: Value,
    pub place: Place,
    pub cells: Cells,
}

impl MoveRegisters {
    /// The verb that stands, and none where the move is over.
    #[inline]
    pub fn verb(&self) -> Option<Verb>
        requires fits { FitsMove self.now }
        requires tag { HasTag self.now }
        ensures verb { result ≡ next_verb (running (moving_of self.now)) }
        ensures within { IfSome result (λ verb. address_of verb < (running (moving_of self.now)).reach) }
    {
        // Most verbs of a move are reads of tags.
        match self.step {
            MoveStep::Look => Some(Verb::Read { at: self.tag_at }),
            _ => self.other_verb(),
        }
    }

    // The same at any other step.
    fn other_verb(&self) -> Option<Verb>
        requires other { self.now.step ≢ step.Look }
        requires fits { FitsMove self.now }
        requires tag { HasTag self.now }
        ensures verb { result ≡ next_verb (running (moving_of self.now)) }
        ensures within { IfSome result (λ verb. address_of verb < (running (moving_of self.now)).reach) }
    {
        let place = &self.place;
        let cells = &self.cells;
        let verb = match self.step {
            MoveStep::Take => Verb::Exchange {
                at: self.tag_at,
                expect: self.tag,
                word: Tag(self.tag).written().0,
            },
            MoveStep::Count => Verb::Read { at: place.count_at },
            MoveStep::Head | MoveStep::Again => Verb::Read {
                at: place.slot_header(self.slot),
            },
            MoveStep::Ending => Verb::Read {
                at: place.slot_end(self.slot),
            },
            MoveStep::Words => Verb::Read {
                at: place.slot_word(self.slot, self.value.len() as u32),
            },
            MoveStep::FillOwner => Verb::Write {
                at: cells.owner(self.cell),
                word: place.row as u64,
            },
            MoveStep::FillBegin => Verb::Write {
                at: cells.begin(self.cell),
                word: without_moved(place.form, self.header),
            },
            MoveStep::FillEnding => Verb::Write {
                at: cells.end(self.cell),
                word: self.ending,
            },
            MoveStep::FillWord => Verb::Write {
                at: cells.word(self.cell, self.nth),
                word: *self.value.at(self.nth as usize),
            },
            MoveStep::Full => Verb::Write {
                at: self.tag_at,
                word: Tag(self.tag).full().0,
            },
            MoveStep::Flag => Verb::Exchange {
                at: place.slot_header(self.slot),
                expect: self.header,
                word: with_moved(self.header),
            },
            MoveStep::Back => Verb::Write {
                at: self.tag_at,
                word: Tag(self.tag).freed().0,
            },
            _ => return None,
        };
        Some(verb)
    }

    /// Goes on with the word that the verb found.
    #[inline]
    pub fn take(&mut self, found: u64)
        requires fits { FitsMove self.old }
        requires tag { HasTag self.old }
        ensures value { moving_of self.new ≡ moved_by self.old found }
        ensures tag { HasTag self.new }
    {
        match self.step {
            MoveStep::Look => self.look(found),
            _ => self.take_other(found),
        }
    }

    /// Passes the cell whose tag was looked at, where it isn't free and another cell follows: the address of that
    /// one's tag, which is looked at next. Else nothing is done.
    #[inline]
    pub fn pass(&mut self, found: u64) -> Option<u64>
        requires fits { FitsMove self.old }
        requires tag { HasTag self.old }
        ensures none { result ≡ None → self.new ≡ self.old }
        ensures value { IsSome result → moving_of self.new ≡ moved_by self.old found }
        ensures verb { IfSome result (λ at. Some (Read at) ≡ next_verb (running (moving_of self.new))) }
        ensures tag { HasTag self.new }
    {
        match self.step {
            MoveStep::Look => {
                if Tag(found).is_free() || self.cell + 1 == self.cells.cells {
                    return None;
                }
                self.advance();
                Some(self.tag_at)
            }
            _ => None,
        }
    }

    #[inline]
    fn look(&mut self, found: u64)
        requires step { self.old.step ≡ step.Look }
        requires fits { FitsMove self.old }
        requires tag { HasTag self.old }
        ensures value { moving_of self.new ≡ moved_by self.old found }
        ensures tag { HasTag self.new }
    {
        if Tag(found).is_free() {
            self.tag = found;
            self.step = MoveStep::Take;
        } else {
            self.next_cell();
        }
    }

    // The next cell is at hand.
    #[inline]
    fn advance(&mut self)
        requires cell { self.old.cell + 1 < self.old.cells.cells }
        requires fits { FitsCells self.old.cells }
        requires tag { HasTag self.old }
        ensures { self.new ≡ record self.old {
          cell = self.old.cell + 1;
          tag_at = self.old.tag_at + CELL_WORDS;
        } }
    {
        self.cell += 1;
        self.tag_at += CELL_WORDS;
    }

    // On to the next cell, if there is one.
    #[inline]
    fn next_cell(&mut self)
        requires fits { FitsCells self.old.cells }
        requires cell { self.old.cell < self.old.cells.cells }
        requires tag { HasTag self.old }
        ensures value { moving_of self.new ≡ record (moving_of self.old) {
          state = on_claim self.old.cells self.old.slot self.old.header self.old.ending
              (claim_next self.old.cells self.old.cell);
        } }
        ensures tag { HasTag self.new }
    {
        if self.cell + 1 == self.cells.cells {
            self.step = MoveStep::NoRoom;
        } else {
            self.advance();
            self.step = MoveStep::Look;
        }
    }

    // Goes on at any step but the look at a tag.
    fn take_other(&mut self, found: u64)
        requires other { self.old.step ≢ step.Look }
        requires fits { FitsMove self.old }
        requires tag { HasTag self.old }
        ensures value { moving_of self.new ≡ moved_by self.old found }
        ensures tag { HasTag self.new }
    {
        match self.step {
            MoveStep::Take => self.seize(found),
            MoveStep::Count => {
                self.slot = self.place.slot_of(found);
                self.step = MoveStep::Head;
            }
            MoveStep::Head => self.head(found),
            MoveStep::Ending => {
                self.ending = found;
                self.cell = 0;
                self.tag_at = self.cells.first;
                self.step = MoveStep::Look;
            }
            MoveStep::Words => self.word(found),
            MoveStep::FillOwner => self.step = MoveStep::FillBegin,
            MoveStep::FillBegin => self.step = MoveStep::FillEnding,
            MoveStep::FillEnding => {
                self.nth = 0;
                self.step = MoveStep::FillWord;
            }
            MoveStep::FillWord => self.fill_word(),
            MoveStep::Again => self.again(found),
            // The cell is full before the flag is set: from then on the slot may be overwritten.
            MoveStep::Full => self.step = MoveStep::Flag,
            // Where the exchange was lost, another worker has moved the version.
            MoveStep::Flag => self.step = MoveStep::Moved,
            MoveStep::Back => self.step = MoveStep::GivenBack,
            _ => {}
        }
    }

    // The cell is claimed, unless another took it first.
    #[inline]
    fn seize(&mut self, found: u64)
        requires step { self.old.step ≡ step.Take }
        requires fits { FitsMove self.old }
        requires tag { HasTag self.old }
        ensures value { moving_of self.new ≡ moved_by self.old found }
        ensures tag { HasTag self.new }
    {
        if found == self.tag {
            self.tag = Tag(found).written().0;
            self.value.clear();
            self.step = MoveStep::Words;
        } else {
            self.next_cell();
        }
    }

    #[inline]
    fn head(&mut self, found: u64)
        requires step { self.old.step ≡ step.Head }
        requires tag { HasTag self.old }
        ensures value { moving_of self.new ≡ moved_by self.old found }
        ensures tag { HasTag self.new }
    {
        if is_moved(self.place.form, found) {
            self.step = MoveStep::Nothing;
        } else {
            self.header = found;
            self.step = MoveStep::Ending;
        }
    }

    #[inline]
    fn word(&mut self, found: u64)
        requires step { self.old.step ≡ step.Words }
        requires fits { FitsMove self.old }
        requires tag { HasTag self.old }
        ensures value { moving_of self.new ≡ moved_by self.old found }
        ensures tag { HasTag self.new }
    {
        self.value.push(found);
        if self.value.len() == self.place.width as usize {
            self.step = MoveStep::FillOwner;
        }
    }

    #[inline]
    fn fill_word(&mut self)
        requires step { self.old.step ≡ step.FillWord }
        requires fits { FitsMove self.old }
        requires tag { HasTag self.old }
        ensures value { (found : ℕ) → moving_of self.new ≡ moved_by self.old found }
        ensures tag { HasTag self.new }
    {
        if self.nth + 1 == self.place.width {
            self.step = MoveStep::Again;
        } else {
            self.nth += 1;
        }
    }

    // The cell is said to be full where the slot's header is the same, and else is given back: another worker has moved
    // the version, and the words that were read may be those of the slot's next one.
    #[inline]
    fn again(&mut self, found: u64)
        requires step { self.old.step ≡ step.Again }
        requires tag { HasTag self.old }
        ensures value { moving_of self.new ≡ moved_by self.old found }
        ensures tag { HasTag self.new }
    {
        if found == self.header {
            self.step = MoveStep::Full;
        } else {
            self.step = MoveStep::Back;
        }
    }

    /// A number of verbs that are to come at the most.
    pub fn left(&self) -> u64
        requires { FitsMove self.now }
        ensures { result ≡ verbs_left (running (moving_of self.now)) }
    {
        let width = self.place.width as u64;
        let cells = self.cells.cells as u64;
        let cell = self.cell as u64;
        match self.step {
            MoveStep::Look => (cells - cell - 1) * 2 + 2 + 2 * width + 6,
            MoveStep::Take => (cells - cell - 1) * 2 + 1 + 2 * width + 6,
            MoveStep::Count => 2 * cells + 2 * width + 9,
            MoveStep::Head => 2 * cells + 2 * width + 8,
            MoveStep::Ending => 2 * cells + 2 * width + 7,
            MoveStep::Words => width - self.value.len() as u64 + width + 6,
            MoveStep::FillOwner => width + 6,
            MoveStep::FillBegin => width + 5,
            MoveStep::FillEnding => width + 4,
            MoveStep::FillWord => width - self.nth as u64 + 3,
            MoveStep::Again => 3,
            MoveStep::Full => 2,
            MoveStep::Flag | MoveStep::Back => 1,
            MoveStep::Moved | MoveStep::GivenBack | MoveStep::Nothing | MoveStep::NoRoom => 0,
        }
    }

    /// The stamp of the version for which a cell was claimed, from the exchange that claimed it to the move's end.
    pub fn claimed(&self) -> Option<Stamp>
        ensures { result ≡ claimed_now (moving_of self.now) }
    {
        match self.step {
            MoveStep::Words
            | MoveStep::FillOwner
            | MoveStep::FillBegin
            | MoveStep::FillEnding
            | MoveStep::FillWord
            | MoveStep::Again
            | MoveStep::Full
            | MoveStep::Flag
            | MoveStep::Back => Some(stamp_in(self.place.form, self.header)),
            _ => None,
        }
    }

    /// How the move ended, and none where a verb stands.
    pub fn end(&self) -> Option<MoveAnswer>
        ensures { result ≡ end_of (running (moving_of self.now)) }
    {
        match self.step {
            MoveStep::Moved => Some(MoveAnswer::Moved {
                stamp: stamp_in(self.place.form, self.header),
            }),
            MoveStep::GivenBack => Some(MoveAnswer::Back {
                stamp: stamp_in(self.place.form, self.header),
            }),
            MoveStep::Nothing => Some(MoveAnswer::Nothing),
            MoveStep::NoRoom => Some(MoveAnswer::NoRoom {
                bucket: self.cells.bucket,
            }),
            _ => None,
        }
    }
}
