//! Tidyings: the key's position is searched, and the version in the slot that its next version needs is moved.

ghost use Rattle.std.specs.Prelude.{◌≡◌, ◌<◌, ◌≤◌, ◌-◌, IsSome, IfSome, Some, None, true, false};
ghost use Rattle.nam_verbs.specs.declared.verb.Verb.TheVariants.{Read};
ghost use Rattle.nam_verbs.specs.Running.{next_verb, end_of};
ghost use Rattle.nam_catalog.specs.declared.shape.Shape.{Shape};
ghost use Rattle.nam_layout.specs.RowLaw.{IsPosition};
ghost use Rattle.nam_layout.specs.Place.{place_of, cells_by};
ghost use Rattle.nam_protocol.specs.declared.client.CallPoint.TheVariants.{Seeking as SeekingAt};
ghost use Rattle.nam_calls.specs.Fits.{IsTableOf};
ghost use Rattle.nam_calls.specs.Left.{move_most};
ghost use Rattle.nam_upkeep.specs.Move.{running, moving};
ghost use Rattle.nam_protocol.specs.declared.client.Call.TheVariants.{Tidy};
ghost use Rattle.nam_protocol.specs.Client.{client_ask, client_after};
ghost use Rattle.nam_protocol.specs.Own.{MayAsk};
ghost use Rattle.nam_client.specs.declared.registers.Step.TheVariants as step;
ghost use Rattle.nam_client.specs.Registers.{client_of, call_of, after_move};
ghost use Rattle.nam_client.specs.Room.{HasRoom, StepHolds};
ghost use Rattle.nam_client.specs.Fits.{IsClientOf, HandFits, HasAtHand};

use crate::registers::{Registers, Step, Told};
use nam_calls::MoveAnswer;
use nam_index::{FindEnd, find_after, path_of};
use nam_layout::Layout;
use nam_verbs::Now;
use si_model::{Event, MoveEnd};

/// How many verbs the move of a version of the table takes at the most.
#[tactic(auto, using(crate::proofs::TableLemmas::first_position, crate::proofs::TableLemmas::first_width))]
fn move_most(layout: &Layout, table: u32) -> u64
    requires { IsTableOf layout.now table }
    ensures { result ≡ move_most layout.now table }
{
    // A layout's total says that the shape is within its limits: it has a bucket, and the table a position.
    let _words = layout.total();
    2 * layout.cells(0).cells as u64 + 2 * layout.place(table, 0).width as u64 + 9
}

/// Asks for the tidying of a key.
pub fn tidy(a: &mut Registers, layout: &Layout, table: u32, key: u64)
    requires of { IsClientOf layout.now a.old }
    requires may { MayAsk layout.now (client_of a.old) (Tidy table key) }
    requires room { HasRoom a.old }
    requires spare { 1 ≤ a.old.spare.tidies }
    ensures client { client_of a.new ≡ client_ask layout.now (client_of a.old) (Tidy table key) }
    ensures spare { a.new.spare ≡ record a.old.spare { tidies = a.old.spare.tidies - 1 } }
    ensures hand { HandFits layout.now a.new (call_of a.new.step a.new) }
    ensures room { HasRoom a.new }
    ensures closed { a.new.is_open ≡ false }
    ensures at { StepHolds a.new.step a.new }
{
    a.spare.tidies -= 1;
    a.path = path_of(layout, table, key);
    a.to_follow = move_most(layout, table);
    a.step = Step::Seeking {
        table,
        key,
        passed: 0,
    };
}

/// Goes on with a key word of the search.
#[inline]
pub fn take_seek(a: &mut Registers, layout: &Layout, table: u32, key: u64, passed: u32, found: u64)
    requires step { a.old.step ≡ step.Seeking table key passed }
    requires table { IsTableOf layout.now table }
    requires hand { HasAtHand layout.now a.old (SeekingAt table key passed) }
    requires at { StepHolds a.old.step a.old }
    requires closed { a.old.is_open ≡ false }
    requires room { HasRoom a.old }
    ensures client { client_of a.new ≡ client_after layout.now (client_of a.old) found }
    ensures spare { a.new.spare ≡ a.old.spare }
    ensures hand { HandFits layout.now a.new (call_of a.new.step a.new) }
    ensures room { HasRoom a.new }
    ensures closed { a.new.is_open ≡ false }
    ensures at { StepHolds a.new.step a.new }
{
    match find_after(&a.path, passed, found) {
        Now::At(passed) => a.step = Step::Seeking { table, key, passed },
        Now::Over(FindEnd::At(position)) => begin_move(a, layout, table, key, position),
        Now::Over(FindEnd::Absent) => a.step = Step::Answered(Told::Nothing),
    }
}

/// The key has a position.
fn begin_move(a: &mut Registers, layout: &Layout, table: u32, key: u64, position: u32)
    requires position { IsPosition layout.now.tables table position }
    ensures mover { a.new.mover
        ≡ moving (place_of layout.now table position) (cells_by layout.now (place_of layout.now table position)) }
    ensures rest { a.new ≡ record a.old { mover = a.new.mover; step = step.Moving table key position } }
{
    let place = layout.place(table, position);
    let cells = layout.cells(layout.bucket_of(place.row));
    a.mover.begin(&place, &cells);
    a.step = Step::Moving {
        table,
        key,
        position,
    };
}

/// Goes on with the tag of a cell that the move passes: the address of the next cell's tag. Else nothing is done.
#[inline]
pub fn pass_cell(a: &mut Registers, table: u32, key: u64, position: u32, found: u64) -> Option<u64>
    requires step { a.old.step ≡ step.Moving table key position }
    requires closed { a.old.is_open ≡ false }
    requires room { HasRoom a.old }
    ensures none { result ≡ None → a.new ≡ a.old }
    ensures client { IsSome result → (shape : Shape) → a.old.mover.place ≡ place_of shape table position
        → a.old.mover.cells ≡ cells_by shape a.old.mover.place
        → client_of a.new ≡ client_after shape (client_of a.old) found }
    ensures spare { a.new.spare ≡ a.old.spare }
    ensures hand { (shape : Shape) → HandFits shape a.old (call_of a.old.step a.old)
        → HandFits shape a.new (call_of a.new.step a.new) }
    ensures room { HasRoom a.new }
    ensures closed { a.new.is_open ≡ false }
    ensures at { StepHolds a.new.step a.new }
    ensures verb { IfSome result (λ at. Some (Read at) ≡ next_verb (running a.new.mover)) }
    ensures same { a.new ≡ record a.old { mover = a.new.mover } }
{
    a.mover.pass(found)
}

/// Goes on with a word of the move.
#[inline]
pub fn take_move(a: &mut Registers, table: u32, key: u64, position: u32, found: u64)
    requires step { a.old.step ≡ step.Moving table key position }
    requires stands { IsSome (next_verb (running a.old.mover)) }
    requires closed { a.old.is_open ≡ false }
    requires room { HasRoom a.old }
    ensures client { (shape : Shape) → a.old.mover.place ≡ place_of shape table position
        → a.old.mover.cells ≡ cells_by shape a.old.mover.place
        → client_of a.new ≡ client_after shape (client_of a.old) found }
    ensures spare { a.new.spare ≡ a.old.spare }
    ensures hand { (shape : Shape) → HandFits shape a.old (call_of a.old.step a.old)
        → HandFits shape a.new (call_of a.new.step a.new) }
    ensures room { HasRoom a.new }
    ensures closed { a.new.is_open ≡ false }
    ensures at { StepHolds a.new.step a.new }
{
    a.mover.take(found);
    if let Some(end) = a.mover.end() {
        list_move(a, table, key, end);
    }
}

/// Lists a move that claimed a cell, or that found none.
#[inline(never)]
fn list_move(a: &mut Registers, table: u32, key: u64, end: MoveAnswer)
    requires { 0 < a.old.log.room.events }
    ensures { a.new ≡ after_move a.old table key end }
{
    let bucket = a.mover.bucket();
    match end {
        MoveAnswer::Moved { stamp } => a.log.list_event(Event::Moved {
            bucket,
            table,
            key,
            stamp,
            how: MoveEnd::Done,
        }),
        MoveAnswer::Back { stamp } => a.log.list_event(Event::Moved {
            bucket,
            table,
            key,
            stamp,
            how: MoveEnd::Back,
        }),
        MoveAnswer::Nothing => {}
        MoveAnswer::NoRoom { bucket } => a.log.list_event(Event::NoRoom { bucket }),
    }
}
