//! The verb of each point.

ghost use Rattle.std.specs.Prelude.{◌≡◌, ◌<◌, ◌≤◌};
ghost use Rattle.nam_verbs.specs.Verb.{address_of};
ghost use Rattle.nam_verbs.specs.VerbAt.{verb_by};
ghost use Rattle.nam_catalog.specs.declared.form.Form.TheVariants.{Held};
ghost use Rattle.nam_catalog.specs.Greatest.{greatest_number};
ghost use Rattle.nam_catalog.specs.Words.{words_of};
ghost use Rattle.nam_header.specs.Stamp.{FitsStamp};
ghost use Rattle.nam_layout.specs.Address.{IsWorker, IsRow, address};
ghost use Rattle.nam_layout.specs.Place.{place_at};
ghost use Rattle.nam_calls.specs.Intent.{state_field, no_intent};
ghost use Rattle.nam_calls.specs.Record.{install_verb};
ghost use Rattle.nam_calls.specs.Ring.{copy_verb};
ghost use Rattle.nam_calls.specs.Fits.{WordsEnd, CopyFits, InstallFits};
ghost use Rattle.nam_calls.specs.MedicFits.{NextFits, MedicFits};
ghost use Rattle.nam_calls.specs.Medic.{without_lock, commit_stamp, next_header, medic_begin, medic_verb};
ghost use Rattle.nam_verbs.specs.declared.verb.Verb.TheVariants.{Read, Write};
ghost use Rattle.nam_layout.specs.declared.field.Field.TheVariants.{Header, SlotHeader};
ghost use Rattle.nam_layout.specs.Place.{slot_of};

use crate::words::{intent_read, place_at, record_from};
use nam_calls::{CopyPoint, InstallPoint, MedicPoint, NextVersion, Walk};
use nam_header::{version_word, without_lock};
use nam_layout::Layout;
use nam_record::{install_verb, words_verb};
use nam_ring::copy_verb;
use nam_vector::publish_verb;
use nam_verbs::Verb;
use si_model::{Stamp, Value};

/// Where the medic begins: at the state of the intent.
pub fn medic_begin() -> MedicPoint
    ensures { result ≡ medic_begin }
{
    MedicPoint::MedicState
}

// The stamp of the worker's commit.
fn commit_stamp(layout: &Layout, worker: u32, walk: &Walk) -> Stamp
    requires form { layout.now.form ≡ Held }
    requires worker { IsWorker layout.now worker }
    requires number { walk.now.number ≤ greatest_number layout.now.form }
    ensures value { result ≡ commit_stamp worker walk.now }
    ensures fits { FitsStamp layout.now.form result }
{
    // A layout's total says that the shape is within its limits: it has few workers.
    let _words = layout.total();
    Stamp {
        thread: worker,
        number: walk.number,
    }
}

fn header_read(layout: &Layout, row: u32) -> Verb
    requires { IsRow layout.now row }
    ensures { result ≡ Read (address layout.now (Header row)) }
{
    Verb::Read {
        at: place_at(layout, row).header_at,
    }
}

// The header of the slot for the version that was locked.
fn slot_read(layout: &Layout, next: &NextVersion) -> Verb
    requires { IsRow layout.now next.now.row }
    ensures { result ≡ Read (address layout.now
        (SlotHeader next.now.row (slot_of (place_at layout.now next.now.row) next.now.count))) }
{
    let place = place_at(layout, next.row);
    Verb::Read {
        at: place.slot_header(place.slot_of(next.count)),
    }
}

// A header is written back without lock.
fn free_write(layout: &Layout, row: u32, header: u64) -> Verb
    requires { IsRow layout.now row }
    ensures { result ≡ Write (address layout.now (Header row)) (without_lock layout.now.form header) }
{
    Verb::Write {
        at: place_at(layout, row).header_at,
        word: without_lock(layout.form(), header),
    }
}

// The state is written that says there is no intent.
fn clear_write(layout: &Layout, worker: u32) -> Verb
    requires form { layout.now.form ≡ Held }
    requires worker { IsWorker layout.now worker }
    ensures { result ≡ Write (address layout.now (state_field worker)) no_intent }
{
    Verb::Write {
        at: layout.intent_at(worker),
        word: 0,
    }
}

// The version that was locked goes to its slot.
fn copied_verb(
    layout: &Layout,
    ending: Stamp,
    next: &NextVersion,
    header: u64,
    old: &Value,
    at: &CopyPoint,
) -> Verb
    requires next { NextFits layout.now next.now }
    requires ending { FitsStamp layout.now.form ending }
    requires old { WordsEnd (place_at layout.now next.now.row) old.now }
    requires at { CopyFits (place_at layout.now next.now.row) at.now }
    ensures { result ≡ verb_by (address layout.now) (copy_verb (place_at layout.now next.now.row) next.now.count
        (without_lock layout.now.form header) old.now ending at.now) }
{
    let place = place_at(layout, next.row);
    let free = without_lock(layout.form(), header);
    copy_verb(&place, next.count, free, old, ending, at)
}

// The next version takes its place.
fn installed_verb(
    layout: &Layout,
    worker: u32,
    walk: &Walk,
    next: &NextVersion,
    at: &InstallPoint,
) -> Verb
    requires form { layout.now.form ≡ Held }
    requires worker { IsWorker layout.now worker }
    requires number { walk.now.number ≤ greatest_number layout.now.form }
    requires next { NextFits layout.now next.now }
    requires at { InstallFits (place_at layout.now next.now.row) at.now }
    ensures { result ≡ verb_by (address layout.now) (install_verb (place_at layout.now next.now.row) next.now.value
        next.now.count (next_header layout.now.form worker walk.now next.now) at.now) }
{
    let place = place_at(layout, next.row);
    let stamp = commit_stamp(layout, worker, walk);
    let header = version_word(layout.form(), stamp, next.value.is_none());
    install_verb(&place, &next.value, next.count, header, at)
}

/// The verb that stands at a point.
pub fn medic_verb(layout: &Layout, worker: u32, at: &MedicPoint) -> Verb
    requires form { layout.now.form ≡ Held }
    requires worker { IsWorker layout.now worker }
    requires at { MedicFits layout.now at.now }
    ensures value { result ≡ verb_by (address layout.now) (medic_verb layout.now worker at.now) }
    ensures within { address_of result < words_of layout.now }
{
    // A layout's total says that the shape is within its limits: each field has an address below it.
    let _words = layout.total();
    verb_at(layout, worker, at)
}

// The same, without saying where it stands. The words of a listed record are its row, its kind, its count and its data.
fn verb_at(layout: &Layout, worker: u32, at: &MedicPoint) -> Verb
    requires form { layout.now.form ≡ Held }
    requires worker { IsWorker layout.now worker }
    requires at { MedicFits layout.now at.now }
    ensures { result ≡ verb_by (address layout.now) (medic_verb layout.now worker at.now) }
{
    match at {
        MedicPoint::MedicState => intent_read(layout, worker, 0),
        MedicPoint::UndoRow { nth, .. } => intent_read(layout, worker, record_from(*nth)),
        MedicPoint::UndoHead { row, .. } | MedicPoint::GuardHead { row, .. } => {
            header_read(layout, *row)
        }
        MedicPoint::UndoBack { row, header, .. } | MedicPoint::GuardBack { row, header, .. } => {
            free_write(layout, *row, *header)
        }
        MedicPoint::UndoClear | MedicPoint::RollClear => clear_write(layout, worker),
        MedicPoint::RollNumber { .. } => intent_read(layout, worker, 1),
        MedicPoint::RollRow { walk } => intent_read(layout, worker, record_from(walk.nth)),
        MedicPoint::RollKind { walk, .. } => intent_read(layout, worker, record_from(walk.nth) + 1),
        MedicPoint::RollCount { walk, .. } => {
            intent_read(layout, worker, record_from(walk.nth) + 2)
        }
        MedicPoint::RollData { walk, row, got, .. } => {
            let _place = place_at(layout, *row);
            intent_read(layout, worker, record_from(walk.nth) + 3 + got.len() as u32)
        }
        MedicPoint::RollHead { next, .. } => header_read(layout, next.row),
        MedicPoint::RollSlot { next, .. } => slot_read(layout, next),
        MedicPoint::RollOld { next, got, .. } => words_verb(&place_at(layout, next.row), got),
        MedicPoint::RollCopy {
            walk,
            next,
            header,
            old,
            at,
        } => {
            let ending = commit_stamp(layout, worker, walk);
            copied_verb(layout, ending, next, *header, old, at)
        }
        MedicPoint::RollInstall { walk, next, at } => {
            installed_verb(layout, worker, walk, next, at)
        }
        MedicPoint::RollEntry { number, .. } => publish_verb(worker, *number),
        MedicPoint::GuardRow { guards, passed } => {
            intent_read(layout, worker, record_from(*guards.at(*passed as usize)))
        }
        MedicPoint::GuardKind { guards, passed, .. } => {
            intent_read(
                layout,
                worker,
                record_from(*guards.at(*passed as usize)) + 1,
            )
        }
    }
}
