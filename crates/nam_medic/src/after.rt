//! What follows the word that the verb of a point found.

ghost use Rattle.std.specs.Prelude.{◌≡◌, ◌<◌, ◌≤◌, length};
ghost use Rattle.nam_calls.specs.Medic.{holds_lock, is_copied, medic_after, on_row, next_undo, on_phase, on_state};
ghost use Rattle.nam_calls.specs.Medic.{this_record, next_record, new_walk, on_kind, install_next, on_old, on_copy};
ghost use Rattle.nam_calls.specs.Medic.{on_install, next_guard};
ghost use Rattle.nam_calls.specs.MedicFits.{MedicFits, WalkFits};
ghost use Rattle.nam_catalog.specs.declared.bounds.TheConstants.{MOST_KEYS};

use crate::words::{kind_in, place_at, row_in, state_in};
use lists::ShortList;
use nam_calls::{
    CopyPoint, InstallPoint, IntentKind, IntentPhase, IntentState, MedicPoint, NextVersion, Walk,
};
use nam_catalog::{Form, greatest};
use nam_header::{MARK, is_locked, same_stamp, unpack};
use nam_layout::Layout;
use nam_record::{install_after, install_begin, words_after, words_begin};
use nam_ring::{copy_after, copy_begin};
use nam_verbs::Now;
use si_model::{Finish, Value};

// The word is locked, and names this worker as the holder.
fn holds_lock(form: Form, worker: u32, word: u64) -> bool
    ensures { result ≡ holds_lock form worker word }
{
    is_locked(form, word) && unpack(form, word).holder == worker
}

// The slot holds the version that this header is of.
fn is_copied(form: Form, header: u64, found: u64) -> bool
    ensures { result ≡ is_copied form header found }
{
    same_stamp(form, found, header) && found != MARK
}

// The record of a listed commit after so many.
fn next_undo(records: u32, nth: u32) -> Now<MedicPoint, Finish>
    ensures { result ≡ next_undo records nth }
{
    if nth == records {
        Now::At(MedicPoint::UndoClear)
    } else {
        Now::At(MedicPoint::UndoRow { records, nth })
    }
}

fn on_state(state: Option<IntentState>) -> Now<MedicPoint, Finish>
    ensures { result ≡ on_state state }
{
    match state {
        None => Now::Over(Finish::Clean),
        Some(IntentState { records, phase }) => match phase {
            IntentPhase::Listed => next_undo(records, 0),
            IntentPhase::Decided => Now::At(MedicPoint::RollNumber { records }),
        },
    }
}

// The record at hand of a decided commit. After the last the entry is written.
fn this_record(walk: Walk) -> Now<MedicPoint, Finish>
    ensures { result ≡ this_record walk }
{
    if walk.nth == walk.records {
        Now::At(MedicPoint::RollEntry {
            number: walk.number,
            guards: walk.guards,
        })
    } else {
        Now::At(MedicPoint::RollRow { walk })
    }
}

fn next_record(mut walk: Walk) -> Now<MedicPoint, Finish>
    requires { walk.nth < MOST_KEYS }
    ensures { result ≡ next_record walk }
{
    walk.nth += 1;
    this_record(walk)
}

// A guard is remembered: it is freed once the entry is written.
fn on_kind(mut walk: Walk, row: u32, kind: Option<IntentKind>) -> Now<MedicPoint, Finish>
    requires nth { walk.nth < MOST_KEYS }
    requires guards { length walk.guards ≤ walk.nth }
    ensures { result ≡ on_kind walk row kind }
{
    match kind {
        None => Now::Over(Finish::Clean),
        Some(IntentKind::Guard) => {
            walk.guards.push(walk.nth);
            next_record(walk)
        }
        Some(IntentKind::Value) => {
            let deleted = false;
            Now::At(MedicPoint::RollCount { walk, row, deleted })
        }
        Some(IntentKind::Deletion) => {
            let deleted = true;
            Now::At(MedicPoint::RollCount { walk, row, deleted })
        }
    }
}

fn install_next(walk: Walk, next: NextVersion) -> MedicPoint
    ensures { result ≡ install_next walk next }
{
    let at = install_begin(&next.value);
    MedicPoint::RollInstall { walk, next, at }
}

fn on_old(
    walk: Walk,
    next: NextVersion,
    header: u64,
    now: Now<Value, Value>,
) -> Now<MedicPoint, Finish>
    ensures { result ≡ on_old walk next header now }
{
    match now {
        Now::At(got) => Now::At(MedicPoint::RollOld {
            walk,
            next,
            header,
            got,
        }),
        Now::Over(old) => Now::At(MedicPoint::RollCopy {
            walk,
            next,
            header,
            old,
            at: copy_begin(),
        }),
    }
}

fn on_copy(
    walk: Walk,
    next: NextVersion,
    header: u64,
    old: Value,
    now: Now<CopyPoint, ()>,
) -> Now<MedicPoint, Finish>
    ensures { result ≡ on_copy walk next header old now }
{
    match now {
        Now::At(at) => Now::At(MedicPoint::RollCopy {
            walk,
            next,
            header,
            old,
            at,
        }),
        Now::Over(()) => Now::At(install_next(walk, next)),
    }
}

fn on_install(walk: Walk, next: NextVersion, now: Now<InstallPoint, ()>) -> Now<MedicPoint, Finish>
    requires { walk.nth < MOST_KEYS }
    ensures { result ≡ on_install walk next now }
{
    match now {
        Now::At(at) => Now::At(MedicPoint::RollInstall { walk, next, at }),
        Now::Over(()) => next_record(walk),
    }
}

// The guard after so many.
fn next_guard(guards: ShortList<u32, 16>, passed: u32) -> Now<MedicPoint, Finish>
    ensures { result ≡ next_guard guards passed }
{
    if passed as usize == guards.len() {
        Now::At(MedicPoint::RollClear)
    } else {
        Now::At(MedicPoint::GuardRow { guards, passed })
    }
}

/// What follows the word that the verb of a point found.
pub fn medic_after(
    layout: &Layout,
    worker: u32,
    at: MedicPoint,
    found: u64,
) -> Now<MedicPoint, Finish>
    requires at { MedicFits layout.now at }
    ensures { result ≡ medic_after layout.now worker at found }
{
    match at {
        MedicPoint::MedicState => on_state(state_in(found)),
        MedicPoint::UndoRow { records, nth } => match row_in(layout, found) {
            Some(row) => Now::At(MedicPoint::UndoHead { records, nth, row }),
            None => Now::Over(Finish::Clean),
        },
        MedicPoint::UndoHead { records, nth, row } => {
            if holds_lock(layout.form(), worker, found) {
                let header = found;
                Now::At(MedicPoint::UndoBack {
                    records,
                    nth,
                    row,
                    header,
                })
            } else {
                next_undo(records, nth + 1)
            }
        }
        MedicPoint::UndoBack { records, nth, .. } => next_undo(records, nth + 1),
        MedicPoint::UndoClear => Now::Over(Finish::Undone),
        MedicPoint::RollNumber { records } => {
            if found > greatest(layout.form()) {
                return Now::Over(Finish::Clean);
            }
            this_record(Walk {
                records,
                number: found,
                nth: 0,
                guards: ShortList::new(),
            })
        }
        MedicPoint::RollRow { walk } => match row_in(layout, found) {
            Some(row) => Now::At(MedicPoint::RollKind { walk, row }),
            None => Now::Over(Finish::Clean),
        },
        MedicPoint::RollKind { walk, row } => on_kind(walk, row, kind_in(found)),
        MedicPoint::RollCount { walk, row, deleted } => {
            if deleted {
                let next = NextVersion {
                    row,
                    count: found,
                    value: None,
                };
                Now::At(MedicPoint::RollHead { walk, next })
            } else {
                Now::At(MedicPoint::RollData {
                    walk,
                    row,
                    count: found,
                    got: Value::new(),
                })
            }
        }
        MedicPoint::RollData {
            walk,
            row,
            count,
            got,
        } => match words_after(&place_at(layout, row), got, found) {
            Now::At(got) => Now::At(MedicPoint::RollData {
                walk,
                row,
                count,
                got,
            }),
            Now::Over(value) => Now::At(MedicPoint::RollHead {
                walk,
                next: NextVersion {
                    row,
                    count,
                    value: Some(value),
                },
            }),
        },
        MedicPoint::RollHead { walk, next } => {
            if holds_lock(layout.form(), worker, found) {
                Now::At(MedicPoint::RollSlot {
                    walk,
                    next,
                    header: found,
                })
            } else {
                next_record(walk)
            }
        }
        MedicPoint::RollSlot { walk, next, header } => {
            if is_copied(layout.form(), header, found) {
                Now::At(install_next(walk, next))
            } else {
                Now::At(MedicPoint::RollOld {
                    walk,
                    next,
                    header,
                    got: words_begin(),
                })
            }
        }
        MedicPoint::RollOld {
            walk,
            next,
            header,
            got,
        } => {
            let now = words_after(&place_at(layout, next.row), got, found);
            on_old(walk, next, header, now)
        }
        MedicPoint::RollCopy {
            walk,
            next,
            header,
            old,
            at,
        } => {
            let now = copy_after(&place_at(layout, next.row), at);
            on_copy(walk, next, header, old, now)
        }
        MedicPoint::RollInstall { walk, next, at } => {
            let now = install_after(&place_at(layout, next.row), at);
            on_install(walk, next, now)
        }
        MedicPoint::RollEntry { guards, .. } => next_guard(guards, 0),
        MedicPoint::GuardRow { guards, passed } => match row_in(layout, found) {
            Some(row) => Now::At(MedicPoint::GuardKind {
                guards,
                passed,
                row,
            }),
            None => Now::Over(Finish::Clean),
        },
        MedicPoint::GuardKind {
            guards,
            passed,
            row,
        } => {
            if kind_in(found).is_some() {
                Now::At(MedicPoint::GuardHead {
                    guards,
                    passed,
                    row,
                })
            } else {
                Now::Over(Finish::Clean)
            }
        }
        MedicPoint::GuardHead {
            guards,
            passed,
            row,
        } => {
            if holds_lock(layout.form(), worker, found) {
                Now::At(MedicPoint::GuardBack {
                    guards,
                    passed,
                    row,
                    header: found,
                })
            } else {
                next_guard(guards, passed + 1)
            }
        }
        MedicPoint::GuardBack { guards, passed, .. } => next_guard(guards, passed + 1),
        MedicPoint::RollClear => Now::Over(Finish::RolledOn),
    }
}
