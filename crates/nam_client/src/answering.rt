//! What a client's last call was answered.

ghost use Rattle.std.specs.Prelude.{◌≡◌};
ghost use Rattle.nam_protocol.specs.Session.{answer_now};
ghost use Rattle.nam_protocol.specs.SessionFits.{is_running};
ghost use Rattle.nam_protocol.specs.declared.client.CallPoint.TheVariants.{Beginning};
ghost use Rattle.nam_client.specs.declared.registers.Step.TheVariants as step;
ghost use Rattle.nam_client.specs.Registers.{runs, call_of, moved, begun, answer_told};
ghost use Rattle.nam_client.specs.Room.{StepHolds};

use crate::registers::{Registers, Step, Told};
use nam_calls::MoveAnswer;
use nam_protocol::{Answer, TxnAnswer};
use nam_upkeep::{Snapper, SnapperEnd};

/// The answer that is kept as it is.
fn answer_told(told: Told) -> Answer
    ensures { result ≡ answer_told told }
{
    match told {
        Told::Nothing => Answer::Nothing,
        Told::Scanned { items } => Answer::Scanned { items },
        Told::TooOld {
            worker,
            entry,
            horizon,
        } => Answer::Txn(TxnAnswer::TooOld {
            worker,
            entry,
            horizon,
        }),
        Told::Astray => Answer::Txn(TxnAnswer::Astray),
    }
}

/// The answer of a tidying whose move ended so.
fn moved(end: MoveAnswer) -> Answer
    ensures { result ≡ moved end }
{
    match end {
        MoveAnswer::Moved { .. } => Answer::Moved,
        MoveAnswer::Back { .. } => Answer::Back,
        MoveAnswer::Nothing => Answer::Nothing,
        MoveAnswer::NoRoom { bucket } => Answer::NoRoom { bucket },
    }
}

/// The answer of a call on the snapshot, where that has ended.
fn begun_now(snapper: &Snapper, prefix: u64) -> Option<Answer>
    ensures { result ≡ answer_now (runs (Beginning 0 0) (begun prefix) snapper.now.state) }
{
    match snapper.end() {
        None => None,
        Some(SnapperEnd::Done) => Some(Answer::Begun { prefix }),
        Some(
            SnapperEnd::Again {
                worker,
                first,
                second,
            },
        ) => Some(Answer::Again {
            worker,
            first,
            second,
        }),
    }
}

/// The answer to the last call, and none where no call was asked or one runs.
pub fn answer_of(a: &Registers) -> Option<Answer>
    requires { StepHolds a.now.step a.now }
    ensures { result ≡ answer_now (call_of a.now.step a.now) }
{
    if is_busy(a) { None } else { told_by(a) }
}

// The same, where its size costs.
#[inline(never)]
fn told_by(a: &Registers) -> Option<Answer>
    requires { StepHolds a.now.step a.now }
    ensures { result ≡ answer_now (call_of a.now.step a.now) }
{
    match a.step {
        Step::Resting | Step::Seeking { .. } | Step::Scanning => None,
        Step::Beginning { .. } => begun_now(&a.snapper, a.attempt.prefix),
        Step::Snapping { .. } => begun_now(&a.snapper, 0),
        Step::InTxn => match a.txn.answer() {
            Some(answer) => Some(Answer::Txn(answer)),
            None => None,
        },
        Step::Moving { .. } => match a.mover.end() {
            Some(end) => Some(moved(end)),
            None => None,
        },
        Step::Collecting { .. } => {
            if a.collector.is_over() {
                Some(Answer::Collected(a.collector.known().copy()))
            } else {
                None
            }
        }
        Step::Answered(told) => Some(answer_told(told)),
    }
}

/// Whether a call runs.
pub fn is_busy(a: &Registers) -> bool
    requires { StepHolds a.now.step a.now }
    ensures { result ≡ is_running (call_of a.now.step a.now) }
{
    match a.step {
        Step::Resting | Step::Answered(_) => false,
        Step::Seeking { .. } => true,
        Step::Scanning => true,
        Step::Beginning { .. } | Step::Snapping { .. } => a.snapper.end().is_none(),
        Step::InTxn => a.txn.is_busy(),
        Step::Moving { .. } => a.mover.end().is_none(),
        Step::Collecting { .. } => !a.collector.is_over(),
    }
}
