//! Which answers a call has.

ghost use Rattle.std.specs.Prelude.{IsTrue, ◌↔◌, ◌≡◌};
ghost use Rattle.nam_worker.specs.Answering.{IsAnswerTo, IsTxnAnswer, ends_read, ends_op, ends_commit};

use nam_protocol::{Answer, Call, TxnAnswer, TxnCall};

fn ends_read(end: &TxnAnswer) -> bool
    ensures { result ≡ ends_read end.now }
{
    matches!(end, TxnAnswer::TooOld { .. } | TxnAnswer::Astray)
}

fn ends_op(end: &TxnAnswer) -> bool
    ensures { result ≡ ends_op end.now }
{
    match end {
        TxnAnswer::Value(_) | TxnAnswer::Written | TxnAnswer::Added(_) | TxnAnswer::Met => true,
        TxnAnswer::NoSpace { .. } | TxnAnswer::Declined => true,
        _ => ends_read(end),
    }
}

fn ends_commit(end: &TxnAnswer) -> bool
    ensures { result ≡ ends_commit end.now }
{
    match end {
        TxnAnswer::Committed { .. } | TxnAnswer::ReadOnly | TxnAnswer::Spent => true,
        TxnAnswer::Locked(_) | TxnAnswer::Newer(_) | TxnAnswer::Full(_) => true,
        _ => false,
    }
}

fn ends_txn(call: &TxnCall, end: &TxnAnswer) -> bool
    ensures { IsTrue result ↔ IsTxnAnswer call.now end.now }
{
    match call {
        TxnCall::Commit => ends_commit(end),
        _ => ends_op(end),
    }
}

/// Can the call be answered so?
pub fn is_answer_to(call: &Call, answer: &Answer) -> bool
    ensures { IsTrue result ↔ IsAnswerTo call.now answer.now }
{
    match call {
        Call::Begin { .. } => matches!(answer, Answer::Begun { .. } | Answer::Again { .. }),
        Call::Txn(call) => match answer {
            Answer::Txn(end) => ends_txn(call, end),
            _ => false,
        },
        Call::Scan { .. } => match answer {
            Answer::Scanned { .. } => true,
            Answer::Txn(end) => ends_read(end),
            _ => false,
        },
        Call::Tidy { .. } => matches!(
            answer,
            Answer::Moved | Answer::Back | Answer::Nothing | Answer::NoRoom { .. }
        ),
        Call::Collect { .. } => matches!(answer, Answer::Collected(_) | Answer::Again { .. }),
    }
}
