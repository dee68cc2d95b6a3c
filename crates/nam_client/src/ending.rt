//! What an answer does with the open transaction.

ghost use Rattle.std.specs.Prelude.{◌≡◌};
ghost use Rattle.nam_client.specs.Ending.{ending_of};

use nam_protocol::TxnAnswer;
use si_model::Outcome;

/// What an answer does with the open transaction.
#[derive(Clone, Copy, Debug, PartialEq, Eq)]
pub enum Ending {
    /// It stays open, and what was read is listed.
    Passes,
    /// It has committed.
    Commits { number: u64 },
    /// It has ended, and what was read is not listed.
    Ends(Outcome),
    /// It has ended, and what was read is listed.
    EndsReading(Outcome),
}

/// What this answer does, after so many operations.
pub fn ending_of(answer: &TxnAnswer, ops: u32) -> Ending
    ensures { result ≡ ending_of answer.now ops }
{
    match answer {
        TxnAnswer::Value(_) | TxnAnswer::Written | TxnAnswer::Added(_) | TxnAnswer::Met => {
            Ending::Passes
        }
        TxnAnswer::Committed { number } => Ending::Commits { number: *number },
        TxnAnswer::ReadOnly => Ending::Ends(Outcome::ReadOnly),
        TxnAnswer::TooOld {
            worker,
            entry,
            horizon,
        } => Ending::Ends(Outcome::TooOld {
            worker: *worker,
            entry: *entry,
            horizon: *horizon,
        }),
        TxnAnswer::NoSpace { table } => Ending::EndsReading(Outcome::NoSpace { table: *table }),
        TxnAnswer::Declined => Ending::EndsReading(Outcome::Declined { op: ops }),
        TxnAnswer::Spent => Ending::Ends(Outcome::Spent),
        TxnAnswer::Locked(lock) => Ending::Ends(Outcome::Locked(*lock)),
        TxnAnswer::Newer(lock) => Ending::Ends(Outcome::Newer(*lock)),
        TxnAnswer::Full(lock) => Ending::Ends(Outcome::Full(*lock)),
        TxnAnswer::Astray => Ending::Ends(Outcome::Left),
    }
}
