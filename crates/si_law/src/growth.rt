//! How one worker's log may get another end so that the logs of all stay consistent.
//!
//! A worker's log is a front that stays and an end that may be exchanged: what it lists so far of the attempt at
//! hand, as the cut attempt that it would be if its worker stopped now. At each step that gives a log another end the
//! layer above shows what that worker owes, as said here; the logs of all then stay consistent.

ghost use Rattle.std.specs.Prelude.{replicate, []};
ghost use Rattle.si_model.specs.Setting.{Setting, Asked};
ghost use Rattle.si_model.specs.Consistency.{AreConsistent};
ghost use Rattle.si_law.specs.Growth.{QuietGrowth, CommitGrowth};
ghost use Rattle.si_law.specs.Growth.{ScriptStart, ScriptQuietGrowth, ScriptCommitGrowth, ScriptThrough, ScriptWhole};

/// Logs without events, one for each worker, are consistent, whatever is asked for.
pub fn start_law()
    ensures { (s : Setting) (asked : Asked) → AreConsistent s asked (replicate s.workers []) }
{}

/// An end that publishes nothing may be exchanged for another such end, while more is asked for.
///
/// The worker owes
/// - that the new end lists what other workers' events may rest on in the old one: its locks, the entries of its
///   collects, that it collected at all, its done moves, and no fewer moves into any bucket;
/// - that each prefix in the new end is the sum of its snapshot, and each of its snapshots a moment: within what is
///   published, ordered with every other snapshot, and with the commits that those it contains overtake;
/// - that the new end sees no less than the worker knew after the front, answers as its transactions' evaluations do,
///   and has its causes, by the view before and the logs with the new end;
/// - that the new end moves no key into another bucket than the moves listed so far;
/// - that, where the old end was cut under a lock of a key, the new one is too, or no other worker has found the
///   version of the key that this one would have published next.
pub fn quiet_growth_law()
    ensures { QuietGrowth }
{}

/// An end that publishes nothing may be exchanged for a commit and what follows it, which publishes no more, while
/// more is asked for.
///
/// The worker owes what [`quiet_growth_law`] says, but for the commit's own answer, and for the old end's locks. Of the
/// commit it owes, by the view before
/// - that its number follows the worker's last one;
/// - that it evaluates its operations with its reads and writes, at least one write;
/// - that it lists locks of all keys that it writes and then of those that it guards, each at the newest version that
///   its snapshot shows;
/// - that its snapshot contains each commit that wrote one of these keys;
/// - that, where the old end was cut under a lock of a key, it writes the key, or no other worker has found the
///   version of the key that this one would have published next.
pub fn commit_growth_law()
    ensures { CommitGrowth }
{}

/// For a script: logs without events, one for each worker, are consistent so far. Each worker owes all its
/// transactions.
pub fn script_start_law()
    ensures { ScriptStart }
{}

/// For a script: one worker's log may be exchanged for another, and how far the worker has come with it, while the
/// others' logs and how far they have come stay.
///
/// The new log tells the front that stays and the new end, by the script's transactions. Besides what
/// [`quiet_growth_law`] or [`commit_growth_law`] says, the worker owes
/// - that the counts of the new log fit its flat lists;
/// - that the front and the new end follow the policy so far: they are attempts, tidyings and stops each of which may
///   stand where it does, and at the end, it may be, the first events of a tidying that isn't over; and where tidying
///   is on and a ring is full of the worker's own commit, its tidying after that commit failed, in the view before;
/// - of a commit, that its transaction is one of the script.
pub fn script_growth_law()
    ensures quiet { ScriptQuietGrowth }
    ensures commit { ScriptCommitGrowth }
{}

/// Logs that are consistent for a script so far, where each worker is through with all that it owes or was stopped, are
/// consistent for the script. And such logs are consistent so far, with each worker through.
pub fn script_end_law()
    ensures through { ScriptThrough }
    ensures whole { ScriptWhole }
{}
