//! Laws of the definitions: logs only grow, and a commit is a straight program.

ghost use Rattle.nam_catalog.specs.declared.shape.Shape.{Shape};
ghost use Rattle.nam_protocol.specs.Grows.{LogsGrow, SessionLogsGrow};
ghost use Rattle.nam_protocol.specs.ProgramCommit.{CommitIsProgram};

/// What a client's log lists stands for good.
///
/// After each word that is taken, each call that is asked, after the transaction was given up, and after the client was
/// closed, the log is the log before with items behind it: each of its five lists begins with that list of the log
/// before. A stop leaves the log as it is.
pub fn logs_grow_law()
    ensures { (shape : Shape) → LogsGrow shape }
{}

/// What the log of a session's client lists stands for good: after each word, with all calls that the session asks
/// then, the log is the log before with items behind it. A stop leaves it as it is.
pub fn session_logs_grow_law()
    ensures { (shape : Shape) → SessionLogsGrow shape }
{}

/// A commit is one straight program, as a read is, from its asking on: it locks the records, looks at the slots, puts
/// the current versions into them and installs the new ones, writes the worker's entry, and writes the guarded headers
/// back.
///
/// Each written key has a position with data words.
pub fn commit_program_law()
    ensures { CommitIsProgram }
{}
