//! Answers and their causes.

ghost use Rattle.nam_protocol.specs.AnswersLaw.{CarriesLaw, AnswersLaw, SessionCarriesLaw};
ghost use Rattle.nam_protocol.specs.SessionKeeps.{SessionKeepsLaw};
ghost use Rattle.nam_protocol.specs.AskedLaw.{DriverAsksLaw, SessionAsksLaw};
ghost use Rattle.nam_protocol.specs.ListsLaw.{ListsLaw};

/// Each answer of a client follows from its call's read, lock or snapshot, as the log lists it.
///
/// An operation's answer is that on the value that was read, which is listed; it is declined exactly where it doesn't
/// pass on that value. A commit is told its number and lists what it writes, or names the record whose word was in the
/// way with the locks that were taken before it, or the written record whose slot was not moved. A scan's rows are all
/// of its range. A snapshot taken is listed, and one to be taken again tells the two words. A tidying and a collection
/// are listed as their answers say.
///
/// What this needs of a client, that it carries what its call has found, holds of each new client and is kept by each
/// word, each call that may be asked, by giving up and by a stop. So it holds of the client of each session that
/// occurs.
pub fn answers_tell()
    ensures carries { CarriesLaw }
    ensures sessions { SessionCarriesLaw }
    ensures answers { AnswersLaw }
{}

/// What a client keeps its session keeps: of any test of a client that a worker's new client passes, and that is kept
/// by each word that a client takes, by each call that it may be asked, by a stop and by what its medic does, the
/// client of each session that occurs passes it.
pub fn session_keeps()
    ensures { SessionKeepsLaw }
{}

/// Which calls are asked in an attempt: the begin of that try of the transaction, then its operations one after
/// another, then the commit. Whatever the answers are, what a driver asks until its attempt is over is a front of
/// these.
///
/// In each session that occurs the call that runs is the one that the driver asks. A transaction is open exactly for
/// its operations and its commit, it is the driver's try of the job, and it counts the operations that were asked.
pub fn attempts_asked()
    ensures driver { DriverAsksLaw }
    ensures session { SessionAsksLaw }
{}

/// Each list of a session's log is within the room for its jobs, at each moment and however the session is closed.
///
/// There is no more than a read for each operation, where a scan counts as many as its table has positions, a snapshot
/// for each attempt and each tidying, and for each attempt as many locks and as many writes as a job writes and guards
/// keys.
pub fn lists_within()
    ensures { ListsLaw }
{}
