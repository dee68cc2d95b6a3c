//! The law of words, and what it comes to.

ghost use Rattle.nam_ghost.specs.Law.{GhostLaw, WordsOkLaw};
ghost use Rattle.nam_law.specs.AnswersLaw.{AnswersLaw};
ghost use Rattle.nam_law.specs.CountsLaw.{CountsLaw, RoomLaw};
ghost use Rattle.nam_law.specs.EndsLaw.{LockedLaw, NewerLaw, ScanLaw};
ghost use Rattle.nam_law.specs.LockersLaw as lockers;
ghost use Rattle.nam_law.specs.SnapshotsLaw.{AllLaw, ContainsLaw, FrontLaw, InstalledLaw, MomentLaw, OnceLaw, PastLaw};
ghost use Rattle.nam_law.specs.SnapshotsLaw.{StampsLaw, StaysLaw, SumLaw, WholeLaw};
ghost use Rattle.nam_law.specs.WordsLaw.{GroundLaw, KeepsLaw, OpensLaw, ReachedLaw};
ghost use Rattle.nam_law.specs.WorldsLaw.{WorldsLaw};

/// What every word, version and call in flight may rely on.
///
/// The opening has all of it (`LawOk`), with any rows that may be loaded (`opening`). Each verb, each call that is
/// asked, each transaction that is given up and each stop keeps it (`step`); so each store that comes about has it,
/// with what is known of it along its steps (`reached`): `words` says so of the groups of `nam_ghost`, and `some`
/// without naming what is known. The groups that the others stand on are kept by themselves (`ground`).
pub fn words_law()
    ensures opening { OpensLaw }
    ensures step { KeepsLaw }
    ensures ground { GroundLaw }
    ensures reached { ReachedLaw }
    ensures words { GhostLaw }
    ensures some { WordsOkLaw }
{}

/// So it is in a world, whatever turns its workers take, and wherever their sessions are stopped; in form Held none is.
pub fn worlds_law()
    ensures { WorldsLaw }
{}

/// What the answers of a client's calls come to, of a store that meets the law.
///
/// An operation that looks for its key and reads there is decided by the value that its transaction's snapshot sees: of
/// the newest version that it sees at the position that bears the key, whole, whoever writes meanwhile; or none, where
/// no position bears the key. Or the transaction is too old: the horizon entry that the answer tells stands, and is
/// above its snapshot's. A read is never astray (`value`). A scan lists exactly the rows of its range that its
/// transaction finds (`scan`). Where a commit is refused by Newer, a record of it has a version that its snapshot
/// doesn't see (`newer`); a lock that stands in its way is another client's, which lists it (`locked`).
pub fn answers_law()
    ensures value { AnswersLaw }
    ensures scan { ScanLaw }
    ensures newer { NewerLaw }
    ensures locked { LockedLaw }
{}

/// What a snapshot that some client has taken sees of a row's versions, in each store that comes about.
///
/// It sees a front of the chain (`front`). Whatever the clients do after it was taken, it sees the same, of any store
/// that meets the law (`stays`). Each version that it sees is the loader's, or its commit was published and is
/// installed in all its records (`whole`); and so is each stamp of a worker that it sees, of a number above the start
/// (`installed`). No stamp comes twice in a chain (`stamps`), nor in two publications (`once`).
pub fn snapshots_law()
    ensures front { FrontLaw }
    ensures stays { StaysLaw }
    ensures whole { WholeLaw }
    ensures installed { InstalledLaw }
    ensures stamps { StampsLaw }
    ensures once { OnceLaw }
{}

/// Snapshots are moments of the order in which commits were published, in each store that comes about (`PastOk`,
/// `reached`).
///
/// Each snapshot that some client has taken is the vector after a front of that order (`moment`). Of the stamps in the
/// order it sees those of the front and no others (`contains`), and above the start it sees no others at all (`all`).
/// How many they are is the sum of its entries above the start, which is the prefix that a log tells of it (`sum`).
pub fn past_law()
    ensures reached { PastLaw }
    ensures moment { MomentLaw }
    ensures contains { ContainsLaw }
    ensures all { AllLaw }
    ensures sum { SumLaw }
{}

/// Where a word ends a commit with the answer Locked, the lock that the answer names is one that another client's log
/// lists, under the same stamp (`listed`). So it is of a locked header that stood in the way of a lock, while the
/// commit gives its locks back, and of the refusal that it carries: in each store that comes about (`reached`).
pub fn lockers_law()
    ensures reached { lockers.ReachedLaw }
    ensures listed { lockers.ListedLaw }
{}

/// Counts don't wrap.
///
/// The word of a row's count is the number of its current version, and one more from the write of the count to that of
/// the header (`counted`); that number is below 2^50 (`room`).
pub fn counts_law()
    ensures counted { CountsLaw }
    ensures room { RoomLaw }
{}
