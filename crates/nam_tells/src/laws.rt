//! What a client's log tells were it taken now, and what each step makes of that.

ghost use Rattle.nam_tells.specs.AskedLaw.{AskedLaw, LeavesLaw};
ghost use Rattle.nam_tells.specs.EndsLaw.{AskLaw, GrowsLaw, IdleLaw, LeaveLaw, RestLaw, WordLaw};
ghost use Rattle.nam_tells.specs.TellsLaw.{HeldLaw, ListsLaw, StepsLaw, StoresLaw, TellsLaw};

/// The log of a client with its teller (`IsTold`), were it taken now.
///
/// It lists just what the teller has of ended events, and then what the call that runs, or the open attempt, has
/// still to tell (`lists`): whether a call runs or not, and whether the client is cut and treated or not. So the log
/// of the client that is cut now tells just that, over the operations of its attempts (`tells`). The locks that an
/// open attempt has told are those that it holds (`held`).
pub fn cut_law()
    ensures lists { ListsLaw }
    ensures tells { TellsLaw }
    ensures held { HeldLaw }
{}

/// Each step makes so much of a teller.
///
/// A new client has told nothing, and each word, each call that may be asked, each transaction that is given up and
/// each stop keeps `IsTold`, with the teller that the step makes (`steps`). So each client of each store that comes
/// about has its teller (`stores`).
pub fn told_law()
    ensures steps { StepsLaw }
    ensures stores { StoresLaw }
{}

/// What a step tells, at most one event.
///
/// A word that is taken while an attempt is open leaves it open, with what it had told and more reads and locks; or
/// it ends it, with an answer, and then just one more event is told: this attempt, once, with the operations that
/// were asked in it, its snapshot, and all its reads and locks (`word`). So does a call that is asked, with its
/// operation (`ask`). An attempt that is given up is told as left (`leave`). Where none is open, a word tells nothing
/// or one event that owns no operation, read, lock or write, and a call that is asked tells nothing (`idle`). Where
/// none is open and no call runs, nothing is still to be told (`rest`). Of each client of a store, what was told
/// before a step stays, and at most one event is told beside (`grows`).
pub fn ended_law()
    ensures word { WordLaw }
    ensures ask { AskLaw }
    ensures leave { LeaveLaw }
    ensures idle { IdleLaw }
    ensures rest { RestLaw }
    ensures grows { GrowsLaw }
{}

/// Over the calls that a client was asked.
///
/// Of each client of each store that comes about: were it cut now, its log would tell, over the operations that were
/// asked in each attempt, just what was told and what is still to be told (`cut`). The log that it leaves as it is
/// tells its own so (`leaves`).
pub fn asked_law()
    ensures cut { AskedLaw }
    ensures leaves { LeavesLaw }
{}
