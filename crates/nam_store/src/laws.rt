//! What a step of a store does, and what holds of every store.

ghost use Rattle.nam_store.specs.BaseLaw.{KeepsLaw, OpensLaw, ReachedLaw};
ghost use Rattle.nam_store.specs.LoadedLaw.{KeysOpenLaw, RowsStandLaw};
ghost use Rattle.nam_store.specs.StoreLaw.{DoesLaw, OthersLaw, StepByLaw};
ghost use Rattle.nam_store.specs.Turns.{WorldOpensLaw, WorldTurnsLaw};

/// A client that has a verb can do it next: on the words of the store, at the address of its field, and the client
/// takes the word that it finds there.
pub fn step_by()
    ensures { StepByLaw }
{}

/// What a step leaves alone.
///
/// A client's verb is at a field of the shape. It changes that field to what it leaves there, and no other; and it
/// changes that field only where the client's point names it as one that it writes. Claims of keys write keys alone, a
/// commit writes records, their slots and its own worker's intent and entry, a move cells and the flag of a slot, a
/// collection the horizon and tags of cells; all other calls only read.
///
/// A step of any kind changes one client.
pub fn step_leaves()
    ensures fields { DoesLaw }
    ensures clients { OthersLaw }
{}

/// What holds of every store that comes about, whatever its clients do one after another: of a shape within its limits
/// there are as many words as the shape's, all below 2^64, and a client for each worker, which by itself is as
/// `ClientOk` says.
///
/// The opening has it, with any rows that may be loaded, and each verb, each call that may be asked, each transaction
/// that is given up and each stop keeps it.
pub fn base_law()
    ensures opening { OpensLaw }
    ensures step { KeepsLaw }
    ensures reached { ReachedLaw }
{}

/// Loaded rows stand in the index. Where a key stands on its path the positions before it bear other keys, so that no
/// key stands twice; and each loaded row stands on its key's path.
pub fn loaded_law()
    ensures keys { KeysOpenLaw }
    ensures rows { RowsStandLaw }
{}

/// A world's turns are steps of its store, which has the world's words and its sessions' clients.
///
/// The world in which nothing was done yet comes about from the opening by the calls that its drivers ask first. A turn
/// is the verb of its session's client and the calls that the driver asks then, until one takes a verb; or it is a
/// stop, in a form without intents. What this needs of the sessions, a new world has, and each such turn keeps.
pub fn world_law()
    ensures opening { WorldOpensLaw }
    ensures turns { WorldTurnsLaw }
{}
