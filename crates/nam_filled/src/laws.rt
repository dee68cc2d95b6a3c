//! What holds of cells and the moves that fill them, step by step, and what it comes to where a mover finds a cell
//! taken.

ghost use Rattle.nam_filled.specs.FilledLaw.{KeepsLaw, OpensLaw};
ghost use Rattle.nam_filled.specs.TakenLaw.{AloneLaw, CountLaw, MoversLaw, StaysLaw, TakenLaw};

/// What is claimed of cells and the moves that fill them (`FilledOk`).
///
/// Each move that has ever claimed a cell is an event of its worker's log, or runs: a move into the cell's bucket, of a
/// version of the row at which its key stands. It has claimed one cell, once, and a tag counts the claims of its cell.
/// A cell that is written is that of the last of them, which runs; a full cell stores that one's version, and where no
/// other client has collected, no collection that this client has done since sees the end of the version. Of a cell
/// whose tags are used up nothing but that is said.
///
/// The opening has it, with any rows that may be loaded (`opening`). Each verb, each call that is asked, each
/// transaction that is given up and each stop keeps it (`step`), of a store that meets what is claimed of calls, slots,
/// cells and keys, where rows and key words go on as they may (`RestsOn`).
pub fn filled_law()
    ensures opening { OpensLaw }
    ensures step { KeepsLaw }
{}

/// What that comes to for the moves that have ever claimed a cell, of a store that meets `FilledOk`, whose clients have
/// their tellers.
///
/// Each of them is told at its place, were its client cut now: a move into the cell's bucket, of a version of the row
/// at which its key stands (`movers`). One move has claimed one cell (`alone`), for good, whatever the step is
/// (`stays`). All clients together tell at least as many moves into the bucket as have claimed one of its cells
/// (`count`).
pub fn holders_law()
    ensures movers { MoversLaw }
    ensures alone { AloneLaw }
    ensures stays { StaysLaw }
    ensures count { CountLaw }
{}

/// Where a mover finds a cell taken, as it looks at its tag or as its exchange of the tag fails, the cell has been
/// claimed by another worker's move; or by a move that its own client has told, of a version such that another client
/// collects too, or none of the collections of the bucket that its client has told since sees the version behind it; or
/// it has been claimed as often as a tag can count.
///
/// It is so of a store that meets `FilledOk` and what is claimed of calls, version chains and cells, whose clients have
/// their tellers.
pub fn taken_law()
    ensures { TakenLaw }
{}
