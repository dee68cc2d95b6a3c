//! Laws of the definitions: calls are straight programs.

ghost use Rattle.nam_calls.specs.ProgramRead.{ReadIsProgram};
ghost use Rattle.nam_calls.specs.ProgramClaim.{ClaimIsProgram};
ghost use Rattle.nam_calls.specs.ProgramTidy.{MoveIsProgram};
ghost use Rattle.nam_calls.specs.ProgramCollect.{CollectIsProgram};

/// A read at a position is one straight program, its eight steps: at each moment the verb stands that the program has
/// there, whatever words were found so far, and the read ends where the program returns, with its answer. No other
/// program is that.
///
/// The record has data words and slots, its bucket has cells, and the store has workers.
pub fn read_program_law()
    ensures { ReadIsProgram }
{}

/// The search for a key's position, and the claim of one, are each one straight program in the same way, in a table
/// that has positions.
pub fn claim_program_law()
    ensures { ClaimIsProgram }
{}

/// The move of a tidying is one straight program in the same way: it looks at the slot, claims a cell, copies the
/// version there, and shows that it was moved, or gives the cell back.
///
/// The record has data words, and its bucket has cells.
pub fn move_program_law()
    ensures { MoveIsProgram }
{}

/// A snapshot, and the collection of a bucket after it, are each one straight program in the same way.
///
/// The store has workers, and the bucket has cells.
pub fn collect_program_law()
    ensures { CollectIsProgram }
{}
