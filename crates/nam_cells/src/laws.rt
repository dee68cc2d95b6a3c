//! What holds of cells and the horizon, step by step, and where old versions stand.

ghost use Rattle.nam_cells.specs.CellsLaw.{FlagsLaw, FreedLaw, FullLaw, HorizonLaw, KeepsLaw, NextLaw, OpensLaw};
ghost use Rattle.nam_cells.specs.CellsLaw.{PlacesLaw};

/// What is claimed of cells and the horizon (`CellsOk`).
///
/// The opening has it, with any rows that may be loaded (`opening`). Each verb, each call that is asked, each
/// transaction that is given up and each stop keeps it (`step`), and owes all other clients what they rely on (`next`):
/// of a store that meets what the law of words says of it before the step, where each row and the vector go on as they
/// may (`Ready`). Where a mover's next verb sets the moved flag of a slot, the version there stands elsewhere
/// (`flags`), which is what rows going on as they may asks of a mover.
pub fn cells_law()
    ensures opening { OpensLaw }
    ensures step { KeepsLaw }
    ensures next { NextLaw }
    ensures flags { FlagsLaw }
{}

/// What that comes to.
///
/// A cell whose tag says that it is full has one version of its owner, whole, in its owner's bucket (`full`). A horizon
/// entry never falls, and is at most the vector's (`horizon`). A step changes the tag of a full cell only where the end
/// of its version is within the horizon (`freed`). Each old version is whole in its slot, or whole in a full cell of
/// its bucket, or its end is within the horizon (`places`).
pub fn places_law()
    ensures full { FullLaw }
    ensures horizon { HorizonLaw }
    ensures freed { FreedLaw }
    ensures places { PlacesLaw }
{}
