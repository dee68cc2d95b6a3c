//! What holds of slots of old versions, step by step, and in words of slots alone.

ghost use Rattle.nam_slots.specs.SlotsLaw.{CopiedLaw, DirtyLaw, KeepsLaw, MarkedLaw, NextLaw, OpensLaw};
ghost use Rattle.nam_slots.specs.SlotsLaw.{WholeLaw};

/// What is claimed of slots (`SlotsOk`).
///
/// The opening has it, with any rows that may be loaded (`opening`). Each verb, each call that is asked, each
/// transaction that is given up and each stop keeps it (`step`): of a store that meets what holds of every store, and
/// what is claimed of locks (`RestsOn`), which is so after the step too. Where each chain goes on as it may, and what
/// is flagged next stands elsewhere (`GoesOn`), the step makes of each row only what all others rely on (`next`): the
/// mark in a free slot, a whole copy in a marked one, the moved flag at a version that stands elsewhere, or a new
/// version, where the one before stands in its slot.
pub fn slots_law()
    ensures opening { OpensLaw }
    ensures step { KeepsLaw }
    ensures next { NextLaw }
{}

/// What that comes to, in words of slots alone.
///
/// A slot whose header isn't the mark has one version of its row whole, with the next version's stamp as end once that
/// one stands (`whole`). Where a commit installs a version, from the point at which its first data word is still to be
/// written, the current version is whole in its slot, with the commit's stamp as end (`copied`); and it stays so while
/// the data words are the next version's (`dirty`). A step marks a slot only where its header had the moved flag, as
/// the mark has too (`marked`).
pub fn kept_law()
    ensures whole { WholeLaw }
    ensures copied { CopiedLaw }
    ensures dirty { DirtyLaw }
    ensures marked { MarkedLaw }
{}
