//! What the machines make of the words that their verbs find, whatever these words are.

ghost use Rattle.nam_horizon.specs.CollectLaw.{CollectLaw, KnownLaw, ExchangeLaw, CollectFieldLaw};
ghost use Rattle.nam_horizon.specs.MomentLaw.{MomentLaw, NextExchangeLaw, DoneExchangeLaw, NoWriteLaw};
ghost use Rattle.nam_horizon.specs.OldLaw.{TooOldLaw, NotPassedLaw, OldFieldLaw};

/// A collection ends with a horizon exactly where it became known entry after entry, and then cell after cell was
/// collected under it: each entry was read, and exchanged for the snapshot's where it was lower; each cell's tag was
/// read, its end where it is full, and its tag exchanged where the end is within that horizon and the generation has a
/// next one. So each known entry was found, or was written as the snapshot's.
pub fn collect_law()
    ensures exact { CollectLaw }
    ensures known { KnownLaw }
{}

/// A collection exchanges nothing but a lower entry of the horizon for the snapshot's, and the tag of a full cell whose
/// end is within the horizon that the collection ends with for the free tag of the next generation.
pub fn exchange_law()
    ensures { ExchangeLaw }
{}

/// At each moment, whatever words were found so far, a collection knows the entries that it found or wrote, in order of
/// workers, and the cells before the one where it stands were collected under all of them. Each exchange raises a lower
/// entry, found just before, to the snapshot's, or frees a full cell whose end is within the known horizon, once all
/// entries are known; and nothing else is written.
pub fn moment_law()
    ensures so_far { MomentLaw }
    ensures next_exchange { NextExchangeLaw }
    ensures done_exchange { DoneExchangeLaw }
    ensures no_write { NoWriteLaw }
{}

/// A snapshot is too old exactly at the first worker whose horizon entry was found to be above the snapshot's, and it
/// isn't passed exactly where no entry was.
pub fn old_law()
    ensures too_old { TooOldLaw }
    ensures not_passed { NotPassedLaw }
{}

/// Whatever words are found, each verb is at an entry of a worker, or at a field of the bucket's cells. `place_law` of
/// `nam_layout` says where such a field stands.
pub fn field_law()
    ensures collect { CollectFieldLaw }
    ensures old { OldFieldLaw }
{}
