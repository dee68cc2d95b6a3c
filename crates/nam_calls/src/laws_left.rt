//! Verbs to come: fewer with each word taken, and how many there are at a read's begin; and which field each of them
//! is at.

ghost use Rattle.nam_calls.specs.FallsLaw.{FindLaw, ClaimKeyLaw, CurrentLaw, WordsLaw, InstallLaw, SlotLaw, CopyLaw};
ghost use Rattle.nam_calls.specs.FallsLaw.{RingLaw, CellLaw, ClaimLaw, FillLaw, MoveLaw, CollectLaw, OldLaw, LockLaw};
ghost use Rattle.nam_calls.specs.FallsLaw.{UnlockLaw, ReadLaw, ReadBeginsLaw};
ghost use Rattle.nam_calls.specs.FieldLaw.{PlaceVerbsLaw, CellVerbsLaw, MoveVerbsLaw, CollectVerbsLaw, ReadVerbsLaw};
ghost use Rattle.nam_calls.specs.FieldLaw.{PathLaw};

/// The machines of a key and of a position: at each point that fits, each word leads to a point that fits with fewer
/// verbs to come, or to an end that fits, as a value of the position's width.
pub fn position_falls()
    ensures find { FindLaw }
    ensures claim_key { ClaimKeyLaw }
    ensures current { CurrentLaw }
    ensures words { WordsLaw }
    ensures install { InstallLaw }
    ensures slot { SlotLaw }
    ensures copy { CopyLaw }
    ensures ring { RingLaw }
{}

/// The same for the machines of a bucket's cells and of the horizon, and for a whole move and a whole collection.
pub fn cells_fall()
    ensures search { CellLaw }
    ensures claim { ClaimLaw }
    ensures fill { FillLaw }
    ensures moves { MoveLaw }
    ensures collect { CollectLaw }
    ensures old { OldLaw }
{}

/// The same for locking records in order, where what follows the last lock takes no more than `rest`, and for writing
/// headers back.
pub fn locks_fall()
    ensures lock { LockLaw }
    ensures unlock { UnlockLaw }
{}

/// The same for a whole read. It begins with one verb less than the greatest number for its table.
pub fn read_falls()
    ensures falls { ReadLaw }
    ensures begins { ReadBeginsLaw }
{}

/// Each verb of each call is at a field of what the call was given: of its position, of its bucket's cells, of the
/// workers' entries; the verbs along a path are at the keys of the table's positions. This needs no more than that the
/// point fits, which the other laws keep. Where such fields stand says `nam_layout`.
pub fn verbs_at_fields()
    ensures place { PlaceVerbsLaw }
    ensures cells { CellVerbsLaw }
    ensures moves { MoveVerbsLaw }
    ensures collect { CollectVerbsLaw }
    ensures read { ReadVerbsLaw }
    ensures path { PathLaw }
{}
