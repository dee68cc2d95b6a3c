//! What a move makes of the words that its verbs find, whatever these words are.

ghost use Rattle.nam_mover.specs.MoveLaw.{NothingLaw, NoRoomLaw, MovedLaw, BackLaw, MoveFieldLaw};
ghost use Rattle.nam_mover.specs.ClaimedLaw.{ClaimedLaw};
ghost use Rattle.nam_mover.specs.OrderLaw.{WriteLaw, ExchangeLaw};

/// There is nothing to move exactly where the header found of the slot is moved, and no room exactly where it isn't,
/// and each cell was found not free or was lost after the slot's end was read.
///
/// A version is moved exactly where a cell was claimed, the slot's words were read, owner, begin, end and words were
/// written into that cell, the slot's header was found the same, the tag was written full, and then the moved flag
/// was tried, whatever that found. The cell is given back exactly where the slot's header was found changed, and the
/// free tag of the next generation was written; a tag of the last generation stays as it is.
pub fn move_law()
    ensures nothing { NothingLaw }
    ensures no_room { NoRoomLaw }
    ensures moved { MovedLaw }
    ensures back { BackLaw }
{}

/// Whatever words were found, a move says that a cell is claimed for a version exactly from the exchange that claimed
/// it to the call's end, and the stamp is that of the slot's header.
pub fn claimed_law()
    ensures { ClaimedLaw }
{}

/// At each moment, whatever words were found so far, a move writes into no cell but the one that it has claimed, and
/// tries for the slot's moved flag only once the version was copied and the last step made its cell full.
pub fn order_law()
    ensures writes { WriteLaw }
    ensures exchanges { ExchangeLaw }
{}

/// Whatever words are found, each verb is at a field of the position or of the bucket's cells. `place_law` of
/// `nam_layout` says where such a field stands.
pub fn field_law()
    ensures { MoveFieldLaw }
{}
