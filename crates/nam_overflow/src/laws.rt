//! What the calls make of the words that their verbs find, whatever these words are.

ghost use Rattle.nam_overflow.specs.SearchLaw.{FoundLaw, NotThereLaw, SearchFieldLaw};
ghost use Rattle.nam_overflow.specs.ClaimLaw.{ClaimedLaw, NoRoomLaw, ClaimFieldLaw};
ghost use Rattle.nam_overflow.specs.FillLaw.{FillLaw, FillFieldLaw};

/// A search finds a value exactly where a cell has it, after each cell before it was ended by a word found: the
/// cell's tag says that it is full, the row owns it, the snapshot sees its header and not its end, and the same tag
/// was found after the words. It finds none exactly where each cell was ended by a word found.
pub fn search_law()
    ensures found { FoundLaw }
    ensures not_there { NotThereLaw }
{}

/// A cell is claimed exactly where its tag was found free and its exchange found the same tag, after each cell before
/// it was lost: its tag was found not free, or its exchange found another tag. There is no room exactly where each
/// cell was lost.
pub fn claim_law()
    ensures claimed { ClaimedLaw }
    ensures no_room { NoRoomLaw }
{}

/// A filling writes the cell's owner, begin, end and words, in this order, and nothing else.
pub fn fill_law()
    ensures { FillLaw }
{}

/// Whatever words are found, each verb is at a field of the bucket's cells. `place_law` of `nam_layout` says where such
/// a field stands.
pub fn field_law()
    ensures search { SearchFieldLaw }
    ensures claim { ClaimFieldLaw }
    ensures fill { FillFieldLaw }
{}
