//! What the calls make of the words that their verbs find, whatever these words are.

ghost use Rattle.nam_ring.specs.CheckLaw.{FreeLaw, NotMovedLaw, CheckFieldLaw};
ghost use Rattle.nam_ring.specs.CopyLaw.{CopyLaw, CopyFieldLaw};
ghost use Rattle.nam_ring.specs.SearchLaw.{FoundLaw, NotThereLaw, SearchFieldLaw};

/// The look at a slot reads the number of the current version and the header of that version's slot. The slot is free
/// exactly where that header has the moved flag.
pub fn check_law()
    ensures free { FreeLaw }
    ensures not_moved { NotMovedLaw }
{}

/// A copy writes the mark, the successor's stamp, the words and the header, in this order, and nothing else.
pub fn copy_law()
    ensures { CopyLaw }
{}

/// A search finds a version exactly after a slot's header that is visible and isn't the mark, its end that isn't
/// visible, its words, and its header again with the same stamp that isn't the mark, where each slot before was ended
/// by a word found. The value is those words, and absent where the header says deleted. Nothing is there exactly where
/// each slot was ended by a word found.
pub fn search_law()
    ensures found { FoundLaw }
    ensures not_there { NotThereLaw }
{}

/// Whatever words are found, each verb is at a field of the position that the call was given.
pub fn field_law()
    ensures check { CheckFieldLaw }
    ensures copy { CopyFieldLaw }
    ensures search { SearchFieldLaw }
{}
