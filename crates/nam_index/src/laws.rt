//! What the machines make of the words that their verbs find, whatever these words are.

ghost use Rattle.nam_index.specs.PathLaw.{PathLaw};
ghost use Rattle.nam_index.specs.FieldLaw.{AddressLaw, FindFieldLaw, ClaimFieldLaw};
ghost use Rattle.nam_index.specs.FindLaw.{FoundLaw, AbsentLaw};
ghost use Rattle.nam_index.specs.ClaimLaw.{ClaimedLaw, NoSpaceLaw};

/// The path of a key goes through each position of the table, and once.
pub fn path_law()
    ensures { PathLaw }
{}

/// On the path of a table's key, each key word has the address of its field; and whatever words are found, each verb is
/// at the key of a row of the table, at its address.
pub fn field_law()
    ensures addresses { AddressLaw }
    ensures find { FindFieldLaw }
    ensures claim { ClaimFieldLaw }
{}

/// A key is found exactly at the first position of its path that was found to bear it, each before it having been found
/// to bear another key. It is absent exactly where a position was found to bear none, after such others, or where all
/// positions of the table were found to bear other keys.
pub fn find_law()
    ensures found { FoundLaw }
    ensures absent { AbsentLaw }
{}

/// A claim ends at a position exactly where this was found to bear the key, or to bear none and its exchange for the
/// key was done or was lost to the same key; each position before it on the path having been found to bear another key,
/// by its read or by a lost exchange. There is no space exactly where all positions were found to bear other keys.
pub fn claim_law()
    ensures claimed { ClaimedLaw }
    ensures no_space { NoSpaceLaw }
{}
