//! How the calls end, by what their verbs did, whatever words they found.

ghost use Rattle.nam_record.specs.CurrentLaw.{DeletedLaw, FoundLaw, UnsureLaw, OldLaw, CurrentFieldLaw};
ghost use Rattle.nam_record.specs.RecheckLaw.{RecheckLaw, RecheckFieldLaw};
ghost use Rattle.nam_record.specs.WordsLaw.{WordsLaw, WordsFieldLaw};
ghost use Rattle.nam_record.specs.InstallLaw.{InstallLaw, OnlyWritesLaw, InstallFieldLaw};

/// The reading of a current version ends by its first look at the header exactly where the snapshot doesn't see that
/// version, or sees that it is a deletion. Else it reads all data words in order and the header again, and ends by
/// these two headers exactly: with the words where both bear one stamp and neither is locked, unsure where both bear
/// one stamp and one is locked, and sent to older versions where the stamps differ.
pub fn current_law()
    ensures deleted { DeletedLaw }
    ensures found { FoundLaw }
    ensures unsure { UnsureLaw }
    ensures old { OldLaw }
{}

/// One more look reads the header once, and says exactly whether it bears the stamp.
pub fn recheck_law()
    ensures { RecheckLaw }
{}

/// The reading of the data words ends with a value exactly where all data words were read in order and were these.
pub fn words_law()
    ensures { WordsLaw }
{}

/// An install writes the data words in order, which a deletion has not, then the number after that of the version
/// before, modulo 2^64, and the header last, and does nothing else.
pub fn install_law()
    ensures writes { InstallLaw }
    ensures only { OnlyWritesLaw }
{}

/// Whatever words are found, each verb is at a field of the position that the call was given.
pub fn field_law()
    ensures current { CurrentFieldLaw }
    ensures recheck { RecheckFieldLaw }
    ensures words { WordsFieldLaw }
    ensures install { InstallFieldLaw }
{}
