//! Sixteen places suffice for what a transaction has at hand, and what its commit gives fits.

ghost use Rattle.nam_protocol.specs.FewLaw.{FewKeysLaw, FewPlacesLaw, FewTidiesLaw, KeyWordLaw};
ghost use Rattle.nam_protocol.specs.CommitGives.{CommitGivesLaw};

/// A transaction that fits has claimed exactly the keys that it writes and those that it guards only, at most 16 in
/// all; so many are its writes, its guards and the records of its commit at the most.
///
/// At each point of a commit that fits, the records, the headers of their locks and the counts are at most 16, and the
/// commit's number is one of the form. The keys that are tidied after a commit are at most 16. The word that a position
/// bears for the key of an operation that fits is below 2^64.
pub fn places_suffice()
    ensures keys { FewKeysLaw }
    ensures places { FewPlacesLaw }
    ensures tidies { FewTidiesLaw }
    ensures words { KeyWordLaw }
{}

/// At each point of a commit that fits, its stamp is one that a header of the form can bear, each record's place has
/// that form, and each written record gets a value of its place's width, or is deleted.
pub fn commit_gives()
    ensures { CommitGivesLaw }
{}
