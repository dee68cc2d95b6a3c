//! Whose the keys are that stand in the words, where each of them stands, and what a search tells of that.

ghost use Rattle.nam_claimed.specs.ClaimedLaw.{AskedLaw, KeepsLaw, OpensLaw, ReachedLaw};
ghost use Rattle.nam_claimed.specs.EndsLaw.{AbsentLaw, CrowdedLaw, NoSpaceLaw, PlacedLaw, ScanLaw};
ghost use Rattle.nam_claimed.specs.HomeLaw.{ApartLaw, ClientsLaw, GoesLaw, StandsLaw, TakenLaw, UsedLaw};

/// Each key that a position bears is one that a loaded row of the position's table has, or one that an operation
/// claims which some client was asked so far (`ClaimedOk`).
///
/// The opening has it, with any rows that may be loaded (`opening`). Each verb, each call that is asked, each
/// transaction that is given up and each stop keeps it (`step`), of a store that meets what holds of every store, and
/// whose clients run operations that they were asked (`RestsOn`). That they do is so in each store that comes about
/// (`asked`); so each has it (`reached`).
pub fn claimed_law()
    ensures opening { OpensLaw }
    ensures step { KeepsLaw }
    ensures reached { ReachedLaw }
    ensures asked { AskedLaw }
{}

/// The position of a key as a function of the words (`home_of`), where keys stand on their paths.
///
/// It is the one position that bears the key (`stands`), and the home of no other key of the table (`apart`). Where
/// key words that stand stay, a key keeps its home, and a key that gets one gets a position that bore none (`goes`).
/// A step gives a home to no key but that of the operation whose claim takes one (`taken`). A position whose row has
/// any version but the loader's absent one is a key's home (`used`). What a client has found, what its open attempt
/// has claimed and what its scan has gathered is at home (`clients`).
pub fn home_law()
    ensures stands { StandsLaw }
    ensures apart { ApartLaw }
    ensures goes { GoesLaw }
    ensures taken { TakenLaw }
    ensures used { UsedLaw }
    ensures clients { ClientsLaw }
{}

/// What a search tells, at the word that ends it, of a store that meets what is claimed of keys.
///
/// At the answer NoSpace the key has no home, and as many other keys of its table as the table has positions are among
/// those that the model says were loaded or claimed; it stays so (`no_space`). That is what the model asks of the
/// answer (`crowded`). Where a search ends without a position, its key has no home at that moment (`absent`). Where a
/// claim ends with a position, that is its key's home after the word (`placed`). A key word that a scan finds tells
/// whose home its position is (`scan`).
pub fn ends_law()
    ensures no_space { NoSpaceLaw }
    ensures crowded { CrowdedLaw }
    ensures absent { AbsentLaw }
    ensures placed { PlacedLaw }
    ensures scan { ScanLaw }
{}
