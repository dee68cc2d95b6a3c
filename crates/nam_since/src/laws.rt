//! What holds of guards and of the order of publication, step by step, and what it comes to.

ghost use Rattle.nam_since.specs.CircleLaw.{CircleLaw, ContainedLaw, PlacesLaw, RisesLaw};
ghost use Rattle.nam_since.specs.SinceLaw.{KeepsLaw, OpensLaw};

/// What is claimed of guards (`SinceOk`).
///
/// Each publication is some worker's and has its place in the order of publication, once, and nothing else has one. A
/// commit that has locked a record, to write it or only to guard it, stands before each that writes the record
/// without having been seen by the first. Each snapshot that contains the second contains the first.
///
/// The opening has it, with any rows that may be loaded (`opening`). Each verb, each call that is asked, each
/// transaction that is given up and each stop keeps it (`step`), of a store that meets what the law of words says of
/// calls, snapshots, locks, versions and publications before the step (`CommitsOk`), where the step's client goes on as
/// an observer of the vector may.
pub fn since_law()
    ensures opening { OpensLaw }
    ensures step { KeepsLaw }
{}

/// What that comes to, where one published commit is overtaken by a second, that one maybe by a third, and so on.
///
/// Each published commit has one place in the order of publication (`places`), and the first stands before the last
/// there (`rises`). So no commit is overtaken by itself, however many are between (`circle`). Each snapshot that a
/// client has taken and that contains the last contains the first (`contained`).
pub fn circle_law()
    ensures places { PlacesLaw }
    ensures rises { RisesLaw }
    ensures circle { CircleLaw }
    ensures contained { ContainedLaw }
{}
