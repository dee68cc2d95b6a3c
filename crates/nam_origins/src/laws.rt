//! What holds of origins and of lists in every store, with what is known of its versions and publications.

ghost use Rattle.nam_origins.specs.ListedLaw.{AllListedLaw, ListsKeepLaw, ListsOpenLaw, LogsKeepLaw, LogsOpenLaw};
ghost use Rattle.nam_origins.specs.ListedLaw.{LogsReachedLaw};
ghost use Rattle.nam_origins.specs.OriginsLaw.{KeepsLaw, OpensLaw, ReachedLaw, StaysLaw, WrittenLaw};

/// What is claimed of origins (`OriginsOk`).
///
/// Each version but the loader's is what one commit gave one of its records: a published commit, or one that is in
/// flight and has done that record. A commit that has published, and frees its guards or clears its intent, is the last
/// of its client's publications.
///
/// The opening has it, with any rows that may be loaded. Each verb, each call that is asked, each transaction that is
/// given up and each stop keeps it, of a store that meets what holds of every store; no other group is needed.
pub fn origins_law()
    ensures opening { OpensLaw }
    ensures step { KeepsLaw }
    ensures reached { ReachedLaw }
{}

/// What that comes to, in each store that comes about.
///
/// Each version but the loader's has such an origin, with its stamp, its value and its writer's snapshot. A commit that
/// has given a record its version is, one step later, still in flight with that record done, or has published: from its
/// first new version on it can't be refused.
pub fn written_law()
    ensures written { WrittenLaw }
    ensures stays { StaysLaw }
{}

/// What a client's log has by itself (`LogsOk`).
///
/// Its events own all written items that it lists, and all its snapshots but one: that of the open transaction, or of
/// the collection that runs. So a commit that is listed later has its own items, and no others'. And the rows of all
/// that was published are rows of the shape.
///
/// The opening has it, with any rows that may be loaded, and each step keeps it, of a store that meets what holds of
/// every store.
pub fn logs_law()
    ensures opening { LogsOpenLaw }
    ensures step { LogsKeepLaw }
    ensures reached { LogsReachedLaw }
{}

/// What logs list of publications (`ListedOk`), and what it comes to.
///
/// The publications of a client are the commits that its log lists, in order, each with its stamp, its snapshot, and
/// write by write the key that its row bears and its value; but the last isn't listed yet while its commit frees the
/// guards or clears the intent.
///
/// The opening has it (`opening`). Each step keeps it (`step`), of a store that meets what holds of every store and
/// what is claimed of origins, keys and logs, where no key word that stands is changed. Where no commit that has
/// published is in flight, and so where the client rests, its listed commits are all its publications (`listed`).
pub fn listed_law()
    ensures opening { ListsOpenLaw }
    ensures step { ListsKeepLaw }
    ensures listed { AllListedLaw }
{}
