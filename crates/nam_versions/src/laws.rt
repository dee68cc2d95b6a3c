//! What holds of version chains and publications, step by step, and what snapshots see of them.

ghost use Rattle.nam_versions.specs.ChainsLaw as chains;
ghost use Rattle.nam_versions.specs.PublishedLaw as published;
ghost use Rattle.nam_versions.specs.SeenLaw as seen;

/// What is claimed of version chains (`ChainsOk`).
///
/// Version 0 is the loader's, each later one some client's, which took the snapshot before it published that number.
/// Each writer had all versions before its own in its snapshot. Each value has its row's width. So no stamp comes twice
/// in a chain.
///
/// The opening has it, with any rows that may be loaded, and each verb, each call that may be asked, each transaction
/// that is given up and each stop keeps it, of a store that meets what is said of every store, of moments, of locks and
/// of publications (`CommitsOk`), where the step's client goes on as an observer of the vector may. Such a step leaves
/// a row's versions as they are, or installs one more, which no snapshot sees that was taken before.
pub fn chains_law()
    ensures opening { chains.OpensLaw }
    ensures step { chains.KeepsLaw }
    ensures next { chains.NextLaw }
    ensures once { chains.OnceLaw }
{}

/// What is claimed of publications (`PublishedOk`).
///
/// A client's publications are numbered from the start on, as many as its entry of the vector says, and each has
/// installed all its records. So what a snapshot contains that some client has taken is installed, and no two
/// publications have one stamp.
pub fn published_law()
    ensures opening { published.OpensLaw }
    ensures step { published.KeepsLaw }
    ensures installed { published.InstalledLaw }
    ensures once { published.OnceLaw }
{}

/// What a snapshot that some client has taken sees of a row's versions, in a store that meets `CommitsOk`.
///
/// It sees a front of the chain. After each step it sees the same. And each version that it sees is the loader's, or its
/// commit was published and is installed in all its records.
pub fn seen_law()
    ensures front { seen.FrontLaw }
    ensures stays { seen.StaysLaw }
    ensures whole { seen.WholeLaw }
{}
