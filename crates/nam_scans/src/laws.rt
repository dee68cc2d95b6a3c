//! What a running scan has gathered, step by step, and what it lists in the end.

ghost use Rattle.nam_scans.specs.ScannedLaw.{CompleteLaw, FindsLaw, ItemsLaw, StaysLaw};
ghost use Rattle.nam_scans.specs.ScansLaw.{KeepsLaw, OpensLaw};

/// What is claimed of running scans (`ScansOk`): a scan has gathered exactly the rows of its range before the position
/// that it is at.
///
/// The opening has it, with any rows that may be loaded (`opening`). Each verb, each call that is asked, each
/// transaction that is given up and each stop keeps it (`step`): of a store where keys are as is claimed of them, after
/// the step too, where a read gets what it is to get, and where each row and the keys go on as they may (`RestsOn`).
pub fn scans_law()
    ensures opening { OpensLaw }
    ensures step { KeepsLaw }
{}

/// What a scan lists in the end.
///
/// At each key of a table a transaction finds one value, and one alone: that of its own write, or else of the newest
/// version that its snapshot sees at the key's position, and none where no position bears the key (`finds`). While it
/// is open no step changes what it finds (`stays`). Where a client's next word ends its scan, the client lists as read
/// each key of the range at which its transaction finds a value, once, with that value, by rising keys, and nothing
/// else: so no key is passed at which its snapshot sees a value (`complete`). These are the items of the range of any
/// rows that have what the transaction finds there (`items`).
pub fn scanned_law()
    ensures finds { FindsLaw }
    ensures stays { StaysLaw }
    ensures complete { CompleteLaw }
    ensures items { ItemsLaw }
{}
