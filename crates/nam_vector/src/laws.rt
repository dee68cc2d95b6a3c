//! What the calls make of the words that their verbs find, whatever these words are.

ghost use Rattle.nam_vector.specs.SnapLaw.{OrderLaw, BoundLaw, DoneLaw, AgainLaw, RiseLaw};
ghost use Rattle.nam_vector.specs.PublishLaw.{PublishLaw};

/// A snapshot reads the entries in order, and once more in order, with at most two verbs for each entry.
pub fn order_law()
    ensures order { OrderLaw }
    ensures bound { BoundLaw }
{}

/// A snapshot is done exactly where both passes found the same entries, and consists of these.
pub fn done_law()
    ensures { DoneLaw }
{}

/// A snapshot has to be taken again exactly where the last word found is the first of the second pass that differs.
/// Its end names the worker whose entry it is, and the two words, of which the second is above the first where no
/// entry ever falls.
pub fn again_law()
    ensures exact { AgainLaw }
    ensures rises { RiseLaw }
{}

/// A publication is one write, of the worker's own entry.
pub fn publish_law()
    ensures { PublishLaw }
{}
