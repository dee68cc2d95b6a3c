//! Which words take a lock.

ghost use Rattle.nam_commit.specs.HeldLaw.{HeldLaw};

/// Each word leaves the headers of the locks as they were, but for the one that an exchange of a header finds as it
/// expected: this header is then held too, as the last.
pub fn held_law()
    ensures { HeldLaw }
{}
