//! Where a scan answers, whatever words its verbs found.

ghost use Rattle.nam_scan.specs.ScanLaw.{KeyLaw, DoneLaw, LastLaw, RowLaw, TooOldLaw, AstrayLaw};

/// A scan answers a key exactly where the key word found names one of the range; it is done exactly where the last
/// position's key word names none, or where that position is left. A row, that it is too old, and that it went astray
/// are the ends of the read at the position: the row is that of the key and of what the read got.
pub fn answer_law()
    ensures key { KeyLaw }
    ensures done { DoneLaw }
    ensures last { LastLaw }
    ensures row { RowLaw }
    ensures too_old { TooOldLaw }
    ensures astray { AstrayLaw }
{}
