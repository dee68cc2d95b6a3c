//! What packing and unpacking make of each other's results, in all forms.

ghost use Rattle.nam_header.specs.HeaderLaw.{UnpackedLaw, PackedLaw, WithinLaw, WordLaw, GreatestLaw};

/// Each word is exactly one header, and each header within the bounds exactly one word.
pub fn round_trip_law()
    ensures unpacked { UnpackedLaw }
    ensures packed { PackedLaw }
    ensures within { WithinLaw }
    ensures word { WordLaw }
{}

/// A header bears the numbers up to the greatest of its form.
pub fn number_law()
    ensures { GreatestLaw }
{}
