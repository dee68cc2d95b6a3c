//! Laws of a world's steps.

ghost use Rattle.nam_protocol.specs.StepLaw.{StepLaw};
ghost use Rattle.nam_protocol.specs.UnreadLaw.{UnreadLaw};

/// A step of a worker whose client fits, and its medic where it has one, is said by the words as a function of fields:
/// its verb is at a field of the shape, the session takes the word that the verb finds there, and the step changes that
/// field to what the verb leaves there, and no other field.
pub fn step_law()
    ensures { StepLaw }
{}

/// What a call of a transaction has read is at hand only while that call runs.
///
/// A client at rest, or in another call, has nothing of it at hand: a new one, and from then on after each call that it
/// is asked at rest and each word that it takes, and when it has given its transaction up or was cut off.
pub fn unread_law()
    ensures { UnreadLaw }
{}
